// Why a component is refused.
ghost use Rattle.std.specs.Prelude.{◌≡◌};
ghost use Rattle.component.specs.Fault.{carried, component_number, component_spot};

use element::fault::{ElementFault, Spot};

// Its octets are none or too many; its outer tag is another one; an element cannot be read; the identifier, or the code, is malformed or missing.
#[derive(Clone, Copy, Debug, PartialEq, Eq)]
pub enum ComponentFault {
    Size,
    Tag,
    Element(ElementFault),
    Identifier(Spot),
    Code(Spot),
}

impl From<ElementFault> for ComponentFault {
    ghost from_gives = { λ fault carrier. carrier ≡ carried fault };

    fn from(fault: ElementFault) -> ComponentFault {
        ComponentFault::Element(fault)
    }
}

impl ComponentFault {
    // The number of the refusal: a property of the fault beside its place, from which it is not made again, so no conversion.
    pub fn number(self) -> u8
        ensures { result ≡ component_number self }
    {
        match self {
            ComponentFault::Size => 4,
            ComponentFault::Tag => 5,
            ComponentFault::Element(_) => 6,
            ComponentFault::Identifier(_) => 7,
            ComponentFault::Code(_) => 8,
        }
    }

    // The place and layer that come with the refusal, if it has them.
    pub fn spot(self) -> Option<Spot>
        ensures { result ≡ component_spot self }
    {
        match self {
            ComponentFault::Size | ComponentFault::Tag => None,
            ComponentFault::Element(element) => Some(element.spot()),
            ComponentFault::Identifier(spot) | ComponentFault::Code(spot) => Some(spot),
        }
    }
}
