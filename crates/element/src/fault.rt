// Where and why an element is not read.
ghost use Rattle.std.specs.Prelude.{◌≡◌};
ghost use Rattle.element.specs.Fault.{layer_number, spot_of};

// The component itself, or the inside of its argument or result body; with the number that stands for it.
#[derive(Clone, Copy, Debug, PartialEq, Eq)]
pub enum Layer {
    Component = 0,
    Body = 1,
}

impl From<Layer> for u8 {
    ghost from_gives = { λ layer number. number ≡ layer_number layer };

    fn from(layer: Layer) -> u8 {
        layer as u8
    }
}

// The place of a tag octet, counted from 0, or the place after the holder's end if nothing is there; and its layer.
#[derive(Clone, Copy, Debug, PartialEq, Eq)]
pub struct Spot {
    pub place: usize,
    pub layer: Layer,
}

// Nothing is there, or its tag or length is unreadable or does not fit: two faults, each with its place.
#[derive(Clone, Copy, Debug, PartialEq, Eq)]
pub enum ElementFault {
    Missing(Spot),
    Unreadable(Spot),
}

impl ElementFault {
    // Where nothing is, or what cannot be read stands.
    pub fn spot(self) -> Spot
        ensures { result ≡ spot_of self }
    {
        match self {
            ElementFault::Missing(spot) | ElementFault::Unreadable(spot) => spot,
        }
    }
}
