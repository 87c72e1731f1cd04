// The decision by class and bar.
ghost use Rattle.std.specs.Prelude.{◌≡◌};
ghost use Rattle.roaming.specs.Roaming.{class_number, class_of, decided, fault_number};
ghost use Rattle.roaming.specs.declared.entry.RoamFault.TheVariants as fault;

use super::entry::{Class, RoamFault};
use octets::range::OutOfRange;
use operation::user_error::Cause;
use subscription::profile::Bar;

impl From<Class> for u8 {
    ghost from_gives = { λ class n. n ≡ class_number class };

    fn from(class: Class) -> u8 {
        class as u8
    }
}

// Written out, as those of other enums are: each names its own cases.
impl TryFrom<u8> for Class {
    type Error = OutOfRange;

    ghost try_from_gives = { λ n class. class ≡ class_of n };

    fn try_from(number: u8) -> Result<Class, OutOfRange> {
        match number {
            0 => Ok(Class::HomeNetwork),
            1 => Ok(Class::HomeCountry),
            2 => Ok(Class::Abroad),
            _ => Err(OutOfRange),
        }
    }
}

impl RoamFault {
    // The number of the refusal: a property of the fault, and no conversion.
    pub fn number(self) -> u8
        ensures { result ≡ fault_number self }
    {
        match self {
            RoamFault::NoEntry => 1,
            RoamFault::ListFull => 2,
        }
    }
}

// A class that is none makes no entry.
impl From<OutOfRange> for RoamFault {
    ghost from_gives = { λ _ refusal. refusal ≡ fault.NoEntry };

    fn from(_fault: OutOfRange) -> RoamFault {
        RoamFault::NoEntry
    }
}

// Whether a subscriber may stand at a node. A node of no known network is cause 0; bar b forbids the classes above 2 - b, with cause 3.
pub fn decide(class: Option<Class>, bar: Bar) -> Result<(), Cause>
    ensures { result ≡ decided class bar }
{
    match (class, bar) {
        (None, _) => Err(Cause::PlmnRoamingNotAllowed),
        (Some(class), bar) if u8::from(class) > 2u8.saturating_sub(u8::from(bar)) => {
            Err(Cause::OperatorDeterminedBarring)
        }
        (Some(_), _) => Ok(()),
    }
}
