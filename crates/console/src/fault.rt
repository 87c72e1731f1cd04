// Why a line is not played, and why the register refuses what a line asks.
use numbers::node::NumberFault;
use octets::range::OutOfRange;
use roaming::entry::RoamFault;
use std::alloc::{AllocError, AllocFailed};
use std::num::ParseIntError;
use subscription::profile::SubscriptionFault;

// Why a line is not played. `?` asks for a conversion of each fault that ends it.
#[derive(Clone, Copy, Debug, PartialEq, Eq)]
pub enum LineFault {
    NotUnderstood,
    OutOfMemory,
}

impl<T: Drop> From<AllocFailed<T>> for LineFault {
    fn from(_fault: AllocFailed<T>) -> LineFault {
        LineFault::OutOfMemory
    }
}

impl From<AllocError> for LineFault {
    fn from(_fault: AllocError) -> LineFault {
        LineFault::OutOfMemory
    }
}

impl From<ParseIntError> for LineFault {
    fn from(_fault: ParseIntError) -> LineFault {
        LineFault::NotUnderstood
    }
}

// Why the register refuses, by the part of it that does.
#[derive(Clone, Copy, Debug, PartialEq, Eq)]
pub enum Refusal {
    Number(NumberFault),
    Roam(RoamFault),
    Subscription(SubscriptionFault),
}

impl From<NumberFault> for Refusal {
    fn from(fault: NumberFault) -> Refusal {
        Refusal::Number(fault)
    }
}

impl From<RoamFault> for Refusal {
    fn from(fault: RoamFault) -> Refusal {
        Refusal::Roam(fault)
    }
}

impl From<SubscriptionFault> for Refusal {
    fn from(fault: SubscriptionFault) -> Refusal {
        Refusal::Subscription(fault)
    }
}

impl From<OutOfRange> for Refusal {
    fn from(fault: OutOfRange) -> Refusal {
        Refusal::Subscription(fault.into())
    }
}

impl Refusal {
    // The number of the refusal: a property of the fault, and no conversion.
    pub fn number(self) -> u8 {
        match self {
            Refusal::Number(fault) => fault.number(),
            Refusal::Roam(fault) => fault.number(),
            Refusal::Subscription(fault) => fault.number(),
        }
    }
}
