// Values that messages hold, with their numbers (TS 29.002).
ghost use Rattle.std.specs.Prelude.{◌≡◌};
ghost use Rattle.message.specs.Kinds.{access_number, cancel_number, codes_tag, mode_of};

use octets::range::OutOfRange;

// Why a location is cancelled.
#[derive(Clone, Copy, Debug, PartialEq, Eq)]
pub enum CancelType {
    UpdateProcedure = 0,
    SubscriptionWithdraw = 1,
}

impl From<CancelType> for u8 {
    ghost from_gives = { λ reason n. n ≡ cancel_number reason };

    fn from(reason: CancelType) -> u8 {
        reason as u8
    }
}

// The sides that a subscription has.
#[derive(Clone, Copy, Debug, PartialEq, Eq)]
pub enum AccessMode {
    Both = 0,
    CircuitOnly = 1,
    PacketOnly = 2,
}

impl From<AccessMode> for u8 {
    ghost from_gives = { λ mode n. n ≡ access_number mode };

    fn from(mode: AccessMode) -> u8 {
        mode as u8
    }
}

// Written out, as those of other enums are: each names its own cases.
impl TryFrom<u8> for AccessMode {
    type Error = OutOfRange;

    ghost try_from_gives = { λ n mode. mode ≡ mode_of n };

    fn try_from(number: u8) -> Result<AccessMode, OutOfRange> {
        match number {
            0 => Ok(AccessMode::Both),
            1 => Ok(AccessMode::CircuitOnly),
            2 => Ok(AccessMode::PacketOnly),
            _ => Err(OutOfRange),
        }
    }
}

// The services whose codes an insert holds.
#[derive(Clone, Copy, Debug, PartialEq, Eq)]
pub enum Service {
    Bearer,
    Teleservice,
}

impl Service {
    // The tag of a list of such codes: where they stand in an insert and not what the service is, so no conversion.
    pub fn tag(self) -> u8
        ensures { result ≡ codes_tag self }
    {
        match self {
            Service::Bearer => 0xA4,
            Service::Teleservice => 0xA6,
        }
    }
}
