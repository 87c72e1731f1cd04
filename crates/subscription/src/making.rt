// Sides with a stay and without one, and records without stays.
ghost use Rattle.std.specs.Prelude.{◌≡◌};
ghost use Rattle.subscription.specs.Stay.{absent, fresh, no_circuit, no_packet, standing};

use super::profile::Profile;
use super::stay::{CircuitStay, Location, PacketStay, Record};
use numbers::address::GsnAddress;
use numbers::digits::Digits;
use numbers::imsi::Imsi;
use numbers::node::{MscNumber, SgsnNumber, VlrNumber};

impl<S> Location<S> {
    // No stay; `blank` fills its place.
    pub fn absent(blank: S) -> Location<S>
        ensures { result ≡ absent blank }
    {
        Location {
            present: false,
            purged: false,
            stay: blank,
        }
    }

    // A stay that is not purged. A name for each form of a side reads better than one function that takes the flag.
    pub fn standing(stay: S) -> Location<S>
        ensures { result ≡ standing stay }
    {
        Location {
            present: true,
            purged: false,
            stay,
        }
    }
}

// No stay on the circuit side.
pub fn no_circuit() -> Location<CircuitStay>
    ensures { result ≡ no_circuit }
{
    Location::absent(CircuitStay {
        vlr: VlrNumber {
            digits: Digits::zero(),
        },
        msc: MscNumber {
            digits: Digits::zero(),
        },
        lmsi: None,
    })
}

// No stay on the packet side.
pub fn no_packet() -> Location<PacketStay>
    ensures { result ≡ no_packet }
{
    Location::absent(PacketStay {
        sgsn: SgsnNumber {
            digits: Digits::zero(),
        },
        address: GsnAddress::Ipv4([0; 4]),
    })
}

impl Record {
    // A record with no stays.
    pub fn fresh(imsi: Imsi, profile: Profile) -> Record
        ensures { result ≡ fresh imsi profile }
    {
        Record {
            imsi,
            profile,
            circuit: no_circuit(),
            packet: no_packet(),
        }
    }
}
