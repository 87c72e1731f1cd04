// Where a subscriber stands.
use super::profile::Profile;
use numbers::address::{GsnAddress, Lmsi};
use numbers::imsi::Imsi;
use numbers::node::{MscNumber, SgsnNumber, VlrNumber};

#[derive(Clone, Copy)]
pub struct CircuitStay {
    pub vlr: VlrNumber,
    pub msc: MscNumber,
    pub lmsi: Option<Lmsi>,
}

#[derive(Clone, Copy)]
pub struct PacketStay {
    pub sgsn: SgsnNumber,
    pub address: GsnAddress,
}

// A side of a record: whether there is a stay, whether it is purged, and the stay. Presence is a flag beside the stay and no Option: a side has one plain
// form whether the subscriber stands or not. Where there is no stay the rest has one fixed form.
#[derive(Clone, Copy)]
pub struct Location<S> {
    pub present: bool,
    pub purged: bool,
    pub stay: S,
}

#[derive(Clone, Copy)]
pub struct Record {
    pub imsi: Imsi,
    pub profile: Profile,
    pub circuit: Location<CircuitStay>,
    pub packet: Location<PacketStay>,
}
