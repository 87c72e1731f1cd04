// Arguments of the operations that nodes invoke.
use numbers::address::{GsnAddress, Lmsi};
use numbers::imsi::Imsi;
use numbers::node::{MscNumber, SgsnNumber, VlrNumber};

// An element is missing, or its value is wrong.
#[derive(Clone, Copy, Debug, PartialEq, Eq)]
pub enum ArgumentFault {
    Missing,
    Wrong,
}

#[derive(Clone, Copy)]
pub struct UpdateLocation {
    pub imsi: Imsi,
    pub msc: MscNumber,
    pub vlr: VlrNumber,
    pub lmsi: Option<Lmsi>,
}

#[derive(Clone, Copy)]
pub struct UpdateGprsLocation {
    pub imsi: Imsi,
    pub sgsn: SgsnNumber,
    pub address: GsnAddress,
}

// A purge names the VLR, the SGSN or both.
#[derive(Clone, Copy)]
pub struct PurgeMs {
    pub imsi: Imsi,
    pub vlr: Option<VlrNumber>,
    pub sgsn: Option<SgsnNumber>,
}

#[derive(Clone, Copy)]
pub enum Argument {
    UpdateLocation(UpdateLocation),
    UpdateGprsLocation(UpdateGprsLocation),
    PurgeMs(PurgeMs),
}
