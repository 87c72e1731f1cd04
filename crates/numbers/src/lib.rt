// Digits, and the numbers made of them: IMSI, node numbers and MSISDN; LMSI and GSN address.
#![tactic(auto)]

pub mod address;
pub mod digits;
pub mod imsi;
pub mod laws;
pub mod node;
