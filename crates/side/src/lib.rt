// The two sides of the register, circuit and packet, and the one text by which both handle updates.
#![tactic(auto)]

pub mod circuit;
pub mod download;
pub mod outcome;
pub mod packet;
pub mod side;
pub mod update;
