// What every layer is made of: lists of octets held in place, and numbers that stand for no case.
#![tactic(auto)]

pub mod laws;
pub mod list;
pub mod range;
pub mod text;
