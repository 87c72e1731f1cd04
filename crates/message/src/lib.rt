// Components that the register sends: inserts, cancels, results and errors. Lengths are written in one octet.
#![tactic(auto)]

pub mod cancel;
pub mod insert;
pub mod kinds;
pub mod message;
pub mod outcome;
mod parts;
pub mod worked;
