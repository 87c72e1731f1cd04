// Operations that nodes invoke and the register invokes, their arguments and their errors (TS 29.002).
#![tactic(auto)]

pub mod argument;
pub mod argument_reading;
pub mod codes;
mod element_reading;
pub mod user_error;
