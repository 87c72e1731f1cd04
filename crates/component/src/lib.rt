// Components that nodes send: invokes, results and errors (Q.773).
#![tactic(auto)]

pub mod answer;
mod code;
pub mod fault;
pub mod invoke;
mod outer;
