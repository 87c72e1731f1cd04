// Elements of a component: a tag octet, a length and the rest (X.690), read in place.
#![tactic(auto)]

pub mod fault;
pub mod reader;
pub mod reading;
pub mod scan;
pub mod tag;
