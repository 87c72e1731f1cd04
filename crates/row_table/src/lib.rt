// A store that keeps its records in a lent slice of rows.
#![tactic(auto)]

pub mod table;
mod writing;
