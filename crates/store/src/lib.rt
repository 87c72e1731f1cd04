// What a store of subscribers' records means, and rows as both built stores search them.
#![tactic(auto)]

pub mod interface;
pub mod laws;
pub mod row;
pub mod rows;
