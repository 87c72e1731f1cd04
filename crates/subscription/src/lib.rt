// What the register keeps of a subscriber: profile, stays, record.
#![tactic(auto)]

pub mod code_list;
pub mod codes;
pub mod making;
pub mod profile;
pub mod profile_reading;
pub mod stay;
