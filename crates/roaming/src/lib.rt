// Where subscribers may roam: the list of known networks, and the decision by class and bar.
#![tactic(auto)]

pub mod decision;
pub mod entry;
pub mod list;
pub mod roaming_list;
