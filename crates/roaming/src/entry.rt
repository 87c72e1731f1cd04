// Entries of a roaming list.
use numbers::digits::Digits;

// Whose network a node is of.
#[derive(Clone, Copy, Debug, PartialEq, Eq)]
pub enum Class {
    HomeNetwork = 0,
    HomeCountry = 1,
    Abroad = 2,
}

// Leading digits of node numbers, and the class of the nodes that have them.
#[derive(Clone, Copy)]
pub struct Entry {
    pub digits: Digits,
    pub class: Class,
}

// Why an entry is refused: it has not 1 to 15 digits or no known class, or the list is full.
#[derive(Clone, Copy, Debug, PartialEq, Eq)]
pub enum RoamFault {
    NoEntry,
    ListFull,
}
