// A dialogue under its number. The definitions and proofs of this crate are about registers in which each dialogue is on its own.
#![tactic(auto)]

#[derive(Clone, Copy)]
pub struct Numbered<D> {
    pub number: u32,
    pub dialogue: D,
}
