ghost use Rattle.std.specs.Prelude.{◌≡◌, ℕ, ◌≤◌, length};

use super::entry::Entry;

// Up to 32 entries, in the order in which they were added. No ArrayVec: that one is not `Copy`.
#[derive(Clone, Copy)]
pub struct RoamingList {
    pub entries: [Entry; 32],
    pub len: usize,
    ghost whole: { length entries ≡ 32 },
    ghost few: { len ≤ 32 },
}
