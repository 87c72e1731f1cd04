ghost use Rattle.std.specs.Prelude.{◌≡◌, ℕ, ◌-◌, ◌≤◌, true, length, take, drop, replicate};
ghost use Rattle.subscription.specs.Once.{once};

// Up to 20 service codes, none twice. Places past them are 0, so that the same codes are the same value.
// Places of its own and no `Octets`, as digits have: else a local of a profile or a record could not be passed by value twice.
#[derive(Clone, Copy)]
pub struct CodeList {
    pub codes: [u8; 20],
    pub len: usize,
    ghost whole: { length codes ≡ 20 },
    ghost few: { len ≤ 20 },
    ghost apart: { once (take len codes) ≡ true },
    ghost padded: { drop len codes ≡ replicate (20 - len) 0 },
}
