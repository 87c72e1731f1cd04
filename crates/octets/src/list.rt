// Lists of octets of a bounded length, held in place: copied as a whole, with no heap.
ghost use Rattle.std.specs.Prelude.{◌≡◌, ◌+◌, ◌<◌, ◌≤◌, ◌==◌, ◌↔◌, [], ◌∷◌, ◌++◌, length, IsOk, OnOk, OnErr};
ghost use Rattle.std.specs.Str.{bytes_eq};
ghost use Rattle.std.specs.Cmp.Rules.{comparing};
ghost use Rattle.std.proofs.Common.{rules, arith};

use std::marker::Model;

// More octets than have room.
#[derive(Clone, Copy, Debug, PartialEq, Eq)]
pub struct Full;

// Up to N octets, seen as the list of them. The places past them hold 0.
// No ArrayVec: packed digits are copied, and that one is not Copy.
#[derive(Clone, Copy)]
pub struct Octets<const N: usize> {
    held: [u8; N],
    len: usize,
}

impl<const N: usize> Model for Octets<N> {
    ghost use Rattle.std.specs.Prelude.{◌≡◌, ℕ, ◌-◌, ◌≤◌, List, length, take, drop, replicate};
    ghost use Rattle.std.proofs.Common.{ap};
    ghost use Rattle.octets.specs.Padding.{filled, refilled};

    ghost Value = { List ℕ };

    ghost view = { λ s. take s.len s.held };

    ghost invariant = { λ s. (length s.held ≡ N) × (s.len ≤ N) × (drop s.len s.held ≡ replicate (N - s.len) 0) };

    ghost inverse = { λ bs. record { held = filled N bs; len = length bs } };

    ghost inverse_ok = { λ a h. ap (λ p. record { held = p.0; len = p.1 }) (refilled N a.len a.held h.0 h.1 h.2) };
}

impl<const N: usize> Octets<N> {
    ghost use Rattle.octets.specs.Padding.{filled};

    pub fn new() -> Octets<N>
        ensures { result ≡ [] }
    {
        Octets {
            held: [0; N],
            len: 0,
        }
    }

    pub fn as_slice(&self) -> &[u8]
        ensures all { result.now ≡ self.now }
        ensures few { length result.now ≤ N }
    {
        &self.held[..self.len]
    }

    // All N places: the octets, then zeros.
    pub fn to_array(&self) -> [u8; N]
        ensures { result ≡ filled N self.now }
    {
        self.held
    }

    pub fn len(&self) -> usize
        ensures count { result ≡ length self.now }
        ensures few { result ≤ N }
    {
        self.len
    }

    pub fn is_empty(&self) -> bool
        ensures { result ≡ (length self.now == 0) }
    {
        self.len == 0
    }

    // One octet more; refused, and the list left as it was, where it is full.
    pub fn try_push(&mut self, octet: u8) -> Result<(), Full>
        ensures room { IsOk result ↔ (length self.old < N) }
        ensures ok { OnOk result (self.new ≡ self.old ++ octet ∷ []) }
        ensures err { OnErr result (self.new ≡ self.old) }
    {
        if self.len >= N {
            return Err(Full);
        }
        self.held[self.len] = octet;
        self.len += 1;
        Ok(())
    }

    // Some octets more; refused, and the list left as it was, where not all of them have room.
    pub fn try_extend_from_slice(&mut self, more: &[u8]) -> Result<(), Full>
        ensures room { IsOk result ↔ (length self.old + length more.now ≤ N) }
        ensures ok { OnOk result (self.new ≡ self.old ++ more.now) }
        ensures err { OnErr result (self.new ≡ self.old) }
    {
        if more.len() > N - self.len {
            return Err(Full);
        }
        let end = self.len + more.len();
        let held = &mut self.held[..];
        held[self.len..end].copy_from_slice(more);
        self.len = end;
        Ok(())
    }
}

// Two lists are equal exactly when they hold the same octets. Not derived: that would compare the places past them too, and say so to callers.
impl<const N: usize> PartialEq for Octets<N> {
    ghost eq = { λ x y. bytes_eq x y };

    ghost laws = { first_of (Prim.search (comparing, rules), Prim.grind (arith, Self.row.coded.inj)) };

    fn eq(&self, other: &Octets<N>) -> bool {
        self.as_slice() == other.as_slice()
    }
}
