// Decimal digits, packed two to an octet.
ghost use Rattle.std.specs.Prelude.{◌≡◌, ℕ, ◌-◌, ◌<◌, ◌≤◌, ◌↔◌, ◌++◌, ◌∷◌, [], Some, true, length, take, drop, replicate, slice_index, IsSome, OnSome};
ghost use Rattle.numbers.specs.Packing.{digital, packed, unpacked};

use octets::list::Octets;
use std::fmt;

// 1 to 15 decimal digits. Places past them are 0, so that the same digits are the same value.
// Places of its own and no `Octets`: a struct round one is `Copy`, but today's check refuses a local of it that is passed by value twice. All numbers, stays and records hold digits.
#[derive(Clone, Copy)]
pub struct Digits {
    pub digits: [u8; 15],
    pub len: u8,
    ghost whole: { length digits ≡ 15 },
    ghost few: { len ≤ 15 },
    ghost digital: { digital (take len digits) ≡ true },
    ghost padded: { drop len digits ≡ replicate (15 - len) 0 },
}

// One digit more; none where it is above 9 or there are 15 already.
fn push_digit(digits: &mut Octets<15>, digit: u8) -> Option<()>
    ensures room { IsSome result ↔ ((digit ≤ 9) × (length digits.old < 15)) }
    ensures more { OnSome result (digits.new ≡ digits.old ++ digit ∷ []) }
{
    if digit > 9 {
        return None;
    }
    digits.try_push(digit).ok()
}

impl Digits {
    ghost use Rattle.numbers.specs.Digit.{digits_in, digits_of, zero_digits};

    // The single digit 0.
    pub fn zero() -> Digits
        ensures { result ≡ zero_digits }
    {
        Digits {
            digits: [0; 15],
            len: 1,
        }
    }

    // The value that holds these digits.
    fn holding(digits: &Octets<15>) -> Digits
        requires { digital digits.now ≡ true }
        ensures { Some result ≡ digits_of digits.now }
    {
        Digits {
            digits: digits.to_array(),
            len: digits.len() as u8,
        }
    }

    pub fn as_slice(&self) -> &[u8]
        ensures digits { result.now ≡ digits_in self.now }
        ensures few { length result.now ≤ 15 }
        ensures decimal { (k : ℕ) → slice_index result.now k ≤ 9 }
    {
        &self.digits[..self.len as usize]
    }

    // The digits, two to an octet, low half first. F fills the last octet after an odd count.
    // Two at a time by a pattern: `chunks(2)` would leave a third shape to rule out.
    pub fn pack(&self) -> Octets<8>
        ensures { result ≡ packed (digits_in self.now) }
    {
        let mut octets = Octets::new();
        let mut rest = self.as_slice();
        while let [low, high, more @ ..] = rest {
            octets.try_push(low + 16 * high).unwrap();
            rest = more;
        }
        if let [last] = rest {
            octets.try_push(last + 0xf0).unwrap();
        }
        octets
    }

    // The digits that are packed in `octets`; none where these are no 1 to 15 digits.
    // No TryFrom: octets hold digits in two ways, packed and after 91, and the name says which.
    pub fn unpack(octets: &[u8]) -> Option<Digits>
        ensures { result ≡ digits_of (unpacked octets.now) }
    {
        let (last, front) = octets.split_last()?;
        let mut digits = Octets::new();
        for octet in front {
            push_digit(&mut digits, octet % 16)?;
            push_digit(&mut digits, octet / 16)?;
        }
        push_digit(&mut digits, last % 16)?;
        if last / 16 != 15 {
            push_digit(&mut digits, last / 16)?;
        }
        Some(Digits::holding(&digits))
    }
}

// Two values are equal exactly when they hold the same digits. Not derived: that would compare the places past them too, and say so to callers.
impl PartialEq for Digits {
    ghost use Rattle.numbers.specs.Digit.{same_digits};
    ghost use Rattle.std.specs.Cmp.Rules.{comparing};
    ghost use Rattle.std.proofs.Common.{rules, arith};

    ghost eq = { λ x y. same_digits x y };

    ghost laws = { first_of (Prim.search (comparing, rules), Prim.grind (arith, Self.row.coded.inj)) };

    fn eq(&self, other: &Digits) -> bool {
        self.as_slice() == other.as_slice()
    }
}

impl fmt::Display for Digits {
    ghost use Rattle.std.specs.Prelude.{Some};
    ghost use Rattle.numbers.specs.Digit.{digits_in};
    ghost use Rattle.numbers.specs.Text.{digits_text};

    ghost output = { λ d. Some (digits_text (digits_in d)) };

    fn fmt<W: fmt::Write>(&self, f: &mut fmt::Formatter<W>) -> fmt::Result {
        for digit in self.as_slice() {
            write!(f, "{digit}")?;
        }
        Ok(())
    }
}
