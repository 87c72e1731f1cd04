// IMSIs.
ghost use Rattle.std.specs.Prelude.{◌≡◌, ◌≤◌};

use super::digits::Digits;

// An IMSI: 5 to 15 digits, so 3 to 8 octets.
#[derive(Clone, Copy, PartialEq)]
pub struct Imsi {
    pub digits: Digits,
    ghost long: { 5 ≤ digits.len },
}

impl Imsi {
    ghost use Rattle.numbers.specs.Number.{imsi_of};

    // The IMSI that is packed in `octets`; none where these are no 5 to 15 digits. Named, as for digits, by the way it is held.
    pub fn unpack(octets: &[u8]) -> Option<Imsi>
        ensures { result ≡ imsi_of octets.now }
    {
        let digits = Digits::unpack(octets)?;
        if digits.as_slice().len() >= 5 {
            Some(Imsi { digits })
        } else {
            None
        }
    }
}
