// What a node adds to its number: the VLR's LMSI, the SGSN's address.
ghost use Rattle.std.specs.Prelude.{◌≡◌};

use octets::text::Hex;
use std::fmt;

#[derive(Clone, Copy)]
pub struct Lmsi {
    pub octets: [u8; 4],
}

// A GSN address: 04 and 4 octets, or 50 and 16.
#[derive(Clone, Copy)]
pub enum GsnAddress {
    Ipv4([u8; 4]),
    Ipv6([u8; 16]),
}

impl Lmsi {
    ghost use Rattle.numbers.specs.Number.{lmsi_of};

    // An LMSI is 4 octets. None where these are not: what that means is for the reader of an argument to say, so no TryFrom with an error.
    pub fn read(octets: &[u8]) -> Option<Lmsi>
        ensures { result ≡ lmsi_of octets.now }
    {
        let octets = octets.try_into().ok()?;
        Some(Lmsi { octets })
    }
}

impl GsnAddress {
    ghost use Rattle.numbers.specs.Number.{address_of};

    // None as for an LMSI.
    pub fn read(octets: &[u8]) -> Option<GsnAddress>
        ensures { result ≡ address_of octets.now }
    {
        match octets {
            [0x04, rest @ ..] => rest.try_into().ok().map(GsnAddress::Ipv4),
            [0x50, rest @ ..] => rest.try_into().ok().map(GsnAddress::Ipv6),
            _ => None,
        }
    }
}

impl fmt::Display for Lmsi {
    ghost use Rattle.std.specs.Prelude.{Some};
    ghost use Rattle.octets.specs.Text.{octets_text};

    ghost output = { λ l. Some (octets_text l.octets) };

    fn fmt<W: fmt::Write>(&self, f: &mut fmt::Formatter<W>) -> fmt::Result {
        Hex(&self.octets).fmt(f)
    }
}

impl fmt::Display for GsnAddress {
    ghost use Rattle.std.specs.Prelude.{Some};
    ghost use Rattle.numbers.specs.Text.{address_text};

    ghost output = { λ a. Some (address_text a) };

    fn fmt<W: fmt::Write>(&self, f: &mut fmt::Formatter<W>) -> fmt::Result {
        match self {
            GsnAddress::Ipv4(octets) => {
                let octets = Hex(octets);
                write!(f, "04 {octets}")
            }
            GsnAddress::Ipv6(octets) => {
                let octets = Hex(octets);
                write!(f, "50 {octets}")
            }
        }
    }
}
