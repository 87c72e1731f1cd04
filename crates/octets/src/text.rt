// Octets as text.
ghost use Rattle.std.specs.Prelude.{Some};
ghost use Rattle.octets.specs.Text.{octet_text, octets_text};

use std::fmt;

// One octet, as two hexadecimal digits.
#[derive(Clone, Copy)]
struct HexOctet(u8);

impl fmt::Display for HexOctet {
    ghost output = { λ h. Some (octet_text h.0) };

    fn fmt<W: fmt::Write>(&self, f: &mut fmt::Formatter<W>) -> fmt::Result {
        let octet = self.0;
        write!(f, "{octet:02X}")
    }
}

// Octets shown in hexadecimal, two digits each, with a blank between.
#[derive(Clone, Copy)]
pub struct Hex<'a>(pub &'a [u8]);

impl<'a> fmt::Display for Hex<'a> {
    ghost output = { λ h. Some (octets_text h.0.now) };

    fn fmt<W: fmt::Write>(&self, f: &mut fmt::Formatter<W>) -> fmt::Result {
        let [first, rest @ ..] = self.0 else {
            return Ok(());
        };
        HexOctet(*first).fmt(f)?;
        for octet in rest {
            let octet = HexOctet(*octet);
            write!(f, " {octet}")?;
        }
        Ok(())
    }
}
