// Texts of digits, which stand for octets: two characters to an octet, low half first, F after an odd last one.
use super::fault::LineFault;
use super::words::{half, octet};
use std::alloc::Global;

// Appends the octets of a text of digits. Two characters at a time by a pattern, as digits are packed: `chunks(2)` would leave a third shape to rule out.
fn pack_text(octets: &mut Vec<u8>, text: &str) -> Result<(), LineFault> {
    let mut rest = text.as_bytes();
    while let [low, high, more @ ..] = rest {
        let low = half(*low).ok_or(LineFault::NotUnderstood)?;
        let high = half(*high).ok_or(LineFault::NotUnderstood)?;
        octets.push(high << 4 | low)?;
        rest = more;
    }
    if let [last] = rest {
        let last = half(*last).ok_or(LineFault::NotUnderstood)?;
        octets.push(0xf0 | last)?;
    }
    Ok(())
}

// The octets of digits.
pub fn digit_octets(heap: Global, digits: &str) -> Result<Vec<u8>, LineFault> {
    let mut octets = Vec::new(heap);
    pack_text(&mut octets, digits)?;
    Ok(octets)
}

// The octets of a number: 91 in front, unless a first octet and a colon are written.
pub fn number_octets(heap: Global, text: &str) -> Result<Vec<u8>, LineFault> {
    let (first, digits) = match text.split_once(':') {
        Some((first, digits)) => (octet(first).ok_or(LineFault::NotUnderstood)?, digits),
        None => (0x91, text),
    };
    let mut octets = vec![in heap; first]?;
    pack_text(&mut octets, digits)?;
    Ok(octets)
}
