// Node numbers that are refused, digits that are packed, and IMSIs that are compared.
use super::made::*;
use numbers::node::number;
use std::test::*;

#[rattlefmt::skip]
const NO_NUMBERS: [&[u8]; 10] = [
    // No first octet, another one, or nothing after it.
    &[],
    &[0x21],
    &[0x90, 0x21],
    &[0xA1, 0x21],
    &[0x91],
    // 16 and 17 digits.
    &[0x91, 0x21, 0x43, 0x65, 0x87, 0x09, 0x21, 0x43, 0x65],
    &[0x91, 0x21, 0x43, 0x65, 0x87, 0x09, 0x21, 0x43, 0x65, 0xF7],
    // A half that is no digit.
    &[0x91, 0x0A],
    &[0x91, 0x1F],
    &[0x91, 0xF1, 0xF2],
];

#[test]
fn what_is_no_node_number(rt: HostRuntime) -> Result<(), Fail> {
    for octets in &NO_NUMBERS {
        let fault = number(octets).err().ok_or("accepted")?;
        assert_eq!(rt; fault.number(), 1);
    }
    Ok(())
}

// Digits, and the octets that they are packed in.
struct Packed {
    digits: &'static [u8],
    octets: &'static [u8],
}

#[rattlefmt::skip]
const PACKED: [Packed; 5] = [
    Packed { digits: &[0], octets: &[0xF0] },
    Packed { digits: &[1, 2], octets: &[0x21] },
    Packed { digits: &[0, 0, 1, 0, 1], octets: &[0x00, 0x01, 0xF1] },
    Packed { digits: &[1, 2, 3, 4, 5, 6, 7, 8, 9, 0, 1, 2, 3, 4], octets: &[0x21, 0x43, 0x65, 0x87, 0x09, 0x21, 0x43] },
    Packed { digits: &[9, 8, 7, 6, 5, 4, 3, 2, 1, 0, 9, 8, 7, 6, 5], octets: &[0x89, 0x67, 0x45, 0x23, 0x01, 0x89, 0x67, 0xF5] },
];

#[test]
fn packed_digits(rt: HostRuntime) -> Result<(), Fail> {
    for row in &PACKED {
        let found = digits(row.octets)?;
        assert_eq!(rt; found.as_slice(), row.digits);
        assert_eq!(rt; found.pack().as_slice(), row.octets);
    }
    Ok(())
}

// Two IMSIs, and whether they are equal, which is what is asked of them.
struct Pair {
    equal: bool,
    left: &'static [u8],
    right: &'static [u8],
}

#[rattlefmt::skip]
const PAIRS: [Pair; 5] = [
    Pair { equal: true, left: &[0x00, 0x01, 0xF1], right: &[0x00, 0x01, 0xF1] },
    Pair { equal: false, left: &[0x00, 0x01, 0xF1], right: &[0x00, 0x01, 0xF2] },
    // One begins with the other: 00101 and 001010, 10 digits and 11.
    Pair { equal: false, left: &[0x00, 0x01, 0xF1], right: &[0x00, 0x01, 0x01] },
    Pair { equal: false, left: &[0x00, 0x01, 0x01], right: &[0x00, 0x01, 0xF1] },
    Pair { equal: false, left: &[0x00, 0x01, 0x00, 0x00, 0x00], right: &[0x00, 0x01, 0x00, 0x00, 0x00, 0xF0] },
];

#[test]
fn equal_imsis(rt: HostRuntime) -> Result<(), Fail> {
    for row in &PAIRS {
        assert_eq!(rt; imsi(row.left)? == imsi(row.right)?, row.equal);
    }
    Ok(())
}
