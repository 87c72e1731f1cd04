// Numbers made from octets.
use numbers::digits::Digits;
use numbers::imsi::Imsi;
use std::test::*;

pub fn imsi(octets: &[u8]) -> Result<Imsi, Fail> {
    Imsi::unpack(octets).ok_or_else(|| Fail::new(format_args!("no IMSI: {octets:?}")))
}

pub fn digits(octets: &[u8]) -> Result<Digits, Fail> {
    Digits::unpack(octets).ok_or_else(|| Fail::new(format_args!("no digits: {octets:?}")))
}
