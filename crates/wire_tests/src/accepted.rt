// What is read of invokes that are accepted.
use component::invoke::{Invoke, read_invoke};
use numbers::address::GsnAddress;
use operation::argument::{Argument, PurgeMs, UpdateLocation};
use std::process::Abort;
use std::test::*;

// One and the same update location, with longer forms of its lengths.
#[rattlefmt::skip]
const LONG_LENGTHS: [&[u8]; 9] = [
    &[0xA1, 0x15, 0x02, 1, 5, 0x02, 1, 2, 0x30, 13, 0x04, 3, 0x00, 0x01, 0xF1, 0x81, 2, 0x91, 0x21, 0x04, 2, 0x91, 0x43],
    // The component's.
    &[0xA1, 0x81, 0x15, 0x02, 1, 5, 0x02, 1, 2, 0x30, 13, 0x04, 3, 0x00, 0x01, 0xF1, 0x81, 2, 0x91, 0x21, 0x04, 2, 0x91, 0x43],
    &[0xA1, 0x82, 0x00, 0x15, 0x02, 1, 5, 0x02, 1, 2, 0x30, 13, 0x04, 3, 0x00, 0x01, 0xF1, 0x81, 2, 0x91, 0x21, 0x04, 2, 0x91, 0x43],
    // The identifier's and the code's.
    &[0xA1, 0x16, 0x02, 0x81, 1, 5, 0x02, 1, 2, 0x30, 13, 0x04, 3, 0x00, 0x01, 0xF1, 0x81, 2, 0x91, 0x21, 0x04, 2, 0x91, 0x43],
    &[0xA1, 0x17, 0x02, 1, 5, 0x02, 0x82, 0x00, 1, 2, 0x30, 13, 0x04, 3, 0x00, 0x01, 0xF1, 0x81, 2, 0x91, 0x21, 0x04, 2, 0x91, 0x43],
    // The argument's.
    &[0xA1, 0x17, 0x02, 1, 5, 0x02, 1, 2, 0x30, 0x82, 0x00, 13, 0x04, 3, 0x00, 0x01, 0xF1, 0x81, 2, 0x91, 0x21, 0x04, 2, 0x91, 0x43],
    // The IMSI's.
    &[0xA1, 0x16, 0x02, 1, 5, 0x02, 1, 2, 0x30, 14, 0x04, 0x81, 3, 0x00, 0x01, 0xF1, 0x81, 2, 0x91, 0x21, 0x04, 2, 0x91, 0x43],
    &[0xA1, 0x17, 0x02, 1, 5, 0x02, 1, 2, 0x30, 15, 0x04, 0x82, 0x00, 3, 0x00, 0x01, 0xF1, 0x81, 2, 0x91, 0x21, 0x04, 2, 0x91, 0x43],
    // The numbers'.
    &[0xA1, 0x18, 0x02, 1, 5, 0x02, 1, 2, 0x30, 16, 0x04, 3, 0x00, 0x01, 0xF1, 0x81, 0x81, 2, 0x91, 0x21, 0x04, 0x82, 0x00, 2, 0x91, 0x43],
];

fn check_update(rt: &impl Abort, update: UpdateLocation) -> Result<(), Fail> {
    assert_eq!(rt; update.imsi.digits.as_slice(), [0, 0, 1, 0, 1].as_slice());
    assert_eq!(rt; update.msc.digits.as_slice(), [1, 2].as_slice());
    assert_eq!(rt; update.vlr.digits.as_slice(), [3, 4].as_slice());
    Ok(())
}

#[test]
fn long_lengths(rt: HostRuntime) -> Result<(), Fail> {
    for octets in &LONG_LENGTHS {
        match read_invoke(octets) {
            Ok(
                Invoke {
                    id,
                    argument: Ok(Argument::UpdateLocation(update)),
                },
            ) => {
                assert_eq!(rt; id, 5);
                check_update(&rt, update)?;
            }
            _ => return Err(Fail::new("no update location")),
        }
    }
    Ok(())
}

// A purge, and the digits of the numbers that count; none where there is no number.
struct Purge {
    vlr: Option<&'static [u8]>,
    sgsn: Option<&'static [u8]>,
    octets: &'static [u8],
}

#[rattlefmt::skip]
const PURGES: [Purge; 8] = [
    Purge { vlr: Some(&[1, 2]), sgsn: None, octets: &[0xA1, 17, 0x02, 1, 5, 0x02, 1, 67, 0xA3, 9, 0x04, 3, 0x00, 0x01, 0xF1, 0x80, 2, 0x91, 0x21] },
    Purge { vlr: None, sgsn: Some(&[3, 4]), octets: &[0xA1, 17, 0x02, 1, 5, 0x02, 1, 67, 0xA3, 9, 0x04, 3, 0x00, 0x01, 0xF1, 0x81, 2, 0x91, 0x43] },
    Purge { vlr: Some(&[1, 2]), sgsn: Some(&[3, 4]), octets: &[0xA1, 21, 0x02, 1, 5, 0x02, 1, 67, 0xA3, 13, 0x04, 3, 0x00, 0x01, 0xF1, 0x80, 2, 0x91, 0x21, 0x81, 2, 0x91, 0x43] },
    // After the SGSN number nothing is read, right or wrong.
    Purge { vlr: None, sgsn: Some(&[3, 4]), octets: &[0xA1, 21, 0x02, 1, 5, 0x02, 1, 67, 0xA3, 13, 0x04, 3, 0x00, 0x01, 0xF1, 0x81, 2, 0x91, 0x43, 0x80, 2, 0x91, 0x21] },
    Purge { vlr: None, sgsn: Some(&[3, 4]), octets: &[0xA1, 20, 0x02, 1, 5, 0x02, 1, 67, 0xA3, 12, 0x04, 3, 0x00, 0x01, 0xF1, 0x81, 2, 0x91, 0x43, 0x81, 1, 0x91] },
    // After the VLR number only an SGSN number is read, and only right after it.
    Purge { vlr: Some(&[1, 2]), sgsn: None, octets: &[0xA1, 21, 0x02, 1, 5, 0x02, 1, 67, 0xA3, 13, 0x04, 3, 0x00, 0x01, 0xF1, 0x80, 2, 0x91, 0x21, 0x80, 2, 0x91, 0x43] },
    Purge { vlr: Some(&[1, 2]), sgsn: None, octets: &[0xA1, 23, 0x02, 1, 5, 0x02, 1, 67, 0xA3, 15, 0x04, 3, 0x00, 0x01, 0xF1, 0x80, 2, 0x91, 0x21, 0x84, 0, 0x81, 2, 0x91, 0x43] },
    Purge { vlr: Some(&[0]), sgsn: Some(&[0]), octets: &[0xA1, 21, 0x02, 1, 5, 0x02, 1, 67, 0xA3, 13, 0x04, 3, 0x00, 0x01, 0xF1, 0x80, 2, 0x91, 0xF0, 0x81, 2, 0x91, 0xF0] },
];

impl Purge {
    fn check(&self, rt: &impl Abort, purge: PurgeMs) -> Result<(), Fail> {
        let vlr = purge.vlr.as_ref().map(|vlr| vlr.digits.as_slice());
        let sgsn = purge.sgsn.as_ref().map(|sgsn| sgsn.digits.as_slice());
        assert_eq!(rt; vlr, self.vlr);
        assert_eq!(rt; sgsn, self.sgsn);
        Ok(())
    }
}

#[test]
fn purges(rt: HostRuntime) -> Result<(), Fail> {
    for row in &PURGES {
        match read_invoke(row.octets) {
            Ok(
                Invoke {
                    argument: Ok(Argument::PurgeMs(purge)),
                    ..
                },
            ) => row.check(&rt, purge)?,
            _ => return Err(Fail::new("no purge")),
        }
    }
    Ok(())
}

// An update, and the LMSI or the GSN address that is read of it; none where there is no LMSI.
struct Held {
    value: Option<&'static [u8]>,
    octets: &'static [u8],
}

#[rattlefmt::skip]
const HELD: [Held; 5] = [
    Held { value: None, octets: &[0xA1, 21, 0x02, 1, 5, 0x02, 1, 2, 0x30, 13, 0x04, 3, 0x00, 0x01, 0xF1, 0x81, 2, 0x91, 0x21, 0x04, 2, 0x91, 0x43] },
    Held { value: Some(&[0xDE, 0xAD, 0xBE, 0xEF]), octets: &[0xA1, 27, 0x02, 1, 5, 0x02, 1, 2, 0x30, 19, 0x04, 3, 0x00, 0x01, 0xF1, 0x81, 2, 0x91, 0x21, 0x04, 2, 0x91, 0x43, 0x8A, 4, 0xDE, 0xAD, 0xBE, 0xEF] },
    Held { value: None, octets: &[0xA1, 29, 0x02, 1, 5, 0x02, 1, 2, 0x30, 21, 0x04, 3, 0x00, 0x01, 0xF1, 0x81, 2, 0x91, 0x21, 0x04, 2, 0x91, 0x43, 0x84, 0, 0x8A, 4, 0xDE, 0xAD, 0xBE, 0xEF] },
    Held { value: Some(&[10, 0, 0, 1]), octets: &[0xA1, 24, 0x02, 1, 5, 0x02, 1, 23, 0x30, 16, 0x04, 3, 0x00, 0x01, 0xF1, 0x04, 2, 0x91, 0x21, 0x04, 5, 0x04, 10, 0, 0, 1] },
    Held { value: Some(&[1, 2, 3, 4, 5, 6, 7, 8, 9, 10, 11, 12, 13, 14, 15, 16]), octets: &[0xA1, 36, 0x02, 1, 5, 0x02, 1, 23, 0x30, 28, 0x04, 3, 0x00, 0x01, 0xF1, 0x04, 2, 0x91, 0x21, 0x04, 17, 0x50, 1, 2, 3, 4, 5, 6, 7, 8, 9, 10, 11, 12, 13, 14, 15, 16] },
];

impl Held {
    fn check(&self, rt: &impl Abort, argument: Argument) -> Result<(), Fail> {
        let value = match &argument {
            Argument::UpdateLocation(update) => update.lmsi.as_ref().map(|lmsi| &lmsi.octets[..]),
            Argument::UpdateGprsLocation(update) => match &update.address {
                GsnAddress::Ipv4(address) => Some(&address[..]),
                GsnAddress::Ipv6(address) => Some(&address[..]),
            },
            Argument::PurgeMs(_) => return Err(Fail::new("no update")),
        };
        assert_eq!(rt; value, self.value);
        Ok(())
    }
}

#[test]
fn lmsi_and_address(rt: HostRuntime) -> Result<(), Fail> {
    for row in &HELD {
        let Ok(invoke) = read_invoke(row.octets) else {
            return Err(Fail::new("refused"));
        };
        match invoke.argument {
            Ok(argument) => row.check(&rt, argument)?,
            Err(_) => return Err(Fail::new("no update")),
        }
    }
    Ok(())
}
