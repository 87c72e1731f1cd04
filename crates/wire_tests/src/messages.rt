// Messages that the register sends, each with the most that it holds, and those with the least.
use super::made::*;
use message::cancel::cancel_location;
use message::insert::{circuit_insert, codes_insert, packet_insert};
use message::kinds::{AccessMode, CancelType, Service};
use message::message::Message;
use message::outcome::{purge_result, return_error, update_result};
use numbers::address::Lmsi;
use numbers::node::{Msisdn, NodeNumber};
use operation::codes::Operation;
use operation::user_error::{Cause, Diagnostic, UserError};
use std::process::Abort;
use std::test::*;

// 15 digits each: 001010123456789 and 123456789012345.
const IMSI: [u8; 8] = [0x00, 0x01, 0x01, 0x21, 0x43, 0x65, 0x87, 0xF9];

const NUMBER: [u8; 8] = [0x21, 0x43, 0x65, 0x87, 0x09, 0x21, 0x43, 0xF5];

const LMSI: Lmsi = Lmsi {
    octets: [0xDE, 0xAD, 0xBE, 0xEF],
};

fn check_octets(rt: &impl Abort, message: Message, octets: &[u8]) -> Result<(), Fail> {
    assert_eq!(rt; message.as_slice(), octets);
    Ok(())
}

#[rattlefmt::skip]
#[test]
fn inserts(rt: HostRuntime) -> Result<(), Fail> {
    let imsi = imsi(&IMSI)?;
    let msisdn = Msisdn { digits: digits(&NUMBER)? };
    check_octets(&rt, circuit_insert(Some(imsi), msisdn, 10), &[
        0xA1, 35, 0x02, 1, 1, 0x02, 1, 7, 0x30, 27,
        0x80, 8, 0x00, 0x01, 0x01, 0x21, 0x43, 0x65, 0x87, 0xF9,
        0x81, 9, 0x91, 0x21, 0x43, 0x65, 0x87, 0x09, 0x21, 0x43, 0xF5,
        0x82, 1, 10, 0x83, 1, 0,
    ])?;
    check_octets(&rt, circuit_insert(None, msisdn, 255), &[
        0xA1, 25, 0x02, 1, 1, 0x02, 1, 7, 0x30, 17,
        0x81, 9, 0x91, 0x21, 0x43, 0x65, 0x87, 0x09, 0x21, 0x43, 0xF5,
        0x82, 1, 255, 0x83, 1, 0,
    ])?;
    check_octets(&rt, packet_insert(Some(imsi), msisdn, AccessMode::PacketOnly), &[
        0xA1, 35, 0x02, 1, 1, 0x02, 1, 7, 0x30, 27,
        0x80, 8, 0x00, 0x01, 0x01, 0x21, 0x43, 0x65, 0x87, 0xF9,
        0x81, 9, 0x91, 0x21, 0x43, 0x65, 0x87, 0x09, 0x21, 0x43, 0xF5,
        0x83, 1, 0, 0x98, 1, 2,
    ])?;
    check_octets(&rt, packet_insert(None, msisdn, AccessMode::Both), &[
        0xA1, 25, 0x02, 1, 1, 0x02, 1, 7, 0x30, 17,
        0x81, 9, 0x91, 0x21, 0x43, 0x65, 0x87, 0x09, 0x21, 0x43, 0xF5,
        0x83, 1, 0, 0x98, 1, 0,
    ])
}

#[rattlefmt::skip]
const CODES: [u8; 20] = [1, 2, 3, 4, 5, 6, 7, 8, 9, 10, 11, 12, 13, 14, 15, 16, 17, 18, 19, 20];

// Of the codes that are left, only the next ten are written.
#[rattlefmt::skip]
#[test]
fn inserts_of_codes(rt: HostRuntime) -> Result<(), Fail> {
    check_octets(&rt, codes_insert(2, Service::Bearer, &CODES), &[
        0xA1, 40, 0x02, 1, 2, 0x02, 1, 7, 0x30, 32, 0xA4, 30,
        0x04, 1, 1, 0x04, 1, 2, 0x04, 1, 3, 0x04, 1, 4, 0x04, 1, 5,
        0x04, 1, 6, 0x04, 1, 7, 0x04, 1, 8, 0x04, 1, 9, 0x04, 1, 10,
    ])?;
    check_octets(&rt, codes_insert(255, Service::Teleservice, &CODES[10..20]), &[
        0xA1, 40, 0x02, 1, 255, 0x02, 1, 7, 0x30, 32, 0xA6, 30,
        0x04, 1, 11, 0x04, 1, 12, 0x04, 1, 13, 0x04, 1, 14, 0x04, 1, 15,
        0x04, 1, 16, 0x04, 1, 17, 0x04, 1, 18, 0x04, 1, 19, 0x04, 1, 20,
    ])?;
    check_octets(&rt, codes_insert(3, Service::Teleservice, &[0x11]), &[
        0xA1, 13, 0x02, 1, 3, 0x02, 1, 7, 0x30, 5, 0xA6, 3, 0x04, 1, 0x11,
    ])?;
    check_octets(&rt, codes_insert(4, Service::Bearer, &[]), &[
        0xA1, 10, 0x02, 1, 4, 0x02, 1, 7, 0x30, 2, 0xA4, 0,
    ])
}

#[rattlefmt::skip]
#[test]
fn cancels(rt: HostRuntime) -> Result<(), Fail> {
    let imsi = imsi(&IMSI)?;
    check_octets(&rt, cancel_location(imsi, None, CancelType::UpdateProcedure), &[
        0xA1, 21, 0x02, 1, 1, 0x02, 1, 3, 0xA3, 13,
        0x04, 8, 0x00, 0x01, 0x01, 0x21, 0x43, 0x65, 0x87, 0xF9, 0x0A, 1, 0,
    ])?;
    check_octets(&rt, cancel_location(imsi, None, CancelType::SubscriptionWithdraw), &[
        0xA1, 21, 0x02, 1, 1, 0x02, 1, 3, 0xA3, 13,
        0x04, 8, 0x00, 0x01, 0x01, 0x21, 0x43, 0x65, 0x87, 0xF9, 0x0A, 1, 1,
    ])?;
    check_octets(&rt, cancel_location(imsi, Some(LMSI), CancelType::UpdateProcedure), &[
        0xA1, 29, 0x02, 1, 1, 0x02, 1, 3, 0xA3, 21, 0x30, 16,
        0x04, 8, 0x00, 0x01, 0x01, 0x21, 0x43, 0x65, 0x87, 0xF9, 0x04, 4, 0xDE, 0xAD, 0xBE, 0xEF, 0x0A, 1, 0,
    ])?;
    check_octets(&rt, cancel_location(imsi, Some(LMSI), CancelType::SubscriptionWithdraw), &[
        0xA1, 29, 0x02, 1, 1, 0x02, 1, 3, 0xA3, 21, 0x30, 16,
        0x04, 8, 0x00, 0x01, 0x01, 0x21, 0x43, 0x65, 0x87, 0xF9, 0x04, 4, 0xDE, 0xAD, 0xBE, 0xEF, 0x0A, 1, 1,
    ])
}

#[rattlefmt::skip]
#[test]
fn results(rt: HostRuntime) -> Result<(), Fail> {
    let own = NodeNumber { digits: digits(&NUMBER)? };
    check_octets(&rt, update_result(0, Operation::UpdateLocation, own), &[
        0xA2, 21, 0x02, 1, 0, 0x30, 16, 0x02, 1, 2, 0x30, 11,
        0x04, 9, 0x91, 0x21, 0x43, 0x65, 0x87, 0x09, 0x21, 0x43, 0xF5,
    ])?;
    check_octets(&rt, update_result(255, Operation::UpdateGprsLocation, own), &[
        0xA2, 21, 0x02, 1, 255, 0x30, 16, 0x02, 1, 23, 0x30, 11,
        0x04, 9, 0x91, 0x21, 0x43, 0x65, 0x87, 0x09, 0x21, 0x43, 0xF5,
    ])?;
    check_octets(&rt, purge_result(5, false, false), &[0xA2, 3, 0x02, 1, 5])?;
    check_octets(&rt, purge_result(5, true, false), &[0xA2, 12, 0x02, 1, 5, 0x30, 7, 0x02, 1, 67, 0x30, 2, 0x80, 0])?;
    check_octets(&rt, purge_result(5, false, true), &[0xA2, 12, 0x02, 1, 5, 0x30, 7, 0x02, 1, 67, 0x30, 2, 0x81, 0])?;
    check_octets(&rt, purge_result(5, true, true), &[0xA2, 14, 0x02, 1, 5, 0x30, 9, 0x02, 1, 67, 0x30, 4, 0x80, 0, 0x81, 0])
}

// An error, and the octets that say it with the identifier 5.
struct Said {
    reason: UserError,
    octets: &'static [u8],
}

#[rattlefmt::skip]
const ERRORS: [Said; 7] = [
    Said { reason: UserError::UnknownSubscriber(Diagnostic::ImsiUnknown), octets: &[0xA3, 11, 0x02, 1, 5, 0x02, 1, 1, 0x30, 3, 0x0A, 1, 0] },
    Said { reason: UserError::UnknownSubscriber(Diagnostic::GprsSubscriptionUnknown), octets: &[0xA3, 11, 0x02, 1, 5, 0x02, 1, 1, 0x30, 3, 0x0A, 1, 1] },
    Said { reason: UserError::RoamingNotAllowed(Cause::PlmnRoamingNotAllowed), octets: &[0xA3, 11, 0x02, 1, 5, 0x02, 1, 8, 0x30, 3, 0x0A, 1, 0] },
    Said { reason: UserError::RoamingNotAllowed(Cause::OperatorDeterminedBarring), octets: &[0xA3, 11, 0x02, 1, 5, 0x02, 1, 8, 0x30, 3, 0x0A, 1, 3] },
    Said { reason: UserError::SystemFailure, octets: &[0xA3, 6, 0x02, 1, 5, 0x02, 1, 34] },
    Said { reason: UserError::DataMissing, octets: &[0xA3, 6, 0x02, 1, 5, 0x02, 1, 35] },
    Said { reason: UserError::UnexpectedDataValue, octets: &[0xA3, 6, 0x02, 1, 5, 0x02, 1, 36] },
];

#[test]
fn errors(rt: HostRuntime) -> Result<(), Fail> {
    for row in &ERRORS {
        check_octets(&rt, return_error(5, row.reason), row.octets)?;
    }
    Ok(())
}

// A message of 5 octets, copied where there is more room than that, as much, and less.
#[test]
fn copies(rt: HostRuntime) -> Result<(), Fail> {
    let message = purge_result(7, false, false);
    let mut long = [0xEE; 8];
    assert_eq!(rt; message.copy_to(&mut long), Some(5));
    assert_eq!(rt; long, [0xA2, 3, 0x02, 1, 7, 0xEE, 0xEE, 0xEE]);
    let mut exact = [0xEE; 5];
    assert_eq!(rt; message.copy_to(&mut exact), Some(5));
    assert_eq!(rt; exact, [0xA2, 3, 0x02, 1, 7]);
    let mut short = [0xEE; 4];
    assert_eq!(rt; message.copy_to(&mut short), None);
    assert_eq!(rt; short, [0xEE; 4]);
    Ok(())
}
