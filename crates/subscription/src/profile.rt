// A subscriber's profile.
use super::code_list::CodeList;
use message::kinds::AccessMode;
use numbers::node::Msisdn;

// Where roaming is barred.
#[derive(Clone, Copy, Debug, PartialEq, Eq)]
pub enum Bar {
    NoBar = 0,
    OutsideHomeCountry = 1,
    OutsideHomeNetwork = 2,
}

#[derive(Clone, Copy)]
pub struct Profile {
    pub msisdn: Msisdn,
    pub category: u8,
    pub bearers: CodeList,
    pub teleservices: CodeList,
    pub mode: AccessMode,
    pub bar: Bar,
}

// A profile as a caller hands it over: octets, of which any may be out of range.
#[derive(Clone, Copy)]
pub struct RawProfile<'a> {
    pub msisdn: &'a [u8],
    pub category: u8,
    pub bearers: &'a [u8],
    pub teleservices: &'a [u8],
    pub mode: u8,
    pub bar: u8,
}

// Why a subscription is refused: a value is out of range, or a code stands twice.
#[derive(Clone, Copy, Debug, PartialEq, Eq)]
pub enum SubscriptionFault {
    OutOfRange,
}
