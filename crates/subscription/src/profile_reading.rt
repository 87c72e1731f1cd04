// Profiles from octets that any caller may hand over.
ghost use Rattle.std.specs.Prelude.{◌≡◌};
ghost use Rattle.subscription.specs.Profile.{bar_number, bar_of, fault_number, profile_of, raw_of};
ghost use Rattle.subscription.specs.declared.profile.SubscriptionFault.TheVariants as fault;

use super::code_list::CodeList;
use super::profile::{Bar, Profile, RawProfile, SubscriptionFault};
use message::kinds::AccessMode;
use numbers::node::{Msisdn, number_digits};
use octets::range::OutOfRange;

impl SubscriptionFault {
    // The number of the refusal: a property of the fault, and no conversion.
    pub fn number(self) -> u8
        ensures { result ≡ fault_number self }
    {
        match self {
            SubscriptionFault::OutOfRange => 12,
        }
    }
}

impl From<OutOfRange> for SubscriptionFault {
    ghost from_gives = { λ _ refusal. refusal ≡ fault.OutOfRange };

    fn from(_fault: OutOfRange) -> SubscriptionFault {
        SubscriptionFault::OutOfRange
    }
}

impl From<Bar> for u8 {
    ghost from_gives = { λ bar n. n ≡ bar_number bar };

    fn from(bar: Bar) -> u8 {
        bar as u8
    }
}

// Written out, as those of other enums are: each names its own cases.
impl TryFrom<u8> for Bar {
    type Error = OutOfRange;

    ghost try_from_gives = { λ n bar. bar ≡ bar_of n };

    fn try_from(number: u8) -> Result<Bar, OutOfRange> {
        match number {
            0 => Ok(Bar::NoBar),
            1 => Ok(Bar::OutsideHomeCountry),
            2 => Ok(Bar::OutsideHomeNetwork),
            _ => Err(OutOfRange),
        }
    }
}

impl Profile {
    // The profile in these octets; refused where a field is out of range or a code stands twice. Named like the lists that it reads: fields are decoded, and some
    // refused, which is more than a conversion.
    pub fn read(raw: RawProfile) -> Result<Profile, SubscriptionFault>
        ensures { result ≡ profile_of (raw_of raw.entry) }
    {
        Ok(Profile {
            msisdn: Msisdn {
                digits: number_digits(raw.msisdn).ok_or(SubscriptionFault::OutOfRange)?,
            },
            category: raw.category,
            bearers: CodeList::read(raw.bearers)?,
            teleservices: CodeList::read(raw.teleservices)?,
            mode: AccessMode::try_from(raw.mode)?,
            bar: Bar::try_from(raw.bar)?,
        })
    }
}
