// Lists of service codes.
ghost use Rattle.std.specs.Prelude.{◌≡◌, []};
ghost use Rattle.subscription.specs.Codes.{codes_in, codes_of};
ghost use Rattle.subscription.specs.Once.{listable, once};

use super::code_list::CodeList;
use super::profile::SubscriptionFault;

// Whether no code stands twice. A recursion: of a chain over `enumerate` with the rest of the slice nothing was proved.
fn all_once(codes: &[u8]) -> bool
    ensures { result ≡ once codes.now }
{
    match codes {
        [] => true,
        [first, rest @ ..] => !rest.contains(first) && all_once(rest),
    }
}

// Whether codes are up to 20, and none stands twice.
fn are_listable(codes: &[u8]) -> bool
    ensures { result ≡ listable codes.now }
{
    codes.len() <= 20 && all_once(codes)
}

impl CodeList {
    pub fn empty() -> CodeList
        ensures { codes_in result ≡ [] }
    {
        CodeList {
            codes: [0; 20],
            len: 0,
        }
    }

    // The list of these codes; refused where there are more than 20, or one stands twice. No TryFrom: octets are not codes until a caller says so.
    pub fn read(octets: &[u8]) -> Result<CodeList, SubscriptionFault>
        ensures { result ≡ codes_of octets.now }
    {
        if !are_listable(octets) {
            return Err(SubscriptionFault::OutOfRange);
        }
        let len = octets.len();
        let mut codes = [0; 20];
        codes[..len].copy_from_slice(octets);
        Ok(CodeList { codes, len })
    }

    pub fn as_slice(&self) -> &[u8]
        ensures { result.now ≡ codes_in self.now }
    {
        &self.codes[..self.len]
    }
}
