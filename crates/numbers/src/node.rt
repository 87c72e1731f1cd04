// Node numbers and MSISDN: each a struct of its own round 1 to 15 digits, so that none is taken for another.
ghost use Rattle.std.specs.Prelude.{◌≡◌};
ghost use Rattle.numbers.specs.Number.{fault_number, number_call, number_of};

use super::digits::Digits;

#[derive(Clone, Copy, PartialEq)]
pub struct VlrNumber {
    pub digits: Digits,
}

#[derive(Clone, Copy, PartialEq)]
pub struct MscNumber {
    pub digits: Digits,
}

#[derive(Clone, Copy, PartialEq)]
pub struct SgsnNumber {
    pub digits: Digits,
}

#[derive(Clone, Copy, PartialEq)]
pub struct Msisdn {
    pub digits: Digits,
}

// A node whatever its kind: the register itself, or the VLR or SGSN that a message goes to.
#[derive(Clone, Copy, PartialEq)]
pub struct NodeNumber {
    pub digits: Digits,
}

// Why octets are no node number.
#[derive(Clone, Copy, Debug, PartialEq, Eq)]
pub enum NumberFault {
    NotANumber,
}

impl NumberFault {
    // The number of the refusal: a property of the fault, from which it is not made again, so no conversion.
    pub fn number(self) -> u8
        ensures { result ≡ fault_number self }
    {
        match self {
            NumberFault::NotANumber => 1,
        }
    }
}

// The digits of a node number: the octet 91, then 1 to 15 digits.
pub fn number_digits(octets: &[u8]) -> Option<Digits>
    ensures { result ≡ number_of octets.now }
{
    match octets {
        [0x91, rest @ ..] => Digits::unpack(rest),
        _ => None,
    }
}

// The call that prepares a node number, the register's own for instance.
pub fn number(octets: &[u8]) -> Result<NodeNumber, NumberFault>
    ensures { result ≡ number_call octets.now }
{
    let digits = number_digits(octets).ok_or(NumberFault::NotANumber)?;
    Ok(NodeNumber { digits })
}
