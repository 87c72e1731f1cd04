// Parts that several messages share.
ghost use Rattle.std.specs.Prelude.{◌≡◌, ℕ, ◌+◌, ◌≤◌, ◌++◌, length};
ghost use Rattle.numbers.specs.Digit.{digits_in};
ghost use Rattle.numbers.specs.Number.{number_octets};
ghost use Rattle.numbers.specs.Packing.{packed};
ghost use Rattle.message.specs.Writing.{coded, imsi_front, invoke_octets, result_octets, written};

use super::message::Message;
use element::tag::{INVOKE, RESULT};
use numbers::digits::Digits;
use numbers::imsi::Imsi;
use octets::list::Octets;
use operation::codes::Operation;

impl Message {
    // An element that holds packed digits.
    pub(crate) fn put_digits(&mut self, tag: u8, digits: &Digits)
        requires { self.old.len + 10 ≤ 256 }
        ensures more { written self.new ≡ written self.old ++ coded tag (packed (digits_in digits.now)) }
        ensures size { self.new.len ≤ self.old.len + 10 }
    {
        let packed = digits.pack();
        self.put(tag, packed.as_slice());
    }

    // An element that holds a node number: 91 and the packed digits.
    pub(crate) fn put_number(&mut self, tag: u8, digits: &Digits)
        requires { self.old.len + 11 ≤ 256 }
        ensures more { written self.new ≡ written self.old ++ coded tag (number_octets digits.now) }
        ensures size { self.new.len ≤ self.old.len + 11 }
    {
        let packed = digits.pack();
        let mut number = Octets::<9>::new();
        number.try_push(0x91).unwrap();
        number.try_extend_from_slice(packed.as_slice()).unwrap();
        self.put(tag, number.as_slice());
    }

    // 80 and an IMSI, if there is one.
    pub(crate) fn put_optional_imsi(&mut self, imsi: Option<Imsi>)
        requires { self.old.len + 10 ≤ 256 }
        ensures more { written self.new ≡ written self.old ++ imsi_front imsi }
        ensures size { self.new.len ≤ self.old.len + 10 }
    {
        if let Some(imsi) = imsi {
            self.put_digits(0x80, &imsi.digits);
        }
    }
}

// An invoke: identifier, operation code and argument. The first two are no struct: nothing keeps them together.
// Written in one go, since a message inside another would be copied: its length is counted, three octets each for identifier and code, and two before the argument.
pub(crate) fn invoke(id: u8, operation: Operation, argument: &[u8]) -> Message
    requires { length argument.now ≤ 119 }
    ensures { written result ≡ invoke_octets id operation argument.now }
{
    let mut message = Message::empty();
    message.head(INVOKE, 8 + argument.len());
    message.put(0x02, &[id]);
    message.put(0x02, &[u8::from(operation)]);
    message.put(operation.argument_tag(), argument);
    message
}

// A result with an operation code and a parameter.
// Its lengths are counted as an invoke's: 30 holds the code and the parameter.
pub(crate) fn result(id: u8, operation: Operation, parameter: &[u8]) -> Message
    requires { length parameter.now ≤ 117 }
    ensures { written result ≡ result_octets id operation parameter.now }
{
    let mut message = Message::empty();
    message.head(RESULT, 10 + parameter.len());
    message.put(0x02, &[id]);
    message.head(0x30, 5 + parameter.len());
    message.put(0x02, &[u8::from(operation)]);
    message.put(0x30, parameter);
    message
}
