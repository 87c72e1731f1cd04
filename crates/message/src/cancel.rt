// Cancel Location, operation 3.
ghost use Rattle.std.specs.Prelude.{◌≡◌, ◌≤◌};
ghost use Rattle.message.specs.Messages.{cancel, identity};
ghost use Rattle.message.specs.Writing.{written};

use super::kinds::CancelType;
use super::message::Message;
use super::parts::invoke;
use numbers::address::Lmsi;
use numbers::imsi::Imsi;
use operation::codes::Operation;

// Whom a cancel is about: 04 IMSI or, if the stay has an LMSI, 30 holding 04 IMSI and 04 LMSI.
fn identity_element(imsi: Imsi, lmsi: Option<Lmsi>) -> Message
    ensures all { written result ≡ identity imsi lmsi }
    ensures size { result.len ≤ 18 }
{
    let mut message = Message::empty();
    match lmsi {
        None => message.put_digits(0x04, &imsi.digits),
        Some(lmsi) => {
            let mut both = Message::empty();
            both.put_digits(0x04, &imsi.digits);
            both.put(0x04, &lmsi.octets);
            message.put(0x30, both.as_slice());
        }
    }
    message
}

// A cancel is the first and only invoke of its dialogue.
pub fn cancel_location(imsi: Imsi, lmsi: Option<Lmsi>, reason: CancelType) -> Message
    ensures { written result ≡ cancel imsi lmsi reason }
{
    let mut argument = identity_element(imsi, lmsi);
    argument.put(0x0A, &[u8::from(reason)]);
    invoke(1, Operation::CancelLocation, argument.as_slice())
}
