// What the register answers to a node: results of updates and purges, and errors.
ghost use Rattle.std.specs.Prelude.{◌≡◌, ℕ, ◌+◌, ◌≤◌, ◌++◌};
ghost use Rattle.message.specs.Messages.{detail_element, empty_result, error, flag, purge_result, update_result};
ghost use Rattle.message.specs.Writing.{written};

use super::message::Message;
use super::parts::result;
use element::tag::{ERROR, RESULT};
use numbers::node::NodeNumber;
use operation::codes::Operation;
use operation::user_error::UserError;

// The result of an update, operation 2 or 23: the register's own number.
pub fn update_result(id: u8, operation: Operation, own: NodeNumber) -> Message
    ensures { written result ≡ update_result id operation own }
{
    let mut parameter = Message::empty();
    parameter.put_number(0x04, &own.digits);
    result(id, operation, parameter.as_slice())
}

impl Message {
    // An empty element, if the flag is set.
    pub(crate) fn put_flag(&mut self, tag: u8, set: bool)
        requires { self.old.len + 2 ≤ 256 }
        ensures more { written self.new ≡ written self.old ++ flag tag set }
        ensures size { self.new.len ≤ self.old.len + 2 }
    {
        if set {
            self.put(tag, &[]);
        }
    }
}

// A result with no parameter.
fn empty_result(id: u8) -> Message
    ensures { written result ≡ empty_result id }
{
    let inside = Message::element(0x02, &[id]);
    Message::element(RESULT, inside.as_slice())
}

// The result of a purge: which sides were marked. It has no parameter if there are none.
pub fn purge_result(id: u8, vlr: bool, sgsn: bool) -> Message
    ensures { written result ≡ purge_result id vlr sgsn }
{
    if !vlr && !sgsn {
        return empty_result(id);
    }
    let mut parameter = Message::empty();
    parameter.put_flag(0x80, vlr);
    parameter.put_flag(0x81, sgsn);
    result(id, Operation::PurgeMs, parameter.as_slice())
}

impl Message {
    // An error's diagnostic or cause, if it has one. Each optional element has a method of its own: what it holds differs.
    pub(crate) fn put_detail(&mut self, detail: Option<u8>)
        requires { self.old.len + 5 ≤ 256 }
        ensures more { written self.new ≡ written self.old ++ detail_element detail }
        ensures size { self.new.len ≤ self.old.len + 5 }
    {
        if let Some(value) = detail {
            self.put(0x30, &[0x0A, 0x01, value]);
        }
    }
}

pub fn return_error(id: u8, reason: UserError) -> Message
    ensures { written result ≡ error id reason }
{
    let mut inside = Message::element(0x02, &[id]);
    inside.put(0x02, &[reason.number()]);
    inside.put_detail(reason.detail());
    Message::element(ERROR, inside.as_slice())
}
