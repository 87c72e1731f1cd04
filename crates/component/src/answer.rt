// Results and errors, the answers to what the register invokes.
ghost use Rattle.std.specs.Prelude.{◌≡◌};
ghost use Rattle.element.specs.Elements.{unread};
ghost use Rattle.component.specs.Component.{answer_read, error_in, result_in, body_in};

use super::code::{read_code, read_identifier};
use super::fault::ComponentFault;
use super::outer::open;
use element::fault::{ElementFault, Layer};
use element::reader::Reader;
use element::tag::{ERROR, RESULT};

// A result has an operation code if it has a body. An error's code stands for itself: nothing is compared with it.
// No Result: both are what a node sent, and neither is a call's success or failure.
#[derive(Clone, Copy, Debug, PartialEq, Eq)]
pub enum Answer {
    Result { id: u8, code: Option<u8> },
    Error { id: u8, code: u8 },
}

// The operation code in a result's body, if it has one.
fn read_body(r: &mut Reader) -> Result<Option<u8>, ComponentFault>
    ensures { result ≡ body_in r.old.spot.layer (unread r.old) }
{
    match r.read() {
        Ok(body) if body.tag == 0x30 => {
            let code = read_code(&mut body.inside(Layer::Body)).map_err(ComponentFault::Code)?;
            Ok(Some(code.value))
        }
        Ok(other) => Err(ComponentFault::Code(other.spot)),
        Err(ElementFault::Missing(_)) => Ok(None),
        Err(ElementFault::Unreadable(spot)) => Err(ComponentFault::Code(spot)),
    }
}

fn read_result(mut r: Reader) -> Result<Answer, ComponentFault>
    ensures { result ≡ result_in r.entry.spot.layer (unread r.entry) }
{
    let id = read_identifier(&mut r)?;
    let code = read_body(&mut r)?;
    Ok(Answer::Result { id, code })
}

// Apart from a result: the code stands in the component itself, and it must be there.
fn read_error(mut r: Reader) -> Result<Answer, ComponentFault>
    ensures { result ≡ error_in r.entry.spot.layer (unread r.entry) }
{
    let id = read_identifier(&mut r)?;
    let code = read_code(&mut r).map_err(ComponentFault::Code)?;
    Ok(Answer::Error {
        id,
        code: code.value,
    })
}

pub fn read_answer(octets: &[u8]) -> Result<Answer, ComponentFault>
    ensures { result ≡ answer_read octets.now }
{
    let outer = open(octets, &[RESULT, ERROR])?;
    let r = outer.inside(Layer::Component);
    if outer.tag == RESULT {
        read_result(r)
    } else {
        read_error(r)
    }
}
