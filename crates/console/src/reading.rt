// What `read` prints of a component.
ghost use Rattle.std.specs.Prelude.{◌≡◌, Some};
ghost use Rattle.console.specs.Reading.{argument_text, answers, or_none, reading_of, reading_text};

use component::answer::{Answer, read_answer};
use component::fault::ComponentFault;
use component::invoke::{Invoke, read_invoke};
use element::fault::Spot;
use element::tag::{ERROR, RESULT};
use operation::argument::Argument;
use operation::user_error::UserError;
use std::fmt;

// A value, or the word none.
#[derive(Clone, Copy)]
struct OrNone<T>(Option<T>);

impl<T: fmt::Display> fmt::Display for OrNone<T> {
    ghost output = { λ o. or_none T.output o.0 };

    fn fmt<W: fmt::Write>(&self, f: &mut fmt::Formatter<W>) -> fmt::Result {
        match &self.0 {
            Some(value) => value.fmt(f),
            None => write!(f, "none"),
        }
    }
}

// What a node asks.
#[derive(Clone, Copy)]
struct Asked(Argument);

impl fmt::Display for Asked {
    ghost output = { λ a. Some (argument_text a.0) };

    fn fmt<W: fmt::Write>(&self, f: &mut fmt::Formatter<W>) -> fmt::Result {
        match self.0 {
            Argument::UpdateLocation(update) => {
                let imsi = update.imsi.digits;
                let msc = update.msc.digits;
                let vlr = update.vlr.digits;
                let lmsi = OrNone(update.lmsi);
                write!(f, "update-location {imsi} msc {msc} vlr {vlr} lmsi {lmsi}")
            }
            Argument::UpdateGprsLocation(update) => {
                let imsi = update.imsi.digits;
                let sgsn = update.sgsn.digits;
                let address = update.address;
                write!(
                    f,
                    "update-gprs-location {imsi} sgsn {sgsn} address {address}"
                )
            }
            Argument::PurgeMs(purge) => {
                let imsi = purge.imsi.digits;
                let vlr = OrNone(purge.vlr.map(|vlr| vlr.digits));
                let sgsn = OrNone(purge.sgsn.map(|sgsn| sgsn.digits));
                write!(f, "purge-ms {imsi} vlr {vlr} sgsn {sgsn}")
            }
        }
    }
}

// What a component holds, or why it is refused: no Result, since it has a text of its own.
#[derive(Clone, Copy)]
pub enum Reading {
    Invoke(Invoke),
    Answer(Answer),
    Refused(ComponentFault),
}

impl fmt::Display for Reading {
    ghost output = { λ r. Some (reading_text r) };

    fn fmt<W: fmt::Write>(&self, f: &mut fmt::Formatter<W>) -> fmt::Result {
        match *self {
            Reading::Invoke(invoke) => {
                let id = invoke.id;
                match invoke.argument {
                    Ok(argument) => {
                        let argument = Asked(argument);
                        write!(f, "read: invoke {id} {argument}")
                    }
                    Err(fault) => {
                        let error = UserError::from(fault).number();
                        write!(f, "read: invoke {id} error {error}")
                    }
                }
            }
            Reading::Answer(Answer::Result { id, code }) => {
                let code = OrNone(code);
                write!(f, "read: result {id} code {code}")
            }
            Reading::Answer(Answer::Error { id, code }) => {
                write!(f, "read: error {id} code {code}")
            }
            Reading::Refused(fault) => {
                let number = fault.number();
                let Some(Spot { place, layer }) = fault.spot() else {
                    return write!(f, "read: refused {number}");
                };
                let layer = u8::from(layer);
                write!(f, "read: refused {number} place {place} layer {layer}")
            }
        }
    }
}

fn is_answer(octets: &[u8]) -> bool
    ensures { result ≡ answers octets.now }
{
    matches!(octets, [RESULT | ERROR, ..])
}

// A component with tag A2 or A3 is taken as a result or an error, any other as an invoke. By `match`: under `map_or_else` the check fails at types that hold so much.
pub fn read(octets: &[u8]) -> Reading
    ensures { result ≡ reading_of octets.now }
{
    if is_answer(octets) {
        match read_answer(octets) {
            Ok(answer) => Reading::Answer(answer),
            Err(fault) => Reading::Refused(fault),
        }
    } else {
        match read_invoke(octets) {
            Ok(invoke) => Reading::Invoke(invoke),
            Err(fault) => Reading::Refused(fault),
        }
    }
}
