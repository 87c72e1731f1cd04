// Invokes: identifier, operation code and argument.
ghost use Rattle.std.specs.Prelude.{◌≡◌};
ghost use Rattle.component.specs.Component.{invoke_read};

use super::code::{read_identifier, read_request};
use super::fault::ComponentFault;
use super::outer::open;
use element::fault::Layer;
use element::tag::INVOKE;
use operation::argument::{Argument, ArgumentFault};
use operation::argument_reading::read_argument;

// What a node asks, and the identifier that its answer will bear.
#[derive(Clone, Copy)]
pub struct Invoke {
    pub id: u8,
    pub argument: Result<Argument, ArgumentFault>,
}

pub fn read_invoke(octets: &[u8]) -> Result<Invoke, ComponentFault>
    ensures { result ≡ invoke_read octets.now }
{
    let mut r = open(octets, &[INVOKE])?.inside(Layer::Component);
    let id = read_identifier(&mut r)?;
    let request = read_request(&mut r)?;
    let argument = read_argument(r, request);
    Ok(Invoke { id, argument })
}
