// Identifiers and codes: 02 01 and one octet.
ghost use Rattle.std.specs.Prelude.{◌≡◌};
ghost use Rattle.element.specs.Elements.{unread};
ghost use Rattle.component.specs.Reading.{code_at, identifier_at, request_in};
ghost use Rattle.operation.specs.Steps.{with_rest};

use super::fault::ComponentFault;
use element::fault::{ElementFault, Spot};
use element::reader::Reader;
use operation::codes::Request;

// An identifier or a code, and where it stands.
#[derive(Clone, Copy)]
pub struct Code {
    pub value: u8,
    pub spot: Spot,
}

// The identifier or code that comes next; else the place of what stands there.
pub(crate) fn read_code(r: &mut Reader) -> Result<Code, Spot>
    ensures value { with_rest result (unread r.new) ≡ code_at r.old.spot.layer (unread r.old) }
    ensures layer { r.new.spot.layer ≡ r.old.spot.layer }
{
    let element = r.read().map_err(ElementFault::spot)?;
    match element.content {
        [value] if element.tag == 0x02 => Ok(Code {
            value: *value,
            spot: element.spot,
        }),
        _ => Err(element.spot),
    }
}

// The invoke identifier.
pub(crate) fn read_identifier(r: &mut Reader) -> Result<u8, ComponentFault>
    ensures value { with_rest result (unread r.new) ≡ identifier_at r.old.spot.layer (unread r.old) }
    ensures layer { r.new.spot.layer ≡ r.old.spot.layer }
{
    let code = read_code(r).map_err(ComponentFault::Identifier)?;
    Ok(code.value)
}

// The operation that an invoke asks for.
pub(crate) fn read_request(r: &mut Reader) -> Result<Request, ComponentFault>
    ensures { with_rest result (unread r.new) ≡ request_in r.old.spot.layer (unread r.old) }
{
    let code = read_code(r).map_err(ComponentFault::Code)?;
    Request::try_from(code.value).map_err(|_| ComponentFault::Code(code.spot))
}
