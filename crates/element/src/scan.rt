// Whether all of a component can be read, before any of it is acted on.
ghost use Rattle.std.specs.Prelude.{◌≡◌};
ghost use Rattle.std.specs.Result.{result_err};
ghost use Rattle.element.specs.Elements.{unread};
ghost use Rattle.element.specs.Scan.{body_at, first_broken, scan_from, scanned};

use super::fault::{ElementFault, Layer, Spot};
use super::reader::Reader;
use super::tag::{INVOKE, RESULT};

// Refuses the first element that cannot be read.
fn scan_body(r: Reader) -> Result<(), ElementFault>
    ensures { result_err result ≡ first_broken r.entry.spot.layer (unread r.entry) }
{
    for element in r {
        element?;
    }
    Ok(())
}

// Whether the element at an index is the body: the third of an invoke or the second of a result, if its tag is 30 or A3.
fn is_body(outer: u8, index: usize, tag: u8) -> bool
    ensures { result ≡ body_at outer index tag }
{
    match (outer, index) {
        (INVOKE, 2) | (RESULT, 1) => tag == 0x30 || tag == 0xA3,
        _ => false,
    }
}

// Refuses the first element of a component that cannot be read; the body's elements come before the next one.
fn scan_elements(r: Reader, outer: u8) -> Result<(), ElementFault>
    ensures { result_err result ≡ scan_from r.entry.spot.layer outer 0 (unread r.entry) }
{
    for (index, element) in r.enumerate() {
        let element = element?;
        if is_body(outer, index, element.tag) {
            scan_body(element.inside(Layer::Body))?;
        }
    }
    Ok(())
}

// Refuses a component that does not fill its octets, or the first element of it or its body that cannot be read.
pub fn scan_component(octets: &[u8]) -> Result<(), ElementFault>
    ensures { result_err result ≡ scanned octets.now }
{
    let mut r = Reader::over(octets);
    let outer = r.read()?;
    if !r.rest.is_empty() {
        return Err(ElementFault::Unreadable(Spot {
            place: 0,
            layer: Layer::Component,
        }));
    }
    scan_elements(outer.inside(Layer::Component), outer.tag)
}
