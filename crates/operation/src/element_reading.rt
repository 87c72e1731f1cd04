// Elements of an argument, by their tags. An element is missing if another tag has its place.
ghost use Rattle.std.specs.Prelude.{◌≡◌, List, ℕ, Option};
ghost use Rattle.element.specs.Elements.{unread};
ghost use Rattle.operation.specs.Argument.{content_read, element_at, entered, inside_read, option_at, option_read, optional_at, value_at, ReadsAs};
ghost use Rattle.operation.specs.Steps.{with_rest};

use super::argument::ArgumentFault;
use element::reader::{Element, Reader};

// The next element, if it has this tag.
pub(crate) fn expect<'a>(r: &mut Reader<'a>, tag: u8) -> Result<Element<'a>, ArgumentFault>
    ensures content { content_read result (unread r.new) ≡ element_at tag (unread r.old) }
    ensures inside { inside_read result ≡ entered tag (unread r.old) }
{
    match r.read() {
        Ok(element) if element.tag == tag => Ok(element),
        _ => Err(ArgumentFault::Missing),
    }
}

// The next element, if it has this tag; else the reader stays.
fn optional<'a>(r: &mut Reader<'a>, tag: u8) -> Option<Element<'a>>
    ensures { option_read result (unread r.new) ≡ option_at tag (unread r.old) }
{
    let mut ahead = *r;
    let element = ahead.read().ok().filter(|element| element.tag == tag)?;
    *r = ahead;
    Some(element)
}

// The value of the next element, which has this tag: what `read` makes of the content.
pub(crate) fn read_value<T, F: FnOnce(&[u8]) -> Option<T>>(
    r: &mut Reader,
    tag: u8,
    read: F,
) -> Result<T, ArgumentFault>
    requires { F.IsAlwaysCallable read }
    ensures { (f : List ℕ → Option T) → ReadsAs F.FnOnce read f → with_rest result (unread r.new) ≡ value_at f tag (unread r.old) }
{
    let element = expect(r, tag)?;
    read(element.content).ok_or(ArgumentFault::Wrong)
}

// The value of the next element, if it has this tag. Apart from the one above: here another tag is no fault, and the reader stays.
pub(crate) fn read_optional<T, F: FnOnce(&[u8]) -> Option<T>>(
    r: &mut Reader,
    tag: u8,
    read: F,
) -> Result<Option<T>, ArgumentFault>
    requires { F.IsAlwaysCallable read }
    ensures { (f : List ℕ → Option T) → ReadsAs F.FnOnce read f → with_rest result (unread r.new) ≡ optional_at f tag (unread r.old) }
{
    let Some(element) = optional(r, tag) else {
        return Ok(None);
    };
    let value = read(element.content).ok_or(ArgumentFault::Wrong)?;
    Ok(Some(value))
}
