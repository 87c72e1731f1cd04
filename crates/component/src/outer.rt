// What is asked of every component before its elements are taken one by one.
ghost use Rattle.std.specs.Prelude.{◌≡◌};
ghost use Rattle.component.specs.Component.{opened_as, opened_read};

use super::fault::ComponentFault;
use element::reader::{Element, Reader};
use element::scan::scan_component;

// The component as one element. Refuses what has none of these outer tags, and what cannot be read.
pub(crate) fn open<'a>(octets: &'a [u8], tags: &[u8]) -> Result<Element<'a>, ComponentFault>
    ensures { opened_read result ≡ opened_as tags.now octets.now }
{
    if octets.is_empty() || octets.len() > 256 {
        return Err(ComponentFault::Size);
    }
    if !tags.contains(&octets[0]) {
        return Err(ComponentFault::Tag);
    }
    scan_component(octets)?;
    let outer = Reader::over(octets).read()?;
    Ok(outer)
}
