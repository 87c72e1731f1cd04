// What invokes are answered with, and invokes put together from the elements of their arguments.
use component::invoke::read_invoke;
use operation::user_error::UserError;
use std::alloc::Global;
use std::process::Abort;
use std::test::*;

// The number of the error that answers an invoke; none where its argument is read.
pub fn error_of(octets: &[u8]) -> Result<Option<u8>, Fail> {
    match read_invoke(octets) {
        Ok(invoke) => match invoke.argument {
            Ok(_) => Ok(None),
            Err(fault) => Ok(Some(UserError::from(fault).number())),
        },
        Err(_) => Err(Fail::new(format_args!("refused: {octets:?}"))),
    }
}

// The octets of an invoke with the identifier 5, whose argument has this tag and these elements.
fn invoke(
    rt: &impl Abort,
    heap: Global,
    code: u8,
    tag: u8,
    elements: &[u8],
) -> Result<Vec<u8>, Fail> {
    assert!(rt; elements.len() < 100);
    let len = elements.len() as u8;
    let mut octets = vec![in heap; 0xA1, 8 + len, 0x02, 0x01, 0x05, 0x02, 0x01, code, tag, len]?;
    octets.extend_from_slice(elements)?;
    Ok(octets)
}

// The elements of an argument, and the error that answers it, if any.
pub struct Elements {
    pub error: Option<u8>,
    pub octets: &'static [u8],
}

impl Elements {
    fn check(&self, rt: &impl Abort, heap: Global, code: u8, tag: u8) -> Result<(), Fail> {
        let elements = self.octets;
        let octets = invoke(rt, heap, code, tag, elements)?;
        assert_eq!(rt; error_of(&octets)?, self.error, "{elements:?}");
        Ok(())
    }
}

// Every row is answered so, as an argument with this tag of this operation.
pub fn check_elements(
    rt: &impl Abort,
    heap: Global,
    code: u8,
    tag: u8,
    rows: &[Elements],
) -> Result<(), Fail> {
    for row in rows {
        row.check(rt, heap, code, tag)?;
    }
    Ok(())
}
