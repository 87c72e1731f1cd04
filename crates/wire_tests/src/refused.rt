// How a component is refused: what the tables of invokes and of answers share.
use component::answer::read_answer;
use component::fault::ComponentFault;
use component::invoke::read_invoke;
use std::process::Abort;
use std::test::*;

// Octets that are refused, and the place and layer that come with the refusal, if it has them; as numbers, so that a row stays a line.
pub struct Refused {
    pub spot: Option<(usize, u8)>,
    pub octets: &'static [u8],
}

// The place and the number of the layer, to be compared with a row's.
fn place_and_layer(fault: ComponentFault) -> Option<(usize, u8)> {
    let spot = fault.spot()?;
    Some((spot.place, u8::from(spot.layer)))
}

impl Refused {
    fn check(
        &self,
        rt: &impl Abort,
        fault: Option<ComponentFault>,
        number: u8,
    ) -> Result<(), Fail> {
        let octets = self.octets;
        let fault = fault.ok_or("accepted")?;
        assert_eq!(rt; fault.number(), number, "number of {octets:?}");
        assert_eq!(rt; place_and_layer(fault), self.spot, "spot in {octets:?}");
        Ok(())
    }
}

// Every row is refused as an invoke, with this number.
pub fn check_invokes(rt: &impl Abort, rows: &[Refused], number: u8) -> Result<(), Fail> {
    for row in rows {
        row.check(rt, read_invoke(row.octets).err(), number)?;
    }
    Ok(())
}

// Every row is refused as an answer, with this number.
pub fn check_answers(rt: &impl Abort, rows: &[Refused], number: u8) -> Result<(), Fail> {
    for row in rows {
        row.check(rt, read_answer(row.octets).err(), number)?;
    }
    Ok(())
}
