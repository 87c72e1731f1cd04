// What a script prepares before the register is made: its own number, its roaming list, its store.
use super::fault::Refusal;
use numbers::digits::Digits;
use numbers::node::{NodeNumber, NumberFault, number};
use operation::user_error::Cause;
use roaming::decision::decide;
use roaming::roaming_list::RoamingList;
use subscription::profile::Bar;

#[derive(Clone, Copy)]
pub struct Setup {
    pub own: NodeNumber,
    pub roaming: RoamingList,
    pub rows: u64,
}

impl Setup {
    // Own number 0, an empty roaming list, 256 rows.
    pub fn new() -> Setup {
        Setup {
            own: NodeNumber {
                digits: Digits::zero(),
            },
            roaming: RoamingList::empty(),
            rows: 256,
        }
    }

    // Takes an own number, and shows it.
    pub fn own(&mut self, octets: &[u8]) -> Result<Digits, NumberFault> {
        self.own = number(octets)?;
        Ok(self.own.digits)
    }

    // What the roaming list decides for a node and a bar.
    pub fn roams(&self, node: &[u8], bar: u8) -> Result<Result<(), Cause>, Refusal> {
        let node = number(node)?;
        let bar = Bar::try_from(bar)?;
        Ok(decide(self.roaming.class_of(&node.digits), bar))
    }
}
