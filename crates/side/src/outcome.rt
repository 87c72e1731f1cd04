// What an update brings about.
use numbers::address::Lmsi;
use numbers::node::NodeNumber;
use operation::user_error::UserError;
use subscription::stay::Record;

// Where a cancel goes: the node that the subscriber left, and the LMSI that it gave.
#[derive(Clone, Copy)]
pub struct Left {
    pub node: NodeNumber,
    pub lmsi: Option<Lmsi>,
}

// The record afterwards, the node to cancel if the subscriber left one, and the error that answers, if one does. No Result: the record and the node are there
// with an error as well.
#[derive(Clone, Copy)]
pub struct Update {
    pub record: Record,
    pub left: Option<Left>,
    pub error: Option<UserError>,
}
