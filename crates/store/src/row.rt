use subscription::stay::Record;

// A row holds a record, or none.
pub type Row = Option<Record>;
