// A number that stands for none of an enum's cases.

#[derive(Clone, Copy, Debug, PartialEq, Eq)]
pub struct OutOfRange;
