// The tags of whole components (Q.773): what an outer tag says of the octets.
pub const INVOKE: u8 = 0xA1;

pub const RESULT: u8 = 0xA2;

pub const ERROR: u8 = 0xA3;
