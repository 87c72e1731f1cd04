// What is read, and how far: the methods stand apart, since the structs' facts name no definition of the methods.
ghost use Rattle.std.specs.Prelude.{◌+◌, ◌<◌, ◌^◌, length};

use super::fault::Spot;

// An element: its content is a part of the component's octets, and begins at `start`.
// A tag is the octet as it came: any may come, and the rules name tags by their octets, so no enum of them.
#[derive(Clone, Copy)]
pub struct Element<'a> {
    pub tag: u8,
    pub spot: Spot,
    pub start: usize,
    pub content: &'a [u8],
    ghost ends: { start + length content.now < 2 ^ 64 },
}

// Reads elements one after another: what is still to be read of a component's octets, and where that begins.
#[derive(Clone, Copy)]
pub struct Reader<'a> {
    pub rest: &'a [u8],
    pub spot: Spot,
    ghost ends: { spot.place + length rest.now < 2 ^ 64 },
}
