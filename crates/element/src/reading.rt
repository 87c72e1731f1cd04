// Reading elements one after another.
ghost use Rattle.std.specs.Prelude.{◌≡◌, ℕ, ◌+◌, ◌-◌, ◌*◌, ◌<◌, ◌^◌, ◌++◌, drop, length, IfOk, IfErr, IfSome, OnErr};
ghost use Rattle.element.specs.Fault.{spot_at, spot_of};
ghost use Rattle.element.specs.Elements.{elements, fitting, front, head_front, read_off, unread};

use super::fault::{ElementFault, Layer, Spot};
use super::reader::{Element, Reader};

// A tag and a length, which are `size` octets, and what follows them: the content, then what comes after the element.
#[derive(Clone, Copy)]
struct Head<'a> {
    tag: u8,
    size: usize,
    content: &'a [u8],
    rest: &'a [u8],
}

// A head that `octets` follow, of which `len` are the content; none where they are too few.
fn fit(tag: u8, size: usize, len: usize, octets: &[u8]) -> Option<Head>
    ensures front { head_front result ≡ fitting (length octets.now) tag size len }
    ensures parts { IfSome result (λ h. octets.now ≡ h.content.now ++ h.rest.now) }
    ensures size { IfSome result (λ h. h.size ≡ size) }
{
    let (content, rest) = octets.split_at_checked(len)?;
    Some(Head {
        tag,
        size,
        content,
        rest,
    })
}

// The head at the front of `octets`; none where it is unreadable or its content does not fit.
fn read_head(octets: &[u8]) -> Option<Head>
    ensures front { head_front result ≡ front octets.now }
    ensures parts { IfSome result (λ h. drop h.size octets.now ≡ h.content.now ++ h.rest.now) }
    ensures whole { IfSome result (λ h. h.size + length h.content.now + length h.rest.now ≡ length octets.now) }
{
    match octets {
        [tag, ..] if *tag & 0x1f == 0x1f => None,
        [tag, len, rest @ ..] if *len < 0x80 => fit(*tag, 2, *len as usize, rest),
        [tag, 0x81, len, rest @ ..] => fit(*tag, 3, *len as usize, rest),
        [tag, 0x82, high, low, rest @ ..] => fit(
            *tag,
            4,
            *high as usize * 256 + *low as usize,
            rest,
        ),
        _ => None,
    }
}

impl<'a> Element<'a> {
    // A reader over the element's content.
    pub fn inside(&self, layer: Layer) -> Reader<'a>
        ensures content { unread result ≡ elements self.now.start self.now.content.now }
        ensures same { result.rest.now ≡ self.now.content.now }
        ensures spot { result.spot ≡ spot_at self.now.start layer }
    {
        Reader {
            rest: self.content,
            spot: Spot {
                place: self.start,
                layer,
            },
        }
    }
}

impl<'a> Reader<'a> {
    // A reader over a whole component.
    pub fn over(octets: &'a [u8]) -> Reader<'a>
        ensures all { unread result ≡ elements 0 octets.now }
        ensures same { result.rest.now ≡ octets.now }
        ensures spot { result.spot ≡ spot_at 0 Layer.Component }
    {
        Reader {
            rest: octets,
            spot: Spot {
                place: 0,
                layer: Layer::Component,
            },
        }
    }

    // The element that comes next; the reader then stands after it. Where none is read the reader stays.
    pub fn read(&mut self) -> Result<Element<'a>, ElementFault>
        ensures read { read_off result (unread self.new) ≡ unread self.old }
        ensures parts { IfOk result (λ e. drop (e.start - e.spot.place) self.old.rest.now ≡ e.content.now ++ self.new.rest.now) }
        ensures end { self.new.spot.place + length self.new.rest.now ≡ self.old.spot.place + length self.old.rest.now }
        ensures moves { IfOk result (λ e. (e.spot ≡ self.old.spot) × (e.spot.place < e.start) × (e.start + length e.content.now ≡ self.new.spot.place)) }
        ensures spot { IfErr result (λ f. spot_of f ≡ self.old.spot) }
        ensures layer { self.new.spot.layer ≡ self.old.spot.layer }
        ensures stays { OnErr result (self.new ≡ self.old) }
    {
        let spot = self.spot;
        if self.rest.is_empty() {
            return Err(ElementFault::Missing(spot));
        }
        let Some(head) = read_head(self.rest) else {
            return Err(ElementFault::Unreadable(spot));
        };
        let start = spot.place + head.size;
        self.rest = head.rest;
        self.spot.place = start + head.content.len();
        Ok(Element {
            tag: head.tag,
            spot,
            start,
            content: head.content,
        })
    }
}

impl<'a> Iterator for Reader<'a> {
    ghost use Rattle.std.specs.Iterator.{at_most};
    ghost use Rattle.element.specs.Elements.{NextElement};

    type Item = Result<Element<'a>, ElementFault>;

    ghost next_gives = { NextElement };

    ghost remaining = { λ r. at_most (length r.rest.now) };

    // Nothing is read after what cannot be read.
    fn next(&mut self) -> Option<Result<Element<'a>, ElementFault>> {
        if self.rest.is_empty() {
            return None;
        }
        match self.read() {
            Ok(element) => Some(Ok(element)),
            Err(fault) => {
                self.rest = &[];
                Some(Err(fault))
            }
        }
    }
}
