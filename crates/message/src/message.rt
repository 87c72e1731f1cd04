// Messages: octets and elements, written one after another.
ghost use Rattle.std.specs.Prelude.{◌≡◌, ℕ, ◌+◌, ◌<◌, ◌≤◌, [], ◌∷◌, ◌++◌, length};

// A message of up to 256 octets.
// Places of its own and no `Octets`, as digits have: else a local of an optional message could not be passed by value twice.
#[derive(Clone, Copy)]
pub struct Message {
    octets: [u8; 256],
    len: usize,
    ghost whole: { length octets ≡ 256 },
    ghost few: { len ≤ 256 },
}

impl Message {
    ghost use Rattle.message.specs.Writing.{coded, copied, overlaid, written};

    pub fn empty() -> Message
        ensures nothing { written result ≡ [] }
        ensures size { result.len ≡ 0 }
    {
        Message {
            octets: [0; 256],
            len: 0,
        }
    }

    pub fn as_slice(&self) -> &[u8]
        ensures all { result.now ≡ written self.now }
        ensures few { length result.now ≤ 256 }
    {
        &self.octets[..self.len]
    }

    // Copies the message to the front of `out`; what lies beyond it remains. None, and nothing copied, where it does not fit.
    pub fn copy_to(&self, out: &mut [u8]) -> Option<usize>
        ensures result { result ≡ copied (written self.now) out.old }
        ensures buffer { out.new ≡ overlaid (written self.now) out.old }
    {
        let message = self.as_slice();
        let len = message.len();
        if len > out.len() {
            return None;
        }
        out[..len].copy_from_slice(message);
        Some(len)
    }

    // A message of one element.
    pub(crate) fn element(tag: u8, content: &[u8]) -> Message
        requires { length content.now < 128 }
        ensures all { written result ≡ coded tag content.now }
        ensures size { result.len ≡ 2 + length content.now }
    {
        let mut message = Message::empty();
        message.put(tag, content);
        message
    }

    // One octet more.
    fn push(&mut self, octet: u8)
        requires { self.old.len < 256 }
        ensures more { written self.new ≡ written self.old ++ octet ∷ [] }
        ensures size { self.new.len ≡ self.old.len + 1 }
    {
        self.octets[self.len] = octet;
        self.len += 1;
    }

    // Some octets more.
    fn append(&mut self, some: &[u8])
        requires { self.old.len + length some.now ≤ 256 }
        ensures more { written self.new ≡ written self.old ++ some.now }
        ensures size { self.new.len ≡ self.old.len + length some.now }
    {
        let end = self.len + some.len();
        self.octets[self.len..end].copy_from_slice(some);
        self.len = end;
    }

    // The tag and the length of an element, whose content follows. Its tag is an octet, as the formats name it.
    pub(crate) fn head(&mut self, tag: u8, len: usize)
        requires short { len < 128 }
        requires room { self.old.len + 2 ≤ 256 }
        ensures more { written self.new ≡ written self.old ++ tag ∷ len ∷ [] }
        ensures size { self.new.len ≡ self.old.len + 2 }
    {
        self.push(tag);
        self.push(len as u8);
    }

    // One element more.
    pub(crate) fn put(&mut self, tag: u8, content: &[u8])
        requires short { length content.now < 128 }
        requires room { self.old.len + 2 + length content.now ≤ 256 }
        ensures more { written self.new ≡ written self.old ++ coded tag content.now }
        ensures size { self.new.len ≡ self.old.len + 2 + length content.now }
    {
        self.head(tag, content.len());
        self.append(content);
    }
}
