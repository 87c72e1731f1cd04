// The roaming list: adding an entry, and the entry that decides for a node.
ghost use Rattle.std.specs.Prelude.{◌≡◌, [], cond};
ghost use Rattle.numbers.specs.Digit.{digits_in};
ghost use Rattle.roaming.specs.Roaming.{after, answer, class_for, deciding, entries_in, entry_of, is_longer, leads, lent, longer_of, roamed};

use super::entry::{Class, Entry, RoamFault};
use super::roaming_list::RoamingList;
use numbers::digits::Digits;

// Whether an entry's digits are the first digits of a node's number.
fn leads_node(entry: &Digits, node: &Digits) -> bool
    ensures { result ≡ leads (digits_in entry.now) (digits_in node.now) }
{
    node.as_slice().starts_with(entry.as_slice())
}

// Whether an entry decides in place of the best so far: it does if it has more digits. Between equal ones the first added decides.
fn is_longer(entry: &Entry, best: Option<&Entry>) -> bool
    ensures { result ≡ is_longer entry.now (lent best.entry) }
{
    match best {
        None => true,
        Some(best) => entry.digits.len > best.digits.len,
    }
}

// The better of the best so far and an entry, if that one leads the node's number.
fn better_of<'a>(best: Option<&'a Entry>, entry: &'a Entry, node: &Digits) -> Option<&'a Entry>
    ensures { lent result ≡ cond (leads (digits_in entry.now.digits) (digits_in node.now)) (longer_of (lent best.entry) entry.now) (lent best.entry) }
{
    if leads_node(&entry.digits, node) && is_longer(entry, best) {
        Some(entry)
    } else {
        best
    }
}

// The entry that decides for a node, if there is one. A loop over what is lent: under a fold the best so far was copied at each entry, which took a quarter as long again.
fn deciding_entry<'a>(entries: &'a [Entry], node: &Digits) -> Option<&'a Entry>
    ensures { lent result ≡ deciding (digits_in node.now) entries.now }
{
    let mut best = None;
    for entry in entries {
        best = better_of(best, entry, node);
    }
    best
}

// An entry from its packed digits and the number of its class.
fn read_entry(digits: &[u8], class: u8) -> Result<Entry, RoamFault>
    ensures { result ≡ entry_of digits.now class }
{
    let digits = Digits::unpack(digits).ok_or(RoamFault::NoEntry)?;
    let class = Class::try_from(class)?;
    Ok(Entry { digits, class })
}

impl RoamingList {
    pub fn empty() -> RoamingList
        ensures { entries_in result ≡ [] }
    {
        let unused = Entry {
            digits: Digits::zero(),
            class: Class::HomeNetwork,
        };
        RoamingList {
            entries: [unused; 32],
            len: 0,
        }
    }

    // Adds an entry, from its packed digits and the number of its class.
    pub fn roam(&mut self, digits: &[u8], class: u8) -> Result<(), RoamFault>
        ensures result { result ≡ answer (roamed (entries_in self.old) digits.now class) }
        ensures list { entries_in self.new ≡ after (roamed (entries_in self.old) digits.now class) (entries_in self.old) }
    {
        let entry = read_entry(digits, class)?;
        let at = self.len;
        if at >= 32 {
            return Err(RoamFault::ListFull);
        }
        self.entries[at] = entry;
        self.len = at + 1;
        Ok(())
    }

    pub fn as_slice(&self) -> &[Entry]
        ensures { result.now ≡ entries_in self.now }
    {
        &self.entries[..self.len]
    }

    // The class of a node, by the entry that decides.
    pub fn class_of(&self, node: &Digits) -> Option<Class>
        ensures { result ≡ class_for (digits_in node.now) (entries_in self.now) }
    {
        deciding_entry(self.as_slice(), node).map(|entry| entry.class)
    }
}
