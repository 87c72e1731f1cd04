// What a store means: its records, no IMSI twice, and a number of free places.
ghost use Rattle.std.specs.Prelude.{◌≡◌, ℕ, Bool, true, false, List, is_ok};
ghost use Rattle.numbers.specs.declared.imsi.Imsi.{Imsi as Key};
ghost use Rattle.subscription.specs.declared.stay.Record.{Record as Subscriber};
ghost use Rattle.store.specs.Calls.{Deleted, Put, imsi_found};
ghost use Rattle.store.specs.Records.{once, record_of};

use numbers::imsi::Imsi;
use subscription::stay::Record;

// A put of a new IMSI found no free place.
#[derive(Clone, Copy, Debug, PartialEq, Eq)]
pub struct Full;

pub trait Store {
    // the records
    ghost records: { Self → List Subscriber };

    // how many places are free
    ghost free: { Self → ℕ };

    // no IMSI stands twice
    ghost apart: { (s : Self) → once (records s) ≡ true };

    // The record of an IMSI, or none. Nothing is altered.
    fn find(&self, imsi: &Imsi) -> Option<Record>
        ensures found { result ≡ record_of (records self.now) imsi.now }
        ensures keyed { imsi_found result imsi.now ≡ imsi.now };

    // Replaces the record of the same IMSI, or adds one in a free place; refused, with nothing altered, where the IMSI is new and no place is free.
    fn put(&mut self, subscriber: Record) -> Result<(), Full>
        ensures { Put (record_of (records self.old)) (free self.old) subscriber (is_ok result) (record_of (records self.new)) (free self.new) };

    // Removes the record of an IMSI and frees its place, and says whether there was one.
    fn delete(&mut self, imsi: &Imsi) -> bool
        ensures { Deleted (record_of (records self.old)) (free self.old) imsi.now result (record_of (records self.new)) (free self.new) };
}
