// The row table: at most 256 rows of a lent slice.
ghost use Rattle.std.specs.Prelude.{◌≡◌, ℕ, ◌≤◌, min, true, [], length};
ghost use Rattle.std.specs.Option.{option_or};
ghost use Rattle.store.specs.Records.{once};
ghost use Rattle.store.specs.Rows.{first_unused, index_of, records_in, unused};

use super::writing::{free_all, write};
use numbers::imsi::Imsi;
use store::interface::{Full, Store};
use store::row::Row;
use store::rows::{first_unused, place_of};
use subscription::stay::Record;

#[derive(Drop)]
pub struct RowTable<'a> {
    rows: &'a mut [Row],
    ghost few: { length rows.now ≤ 256 },
    ghost apart: { once (records_in rows.now) ≡ true },
}

impl<'a> RowTable<'a> {
    // An empty table over the first rows of the slice, at most 256, whatever they held.
    pub fn new(rows: &'a mut [Row]) -> RowTable<'a>
        ensures empty { records_in result.rows.now ≡ [] }
        ensures places { unused result.rows.now ≡ min (length rows.old) 256 }
    {
        let n = rows.len().min(256);
        let part = &mut rows[0..n];
        free_all(part);
        RowTable { rows: part }
    }

    // The place of the row with this IMSI.
    fn known(&self, imsi: &Imsi) -> Option<usize>
        ensures { result ≡ index_of self.now.rows.now imsi.now }
    {
        place_of(self.rows, imsi)
    }

    // The place where a record of this IMSI goes: the row that has it, or else the first unused one.
    fn slot(&self, imsi: &Imsi) -> Option<usize>
        ensures { result ≡ option_or (index_of self.now.rows.now imsi.now) (first_unused self.now.rows.now) }
    {
        self.known(imsi).or_else(|| first_unused(self.rows))
    }
}

impl<'a> Store for RowTable<'a> {
    ghost records = { λ s. records_in s.rows.now };

    ghost free = { λ s. unused s.rows.now };

    ghost apart = { λ s. s.apart };

    fn find(&self, imsi: &Imsi) -> Option<Record> {
        let at = self.known(imsi)?;
        self.rows[at]
    }

    fn put(&mut self, subscriber: Record) -> Result<(), Full> {
        match self.slot(&subscriber.imsi) {
            Some(at) => {
                write(self.rows, at, Some(subscriber));
                Ok(())
            }
            None => Err(Full),
        }
    }

    fn delete(&mut self, imsi: &Imsi) -> bool {
        match self.known(imsi) {
            Some(at) => {
                write(self.rows, at, None);
                true
            }
            None => false,
        }
    }
}
