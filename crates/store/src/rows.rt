// Searching rows.
ghost use Rattle.std.specs.Prelude.{◌≡◌, position, is_none};
ghost use Rattle.store.specs.Records.{same};
ghost use Rattle.store.specs.Rows.{first_unused, has, index_of};

use super::row::Row;
use numbers::imsi::Imsi;

// Whether a row holds a record of this IMSI. By `match`: under `is_some_and` nothing is proved of the closure's answer.
fn holds(row: &Row, imsi: &Imsi) -> bool
    ensures { result ≡ has imsi.now row.now }
{
    match row {
        Some(held) => held.imsi == *imsi,
        None => false,
    }
}

// The place of the row with this IMSI, if there is one.
pub fn place_of(rows: &[Row], imsi: &Imsi) -> Option<usize>
    ensures { result ≡ index_of rows.now imsi.now }
{
    rows.iter().position(|row| holds(row, imsi))
}

// The place of the first unused row, if there is one. Two searches by the library's method, each with its test.
pub fn first_unused(rows: &[Row]) -> Option<usize>
    ensures { result ≡ first_unused rows.now }
{
    rows.iter().position(|row| row.is_none())
}
