// The lent rows, written by functions that the slice is passed on to.
ghost use Rattle.std.specs.Prelude.{◌≡◌, ◌<◌, None, length, replicate, slice_set};

use store::row::Row;

// The row at a place holds this record, or none. By its place: of the other rows nothing is known after a write through `get_mut` or `iter_mut`.
pub(crate) fn write(rows: &mut [Row], at: usize, row: Row)
    requires { at < length rows.old }
    ensures { rows.new ≡ slice_set rows.old at row }
{
    rows[at] = row;
}

// No row holds a record. The free rows at the end are only looked at: to write `None` fills the whole row, about 200 octets, and not just its tag.
pub(crate) fn free_all(rows: &mut [Row])
    ensures { rows.new ≡ replicate (length rows.old) None }
{
    let mut used = rows.len();
    while used > 0 && rows[used - 1].is_none() {
        used -= 1;
    }
    rows[..used].fill(None);
}
