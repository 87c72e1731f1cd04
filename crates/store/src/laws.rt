// What holds of all rows: a theorem, named by a contract so that its proof is asked for.
ghost use Rattle.store.specs.Laws.{RowLaws};

// Records and free places together are always as many as the rows.
pub fn rows_hold()
    ensures { RowLaws }
{}
