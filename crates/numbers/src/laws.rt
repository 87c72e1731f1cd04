// What holds of every number: a theorem, named by a contract so that its proof is asked for.
ghost use Rattle.numbers.specs.Laws.{NumberLaws};

// What is written is read back, what is read is written back octet for octet, and equality tells the truth.
pub fn numbers_hold()
    ensures { NumberLaws }
{}
