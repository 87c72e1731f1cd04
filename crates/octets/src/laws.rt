// What holds of every list: a theorem, named by a contract so that its proof is asked for.
ghost use Rattle.octets.specs.Laws.{OctetLaws};

// Each list of octets that fits stands in its places in just one form, with zeros past it.
pub fn octets_hold()
    ensures { OctetLaws }
{}
