// Worked octets, proved of the definitions that the contracts cite.
ghost use Rattle.message.specs.Worked.{WorkedOctets};

pub fn worked_octets_hold()
    ensures { WorkedOctets }
{}
