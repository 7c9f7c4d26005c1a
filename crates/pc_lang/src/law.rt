ghost use Rattle.pc_lang.specs.Holding.{PartsHold, WaysHold};

/// A part means that all of its atoms hold: its region has the rows of the domain of which they do.
#[tactic(auto, using(crate::proofs::Holding::parts_hold))]
pub fn parts_hold()
    ensures { PartsHold }
{}

/// Parts joined by `or` mean that one of them holds: their area has the rows of the domain of which
/// one does.
#[tactic(auto, using(crate::proofs::Holding::ways_hold))]
pub fn ways_hold()
    ensures { WaysHold }
{}
