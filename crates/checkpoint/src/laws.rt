//! What holds of every checkpoint by its rules, each the contract of a function that does nothing.
ghost use Rattle.checkpoint.specs.Laws.{AboveExactly, CutsTakeBack, FitsExactly, PutsExactly, SeenExactly, TakesExactly, WeighsInNumbers};

/// Which changes enter a checkpoint, and what they weigh.
pub fn changes_fit()
    ensures fits { FitsExactly }
    ensures weight { WeighsInNumbers }
{}

/// A change takes the place of its key's earlier one and leaves all others, in their order.
pub fn puts_replace()
    ensures { PutsExactly }
{}

/// Which changes stand above a place.
pub fn places_are_read()
    ensures { AboveExactly }
{}

/// Parts of durable writes replace nothing, so to cut them off again leaves what was there before them.
pub fn cuts_take_back()
    ensures { CutsTakeBack }
{}

/// A hole is not seen, and to close a run up changes nothing that is seen; whoever is taken away is the one
/// with the seqno, and no other.
pub fn holes_are_unseen()
    ensures seen { SeenExactly }
    ensures taken { TakesExactly }
{}
