//! What holds of every list of checkpoints, each the contract of a function that does nothing.
ghost use Rattle.ckpt_list.specs.Rehearsal.{Rehearsed};
ghost use Rattle.ckpt_list.specs.Laws.{NothingExactly, PutsExactly, QueuesOne, ResetsAlone, SealsAlone, TakesExactly, TrimsExactly};

/// A take gives the live changes above its cursor's place, up to the first end of a checkpoint that
/// reaches what is needed. That cursor goes there, and no other moves. It gives nothing exactly where
/// the last seqno is below what is needed or nothing is above the place.
pub fn takes_are_exact()
    ensures some { TakesExactly }
    ensures none { NothingExactly }
{}

/// A change takes away at most the one of its key in the open checkpoint, and moves no cursor.
pub fn changes_enter()
    ensures { QueuesOne }
{}

/// A seal changes no item and moves no cursor; a reset leaves the cursor 0 alone.
pub fn seals_and_resets_are_plain()
    ensures seals { SealsAlone }
    ensures resets { ResetsAlone }
{}

/// A trim takes away a front of the sealed checkpoints: those that are saved and were given to every
/// cursor, and no other.
pub fn trims_are_exact()
    ensures { TrimsExactly }
{}

/// Five spans, three cursors and a saved number, in each order of three trims and three dropped cursors.
pub fn trims_in_numbers()
    ensures { Rehearsed }
{}

/// A cursor that is put is there, and one that is dropped is not; no other one moves.
pub fn cursors_are_put()
    ensures { PutsExactly }
{}
