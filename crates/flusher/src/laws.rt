//! What holds of all flushers by their definitions, each the contract of a function that does nothing.
ghost use Rattle.flusher.specs.Laws.{TakesTurns, SavesAppend};

use vb_disk::Disk;

/// A batch is taken where none is on its way, and comes back where one is. A receipt is handed out
/// once.
pub fn batches_take_turns()
    ensures { TakesTurns }
{}

/// A batch is written exactly by an append of its record, and a batch that could not be appended is
/// gone, and its journal closed.
pub fn saves_are_appends<D: Disk>()
    ensures { SavesAppend D.storage }
{}
