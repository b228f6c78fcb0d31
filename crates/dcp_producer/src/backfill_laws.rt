//! When a stream reads a backfill, and what it puts of it; each law as the contract of a function that
//! does nothing. What a backfill gives is `backfill`'s law `gives_what_is_due`.
ghost use Rattle.dcp_producer.specs.Backfilling.{BackfillsAreRead, BackfillsComeFirst};

/// A backfill that was answered and not read comes first where, behind its items, a stream asks on: the
/// journal of its vBucket is read, once, from up to where its consumer was told of changes. Then comes the
/// marker of what it gives; where the journal can't be read the stream is as it was; and where it sees
/// nothing there, its vBucket is asked where its next changes come from.
pub fn backfills_come_first()
    ensures { BackfillsComeFirst }
{}

/// One that the vBucket answers is read at once in the same way; and where the stream sees nothing there,
/// its next snapshot is taken of memory.
pub fn backfills_are_read()
    ensures { BackfillsAreRead }
{}
