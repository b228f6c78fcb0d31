//! How the streams of a connection give vBuckets up; each law as the contract of a function that does
//! nothing.
ghost use Rattle.std.specs.Prelude.{ℕ};
ghost use Rattle.{node_core.specs.GivingLaws.{VbsAreGivenUp, WaitersTold}, node_core.specs.GivingRows.{GivenInNumbers}};
ghost use Rattle.{node_core.specs.Peers.{PlainPeer}, vb_calls.specs.States.{States}};

use vb_calls::{Journals, VbAccess};

/// A vBucket is given up exactly where one of the connection's streams is due: its consumer answered the
/// state pending, all of its items are put, and no change of role ended it. Such a stream has its turn
/// where a frame is asked for and the window is open, in the order in which the streams were opened; its
/// vBucket is called once, and exactly where it made the call it is told dead, by one line, and the stream
/// sends the rest then; else the stream is ended. Every connection loses exactly the streams that the
/// replies named, and what these named of durable writes is handed out in the same order. Nothing else
/// changes: no record is appended, and each dial stays.
pub fn vbuckets_are_given_up<A: VbAccess, J: Journals>()
    ensures { VbsAreGivenUp A J A.step }
{}

/// Over plain vBuckets none is given up twice, and each that is was active and is dead. Each durable write
/// that waited there is answered once, that its outcome is not known, by rising prepares, and nobody waits
/// there any more. Each other vBucket stays as it is.
pub fn waiters_of_given_up_vbuckets_are_told()
    ensures { (frames : ℕ) (peer : PlainPeer) (states : States) → WaitersTold frames peer states }
{}

/// In rows: a stream that hands its vBucket over beside an indexer's of the same vBucket and of another
/// one, with numbers of which no two are alike; and where it is not given up.
pub fn given_vbuckets_in_numbers()
    ensures { GivenInNumbers }
{}
