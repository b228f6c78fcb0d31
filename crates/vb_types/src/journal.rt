//! What a vBucket writes down.
use crate::{Change, Listed, LogEntry, Position, Role};

/// Changes that are written down at once, by rising seqno: those of one checkpoint that were not
/// written yet.
#[derive(Drop)]
pub struct Batch {
    /// Where the vBucket stands once it has them.
    pub position: Position,
    /// The greatest CAS that it had seen when the batch was taken.
    pub cas: u64,
    /// Its failover log then, the newest entry first.
    pub log: Listed<LogEntry>,
    pub items: Listed<Change>,
}

/// One record of a journal.
#[derive(Drop)]
pub enum Record {
    /// The role that the vBucket took, and its failover log then.
    State { role: Role, log: Listed<LogEntry> },
    Rows(Batch),
    /// The vBucket went back to this seqno, and gave up all that it had above it.
    Roll { to: u64 },
}

/// Which steps of writing a batch down are asked for.
#[derive(Clone, Copy, Debug, PartialEq, Eq)]
pub enum FlushPart {
    /// The batch is taken.
    Take,
    /// It is appended to the journal.
    Save,
    /// The vBucket counts it as saved.
    Done,
    /// Those of the three that are still to be made, one after the other.
    All,
}
