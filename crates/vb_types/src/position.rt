//! How far a vBucket's history reaches.

/// The greatest seqno that a change may have.
pub const MAX_SEQ: u64 = 281_474_976_710_656;

/// The snapshot that a vBucket is in, and the seqno that it holds up to. Where `at` is `se`, the
/// snapshot is complete; an active vBucket's always is.
#[derive(Clone, Copy, Debug, PartialEq, Eq)]
pub struct Position {
    /// The snapshot's start.
    pub ss: u64,
    /// The snapshot's end.
    pub se: u64,
    /// The last seqno that was taken, or 0.
    pub at: u64,
}
