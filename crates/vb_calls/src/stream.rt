//! The streams that a vBucket feeds.
use vb_types::StreamAsk;

/// A stream that is open.
#[derive(Clone, Copy, Debug, PartialEq, Eq)]
pub struct Stream {
    pub id: u64,
    pub ask: StreamAsk,
    /// Carries prepares, commits and aborts too.
    pub sync: bool,
    /// The seqno up to which its changes were taken.
    pub place: u64,
    /// It has a cursor at its place: all changes above are in memory, and stay there till it took them.
    pub cursor: bool,
    /// Its first snapshot was taken.
    pub taken: bool,
}
