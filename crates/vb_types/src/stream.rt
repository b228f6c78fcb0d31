//! Requests for a stream of a vBucket's changes, and how they are judged.

use crate::{Change, Listed};

/// A consumer's request for a stream of changes, as the memcached binary protocol's DCP
/// STREAM_REQUEST carries it. Seqnos are those of the branch `uuid`.
#[derive(Clone, Copy, Debug, PartialEq, Eq)]
pub struct StreamAsk {
    /// Bits of the request, as 1 for a takeover.
    pub flags: u32,
    /// The last seqno that the consumer has.
    pub start: u64,
    /// The last seqno that it wants.
    pub end: u64,
    /// The branch of its history, or 0 for none.
    pub uuid: u64,
    /// The start of the snapshot that it last received of.
    pub ss: u64,
    /// The end of that snapshot.
    pub se: u64,
}

/// What a failover log says of a request.
#[derive(Clone, Copy, Debug, PartialEq, Eq)]
pub enum Verdict {
    /// The stream goes on from the request's start.
    Continue,
    /// The consumer has to roll back to this seqno, or below it, first.
    Roll(u64),
}

/// How a stream request was answered.
#[derive(Clone, Copy, Debug, PartialEq, Eq)]
pub enum AskAnswer {
    /// The stream goes on from where the consumer stands.
    Go,
    /// The consumer has to roll back to this seqno first.
    Roll(u64),
    /// The request was refused with this status of the wire.
    Refuse(u16),
}

/// Where a stream's next changes come from.
#[derive(Clone, Copy, Debug, PartialEq, Eq)]
pub enum Place {
    /// From memory.
    Memory,
    /// From the journal, as one snapshot up to this seqno, at which the stream stands from now on.
    Backfill(u64),
    /// From the journal, once more is saved: they are not all in memory.
    WaitSaved,
}

/// A whole snapshot for a stream: what its marker names, and its changes by rising seqno.
#[derive(Drop)]
pub struct Snapshot {
    /// The consumer has all changes up to here.
    pub start: u64,
    /// The last change's seqno.
    pub end: u64,
    /// Whether it was read from the disk.
    pub disk: bool,
    pub items: Listed<Change>,
}
