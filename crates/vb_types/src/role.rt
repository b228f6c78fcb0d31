//! What a node is to a vBucket, and where the vBucket's history comes from.

/// What a node is to a vBucket.
#[derive(Clone, Copy, Debug, PartialEq, Eq)]
pub enum Role {
    /// Takes writes, and feeds replicas and indexers.
    Active,
    /// Follows an active vBucket.
    Replica,
    /// Is about to take its branch over.
    Pending,
    /// Neither takes writes nor follows.
    Dead,
}

/// An entry of a failover log: a branch, and the seqno at which it was made.
#[derive(Clone, Copy, Debug, PartialEq, Eq)]
pub struct LogEntry {
    /// The branch's id, above 0.
    pub uuid: u64,
    pub seq: u64,
}
