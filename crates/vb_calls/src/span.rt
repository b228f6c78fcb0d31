//! The spans that a vBucket's changes stand in.

/// The most changes of a span.
pub const MAX_ITEMS: u64 = 1000;

/// The most weight of a span: 32 MiB.
pub const MAX_WEIGHT: u64 = 33_554_432;

/// What a change weighs beside its key and its value.
pub const BASE_WEIGHT: u64 = 64;

/// Where a span's changes come from.
#[derive(Clone, Copy, Debug, PartialEq, Eq)]
pub enum Origin {
    /// The vBucket made them itself.
    Own,
    /// They are of one snapshot that it received.
    Received { ss: u64, se: u64 },
}

/// The changes above the seqno `above` and up to `last`. Of an own span the last ones of the keys
/// are live, of a received one all.
#[derive(Clone, Copy, Debug, PartialEq, Eq)]
pub struct Span {
    pub above: u64,
    pub last: u64,
    pub origin: Origin,
}
