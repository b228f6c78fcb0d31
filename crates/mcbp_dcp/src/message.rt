//! DCP messages as values.
use bytes::Bytes;
use vb_types::{Listed, LogEntry, Role, StreamAsk};

/// A key's new document, with the seqno at which it was stored. Key and value may have any length
/// here, and the datatype any number.
#[derive(Drop)]
pub struct Mutation {
    pub seq: u64,
    pub rev: u64,
    pub cas: u64,
    pub flags: u32,
    pub expiry: u32,
    pub datatype: u8,
    pub key: Bytes,
    pub value: Bytes,
}

/// The removal of a key's document, with the seqno at which it was removed.
#[derive(Drop)]
pub struct Deletion {
    pub seq: u64,
    pub rev: u64,
    pub cas: u64,
    pub key: Bytes,
}

/// The announcement of a durable write of a key, with the seqno of the prepare. Key and value may have
/// any length here, and datatype, deleted and level any number. The write is of a removal, which has no
/// value, where `deleted` is 1, and of a document where it is 0.
#[derive(Drop)]
pub struct Prepare {
    pub seq: u64,
    pub rev: u64,
    pub cas: u64,
    pub flags: u32,
    pub expiry: u32,
    pub datatype: u8,
    pub deleted: u8,
    pub level: u8,
    pub key: Bytes,
    pub value: Bytes,
}

/// The end of a durable write of a key: the seqno `prepared` of its prepare, and its own seqno.
#[derive(Drop)]
pub struct Resolution {
    pub prepared: u64,
    pub seq: u64,
    pub key: Bytes,
}

/// What a producer answers to a request for a stream.
#[derive(Drop)]
pub enum StreamVerdict {
    /// The stream begins. The producer's failover log, the newest entry first.
    Go { log: Listed<LogEntry> },
    /// The consumer has to roll back to this seqno, or below it, first.
    Roll { point: u64 },
    /// No stream, for another reason; neither Success nor Rollback.
    Refused { status: u16 },
}

/// A DCP message, or the answer to one. vBucket and opaque stand beside it.
#[derive(Drop)]
pub enum DcpMsg {
    /// Makes a connection a DCP connection with a name of 1 to 250 bytes.
    Open { seqno: u32, flags: u32, name: Bytes },
    /// Sets a parameter of the connection.
    Control { key: Bytes, value: Bytes },
    /// Asks for a stream of a vBucket's changes.
    StreamRequest { ask: StreamAsk },
    /// The stream is over, for this reason.
    StreamEnd { reason: u32 },
    /// The changes that follow are of the snapshot above `start` and up to `end`.
    SnapshotMarker { start: u64, end: u64, flags: u32 },
    /// A change of a stream that stores a document.
    Mutation { change: Mutation },
    /// A change of a stream that removes a document.
    Deletion { change: Deletion },
    /// A change of a stream that announces a durable write.
    Prepare { change: Prepare },
    /// A change of a stream that makes a durable write visible.
    Commit { change: Resolution },
    /// A change of a stream that gives a durable write up.
    Abort { change: Resolution },
    /// The consumer has all changes up to this seqno, as far as their durable writes ask for it.
    SeqnoAcknowledged { seq: u64 },
    /// Asks that the stream of a vBucket be closed.
    CloseStream,
    /// Asks for a vBucket's failover log.
    GetFailoverLog,
    /// Asks whether the other side is there.
    Noop,
    /// The consumer has taken this many bytes more.
    BufferAcknowledgement { bytes: u32 },
    /// The vBucket is to take this role at the consumer.
    SetVbucketState { role: Role },
    /// The answer to `Open`, with the status that stands for it on the wire.
    OpenAnswer { status: u16 },
    /// The answer to `Control`.
    ControlAnswer { status: u16 },
    /// The answer to `StreamRequest`.
    StreamAnswer { told: StreamVerdict },
    /// The answer to `CloseStream`.
    CloseAnswer { status: u16 },
    /// The answer to `Noop`.
    NoopAnswer { status: u16 },
    /// The answer to `GetFailoverLog`: the log, the newest entry first, where the status is Success.
    LogAnswer { status: u16, log: Listed<LogEntry> },
    /// The answer to `SetVbucketState`.
    StateAnswer { status: u16 },
}

/// Which part of a frame is not its row's.
#[derive(Clone, Copy, Debug, PartialEq, Eq)]
pub enum DcpFault {
    /// Framing extras, extras that are not of the row's length, metadata, or a byte that is no role's.
    WrongExtras,
    /// A key where the row has none, or a name that is not of 1 to 250 bytes.
    WrongKey,
    /// A value that the row does not have, as a prepare of a removal has none.
    WrongValue,
}
