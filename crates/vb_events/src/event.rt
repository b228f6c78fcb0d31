//! The lines of a transcript, as values.
use bytes::Bytes;
use vb_types::{AskAnswer, Change, Doc, Key, Level, Listed, LogEntry, Role, StreamAsk};

/// What happened while a script line was carried out: one variant for each kind of line that a
/// transcript has.
#[derive(Drop)]
pub enum Event {
    /// A branch was made at a vBucket, which holds all changes up to `high`.
    Branch {
        node: u8,
        vb: u16,
        uuid: u64,
        parent: Option<u64>,
        fork: u64,
        high: u64,
    },
    /// A vBucket was made, or its role changed.
    Role {
        node: u8,
        vb: u16,
        role: Role,
    },
    /// The active vBucket made a change on the branch `uuid`.
    Changed {
        node: u8,
        vb: u16,
        uuid: u64,
        change: Change,
    },
    /// One frame for a client.
    Reply {
        node: u8,
        client: u32,
        bytes: Bytes,
    },
    /// The node closed a client connection.
    Closed {
        node: u8,
        client: u32,
    },
    /// A producer answered a stream request, on which branch it stands, and how far.
    Asked {
        stream: StreamName,
        node: u8,
        vb: u16,
        ask: StreamAsk,
        high: u64,
        log: Listed<LogEntry>,
        answer: AskAnswer,
    },
    /// A snapshot marker was put.
    Marked {
        stream: StreamName,
        start: u64,
        end: u64,
        flags: u32,
    },
    /// A change was put, as the act that is sent.
    Item {
        stream: StreamName,
        seq: u64,
        act: ItemAct,
        key: Key,
    },
    /// A stream's end was put, with its reason on the wire.
    Finished {
        stream: StreamName,
        reason: u32,
    },
    /// A state was put on a stream that takes a vBucket over: the role that its consumer's vBucket is
    /// to have next.
    Stated {
        stream: StreamName,
        role: Role,
    },
    /// A consumer took over the failover log that its producer told.
    Adopted {
        node: u8,
        vb: u16,
        log: Listed<LogEntry>,
    },
    /// A consumer took a snapshot marker: its snapshot is now this one.
    Ranged {
        node: u8,
        vb: u16,
        ss: u64,
        se: u64,
    },
    /// A consumer took a change.
    Got {
        node: u8,
        vb: u16,
        stream: StreamName,
        change: Change,
    },
    /// A consumer that was sent back to the seqno `named` rolled back to `to`.
    Rolled {
        node: u8,
        vb: u16,
        named: u64,
        to: u64,
    },
    /// A replica wrote an acknowledgement of all changes up to `seq` to its producer. It has written
    /// down all up to `saved`.
    Acknowledged {
        stream: StreamName,
        node: u8,
        vb: u16,
        seq: u64,
        saved: u64,
    },
    /// An active vBucket counted an acknowledgement of the node `member`, which has all changes up to
    /// `seq`.
    Counted {
        stream: StreamName,
        node: u8,
        vb: u16,
        member: u8,
        seq: u64,
    },
    /// A batch of `count` changes was taken, to be written down.
    Batch {
        node: u8,
        vb: u16,
        ss: u64,
        se: u64,
        at: u64,
        count: u64,
    },
    /// Numbers of a vBucket: its checkpoints with changes, their changes, its cursors, the seqno up to
    /// which all is saved, and its last seqno.
    Stat {
        node: u8,
        vb: u16,
        windows: u64,
        items: u64,
        cursors: u64,
        saved: u64,
        high: u64,
    },
    /// A device call of the node failed, as its arm said.
    CallFailed {
        node: u8,
    },
    /// The node stopped inside a device call, as its arm said.
    NodeStopped {
        node: u8,
    },
    /// A link ended.
    Ended {
        link: u32,
        reason: EndReason,
    },
    /// A vBucket was shown: `docs` lines of documents and `preps` lines of prepares follow. The
    /// branch `uuid` is the failover log's newest, or 0 where the log is empty.
    Shown {
        node: u8,
        vb: u16,
        role: Role,
        uuid: u64,
        at: u64,
        ss: u64,
        se: u64,
        docs: u64,
        preps: u64,
    },
    /// A vBucket's failover log, the newest entry first.
    Logged {
        node: u8,
        vb: u16,
        log: Listed<LogEntry>,
    },
    /// A document of the vBucket that is shown.
    Document {
        key: Key,
        doc: Doc,
    },
    /// A pending prepare of the vBucket that is shown.
    Prepared {
        key: Key,
        seq: u64,
        level: Level,
    },
}

/// Which connection a stream belongs to.
#[derive(Clone, Copy, Debug, PartialEq, Eq)]
pub enum StreamName {
    /// The link of this number.
    Link(u32),
    /// A client's: of this node, under this number there.
    Client(u8, u32),
}

/// What a change that is sent does to its key.
#[derive(Clone, Copy, Debug, PartialEq, Eq)]
pub enum ItemAct {
    Set,
    Remove,
    Prepare,
    Commit,
    Abort,
}

/// Why a link ended.
#[derive(Clone, Copy, Debug, PartialEq, Eq)]
pub enum EndReason {
    /// The script cut it, or the role of the vBucket that it fed was changed.
    Cut,
    /// The producer refused one of the consumer's requests.
    Refused,
    /// The consumer was sent what it may not take.
    Protocol,
    /// The producer ended the stream, since it reached the end that was asked for.
    Done,
    /// The producer ended the stream for another reason: its vBucket's role changed.
    State,
    /// A rollback could not be written down.
    Disk,
}

/// Why a producer put fewer frames than it was asked for.
#[derive(Clone, Copy, Debug, PartialEq, Eq)]
pub enum Why {
    /// It put as many.
    All,
    /// It has nothing more to put.
    Idle,
    /// The connection's window is shut, until its consumer acknowledges bytes or asks for another size.
    Full,
    /// A stream that hands its vBucket over waits for the answer to a state that it put.
    WaitState,
    /// A stream goes on once more of its vBucket is saved.
    WaitSaved,
    /// The journal that a stream goes on from can't be read.
    Disk,
}

/// Why a script line was refused.
#[derive(Clone, Copy, Debug, PartialEq, Eq)]
pub enum Cause {
    /// A node that the line names is not made.
    UnknownNode,
    /// The node is made already.
    NodeExists,
    /// The node is running.
    NodeUp,
    /// The node is not running.
    NodeDown,
    /// The node has no such vBucket.
    UnknownVb,
    /// The node has that vBucket already.
    VbExists,
    /// The node has 64 vBuckets.
    Limit,
    /// A branch id is 0.
    UuidZero,
    /// A branch id stands in an earlier `branch` line, or twice in this line.
    UuidUsed,
    /// There are fewer branch ids than vBuckets that were active.
    IdsShort,
    /// The vBucket has a role in which the line may not name it.
    WrongRole,
    /// A member of a chain is the vBucket's own node, or stands twice.
    ChainBad,
    /// The connection or link is open already, or the vBucket has an open link.
    LinkOpen,
    /// The connection or link is not open.
    LinkClosed,
    /// A batch is taken, or saved and not done.
    BatchOut,
    /// No batch is taken, or none is saved.
    NothingTaken,
    /// An earlier append to the journal failed.
    Closed,
    /// The disk failed.
    Disk,
    /// The node stopped inside the line.
    Stopped,
}

/// How a script line ended.
#[derive(Clone, Copy, Debug, PartialEq, Eq)]
pub enum Answer {
    /// It was carried out.
    Ok,
    /// It was carried out, with this number: how many bytes it moved, or 1 where it did something
    /// and 0 where it did not. One kind for both, as a transcript shows them alike.
    Number(u64),
    /// So many frames were put, and why no more.
    Pulled(u64, Why),
    /// It was refused, and changed nothing.
    No(Cause),
}

/// All that a transcript says of one script line: its number from 1, what happened, and the answer.
#[derive(Drop)]
pub struct Group {
    pub line: u64,
    pub events: Listed<Event>,
    pub answer: Answer,
}
