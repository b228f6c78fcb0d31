//! The calls of a vBucket, and their replies.
use durability::Chain;
use vb_journal::Receipt;
use vb_types::{
    AskAnswer, Batch, Change, Doc, Image, Key, Level, Listed, LogEntry, Place, Role, Snapshot,
    Status, StreamAsk, Write,
};

/// What is asked of a vBucket.
#[derive(Drop)]
pub enum VbCall {
    /// A key's document.
    Get {
        key: Key,
    },
    /// A client's write, while the node's clock shows `clock` nanoseconds.
    Store {
        write: Write,
        clock: u64,
    },
    /// A client's durable write: it is prepared, and committed once as many nodes have it as its level
    /// asks for. It is given up where the node's clock shows `deadline` nanoseconds or more, at a
    /// `Tick`. The outcome is told to `waiter`, unless that is 0.
    Durable {
        write: Write,
        clock: u64,
        level: Level,
        deadline: u64,
        waiter: u64,
    },
    /// A new stream under the number `id`; none is opened under 0. A `sync` one carries prepares,
    /// commits and aborts too; any other has each commit as the set or removal of its document.
    OpenStream {
        id: u64,
        ask: StreamAsk,
        sync: bool,
    },
    /// Where an open stream's next changes come from. One that has no cursor is given one where they
    /// are in memory.
    Place {
        id: u64,
    },
    /// The next snapshot of an open stream.
    Take {
        id: u64,
    },
    /// That an open stream is no longer fed. It takes no memory.
    CloseStream {
        id: u64,
    },
    /// That an open stream has no cursor any more, if it has one; it stays at its place. It takes no
    /// memory.
    DropCursor {
        id: u64,
    },
    /// The nodes that are to have the durable writes of the vBucket.
    Chain {
        chain: Chain,
    },
    /// That a node of the chain has all up to a seqno.
    Ack {
        member: u8,
        seq: u64,
    },
    /// That the prepares whose deadlines are not after the clock are given up.
    Tick {
        clock: u64,
    },
    /// The seqno up to which the vBucket, which follows another one, has all durable writes as their
    /// levels ask for, or 0.
    Due,
    /// What the vBucket asks for as a consumer.
    Ask,
    /// The failover log that the producer answered, the newest entry first.
    Adopt {
        log: Listed<LogEntry>,
    },
    /// A snapshot marker from the producer: all changes from here on lie above `start` or the last
    /// one taken, and at most at `end`.
    Marker {
        start: u64,
        end: u64,
    },
    /// A change from the producer. A commit's document is the pending prepare's, whatever is here.
    Receive {
        change: Change,
    },
    /// That the vBucket goes back to what stood at a seqno, which is this image, and gives up all that
    /// it has above it. `cas` is the greatest CAS that was written down.
    RollTo {
        at: u64,
        image: Image,
        cas: u64,
    },
    /// That the vBucket becomes active, on a new branch of this id.
    Promote {
        uuid: u64,
    },
    /// That the vBucket becomes a replica.
    Follow,
    /// That the vBucket takes neither writes nor changes.
    Dead,
    /// That the vBucket is to take over from the one that it follows. It takes changes from it still.
    Pend,
    /// That the vBucket takes over: it becomes active on the branch that it is on.
    Own,
    /// That the vBucket is given up to the one that the stream `id` feeds: it takes neither writes nor
    /// changes, and goes on to feed this stream alone.
    Yield {
        id: u64,
    },
    /// That no change enters the open span any more.
    Seal,
    /// That the sealed spans are given up that are written down, and that no cursor needs. It takes no
    /// memory.
    Trim,
    /// The next changes that are to be written down: the rest of one span.
    FlushTake,
    /// That changes are written down, as the receipt says.
    FlushDone {
        receipt: Receipt,
    },
    /// Numbers of the vBucket.
    Stat,
    /// The failover log.
    Log,
    /// The role, the position and all documents.
    Show,
}

/// What a vBucket answers.
#[derive(Drop)]
pub enum VbAnswer {
    /// The call was refused, and changed nothing.
    Status(Status),
    /// No stream of that number is open.
    Absent,
    /// The stream has no snapshot yet.
    Nothing,
    /// The call was made.
    Done,
    /// The call was made, and whether it did anything.
    Flag(bool),
    /// The seqno that the vBucket holds now, or how many spans it gave up.
    Num(u64),
    /// The seqno that the vBucket may acknowledge, 0 for none, and the one up to which it has written all
    /// down.
    Dues {
        seq: u64,
        saved: u64,
    },
    /// The branch that the vBucket is on from now on: its parent, the seqno at which it leaves it,
    /// and the seqno up to which it has changes.
    Branch {
        uuid: u64,
        parent: Option<u64>,
        fork: u64,
        high: u64,
    },
    /// The document that was asked for.
    Found(Doc),
    /// The write was made: its branch, its seqno and its CAS.
    Stored {
        uuid: u64,
        seq: u64,
        cas: u64,
    },
    /// The durable write was prepared: its seqno and its CAS.
    Prepared {
        seq: u64,
        cas: u64,
    },
    /// What is said to a request for a stream that opens none: that its consumer has to roll back to a
    /// seqno or below it first, or why it is refused; and, whatever is said, the failover log, the
    /// newest entry first, and the last seqno that the vBucket has.
    Asked {
        said: AskAnswer,
        log: Listed<LogEntry>,
        high: u64,
    },
    /// A stream was opened: the failover log, the last seqno, and where its next changes come from.
    Opened {
        log: Listed<LogEntry>,
        high: u64,
        place: Place,
    },
    /// Where the stream's next changes come from.
    Placed(Place),
    /// The stream's next snapshot.
    Taken(Snapshot),
    /// The changes that are to be written down.
    Rows(Batch),
    /// How many spans there are, how many live changes in all of them, and how many cursors; the seqno
    /// up to which all is written down, and the last one.
    Stat {
        windows: u64,
        items: u64,
        cursors: u64,
        saved: u64,
        high: u64,
    },
    /// What the vBucket asks for.
    Named(StreamAsk),
    /// The snapshot that the vBucket is in from now on.
    Range {
        ss: u64,
        se: u64,
    },
    /// The failover log, the newest entry first.
    Logged {
        log: Listed<LogEntry>,
    },
    /// The role, the branch (0 where the failover log is empty), the position and the image.
    Shown {
        role: Role,
        uuid: u64,
        ss: u64,
        se: u64,
        at: u64,
        image: Image,
    },
}

/// What became of a durable write.
#[derive(Clone, Copy, Debug, PartialEq, Eq)]
pub enum Resolution {
    /// It was committed on this branch, by the change of this seqno, with this CAS.
    Committed { uuid: u64, seq: u64, cas: u64 },
    /// Whether it stands is not known: its time was up, or the vBucket is not active any more.
    Ambiguous,
}

/// What is told to who waits for a durable write.
#[derive(Clone, Copy, Debug, PartialEq, Eq)]
pub struct Resolved {
    pub waiter: u64,
    pub how: Resolution,
}

/// An answer, what became of durable writes that are waited for, the streams that a change of role
/// ended, and the changes that the call made or took in; and the branch of those that it made, 0
/// where it made none.
#[derive(Drop)]
pub struct VbReply {
    pub answer: VbAnswer,
    pub resolved: Listed<Resolved>,
    pub ended: Listed<u64>,
    pub branch: u64,
    pub changes: Listed<Change>,
}
