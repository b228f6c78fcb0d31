//! What the lines of a script say, as values.
use bytes::Bytes;
use vb_disk::Outcome;
use vb_types::Listed;

/// What a script line says, by what it names.
#[derive(Drop)]
pub enum Verb {
    /// `node N`: makes a node.
    Node {
        node: u8,
    },
    /// `link L M N V BUF follow`: node N's consumer of vBucket V dials node M, to follow its active
    /// vBucket, with a flow-control buffer of BUF bytes; with none where BUF is 0. With `takeover` in
    /// place of `follow` it dials to take the vBucket over.
    Link {
        id: u32,
        from: u8,
        to: u8,
        vb: u16,
        buffer: u32,
        takeover: bool,
    },
    /// A line for a node.
    AtNode {
        node: u8,
        what: NodeVerb,
    },
    /// A line for a vBucket of a node.
    AtVb {
        node: u8,
        vb: u16,
        what: VbVerb,
    },
    /// A line for a client's connection to a node.
    AtClient {
        node: u8,
        client: u32,
        what: ClientVerb,
    },
    /// A line for a link.
    AtLink {
        link: u32,
        what: LinkVerb,
    },
}

/// What a line asks of a node.
#[derive(Drop)]
pub enum NodeVerb {
    /// `clock N T`: sets its clock, in nanoseconds.
    Clock { nanos: u64 },
    /// `stop N K OUT`: arms it to stop inside its K-th changing device call from now, with what its
    /// disks then keep; disarms it where K is 0.
    Stop { call: u64, out: Outcome },
    /// `fail N K`: arms its K-th changing device call from now to fail; disarms it where K is 0.
    Fail { call: u64 },
    /// `crash N OUT`: stops it, with what its disks keep.
    Crash { out: Outcome },
    /// `start N` and at most 64 branches U: runs it again after it stopped. A vBucket that was active
    /// goes on on the next of these branches.
    Start { uuids: Listed<u64> },
}

/// What a line asks of a vBucket of a node.
#[derive(Drop)]
pub enum VbVerb {
    /// `vb N V active U`: makes it, active, with the first branch U.
    MakeActive { uuid: u64 },
    /// `vb N V replica`: makes it, an empty replica.
    MakeReplica,
    /// `chain N V` and at most 3 words, each M or `-`: sets its chain to node N and then these members,
    /// of which `-` is one that is not set.
    Chain { others: Listed<Option<u8>> },
    /// `promote N V U`: makes it active, on the new branch U.
    Promote { uuid: u64 },
    /// `follow N V`: makes it a replica.
    Follow,
    /// `dead N V`: makes it dead: it takes neither writes nor a producer's changes.
    Dead,
    /// `tick N V`: aborts its prepares whose deadline the node's clock has reached.
    Tick,
    /// `seal N V`: ends its open span.
    Seal,
    /// `trim N V`: gives up the front of its sealed spans that nobody needs any more.
    Trim,
    /// `take N V`: takes its next batch to be written down.
    Take,
    /// `save N V`: appends its batch to its journal.
    Save,
    /// `done N V`: counts its batch as saved.
    Done,
    /// `stat N V`: shows its numbers.
    Stat,
    /// `log N V`: shows its failover log.
    Log,
    /// `show N V`: shows its documents.
    Show,
}

/// What a line asks of a client's connection.
#[derive(Drop)]
pub enum ClientVerb {
    /// `client N C`: opens it.
    Open,
    /// `bytes N C HEX`: the client sends these bytes, of which there is at least one.
    Bytes { bytes: Bytes },
    /// `pull N C K`: asks for K frames of its streams.
    Pull { frames: u32 },
    /// `hang N C`: the client closes it.
    Hang,
}

/// What a line asks of a link.
#[derive(Clone, Copy, Debug, PartialEq, Eq)]
pub enum LinkVerb {
    /// `up L B`: gives its producer the next B bytes that the consumer wrote, or all.
    Up { bytes: u64 },
    /// `down L B`: gives its consumer the next B bytes that the producer wrote, or all.
    Down { bytes: u64 },
    /// `pump L K`: asks its producer for K stream frames.
    Pump { frames: u32 },
    /// `drop L`: takes the cursor of its stream away, at its producer.
    Drop,
    /// `cut L`: ends it. The bytes that are on their way are lost.
    Cut,
}

/// What a line says, with its number from 1.
#[derive(Drop)]
pub struct ScriptLine {
    pub line: u64,
    pub verb: Verb,
}

/// What the lines of a script say, in their order.
pub type Script = Listed<ScriptLine>;
