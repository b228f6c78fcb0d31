//! Calls and answers in plain values. A test is a table of both; one function makes the calls and
//! compares.
use super::saving::{Pages, flush};
use durability::Chain;
use journal_points::Saved;
use std::alloc::{AllocError, Global};
use std::test::Fail;
use vb_calls::{Resolution, VbAnswer, VbCall, VbReply};
use vb_disk::MemDisk;
use vb_journal::Journal;
use vb_types::{
    Act, AskAnswer, Batch, Change, Doc, Image, Key, Level, Listed, LogEntry, Op, Place, Position,
    Role, Status, StreamAsk, Value, Write,
};
use vbucket::VBucket;

/// A call. Each document has the key `k` and the value `v`.
#[derive(Clone, Copy)]
pub enum Do {
    Get,
    /// A write, while the clock shows so much.
    Store(Op, u64),
    /// A durable write of this level, while the clock shows 0, until this deadline. The client 7 waits for it.
    Durable(Level, u64),
    /// A chain of the node 0 and these.
    Chain(&'static [Option<u8>]),
    /// What a member acknowledged.
    Ack(u8, u64),
    Tick(u64),
    Due,
    /// A request for the stream of this number from a branch's seqno on.
    Open(u64, u64, u64),
    /// A request for the stream 3 of the branch 5 from a seqno on, in the snapshot between the other two.
    OpenInside(u64, u64, u64),
    Place(u64),
    Take(u64),
    Close(u64),
    Ask,
    /// A log of one branch, from its start.
    Adopt(u64),
    /// A log of two branches, the newer one first: each one's id, and the seqno at which it was made.
    AdoptTwo((u64, u64), (u64, u64)),
    /// A log of so many branches that were all made at 0. The newest has their count as its id, the
    /// oldest 1.
    AdoptMany(u64),
    Marker(u64, u64),
    /// A set with this seqno.
    Set(u64),
    /// A prepare with this seqno, whose document has this CAS.
    Prepare(u64, u64),
    /// A commit as it comes from a producer, whose document says nothing, of the prepare at the
    /// second seqno.
    Commit(u64, u64),
    /// A way back to this seqno, where nothing stands.
    Roll(u64),
    FlushTake,
    /// To take the next batch, write it down, and tell the vBucket so.
    Flush,
    /// To take the cursor of the stream of this number away.
    Drop(u64),
    Trim,
    Stat,
    Promote(u64),
    Follow,
    Dead,
    Pend,
    Own,
    /// To be given up for the stream of this number.
    Yield(u64),
    Seal,
    Log,
    Show,
}

/// What a test compares of a reply.
#[derive(Clone, Copy, PartialEq, Eq)]
pub enum Told {
    Refused(Status),
    Absent,
    Nothing,
    Done,
    /// The call was made, and ended this stream.
    EndedOne(u64),
    /// The call was made, and ended these two streams.
    Ended(u64, u64),
    /// A durable write was prepared: its seqno, and how many changes were made in all.
    Prepared(u64, usize),
    /// How many changes were made, and what the first who waited is told.
    Resolved(usize, Resolution),
    /// A commit was taken in, whose document has this CAS.
    Committed(u64),
    /// The CAS and the revision of a document.
    Found(u64, u64),
    /// The seqno and the CAS of a write.
    Stored(u64, u64),
    /// What is said to a request that opens no stream, how many entries the log has, and the last seqno.
    Asked(AskAnswer, usize, u64),
    /// How many entries the log has, the last seqno, and where the changes of the new stream come from.
    Opened(usize, u64, Place),
    Placed(Place),
    /// The snapshot's start and end, and how many changes it has.
    Taken(u64, u64, usize),
    Named(StreamAsk),
    Range(u64, u64),
    NoLog,
    /// How many entries the log has, its newest branch and its oldest.
    Logged(usize, u64, u64),
    Flag(bool),
    Num(u64),
    /// What may be acknowledged, and what is saved.
    Dues(u64, u64),
    /// The branch, its parent, where it leaves it, and the last seqno.
    Branch(u64, Option<u64>, u64, u64),
    /// The position's snapshot, and how far it is taken.
    Shown(u64, u64, u64),
    /// A batch's position, as the one above, and how many changes it has.
    Batch(u64, u64, u64, usize),
    /// Numbers of spans, live changes and cursors, what is saved, and the last seqno.
    Stat(u64, u64, u64, u64, u64),
}

/// A call, and what it is told.
pub type Step = (Do, Told);

fn key(alloc: Global) -> Result<Key, Fail> {
    Ok(Key::new(alloc, b"k")?.ok_or("key")?)
}

fn value(alloc: Global) -> Result<Value, Fail> {
    Ok(Value::new(alloc, b"v")?.ok_or("value")?)
}

fn write(alloc: Global, op: Op) -> Result<Write, Fail> {
    let key = key(alloc)?;
    let value = value(alloc)?;
    Ok(Write {
        op,
        key,
        value,
        flags: 7,
        expiry: 0,
        datatype: 0,
        cas: 0,
    })
}

fn doc(alloc: Global, cas: u64) -> Result<Doc, Fail> {
    let value = value(alloc)?;
    Ok(Doc {
        value,
        cas,
        rev: 1,
        flags: 0,
        expiry: 0,
        datatype: 0,
    })
}

fn opening(id: u64, uuid: u64, start: u64, ss: u64, se: u64) -> VbCall {
    let ask = StreamAsk {
        flags: 0,
        start,
        end: u64::MAX,
        uuid,
        ss,
        se,
    };
    VbCall::OpenStream {
        id,
        ask,
        sync: true,
    }
}

fn entry(made: (u64, u64)) -> LogEntry {
    LogEntry {
        uuid: made.0,
        seq: made.1,
    }
}

fn adopting_two(alloc: Global, newer: (u64, u64), older: (u64, u64)) -> Result<VbCall, Fail> {
    let mut log = Listed::one(alloc, entry(newer))?;
    log.push(entry(older))?;
    Ok(VbCall::Adopt { log })
}

fn adopting_many(alloc: Global, count: u64) -> Result<VbCall, Fail> {
    let mut log = Listed::new(alloc);
    for n in 0..count {
        let uuid = count - n;
        log.push(LogEntry { uuid, seq: 0 })?;
    }
    Ok(VbCall::Adopt { log })
}

fn prepare(alloc: Global, cas: u64) -> Result<Act, Fail> {
    let doc = doc(alloc, cas)?;
    Ok(Act::Prepare {
        level: Level::Majority,
        doc,
        deleted: false,
    })
}

fn commit(alloc: Global, prepared: u64) -> Result<Act, Fail> {
    let doc = doc(alloc, 0)?;
    Ok(Act::Commit {
        prepared,
        doc,
        deleted: true,
    })
}

fn receiving(alloc: Global, seq: u64, act: Act) -> Result<VbCall, Fail> {
    match key(alloc) {
        Ok(key) => {
            let change = Change { seq, key, act };
            Ok(VbCall::Receive { change })
        }
        Err(fail) => {
            drop(act);
            Err(fail)
        }
    }
}

fn setting(alloc: Global, seq: u64) -> Result<VbCall, Fail> {
    let doc = doc(alloc, seq)?;
    receiving(alloc, seq, Act::Set(doc))
}

fn preparing(alloc: Global, seq: u64, cas: u64) -> Result<VbCall, Fail> {
    let act = prepare(alloc, cas)?;
    receiving(alloc, seq, act)
}

fn committing(alloc: Global, seq: u64, prepared: u64) -> Result<VbCall, Fail> {
    let act = commit(alloc, prepared)?;
    receiving(alloc, seq, act)
}

fn getting(alloc: Global) -> Result<VbCall, Fail> {
    let key = key(alloc)?;
    Ok(VbCall::Get { key })
}

fn rolling(alloc: Global, at: u64) -> VbCall {
    VbCall::RollTo {
        at,
        image: Image::new(alloc),
        cas: 0,
    }
}

fn adopting(alloc: Global, uuid: u64) -> Result<VbCall, Fail> {
    let log = Listed::one(alloc, LogEntry { uuid, seq: 0 })?;
    Ok(VbCall::Adopt { log })
}

fn storing(alloc: Global, op: Op, clock: u64) -> Result<VbCall, Fail> {
    let write = write(alloc, op)?;
    Ok(VbCall::Store { write, clock })
}

fn durable(alloc: Global, level: Level, deadline: u64) -> Result<VbCall, Fail> {
    let write = write(alloc, Op::Set)?;
    Ok(VbCall::Durable {
        write,
        clock: 0,
        level,
        deadline,
        waiter: 7,
    })
}

fn chain(alloc: Global, others: &[Option<u8>]) -> Result<VbCall, Fail> {
    let others = Vec::from_slice(alloc, others)?;
    let chain = Chain::new(0, others).ok_or("chain")?;
    Ok(VbCall::Chain { chain })
}

/// A call that takes memory to make. The others are made below.
fn call(alloc: Global, what: Do) -> Result<VbCall, Fail> {
    match what {
        Do::Get => getting(alloc),
        Do::Store(op, clock) => storing(alloc, op, clock),
        Do::Durable(level, deadline) => durable(alloc, level, deadline),
        Do::Chain(others) => chain(alloc, others),
        Do::Adopt(uuid) => adopting(alloc, uuid),
        Do::AdoptTwo(newer, older) => adopting_two(alloc, newer, older),
        Do::AdoptMany(count) => adopting_many(alloc, count),
        Do::Set(seq) => setting(alloc, seq),
        Do::Prepare(seq, cas) => preparing(alloc, seq, cas),
        Do::Commit(seq, prepared) => committing(alloc, seq, prepared),
        Do::Roll(at) => Ok(rolling(alloc, at)),
        other => Ok(plain_call(other)),
    }
}

/// A call of numbers alone.
fn plain_call(what: Do) -> VbCall {
    match what {
        Do::Ack(member, seq) => VbCall::Ack { member, seq },
        Do::Tick(clock) => VbCall::Tick { clock },
        Do::Due => VbCall::Due,
        Do::Open(id, uuid, start) => opening(id, uuid, start, start, start),
        Do::OpenInside(start, ss, se) => opening(3, 5, start, ss, se),
        Do::Place(id) => VbCall::Place { id },
        Do::Take(id) => VbCall::Take { id },
        Do::Close(id) => VbCall::CloseStream { id },
        Do::Ask => VbCall::Ask,
        Do::Marker(start, end) => VbCall::Marker { start, end },
        Do::FlushTake => VbCall::FlushTake,
        Do::Drop(id) => VbCall::DropCursor { id },
        Do::Trim => VbCall::Trim,
        Do::Stat => VbCall::Stat,
        Do::Promote(uuid) => VbCall::Promote { uuid },
        Do::Follow => VbCall::Follow,
        Do::Dead => VbCall::Dead,
        Do::Pend => VbCall::Pend,
        Do::Own => VbCall::Own,
        Do::Yield(id) => VbCall::Yield { id },
        Do::Seal => VbCall::Seal,
        Do::Log => VbCall::Log,
        // `Show`: what takes memory to make has its arm above.
        _ => VbCall::Show,
    }
}

/// What a call told that was made.
fn done(reply: &VbReply) -> Told {
    match reply.ended.as_slice() {
        [one] => return Told::EndedOne(*one),
        [one, other] => return Told::Ended(*one, *other),
        _ => {}
    }
    if let Some(first) = reply.resolved.as_slice().first() {
        return Told::Resolved(reply.changes.as_slice().len(), first.how);
    }
    match reply.changes.as_slice().first() {
        Some(change) => received(&change.act),
        None => Told::Done,
    }
}

fn received(act: &Act) -> Told {
    match act {
        Act::Commit { doc, deleted, .. } if !*deleted => Told::Committed(doc.cas),
        _ => Told::Done,
    }
}

fn logged(log: &[LogEntry]) -> Told {
    match (log.first(), log.last()) {
        (Some(newest), Some(oldest)) => Told::Logged(log.len(), newest.uuid, oldest.uuid),
        _ => Told::NoLog,
    }
}

fn batched(batch: &Batch) -> Told {
    let at = &batch.position;
    Told::Batch(at.ss, at.se, at.at, batch.items.as_slice().len())
}

pub fn outline(reply: &VbReply) -> Told {
    match &reply.answer {
        VbAnswer::Status(status) => Told::Refused(*status),
        VbAnswer::Absent => Told::Absent,
        VbAnswer::Nothing => Told::Nothing,
        VbAnswer::Done => done(reply),
        VbAnswer::Found(doc) => Told::Found(doc.cas, doc.rev),
        VbAnswer::Stored { seq, cas, .. } => Told::Stored(*seq, *cas),
        VbAnswer::Prepared { seq, .. } => Told::Prepared(*seq, reply.changes.as_slice().len()),
        VbAnswer::Asked { said, log, high } => Told::Asked(*said, log.as_slice().len(), *high),
        VbAnswer::Opened { log, high, place } => {
            Told::Opened(log.as_slice().len(), *high, *place)
        }
        VbAnswer::Placed(place) => Told::Placed(*place),
        VbAnswer::Taken(taken) => {
            Told::Taken(taken.start, taken.end, taken.items.as_slice().len())
        }
        VbAnswer::Named(ask) => Told::Named(*ask),
        VbAnswer::Range { ss, se } => Told::Range(*ss, *se),
        VbAnswer::Logged { log } => logged(log.as_slice()),
        VbAnswer::Flag(did) => Told::Flag(*did),
        VbAnswer::Num(seq) => Told::Num(*seq),
        VbAnswer::Dues { seq, saved } => Told::Dues(*seq, *saved),
        VbAnswer::Branch {
            uuid,
            parent,
            fork,
            high,
        } => Told::Branch(*uuid, *parent, *fork, *high),
        VbAnswer::Shown { ss, se, at, .. } => Told::Shown(*ss, *se, *at),
        VbAnswer::Rows(batch) => batched(batch),
        VbAnswer::Stat {
            windows,
            items,
            cursors,
            saved,
            high,
        } => Told::Stat(*windows, *items, *cursors, *saved, *high),
    }
}

fn answered(alloc: Global, vb: &mut VBucket, pages: &mut Pages, what: Do) -> Result<Told, Fail> {
    if matches!(what, Do::Flush) {
        return flush(vb, pages);
    }
    let call = call(alloc, what)?;
    let reply = vb.step(call)?;
    let told = outline(&reply);
    drop(reply);
    Ok(told)
}

/// The vBucket that is called.
#[derive(Clone, Copy)]
pub enum At {
    /// An active one on the branch 5.
    Active,
    Replica,
    Dead,
    /// One that was active and stood at this seqno, all of it written down.
    Loaded(u64),
}

fn loaded(alloc: Global, at: u64) -> Result<VBucket, AllocError> {
    let saved = Saved {
        role: Role::Active,
        log: Listed::one(alloc, LogEntry { uuid: 4, seq: 0 })?,
        position: Position { ss: at, se: at, at },
        cas: 0,
        image: Image::new(alloc),
    };
    VBucket::load(alloc, 1, &saved)
}

fn begun(alloc: Global, at: At) -> Result<VBucket, AllocError> {
    match at {
        At::Active => VBucket::new(alloc, 1, Role::Active, 5),
        At::Replica => VBucket::new(alloc, 2, Role::Replica, 0),
        At::Dead => VBucket::new(alloc, 1, Role::Dead, 0),
        At::Loaded(at) => loaded(alloc, at),
    }
}

/// The place of the first call of a vBucket that is told something else than the table says.
fn first_other_at(alloc: Global, vb: &mut VBucket, steps: &[Step]) -> Result<Option<usize>, Fail> {
    let mut pages = Journal::create(alloc, MemDisk::new(alloc)?);
    for (place, (what, want)) in steps.iter().enumerate() {
        if answered(alloc, vb, &mut pages, *what)? != *want {
            return Ok(Some(place));
        }
    }
    Ok(None)
}

/// The same of one that begins there.
pub fn first_other(alloc: Global, at: At, steps: &[Step]) -> Result<Option<usize>, Fail> {
    let mut vb = begun(alloc, at)?;
    first_other_at(alloc, &mut vb, steps)
}

/// Calls of one vBucket.
pub type Talk = (At, &'static [Step]);

/// The place of the first talk that goes otherwise, and that of the call.
pub fn first_other_of(alloc: Global, talks: &[Talk]) -> Result<Option<(usize, usize)>, Fail> {
    for (at, (begin, steps)) in talks.iter().enumerate() {
        if let Some(place) = first_other(alloc, *begin, steps)? {
            return Ok(Some((at, place)));
        }
    }
    Ok(None)
}
