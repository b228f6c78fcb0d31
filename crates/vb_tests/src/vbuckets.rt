//! A vBucket at work.
mod calls;
mod durable;
mod memory;
mod refused;
mod roles;
mod saving;
mod takeovers;

use calls::{At, Do, Step, Talk, Told, first_other, first_other_of};
use std::test::Fail;
use vb_types::{AskAnswer, Op, Place, Status, StreamAsk};

const GO: Told = Told::Opened(1, 1, Place::Memory);

// KeyEexists and Erange.
const EXISTS: Told = Told::Asked(AskAnswer::Refuse(0x02), 1, 1);

const ERANGE: Told = Told::Asked(AskAnswer::Refuse(0x22), 1, 1);

const ASK: StreamAsk = StreamAsk {
    flags: 0,
    start: 0,
    end: u64::MAX,
    uuid: 5,
    ss: 0,
    se: 3,
};

// A document is set, read and deleted.
const WRITES: [Step; 4] = [
    (Do::Store(Op::Set, 131_073), Told::Stored(1, 131_072)),
    (Do::Get, Told::Found(131_072, 1)),
    (Do::Store(Op::Delete, 0), Told::Stored(2, 131_073)),
    (Do::Get, Told::Refused(Status::KeyEnoent)),
];

// Each request is answered with the log and the last seqno; none is opened under the number 0.
const OPENED: [Step; 16] = [
    (Do::Store(Op::Set, 1), Told::Stored(1, 1)),
    (Do::Open(3, 9, 1), Told::Asked(AskAnswer::Roll(0), 1, 1)),
    (Do::Open(0, 0, 0), EXISTS),
    (Do::OpenInside(5, 6, 9), ERANGE),
    (Do::OpenInside(5, 1, 4), ERANGE),
    (Do::OpenInside(0, 0, 9), GO),
    (Do::Close(3), Told::Flag(true)),
    (Do::Open(3, 0, 0), GO),
    (Do::Open(3, 0, 0), EXISTS),
    (Do::Open(4, 0, 0), GO),
    (Do::Place(3), Told::Placed(Place::Memory)),
    (Do::Close(3), Told::Flag(true)),
    (Do::Close(3), Told::Flag(false)),
    (Do::Place(3), Told::Absent),
    (Do::Place(0), Told::Absent),
    (Do::Place(4), Told::Placed(Place::Memory)),
];

// A stream takes snapshots.
const TAKEN: [Step; 8] = [
    (Do::Store(Op::Set, 1), Told::Stored(1, 1)),
    (Do::Store(Op::Set, 1), Told::Stored(2, 2)),
    (Do::Open(3, 0, 0), Told::Opened(1, 2, Place::Memory)),
    (Do::Take(3), Told::Taken(0, 2, 1)),
    (Do::Take(3), Told::Nothing),
    (Do::Store(Op::Delete, 1), Told::Stored(3, 3)),
    (Do::Take(3), Told::Taken(2, 3, 1)),
    (Do::Take(4), Told::Absent),
];

// A span is sealed once.
const SEALED: [Step; 4] = [
    (Do::Seal, Told::Flag(false)),
    (Do::Store(Op::Set, 1), Told::Stored(1, 1)),
    (Do::Seal, Told::Flag(true)),
    (Do::Seal, Told::Flag(false)),
];

// A follower asks.
const ASKED: [Step; 3] = [
    (Do::Adopt(5), Told::Done),
    (Do::Marker(0, 3), Told::Range(0, 3)),
    (Do::Ask, Told::Named(ASK)),
];

const ASKED_ACTIVE: [Step; 1] = [(Do::Ask, Told::Refused(Status::NotMyVbucket))];

#[test]
fn an_active_vbucket_does_not_ask(rt: HostRuntime) -> Result<(), Fail> {
    assert_eq!(rt; first_other(rt.alloc(), At::Active, &ASKED_ACTIVE)?, None);
    Ok(())
}

const ADOPTED: [Step; 4] = [
    (Do::Adopt(0), Told::Refused(Status::Einval)),
    (Do::Log, Told::NoLog),
    (Do::Adopt(5), Told::Done),
    (Do::Log, Told::Logged(1, 5, 5)),
];

#[test]
fn a_log_is_adopted(rt: HostRuntime) -> Result<(), Fail> {
    assert_eq!(rt; first_other(rt.alloc(), At::Replica, &ADOPTED)?, None);
    Ok(())
}

// A marker begins a snapshot.
const MARKED: [Step; 6] = [
    (Do::Adopt(5), Told::Done),
    (Do::Marker(0, 3), Told::Range(0, 3)),
    (Do::Marker(4, 9), Told::Refused(Status::Erange)),
    (Do::Prepare(3, 7), Told::Done),
    (Do::Marker(4, 9), Told::Range(3, 9)),
    (Do::Show, Told::Shown(3, 9, 3)),
];

// A change is received: a commit comes without its document, and has that of its prepare.
const RECEIVED: [Step; 5] = [
    (Do::Adopt(5), Told::Done),
    (Do::Marker(0, 3), Told::Range(0, 3)),
    (Do::Prepare(1, 7), Told::Done),
    (Do::Commit(3, 1), Told::Committed(7)),
    (Do::Show, Told::Shown(0, 3, 3)),
];

// What is taken to be written down ends where a span does.
const FLUSHED: [Step; 9] = [
    (Do::FlushTake, Told::Nothing),
    (Do::Store(Op::Set, 1), Told::Stored(1, 1)),
    (Do::Store(Op::Set, 1), Told::Stored(2, 2)),
    (Do::FlushTake, Told::Batch(2, 2, 2, 1)),
    (Do::FlushTake, Told::Nothing),
    (Do::Store(Op::Delete, 1), Told::Stored(3, 3)),
    (Do::FlushTake, Told::Batch(3, 3, 3, 1)),
    (Do::Open(3, 0, 0), Told::Opened(1, 3, Place::Memory)),
    (Do::Stat, Told::Stat(1, 1, 2, 0, 3)),
];

// A follower goes back inside its snapshot. A stream from below there waits, and has no cursor.
const FLUSHED_INSIDE: [Step; 15] = [
    (Do::Adopt(5), Told::Done),
    (Do::Marker(0, 3), Told::Range(0, 3)),
    (Do::Set(1), Told::Done),
    (Do::Set(2), Told::Done),
    (Do::Stat, Told::Stat(2, 2, 1, 0, 2)),
    (Do::FlushTake, Told::Batch(0, 3, 1, 1)),
    (Do::FlushTake, Told::Batch(0, 3, 2, 1)),
    (Do::FlushTake, Told::Nothing),
    (Do::Roll(1), Told::Num(1)),
    (Do::Show, Told::Shown(1, 1, 1)),
    (Do::FlushTake, Told::Nothing),
    (Do::Promote(22), Told::Branch(22, Some(5), 1, 1)),
    (Do::Open(3, 0, 0), Told::Opened(2, 1, Place::WaitSaved)),
    (Do::Place(3), Told::Placed(Place::WaitSaved)),
    (Do::Stat, Told::Stat(0, 0, 1, 1, 1)),
];

const TALKS: [Talk; 9] = [
    (At::Active, &FLUSHED),
    (At::Replica, &FLUSHED_INSIDE),
    (At::Active, &WRITES),
    (At::Active, &OPENED),
    (At::Active, &TAKEN),
    (At::Active, &SEALED),
    (At::Replica, &ASKED),
    (At::Replica, &MARKED),
    (At::Replica, &RECEIVED),
];

#[test]
fn calls_are_answered(rt: HostRuntime) -> Result<(), Fail> {
    assert_eq!(rt; first_other_of(rt.alloc(), &TALKS)?, None);
    Ok(())
}
