//! A vBucket that is given up for a stream, and one that takes over.
use super::calls::{At, Do, Step, Talk, Told, first_other_of};
use std::test::Fail;
use vb_calls::Resolution;
use vb_types::{Level, Op, Place, Status};

const EINVAL: Told = Told::Refused(Status::Einval);

const NOT_MY_VBUCKET: Told = Told::Refused(Status::NotMyVbucket);

const GO: Told = Told::Opened(1, 0, Place::Memory);

// The heir's snapshot is complete then, at its last seqno, and its log has no new entry.
const OWNED: [Step; 16] = [
    (Do::Adopt(5), Told::Done),
    (Do::Marker(0, 2), Told::Range(0, 2)),
    (Do::Set(2), Told::Done),
    (Do::Marker(2, 3), Told::Range(2, 3)),
    (Do::Set(3), Told::Done),
    (Do::Own, NOT_MY_VBUCKET),
    (Do::Pend, Told::Done),
    (Do::Pend, Told::Done),
    (Do::Show, Told::Shown(2, 3, 3)),
    (Do::Get, NOT_MY_VBUCKET),
    (Do::Own, Told::Done),
    (Do::Show, Told::Shown(3, 3, 3)),
    (Do::Log, Told::Logged(1, 5, 5)),
    (Do::Own, NOT_MY_VBUCKET),
    (Do::Pend, NOT_MY_VBUCKET),
    (Do::Store(Op::Set, 1), Told::Stored(4, 4)),
];

// Inside a snapshot nobody takes over; changes are taken on.
const EARLY: [Step; 7] = [
    (Do::Adopt(5), Told::Done),
    (Do::Marker(0, 2), Told::Range(0, 2)),
    (Do::Set(1), Told::Done),
    (Do::Pend, Told::Done),
    (Do::Own, EINVAL),
    (Do::Set(2), Told::Done),
    (Do::Own, Told::Done),
];

// Nor on no branch.
const BRANCHLESS: [Step; 2] = [(Do::Pend, Told::Done), (Do::Own, EINVAL)];

// A dead vBucket neither takes over nor is given up.
const DEAD: [Step; 3] = [
    (Do::Pend, NOT_MY_VBUCKET),
    (Do::Own, NOT_MY_VBUCKET),
    (Do::Yield(3), NOT_MY_VBUCKET),
];

// The prepare of a former active node needs its heir alone, at level 1.
const COMMITTED: [Step; 6] = [
    (Do::Adopt(5), Told::Done),
    (Do::Marker(0, 1), Told::Range(0, 1)),
    (Do::Prepare(1, 40), Told::Done),
    (Do::Pend, Told::Done),
    (Do::Own, Told::Committed(40)),
    (Do::Get, Told::Found(40, 1)),
];

const HEIRS: [Talk; 5] = [
    (At::Replica, &OWNED),
    (At::Replica, &EARLY),
    (At::Replica, &BRANCHLESS),
    (At::Dead, &DEAD),
    (At::Replica, &COMMITTED),
];

#[test]
fn heirs_take_over(rt: HostRuntime) -> Result<(), Fail> {
    assert_eq!(rt; first_other_of(rt.alloc(), &HEIRS)?, None);
    Ok(())
}

// One of two streams goes on, until the vBucket follows.
const YIELDED: [Step; 16] = [
    (Do::Open(3, 0, 0), GO),
    (Do::Open(4, 0, 0), GO),
    (Do::Store(Op::Set, 1), Told::Stored(1, 1)),
    (Do::Yield(9), Told::Absent),
    (Do::Yield(3), Told::EndedOne(4)),
    (Do::Yield(3), NOT_MY_VBUCKET),
    (Do::Ack(2, 1), NOT_MY_VBUCKET),
    (Do::Store(Op::Set, 1), NOT_MY_VBUCKET),
    (Do::Place(4), Told::Absent),
    (Do::Place(3), Told::Placed(Place::Memory)),
    (Do::Stat, Told::Stat(1, 1, 2, 0, 1)),
    (Do::Take(3), Told::Taken(0, 1, 1)),
    (Do::Take(3), Told::Nothing),
    (Do::FlushTake, Told::Batch(1, 1, 1, 1)),
    (Do::Follow, Told::EndedOne(3)),
    (Do::Take(3), Told::Absent),
];

// Who waits for a durable write is told so.
const AMBIGUOUS: [Step; 4] = [
    (Do::Chain(&[Some(2)]), Told::Done),
    (Do::Durable(Level::Majority, 50), Told::Prepared(1, 1)),
    (Do::Open(3, 0, 0), Told::Opened(1, 1, Place::Memory)),
    (Do::Yield(3), Told::Resolved(0, Resolution::Ambiguous)),
];

// The stream is closed, or a promotion ends it; its number is free then.
const ENDED: [Step; 9] = [
    (Do::Open(3, 0, 0), GO),
    (Do::Yield(3), Told::Done),
    (Do::Promote(22), Told::Branch(22, Some(5), 0, 0)),
    (Do::Take(3), Told::Absent),
    (Do::Open(3, 0, 0), Told::Opened(2, 0, Place::Memory)),
    (Do::Yield(3), Told::Done),
    (Do::Close(3), Told::Flag(true)),
    (Do::Follow, Told::Done),
    (Do::Stat, Told::Stat(0, 0, 1, 0, 0)),
];

const GIVEN_UP: [Talk; 3] = [
    (At::Active, &YIELDED),
    (At::Active, &AMBIGUOUS),
    (At::Active, &ENDED),
];

#[test]
fn one_stream_goes_on(rt: HostRuntime) -> Result<(), Fail> {
    assert_eq!(rt; first_other_of(rt.alloc(), &GIVEN_UP)?, None);
    Ok(())
}
