//! Durable writes of one vBucket.
use super::calls::{At, Do, Step, Told, first_other};
use std::test::Fail;
use vb_calls::Resolution;
use vb_types::{Level, Op, Status};

const LAST: u64 = 281_474_976_710_656;

const FULL: Told = Told::Refused(Status::Etmpfail);

// The last seqno goes to a plain write, and not to a durable one.
const CAPPED: [Step; 5] = [
    (Do::Promote(5), Told::Branch(5, Some(4), LAST - 1, LAST - 1)),
    (Do::Durable(Level::Majority, 9), FULL),
    (Do::Store(Op::Set, 0), Told::Stored(LAST, 1)),
    (Do::Store(Op::Set, 0), FULL),
    (Do::Get, Told::Found(1, 1)),
];

#[test]
fn seqnos_end(rt: HostRuntime) -> Result<(), Fail> {
    assert_eq!(rt;
        first_other(rt.alloc(), At::Loaded(LAST - 1), &CAPPED)?,
        None
    );
    Ok(())
}

// The two last ones go to a durable write, which is committed at once.
const NEARLY_CAPPED: [Step; 3] = [
    (Do::Promote(5), Told::Branch(5, Some(4), LAST - 2, LAST - 2)),
    (Do::Durable(Level::Majority, 9), Told::Prepared(LAST - 1, 2)),
    (Do::Store(Op::Set, 0), FULL),
];

#[test]
fn a_durable_write_has_a_seqno_left(rt: HostRuntime) -> Result<(), Fail> {
    assert_eq!(rt;
        first_other(rt.alloc(), At::Loaded(LAST - 2), &NEARLY_CAPPED)?,
        None
    );
    Ok(())
}

const COMMITTED: Resolution = Resolution::Committed {
    uuid: 5,
    seq: 2,
    cas: 1,
};

// An acknowledgement counts once, and one of a seqno that there is not is refused. Until the commit the old
// document is shown: there is none.
const ACKNOWLEDGED: [Step; 11] = [
    (Do::Chain(&[Some(1), Some(2)]), Told::Done),
    (Do::Durable(Level::Majority, 9), Told::Prepared(1, 1)),
    (Do::Get, Told::Refused(Status::KeyEnoent)),
    (
        Do::Store(Op::Set, 0),
        Told::Refused(Status::SyncWriteInProgress),
    ),
    (
        Do::Durable(Level::Majority, 9),
        Told::Refused(Status::SyncWriteInProgress),
    ),
    (Do::Ack(1, 2), Told::Refused(Status::Erange)),
    (Do::Ack(3, 1), Told::Done),
    (Do::Ack(1, 1), Told::Resolved(1, COMMITTED)),
    (Do::Ack(1, 1), Told::Done),
    (Do::Get, Told::Found(1, 1)),
    (Do::Durable(Level::Majority, 9), Told::Prepared(3, 1)),
];

#[test]
fn members_acknowledge(rt: HostRuntime) -> Result<(), Fail> {
    assert_eq!(rt; first_other(rt.alloc(), At::Active, &ACKNOWLEDGED)?, None);
    Ok(())
}

// A chain of unset members has no majority.
const UNSET: [Step; 4] = [
    (Do::Chain(&[None]), Told::Done),
    (
        Do::Durable(Level::Majority, 9),
        Told::Refused(Status::DurabilityImpossible),
    ),
    (Do::Chain(&[]), Told::Done),
    (Do::Durable(Level::Majority, 9), Told::Prepared(1, 2)),
];

#[test]
fn a_chain_is_set(rt: HostRuntime) -> Result<(), Fail> {
    assert_eq!(rt; first_other(rt.alloc(), At::Active, &UNSET)?, None);
    Ok(())
}

// A write is given up at its deadline. A chain without the others lets what waits be committed.
const EXPIRED: [Step; 8] = [
    (Do::Chain(&[Some(1), Some(2)]), Told::Done),
    (Do::Store(Op::Set, 0), Told::Stored(1, 1)),
    (Do::Durable(Level::Majority, 9), Told::Prepared(2, 1)),
    (Do::Tick(8), Told::Done),
    (Do::Tick(9), Told::Resolved(1, Resolution::Ambiguous)),
    (Do::Get, Told::Found(1, 1)),
    (Do::Durable(Level::Majority, 9), Told::Prepared(4, 1)),
    (
        Do::Chain(&[]),
        Told::Resolved(
            1,
            Resolution::Committed {
                uuid: 5,
                seq: 5,
                cas: 3,
            },
        ),
    ),
];

#[test]
fn a_write_is_given_up(rt: HostRuntime) -> Result<(), Fail> {
    assert_eq!(rt; first_other(rt.alloc(), At::Active, &EXPIRED)?, None);
    Ok(())
}

// What waits at a change of role is given up; a replica tells what it may acknowledge.
const TURNED: [Step; 6] = [
    (Do::Due, Told::Refused(Status::NotMyVbucket)),
    (Do::Chain(&[Some(1)]), Told::Done),
    (Do::Durable(Level::Majority, 9), Told::Prepared(1, 1)),
    (Do::Follow, Told::Resolved(0, Resolution::Ambiguous)),
    (Do::Ack(1, 1), Told::Refused(Status::NotMyVbucket)),
    (Do::Due, Told::Dues(1, 0)),
];

#[test]
fn a_change_of_role_gives_up(rt: HostRuntime) -> Result<(), Fail> {
    assert_eq!(rt; first_other(rt.alloc(), At::Active, &TURNED)?, None);
    Ok(())
}
