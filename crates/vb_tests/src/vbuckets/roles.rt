//! A vBucket whose role changes, and one that goes back to the start.
use super::calls::{At, Do, Step, Talk, Told, first_other, first_other_of};
use std::test::Fail;
use vb_types::{Place, Status};

const EINVAL: Told = Told::Refused(Status::Einval);

const NOT_MY_VBUCKET: Told = Told::Refused(Status::NotMyVbucket);

const FORKS: [Step; 9] = [
    (Do::Adopt(5), Told::Done),
    (Do::Marker(0, 2), Told::Range(0, 2)),
    (Do::Set(2), Told::Done),
    (Do::Marker(2, 9), Told::Range(2, 9)),
    (Do::Set(4), Told::Done),
    (Do::Promote(22), Told::Branch(22, Some(5), 2, 4)),
    (Do::Show, Told::Shown(4, 4, 4)),
    (Do::Log, Told::Logged(2, 22, 5)),
    (Do::Promote(33), NOT_MY_VBUCKET),
];

#[test]
fn a_promotion_forks_at_the_snapshots_start(rt: HostRuntime) -> Result<(), Fail> {
    assert_eq!(rt; first_other(rt.alloc(), At::Replica, &FORKS)?, None);
    Ok(())
}

// A dead vBucket is promoted.
const DEAD: [Step; 10] = [
    (Do::Adopt(5), Told::Done),
    (Do::Marker(0, 2), Told::Range(0, 2)),
    (Do::Set(2), Told::Done),
    (Do::Marker(2, 9), Told::Range(2, 9)),
    (Do::Set(4), Told::Done),
    (Do::Dead, Told::Done),
    (Do::Dead, NOT_MY_VBUCKET),
    (Do::Promote(0), EINVAL),
    (Do::Promote(5), EINVAL),
    (Do::Promote(22), Told::Branch(22, Some(5), 2, 4)),
];

// A first branch has no parent.
const FIRST: [Step; 1] = [(Do::Promote(22), Told::Branch(22, None, 0, 0))];

const FULL_LOG: [Step; 3] = [
    (Do::AdoptMany(25), Told::Done),
    (Do::Promote(99), Told::Branch(99, Some(25), 0, 0)),
    (Do::Log, Told::Logged(25, 99, 2)),
];

#[test]
fn a_26th_branch_drops_the_oldest(rt: HostRuntime) -> Result<(), Fail> {
    assert_eq!(rt; first_other(rt.alloc(), At::Replica, &FULL_LOG)?, None);
    Ok(())
}

// A change of role ends streams.
const STREAMS: [Step; 5] = [
    (Do::Open(3, 0, 0), Told::Opened(1, 0, Place::Memory)),
    (Do::Open(4, 0, 0), Told::Opened(1, 0, Place::Memory)),
    (Do::Follow, Told::Ended(3, 4)),
    (Do::Place(3), Told::Absent),
    (Do::Follow, NOT_MY_VBUCKET),
];

// A follower goes back to the start.
const BACK: [Step; 8] = [
    (Do::Adopt(5), Told::Done),
    (Do::Marker(0, 2), Told::Range(0, 2)),
    (Do::Set(2), Told::Done),
    (Do::Roll(0), Told::Num(0)),
    (Do::Show, Told::Shown(0, 0, 0)),
    (Do::Log, Told::Logged(1, 5, 5)),
    (Do::Promote(22), Told::Branch(22, Some(5), 0, 0)),
    (Do::Roll(0), NOT_MY_VBUCKET),
];

const TALKS: [Talk; 4] = [
    (At::Replica, &DEAD),
    (At::Dead, &FIRST),
    (At::Active, &STREAMS),
    (At::Replica, &BACK),
];

#[test]
fn roles_change(rt: HostRuntime) -> Result<(), Fail> {
    assert_eq!(rt; first_other_of(rt.alloc(), &TALKS)?, None);
    Ok(())
}
