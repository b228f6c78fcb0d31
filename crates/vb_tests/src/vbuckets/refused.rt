//! What a follower does not take.
use super::calls::{At, Do, Step, Talk, Told, first_other_of};
use std::test::Fail;
use vb_types::{MAX_SEQ, Status};

const ERANGE: Told = Told::Refused(Status::Erange);

const EINVAL: Told = Told::Refused(Status::Einval);

const NOT_MY_VBUCKET: Told = Told::Refused(Status::NotMyVbucket);

// A marker ends before it starts, at a seqno that the vBucket has, or above the highest.
const MARKERS: [Step; 8] = [
    (Do::Adopt(5), Told::Done),
    (Do::Marker(0, 3), Told::Range(0, 3)),
    (Do::Marker(4, 9), ERANGE),
    (Do::Set(3), Told::Done),
    (Do::Marker(5, 4), ERANGE),
    (Do::Marker(0, 2), ERANGE),
    (Do::Marker(3, MAX_SEQ + 1), ERANGE),
    (Do::Marker(3, MAX_SEQ), Told::Range(3, MAX_SEQ)),
];

// A dead vBucket takes no marker.
const DEAD: [Step; 1] = [(Do::Marker(0, 1), NOT_MY_VBUCKET)];

// A marker may start above what is there.
const ABOVE: [Step; 3] = [
    (Do::AdoptMany(1), Told::Done),
    (Do::Marker(4, 9), Told::Range(0, 9)),
    (Do::Show, Told::Shown(0, 9, 0)),
];

// A change's seqno is one that the vBucket has, or beyond the snapshot.
const CHANGE: [Step; 6] = [
    (Do::Adopt(5), Told::Done),
    (Do::Marker(0, 3), Told::Range(0, 3)),
    (Do::Prepare(1, 7), Told::Done),
    (Do::Commit(1, 1), ERANGE),
    (Do::Commit(4, 1), ERANGE),
    (Do::Commit(2, 2), EINVAL),
];

// A change is a commit of no prepare, or of a set, or one that the vBucket has.
const CHANGES: [Step; 6] = [
    (Do::Adopt(5), Told::Done),
    (Do::Marker(0, 3), Told::Range(0, 3)),
    (Do::Commit(1, 0), EINVAL),
    (Do::Set(1), Told::Done),
    (Do::Commit(2, 1), EINVAL),
    (Do::Set(1), ERANGE),
];

// An active vBucket follows nobody.
const ACTIVE: [Step; 2] = [
    (Do::Set(1), NOT_MY_VBUCKET),
    (Do::AdoptMany(1), NOT_MY_VBUCKET),
];

// A branch that comes twice, one that was made after a newer one, one beyond the highest seqno, the
// branch 0, no branch, and one branch too many.
const LOGS: [Step; 8] = [
    (Do::AdoptTwo((5, 1), (5, 0)), EINVAL),
    (Do::AdoptTwo((6, 1), (5, 2)), EINVAL),
    (Do::AdoptTwo((6, MAX_SEQ + 1), (5, 2)), EINVAL),
    (Do::AdoptTwo((6, 2), (0, 2)), EINVAL),
    (Do::AdoptMany(0), EINVAL),
    (Do::AdoptMany(26), EINVAL),
    (Do::Log, Told::NoLog),
    (Do::AdoptMany(25), Told::Done),
];

const TALKS: [Talk; 7] = [
    (At::Replica, &MARKERS),
    (At::Dead, &DEAD),
    (At::Replica, &ABOVE),
    (At::Replica, &CHANGE),
    (At::Replica, &CHANGES),
    (At::Active, &ACTIVE),
    (At::Replica, &LOGS),
];

#[test]
fn a_follower_refuses(rt: HostRuntime) -> Result<(), Fail> {
    assert_eq!(rt; first_other_of(rt.alloc(), &TALKS)?, None);
    Ok(())
}
