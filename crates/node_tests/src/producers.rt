//! A peer's connection at work.
use crate::bench::{Do, Step, Talk, first_other_of};
use crate::frames::{
    ANSWERS, ASK, DIAL, GET, GRANT, HELD_ASK, MARKER, MUTATION, NO_VBUCKET, OPEN, OPENED,
    REFUSED_ASK, REFUSED_OPEN, ROLE_CHANGED, SET, UNKNOWN_COMMAND,
};
use crate::lines::Told;
use node_core::AdminCall;
use std::test::Fail;
use vb_events::{Answer, Cause, Why};
use vb_types::Role;

// A snapshot is put. The client has the key 0, the peer the key 1.
const PUT: [Step; 8] = [
    (Do::Lead, b"", Answer::Ok),
    (Do::Client(5), b"", Answer::Number(0)),
    (Do::Feed(0, SET), b"", Answer::Ok),
    (Do::Peer, b"", Answer::Number(1)),
    (Do::Hear(1, OPEN), OPENED, Answer::Ok),
    (Do::Hear(1, ASK), GRANT, Answer::Ok),
    (Do::Pull(1, 1), MARKER, Answer::Pulled(1, Why::All)),
    (Do::Pull(1, 9), MUTATION, Answer::Pulled(1, Why::Idle)),
];

const PUT_LINES: [Told; 7] = [
    Told::Branch(7),
    Told::Role(Role::Active),
    Told::Changed(1),
    Told::Other,
    Told::Granted(1),
    Told::Marked(0, 1),
    Told::Put(1),
];

// A change of role ends the stream. The change that was taken is put all the same, and nothing
// follows the end.
const ENDED: [Step; 10] = [
    (Do::Lead, b"", Answer::Ok),
    (Do::Client(5), b"", Answer::Number(0)),
    (Do::Feed(0, SET), b"", Answer::Ok),
    (Do::Peer, b"", Answer::Number(1)),
    (Do::Hear(1, DIAL), ANSWERS, Answer::Ok),
    (Do::Pull(1, 1), MARKER, Answer::Pulled(1, Why::All)),
    (Do::Admin(AdminCall::Follow), b"", Answer::Ok),
    (Do::Pull(1, 1), MUTATION, Answer::Pulled(1, Why::All)),
    (Do::Pull(1, 9), ROLE_CHANGED, Answer::Pulled(1, Why::Idle)),
    (Do::Pull(1, 9), b"", Answer::Pulled(0, Why::Idle)),
];

const ENDED_LINES: [Told; 9] = [
    Told::Branch(7),
    Told::Role(Role::Active),
    Told::Changed(1),
    Told::Other,
    Told::Granted(1),
    Told::Marked(0, 1),
    Told::Role(Role::Replica),
    Told::Put(1),
    Told::Finished(2),
];

// A connection has one stream of a vBucket. The next one's has the same number, and is opened where
// the first one was closed with its connection.
const CLOSED: [Step; 9] = [
    (Do::Lead, b"", Answer::Ok),
    (Do::Peer, b"", Answer::Number(0)),
    (Do::Hear(0, DIAL), ANSWERS, Answer::Ok),
    (Do::Hear(0, ASK), HELD_ASK, Answer::Ok),
    (Do::Shut(0), b"", Answer::Ok),
    (Do::Shut(0), b"", Answer::No(Cause::LinkClosed)),
    (Do::Pull(0, 1), b"", Answer::No(Cause::LinkClosed)),
    (Do::Peer, b"", Answer::Number(0)),
    (Do::Hear(0, DIAL), ANSWERS, Answer::Ok),
];

const CLOSED_LINES: [Told; 5] = [
    Told::Branch(7),
    Told::Role(Role::Active),
    Told::Granted(0),
    Told::Refused(0, 2),
    Told::Granted(0),
];

// A client's GET is no message of DCP, and a connection is opened once.
const STATUS: [Step; 4] = [
    (Do::Peer, b"", Answer::Number(0)),
    (Do::Hear(0, GET), UNKNOWN_COMMAND, Answer::Ok),
    (Do::Hear(0, OPEN), OPENED, Answer::Ok),
    (Do::Hear(0, OPEN), REFUSED_OPEN, Answer::Ok),
];

const STATUS_LINES: [Told; 0] = [];

// A request before OPEN has its line all the same, and so has one of a vBucket that is not there.
const ASKED: [Step; 4] = [
    (Do::Peer, b"", Answer::Number(0)),
    (Do::Hear(0, ASK), REFUSED_ASK, Answer::Ok),
    (Do::Hear(0, OPEN), OPENED, Answer::Ok),
    (Do::Hear(0, ASK), NO_VBUCKET, Answer::Ok),
];

const ASKED_LINES: [Told; 2] = [Told::Refused(0, 4), Told::Refused(0, 7)];

const TALKS: [Talk; 5] = [
    (0, &PUT, &PUT_LINES),
    (0, &ENDED, &ENDED_LINES),
    (0, &CLOSED, &CLOSED_LINES),
    (0, &STATUS, &STATUS_LINES),
    (0, &ASKED, &ASKED_LINES),
];

#[test]
fn peers_are_served(rt: HostRuntime) -> Result<(), Fail> {
    assert_eq!(rt; first_other_of(rt.alloc(), &TALKS)?, None);
    Ok(())
}
