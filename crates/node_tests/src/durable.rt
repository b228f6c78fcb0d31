//! Durable writes that wait, and their commits, which a node's vBucket makes of its own.
use crate::bench::{Do, Step, Talk, first_other_of};
use crate::frames::{DURABLE, DURABLE_SAVED, NOOP_FRONT, NOOP_REST};
use crate::lines::Told;
use node_core::AdminCall;
use std::test::Fail;
use vb_events::Answer;
use vb_types::{FlushPart, Role};

const ALL: Do = Do::Flush(FlushPart::All);

// A client's durable write waits until it is saved, so the batch that is done lets it be committed.
const SAVED: [Step; 5] = [
    (Do::Lead, b"", Answer::Ok),
    (Do::Client(5), b"", Answer::Number(0)),
    (Do::Feed(0, DURABLE_SAVED), b"", Answer::Ok),
    (ALL, b"", Answer::Number(1)),
    (ALL, b"", Answer::Number(2)),
];

const SAVED_LINES: [Told; 4] = [
    Told::Branch(7),
    Told::Role(Role::Active),
    Told::Changed(1),
    Told::Committed(7, 2),
];

// A replica commits nothing; once it is promoted it does so at once, on its new branch.
const PROMOTED: [Step; 7] = [
    (Do::Lead, b"", Answer::Ok),
    (Do::Client(5), b"", Answer::Number(0)),
    (Do::Feed(0, DURABLE_SAVED), b"", Answer::Ok),
    (Do::Admin(AdminCall::Follow), b"", Answer::Ok),
    (ALL, b"", Answer::Number(1)),
    (Do::Admin(AdminCall::Promote(9)), b"", Answer::Ok),
    (Do::Admin(AdminCall::Show), b"", Answer::Ok),
];

const PROMOTED_LINES: [Told; 9] = [
    Told::Branch(7),
    Told::Role(Role::Active),
    Told::Changed(1),
    Told::Role(Role::Replica),
    Told::Branch(9),
    Told::Role(Role::Active),
    Told::Committed(9, 2),
    Told::Shown(2, 2, 2),
    Told::Other,
];

// A client's durable write waits for node 1, and is given up: the client is told, and what it sent
// behind it is answered. Nothing is due, as the vBucket follows nobody.
const GIVEN_UP: [Step; 8] = [
    (Do::Lead, b"", Answer::Ok),
    (Do::Client(5), b"", Answer::Number(0)),
    (Do::Chain(1), b"", Answer::Ok),
    (Do::Feed(0, DURABLE), b"", Answer::Ok),
    (Do::Feed(0, NOOP_FRONT), b"", Answer::Ok),
    (Do::Feed(0, NOOP_REST), b"", Answer::Ok),
    (Do::Tick(u64::MAX), b"", Answer::Ok),
    (Do::Post(0), b"", Answer::Ok),
];

const GIVEN_UP_LINES: [Told; 7] = [
    Told::Branch(7),
    Told::Role(Role::Active),
    Told::Other,
    Told::Changed(1),
    Told::Changed(2),
    Told::Other,
    Told::Noop,
];

const NOTHING_DUE: [Step; 2] = [
    (Do::Replicate, b"", Answer::Ok),
    (Do::Acknowledge, b"", Answer::Ok),
];

const TALKS: [Talk; 4] = [
    (2, &SAVED, &SAVED_LINES),
    (2, &PROMOTED, &PROMOTED_LINES),
    (2, &GIVEN_UP, &GIVEN_UP_LINES),
    (2, &NOTHING_DUE, &[Told::Role(Role::Replica)]),
];

#[test]
fn waiting_writes_are_committed_or_given_up(rt: HostRuntime) -> Result<(), Fail> {
    assert_eq!(rt; first_other_of(rt.alloc(), &TALKS)?, None);
    Ok(())
}
