//! A node's vBuckets, how they are written down, and its clients' connections.
use crate::bench::{Do, Step, Talk, first_other_of};
use crate::frames::{NOOP_FRONT, NOOP_REST, SET};
use crate::lines::Told;
use node_core::AdminCall;
use std::test::Fail;
use vb_events::{Answer, Cause};
use vb_types::{FlushPart, Role};

const CLOSED: Answer = Answer::No(Cause::LinkClosed);

// Bytes that begin no frame close the connection, and its key is free then.
const SERVED: [Step; 9] = [
    (Do::Client(5), b"", Answer::Number(0)),
    (Do::Client(6), b"", Answer::Number(1)),
    (Do::Feed(0, NOOP_FRONT), b"", Answer::Ok),
    (Do::Feed(1, b"GET"), b"", Answer::Ok),
    (Do::Feed(1, NOOP_FRONT), b"", CLOSED),
    (Do::Client(7), b"", Answer::Number(1)),
    (Do::Feed(0, NOOP_REST), b"", Answer::Ok),
    (Do::Shut(0), b"", Answer::Ok),
    (Do::Shut(0), b"", CLOSED),
];

const SERVED_LINES: [Told; 2] = [Told::Closed(6), Told::Noop];

// A vBucket is made once, and shown.
const MADE: [Step; 7] = [
    (
        Do::Admin(AdminCall::Show),
        b"",
        Answer::No(Cause::UnknownVb),
    ),
    (Do::Lead, b"", Answer::Ok),
    (Do::Replicate, b"", Answer::No(Cause::VbExists)),
    (Do::Admin(AdminCall::Show), b"", Answer::Ok),
    (Do::Admin(AdminCall::Seal), b"", Answer::Number(0)),
    (Do::Admin(AdminCall::Trim), b"", Answer::Number(0)),
    (Do::Dial, b"", Answer::No(Cause::WrongRole)),
];

const MADE_LINES: [Told; 3] = [
    Told::Branch(7),
    Told::Role(Role::Active),
    Told::Shown(0, 0, 0),
];

const TAKE: Do = Do::Flush(FlushPart::Take);

const SAVE: Do = Do::Flush(FlushPart::Save);

const DONE: Do = Do::Flush(FlushPart::Done);

const ALL: Do = Do::Flush(FlushPart::All);

const STAT: Do = Do::Admin(AdminCall::Stat);

const NOTHING_TAKEN: Answer = Answer::No(Cause::NothingTaken);

const BATCH_OUT: Answer = Answer::No(Cause::BatchOut);

// The three steps of a batch, each of them refused where another one is due. What counts as saved
// rises with the last one.
const FLUSHED: [Step; 19] = [
    (TAKE, b"", Answer::No(Cause::UnknownVb)),
    (Do::Lead, b"", Answer::Ok),
    (TAKE, b"", Answer::Number(0)),
    (SAVE, b"", NOTHING_TAKEN),
    (DONE, b"", NOTHING_TAKEN),
    (Do::Client(5), b"", Answer::Number(0)),
    (Do::Feed(0, SET), b"", Answer::Ok),
    (TAKE, b"", Answer::Number(1)),
    (TAKE, b"", BATCH_OUT),
    (DONE, b"", NOTHING_TAKEN),
    (Do::Feed(0, SET), b"", Answer::Ok),
    (SAVE, b"", Answer::Ok),
    (SAVE, b"", NOTHING_TAKEN),
    (TAKE, b"", BATCH_OUT),
    (STAT, b"", Answer::Ok),
    (DONE, b"", Answer::Number(1)),
    (DONE, b"", NOTHING_TAKEN),
    (STAT, b"", Answer::Ok),
    (TAKE, b"", Answer::Number(1)),
];

const FLUSHED_LINES: [Told; 10] = [
    Told::Branch(7),
    Told::Role(Role::Active),
    Told::Changed(1),
    Told::Other,
    Told::Batch(1, 1, 1, 1),
    Told::Changed(2),
    Told::Other,
    Told::Stat(1, 1, 1, 0, 2),
    Told::Stat(1, 1, 1, 1, 2),
    Told::Batch(2, 2, 2, 1),
];

// All steps at once go on where the last one stopped, and tell of no batch.
const ALL_AT_ONCE: [Step; 10] = [
    (Do::Lead, b"", Answer::Ok),
    (ALL, b"", Answer::Number(0)),
    (Do::Client(5), b"", Answer::Number(0)),
    (Do::Feed(0, SET), b"", Answer::Ok),
    (ALL, b"", Answer::Number(1)),
    (Do::Feed(0, SET), b"", Answer::Ok),
    (TAKE, b"", Answer::Number(1)),
    (SAVE, b"", Answer::Ok),
    (ALL, b"", Answer::Number(2)),
    (STAT, b"", Answer::Ok),
];

const ALL_AT_ONCE_LINES: [Told; 8] = [
    Told::Branch(7),
    Told::Role(Role::Active),
    Told::Changed(1),
    Told::Other,
    Told::Changed(2),
    Told::Other,
    Told::Batch(2, 2, 2, 1),
    Told::Stat(1, 1, 1, 2, 2),
];

const TALKS: [Talk; 4] = [
    (2, &SERVED, &SERVED_LINES),
    (2, &MADE, &MADE_LINES),
    (2, &FLUSHED, &FLUSHED_LINES),
    (2, &ALL_AT_ONCE, &ALL_AT_ONCE_LINES),
];

#[test]
fn nodes_serve(rt: HostRuntime) -> Result<(), Fail> {
    assert_eq!(rt; first_other_of(rt.alloc(), &TALKS)?, None);
    Ok(())
}
