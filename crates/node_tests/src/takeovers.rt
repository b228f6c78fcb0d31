//! The dial of a vBucket that is taken over.
use crate::bench::{Do, Step, Talk, first_other_of};
use crate::frames::{
    ACTIVE, ANSWERS, DELETION, DIAL, DIAL_TO_TAKE, DIAL_TO_TAKE_ABOVE, MARKER_OF_TWO, MUTATION,
    PENDING, REACHED, STATE_ANSWER,
};
use crate::lines::Told;
use node_core::AdminCall;
use std::test::Fail;
use vb_events::{Answer, EndReason};
use vb_types::Role;

const SHOW: Do = Do::Admin(AdminCall::Show);

// A vBucket with a whole snapshot is about to take over, and then takes over. It is active on the branch
// that it was on, with all that it had, as a complete snapshot.
const TAKEN_OVER: [Step; 10] = [
    (Do::Replicate, b"", Answer::Ok),
    (Do::TakeOver, DIAL_TO_TAKE, Answer::Ok),
    (Do::Down(ANSWERS), b"", Answer::Ok),
    (Do::Down(MARKER_OF_TWO), b"", Answer::Ok),
    (Do::Down(MUTATION), b"", Answer::Ok),
    (Do::Down(DELETION), b"", Answer::Ok),
    (Do::Down(PENDING), STATE_ANSWER, Answer::Ok),
    (Do::Down(ACTIVE), STATE_ANSWER, Answer::Ok),
    (Do::Down(REACHED), b"", Answer::Ok),
    (SHOW, b"", Answer::Ok),
];

const TAKEN_OVER_LINES: [Told; 10] = [
    Told::Role(Role::Replica),
    Told::Adopted,
    Told::Ranged(0, 2),
    Told::Got(1),
    Told::Got(2),
    Told::Role(Role::Pending),
    Told::Role(Role::Active),
    Told::Ended(EndReason::Done),
    Told::Shown(2, 2, 2),
    Told::Other,
];

// One that is about to take over already is so at a second link too, and no line tells it again.
const AGAIN: [Step; 11] = [
    (Do::Replicate, b"", Answer::Ok),
    (Do::TakeOver, DIAL_TO_TAKE, Answer::Ok),
    (Do::Down(ANSWERS), b"", Answer::Ok),
    (Do::Down(MARKER_OF_TWO), b"", Answer::Ok),
    (Do::Down(MUTATION), b"", Answer::Ok),
    (Do::Down(DELETION), b"", Answer::Ok),
    (Do::Down(PENDING), STATE_ANSWER, Answer::Ok),
    (Do::CutDial, b"", Answer::Ok),
    (Do::TakeOver, DIAL_TO_TAKE_ABOVE, Answer::Ok),
    (Do::Down(ANSWERS), b"", Answer::Ok),
    (Do::Down(PENDING), STATE_ANSWER, Answer::Ok),
];

const AGAIN_LINES: [Told; 8] = [
    Told::Role(Role::Replica),
    Told::Adopted,
    Told::Ranged(0, 2),
    Told::Got(1),
    Told::Got(2),
    Told::Role(Role::Pending),
    Told::Ended(EndReason::Cut),
    Told::Adopted,
];

// Inside its snapshot a vBucket does not take over, and stays about to.
const EARLY: [Step; 8] = [
    (Do::Replicate, b"", Answer::Ok),
    (Do::TakeOver, DIAL_TO_TAKE, Answer::Ok),
    (Do::Down(ANSWERS), b"", Answer::Ok),
    (Do::Down(MARKER_OF_TWO), b"", Answer::Ok),
    (Do::Down(MUTATION), b"", Answer::Ok),
    (Do::Down(PENDING), STATE_ANSWER, Answer::Ok),
    (Do::Down(ACTIVE), b"", Answer::Ok),
    (Do::Admin(AdminCall::Follow), b"", Answer::Ok),
];

const EARLY_LINES: [Told; 7] = [
    Told::Role(Role::Replica),
    Told::Adopted,
    Told::Ranged(0, 2),
    Told::Got(1),
    Told::Role(Role::Pending),
    Told::Ended(EndReason::Protocol),
    Told::Role(Role::Replica),
];

// A state is none of the protocol's on a link that follows alone, and out of order.
const FOLLOWS_ALONE: [Step; 4] = [
    (Do::Replicate, b"", Answer::Ok),
    (Do::Dial, DIAL, Answer::Ok),
    (Do::Down(ANSWERS), b"", Answer::Ok),
    (Do::Down(PENDING), b"", Answer::Ok),
];

const OUT_OF_ORDER: [Step; 4] = [
    (Do::Replicate, b"", Answer::Ok),
    (Do::TakeOver, DIAL_TO_TAKE, Answer::Ok),
    (Do::Down(ANSWERS), b"", Answer::Ok),
    (Do::Down(ACTIVE), b"", Answer::Ok),
];

const STRANGE_LINES: [Told; 3] = [
    Told::Role(Role::Replica),
    Told::Adopted,
    Told::Ended(EndReason::Protocol),
];

const TALKS: [Talk; 5] = [
    (1, &TAKEN_OVER, &TAKEN_OVER_LINES),
    (1, &AGAIN, &AGAIN_LINES),
    (1, &EARLY, &EARLY_LINES),
    (1, &FOLLOWS_ALONE, &STRANGE_LINES),
    (1, &OUT_OF_ORDER, &STRANGE_LINES),
];

#[test]
fn takeovers_go_as_told(rt: HostRuntime) -> Result<(), Fail> {
    assert_eq!(rt; first_other_of(rt.alloc(), &TALKS)?, None);
    Ok(())
}
