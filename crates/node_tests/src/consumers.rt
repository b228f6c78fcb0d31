//! The dial of a vBucket at work.
use crate::bench::{Do, Step, Talk, first_other, first_other_of};
use crate::frames::{
    ANSWERS, ASK_AGAIN, ASK_FROM_ONE, BACK, CONTROLLED, DCP_NOOP, DCP_NOOP_ANSWER, DELETION, DIAL,
    DIAL_ABOVE, GRANT, GRANT_AGAIN, MARKER, MARKER_OF_TWO, MUTATION, NOOPS_AND_END, OPENED,
    OTHER_OPCODE, REACHED, ROLE_CHANGED, UNSUPPORTED_OPEN,
};
use crate::lines::Told;
use node_core::AdminCall;
use std::test::Fail;
use vb_events::{Answer, Cause, EndReason};
use vb_types::{FlushPart, Role};

const SHOW: Do = Do::Admin(AdminCall::Show);

const STAT: Do = Do::Admin(AdminCall::Stat);

const TAKE: Do = Do::Flush(FlushPart::Take);

const SAVE: Do = Do::Flush(FlushPart::Save);

const DONE: Do = Do::Flush(FlushPart::Done);

// A snapshot is taken.
const TAKEN: [Step; 8] = [
    (Do::Dial, b"", Answer::No(Cause::UnknownVb)),
    (Do::Replicate, b"", Answer::Ok),
    (Do::Dial, DIAL, Answer::Ok),
    (Do::Down(ANSWERS), b"", Answer::Ok),
    (Do::Down(MARKER_OF_TWO), b"", Answer::Ok),
    (Do::Down(MUTATION), b"", Answer::Ok),
    (Do::Down(DELETION), b"", Answer::Ok),
    (SHOW, b"", Answer::Ok),
];

const TAKEN_LINES: [Told; 7] = [
    Told::Role(Role::Replica),
    Told::Adopted,
    Told::Ranged(0, 2),
    Told::Got(1),
    Told::Got(2),
    Told::Shown(0, 2, 2),
    Told::Other,
];

// A replica that is sent back asks again. It has two changes when it is sent back to 1, and keeps the
// branch that begins at 0. The answer to the first request comes once more, and nothing waits for it.
const SENT_BACK: [Step; 14] = [
    (Do::Replicate, b"", Answer::Ok),
    (Do::Dial, DIAL, Answer::Ok),
    (Do::Down(ANSWERS), b"", Answer::Ok),
    (Do::Down(MARKER_OF_TWO), b"", Answer::Ok),
    (Do::Down(MUTATION), b"", Answer::Ok),
    (Do::Down(DELETION), b"", Answer::Ok),
    (Do::CutDial, b"", Answer::Ok),
    (Do::Dial, DIAL_ABOVE, Answer::Ok),
    (Do::Down(OPENED), b"", Answer::Ok),
    (Do::Down(CONTROLLED), b"", Answer::Ok),
    (Do::Down(BACK), ASK_AGAIN, Answer::Ok),
    (SHOW, b"", Answer::Ok),
    (Do::Down(GRANT), b"", Answer::Ok),
    (Do::Down(GRANT_AGAIN), b"", Answer::Ok),
];

const SENT_BACK_LINES: [Told; 9] = [
    Told::Role(Role::Replica),
    Told::Adopted,
    Told::Ranged(0, 2),
    Told::Got(1),
    Told::Got(2),
    Told::Ended(EndReason::Cut),
    Told::Rolled(1, 0),
    Told::Shown(0, 0, 0),
    Told::Adopted,
];

// One that was written down at 1, at the end of a snapshot, goes back to there. It has what it had, and
// asks from there.
const BACK_TO_POINT: [Step; 17] = [
    (Do::Replicate, b"", Answer::Ok),
    (Do::Dial, DIAL, Answer::Ok),
    (Do::Down(ANSWERS), b"", Answer::Ok),
    (Do::Down(MARKER), b"", Answer::Ok),
    (Do::Down(MUTATION), b"", Answer::Ok),
    (TAKE, b"", Answer::Number(1)),
    (SAVE, b"", Answer::Ok),
    (DONE, b"", Answer::Number(1)),
    (Do::Down(MARKER_OF_TWO), b"", Answer::Ok),
    (Do::Down(DELETION), b"", Answer::Ok),
    (Do::CutDial, b"", Answer::Ok),
    (Do::Dial, DIAL_ABOVE, Answer::Ok),
    (Do::Down(OPENED), b"", Answer::Ok),
    (Do::Down(CONTROLLED), b"", Answer::Ok),
    (Do::Down(BACK), ASK_FROM_ONE, Answer::Ok),
    (SHOW, b"", Answer::Ok),
    (STAT, b"", Answer::Ok),
];

const BACK_TO_POINT_LINES: [Told; 12] = [
    Told::Role(Role::Replica),
    Told::Adopted,
    Told::Ranged(0, 1),
    Told::Got(1),
    Told::Batch(0, 1, 1, 1),
    Told::Ranged(0, 2),
    Told::Got(2),
    Told::Ended(EndReason::Cut),
    Told::Rolled(1, 1),
    Told::Shown(1, 1, 1),
    Told::Other,
    Told::Stat(0, 0, 1, 1, 1),
];

// One that was written down inside its snapshot has no complete point there, and goes back to 0. The
// batch that is out then is gone.
const BACK_OVER_POINT: [Step; 18] = [
    (Do::Replicate, b"", Answer::Ok),
    (Do::Dial, DIAL, Answer::Ok),
    (Do::Down(ANSWERS), b"", Answer::Ok),
    (Do::Down(MARKER_OF_TWO), b"", Answer::Ok),
    (Do::Down(MUTATION), b"", Answer::Ok),
    (TAKE, b"", Answer::Number(1)),
    (SAVE, b"", Answer::Ok),
    (DONE, b"", Answer::Number(1)),
    (Do::Down(DELETION), b"", Answer::Ok),
    (TAKE, b"", Answer::Number(1)),
    (Do::CutDial, b"", Answer::Ok),
    (Do::Dial, DIAL_ABOVE, Answer::Ok),
    (Do::Down(OPENED), b"", Answer::Ok),
    (Do::Down(CONTROLLED), b"", Answer::Ok),
    (Do::Down(BACK), ASK_AGAIN, Answer::Ok),
    (SAVE, b"", Answer::No(Cause::NothingTaken)),
    (SHOW, b"", Answer::Ok),
    (STAT, b"", Answer::Ok),
];

const BACK_OVER_POINT_LINES: [Told; 11] = [
    Told::Role(Role::Replica),
    Told::Adopted,
    Told::Ranged(0, 2),
    Told::Got(1),
    Told::Batch(0, 2, 1, 1),
    Told::Got(2),
    Told::Batch(0, 2, 2, 1),
    Told::Ended(EndReason::Cut),
    Told::Rolled(1, 0),
    Told::Shown(0, 0, 0),
    Told::Stat(0, 0, 1, 0, 0),
];

// A refusal ends the link. A vBucket dials once. An answer with the opcode of another request is
// passed over, whatever it says. A link that is over is let go, and takes no bytes.
const REFUSED: [Step; 6] = [
    (Do::Replicate, b"", Answer::Ok),
    (Do::Dial, DIAL, Answer::Ok),
    (Do::Dial, b"", Answer::No(Cause::LinkOpen)),
    (Do::Down(OTHER_OPCODE), b"", Answer::Ok),
    (Do::Down(UNSUPPORTED_OPEN), b"", Answer::Ok),
    (Do::Down(ANSWERS), b"", Answer::No(Cause::LinkClosed)),
];

const REFUSED_LINES: [Told; 2] = [Told::Role(Role::Replica), Told::Ended(EndReason::Refused)];

// A marker before the stream is granted, and bytes of no frame.
const WRONG: [Step; 6] = [
    (Do::Replicate, b"", Answer::Ok),
    (Do::Dial, DIAL, Answer::Ok),
    (Do::Down(MARKER), b"", Answer::Ok),
    (Do::Dial, DIAL, Answer::Ok),
    (Do::Down(ANSWERS), b"", Answer::Ok),
    (Do::Down(b"\0"), b"", Answer::Ok),
];

const WRONG_LINES: [Told; 4] = [
    Told::Role(Role::Replica),
    Told::Ended(EndReason::Protocol),
    Told::Adopted,
    Told::Ended(EndReason::Protocol),
];

const WRONG_TALK: Talk = (1, &WRONG, &WRONG_LINES);

#[test]
fn a_wrong_frame_ends_the_link(rt: HostRuntime) -> Result<(), Fail> {
    assert_eq!(rt; first_other(rt.alloc(), &WRONG_TALK)?, None);
    Ok(())
}

// The end of the stream ends the link.
const REACHED_END: [Step; 4] = [
    (Do::Replicate, b"", Answer::Ok),
    (Do::Dial, DIAL, Answer::Ok),
    (Do::Down(ANSWERS), b"", Answer::Ok),
    (Do::Down(REACHED), b"", Answer::Ok),
];

const REACHED_END_LINES: [Told; 3] = [
    Told::Role(Role::Replica),
    Told::Adopted,
    Told::Ended(EndReason::Done),
];

const STATE: [Step; 4] = [
    (Do::Replicate, b"", Answer::Ok),
    (Do::Dial, DIAL, Answer::Ok),
    (Do::Down(ANSWERS), b"", Answer::Ok),
    (Do::Down(ROLE_CHANGED), b"", Answer::Ok),
];

const STATE_LINES: [Told; 3] = [
    Told::Role(Role::Replica),
    Told::Adopted,
    Told::Ended(EndReason::State),
];

// A NOOP is answered before the stream is granted and behind it, and not behind the end.
const NOOPS: [Step; 5] = [
    (Do::Replicate, b"", Answer::Ok),
    (Do::Dial, DIAL, Answer::Ok),
    (Do::Down(DCP_NOOP), DCP_NOOP_ANSWER, Answer::Ok),
    (Do::Down(ANSWERS), b"", Answer::Ok),
    (Do::Down(NOOPS_AND_END), DCP_NOOP_ANSWER, Answer::Ok),
];

const NOOPS_LINES: [Told; 3] = [
    Told::Role(Role::Replica),
    Told::Adopted,
    Told::Ended(EndReason::State),
];

// A change of role cuts the vBucket's own dial, and one that is refused does not.
const PROMOTED: [Step; 6] = [
    (Do::Replicate, b"", Answer::Ok),
    (Do::Dial, DIAL, Answer::Ok),
    (
        Do::Admin(AdminCall::Promote(0)),
        b"",
        Answer::No(Cause::UuidUsed),
    ),
    (
        Do::Admin(AdminCall::Follow),
        b"",
        Answer::No(Cause::WrongRole),
    ),
    (Do::Admin(AdminCall::Promote(8)), b"", Answer::Ok),
    (Do::Down(ANSWERS), b"", Answer::No(Cause::LinkClosed)),
];

const PROMOTED_LINES: [Told; 4] = [
    Told::Role(Role::Replica),
    Told::Ended(EndReason::Cut),
    Told::Branch(8),
    Told::Role(Role::Active),
];

const TALKS: [Talk; 9] = [
    (1, &TAKEN, &TAKEN_LINES),
    (1, &SENT_BACK, &SENT_BACK_LINES),
    (1, &BACK_TO_POINT, &BACK_TO_POINT_LINES),
    (1, &BACK_OVER_POINT, &BACK_OVER_POINT_LINES),
    (1, &REFUSED, &REFUSED_LINES),
    (1, &REACHED_END, &REACHED_END_LINES),
    (1, &STATE, &STATE_LINES),
    (1, &NOOPS, &NOOPS_LINES),
    (1, &PROMOTED, &PROMOTED_LINES),
];

#[test]
fn dials_go_as_told(rt: HostRuntime) -> Result<(), Fail> {
    assert_eq!(rt; first_other_of(rt.alloc(), &TALKS)?, None);
    Ok(())
}
