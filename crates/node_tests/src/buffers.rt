//! A link with a buffer, at both of its ends. Its requests have the opaques 1 to 5.
use crate::bench::{Do, Step, Talk, first_other_of};
use crate::frames::SET;
use crate::lines::Told;
use std::test::Fail;
use vb_events::{Answer, EndReason, Why};
use vb_types::Role;

// What n1 writes when it dials with a buffer of 10 bytes, 239 bytes in all: OPEN, the three controls,
// and the request.
const DIAL: &[u8] = b"\x80\x50\0\x02\x08\0\0\0\0\0\0\x0a\0\0\0\x01\0\0\0\0\0\0\0\0\
    \0\0\0\0\0\0\0\x01n1\
    \x80\x5e\0\x16\0\0\0\0\0\0\0\x18\0\0\0\x02\0\0\0\0\0\0\0\0connection_buffer_size10\
    \x80\x5e\0\x12\0\0\0\0\0\0\0\x16\0\0\0\x03\0\0\0\0\0\0\0\0enable_sync_writestrue\
    \x80\x5e\0\x0d\0\0\0\0\0\0\0\x0f\0\0\0\x04\0\0\0\0\0\0\0\0consumer_namen1\
    \x80\x53\0\0\x30\0\0\x03\0\0\0\x30\0\0\0\x05\0\0\0\0\0\0\0\0\
    \0\0\0\0\0\0\0\0\0\0\0\0\0\0\0\0\xff\xff\xff\xff\xff\xff\xff\xff\
    \0\0\0\0\0\0\0\0\0\0\0\0\0\0\0\0\0\0\0\0\0\0\0\0";

// All five answers: the log is that of branch 7.
const ANSWERS: &[u8] = b"\x81\x50\0\0\0\0\0\0\0\0\0\0\0\0\0\x01\0\0\0\0\0\0\0\0\
    \x81\x5e\0\0\0\0\0\0\0\0\0\0\0\0\0\x02\0\0\0\0\0\0\0\0\
    \x81\x5e\0\0\0\0\0\0\0\0\0\0\0\0\0\x03\0\0\0\0\0\0\0\0\
    \x81\x5e\0\0\0\0\0\0\0\0\0\0\0\0\0\x04\0\0\0\0\0\0\0\0\
    \x81\x53\0\0\0\0\0\0\0\0\0\x10\0\0\0\x05\0\0\0\0\0\0\0\0\0\0\0\0\0\0\0\x07\0\0\0\0\0\0\0\0";

// The same, and the marker, 180 bytes in all.
const ANSWERS_AND_MARKER: &[u8] = b"\x81\x50\0\0\0\0\0\0\0\0\0\0\0\0\0\x01\0\0\0\0\0\0\0\0\
    \x81\x5e\0\0\0\0\0\0\0\0\0\0\0\0\0\x02\0\0\0\0\0\0\0\0\
    \x81\x5e\0\0\0\0\0\0\0\0\0\0\0\0\0\x03\0\0\0\0\0\0\0\0\
    \x81\x5e\0\0\0\0\0\0\0\0\0\0\0\0\0\x04\0\0\0\0\0\0\0\0\
    \x81\x53\0\0\0\0\0\0\0\0\0\x10\0\0\0\x05\0\0\0\0\0\0\0\0\0\0\0\0\0\0\0\x07\0\0\0\0\0\0\0\0\
    \x80\x56\0\0\x14\0\0\x03\0\0\0\x14\0\0\0\x05\0\0\0\0\0\0\0\0\
    \0\0\0\0\0\0\0\0\0\0\0\0\0\0\0\x01\0\0\0\x01";

// The marker of the snapshot from 0 to 1, 44 bytes.
const MARKER: &[u8] = b"\x80\x56\0\0\x14\0\0\x03\0\0\0\x14\0\0\0\x05\0\0\0\0\0\0\0\0\
    \0\0\0\0\0\0\0\0\0\0\0\0\0\0\0\x01\0\0\0\x01";

// Its change, 57 bytes, whole and in two pieces.
const MUTATION: &[u8] = b"\x80\x57\0\x01\x1f\0\0\x03\0\0\0\x21\0\0\0\x05\0\0\0\0\0\x02\0\0\
    \0\0\0\0\0\0\0\x01\0\0\0\0\0\0\0\x01\0\0\0\x05\0\0\0\x06\0\0\0\0\0\0\0kv";

const MUTATION_FRONT: &[u8] = b"\x80\x57\0\x01\x1f\0\0\x03\0\0\0\x21\0\0\0\x05\0\0\0\0\0\x02\0\0";

const MUTATION_REST: &[u8] =
    b"\0\0\0\0\0\0\0\x01\0\0\0\0\0\0\0\x01\0\0\0\x05\0\0\0\x06\0\0\0\0\0\0\0kv";

// A marker and a change above them, of 44 and 43 bytes.
const MORE: &[u8] = b"\x80\x56\0\0\x14\0\0\x03\0\0\0\x14\0\0\0\x05\0\0\0\0\0\0\0\0\
    \0\0\0\0\0\0\0\x01\0\0\0\0\0\0\0\x02\0\0\0\x01\
    \x80\x58\0\x01\x12\0\0\x03\0\0\0\x13\0\0\0\x05\0\0\0\0\0\0\0\x0c\
    \0\0\0\0\0\0\0\x02\0\0\0\0\0\0\0\x05\0\0l";

// The end of the stream.
const REACHED: &[u8] = b"\x80\x55\0\0\x04\0\0\x03\0\0\0\x04\0\0\0\x05\0\0\0\0\0\0\0\0\0\0\0\0";

// The acknowledgements of 44, 57 and 87 bytes, 28 bytes each.
const MARKER_ACK: &[u8] = b"\x80\x5d\0\0\x04\0\0\0\0\0\0\x04\0\0\0\x05\0\0\0\0\0\0\0\0\0\0\0\x2c";

const MUTATION_ACK: &[u8] = b"\x80\x5d\0\0\x04\0\0\0\0\0\0\x04\0\0\0\x05\0\0\0\0\0\0\0\0\0\0\0\x39";

const MORE_ACK: &[u8] = b"\x80\x5d\0\0\x04\0\0\0\0\0\0\x04\0\0\0\x05\0\0\0\0\0\0\0\0\0\0\0\x57";

// Answers do not count, nor does a piece of a frame. One acknowledgement is of a whole delivery, and
// none is of one behind which the link is over.
const COUNTED: [Step; 7] = [
    (Do::Replicate, b"", Answer::Ok),
    (Do::DialWith(10), DIAL, Answer::Ok),
    (Do::Down(ANSWERS_AND_MARKER), MARKER_ACK, Answer::Ok),
    (Do::Down(MUTATION_FRONT), b"", Answer::Ok),
    (Do::Down(MUTATION_REST), MUTATION_ACK, Answer::Ok),
    (Do::Down(MORE), MORE_ACK, Answer::Ok),
    (Do::Down(REACHED), b"", Answer::Ok),
];

const COUNTED_LINES: [Told; 7] = [
    Told::Role(Role::Replica),
    Told::Adopted,
    Told::Ranged(0, 1),
    Told::Got(1),
    Told::Ranged(1, 2),
    Told::Got(2),
    Told::Ended(EndReason::Done),
];

// A frame of 44 bytes fills a window of 10, and so does one of 57, until they are acknowledged.
const HELD_BACK: [Step; 10] = [
    (Do::Lead, b"", Answer::Ok),
    (Do::Client(5), b"", Answer::Number(0)),
    (Do::Feed(0, SET), b"", Answer::Ok),
    (Do::Peer, b"", Answer::Number(1)),
    (Do::Hear(1, DIAL), ANSWERS, Answer::Ok),
    (Do::Pull(1, 9), MARKER, Answer::Pulled(1, Why::Full)),
    (Do::Hear(1, MARKER_ACK), b"", Answer::Ok),
    (Do::Pull(1, 9), MUTATION, Answer::Pulled(1, Why::Full)),
    (Do::Hear(1, MUTATION_ACK), b"", Answer::Ok),
    (Do::Pull(1, 9), b"", Answer::Pulled(0, Why::Idle)),
];

const HELD_BACK_LINES: [Told; 7] = [
    Told::Branch(7),
    Told::Role(Role::Active),
    Told::Changed(1),
    Told::Other,
    Told::Granted(1),
    Told::Marked(0, 1),
    Told::Put(1),
];

const TALKS: [Talk; 2] = [
    (1, &COUNTED, &COUNTED_LINES),
    (0, &HELD_BACK, &HELD_BACK_LINES),
];

#[test]
fn bytes_are_acknowledged(rt: HostRuntime) -> Result<(), Fail> {
    assert_eq!(rt; first_other_of(rt.alloc(), &TALKS)?, None);
    Ok(())
}
