//! DCP messages and answers, each with its bytes: read, and written again.
ghost use Rattle.std.specs.Prelude.{IsTrue};
ghost use Rattle.mcbp_dcp.specs.DcpFrames.{IsSpelled};

use crate::reading::frame_of;
use bytes::BytesMut;
use mcbp_dcp::{
    DcpFault, DcpMsg, Mutation, Prepare, Resolution, StreamVerdict, read_dcp, write_dcp,
};
use mcbp_frame::Frame;
use std::alloc::{AllocError, Global};
use std::test::Fail;
use vb_types::{LogEntry, StreamAsk};

// In each of these the opaque is 0x0a0b0c0d, and no two fields are alike. First stand magic, opcode,
// length of the key, length of the extras, datatype and vBucket or status; then the length of the
// body, the opaque and the CAS; then the extras, the key and the value.

// vBucket 0x0102, number 0x01020304, flags 0x05060708, name `n7`.
const OPEN: &[u8] = b"\x80\x50\0\x02\x08\0\x01\x02\0\0\0\x0a\x0a\x0b\x0c\x0d\0\0\0\0\0\0\0\0\
    \x01\x02\x03\x04\x05\x06\x07\x08n7";

const CONTROL: &[u8] = b"\x80\x5e\0\x03\0\0\x01\x02\0\0\0\x08\x0a\x0b\x0c\x0d\0\0\0\0\0\0\0\0\
    keyvalue";

// Flags, a reserved field of 4 bytes, start, end, UUID, snapshot start and snapshot end.
const STREAM_REQUEST: &[u8] =
    b"\x80\x53\0\0\x30\0\x01\x02\0\0\0\x30\x0a\x0b\x0c\x0d\0\0\0\0\0\0\0\0\
    \x01\x02\x03\x04\0\0\0\0\x11\x12\x13\x14\x15\x16\x17\x18\x21\x22\x23\x24\x25\x26\x27\x28\
    \x31\x32\x33\x34\x35\x36\x37\x38\x41\x42\x43\x44\x45\x46\x47\x48\x51\x52\x53\x54\x55\x56\x57\x58";

const STREAM_END: &[u8] = b"\x80\x55\0\0\x04\0\x01\x02\0\0\0\x04\x0a\x0b\x0c\x0d\0\0\0\0\0\0\0\0\
    \x01\x02\x03\x04";

// Start, end and flags.
const MARKER: &[u8] = b"\x80\x56\0\0\x14\0\x01\x02\0\0\0\x14\x0a\x0b\x0c\x0d\0\0\0\0\0\0\0\0\
    \x11\x12\x13\x14\x15\x16\x17\x18\x21\x22\x23\x24\x25\x26\x27\x28\x01\x02\x03\x04";

// CAS 0x3132333435363738 and datatype 1 in the header; seqno, revision, flags and expiration; lock
// time, length of metadata and nru are 0; key `key` and value `value`.
const MUTATION: &[u8] =
    b"\x80\x57\0\x03\x1f\x01\x01\x02\0\0\0\x27\x0a\x0b\x0c\x0d\x31\x32\x33\x34\x35\x36\x37\x38\
    \x11\x12\x13\x14\x15\x16\x17\x18\x21\x22\x23\x24\x25\x26\x27\x28\
    \x01\x02\x03\x04\x05\x06\x07\x08\0\0\0\0\0\0\0keyvalue";

// The same, with a lock time and an nru, which are not read.
const IGNORED: &[u8] =
    b"\x80\x57\0\x03\x1f\x01\x01\x02\0\0\0\x27\x0a\x0b\x0c\x0d\x31\x32\x33\x34\x35\x36\x37\x38\
    \x11\x12\x13\x14\x15\x16\x17\x18\x21\x22\x23\x24\x25\x26\x27\x28\
    \x01\x02\x03\x04\x05\x06\x07\x08\x61\x62\x63\x64\0\0\x71keyvalue";

// CAS in the header; seqno, revision and a length of metadata of 0; a key alone.
const DELETION: &[u8] =
    b"\x80\x58\0\x03\x12\0\x01\x02\0\0\0\x15\x0a\x0b\x0c\x0d\x31\x32\x33\x34\x35\x36\x37\x38\
    \x11\x12\x13\x14\x15\x16\x17\x18\x21\x22\x23\x24\x25\x26\x27\x28\0\0key";

// CAS and datatype in the header; seqno, revision, flags and expiration; lock time and nru are 0; a
// byte that says whether it is of a removal, here 9, and the level, here 0x0a; key and value.
const PREPARE: &[u8] =
    b"\x80\x60\0\x03\x1f\x01\x01\x02\0\0\0\x27\x0a\x0b\x0c\x0d\x31\x32\x33\x34\x35\x36\x37\x38\
    \x11\x12\x13\x14\x15\x16\x17\x18\x21\x22\x23\x24\x25\x26\x27\x28\
    \x01\x02\x03\x04\x05\x06\x07\x08\0\0\0\0\0\x09\x0akeyvalue";

// One of a removal, which has no value.
const REMOVAL: &[u8] =
    b"\x80\x60\0\x03\x1f\x01\x01\x02\0\0\0\x22\x0a\x0b\x0c\x0d\x31\x32\x33\x34\x35\x36\x37\x38\
    \x11\x12\x13\x14\x15\x16\x17\x18\x21\x22\x23\x24\x25\x26\x27\x28\
    \x01\x02\x03\x04\x05\x06\x07\x08\0\0\0\0\0\x01\x03key";

// The same with a value.
const FULL_REMOVAL: &[u8] =
    b"\x80\x60\0\x03\x1f\x01\x01\x02\0\0\0\x23\x0a\x0b\x0c\x0d\x31\x32\x33\x34\x35\x36\x37\x38\
    \x11\x12\x13\x14\x15\x16\x17\x18\x21\x22\x23\x24\x25\x26\x27\x28\
    \x01\x02\x03\x04\x05\x06\x07\x08\0\0\0\0\0\x01\x03keyv";

// A prepare with a lock time and an nru, which are not read.
const IGNORED_PREPARE: &[u8] =
    b"\x80\x60\0\x03\x1f\x01\x01\x02\0\0\0\x27\x0a\x0b\x0c\x0d\x31\x32\x33\x34\x35\x36\x37\x38\
    \x11\x12\x13\x14\x15\x16\x17\x18\x21\x22\x23\x24\x25\x26\x27\x28\
    \x01\x02\x03\x04\x05\x06\x07\x08\x61\x62\x63\x64\x71\x09\x0akeyvalue";

// The seqno of the prepare and its own; a key alone.
const COMMIT: &[u8] = b"\x80\x62\0\x03\x10\0\x01\x02\0\0\0\x13\x0a\x0b\x0c\x0d\0\0\0\0\0\0\0\0\
    \x11\x12\x13\x14\x15\x16\x17\x18\x21\x22\x23\x24\x25\x26\x27\x28key";

// The same with a datatype and a CAS, which are not read.
const IGNORED_COMMIT: &[u8] =
    b"\x80\x62\0\x03\x10\x01\x01\x02\0\0\0\x13\x0a\x0b\x0c\x0d\x31\x32\x33\x34\x35\x36\x37\x38\
    \x11\x12\x13\x14\x15\x16\x17\x18\x21\x22\x23\x24\x25\x26\x27\x28key";

const ABORT: &[u8] = b"\x80\x63\0\x03\x10\0\x01\x02\0\0\0\x13\x0a\x0b\x0c\x0d\0\0\0\0\0\0\0\0\
    \x11\x12\x13\x14\x15\x16\x17\x18\x21\x22\x23\x24\x25\x26\x27\x28key";

const ACKNOWLEDGED: &[u8] = b"\x80\x61\0\0\x08\0\x01\x02\0\0\0\x08\x0a\x0b\x0c\x0d\0\0\0\0\0\0\0\0\
    \x11\x12\x13\x14\x15\x16\x17\x18";

const OPENED: &[u8] = b"\x81\x50\0\0\0\0\x01\x02\0\0\0\0\x0a\x0b\x0c\x0d\0\0\0\0\0\0\0\0";

const CONTROLLED: &[u8] = b"\x81\x5e\0\0\0\0\x01\x02\0\0\0\0\x0a\x0b\x0c\x0d\0\0\0\0\0\0\0\0";

// Two entries: a UUID and a seqno each.
const STREAMS: &[u8] = b"\x81\x53\0\0\0\0\0\0\0\0\0\x20\x0a\x0b\x0c\x0d\0\0\0\0\0\0\0\0\
    \x11\x12\x13\x14\x15\x16\x17\x18\x21\x22\x23\x24\x25\x26\x27\x28\
    \x31\x32\x33\x34\x35\x36\x37\x38\x41\x42\x43\x44\x45\x46\x47\x48";

const ROLLS_BACK: &[u8] = b"\x81\x53\0\0\0\0\0\x23\0\0\0\x08\x0a\x0b\x0c\x0d\0\0\0\0\0\0\0\0\
    \x11\x12\x13\x14\x15\x16\x17\x18";

const REFUSES: &[u8] = b"\x81\x53\0\0\0\0\x01\x02\0\0\0\0\x0a\x0b\x0c\x0d\0\0\0\0\0\0\0\0";

const CLOSE: &[u8] = b"\x80\x52\0\0\0\0\x01\x02\0\0\0\0\x0a\x0b\x0c\x0d\0\0\0\0\0\0\0\0";

const LOG_REQUEST: &[u8] = b"\x80\x54\0\0\0\0\x01\x02\0\0\0\0\x0a\x0b\x0c\x0d\0\0\0\0\0\0\0\0";

const NOOP: &[u8] = b"\x80\x5c\0\0\0\0\x01\x02\0\0\0\0\x0a\x0b\x0c\x0d\0\0\0\0\0\0\0\0";

const TAKEN: &[u8] = b"\x80\x5d\0\0\x04\0\x01\x02\0\0\0\x04\x0a\x0b\x0c\x0d\0\0\0\0\0\0\0\0\
    \x01\x02\x03\x04";

const CLOSED: &[u8] = b"\x81\x52\0\0\0\0\x01\x02\0\0\0\0\x0a\x0b\x0c\x0d\0\0\0\0\0\0\0\0";

const ALIVE: &[u8] = b"\x81\x5c\0\0\0\0\x01\x02\0\0\0\0\x0a\x0b\x0c\x0d\0\0\0\0\0\0\0\0";

// Two entries: a UUID and a seqno each.
const LOG: &[u8] = b"\x81\x54\0\0\0\0\0\0\0\0\0\x20\x0a\x0b\x0c\x0d\0\0\0\0\0\0\0\0\
    \x11\x12\x13\x14\x15\x16\x17\x18\x21\x22\x23\x24\x25\x26\x27\x28\
    \x31\x32\x33\x34\x35\x36\x37\x38\x41\x42\x43\x44\x45\x46\x47\x48";

const NO_LOG: &[u8] = b"\x81\x54\0\0\0\0\x01\x02\0\0\0\0\x0a\x0b\x0c\x0d\0\0\0\0\0\0\0\0";

// Numbers of which no two bytes are alike.
const A: u64 = 0x1112131415161718;

const B: u64 = 0x2122232425262728;

const C: u64 = 0x3132333435363738;

const D: u64 = 0x4142434445464748;

const E: u64 = 0x5152535455565758;

const X: u64 = 0x01020304;

const Y: u64 = 0x05060708;

/// What a test compares of a message: its name, its numbers by its fields, its key and its value.
type Outline<'a> = (&'static str, [u64; 8], &'a [u8], &'a [u8]);

fn outline(message: &DcpMsg) -> Outline<'_> {
    match message {
        DcpMsg::Open { seqno, flags, name } => (
            "open",
            [*seqno as u64, *flags as u64, 0, 0, 0, 0, 0, 0],
            name.as_slice(),
            b"",
        ),
        DcpMsg::Control { key, value } => ("control", [0; 8], key.as_slice(), value.as_slice()),
        DcpMsg::StreamRequest { ask } => outline_request(ask),
        DcpMsg::CloseStream => ("close", [0; 8], b"", b""),
        DcpMsg::GetFailoverLog => ("log request", [0; 8], b"", b""),
        DcpMsg::Noop => ("noop", [0; 8], b"", b""),
        DcpMsg::BufferAcknowledgement { bytes } => outline_number("taken", *bytes as u64),
        DcpMsg::SeqnoAcknowledged { seq } => outline_number("acknowledged", *seq),
        other => outline_sent(other),
    }
}

/// The same of a message of a stream, or of an answer.
fn outline_sent(message: &DcpMsg) -> Outline<'_> {
    match message {
        DcpMsg::StreamEnd { reason } => outline_number("end", *reason as u64),
        DcpMsg::SnapshotMarker { start, end, flags } => (
            "marker",
            [*start, *end, *flags as u64, 0, 0, 0, 0, 0],
            b"",
            b"",
        ),
        DcpMsg::Mutation { change } => outline_mutation(change),
        DcpMsg::Deletion { change } => (
            "deletion",
            [change.seq, change.rev, change.cas, 0, 0, 0, 0, 0],
            change.key.as_slice(),
            b"",
        ),
        DcpMsg::Prepare { change } => outline_prepare(change),
        DcpMsg::Commit { change } => outline_resolution("commit", change),
        DcpMsg::Abort { change } => outline_resolution("abort", change),
        answer => outline_answer(answer),
    }
}

/// The same of an answer.
fn outline_answer(message: &DcpMsg) -> Outline<'_> {
    match message {
        DcpMsg::OpenAnswer { status } => outline_number("opened", *status as u64),
        DcpMsg::ControlAnswer { status } => outline_number("controlled", *status as u64),
        DcpMsg::StreamAnswer { told } => outline_told(told),
        DcpMsg::CloseAnswer { status } => outline_number("closed", *status as u64),
        DcpMsg::NoopAnswer { status } => outline_number("alive", *status as u64),
        DcpMsg::LogAnswer { status, log } => outline_log_answer(*status, log.as_slice()),
        _ => ("no answer", [0; 8], b"", b""),
    }
}

/// The same of a message of one number.
fn outline_number(name: &'static str, number: u64) -> Outline<'static> {
    (name, [number, 0, 0, 0, 0, 0, 0, 0], b"", b"")
}

/// The same of a request for a stream.
fn outline_request(ask: &StreamAsk) -> Outline<'_> {
    let (flags, start, end) = (ask.flags as u64, ask.start, ask.end);
    (
        "request",
        [flags, start, end, ask.uuid, ask.ss, ask.se, 0, 0],
        b"",
        b"",
    )
}

/// The same of a mutation.
fn outline_mutation(change: &Mutation) -> Outline<'_> {
    let numbers = [
        change.seq,
        change.rev,
        change.cas,
        change.flags as u64,
        change.expiry as u64,
        change.datatype as u64,
        0,
        0,
    ];
    let (key, value) = (change.key.as_slice(), change.value.as_slice());
    ("mutation", numbers, key, value)
}

/// The same of a prepare.
fn outline_prepare(change: &Prepare) -> Outline<'_> {
    let numbers = [
        change.seq,
        change.rev,
        change.cas,
        change.flags as u64,
        change.expiry as u64,
        change.datatype as u64,
        change.deleted as u64,
        change.level as u64,
    ];
    let (key, value) = (change.key.as_slice(), change.value.as_slice());
    ("prepare", numbers, key, value)
}

/// The same of a commit or an abort.
fn outline_resolution<'a>(name: &'static str, change: &'a Resolution) -> Outline<'a> {
    let numbers = [change.prepared, change.seq, 0, 0, 0, 0, 0, 0];
    (name, numbers, change.key.as_slice(), b"")
}

/// The same of a log of two entries.
fn outline_log(name: &'static str, log: &[LogEntry]) -> Outline<'static> {
    match log {
        [one, two] => (
            name,
            [one.uuid, one.seq, two.uuid, two.seq, 0, 0, 0, 0],
            b"",
            b"",
        ),
        _ => ("another log", [0; 8], b"", b""),
    }
}

/// The same of an answer to a request for a log.
fn outline_log_answer(status: u16, log: &[LogEntry]) -> Outline<'static> {
    if status == 0 {
        outline_log("log", log)
    } else {
        outline_number("no log", status as u64)
    }
}

/// The same of an answer to a request for a stream.
fn outline_told(told: &StreamVerdict) -> Outline<'_> {
    match told {
        StreamVerdict::Go { log } => outline_log("streams", log.as_slice()),
        StreamVerdict::Roll { point } => outline_number("rolls back", *point),
        StreamVerdict::Refused { status } => outline_number("refuses", *status as u64),
    }
}

type Row = (
    &'static [u8],
    &'static str,
    [u64; 8],
    &'static [u8],
    &'static [u8],
);

/// Whether a message has a spelling, as each of the rows has.
fn is_spelled(message: &DcpMsg) -> bool
    ensures { IsTrue result → IsSpelled message.now }
{
    match message {
        DcpMsg::Open { name, .. } => name.len() == 2,
        DcpMsg::Control { key, value } => key.len() == 3 && value.len() == 5,
        DcpMsg::Mutation { change } => change.key.len() == 3 && change.value.len() == 5,
        DcpMsg::Deletion { change } => change.key.len() == 3,
        DcpMsg::Prepare { change } => {
            change.key.len() == 3 && change.value.len() == if change.deleted == 1 { 0 } else { 5 }
        }
        DcpMsg::Commit { change } => change.key.len() == 3,
        DcpMsg::Abort { change } => change.key.len() == 3,
        DcpMsg::StreamAnswer { told } => match told {
            StreamVerdict::Go { log } => log.as_slice().len() == 2,
            StreamVerdict::Roll { .. } => true,
            StreamVerdict::Refused { status } => *status == 0x0102,
        },
        DcpMsg::LogAnswer { status, log } => match log.as_slice() {
            [] => true,
            [_, _] => *status == 0,
            _ => false,
        },
        _ => true,
    }
}

/// A message's bytes, with the opaque and the vBucket of the rows.
fn written(alloc: Global, message: &DcpMsg) -> Result<BytesMut, Fail> {
    let mut out = BytesMut::new(alloc);
    if is_spelled(message) {
        write_dcp(message, 0x0a0b0c0d, 0x0102, &mut out)?;
    }
    Ok(out)
}

/// What a frame is read as.
type Read = Option<Result<DcpMsg, DcpFault>>;

fn read(alloc: Global, frame: Frame) -> Result<Read, AllocError> {
    read_dcp(alloc, &frame)
}

fn read_bytes(alloc: Global, bytes: &[u8]) -> Result<Read, Fail> {
    let frame = frame_of(alloc, bytes)?;
    Ok(read(alloc, frame)?)
}

/// Whether what is read is the message that a row says.
fn is_said(read: &Read, row: &Row) -> bool {
    let (_, name, numbers, key, value) = *row;
    match read {
        Some(Ok(message)) => outline(message) == (name, numbers, key, value),
        _ => false,
    }
}

/// What is written of the message that is read.
fn written_again(alloc: Global, read: &Read) -> Result<BytesMut, Fail> {
    match read {
        Some(Ok(message)) => written(alloc, message),
        _ => Err("no message".into()),
    }
}

/// Whether what is read is the message that a row says, and what is written of it.
fn compared(alloc: Global, read: Read, row: &Row) -> Result<(bool, BytesMut), Fail> {
    let is_said = is_said(&read, row);
    let out = written_again(alloc, &read);
    drop(read);
    Ok((is_said, out?))
}

/// Whether the bytes of a row are read as the message that it says, and what is written of that.
fn taken(alloc: Global, row: &Row) -> Result<(bool, BytesMut), Fail> {
    let read = read_bytes(alloc, row.0)?;
    compared(alloc, read, row)
}

// A message's numbers, key and value are all that it has: so what is written of the one that is read
// is what is written of the one that the row says.
const ROWS: [Row; 25] = [
    (OPEN, "open", [X, Y, 0, 0, 0, 0, 0, 0], b"n7", b""),
    (CONTROL, "control", [0; 8], b"key", b"value"),
    (
        STREAM_REQUEST,
        "request",
        [X, A, B, C, D, E, 0, 0],
        b"",
        b"",
    ),
    (STREAM_END, "end", [X, 0, 0, 0, 0, 0, 0, 0], b"", b""),
    (MARKER, "marker", [A, B, X, 0, 0, 0, 0, 0], b"", b""),
    (
        MUTATION,
        "mutation",
        [A, B, C, X, Y, 1, 0, 0],
        b"key",
        b"value",
    ),
    (DELETION, "deletion", [A, B, C, 0, 0, 0, 0, 0], b"key", b""),
    (
        PREPARE,
        "prepare",
        [A, B, C, X, Y, 1, 9, 10],
        b"key",
        b"value",
    ),
    (REMOVAL, "prepare", [A, B, C, X, Y, 1, 1, 3], b"key", b""),
    (COMMIT, "commit", [A, B, 0, 0, 0, 0, 0, 0], b"key", b""),
    (ABORT, "abort", [A, B, 0, 0, 0, 0, 0, 0], b"key", b""),
    (
        ACKNOWLEDGED,
        "acknowledged",
        [A, 0, 0, 0, 0, 0, 0, 0],
        b"",
        b"",
    ),
    (OPENED, "opened", [0x0102, 0, 0, 0, 0, 0, 0, 0], b"", b""),
    (
        CONTROLLED,
        "controlled",
        [0x0102, 0, 0, 0, 0, 0, 0, 0],
        b"",
        b"",
    ),
    (STREAMS, "streams", [A, B, C, D, 0, 0, 0, 0], b"", b""),
    (ROLLS_BACK, "rolls back", [A, 0, 0, 0, 0, 0, 0, 0], b"", b""),
    (REFUSES, "refuses", [0x0102, 0, 0, 0, 0, 0, 0, 0], b"", b""),
    (CLOSE, "close", [0; 8], b"", b""),
    (LOG_REQUEST, "log request", [0; 8], b"", b""),
    (NOOP, "noop", [0; 8], b"", b""),
    (TAKEN, "taken", [X, 0, 0, 0, 0, 0, 0, 0], b"", b""),
    (CLOSED, "closed", [0x0102, 0, 0, 0, 0, 0, 0, 0], b"", b""),
    (ALIVE, "alive", [0x0102, 0, 0, 0, 0, 0, 0, 0], b"", b""),
    (LOG, "log", [A, B, C, D, 0, 0, 0, 0], b"", b""),
    (NO_LOG, "no log", [0x0102, 0, 0, 0, 0, 0, 0, 0], b"", b""),
];

/// The place of the first row that is read otherwise, or whose message is written otherwise.
fn first_other(alloc: Global, rows: &[Row]) -> Result<Option<usize>, Fail> {
    for (at, row) in rows.iter().enumerate() {
        let (is_said, out) = taken(alloc, row)?;
        if !is_said || out.as_slice() != row.0 {
            return Ok(Some(at));
        }
    }
    Ok(None)
}

#[test]
fn messages_are_read_and_written(rt: HostRuntime) -> Result<(), Fail> {
    assert_eq!(rt; first_other(rt.alloc(), &ROWS)?, None);
    Ok(())
}

// Of a mutation and a prepare the lock time and nru are not read, and of a commit the datatype and CAS.
const IGNORED_ROWS: [Row; 3] = [
    (
        IGNORED,
        "mutation",
        [A, B, C, X, Y, 1, 0, 0],
        b"key",
        b"value",
    ),
    (
        IGNORED_PREPARE,
        "prepare",
        [A, B, C, X, Y, 1, 9, 10],
        b"key",
        b"value",
    ),
    (
        IGNORED_COMMIT,
        "commit",
        [A, B, 0, 0, 0, 0, 0, 0],
        b"key",
        b"",
    ),
];

#[test]
fn some_fields_are_ignored(rt: HostRuntime) -> Result<(), Fail> {
    for row in &IGNORED_ROWS {
        assert!(rt; taken(rt.alloc(), row)?.0);
    }
    Ok(())
}

/// Whether what is read is no message, for its value.
fn is_wrong_value(read: &Read) -> bool {
    matches!(read, Some(Err(DcpFault::WrongValue)))
}

#[test]
fn removals_have_no_value(rt: HostRuntime) -> Result<(), Fail> {
    let read = read_bytes(rt.alloc(), FULL_REMOVAL)?;
    let is_wrong = is_wrong_value(&read);
    drop(read);
    assert!(rt; is_wrong);
    Ok(())
}
