//! Requests that are read, and answers that are written.
use crate::reading::frame_of;
use bytes::Bytes;
use mcbp_frame::{FRAMED_REQUEST, Frame};
use mcbp_kv::{
    Durability, Feature, KvReply, KvRequest, SET, hello_value, read_request, reply_bytes,
};
use std::alloc::{AllocError, Global};
use std::test::Fail;
use vb_types::{Level, Op, Status, Write};

/// What a test compares of a write: its operation, whether its key is `hello` and its value
/// `world`, its flags, its expiration and its CAS.
fn outline(write: &Write) -> (Op, bool, u32, u32, u64) {
    let named = write.key.as_slice() == b"hello".as_slice()
        && write.value.as_slice() == b"world".as_slice();
    (write.op, named, write.flags, write.expiry, write.cas)
}

/// The level that a write requires, and its timeout.
fn requirement(durable: Option<Durability>) -> Option<(Level, u16)> {
    durable.map(|d| (d.level, d.timeout))
}

type Outline = ((Op, bool, u32, u32, u64), Option<(Level, u16)>);

/// What a frame asks.
fn asked(alloc: Global, frame: Frame) -> Result<Result<KvRequest, Status>, AllocError> {
    read_request(alloc, &frame, false)
}

/// What a test compares of what is asked, if it is a write.
fn outline_asked(asked: &Result<KvRequest, Status>) -> Option<Outline> {
    match asked {
        Ok(KvRequest::Write { write, durable }) => Some((outline(write), requirement(*durable))),
        _ => None,
    }
}

/// What a test compares of what a frame asks, if it is a write.
fn outline_of(alloc: Global, frame: Frame) -> Result<Option<Outline>, AllocError> {
    let asked = asked(alloc, frame)?;
    Ok(outline_asked(&asked))
}

fn write_outline(alloc: Global, bytes: &[u8]) -> Result<Outline, Fail> {
    let frame = frame_of(alloc, bytes)?;
    Ok(outline_of(alloc, frame)?.ok_or("no write")?)
}

// Flags 0xdeadbeef, expiration 3600, key `hello`, value `world`, CAS 9.
#[test]
fn a_replace_is_read(rt: HostRuntime) -> Result<(), Fail> {
    let bytes = b"\x80\x03\0\x05\x08\0\0\x07\0\0\0\x12\0\0\0\x2a\0\0\0\0\0\0\0\x09\
        \xde\xad\xbe\xef\0\0\x0e\x10helloworld"
        .as_slice();
    let (write, durable) = write_outline(rt.alloc(), bytes)?;
    assert!(rt; write == (Op::Replace, true, 0xdeadbeef, 3600, 9));
    assert!(rt; durable == None);
    Ok(())
}

// The same as a SET that is to be persisted to a majority within 500 milliseconds.
#[test]
fn a_durable_set_is_read(rt: HostRuntime) -> Result<(), Fail> {
    let bytes = b"\x08\x01\x04\x05\x08\0\0\x07\0\0\0\x16\0\0\0\x2a\0\0\0\0\0\0\0\x09\
        \x13\x03\x01\xf4\xde\xad\xbe\xef\0\0\x0e\x10helloworld"
        .as_slice();
    let (write, durable) = write_outline(rt.alloc(), bytes)?;
    assert!(rt; write == (Op::Set, true, 0xdeadbeef, 3600, 9));
    assert!(rt; durable == Some((Level::PersistMajority, 500)));
    Ok(())
}

/// A request without extras and value.
fn bare_request(
    alloc: Global,
    opcode: u8,
    datatype: u8,
    framing: &[u8],
    key: &[u8],
) -> Result<Frame, AllocError> {
    Ok(Frame {
        magic: FRAMED_REQUEST,
        opcode,
        datatype,
        vb_or_status: 0,
        opaque: 0,
        cas: 0,
        framing: Bytes::copy_from_slice(alloc, framing)?,
        extras: Bytes::new(),
        key: Bytes::copy_from_slice(alloc, key)?,
        value: Bytes::new(),
    })
}

type DurableRow = (&'static [u8], Option<(Level, u16)>);

// Framing extras, and what they require.
const DURABLE: [DurableRow; 8] = [
    (b"", None),
    (b"\x11\x01", Some((Level::Majority, 30_000))),
    (b"\x11\x02", Some((Level::MajorityPersistActive, 30_000))),
    (b"\x11\x03", Some((Level::PersistMajority, 30_000))),
    (
        b"\x13\x02\0\0",
        Some((Level::MajorityPersistActive, 30_000)),
    ),
    (b"\x13\x03\0\x01", Some((Level::PersistMajority, 1))),
    (b"\x13\x01\x01\x02", Some((Level::Majority, 258))),
    (b"\x13\x01\xff\xff", Some((Level::Majority, 65_535))),
];

/// What a DELETE with these framing extras requires; `None` where it is refused.
fn required(alloc: Global, framing: &[u8]) -> Result<Option<Option<(Level, u16)>>, AllocError> {
    let frame = bare_request(alloc, 0x04, 0, framing, b"k")?;
    Ok(outline_of(alloc, frame)?.map(|outline| outline.1))
}

/// The place of the first of these requirements that a DELETE does not have.
fn first_not_required(alloc: Global, rows: &[DurableRow]) -> Result<Option<usize>, AllocError> {
    for (at, (framing, wanted)) in rows.iter().enumerate() {
        if required(alloc, *framing)? != Some(*wanted) {
            return Ok(Some(at));
        }
    }
    Ok(None)
}

#[test]
fn levels_and_timeouts_are_read(rt: HostRuntime) -> Result<(), Fail> {
    assert_eq!(rt; first_not_required(rt.alloc(), &DURABLE)?, None);
    Ok(())
}

type RefusedRow = (u8, u8, &'static [u8], &'static [u8], Option<Status>);

// Opcode, datatype, framing extras and key. The rows down to the first Einval for a key have also the
// faults of rows below.
const REFUSED: [RefusedRow; 17] = [
    (0x91, 1, b"\x21\x01", b"", Some(Status::UnknownCommand)),
    (0x00, 1, b"\x21\x01", b"", Some(Status::Einval)),
    (0x00, 0, b"\x21", b"", Some(Status::UnknownFrameInfo)),
    (0x00, 0, b"\x11\0\x21", b"", Some(Status::UnknownFrameInfo)),
    (0x00, 0, b"\x11", b"", Some(Status::Einval)),
    (0x00, 0, b"\x13\0\0", b"", Some(Status::Einval)),
    (0x00, 0, b"\x10", b"", Some(Status::Einval)),
    (0x00, 0, b"\x12\0\0", b"", Some(Status::Einval)),
    (0x00, 0, b"\x11\0\x11\0", b"", Some(Status::Einval)),
    (0x00, 0, b"\x11\0", b"", Some(Status::NotSupported)),
    (
        0x04,
        0,
        b"\x11\0",
        b"",
        Some(Status::DurabilityInvalidLevel),
    ),
    (
        0x04,
        0,
        b"\x13\x04\0\x01",
        b"",
        Some(Status::DurabilityInvalidLevel),
    ),
    (0x04, 0, b"\x13\x03\0\0", b"", Some(Status::Einval)),
    (0x01, 0, b"\x11\x01", b"k", Some(Status::Einval)),
    (0x01, 0, b"", b"k", Some(Status::Einval)),
    (0x04, 0, b"\x13\x03\0\0", b"k", None),
    (0x00, 0, b"", b"k", None),
];

/// Why a frame is refused, if it is.
fn refusal(alloc: Global, frame: Frame) -> Result<Option<Status>, AllocError> {
    Ok(asked(alloc, frame)?.err())
}

/// The place of the first of these requests that is answered otherwise.
fn first_other(alloc: Global, rows: &[RefusedRow]) -> Result<Option<usize>, AllocError> {
    for (at, (opcode, datatype, framing, key, status)) in rows.iter().enumerate() {
        let frame = bare_request(alloc, *opcode, *datatype, *framing, *key)?;
        if refusal(alloc, frame)? != *status {
            return Ok(Some(at));
        }
    }
    Ok(None)
}

#[test]
fn the_first_reason_decides(rt: HostRuntime) -> Result<(), Fail> {
    assert_eq!(rt; first_other(rt.alloc(), &REFUSED)?, None);
    Ok(())
}

/// The features of what is asked, if it is a HELLO.
fn features_asked(asked: &Result<KvRequest, Status>) -> Option<&[Feature]> {
    match asked {
        Ok(KvRequest::Hello { features }) => Some(features.as_slice()),
        _ => None,
    }
}

/// The features that a HELLO is answered with.
fn features_answered(alloc: Global, asked: &Result<KvRequest, Status>) -> Result<Bytes, Fail> {
    let features = features_asked(asked).ok_or("no hello")?;
    Ok(hello_value(alloc, features)?)
}

fn features_set(alloc: Global, bytes: &[u8]) -> Result<Bytes, Fail> {
    let frame = frame_of(alloc, bytes)?;
    let asked = asked(alloc, frame)?;
    features_answered(alloc, &asked)
}

// Synchronous replication, a feature that there is not, mutation seqnos, and the first once more.
#[test]
fn features_come_in_the_order_asked(rt: HostRuntime) -> Result<(), Fail> {
    let bytes = b"\x80\x1f\0\0\0\0\0\0\0\0\0\x08\0\0\0\0\0\0\0\0\0\0\0\0\
        \0\x11\0\x01\0\x04\0\x11"
        .as_slice();
    let features = features_set(rt.alloc(), bytes)?;
    assert_eq!(rt; features.as_slice(), b"\0\x11\0\x04".as_slice());
    Ok(())
}

/// The bytes of an answer to a SET with status 0xa0 and opaque 42.
fn spelled(alloc: Global) -> Result<Bytes, AllocError> {
    let reply = KvReply {
        opcode: SET,
        status: Status::DurabilityInvalidLevel,
        opaque: 42,
        cas: 0,
        datatype: 0,
        extras: Bytes::new(),
        value: Bytes::new(),
    };
    reply_bytes(alloc, &reply)
}

#[test]
fn an_answer_is_spelled(rt: HostRuntime) -> Result<(), Fail> {
    let spelled = spelled(rt.alloc())?;
    let answer = b"\x81\x01\0\0\0\0\0\xa0\0\0\0\0\0\0\0\x2a\0\0\0\0\0\0\0\0".as_slice();
    assert_eq!(rt; spelled.as_slice(), answer);
    Ok(())
}
