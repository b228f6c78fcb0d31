//! Frames in pieces, faults, and a frame that is written.
use bytes::{Bytes, BytesMut};
use mcbp_frame::{Frame, FrameFault, FrameReader, RESPONSE, write_frame};
use std::alloc::Global;
use std::test::Fail;

// A request without a body, with opaque 1, and the same without its last byte.
const NOOP: &[u8] = b"\x80\x0a\0\0\0\0\0\0\0\0\0\0\0\0\0\x01\0\0\0\0\0\0\0\0";

const NOOP_FRONT: &[u8] = b"\x80\x0a\0\0\0\0\0\0\0\0\0\0\0\0\0\x01\0\0\0\0\0\0\0";

// A header of a SET with a body above the limit, and the same without its last byte.
const TOO_LONG: &[u8] = b"\x80\x01\0\x01\x08\0\0\0\x01\x50\0\x01\0\0\x02\x03\0\0\0\0\0\0\0\0";

const TOO_LONG_FRONT: &[u8] = b"\x80\x01\0\x01\x08\0\0\0\x01\x50\0\x01\0\0\x02\x03\0\0\0\0\0\0\0";

// An answer to a SET, with opaque 1 and CAS 1.
const ANSWER: &[u8] = b"\x81\x01\0\0\0\0\0\0\0\0\0\0\0\0\0\x01\0\0\0\0\0\0\0\x01";

/// What is written of that answer.
fn answer(alloc: Global) -> Result<BytesMut, Fail> {
    let frame = Frame {
        magic: RESPONSE,
        opcode: 1,
        datatype: 0,
        vb_or_status: 0,
        opaque: 1,
        cas: 1,
        framing: Bytes::new(),
        extras: Bytes::new(),
        key: Bytes::new(),
        value: Bytes::new(),
    };
    let mut out = BytesMut::new(alloc);
    write_frame(&frame, &mut out)?;
    Ok(out)
}

#[test]
fn an_answer_is_spelled(rt: HostRuntime) -> Result<(), Fail> {
    assert_eq!(rt; answer(rt.alloc())?.as_slice(), ANSWER);
    Ok(())
}

/// How many frames are whole with this piece, and the fault behind them.
fn came(reader: &mut FrameReader, piece: &[u8]) -> Result<(usize, Option<FrameFault>), Fail> {
    reader.feed(piece)?;
    let frames = reader.frames()?;
    Ok((frames.len(), reader.fault()?))
}

type Step = (&'static [u8], usize, Option<FrameFault>);

/// The place of the first piece with which another number of frames, or another fault, comes.
fn first_other(alloc: Global, steps: &[Step]) -> Result<Option<usize>, Fail> {
    let mut reader = FrameReader::new(alloc)?;
    for (at, (piece, frames, fault)) in steps.iter().enumerate() {
        if came(&mut reader, piece)? != (*frames, *fault) {
            return Ok(Some(at));
        }
    }
    Ok(None)
}

// Two requests, a third in two pieces, and a first byte that begins none.
const PIECES: [Step; 5] = [
    (NOOP, 1, None),
    (NOOP, 1, None),
    (NOOP_FRONT, 0, None),
    (b"\0", 1, None),
    (b"\x70", 0, Some(FrameFault::BadMagic)),
];

// A header that asks for a body above the limit, in two pieces.
const TOO_LONG_PIECES: [Step; 2] = [
    (TOO_LONG_FRONT, 0, None),
    (b"\0", 0, Some(FrameFault::BodyTooLong)),
];

#[test]
fn frames_come_in_pieces(rt: HostRuntime) -> Result<(), Fail> {
    assert_eq!(rt; first_other(rt.alloc(), &PIECES)?, None);
    assert_eq!(rt; first_other(rt.alloc(), &TOO_LONG_PIECES)?, None);
    Ok(())
}

/// The opcode and the opaque of a faulty header.
fn named(reader: &FrameReader) -> Result<Option<(u8, u32)>, Fail> {
    let fault = reader.fault()?.ok_or("no fault")?;
    match reader.faulty_head(fault) {
        Some(head) => Ok(Some((head.opcode, head.opaque))),
        None => Ok(None),
    }
}

/// What names the fault that a reader comes to with a piece.
fn named_with(reader: &mut FrameReader, piece: &[u8]) -> Result<Option<(u8, u32)>, Fail> {
    reader.feed(piece)?;
    named(reader)
}

/// What names the fault that a reader comes to, and the one after it was cleared and fed again.
fn both_named(
    alloc: Global,
    first: &[u8],
    second: &[u8],
) -> Result<(Option<(u8, u32)>, Option<(u8, u32)>), Fail> {
    let mut reader = FrameReader::new(alloc)?;
    let one = named_with(&mut reader, first)?;
    reader.clear();
    let other = named_with(&mut reader, second)?;
    Ok((one, other))
}

// A first byte that begins no frame names nothing.
#[test]
fn a_fault_is_named_by_its_header(rt: HostRuntime) -> Result<(), Fail> {
    let named = both_named(rt.alloc(), TOO_LONG, b"\x70")?;
    assert_eq!(rt; named, (Some((1, 0x203)), None));
    Ok(())
}

/// The first frame's opcode and opaque, if it is whole.
fn first_frame(alloc: Global, bytes: &[u8]) -> Result<Option<(u8, u32)>, Fail> {
    let mut reader = FrameReader::new(alloc)?;
    reader.feed(bytes)?;
    let next = reader.next()?;
    Ok(head_of(&next))
}

/// The opcode and the opaque of what is read, if it is a frame.
fn head_of(read: &Option<Result<Frame, FrameFault>>) -> Option<(u8, u32)> {
    match read {
        Some(Ok(frame)) => Some((frame.opcode, frame.opaque)),
        _ => None,
    }
}

type FirstRow = (&'static [u8], Option<(u8, u32)>);

// A frame comes with its last byte.
const FIRST: [FirstRow; 3] = [
    (NOOP_FRONT, None),
    (NOOP, Some((10, 1))),
    (ANSWER, Some((1, 1))),
];

/// The place of the first of these bytes that begin with another frame, or none.
fn first_misread(alloc: Global, rows: &[FirstRow]) -> Result<Option<usize>, Fail> {
    for (at, (bytes, named)) in rows.iter().enumerate() {
        if first_frame(alloc, bytes)? != *named {
            return Ok(Some(at));
        }
    }
    Ok(None)
}

#[test]
fn a_frame_comes_with_its_last_byte(rt: HostRuntime) -> Result<(), Fail> {
    assert_eq!(rt; first_misread(rt.alloc(), &FIRST)?, None);
    Ok(())
}
