//! A frame, and what a run of bytes begins with.
ghost use Rattle.std.specs.Prelude.{◌≡◌, ◌+◌, ◌≤◌, ◌<◌, ◌^◌, IfOk, IfSome, length, drop};
ghost use Rattle.{std.specs.List.{slice_range}, mcbp_frame.specs.Cutting.{front_frame, frames_in, cut_len}};
ghost use Rattle.mcbp_frame.specs.Frames.{is_magic, framing_len, key_len, extras_at, key_at, value_at, body_len, parts_len, frame_of, first_frame, frame_len, IsWithin};

use crate::copies::Copies;
use byteorder::{BigEndian, ByteOrder};
use bytes::Bytes;
use std::alloc::{AllocError, Global};

/// The first byte of a request.
pub const REQUEST: u8 = 0x80;

/// The first byte of a request with framing extras.
pub const FRAMED_REQUEST: u8 = 0x08;

/// The first byte of a response.
pub const RESPONSE: u8 = 0x81;

/// The length of a header, in bytes.
pub const HEADER_LEN: usize = 24;

/// The longest body that is read, in bytes: a value of 20 MiB and 1 MiB for all else.
pub const MAX_BODY_LEN: u32 = 22_020_096;

/// A message of the memcached binary protocol.
#[derive(Drop)]
pub struct Frame {
    /// `REQUEST`, `FRAMED_REQUEST` or `RESPONSE`.
    pub magic: u8,
    pub opcode: u8,
    pub datatype: u8,
    /// A request's vBucket, a response's status.
    pub vb_or_status: u16,
    /// The number by which a response names its request.
    pub opaque: u32,
    pub cas: u64,
    /// The framing extras, which only a `FRAMED_REQUEST` has.
    pub framing: Bytes,
    pub extras: Bytes,
    pub key: Bytes,
    pub value: Bytes,
}

// By hand, so that only what takes memory is a call that may fail.
impl Clone for Frame {
    ghost is_clone = { λ frame copy. copy ≡ frame };

    fn clone(&self) -> Result<Frame, AllocError> {
        let framing = self.framing.clone()?;
        let extras = self.extras.clone()?;
        let key = self.key.clone()?;
        let value = self.value.clone()?;
        Ok(Frame {
            framing,
            extras,
            key,
            value,
            ..*self
        })
    }
}

/// Why bytes begin with no frame, however many more follow.
#[derive(Clone, Copy, Debug, PartialEq, Eq)]
pub enum FrameFault {
    /// The first byte is none of the three magics.
    BadMagic,
    /// The header asks for more than `MAX_BODY_LEN` bytes.
    BodyTooLong,
    /// The body is shorter than framing extras, extras and key together.
    BadLengths,
}

/// What the header of a faulty frame names it by.
#[derive(Clone, Copy, Debug, PartialEq, Eq)]
pub struct FaultyHead {
    pub opcode: u8,
    pub opaque: u32,
}

fn is_known(magic: u8) -> bool
    ensures { result ≡ is_magic magic }
{
    magic == REQUEST || magic == FRAMED_REQUEST || magic == RESPONSE
}

/// The lengths of the framing extras and of the key that a header says.
fn lengths_in(bytes: &[u8]) -> (usize, usize)
    requires { HEADER_LEN ≤ length bytes.now }
    ensures { result ≡ (framing_len bytes.now, key_len bytes.now) }
{
    if bytes[0] == FRAMED_REQUEST {
        (bytes[2] as usize, bytes[3] as usize)
    } else {
        (0, BigEndian::read_u16(&bytes[2..4]) as usize)
    }
}

/// A part of a body, which is a part of the bytes of its frame.
fn part(body: &Bytes, bytes: &[u8], from: usize, to: usize) -> Result<Bytes, AllocError>
    requires body { body.now ≡ slice_range bytes.now HEADER_LEN (HEADER_LEN + length body.now) }
    requires from { HEADER_LEN ≤ from }
    requires order { from ≤ to }
    requires to { to ≤ HEADER_LEN + length body.now }
    ensures { IfOk result (λ part. part ≡ slice_range bytes.now from to) }
{
    let part = body.slice(from - HEADER_LEN..to - HEADER_LEN)?;
    Ok(part)
}

/// What stands in a frame behind its header.
#[derive(Drop)]
struct Parts {
    framing: Bytes,
    extras: Bytes,
    key: Bytes,
    value: Bytes,
}

/// The parts of a body, as the header in front of it says.
fn parts_of(body: &Bytes, bytes: &[u8]) -> Result<Parts, AllocError>
    requires header { HEADER_LEN ≤ length bytes.now }
    requires body { body.now ≡ slice_range bytes.now HEADER_LEN (HEADER_LEN + length body.now) }
    requires said { length body.now ≡ body_len bytes.now }
    requires parts { parts_len bytes.now ≤ length body.now }
    ensures framing { IfOk result (λ parts. parts.framing ≡ slice_range bytes.now HEADER_LEN (extras_at bytes.now)) }
    ensures extras { IfOk result (λ parts. parts.extras ≡ slice_range bytes.now (extras_at bytes.now) (key_at bytes.now)) }
    ensures key { IfOk result (λ parts. parts.key ≡ slice_range bytes.now (key_at bytes.now) (value_at bytes.now)) }
    ensures value { IfOk result (λ parts. parts.value ≡ slice_range bytes.now (value_at bytes.now) (HEADER_LEN + body_len bytes.now)) }
{
    let (framing, key) = lengths_in(bytes);
    let extras_at = HEADER_LEN + framing;
    let key_at = extras_at + bytes[4] as usize;
    let value_at = key_at + key;
    Ok(Parts {
        framing: part(body, bytes, HEADER_LEN, extras_at)?,
        extras: part(body, bytes, extras_at, key_at)?,
        key: part(body, bytes, key_at, value_at)?,
        value: part(body, bytes, value_at, HEADER_LEN + body.len())?,
    })
}

/// The header of a frame, with these parts behind it.
#[tactic(auto, unfolding(crate::specs::Frames::frame_of))]
fn headed(bytes: &[u8], parts: Parts) -> Frame
    requires { HEADER_LEN ≤ length bytes.now }
    ensures { result ≡ record (frame_of bytes.now) { framing = parts.framing; extras = parts.extras; key = parts.key; value = parts.value } }
{
    Frame {
        magic: bytes[0],
        opcode: bytes[1],
        datatype: bytes[5],
        vb_or_status: BigEndian::read_u16(&bytes[6..8]),
        opaque: BigEndian::read_u32(&bytes[12..16]),
        cas: BigEndian::read_u64(&bytes[16..24]),
        framing: parts.framing,
        extras: parts.extras,
        key: parts.key,
        value: parts.value,
    }
}

/// The frame of a header and its body, whose parts share one copy of the body.
#[tactic(auto, unfolding(crate::specs::Frames::frame_of))]
fn frame_from(copies: &mut Copies, bytes: &[u8], body: usize) -> Result<Frame, AllocError>
    requires whole { HEADER_LEN + body ≤ length bytes.now }
    requires said { body ≡ body_len bytes.now }
    requires parts { parts_len bytes.now ≤ body }
    ensures frame { IfOk result (λ frame. frame ≡ frame_of bytes.now) }
    ensures len { IfOk result (λ frame. frame_len frame ≡ HEADER_LEN + body) }
{
    let end = HEADER_LEN + body;
    let body = copies.copy(&bytes[HEADER_LEN..end])?;
    let parts = parts_of(&body, bytes)?;
    Ok(headed(bytes, parts))
}

/// What the bytes begin with: a frame, a fault, or less than a frame.
#[tactic(auto, unfolding(crate::specs::Frames::first_frame))]
pub fn first(
    copies: &mut Copies,
    bytes: &[u8],
) -> Result<Option<Result<Frame, FrameFault>>, AllocError>
    ensures first { IfOk result (λ first. first ≡ first_frame bytes.now) }
    ensures within { IfOk result (λ first. IsWithin first (length bytes.now)) }
{
    if bytes.is_empty() {
        return Ok(None);
    }
    if !is_known(bytes[0]) {
        return Ok(Some(Err(FrameFault::BadMagic)));
    }
    if bytes.len() < HEADER_LEN {
        return Ok(None);
    }
    let body = BigEndian::read_u32(&bytes[8..12]);
    if body > MAX_BODY_LEN {
        return Ok(Some(Err(FrameFault::BodyTooLong)));
    }
    let body = body as usize;
    let (framing, key) = lengths_in(bytes);
    if body < framing + bytes[4] as usize + key {
        return Ok(Some(Err(FrameFault::BadLengths)));
    }
    if bytes.len() < HEADER_LEN + body {
        return Ok(None);
    }
    Ok(Some(Ok(frame_from(copies, bytes, body)?)))
}

/// The length of a frame as bytes.
pub fn len_of(frame: &Frame) -> usize
    requires { frame_len frame.now < 2 ^ 64 }
    ensures { result ≡ frame_len frame.now }
{
    HEADER_LEN + frame.framing.len() + frame.extras.len() + frame.key.len() + frame.value.len()
}

/// The bytes behind the frame that they begin with.
fn behind<'a>(frame: &Frame, bytes: &'a [u8]) -> &'a [u8]
    requires { frame_len frame.now ≤ length bytes.now }
    ensures { result.now ≡ drop (frame_len frame.now) bytes.now }
{
    &bytes[len_of(frame)..]
}

/// The frame that the bytes begin with, if they begin with one.
fn front(copies: &mut Copies, bytes: &[u8]) -> Result<Option<Frame>, AllocError>
    ensures frame { IfOk result (λ frame. frame ≡ front_frame bytes.now) }
    ensures within { IfOk result (λ frame. IfSome frame (λ f. frame_len f ≤ length bytes.now)) }
{
    match first(copies, bytes)? {
        Some(Ok(frame)) => Ok(Some(frame)),
        _ => Ok(None),
    }
}

/// The frames at the front of the bytes, and how many bytes they are.
pub fn cut(alloc: Global, bytes: &[u8]) -> Result<(Vec<Frame>, usize), AllocError>
    ensures frames { IfOk result (λ cut. cut.0.items ≡ frames_in bytes.now) }
    ensures len { IfOk result (λ cut. cut.1 ≡ cut_len bytes.now) }
    ensures within { IfOk result (λ cut. cut.1 ≤ length bytes.now) }
{
    let mut copies = Copies::own(alloc);
    let mut frames = Vec::new(alloc);
    let mut rest = bytes;
    while let Some(frame) = front(&mut copies, rest)? {
        rest = behind(&frame, rest);
        frames.push(frame)?;
    }
    Ok((frames, bytes.len() - rest.len()))
}
