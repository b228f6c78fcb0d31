//! Answers to clients, as frames.
ghost use Rattle.std.specs.Prelude.{◌≡◌, ◌++◌, IfOk, OnOk, OnErr};
ghost use Rattle.{mcbp_frame.specs.Spelling.{header_spelling, spelling}, mcbp_kv.specs.Replies.{reply_frame, reply_with, ReplyFits}};

use bytes::{Bytes, BytesMut};
use mcbp_frame::{HEADER_LEN, RESPONSE};
use std::alloc::{AllocError, Global};
use vb_types::Status;

/// An answer. It repeats the opcode and opaque of the request.
#[derive(Drop)]
pub struct KvReply {
    pub opcode: u8,
    pub status: Status,
    pub opaque: u32,
    pub cas: u64,
    pub datatype: u8,
    pub extras: Bytes,
    pub value: Bytes,
}

/// What stands in front of an answer's extras and value. It repeats the opcode and opaque of the
/// request.
#[derive(Clone, Copy)]
pub struct ReplyHead {
    pub opcode: u8,
    pub status: Status,
    pub opaque: u32,
    pub cas: u64,
    pub datatype: u8,
}

/// The header of an answer with these extras and this value.
fn header_of(h: &ReplyHead, extras: &[u8], value: &[u8]) -> [u8; HEADER_LEN]
    requires fits { ReplyFits (reply_with h.now extras.now value.now) }
    ensures { result ≡ header_spelling (reply_frame (reply_with h.now extras.now value.now)) }
{
    let [s0, s1] = h.status.code().to_be_bytes();
    let [b0, b1, b2, b3] = ((extras.len() + value.len()) as u32).to_be_bytes();
    let [o0, o1, o2, o3] = h.opaque.to_be_bytes();
    let [c0, c1, c2, c3, c4, c5, c6, c7] = h.cas.to_be_bytes();
    let extras = extras.len() as u8;
    [
        RESPONSE, h.opcode, 0, 0, extras, h.datatype, s0, s1, b0, b1, b2, b3, o0, o1, o2, o3, c0,
        c1, c2, c3, c4, c5, c6, c7,
    ]
}

/// Appends an answer with these extras and this value. An `Err` appends nothing.
pub fn write_answer(
    head: &ReplyHead,
    extras: &[u8],
    value: &[u8],
    out: &mut BytesMut,
) -> Result<(), AllocError>
    requires { ReplyFits (reply_with head.now extras.now value.now) }
    ensures ok { OnOk result (out.new.items ≡ out.old.items ++ spelling (reply_frame (reply_with head.now extras.now value.now))) }
    ensures err { OnErr result (out.new.items ≡ out.old.items) }
{
    out.reserve(HEADER_LEN + extras.len() + value.len())?;
    out.extend_reserved(&header_of(head, extras, value));
    out.extend_reserved(extras);
    out.extend_reserved(value);
    Ok(())
}

/// An answer in a list that never grows.
fn listed(
    alloc: Global,
    head: &ReplyHead,
    extras: &[u8],
    value: &[u8],
) -> Result<Vec<u8>, AllocError>
    requires { ReplyFits (reply_with head.now extras.now value.now) }
    ensures { IfOk result (λ bytes. bytes.items ≡ spelling (reply_frame (reply_with head.now extras.now value.now))) }
{
    let mut out = Vec::with_capacity(alloc, HEADER_LEN + extras.len() + value.len())?;
    out.extend_from_slice(&header_of(head, extras, value))?;
    out.extend_from_slice(extras)?;
    out.extend_from_slice(value)?;
    Ok(out)
}

/// An answer with these extras and this value as bytes of its own.
pub fn answer_bytes(
    alloc: Global,
    head: &ReplyHead,
    extras: &[u8],
    value: &[u8],
) -> Result<Bytes, AllocError>
    requires { ReplyFits (reply_with head.now extras.now value.now) }
    ensures { IfOk result (λ bytes. bytes ≡ spelling (reply_frame (reply_with head.now extras.now value.now))) }
{
    Ok(Bytes::from_vec(listed(alloc, head, extras, value)?)?)
}

/// What stands in front of an answer's extras and value.
fn head_of(r: &KvReply) -> ReplyHead
    ensures { reply_with result r.now.extras r.now.value ≡ r.now }
{
    ReplyHead {
        opcode: r.opcode,
        status: r.status,
        opaque: r.opaque,
        cas: r.cas,
        datatype: r.datatype,
    }
}

/// Appends an answer. An `Err` appends nothing.
pub fn write_reply(r: &KvReply, out: &mut BytesMut) -> Result<(), AllocError>
    requires { ReplyFits r.now }
    ensures ok { OnOk result (out.new.items ≡ out.old.items ++ spelling (reply_frame r.now)) }
    ensures err { OnErr result (out.new.items ≡ out.old.items) }
{
    write_answer(&head_of(r), r.extras.as_slice(), r.value.as_slice(), out)
}

/// An answer as bytes of its own.
pub fn reply_bytes(alloc: Global, r: &KvReply) -> Result<Bytes, AllocError>
    requires { ReplyFits r.now }
    ensures { IfOk result (λ bytes. bytes ≡ spelling (reply_frame r.now)) }
{
    answer_bytes(alloc, &head_of(r), r.extras.as_slice(), r.value.as_slice())
}
