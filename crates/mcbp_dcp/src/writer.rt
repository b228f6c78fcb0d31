//! The one frame of a message, as bytes.
ghost use Rattle.std.specs.Prelude.{◌≡◌, ◌+◌, ◌*◌, ◌^◌, ◌<◌, ◌≤◌, ◌++◌, ◌∷◌, [], length, OnOk, OnErr};
ghost use Rattle.std.specs.Int.{w32, w64, to_be_bytes};
ghost use Rattle.mcbp_dcp.specs.DcpFrames.{bare_frame, frame_of_row, header_bytes, request_frame, mutation_frame, deletion_frame, prepare_frame, resolution_frame, verdict_frame, log_frame, dcp_frame, IsVerdict, IsSpelled};
ghost use Rattle.mcbp_dcp.specs.DcpFrames.{open_extras, marker_extras};
ghost use Rattle.mcbp_dcp.specs.States.{role_byte};
ghost use Rattle.mcbp_dcp.specs.declared.message.DcpMsg.TheVariants as msg;
ghost use Rattle.mcbp_dcp.specs.declared.row.DcpRow.TheVariants as row;
ghost use Rattle.mcbp_dcp.specs.declared.shape.TheConstants.{ENTRY_LEN};
ghost use Rattle.mcbp_frame.specs.declared.frame.TheConstants.{REQUEST, RESPONSE};
ghost use Rattle.mcbp_frame.specs.Spelling.{spelling};

use crate::log::log_bytes;
use crate::shape::{ROLLBACK, SUCCESS};
use crate::state::byte_of;
use crate::{DcpMsg, Deletion, Mutation, Opcode, Prepare, Resolution, StreamVerdict};
use bytes::{Bytes, BytesMut};
use mcbp_frame::{HEADER_LEN, REQUEST, RESPONSE};
use std::alloc::AllocError;
use vb_types::{LogEntry, Role, StreamAsk};

/// What stands beside a message in its frame.
#[derive(Clone, Copy)]
struct Label {
    opaque: u32,
    v: u16,
}

/// What the header of a frame without framing extras says. `extras`, `key` and `value` are lengths.
#[derive(Clone, Copy)]
pub struct Header {
    magic: u8,
    opcode: Opcode,
    datatype: u8,
    vb_or_status: u16,
    opaque: u32,
    cas: u64,
    extras: usize,
    key: usize,
    value: usize,
}

/// The header of a request without datatype, CAS and body.
fn request(opcode: Opcode, label: Label) -> Header
    ensures { result ≡ record { magic = REQUEST; opcode = opcode; datatype = 0; vb_or_status = label.v; opaque = label.opaque; cas = 0; extras = 0; key = 0; value = 0 } }
{
    Header {
        magic: REQUEST,
        opcode,
        datatype: 0,
        vb_or_status: label.v,
        opaque: label.opaque,
        cas: 0,
        extras: 0,
        key: 0,
        value: 0,
    }
}

/// Makes room for a frame, and appends its header. An `Err` appends nothing.
fn put_header(h: Header, out: &mut BytesMut) -> Result<(), AllocError>
    requires extras { h.extras < 2 ^ 8 }
    requires key { h.key < 2 ^ 16 }
    requires body { h.extras + h.key + h.value < 2 ^ 32 }
    ensures ok { OnOk result (out.new.items ≡ out.old.items ++ header_bytes h) }
    ensures room { OnOk result (h.extras + h.key + h.value ≤ out.new.spare) }
    ensures err { OnErr result (out.new.items ≡ out.old.items) }
{
    let body = h.extras + h.key + h.value;
    out.reserve(HEADER_LEN + body)?;
    out.extend_reserved(&[h.magic, h.opcode.number()]);
    out.extend_reserved(&(h.key as u16).to_be_bytes());
    out.extend_reserved(&[h.extras as u8, h.datatype]);
    out.extend_reserved(&h.vb_or_status.to_be_bytes());
    out.extend_reserved(&(body as u32).to_be_bytes());
    out.extend_reserved(&h.opaque.to_be_bytes());
    out.extend_reserved(&h.cas.to_be_bytes());
    Ok(())
}

/// Appends numbers, for which there is room, one behind another, each in big-endian order.
macro_rules! put_numbers {
    ($out:expr; $($number:expr),+) => {
        $($out.extend_reserved(&$number.to_be_bytes());)+
    };
}

/// A request without a body.
#[tactic(auto, unfolding(mcbp_frame::specs::Spelling::spelling))]
fn write_bare(opcode: Opcode, label: Label, out: &mut BytesMut) -> Result<(), AllocError>
    ensures ok { OnOk result (out.new.items ≡ out.old.items ++ spelling (bare_frame REQUEST opcode label.v label.opaque)) }
    ensures err { OnErr result (out.new.items ≡ out.old.items) }
{
    put_header(request(opcode, label), out)
}

/// A request with a number alone.
#[tactic(auto, unfolding(mcbp_frame::specs::Spelling::spelling))]
fn write_number(
    opcode: Opcode,
    number: u32,
    label: Label,
    out: &mut BytesMut,
) -> Result<(), AllocError>
    ensures ok { OnOk result (out.new.items ≡ out.old.items ++ spelling (record (bare_frame REQUEST opcode label.v label.opaque) { extras = to_be_bytes w32 number })) }
    ensures err { OnErr result (out.new.items ≡ out.old.items) }
{
    let header = Header {
        extras: 4,
        ..request(opcode, label)
    };
    put_header(header, out)?;
    put_numbers!(out; number);
    Ok(())
}

#[tactic(auto, unfolding(mcbp_frame::specs::Spelling::spelling))]
fn write_open(
    seqno: u32,
    flags: u32,
    name: &Bytes,
    label: Label,
    out: &mut BytesMut,
) -> Result<(), AllocError>
    requires { length name.now < 2 ^ 16 }
    ensures ok { OnOk result (out.new.items ≡ out.old.items ++ spelling (frame_of_row row.Open label.v label.opaque (open_extras seqno flags) name.now [])) }
    ensures err { OnErr result (out.new.items ≡ out.old.items) }
{
    let header = Header {
        extras: 8,
        key: name.len(),
        ..request(Opcode::Open, label)
    };
    put_header(header, out)?;
    put_numbers!(out; seqno, flags);
    out.extend_reserved(name.as_slice());
    Ok(())
}

#[tactic(auto, unfolding(mcbp_frame::specs::Spelling::spelling))]
fn write_control(
    key: &Bytes,
    value: &Bytes,
    label: Label,
    out: &mut BytesMut,
) -> Result<(), AllocError>
    requires key { length key.now < 2 ^ 16 }
    requires body { length key.now + length value.now < 2 ^ 32 }
    ensures ok { OnOk result (out.new.items ≡ out.old.items ++ spelling (frame_of_row row.Control label.v label.opaque [] key.now value.now)) }
    ensures err { OnErr result (out.new.items ≡ out.old.items) }
{
    let header = Header {
        key: key.len(),
        value: value.len(),
        ..request(Opcode::Control, label)
    };
    put_header(header, out)?;
    out.extend_reserved(key.as_slice());
    out.extend_reserved(value.as_slice());
    Ok(())
}

/// A request for a stream. The reserved field is written as 0.
#[tactic(auto, unfolding(mcbp_frame::specs::Spelling::spelling))]
fn write_request(ask: &StreamAsk, label: Label, out: &mut BytesMut) -> Result<(), AllocError>
    ensures ok { OnOk result (out.new.items ≡ out.old.items ++ spelling (request_frame ask.now label.opaque label.v)) }
    ensures err { OnErr result (out.new.items ≡ out.old.items) }
{
    let header = Header {
        extras: 48,
        ..request(Opcode::StreamRequest, label)
    };
    put_header(header, out)?;
    put_numbers!(out; ask.flags, 0u32, ask.start, ask.end, ask.uuid, ask.ss, ask.se);
    Ok(())
}

#[tactic(auto, unfolding(mcbp_frame::specs::Spelling::spelling))]
fn write_marker(
    start: u64,
    end: u64,
    flags: u32,
    label: Label,
    out: &mut BytesMut,
) -> Result<(), AllocError>
    ensures ok { OnOk result (out.new.items ≡ out.old.items ++ spelling (frame_of_row row.SnapshotMarker label.v label.opaque (marker_extras start end flags) [] [])) }
    ensures err { OnErr result (out.new.items ≡ out.old.items) }
{
    let header = Header {
        extras: 20,
        ..request(Opcode::SnapshotMarker, label)
    };
    put_header(header, out)?;
    put_numbers!(out; start, end, flags);
    Ok(())
}

/// A mutation. Lock time, the length of metadata and nru are written as 0.
#[tactic(auto, unfolding(mcbp_frame::specs::Spelling::spelling))]
fn write_mutation(change: &Mutation, label: Label, out: &mut BytesMut) -> Result<(), AllocError>
    requires { IsSpelled (msg.Mutation change.now) }
    ensures ok { OnOk result (out.new.items ≡ out.old.items ++ spelling (mutation_frame change.now label.opaque label.v)) }
    ensures err { OnErr result (out.new.items ≡ out.old.items) }
{
    let header = Header {
        datatype: change.datatype,
        cas: change.cas,
        extras: 31,
        key: change.key.len(),
        value: change.value.len(),
        ..request(Opcode::Mutation, label)
    };
    put_header(header, out)?;
    put_numbers!(out; change.seq, change.rev, change.flags, change.expiry, 0u32, 0u16, 0u8);
    out.extend_reserved(change.key.as_slice());
    out.extend_reserved(change.value.as_slice());
    Ok(())
}

/// A deletion. The length of metadata is written as 0.
#[tactic(auto, unfolding(mcbp_frame::specs::Spelling::spelling))]
fn write_deletion(removal: &Deletion, label: Label, out: &mut BytesMut) -> Result<(), AllocError>
    requires { IsSpelled (msg.Deletion removal.now) }
    ensures ok { OnOk result (out.new.items ≡ out.old.items ++ spelling (deletion_frame removal.now label.opaque label.v)) }
    ensures err { OnErr result (out.new.items ≡ out.old.items) }
{
    let header = Header {
        cas: removal.cas,
        extras: 18,
        key: removal.key.len(),
        ..request(Opcode::Deletion, label)
    };
    put_header(header, out)?;
    put_numbers!(out; removal.seq, removal.rev, 0u16);
    out.extend_reserved(removal.key.as_slice());
    Ok(())
}

/// A prepare. Lock time and nru are written as 0.
#[tactic(auto, unfolding(mcbp_frame::specs::Spelling::spelling))]
fn write_prepare(change: &Prepare, label: Label, out: &mut BytesMut) -> Result<(), AllocError>
    requires { IsSpelled (msg.Prepare change.now) }
    ensures ok { OnOk result (out.new.items ≡ out.old.items ++ spelling (prepare_frame change.now label.opaque label.v)) }
    ensures err { OnErr result (out.new.items ≡ out.old.items) }
{
    let header = Header {
        datatype: change.datatype,
        cas: change.cas,
        extras: 31,
        key: change.key.len(),
        value: change.value.len(),
        ..request(Opcode::Prepare, label)
    };
    put_header(header, out)?;
    put_numbers!(out; change.seq, change.rev, change.flags, change.expiry, 0u32);
    out.extend_reserved(&[0, change.deleted, change.level]);
    out.extend_reserved(change.key.as_slice());
    out.extend_reserved(change.value.as_slice());
    Ok(())
}

/// A commit or an abort, by its opcode.
#[tactic(auto, unfolding(mcbp_frame::specs::Spelling::spelling))]
fn write_resolution(
    opcode: Opcode,
    change: &Resolution,
    label: Label,
    out: &mut BytesMut,
) -> Result<(), AllocError>
    requires { length change.now.key < 2 ^ 16 }
    ensures ok { OnOk result (out.new.items ≡ out.old.items ++ spelling (resolution_frame opcode change.now label.opaque label.v)) }
    ensures err { OnErr result (out.new.items ≡ out.old.items) }
{
    let header = Header {
        extras: 16,
        key: change.key.len(),
        ..request(opcode, label)
    };
    put_header(header, out)?;
    put_numbers!(out; change.prepared, change.seq);
    out.extend_reserved(change.key.as_slice());
    Ok(())
}

#[tactic(auto, unfolding(mcbp_frame::specs::Spelling::spelling))]
fn write_acknowledged(seq: u64, label: Label, out: &mut BytesMut) -> Result<(), AllocError>
    ensures ok { OnOk result (out.new.items ≡ out.old.items ++ spelling (frame_of_row row.SeqnoAcknowledged label.v label.opaque (to_be_bytes w64 seq) [] [])) }
    ensures err { OnErr result (out.new.items ≡ out.old.items) }
{
    let header = Header {
        extras: 8,
        ..request(Opcode::SeqnoAcknowledged, label)
    };
    put_header(header, out)?;
    put_numbers!(out; seq);
    Ok(())
}

#[tactic(auto, unfolding(mcbp_frame::specs::Spelling::spelling))]
fn write_state(role: Role, label: Label, out: &mut BytesMut) -> Result<(), AllocError>
    ensures ok { OnOk result (out.new.items ≡ out.old.items ++ spelling (frame_of_row row.SetVbucketState label.v label.opaque (role_byte role ∷ []) [] [])) }
    ensures err { OnErr result (out.new.items ≡ out.old.items) }
{
    let header = Header {
        extras: 1,
        ..request(Opcode::SetVbucketState, label)
    };
    put_header(header, out)?;
    out.extend_reserved(&[byte_of(role)]);
    Ok(())
}

/// An answer: its status, and a value.
#[tactic(auto, unfolding(mcbp_frame::specs::Spelling::spelling))]
fn write_answer(
    opcode: Opcode,
    status: u16,
    opaque: u32,
    value: &[u8],
    out: &mut BytesMut,
) -> Result<(), AllocError>
    requires { length value.now < 2 ^ 32 }
    ensures ok { OnOk result (out.new.items ≡ out.old.items ++ spelling (record (bare_frame RESPONSE opcode status opaque) { value = value.now })) }
    ensures err { OnErr result (out.new.items ≡ out.old.items) }
{
    let label = Label { opaque, v: status };
    let header = Header {
        magic: RESPONSE,
        value: value.len(),
        ..request(opcode, label)
    };
    put_header(header, out)?;
    out.extend_reserved(value);
    Ok(())
}

fn write_verdict(told: &StreamVerdict, opaque: u32, out: &mut BytesMut) -> Result<(), AllocError>
    requires { IsVerdict told.now }
    ensures ok { OnOk result (out.new.items ≡ out.old.items ++ spelling (verdict_frame told.now opaque)) }
    ensures err { OnErr result (out.new.items ≡ out.old.items) }
{
    match told {
        StreamVerdict::Go { log } => {
            let value = log_bytes(*out.allocator(), log.as_slice())?;
            write_answer(
                Opcode::StreamRequest,
                SUCCESS,
                opaque,
                value.as_slice(),
                out,
            )
        }
        StreamVerdict::Roll { point } => {
            let point = point.to_be_bytes();
            write_answer(Opcode::StreamRequest, ROLLBACK, opaque, &point, out)
        }
        StreamVerdict::Refused { status } => {
            write_answer(Opcode::StreamRequest, *status, opaque, &[], out)
        }
    }
}

fn write_log(
    status: u16,
    log: &[LogEntry],
    opaque: u32,
    out: &mut BytesMut,
) -> Result<(), AllocError>
    requires { ENTRY_LEN * length log.now < 2 ^ 32 }
    ensures ok { OnOk result (out.new.items ≡ out.old.items ++ spelling (log_frame status log.now opaque)) }
    ensures err { OnErr result (out.new.items ≡ out.old.items) }
{
    let value = log_bytes(*out.allocator(), log)?;
    write_answer(
        Opcode::GetFailoverLog,
        status,
        opaque,
        value.as_slice(),
        out,
    )
}

/// Appends a message with an opaque and a vBucket, or an answer with an opaque. An `Err` appends
/// nothing.
#[tactic(auto, unfolding(crate::specs::DcpFrames::dcp_frame))]
pub fn write_dcp(m: &DcpMsg, opaque: u32, v: u16, out: &mut BytesMut) -> Result<(), AllocError>
    requires { IsSpelled m.now }
    ensures ok { OnOk result (out.new.items ≡ out.old.items ++ spelling (dcp_frame m.now opaque v)) }
    ensures err { OnErr result (out.new.items ≡ out.old.items) }
{
    let label = Label { opaque, v };
    match m {
        DcpMsg::Open { seqno, flags, name } => write_open(*seqno, *flags, name, label, out),
        DcpMsg::Control { key, value } => write_control(key, value, label, out),
        DcpMsg::StreamRequest { ask } => write_request(ask, label, out),
        DcpMsg::StreamEnd { reason } => write_number(Opcode::StreamEnd, *reason, label, out),
        DcpMsg::SnapshotMarker { start, end, flags } => {
            write_marker(*start, *end, *flags, label, out)
        }
        DcpMsg::Mutation { change } => write_mutation(change, label, out),
        DcpMsg::Deletion { change } => write_deletion(change, label, out),
        DcpMsg::Prepare { change } => write_prepare(change, label, out),
        DcpMsg::Commit { change } => write_resolution(Opcode::Commit, change, label, out),
        DcpMsg::Abort { change } => write_resolution(Opcode::Abort, change, label, out),
        DcpMsg::SeqnoAcknowledged { seq } => write_acknowledged(*seq, label, out),
        DcpMsg::CloseStream => write_bare(Opcode::CloseStream, label, out),
        DcpMsg::GetFailoverLog => write_bare(Opcode::GetFailoverLog, label, out),
        DcpMsg::Noop => write_bare(Opcode::Noop, label, out),
        DcpMsg::BufferAcknowledgement { bytes } => {
            write_number(Opcode::BufferAcknowledgement, *bytes, label, out)
        }
        DcpMsg::SetVbucketState { role } => write_state(*role, label, out),
        DcpMsg::OpenAnswer { status } => write_answer(Opcode::Open, *status, opaque, &[], out),
        DcpMsg::ControlAnswer { status } => {
            write_answer(Opcode::Control, *status, opaque, &[], out)
        }
        DcpMsg::StreamAnswer { told } => write_verdict(told, opaque, out),
        DcpMsg::CloseAnswer { status } => {
            write_answer(Opcode::CloseStream, *status, opaque, &[], out)
        }
        DcpMsg::NoopAnswer { status } => write_answer(Opcode::Noop, *status, opaque, &[], out),
        DcpMsg::LogAnswer { status, log } => write_log(*status, log.as_slice(), opaque, out),
        DcpMsg::StateAnswer { status } => {
            write_answer(Opcode::SetVbucketState, *status, opaque, &[], out)
        }
    }
}
