//! What a producer's answers say.
ghost use Rattle.std.specs.Prelude.{◌≡◌, IfOk};
ghost use Rattle.{dcp_consumer.specs.Machine.{is_awaited, status_step, misread_reason, answered_with, stream_step, response_step}, mcbp_dcp.specs.Messages.{read_of}};

use crate::requests::stream_opaque;
use crate::{Alloc, ConsumerStep, Handshake};
use mcbp_dcp::{DcpFault, DcpMsg, Opcode, StreamVerdict, read_dcp};
use mcbp_frame::Frame;
use std::alloc::Global;
use vb_events::EndReason;
use vb_types::Status;

/// Whether a response is the answer that is waited for.
fn is_awaited(buffer: u32, handshake: Handshake, asked: u32, frame: &Frame) -> bool
    ensures { result ≡ is_awaited buffer handshake asked frame.now }
{
    let (opaque, opcode) = match handshake {
        Handshake::Opening => (1, Opcode::Open),
        Handshake::Buffering => (2, Opcode::Control),
        Handshake::SyncWrites => (stream_opaque(buffer) - 2, Opcode::Control),
        Handshake::Naming => (stream_opaque(buffer) - 1, Opcode::Control),
        Handshake::Asking => (asked, Opcode::StreamRequest),
        _ => return false,
    };
    frame.opaque == opaque && frame.opcode == opcode.number()
}

/// What the status of an answer to OPEN or CONTROL comes to.
fn status_step(code: u16) -> ConsumerStep
    ensures { result ≡ status_step code }
{
    if code == Status::Success.code() {
        ConsumerStep::Answered
    } else {
        ConsumerStep::Over(EndReason::Refused)
    }
}

/// Why the link ends at an answer that is not what its row is.
fn misread_reason(code: u16) -> EndReason
    ensures { result ≡ misread_reason code }
{
    if code == Status::Success.code() || code == Status::Rollback.code() {
        EndReason::Protocol
    } else {
        EndReason::Refused
    }
}

/// What was told, in what was read of an answer with this status, or why the link ends.
fn verdict_read(
    code: u16,
    read: Option<Result<DcpMsg, DcpFault>>,
) -> Result<StreamVerdict, EndReason>
    ensures { result ≡ answered_with code read }
{
    match read {
        Some(Ok(DcpMsg::StreamAnswer { told })) => Ok(told),
        other => {
            drop(other);
            Err(misread_reason(code))
        }
    }
}

/// What a request for a stream was answered with, or why the link ends.
fn answered_with(alloc: Global, frame: &Frame) -> Alloc<Result<StreamVerdict, EndReason>>
    ensures { IfOk result (λ told. told ≡ answered_with frame.now.vb_or_status (read_of frame.now)) }
{
    let read = read_dcp(alloc, frame)?;
    Ok(verdict_read(frame.vb_or_status, read))
}

/// What the answer to a request for a stream comes to.
fn stream_step(told: Result<StreamVerdict, EndReason>) -> ConsumerStep
    ensures { result ≡ stream_step told }
{
    match told {
        Ok(StreamVerdict::Go { log }) => ConsumerStep::Adopt(log),
        Ok(StreamVerdict::Roll { point }) => ConsumerStep::Roll(point),
        Ok(StreamVerdict::Refused { .. }) => ConsumerStep::Over(EndReason::Refused),
        Err(why) => ConsumerStep::Over(why),
    }
}

/// What an answer comes to; one that nothing waits for is dropped.
pub fn response_step(
    alloc: Global,
    buffer: u32,
    handshake: Handshake,
    asked: u32,
    frame: &Frame,
) -> Alloc<ConsumerStep>
    ensures { IfOk result (λ step. step ≡ response_step buffer handshake asked frame.now) }
{
    if !is_awaited(buffer, handshake, asked, frame) {
        return Ok(ConsumerStep::Dropped);
    }
    match handshake {
        Handshake::Asking => Ok(stream_step(answered_with(alloc, frame)?)),
        _ => Ok(status_step(frame.vb_or_status)),
    }
}
