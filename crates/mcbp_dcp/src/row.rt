//! The rows of the table of DCP messages.
ghost use Rattle.std.specs.Prelude.{◌≡◌, ◌==◌};
ghost use Rattle.{std.specs.List.{list_any}, mcbp_dcp.specs.Rows.{dcp_opcodes, frame_row}};

use crate::opcode::Opcode;
use mcbp_frame::{Frame, RESPONSE};

/// What a frame is in DCP: a message, or the answer to one.
#[derive(Clone, Copy)]
pub enum DcpRow {
    Open,
    Control,
    StreamRequest,
    StreamEnd,
    SnapshotMarker,
    Mutation,
    Deletion,
    Prepare,
    Commit,
    Abort,
    SeqnoAcknowledged,
    CloseStream,
    GetFailoverLog,
    Noop,
    BufferAcknowledgement,
    SetVbucketState,
    OpenAnswer,
    ControlAnswer,
    StreamAnswer,
    CloseAnswer,
    NoopAnswer,
    LogAnswer,
    StateAnswer,
}

/// Whether DCP has a message with this opcode.
pub fn is_dcp(opcode: u8) -> bool
    ensures { result ≡ list_any (λ o. o == opcode) dcp_opcodes }
{
    Opcode::of(opcode).is_some()
}

/// The row of a frame, by its opcode and by whether it is an answer.
#[tactic(auto, unfolding(crate::specs::Rows::frame_row))]
pub fn row_of(f: &Frame) -> Option<DcpRow>
    ensures { result ≡ frame_row f.now }
{
    match (Opcode::of(f.opcode)?, f.magic == RESPONSE) {
        (Opcode::Open, false) => Some(DcpRow::Open),
        (Opcode::Open, true) => Some(DcpRow::OpenAnswer),
        (Opcode::StreamRequest, false) => Some(DcpRow::StreamRequest),
        (Opcode::StreamRequest, true) => Some(DcpRow::StreamAnswer),
        (Opcode::StreamEnd, false) => Some(DcpRow::StreamEnd),
        (Opcode::SnapshotMarker, false) => Some(DcpRow::SnapshotMarker),
        (Opcode::Mutation, false) => Some(DcpRow::Mutation),
        (Opcode::Deletion, false) => Some(DcpRow::Deletion),
        (Opcode::Prepare, false) => Some(DcpRow::Prepare),
        (Opcode::Commit, false) => Some(DcpRow::Commit),
        (Opcode::Abort, false) => Some(DcpRow::Abort),
        (Opcode::SeqnoAcknowledged, false) => Some(DcpRow::SeqnoAcknowledged),
        (Opcode::Control, false) => Some(DcpRow::Control),
        (Opcode::Control, true) => Some(DcpRow::ControlAnswer),
        (Opcode::CloseStream, false) => Some(DcpRow::CloseStream),
        (Opcode::CloseStream, true) => Some(DcpRow::CloseAnswer),
        (Opcode::GetFailoverLog, false) => Some(DcpRow::GetFailoverLog),
        (Opcode::GetFailoverLog, true) => Some(DcpRow::LogAnswer),
        (Opcode::Noop, false) => Some(DcpRow::Noop),
        (Opcode::Noop, true) => Some(DcpRow::NoopAnswer),
        (Opcode::BufferAcknowledgement, false) => Some(DcpRow::BufferAcknowledgement),
        (Opcode::SetVbucketState, false) => Some(DcpRow::SetVbucketState),
        (Opcode::SetVbucketState, true) => Some(DcpRow::StateAnswer),
        _ => None,
    }
}
