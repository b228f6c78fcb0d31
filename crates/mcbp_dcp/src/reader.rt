//! What a frame says.
ghost use Rattle.std.specs.Prelude.{◌≡◌, length, IfOk, IsTrue};
ghost use Rattle.mcbp_dcp.specs.declared.message.DcpMsg.TheVariants as msg;
ghost use Rattle.mcbp_frame.specs.Frames.{big_32_at, big_64_at};
ghost use Rattle.{mcbp_dcp.specs.Messages.{ask_in, mutation_in, deletion_in, prepare_in, resolution_in, verdict_in, message_in, read_of}, mcbp_dcp.specs.Shapes.{extras_size, value_fits, verdict_fits}, mcbp_dcp.specs.WireLogs.{log_in}};

use crate::log::log_of;
use crate::row::{DcpRow, row_of};
use crate::shape::{ROLLBACK, SUCCESS, fault_of};
use crate::state::role_of;
use crate::{DcpFault, DcpMsg, Deletion, Mutation, Prepare, Resolution, StreamVerdict};
use byteorder::{BigEndian, ByteOrder};
use mcbp_frame::Frame;
use std::alloc::{AllocError, Global};
use vb_types::StreamAsk;

fn open_of(f: &Frame) -> Result<DcpMsg, AllocError>
    requires { length f.now.extras ≡ 8 }
    ensures { IfOk result (λ m. m ≡ msg.Open (big_32_at f.now.extras 0) (big_32_at f.now.extras 4) f.now.key) }
{
    let extras = f.extras.as_slice();
    Ok(DcpMsg::Open {
        seqno: BigEndian::read_u32(&extras[0..4]),
        flags: BigEndian::read_u32(&extras[4..8]),
        name: f.key.clone()?,
    })
}

fn control_of(f: &Frame) -> Result<DcpMsg, AllocError>
    ensures { IfOk result (λ m. m ≡ msg.Control f.now.key f.now.value) }
{
    let key = f.key.clone()?;
    let value = f.value.clone()?;
    Ok(DcpMsg::Control { key, value })
}

/// The request for a stream in these extras, whose reserved field is ignored.
fn ask_of(extras: &[u8]) -> StreamAsk
    requires { length extras.now ≡ 48 }
    ensures { result ≡ ask_in extras.now }
{
    StreamAsk {
        flags: BigEndian::read_u32(&extras[0..4]),
        start: BigEndian::read_u64(&extras[8..16]),
        end: BigEndian::read_u64(&extras[16..24]),
        uuid: BigEndian::read_u64(&extras[24..32]),
        ss: BigEndian::read_u64(&extras[32..40]),
        se: BigEndian::read_u64(&extras[40..48]),
    }
}

fn marker_of(extras: &[u8]) -> DcpMsg
    requires { length extras.now ≡ 20 }
    ensures { result ≡ msg.SnapshotMarker (big_64_at extras.now 0) (big_64_at extras.now 8) (big_32_at extras.now 16) }
{
    DcpMsg::SnapshotMarker {
        start: BigEndian::read_u64(&extras[0..8]),
        end: BigEndian::read_u64(&extras[8..16]),
        flags: BigEndian::read_u32(&extras[16..20]),
    }
}

/// A mutation. Lock time and nru are ignored.
fn mutation_of(f: &Frame) -> Result<DcpMsg, AllocError>
    requires { length f.now.extras ≡ 31 }
    ensures { IfOk result (λ m. m ≡ msg.Mutation (mutation_in f.now)) }
{
    let extras = f.extras.as_slice();
    let change = Mutation {
        seq: BigEndian::read_u64(&extras[0..8]),
        rev: BigEndian::read_u64(&extras[8..16]),
        cas: f.cas,
        flags: BigEndian::read_u32(&extras[16..20]),
        expiry: BigEndian::read_u32(&extras[20..24]),
        datatype: f.datatype,
        key: f.key.clone()?,
        value: f.value.clone()?,
    };
    Ok(DcpMsg::Mutation { change })
}

fn deletion_of(f: &Frame) -> Result<DcpMsg, AllocError>
    requires { length f.now.extras ≡ 18 }
    ensures { IfOk result (λ m. m ≡ msg.Deletion (deletion_in f.now)) }
{
    let extras = f.extras.as_slice();
    let change = Deletion {
        seq: BigEndian::read_u64(&extras[0..8]),
        rev: BigEndian::read_u64(&extras[8..16]),
        cas: f.cas,
        key: f.key.clone()?,
    };
    Ok(DcpMsg::Deletion { change })
}

/// A prepare. Lock time and nru are ignored.
fn prepare_of(f: &Frame) -> Result<DcpMsg, AllocError>
    requires { length f.now.extras ≡ 31 }
    ensures { IfOk result (λ m. m ≡ msg.Prepare (prepare_in f.now)) }
{
    let extras = f.extras.as_slice();
    let change = Prepare {
        seq: BigEndian::read_u64(&extras[0..8]),
        rev: BigEndian::read_u64(&extras[8..16]),
        cas: f.cas,
        flags: BigEndian::read_u32(&extras[16..20]),
        expiry: BigEndian::read_u32(&extras[20..24]),
        datatype: f.datatype,
        deleted: extras[29],
        level: extras[30],
        key: f.key.clone()?,
        value: f.value.clone()?,
    };
    Ok(DcpMsg::Prepare { change })
}

fn resolution_of(f: &Frame) -> Result<Resolution, AllocError>
    requires { length f.now.extras ≡ 16 }
    ensures { IfOk result (λ change. change ≡ resolution_in f.now) }
{
    let extras = f.extras.as_slice();
    Ok(Resolution {
        prepared: BigEndian::read_u64(&extras[0..8]),
        seq: BigEndian::read_u64(&extras[8..16]),
        key: f.key.clone()?,
    })
}

fn commit_of(f: &Frame) -> Result<DcpMsg, AllocError>
    requires { length f.now.extras ≡ 16 }
    ensures { IfOk result (λ m. m ≡ msg.Commit (resolution_in f.now)) }
{
    let change = resolution_of(f)?;
    Ok(DcpMsg::Commit { change })
}

fn abort_of(f: &Frame) -> Result<DcpMsg, AllocError>
    requires { length f.now.extras ≡ 16 }
    ensures { IfOk result (λ m. m ≡ msg.Abort (resolution_in f.now)) }
{
    let change = resolution_of(f)?;
    Ok(DcpMsg::Abort { change })
}

fn verdict_of(alloc: Global, status: u16, value: &[u8]) -> Result<StreamVerdict, AllocError>
    requires { IsTrue (verdict_fits status (length value.now)) }
    ensures { IfOk result (λ told. told ≡ verdict_in status value.now) }
{
    match status {
        SUCCESS => Ok(StreamVerdict::Go {
            log: log_of(alloc, value)?,
        }),
        ROLLBACK => Ok(StreamVerdict::Roll {
            point: BigEndian::read_u64(&value[0..8]),
        }),
        _ => Ok(StreamVerdict::Refused { status }),
    }
}

fn answer_of(alloc: Global, status: u16, value: &[u8]) -> Result<DcpMsg, AllocError>
    requires { IsTrue (verdict_fits status (length value.now)) }
    ensures { IfOk result (λ m. m ≡ msg.StreamAnswer (verdict_in status value.now)) }
{
    let told = verdict_of(alloc, status, value)?;
    Ok(DcpMsg::StreamAnswer { told })
}

fn log_answer_of(alloc: Global, status: u16, value: &[u8]) -> Result<DcpMsg, AllocError>
    ensures { IfOk result (λ m. m ≡ msg.LogAnswer status (log_in value.now)) }
{
    let log = log_of(alloc, value)?;
    Ok(DcpMsg::LogAnswer { status, log })
}

/// The message of a frame that has the row's extras and value.
fn message_of(alloc: Global, f: &Frame, row: DcpRow) -> Result<DcpMsg, AllocError>
    requires extras { length f.now.extras ≡ extras_size row }
    requires value { IsTrue (value_fits row f.now) }
    ensures { IfOk result (λ m. m ≡ message_in row f.now) }
{
    let (extras, status) = (f.extras.as_slice(), f.vb_or_status);
    match row {
        DcpRow::Open => open_of(f),
        DcpRow::Control => control_of(f),
        DcpRow::StreamRequest => Ok(DcpMsg::StreamRequest {
            ask: ask_of(extras),
        }),
        DcpRow::StreamEnd => Ok(DcpMsg::StreamEnd {
            reason: BigEndian::read_u32(&extras[0..4]),
        }),
        DcpRow::SnapshotMarker => Ok(marker_of(extras)),
        DcpRow::Mutation => mutation_of(f),
        DcpRow::Deletion => deletion_of(f),
        DcpRow::Prepare => prepare_of(f),
        DcpRow::Commit => commit_of(f),
        DcpRow::Abort => abort_of(f),
        DcpRow::SeqnoAcknowledged => Ok(DcpMsg::SeqnoAcknowledged {
            seq: BigEndian::read_u64(&extras[0..8]),
        }),
        DcpRow::CloseStream => Ok(DcpMsg::CloseStream),
        DcpRow::GetFailoverLog => Ok(DcpMsg::GetFailoverLog),
        DcpRow::Noop => Ok(DcpMsg::Noop),
        DcpRow::BufferAcknowledgement => Ok(DcpMsg::BufferAcknowledgement {
            bytes: BigEndian::read_u32(&extras[0..4]),
        }),
        DcpRow::SetVbucketState => Ok(DcpMsg::SetVbucketState {
            role: role_of(extras[0]),
        }),
        DcpRow::OpenAnswer => Ok(DcpMsg::OpenAnswer { status }),
        DcpRow::ControlAnswer => Ok(DcpMsg::ControlAnswer { status }),
        DcpRow::StreamAnswer => answer_of(alloc, status, f.value.as_slice()),
        DcpRow::CloseAnswer => Ok(DcpMsg::CloseAnswer { status }),
        DcpRow::NoopAnswer => Ok(DcpMsg::NoopAnswer { status }),
        DcpRow::LogAnswer => log_answer_of(alloc, status, f.value.as_slice()),
        DcpRow::StateAnswer => Ok(DcpMsg::StateAnswer { status }),
    }
}

/// The message of a frame that has a row, or which of its parts is not its row's: the first of
/// extras, key and value. A framing part that is not empty, metadata, and a byte that is no role's are
/// wrong extras. Lock time, nru, a reserved field and the header's fields that the row does not use are ignored.
#[tactic(auto, unfolding(crate::specs::Messages::read_of))]
pub fn read_dcp(alloc: Global, f: &Frame) -> Result<Option<Result<DcpMsg, DcpFault>>, AllocError>
    ensures { IfOk result (λ read. read ≡ read_of f.now) }
{
    let Some(row) = row_of(f) else {
        return Ok(None);
    };
    match fault_of(f, row) {
        Some(fault) => Ok(Some(Err(fault))),
        None => Ok(Some(Ok(message_of(alloc, f, row)?))),
    }
}
