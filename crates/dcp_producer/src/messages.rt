//! The messages of changes, as a stream puts them.
ghost use Rattle.std.specs.Prelude.{◌≡◌, ◌<◌, ◌^◌, length, IfOk};
ghost use Rattle.{dcp_producer.specs.Frames.{mutation_message, deletion_message, prepare_message, resolution_of, act_message}, mcbp_dcp.specs.DcpFrames.{IsSpelled}};

use crate::Alloc;
use bytes::Bytes;
use mcbp_dcp::{DcpMsg, Deletion, Mutation, Prepare, Resolution};
use std::alloc::Global;
use vb_types::{Act, Change, Doc, Level};

/// The message of a document that is stored.
fn mutation_of(alloc: Global, change: &Change, doc: &Doc) -> Alloc<DcpMsg>
    ensures message { IfOk result (λ message. message ≡ mutation_message change.now doc.now) }
    ensures spelled { IfOk result IsSpelled }
{
    let change = Mutation {
        seq: change.seq,
        rev: doc.rev,
        cas: doc.cas,
        flags: doc.flags,
        expiry: doc.expiry,
        datatype: doc.datatype,
        key: Bytes::copy_from_slice(alloc, change.key.as_slice())?,
        value: Bytes::copy_from_slice(alloc, doc.value.as_slice())?,
    };
    Ok(DcpMsg::Mutation { change })
}

/// The message of a removal, with its own CAS and revision.
fn deletion_of(alloc: Global, change: &Change, cas: u64, rev: u64) -> Alloc<DcpMsg>
    ensures message { IfOk result (λ message. message ≡ deletion_message change.now cas rev) }
    ensures spelled { IfOk result IsSpelled }
{
    let change = Deletion {
        seq: change.seq,
        rev,
        cas,
        key: Bytes::copy_from_slice(alloc, change.key.as_slice())?,
    };
    Ok(DcpMsg::Deletion { change })
}

/// The message of a prepare. One of a removal is sent without a value.
fn prepare_of(
    alloc: Global,
    change: &Change,
    level: Level,
    doc: &Doc,
    deleted: bool,
) -> Alloc<DcpMsg>
    ensures message { IfOk result (λ message. message ≡ prepare_message change.now level doc.now deleted) }
    ensures spelled { IfOk result IsSpelled }
{
    let value = if deleted {
        b"".as_slice()
    } else {
        doc.value.as_slice()
    };
    let change = Prepare {
        seq: change.seq,
        rev: doc.rev,
        cas: doc.cas,
        flags: doc.flags,
        expiry: doc.expiry,
        datatype: doc.datatype,
        deleted: u8::from(deleted),
        level: level.number(),
        key: Bytes::copy_from_slice(alloc, change.key.as_slice())?,
        value: Bytes::copy_from_slice(alloc, value)?,
    };
    Ok(DcpMsg::Prepare { change })
}

/// The end of the durable write that the prepare of this seqno announced.
fn resolution_of(alloc: Global, change: &Change, prepared: u64) -> Alloc<Resolution>
    ensures message { IfOk result (λ message. message ≡ resolution_of change.now prepared) }
    ensures short { IfOk result (λ message. length message.key < 2 ^ 16) }
{
    Ok(Resolution {
        prepared,
        seq: change.seq,
        key: Bytes::copy_from_slice(alloc, change.key.as_slice())?,
    })
}

/// The message of a change.
pub fn message_of(alloc: Global, change: &Change) -> Alloc<DcpMsg>
    ensures message { IfOk result (λ message. message ≡ act_message change.now change.now.act) }
    ensures spelled { IfOk result IsSpelled }
{
    match &change.act {
        Act::Set(doc) => mutation_of(alloc, change, doc),
        Act::Remove { cas, rev } => deletion_of(alloc, change, *cas, *rev),
        Act::Prepare {
            level,
            doc,
            deleted,
        } => prepare_of(alloc, change, *level, doc, *deleted),
        Act::Commit { prepared, .. } => {
            let change = resolution_of(alloc, change, *prepared)?;
            Ok(DcpMsg::Commit { change })
        }
        Act::Abort { prepared } => {
            let change = resolution_of(alloc, change, *prepared)?;
            Ok(DcpMsg::Abort { change })
        }
    }
}
