//! What a stream's messages ask of the vBucket that follows.
ghost use Rattle.std.specs.Prelude.{◌≡◌, IfOk};
ghost use Rattle.{std.specs.Option.{option_map}, dcp_consumer.specs.PassiveStreams.{set_change, remove_change, flag_of, prepare_change, no_doc, commit_act, resolved_change, end_reason, called, passive_of, passive_read}};
ghost use Rattle.vb_types.specs.Levels.{level_of};
ghost use Rattle.vb_types.specs.Limits.{key_of, value_of};
ghost use Rattle.vb_calls.specs.declared.calls.VbCall.TheVariants as the_call;

use crate::Alloc;
use bytes::Bytes;
use mcbp_dcp::{DcpFault, DcpMsg, Deletion, Mutation, Prepare, Resolution};
use std::alloc::Global;
use vb_calls::VbCall;
use vb_events::EndReason;
use vb_types::{Act, Change, Doc, Key, Level, Value};

/// What a message of a stream comes to.
#[derive(Drop)]
pub enum Passive {
    /// The vBucket is to make this call.
    Call(VbCall),
    /// The stream ended, and the link with it.
    End(EndReason),
    /// No stream has such a message.
    Protocol,
}

/// The change that a mutation is, where key and value are within their limits.
fn change_of_mutation(alloc: Global, m: &Mutation) -> Alloc<Option<Change>>
    ensures { IfOk result (λ change. change ≡ set_change m.now (key_of m.now.key) (value_of m.now.value)) }
{
    let key = Key::new(alloc, m.key.as_slice())?;
    let (Some(key), Some(value)) = (key, Value::new(alloc, m.value.as_slice())?) else {
        return Ok(None);
    };
    let doc = Doc {
        value,
        cas: m.cas,
        rev: m.rev,
        flags: m.flags,
        expiry: m.expiry,
        datatype: m.datatype,
    };
    Ok(Some(Change {
        seq: m.seq,
        key,
        act: Act::Set(doc),
    }))
}

/// The change that a deletion is, where the key is within its limit.
fn change_of_deletion(alloc: Global, d: &Deletion) -> Alloc<Option<Change>>
    ensures { IfOk result (λ change. change ≡ option_map (remove_change d.now) (key_of d.now.key)) }
{
    let Some(key) = Key::new(alloc, d.key.as_slice())? else {
        return Ok(None);
    };
    let act = Act::Remove {
        cas: d.cas,
        rev: d.rev,
    };
    Ok(Some(Change {
        seq: d.seq,
        key,
        act,
    }))
}

/// The flag of a byte, if it is one.
fn flag_of(byte: u8) -> Option<bool>
    ensures { result ≡ flag_of byte }
{
    match byte {
        0 => Some(false),
        1 => Some(true),
        _ => None,
    }
}

/// The change that a prepare is, where key and value are within their limits, and level and flag are
/// such.
fn change_of_prepare(alloc: Global, p: &Prepare) -> Alloc<Option<Change>>
    ensures { IfOk result (λ change. change ≡ prepare_change p.now (key_of p.now.key) (value_of p.now.value) (level_of p.now.level) (flag_of p.now.deleted)) }
{
    let key = Key::new(alloc, p.key.as_slice())?;
    let value = Value::new(alloc, p.value.as_slice())?;
    let (level, deleted) = (Level::of(p.level), flag_of(p.deleted));
    let (Some(key), Some(value), Some(level), Some(deleted)) = (key, value, level, deleted) else {
        return Ok(None);
    };
    let doc = Doc {
        value,
        cas: p.cas,
        rev: p.rev,
        flags: p.flags,
        expiry: p.expiry,
        datatype: p.datatype,
    };
    Ok(Some(Change {
        seq: p.seq,
        key,
        act: Act::Prepare {
            level,
            doc,
            deleted,
        },
    }))
}

/// The empty document, which stands in a commit until its vBucket puts the prepare's there.
fn no_doc() -> Doc
    ensures { result ≡ no_doc }
{
    let Some(value) = Value::from_bytes(Bytes::new()) else {
        unreachable!()
    };
    Doc {
        value,
        cas: 0,
        rev: 0,
        flags: 0,
        expiry: 0,
        datatype: 0,
    }
}

/// A commit of the prepare with this seqno.
fn commit_act(prepared: u64) -> Act
    ensures { result ≡ commit_act prepared }
{
    Act::Commit {
        prepared,
        doc: no_doc(),
        deleted: false,
    }
}

/// The change that ends a durable write by this act, where the key is within its limit.
fn change_of_resolution(alloc: Global, r: &Resolution, act: Act) -> Alloc<Option<Change>>
    ensures { IfOk result (λ change. change ≡ option_map (resolved_change r.now act) (key_of r.now.key)) }
{
    let Some(key) = Key::new(alloc, r.key.as_slice())? else {
        return Ok(None);
    };
    Ok(Some(Change {
        seq: r.seq,
        key,
        act,
    }))
}

/// The call that takes a change in, or a message that makes none.
fn receive(change: Option<Change>) -> Passive
    ensures { result ≡ called (option_map the_call.Receive change) }
{
    match change {
        Some(change) => Passive::Call(VbCall::Receive { change }),
        None => Passive::Protocol,
    }
}

/// Why the link ends with its stream.
fn end_reason(why: u32) -> EndReason
    ensures { result ≡ end_reason why }
{
    if why == 0 {
        EndReason::Done
    } else {
        EndReason::State
    }
}

/// What a stream's message comes to: its end, a call, or what no stream has.
#[tactic(auto, unfolding(crate::specs::PassiveStreams::call_of_message))]
fn passive_of(alloc: Global, m: &DcpMsg) -> Alloc<Passive>
    ensures { IfOk result (λ passive. passive ≡ passive_of m.now) }
{
    match m {
        DcpMsg::SnapshotMarker { start, end, .. } => Ok(Passive::Call(VbCall::Marker {
            start: *start,
            end: *end,
        })),
        DcpMsg::Mutation { change } => Ok(receive(change_of_mutation(alloc, change)?)),
        DcpMsg::Deletion { change } => Ok(receive(change_of_deletion(alloc, change)?)),
        DcpMsg::Prepare { change } => Ok(receive(change_of_prepare(alloc, change)?)),
        DcpMsg::Commit { change } => {
            let act = commit_act(change.prepared);
            Ok(receive(change_of_resolution(alloc, change, act)?))
        }
        DcpMsg::Abort { change } => {
            let prepared = change.prepared;
            let act = Act::Abort { prepared };
            Ok(receive(change_of_resolution(alloc, change, act)?))
        }
        DcpMsg::StreamEnd { reason } => Ok(Passive::End(end_reason(*reason))),
        _ => Ok(Passive::Protocol),
    }
}

/// What was read of a frame comes to.
pub fn passive_read(alloc: Global, read: &Option<Result<DcpMsg, DcpFault>>) -> Alloc<Passive>
    ensures { IfOk result (λ passive. passive ≡ passive_read read.now) }
{
    match read {
        Some(Ok(m)) => passive_of(alloc, m),
        _ => Ok(Passive::Protocol),
    }
}
