//! What an operator's calls told.
ghost use Rattle.std.specs.Prelude.{◌≡◌, ◌≢◌, ◌∷◌, [], true, None, IfOk, OnErr};
ghost use Rattle.{node_core.specs.Admin.{changes_role, MadeChanges, seal_result, trim_result, stat_result, log_result, admin_replied, admin_result}, node_core.specs.Outs.{admin_out, done_out, Tells}};
ghost use Rattle.vb_events.specs.declared.event.Event.TheVariants.{Logged};

use crate::roles::{AdminResult, promoted, role_result_of};
use crate::show::show_out;
use crate::{AdminCall, Alloc, NodeOut};
use bytes::Bytes;
use std::alloc::Global;
use vb_calls::{VbAnswer, VbReply};
use vb_events::{Answer, Cause, Event};
use vb_types::{Listed, LogEntry, Role};

/// What a Seal comes to.
fn seal_out(alloc: Global, answer: &VbAnswer) -> NodeOut
    ensures { result ≡ admin_out None (seal_result answer.now) }
{
    match answer {
        VbAnswer::Flag(sealed) => NodeOut::answered(alloc, Answer::Number(u64::from(*sealed))),
        _ => NodeOut::refused(alloc, Cause::WrongRole),
    }
}

/// What a Trim comes to.
fn trim_out(alloc: Global, answer: &VbAnswer) -> NodeOut
    ensures { result ≡ admin_out None (trim_result answer.now) }
{
    match answer {
        VbAnswer::Num(removed) => NodeOut::answered(alloc, Answer::Number(*removed)),
        _ => NodeOut::refused(alloc, Cause::WrongRole),
    }
}

/// What a Stat comes to.
fn stat_out(alloc: Global, node: u8, vb: u16, answer: &VbAnswer) -> Alloc<NodeOut>
    ensures { IfOk result (λ out. out ≡ admin_out None (stat_result node vb answer.now)) }
{
    let VbAnswer::Stat {
        windows,
        items,
        cursors,
        saved,
        high,
    } = answer
    else {
        return Ok(NodeOut::refused(alloc, Cause::WrongRole));
    };
    let line = Event::Stat {
        node,
        vb,
        windows: *windows,
        items: *items,
        cursors: *cursors,
        saved: *saved,
        high: *high,
    };
    Ok(NodeOut::done(alloc, Listed::one(alloc, line)?, Bytes::new()))
}

/// The line of a failover log, handed out.
fn logged_out(alloc: Global, node: u8, vb: u16, log: Listed<LogEntry>) -> Alloc<NodeOut>
    ensures { IfOk result (λ out. out ≡ done_out (Logged node vb log ∷ []) []) }
{
    let events = Listed::one(alloc, Event::Logged { node, vb, log })?;
    Ok(NodeOut::done(alloc, events, Bytes::new()))
}

/// What a Log comes to.
fn log_out(alloc: Global, node: u8, vb: u16, reply: VbReply) -> Alloc<NodeOut>
    ensures { IfOk result (λ out. out ≡ admin_out None (log_result node vb reply.answer)) }
{
    let answer = reply.answer;
    match answer {
        VbAnswer::Logged { log } => logged_out(alloc, node, vb, log),
        other => {
            drop(other);
            Ok(NodeOut::refused(alloc, Cause::WrongRole))
        }
    }
}

/// What a call told, by the vBucket's reply. Of the calls that give a role memory may be short for those
/// alone that made changes.
fn replied(alloc: Global, node: u8, vb: u16, call: AdminCall, reply: VbReply) -> Alloc<AdminResult>
    ensures ok { IfOk result (λ told. Tells told (admin_replied node vb call reply)) }
    ensures sure { OnErr result (changes_role call ≡ true → reply.changes ≢ []) }
{
    match call {
        AdminCall::Promote(_) => promoted(alloc, node, vb, reply),
        AdminCall::Follow => Ok(role_result_of(alloc, node, vb, Role::Replica, reply)),
        AdminCall::Dead => Ok(role_result_of(alloc, node, vb, Role::Dead, reply)),
        AdminCall::Seal => {
            let out = seal_out(alloc, &reply.answer);
            drop(reply);
            Ok(AdminResult::Out(out))
        }
        AdminCall::Trim => {
            let out = trim_out(alloc, &reply.answer);
            drop(reply);
            Ok(AdminResult::Out(out))
        }
        AdminCall::Stat => {
            let out = stat_out(alloc, node, vb, &reply.answer);
            drop(reply);
            Ok(AdminResult::Out(out?))
        }
        AdminCall::Show => {
            let out = show_out(alloc, node, vb, &reply.answer);
            drop(reply);
            Ok(AdminResult::Out(out?))
        }
        AdminCall::Log => Ok(AdminResult::Out(log_out(alloc, node, vb, reply)?)),
    }
}

/// What a call told; where there is no reply, there is no such vBucket. Of the calls that give a role
/// memory may be short for those alone that made changes.
pub fn told(
    alloc: Global,
    node: u8,
    vb: u16,
    call: AdminCall,
    reply: Option<VbReply>,
) -> Alloc<AdminResult>
    ensures ok { IfOk result (λ told. Tells told (admin_result node vb call reply)) }
    ensures sure { OnErr result (changes_role call ≡ true → MadeChanges reply) }
{
    match reply {
        Some(reply) => replied(alloc, node, vb, call, reply),
        None => Ok(AdminResult::Out(NodeOut::refused(alloc, Cause::UnknownVb))),
    }
}
