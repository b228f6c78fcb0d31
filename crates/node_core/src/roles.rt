//! Changes of role.
ghost use Rattle.std.specs.Prelude.{◌≡◌, ◌≢◌, ◌++◌, ◌∷◌, ◌+◌, ◌≤◌, [], IfOk, OnErr, vec_len, vec_capacity};
ghost use Rattle.{node_core.specs.Admin.{promote_result, role_changed, role_result, role_lines, option_list}, node_core.specs.Calls.{own_lines}, node_core.specs.Loading.{branch_in}, node_core.specs.Outs.{Tells}};
ghost use Rattle.{vb_events.specs.declared.event.Event.TheVariants.{Role as RoleLine}, vb_types.specs.declared.role.Role.TheVariants.{Active}};

use crate::changes::tell_changes;
use crate::{Alloc, NodeOut};
use std::alloc::Global;
use vb_calls::{Resolved, VbAnswer, VbReply};
use vb_events::{Cause, Event};
use vb_types::{Listed, Role, Status};

/// The lines of a change of role: that of the branch, where one was made, the role's, and those of
/// the changes that the vBucket made at once.
#[derive(Drop)]
pub struct RoleLines {
    pub branch: Option<Event>,
    pub role: Event,
    pub changes: Vec<Event>,
}

/// What an operator's call told.
#[derive(Drop)]
pub enum AdminResult {
    /// The vBucket has another role: the lines that tell of it, the streams that it ended, and what
    /// became of durable writes.
    Role(RoleLines, Listed<u64>, Listed<Resolved>),
    /// The role stays: all that is handed out.
    Out(NodeOut),
}

/// The streams that a reply says were ended, and what it says became of durable writes.
fn ended_of(alloc: Global, mut reply: VbReply) -> (Listed<u64>, Listed<Resolved>)
    ensures { result ≡ (reply.ended, reply.resolved) }
{
    let ended = std::mem::replace(&mut reply.ended, Listed::new(alloc));
    let resolved = std::mem::replace(&mut reply.resolved, Listed::new(alloc));
    drop(reply);
    (ended, resolved)
}

/// The line of a new branch, if one was made.
fn branch_line(node: u8, vb: u16, answer: &VbAnswer) -> Option<Event>
    ensures { option_list result ≡ branch_in node vb answer.now }
{
    match answer {
        VbAnswer::Branch {
            uuid,
            parent,
            fork,
            high,
        } => Some(Event::Branch {
            node,
            vb,
            uuid: *uuid,
            parent: *parent,
            fork: *fork,
            high: *high,
        }),
        _ => None,
    }
}

/// The lines of a vBucket that is active on a new branch. Memory may be short for those of changes
/// alone.
fn active_lines(alloc: Global, node: u8, vb: u16, reply: &VbReply) -> Alloc<RoleLines>
    ensures ok { IfOk result (λ lines. role_lines lines ≡ branch_in node vb reply.now.answer ++ RoleLine node vb Active ∷ own_lines node vb reply.now) }
    ensures sure { OnErr result (reply.now.changes ≢ []) }
{
    let mut changes = Vec::new(alloc);
    tell_changes(node, vb, reply, &mut changes)?;
    let role = Role::Active;
    Ok(RoleLines {
        branch: branch_line(node, vb, &reply.answer),
        role: Event::Role { node, vb, role },
        changes,
    })
}

/// What was told where a vBucket is active on a new branch. Memory may be short for the lines of
/// changes alone.
fn promotion(alloc: Global, node: u8, vb: u16, reply: VbReply) -> Alloc<AdminResult>
    ensures ok { IfOk result (λ told. Tells told (role_changed reply (branch_in node vb reply.answer ++ RoleLine node vb Active ∷ own_lines node vb reply))) }
    ensures sure { OnErr result (reply.changes ≢ []) }
{
    let lines = active_lines(alloc, node, vb, &reply);
    let (ended, resolved) = ended_of(alloc, reply);
    Ok(AdminResult::Role(lines?, ended, resolved))
}

/// What a promotion told. Memory may be short for the lines of changes alone.
pub fn promoted(alloc: Global, node: u8, vb: u16, reply: VbReply) -> Alloc<AdminResult>
    ensures ok { IfOk result (λ told. Tells told (promote_result node vb reply reply.answer)) }
    ensures sure { OnErr result (reply.changes ≢ []) }
{
    match &reply.answer {
        VbAnswer::Branch { .. } => promotion(alloc, node, vb, reply),
        VbAnswer::Status(Status::Einval) => {
            drop(reply);
            Ok(AdminResult::Out(NodeOut::refused(alloc, Cause::UuidUsed)))
        }
        _ => {
            drop(reply);
            Ok(AdminResult::Out(NodeOut::refused(alloc, Cause::WrongRole)))
        }
    }
}

/// What a change to this role told.
pub fn role_result_of(alloc: Global, node: u8, vb: u16, role: Role, reply: VbReply) -> AdminResult
    ensures { Tells result (role_result node vb role reply reply.answer) }
{
    match &reply.answer {
        VbAnswer::Done => {
            let lines = RoleLines {
                branch: None,
                role: Event::Role { node, vb, role },
                changes: Vec::new(alloc),
            };
            let (ended, resolved) = ended_of(alloc, reply);
            AdminResult::Role(lines, ended, resolved)
        }
        _ => {
            drop(reply);
            AdminResult::Out(NodeOut::refused(alloc, Cause::WrongRole))
        }
    }
}

/// The lines of a change of role, behind that of a dial that it cuts. Takes no memory where the vBucket
/// made no change.
pub fn all_lines(mut room: Vec<Event>, cut: Option<Event>, told: RoleLines) -> Alloc<Listed<Event>>
    requires empty { room.items ≡ [] }
    requires room { vec_len room + 3 ≤ vec_capacity room }
    ensures ok { IfOk result (λ lines. lines ≡ option_list cut ++ role_lines told) }
    ensures sure { OnErr result (told.changes.items ≢ []) }
{
    let RoleLines {
        branch,
        role,
        mut changes,
    } = told;
    if let Some(cut) = cut {
        room.push_reserved(cut);
    }
    if let Some(branch) = branch {
        room.push_reserved(branch);
    }
    room.push_reserved(role);
    room.append(&mut changes)?;
    Ok(Listed::from_vec(room))
}
