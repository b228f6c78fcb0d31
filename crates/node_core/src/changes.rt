//! The lines of changes that a vBucket made of its own.
ghost use Rattle.std.specs.Prelude.{◌≡◌, ◌≢◌, ◌++◌, [], false, IfOk, OnOk, OnErr};
ghost use Rattle.node_core.specs.Calls.{own_lines};

use crate::{Alloc, NodeOut};
use bytes::Bytes;
use std::alloc::Global;
use vb_calls::{Resolved, VbReply};
use vb_events::{Answer, Event};
use vb_types::Listed;

/// Tells of each change of a reply, behind these lines. Takes no memory where there is none.
pub fn tell_changes(node: u8, vb: u16, reply: &VbReply, lines: &mut Vec<Event>) -> Alloc<()>
    ensures ok { OnOk result (lines.new.items ≡ lines.old.items ++ own_lines node vb reply.now) }
    ensures sure { OnErr result (reply.now.changes ≢ []) }
{
    for change in reply.changes.as_slice() {
        lines.push(Event::Changed {
            node,
            vb,
            uuid: reply.branch,
            change: change.copy()?,
        })?;
    }
    Ok(())
}

/// The lines of the changes of a reply.
fn change_lines(alloc: Global, node: u8, vb: u16, reply: &VbReply) -> Alloc<Listed<Event>>
    ensures { IfOk result (λ lines. lines ≡ own_lines node vb reply.now) }
{
    let mut lines = Vec::new(alloc);
    tell_changes(node, vb, reply, &mut lines)?;
    Ok(Listed::from_vec(lines))
}

/// What a reply says became of durable writes.
fn resolved_of(alloc: Global, mut reply: VbReply) -> Listed<Resolved>
    ensures { result ≡ reply.resolved }
{
    let resolved = std::mem::replace(&mut reply.resolved, Listed::new(alloc));
    drop(reply);
    resolved
}

/// The lines of the changes of a reply, with this answer, and what became of durable writes.
pub fn resolving_out(
    alloc: Global,
    node: u8,
    vb: u16,
    reply: VbReply,
    answer: Answer,
) -> Alloc<NodeOut>
    ensures { IfOk result (λ out. out ≡ record { events = own_lines node vb reply; out = []; answer = answer; closed = false; resolved = reply.resolved }) }
{
    let lines = change_lines(alloc, node, vb, &reply);
    let resolved = resolved_of(alloc, reply);
    let told = NodeOut::told(alloc, lines?, Bytes::new(), answer);
    Ok(told.resolving(resolved))
}
