//! What a test compares of a transcript's lines.
use crate::frames::NOOP_ANSWER;
use vb_events::{EndReason, Event};
use vb_types::{Act, AskAnswer, Change, Role};

#[derive(Clone, Copy, PartialEq, Eq)]
pub enum Told {
    /// This branch was made.
    Branch(u64),
    Role(Role),
    /// The change with this seqno was made.
    Changed(u64),
    /// A durable write was committed on this branch, by the change with this seqno.
    Committed(u64, u64),
    /// A NOOP was answered.
    Noop,
    /// The connection of this client is closed.
    Closed(u32),
    /// A request was granted, at this last seqno.
    Granted(u64),
    /// A request was refused, at this last seqno, with this status.
    Refused(u64, u16),
    /// The marker of a snapshot was put.
    Marked(u64, u64),
    /// The change with this seqno was put.
    Put(u64),
    /// A stream's end was put, with this reason.
    Finished(u32),
    /// This role was put on a stream that hands a vBucket over.
    Stated(Role),
    Adopted,
    /// The snapshot that a consumer is in now.
    Ranged(u64, u64),
    /// The change with this seqno was taken.
    Got(u64),
    /// Back from the seqno that was named to this one.
    Rolled(u64, u64),
    /// A link ended.
    Ended(EndReason),
    /// The snapshot's start and end, and the last seqno.
    Shown(u64, u64, u64),
    /// A batch's position, as the one above, and how many changes it has.
    Batch(u64, u64, u64, u64),
    /// Numbers of checkpoints, live changes and cursors, what is saved, and the last seqno.
    Stat(u64, u64, u64, u64, u64),
    Other,
}

pub fn outline(line: &Event) -> Told {
    match line {
        Event::Branch { uuid, .. } => Told::Branch(*uuid),
        Event::Role { role, .. } => Told::Role(*role),
        Event::Changed { uuid, change, .. } => changed(*uuid, change),
        Event::Reply { bytes, .. } if bytes.as_slice() == NOOP_ANSWER => Told::Noop,
        Event::Closed { client, .. } => Told::Closed(*client),
        Event::Asked { high, answer, .. } => asked(*high, *answer),
        Event::Marked { start, end, .. } => Told::Marked(*start, *end),
        Event::Item { seq, .. } => Told::Put(*seq),
        Event::Finished { reason, .. } => Told::Finished(*reason),
        Event::Stated { role, .. } => Told::Stated(*role),
        Event::Adopted { .. } => Told::Adopted,
        Event::Ranged { ss, se, .. } => Told::Ranged(*ss, *se),
        Event::Got { change, .. } => Told::Got(change.seq),
        Event::Rolled { named, to, .. } => Told::Rolled(*named, *to),
        Event::Ended { reason, .. } => Told::Ended(*reason),
        Event::Shown { ss, se, at, .. } => Told::Shown(*ss, *se, *at),
        _ => outline_saved(line),
    }
}

/// What tells of a journal.
fn outline_saved(line: &Event) -> Told {
    match line {
        Event::Batch {
            ss,
            se,
            at,
            count,
            ..
        } => Told::Batch(*ss, *se, *at, *count),
        Event::Stat {
            windows,
            items,
            cursors,
            saved,
            high,
            ..
        } => Told::Stat(*windows, *items, *cursors, *saved, *high),
        _ => Told::Other,
    }
}

fn changed(uuid: u64, change: &Change) -> Told {
    match change.act {
        Act::Commit { .. } => Told::Committed(uuid, change.seq),
        _ => Told::Changed(change.seq),
    }
}

fn asked(high: u64, answer: AskAnswer) -> Told {
    match answer {
        AskAnswer::Go => Told::Granted(high),
        AskAnswer::Refuse(status) => Told::Refused(high, status),
        AskAnswer::Roll(_) => Told::Other,
    }
}
