//! Copies of the lines that a producer tells.
ghost use Rattle.std.specs.Prelude.{◌≡◌, IfOk};
ghost use Rattle.node_core.specs.Clients.{IsAnswers, IsProducers};

use crate::Alloc;
use std::alloc::Global;
use vb_events::Event;
use vb_types::{Listed, LogEntry};

/// A copy of a failover log.
fn copy_log(alloc: Global, log: &Listed<LogEntry>) -> Alloc<Listed<LogEntry>>
    ensures { IfOk result (λ copy. copy ≡ log.now) }
{
    let mut entries = Vec::new(alloc);
    entries.extend_from_slice(log.as_slice())?;
    Ok(Listed::from_vec(entries))
}

/// A copy of a line that a producer tells with an answer.
fn copy_answer(alloc: Global, line: &Event) -> Alloc<Event>
    requires { IsAnswers line.now }
    ensures { IfOk result (λ copy. copy ≡ line.now) }
{
    match *line {
        Event::Asked {
            stream,
            node,
            vb,
            ask,
            high,
            ref log,
            answer,
        } => Ok(Event::Asked {
            stream,
            node,
            vb,
            ask,
            high,
            log: copy_log(alloc, log)?,
            answer,
        }),
        Event::Counted {
            stream,
            node,
            vb,
            member,
            seq,
        } => Ok(Event::Counted {
            stream,
            node,
            vb,
            member,
            seq,
        }),
        Event::Changed {
            node,
            vb,
            uuid,
            ref change,
        } => Ok(Event::Changed {
            node,
            vb,
            uuid,
            change: change.copy()?,
        }),
        _ => unreachable!(),
    }
}

/// A copy of a line that a producer tells.
pub fn copy_line(alloc: Global, line: &Event) -> Alloc<Event>
    requires { IsProducers line.now }
    ensures { IfOk result (λ copy. copy ≡ line.now) }
{
    match *line {
        Event::Marked {
            stream,
            start,
            end,
            flags,
        } => Ok(Event::Marked {
            stream,
            start,
            end,
            flags,
        }),
        Event::Item {
            stream,
            seq,
            act,
            ref key,
        } => Ok(Event::Item {
            stream,
            seq,
            act,
            key: key.clone()?,
        }),
        Event::Finished { stream, reason } => Ok(Event::Finished { stream, reason }),
        Event::Stated { stream, role } => Ok(Event::Stated { stream, role }),
        _ => copy_answer(alloc, line),
    }
}
