//! What is told of a script line.
ghost use Rattle.std.specs.Prelude.{◌≡◌, ◌++◌, IfOk};
ghost use Rattle.{node_world.specs.Lines.{moved_if, out_told, named_cause}, node_world.specs.Links.{moved}, node_world.specs.Nodes.{done, refusal}};

use crate::Alloc;
use node_core::NodeOut;
use std::alloc::Global;
use vb_events::{Answer, Cause, Event};
use vb_types::Listed;

/// What happened while a line was carried out, and the answer.
#[derive(Drop)]
pub struct Told {
    pub events: Listed<Event>,
    pub answer: Answer,
}

impl Told {
    /// The line was carried out.
    pub fn done(events: Listed<Event>) -> Told
        ensures { result ≡ done events }
    {
        Told {
            events,
            answer: Answer::Ok,
        }
    }

    /// The line was refused.
    pub fn refusal(alloc: Global, cause: Cause) -> Told
        ensures { result ≡ refusal cause }
    {
        Told {
            events: Listed::new(alloc),
            answer: Answer::No(cause),
        }
    }

    /// The line was carried out, and moved so many bytes.
    pub fn moved(n: usize, events: Listed<Event>) -> Told
        ensures { result ≡ moved n events }
    {
        Told {
            events,
            answer: Answer::Number(n as u64),
        }
    }

    /// The same, unless a rollback could not be written down.
    pub fn moved_if(n: usize, out: NodeOut) -> Told
        ensures { result ≡ moved_if n out }
    {
        Told {
            events: out.events,
            answer: match out.answer {
                Answer::No(Cause::Disk) => out.answer,
                _ => Answer::Number(n as u64),
            },
        }
    }

    /// What a node's call handed out.
    pub fn of(out: NodeOut) -> Told
        ensures { result ≡ out_told out }
    {
        Told {
            events: out.events,
            answer: out.answer,
        }
    }

    /// The same, behind what was told before.
    pub fn behind(self, mut before: Listed<Event>) -> Alloc<Told>
        ensures { IfOk result (λ told. told ≡ record { events = before ++ self.events; answer = self.answer }) }
    {
        before.append(self.events)?;
        Ok(Told {
            events: before,
            answer: self.answer,
        })
    }

    /// The same, where a vBucket refused the id 0 as one that was used.
    pub fn naming(self, uuid: u64) -> Told
        ensures { result ≡ record { events = self.events; answer = named_cause uuid self.answer } }
    {
        let zero = uuid == 0;
        match self.answer {
            Answer::No(Cause::UuidUsed) if zero => Told {
                events: self.events,
                answer: Answer::No(Cause::UuidZero),
            },
            _ => self,
        }
    }
}
