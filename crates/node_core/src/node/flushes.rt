//! What a node writes down of a vBucket.
ghost use Rattle.std.specs.Prelude.{◌≡◌, IfOk, OnErr};
ghost use Rattle.{node_core.specs.Flushing.{flush_at, flush_result, took_result, saved_of_reply}, node_core.specs.Outcomes.{Wrote}, node_core.specs.Outs.{flush_out, flush_by}};
ghost use Rattle.vb_calls.specs.Jobs.{RanJob, BeganJob};
ghost use Rattle.vb_calls.specs.declared.journals.Flushed.TheVariants.{Done};

use crate::changes::resolving_out;
use crate::{Alloc, Node, NodeOut};
use bytes::Bytes;
use std::alloc::Global;
use vb_calls::{Flushed, Journals, VbAccess, VbAnswer, VbReply};
use vb_events::{Answer, Cause, Event};
use vb_types::{FlushPart, Listed};

/// Up to where a vBucket counts as saved, as it replied.
fn saved_of_reply(reply: &Option<VbReply>) -> u64
    ensures { result ≡ saved_of_reply reply.now }
{
    match reply {
        Some(told) => match told.answer {
            VbAnswer::Num(saved) => saved,
            _ => 0,
        },
        None => 0,
    }
}

/// What taking a batch came to: the line tells of it, unless it has no change.
fn took_out(alloc: Global, batch: Event, count: u64) -> Alloc<NodeOut>
    ensures { IfOk result (λ out. out ≡ flush_out (took_result batch count)) }
{
    let answer = Answer::Number(count);
    if count == 0 {
        drop(batch);
        return Ok(NodeOut::answered(alloc, answer));
    }
    let events = Listed::one(alloc, batch)?;
    Ok(NodeOut::told(alloc, events, Bytes::new(), answer))
}

/// What a batch that is done came to: the changes that the vBucket made then, up to where it counts as
/// saved, and what became of durable writes.
fn done_out(alloc: Global, node: u8, vb: u16, reply: Option<VbReply>) -> Alloc<NodeOut>
    ensures { IfOk result (λ out. out ≡ flush_out (flush_result node vb (Done reply))) }
{
    let saved = Answer::Number(saved_of_reply(&reply));
    match reply {
        Some(made) => resolving_out(alloc, node, vb, made, saved),
        None => Ok(NodeOut::answered(alloc, saved)),
    }
}

/// What a step of writing down came to.
fn flush_result(alloc: Global, node: u8, vb: u16, came: Flushed) -> Alloc<NodeOut>
    ensures { IfOk result (λ out. out ≡ flush_out (flush_result node vb came)) }
{
    let answer = match came {
        Flushed::Took { ss, se, at, count } => {
            let batch = Event::Batch {
                node,
                vb,
                ss,
                se,
                at,
                count,
            };
            return took_out(alloc, batch, count);
        }
        Flushed::Saved => Answer::Ok,
        Flushed::Done(reply) => {
            return done_out(alloc, node, vb, reply);
        }
        Flushed::BatchOut => Answer::No(Cause::BatchOut),
        Flushed::NothingTaken => Answer::No(Cause::NothingTaken),
        Flushed::Closed => Answer::No(Cause::Closed),
        Flushed::DiskFailed => Answer::No(Cause::Disk),
    };
    Ok(NodeOut::answered(alloc, answer))
}

impl<A: VbAccess, J: Journals> Node<A, J> {
    /// Makes a step of writing a vBucket down where there is one.
    #[tactic(auto, using(vb_calls::proofs::JobRuns::jobs))]
    fn flush_where(&mut self, v: u16, part: FlushPart, there: bool) -> Alloc<NodeOut>
        ensures ok { IfOk result (λ out. RanJob A.step J.asks (flush_at self.old.number v part there) self.old.vbs self.old.disks (flush_by out) self.new.vbs self.new.disks) }
        ensures said { IfOk result (λ out. out ≡ flush_out (flush_by out)) }
        ensures rest { self.new ≡ record self.old { vbs = self.new.vbs; disks = self.new.disks } }
        ensures began { OnErr result (BeganJob A.step J.asks (flush_at self.old.number v part there) self.old.vbs self.old.disks self.new.vbs self.new.disks) }
    {
        if !there {
            return Ok(NodeOut::refused(self.alloc, Cause::UnknownVb));
        }
        let came = self.disks.flush(v, part, &mut self.vbs)?;
        flush_result(self.alloc, self.number, v, came)
    }

    /// Makes a step of writing a vBucket down, if there is one, which the access says. An `Err` leaves connections and dials; what it began
    /// may stand, and no line tells of changes that the vBucket made with it.
    pub fn flush(&mut self, v: u16, part: FlushPart) -> Alloc<NodeOut>
        ensures ok { IfOk result (λ out. Wrote A.step J.asks A.has v part self.old out self.new) }
        ensures err { OnErr result (self.new ≡ record self.old { vbs = self.new.vbs; disks = self.new.disks }) }
        ensures began { OnErr result (BeganJob A.step J.asks (flush_at self.old.number v part (A.has self.old.vbs v)) self.old.vbs self.old.disks self.new.vbs self.new.disks) }
    {
        let there = self.vbs.is_there(v);
        self.flush_where(v, part, there)
    }
}
