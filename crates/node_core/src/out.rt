//! What a call of a node hands out.
ghost use Rattle.std.specs.Prelude.{◌≡◌, [], false, IfOk};
ghost use Rattle.node_core.specs.{Admin.{noted_answer}, Outs.{refused_out, done_out}};

use crate::Alloc;
use bytes::{Bytes, BytesMut};
use std::alloc::Global;
use vb_calls::{Resolved, Wrote};
use vb_events::{Answer, Cause, Event};
use vb_types::Listed;

/// What a call of a node hands out: the lines that tell of it, the bytes for the other side of the
/// connection or dial that it names, its answer, whether that connection or dial is gone, and what
/// became of durable writes: each of these is to be posted to the client's connection that awaits it,
/// in their order, before the node is asked for anything else.
#[derive(Drop)]
pub struct NodeOut {
    pub events: Listed<Event>,
    pub out: Bytes,
    pub answer: Answer,
    pub closed: bool,
    pub resolved: Listed<Resolved>,
}

/// The bytes that were written, handed out.
pub fn bytes_of(mut written: BytesMut) -> Alloc<Bytes>
    ensures { IfOk result (λ bytes. bytes ≡ written.items) }
{
    written.freeze_to(written.len())
}

/// An answer, where a record was to be appended: that it could not be stands in its place.
pub fn noted(wrote: Wrote, said: Answer) -> Answer
    ensures { result ≡ noted_answer wrote said }
{
    match wrote {
        Wrote::Stood | Wrote::NotAsked => said,
        Wrote::Closed => Answer::No(Cause::Closed),
        Wrote::DiskFailed => Answer::No(Cause::Disk),
    }
}

impl NodeOut {
    /// These lines, bytes and answer; nothing is gone, and nothing became of durable writes.
    pub fn told(alloc: Global, events: Listed<Event>, out: Bytes, answer: Answer) -> NodeOut
        ensures { result ≡ record { events = events; out = out; answer = answer; closed = false; resolved = [] } }
    {
        NodeOut {
            events,
            out,
            answer,
            closed: false,
            resolved: Listed::new(alloc),
        }
    }

    /// The call was carried out.
    pub fn done(alloc: Global, events: Listed<Event>, out: Bytes) -> NodeOut
        ensures { result ≡ done_out events out }
    {
        NodeOut::told(alloc, events, out, Answer::Ok)
    }

    /// The same, with what became of durable writes.
    pub fn resolving(mut self, resolved: Listed<Resolved>) -> NodeOut
        ensures { result ≡ record self { resolved = resolved } }
    {
        self.resolved = resolved;
        self
    }

    /// This answer alone.
    pub fn answered(alloc: Global, answer: Answer) -> NodeOut
        ensures { result ≡ record { events = []; out = []; answer = answer; closed = false; resolved = [] } }
    {
        NodeOut::told(alloc, Listed::new(alloc), Bytes::new(), answer)
    }

    /// The call was refused.
    pub fn refused(alloc: Global, why: Cause) -> NodeOut
        ensures { result ≡ refused_out why }
    {
        NodeOut::answered(alloc, Answer::No(why))
    }

    /// The same, and whether the connection or dial is gone.
    pub fn closed_if(mut self, closed: bool) -> NodeOut
        ensures { result ≡ record self { closed = closed } }
    {
        self.closed = closed;
        self
    }

    /// The same, where a record was to be appended: that it could not be is the answer.
    pub fn noted(mut self, wrote: Wrote) -> NodeOut
        ensures { result ≡ record self { answer = noted_answer wrote self.answer } }
    {
        self.answer = noted(wrote, self.answer);
        self
    }
}
