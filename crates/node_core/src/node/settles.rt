//! Calls to an active vBucket that let it resolve durable writes.
ghost use Rattle.std.specs.Prelude.{◌≡◌, IfOk, OnErr};
ghost use Rattle.{node_core.specs.Flushing.{activity_requested, activity_of_reply, chain_changed, settled_result, ticked}, node_core.specs.Outcomes.{Settles}};
ghost use Rattle.{node_core.specs.Outs.{flush_out}, vb_calls.specs.Programs.{Began, Ran}};

use crate::changes::resolving_out;
use crate::{Alloc, Node, NodeOut};
use durability::Chain;
use std::alloc::Global;
use vb_calls::{Journals, VbAccess, VbAnswer, VbCall, VbReply};
use vb_events::{Answer, Cause};
use vb_types::Status;

/// What such a call came to; a vBucket that is not active has the wrong role.
fn settled_out(alloc: Global, node: u8, vb: u16, reply: Option<VbReply>) -> Alloc<NodeOut>
    ensures { IfOk result (λ out. out ≡ flush_out (settled_result node vb reply)) }
{
    let Some(reply) = reply else {
        return Ok(NodeOut::refused(alloc, Cause::UnknownVb));
    };
    match reply.answer {
        VbAnswer::Done => resolving_out(alloc, node, vb, reply, Answer::Ok),
        _ => {
            drop(reply);
            Ok(NodeOut::refused(alloc, Cause::WrongRole))
        }
    }
}

/// Whether there is a vBucket, and whether it is active, by its reply to a promotion to the branch 0.
fn activity_of(reply: &Option<VbReply>) -> Option<bool>
    ensures { result ≡ activity_of_reply reply.now }
{
    match reply {
        Some(told) => Some(matches!(told.answer, VbAnswer::Status(Status::NotMyVbucket))),
        None => None,
    }
}

impl<A: VbAccess, J: Journals> Node<A, J> {
    /// Whether there is a vBucket of this number, and whether it is active. It changes nothing: no
    /// vBucket takes the branch 0, and an active one says that it is.
    pub fn is_active(&mut self, v: u16) -> Alloc<Option<bool>>
        ensures ok { IfOk result (λ active. Ran A.step (activity_requested v) self.old.vbs active self.new.vbs) }
        ensures err { OnErr result (Began A.step (activity_requested v) self.old.vbs self.new.vbs) }
        ensures rest { self.new ≡ record self.old { vbs = self.new.vbs } }
    {
        let reply = self.vbs.call(v, VbCall::Promote { uuid: 0 })?;
        let active = activity_of(&reply);
        drop(reply);
        Ok(active)
    }

    /// Sets the chain of a vBucket, whose active node is to be this one. What may be committed then is
    /// committed at once. It is refused where there is no such vBucket, and next where it is not
    /// active. An `Err` leaves connections and dials; the chain may be set, and of the changes that the
    /// vBucket made then no line tells.
    pub fn set_chain(&mut self, v: u16, chain: Chain) -> Alloc<NodeOut>
        ensures ok { IfOk result (λ out. Settles A.step (chain_changed self.old.number v chain) self.old out self.new) }
        ensures err { OnErr result (self.new ≡ record self.old { vbs = self.new.vbs }) }
        ensures began { OnErr result (Began A.step (chain_changed self.old.number v chain) self.old.vbs self.new.vbs) }
    {
        let reply = self.vbs.call(v, VbCall::Chain { chain })?;
        settled_out(self.alloc, self.number, v, reply)
    }

    /// Has a vBucket give up the prepares whose deadlines are not after `clock` nanoseconds. It is
    /// refused where there is no such vBucket, and next where it is not active. An `Err` leaves
    /// connections and dials; prepares may be given up, and of the changes that the vBucket made then
    /// no line tells.
    pub fn tick(&mut self, v: u16, clock: u64) -> Alloc<NodeOut>
        ensures ok { IfOk result (λ out. Settles A.step (ticked self.old.number v clock) self.old out self.new) }
        ensures err { OnErr result (self.new ≡ record self.old { vbs = self.new.vbs }) }
        ensures began { OnErr result (Began A.step (ticked self.old.number v clock) self.old.vbs self.new.vbs) }
    {
        let reply = self.vbs.call(v, VbCall::Tick { clock })?;
        settled_out(self.alloc, self.number, v, reply)
    }
}
