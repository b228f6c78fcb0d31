//! How a producer counts what its consumer acknowledges: changes, and bytes.
ghost use Rattle.std.specs.Prelude.{◌≡◌, ◌++◌, ◌∷◌, map, OnOk, OnErr};
ghost use Rattle.dcp_producer.specs.Serving.{fed_stream, weighed, with_event, counted_line, counted_with, counted_by, count_answered, acknowledged, bytes_acknowledged};
ghost use Rattle.{dcp_producer.specs.Producers.{member_of, stream_at}, dcp_producer.specs.Wanting.{Cut, Sent}, vb_calls.specs.Programs.{Ran}};
ghost use Rattle.vb_events.specs.declared.event.Event.TheVariants.{Changed};

use crate::{Alloc, Connection};
use mcbp_frame::Frame;
use std::alloc::Global;
use vb_calls::{Resolved, VbAccess, VbAnswer, VbCall, VbReply};
use vb_events::Event;
use vb_types::{Change, Listed, Status};

/// What a reply says became of durable writes.
fn resolved_of(alloc: Global, mut reply: VbReply) -> Listed<Resolved>
    ensures { result ≡ reply.resolved }
{
    let resolved = std::mem::replace(&mut reply.resolved, Listed::new(alloc));
    drop(reply);
    resolved
}

impl Connection {
    /// Whose acknowledgement of all up to a seqno of the vBucket `vb` it is, or why it is refused.
    fn weigh(&self, vb: u16, seq: u64) -> Result<u8, Status>
        ensures { result ≡ weighed seq (fed_stream self.now.end.desk.stream (stream_at vb self.now.end.streams)) (member_of self.now.end.handshake) }
    {
        let stream = match self.stream_at(vb) {
            Some(stream) if !self.desk.is_client() && !stream.is_ended() => stream,
            _ => return Err(Status::NotSupported),
        };
        let Some(member) = self.handshake.member() else {
            return Err(Status::Einval);
        };
        if seq > stream.reached() {
            return Err(Status::Erange);
        }
        Ok(member)
    }

    /// Tells of a change that the vBucket `vb` made on a branch.
    fn tell_change(&mut self, vb: u16, uuid: u64, change: &Change) -> Alloc<()>
        ensures { Sent result self.new (with_event self.old (Changed self.old.end.desk.node vb uuid change.now)) }
    {
        let node = self.desk.node;
        self.tell(Event::Changed {
            node,
            vb,
            uuid,
            change: change.copy()?,
        })
    }

    /// Tells of an acknowledgement that was counted, and of each change that the vBucket made with
    /// it.
    fn tell_lines(&mut self, f: &Frame, member: u8, seq: u64, reply: &VbReply) -> Alloc<()>
        ensures { Sent result self.new (record self.old {
          events = self.old.events ++ counted_line self.old.end.desk f.now member seq ∷ map (Changed self.old.end.desk.node f.now.vb_or_status reply.now.branch) reply.now.changes;
        }) }
    {
        let vb = f.vb_or_status;
        self.tell(Event::Counted {
            stream: self.desk.stream,
            node: self.desk.node,
            vb,
            member,
            seq,
        })?;
        for change in reply.changes.as_slice() {
            self.tell_change(vb, reply.branch, change)?;
        }
        Ok(())
    }

    /// Tells of an acknowledgement that was counted, and hands out what became of durable writes.
    fn tell_counted(&mut self, f: &Frame, member: u8, seq: u64, reply: VbReply) -> Alloc<()>
        ensures { Sent result self.new (counted_with f.now member seq reply self.old) }
    {
        let told = self.tell_lines(f, member, seq, &reply);
        self.resolved = resolved_of(self.alloc, reply);
        told
    }

    /// Answers an acknowledgement that a vBucket refused, or tells that it counted it.
    fn answer_counted(&mut self, f: &Frame, member: u8, seq: u64, reply: VbReply) -> Alloc<()>
        ensures { Sent result self.new (counted_by f.now member seq reply reply.answer self.old) }
    {
        match reply.answer {
            VbAnswer::Status(status) => {
                drop(reply);
                self.send_status(f, status)
            }
            _ => self.tell_counted(f, member, seq, reply),
        }
    }

    /// The same by the vBucket's reply, if there is such a vBucket.
    fn answer_if(&mut self, f: &Frame, member: u8, seq: u64, reply: Option<VbReply>) -> Alloc<()>
        ensures { Sent result self.new (count_answered f.now member seq self.old reply) }
    {
        match reply {
            Some(reply) => self.answer_counted(f, member, seq, reply),
            None => self.send_status(f, Status::NotMyVbucket),
        }
    }

    /// Answers SEQNO_ACKNOWLEDGED: there is no answer where it is counted.
    #[tactic(auto, using(vb_calls::proofs::Runs::runs), unfolding(crate::specs::Serving::acknowledged))]
    pub fn acknowledge<A: VbAccess>(&mut self, vbs: &mut A, f: &Frame, seq: u64) -> Alloc<()>
        ensures ok { OnOk result (Ran A.step (acknowledged f.now seq self.old) vbs.old self.new vbs.new) }
        ensures err { OnErr result (Cut A.step (acknowledged f.now seq self.old) self.old.end vbs.old self.new.end vbs.new) }
    {
        if !self.handshake.is_open() {
            return self.send_status(f, Status::Einval);
        }
        let vb = f.vb_or_status;
        let member = match self.weigh(vb, seq) {
            Ok(member) => member,
            Err(status) => return self.send_status(f, status),
        };
        let reply = vbs.call(vb, VbCall::Ack { member, seq })?;
        self.answer_if(f, member, seq, reply)
    }

    /// Takes bytes out of the window that the consumer acknowledged. There is no answer, unless
    /// OPEN did not come.
    pub fn acknowledge_bytes(&mut self, f: &Frame, bytes: u32) -> Alloc<()>
        ensures { Sent result self.new (bytes_acknowledged f.now bytes self.old) }
    {
        if !self.handshake.is_open() {
            return self.send_status(f, Status::Einval);
        }
        self.window.ack(bytes);
        Ok(())
    }
}
