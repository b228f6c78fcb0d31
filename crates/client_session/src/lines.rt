//! The lines that tell what a connection did.
ghost use Rattle.std.specs.Prelude.{◌≡◌, ◌∷◌, [], map, OnOk};
ghost use Rattle.{client_session.specs.Answers.{reply_line, reply_lines, reply_to, found_reply, token, change_lines, fault_lines}, client_session.specs.Heads.{answered}, client_session.specs.Serving.{with_lines, refused, told, outcome_answered, answered_or_awaited, durable_answered, durable_replied}, mcbp_kv.specs.Answers.{bare_answer, seqno_extras}, mcbp_kv.specs.Replies.{reply_with, ReplyFits}, vb_events.specs.declared.event.Event.TheVariants.{Changed}};

use crate::answers::{bare_head, found_head, outcome_of, stored_head, token};
use crate::{Alloc, Awaited, Connection};
use mcbp_frame::{FaultyHead, Frame};
use mcbp_kv::ReplyHead;
use vb_calls::{Resolution, VbAnswer, VbReply};
use vb_events::Event;
use vb_types::{Change, Doc, Status};

impl Connection {
    /// Tells of the answer of a head, these extras and this value.
    #[tactic(auto, unfolding(crate::specs::Answers::reply_line))]
    pub fn tell(&mut self, head: &ReplyHead, extras: &[u8], value: &[u8]) -> Alloc<()>
        requires { ReplyFits (reply_with head.now extras.now value.now) }
        ensures { OnOk result (self.new ≡ answered self.old head.now extras.now value.now) }
    {
        let bytes = self.block.spell(head, extras, value)?;
        self.events.push(Event::Reply {
            node: self.who.node,
            client: self.who.client,
            bytes,
        })
    }

    /// Tells of an answer with a status alone.
    fn tell_status(&mut self, opcode: u8, opaque: u32, status: Status) -> Alloc<()>
        ensures { OnOk result (self.new ≡ with_lines self.old (reply_line self.old.session.who.node self.old.session.who.client (bare_answer opcode status opaque) ∷ [])) }
    {
        self.tell(&bare_head(opcode, opaque, status), &[], &[])
    }

    /// Tells of the answer to a write that was made, with its branch and seqno.
    fn tell_token(&mut self, head: &ReplyHead, uuid: u64, seq: u64) -> Alloc<()>
        ensures { OnOk result (self.new ≡ answered self.old head.now (seqno_extras uuid seq) []) }
    {
        self.tell(head, &token(uuid, seq), &[])
    }

    /// Tells of the answer to a write that was made, with its branch and seqno where they were asked
    /// for.
    fn tell_written(&mut self, head: &ReplyHead, uuid: u64, seq: u64) -> Alloc<()>
        ensures { OnOk result (self.new ≡ answered self.old head.now (token self.old.session.settings uuid seq) []) }
    {
        if self.settings.seqnos {
            self.tell_token(head, uuid, seq)
        } else {
            self.tell(head, &[], &[])
        }
    }

    /// Tells of the answer to a GET of this document, with its flags and its value.
    fn tell_found(&mut self, f: &Frame, doc: &Doc) -> Alloc<()>
        ensures { OnOk result (self.new ≡ with_lines self.old (reply_line self.old.session.who.node self.old.session.who.client (found_reply self.old.session.settings f.now doc.now) ∷ [])) }
    {
        let head = found_head(self.settings, f, doc);
        self.tell(&head, &doc.flags.to_be_bytes(), doc.value.as_slice())
    }

    /// Tells of changes on a branch.
    fn tell_changes(&mut self, vb: u16, uuid: u64, changes: &[Change]) -> Alloc<()>
        ensures { OnOk result (self.new ≡ with_lines self.old (map (Changed self.old.session.who.node vb uuid) changes.now)) }
    {
        for change in changes {
            self.events.push(Event::Changed {
                node: self.who.node,
                vb,
                uuid,
                change: change.copy()?,
            })?;
        }
        Ok(())
    }

    /// Tells of what a write changed.
    fn tell_stored(&mut self, vb: u16, reply: &VbReply) -> Alloc<()>
        ensures { OnOk result (self.new ≡ with_lines self.old (change_lines self.old.session.who.node vb reply.now.answer reply.now.changes)) }
    {
        match &reply.answer {
            VbAnswer::Stored { uuid, .. } => self.tell_changes(vb, *uuid, reply.changes.as_slice()),
            _ => Ok(()),
        }
    }

    /// Answers with a status alone.
    pub fn refuse(&mut self, f: &Frame, status: Status) -> Alloc<()>
        ensures { OnOk result (self.new ≡ refused f.now status self.old) }
    {
        self.tell_status(f.opcode, f.opaque, status)
    }

    /// Answers by a vBucket's answer.
    fn tell_answer(&mut self, f: &Frame, answer: &VbAnswer) -> Alloc<()>
        ensures { OnOk result (self.new ≡ with_lines self.old (reply_lines self.old.session.who.node self.old.session.who.client (reply_to self.old.session.settings f.now answer.now))) }
    {
        match answer {
            VbAnswer::Status(status) => self.refuse(f, *status),
            VbAnswer::Found(doc) => self.tell_found(f, doc),
            VbAnswer::Stored { uuid, seq, cas } => {
                self.tell_written(&stored_head(f.opcode, f.opaque, *cas), *uuid, *seq)
            }
            _ => Ok(()),
        }
    }

    /// Tells of a vBucket's reply, and answers.
    #[tactic(auto, using(crate::proofs::Conduct::lines_twice), unfolding(crate::specs::Serving::told))]
    fn tell_replied(&mut self, f: &Frame, made: &VbReply) -> Alloc<()>
        ensures { OnOk result (self.new ≡ told f.now self.old (Some made.now)) }
    {
        self.tell_stored(f.vb_or_status, made)?;
        self.tell_answer(f, &made.answer)
    }

    /// Tells of what a vBucket replied, and answers.
    #[tactic(auto, unfolding(crate::specs::Serving::told))]
    pub fn tell_asked(&mut self, f: &Frame, reply: Option<VbReply>) -> Alloc<()>
        ensures { OnOk result (self.new ≡ told f.now self.old reply) }
    {
        let told = match &reply {
            None => self.refuse(f, Status::NotMyVbucket),
            Some(made) => self.tell_replied(f, made),
        };
        drop(reply);
        told
    }

    /// Answers the durable write that is awaited, which is awaited no more.
    pub fn tell_outcome(&mut self, awaited: Awaited, how: Resolution) -> Alloc<()>
        ensures { OnOk result (self.new ≡ outcome_answered awaited how self.old) }
    {
        let (opcode, opaque) = (awaited.opcode, awaited.opaque);
        self.awaited = None;
        match how {
            Resolution::Committed { uuid, seq, cas } => {
                self.tell_written(&stored_head(opcode, opaque, cas), uuid, seq)
            }
            Resolution::Ambiguous => {
                self.tell_status(opcode, opaque, Status::SyncWriteAmbiguous)
            }
        }
    }

    /// Answers a durable write that was prepared, or awaits its outcome where that is not known yet.
    fn tell_prepared(&mut self, awaited: Awaited, outcome: Option<Resolution>) -> Alloc<()>
        ensures { OnOk result (self.new ≡ answered_or_awaited awaited outcome self.old) }
    {
        match outcome {
            Some(how) => self.tell_outcome(awaited, how),
            None => {
                self.awaited = Some(awaited);
                Ok(())
            }
        }
    }

    /// Answers a durable write of this waiter by its vBucket's answer, or awaits its outcome.
    fn answer_durable(
        &mut self,
        waiter: u64,
        f: &Frame,
        answer: &VbAnswer,
        outcome: Option<Resolution>,
    ) -> Alloc<()>
        ensures { OnOk result (self.new ≡ durable_answered waiter f.now outcome answer.now self.old) }
    {
        match answer {
            VbAnswer::Status(status) => self.refuse(f, *status),
            VbAnswer::Prepared { .. } => {
                let awaited = Awaited {
                    waiter,
                    opcode: f.opcode,
                    opaque: f.opaque,
                };
                self.tell_prepared(awaited, outcome)
            }
            _ => Ok(()),
        }
    }

    /// Tells of the changes of a durable write of this waiter, and answers or awaits.
    #[tactic(auto, unfolding(crate::specs::Serving::durable_replied))]
    fn tell_made(&mut self, waiter: u64, f: &Frame, made: &VbReply) -> Alloc<()>
        ensures { OnOk result (self.new ≡ durable_replied waiter f.now self.old (Some made.now)) }
    {
        self.tell_changes(f.vb_or_status, made.branch, made.changes.as_slice())?;
        let outcome = outcome_of(waiter, made.resolved.as_slice());
        self.answer_durable(waiter, f, &made.answer, outcome)
    }

    /// Tells of what a vBucket replied to a durable write of this waiter, and answers or awaits.
    #[tactic(auto, unfolding(crate::specs::Serving::durable_replied))]
    pub fn tell_durable(&mut self, waiter: u64, f: &Frame, reply: Option<VbReply>) -> Alloc<()>
        ensures { OnOk result (self.new ≡ durable_replied waiter f.now self.old reply) }
    {
        let told = match &reply {
            None => self.refuse(f, Status::NotMyVbucket),
            Some(made) => self.tell_made(waiter, f, made),
        };
        drop(reply);
        told
    }

    /// Tells of a fault of a header, which closes the connection.
    pub fn tell_fault(&mut self, head: Option<FaultyHead>) -> Alloc<()>
        ensures { OnOk result (self.new ≡ with_lines self.old (fault_lines self.old.session.who.node self.old.session.who.client head)) }
    {
        if let Some(head) = head {
            self.tell_status(head.opcode, head.opaque, Status::Einval)?;
        }
        self.events.push(Event::Closed {
            node: self.who.node,
            client: self.who.client,
        })
    }
}
