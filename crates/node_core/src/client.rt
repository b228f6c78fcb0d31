//! A client's connection: its session, and the producer of the streams that it asks for.
ghost use Rattle.std.specs.Prelude.{◌≡◌, ◌++◌, false, true, take, drop, Some, None, IfOk, OnOk, OnErr};
ghost use Rattle.{std.specs.List.{All}, client_session.specs.Serving.{awaits}, dcp_producer.specs.{Dropping.{cursor_dropped}, Ending.{end_closed}}, node_core.specs.Outs.{client_out, client_pull_out, client_pulled_by, handling_by}};
ghost use Rattle.node_core.specs.Clients.{IsProducers, client_ended, client_fed, client_posted, client_pulled, closed_if, frames_passed, front_len, handling, new_client, passed_by, reply_alone, with_replies};
ghost use Rattle.vb_calls.specs.{Jobs.{RanJob, BeganJob}, Programs.{Ran, Began, More, bind}};

use crate::copies::copy_line;
use crate::out::bytes_of;
use crate::{Alloc, NodeOut};
use bytes::Bytes;
use client_session::{Session, SessionStep, Who};
use dcp_producer::{Desk, Producer};
use mcbp_frame::{Frame, HEADER_LEN};
use std::alloc::{AllocError, Global};
use std::marker::Model;
use vb_calls::{Journals, Resolved, VbAccess};
use vb_events::{Answer, Event, StreamName};
use vb_types::Listed;

/// A client's connection: its session, and the producer of its streams. After want of memory it is
/// spent: it does nothing any more but close its streams. Both stand in boxes, as each call takes the
/// connection out of its node's table and puts it back.
#[derive(Drop)]
pub struct Client {
    alloc: Global,
    session: Box<Session>,
    producer: Box<Producer>,
    spent: bool,
}

impl Model for Client {
    ghost use Rattle.node_core.specs.Clients.{KeptClient};

    ghost Value = { KeptClient };

    ghost view = { λ c. record { plain = record { session = c.session.value.plain; producer = c.producer.value.plain }; spent = c.spent } };
}

/// The length of the frame that bytes begin with, by its header.
fn front_len(bytes: &[u8]) -> usize
    ensures { result ≡ front_len bytes.now }
{
    if bytes.len() < HEADER_LEN {
        return bytes.len();
    }
    let body = u32::from_be_bytes([bytes[8], bytes[9], bytes[10], bytes[11]]);
    HEADER_LEN + body as usize
}

/// Takes the frame that bytes begin with off them.
fn take_front(bytes: &mut Bytes) -> Alloc<Bytes>
    ensures front { IfOk result (λ front. front ≡ take (front_len bytes.old) bytes.old) }
    ensures rest { OnOk result (bytes.new ≡ drop (front_len bytes.old) bytes.old) }
{
    let len = front_len(bytes).min(bytes.len());
    bytes.split_to(len)
}

/// Tells a client of an answer that no line tells of, if there is one.
fn tell_alone(who: Who, bytes: Bytes, lines: &mut Listed<Event>) -> Alloc<()>
    ensures { OnOk result (lines.new ≡ lines.old ++ reply_alone who.node who.client bytes) }
{
    if bytes.is_empty() {
        return Ok(());
    }
    lines.push(Event::Reply {
        node: who.node,
        client: who.client,
        bytes,
    })
}

/// Tells a client of these lines, each with the frame that it tells of directly behind it, and of an
/// answer that no line tells of.
fn deliver(
    alloc: Global,
    who: Who,
    told: &Listed<Event>,
    mut out: Bytes,
    lines: &mut Listed<Event>,
) -> Alloc<()>
    requires { All IsProducers told.now }
    ensures { OnOk result (lines.new ≡ lines.old ++ with_replies who.node who.client told.now out) }
{
    for line in told.as_slice() {
        lines.push(copy_line(alloc, line)?)?;
        lines.push(Event::Reply {
            node: who.node,
            client: who.client,
            bytes: take_front(&mut out)?,
        })?;
    }
    tell_alone(who, out, lines)
}

impl Client {
    /// A new connection.
    pub fn new(alloc: Global, who: Who) -> Alloc<Client>
        ensures { IfOk result (λ client. client ≡ record { plain = new_client who; spent = false }) }
    {
        let desk = Desk {
            stream: StreamName::Client(who.node, who.client),
            node: who.node,
            base: who.base,
        };
        Ok(Client {
            alloc,
            session: Box::new(alloc, Session::new(alloc, who)?)?,
            producer: Box::new(alloc, Producer::new(alloc, desk))?,
            spent: false,
        })
    }

    /// Whether the outcome for this waiter is awaited.
    pub fn awaits(&self, waiter: u64) -> bool
        ensures { result ≡ awaits waiter self.now.plain.session.awaited }
    {
        self.session.awaits(waiter)
    }

    /// Has the producer answer a frame that the session handed up, and the session go on.
    #[tactic(auto, using(vb_calls::proofs::Runs::runs))]
    fn pass_on<A: VbAccess>(
        &mut self,
        vbs: &mut A,
        clock: u64,
        frame: &Frame,
        step: &mut SessionStep,
    ) -> Alloc<()>
        ensures ok { OnOk result (Ran A.step (passed_by clock (handling self.old.plain step.old) (Some frame.now)) vbs.old (More (handling self.new.plain step.new)) vbs.new) }
        ensures err { OnErr result (Began A.step (passed_by clock (handling self.old.plain step.old) (Some frame.now)) vbs.old vbs.new) }
        ensures closed { OnOk result (step.new.closed ≡ self.new.plain.session.closed) }
        ensures spent { self.new.spent ≡ self.old.spent }
        ensures desk { self.new.plain.producer.desk ≡ self.old.plain.producer.desk }
    {
        let asked = self.producer.answer(vbs, frame)?;
        let out = bytes_of(asked.out)?;
        let who = self.session.who();
        deliver(self.alloc, who, &asked.events, out, &mut step.events)?;
        let next = self.session.feed(vbs, clock, &[])?;
        step.events.append(next.events)?;
        step.dcp = next.dcp;
        step.closed = next.closed;
        Ok(())
    }

    /// Goes on behind what the session did, until it hands no frame up.
    fn pass_frames<A: VbAccess>(
        &mut self,
        vbs: &mut A,
        clock: u64,
        step: &mut SessionStep,
    ) -> Alloc<()>
        requires { step.old.closed ≡ self.old.plain.session.closed }
        ensures ok { OnOk result (Ran A.step (frames_passed clock (handling self.old.plain step.old)) vbs.old (handling self.new.plain step.new) vbs.new) }
        ensures err { OnErr result (Began A.step (frames_passed clock (handling self.old.plain step.old)) vbs.old vbs.new) }
        ensures none { OnOk result (step.new.dcp ≡ None) }
        ensures closed { OnOk result (step.new.closed ≡ self.new.plain.session.closed) }
        ensures spent { self.new.spent ≡ self.old.spent }
        ensures desk { self.new.plain.producer.desk ≡ self.old.plain.producer.desk }
    {
        while let Some(frame) = step.dcp.take() {
            let passed = self.pass_on(vbs, clock, &frame, step);
            drop(frame);
            passed?;
        }
        Ok(())
    }

    /// The same, and hands out what was told; the streams of a connection that closed are closed at
    /// their vBuckets.
    #[tactic(auto, using(vb_calls::proofs::Runs::runs))]
    fn go_on<A: VbAccess>(
        &mut self,
        vbs: &mut A,
        clock: u64,
        mut step: SessionStep,
    ) -> Alloc<NodeOut>
        requires { step.closed ≡ self.old.plain.session.closed }
        ensures ok { IfOk result (λ out. Ran A.step (bind (frames_passed clock (handling self.old.plain step)) (λ h. closed_if h.client.session.closed h)) vbs.old (handling_by self.new.plain out) vbs.new) }
        ensures said { IfOk result (λ out. out ≡ client_out (handling_by self.new.plain out)) }
        ensures err { OnErr result (Began A.step (bind (frames_passed clock (handling self.old.plain step)) (λ h. closed_if h.client.session.closed h)) vbs.old vbs.new) }
        ensures spent { self.new.spent ≡ self.old.spent }
        ensures desk { self.new.plain.producer.desk ≡ self.old.plain.producer.desk }
    {
        self.pass_frames(vbs, clock, &mut step)?;
        if step.closed {
            self.producer.close(vbs);
        }
        Ok(NodeOut::done(self.alloc, step.events, Bytes::new()).closed_if(step.closed))
    }

    /// Takes the next bytes from the client, while the node's clock shows `clock` nanoseconds.
    #[tactic(auto, using(vb_calls::proofs::Runs::runs), unfolding(crate::specs::Clients::client_fed))]
    pub fn feed<A: VbAccess>(&mut self, vbs: &mut A, clock: u64, piece: &[u8]) -> Alloc<NodeOut>
        ensures ok { IfOk result (λ out. Ran A.step (client_fed clock piece.now self.old.plain) vbs.old (handling_by self.new.plain out) vbs.new) }
        ensures said { IfOk result (λ out. out ≡ client_out (handling_by self.new.plain out)) }
        ensures kept { IfOk result (λ out. (self.old.spent ≡ false) × (self.new.spent ≡ false)) }
        ensures err { OnErr result (Began A.step (client_fed clock piece.now self.old.plain) vbs.old vbs.new) }
        ensures spent { OnErr result (self.new.spent ≡ true) }
        ensures over { OnErr result (self.old.spent ≡ true → vbs.new ≡ vbs.old) }
        ensures same { OnErr result (self.old.spent ≡ true → self.new ≡ self.old) }
        ensures desk { self.new.plain.producer.desk ≡ self.old.plain.producer.desk }
    {
        if std::mem::replace(&mut self.spent, true) {
            return Err(AllocError);
        }
        let step = self.session.feed(vbs, clock, piece)?;
        let out = self.go_on(vbs, clock, step)?;
        self.spent = false;
        Ok(out)
    }

    /// Takes what became of a durable write, while the node's clock shows `clock` nanoseconds.
    #[tactic(auto, using(vb_calls::proofs::Runs::runs), unfolding(crate::specs::Clients::client_posted))]
    pub fn post<A: VbAccess>(
        &mut self,
        vbs: &mut A,
        clock: u64,
        outcome: Resolved,
    ) -> Alloc<NodeOut>
        ensures ok { IfOk result (λ out. Ran A.step (client_posted clock outcome self.old.plain) vbs.old (handling_by self.new.plain out) vbs.new) }
        ensures said { IfOk result (λ out. out ≡ client_out (handling_by self.new.plain out)) }
        ensures kept { IfOk result (λ out. (self.old.spent ≡ false) × (self.new.spent ≡ false)) }
        ensures err { OnErr result (Began A.step (client_posted clock outcome self.old.plain) vbs.old vbs.new) }
        ensures spent { OnErr result (self.new.spent ≡ true) }
        ensures over { OnErr result (self.old.spent ≡ true → vbs.new ≡ vbs.old) }
        ensures same { OnErr result (self.old.spent ≡ true → self.new ≡ self.old) }
        ensures desk { self.new.plain.producer.desk ≡ self.old.plain.producer.desk }
    {
        if std::mem::replace(&mut self.spent, true) {
            return Err(AllocError);
        }
        let step = self.session.resolved(vbs, clock, outcome)?;
        let out = self.go_on(vbs, clock, step)?;
        self.spent = false;
        Ok(out)
    }

    /// Puts at most so many frames of the streams, each as a reply behind its line.
    #[tactic(auto, using(vb_calls::proofs::JobRuns::jobs))]
    pub fn pull<A: VbAccess, J: Journals>(
        &mut self,
        vbs: &mut A,
        disks: &mut J,
        frames: u32,
    ) -> Alloc<NodeOut>
        ensures ok { IfOk result (λ out. RanJob A.step J.asks (client_pulled frames self.old.plain) vbs.old disks.old (client_pulled_by self.new.plain out) vbs.new disks.new) }
        ensures said { IfOk result (λ out. out ≡ client_pull_out (client_pulled_by self.new.plain out)) }
        ensures kept { IfOk result (λ out. (self.old.spent ≡ false) × (self.new.spent ≡ false)) }
        ensures err { OnErr result (BeganJob A.step J.asks (client_pulled frames self.old.plain) vbs.old disks.old vbs.new disks.new) }
        ensures spent { OnErr result (self.new.spent ≡ true) }
        ensures over { OnErr result (self.old.spent ≡ true → (vbs.new ≡ vbs.old) × (disks.new ≡ disks.old)) }
        ensures same { OnErr result (self.old.spent ≡ true → self.new ≡ self.old) }
        ensures desk { self.new.plain.producer.desk ≡ self.old.plain.producer.desk }
    {
        if std::mem::replace(&mut self.spent, true) {
            return Err(AllocError);
        }
        let pulled = self.producer.pull(vbs, disks, frames)?;
        let out = bytes_of(pulled.out)?;
        let mut lines = Listed::new(self.alloc);
        let who = self.session.who();
        deliver(self.alloc, who, &pulled.events, out, &mut lines)?;
        self.spent = false;
        let answer = Answer::Pulled(pulled.count, pulled.halt.why());
        Ok(NodeOut::told(self.alloc, lines, Bytes::new(), answer))
    }

    /// Ends the streams that a change of role at the vBucket `vb` ended.
    pub fn ended(&mut self, vb: u16, ids: &[u64])
        ensures { self.new ≡ record self.old { plain = client_ended vb ids.now self.old.plain } }
    {
        self.producer.ended(vb, ids);
    }

    /// Takes the cursor of its stream of the vBucket `vb` away: whether it had one.
    pub fn drop_cursor<A: VbAccess>(&self, vbs: &mut A, vb: u16) -> bool
        ensures { Ran A.step (cursor_dropped vb self.now.plain.producer) vbs.old result vbs.new }
    {
        self.producer.drop_cursor(vbs, vb)
    }

    /// Closes the streams at their vBuckets, since the connection ends.
    pub fn close<A: VbAccess>(&self, vbs: &mut A)
        ensures { Ran A.step (end_closed self.now.plain.producer) vbs.old tt vbs.new }
    {
        self.producer.close(vbs);
    }
}
