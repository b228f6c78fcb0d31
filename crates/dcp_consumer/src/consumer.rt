//! A consumer, a machine that makes no call.
ghost use Rattle.std.specs.Prelude.{◌≡◌, ◌++◌, ◌+◌, ◌<◌, ◌^◌, false, true, IfOk, OnOk, OnErr};
ghost use Rattle.{dcp_consumer.specs.Dialing.{requests}, dcp_consumer.specs.Machine.{dialed_consumer, ended_for, over_why, frame_step, consumer_step, granted, request_again, again, is_streaming, may_acknowledge, acknowledged, state_of, taking_after, taking_of}};
ghost use Rattle.dcp_consumer.specs.{Counting.{bytes_acknowledged}, Noops.{noop_answered}, States.{state_answered}};

use crate::answers::response_step;
use crate::messages::message_step;
use crate::requests::{flagged, send, stream_opaque, write_requests};
use crate::{Alloc, ConsumerStep, Dialed, Handshake};
use bytes::BytesMut;
use mcbp_dcp::DcpMsg;
use mcbp_frame::{Frame, RESPONSE};
use std::alloc::{AllocError, Global};
use std::marker::Model;
use takeover::{TakeOver, TakeStep};
use vb_events::EndReason;
use vb_types::{Role, Status, StreamAsk};

/// A consumer of a link. After want of memory it is spent: it takes no frame, and asks nothing.
#[derive(Drop)]
pub struct Consumer {
    alloc: Global,
    dialed: Dialed,
    handshake: Handshake,
    asked: u32,
    acked: u64,
    taking: TakeOver,
    spent: bool,
}

/// The state that asks for a step of a takeover.
fn state_of(take: TakeStep) -> Role
    ensures { result ≡ state_of take }
{
    match take {
        TakeStep::Pend => Role::Pending,
        TakeStep::Own => Role::Active,
    }
}

impl Model for Consumer {
    ghost use Rattle.dcp_consumer.specs.Machine.{KeptConsumer};

    ghost Value = { KeptConsumer };

    ghost view = { λ c. record { plain = record { dialed = c.dialed; handshake = c.handshake; asked = c.asked; acked = c.acked; taking = c.taking }; spent = c.spent } };
}

impl Consumer {
    /// Asks for a stream: appends the requests for the producer, and waits for the first answer.
    pub fn dial(alloc: Global, dialed: Dialed, ask: StreamAsk, out: &mut BytesMut) -> Alloc<Self>
        ensures consumer { IfOk result (λ c. c ≡ record { plain = dialed_consumer dialed; spent = false }) }
        ensures requests { OnOk result (out.new.items ≡ out.old.items ++ requests dialed ask) }
    {
        write_requests(dialed, ask, out)?;
        Ok(Consumer {
            alloc,
            dialed,
            handshake: Handshake::Opening,
            asked: stream_opaque(dialed.buffer),
            acked: 0,
            taking: TakeOver::new(),
            spent: false,
        })
    }

    /// Which link it is of, and whose vBucket it feeds.
    pub fn dialed(&self) -> Dialed
        ensures { result ≡ self.now.plain.dialed }
    {
        self.dialed
    }

    /// Why its link is over, if it is.
    pub fn over(&self) -> Option<EndReason>
        ensures { result ≡ over_why self.now.plain.handshake }
    {
        self.handshake.over()
    }

    /// Begins a call: the consumer is spent until it went well. One that was spent answers an `Err`.
    fn begin(&mut self) -> Alloc<()>
        ensures ok { OnOk result (self.old.spent ≡ false) }
        ensures spent { self.new ≡ record self.old { spent = true } }
    {
        if std::mem::replace(&mut self.spent, true) {
            return Err(AllocError);
        }
        Ok(())
    }

    /// How far it is, if it takes states: its stream was granted, and its link takes the vBucket over.
    fn taking(&self) -> Option<TakeOver>
        ensures { result ≡ taking_of self.now.plain }
    {
        if self.is_streaming() && self.dialed.takeover {
            Some(self.taking)
        } else {
            None
        }
    }

    /// What a frame comes to: nothing once the link is over.
    #[tactic(auto, unfolding(crate::specs::Machine::frame_step, crate::specs::Machine::unstated_step))]
    fn step_of(&self, frame: &Frame) -> Alloc<ConsumerStep>
        ensures { IfOk result (λ step. step ≡ frame_step self.now.plain frame.now) }
    {
        if self.handshake.over().is_some() {
            return Ok(ConsumerStep::Dropped);
        }
        if frame.magic == RESPONSE {
            let buffer = self.dialed.buffer;
            return response_step(self.alloc, buffer, self.handshake, self.asked, frame);
        }
        message_step(self.alloc, self.handshake, self.taking(), frame)
    }

    /// Notes the state that a step obeys.
    fn note_state(&mut self, step: &ConsumerStep)
        ensures { self.new ≡ record self.old { plain = record self.old.plain { taking = taking_after step.now self.old.plain.taking } } }
    {
        if let ConsumerStep::State { take, .. } = step {
            let _ = self.taking.state(state_of(*take));
        }
    }

    /// Takes a frame, and says what it comes to. One that asks for a log to be taken over, or for a
    /// rollback, is followed by `granted` or `roll_done`, or by `end`, a NOOP by `answer_noop`, and a
    /// state by `answer_state` or `end`.
    pub fn feed(&mut self, frame: &Frame) -> Alloc<ConsumerStep>
        ensures step { IfOk result (λ step. step ≡ (consumer_step self.old.plain frame.now).1) }
        ensures ok { OnOk result (self.new ≡ record self.old { plain = (consumer_step self.old.plain frame.now).0 }) }
        ensures whole { OnOk result (self.old.spent ≡ false) }
        ensures err { OnErr result (self.new ≡ record self.old { spent = true }) }
    {
        self.begin()?;
        let step = self.step_of(frame)?;
        self.spent = false;
        self.note_state(&step);
        self.handshake = self.handshake.after(self.dialed.buffer, &step);
        Ok(step)
    }

    /// The vBucket took over the log that was told: the stream is granted.
    pub fn granted(&mut self)
        ensures { self.new ≡ record self.old { plain = granted self.old.plain } }
    {
        self.handshake = self.handshake.granted();
    }

    /// Appends one more request for a stream, with the next opaque.
    fn ask_again(&mut self, ask: StreamAsk, out: &mut BytesMut) -> Alloc<()>
        requires { self.old.plain.asked + 1 < 2 ^ 32 }
        ensures ok { OnOk result (self.new ≡ record self.old { plain = (request_again ask self.old.plain).0 }) }
        ensures request { OnOk result (out.new.items ≡ out.old.items ++ (request_again ask self.old.plain).1) }
        ensures err { OnErr result (self.new ≡ self.old) }
    {
        let opaque = self.asked + 1;
        let ask = flagged(self.dialed.takeover, ask);
        send(DcpMsg::StreamRequest { ask }, opaque, self.dialed.vb, out)?;
        self.asked = opaque;
        Ok(())
    }

    /// The vBucket went back, and asks for this now: appends one more request for the producer, with
    /// the next opaque. Where none is left, the link is over.
    pub fn roll_done(&mut self, ask: StreamAsk, out: &mut BytesMut) -> Alloc<()>
        ensures ok { OnOk result (self.new ≡ record self.old { plain = (again ask self.old.plain).0 }) }
        ensures request { OnOk result (out.new.items ≡ out.old.items ++ (again ask self.old.plain).1) }
        ensures whole { OnOk result (self.old.spent ≡ false) }
        ensures err { OnErr result (self.new ≡ record self.old { spent = true }) }
        ensures dialed { self.new.plain.dialed ≡ self.old.plain.dialed }
    {
        self.begin()?;
        match self.handshake {
            Handshake::Asking if self.asked < u32::MAX => self.ask_again(ask, out)?,
            Handshake::Asking => self.end(EndReason::Protocol),
            _ => {}
        }
        self.spent = false;
        Ok(())
    }

    /// Whether it has to acknowledge this seqno: its stream was granted, and the seqno is above the
    /// last one that it acknowledged.
    pub fn may_acknowledge(&self, seq: u64) -> bool
        ensures { result ≡ may_acknowledge seq self.now.plain }
    {
        matches!(self.handshake, Handshake::Streaming) && self.acked < seq
    }

    /// Whether the stream was granted, and is not over.
    pub fn is_streaming(&self) -> bool
        ensures { result ≡ is_streaming self.now.plain.handshake }
    {
        matches!(self.handshake, Handshake::Streaming)
    }

    /// Acknowledges all up to a seqno: appends SEQNO_ACKNOWLEDGED, with the opaque of its stream.
    pub fn acknowledge(&mut self, seq: u64, out: &mut BytesMut) -> Alloc<()>
        ensures ok { OnOk result (self.new ≡ record self.old { plain = (acknowledged seq self.old.plain).0 }) }
        ensures message { OnOk result (out.new.items ≡ out.old.items ++ (acknowledged seq self.old.plain).1) }
        ensures whole { OnOk result (self.old.spent ≡ false) }
        ensures err { OnErr result (self.new ≡ record self.old { spent = true }) }
    {
        self.begin()?;
        let message = DcpMsg::SeqnoAcknowledged { seq };
        send(message, self.asked, self.dialed.vb, out)?;
        self.spent = false;
        self.acked = seq;
        Ok(())
    }

    /// Acknowledges so many bytes of the stream: appends BUFFER_ACKNOWLEDGEMENT, with the opaque of its
    /// stream.
    pub fn acknowledge_bytes(&mut self, bytes: u32, out: &mut BytesMut) -> Alloc<()>
        ensures ok { OnOk result (self.new ≡ self.old) }
        ensures message { OnOk result (out.new.items ≡ out.old.items ++ bytes_acknowledged bytes self.old.plain) }
        ensures whole { OnOk result (self.old.spent ≡ false) }
        ensures err { OnErr result (self.new ≡ record self.old { spent = true }) }
    {
        self.begin()?;
        let message = DcpMsg::BufferAcknowledgement { bytes };
        send(message, self.asked, 0, out)?;
        self.spent = false;
        Ok(())
    }

    /// Answers the NOOP with this opaque: appends Success, with the same opaque.
    pub fn answer_noop(&mut self, opaque: u32, out: &mut BytesMut) -> Alloc<()>
        ensures ok { OnOk result (self.new ≡ self.old) }
        ensures answer { OnOk result (out.new.items ≡ out.old.items ++ noop_answered opaque) }
        ensures whole { OnOk result (self.old.spent ≡ false) }
        ensures err { OnErr result (self.new ≡ record self.old { spent = true }) }
    {
        self.begin()?;
        let status = Status::Success.code();
        send(DcpMsg::NoopAnswer { status }, opaque, 0, out)?;
        self.spent = false;
        Ok(())
    }

    /// Answers the state with this opaque, which the vBucket obeyed: appends Success, with the same
    /// opaque.
    pub fn answer_state(&mut self, opaque: u32, out: &mut BytesMut) -> Alloc<()>
        ensures ok { OnOk result (self.new ≡ self.old) }
        ensures answer { OnOk result (out.new.items ≡ out.old.items ++ state_answered opaque) }
        ensures whole { OnOk result (self.old.spent ≡ false) }
        ensures err { OnErr result (self.new ≡ record self.old { spent = true }) }
    {
        self.begin()?;
        let status = Status::Success.code();
        send(DcpMsg::StateAnswer { status }, opaque, 0, out)?;
        self.spent = false;
        Ok(())
    }

    /// Ends the link for this reason.
    pub fn end(&mut self, why: EndReason)
        ensures { self.new ≡ record self.old { plain = ended_for why self.old.plain } }
    {
        self.handshake = Handshake::Over(why);
    }
}
