//! A producer, and what it is asked.
ghost use Rattle.std.specs.Prelude.{◌≡◌, [], IfOk, OnErr, false, true};
ghost use Rattle.{dcp_producer.specs.Dropping.{cursor_dropped, flag_said}, dcp_producer.specs.Ending.{ended_by, end_closed}, dcp_producer.specs.Producers.{new_end, begun}, dcp_producer.specs.Pulling.{frames_put}};
ghost use Rattle.{dcp_producer.specs.Serving.{frame_answered}, dcp_producer.specs.Giving.{given_up}, dcp_producer.specs.Wanting.{Cut, Remains, Stays}, vb_calls.specs.Jobs.{BeganJob, RanJob}, vb_calls.specs.Programs.{Ran, Began, Call, Done}};
ghost use Rattle.vb_calls.specs.declared.calls.VbCall.TheVariants.{CloseStream, DropCursor};

use crate::pulls::Quiet;
use crate::replies::flag_said;
use crate::{Alloc, Connection, Desk, Halt, Yielded};
use bytes::BytesMut;
use mcbp_frame::Frame;
use std::alloc::{AllocError, Global};
use std::marker::Model;
use vb_calls::{Journals, Resolved, VbAccess, VbCall};
use vb_events::Event;
use vb_types::Listed;

/// What an answer comes to: the lines that tell of it, the bytes for the consumer, and what became
/// of durable writes that are waited for.
#[derive(Drop)]
pub struct Asked {
    pub events: Listed<Event>,
    pub out: BytesMut,
    pub resolved: Listed<Resolved>,
}

/// What a pull comes to: how many frames were put and why no more, the lines that tell of them, and
/// the bytes for the consumer.
#[derive(Drop)]
pub struct Pulled {
    pub count: u64,
    pub halt: Halt,
    pub events: Listed<Event>,
    pub out: BytesMut,
}

/// The producer of a connection. After want of memory it only ends and closes its streams.
#[derive(Drop)]
pub struct Producer {
    connection: Connection,
    quiet: Quiet,
    spent: bool,
}

impl Model for Producer {
    ghost use Rattle.std.specs.Prelude.{◌≡◌};
    ghost use Rattle.dcp_producer.specs.Producers.{KeptProducer, begun};

    ghost Value = { KeptProducer };

    ghost view = { λ p. record { plain = p.connection.end; spent = p.spent } };

    ghost invariant = { λ p. p.connection ≡ begun p.connection.end };
}

/// Closes the stream of this number at a vBucket.
pub fn close_stream<A: VbAccess>(vbs: &mut A, vb: u16, id: u64)
    ensures { Ran A.step (Call vb (CloseStream id) (λ reply. Done (tt {0}))) vbs.old tt vbs.new }
{
    match vbs.call(vb, VbCall::CloseStream { id }) {
        Ok(closed) => drop(closed),
        Err(_) => unreachable!(),
    }
}

/// Takes away the cursor of the stream of this number at a vBucket, and says whether it had one.
pub fn drop_cursor<A: VbAccess>(vbs: &mut A, vb: u16, id: u64) -> bool
    ensures { Ran A.step (Call vb (DropCursor id) (λ reply. Done (flag_said reply))) vbs.old result vbs.new }
{
    match vbs.call(vb, VbCall::DropCursor { id }) {
        Ok(reply) => flag_said(reply),
        Err(_) => unreachable!(),
    }
}

impl Producer {
    /// The producer of a new connection.
    pub fn new(alloc: Global, desk: Desk) -> Producer
        ensures { result ≡ record { plain = new_end desk; spent = false } }
    {
        Producer {
            connection: Connection::new(alloc, desk),
            quiet: Quiet::new(alloc),
            spent: false,
        }
    }

    /// Answers a frame of the consumer.
    #[tactic(auto, using(vb_calls::proofs::Runs::runs))]
    pub fn answer<A: VbAccess>(&mut self, vbs: &mut A, frame: &Frame) -> Alloc<Asked>
        ensures ok { IfOk result (λ asked. Ran A.step (frame_answered frame.now (begun self.old.plain)) vbs.old (record { end = self.new.plain; events = asked.events; out = asked.out.items; count = 0; resolved = asked.resolved }) vbs.new) }
        ensures kept { IfOk result (λ asked. (self.old.spent ≡ false) × (self.new.spent ≡ false)) }
        ensures err { OnErr result (Began A.step (frame_answered frame.now (begun self.old.plain)) vbs.old vbs.new) }
        ensures spent { OnErr result (self.new.spent ≡ true) }
        ensures over { OnErr result (self.old.spent ≡ true → vbs.new ≡ vbs.old) }
        ensures still { OnErr result (self.old.spent ≡ true → self.new ≡ self.old) }
        ensures cut { OnErr result (Cut A.step (frame_answered frame.now (begun self.old.plain)) self.old.plain vbs.old self.new.plain vbs.new) }
        ensures desk { self.new.plain.desk ≡ self.old.plain.desk }
    {
        if self.spent {
            return Err(AllocError);
        }
        let answered = self.connection.answer_frame(vbs, frame);
        let asked = self.connection.told();
        self.spent = answered.is_err();
        answered?;
        Ok(asked)
    }

    /// Gives up the vBuckets that are to be in front of a pull of so many frames, each to the one that
    /// its stream feeds, in the order in which the streams were opened; none where no frame is asked
    /// for, or the window is shut. A stream of which the vBucket is not given up is ended.
    #[tactic(auto, using(vb_calls::proofs::Runs::runs))]
    pub fn give_up<A: VbAccess>(&mut self, vbs: &mut A, frames: u32) -> Alloc<Listed<Yielded>>
        ensures ok { IfOk result (λ yielded. Ran A.step (given_up frames self.old.plain) vbs.old (record { end = self.new.plain; yielded = yielded }) vbs.new) }
        ensures kept { IfOk result (λ yielded. (self.old.spent ≡ false) × (self.new.spent ≡ false)) }
        ensures err { OnErr result (Began A.step (given_up frames self.old.plain) vbs.old vbs.new) }
        ensures spent { OnErr result (self.new.spent ≡ true) }
        ensures over { OnErr result (self.old.spent ≡ true → vbs.new ≡ vbs.old) }
        ensures still { OnErr result (self.old.spent ≡ true → self.new ≡ self.old) }
        ensures same { Remains self.old.plain self.new.plain }
        ensures desk { self.new.plain.desk ≡ self.old.plain.desk }
    {
        if self.spent {
            return Err(AllocError);
        }
        let given = self.connection.give_up(vbs, frames);
        self.spent = given.is_err();
        given
    }

    /// Puts at most so many frames of the streams, which take turns frame by frame.
    #[tactic(auto, using(vb_calls::proofs::JobRuns::jobs))]
    pub fn pull<A: VbAccess, J: Journals>(
        &mut self,
        vbs: &mut A,
        disks: &mut J,
        frames: u32,
    ) -> Alloc<Pulled>
        ensures ok { IfOk result (λ pulled. RanJob A.step J.asks (frames_put frames (begun self.old.plain)) vbs.old disks.old (record { end = self.new.plain; events = pulled.events; out = pulled.out.items; count = pulled.count; resolved = [] }, pulled.halt) vbs.new disks.new) }
        ensures kept { IfOk result (λ pulled. (self.old.spent ≡ false) × (self.new.spent ≡ false)) }
        ensures err { OnErr result (BeganJob A.step J.asks (frames_put frames (begun self.old.plain)) vbs.old disks.old vbs.new disks.new) }
        ensures spent { OnErr result (self.new.spent ≡ true) }
        ensures over { OnErr result (self.old.spent ≡ true → (vbs.new ≡ vbs.old) × (disks.new ≡ disks.old)) }
        ensures still { OnErr result (self.old.spent ≡ true → self.new ≡ self.old) }
        ensures same { OnErr result (Stays self.old.plain self.new.plain) }
        ensures desk { self.new.plain.desk ≡ self.old.plain.desk }
    {
        if self.spent {
            return Err(AllocError);
        }
        let none = Quiet::new(self.connection.alloc);
        let mut quiet = std::mem::replace(&mut self.quiet, none);
        let halted = self.connection.pull(vbs, disks, &mut quiet, frames);
        self.quiet = quiet;
        let count = self.connection.count;
        let Asked { events, out, .. } = self.connection.told();
        self.spent = halted.is_err();
        let halt = halted?;
        Ok(Pulled {
            count,
            halt,
            events,
            out,
        })
    }

    /// Ends the streams of `vb` that a change of role there ended. The end of each is put behind
    /// the items that were taken.
    pub fn ended(&mut self, vb: u16, ids: &[u64])
        ensures plain { self.new.plain ≡ ended_by vb ids.now self.old.plain }
        ensures spent { self.new.spent ≡ self.old.spent }
    {
        self.connection.end_streams(vb, ids);
    }

    /// Takes away the cursor of the stream of `vb`, and says whether it had one. There is none where
    /// there is no such stream, or a change of role ended it.
    pub fn drop_cursor<A: VbAccess>(&self, vbs: &mut A, vb: u16) -> bool
        ensures { Ran A.step (cursor_dropped vb self.now.plain) vbs.old result vbs.new }
    {
        self.connection.drop_cursor(vbs, vb)
    }

    /// Closes the streams at their vBuckets, in the order in which they were opened. One that a
    /// change of role ended is closed already.
    #[tactic(auto, unfolding(crate::specs::Ending::end_closed))]
    pub fn close<A: VbAccess>(&self, vbs: &mut A)
        ensures { Ran A.step (end_closed self.now.plain) vbs.old tt vbs.new }
    {
        self.connection.close_streams(vbs);
    }
}
