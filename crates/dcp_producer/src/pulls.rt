//! How a producer puts the frames of its streams, in turn and through its window.
ghost use Rattle.std.specs.Prelude.{◌≡◌, ◌≤◌, length, ◌+◌, ◌<◌, ◌^◌, IsTrue, IfOk, OnOk, OnErr, Some, slice_get};
ghost use Rattle.flow_control.specs.Windows.{is_open};
ghost use Rattle.dcp_producer.specs.Pulling.{Counts, came_as, frame_of, frame_put, frames_put, is_quiet, none_quiet, one_frame, one_turn, pull_of, quiet_halt, stream_asked, turn_of, with_quiet};
ghost use Rattle.{dcp_producer.specs.Frames.{IsPuttable}, dcp_producer.specs.Producers.{PlainStream}, dcp_producer.specs.Wanting.{Stays}, vb_calls.specs.Jobs.{BeganJob, RanJob}};
ghost use Rattle.mcbp_dcp.specs.DcpFrames.{dcp_frame, IsSpelled};

use crate::connection::place_of;
use crate::{Alloc, Connection, Halt, NextFrame, Waits};
use mcbp_dcp::DcpMsg;
use std::alloc::Global;
use std::marker::Model;
use vb_calls::{Journals, VbAccess};
use vb_events::Event;

/// What a turn of a stream comes to in a pull.
#[derive(Clone, Copy)]
pub enum Turned {
    /// A frame was put.
    Put,
    /// None was, and the next stream has its turn.
    Passed,
    /// The stream's journal can't be read, and the pull ends.
    Unread,
}

/// The streams that put nothing when they were asked in a pull, and what they wait for. They are asked no more in that pull: nobody else calls their vBuckets
/// meanwhile. `place` is where the next one is looked for first: they mostly stand in the order of
/// their turns.
#[derive(Drop)]
pub struct Quiet {
    ids: Vec<u64>,
    waits: Waits,
    place: usize,
}

impl Model for Quiet {
    ghost use Rattle.dcp_producer.specs.Pulling.{QuietOnes};

    ghost Value = { QuietOnes };

    ghost view = { λ q. record { ids = q.ids.items; waits = q.waits } };
}

impl Quiet {
    /// No stream.
    pub fn new(alloc: Global) -> Quiet
        ensures { result ≡ none_quiet }
    {
        Quiet {
            ids: Vec::new(alloc),
            waits: Waits::Nothing,
            place: 0,
        }
    }

    /// A pull begins. The memory is kept.
    fn begin(&mut self)
        ensures { self.new ≡ none_quiet }
    {
        self.ids.clear();
        self.waits = Waits::Nothing;
        self.place = 0;
    }

    /// Whether a stream was quiet before.
    fn has(&mut self, id: u64) -> bool
        ensures quiet { result ≡ is_quiet id self.old }
        ensures same { self.new ≡ self.old }
    {
        let place = if self.place < self.ids.len() {
            self.place
        } else {
            0
        };
        if self.ids.get(place).copied() == Some(id) {
            self.place = place + 1;
            return true;
        }
        self.ids.contains(&id)
    }

    /// A stream is quiet till the pull ends.
    fn add(&mut self, id: u64, waits: Waits) -> Alloc<()>
        ensures { OnOk result (self.new ≡ with_quiet id waits self.old) }
    {
        self.ids.push(id)?;
        self.waits = self.waits.or(waits);
        Ok(())
    }

    /// Why no more is put where no stream puts a frame.
    fn halt(&self) -> Halt
        ensures { result ≡ quiet_halt self.now }
    {
        self.waits.halt()
    }
}

impl Connection {
    /// Puts a frame of a stream on its way, tells of it and counts it, also in the window.
    fn put_frame(&mut self, message: DcpMsg, opaque: u32, vb: u16, line: Event) -> Alloc<()>
        requires spelled { IsSpelled message }
        requires open { IsTrue (is_open self.old.end.window) }
        requires few { self.old.count + 1 < 2 ^ 64 }
        ensures ok { OnOk result (self.new ≡ frame_put (dcp_frame message opaque vb) line self.old) }
        ensures err { OnErr result (self.new.end ≡ self.old.end) }
    {
        let before = self.out.len();
        self.tell(line)?;
        self.send(message, opaque, vb)?;
        self.window.add((self.out.len() - before) as u64);
        self.count += 1;
        Ok(())
    }

    /// Puts what a stream at this place has for its turn, or notes that it is quiet. Says what the turn
    /// came to.
    fn put_next(&mut self, quiet: &mut Quiet, at: usize, next: NextFrame) -> Alloc<Turned>
        requires there { at < length self.old.end.streams }
        requires spelled { IsPuttable next }
        requires open { IsTrue (is_open self.old.end.window) }
        requires few { self.old.count + 1 < 2 ^ 64 }
        ensures ok { (stream : PlainStream) → slice_get self.old.end.streams at ≡ Some stream → IfOk result (λ turned. turn_of turned (pull_of self.new quiet.new) ≡ came_as self.old quiet.old stream next) }
        ensures counts { IfOk result (λ turned. Counts turned self.old self.new) }
        ensures same { Stays self.old.end self.new.end }
    {
        let (id, opaque, vb) = self.streams[at].names();
        match next {
            NextFrame::Put { message, line } => {
                self.put_frame(message, opaque, vb, line)?;
                Ok(Turned::Put)
            }
            NextFrame::End { reason } => {
                self.drop_stream(id);
                let line = Event::Finished {
                    stream: self.desk.stream,
                    reason,
                };
                self.put_frame(DcpMsg::StreamEnd { reason }, opaque, vb, line)?;
                Ok(Turned::Put)
            }
            NextFrame::Quiet { waits } => {
                quiet.add(id, waits)?;
                Ok(Turned::Passed)
            }
            NextFrame::Disk => Ok(Turned::Unread),
        }
    }

    /// Asks the stream at this place for its next frame, and puts it, or notes that it is quiet.
    /// Says what its turn came to.
    fn ask_stream<A: VbAccess, J: Journals>(
        &mut self,
        vbs: &mut A,
        disks: &mut J,
        quiet: &mut Quiet,
        at: usize,
    ) -> Alloc<Turned>
        requires there { at < length self.old.end.streams }
        requires open { IsTrue (is_open self.old.end.window) }
        requires few { self.old.count + 1 < 2 ^ 64 }
        ensures ok { (stream : PlainStream) → slice_get self.old.end.streams at ≡ Some stream → IfOk result (λ turned. RanJob A.step J.asks (stream_asked self.old quiet.old stream) vbs.old disks.old (turn_of turned (pull_of self.new quiet.new)) vbs.new disks.new) }
        ensures err { (stream : PlainStream) → slice_get self.old.end.streams at ≡ Some stream → OnErr result (BeganJob A.step J.asks (stream_asked self.old quiet.old stream) vbs.old disks.old vbs.new disks.new) }
        ensures counts { IfOk result (λ turned. Counts turned self.old self.new) }
        ensures same { Stays self.old.end self.new.end }
    {
        let (alloc, name) = (self.alloc, self.desk.stream);
        let next = self.streams[at].next_frame(alloc, vbs, disks, name)?;
        self.put_next(quiet, at, next)
    }

    /// Gives the stream whose turn it is its turn, unless it was quiet before. Says what the turn
    /// came to.
    #[tactic(auto, using(vb_calls::proofs::JobRuns::jobs), unfolding(crate::specs::Pulling::one_turn))]
    fn take_turn<A: VbAccess, J: Journals>(
        &mut self,
        vbs: &mut A,
        disks: &mut J,
        quiet: &mut Quiet,
    ) -> Alloc<Turned>
        requires open { IsTrue (is_open self.old.end.window) }
        requires few { self.old.count + 1 < 2 ^ 64 }
        ensures ok { IfOk result (λ turned. RanJob A.step J.asks (one_turn (pull_of self.old quiet.old)) vbs.old disks.old (turn_of turned (pull_of self.new quiet.new)) vbs.new disks.new) }
        ensures err { OnErr result (BeganJob A.step J.asks (one_turn (pull_of self.old quiet.old)) vbs.old disks.old vbs.new disks.new) }
        ensures counts { IfOk result (λ turned. Counts turned self.old self.new) }
        ensures same { Stays self.old.end self.new.end }
    {
        let Some(id) = self.ring.next() else {
            return Ok(Turned::Passed);
        };
        if quiet.has(id) {
            return Ok(Turned::Passed);
        }
        match place_of(&self.streams, id) {
            Some(at) => self.ask_stream(vbs, disks, quiet, at),
            None => Ok(Turned::Passed),
        }
    }

    /// Puts one frame through the window, of the first stream in turn that has one; or says why
    /// there is none to put.
    #[tactic(auto, using(vb_calls::proofs::JobRuns::jobs), unfolding(crate::specs::Pulling::one_frame))]
    fn put_one_frame<A: VbAccess, J: Journals>(
        &mut self,
        vbs: &mut A,
        disks: &mut J,
        quiet: &mut Quiet,
    ) -> Alloc<Option<Halt>>
        requires few { self.old.count + 1 < 2 ^ 64 }
        ensures ok { IfOk result (λ halt. RanJob A.step J.asks (one_frame (pull_of self.old quiet.old)) vbs.old disks.old (frame_of halt (pull_of self.new quiet.new)) vbs.new disks.new) }
        ensures err { OnErr result (BeganJob A.step J.asks (one_frame (pull_of self.old quiet.old)) vbs.old disks.old vbs.new disks.new) }
        ensures count { IfOk result (λ halt. self.new.count ≤ self.old.count + 1) }
        ensures resolved { OnOk result (self.new.resolved ≡ self.old.resolved) }
        ensures same { Stays self.old.end self.new.end }
    {
        if !self.window.open() {
            return Ok(Some(Halt::Full));
        }
        for turn in 0..self.streams.len() {
            match self.take_turn(vbs, disks, quiet)? {
                Turned::Put => return Ok(None),
                Turned::Passed => {}
                Turned::Unread => return Ok(Some(Halt::Disk)),
            }
        }
        Ok(Some(quiet.halt()))
    }

    /// Puts at most so many frames of the streams, each with its line, and says why no more.
    #[tactic(auto, using(vb_calls::proofs::JobRuns::jobs), unfolding(crate::specs::Pulling::frames_put))]
    pub fn pull<A: VbAccess, J: Journals>(
        &mut self,
        vbs: &mut A,
        disks: &mut J,
        quiet: &mut Quiet,
        frames: u32,
    ) -> Alloc<Halt>
        requires { self.old.count ≡ 0 }
        ensures ok { IfOk result (λ halt. RanJob A.step J.asks (frames_put frames self.old) vbs.old disks.old (self.new, halt) vbs.new disks.new) }
        ensures err { OnErr result (BeganJob A.step J.asks (frames_put frames self.old) vbs.old disks.old vbs.new disks.new) }
        ensures resolved { OnOk result (self.new.resolved ≡ self.old.resolved) }
        ensures same { Stays self.old.end self.new.end }
    {
        quiet.begin();
        for turn in 0..frames {
            if let Some(halt) = self.put_one_frame(vbs, disks, quiet)? {
                return Ok(halt);
            }
        }
        Ok(Halt::All)
    }
}
