//! The dial of a vBucket: its consumer, and the calls that the consumer's steps ask for.
ghost use Rattle.std.specs.Prelude.{◌≡◌, ◌++◌, map, [], false, true, IfOk, OnOk, OnErr, IsOk};
ghost use Rattle.dcp_consumer.specs.{Dialing.{requests}, Machine.{over_why}};
ghost use Rattle.node_core.specs.Dials.{DialResult, new_dial, is_over, untold, over_for, adopt_result, go_on_with, requested_once_more, rolled_back, roll_back, got_line, acknowledged_line, acknowledged_result, noop_met, due_met, due_requested, dial_due, taken_as, message_result, call_made, step_made, frame_taken, frames_taken, dial_bytes};
ghost use Rattle.{node_core.specs.Outs.{cut_line, dial_answer, dial_out, done_out}, vb_calls.specs.Jobs.{RanJob, BeganJob}, vb_calls.specs.Programs.{Ran, Began}};
ghost use Rattle.vb_events.specs.declared.event.Event.TheVariants.{Ended};

mod deliveries;
mod replies;
mod states;

use crate::out::bytes_of;
use crate::{Alloc, NodeOut};
use bytes::{Bytes, BytesMut};
use dcp_consumer::{Consumer, ConsumerStep, Dialed, Passive};
use mcbp_frame::{Frame, FrameReader};
use replies::{dues_of_reply, follower_ask, is_done};
use std::alloc::{AllocError, Global};
use std::marker::Model;
use vb_calls::{Journals, Rolled, VbAccess, VbAnswer, VbCall, VbReply, Wrote};
use vb_events::{EndReason, Event, StreamName};
use vb_types::{Change, Listed, LogEntry, StreamAsk};

/// A dial: the bytes that came and are no whole frame yet, and the consumer of its link; and in a
/// call the lines that tell what happened, and the bytes for the producer.
#[derive(Drop)]
struct DialTurn {
    alloc: Global,
    reader: FrameReader,
    consumer: Consumer,
    events: Listed<Event>,
    out: BytesMut,
}

impl Model for DialTurn {
    ghost use Rattle.node_core.specs.Dials.{DialResult};

    ghost Value = { DialResult };

    ghost view = { λ t. record {
      dial = record { heard = t.reader; consumer = t.consumer.plain };
      events = t.events;
      out = t.out.items;
    } };
}

impl DialTurn {
    /// The line that tells why the link is over.
    fn ended(&self, reason: EndReason) -> Event
        ensures { result ≡ Ended self.now.dial.consumer.dialed.link reason }
    {
        Event::Ended {
            link: self.consumer.dialed().link,
            reason,
        }
    }

    /// Whether the link is over.
    fn is_over(&self) -> bool
        ensures { result ≡ is_over self.now.dial }
    {
        self.consumer.over().is_some()
    }

    /// These lines and bytes are handed out. The answer is that the disk failed, where that is why the
    /// link is over.
    fn handed_out(&self, events: Listed<Event>, out: Bytes) -> NodeOut
        ensures { result ≡ record { events = events; out = out; answer = dial_answer (over_why self.now.dial.consumer.handshake); closed = is_over self.now.dial; resolved = [] } }
    {
        let fed = NodeOut::done(self.alloc, events, out).closed_if(self.is_over());
        match self.consumer.over() {
            Some(EndReason::Disk) => fed.noted(Wrote::DiskFailed),
            _ => fed,
        }
    }

    /// Takes out the lines that were told, and the bytes for the producer.
    fn told(&mut self) -> (Listed<Event>, BytesMut)
        ensures events { result.0 ≡ self.old.events }
        ensures out { result.1.items ≡ self.old.out }
        ensures rest { self.new ≡ untold self.old.dial }
    {
        let out = std::mem::replace(&mut self.out, BytesMut::new(self.alloc));
        let events = std::mem::replace(&mut self.events, Listed::new(self.alloc));
        (events, out)
    }

    /// Ends the link.
    fn break_off(&mut self, reason: EndReason) -> Alloc<()>
        ensures over { self.new ≡ over_for reason self.old }
        ensures sure { IsOk result }
    {
        self.consumer.end(reason);
        Ok(())
    }

    /// Acknowledges all up to a seqno, and tells of it; all up to `saved` is written down.
    fn write_acknowledgement(&mut self, seq: u64, saved: u64) -> Alloc<()>
        ensures ok { OnOk result (self.new ≡ acknowledged_result seq self.old saved) }
        ensures link { self.new.dial.consumer.dialed ≡ self.old.dial.consumer.dialed }
    {
        self.consumer.acknowledge(seq, &mut self.out)?;
        let Dialed { link, node, vb, .. } = self.consumer.dialed();
        self.events.push(Event::Acknowledged {
            stream: StreamName::Link(link),
            node,
            vb,
            seq,
            saved,
        })
    }

    /// Answers the producer's NOOP of this opaque; no line tells of it.
    fn answer_noop(&mut self, opaque: u32) -> Alloc<()>
        ensures ok { OnOk result (self.new ≡ noop_met opaque self.old) }
        ensures link { self.new.dial.consumer.dialed ≡ self.old.dial.consumer.dialed }
    {
        self.consumer.answer_noop(opaque, &mut self.out)
    }

    /// Acknowledges what is due, where it is above the last one that was acknowledged.
    fn meet_due(&mut self, due: Option<(u64, u64)>) -> Alloc<()>
        ensures ok { OnOk result (self.new ≡ due_met self.old due) }
        ensures link { self.new.dial.consumer.dialed ≡ self.old.dial.consumer.dialed }
    {
        let Some((seq, saved)) = due else {
            return Ok(());
        };
        if !self.consumer.may_acknowledge(seq) {
            return Ok(());
        }
        self.write_acknowledgement(seq, saved)
    }

    /// Asks the vBucket what it may acknowledge, while the stream is granted.
    #[tactic(auto, using(vb_calls::proofs::Runs::runs), unfolding(crate::specs::Dials::due_requested))]
    fn ask_due<A: VbAccess>(&mut self, vbs: &mut A) -> Alloc<()>
        ensures ok { OnOk result (Ran A.step (due_requested self.old) vbs.old self.new vbs.new) }
        ensures err { OnErr result (Began A.step (due_requested self.old) vbs.old vbs.new) }
        ensures link { self.new.dial.consumer.dialed ≡ self.old.dial.consumer.dialed }
    {
        if !self.consumer.is_streaming() {
            return Ok(());
        }
        let reply = vbs.call(self.consumer.dialed().vb, VbCall::Due)?;
        let due = dues_of_reply(&reply);
        drop(reply);
        self.meet_due(due)
    }

    /// Tells of the producer's failover log, where the vBucket took it over: the stream is granted. Any
    /// other reply ends the link.
    fn adopt_result(&mut self, log: Listed<LogEntry>, reply: &Option<VbReply>) -> Alloc<()>
        ensures ok { OnOk result (self.new ≡ adopt_result log self.old reply.now) }
        ensures link { self.new.dial.consumer.dialed ≡ self.old.dial.consumer.dialed }
    {
        if !is_done(reply) {
            return self.break_off(EndReason::Protocol);
        }
        let Dialed { node, vb, .. } = self.consumer.dialed();
        self.consumer.granted();
        self.events.push(Event::Adopted { node, vb, log })
    }

    /// Has the vBucket take the producer's failover log over, and acknowledges what is due then.
    #[tactic(auto, using(vb_calls::proofs::Runs::runs), unfolding(crate::specs::Dials::go_on_with))]
    fn go_on_with<A: VbAccess>(&mut self, vbs: &mut A, log: Listed<LogEntry>) -> Alloc<()>
        ensures ok { OnOk result (Ran A.step (go_on_with log self.old) vbs.old self.new vbs.new) }
        ensures err { OnErr result (Began A.step (go_on_with log self.old) vbs.old vbs.new) }
        ensures link { self.new.dial.consumer.dialed ≡ self.old.dial.consumer.dialed }
    {
        let copy = Listed::from_vec(Vec::from_slice(self.alloc, log.as_slice())?);
        let reply = vbs.call(self.consumer.dialed().vb, VbCall::Adopt { log })?;
        let told = self.adopt_result(copy, &reply);
        drop(reply);
        told?;
        self.ask_due(vbs)
    }

    /// Asks for what the vBucket asks for now. One that does not follow ends the link.
    #[tactic(auto, using(vb_calls::proofs::Runs::runs))]
    fn ask_once_more<A: VbAccess>(&mut self, vbs: &mut A) -> Alloc<()>
        ensures ok { OnOk result (Ran A.step (requested_once_more self.old) vbs.old self.new vbs.new) }
        ensures err { OnErr result (Began A.step (requested_once_more self.old) vbs.old vbs.new) }
        ensures link { self.new.dial.consumer.dialed ≡ self.old.dial.consumer.dialed }
    {
        let reply = vbs.call(self.consumer.dialed().vb, VbCall::Ask)?;
        let ask = follower_ask(&reply);
        drop(reply);
        match ask {
            Some(ask) => self.consumer.roll_done(ask, &mut self.out),
            None => self.break_off(EndReason::Protocol),
        }
    }

    /// Tells of the rollback, and asks again. One that was refused, or that could not be read or
    /// written down, ends the link.
    fn rolled_back<A: VbAccess>(&mut self, vbs: &mut A, point: u64, came: Rolled) -> Alloc<()>
        ensures ok { OnOk result (Ran A.step (rolled_back point self.old came) vbs.old self.new vbs.new) }
        ensures err { OnErr result (Began A.step (rolled_back point self.old came) vbs.old vbs.new) }
        ensures link { self.new.dial.consumer.dialed ≡ self.old.dial.consumer.dialed }
    {
        let to = match came {
            Rolled::To(to) => to,
            Rolled::Refused(_) => return self.break_off(EndReason::Protocol),
            Rolled::Closed | Rolled::DiskFailed | Rolled::Damaged { .. } => {
                return self.break_off(EndReason::Disk);
            }
        };
        let Dialed { node, vb, .. } = self.consumer.dialed();
        self.events.push(Event::Rolled {
            node,
            vb,
            named: point,
            to,
        })?;
        self.ask_once_more(vbs)
    }

    /// Sends the vBucket back to a point: it goes to the greatest complete point of its journal up to
    /// there.
    #[tactic(auto, using(vb_calls::proofs::JobRuns::jobs), unfolding(crate::specs::Dials::roll_back))]
    fn roll_back<A: VbAccess, J: Journals>(
        &mut self,
        vbs: &mut A,
        disks: &mut J,
        point: u64,
    ) -> Alloc<()>
        ensures ok { OnOk result (RanJob A.step J.asks (roll_back point self.old) vbs.old disks.old self.new vbs.new disks.new) }
        ensures err { OnErr result (BeganJob A.step J.asks (roll_back point self.old) vbs.old disks.old vbs.new disks.new) }
        ensures link { self.new.dial.consumer.dialed ≡ self.old.dial.consumer.dialed }
    {
        let came = disks.roll(self.consumer.dialed().vb, point, vbs)?;
        self.rolled_back(vbs, point, came)
    }

    /// A line for each change that was taken.
    fn tell_changes(&mut self, changes: &[Change]) -> Alloc<()>
        ensures ok { OnOk result (self.new ≡ record self.old { events = self.old.events ++ map (got_line self.old.dial.consumer.dialed) changes.now }) }
        ensures link { self.new.dial.consumer.dialed ≡ self.old.dial.consumer.dialed }
    {
        let Dialed { link, node, vb, .. } = self.consumer.dialed();
        for change in changes {
            let change = change.copy()?;
            self.events.push(Event::Got {
                node,
                vb,
                stream: StreamName::Link(link),
                change,
            })?;
        }
        Ok(())
    }

    /// Tells what the vBucket took by a message's call. Any other reply ends the link.
    fn taken_as(&mut self, reply: &VbReply) -> Alloc<()>
        ensures ok { OnOk result (self.new ≡ taken_as reply.now self.old reply.now.answer) }
        ensures link { self.new.dial.consumer.dialed ≡ self.old.dial.consumer.dialed }
    {
        match &reply.answer {
            VbAnswer::Range { ss, se } => {
                let Dialed { node, vb, .. } = self.consumer.dialed();
                self.events.push(Event::Ranged {
                    node,
                    vb,
                    ss: *ss,
                    se: *se,
                })
            }
            VbAnswer::Done => self.tell_changes(reply.changes.as_slice()),
            _ => self.break_off(EndReason::Protocol),
        }
    }

    /// Tells what a message's call came to. Where there is no such vBucket, the link is over.
    fn message_result(&mut self, reply: &Option<VbReply>) -> Alloc<()>
        ensures ok { OnOk result (self.new ≡ message_result self.old reply.now) }
        ensures link { self.new.dial.consumer.dialed ≡ self.old.dial.consumer.dialed }
    {
        match reply {
            Some(reply) => self.taken_as(reply),
            None => self.break_off(EndReason::Protocol),
        }
    }

    /// Makes the call of a message, and acknowledges what is due then.
    #[tactic(auto, using(vb_calls::proofs::Runs::runs), unfolding(crate::specs::Dials::call_made))]
    fn make_call<A: VbAccess>(&mut self, vbs: &mut A, call: VbCall) -> Alloc<()>
        ensures ok { OnOk result (Ran A.step (call_made call self.old) vbs.old self.new vbs.new) }
        ensures err { OnErr result (Began A.step (call_made call self.old) vbs.old vbs.new) }
        ensures link { self.new.dial.consumer.dialed ≡ self.old.dial.consumer.dialed }
    {
        let reply = vbs.call(self.consumer.dialed().vb, call)?;
        let told = self.message_result(&reply);
        drop(reply);
        told?;
        self.ask_due(vbs)
    }

    /// Does what a step asks for.
    #[tactic(auto, using(vb_calls::proofs::JobRuns::jobs))]
    fn make_step<A: VbAccess, J: Journals>(
        &mut self,
        vbs: &mut A,
        disks: &mut J,
        step: ConsumerStep,
    ) -> Alloc<()>
        ensures ok { OnOk result (RanJob A.step J.asks (step_made step self.old) vbs.old disks.old self.new vbs.new disks.new) }
        ensures err { OnErr result (BeganJob A.step J.asks (step_made step self.old) vbs.old disks.old vbs.new disks.new) }
        ensures link { self.new.dial.consumer.dialed ≡ self.old.dial.consumer.dialed }
    {
        match step {
            ConsumerStep::Adopt(log) => self.go_on_with(vbs, log),
            ConsumerStep::Roll(point) => self.roll_back(vbs, disks, point),
            ConsumerStep::Passive(Passive::Call(call)) => self.make_call(vbs, call),
            ConsumerStep::Noop(opaque) => self.answer_noop(opaque),
            ConsumerStep::State { take, opaque } => self.obey(vbs, disks, take, opaque),
            _ => Ok(()),
        }
    }

    /// Takes frames, one after the other.
    #[tactic(auto, using(vb_calls::proofs::JobRuns::jobs), unfolding(crate::specs::Dials::frames_taken, crate::specs::Dials::frame_taken))]
    fn take_frames<A: VbAccess, J: Journals>(
        &mut self,
        vbs: &mut A,
        disks: &mut J,
        frames: &[Frame],
    ) -> Alloc<()>
        ensures ok { OnOk result (RanJob A.step J.asks (frames_taken frames.now self.old) vbs.old disks.old self.new vbs.new disks.new) }
        ensures err { OnErr result (BeganJob A.step J.asks (frames_taken frames.now self.old) vbs.old disks.old vbs.new disks.new) }
        ensures link { self.new.dial.consumer.dialed ≡ self.old.dial.consumer.dialed }
    {
        for frame in frames {
            let step = self.consumer.feed(frame)?;
            self.make_step(vbs, disks, step)?;
        }
        Ok(())
    }
}

/// A vBucket's dial. After want of memory it is spent, and does nothing any more.
#[derive(Drop)]
pub struct Dial {
    turn: DialTurn,
    spent: bool,
}

impl Model for Dial {
    ghost use Rattle.std.specs.Prelude.{◌≡◌, []};
    ghost use Rattle.node_core.specs.Dials.{KeptDial, untold};

    ghost Value = { KeptDial };

    ghost view = { λ d. record { plain = d.turn.dial; spent = d.spent } };

    ghost invariant = { λ d. d.turn ≡ untold d.turn.dial };
}

impl Dial {
    /// A new dial, whose requests are appended.
    pub fn new(alloc: Global, dialed: Dialed, ask: StreamAsk, out: &mut BytesMut) -> Alloc<Dial>
        ensures dial { IfOk result (λ dial. dial ≡ record { plain = new_dial dialed; spent = false }) }
        ensures requests { OnOk result (out.new.items ≡ out.old.items ++ requests dialed ask) }
    {
        Ok(Dial {
            turn: DialTurn {
                alloc,
                reader: FrameReader::new(alloc)?,
                consumer: Consumer::dial(alloc, dialed, ask, out)?,
                events: Listed::new(alloc),
                out: BytesMut::new(alloc),
            },
            spent: false,
        })
    }

    /// The line that tells that it is cut.
    pub fn cut_line(&self) -> Event
        ensures { result ≡ cut_line self.now.plain }
    {
        self.turn.ended(EndReason::Cut)
    }

    /// Acknowledges what is due after more was written down. After an `Err` the dial is spent, as after
    /// one of `feed`.
    #[tactic(auto, using(vb_calls::proofs::Runs::runs, crate::proofs::Began::began_all))]
    pub fn acknowledge<A: VbAccess>(&mut self, vbs: &mut A) -> Alloc<NodeOut>
        ensures ok { IfOk result (λ out. (told : DialResult) × Ran A.step (dial_due self.old.plain) vbs.old told vbs.new × (out ≡ done_out told.events told.out) × (self.new.plain ≡ told.dial)) }
        ensures kept { IfOk result (λ out. (self.old.spent ≡ false) × (self.new.spent ≡ false)) }
        ensures err { OnErr result (Began A.step (dial_due self.old.plain) vbs.old vbs.new) }
        ensures spent { OnErr result (self.new.spent ≡ true) }
        ensures over { OnErr result (self.old.spent ≡ true → vbs.new ≡ vbs.old) }
        ensures same { OnErr result (self.old.spent ≡ true → self.new ≡ self.old) }
        ensures link { self.new.plain.consumer.dialed ≡ self.old.plain.consumer.dialed }
    {
        if std::mem::replace(&mut self.spent, true) {
            return Err(AllocError);
        }
        let asked = self.turn.ask_due(vbs);
        let (events, out) = self.turn.told();
        asked?;
        let out = bytes_of(out)?;
        self.spent = false;
        Ok(NodeOut::done(self.turn.alloc, events, out))
    }

    /// Takes the next bytes from the producer: makes the calls that the frames which are whole now ask
    /// for. After an `Err` the dial is spent, and every later call answers `Err` and does nothing.
    #[tactic(auto, using(vb_calls::proofs::JobRuns::jobs, vb_calls::proofs::JobRuns::began_all_job))]
    pub fn feed<A: VbAccess, J: Journals>(
        &mut self,
        vbs: &mut A,
        disks: &mut J,
        piece: &[u8],
    ) -> Alloc<NodeOut>
        ensures ok { IfOk result (λ out. (told : DialResult) × RanJob A.step J.asks (dial_bytes piece.now self.old.plain) vbs.old disks.old told vbs.new disks.new × (out ≡ dial_out told) × (self.new.plain ≡ told.dial)) }
        ensures kept { IfOk result (λ out. (self.old.spent ≡ false) × (self.new.spent ≡ false)) }
        ensures err { OnErr result (BeganJob A.step J.asks (dial_bytes piece.now self.old.plain) vbs.old disks.old vbs.new disks.new) }
        ensures spent { OnErr result (self.new.spent ≡ true) }
        ensures over { OnErr result (self.old.spent ≡ true → (vbs.new ≡ vbs.old) × (disks.new ≡ disks.old)) }
        ensures same { OnErr result (self.old.spent ≡ true → self.new ≡ self.old) }
        ensures link { self.new.plain.consumer.dialed ≡ self.old.plain.consumer.dialed }
    {
        if std::mem::replace(&mut self.spent, true) {
            return Err(AllocError);
        }
        let taken = self.turn.take_bytes(vbs, disks, piece);
        let (events, out) = self.turn.told();
        taken?;
        let out = bytes_of(out)?;
        self.spent = false;
        Ok(self.turn.handed_out(events, out))
    }
}
