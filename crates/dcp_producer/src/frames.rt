//! The next frame of a stream, out of the snapshots that its vBucket gives, or its vBucket's journal.
ghost use Rattle.std.specs.Prelude.{◌≡◌, IfOk, OnErr, None};
ghost use Rattle.dcp_producer.specs.Frames.{ALL_SENT as SENT, act_sent, alive_next, changes_next, none_next, over, role_of, state_next, state_put, step_next, item_line, item_frame, marker_flags, marker_next, take_answered, placed_next, place_requested, more_next, next_frame, IsPuttable};
ghost use Rattle.{dcp_producer.specs.Firsts.{as_sent}, dcp_producer.specs.Wanting.{standing}, vb_calls.specs.Jobs.{BeganJob, RanJob}, vb_calls.specs.Programs.{Ran, Began, Call, Done}};
ghost use Rattle.vb_calls.specs.declared.calls.VbCall.TheVariants.{CloseStream, Take};

use crate::messages::message_of;
use crate::replies::{answer_of, place_said};
use crate::{ActiveStream, Alloc, NextFrame, Waits, close_stream};
use mcbp_dcp::DcpMsg;
use std::alloc::Global;
use takeover::{GiveStep, GiveUp};
use vb_calls::{Journals, VbAccess, VbAnswer, VbCall, VbReply};
use vb_events::{Event, ItemAct, StreamName};
use vb_types::{Act, Change, Place, Role, Snapshot};

/// The reason of a stream's end, on the wire: all that was asked for was sent.
const ALL_SENT: u32 = 0;

/// The same: its vBucket changed its role, or is gone.
const STATE_CHANGED: u32 = 2;

/// The act as it is sent.
fn item_act_of(act: &Act) -> ItemAct
    ensures { result ≡ act_sent act.now }
{
    match act {
        Act::Set(_) => ItemAct::Set,
        Act::Remove { .. } => ItemAct::Remove,
        Act::Prepare { .. } => ItemAct::Prepare,
        Act::Commit { .. } => ItemAct::Commit,
        Act::Abort { .. } => ItemAct::Abort,
    }
}

/// The line of a change that is put.
fn line_of(name: StreamName, change: &Change) -> Alloc<Event>
    ensures { IfOk result (λ line. line ≡ item_line name change.now) }
{
    Ok(Event::Item {
        stream: name,
        seq: change.seq,
        act: item_act_of(&change.act),
        key: change.key.clone()?,
    })
}

/// The flag of a marker: where its snapshot was read.
fn flags_of(disk: bool) -> u32
    ensures { result ≡ marker_flags disk }
{
    if disk { 2 } else { 1 }
}

/// An item of a stream, and the line that tells of it.
fn item_frame(alloc: Global, name: StreamName, change: &Change) -> Alloc<NextFrame>
    ensures ok { IfOk result (λ next. next ≡ item_frame name change.now) }
    ensures spelled { IfOk result IsPuttable }
{
    Ok(NextFrame::Put {
        line: line_of(name, change)?,
        message: message_of(alloc, change)?,
    })
}

/// The role that a step tells the consumer's vBucket to have next, where it tells one.
fn role_in(step: GiveStep) -> Option<Role>
    ensures { result ≡ role_of step }
{
    match step {
        GiveStep::SendPending => Some(Role::Pending),
        GiveStep::SendActive => Some(Role::Active),
        _ => None,
    }
}

impl ActiveStream {
    /// Goes to a snapshot, by its marker.
    fn mark(&mut self, name: StreamName, snapshot: Snapshot) -> NextFrame
        ensures next { (result, self.new) ≡ marker_next name self.old snapshot }
        ensures same { standing self.new ≡ standing self.old }
        ensures spelled { IsPuttable result }
    {
        let (start, end) = (snapshot.start, snapshot.end);
        let flags = flags_of(snapshot.disk);
        self.give(snapshot);
        NextFrame::Put {
            message: DcpMsg::SnapshotMarker { start, end, flags },
            line: Event::Marked {
                stream: name,
                start,
                end,
                flags,
            },
        }
    }

    /// Goes to a snapshot that its vBucket gave, as it is sent.
    pub fn mark_taken(
        &mut self,
        alloc: Global,
        name: StreamName,
        snapshot: Snapshot,
    ) -> Alloc<NextFrame>
        ensures next { IfOk result (λ next. (next, self.new) ≡ marker_next name self.old (as_sent self.old snapshot)) }
        ensures same { standing self.new ≡ standing self.old }
        ensures spelled { IfOk result IsPuttable }
    {
        let sent = self.as_sent(alloc, snapshot)?;
        Ok(self.mark(name, sent))
    }

    /// Puts a state, which ends its step.
    fn put_state(&mut self, name: StreamName, mut gives: GiveUp, role: Role) -> NextFrame
        ensures next { (result, self.new) ≡ state_put name self.old gives role }
        ensures same { standing self.new ≡ standing self.old }
        ensures spelled { IsPuttable result }
    {
        gives.done();
        self.give_on(gives);
        NextFrame::Put {
            message: DcpMsg::SetVbucketState { role },
            line: Event::Stated { stream: name, role },
        }
    }

    /// Puts the state of a step that tells one; in any other the stream waits.
    fn next_state(&mut self, name: StreamName, gives: GiveUp) -> NextFrame
        ensures next { (result, self.new) ≡ state_next name self.old gives (role_of gives.step) }
        ensures same { standing self.new ≡ standing self.old }
        ensures spelled { IsPuttable result }
    {
        match role_in(gives.next()) {
            Some(role) => self.put_state(name, gives, role),
            None => NextFrame::Quiet {
                waits: Waits::State,
            },
        }
    }

    /// There is no snapshot. Where the stream gives its vBucket up it has sent all there was, and
    /// the next step has its turn.
    fn answer_none(&mut self, name: StreamName) -> NextFrame
        ensures next { (result, self.new) ≡ none_next name self.old self.old.gives }
        ensures same { standing self.new ≡ standing self.old }
        ensures spelled { IsPuttable result }
    {
        match self.gives() {
            Some(mut gives) => {
                gives.done();
                self.next_state(name, gives)
            }
            None => NextFrame::Quiet {
                waits: Waits::Nothing,
            },
        }
    }

    /// Goes to the snapshot that was taken, if one was; a stream that its vBucket lost is over.
    fn answer_take(
        &mut self,
        alloc: Global,
        name: StreamName,
        reply: Option<VbReply>,
    ) -> Alloc<NextFrame>
        ensures next { IfOk result (λ next. (next, self.new) ≡ take_answered name self.old reply) }
        ensures same { standing self.new ≡ standing self.old }
        ensures spelled { IfOk result IsPuttable }
    {
        match answer_of(reply) {
            Some(VbAnswer::Taken(snapshot)) => self.mark_taken(alloc, name, snapshot),
            Some(VbAnswer::Nothing) => Ok(self.answer_none(name)),
            other => {
                drop(other);
                Ok(NextFrame::End {
                    reason: STATE_CHANGED,
                })
            }
        }
    }

    /// Takes the next snapshot of the vBucket, if there is one.
    fn take_snapshot<A: VbAccess>(
        &mut self,
        alloc: Global,
        vbs: &mut A,
        name: StreamName,
    ) -> Alloc<NextFrame>
        ensures ok { IfOk result (λ next. Ran A.step (Call self.old.vb (Take self.old.id) (λ reply. Done (take_answered name self.old reply))) vbs.old (next, self.new) vbs.new) }
        ensures err { OnErr result (Began A.step (Call self.old.vb (Take self.old.id) (λ reply. Done (take_answered name self.old reply))) vbs.old vbs.new) }
        ensures same { standing self.new ≡ standing self.old }
        ensures spelled { IfOk result IsPuttable }
    {
        let reply = vbs.call(self.vb, VbCall::Take { id: self.id })?;
        self.answer_take(alloc, name, reply)
    }

    /// Takes the next snapshot where the next changes are in memory, and also where they are in the
    /// journal and the stream sees none of them; a stream that its vBucket lost is over.
    #[tactic(auto, using(vb_calls::proofs::JobRuns::jobs, crate::proofs::ReadRuns::reads))]
    fn go_on<A: VbAccess, J: Journals>(
        &mut self,
        alloc: Global,
        vbs: &mut A,
        disks: &mut J,
        name: StreamName,
        from: Option<Place>,
    ) -> Alloc<NextFrame>
        ensures ok { IfOk result (λ next. RanJob A.step J.asks (placed_next name self.old from) vbs.old disks.old (next, self.new) vbs.new disks.new) }
        ensures err { OnErr result (BeganJob A.step J.asks (placed_next name self.old from) vbs.old disks.old vbs.new disks.new) }
        ensures same { standing self.new ≡ standing self.old }
        ensures spelled { IfOk result IsPuttable }
    {
        match from {
            Some(Place::Memory) => self.take_snapshot(alloc, vbs, name),
            Some(Place::Backfill(upto)) => {
                self.unread = Some(upto);
                match self.read_backfill(alloc, disks, name, upto)? {
                    Some(next) => Ok(next),
                    None => self.take_snapshot(alloc, vbs, name),
                }
            }
            Some(Place::WaitSaved) => Ok(NextFrame::Quiet {
                waits: Waits::Saved,
            }),
            None => Ok(NextFrame::End {
                reason: STATE_CHANGED,
            }),
        }
    }

    /// Asks where the next changes come from, and goes on from there.
    fn place<A: VbAccess, J: Journals>(
        &mut self,
        alloc: Global,
        vbs: &mut A,
        disks: &mut J,
        name: StreamName,
    ) -> Alloc<NextFrame>
        ensures ok { IfOk result (λ next. RanJob A.step J.asks (place_requested name self.old) vbs.old disks.old (next, self.new) vbs.new disks.new) }
        ensures err { OnErr result (BeganJob A.step J.asks (place_requested name self.old) vbs.old disks.old vbs.new disks.new) }
        ensures same { standing self.new ≡ standing self.old }
        ensures spelled { IfOk result IsPuttable }
    {
        let reply = vbs.call(self.vb, VbCall::Place { id: self.id })?;
        self.go_on(alloc, vbs, disks, name, place_said(reply))
    }

    /// The next changes: those of a backfill that is not read come first, and then those of where the
    /// vBucket says.
    #[tactic(auto, using(vb_calls::proofs::JobRuns::jobs, crate::proofs::ReadRuns::reads))]
    fn next_changes<A: VbAccess, J: Journals>(
        &mut self,
        alloc: Global,
        vbs: &mut A,
        disks: &mut J,
        name: StreamName,
    ) -> Alloc<NextFrame>
        ensures ok { IfOk result (λ next. RanJob A.step J.asks (changes_next name self.old self.old.unread) vbs.old disks.old (next, self.new) vbs.new disks.new) }
        ensures err { OnErr result (BeganJob A.step J.asks (changes_next name self.old self.old.unread) vbs.old disks.old vbs.new disks.new) }
        ensures same { standing self.new ≡ standing self.old }
        ensures spelled { IfOk result IsPuttable }
    {
        match self.unread {
            Some(upto) => match self.read_backfill(alloc, disks, name, upto)? {
                Some(next) => Ok(next),
                None => self.place(alloc, vbs, disks, name),
            },
            None => self.place(alloc, vbs, disks, name),
        }
    }

    /// Closes the stream at its vBucket: it is over, as all was sent.
    #[tactic(auto, using(vb_calls::proofs::Runs::runs))]
    fn close_sent<A: VbAccess>(&mut self, vbs: &mut A) -> NextFrame
        ensures ran { Ran A.step (Call self.old.vb (CloseStream self.old.id) (λ reply. Done (over SENT self.old))) vbs.old (result, self.new) vbs.new }
        ensures same { self.new ≡ self.old }
        ensures spelled { IsPuttable result }
    {
        close_stream(vbs, self.vb, self.id);
        NextFrame::End { reason: ALL_SENT }
    }

    /// What a stream that gives its vBucket up puts in a step: the snapshots that there are, a state,
    /// or its end.
    #[tactic(auto, using(vb_calls::proofs::JobRuns::jobs, crate::proofs::ReadRuns::reads))]
    fn next_step<A: VbAccess, J: Journals>(
        &mut self,
        alloc: Global,
        vbs: &mut A,
        disks: &mut J,
        name: StreamName,
        gives: GiveUp,
    ) -> Alloc<NextFrame>
        ensures ok { IfOk result (λ next. RanJob A.step J.asks (step_next name self.old gives gives.step) vbs.old disks.old (next, self.new) vbs.new disks.new) }
        ensures err { OnErr result (BeganJob A.step J.asks (step_next name self.old gives gives.step) vbs.old disks.old vbs.new disks.new) }
        ensures same { standing self.new ≡ standing self.old }
        ensures spelled { IfOk result IsPuttable }
    {
        match gives.next() {
            GiveStep::SendAll | GiveStep::SendRest => self.next_changes(alloc, vbs, disks, name),
            GiveStep::End => Ok(self.close_sent(vbs)),
            _ => Ok(self.next_state(name, gives)),
        }
    }

    /// What a stream puts that gives no vBucket up: its end, where all that was asked for was sent,
    /// and else the next snapshot.
    #[tactic(auto, using(vb_calls::proofs::JobRuns::jobs, crate::proofs::ReadRuns::reads))]
    fn next_fed<A: VbAccess, J: Journals>(
        &mut self,
        alloc: Global,
        vbs: &mut A,
        disks: &mut J,
        name: StreamName,
    ) -> Alloc<NextFrame>
        requires { self.old.gives ≡ None }
        ensures ok { IfOk result (λ next. RanJob A.step J.asks (alive_next name self.old None) vbs.old disks.old (next, self.new) vbs.new disks.new) }
        ensures err { OnErr result (BeganJob A.step J.asks (alive_next name self.old None) vbs.old disks.old vbs.new disks.new) }
        ensures same { standing self.new ≡ standing self.old }
        ensures spelled { IfOk result IsPuttable }
    {
        if self.reaches_end() {
            return Ok(self.close_sent(vbs));
        }
        self.next_changes(alloc, vbs, disks, name)
    }

    /// What comes behind the items of the snapshot: the stream's end, where a change of role ended
    /// it, and else what it puts next.
    #[tactic(auto, using(vb_calls::proofs::JobRuns::jobs))]
    fn next_marker<A: VbAccess, J: Journals>(
        &mut self,
        alloc: Global,
        vbs: &mut A,
        disks: &mut J,
        name: StreamName,
    ) -> Alloc<NextFrame>
        ensures ok { IfOk result (λ next. RanJob A.step J.asks (more_next name self.old) vbs.old disks.old (next, self.new) vbs.new disks.new) }
        ensures err { OnErr result (BeganJob A.step J.asks (more_next name self.old) vbs.old disks.old vbs.new disks.new) }
        ensures same { standing self.new ≡ standing self.old }
        ensures spelled { IfOk result IsPuttable }
    {
        if self.is_ended() {
            return Ok(NextFrame::End {
                reason: STATE_CHANGED,
            });
        }
        match self.gives() {
            Some(gives) => self.next_step(alloc, vbs, disks, name, gives),
            None => self.next_fed(alloc, vbs, disks, name),
        }
    }

    /// The next frame of the stream: the next item of the snapshot that was taken last, and behind
    /// the last one the stream's end or the next marker.
    #[tactic(auto, using(vb_calls::proofs::JobRuns::jobs), unfolding(crate::specs::Frames::next_frame))]
    pub fn next_frame<A: VbAccess, J: Journals>(
        &mut self,
        alloc: Global,
        vbs: &mut A,
        disks: &mut J,
        name: StreamName,
    ) -> Alloc<NextFrame>
        ensures ok { IfOk result (λ next. RanJob A.step J.asks (next_frame name self.old) vbs.old disks.old (next, self.new) vbs.new disks.new) }
        ensures err { OnErr result (BeganJob A.step J.asks (next_frame name self.old) vbs.old disks.old vbs.new disks.new) }
        ensures same { standing self.new ≡ standing self.old }
        ensures spelled { IfOk result IsPuttable }
    {
        let Some(change) = self.item() else {
            return self.next_marker(alloc, vbs, disks, name);
        };
        let seq = change.seq;
        let next = item_frame(alloc, name, change)?;
        self.pass(seq);
        Ok(next)
    }
}
