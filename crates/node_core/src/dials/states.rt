//! What a dial does at the states of a takeover.
ghost use Rattle.std.specs.Prelude.{◌≡◌, ◌++◌, OnOk, OnErr};
ghost use Rattle.{node_core.specs.Calls.{own_lines}, vb_calls.specs.Jobs.{RanJob, BeganJob}, vb_calls.specs.Programs.{Ran, Began}};
ghost use Rattle.node_core.specs.Dials.{with_line, role_line, state_met, pend_called, pend_result, pended, heir_told, noted_for, own_replied, own_result, owned, state_made};

use crate::Alloc;
use crate::dials::DialTurn;
use crate::dials::replies::{is_done, is_pending};
use dcp_consumer::{Dialed, TakeStep};
use vb_calls::{Journals, VbAccess, VbAnswer, VbCall, VbReply, Wrote};
use vb_events::{EndReason, Event};
use vb_types::Role;

impl DialTurn {
    /// Answers the state of this opaque, which the vBucket obeyed; no line tells of the answer.
    fn answer_state(&mut self, opaque: u32) -> Alloc<()>
        ensures ok { OnOk result (self.new ≡ state_met opaque self.old) }
        ensures link { self.new.dial.consumer.dialed ≡ self.old.dial.consumer.dialed }
    {
        self.consumer.answer_state(opaque, &mut self.out)
    }

    /// Tells that the vBucket has another role.
    fn tell_role(&mut self, role: Role) -> Alloc<()>
        ensures ok { OnOk result (self.new ≡ with_line self.old (role_line self.old.dial.consumer.dialed role)) }
        ensures link { self.new.dial.consumer.dialed ≡ self.old.dial.consumer.dialed }
    {
        let Dialed { node, vb, .. } = self.consumer.dialed();
        self.events.push(Event::Role { node, vb, role })
    }

    /// Tells that the vBucket is to take over, unless it was to already, and answers the state. One that
    /// refused ends the link.
    fn pend_result(&mut self, opaque: u32, before: bool, reply: &Option<VbReply>) -> Alloc<()>
        ensures ok { OnOk result (self.new ≡ pend_result opaque before self.old reply.now) }
        ensures link { self.new.dial.consumer.dialed ≡ self.old.dial.consumer.dialed }
    {
        if !is_done(reply) {
            return self.break_off(EndReason::Protocol);
        }
        if !before {
            self.tell_role(Role::Pending)?;
        }
        self.answer_state(opaque)
    }

    /// Has the vBucket be about to take over, which it was already or was not.
    #[tactic(auto, using(vb_calls::proofs::Runs::runs))]
    fn call_pend<A: VbAccess>(&mut self, vbs: &mut A, opaque: u32, before: bool) -> Alloc<()>
        ensures ok { OnOk result (Ran A.step (pend_called opaque before self.old) vbs.old self.new vbs.new) }
        ensures err { OnErr result (Began A.step (pend_called opaque before self.old) vbs.old vbs.new) }
        ensures link { self.new.dial.consumer.dialed ≡ self.old.dial.consumer.dialed }
    {
        let reply = vbs.call(self.consumer.dialed().vb, VbCall::Pend)?;
        let told = self.pend_result(opaque, before, &reply);
        drop(reply);
        told
    }

    /// Asks the vBucket whether it is about to take over already, and has it be so.
    #[tactic(auto, using(vb_calls::proofs::Runs::runs), unfolding(crate::specs::Dials::pended))]
    fn pend<A: VbAccess>(&mut self, vbs: &mut A, opaque: u32) -> Alloc<()>
        ensures ok { OnOk result (Ran A.step (pended opaque self.old) vbs.old self.new vbs.new) }
        ensures err { OnErr result (Began A.step (pended opaque self.old) vbs.old vbs.new) }
        ensures link { self.new.dial.consumer.dialed ≡ self.old.dial.consumer.dialed }
    {
        let shown = vbs.call(self.consumer.dialed().vb, VbCall::Show)?;
        let before = is_pending(&shown);
        drop(shown);
        self.call_pend(vbs, opaque, before)
    }

    /// A line for each change that the vBucket made at once.
    fn tell_own(&mut self, reply: &VbReply) -> Alloc<()>
        ensures ok { OnOk result (self.new ≡ record self.old { events = self.old.events ++ own_lines self.old.dial.consumer.dialed.node self.old.dial.consumer.dialed.vb reply.now }) }
        ensures link { self.new.dial.consumer.dialed ≡ self.old.dial.consumer.dialed }
    {
        let Dialed { node, vb, .. } = self.consumer.dialed();
        for change in reply.changes.as_slice() {
            let change = change.copy()?;
            self.events.push(Event::Changed {
                node,
                vb,
                uuid: reply.branch,
                change,
            })?;
        }
        Ok(())
    }

    /// Tells that the vBucket took over, and what it changed at once.
    fn tell_heir(&mut self, reply: &VbReply) -> Alloc<()>
        ensures ok { OnOk result (self.new ≡ heir_told reply.now self.old) }
        ensures link { self.new.dial.consumer.dialed ≡ self.old.dial.consumer.dialed }
    {
        self.tell_role(Role::Active)?;
        self.tell_own(reply)
    }

    /// Ends the link where the vBucket's role could not be written down.
    fn end_unwritten(&mut self, wrote: Wrote)
        ensures { self.new ≡ noted_for wrote self.old }
    {
        match wrote {
            Wrote::Stood | Wrote::NotAsked => {}
            Wrote::Closed | Wrote::DiskFailed => self.consumer.end(EndReason::Disk),
        }
    }

    /// Tells what came of a takeover, and answers the state where the vBucket took over, whatever became
    /// of its record. One that refused ends the link.
    fn own_replied(&mut self, opaque: u32, wrote: Wrote, reply: &VbReply) -> Alloc<()>
        ensures ok { OnOk result (self.new ≡ own_replied opaque self.old wrote reply.now) }
        ensures link { self.new.dial.consumer.dialed ≡ self.old.dial.consumer.dialed }
    {
        match &reply.answer {
            VbAnswer::Done => {
                self.tell_heir(reply)?;
                self.answer_state(opaque)?;
                self.end_unwritten(wrote);
                Ok(())
            }
            _ => self.break_off(EndReason::Protocol),
        }
    }

    /// The same, where there is such a vBucket; else the link is over.
    fn own_result(&mut self, opaque: u32, reply: &Option<VbReply>, wrote: Wrote) -> Alloc<()>
        ensures ok { OnOk result (self.new ≡ own_result opaque self.old reply.now wrote) }
        ensures link { self.new.dial.consumer.dialed ≡ self.old.dial.consumer.dialed }
    {
        match reply {
            Some(reply) => self.own_replied(opaque, wrote, reply),
            None => self.break_off(EndReason::Protocol),
        }
    }

    /// Has the vBucket take over, and its role be written down.
    #[tactic(auto, using(vb_calls::proofs::JobRuns::jobs), unfolding(crate::specs::Dials::owned))]
    fn own<A: VbAccess, J: Journals>(
        &mut self,
        vbs: &mut A,
        disks: &mut J,
        opaque: u32,
    ) -> Alloc<()>
        ensures ok { OnOk result (RanJob A.step J.asks (owned opaque self.old) vbs.old disks.old self.new vbs.new disks.new) }
        ensures err { OnErr result (BeganJob A.step J.asks (owned opaque self.old) vbs.old disks.old vbs.new disks.new) }
        ensures link { self.new.dial.consumer.dialed ≡ self.old.dial.consumer.dialed }
    {
        let (reply, wrote) = disks.turn_role(self.consumer.dialed().vb, VbCall::Own, vbs)?;
        let told = self.own_result(opaque, &reply, wrote);
        drop(reply);
        told
    }

    /// Has the vBucket do what a state asks for.
    #[tactic(auto, using(vb_calls::proofs::JobRuns::jobs))]
    pub(crate) fn obey<A: VbAccess, J: Journals>(
        &mut self,
        vbs: &mut A,
        disks: &mut J,
        take: TakeStep,
        opaque: u32,
    ) -> Alloc<()>
        ensures ok { OnOk result (RanJob A.step J.asks (state_made take opaque self.old) vbs.old disks.old self.new vbs.new disks.new) }
        ensures err { OnErr result (BeganJob A.step J.asks (state_made take opaque self.old) vbs.old disks.old vbs.new disks.new) }
        ensures link { self.new.dial.consumer.dialed ≡ self.old.dial.consumer.dialed }
    {
        match take {
            TakeStep::Pend => self.pend(vbs, opaque),
            TakeStep::Own => self.own(vbs, disks, opaque),
        }
    }
}
