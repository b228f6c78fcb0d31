//! Changes of role.
ghost use Rattle.std.specs.Prelude.{◌≡◌, ◌≤◌, length, Some, IfOk, OnErr};
ghost use Rattle.{disk_journals.specs.Asking.{disk_asks}, disk_journals.specs.Devices.{device}, disk_journals.specs.Steps.{IsLasting, made_job}};
ghost use Rattle.{vb_calls.specs.Flushes.{IsRoleCall, is_refusal, log_of_reply, note_role_job, role_of_call}, vb_calls.specs.Jobs.{RanJob, BeganJob, Call}};
ghost use Rattle.{vb_calls.specs.Programs.{IsReply}, vb_calls.specs.declared.calls.VbCall.TheVariants.{Log}, vb_calls.specs.declared.calls.VbReply.{VbReply as Told}};

use crate::DiskJournals;
use std::alloc::{AllocError, Global};
use vb_calls::{VbAccess, VbAnswer, VbCall, VbReply, Wrote};
use vb_disk::Disk;
use vb_journal::Record;
use vb_types::{Listed, LogEntry, Role};

/// The role that a call gives.
pub(crate) fn role_of_call(call: &VbCall) -> Role
    requires { IsRoleCall call.now }
    ensures role { result ≡ role_of_call call.now }
    ensures lasting { IsLasting result }
{
    match call {
        VbCall::Promote { .. } | VbCall::Own => Role::Active,
        VbCall::Follow => Role::Replica,
        VbCall::Dead => Role::Dead,
        _ => unreachable!(),
    }
}

/// Whether a call was refused.
fn is_refusal(reply: &VbReply) -> bool
    ensures { result ≡ is_refusal reply.now.answer }
{
    matches!(reply.answer, VbAnswer::Status(_))
}

/// The failover log of a reply.
fn log_of_reply(alloc: Global, reply: Option<VbReply>) -> Listed<LogEntry>
    requires { IsReply Log reply }
    ensures log { result ≡ log_of_reply reply }
    ensures short { length result ≤ 25 }
{
    let Some(VbReply { answer, .. }) = reply else {
        return Listed::new(alloc);
    };
    match answer {
        VbAnswer::Logged { log } => log,
        _ => Listed::new(alloc),
    }
}

impl<D: Disk> DiskJournals<D> {
    /// Writes a role down that a vBucket took, unless it refused it.
    pub(crate) fn note_made<A: VbAccess>(
        &mut self,
        v: u16,
        role: Role,
        reply: VbReply,
        vbs: &mut A,
    ) -> Result<(Option<VbReply>, Wrote), AllocError>
        requires { IsLasting role }
        ensures ok { IfOk result (λ told. RanJob A.step (disk_asks (device D.storage D.crashes D.armed D.left_by)) (made_job v role reply) vbs.old self.old told vbs.new self.new) }
        ensures err { OnErr result (BeganJob A.step (disk_asks (device D.storage D.crashes D.armed D.left_by)) (made_job v role reply) vbs.old self.old vbs.new self.new) }
    {
        if is_refusal(&reply) {
            return Ok((Some(reply), Wrote::NotAsked));
        }
        self.note_and_reply(v, role, reply, vbs)
    }

    /// Writes a role down, and hands the reply back.
    fn note_and_reply<A: VbAccess>(
        &mut self,
        v: u16,
        role: Role,
        reply: VbReply,
        vbs: &mut A,
    ) -> Result<(Option<VbReply>, Wrote), AllocError>
        requires { IsLasting role }
        ensures ok { IfOk result (λ told. RanJob A.step (disk_asks (device D.storage D.crashes D.armed D.left_by)) (Call v Log (note_role_job v role reply)) vbs.old self.old told vbs.new self.new) }
        ensures err { OnErr result (BeganJob A.step (disk_asks (device D.storage D.crashes D.armed D.left_by)) (Call v Log (note_role_job v role reply)) vbs.old self.old vbs.new self.new) }
    {
        match self.note_role(v, role, vbs) {
            Ok(wrote) => Ok((Some(reply), wrote)),
            Err(error) => {
                drop(reply);
                Err(error)
            }
        }
    }

    /// Writes a role down, with the failover log. What is known of it holds for any reply that the job
    /// then hands back.
    #[tactic(auto, using(crate::proofs::Writable::writable))]
    fn note_role<A: VbAccess>(
        &mut self,
        v: u16,
        role: Role,
        vbs: &mut A,
    ) -> Result<Wrote, AllocError>
        requires { IsLasting role }
        ensures ok { IfOk result (λ wrote. (reply : Told) → RanJob A.step (disk_asks (device D.storage D.crashes D.armed D.left_by)) (Call v Log (note_role_job v role reply)) vbs.old self.old (Some reply, wrote) vbs.new self.new) }
        ensures err { OnErr result ((reply : Told) → BeganJob A.step (disk_asks (device D.storage D.crashes D.armed D.left_by)) (Call v Log (note_role_job v role reply)) vbs.old self.old vbs.new self.new) }
    {
        let logged = vbs.call(v, VbCall::Log)?;
        let log = log_of_reply(self.alloc, logged);
        let wrote = self.note(v, &Record::State { role, log })?;
        Ok(wrote)
    }
}
