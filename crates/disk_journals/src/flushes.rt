//! The steps of writing a vBucket down.
ghost use Rattle.std.specs.Prelude.{◌≡◌, true, IfOk, IfSome, OnErr};
ghost use Rattle.{disk_journals.specs.Asking.{disk_asks}, disk_journals.specs.Devices.{device}, disk_journals.specs.Seen.{flush_at}, disk_journals.specs.Steps.{flushed_by, rest_job}};
ghost use Rattle.{vb_calls.specs.Flushes.{all_job, batch_of_reply, finish_job, save_all_job, take_job, taken_job, took, took_nothing}, vb_calls.specs.Jobs.{RanJob, BeganJob}};
ghost use Rattle.{vb_calls.specs.Programs.{IsReply}, vb_calls.specs.Shelves.{Idle}, vb_calls.specs.declared.calls.VbCall.TheVariants.{FlushTake}};
ghost use Rattle.{vb_journal.specs.Payloads.{is_writable}, vb_types.specs.declared.journal.Record.TheVariants.{Rows}};

use crate::DiskJournals;
use crate::slot::Stage;
use std::alloc::AllocError;
use vb_calls::{Flushed, VbAccess, VbAnswer, VbCall, VbReply, Wrote};
use vb_disk::Disk;
use vb_types::{Batch, Position};

/// The batch of a reply to a take, if there is one.
fn batch_of_reply(reply: Option<VbReply>) -> Option<Batch>
    requires { IsReply FlushTake reply }
    ensures batch { result ≡ batch_of_reply reply }
    ensures writable { IfSome result (λ batch. is_writable (Rows batch) ≡ true) }
{
    let VbReply { answer, .. } = reply?;
    match answer {
        VbAnswer::Rows(batch) => Some(batch),
        _ => None,
    }
}

/// What taking a batch comes to.
fn took(batch: &Batch) -> Flushed
    ensures { result ≡ took batch.now }
{
    let Position { ss, se, at } = batch.position;
    Flushed::Took {
        ss,
        se,
        at,
        count: batch.items.as_slice().len() as u64,
    }
}

/// There was nothing to take.
fn took_nothing() -> Flushed
    ensures { result ≡ took_nothing }
{
    Flushed::Took {
        ss: 0,
        se: 0,
        at: 0,
        count: 0,
    }
}

/// What a save is answered.
pub(crate) fn flushed_by(saved: Option<Wrote>) -> Flushed
    ensures { result ≡ flushed_by saved }
{
    match saved {
        None => Flushed::NothingTaken,
        Some(Wrote::Stood) => Flushed::Saved,
        Some(Wrote::NotAsked | Wrote::Closed) => Flushed::Closed,
        Some(Wrote::DiskFailed) => Flushed::DiskFailed,
    }
}

impl<D: Disk> DiskJournals<D> {
    /// Takes a batch, where none is on its way.
    #[tactic(auto, using(crate::proofs::Flushing::flushing))]
    pub(crate) fn take<A: VbAccess>(&mut self, v: u16, vbs: &mut A) -> Result<Flushed, AllocError>
        ensures ok { IfOk result (λ came. RanJob A.step (disk_asks (device D.storage D.crashes D.armed D.left_by)) (take_job v (flush_at self.old v)) vbs.old self.old came vbs.new self.new) }
        ensures err { OnErr result (BeganJob A.step (disk_asks (device D.storage D.crashes D.armed D.left_by)) (take_job v (flush_at self.old v)) vbs.old self.old vbs.new self.new) }
    {
        match self.stage(v) {
            Stage::Idle => self.take_next(v, vbs),
            Stage::Out | Stage::Written => Ok(Flushed::BatchOut),
        }
    }

    /// Takes the next batch.
    #[tactic(auto, using(crate::proofs::Flushing::flushing))]
    fn take_next<A: VbAccess>(&mut self, v: u16, vbs: &mut A) -> Result<Flushed, AllocError>
        requires { flush_at self.old v ≡ Idle }
        ensures ok { IfOk result (λ came. RanJob A.step (disk_asks (device D.storage D.crashes D.armed D.left_by)) (take_job v Idle) vbs.old self.old came vbs.new self.new) }
        ensures err { OnErr result (BeganJob A.step (disk_asks (device D.storage D.crashes D.armed D.left_by)) (take_job v Idle) vbs.old self.old vbs.new self.new) }
    {
        let reply = vbs.call(v, VbCall::FlushTake)?;
        match batch_of_reply(reply) {
            None => Ok(took_nothing()),
            Some(batch) => {
                let came = took(&batch);
                self.put(v, batch);
                Ok(came)
            }
        }
    }

    /// Tells the vBucket that the batch stands that was appended.
    #[tactic(auto, using(crate::proofs::Flushing::flushing))]
    pub(crate) fn finish<A: VbAccess>(&mut self, v: u16, vbs: &mut A) -> Result<Flushed, AllocError>
        ensures ok { IfOk result (λ came. RanJob A.step (disk_asks (device D.storage D.crashes D.armed D.left_by)) (finish_job v (flush_at self.old v)) vbs.old self.old came vbs.new self.new) }
        ensures err { OnErr result (BeganJob A.step (disk_asks (device D.storage D.crashes D.armed D.left_by)) (finish_job v (flush_at self.old v)) vbs.old self.old vbs.new self.new) }
    {
        match self.done(v) {
            None => Ok(Flushed::NothingTaken),
            Some(receipt) => {
                let reply = vbs.call(v, VbCall::FlushDone { receipt })?;
                Ok(Flushed::Done(reply))
            }
        }
    }

    /// Makes what is still to be made of the three steps.
    #[tactic(auto, using(crate::proofs::Flushing::flushing))]
    pub(crate) fn flush_all<A: VbAccess>(
        &mut self,
        v: u16,
        vbs: &mut A,
    ) -> Result<Flushed, AllocError>
        ensures ok { IfOk result (λ came. RanJob A.step (disk_asks (device D.storage D.crashes D.armed D.left_by)) (all_job v (flush_at self.old v)) vbs.old self.old came vbs.new self.new) }
        ensures err { OnErr result (BeganJob A.step (disk_asks (device D.storage D.crashes D.armed D.left_by)) (all_job v (flush_at self.old v)) vbs.old self.old vbs.new self.new) }
    {
        match self.stage(v) {
            Stage::Idle => self.take_all(v, vbs),
            Stage::Out => self.save_rest(v, vbs),
            Stage::Written => self.finish(v, vbs),
        }
    }

    /// Takes the next batch, and makes the other steps.
    #[tactic(auto, using(crate::proofs::Flushing::flushing))]
    fn take_all<A: VbAccess>(&mut self, v: u16, vbs: &mut A) -> Result<Flushed, AllocError>
        requires { flush_at self.old v ≡ Idle }
        ensures ok { IfOk result (λ came. RanJob A.step (disk_asks (device D.storage D.crashes D.armed D.left_by)) (all_job v Idle) vbs.old self.old came vbs.new self.new) }
        ensures err { OnErr result (BeganJob A.step (disk_asks (device D.storage D.crashes D.armed D.left_by)) (all_job v Idle) vbs.old self.old vbs.new self.new) }
    {
        let reply = vbs.call(v, VbCall::FlushTake)?;
        match batch_of_reply(reply) {
            None => Ok(took_nothing()),
            Some(batch) => self.put_all(v, batch, vbs),
        }
    }

    /// Makes the other steps of a batch that was taken.
    #[tactic(auto, using(crate::proofs::Flushing::flushing))]
    fn put_all<A: VbAccess>(
        &mut self,
        v: u16,
        batch: Batch,
        vbs: &mut A,
    ) -> Result<Flushed, AllocError>
        requires idle { flush_at self.old v ≡ Idle }
        requires writable { is_writable (Rows batch) ≡ true }
        ensures ok { IfOk result (λ came. RanJob A.step (disk_asks (device D.storage D.crashes D.armed D.left_by)) (taken_job v (save_all_job v) (Some batch)) vbs.old self.old came vbs.new self.new) }
        ensures err { OnErr result (BeganJob A.step (disk_asks (device D.storage D.crashes D.armed D.left_by)) (taken_job v (save_all_job v) (Some batch)) vbs.old self.old vbs.new self.new) }
    {
        if !self.put(v, batch) {
            return Ok(Flushed::Closed);
        }
        self.save_rest(v, vbs)
    }

    /// Appends the batch that was taken, and tells the vBucket that it stands.
    #[tactic(auto, using(crate::proofs::Flushing::flushing))]
    fn save_rest<A: VbAccess>(&mut self, v: u16, vbs: &mut A) -> Result<Flushed, AllocError>
        ensures ok { IfOk result (λ came. RanJob A.step (disk_asks (device D.storage D.crashes D.armed D.left_by)) (rest_job v (flush_at self.old v)) vbs.old self.old came vbs.new self.new) }
        ensures err { OnErr result (BeganJob A.step (disk_asks (device D.storage D.crashes D.armed D.left_by)) (rest_job v (flush_at self.old v)) vbs.old self.old vbs.new self.new) }
    {
        match self.save(v)? {
            Some(Wrote::Stood) => self.finish(v, vbs),
            saved => Ok(flushed_by(saved)),
        }
    }
}
