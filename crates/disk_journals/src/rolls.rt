//! Going back.
ghost use Rattle.std.specs.Prelude.{◌≡◌, reverse, Option, IfOk, OnErr};
ghost use Rattle.{vb_calls.specs.Flushes.{rolled_by, wrote_of}, vb_calls.specs.Jobs.{IsUnasked}, vb_calls.specs.Shelves.{Append, Idle, Keep}};
ghost use Rattle.vb_calls.specs.declared.calls.{VbCall.TheVariants.{RollTo}, VbReply.{VbReply as Told}};
ghost use Rattle.vb_types.specs.declared.journal.Record.TheVariants.{Roll};
ghost use Rattle.{disk_journals.specs.Asking.{disk_asks, fate_of_wrote}, disk_journals.specs.Devices.{device}, disk_journals.specs.Steps.{roll_refusal, unread}};
ghost use Rattle.{vb_calls.specs.Flushes.{note_roll_job, read_job}, vb_calls.specs.Jobs.{RanJob, BeganJob, Request}, vb_calls.specs.Shelves.{Read, Book}};

use crate::DiskJournals;
use journal_points::{cas_of_last, image_at, roll_point};
use std::alloc::AllocError;
use vb_calls::{Rolled, VbAccess, VbAnswer, VbCall, VbReply, Wrote};
use vb_disk::Disk;
use vb_journal::{AppendFault, Record, Records};
use vb_types::{Image, Status};

/// Why a vBucket that replies so does not go back.
fn roll_refusal(reply: &Option<VbReply>) -> Option<Status>
    ensures { result ≡ roll_refusal reply.now }
{
    match reply {
        None => Some(Status::NotMyVbucket),
        Some(told) => match told.answer {
            VbAnswer::Named(_) => None,
            VbAnswer::Status(status) => Some(status),
            _ => Some(Status::NotMyVbucket),
        },
    }
}

/// The same of a reply that nobody reads any more.
pub(crate) fn refusal_by(reply: Option<VbReply>) -> Option<Status>
    ensures { result ≡ roll_refusal reply }
{
    let refusal = roll_refusal(&reply);
    drop(reply);
    refusal
}

/// What a rollback comes to whose records can't be read.
fn unread(fault: AppendFault) -> Rolled
    ensures { result ≡ unread fault }
{
    match fault {
        AppendFault::Closed => Rolled::Closed,
        AppendFault::DiskFailed => Rolled::DiskFailed,
        AppendFault::Damaged { place } => Rolled::Damaged { place },
    }
}

/// What a vBucket's reply to a rollback says: how far it went back, or why it did not.
fn rolled_by(reply: Option<VbReply>) -> Rolled
    ensures { result ≡ rolled_by reply }
{
    let said = rolled_in(&reply);
    drop(reply);
    said
}

/// The same, of a reply that stays.
fn rolled_in(reply: &Option<VbReply>) -> Rolled
    ensures { result ≡ rolled_by reply.now }
{
    let Some(told) = reply else {
        return Rolled::Refused(Status::NotMyVbucket);
    };
    match told.answer {
        VbAnswer::Num(now) => Rolled::To(now),
        VbAnswer::Status(status) => Rolled::Refused(status),
        _ => Rolled::Refused(Status::NotMyVbucket),
    }
}

/// Sends a vBucket back to a seqno, with the image there.
fn send_back<A: VbAccess>(
    v: u16,
    to: u64,
    image: Image,
    cas: u64,
    vbs: &mut A,
) -> Result<Rolled, AllocError>
    ensures ok { IfOk result (λ came. (reply : Option Told) × A.step vbs.old v (RollTo to image cas) reply vbs.new × (came ≡ rolled_by reply)) }
    ensures err { OnErr result (vbs.new ≡ vbs.old) }
{
    let reply = vbs.call(v, VbCall::RollTo { at: to, image, cas })?;
    Ok(rolled_by(reply))
}

impl<D: Disk> DiskJournals<D> {
    /// Sends a vBucket that follows back, by its records.
    #[tactic(auto, using(crate::proofs::Rolling::rolling, vb_calls::proofs::JobRuns::began_none_job))]
    pub(crate) fn roll_back<A: VbAccess>(
        &mut self,
        v: u16,
        to: u64,
        vbs: &mut A,
    ) -> Result<Rolled, AllocError>
        ensures ok { IfOk result (λ came. RanJob A.step (disk_asks (device D.storage D.crashes D.armed D.left_by)) (Request v Read (read_job v to)) vbs.old self.old came vbs.new self.new) }
        ensures err { OnErr result (BeganJob A.step (disk_asks (device D.storage D.crashes D.armed D.left_by)) (Request v Read (read_job v to)) vbs.old self.old vbs.new self.new) }
    {
        match self.read(v)? {
            Ok(records) => self.roll_by(v, &records, to, vbs),
            Err(fault) => Ok(unread(fault)),
        }
    }

    /// Sends the vBucket back to the point that its records tell.
    fn roll_by<A: VbAccess>(
        &mut self,
        v: u16,
        records: &Records,
        to: u64,
        vbs: &mut A,
    ) -> Result<Rolled, AllocError>
        ensures ok { IfOk result (λ came. RanJob A.step (disk_asks (device D.storage D.crashes D.armed D.left_by)) (read_job v to (Book (reverse records.now))) vbs.old self.old came vbs.new self.new) }
        ensures err { OnErr result (BeganJob A.step (disk_asks (device D.storage D.crashes D.armed D.left_by)) (read_job v to (Book (reverse records.now))) vbs.old self.old vbs.new self.new) }
    {
        let records = records.as_slice();
        let to = roll_point(records, to);
        self.roll_to(v, records, to, vbs)
    }

    /// Writes the rollback down, forgets the batch on its way, and sends the vBucket back.
    #[tactic(auto, using(crate::proofs::Writable::writable, vb_calls::proofs::JobRuns::began_none_job))]
    fn roll_to<A: VbAccess>(
        &mut self,
        v: u16,
        records: &[Record],
        to: u64,
        vbs: &mut A,
    ) -> Result<Rolled, AllocError>
        ensures ok { IfOk result (λ came. RanJob A.step (disk_asks (device D.storage D.crashes D.armed D.left_by)) (note_roll_job v (reverse records.now) to) vbs.old self.old came vbs.new self.new) }
        ensures err { OnErr result (BeganJob A.step (disk_asks (device D.storage D.crashes D.armed D.left_by)) (note_roll_job v (reverse records.now) to) vbs.old self.old vbs.new self.new) }
    {
        let cas = cas_of_last(records);
        let image = image_at(self.alloc, records, to)?;
        match self.note_roll(v, to) {
            Ok(Wrote::Stood) => self.go_back(v, to, image, cas, vbs),
            Ok(Wrote::Closed | Wrote::NotAsked) => {
                drop(image);
                Ok(Rolled::Closed)
            }
            Ok(Wrote::DiskFailed) => {
                drop(image);
                Ok(Rolled::DiskFailed)
            }
            Err(error) => {
                drop(image);
                Err(error)
            }
        }
    }

    /// Forgets the batch on its way, and sends the vBucket back to a seqno, with the image there.
    fn go_back<A: VbAccess>(
        &mut self,
        v: u16,
        to: u64,
        image: Image,
        cas: u64,
        vbs: &mut A,
    ) -> Result<Rolled, AllocError>
        ensures kept { disk_asks (device D.storage D.crashes D.armed D.left_by) self.old v (Keep Idle) tt self.new }
        ensures ok { IfOk result (λ came. (reply : Option Told) × A.step vbs.old v (RollTo to image cas) reply vbs.new × (came ≡ rolled_by reply)) }
        ensures err { OnErr result (vbs.new ≡ vbs.old) }
    {
        self.discard(v);
        send_back(v, to, image, cas, vbs)
    }

    /// Writes a rollback down.
    #[tactic(auto, using(crate::proofs::Writable::writable))]
    fn note_roll(&mut self, v: u16, to: u64) -> Result<Wrote, AllocError>
        ensures ok { IfOk result (λ wrote. disk_asks (device D.storage D.crashes D.armed D.left_by) self.old v (Append (Roll to)) (fate_of_wrote wrote) self.new) }
        ensures said { IfOk result (λ wrote. wrote ≡ wrote_of (fate_of_wrote wrote)) }
        ensures err { OnErr result (IsUnasked (disk_asks (device D.storage D.crashes D.armed D.left_by)) v self.old self.new) }
    {
        self.note(v, &Record::Roll { to })
    }
}
