//! What the layers above ask of the journals of vBuckets.
ghost use Rattle.std.specs.Prelude.{◌≡◌, ◌⊎◌, ℕ, true, IfOk, OnErr};
ghost use Rattle.{vb_calls.specs.Flushes.{flush_job, roll_job, role_job, wrote_of, IsRoleCall}, vb_calls.specs.Jobs.{RanJob, BeganJob, IsUnasked}, vb_calls.specs.Shelves.{Ask, Fate, Got, Append, Read, reading_by}};
ghost use Rattle.vb_calls.specs.Faults.{AreCounted};
ghost use Rattle.{vb_journal.specs.Payloads.{is_writable}};

use crate::access::VbAccess;
use crate::calls::{VbCall, VbReply};
use std::alloc::AllocError;
use vb_journal::{AppendFault, Records};
use vb_types::{FlushPart, Record, Status};

/// What became of a record that was to be appended.
#[derive(Clone, Copy, Debug, PartialEq, Eq)]
pub enum Wrote {
    /// It stands.
    Stood,
    /// There was nothing to append, as the call was refused.
    NotAsked,
    /// An earlier append to this journal failed.
    Closed,
    /// The disk failed.
    DiskFailed,
}

/// What a step of writing a batch down came to.
#[derive(Drop)]
pub enum Flushed {
    /// A batch of `count` changes was taken, with which the vBucket stands there; all four numbers are
    /// 0 where there was nothing to take.
    Took {
        ss: u64,
        se: u64,
        at: u64,
        count: u64,
    },
    /// The batch was appended.
    Saved,
    /// The vBucket was told that it stands.
    Done(Option<VbReply>),
    /// A batch is on its way already.
    BatchOut,
    /// No batch is on its way that this step could be made of.
    NothingTaken,
    /// An earlier append to this journal failed.
    Closed,
    /// The disk failed.
    DiskFailed,
}

/// What a rollback came to.
#[derive(Clone, Copy, Debug, PartialEq, Eq)]
pub enum Rolled {
    /// The vBucket stands at this seqno.
    To(u64),
    /// The vBucket refused it.
    Refused(Status),
    /// An earlier append to this journal failed.
    Closed,
    /// The disk failed.
    DiskFailed,
    /// The record at this place of the disk can't be read.
    Damaged { place: u64 },
}

/// Journals by the numbers of their vBuckets. Where there is none of a number, no batch is on its way
/// there, nothing can be read, and an append finds it closed. After want of memory a record that a call
/// would append may stand or not.
pub trait Journals {
    /// What is known of one request: the journals before, the number, the request, its answer, and
    /// the journals after.
    ghost asks: { Self → ℕ → (ask : Ask) → Got ask → Self → Type 0 };

    /// How often calls of the disk of the journal of a number have failed.
    ghost failures: { Self → ℕ → ℕ };

    /// No count falls in a request, and it is answered that the disk failed only where that of its
    /// journal rose.
    ghost counted: { AreCounted asks failures };

    /// How often calls of a journal's disk have failed. The count stands still at `u64::MAX`.
    fn faults(&self, v: u16) -> u64
        ensures { result ≡ failures self.now v };

    /// The records of a journal, in the order in which they were appended, read anew; or that an
    /// earlier append to it failed, that its disk failed in this call, or from where on it is damaged.
    fn records(&mut self, v: u16) -> Result<Result<Records, AppendFault>, AllocError>
        ensures ok { IfOk result (λ came. asks self.old v Read (reading_by came) self.new) }
        ensures err { OnErr result (IsUnasked asks v self.old self.new) };

    /// Appends a record. `Closed` exactly where an earlier append to this journal failed, and
    /// `DiskFailed` only where its disk failed in this call.
    fn append(&mut self, v: u16, what: &Record) -> Result<Wrote, AllocError>
        requires writable { is_writable what.now ≡ true }
        ensures ok { IfOk result (λ wrote. (fate : Fate) × (wrote ≡ wrote_of fate) × asks self.old v (Append what.now) fate self.new) }
        ensures err { OnErr result (IsUnasked asks v self.old self.new ⊎ ((fate : Fate) × asks self.old v (Append what.now) fate self.new)) };

    /// Makes a step of writing a vBucket down.
    fn flush<A: VbAccess>(
        &mut self,
        v: u16,
        part: FlushPart,
        vbs: &mut A,
    ) -> Result<Flushed, AllocError>
        ensures ok { IfOk result (λ flushed. RanJob A.step asks (flush_job v part) vbs.old self.old flushed vbs.new self.new) }
        ensures err { OnErr result (BeganJob A.step asks (flush_job v part) vbs.old self.old vbs.new self.new) };

    /// Sends a vBucket back to the greatest complete point of its journal at most `to`, or to 0. Where
    /// the rollback can't be read or appended, the vBucket stays.
    fn roll<A: VbAccess>(&mut self, v: u16, to: u64, vbs: &mut A) -> Result<Rolled, AllocError>
        ensures ok { IfOk result (λ rolled. RanJob A.step asks (roll_job v to) vbs.old self.old rolled vbs.new self.new) }
        ensures err { OnErr result (BeganJob A.step asks (roll_job v to) vbs.old self.old vbs.new self.new) };

    /// Makes a call that changes a vBucket's role, and appends the role and the failover log where it
    /// was not refused.
    fn turn_role<A: VbAccess>(
        &mut self,
        v: u16,
        call: VbCall,
        vbs: &mut A,
    ) -> Result<(Option<VbReply>, Wrote), AllocError>
        requires { IsRoleCall call }
        ensures ok { IfOk result (λ told. RanJob A.step asks (role_job v call) vbs.old self.old told vbs.new self.new) }
        ensures err { OnErr result (BeganJob A.step asks (role_job v call) vbs.old self.old vbs.new self.new) };
}
