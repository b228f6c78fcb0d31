//! What the layers above ask of these journals.
ghost use Rattle.std.specs.Prelude.{◌≡◌};

use crate::DiskJournals;
use crate::flushes::flushed_by;
use crate::roles::role_of_call;
use crate::rolls::refusal_by;
use std::alloc::AllocError;
use vb_calls::{Flushed, Journals, Rolled, VbAccess, VbCall, VbReply, Wrote};
use vb_disk::Disk;
use vb_journal::{AppendFault, Records};
use vb_types::{FlushPart, Record};

impl<D: Disk> Journals for DiskJournals<D> {
    ghost use Rattle.disk_journals.specs.{Anyhow.{failures_at}, Asking.{disk_asks}, Counting.{disk_counted}, Devices.{device}};

    ghost asks = { disk_asks (device D.storage D.crashes D.armed D.left_by) };

    ghost failures = { failures_at (device D.storage D.crashes D.armed D.left_by) };

    ghost counted = { disk_counted (device D.storage D.crashes D.armed D.left_by) };

    fn faults(&self, v: u16) -> u64 {
        self.count_faults(v)
    }

    fn records(&mut self, v: u16) -> Result<Result<Records, AppendFault>, AllocError> {
        self.read(v)
    }

    fn append(&mut self, v: u16, what: &Record) -> Result<Wrote, AllocError> {
        self.note(v, what)
    }

    #[tactic(auto, using(crate::proofs::Flushing::flushing))]
    fn flush<A: VbAccess>(
        &mut self,
        v: u16,
        part: FlushPart,
        vbs: &mut A,
    ) -> Result<Flushed, AllocError> {
        match part {
            FlushPart::Take => self.take(v, vbs),
            FlushPart::Save => Ok(flushed_by(self.save(v)?)),
            FlushPart::Done => self.finish(v, vbs),
            FlushPart::All => self.flush_all(v, vbs),
        }
    }

    #[tactic(auto, using(crate::proofs::Rolling::rolling), unfolding(vb_calls::specs::Flushes::roll_job))]
    fn roll<A: VbAccess>(&mut self, v: u16, to: u64, vbs: &mut A) -> Result<Rolled, AllocError> {
        match refusal_by(vbs.call(v, VbCall::Ask)?) {
            Some(status) => Ok(Rolled::Refused(status)),
            None => self.roll_back(v, to, vbs),
        }
    }

    #[tactic(auto, unfolding(vb_calls::specs::Flushes::role_job))]
    fn turn_role<A: VbAccess>(
        &mut self,
        v: u16,
        call: VbCall,
        vbs: &mut A,
    ) -> Result<(Option<VbReply>, Wrote), AllocError> {
        let role = role_of_call(&call);
        match vbs.call(v, call)? {
            None => Ok((None, Wrote::NotAsked)),
            Some(reply) => self.note_made(v, role, reply, vbs),
        }
    }
}
