//! What of a vBucket is taken to be written down, what is known to be, and its numbers.
ghost use Rattle.std.specs.Prelude.{◌≡◌, true, max, IfOk, OnErr};
ghost use Rattle.vb_calls.specs.Forms.{HasForm};
ghost use Rattle.vb_calls.specs.declared.calls.VbCall.TheVariants.{FlushTake};
ghost use Rattle.vb_calls.specs.Plain.{Plain};
ghost use Rattle.vb_calls.specs.State.{is_active};
ghost use Rattle.vb_calls.specs.declared.calls.VbAnswer.TheVariants.{Num};
ghost use Rattle.vbucket.specs.Kept.{kept_flush, kept_stat};
ghost use Rattle.vbucket.specs.Settling.{kept_flushed};
ghost use Rattle.vbucket.specs.Stands.{StandsFor};

use super::VBucket;
use super::settling::Plan;
use crate::writes::takes_writes;
use ckpt_list::CkptStat;
use std::alloc::AllocError;
use vb_calls::{VbAnswer, VbReply};
use vb_types::Batch;

impl VBucket {
    /// Takes the changes that are to be written down next, the rest of one span. What is saved
    /// stays. An `Err` changes nothing.
    pub(super) fn flush_take(&mut self) -> Result<VbReply, AllocError>
        ensures ok { IfOk result (λ reply. (self.new, reply) ≡ kept_flush self.old) }
        ensures form { IfOk result (λ reply. HasForm FlushTake reply.answer) }
        ensures err { OnErr result (self.new ≡ self.old) }
    {
        let place = self.list.place_of_zero();
        let Some(position) = self.list.window(place) else {
            return Ok(self.told(VbAnswer::Nothing));
        };
        let log = self.entries()?;
        let items = self.list.copied(place, position.at)?;
        self.list.advance(0, position.at);
        Ok(self.told(VbAnswer::Rows(Batch {
            position,
            cas: self.last_cas,
            log,
            items,
        })))
    }

    /// Counts all up to a seqno as saved, and commits what may be then. An `Err` changes nothing; only an
    /// active vBucket takes memory.
    pub(super) fn flush_done(&mut self, seq: u64) -> Result<VbReply, AllocError>
        ensures ok { IfOk result (λ reply. (self.new, reply) ≡ kept_flushed self.old seq) }
        ensures answer { IfOk result (λ reply. reply.answer ≡ Num (max self.old.rest.saved seq)) }
        ensures sure { OnErr result (is_active self.old.rest.role ≡ true) }
        ensures err { OnErr result (self.new ≡ self.old) }
    {
        let former = self.saved;
        self.saved = self.saved.max(seq);
        let answer = VbAnswer::Num(self.saved);
        if !takes_writes(self.role) {
            return Ok(self.told(answer));
        }
        match self.settle(Plan::new(self.alloc, self.position.at), answer) {
            Ok(reply) => Ok(reply),
            Err(stop) => {
                self.saved = former;
                Err(stop)
            }
        }
    }

    /// Numbers.
    pub(super) fn stat(&self) -> VbReply
        ensures { result ≡ kept_stat self.now }
    {
        let CkptStat {
            windows,
            items,
            cursors,
            ..
        } = self.list.stat();
        self.told(VbAnswer::Stat {
            windows,
            items,
            cursors,
            saved: self.saved,
            high: self.position.at,
        })
    }

    /// The last seqno.
    #[tactic(auto, unfolding(crate::specs::Stands::StandsFor))]
    pub fn high(&self) -> u64
        ensures { (s : Plain) → StandsFor self.now s → result ≡ s.position.at }
    {
        self.position.at
    }
}
