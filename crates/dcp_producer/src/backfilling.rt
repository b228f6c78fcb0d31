//! What a stream puts of a backfill, which is read out of its vBucket's journal.
ghost use Rattle.std.specs.Prelude.{◌≡◌, IfOk, OnErr, IfSome};
ghost use Rattle.dcp_producer.specs.Frames.{IsPuttable, read_comes, read_job};
ghost use Rattle.{dcp_producer.specs.Wanting.{standing}, vb_calls.specs.Jobs.{BeganRequests, RanRequests}};

use crate::{ActiveStream, Alloc, NextFrame};
use backfill::{Backfilled, backfill};
use std::alloc::Global;
use vb_calls::Journals;
use vb_events::StreamName;

impl ActiveStream {
    /// Goes to the snapshot that was read, if the stream sees anything there; where the journal can't be
    /// read the stream is as it was, so that it is tried again.
    fn answer_backfill(
        &mut self,
        alloc: Global,
        name: StreamName,
        came: Backfilled,
    ) -> Alloc<Option<NextFrame>>
        ensures next { IfOk result (λ next. (next, self.new) ≡ read_comes name self.old came) }
        ensures same { standing self.new ≡ standing self.old }
        ensures spelled { IfOk result (λ next. IfSome next IsPuttable) }
    {
        match came {
            Backfilled::Snapshot(snapshot) => {
                self.unread = None;
                Ok(Some(self.mark_taken(alloc, name, snapshot)?))
            }
            Backfilled::Nothing => {
                self.unread = None;
                Ok(None)
            }
            Backfilled::Disk => Ok(Some(NextFrame::Disk)),
        }
    }

    /// Reads the journal for a backfill up to `upto`, once: the stream's next frame, or none, where it
    /// sees nothing there.
    #[tactic(auto, using(vb_calls::proofs::JobRuns::jobs))]
    pub fn read_backfill<J: Journals>(
        &mut self,
        alloc: Global,
        disks: &mut J,
        name: StreamName,
        upto: u64,
    ) -> Alloc<Option<NextFrame>>
        ensures ok { IfOk result (λ next. RanRequests J.asks (read_job name upto self.old) disks.old (next, self.new) disks.new) }
        ensures err { OnErr result (BeganRequests J.asks (read_job name upto self.old) disks.old disks.new) }
        ensures same { standing self.new ≡ standing self.old }
        ensures spelled { IfOk result (λ next. IfSome next IsPuttable) }
    {
        let came = backfill(alloc, disks, self.vb, self.place, upto, self.sync)?;
        self.answer_backfill(alloc, name, came)
    }
}
