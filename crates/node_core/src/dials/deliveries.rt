//! What a dial takes of the bytes of its producer, in one delivery.
ghost use Rattle.std.specs.Prelude.{◌≡◌, OnOk, OnErr};
ghost use Rattle.{mcbp_frame.specs.Cutting.{front_fault}, vb_calls.specs.Jobs.{RanJob, BeganJob}};
ghost use Rattle.node_core.specs.Dials.{fault_met, bytes_counted, with_last_line, delivered, bytes_taken};

use crate::Alloc;
use crate::dials::DialTurn;
use dcp_consumer::counted_bytes;
use mcbp_frame::{Frame, FrameFault};
use vb_calls::{Journals, VbAccess};
use vb_events::EndReason;

impl DialTurn {
    /// Bytes that begin no frame, whatever follows, end the link.
    fn meet_fault(&mut self, fault: Option<FrameFault>)
        ensures { self.new ≡ fault_met fault self.old }
    {
        if fault.is_some() && self.consumer.over().is_none() {
            self.consumer.end(EndReason::Protocol);
        }
    }

    /// Acknowledges the bytes of the frames of a delivery that count, where there are any, the link has
    /// a buffer, and is not over.
    #[tactic(auto, using(crate::proofs::Counted::counted_by))]
    fn acknowledge_bytes(&mut self, frames: &[Frame]) -> Alloc<()>
        ensures ok { OnOk result (self.new ≡ bytes_counted frames.now self.old) }
        ensures link { self.new.dial.consumer.dialed ≡ self.old.dial.consumer.dialed }
    {
        let bytes = counted_bytes(frames);
        if self.is_over() || self.consumer.dialed().buffer == 0 || bytes == 0 {
            return Ok(());
        }
        self.consumer.acknowledge_bytes(bytes, &mut self.out)
    }

    /// Meets what is behind the frames of a delivery: bytes that begin none, what is acknowledged by
    /// its bytes, and the end of the link.
    fn meet_rest(&mut self, frames: &[Frame]) -> Alloc<()>
        ensures ok { OnOk result (self.new ≡ with_last_line (bytes_counted frames.now (fault_met (front_fault self.old.dial.heard) self.old))) }
        ensures link { self.new.dial.consumer.dialed ≡ self.old.dial.consumer.dialed }
    {
        let fault = self.reader.fault()?;
        self.meet_fault(fault);
        self.acknowledge_bytes(frames)?;
        self.tell_end()
    }

    /// Tells why the link is over, where it is. That the disk is why is left to who called: what befell
    /// the disk comes before it.
    fn tell_end(&mut self) -> Alloc<()>
        ensures ok { OnOk result (self.new ≡ with_last_line self.old) }
        ensures link { self.new.dial.consumer.dialed ≡ self.old.dial.consumer.dialed }
    {
        match self.consumer.over() {
            None | Some(EndReason::Disk) => Ok(()),
            Some(reason) => {
                let line = self.ended(reason);
                self.events.push(line)
            }
        }
    }

    /// Takes the frames of a delivery, and meets what is behind them.
    #[tactic(auto, using(vb_calls::proofs::JobRuns::jobs))]
    fn deliver<A: VbAccess, J: Journals>(
        &mut self,
        vbs: &mut A,
        disks: &mut J,
        frames: &[Frame],
    ) -> Alloc<()>
        ensures ok { OnOk result (RanJob A.step J.asks (delivered frames.now self.old) vbs.old disks.old self.new vbs.new disks.new) }
        ensures err { OnErr result (BeganJob A.step J.asks (delivered frames.now self.old) vbs.old disks.old vbs.new disks.new) }
        ensures link { self.new.dial.consumer.dialed ≡ self.old.dial.consumer.dialed }
    {
        self.take_frames(vbs, disks, frames)?;
        self.meet_rest(frames)
    }

    /// Takes the next bytes from the producer.
    #[tactic(auto, using(vb_calls::proofs::JobRuns::jobs), unfolding(crate::specs::Dials::bytes_taken))]
    pub(crate) fn take_bytes<A: VbAccess, J: Journals>(
        &mut self,
        vbs: &mut A,
        disks: &mut J,
        piece: &[u8],
    ) -> Alloc<()>
        ensures ok { OnOk result (RanJob A.step J.asks (bytes_taken piece.now self.old) vbs.old disks.old self.new vbs.new disks.new) }
        ensures err { OnErr result (BeganJob A.step J.asks (bytes_taken piece.now self.old) vbs.old disks.old vbs.new disks.new) }
        ensures link { self.new.dial.consumer.dialed ≡ self.old.dial.consumer.dialed }
    {
        self.reader.feed(piece)?;
        let frames = self.reader.frames()?;
        let taken = self.deliver(vbs, disks, &frames);
        drop(frames);
        taken
    }
}
