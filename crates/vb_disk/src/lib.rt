//! Disks: bytes that can be read and written, cut and synced, with their failures counted, and what
//! a crash may leave of them. There is one in memory, one in memory under an arm, and one in memory
//! of which chosen calls fail.
#![tactic(auto)]

ghost use Rattle.std.specs.Prelude.{Option, IfSome, List, ℕ, ◌≡◌, ◌+◌, ◌^◌, ◌<◌, ◌≤◌, length, OnOk, OnErr};
ghost use Rattle.vb_disk.specs.Disks.{Storage, IsSound, IsReady, readied, Reads, Writes, Cuts, Syncs};
ghost use Rattle.vb_disk.specs.{Arms.{Burns, Passes}, declared.fuse.Fuse.{Fuse as TheFuse}, declared.made.Outcome.{Outcome as TheOutcome}};
ghost use Rattle.vb_disk.specs.Outcomes.{LeftAlike, LeftByWrite, HeldByWrite, LeftByCut, HeldByCut, LeftBySync};
ghost use Rattle.vb_disk.specs.Crashes.{Crashes, CountsNow, LeavesNoMore, MayTear, MayClip, MaySettle};

mod crash_laws;
mod fuse;
mod fuse_disk;
mod laws;
mod listed_disk;
mod made;
mod mem_disk;
mod room;

pub use crash_laws::{crashes_in_numbers, cuts_are_filled};
pub use fuse::Fuse;
pub use fuse_disk::FuseDisk;
pub use laws::{
    arms_fire_once, counts_rise, listed_calls_fail, new_disks_are_settled, one_write_is_used_up,
    what_is_written_is_read,
};
pub use listed_disk::ListedDisk;
pub use made::Outcome;
pub use mem_disk::MemDisk;
use std::alloc::AllocError;

/// What became of a call.
#[derive(Clone, Copy, Debug, PartialEq, Eq)]
pub enum Put {
    /// It was done, whole.
    Done,
    /// It failed, and that was counted.
    Failed,
}

/// Bytes that outlast a process. There is always at least one, and there are fewer than 2^62.
///
/// No call but `reserve` takes memory: each write and each cut needs its own reserve beforehand,
/// and uses it up.
///
/// A crash may come at each moment, also inside a call. Until a sync is done, what was written or
/// cut off may be there, or not, or be any bytes, also where the call failed; all other bytes stay.
pub trait Disk {
    /// Its bytes, the writes that memory is ready for, and its failures.
    ghost storage: { Self → Storage };

    /// What a crash may leave of it, at each moment.
    ghost crashes: { Self → Crashes };

    /// The arm under which it is called, where it tells one: then no other call fails than the one
    /// that the arm hits.
    ghost armed: { Self → Option TheFuse };

    /// What a crash of each outcome leaves now, where it tells its arm.
    ghost left_by: { Self → TheOutcome → Option (List ℕ) };

    /// How many bytes there are.
    fn len(&self) -> u64
        ensures size { result ≡ (storage self.now).size }
        ensures sound { IsSound (storage self.now) };

    /// Takes the memory for one write of `len` bytes at `at`, or with `len` 0 for a cut to `at`
    /// bytes. It calls no device and changes no byte. An error is want of memory, or an end at
    /// 2^62 or above, and changes nothing.
    fn reserve(&mut self, at: u64, len: u64) -> Result<(), AllocError>
        ensures ok { OnOk result (storage self.new ≡ readied (storage self.old) at len) }
        ensures end { OnOk result (at + len < 2 ^ 62) }
        ensures err { OnErr result (storage self.new ≡ storage self.old) }
        ensures crash { LeavesNoMore (crashes self.old) (crashes self.new) }
        ensures arm { armed self.new ≡ armed self.old }
        ensures left { LeftAlike (left_by self.old) (left_by self.new) };

    /// Fills the room with the bytes at `at`. The room may hold anything where it fails.
    fn read(&mut self, at: u64, room: &mut [u8]) -> Put
        requires { at + length room.old ≤ (storage self.old).size }
        ensures moved { Reads (storage self.old) (storage self.new) at room.new result }
        ensures crash { LeavesNoMore (crashes self.old) (crashes self.new) }
        ensures arm { Passes (armed self.old) (armed self.new) result }
        ensures left { LeftAlike (left_by self.old) (left_by self.new) };

    /// Writes the bytes over those at `at`, and past the end. Where it fails, its range may hold
    /// anything, and all outside stays.
    fn write_at(&mut self, at: u64, bytes: &[u8]) -> Put
        requires within { at ≤ (storage self.old).size }
        requires end { at + length bytes.now < 2 ^ 62 }
        requires ready { IsReady at (length bytes.now) (storage self.old).ready }
        ensures moved { Writes (storage self.old) (storage self.new) at bytes.now result }
        ensures crash { MayTear (crashes self.old) (crashes self.new) at (length bytes.now) }
        ensures arm { Burns (armed self.old) (armed self.new) result }
        ensures left { IfSome (armed self.old) (λ f. LeftByWrite f (left_by self.old) (left_by self.new) at bytes.now) }
        ensures held { IfSome (armed self.old) (λ f. HeldByWrite f (storage self.old).held (storage self.new).held at bytes.now) };

    /// Cuts off all behind the first `len` bytes. Where it fails, it may have cut off some of it.
    fn cut(&mut self, len: u64) -> Put
        requires some { 1 ≤ len }
        requires within { len ≤ (storage self.old).size }
        requires ready { IsReady len 0 (storage self.old).ready }
        ensures moved { Cuts (storage self.old) (storage self.new) len result }
        ensures crash { MayClip (crashes self.old) (crashes self.new) len }
        ensures arm { Burns (armed self.old) (armed self.new) result }
        ensures left { IfSome (armed self.old) (λ f. LeftByCut f (left_by self.old) (left_by self.new) len) }
        ensures held { IfSome (armed self.old) (λ f. HeldByCut f (storage self.old).held (storage self.new).held len) };

    /// Makes what was written outlast a crash.
    fn sync(&mut self) -> Put
        ensures moved { Syncs (storage self.old) (storage self.new) result }
        ensures crash { MaySettle (crashes self.old) (crashes self.new) (storage self.new).held result }
        ensures arm { Burns (armed self.old) (armed self.new) result }
        ensures left { IfSome (armed self.old) (λ f. LeftBySync f (left_by self.old) (left_by self.new) (storage self.new).held) };

    /// How often a call has failed. The count never falls, and stands still at `u64::MAX`.
    fn faults(&self) -> u64
        ensures { result ≡ (storage self.now).failures };

    /// Its moments are counted.
    ghost counts_now: { (disk : Self) → CountsNow (crashes disk) };
}
