//! A disk in memory of which chosen calls fail.
ghost use Rattle.std.specs.Prelude.{◌≡◌, ◌+◌, ◌^◌, ◌<◌, ◌≤◌, length, IfOk, IfSome};
ghost use Rattle.std.specs.Bool.{OnTrue, OnFalse};
ghost use Rattle.vb_disk.specs.Crashes.{LeavesNoMore, MayClip, MaySettle, MayTear, Only};
ghost use Rattle.vb_disk.specs.Disks.{IsReady, Cuts, Reads, Syncs, Writes};
ghost use Rattle.vb_disk.specs.Listed.{AsListed, FailsNext, called, listed_counts_now, listed_crashes, listed_storage, raised, unarmed};
ghost use Rattle.vb_disk.specs.{Arms.{Burns, Passes}, Memory.{crashed}};
ghost use Rattle.vb_disk.specs.Outcomes.{HeldByCut, HeldByWrite, LeftAlike, LeftByCut, LeftBySync, LeftByWrite, mem_left};

use crate::{Disk, MemDisk, Outcome, Put};
use std::alloc::{AllocError, Global};
use std::marker::Model;

/// A disk around a disk in memory. The calls whose numbers are listed fail and do nothing. Each
/// read, write, cut and sync has a number; the first is number 1, and the number stands still at
/// `u64::MAX`.
#[derive(Drop)]
pub struct ListedDisk {
    disk: MemDisk,
    calls: u64,
    fail: Vec<u64>,
    faults: u64,
}

impl Model for ListedDisk {
    ghost use Rattle.vb_disk.specs.Listed.{ListedStorage};

    ghost Value = { ListedStorage };

    ghost view = { λ d. record { disk = d.disk; calls = d.calls; fail = d.fail.items; failures = d.faults } };
}

/// A count after one more.
fn raise(count: u64) -> u64
    ensures { result ≡ raised count }
{
    count.saturating_add(1)
}

impl ListedDisk {
    /// A disk whose calls with these numbers fail. An error is want of memory.
    pub fn new(alloc: Global, disk: MemDisk, fail: &[u64]) -> Result<ListedDisk, AllocError>
        ensures { IfOk result (λ d. d ≡ record { disk = disk; calls = 0; fail = fail.now; failures = 0 }) }
    {
        Ok(ListedDisk {
            disk,
            calls: 0,
            fail: fail.to_vec(alloc)?,
            faults: 0,
        })
    }

    /// How many of its calls were made, those that failed among them.
    pub fn calls(&self) -> u64
        ensures { result ≡ self.now.calls }
    {
        self.calls
    }

    /// Counts a call. Whether it is one of those that fail, which is counted too.
    fn fails(&mut self) -> bool
        ensures listed { OnTrue result (FailsNext self.old) }
        ensures other { OnFalse result (¬ FailsNext self.old) }
        ensures counted { self.new ≡ called self.old result }
    {
        self.calls = raise(self.calls);
        if self.fail.contains(&self.calls) {
            self.faults = raise(self.faults);
            return true;
        }
        false
    }

    /// A crash, and what it leaves of all that was not synced. Its calls are numbered on.
    pub fn crash(&mut self, out: Outcome)
        ensures left { (listed_crashes self.old).leaves self.new.disk.bytes }
        ensures image { self.new.disk.bytes ≡ crashed out self.old.disk.past }
        ensures settled { Only self.new.disk.bytes (listed_crashes self.new).leaves }
        ensures rest { self.new ≡ record self.old { disk = self.new.disk } }
    {
        self.disk.crash(out);
    }

    /// The disk in memory.
    pub fn into_disk(self) -> MemDisk
        ensures { result ≡ self.disk }
    {
        self.disk
    }
}

impl Disk for ListedDisk {
    ghost storage = { listed_storage };

    ghost crashes = { listed_crashes };

    ghost armed = { unarmed };

    ghost left_by = { λ d. mem_left d.disk };

    ghost counts_now = { listed_counts_now };

    fn len(&self) -> u64 {
        self.disk.len()
    }

    fn reserve(&mut self, at: u64, len: u64) -> Result<(), AllocError> {
        self.disk.reserve(at, len)
    }

    /// Fills the room, but fails where this call is listed.
    fn read(&mut self, at: u64, room: &mut [u8]) -> Put
        requires { at + length room.old ≤ (listed_storage self.old).size }
        ensures moved { Reads (listed_storage self.old) (listed_storage self.new) at room.new result }
        ensures crash { LeavesNoMore (listed_crashes self.old) (listed_crashes self.new) }
        ensures arm { Passes (unarmed self.old) (unarmed self.new) result }
        ensures left { LeftAlike (mem_left self.old.disk) (mem_left self.new.disk) }
        ensures exact { AsListed self.old self.new result }
    {
        if self.fails() {
            return Put::Failed;
        }
        self.disk.read(at, room)
    }

    /// Writes the bytes, but fails where this call is listed, and then writes nothing.
    fn write_at(&mut self, at: u64, bytes: &[u8]) -> Put
        requires within { at ≤ (listed_storage self.old).size }
        requires end { at + length bytes.now < 2 ^ 62 }
        requires ready { IsReady at (length bytes.now) (listed_storage self.old).ready }
        ensures moved { Writes (listed_storage self.old) (listed_storage self.new) at bytes.now result }
        ensures crash { MayTear (listed_crashes self.old) (listed_crashes self.new) at (length bytes.now) }
        ensures arm { Burns (unarmed self.old) (unarmed self.new) result }
        ensures left { IfSome (unarmed self.old) (λ f. LeftByWrite f (mem_left self.old.disk) (mem_left self.new.disk) at bytes.now) }
        ensures held { IfSome (unarmed self.old) (λ f. HeldByWrite f (listed_storage self.old).held (listed_storage self.new).held at bytes.now) }
        ensures exact { AsListed self.old self.new result }
    {
        if self.fails() {
            self.disk.forgo(at, bytes.len() as u64);
            return Put::Failed;
        }
        self.disk.write_at(at, bytes)
    }

    /// Cuts off what is behind, but fails where this call is listed, and then cuts nothing.
    fn cut(&mut self, len: u64) -> Put
        requires some { 1 ≤ len }
        requires within { len ≤ (listed_storage self.old).size }
        requires ready { IsReady len 0 (listed_storage self.old).ready }
        ensures moved { Cuts (listed_storage self.old) (listed_storage self.new) len result }
        ensures crash { MayClip (listed_crashes self.old) (listed_crashes self.new) len }
        ensures arm { Burns (unarmed self.old) (unarmed self.new) result }
        ensures left { IfSome (unarmed self.old) (λ f. LeftByCut f (mem_left self.old.disk) (mem_left self.new.disk) len) }
        ensures held { IfSome (unarmed self.old) (λ f. HeldByCut f (listed_storage self.old).held (listed_storage self.new).held len) }
        ensures exact { AsListed self.old self.new result }
    {
        if self.fails() {
            self.disk.forgo(len, 0);
            return Put::Failed;
        }
        self.disk.cut(len)
    }

    /// Makes what was written outlast a crash, but fails where this call is listed.
    fn sync(&mut self) -> Put
        ensures moved { Syncs (listed_storage self.old) (listed_storage self.new) result }
        ensures crash { MaySettle (listed_crashes self.old) (listed_crashes self.new) (listed_storage self.new).held result }
        ensures arm { Burns (unarmed self.old) (unarmed self.new) result }
        ensures left { IfSome (unarmed self.old) (λ f. LeftBySync f (mem_left self.old.disk) (mem_left self.new.disk) (listed_storage self.new).held) }
        ensures exact { AsListed self.old self.new result }
    {
        if self.fails() {
            return Put::Failed;
        }
        self.disk.sync()
    }

    fn faults(&self) -> u64 {
        self.faults
    }
}
