//! A disk in memory, which never fails.
ghost use Rattle.std.specs.Prelude.{◌≡◌, ◌+◌, ◌^◌, ◌<◌, ◌≤◌, [], ◌∷◌, Some, length, IfOk, position};
ghost use Rattle.vb_disk.{specs.Crashes.{MaySettle, Only}, specs.Disks.{IsReady, is_write, without}, specs.declared.Put.TheVariants.{Done}, specs.declared.fuse.Fuse.TheVariants.{Off}};
ghost use Rattle.vb_disk.specs.{Memory.{mem_storage, mem_crashes, mem_counts_now, crashed}, Outcomes.{mem_left}, declared.made.Outcome.{Outcome as TheOutcome}};

use crate::made::{Made, Outcome, blur_pending, forget_pending, overwrite, replay};
use crate::room::Room;
use crate::{Disk, Put};
use std::alloc::{AllocError, Global};
use std::marker::Model;

/// Where a write has to end before.
const MAX_END: u64 = 1 << 62;

/// Bytes in memory, the memory of each write that is ready, and all that was done to them.
#[derive(Drop)]
pub struct MemDisk {
    alloc: Global,
    bytes: Vec<u8>,
    ready: Vec<Room>,
    past: Vec<Made>,
    /// Whether something was done since the last sync.
    pending: bool,
}

impl Model for MemDisk {
    ghost use Rattle.std.specs.Prelude.{vec_capacity, reverse};
    ghost use Rattle.vb_disk.specs.Memory.{MemStorage, IsKept, IsNoted};

    ghost Value = { MemStorage };

    ghost view = { λ d. record { bytes = d.bytes.items; ready = d.ready.items; past = reverse d.past.items } };

    ghost invariant = { λ d. IsKept d.bytes.items (vec_capacity d.bytes) d.ready.items (reverse d.past.items)
        × IsNoted d.ready.items (reverse d.past.items) (vec_capacity d.past) d.pending };
}

impl MemDisk {
    /// A new disk: one zero byte. An error is want of memory.
    pub fn new(alloc: Global) -> Result<MemDisk, AllocError>
        ensures { IfOk result (λ disk. disk ≡ record { bytes = 0 ∷ []; ready = []; past = [] }) }
    {
        Ok(MemDisk {
            alloc,
            bytes: vec![in alloc; 0]?,
            ready: Vec::new(alloc),
            past: Vec::new(alloc),
            pending: false,
        })
    }

    /// Its bytes.
    pub fn bytes(&self) -> &[u8]
        ensures { result.now ≡ self.now.bytes }
    {
        &self.bytes
    }

    /// A crash, and what it leaves of all that was not synced. It takes no memory, and forgets
    /// what memory was ready for. Moments are counted anew, from what was synced or is left on.
    pub fn crash(&mut self, out: Outcome)
        ensures left { (mem_crashes self.old).leaves self.new.bytes }
        ensures image { self.new.bytes ≡ crashed out self.old.past }
        ensures settled { Only self.new.bytes (mem_crashes self.new).leaves }
        ensures ready { self.new.ready ≡ [] }
    {
        self.ready.clear();
        match out {
            Outcome::Old => {
                forget_pending(&mut self.past);
                replay(&self.past, &mut self.bytes);
                self.pending = false;
            }
            Outcome::New => self.settle(),
            Outcome::Fill(byte) => {
                blur_pending(&mut self.past, byte);
                replay(&self.past, &mut self.bytes);
                self.settle();
            }
        }
    }

    /// Uses up what memory was ready for, and writes nothing.
    pub fn forgo(&mut self, at: u64, len: u64)
        requires { IsReady at len self.old.ready }
        ensures { self.new ≡ record self.old { ready = without at len self.old.ready } }
    {
        use_up(&mut self.ready, at, len);
    }

    /// Makes what is there outlast a crash.
    fn settle(&mut self)
        ensures bytes { self.new.bytes ≡ self.old.bytes }
        ensures ready { self.new.ready ≡ self.old.ready }
        ensures settles { MaySettle (mem_crashes self.old) (mem_crashes self.new) (Some self.new.bytes) Done }
        ensures left { (out : TheOutcome) → crashed out self.new.past ≡ self.new.bytes }
    {
        if self.pending {
            self.past.push_reserved(Made::Synced);
            self.pending = false;
        }
    }
}

/// Where such a write stands among those that are ready.
fn place_of(ready: &[Room], at: u64, len: u64) -> Option<usize>
    ensures { result ≡ position (is_write at len) ready.now }
{
    ready.iter().position(|room| room.is(at, len))
}

/// Takes one such write off those that are ready.
fn use_up(ready: &mut Vec<Room>, at: u64, len: u64) -> Room
    requires { IsReady at len ready.old.items }
    ensures rest { ready.new.items ≡ without at len ready.old.items }
    ensures room { result ≡ (at, len) }
{
    match place_of(ready, at, len) {
        Some(place) => ready.remove(place),
        None => unreachable!(),
    }
}

impl Disk for MemDisk {
    ghost storage = { mem_storage };

    ghost crashes = { mem_crashes };

    ghost armed = { λ m. Some Off };

    ghost left_by = { mem_left };

    ghost counts_now = { mem_counts_now };

    fn len(&self) -> u64 {
        self.bytes.len() as u64
    }

    fn reserve(&mut self, at: u64, len: u64) -> Result<(), AllocError> {
        if at >= MAX_END || len >= MAX_END - at {
            return Err(AllocError);
        }
        let room = Room::new(self.alloc, at, len)?;
        let end = (at + len) as usize;
        self.bytes.reserve(end.saturating_sub(self.bytes.len()))?;
        self.past.reserve(2 * self.ready.len() + 3)?;
        self.ready.push(room)?;
        Ok(())
    }

    fn read(&mut self, at: u64, room: &mut [u8]) -> Put {
        let at = at as usize;
        room.copy_from_slice(&self.bytes[at..at + room.len()]);
        Put::Done
    }

    fn write_at(&mut self, at: u64, bytes: &[u8]) -> Put {
        let room = use_up(&mut self.ready, at, bytes.len() as u64);
        overwrite(&mut self.bytes, at as usize, bytes);
        let bytes = room.copy(bytes);
        self.past.push_reserved(Made::Wrote { at, bytes });
        self.pending = true;
        Put::Done
    }

    fn cut(&mut self, len: u64) -> Put {
        use_up(&mut self.ready, len, 0);
        self.bytes.truncate(len as usize);
        self.past.push_reserved(Made::Cut { len });
        self.pending = true;
        Put::Done
    }

    fn sync(&mut self) -> Put {
        self.settle();
        Put::Done
    }

    fn faults(&self) -> u64 {
        0
    }
}
