//! A disk over a file.
ghost use Rattle.std.specs.Prelude.{◌≡◌, ◌+◌, ◌^◌, ◌<◌, ◌≤◌, None, [], false, true, length, position, if◌then◌else◌, IfOk, IfSome};
ghost use Rattle.vb_disk.specs.Disks.{IsReady, Reads, Writes, Cuts, Syncs, is_write, without};
ghost use Rattle.vb_disk.specs.{Counts.{Counted}, Crashes.{MayTear, MayClip}};
ghost use Rattle.vb_disk.specs.declared.Put.TheVariants.{Done, Failed};
ghost use Rattle.file_disk.specs.Files.{FileAsk, CalledFor, SyncsFile, file_storage, any_crashes, any_counts_now};

use crate::RawFile;
use std::alloc::{AllocError, Global};
use std::marker::Model;
use vb_disk::{Disk, Put};

/// Where a write has to end before, and how long a file may not be.
pub(crate) const MAX_END: u64 = 1 << 62;

/// A disk over a file that nobody else changes. It keeps its bytes to itself.
///
/// A sync that failed may have lost what was written, though a read still gives it: so once one
/// failed, each later one fails too.
#[derive(Drop)]
pub struct FileDisk<F: RawFile> {
    file: F,
    size: u64,
    ready: Vec<(u64, u64)>,
    faults: u64,
    /// Whether a sync failed.
    lost: bool,
}

impl<F: RawFile> Model for FileDisk<F> {
    ghost use Rattle.std.specs.Prelude.{◌≤◌, ◌<◌, ◌^◌};
    ghost use Rattle.file_disk.specs.Files.{FileStorage};

    ghost Value = { FileStorage };

    ghost view = { λ d. record { size = d.size; ready = d.ready.items; failures = d.faults; lost = d.lost; log = F.log d.file } };

    ghost invariant = { λ d. (1 ≤ d.size) × (d.size < 2 ^ 62) };
}

impl<F: RawFile> FileDisk<F> {
    /// A disk over a file of that many bytes, of which nothing failed yet.
    pub fn over(alloc: Global, file: F, size: u64) -> FileDisk<F>
        requires some { 1 ≤ size }
        requires few { size < 2 ^ 62 }
        ensures { result ≡ record { size = size; ready = []; failures = 0; lost = false; log = F.log file } }
    {
        FileDisk {
            file,
            size,
            ready: Vec::new(alloc),
            faults: 0,
            lost: false,
        }
    }

    /// The file.
    pub fn into_file(self) -> F
        ensures { F.log result ≡ self.log }
    {
        self.file
    }
}

/// Where such a write stands among those for which memory is ready.
fn place_of(ready: &[(u64, u64)], at: u64, len: u64) -> Option<usize>
    ensures { result ≡ position (is_write at len) ready.now }
{
    ready
        .iter()
        .position(|write| write.0 == at && write.1 == len)
}

/// Takes one such write off them.
fn use_up(ready: &mut Vec<(u64, u64)>, at: u64, len: u64)
    requires { IsReady at len ready.old.items }
    ensures { ready.new.items ≡ without at len ready.old.items }
{
    match place_of(ready, at, len) {
        Some(place) => {
            ready.remove(place);
        }
        None => unreachable!(),
    }
}

/// What became of a call, which is counted where it failed.
fn answer(faults: &mut u64, done: bool) -> Put
    ensures answer { result ≡ (if done then Done else Failed) }
    ensures counted { Counted faults.old faults.new result }
{
    if done {
        return Put::Done;
    }
    *faults = faults.saturating_add(1);
    Put::Failed
}

impl<F: RawFile> Disk for FileDisk<F> {
    ghost storage = { file_storage };

    ghost crashes = { λ d. any_crashes };

    ghost armed = { λ d. None };

    ghost left_by = { λ d out. None };

    ghost counts_now = { λ d. any_counts_now };

    fn len(&self) -> u64 {
        self.size
    }

    fn reserve(&mut self, at: u64, len: u64) -> Result<(), AllocError> {
        if at >= MAX_END || len >= MAX_END - at {
            return Err(AllocError);
        }
        self.ready.push((at, len))?;
        Ok(())
    }

    /// One call of the file, of this place and for this room.
    fn read(&mut self, at: u64, room: &mut [u8]) -> Put
        requires { at + length room.old ≤ (file_storage self.old).size }
        ensures moved { Reads (file_storage self.old) (file_storage self.new) at room.new result }
        ensures called { CalledFor (FileAsk.AskedRead at room.new) result self.old.log self.new.log }
        ensures lost { self.new.lost ≡ self.old.lost }
    {
        let done = self.file.read_whole(at, room).is_ok();
        answer(&mut self.faults, done)
    }

    /// One call of the file, of this place and with these bytes. Where it fails, the disk counts no
    /// byte more than before.
    fn write_at(&mut self, at: u64, bytes: &[u8]) -> Put
        requires within { at ≤ (file_storage self.old).size }
        requires end { at + length bytes.now < 2 ^ 62 }
        requires ready { IsReady at (length bytes.now) (file_storage self.old).ready }
        ensures moved { Writes (file_storage self.old) (file_storage self.new) at bytes.now result }
        ensures crash { MayTear any_crashes any_crashes at (length bytes.now) }
        ensures kept { result ≡ Failed → self.new.size ≡ self.old.size }
        ensures called { CalledFor (FileAsk.AskedWrite at bytes.now) result self.old.log self.new.log }
        ensures lost { self.new.lost ≡ self.old.lost }
    {
        let len = bytes.len() as u64;
        use_up(&mut self.ready, at, len);
        let done = self.file.write_whole(at, bytes).is_ok();
        if done {
            self.size = self.size.max(at + len);
        }
        answer(&mut self.faults, done)
    }

    /// One call of the file, to that length. Where it fails, the disk counts as many bytes as before.
    fn cut(&mut self, len: u64) -> Put
        requires some { 1 ≤ len }
        requires within { len ≤ (file_storage self.old).size }
        requires ready { IsReady len 0 (file_storage self.old).ready }
        ensures moved { Cuts (file_storage self.old) (file_storage self.new) len result }
        ensures crash { MayClip any_crashes any_crashes len }
        ensures kept { result ≡ Failed → self.new.size ≡ self.old.size }
        ensures called { CalledFor (FileAsk.AskedCut len) result self.old.log self.new.log }
        ensures lost { self.new.lost ≡ self.old.lost }
    {
        use_up(&mut self.ready, len, 0);
        let done = self.file.cut_to(len).is_ok();
        if done {
            self.size = len;
        }
        answer(&mut self.faults, done)
    }

    /// One call of the file, and none where an earlier sync failed.
    fn sync(&mut self) -> Put
        ensures moved { Syncs (file_storage self.old) (file_storage self.new) result }
        ensures file { SyncsFile self.old self.new result }
    {
        if !self.lost {
            self.lost = self.file.sync_all_bytes().is_err();
        }
        answer(&mut self.faults, !self.lost)
    }

    fn faults(&self) -> u64 {
        self.faults
    }
}
