//! A disk in memory under an arm.
ghost use Rattle.std.specs.Prelude.{◌≡◌, Some};
ghost use Rattle.vb_disk.specs.{Arms.{burnt}, Crashes.{Only}, Memory.{mem_crashes, crashed}, Outcomes.{mem_left}};
ghost use Rattle.vb_disk.specs.Fused.{fuse_storage, fuse_crashes, fuse_counts_now};
ghost use Rattle.vb_disk.specs.{Counts.{Counted}, declared.Put.TheVariants.{Failed}, declared.fuse.Fuse.TheVariants.{Off}};

use crate::{Disk, Fuse, MemDisk, Outcome, Put};
use std::alloc::AllocError;
use std::marker::Model;

/// A disk around a disk in memory: it passes its calls until its arm fires.
#[derive(Drop)]
pub struct FuseDisk {
    disk: MemDisk,
    fuse: Fuse,
    faults: u64,
}

impl Model for FuseDisk {
    ghost use Rattle.vb_disk.specs.Fused.{FuseStorage};

    ghost Value = { FuseStorage };

    ghost view = { λ d. record { disk = d.disk; fuse = d.fuse; failures = d.faults } };
}

/// One device call is made under the arm: the arm from before it.
fn burn(fuse: &mut Fuse) -> Fuse
    ensures before { result ≡ fuse.old }
    ensures now { fuse.new ≡ burnt fuse.old }
{
    let before = *fuse;
    *fuse = match before {
        Fuse::Off | Fuse::Stop(1) | Fuse::Fail(1) => Fuse::Off,
        Fuse::Stop(number) => Fuse::Stop(number.saturating_sub(1)),
        Fuse::Fail(number) => Fuse::Fail(number.saturating_sub(1)),
    };
    before
}

/// A call was hit.
fn hit(faults: &mut u64) -> Put
    ensures answer { result ≡ Failed }
    ensures counted { Counted faults.old faults.new Failed }
{
    *faults = faults.saturating_add(1);
    Put::Failed
}

impl FuseDisk {
    /// Under an arm that is off.
    pub fn new(disk: MemDisk) -> FuseDisk
        ensures { result ≡ record { disk = disk; fuse = Off; failures = 0 } }
    {
        FuseDisk {
            disk,
            fuse: Fuse::Off,
            faults: 0,
        }
    }

    /// Puts this arm over it.
    pub fn arm(&mut self, fuse: Fuse)
        ensures { self.new ≡ record self.old { fuse = fuse } }
    {
        self.fuse = fuse;
    }

    /// What is left of its arm.
    pub fn fuse(&self) -> Fuse
        ensures { result ≡ self.now.fuse }
    {
        self.fuse
    }

    /// Takes what is left of its arm off, to put it over another disk.
    pub fn disarm(&mut self) -> Fuse
        ensures arm { result ≡ self.old.fuse }
        ensures off { self.new ≡ record self.old { fuse = Off } }
    {
        let left = self.fuse;
        self.fuse = Fuse::Off;
        left
    }

    /// A crash, and what it leaves of all that was not synced. Its arm is off from then on.
    pub fn crash(&mut self, out: Outcome)
        ensures left { (fuse_crashes self.old).leaves self.new.disk.bytes }
        ensures image { self.new.disk.bytes ≡ crashed out self.old.disk.past }
        ensures settled { Only self.new.disk.bytes (fuse_crashes self.new).leaves }
        ensures off { self.new.fuse ≡ Off }
    {
        self.disk.crash(out);
        self.fuse = Fuse::Off;
    }

    /// The disk in memory.
    pub fn into_disk(self) -> MemDisk
        ensures { result ≡ self.disk }
    {
        self.disk
    }
}

impl Disk for FuseDisk {
    ghost storage = { fuse_storage };

    ghost crashes = { fuse_crashes };

    ghost armed = { λ f. Some f.fuse };

    ghost left_by = { λ f. mem_left f.disk };

    ghost counts_now = { fuse_counts_now };

    fn len(&self) -> u64 {
        self.disk.len()
    }

    fn reserve(&mut self, at: u64, len: u64) -> Result<(), AllocError> {
        self.disk.reserve(at, len)
    }

    fn read(&mut self, at: u64, room: &mut [u8]) -> Put {
        self.disk.read(at, room)
    }

    fn write_at(&mut self, at: u64, bytes: &[u8]) -> Put {
        match burn(&mut self.fuse) {
            Fuse::Stop(1) => {
                self.disk.write_at(at, bytes);
                hit(&mut self.faults)
            }
            Fuse::Fail(1) => {
                self.disk.forgo(at, bytes.len() as u64);
                hit(&mut self.faults)
            }
            Fuse::Off | Fuse::Stop(_) | Fuse::Fail(_) => self.disk.write_at(at, bytes),
        }
    }

    fn cut(&mut self, len: u64) -> Put {
        match burn(&mut self.fuse) {
            Fuse::Stop(1) => {
                self.disk.cut(len);
                hit(&mut self.faults)
            }
            Fuse::Fail(1) => {
                self.disk.forgo(len, 0);
                hit(&mut self.faults)
            }
            Fuse::Off | Fuse::Stop(_) | Fuse::Fail(_) => self.disk.cut(len),
        }
    }

    fn sync(&mut self) -> Put {
        match burn(&mut self.fuse) {
            Fuse::Stop(1) | Fuse::Fail(1) => hit(&mut self.faults),
            Fuse::Off | Fuse::Stop(_) | Fuse::Fail(_) => self.disk.sync(),
        }
    }

    fn faults(&self) -> u64 {
        self.faults
    }
}
