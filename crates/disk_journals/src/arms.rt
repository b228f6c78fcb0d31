//! Arms over the disks of journals.
ghost use Rattle.std.specs.Prelude.{◌≡◌, ℕ, List};
ghost use Rattle.disk_journals.specs.{Arms.{ArmsLaid, arm_over, for_one_call, fuse_at}, Books.{AreBooks, Book}, Devices.{fuse_device}, Seen.{has_seen}, Stands.{ShelvesStand}};
ghost use Rattle.{vb_calls.specs.Shelves.{Shelves}, vb_disk.specs.Arms.{burnt}, vb_disk.specs.declared.fuse.Fuse.TheVariants.{Off}};

use crate::DiskJournals;
use crate::opening::Disks;
use vb_disk::{Fuse, FuseDisk};

impl DiskJournals<FuseDisk> {
    /// Puts this arm over the disk of a journal, where there is one of that number.
    pub fn arm(&mut self, v: u16, fuse: Fuse)
        ensures stands { (shelves : Shelves) → ShelvesStand fuse_device self.old shelves → ShelvesStand fuse_device self.new (arm_over shelves v fuse) }
        ensures has { (w : ℕ) → has_seen self.new w ≡ has_seen self.old w }
    {
        match self.place(v) {
            None => {}
            Some(at) => self.slots[at].arm(fuse),
        }
    }

    /// Takes what is left of the arm off the disk of a journal, where there is one of that number.
    pub fn disarm(&mut self, v: u16) -> Option<Fuse>
        ensures left { (shelves : Shelves) → ShelvesStand fuse_device self.old shelves → result ≡ fuse_at shelves v }
        ensures stands { (shelves : Shelves) → ShelvesStand fuse_device self.old shelves → ShelvesStand fuse_device self.new (arm_over shelves v Off) }
        ensures has { (w : ℕ) → has_seen self.new w ≡ has_seen self.old w }
    {
        match self.place(v) {
            None => None,
            Some(at) => Some(self.slots[at].disarm()),
        }
    }
}

/// The arm over a disk of which one call is made: none where that is not the one to be hit.
fn for_one_call(fuse: Fuse) -> Fuse
    ensures { result ≡ for_one_call fuse }
{
    match fuse {
        Fuse::Stop(1) | Fuse::Fail(1) => fuse,
        Fuse::Off | Fuse::Stop(_) | Fuse::Fail(_) => Fuse::Off,
    }
}

/// What is left of an arm behind one call.
fn burnt(fuse: Fuse) -> Fuse
    ensures { result ≡ burnt fuse }
{
    match fuse {
        Fuse::Off | Fuse::Stop(1) | Fuse::Fail(1) => Fuse::Off,
        Fuse::Stop(number) => Fuse::Stop(number.saturating_sub(1)),
        Fuse::Fail(number) => Fuse::Fail(number.saturating_sub(1)),
    }
}

/// Lays an arm over disks whose journals are to be opened in their order, each by one call, and
/// hands out what is left of it behind all.
pub fn lay_arm(disks: &mut Disks<FuseDisk>, fuse: Fuse) -> Fuse
    ensures laid { ArmsLaid fuse disks.new.items result }
    ensures books { (books : List Book) → AreBooks disks.old.items books → AreBooks disks.new.items books }
{
    let mut left = fuse;
    for at in 0..disks.len() {
        disks[at].disk.arm(for_one_call(left));
        left = burnt(left);
    }
    left
}
