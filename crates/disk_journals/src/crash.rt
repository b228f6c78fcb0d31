//! Crashes of journals on disks.
ghost use Rattle.std.specs.Prelude.{◌≡◌, option_map};
ghost use Rattle.disk_journals.specs.{Books.{AreBooks, listed}, Devices.{fuse_device}, Stands.{ShelvesStand}};
ghost use Rattle.vb_calls.specs.Shelves.{Shelves, left_book};

use crate::DiskJournals;
use crate::journals::place_of;
use crate::opening::Disks;
use vb_disk::{FuseDisk, Outcome};

/// The numbers of vBuckets are below this one.
pub const NUMBERS: u16 = 1024;

impl DiskJournals<FuseDisk> {
    /// A crash of the process that keeps them: the journals end, each disk keeps what the crash
    /// leaves of it, and all are handed back by rising number. No arm is over them any more.
    pub fn crash(self, out: Outcome) -> Disks<FuseDisk>
        ensures { (shelves : Shelves) → ShelvesStand fuse_device self shelves → AreBooks result.items (listed (λ v. option_map (left_book out) (shelves v))) }
    {
        let DiskJournals {
            mut slots,
            room: mut disks,
            ..
        } = self;
        for number in 0..NUMBERS {
            match place_of(&slots, number) {
                None => {}
                Some(at) => {
                    let mut ended = slots.remove(at).into_disk();
                    ended.disk.crash(out);
                    disks.push_back_reserved(ended);
                }
            }
        }
        disks
    }
}
