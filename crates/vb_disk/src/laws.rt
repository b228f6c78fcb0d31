//! What holds of all disks by their definitions, each the contract of a function that does nothing.
ghost use Rattle.vb_disk.specs.{Arms.{FiresOnce}, Laws.{IsMadeSettled, OneIsUsed, Rises, WritesAsRead}, Listed.{FailsAsListed}};

/// What is written is read back, and nothing else changes.
pub fn what_is_written_is_read()
    ensures { WritesAsRead }
{}

/// A write uses up one readiness for it.
pub fn one_write_is_used_up()
    ensures { OneIsUsed }
{}

/// Which counts rose.
pub fn counts_rise()
    ensures { Rises }
{}

/// An arm hits the device call of its number, and no other.
pub fn arms_fire_once()
    ensures { FiresOnce }
{}

/// A new disk in memory stands as it is, also where nothing was synced yet.
pub fn new_disks_are_settled()
    ensures { IsMadeSettled }
{}

/// Which calls of a disk with chosen failures fail.
pub fn listed_calls_fail()
    ensures { FailsAsListed }
{}
