//! What holds of journals on disks by their definitions, each the contract of a function that does
//! nothing.
ghost use Rattle.std.specs.Prelude.{List};
ghost use Rattle.disk_journals.specs.ArmLaws.{BrokenInNumbers, LeftInNumbers, ListsAll, OpensInNumbers};
ghost use Rattle.disk_journals.specs.{Closing.{ClosesOnce}, Devices.{device}, OnTheirWay.{BatchesStay}, Opening.{FaultsAreHits, OpenedStand}};
ghost use Rattle.disk_journals.specs.Laws.{ArmsAreExact, FailsShut, HasLogOfTake, LeavesNoBatch, RollsAppendFirst};
ghost use Rattle.vb_types.specs.declared.journal.Record.{Record as RecordData};

use vb_calls::VbAccess;
use vb_disk::Disk;

/// Over disks that tell the arm under which they are called, each answer is the plain one.
pub fn arms_are_exact()
    ensures { ArmsAreExact }
{}

/// What is appended is the batch that was taken, with the failover log of its take. It stands
/// exactly where none of the append's calls is hit.
pub fn batches_have_the_log_of_their_take()
    ensures { HasLogOfTake }
{}

/// A take that is refused changes nothing. A batch that can't be appended is gone, and so is one that
/// stands once its vBucket was told.
pub fn batches_go()
    ensures { LeavesNoBatch }
{}

/// After a save whose disk failed the batch is gone, and the journal is closed.
pub fn failed_saves_shut<A: VbAccess, D: Disk>()
    ensures { FailsShut A.step (device D.storage D.crashes D.armed D.left_by) }
{}

/// Whatever a disk tells of its bytes: an append and a read find a journal closed exactly where it is
/// so, it stays closed, and nothing closes it but an append whose disk failed, which was counted.
pub fn journals_close_once<D: Disk>()
    ensures { ClosesOnce (device D.storage D.crashes D.armed D.left_by) }
{}

/// Whatever a disk tells of its bytes: a look tells the batch on its way, and only a journal that is told
/// to keep another one has another one then. Of a journal that is not there no call failed.
pub fn batches_stay_on_their_way<D: Disk>()
    ensures { BatchesStay (device D.storage D.crashes D.armed D.left_by) }
{}

/// A vBucket goes back only once the record of that stands, and to the seqno that the record names.
pub fn rolls_append_first()
    ensures { RollsAppendFirst }
{}

/// What an append leaves that was broken off at each of its calls, as numbers, and what each crash
/// leaves of it.
pub fn broken_appends_in_numbers()
    ensures broken { (book : List RecordData) (r : RecordData) → BrokenInNumbers book r }
    ensures left { (book : List RecordData) (r : RecordData) → LeftInNumbers book r }
{}

/// Which openings pass under an arm, as numbers.
pub fn openings_in_numbers()
    ensures { OpensInNumbers }
{}

/// A crash lists the journals of all numbers that a vBucket may have, and no other.
pub fn crashes_list_all()
    ensures { ListsAll }
{}

/// Journals that were opened on the disks that a crash left stand for the plain ones with the
/// records of before, and no opening was hit.
pub fn opened_journals_stand()
    ensures { OpenedStand }
{}

/// Where memory was there and a journal was not opened, its opening was hit, and the disks bear what
/// they bore.
pub fn faults_are_hits()
    ensures { FaultsAreHits }
{}
