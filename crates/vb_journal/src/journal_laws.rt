//! What holds of a journal's bytes by their definitions, each the contract of a function that does
//! nothing.
ghost use Rattle.vb_journal.specs.{ReadingLaws.{AppendsAreRead, InNumbers, ReadsAll}, Surviving.{NeverDamaged, TheGateDecides}};
ghost use Rattle.vb_journal.specs.ArmLaws.{BurnsInNumbers, OpenInNumbers, StandsInNumbers};
ghost use Rattle.vb_disk.specs.declared.made.Outcome.{Outcome};

use vb_disk::Disk;

/// What bytes read as: records as they are written, up to a closed gate or to what is no journal's.
pub fn bytes_read_as_books()
    ensures { ReadsAll }
{}

/// What is appended is read, behind all that was appended before.
pub fn appends_are_read()
    ensures { AppendsAreRead }
{}

/// The byte of the gate alone decides what a crash leaves of an append: the records from before, or
/// them and the new one.
pub fn the_gate_decides()
    ensures { TheGateDecides }
{}

/// A disk is not damaged as it is made, behind a crash of one that is not, nor at any moment of an
/// append to an open journal.
pub fn disks_are_never_damaged<D: Disk>()
    ensures { NeverDamaged D.storage D.crashes }
{}

/// Which of an append's four calls an arm hits, and whether its record stands then, as numbers.
pub fn arms_in_numbers()
    ensures opened { OpenInNumbers }
    ensures stands { (out : Outcome) → StandsInNumbers out }
    ensures burns { BurnsInNumbers }
{}

/// Gates, lengths and limits as numbers.
pub fn journal_in_numbers()
    ensures { InNumbers }
{}
