//! What jobs that repeat do, and those that read alone, each law as the contract of a function that does
//! nothing.
ghost use Rattle.vb_calls.specs.{Jobs.{Job}, Programs.{Turn}};
ghost use Rattle.vb_calls.specs.JournalReads.{ReadsInNumbers, ReadsLeaveJournals};
ghost use Rattle.vb_calls.specs.Repeats.{TurnsAreMade, TurnsInNumbers};

use crate::access::VbAccess;
use crate::journals::Journals;

/// Of at most so many turns all were made exactly where each of them went on, and they stopped exactly
/// where one did behind some that went on. Where memory was short, those that went on were made, and a
/// front part of one more.
pub fn turns_are_made<A: VbAccess, J: Journals, T, R>()
    ensures { (f : T → Job (Turn T R)) → TurnsAreMade A.step J.asks f }
{}

/// Turns that append to a journal until one fails, as numbers.
pub fn turns_in_numbers()
    ensures { TurnsInNumbers }
{}

/// A job that reads alone leaves all journals as they are.
pub fn reads_leave_journals<T>()
    ensures { ReadsLeaveJournals T }
{}

/// What a job of two readings and a call comes to and leaves, as numbers; and that to append, to look and
/// to keep is not to read.
pub fn reads_in_numbers()
    ensures { ReadsInNumbers }
{}
