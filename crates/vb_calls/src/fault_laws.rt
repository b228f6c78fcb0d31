//! What counts of failures tell, each law as the contract of a function that does nothing.
ghost use Rattle.vb_calls.specs.Faults.{FailsWhereItRose, NeverFalls};

use crate::access::VbAccess;
use crate::journals::Journals;

/// No count falls, whatever a job calls and asks, and where memory was short for the rest of it.
pub fn counts_never_fall<A: VbAccess, J: Journals, T>()
    ensures { NeverFalls A.step J.asks J.failures T }
{}

/// An append, a step of writing a batch down, a rollback and a change of role come to that the disk
/// failed only where the count of their journal rose in them.
pub fn disks_fail_where_counts_rose<A: VbAccess, J: Journals>()
    ensures { FailsWhereItRose A.step J.asks J.failures }
{}
