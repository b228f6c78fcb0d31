//! What a flush of all its steps does, each law as the contract of a function that does nothing.
ghost use Rattle.std.specs.Prelude.{ℕ};
ghost use Rattle.vb_calls.specs.Numbers.{RolesInNumbers, RollsInNumbers, StandApart, StepsInNumbers};
ghost use Rattle.vb_calls.specs.AllSteps.{AllInNumbers, StepsOfAll};
ghost use Rattle.vb_calls.specs.{Flushes.{flush_job}, Jobs.{RanJob}, declared.journals.Flushed.{Flushed as TheFlushed}};
ghost use Rattle.vb_types.specs.declared.journal.FlushPart.TheVariants as part;

use crate::access::VbAccess;
use crate::journals::Journals;

/// A flush of all steps makes those of the three that are left: where no batch is on its way one is
/// taken, what was taken is appended, and once it stands its vBucket is told so. A batch that can't be
/// appended is gone, and its vBucket is told nothing. It comes to the vBucket's own reply, to why the
/// batch does not stand, or to four zeros where there was nothing to take.
pub fn all_steps_are_made<A: VbAccess, J: Journals>()
    ensures { (v : ℕ) (old : A) (kept : J) (came : TheFlushed) (now : A) (left : J)
        → RanJob A.step J.asks (flush_job v part.All) old kept came now left → StepsOfAll A.step J.asks v old kept came now left }
{}

/// The same over a plain vBucket with one change that is not written down, and its plain journal, as
/// numbers.
#[tactic(auto, unfolding(crate::specs::Flushes::flush_job))]
pub fn all_steps_in_numbers()
    ensures { AllInNumbers }
{}

/// What each step of a flush comes to and leaves, as numbers; and that a step out of turn is refused and
/// changes nothing.
#[tactic(auto, unfolding(crate::specs::Flushes::flush_job))]
pub fn steps_in_numbers()
    ensures { StepsInNumbers }
{}

/// What a rollback comes to and leaves, as numbers: of a journal of two batches, the second of which ends
/// inside its snapshot.
#[tactic(auto, unfolding(crate::specs::Flushes::roll_job))]
pub fn rollbacks_in_numbers()
    ensures { RollsInNumbers }
{}

/// How changes of role are written down, as numbers.
#[tactic(auto, unfolding(crate::specs::Flushes::role_job))]
pub fn roles_in_numbers()
    ensures { RolesInNumbers }
{}

/// A call, or what is made, changes the vBucket of its number alone, and a request its journal alone.
pub fn vbuckets_stand_apart()
    ensures { StandApart }
{}
