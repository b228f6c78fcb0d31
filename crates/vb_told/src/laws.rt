//! What holds over every access that tells its calls, each law as the contract of a function that does
//! nothing.
ghost use Rattle.std.specs.Prelude.{ℕ, List};
ghost use Rattle.vb_calls.specs.declared.calls.VbCall.{VbCall};
ghost use Rattle.vb_calls.specs.declared.calls.VbReply.{VbReply};
ghost use Rattle.vb_told.specs.Laws.{CallsAreTold, FirstCallsAreTold, FirstJobCallsAreTold, HidesJournals, JobsAreTold, JobsTellTheirCalls, ListsCalls};
ghost use Rattle.vb_told.specs.Rows.{JobsInNumbers};

use vb_calls::{Journals, VbAccess};

/// What a job made, and its first calls, in other words: a program's as it is, whatever journals are
/// asked; and the first calls of a job are a front part of what it makes as it comes to an answer.
pub fn jobs_tell_their_calls<T>()
    ensures { JobsTellTheirCalls T }
{}

/// Where each call enters the list of its vBucket, with its reply, a layer's calls are those of its
/// program, answered as these lists tell, and they are all that the lists gained.
pub fn calls_are_told<A: VbAccess, T>()
    ensures { (mine : A → ℕ → List (VbCall × VbReply)) → ListsCalls A.step mine → CallsAreTold A.step mine T }
{}

/// Where memory failed, they are a front part of these.
pub fn first_calls_are_told<A: VbAccess, T>()
    ensures { (mine : A → ℕ → List (VbCall × VbReply)) → ListsCalls A.step mine → FirstCallsAreTold A.step mine T }
{}

/// So it is of a job, with some answers of its journals.
pub fn jobs_are_told<A: VbAccess, J: Journals, T>()
    ensures { (mine : A → ℕ → List (VbCall × VbReply)) → ListsCalls A.step mine → JobsAreTold A.step J.asks mine T }
{}

/// Where memory failed, its calls are a front part of these.
pub fn first_job_calls_are_told<A: VbAccess, J: Journals, T>()
    ensures { (mine : A → ℕ → List (VbCall × VbReply)) → ListsCalls A.step mine → FirstJobCallsAreTold A.step J.asks mine T }
{}

/// A job that ran over journals ran, with the same calls, replies and answers, over what hides them and
/// tells nothing of a request, as a lock does; and so it is where memory failed.
pub fn journals_are_hidden<A: VbAccess, J: Journals, K, T>()
    ensures { (lock : K) → HidesJournals A.step J.asks T lock }
{}

/// A job that asks a vBucket for its numbers, looks at its journal, and asks for the failover log: what
/// it made, and what it did not make.
pub fn jobs_in_numbers()
    ensures { JobsInNumbers }
{}
