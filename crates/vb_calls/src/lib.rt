//! The calls of a vBucket and what each of them does; how the layers above reach their vBuckets, and
//! what a layer does, as a program over its calls. Nothing here runs.
#![tactic(auto)]

mod access;
mod calls;
mod fault_laws;
mod flush_laws;
mod job_laws;
mod journals;
mod laws;
mod span;
mod stream;

pub use access::VbAccess;
pub use calls::{Resolution, Resolved, VbAnswer, VbCall, VbReply};
pub use fault_laws::{counts_never_fall, disks_fail_where_counts_rose};
pub use flush_laws::{
    all_steps_are_made, all_steps_in_numbers, roles_in_numbers, rollbacks_in_numbers,
    steps_in_numbers, vbuckets_stand_apart,
};
pub use job_laws::{reads_in_numbers, reads_leave_journals, turns_are_made, turns_in_numbers};
pub use journals::{Flushed, Journals, Rolled, Wrote};
pub use laws::{
    answers_have_forms, limits_in_numbers, readings_in_numbers, some_calls_take_no_memory,
};
pub use span::{BASE_WEIGHT, MAX_ITEMS, MAX_WEIGHT, Origin, Span};
pub use stream::Stream;
