//! What a layer did, where its vBuckets are called by others too: its calls, with the replies that the
//! lists of its own calls gained. Nothing here runs.
#![tactic(auto)]

mod laws;

pub use laws::{
    calls_are_told, first_calls_are_told, first_job_calls_are_told, jobs_are_told, jobs_in_numbers,
    jobs_tell_their_calls, journals_are_hidden,
};
