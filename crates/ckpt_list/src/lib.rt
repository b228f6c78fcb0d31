//! The checkpoints of a vBucket, and the cursors that are given their changes.
#![tactic(auto)]

mod ckpt_list;
mod laws;
mod parts;
mod trims;
mod windows;

pub use ckpt_list::{CkptList, CkptStat};
pub use laws::{
    changes_enter, cursors_are_put, seals_and_resets_are_plain, takes_are_exact, trims_are_exact,
    trims_in_numbers,
};
