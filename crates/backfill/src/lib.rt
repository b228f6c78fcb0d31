//! A backfill: what a vBucket's journal gives a stream whose changes memory has given up.
#![tactic(auto)]

mod backfilled;
mod laws;
mod snapshots;

pub use backfilled::{Backfilled, backfill};
pub use laws::{
    backfills_in_numbers, backfills_read_once, gives_what_is_due, snapshots_in_numbers,
};
pub use snapshots::disk_snapshot;
