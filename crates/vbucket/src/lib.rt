//! One vBucket: its documents, its changes and its failover log, and the calls that are made on it;
//! and the vBuckets of a node by their numbers.
#![tactic(auto)]

mod durable_laws;
mod following;
mod laws;
mod machine;
mod role_laws;
mod row_laws;
mod streams;
mod vb_map;
mod vbucket;
mod writes;

pub use durable_laws::{
    acknowledgements_are_counted, chains_are_set, due_numbers_are_told, durable_refusals,
    durable_writes_are_prepared, durable_writes_in_numbers, late_prepares_are_given_up,
    no_more_is_left_to_commit, others_resolve_none, receipts_commit, roles_give_up,
};
pub use laws::{
    batches_are_rests, changes_are_told, cursors_are_made_and_go, logs_are_adopted,
    memory_is_given_up, messages_are_taken, numbers_are_told, promotions_lead,
    receipts_are_counted, refusals, requests_are_told, roles_end_streams, rollbacks_leave_nothing,
    spans_are_filled, stays_sound, streams_are_closed, takes_are_snapshots, writes_are_read,
    written_ones_are_loaded,
};
pub use machine::{TurnVb, VbSeat};
pub use role_laws::{heirs_own, pends_wait, yields_keep_one};
pub use row_laws::{
    cursors_in_numbers, highs_are_last_seqnos, highs_in_numbers, new_ones_are_empty,
    no_first_markers_are_awaited, snapshots_start_in_numbers, vbuckets_are_shown,
};
pub use vb_map::{VbMap, VbSlot};
pub use vbucket::VBucket;
