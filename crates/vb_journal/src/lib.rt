//! A vBucket's journal: records on a disk.
#![tactic(auto)]

mod fault;
mod journal;
mod journal_laws;
mod laws;
mod payload;
mod receipt;
mod scan;

pub use fault::{AppendFault, OpenFault};
pub use journal::Journal;
pub use journal_laws::{
    appends_are_read, arms_in_numbers, bytes_read_as_books, disks_are_never_damaged,
    journal_in_numbers, the_gate_decides,
};
pub use laws::{
    batches_in_numbers, payload_lengths, payloads_end, payloads_in_numbers, payloads_once,
    payloads_read_back, states_in_numbers,
};
pub use payload::{MAX_LOG, MAX_PAYLOAD};
pub use receipt::Receipt;
pub use scan::Records;
pub use vb_types::{Batch, Record};
