//! Journals on disks, by the numbers of their vBuckets.
#![tactic(auto)]

mod arms;
mod crash;
mod flushes;
mod journals;
mod keeper;
mod laws;
mod opening;
mod order_laws;
mod roles;
mod rolls;
mod slot;

pub use arms::lay_arm;
pub use crash::NUMBERS;
pub use journals::DiskJournals;
pub use laws::{
    arms_are_exact, batches_go, batches_have_the_log_of_their_take, batches_stay_on_their_way,
    broken_appends_in_numbers, crashes_list_all, failed_saves_shut, faults_are_hits,
    journals_close_once, opened_journals_stand, openings_in_numbers, rolls_append_first,
};
pub use opening::{Disks, OpenCause, OpenJournal, VbDisk, close_journals, open_journals};
pub use order_laws::{batches_are_counted, journals_are_listed_in_order};
