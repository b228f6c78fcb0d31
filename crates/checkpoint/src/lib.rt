//! The checkpoint that a vBucket's next change may enter: at most one change of each key.
#![tactic(auto)]

mod checkpoint;
mod entries;
mod holes;
mod laws;
mod run;
mod weights;

pub use checkpoint::Checkpoint;
pub use laws::{changes_fit, cuts_take_back, holes_are_unseen, places_are_read, puts_replace};
pub use weights::weight_of;
