//! The steps of writing a batch down.
#![tactic(auto)]

mod flusher;
mod laws;

pub use flusher::Flusher;
pub use laws::{batches_take_turns, saves_are_appends};
