//! What a vBucket's active node knows of its outstanding durable writes, and what a replica has to
//! acknowledge.
#![tactic(auto)]

mod acknowledging;
mod active;
mod chain;
mod counting;
mod laws;
mod order;
mod waiting;

pub use acknowledging::due;
pub use active::Active;
pub use chain::{Chain, MAX_OTHERS};
pub use laws::{
    acknowledged_number, acknowledgements_count_once, chains_in_numbers, committed_in_turn,
    committed_prepare, expired_prepare, levels_in_numbers, majorities_in_numbers,
    prepares_come_and_go,
};
pub use waiting::Waiting;
