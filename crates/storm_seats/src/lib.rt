//! What the seats of a storm gather, and what who has them all is answered.
#![tactic(auto)]

mod laws;

pub use laws::{lone_seats_are_answered, readers_end, seats_gather, storms_happen};
