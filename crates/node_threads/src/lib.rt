//! vBuckets that other threads call too: an access to them, each call of which is one turn of a seat.
#![tactic(auto)]

mod access;
mod gate;
mod laws;
mod seats;
mod slot;

pub use gate::Open;
pub use laws::{calls_are_turns, makes_are_exact, seats_in_numbers, seats_tell};
pub use seats::VbSeats;
pub use slot::SeatSlot;
