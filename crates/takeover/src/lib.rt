//! The order in which a vBucket goes from one node to another: what the one that gives it up does, and
//! what the states that it sends are to the one that takes it over.
#![tactic(auto)]

mod give_up;
mod laws;
mod take_over;

pub use give_up::{GiveStep, GiveUp};
pub use laws::{gives_up_in_numbers, gives_up_in_order, takes_over_in_order, takes_over_in_rows};
pub use take_over::{TakeOver, TakeStep};
