//! An object in one slot that any number of threads call in turns, with one legal history of all calls.
#![tactic(auto)]

mod laws;
mod machine;
mod rule;
mod seat;
mod turn;
mod view;

pub use laws::{
    closings_in_numbers, closings_name_the_history, histories_in_numbers,
    histories_say_what_is_legal, numbers_hold, numbers_in_numbers, seats_share_one_history,
    seats_split_and_join, turns_are_legal, turns_in_numbers,
};
pub use machine::Machine;
pub use seat::{ALL_PARTS, Gate, Turn, TurnSeat};
