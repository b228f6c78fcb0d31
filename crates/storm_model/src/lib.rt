//! What a storm comes to: the writes of its clients, what they leave in four vBuckets, and the lines
//! that are written of it, whatever the order in which the clients wrote.
#![tactic(auto)]

mod laws;
mod limits;
mod lines;
mod merges;
mod sums;
mod writes;

pub use laws::{
    all_is_read, clients_in_turn, gathered_storms, lines_add_up, orders_agree,
    orders_have_one_line, stores_stand, storms_in_numbers,
};
pub use limits::{MAX_CLIENTS, MAX_WRITES, is_storm};
pub use lines::{StormLine, line_text};
pub use merges::{keys_are_apart, own_entries_keep_their_order, parts_have_all};
pub use sums::{Contents, summed, told_line};
pub use writes::{Aimed, Writes};
