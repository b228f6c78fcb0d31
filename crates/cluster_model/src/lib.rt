//! A small world of nodes that follow the branches of one tree, with their journals, and what stays
//! true in it whatever happens: the definitions in `specs/`, and here the laws. Nothing here runs.
#![tactic(auto)]

mod heirs;
mod holdings;
mod moves;
mod sound;
mod spans;

pub use heirs::branch_handed_over;
pub use holdings::{branch_held, branch_sent, held_in_rows};
pub use moves::{moves_made, run_rehearsed};
pub use sound::{active_node, journal_told, node_shown};
pub use spans::{journal_given, span_flushed, spans_taken};
