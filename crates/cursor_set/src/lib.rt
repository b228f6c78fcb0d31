//! Cursors: up to which seqno each was given changes.
#![tactic(auto)]

mod cursor_set;
mod laws;

pub use cursor_set::CursorSet;
pub use laws::{cursors_are_apart, cursors_go_on, cursors_may_go, least_is_exact};
