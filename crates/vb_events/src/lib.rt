//! The lines of a transcript as values: what happened, how a script line ended, and both together
//! as a group.
#![tactic(auto)]

mod event;

pub use event::{Answer, Cause, EndReason, Event, Group, ItemAct, StreamName, Why};
