//! A client's connection: what it answers to the bytes that come, over any access to vBuckets.
#![tactic(auto)]

mod answers;
mod block;
mod connection;
mod dcp_laws;
mod laws;
mod lines;
mod requests;
mod session;

use connection::Connection;
pub use dcp_laws::{dcp_is_handed_up, handed_up_in_numbers};
pub use laws::{
    closed_connections_are_silent, connections_begin_bare, cut_frames_are_not_answered,
    deadlines_in_numbers, durable_writes_are_told, faults_close, frames_wait_behind,
    greetings_replace, hidden_datatype, histories_are_answered, outcomes_are_told,
    pieces_do_not_matter, refusals_are_told, requests_are_answered, requests_ask_for_just_that,
    waits_have_numbers, writes_are_told,
};
pub use session::{Awaited, Session, SessionStep, Settings, Who};

/// What a call gives that needs memory, or that memory was short.
type Alloc<T> = Result<T, std::alloc::AllocError>;
