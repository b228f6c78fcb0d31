//! A node over any access to vBuckets and any keeper of their journals: it owns its connections, the
//! producers of its peers and the dials of its vBuckets, and makes the calls that they ask for.
#![tactic(auto)]

mod admin;
mod call_laws;
mod changes;
mod client;
mod client_laws;
mod conn;
mod copies;
mod dials;
mod ending_laws;
mod giving;
mod giving_laws;
mod laws;
mod load_laws;
mod node;
mod numbered;
mod out;
mod peer;
mod piece_laws;
mod readings;
mod roles;
mod show;
mod state_laws;

pub use admin::AdminCall;
pub use call_laws::{operators_call_by_name, others_are_refused};
pub use client::Client;
pub use client_laws::{
    clients_get_their_frames, closed_clients_close_streams, dcp_is_passed_on,
    roles_end_clients_streams,
};
pub use conn::{Conn, ConnKind};
pub use dials::Dial;
pub use ending_laws::{closed_sessions_are_let_go, refusals_end_dials};
pub use giving_laws::{
    given_vbuckets_in_numbers, vbuckets_are_given_up, waiters_of_given_up_vbuckets_are_told,
};
pub use laws::{
    dials_acknowledge, dials_end, dials_follow, dials_leave_other_vbuckets, first_records,
    flushes_are_refused, makings_in_numbers, node_limits, outcomes_are_told, promotions_in_numbers,
    roles_are_noted, told_in_numbers,
};
pub use load_laws::{
    commits_in_numbers, failed_starts_in_numbers, made_in_numbers, saved_in_numbers,
    several_in_numbers, unmade_in_numbers,
};
pub use node::{LoadFault, Loaded, MAX_VBS, Node, Started};
pub use numbered::Numbered;
pub use out::NodeOut;
pub use peer::Peer;
pub use piece_laws::{faults_are_not_answered, pieces_are_joined};
pub use state_laws::states_are_taken;

/// What a call gives that needs memory, or that memory was short.
type Alloc<T> = Result<T, std::alloc::AllocError>;
