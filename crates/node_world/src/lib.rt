//! The world of a script: nodes with vBuckets and client connections, and links between them, stepped line by line.
#![tactic(auto)]

mod arm;
mod bases;
mod crashes;
mod ids;
mod indexer_laws;
mod laws;
mod leaving_laws;
mod link;
mod link_lines;
mod owed_laws;
mod plumbing_laws;
mod posts;
mod power;
mod producer_ends;
mod pump_laws;
mod pumps;
mod script_node;
mod told;
mod world;

pub use arm::{Arm, Fired};
pub use bases::Bases;
use ids::Ids;
pub use indexer_laws::clients_are_served;
pub use laws::{
    causes_in_order, outcomes_go_to_who_awaits, roles_cut_links, stops_are_told_in_order,
    world_limits,
};
pub use leaving_laws::{
    closed_connections_are_gone, faults_are_passed, ids_are_given_by_lines, links_go_once_over,
    made_ones_are_there, outcomes_come_first, refused_starts_leave_disks,
};
pub use link::Link;
pub use owed_laws::{
    bytes_move_as_asked, cursors_are_dropped_as_named, dones_acknowledge, lines_are_calls,
    lines_pass_their_arguments, roles_are_as_named, settled_ones_are_told, starts_count,
    writes_are_clocked,
};
pub use plumbing_laws::{
    buffers_become_windows, ends_are_links, failures_are_told, lines_are_told_in_order,
    numberings_are_apart,
};
pub use pump_laws::pumps_give_up_first;
pub use script_node::{NodeLine, ScriptNode};
pub use told::Told;
pub use world::World;

/// What a call gives that needs memory, or that memory was short.
type Alloc<T> = Result<T, std::alloc::AllocError>;
