//! A producer: it answers the requests of a connection, puts the frames of its streams and their
//! ends, over any access to its node's vBuckets.
#![tactic(auto)]

mod acknowledgements;
mod active_stream;
mod answers;
mod backfill_laws;
mod backfilling;
mod client_laws;
mod connection;
mod desk;
mod first;
mod frames;
mod halt;
mod laws;
mod messages;
mod next_frame;
mod producer;
mod pull_laws;
mod pulls;
mod replies;
mod row_laws;
mod sizes;
mod stream_laws;
mod takeover_laws;
mod turn_laws;
mod window_laws;
mod yields;

use active_stream::ActiveStream;
pub use backfill_laws::{backfills_are_read, backfills_come_first};
pub use client_laws::{
    clients_acknowledge_nothing, clients_resolve_nothing, frames_have_their_lines,
    headers_cut_frames,
};
use connection::Connection;
pub use desk::{Desk, Handshake, Named};
use first::First;
pub use halt::Halt;
pub use laws::{
    acknowledgements_are_weighed, changes_are_put, changes_in_bytes, controls_are_known,
    durable_writes_are_put, durable_writes_in_bytes, first_markers, frames_are_weighed,
    markers_tell_their_source, members_are_named, opens_are_answered, others_are_einval,
    requests_are_one_call, requests_are_refused_in_order, requests_before_open,
};
use next_frame::{NextFrame, Waits};
use producer::{close_stream, drop_cursor};
pub use producer::{Asked, Producer, Pulled};
pub use pull_laws::{
    connections_stay_sound, lines_tell_their_frames, pulls_ask_little, pulls_take_turns,
    quiet_streams_stay_quiet, streams_take_turns, windows_hold_back,
};
pub use row_laws::{
    backfills_in_rows, ends_come_behind_items, first_markers_in_numbers, items_are_put_in_turn,
    lost_streams_end, turns_in_order, windows_hold_at_their_edge,
};
pub use stream_laws::{
    closed_streams_are_silent, cursors_are_dropped, logs_are_answered, noops_are_answered,
};
pub use takeover_laws::{
    answers_of_states, states_in_bytes, takeovers_in_order, takeovers_in_rows, waits_in_order,
    yields_in_order,
};
pub use turn_laws::{
    connections_end_their_streams, ended_streams_ask_nothing, quiet_exactly, snapshots_follow,
    streams_are_apart, streams_end, streams_end_by_number, streams_reach_what_was_put,
    streams_take_their_own,
};
pub use window_laws::{bytes_are_acknowledged, sizes_are_decimals};
pub use yields::Yielded;

/// What a call gives that needs memory, or that memory was short.
type Alloc<T> = Result<T, std::alloc::AllocError>;
