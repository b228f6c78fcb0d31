//! A consumer: it asks for a stream, again after each rollback, and says what each frame of the
//! producer asks of its vBucket. It makes no call.
#![tactic(auto)]

mod answers;
mod consumer;
mod counting;
mod handshake;
mod laws;
mod messages;
mod passive_stream;
mod requests;

pub use consumer::Consumer;
pub use counting::counted_bytes;
pub use handshake::{ConsumerStep, Dialed, Handshake};
pub use laws::{
    acknowledgements_rise, answers_are_awaited, asks_again_once_back, bytes_are_acknowledged,
    bytes_are_counted, changes_are_taken, changes_from_bytes, dials_in_bytes,
    durable_writes_are_taken, durable_writes_from_bytes, frames_come_to_steps, handshakes_move_on,
    links_end, names_in_letters, noops_are_answered, reasons_are_told, requests_are_answered,
    states_are_obeyed, states_from_bytes,
};
pub use passive_stream::Passive;
pub use takeover::TakeStep;

/// What a call gives that needs memory, or that memory was short.
type Alloc<T> = Result<T, std::alloc::AllocError>;
