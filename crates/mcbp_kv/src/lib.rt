//! The memcached binary protocol's client commands: what a frame asks, and how answers are spelled.
#![tactic(auto)]

mod durable;
mod feature;
mod framing;
mod laws;
mod opcodes;
mod reply;
mod request;

pub use durable::{DEFAULT_TIMEOUT, Durability};
pub use feature::{Feature, hello_value};
pub use laws::{
    answers_are_spelled, commands_are_spelled, durability_in_numbers, features_are_accepted,
    features_in_bytes, framing_is_read, opcodes_in_numbers, refusals_in_order, requests_fit,
};
pub use opcodes::{ADD, DELETE, GET, HELLO, NOOP, REPLACE, SET};
pub use reply::{KvReply, ReplyHead, answer_bytes, reply_bytes, write_answer, write_reply};
pub use request::{KvRequest, read_request};
