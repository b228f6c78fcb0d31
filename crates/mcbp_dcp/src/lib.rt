//! DCP messages of the memcached binary protocol: what a frame says, and how a message is spelled.
#![tactic(auto)]

mod laws;
mod log;
mod message;
mod opcode;
mod reader;
mod row;
mod shape;
mod state;
mod writer;

pub use laws::{
    answers_fit, connection_faults, connection_messages_in_bytes, dcp_faults, dcp_lengths,
    dcp_numbers, dcp_one_spelling, dcp_opcodes_in_numbers, dcp_reads_back, durable_faults,
    durable_messages_in_bytes, messages_have_room, messages_have_rows, names_have_lengths,
};
pub use message::{DcpFault, DcpMsg, Deletion, Mutation, Prepare, Resolution, StreamVerdict};
pub use opcode::Opcode;
pub use reader::read_dcp;
pub use row::is_dcp;
pub use shape::MAX_NAME;
pub use writer::write_dcp;
