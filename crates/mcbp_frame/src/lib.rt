//! Frames of the memcached binary protocol: cut out of a stream that comes in pieces, and written.
#![tactic(auto)]

mod copies;
mod frame;
mod laws;
mod queue;
mod reader;
mod writer;

pub use copies::CUT;
pub use frame::{
    FRAMED_REQUEST, FaultyHead, Frame, FrameFault, HEADER_LEN, MAX_BODY_LEN, REQUEST, RESPONSE,
};
pub use laws::{
    all_cut, any_pieces, exactly_one_case, faults_are_named, fixed_numbers, frames_at_their_limits,
    one_cut, one_spelling, piece_by_piece, pieces_of_frames, reads_back, stands, written_frames,
};
pub use queue::ByteQueue;
pub use reader::FrameReader;
pub use writer::write_frame;
