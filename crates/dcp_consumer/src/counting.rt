//! Which bytes flow control counts.
ghost use Rattle.std.specs.Prelude.{◌≡◌, ◌-◌, ◌^◌, length, min};
ghost use Rattle.{dcp_consumer.specs.Counting.{is_stream_opcode, is_counted, counted_len, counted_bytes}, mcbp_frame.specs.Spelling.{spelling}};

use mcbp_dcp::Opcode;
use mcbp_frame::{Frame, HEADER_LEN, RESPONSE};

/// Whether a message of a stream has this opcode.
fn is_stream_opcode(opcode: u8) -> bool
    ensures { result ≡ is_stream_opcode opcode }
{
    opcode == Opcode::StreamEnd.number()
        || opcode == Opcode::SnapshotMarker.number()
        || opcode == Opcode::Mutation.number()
        || opcode == Opcode::Deletion.number()
        || opcode == Opcode::SetVbucketState.number()
        || opcode == Opcode::Prepare.number()
        || opcode == Opcode::Commit.number()
        || opcode == Opcode::Abort.number()
}

/// Whether the bytes of a frame count: it is a message of a stream, and no answer.
fn is_counted(frame: &Frame) -> bool
    ensures { result ≡ is_counted frame.now }
{
    frame.magic != RESPONSE && is_stream_opcode(frame.opcode)
}

/// How many bytes a frame is, or 2^32 - 1 where they are more.
#[tactic(auto, using(crate::proofs::Counted::spelled_len))]
fn frame_bytes(frame: &Frame) -> u32
    ensures { result ≡ min (length (spelling frame.now)) (2 ^ 32 - 1) }
{
    let front = HEADER_LEN as u128 + frame.framing.len() as u128 + frame.extras.len() as u128;
    let bytes = front + frame.key.len() as u128 + frame.value.len() as u128;
    bytes.min(u32::MAX as u128) as u32
}

/// How many bytes of a frame count, or 2^32 - 1 where more do.
fn counted_len(frame: &Frame) -> u32
    ensures { result ≡ min (counted_len frame.now) (2 ^ 32 - 1) }
{
    if is_counted(frame) {
        frame_bytes(frame)
    } else {
        0
    }
}

/// How many bytes of these frames flow control counts, or 2^32 - 1 where it counts more.
pub fn counted_bytes(frames: &[Frame]) -> u32
    ensures { result ≡ min (counted_bytes frames.now) (2 ^ 32 - 1) }
{
    let mut bytes = 0u32;
    for frame in frames {
        bytes = bytes.saturating_add(counted_len(frame));
    }
    bytes
}
