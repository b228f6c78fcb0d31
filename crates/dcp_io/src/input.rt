//! Reads an input to its end.
ghost use Rattle.std.specs.Prelude.{◌+◌, ◌≤◌};
ghost use Rattle.dcp_io.specs.Reads.{Read};

use crate::status::Status;
use crate::{Source, Took};
use std::alloc::Global;

/// How many bytes an input may have.
pub const MAX_INPUT: usize = 268_435_456;

/// How many bytes one take may give.
const PIECE: usize = 65_536;

/// Reads all that there is, in at most `MAX_INPUT + 1` turns of the source. An `Err` is how the
/// command ends.
pub fn read_all<I: Source>(alloc: Global, input: &mut I) -> Result<Vec<u8>, Status>
    ensures read { Read (I.intake input.old) (I.intake input.new) result }
    ensures turns { (I.intake input.new).turns ≤ (I.intake input.old).turns + MAX_INPUT + 1 }
{
    let mut bytes = Vec::new(alloc);
    let mut room = [0; PIECE];
    for turn in 0..MAX_INPUT + 1 {
        match input.take(&mut room) {
            Took::Failed => return Err(Status::ReadFault),
            Took::End => return Ok(bytes),
            Took::Bytes(count) => match bytes.extend_from_slice(&room[..count]) {
                Ok(()) if bytes.len() > MAX_INPUT => return Err(Status::InputTooLong),
                Ok(()) => {}
                Err(_) => return Err(Status::NoMemory),
            },
        }
    }
    unreachable!()
}
