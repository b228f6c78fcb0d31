//! The top call.
ghost use Rattle.std.specs.Prelude.{◌+◌, ◌≤◌};
ghost use Rattle.dcp_io.specs.declared.input.TheConstants.{MAX_INPUT};
ghost use Rattle.transcript_back.specs.Backs.{Complete, Went};

use crate::output::put_groups;
use dcp_io::{Sink, Source, Status, put_bad_line, read_all};
use script_text::parse_transcript;
use std::alloc::Global;

/// Reads the transcript that the source gives, and writes the groups that it says.
///
/// It reads to the end, in at most 268,435,457 turns, before it writes anything. What the status
/// says, of a source and a sink that tell their bytes:
/// - `Ok`: the bytes are the transcript of some groups, and exactly these bytes were written.
/// - `BadLine`: the bytes break off at line I, and `bad line I` was written.
/// - `ReadFault`: the source's count of faults rose, and nothing was written.
/// - `InputTooLong`: more than 268,435,456 bytes were taken, and nothing was written. Where more
///   were taken it is that or `NoMemory`.
/// - `WriteFault`: the sink's count of faults rose; `NoMemory`: it did not. At both, what was
///   written is a front part of what the bytes ask for, perhaps nothing.
///
/// A count that stands at `u64::MAX` is taken for one that rose.
pub fn write_back<I: Source, O: Sink>(alloc: Global, input: &mut I, output: &mut O) -> Status
    ensures went { Went (I.intake input.old) (I.intake input.new) (O.outlet output.old) (O.outlet output.new) result }
    ensures complete { Complete (I.intake input.old) (I.intake input.new) (O.outlet output.old) (O.outlet output.new) result }
    ensures turns { (I.intake input.new).turns ≤ (I.intake input.old).turns + MAX_INPUT + 1 }
{
    let bytes = match read_all(alloc, input) {
        Ok(bytes) => bytes,
        Err(status) => return status,
    };
    match parse_transcript(alloc, &bytes) {
        Ok(Ok(groups)) => put_groups(alloc, groups.as_slice(), output)
            .err()
            .unwrap_or(Status::Ok),
        Ok(Err(bad)) => put_bad_line(alloc, bad.line, output)
            .err()
            .unwrap_or(Status::BadLine),
        Err(_) => Status::NoMemory,
    }
}
