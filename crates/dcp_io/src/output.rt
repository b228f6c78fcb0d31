//! Writes texts, and says how the command ends where one was not written.
ghost use Rattle.{dcp_io.specs.Statuses.{bad_text}, dcp_io.specs.Writes.{Wrote}};

use crate::status::Status;
use crate::{Put, Sink};
use std::alloc::Global;

/// Writes a text. An `Err` is how the command ends, here and below.
pub fn put_text<O: Sink>(output: &mut O, text: &[u8]) -> Result<(), Status>
    ensures { Wrote (O.outlet output.old) (O.outlet output.new) text.now result }
{
    match output.put(text) {
        Put::Done => Ok(()),
        Put::NoMemory => Err(Status::NoMemory),
        Put::Failed => Err(Status::WriteFault),
    }
}

/// Writes the message on an input's first bad line.
pub fn put_bad_line<O: Sink>(alloc: Global, line: u64, output: &mut O) -> Result<(), Status>
    ensures { Wrote (O.outlet output.old) (O.outlet output.new) (bad_text line) result }
{
    let Ok(text) = format!(in alloc; "bad line {line}\n") else {
        return Err(Status::NoMemory);
    };
    put_text(output, text.as_bytes())
}
