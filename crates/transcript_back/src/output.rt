//! Writes groups.
ghost use Rattle.{dcp_io.specs.Writes.{Wrote}, script_text.specs.Transcript.{group_text, print_of}};

use bytes::BytesMut;
use dcp_io::{Sink, Status, put_text};
use script_text::print;
use std::alloc::Global;
use vb_events::Group;

/// Writes a group, through a buffer that is used again. An `Err` is how the command ends, here and below.
fn put_group<O: Sink>(
    alloc: Global,
    group: &Group,
    text: &mut BytesMut,
    output: &mut O,
) -> Result<(), Status>
    ensures { Wrote (O.outlet output.old) (O.outlet output.new) (group_text group.now) result }
{
    text.clear();
    let Ok(()) = print(alloc, group, text) else {
        return Err(Status::NoMemory);
    };
    put_text(output, text.as_slice())
}

/// Writes groups, one after the other.
pub fn put_groups<O: Sink>(alloc: Global, groups: &[Group], output: &mut O) -> Result<(), Status>
    ensures { Wrote (O.outlet output.old) (O.outlet output.new) (print_of groups.now) result }
{
    let mut text = BytesMut::new(alloc);
    for group in groups {
        put_group(alloc, group, &mut text, output)?;
    }
    Ok(())
}
