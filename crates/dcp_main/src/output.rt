//! Runs a script line by line, and writes each line's group.
ghost use Rattle.std.specs.List.{All};
ghost use Rattle.std.specs.Prelude.{◌≡◌, IfOk, OnErr};
ghost use Rattle.{dcp_io.specs.Writes.{Wrote}, dcp_main.specs.Writes.{LineTold, LineWrote, PieceWrote}, node_world.specs.Rests.{Rests}, node_world.specs.Stands.{WorldStands}, node_world.specs.World.{PlainWorld, groups}, script_text.specs.Held.{IsGroupHeld}, script_text.specs.Transcript.{print_of}};

use crate::held::hold;
use bytes::BytesMut;
use dcp_io::{Sink, Status, put_text};
use node_world::World;
use script_text::{ScriptLines, print};
use std::alloc::{AllocError, Global};

/// The text of groups waits until it has this many bytes, and is then written in one piece.
const PIECE: usize = 65_536;

/// Carries out the next line, and appends its group, which is held, to the text that waits. Answers
/// whether there was one. An `Err` appends nothing.
fn tell_line(
    alloc: Global,
    lines: &mut ScriptLines,
    world: &mut World,
    text: &mut BytesMut,
) -> Result<bool, AllocError>
    ensures ok { (w : PlainWorld) → WorldStands world.old w → Rests w →
        IfOk result (λ told. LineTold w lines.old lines.new world.old world.new text.old.items text.new.items told) }
    ensures err { OnErr result (text.new.items ≡ text.old.items) }
{
    let Some(line) = lines.next()? else {
        return Ok(false);
    };
    let stepped = world.step(&line);
    drop(line);
    let group = stepped?;
    hold(&group);
    print(alloc, &group, text)?;
    Ok(true)
}

/// Writes the text that waits, once it is a piece. An `Err` is how the command ends, here and below.
fn put_piece<O: Sink>(alloc: Global, text: &mut BytesMut, output: &mut O) -> Result<(), Status>
    ensures { PieceWrote text.old.items text.new.items (O.outlet output.old) (O.outlet output.new) result }
{
    if text.len() < PIECE {
        return Ok(());
    }
    put_text(output, text.as_slice())?;
    // What a long group took is given back.
    *text = BytesMut::new(alloc);
    Ok(())
}

/// Carries out the next line, and writes the text that waits where its group makes it a piece. Where
/// no memory is left for the line, it writes what waits before it ends.
fn run_line<O: Sink>(
    alloc: Global,
    lines: &mut ScriptLines,
    world: &mut World,
    text: &mut BytesMut,
    output: &mut O,
) -> Result<bool, Status>
    ensures { (w : PlainWorld) → WorldStands world.old w → Rests w →
        LineWrote w lines.old lines.new world.new text.old.items text.new.items (O.outlet output.old) (O.outlet output.new) result }
{
    match tell_line(alloc, lines, world, text) {
        Ok(told) => {
            put_piece(alloc, text, output)?;
            Ok(told)
        }
        Err(AllocError) => {
            put_text(output, text.as_slice())?;
            Err(Status::NoMemory)
        }
    }
}

/// Carries out the lines of a script one after the other, and writes the group of each. Where all are
/// carried out, each group is held, so that what is written is read back.
pub fn run_script<O: Sink>(
    alloc: Global,
    mut lines: ScriptLines,
    output: &mut O,
) -> Result<(), Status>
    ensures wrote { Wrote (O.outlet output.old) (O.outlet output.new) (print_of (groups lines.entry)) result }
    ensures held { IfOk result (λ u. All IsGroupHeld (groups lines.entry)) }
{
    let mut world = World::new(alloc);
    let mut text = BytesMut::new(alloc);
    while run_line(alloc, &mut lines, &mut world, &mut text, output)? {}
    put_text(output, text.as_slice())
}
