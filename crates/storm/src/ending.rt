//! The line of a vBucket, once all clients have written.
ghost use Rattle.std.specs.Prelude.{◌≡◌, IfOk};
ghost use Rattle.vb_calls.specs.Plain.{Plain};
ghost use Rattle.vb_calls.specs.State.{image_in};
ghost use Rattle.node_threads.specs.Seats.{row_of};
ghost use Rattle.storm_model.specs.Sums.{line_of};
ghost use Rattle.storm.specs.Ending.{EndsWith, IsAlone, IsRead, Reads};

use crate::flushing::flush_all;
use crate::opening::{FIRST, SECOND};
use crate::reading::read_all;
use node_threads::{SeatSlot, VbSeats};
use std::alloc::{AllocError, Global};
use std::sync::Wait;
use storm_model::{StormLine, told_line};
use vb_calls::{VbAccess, VbAnswer, VbCall, VbReply};
use vb_turn::Gate;
use vb_types::Image;

/// The last seqno, and the last one that is written down.
fn numbers<W: Wait, G: Gate>(
    seats: &mut VbSeats<'_, W, G>,
    v: u16,
) -> Result<(u64, u64), AllocError>
    requires { IsRead v seats.old }
    ensures { IfOk result (λ n. (vb : Plain) → Reads v seats.old vb → Reads v seats.new vb × (n.0 ≡ vb.position.at) × (n.1 ≡ vb.saved)) }
{
    let Some(reply) = seats.call(v, VbCall::Stat)? else {
        unreachable!()
    };
    match reply.answer {
        VbAnswer::Stat { saved, high, .. } => Ok((high, saved)),
        _ => unreachable!(),
    }
}

/// All documents.
fn shown<W: Wait, G: Gate>(seats: &mut VbSeats<'_, W, G>, v: u16) -> Result<Image, AllocError>
    requires { IsRead v seats.old }
    ensures { IfOk result (λ image. (vb : Plain) → Reads v seats.old vb → Reads v seats.new vb × (image ≡ image_in vb)) }
{
    let Some(VbReply { answer, .. }) = seats.call(v, VbCall::Show)? else {
        unreachable!()
    };
    match answer {
        VbAnswer::Shown { image, .. } => Ok(image),
        _ => unreachable!(),
    }
}

/// The line of a vBucket: what it has is looked at, then the flusher saves all, and the readers take all,
/// one after the other.
fn line_after<W: Wait, G: Gate>(
    alloc: Global,
    seats: &mut VbSeats<'_, W, G>,
    v: u16,
) -> Result<StormLine, AllocError>
    requires { IsRead v seats.old }
    ensures { IfOk result (λ line. (vb : Plain) → Reads v seats.old vb → line ≡ line_of vb) }
{
    let (high, _) = numbers(seats, v)?;
    let docs = shown(seats, v)?;
    flush_all(alloc, seats, v, high)?;
    let first = read_all(alloc, seats, v, FIRST, high)?;
    let second = read_all(alloc, seats, v, SECOND, high)?;
    let (_, saved) = numbers(seats, v)?;
    told_line(alloc, high, saved, &docs, &first, &second)
}

/// The line of a vBucket of which the seat has all parts.
pub(crate) fn end<W: Wait, G: Gate>(
    rt: &W,
    alloc: Global,
    gate: &G,
    slot: SeatSlot,
) -> Result<StormLine, AllocError>
    requires { IsAlone (row_of slot) }
    ensures { IfOk result (λ line. EndsWith (row_of slot) line) }
{
    let v = slot.number;
    let mut seats = VbSeats::new(alloc, rt, gate);
    match seats.lend(slot) {
        Ok(()) => line_after(alloc, &mut seats, v),
        Err(_) => Err(AllocError),
    }
}
