//! Seats that are given to clients, and taken in again.
ghost use Rattle.std.specs.Prelude.{◌≡◌, ◌<◌, IfOk, map};
ghost use Rattle.node_threads.specs.Seats.{row_of, rows_of};
ghost use Rattle.storm.specs.Rows.{AllThree, HaveMore, Joins, MayJoin, given, gives};

use node_threads::SeatSlot;
use std::alloc::{AllocError, Global};
use std::sync::Arc;

/// A seat of the same vBucket, which has one part.
fn share(slot: &mut SeatSlot) -> Result<SeatSlot, AllocError>
    requires { 1 < (row_of slot.old).view.parts }
    ensures { IfOk result (λ own. (row_of slot.new ≡ gives 1 (row_of slot.old)) × (row_of own ≡ given (row_of slot.old))) }
{
    let turn = Arc::try_clone(&slot.turn)?;
    let seat = slot.turn.split_seat(&mut slot.seat, 1);
    Ok(SeatSlot {
        number: slot.number,
        turn,
        seat,
    })
}

/// A seat of each of these vBuckets, in their order.
pub(crate) fn share_all(
    alloc: Global,
    slots: &mut Vec<SeatSlot>,
) -> Result<Vec<SeatSlot>, AllocError>
    requires { HaveMore 1 (rows_of slots.old.items) }
    ensures { IfOk result (λ own. (rows_of slots.new.items ≡ map (gives 1) (rows_of slots.old.items)) × (rows_of own.items ≡ map given (rows_of slots.old.items))) }
{
    let mut own = Vec::new(alloc);
    for at in 0..slots.len() {
        own.push(share(&mut slots[at])?)?;
    }
    Ok(own)
}

/// Takes in a seat of the same vBucket.
fn join(slot: &mut SeatSlot, own: SeatSlot)
    requires { (row_of slot.old).table ≡ (row_of own).table }
    ensures { Joins (row_of slot.old) (row_of own) (row_of slot.new) }
{
    slot.turn.join_seat(&mut slot.seat, own.seat);
}

/// Takes in a seat of each of these vBuckets, the last one first.
pub(crate) fn join_all(slots: &mut Vec<SeatSlot>, mut own: Vec<SeatSlot>)
    requires { MayJoin (rows_of slots.old.items) (rows_of own.items) }
    ensures { AllThree Joins (rows_of slots.old.items) (rows_of own.items) (rows_of slots.new.items) }
{
    while let Some(seat) = own.pop() {
        join(&mut slots[own.len()], seat);
    }
}
