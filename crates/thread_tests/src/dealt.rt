//! vBuckets of which three have seats, and what stands there.
ghost use Rattle.std.specs.Prelude.{◌≡◌, ◌==◌, ◌∷◌, ◌++◌, [], ℕ, false, IfSome, OnOk};
ghost use Rattle.std.specs.List.{position};
ghost use Rattle.atomic_table.specs.Seated.{TableId};
ghost use Rattle.node_threads.specs.Seats.{has_row, row_of, rows_of};
ghost use Rattle.thread_tests.specs.Tables.{AreOf, AreShared, StayOf};

use node_threads::{SeatSlot, VbSeats};
use std::alloc::{AllocError, Global};
use std::sync::{Arc, Wait};
use std::test::Fail;
use vb_calls::{VbAccess, VbAnswer, VbCall, VbReply};
use vb_turn::Gate;
use vb_types::{Key, Role};
use vbucket::{TurnVb, VBucket};

/// Takes a seat in.
fn take_in<W, G>(seats: &mut VbSeats<'_, W, G>, slot: SeatSlot) -> Result<(), AllocError>
    requires { has_row seats.old slot.number ≡ false }
    ensures { OnOk result (seats.new ≡ seats.old ++ row_of slot ∷ []) }
{
    match seats.lend(slot) {
        Ok(()) => Ok(()),
        Err(_) => Err(AllocError),
    }
}

/// A new active vBucket, of which three have a seat each, unless one of them has one of its number.
pub fn deal<W, G>(
    alloc: Global,
    v: u16,
    main: &mut VbSeats<'_, W, G>,
    one: &mut VbSeats<'_, W, G>,
    two: &mut VbSeats<'_, W, G>,
) -> Result<(), AllocError>
    ensures { OnOk result (AreShared main.old one.old two.old → AreShared main.new one.new two.new) }
{
    if main.has(v) || one.has(v) || two.has(v) {
        return Ok(());
    }
    let vb = VBucket::new(alloc, 1, Role::Active, 7)?;
    let (turn, mut seat) = TurnVb::new(alloc, vb)?;
    let first = turn.split_seat(&mut seat, 1);
    let second = turn.split_seat(&mut seat, 1);
    let turn = Arc::new(alloc, turn)?;
    let own = SeatSlot {
        number: v,
        turn: Arc::try_clone(&turn)?,
        seat: first,
    };
    take_in(one, own)?;
    let own = SeatSlot {
        number: v,
        turn: Arc::try_clone(&turn)?,
        seat: second,
    };
    take_in(two, own)?;
    let own = SeatSlot {
        number: v,
        turn,
        seat,
    };
    take_in(main, own)?;
    Ok(())
}

fn place_of(slots: &[SeatSlot], v: u16) -> Option<usize>
    ensures { result ≡ position (λ slot. slot.number == v) slots.now }
{
    slots.iter().position(|slot| slot.number == v)
}

fn has_number(slots: &[SeatSlot], v: u16) -> bool
    ensures { result ≡ has_row (rows_of slots.now) v }
{
    place_of(slots, v).is_some()
}

/// Takes the last seat, if it is the only one of its number.
fn pop_alone(slots: &mut Vec<SeatSlot>) -> Option<SeatSlot>
    ensures stay { StayOf (rows_of slots.old.items) (rows_of slots.new.items) }
    ensures some { IfSome result (λ slot. (tables : ℕ → TableId) → AreOf tables (rows_of slots.old.items) → (row_of slot).table ≡ tables slot.number) }
{
    let slot = slots.pop()?;
    if has_number(slots, slot.number) {
        return None;
    }
    Some(slot)
}

/// Takes in a seat of the same vBucket.
fn join(slot: &mut SeatSlot, own: SeatSlot)
    requires { (row_of slot.old).table ≡ (row_of own).table }
    ensures { (row_of slot.new).table ≡ (row_of slot.old).table }
{
    slot.turn.join_seat(&mut slot.seat, own.seat);
}

/// The last seats of three, joined to one, if all are of one number.
pub fn join_last(
    main: &mut Vec<SeatSlot>,
    one: &mut Vec<SeatSlot>,
    two: &mut Vec<SeatSlot>,
) -> Option<SeatSlot>
    requires { AreShared (rows_of main.old.items) (rows_of one.old.items) (rows_of two.old.items) }
    ensures { AreShared (rows_of main.new.items) (rows_of one.new.items) (rows_of two.new.items) }
{
    let mut slot = pop_alone(main)?;
    let first = pop_alone(one)?;
    let second = pop_alone(two)?;
    if first.number != slot.number || second.number != slot.number {
        return None;
    }
    join(&mut slot, first);
    join(&mut slot, second);
    Some(slot)
}

fn flags_in(reply: &Option<VbReply>) -> Option<u32> {
    let Some(reply) = reply else {
        return None;
    };
    match &reply.answer {
        VbAnswer::Found(doc) => Some(doc.flags),
        _ => None,
    }
}

fn high_in(reply: &Option<VbReply>) -> u64 {
    let Some(reply) = reply else {
        return 0;
    };
    match &reply.answer {
        VbAnswer::Stat { high, .. } => *high,
        _ => 0,
    }
}

/// The number of the last write of a key, and how many writes the vBucket has seen.
pub fn last_of<W: Wait, G: Gate>(
    alloc: Global,
    seats: &mut VbSeats<'_, W, G>,
    v: u16,
    key: u8,
) -> Result<(Option<u32>, u64), Fail> {
    let key = Key::new(alloc, &[key])?.ok_or("key")?;
    let found = seats.call(v, VbCall::Get { key })?;
    let numbers = seats.call(v, VbCall::Stat)?;
    Ok((flags_in(&found), high_in(&numbers)))
}
