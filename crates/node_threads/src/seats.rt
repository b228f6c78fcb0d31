//! Seats of vBuckets, by the vBuckets' numbers.
ghost use Rattle.std.specs.Prelude.{◌≡◌, ◌==◌, false, IfOk, IfErr, OnOk, OnErr, [], ◌∷◌, ◌++◌};
ghost use Rattle.std.specs.List.{position};
ghost use Rattle.vb_calls.specs.Forms.{HasForm, TakesMemory};
ghost use Rattle.node_threads.specs.Seats.{CalledVb, has_row, row_of, rows_of};

use crate::slot::SeatSlot;
use std::alloc::{AllocError, AllocFailed, Global};
use std::marker::Model;
use std::sync::Wait;
use vb_calls::{VbCall, VbReply};
use vb_turn::Gate;

/// Seats of vBuckets, by the vBuckets' numbers. Others may call the same vBuckets, from other threads.
#[derive(Drop)]
pub struct VbSeats<'a, W, G> {
    pub(crate) alloc: Global,
    pub(crate) rt: &'a W,
    pub(crate) gate: &'a G,
    pub(crate) slots: Vec<SeatSlot>,
}

impl<'a, W, G> Model for VbSeats<'a, W, G> {
    ghost use Rattle.std.specs.Prelude.{List};
    ghost use Rattle.node_threads.specs.Codes.{rows_code};
    ghost use Rattle.node_threads.specs.Seats.{Row, rows_of};

    ghost Value = { List Row };

    ghost coded = { rows_code };

    ghost view = { λ s. rows_of s.slots.items };
}

/// Where the seat of a number stands.
pub(crate) fn slot_place(slots: &[SeatSlot], v: u16) -> Option<usize>
    ensures { result ≡ position (λ slot. slot.number == v) slots.now }
{
    slots.iter().position(|slot| slot.number == v)
}

/// One turn of a seat, through the gate of its vBucket.
pub(crate) fn call_slot<W: Wait, G: Gate>(
    rt: &W,
    gate: &G,
    slot: &mut SeatSlot,
    call: VbCall,
) -> Result<VbReply, AllocError>
    ensures ok { IfOk result (λ reply. CalledVb (row_of slot.old).view call reply (row_of slot.new).view) }
    ensures form { IfOk result (λ reply. HasForm call reply.answer) }
    ensures same { (slot.new.number ≡ slot.old.number) × ((row_of slot.new).table ≡ (row_of slot.old).table) }
    ensures sure { OnErr result (TakesMemory call) }
    ensures err { OnErr result ((row_of slot.new).view ≡ (row_of slot.old).view) }
{
    let v = slot.number;
    slot.turn.call_gated(rt, gate, v, &mut slot.seat, call)
}

impl<'a, W, G> VbSeats<'a, W, G> {
    /// No seats. Who calls through them waits by `rt`, and passes the gate.
    pub fn new(alloc: Global, rt: &'a W, gate: &'a G) -> VbSeats<'a, W, G>
        ensures { result ≡ [] }
    {
        VbSeats {
            alloc,
            rt,
            gate,
            slots: Vec::new(alloc),
        }
    }

    /// Whether there is one of that number.
    pub fn has(&self, v: u16) -> bool
        ensures { result ≡ has_row self.now v }
    {
        slot_place(&self.slots, v).is_some()
    }

    /// Takes in a seat, with the turn of its vBucket. An `Err` is want of memory: it hands the seat back,
    /// and changes nothing.
    pub fn lend(&mut self, slot: SeatSlot) -> Result<(), SeatSlot>
        requires { has_row self.old slot.number ≡ false }
        ensures ok { OnOk result (self.new ≡ self.old ++ row_of slot ∷ []) }
        ensures back { IfErr result (λ s. s ≡ slot) }
        ensures err { OnErr result (self.new ≡ self.old) }
    {
        match self.slots.push(slot) {
            Ok(()) => Ok(()),
            Err(AllocFailed { value }) => Err(value),
        }
    }

    /// All seats, each beside its turn, with what they have seen and done.
    pub fn into_seats(self) -> Vec<SeatSlot>
        ensures { rows_of result.items ≡ self.entry }
    {
        let VbSeats {
            alloc: _,
            rt: _,
            gate: _,
            slots,
        } = self;
        slots
    }
}
