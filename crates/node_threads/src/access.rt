//! The seats are an access to their vBuckets.
ghost use Rattle.node_threads.specs.Seats.{has_row, seat_made, seat_step};

use crate::seats::{VbSeats, call_slot, slot_place};
use crate::slot::SeatSlot;
use std::alloc::AllocError;
use std::sync::{Arc, Wait};
use vb_calls::{VbAccess, VbCall, VbReply};
use vb_turn::Gate;
use vb_types::Role;
use vbucket::{TurnVb, VBucket};

impl<'a, W: Wait, G: Gate> VbAccess for VbSeats<'a, W, G> {
    ghost has = { has_row };

    fn is_there(&self, v: u16) -> bool {
        self.has(v)
    }

    ghost step = { seat_step };

    fn call(&mut self, v: u16, call: VbCall) -> Result<Option<VbReply>, AllocError> {
        match slot_place(&self.slots, v) {
            None => {
                // Handed on whole: what lets a call go here, variant by variant, is longer than all else.
                drop(call);
                Ok(None)
            }
            Some(at) => {
                let reply = call_slot(self.rt, self.gate, &mut self.slots[at], call)?;
                Ok(Some(reply))
            }
        }
    }

    ghost made = { seat_made };

    fn make(&mut self, v: u16, node: u8, role: Role, uuid: u64) -> Result<bool, AllocError> {
        if self.has(v) {
            return Ok(false);
        }
        let vb = VBucket::new(self.alloc, node, role, uuid)?;
        let (turn, seat) = TurnVb::new(self.alloc, vb)?;
        let turn = Arc::new(self.alloc, turn)?;
        self.slots.push(SeatSlot {
            number: v,
            turn,
            seat,
        })?;
        Ok(true)
    }
}
