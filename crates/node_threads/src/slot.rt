//! A seat, beside the turn of its vBucket.
ghost use Rattle.std.specs.Arc.{arc_value};
ghost use Rattle.vb_turn.specs.Words.{IsSeatOf};

use std::sync::Arc;
use vbucket::{TurnVb, VbSeat};

/// A seat of the vBucket of a number, beside the vBucket's turn.
#[derive(Drop)]
pub struct SeatSlot {
    pub number: u16,
    pub turn: Arc<TurnVb>,
    pub seat: VbSeat,
    ghost own: { IsSeatOf (arc_value turn) seat },
}
