//! A turn, its seats, and the gate.
ghost use Rattle.std.specs.Prelude.{◌≡◌, ◌≤◌, IsSome};
ghost use Rattle.vb_turn.specs.Turning.{all_parts};
ghost use Rattle.vb_turn.specs.Seats.{IsIdle};

use crate::machine::Machine;
use crate::rule::OneHistory;
use crate::view::View;
use atomic_table::{Seat, Table};
use std::alloc::Global;
use std::snapshot::Snapshot;
use std::sync::atomic::AtomicU64;

/// How many parts all seats of a turn have together.
pub const ALL_PARTS: u64 = 1 << 32;

pub(crate) type Own<M, C, R> = Seat<M, View<M, (C, R)>>;

/// An object that seats call in turns: it lies in one slot, beside the largest number that its states
/// have shown and a word that says whether a seat has the turn.
#[derive(Drop)]
pub struct Turn<M: Machine<C, R>, C, R> {
    pub(crate) table: Table<M, View<M, (C, R)>, Snapshot<M>, OneHistory, Global>,
    /// How many seats park, so that one who gives the turn up wakes none where none does: a wake is a
    /// call of the system, and costs sixty times what the rest of a turn does.
    pub(crate) waiting: AtomicU64,
    ghost sized: { (table.shared.table_id.words ≡ 2) × (table.shared.table_id.slots ≡ 1) },
}

/// The right to call a turn's object, and what its holder has seen and done. It has a part of all
/// parts: those of a seat that is dropped are lost, and then no seat closes the turn.
#[derive(Drop)]
pub struct TurnSeat<M, C, R> {
    pub(crate) own: Own<M, C, R>,
    pub(crate) parts: u64,
    ghost idle: { IsIdle own.me },
    ghost opened: { IsSome own.me.0.opening },
    ghost counted: { parts ≡ own.me.0.parts },
    ghost within: { parts ≤ all_parts },
}

/// What is done while a seat has the turn: it sees that turns of several objects are had at once.
pub trait Gate {
    /// Passes the gate of the object `v`. The turn is had meanwhile, so a call of the same turn in here
    /// never returns.
    fn pass(&self, v: u16);
}
