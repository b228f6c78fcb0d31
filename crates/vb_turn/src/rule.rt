//! The rule of a turn's table, and what each step of a seat tells. No value of these types is made.
ghost use Rattle.vb_turn.specs.History.{Sound, Ends};
ghost use Rattle.vb_turn.specs.Turning.{Turning, opened, claimed, published, released, loaded, left, right, both, spent};

use crate::machine::Machine;
use crate::view::{Entry, Parts, View};
use atomic_table::{Join, Play, Split, TableRule};
use std::marker::PhantomData;
use std::snapshot::Snapshot;

/// There is one legal history of all calls: `Turning` of specs/Turning says what holds between any two
/// steps.
pub struct OneHistory;

impl<C, R, M: Machine<C, R>> TableRule<M, View<M, (C, R)>, Snapshot<M>> for OneHistory {
    ghost holds = { λ key. Turning (Sound M.stands M.next M.number) (Ends M.stands M.next) key.value };

    ghost first = { λ key. opened key.value };
}

/// The turn word from 0 to 1, by one compare and exchange, with the object out of the slot.
pub struct Claim;

impl<C, R, M: Machine<C, R>> Play<M, View<M, (C, R)>> for Claim {
    ghost then = { claimed (Sound M.stands M.next M.number) (Ends M.stands M.next) };
}

/// The number word to the larger of what it was and the object's number, with the call N joined to the
/// history.
pub struct Publish<N> {
    entry: PhantomData<N>,
}

impl<C, R, M: Machine<C, R>, N: Entry<(C, R)>> Play<M, View<M, (C, R)>> for Publish<N> {
    ghost then = { published (Sound M.stands M.next M.number) (Ends M.stands M.next) N.entry };
}

/// The turn word to 0, with the object back in the slot.
pub struct Release;

impl<C, R, M: Machine<C, R>> Play<M, View<M, (C, R)>> for Release {
    ghost then = { released (Sound M.stands M.next M.number) (Ends M.stands M.next) };
}

/// The number word read.
pub struct Load;

impl<C, R, M: Machine<C, R>> Play<M, View<M, (C, R)>> for Load {
    ghost then = { loaded (Sound M.stands M.next M.number) (Ends M.stands M.next) };
}

/// A seat cut in two, of which the new one has N of the parts.
pub struct Cut<N> {
    parts: PhantomData<N>,
}

impl<M, E, N: Parts> Split<View<M, E>> for Cut<N> {
    ghost left = { left N.parts };

    ghost right = { right N.parts };
}

/// A seat taken in by another.
pub struct Gather;

impl<M, E> Join<View<M, E>> for Gather {
    ghost both = { both };

    ghost spent = { spent };
}
