//! What a seat knows. No value of these types is made: they are for clauses and proofs alone.
use std::collections::LinkedList;
use std::marker::Brand;

/// M is the object, and E a call with its reply.
pub struct View<M, E> {
    /// The object as it was when its turn was made. The view of a seat that was taken in has none.
    pub opening: Option<M>,
    /// The history up to where the seat has seen it: all calls, its own and those of others.
    pub seen: LinkedList<E>,
    /// The shorter of the two that the seat had seen at its last join, which `seen` begins with. A
    /// join's own step tells nothing of the rule, so that the one begins the other stays in the view
    /// until the next load tells it.
    pub met: LinkedList<E>,
    /// The whole history, while the seat has the turn, and nothing else.
    pub base: LinkedList<E>,
    /// The seat's own calls, each with its place in the history; the first place is 0.
    pub mine: LinkedList<(u64, E)>,
    /// The largest number that the seat was told.
    pub known: u64,
    /// How many of all 4,294,967,296 parts the seat has.
    pub parts: u64,
    /// The seat has the turn.
    pub turn: bool,
}

/// Names a call with its reply. What a step tells is told of a type, and a type has no parameter that
/// is a value: so the entry that is published stands in one.
pub trait Entry<E> {
    ghost use mathlib.Core.Option.{Option};

    ghost entry: { Option E };
}

impl<E> Entry<E> for Brand {
    ghost use mathlib.Core.Option.{none};

    ghost entry = { none };
}

/// Names a number of parts, for the same reason.
pub trait Parts {
    ghost use Rattle.std.specs.Prelude.{ℕ};

    ghost parts: { ℕ };
}

impl Parts for Brand {
    ghost parts = { 0 };
}
