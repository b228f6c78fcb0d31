//! A list of numbers behind one step.
ghost use Rattle.std.specs.Prelude.{◌≡◌, IfOk, OnErr, List, ℕ, [], slice_get};
ghost use Rattle.turn_tests.specs.Plain.{plain_step, high, Stands, HasForm, TakesMemory};

use std::alloc::{AllocError, Global};
use std::marker::Model;
use vb_turn::{Machine, Turn, TurnSeat};

#[derive(Drop)]
pub enum Call {
    /// The number at a place, from 0.
    Get(u64),
    /// One more number.
    Put(u64),
    /// Keeps so many of the first numbers.
    Roll(u64),
}

#[derive(Drop)]
pub enum Reply {
    Got(Option<u64>),
    /// How many numbers there are with the new one.
    Stored(u64),
    Rolled,
}

#[derive(Drop)]
pub struct Numbers {
    held: Vec<u64>,
}

impl Model for Numbers {
    ghost Value = { List ℕ };

    ghost view = { λ n. n.held.items };
}

impl Numbers {
    /// No number.
    pub fn new(alloc: Global) -> Numbers
        ensures { Stands result [] }
    {
        Numbers {
            held: Vec::new(alloc),
        }
    }

    /// Makes a call. An `Err` changes nothing.
    fn make(&mut self, call: Call) -> Result<Reply, AllocError>
        ensures ok { IfOk result (λ reply. (s : List ℕ) → Stands self.old s → Stands self.new (plain_step s call).0 × (reply ≡ (plain_step s call).1)) }
        ensures form { IfOk result (λ reply. HasForm call reply) }
        ensures sure { OnErr result (TakesMemory call) }
        ensures err { OnErr result (self.new ≡ self.old) }
    {
        match call {
            Call::Get(at) => Ok(Reply::Got(self.at(at))),
            Call::Put(value) => {
                self.held.push(value)?;
                Ok(Reply::Stored(self.held.len() as u64))
            }
            Call::Roll(to) => {
                if to < self.held.len() as u64 {
                    self.held.truncate(to as usize);
                }
                Ok(Reply::Rolled)
            }
        }
    }

    fn at(&self, at: u64) -> Option<u64>
        ensures { result ≡ slice_get self.now at }
    {
        self.held.get(at as usize).copied()
    }

    fn count(&self) -> u64
        ensures { (s : List ℕ) → Stands self.now s → result ≡ high s }
    {
        self.held.len() as u64
    }

    /// All numbers, in the order in which they were put.
    pub fn values(&self) -> &[u64]
        ensures { result.now ≡ self.now }
    {
        self.held.as_slice()
    }
}

impl Machine<Call, Reply> for Numbers {
    ghost Plain = { List ℕ };

    ghost stands = { Stands };

    ghost next = { plain_step };

    ghost number = { high };

    ghost has_form = { HasForm };

    ghost may_fail = { TakesMemory };

    fn step(&mut self, call: Call) -> Result<Reply, AllocError> {
        self.make(call)
    }

    fn high(&self) -> u64 {
        self.count()
    }
}

/// Numbers that seats call in turns.
pub type NumbersTurn = Turn<Numbers, Call, Reply>;

/// A seat of such a turn.
pub type NumbersSeat = TurnSeat<Numbers, Call, Reply>;
