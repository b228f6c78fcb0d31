//! Seqnos in order.
ghost use Rattle.std.specs.Prelude.{◌≡◌, ◌+◌, ◌<◌, ◌≤◌, ◌∷◌, ◌++◌, [], true, length, OnOk};
ghost use Rattle.std.specs.List.{Contains};
ghost use Rattle.std.specs.List.Sorted.{IsPartitionPoint, IsPermutation};
ghost use Rattle.hash_table.specs.Seqnos.{IsFirstAbove, IsLastUpTo, one_if};

use std::alloc::{AllocError, Global};
use std::collections::VecDeque;
use std::marker::Model;

/// Seqnos that do not fall, each as often as it was put there, with their room for more.
#[derive(Drop)]
pub struct Seqnos {
    numbers: VecDeque<u64>,
}

impl Model for Seqnos {
    ghost use Rattle.std.specs.Prelude.{◌-◌};
    ghost use Rattle.std.specs.List.Sorted.{IsNonDecreasing};
    ghost use Rattle.std.specs.VecDeque.{deque_capacity, deque_len};
    ghost use Rattle.hash_table.specs.Seqnos.{Ranked};

    ghost Value = { Ranked };

    ghost view = { λ s. record { list = s.numbers.items; room = deque_capacity s.numbers - deque_len s.numbers } };

    ghost invariant = { λ s. IsNonDecreasing s.numbers.items };
}

impl Seqnos {
    /// No seqno.
    pub fn new(alloc: Global) -> Seqnos
        ensures { result.list ≡ [] }
    {
        Seqnos {
            numbers: VecDeque::new(alloc),
        }
    }

    /// Room for so many more seqnos.
    pub fn reserve(&mut self, seqnos: usize) -> Result<(), AllocError>
        ensures list { self.new.list ≡ self.old.list }
        ensures room { OnOk result (seqnos ≤ self.new.room) }
    {
        self.numbers.reserve(seqnos)
    }

    /// How many are at most this seqno.
    fn count_up_to(&self, seq: u64) -> usize
        ensures parted { IsPartitionPoint (λ number. number ≤ seq) (λ number. seq < number) self.now.list result }
        ensures within { result ≤ length self.now.list }
    {
        self.numbers.partition_point(|number| *number <= seq)
    }

    /// Puts one more seqno in its place. Takes no memory.
    pub fn put(&mut self, seq: u64)
        requires { 0 < self.old.room }
        ensures list { IsPermutation (seq ∷ self.old.list) self.new.list }
        ensures room { self.old.room ≤ self.new.room + 1 }
    {
        let at = self.count_up_to(seq);
        let placed: Result<_, _> = self.numbers.insert(at, seq);
        placed.unwrap();
    }

    /// Takes a seqno out, once.
    pub fn take_out(&mut self, seq: u64)
        requires { Contains self.old.list seq }
        ensures list { IsPermutation self.old.list (seq ∷ self.new.list) }
        ensures room { self.old.room ≤ self.new.room }
    {
        let behind = self.count_up_to(seq);
        self.numbers.remove(behind - 1);
    }

    /// Puts one more seqno in its place, if it counts. Takes no memory.
    pub fn put_if(&mut self, counts: bool, seq: u64)
        requires { 0 < self.old.room }
        ensures list { IsPermutation (one_if counts seq ++ self.old.list) self.new.list }
        ensures room { self.old.room ≤ self.new.room + 1 }
    {
        if counts {
            self.put(seq);
        }
    }

    /// Takes a seqno out, once, if it counts.
    pub fn take_out_if(&mut self, counts: bool, seq: u64)
        requires { counts ≡ true → Contains self.old.list seq }
        ensures list { IsPermutation self.old.list (one_if counts seq ++ self.new.list) }
        ensures room { self.old.room ≤ self.new.room }
    {
        if counts {
            self.take_out(seq);
        }
    }

    /// The greatest seqno that is at most this one.
    pub fn last_up_to(&self, seq: u64) -> Option<u64>
        ensures { IsLastUpTo (Contains self.now.list) seq result }
    {
        let behind = self.count_up_to(seq);
        if behind == 0 {
            return None;
        }
        Some(self.numbers[behind - 1])
    }

    /// The lowest seqno that is above this one.
    pub fn first_above(&self, seq: u64) -> Option<u64>
        ensures { IsFirstAbove (Contains self.now.list) seq result }
    {
        let at = self.count_up_to(seq);
        if at == self.numbers.len() {
            return None;
        }
        Some(self.numbers[at])
    }
}
