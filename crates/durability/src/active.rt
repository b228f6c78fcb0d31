//! What an active node knows of its outstanding durable writes.
ghost use Rattle.std.specs.Prelude.{◌≡◌, ◌==◌, ◌≤◌, ◌<◌, ◌+◌, ◌++◌, ◌&&◌, suc, true, not, is_some, [], max, length, take, drop, slice_set, IfOk, IfSome, OnOk, OnErr};
ghost use Rattle.std.specs.List.{list_any};
ghost use Rattle.durability.specs.Chains as chains;
ghost use Rattle.durability.specs.Laws.{HasMajority};
ghost use Rattle.durability.specs.Outstanding as spec;

use crate::chain::Chain;
use crate::counting::{enough_in_turn, has_enough, majority, named};
use crate::order::{first_late, holds_left, place_for, place_of, put_at};
use crate::waiting::Waiting;
use std::alloc::{AllocError, Global};
use std::collections::VecDeque;
use std::marker::Model;

/// The outstanding prepares of an active vBucket, its chain, and what each member acknowledged since
/// the vBucket became active on its branch.
#[derive(Drop)]
pub struct Active {
    acks: Vec<u64>,
    others: Vec<Option<u8>>,
    waiting: VecDeque<Waiting>,
}

impl Model for Active {
    ghost use Rattle.std.specs.Prelude.{◌≡◌, ◌≤◌, ◌-◌, true, vec_len};
    ghost use Rattle.std.specs.VecDeque.{deque_len, deque_capacity};
    ghost use Rattle.durability.specs.Chains.{named, differ};
    ghost use Rattle.durability.specs.Outstanding.{Known, known_code, Rises};

    ghost Value = { Known };

    ghost coded = { known_code };

    ghost view = { λ a. record { acks = a.acks.items; others = a.others.items; waiting = a.waiting.items; spare = deque_capacity a.waiting - deque_len a.waiting } };

    ghost invariant = { λ a. (vec_len a.acks ≡ 256) × (vec_len a.others ≤ 3) × (differ (named a.others.items) ≡ true) × Rises 0 a.waiting.items };
}

impl Active {
    /// No prepare, no acknowledgement, and the chain of the active node alone.
    pub fn new(alloc: Global) -> Result<Active, AllocError>
        ensures acks { IfOk result (λ active. active.acks ≡ spec.no_acks) }
        ensures others { IfOk result (λ active. active.others ≡ []) }
        ensures waiting { IfOk result (λ active. active.waiting ≡ []) }
    {
        Ok(Active {
            acks: vec![in alloc; 0; 256]?,
            others: Vec::new(alloc),
            waiting: VecDeque::new(alloc),
        })
    }

    /// The outstanding prepares, by rising seqnos.
    pub fn waiting(&self) -> &VecDeque<Waiting>
        ensures prepares { result.now.items ≡ self.now.waiting }
        ensures rises { spec.Rises 0 result.now.items }
    {
        &self.waiting
    }

    /// Room for `n` more prepares. An `Err` changes nothing else than the room.
    pub fn reserve(&mut self, n: u64) -> Result<(), AllocError>
        ensures room { OnOk result (n ≤ self.new.spare) }
        ensures more { self.old.spare ≤ self.new.spare }
        ensures rest { self.new ≡ record self.old { spare = self.new.spare } }
    {
        self.waiting.reserve(n as usize)
    }

    /// One more prepare, behind each one whose seqno is not above its own. An `Err` changes nothing else
    /// than the room.
    pub fn add(&mut self, prepare: Waiting) -> Result<(), AllocError>
        ensures ok { OnOk result (self.new ≡ record self.old { waiting = spec.placed prepare self.old.waiting; spare = self.new.spare }) }
        ensures err { OnErr result (self.new ≡ record self.old { spare = self.new.spare }) }
    {
        self.reserve(1)?;
        self.add_reserved(prepare);
        Ok(())
    }

    /// One more prepare, as `add` puts it, and its place. Takes no memory.
    pub fn add_reserved(&mut self, prepare: Waiting) -> usize
        requires { 1 ≤ self.old.spare }
        ensures prepares { self.new ≡ record self.old { waiting = spec.placed prepare self.old.waiting; spare = self.new.spare } }
        ensures spare { self.new.spare + 1 ≡ self.old.spare }
        ensures within { result < length self.new.waiting }
        ensures others { take result self.new.waiting ++ drop (suc result) self.new.waiting ≡ self.old.waiting }
    {
        let at = place_for(&self.waiting, &prepare);
        put_at(&mut self.waiting, at, prepare);
        at
    }

    /// Takes out the prepare at a place. Takes no memory.
    pub fn take_back(&mut self, at: usize)
        requires { at < length self.old.waiting }
        ensures { self.new ≡ record self.old { waiting = take at self.old.waiting ++ drop (suc at) self.old.waiting; spare = self.new.spare } }
    {
        self.waiting.remove(at);
    }

    /// The same once more.
    pub fn copy(&self, alloc: Global) -> Result<Active, AllocError>
        ensures { IfOk result (λ copy. copy ≡ record self.now { spare = copy.spare }) }
    {
        Ok(Active {
            acks: Vec::from_slice(alloc, &self.acks)?,
            others: Vec::from_slice(alloc, &self.others)?,
            waiting: copies_of(alloc, &self.waiting)?,
        })
    }

    /// A member acknowledged all up to a seqno. A lower number than before changes nothing. Takes no memory.
    pub fn ack(&mut self, member: u8, seq: u64)
        ensures { self.new ≡ record self.old { acks = spec.with_ack self.old.acks member seq } }
    {
        let member = usize::from(member);
        self.acks[member] = self.acks[member].max(seq);
    }

    /// What a member acknowledged.
    pub fn acked(&self, member: u8) -> u64
        ensures { result ≡ spec.acked self.now.acks member }
    {
        self.acks[usize::from(member)]
    }

    /// Sets back what a member acknowledged. Takes no memory.
    pub fn unack(&mut self, member: u8, former: u64)
        ensures { self.new ≡ record self.old { acks = slice_set self.old.acks member former } }
    {
        self.acks[usize::from(member)] = former;
    }

    /// Sets the chain, and gives the other members that it had. What members acknowledged stays.
    pub fn set_chain(&mut self, chain: Chain) -> Vec<Option<u8>>
        ensures set { self.new ≡ record self.old { others = chain.others } }
        ensures former { result.items ≡ self.old.others }
        ensures few { length result.items ≤ 3 }
        ensures different { chains.differ (chains.named result.items) ≡ true }
    {
        std::mem::replace(&mut self.others, chain.into_others())
    }

    /// Sets back the other members of the chain. Takes no memory.
    pub fn unset_chain(&mut self, former: Vec<Option<u8>>)
        requires few { length former.items ≤ 3 }
        requires different { chains.differ (chains.named former.items) ≡ true }
        ensures { self.new ≡ record self.old { others = former.items } }
    {
        self.others = former;
    }

    /// Whether as many members are set as a majority of the chain has.
    pub fn possible(&self) -> bool
        ensures { result ≡ chains.is_possible self.now.others }
    {
        majority(&self.others) <= 1 + named(&self.others)
    }

    /// The seqno of the next commit, where the active node has saved all up to `saved`: the lowest
    /// outstanding one, and none where that has not what it needs. A majority of the chain then holds it,
    /// this node counted. Takes no memory.
    pub fn next(&self, saved: u64) -> Option<u64>
        ensures lowest { result ≡ chains.next_of (spec.acked self.now.acks) self.now.others saved self.now.waiting }
        ensures held { IfSome result (λ seq. HasMajority self.now.others (λ m. seq ≤ spec.acked self.now.acks m)) }
    {
        match self.waiting.front() {
            Some(lowest) if has_enough(&self.acks, &self.others, saved, lowest) => Some(lowest.seq),
            _ => None,
        }
    }

    /// How many of the outstanding prepares, from the lowest on, have what they need one after the other,
    /// where the active node has saved all up to `saved`. Takes no memory.
    pub fn ready(&self, saved: u64) -> usize
        ensures count { result ≡ length (chains.committed_now (spec.acked self.now.acks) self.now.others saved self.now.waiting) }
        ensures within { result ≤ length self.now.waiting }
    {
        enough_in_turn(&self.acks, &self.others, saved, &self.waiting)
    }

    /// The lowest seqno of a prepare whose deadline is not after the clock. Takes no memory.
    pub fn expired(&self, clock: u64) -> Option<u64>
        ensures { result ≡ spec.front_seq (spec.late clock self.now.waiting) }
    {
        first_late(&self.waiting, clock)
    }

    /// Whether an outstanding prepare of a seqno is to be committed again: it has no deadline. Takes no
    /// memory.
    pub fn holds_left(&self, seq: u64) -> bool
        ensures { result ≡ list_any (λ w. w.seq == seq && not (is_some w.deadline)) self.now.waiting }
    {
        holds_left(&self.waiting, seq)
    }

    /// Takes out the first prepare of a seqno, which was committed or given up. Takes no memory.
    pub fn resolve(&mut self, seq: u64) -> Option<Waiting>
        ensures gone { result ≡ spec.front (spec.at_seq seq self.old.waiting) }
        ensures rest { self.new ≡ record self.old { waiting = spec.without seq self.old.waiting; spare = self.new.spare } }
        ensures room { self.old.spare ≤ self.new.spare }
    {
        let at = place_of(&self.waiting, seq)?;
        self.waiting.remove(at)
    }

    /// No prepare, no acknowledgement, and the chain of the active node alone, as in a new one. Takes no
    /// memory.
    pub fn clear(&mut self)
        ensures rest { self.new ≡ record self.old { acks = spec.no_acks; others = []; waiting = []; spare = self.new.spare } }
        ensures room { self.old.spare ≤ self.new.spare }
    {
        self.acks.fill(0);
        self.others.clear();
        self.waiting.clear();
    }
}

/// The same prepares once more.
fn copies_of(alloc: Global, waiting: &VecDeque<Waiting>) -> Result<VecDeque<Waiting>, AllocError>
    ensures { IfOk result (λ copies. copies.items ≡ waiting.now.items) }
{
    let mut copies = VecDeque::new(alloc);
    for prepare in waiting {
        copies.push_back(prepare.copy()?)?;
    }
    Ok(copies)
}
