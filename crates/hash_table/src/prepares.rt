//! The prepares that wait, found by their keys and by their seqnos.
ghost use Rattle.std.specs.Prelude.{◌≡◌, ◌+◌, ◌<◌, ◌≤◌, OnOk, IfOk, map as map_list};
ghost use Rattle.std.specs.FinMap as map;
ghost use Rattle.std.specs.Option.{option_copied};
ghost use Rattle.vb_types.specs.Keys.{key_cmp};
ghost use Rattle.hash_table.specs.Seqnos.{IsFirstAbove, IsLastUpTo, ThirdWaitsAt, WaitsAt};
ghost use Rattle.vb_types.specs.Levels.{is_third};

use crate::hashed::Hashed;
use crate::seqnos::Seqnos;
use std::alloc::{AllocError, Global};
use std::marker::Model;
use vb_types::{Key, Level, Pend};

/// The prepares that wait, seen as a finite map from their keys, with their room for more. Their
/// seqnos lie in order beside it, so that one is found without going over all.
#[derive(Drop)]
pub struct Prepares {
    pends: Hashed<Pend>,
    /// The seqnos of all.
    seqnos: Seqnos,
    /// The seqnos of those of level 3.
    thirds: Seqnos,
}

impl Model for Prepares {
    ghost use Rattle.std.specs.Prelude.{true, min};
    ghost use Rattle.vb_types.specs.declared.change.Pend.{Pend as Waits};
    ghost use Rattle.vb_types.specs.contracts.change.Pend as pend_row;
    ghost use Rattle.hash_table.specs.Seqnos.{AreSeqnos};
    ghost use Rattle.vb_types.specs.Levels.{is_third};
    ghost use Rattle.hash_table.specs.Tables.{Filled, filled_code};

    ghost Value = { Filled Waits };

    ghost coded = { filled_code pend_row.the_row.coded };

    ghost view = { λ p. record { map = p.pends.map; room = min p.pends.room (min p.seqnos.room p.thirds.room) } };

    ghost invariant = { λ p. AreSeqnos (λ _. true) p.pends.map p.seqnos.list × AreSeqnos (λ pend. is_third pend.level) p.pends.map p.thirds.list };
}

impl Prepares {
    /// None that waits.
    pub fn new(alloc: Global) -> Prepares
        ensures { result.map ≡ map.empty }
    {
        Prepares {
            pends: Hashed::new(alloc),
            seqnos: Seqnos::new(alloc),
            thirds: Seqnos::new(alloc),
        }
    }

    /// The one of a key.
    pub fn get(&self, key: &Key) -> Option<&Pend>
        ensures { option_copied result ≡ map.get self.now.map key.now }
    {
        self.pends.get(key)
    }

    /// The greatest seqno of one that waits, of those that are at most this one.
    pub fn last_up_to(&self, seq: u64) -> Option<u64>
        ensures { IsLastUpTo (WaitsAt self.now.map) seq result }
    {
        self.seqnos.last_up_to(seq)
    }

    /// The lowest seqno of one of level 3, of those that are above this one.
    pub fn first_third_above(&self, seq: u64) -> Option<u64>
        ensures { IsFirstAbove (ThirdWaitsAt self.now.map) seq result }
    {
        self.thirds.first_above(seq)
    }

    /// Room for so many more.
    pub fn reserve(&mut self, prepares: usize) -> Result<(), AllocError>
        ensures map { self.new.map ≡ self.old.map }
        ensures room { OnOk result (prepares ≤ self.new.room) }
    {
        self.pends.reserve(prepares)?;
        self.seqnos.reserve(prepares)?;
        self.thirds.reserve(prepares)
    }

    /// Sets what waits at a key. Takes no memory.
    pub fn insert(&mut self, key: Key, pend: Pend)
        requires { 0 < self.old.room }
        ensures map { self.new.map ≡ map.insert self.old.map key pend }
        ensures room { self.old.room ≤ self.new.room + 1 }
    {
        self.remove(&key);
        self.seqnos.put(pend.seq);
        self.thirds.put_if(is_third(pend.level), pend.seq);
        self.pends.insert(key, pend);
    }

    /// Takes away what waits at a key, if anything does.
    pub fn remove(&mut self, key: &Key)
        ensures map { self.new.map ≡ map.remove self.old.map key.now }
        ensures room { self.old.room ≤ self.new.room }
    {
        if let Some(pend) = self.pends.remove(key) {
            self.seqnos.take_out(pend.seq);
            self.thirds.take_out_if(is_third(pend.level), pend.seq);
        }
    }

    /// What there is, in any order.
    pub fn list(&self, alloc: Global) -> Result<Vec<(&Key, &Pend)>, AllocError>
        ensures { IfOk result (λ pairs. map.from_entries {R = key_cmp} (map_list (λ p. (p.0.now, p.1.now)) pairs.items) ≡ self.now.map) }
    {
        self.pends.list(alloc)
    }

    /// What there is, in the order of the keys.
    pub fn in_order(&self, alloc: Global) -> Result<Vec<(&Key, &Pend)>, AllocError>
        ensures { IfOk result (λ pairs. map_list (λ p. (p.0.now, p.1.now)) pairs.items ≡ map.entries self.now.map) }
    {
        self.pends.in_order(alloc)
    }
}

/// Whether a level is the third.
fn is_third(level: Level) -> bool
    ensures { result ≡ is_third level }
{
    level == Level::PersistMajority
}
