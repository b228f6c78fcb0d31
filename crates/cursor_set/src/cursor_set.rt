//! A set of cursors.
ghost use Rattle.std.specs.Prelude.{◌≡◌, ◌≢◌, ◌≤◌, [], true, IsSome, IfSome, is_some, OnErr, IfOk, IsOk, OnOk, not};
ghost use Rattle.std.specs.FinMap as map;
ghost use Rattle.std.specs.BTreeMap as tree;
ghost use Rattle.std.specs.Ordering.{nat_cmp};
ghost use Rattle.std.specs.List.{All, Contains};
ghost use Rattle.cursor_set.specs.Cursors.{place_of, registered, may_advance, advanced, IsLeast, least_with};

use std::alloc::{AllocError, Global};
use std::cmp::min;
use std::collections::BTreeMap;
use std::marker::Model;

/// The place of each cursor, by its number.
#[derive(Drop)]
pub struct CursorSet {
    places: BTreeMap<u64, u64>,
}

impl Model for CursorSet {
    ghost use Rattle.std.specs.FinMap as map;
    ghost use Rattle.std.specs.Coded.{coded_ℕ};
    ghost use Rattle.cursor_set.specs.Cursors.{Places};

    ghost Value = { Places };

    ghost coded = { map.code coded_ℕ coded_ℕ };

    ghost view = { λ s. map.from_entries s.places.entries };
}

impl CursorSet {
    /// No cursor.
    pub fn new(alloc: Global) -> CursorSet
        ensures { result ≡ map.empty }
    {
        CursorSet {
            places: BTreeMap::new(alloc),
        }
    }

    /// How many cursors there are.
    pub fn len(&self) -> usize
        ensures { result ≡ map.len self.now }
    {
        self.places.len()
    }

    /// The place of a cursor.
    pub fn place(&self, id: u64) -> Option<u64>
        ensures { result ≡ place_of self.now id }
    {
        self.places.get(&id).copied()
    }

    /// A new cursor, and whether it is new: one that is there stays where it is. An `Err` changes nothing.
    pub fn register(&mut self, id: u64, place: u64) -> Result<bool, AllocError>
        ensures ok { OnOk result (self.new ≡ registered self.old id place) }
        ensures new { IfOk result (λ fresh. fresh ≡ not (is_some (place_of self.old id))) }
        ensures err { OnErr result (self.new ≡ self.old) }
    {
        if self.place(id).is_some() {
            return Ok(false);
        }
        self.put(id, place)?;
        Ok(true)
    }

    /// Moves a cursor on to a seqno, and whether it did: false exactly where it is not there or stands beyond. Takes no memory.
    pub fn advance(&mut self, id: u64, to: u64) -> bool
        ensures places { self.new ≡ advanced self.old id to }
        ensures moved { result ≡ may_advance (place_of self.old id) to }
    {
        match self.place(id) {
            Some(place) if place <= to => {
                let put: Result<_, _> = self.put(id, to);
                put.is_ok()
            }
            _ => false,
        }
    }

    /// Takes a cursor away, and whether it was there.
    pub fn remove(&mut self, id: u64) -> bool
        ensures places { self.new ≡ map.remove self.old id }
        ensures there { result ≡ is_some (place_of self.old id) }
    {
        self.places.remove(&id).is_some()
    }

    /// The least place of all.
    pub fn least(&self) -> u64
        requires { self.now ≢ map.empty }
        ensures { IsLeast self.now result }
    {
        least_of(&self.places).unwrap()
    }

    /// The least of a number and all places, where the cursor 0 is there. Takes no memory.
    pub fn least_with(&self, n: u64) -> u64
        requires { is_some (place_of self.now 0) ≡ true }
        ensures { result ≡ least_with self.now n }
    {
        min(n, self.least())
    }

    /// Leaves the cursor 0 alone, at a place. Takes no memory.
    pub fn reset(&mut self, place: u64)
        requires { is_some (place_of self.now 0) ≡ true }
        ensures { self.new ≡ map.insert map.empty 0 place }
    {
        self.places.retain(|id, _| *id == 0);
        let put: Result<_, _> = self.put(0, place);
        put.unwrap();
    }

    /// Puts a cursor at a place, whether it was there or not; takes no memory for one that was. An `Err`
    /// changes nothing.
    pub fn put(&mut self, id: u64, place: u64) -> Result<(), AllocError>
        ensures ok { OnOk result (self.new ≡ map.insert self.old id place) }
        ensures err { OnErr result (self.new ≡ self.old) }
        ensures there { is_some (place_of self.old id) ≡ true → IsOk result }
    {
        self.places.insert(id, place)?;
        Ok(())
    }
}

/// The least of a map's values.
fn least_of(places: &BTreeMap<u64, u64>) -> Option<u64>
    ensures some { places.now.entries ≢ [] → IsSome result }
    ensures there { IfSome result (Contains (tree.values places.now)) }
    ensures least { IfSome result (λ n. All (λ place. n ≤ place) (tree.values places.now)) }
    ensures ordered { tree.IsOrdered nat_cmp places.now }
{
    places.values().copied().min()
}
