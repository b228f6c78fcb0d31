//! A map from keys by their hash.
ghost use Rattle.std.specs.Prelude.{◌≡◌, ◌+◌, ◌<◌, ◌≤◌, OnOk, OnErr, IfOk, nat_eq, map as map_list};
ghost use Rattle.std.specs.Cmp.Lexicographic.{pointwise};
ghost use Rattle.std.specs.HashMap.{IsUnique};
ghost use Rattle.std.specs.FinMap as map;
ghost use Rattle.std.specs.Option.{option_copied};
ghost use Rattle.vb_types.specs.Keys.{key_cmp};

use std::alloc::{AllocError, Global};
use std::collections::HashMap;
use std::marker::Model;
use vb_types::Key;

/// A map from keys by their hash, seen as a finite map, with its room for more.
#[derive(Drop)]
pub struct Hashed<V> {
    table: HashMap<Key, V>,
}

impl<V> Model for Hashed<V> {
    ghost use Rattle.std.specs.FinMap as map;
    ghost use Rattle.std.specs.HashMap.{spare};
    ghost use Rattle.hash_table.specs.Tables.{Filled, filled_code};

    ghost Value = { Filled V };

    ghost coded = { filled_code V.code };

    ghost view = { λ m. record { map = map.from_entries m.table.entries; room = spare m.table } };
}

impl<V> Hashed<V> {
    /// The empty map.
    pub fn new(alloc: Global) -> Hashed<V>
        ensures { result.map ≡ map.empty }
    {
        Hashed {
            table: HashMap::new(alloc),
        }
    }

    /// What is at a key. An empty map answers with no hash of the key: mostly no prepare waits, and then
    /// each write would hash its key for the prepares in vain.
    pub fn get(&self, key: &Key) -> Option<&V>
        ensures { option_copied result ≡ map.get self.now.map key.now }
    {
        if self.table.is_empty() {
            return None;
        }
        self.table.get(key)
    }

    /// Room for so many more keys.
    pub fn reserve(&mut self, keys: usize) -> Result<(), AllocError>
        ensures map { self.new.map ≡ self.old.map }
        ensures room { OnOk result (keys ≤ self.new.room) }
    {
        self.table.reserve(keys)
    }

    /// What there is, in any order.
    pub fn list(&self, alloc: Global) -> Result<Vec<(&Key, &V)>, AllocError>
        ensures { IfOk result (λ pairs. map.from_entries {R = key_cmp} (map_list (λ p. (p.0.now, p.1.now)) pairs.items) ≡ self.now.map) }
    {
        pairs_of(alloc, &self.table)
    }

    /// What there is, in the order of the keys.
    pub fn in_order(&self, alloc: Global) -> Result<Vec<(&Key, &V)>, AllocError>
        ensures { IfOk result (λ pairs. map_list (λ p. (p.0.now, p.1.now)) pairs.items ≡ map.entries self.now.map) }
    {
        let mut pairs = pairs_of(alloc, &self.table)?;
        pairs.sort_by(|one, other| one.0.cmp(other.0))?;
        Ok(pairs)
    }
}

impl<V: Drop> Hashed<V> {
    /// Sets what is at a key.
    pub fn insert(&mut self, key: Key, value: V)
        requires { 0 < self.old.room }
        ensures map { self.new.map ≡ map.insert self.old.map key value }
        ensures room { self.old.room ≤ self.new.room + 1 }
    {
        let placed: Result<_, _> = self.table.insert(key, value);
        placed.unwrap();
    }

    /// Takes away what is at a key, if anything is, and gives it.
    pub fn remove(&mut self, key: &Key) -> Option<V>
        ensures was { result ≡ map.get self.old.map key.now }
        ensures map { self.new.map ≡ map.remove self.old.map key.now }
        ensures room { self.old.room ≤ self.new.room }
    {
        self.table.remove(key)
    }
}

/// The entries of a table, in its order.
fn pairs_of<V>(alloc: Global, table: &HashMap<Key, V>) -> Result<Vec<(&Key, &V)>, AllocError>
    ensures pairs { IfOk result (λ pairs. map_list (λ p. (p.0.now, p.1.now)) pairs.items ≡ table.now.entries) }
    ensures unique { IsUnique (pointwise nat_eq) table.now }
{
    table.iter().collect(alloc)
}
