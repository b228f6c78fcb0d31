//! The bases of client connections, by which their waits for durable writes are numbered.
ghost use Rattle.std.specs.Prelude.{◌≡◌, ◌≤◌, [], OnOk, Some};
ghost use Rattle.{node_core.specs.Outcomes.{Renumbered}, node_world.specs.Bases.{IsNext, LosesStale}};

use crate::Alloc;
use node_core::Numbered;
use std::alloc::Global;
use std::collections::BTreeSet;
use std::marker::Model;

/// The bases of connections by the connections' numbers, and the numbers by the bases, in order: two
/// may have one base, since lines from 2^32 on begin with the bases anew. A connection that closed
/// keeps its base until one of its number is opened again.
#[derive(Drop)]
pub struct Bases {
    of: Numbered<u32>,
    pairs: BTreeSet<(u32, u32)>,
}

impl Model for Bases {
    ghost use Rattle.std.specs.Prelude.{ℕ, List};
    ghost use Rattle.node_world.specs.Bases.{ArePaired};

    ghost Value = { List (ℕ × ℕ) };

    ghost view = { λ b. b.of };

    ghost invariant = { λ b. ArePaired b.of b.pairs };
}

/// Takes the base out that a connection had before, if it had another one.
fn drop_stale(pairs: &mut BTreeSet<(u32, u32)>, client: u32, before: Option<u32>, base: u32)
    ensures { LosesStale client base pairs.old pairs.new }
{
    if let Some(before) = before {
        if before != base {
            pairs.remove(&(before, client));
        }
    }
}

impl Bases {
    /// No bases.
    pub fn new(alloc: Global) -> Bases
        ensures { result ≡ [] }
    {
        Bases {
            of: Numbered::new(alloc),
            pairs: BTreeSet::new(alloc),
        }
    }

    /// Sets the base of a connection.
    pub fn set(&mut self, client: u32, base: u32) -> Alloc<()>
        ensures { OnOk result (Renumbered self.old self.new client (Some base)) }
    {
        let before = self.of.get(client).copied();
        self.pairs.insert((base, client))?;
        self.of.put(client, base)?;
        drop_stale(&mut self.pairs, client, before, base);
        Ok(())
    }

    /// The next connection that may have a base, from a number on and below an end: those before it
    /// have another one.
    pub fn next(&self, base: u32, from: u32, end: u32) -> Option<u32>
        requires { from ≤ end }
        ensures { IsNext base from end self.now result }
    {
        match self.pairs.range((base, from)..(base, end)).next() {
            Some(pair) => Some(pair.1),
            None => None,
        }
    }
}
