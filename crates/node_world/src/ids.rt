//! The ids that branches were given.
ghost use Rattle.std.specs.Prelude.{◌≡◌, ◌==◌, ◌||◌, ◌++◌, [], List, ℕ, OnOk};
ghost use Rattle.{std.specs.List.{flat_map}, node_world.specs.Lines.{free_uuid}, node_world.specs.Power.{any_used}, node_world.specs.Stands.{has_id, IdsStand}, node_world.specs.World.{branch_of_line}};

use crate::Alloc;
use std::alloc::Global;
use std::collections::BTreeSet;
use std::marker::Model;
use vb_events::Event;

/// A set of ids. Clauses see them in their order.
#[derive(Drop)]
pub struct Ids {
    set: BTreeSet<u64>,
}

impl Model for Ids {
    ghost use Rattle.std.specs.Prelude.{ℕ, List};

    ghost Value = { List ℕ };

    ghost view = { λ i. i.set.keys };
}

impl Ids {
    /// No ids.
    pub fn new(alloc: Global) -> Ids
        ensures { result ≡ [] }
    {
        Ids {
            set: BTreeSet::new(alloc),
        }
    }

    /// Whether an id was given.
    pub fn has(&self, id: u64) -> bool
        ensures { result ≡ has_id self.now id }
    {
        self.set.contains(&id)
    }

    /// The id where it was not given yet, and else 0.
    pub fn free(&self, id: u64) -> u64
        ensures { (uuids : List ℕ) → IdsStand self.now uuids → result ≡ free_uuid uuids id }
    {
        if self.has(id) { 0 } else { id }
    }

    /// Whether one of these ids was given, or stands twice among them.
    pub fn any_used(&self, ids: &[u64]) -> bool
        ensures { (uuids : List ℕ) → IdsStand self.now uuids → result ≡ any_used uuids ids.now }
    {
        let mut rest = ids;
        while let Some((id, later)) = rest.split_first() {
            if self.has(*id) || later.contains(id) {
                return true;
            }
            rest = later;
        }
        false
    }

    /// Gives an id.
    pub fn give(&mut self, id: u64) -> Alloc<()>
        ensures { OnOk result ((other : ℕ) → has_id self.new other ≡ (has_id self.old other || id == other)) }
    {
        self.set.insert(id)?;
        Ok(())
    }

    /// Gives the id of a branch, where a line tells of one.
    fn give_told(&mut self, event: &Event) -> Alloc<()>
        ensures { OnOk result ((uuids : List ℕ) → IdsStand self.old uuids → IdsStand self.new (uuids ++ branch_of_line event.now)) }
    {
        if let Event::Branch { uuid, .. } = event {
            self.give(*uuid)?;
        }
        Ok(())
    }

    /// Gives the ids of the branches that lines tell of.
    pub fn give_all(&mut self, events: &[Event]) -> Alloc<()>
        ensures { OnOk result ((uuids : List ℕ) → IdsStand self.old uuids → IdsStand self.new (uuids ++ flat_map branch_of_line events.now)) }
    {
        for event in events {
            self.give_told(event)?;
        }
        Ok(())
    }
}
