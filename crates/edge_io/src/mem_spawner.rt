//! A spawner in memory.
ghost use Rattle.std.specs.Prelude.{◌≡◌, IfOk};
ghost use Rattle.edge_io.specs.Jobs.{MemStarts, Starts, tally_of};

use crate::counts::raise;
use crate::{Spawner, Started};
use std::alloc::{AllocError, Global};
use std::marker::Model;

/// Says of each job that it was started, and lets it go. The calls of `start` whose numbers are
/// listed fail, from 1 on.
#[derive(Drop)]
pub struct MemSpawner {
    calls: u64,
    fail: Vec<u64>,
    started: u64,
    faults: u64,
}

impl Model for MemSpawner {
    ghost use Rattle.edge_io.specs.Jobs.{MemTally};

    ghost Value = { MemTally };

    ghost view = { λ s. record { calls = s.calls; fail = s.fail.items; started = s.started; faults = s.faults } };
}

impl MemSpawner {
    /// An error is want of memory.
    pub fn new(alloc: Global, fail: &[u64]) -> Result<MemSpawner, AllocError>
        ensures { IfOk result (λ s. s ≡ record { calls = 0; fail = fail.now; started = 0; faults = 0 }) }
    {
        Ok(MemSpawner {
            calls: 0,
            fail: fail.to_vec(alloc)?,
            started: 0,
            faults: 0,
        })
    }
}

impl<J: Drop> Spawner<J> for MemSpawner {
    ghost tally = { tally_of };

    fn start(&mut self, _job: J) -> Started
        ensures counted { Starts (tally_of self.old) (tally_of self.new) result }
        ensures exact { MemStarts self.old self.new result }
    {
        self.calls = raise(self.calls, 1);
        if self.fail.contains(&self.calls) {
            self.faults = raise(self.faults, 1);
            return Started::No;
        }
        self.started = raise(self.started, 1);
        Started::Yes
    }

    fn started(&self) -> u64 {
        self.started
    }

    fn faults(&self) -> u64 {
        self.faults
    }
}
