//! A source in memory, whose faults are chosen beforehand.
ghost use Rattle.std.specs.Prelude.{◌≡◌, ◌<◌, length, IfOk};
ghost use Rattle.{dcp_io.specs.Memory.{MemTakes, mem_intake}, dcp_io.specs.Moves.{Takes}};

use crate::counts::raise;
use crate::memory::copy_front;
use crate::{Source, Took};
use std::alloc::{AllocError, Global};

/// The bytes of a list, in memory. The calls of `take` whose numbers are listed fail: the first
/// call is number 1, and the number stands still at `u64::MAX`.
#[derive(Drop)]
pub struct MemSource {
    bytes: Vec<u8>,
    at: usize,
    calls: u64,
    taken: u64,
    fail: Vec<u64>,
    faults: u64,
}

impl std::marker::Model for MemSource {
    ghost use Rattle.std.specs.Prelude.{drop};
    ghost use Rattle.dcp_io.specs.Memory.{MemIntake};

    ghost Value = { MemIntake };

    ghost view = { λ s. record { left = drop s.at s.bytes.items; calls = s.calls; taken = s.taken; fail = s.fail.items; faults = s.faults } };
}

impl MemSource {
    /// A source of these bytes, whose calls with these numbers fail. An error is want of memory.
    pub fn new(alloc: Global, bytes: &[u8], fail: &[u64]) -> Result<MemSource, AllocError>
        ensures { IfOk result (λ s. s ≡ record { left = bytes.now; calls = 0; taken = 0; fail = fail.now; faults = 0 }) }
    {
        Ok(MemSource {
            bytes: bytes.to_vec(alloc)?,
            at: 0,
            calls: 0,
            taken: 0,
            fail: fail.to_vec(alloc)?,
            faults: 0,
        })
    }
}

impl Source for MemSource {
    ghost intake = { mem_intake };

    /// Takes what fits, but fails where this call is listed.
    fn take(&mut self, room: &mut [u8]) -> Took
        requires { 0 < length room.old }
        ensures moved { Takes (mem_intake self.old) (mem_intake self.new) room.new result }
        ensures exact { MemTakes self.old self.new room.new result }
    {
        self.calls = raise(self.calls, 1);
        if self.fail.contains(&self.calls) {
            self.faults = raise(self.faults, 1);
            return Took::Failed;
        }
        if self.at >= self.bytes.len() {
            return Took::End;
        }
        let count = copy_front(&self.bytes[self.at..], room);
        self.at += count;
        self.taken = raise(self.taken, count as u64);
        Took::Bytes(count)
    }

    fn faults(&self) -> u64 {
        self.faults
    }
}
