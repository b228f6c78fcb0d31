//! A sink in memory, whose faults are chosen beforehand.
ghost use Rattle.std.specs.Prelude.{◌≡◌, [], IfOk};
ghost use Rattle.{dcp_io.specs.Memory.{MemPuts, mem_outlet}, dcp_io.specs.Moves.{Puts}};

use crate::counts::raise;
use crate::{Put, Sink};
use std::alloc::{AllocError, Global};

/// The bytes that were put, in memory. The calls of `put` whose numbers are listed fail: the first
/// call is number 1, and the number stands still at `u64::MAX`.
#[derive(Drop)]
pub struct MemSink {
    bytes: Vec<u8>,
    calls: u64,
    fail: Vec<u64>,
    faults: u64,
}

impl std::marker::Model for MemSink {
    ghost use Rattle.dcp_io.specs.Memory.{MemOutlet};

    ghost Value = { MemOutlet };

    ghost view = { λ s. record { held = s.bytes.items; calls = s.calls; fail = s.fail.items; faults = s.faults } };
}

impl MemSink {
    /// A sink that holds nothing yet, whose calls with these numbers fail. An error is want of
    /// memory.
    pub fn new(alloc: Global, fail: &[u64]) -> Result<MemSink, AllocError>
        ensures { IfOk result (λ s. s ≡ record { held = []; calls = 0; fail = fail.now; faults = 0 }) }
    {
        Ok(MemSink {
            bytes: Vec::new(alloc),
            calls: 0,
            fail: fail.to_vec(alloc)?,
            faults: 0,
        })
    }

    /// The bytes that it holds.
    pub fn bytes(&self) -> &[u8]
        ensures { result.now ≡ self.now.held }
    {
        &self.bytes
    }
}

impl Sink for MemSink {
    ghost outlet = { mem_outlet };

    /// Appends the bytes, but fails where this call is listed, and then appends nothing.
    fn put(&mut self, bytes: &[u8]) -> Put
        ensures moved { Puts (mem_outlet self.old) (mem_outlet self.new) bytes.now result }
        ensures exact { MemPuts self.old self.new bytes.now result }
    {
        self.calls = raise(self.calls, 1);
        if self.fail.contains(&self.calls) {
            self.faults = raise(self.faults, 1);
            return Put::Failed;
        }
        match self.bytes.extend_from_slice(bytes) {
            Ok(()) => Put::Done,
            Err(_) => Put::NoMemory,
        }
    }

    fn faults(&self) -> u64 {
        self.faults
    }
}
