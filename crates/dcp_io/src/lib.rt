//! What a program reads its input from and writes its output to: sources and sinks that count
//! their faults. There are sources and sinks in memory, and over std's readers and writers. And how
//! a program reads an input to its end, writes a text, and ends.
#![tactic(auto)]

ghost use Rattle.std.specs.Prelude.{◌≡◌, ◌<◌, length};
ghost use Rattle.dcp_io.specs.Moves.{Intake, Outlet, Takes, Puts};

mod adapters;
mod counts;
mod input;
mod laws;
mod mem_sink;
mod mem_source;
mod memory;
mod output;
mod status;

pub use adapters::{Reading, Writing};
pub use input::read_all;
pub use laws::{bad_lines_in_letters, chosen_calls_fail, counts_in_numbers, statuses_in_numbers};
pub use mem_sink::MemSink;
pub use mem_source::MemSource;
pub use memory::{SliceSource, VecSink};
pub use output::{put_bad_line, put_text};
pub use status::{Status, exit_of};

/// What a take gave.
#[derive(Clone, Copy)]
pub enum Took {
    /// So many bytes, one or more, at the front of the room.
    Bytes(usize),
    /// Nothing, since nothing is left.
    End,
    /// Nothing, since the read failed.
    Failed,
}

/// What became of the bytes of a put.
#[derive(Clone, Copy)]
pub enum Put {
    /// All were written.
    Done,
    /// None were written, for want of memory.
    NoMemory,
    /// A front part of them was written, perhaps none, before a write failed.
    Failed,
}

/// Where bytes come from.
pub trait Source {
    /// What is left, and what has been taken so far.
    ghost intake: { Self → Intake };

    /// Takes the next bytes into the front of `room`, which must not be empty. A take that fails
    /// takes nothing, and adds one to the count of faults.
    fn take(&mut self, room: &mut [u8]) -> Took
        requires { 0 < length room.old }
        ensures moved { Takes (intake self.old) (intake self.new) room.new result };

    /// How often a take has failed. The count stands still at `u64::MAX`.
    fn faults(&self) -> u64
        ensures { result ≡ (intake self.now).faults };
}

/// Where bytes go to.
pub trait Sink {
    /// What has been written so far.
    ghost outlet: { Self → Outlet };

    /// Writes all of `bytes` behind what it holds. A put that fails may have written a front part
    /// of them, and adds one to the count of faults.
    fn put(&mut self, bytes: &[u8]) -> Put
        ensures moved { Puts (outlet self.old) (outlet self.new) bytes.now result };

    /// How often a put has failed. The count stands still at `u64::MAX`.
    fn faults(&self) -> u64
        ensures { result ≡ (outlet self.now).faults };
}
