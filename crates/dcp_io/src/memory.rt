//! A source and a sink in memory, which never fail.
ghost use Rattle.std.specs.Prelude.{◌≡◌, ◌≢◌, ◌<◌, [], List, ℕ, min, length, take};
ghost use Rattle.{dcp_io.specs.Memory.{SliceTakes, slice_intake, vec_outlet}, dcp_io.specs.Moves.{Takes, Puts}};

use crate::counts::raise;
use crate::{Put, Sink, Source, Took};
use std::alloc::Global;
use std::marker::Model;

/// The bytes of a slice.
#[derive(Drop)]
pub struct SliceSource<'a> {
    left: &'a [u8],
    taken: u64,
    turns: u64,
}

impl<'a> Model for SliceSource<'a> {
    ghost use Rattle.dcp_io.specs.Memory.{SliceIntake};

    ghost Value = { SliceIntake };

    ghost view = { λ s. record { left = s.left.now; taken = s.taken; turns = s.turns } };
}

impl<'a> SliceSource<'a> {
    /// A source of these bytes.
    pub fn new(bytes: &'a [u8]) -> SliceSource<'a>
        ensures { result ≡ record { left = bytes.now; taken = 0; turns = 0 } }
    {
        SliceSource {
            left: bytes,
            taken: 0,
            turns: 0,
        }
    }
}

// Copies the front of `from` into the front of `room`, as much as fits.
pub fn copy_front(from: &[u8], room: &mut [u8]) -> usize
    ensures count { result ≡ min (length from.now) (length room.old) }
    ensures copied { take result room.new ≡ take result from.now }
{
    let count = from.len().min(room.len());
    room[..count].copy_from_slice(&from[..count]);
    count
}

impl<'a> Source for SliceSource<'a> {
    ghost intake = { slice_intake };

    /// Takes what fits. It never fails.
    fn take(&mut self, room: &mut [u8]) -> Took
        requires { 0 < length room.old }
        ensures moved { Takes (slice_intake self.old) (slice_intake self.new) room.new result }
        ensures exact { SliceTakes self.old self.new room.new result }
    {
        self.turns = raise(self.turns, 1);
        if self.left.is_empty() {
            return Took::End;
        }
        let count = copy_front(self.left, room);
        self.left = &self.left[count..];
        self.taken = raise(self.taken, count as u64);
        Took::Bytes(count)
    }

    fn faults(&self) -> u64 {
        0
    }
}

/// The bytes that were put, in memory.
#[derive(Drop)]
pub struct VecSink {
    bytes: Vec<u8>,
}

impl Model for VecSink {
    ghost use Rattle.std.specs.Prelude.{List, ℕ};

    ghost Value = { List ℕ };

    ghost view = { λ s. s.bytes.items };
}

impl VecSink {
    /// A sink that holds nothing yet.
    pub fn new(alloc: Global) -> VecSink
        ensures { result ≡ [] }
    {
        VecSink {
            bytes: Vec::new(alloc),
        }
    }

    /// The bytes that it holds.
    pub fn bytes(&self) -> &[u8]
        ensures { result.now ≡ self.now }
    {
        &self.bytes
    }
}

impl Sink for VecSink {
    ghost outlet = { vec_outlet };

    /// Appends the bytes. It never fails, but memory may be short.
    fn put(&mut self, bytes: &[u8]) -> Put
        ensures moved { Puts (vec_outlet self.old) (vec_outlet self.new) bytes.now result }
        ensures sure { result ≢ Put.Failed }
    {
        match self.bytes.extend_from_slice(bytes) {
            Ok(()) => Put::Done,
            Err(_) => Put::NoMemory,
        }
    }

    fn faults(&self) -> u64 {
        0
    }
}
