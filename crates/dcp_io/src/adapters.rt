//! A source over a reader and a sink over a writer, as std has them.
ghost use Rattle.std.specs.Prelude.{◌≡◌, take, false};
ghost use Rattle.std.specs.Io.KnownBytes.{Appends};

use crate::counts::raise;
use crate::{Put, Sink, Source, Took};
use std::io::{Read, Write};
use std::marker::Model;

/// A source over a reader. Each take is one read, and each error of the reader is a fault, also
/// one of the kind `Interrupted`: nothing is tried again here.
#[derive(Drop)]
pub struct Reading<R: Read> {
    inner: R,
    taken: u64,
    turns: u64,
    faults: u64,
}

impl<R: Read> Model for Reading<R> {
    ghost use Rattle.dcp_io.specs.Moves.{Intake};

    ghost Value = { Intake };

    ghost view = { λ s. record { left = R.remaining s.inner; taken = s.taken; turns = s.turns; faults = s.faults } };
}

impl<R: Read> Reading<R> {
    /// A source of what the reader has left. Its counts begin at 0.
    pub fn new(inner: R) -> Reading<R>
        ensures { result ≡ record { left = R.remaining inner; taken = 0; turns = 0; faults = 0 } }
    {
        Reading {
            inner,
            taken: 0,
            turns: 0,
            faults: 0,
        }
    }
}

impl<R: Read> Source for Reading<R> {
    ghost intake = { λ s. s };

    fn take(&mut self, room: &mut [u8]) -> Took {
        self.turns = raise(self.turns, 1);
        match self.inner.read(room) {
            Ok(0) => Took::End,
            Ok(count) => {
                self.taken = raise(self.taken, count as u64);
                Took::Bytes(count)
            }
            Err(_) => {
                self.faults = raise(self.faults, 1);
                Took::Failed
            }
        }
    }

    fn faults(&self) -> u64 {
        self.faults
    }
}

/// A sink over a writer. A put writes until all is written, so it ends after one write a byte at
/// most. Each error of the writer is a fault, also one of the kind `Interrupted`, and so is a
/// write that takes nothing.
#[derive(Drop)]
pub struct Writing<W: Write> {
    inner: W,
    faults: u64,
}

impl<W: Write> Model for Writing<W> {
    ghost use Rattle.std.specs.Prelude.{false};
    ghost use Rattle.dcp_io.specs.Moves.{Outlet};

    ghost Value = { Outlet };

    ghost view = { λ s. record { held = W.contents s.inner; faults = s.faults; in_memory = false } };
}

impl<W: Write> Writing<W> {
    /// A sink behind what the writer holds. Its count begins at 0.
    pub fn new(inner: W) -> Writing<W>
        ensures { result ≡ record { held = W.contents inner; faults = 0; in_memory = false } }
    {
        Writing { inner, faults: 0 }
    }
}

// Writes until all is written, or to the first fault: gives how many bytes were written.
fn write_front<W: Write>(to: &mut W, bytes: &[u8]) -> usize
    ensures { Appends (W.contents to.old) (W.contents to.new) (take result bytes.now) }
{
    let mut count = 0;
    while count < bytes.len() {
        match to.write(&bytes[count..]) {
            Ok(0) | Err(_) => return count,
            Ok(more) => count += more,
        }
    }
    count
}

impl<W: Write> Sink for Writing<W> {
    ghost outlet = { λ s. s };

    fn put(&mut self, bytes: &[u8]) -> Put {
        let written = write_front(&mut self.inner, bytes);
        if written == bytes.len() {
            return Put::Done;
        }
        self.faults = raise(self.faults, 1);
        Put::Failed
    }

    fn faults(&self) -> u64 {
        self.faults
    }
}
