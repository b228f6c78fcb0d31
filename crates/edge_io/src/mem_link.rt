//! A link in memory.
ghost use Rattle.std.specs.Prelude.{◌≡◌, ◌<◌, Some, true, length};
ghost use Rattle.dcp_io.specs.{Memory.{MemPuts, MemTakes, mem_intake, mem_outlet}, Moves.{Puts, Takes}};

use crate::{Bell, Link, Opened};
use dcp_io::{MemSink, MemSource, Put, Sink, Source, Took};
use std::marker::Model;

/// A bell that nobody hears.
#[derive(Clone, Copy)]
pub struct NoBell;

impl Bell for NoBell {
    fn ring(&self) {}
}

/// A link whose bytes come from a source in memory, and go to a sink there. Nothing waits at it.
#[derive(Drop)]
pub struct MemLink {
    source: MemSource,
    sink: MemSink,
}

impl Model for MemLink {
    ghost use Rattle.edge_io.specs.Links.{MemLinkState};

    ghost Value = { MemLinkState };

    ghost view = { λ l. record { source = l.source; sink = l.sink } };
}

impl MemLink {
    /// A link of these two.
    pub fn new(source: MemSource, sink: MemSink) -> MemLink
        ensures { result ≡ record { source = source; sink = sink } }
    {
        MemLink { source, sink }
    }

    /// The bytes that were put.
    pub fn bytes(&self) -> &[u8]
        ensures { result.now ≡ self.now.sink.held }
    {
        self.sink.bytes()
    }
}

impl Source for MemLink {
    ghost intake = { λ l. mem_intake l.source };

    /// As a take of its source.
    fn take(&mut self, room: &mut [u8]) -> Took
        requires { 0 < length room.old }
        ensures moved { Takes (mem_intake self.old.source) (mem_intake self.new.source) room.new result }
        ensures exact { MemTakes self.old.source self.new.source room.new result }
        ensures sink { self.new.sink ≡ self.old.sink }
    {
        self.source.take(room)
    }

    fn faults(&self) -> u64 {
        self.source.faults()
    }
}

impl Sink for MemLink {
    ghost outlet = { λ l. mem_outlet l.sink };

    /// As a put to its sink.
    fn put(&mut self, bytes: &[u8]) -> Put
        ensures moved { Puts (mem_outlet self.old.sink) (mem_outlet self.new.sink) bytes.now result }
        ensures exact { MemPuts self.old.sink self.new.sink bytes.now result }
        ensures source { self.new.source ≡ self.old.source }
    {
        self.sink.put(bytes)
    }

    fn faults(&self) -> u64 {
        self.sink.faults()
    }
}

impl Link for MemLink {
    type Bell = NoBell;

    ghost gives = { λ l. Some true };

    fn bell(&mut self) -> Opened<NoBell> {
        Opened::Is(NoBell)
    }

    fn wait(&mut self) {}

    fn ready(&mut self) -> bool {
        true
    }
}
