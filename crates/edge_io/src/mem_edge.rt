//! An edge in memory.
ghost use Rattle.std.specs.Prelude.{◌≡◌, [], ◌∷◌, IfOk};
ghost use Rattle.edge_io.specs.Openings.{IfOpened, IsOpened};
ghost use Rattle.edge_io.specs.Edges.{AsksStop, MemOpens, MemStops, Opens, Passes, faults_of, mem_host, one_more};

use crate::counts::raise;
use crate::{Edge, EdgeCall, Host, MemLink, MemListener, NoBell, Opened};
use dcp_io::{MemSink, MemSource};
use std::alloc::{AllocError, Global};
use std::marker::Model;
use vb_disk::{Disk, MemDisk};

/// Counts of calls, by their kinds.
#[derive(Drop)]
struct Counts {
    disks: u64,
    ears: u64,
    dials: u64,
}

impl Model for Counts {
    ghost use Rattle.edge_io.specs.Edges.{EdgeFaults};

    ghost Value = { EdgeFaults };

    ghost view = { λ c. record { disks = c.disks; ears = c.ears; dials = c.dials } };
}

impl Counts {
    /// None of any kind.
    fn new() -> Counts
        ensures { result ≡ record { disks = 0; ears = 0; dials = 0 } }
    {
        Counts {
            disks: 0,
            ears: 0,
            dials: 0,
        }
    }

    fn of(&self, call: EdgeCall) -> u64
        ensures { result ≡ faults_of call self.now }
    {
        match call {
            EdgeCall::OpenDisk => self.disks,
            EdgeCall::Listen => self.ears,
            EdgeCall::Dial => self.dials,
        }
    }

    /// One more of that kind.
    fn add(&mut self, call: EdgeCall)
        ensures { self.new ≡ one_more call self.old }
    {
        match call {
            EdgeCall::OpenDisk => self.disks = raise(self.disks, 1),
            EdgeCall::Listen => self.ears = raise(self.ears, 1),
            EdgeCall::Dial => self.dials = raise(self.dials, 1),
        }
    }
}

/// Its disks are new disks in memory, its ears have no link, and its links no byte. Its clock stands
/// at 0. The calls fail whose kind and number are listed, numbered from 1 on among those of a kind.
#[derive(Drop)]
pub struct MemEdge {
    alloc: Global,
    words: Vec<u64>,
    /// How many words were drawn.
    drawn: usize,
    turns: u64,
    stops: u64,
    calls: Counts,
    fail: Vec<(EdgeCall, u64)>,
    faults: Counts,
}

impl Model for MemEdge {
    ghost use Rattle.std.specs.Prelude.{drop};
    ghost use Rattle.edge_io.specs.Edges.{MemEdgeState};

    ghost Value = { MemEdgeState };

    ghost view = { λ e. record { words = drop e.drawn e.words.items; turns = e.turns; stops = e.stops; calls = e.calls; fail = e.fail.items; faults = e.faults } };
}

impl MemEdge {
    /// An edge with these random words, and zeros behind them, that goes on for so many turns. An
    /// error is want of memory.
    pub fn new(
        alloc: Global,
        words: &[u64],
        turns: u64,
        fail: &[(EdgeCall, u64)],
    ) -> Result<MemEdge, AllocError>
        ensures { IfOk result (λ e. e ≡ record {
          words = words.now;
          turns = turns;
          stops = 0;
          calls = record { disks = 0; ears = 0; dials = 0 };
          fail = fail.now;
          faults = record { disks = 0; ears = 0; dials = 0 };
        }) }
    {
        Ok(MemEdge {
            alloc,
            words: words.to_vec(alloc)?,
            drawn: 0,
            turns,
            stops: 0,
            calls: Counts::new(),
            fail: fail.to_vec(alloc)?,
            faults: Counts::new(),
        })
    }

    /// Counts a call of that kind: whether it goes on. One that is listed does not, and is counted
    /// as a fault.
    fn goes_on(&mut self, call: EdgeCall) -> bool
        ensures { Passes call self.old self.new result }
    {
        self.calls.add(call);
        let number = self.calls.of(call);
        if self.fail.contains(&(call, number)) {
            self.faults.add(call);
            return false;
        }
        true
    }

    /// A link without a byte.
    fn empty_link(&self) -> Result<MemLink, AllocError>
        ensures { IfOk result (λ link. (link.source.left ≡ []) × (link.sink.held ≡ [])) }
    {
        let source = MemSource::new(self.alloc, &[], &[])?;
        let sink = MemSink::new(self.alloc, &[])?;
        Ok(MemLink::new(source, sink))
    }
}

/// What was opened, or that memory was short.
fn opened<T>(made: Result<T, AllocError>) -> Opened<T>
    ensures { IsOpened made result }
{
    match made {
        Ok(thing) => Opened::Is(thing),
        Err(_) => Opened::NoMemory,
    }
}

impl Host for MemEdge {
    ghost host = { mem_host };

    fn clock(&mut self) -> u64 {
        0
    }

    fn random(&mut self) -> u64 {
        match self.words.get(self.drawn) {
            None => 0,
            Some(word) => {
                self.drawn += 1;
                *word
            }
        }
    }

    fn stopped(&mut self) -> bool
        ensures counted { AsksStop (mem_host self.old) (mem_host self.new) result }
        ensures exact { MemStops self.old self.new result }
    {
        if self.turns > 0 {
            self.turns -= 1;
            return false;
        }
        self.stops = raise(self.stops, 1);
        true
    }

    fn stops(&self) -> u64 {
        self.stops
    }
}

impl Edge for MemEdge {
    type Disk = MemDisk;

    type Link = MemLink;

    type Ear = MemListener<MemLink>;

    type Bell = NoBell;

    ghost failed = { λ e. e.faults };

    fn disk(&mut self, _v: u16) -> Opened<MemDisk>
        ensures counted { Opens EdgeCall.OpenDisk self.old.faults self.new.faults result }
        ensures host { mem_host self.new ≡ mem_host self.old }
        ensures exact { MemOpens EdgeCall.OpenDisk self.old self.new result }
        ensures new { IfOpened result (λ disk. disk ≡ record { bytes = 0 ∷ []; ready = []; past = [] }) }
    {
        if !self.goes_on(EdgeCall::OpenDisk) {
            return Opened::Failed;
        }
        opened(MemDisk::new(self.alloc))
    }

    fn listen(&mut self, _port: u16) -> Opened<MemListener<MemLink>>
        ensures counted { Opens EdgeCall.Listen self.old.faults self.new.faults result }
        ensures host { mem_host self.new ≡ mem_host self.old }
        ensures exact { MemOpens EdgeCall.Listen self.old self.new result }
        ensures new { IfOpened result (λ ear. ear ≡ record { coming = []; calls = 0; fail = []; faults = 0 }) }
    {
        if !self.goes_on(EdgeCall::Listen) {
            return Opened::Failed;
        }
        opened(MemListener::new(self.alloc, Vec::new(self.alloc), &[]))
    }

    fn dial(&mut self, _port: u16) -> Opened<MemLink>
        ensures counted { Opens EdgeCall.Dial self.old.faults self.new.faults result }
        ensures host { mem_host self.new ≡ mem_host self.old }
        ensures exact { MemOpens EdgeCall.Dial self.old self.new result }
        ensures new { IfOpened result (λ link. (link.source.left ≡ []) × (link.sink.held ≡ [])) }
    {
        if !self.goes_on(EdgeCall::Dial) {
            return Opened::Failed;
        }
        opened(self.empty_link())
    }

    fn disk_back(&mut self, disk: MemDisk) {
        if disk.faults() > 0 {
            self.faults.add(EdgeCall::OpenDisk);
        }
    }

    fn ear_back(&mut self, ear: MemListener<MemLink>) {
        if crate::Listener::faults(&ear) > 0 {
            self.faults.add(EdgeCall::Listen);
        }
    }

    fn bell(&mut self) -> NoBell {
        NoBell
    }

    fn faults(&self, of: EdgeCall) -> u64 {
        self.faults.of(of)
    }
}
