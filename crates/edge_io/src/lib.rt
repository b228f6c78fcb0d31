//! What a server reaches the world by: links that can be waited at, ears that links come to, a host,
//! what starts jobs, and the edge that opens all of these. There is a form of each in memory.
#![tactic(auto)]

ghost use Rattle.std.specs.Prelude.{◌≡◌, ℕ, Bool, Option, List, IfSome};
ghost use Rattle.dcp_io.specs.Moves.{Intake, Outlet};
ghost use Rattle.edge_io.specs.Openings.{CountsFault, IfOpened};
ghost use Rattle.edge_io.specs.{Links.{GivesBell}, Ears.{Accepts}, Jobs.{Tally, Starts}};
ghost use Rattle.edge_io.specs.Edges.{Hosted, Draws, AsksStop, EdgeFaults, Opens, TakesBack, faults_of};

mod counts;
mod laws;
mod mem_edge;
mod mem_link;
mod mem_listener;
mod mem_spawner;

use dcp_io::{Sink, Source};
pub use laws::kinds_in_numbers;
pub use mem_edge::MemEdge;
pub use mem_link::{MemLink, NoBell};
pub use mem_listener::MemListener;
pub use mem_spawner::MemSpawner;
use vb_disk::Disk;

/// What became of a call that opens something.
#[derive(Drop)]
pub enum Opened<T> {
    /// This was opened.
    Is(T),
    /// Nothing, for want of memory.
    NoMemory,
    /// Nothing, since the call failed.
    Failed,
}

/// What wakes somebody who waits.
pub trait Bell {
    /// Any thread may ring, at any time. Whoever waits goes on, and who does not wait now does not wait
    /// the next time. No contract says so.
    fn ring(&self);
}

/// A connection: bytes come from it and go to it, and who has nothing to do can wait at it.
pub trait Link: Source + Sink {
    /// What wakes the one that waits at it.
    type Bell: Bell + Send + Drop + 'static;

    /// Whether a take would give bytes, the end or a failure at once, where it tells that.
    ghost gives: { Self → Option Bool };

    /// A bell that wakes the one that waits here.
    fn bell(&mut self) -> Opened<Self::Bell>
        ensures source { GivesBell (Self.intake self.old) (Self.intake self.new) result }
        ensures sink { Self.outlet self.new ≡ Self.outlet self.old };

    /// Waits until a take would give something, or a bell rang since the last wait. It takes nothing.
    fn wait(&mut self)
        ensures source { Self.intake self.new ≡ Self.intake self.old }
        ensures sink { Self.outlet self.new ≡ Self.outlet self.old };

    /// Whether a take would give something at once, without waiting.
    fn ready(&mut self) -> bool
        ensures told { IfSome (gives self.old) (λ now. result ≡ now) }
        ensures source { Self.intake self.new ≡ Self.intake self.old }
        ensures sink { Self.outlet self.new ≡ Self.outlet self.old };
}

/// Where links come to.
pub trait Listener<L> {
    /// The links that are to come, in their order, where it tells them.
    ghost coming: { Self → Option (List L) };

    /// How often an accept has failed.
    ghost failed: { Self → ℕ };

    /// Waits for a link, and gives it.
    fn accept(&mut self) -> Opened<L>
        ensures given { Accepts (coming self.old) (coming self.new) result }
        ensures counted { CountsFault (failed self.old) (failed self.new) result };

    /// How often an accept has failed. The count stands still at `u64::MAX`.
    fn faults(&self) -> u64
        ensures { result ≡ failed self.now };
}

/// Whether a job was started.
#[derive(Clone, Copy, Debug, PartialEq, Eq)]
pub enum Started {
    /// It runs, or ran.
    Yes,
    /// It was not run, and is gone.
    No,
}

/// What runs jobs beside its caller.
pub trait Spawner<J> {
    /// How many jobs were started, and how many were not.
    ghost tally: { Self → Tally };

    /// Runs the job beside the caller.
    fn start(&mut self, job: J) -> Started
        ensures { Starts (tally self.old) (tally self.new) result };

    /// How many jobs were started. The count stands still at `u64::MAX`, as that of faults.
    fn started(&self) -> u64
        ensures { result ≡ (tally self.now).started };

    /// How many jobs were not started.
    fn faults(&self) -> u64
        ensures { result ≡ (tally self.now).faults };
}

/// What a process is told by its host.
pub trait Host {
    /// Its random words, and how often it said that it is to stop.
    ghost host: { Self → Hosted };

    /// What the clock shows, in nanoseconds. It never falls, which no clause says.
    fn clock(&mut self) -> u64
        ensures { host self.new ≡ host self.old };

    /// A random word.
    fn random(&mut self) -> u64
        ensures { Draws (host self.old) (host self.new) result };

    /// Waits until it is known whether to stop or to go on for a turn. Each yes is counted.
    fn stopped(&mut self) -> bool
        ensures { AsksStop (host self.old) (host self.new) result };

    /// How often it said that it is to stop. The count stands still at `u64::MAX`.
    fn stops(&self) -> u64
        ensures { result ≡ (host self.now).stops };
}

/// The calls of an edge that can fail.
#[derive(Clone, Copy, Debug, PartialEq, Eq)]
pub enum EdgeCall {
    OpenDisk,
    Listen,
    Dial,
}

/// Where disks, ears and links are opened. One thread has it.
pub trait Edge: Host {
    type Disk: Disk + Send + Drop + 'static;

    type Link: Link + Send + Drop + 'static;

    type Ear: Listener<Self::Link> + Send + Drop + 'static;

    type Bell: Bell + Send + Drop + 'static;

    /// How often a call of each kind has failed.
    ghost failed: { Self → EdgeFaults };

    /// The disk of the vBucket of that number, of which nothing failed yet.
    fn disk(&mut self, v: u16) -> Opened<Self::Disk>
        ensures counted { Opens EdgeCall.OpenDisk (failed self.old) (failed self.new) result }
        ensures host { Self.host self.new ≡ Self.host self.old }
        ensures sound { IfOpened result (λ disk. (Self.Disk.storage disk).failures ≡ 0) };

    /// An ear at that port, of which nothing failed yet.
    fn listen(&mut self, port: u16) -> Opened<Self::Ear>
        ensures counted { Opens EdgeCall.Listen (failed self.old) (failed self.new) result }
        ensures host { Self.host self.new ≡ Self.host self.old }
        ensures sound { IfOpened result (λ ear. Self.Ear.failed ear ≡ 0) };

    /// A link to that port.
    fn dial(&mut self, port: u16) -> Opened<Self::Link>
        ensures counted { Opens EdgeCall.Dial (failed self.old) (failed self.new) result }
        ensures host { Self.host self.new ≡ Self.host self.old };

    /// Gives a disk back. One that failed counts as one that was not opened.
    fn disk_back(&mut self, disk: Self::Disk)
        ensures counted { TakesBack EdgeCall.OpenDisk (Self.Disk.storage disk).failures (failed self.old) (failed self.new) }
        ensures host { Self.host self.new ≡ Self.host self.old };

    /// Gives an ear back. One that failed counts as one that did not listen.
    fn ear_back(&mut self, ear: Self::Ear)
        ensures counted { TakesBack EdgeCall.Listen (Self.Ear.failed ear) (failed self.old) (failed self.new) }
        ensures host { Self.host self.new ≡ Self.host self.old };

    /// A bell that wakes the one that waits in `stopped`.
    fn bell(&mut self) -> Self::Bell
        ensures counted { failed self.new ≡ failed self.old }
        ensures host { Self.host self.new ≡ Self.host self.old };

    /// How often calls of that kind have failed. Each count stands still at `u64::MAX`.
    fn faults(&self, of: EdgeCall) -> u64
        ensures { result ≡ faults_of of (failed self.now) };
}
