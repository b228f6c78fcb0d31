//! The connections that a node keeps.
ghost use Rattle.std.specs.Prelude.{◌≡◌, ◌<◌, ℕ, true, IfOk, OnErr, None, Some};
ghost use Rattle.{std.specs.Option.{option_map}, node_core.specs.Outcomes.{new_conn, is_spent, LeftOf, conn_ended, conn_awaits, kept_unless, ConnFed, ConnHeard, ConnStopped, ConnPosted, ConnUnposted, ConnAnswered, ConnUnanswered, ConnPulled, ConnHalted, ConnShut, producer_in}};
ghost use Rattle.{dcp_producer.specs.Dropping.{cursor_dropped}, vb_calls.specs.Programs.{Ran}};
ghost use Rattle.{node_core.specs.GivingUp.{ConnGaveUp, ConnUngiven, gave_of}, slab.specs.Slab.{get, HasRoomFor, Updates}};

use crate::giving::Gave;
use crate::{Alloc, Client, NodeOut, Peer};
use client_session::Who;
use dcp_producer::Desk;
use mcbp_frame::Frame;
use slab::Slab;
use std::alloc::Global;
use vb_calls::{Journals, Resolved, VbAccess};
use vb_events::{Cause, StreamName};

/// A connection: a client's, or a peer's. Streams may feed either.
#[derive(Drop)]
pub enum Conn {
    Client(Client),
    Peer(Peer),
}

/// What a connection is opened for.
#[derive(Clone, Copy)]
pub enum ConnKind {
    /// The client of this number; and the number, of no other connection of a run, by which its waits
    /// for durable writes and its streams are numbered.
    Client { client: u32, base: u32 },
    /// A peer: its name in the transcript; and the number, of no other connection of a run, by which
    /// its streams are numbered.
    Peer { stream: StreamName, base: u32 },
}

impl Conn {
    /// A new connection of a node.
    pub fn open(alloc: Global, node: u8, kind: ConnKind) -> Alloc<Conn>
        ensures { IfOk result (λ conn. conn ≡ new_conn node kind) }
    {
        match kind {
            ConnKind::Client { client, base } => {
                let who = Who { node, client, base };
                Ok(Conn::Client(Client::new(alloc, who)?))
            }
            ConnKind::Peer { stream, base } => {
                let desk = Desk { stream, node, base };
                Ok(Conn::Peer(Peer::new(alloc, desk)?))
            }
        }
    }

    /// Takes the next bytes from its client, while the clock shows `clock` nanoseconds. A peer's
    /// refuses them.
    #[tactic(auto, using(vb_calls::proofs::Runs::began_none))]
    pub fn feed<A: VbAccess>(
        &mut self,
        alloc: Global,
        vbs: &mut A,
        clock: u64,
        piece: &[u8],
    ) -> Alloc<NodeOut>
        ensures ok { IfOk result (λ out. ConnFed A.step clock piece.now self.old vbs.old out self.new vbs.new) }
        ensures err { OnErr result (ConnStopped A.step clock piece.now self.old vbs.old vbs.new) }
        ensures spent { OnErr result (is_spent self.new ≡ true) }
        ensures left { OnErr result (LeftOf self.old self.new) }
    {
        match self {
            Conn::Client(client) => client.feed(vbs, clock, piece),
            Conn::Peer(_) => Ok(NodeOut::refused(alloc, Cause::LinkClosed)),
        }
    }

    /// Whether it is a client's that awaits the outcome of the durable write of this waiter.
    pub fn awaits(&self, waiter: u64) -> bool
        ensures { result ≡ conn_awaits waiter (Some self.now) }
    {
        match self {
            Conn::Client(client) => client.awaits(waiter),
            Conn::Peer(_) => false,
        }
    }

    /// Tells its client what became of a durable write, while the clock shows `clock` nanoseconds. A
    /// peer's refuses it.
    #[tactic(auto, using(vb_calls::proofs::Runs::began_none))]
    pub fn post<A: VbAccess>(
        &mut self,
        alloc: Global,
        vbs: &mut A,
        clock: u64,
        outcome: Resolved,
    ) -> Alloc<NodeOut>
        ensures ok { IfOk result (λ out. ConnPosted A.step clock outcome self.old vbs.old out self.new vbs.new) }
        ensures err { OnErr result (ConnUnposted A.step clock outcome self.old vbs.old vbs.new) }
        ensures spent { OnErr result (is_spent self.new ≡ true) }
        ensures left { OnErr result (LeftOf self.old self.new) }
    {
        match self {
            Conn::Client(client) => client.post(vbs, clock, outcome),
            Conn::Peer(_) => Ok(NodeOut::refused(alloc, Cause::LinkClosed)),
        }
    }

    /// Takes the next bytes from its peer, and gives the frames that are whole now. A client's gives
    /// none.
    pub fn hear(&mut self, alloc: Global, piece: &[u8]) -> Alloc<Vec<Frame>>
        ensures ok { IfOk result (λ frames. ConnHeard piece.now (Some self.old) frames.items (Some self.new)) }
        ensures spent { OnErr result (is_spent self.new ≡ true) }
        ensures left { OnErr result (LeftOf self.old self.new) }
    {
        match self {
            Conn::Client(_) => Ok(Vec::new(alloc)),
            Conn::Peer(peer) => peer.hear(piece),
        }
    }

    /// Answers a frame of its peer. A client's refuses it.
    #[tactic(auto, using(vb_calls::proofs::Runs::began_none))]
    pub fn answer<A: VbAccess>(
        &mut self,
        alloc: Global,
        vbs: &mut A,
        frame: &Frame,
    ) -> Alloc<NodeOut>
        ensures ok { IfOk result (λ out. ConnAnswered A.step frame.now self.old vbs.old out self.new vbs.new) }
        ensures err { OnErr result (ConnUnanswered A.step frame.now self.old vbs.old vbs.new) }
        ensures spent { OnErr result (is_spent self.new ≡ true) }
        ensures left { OnErr result (LeftOf self.old self.new) }
    {
        match self {
            Conn::Client(_) => Ok(NodeOut::refused(alloc, Cause::LinkClosed)),
            Conn::Peer(peer) => peer.answer(alloc, vbs, frame),
        }
    }

    /// Puts at most so many frames of its streams.
    pub fn pull<A: VbAccess, J: Journals>(
        &mut self,
        alloc: Global,
        vbs: &mut A,
        disks: &mut J,
        frames: u32,
    ) -> Alloc<NodeOut>
        ensures ok { IfOk result (λ out. ConnPulled A.step J.asks frames self.old vbs.old disks.old out self.new vbs.new disks.new) }
        ensures err { OnErr result (ConnHalted A.step J.asks frames self.old vbs.old disks.old vbs.new disks.new) }
        ensures spent { OnErr result (is_spent self.new ≡ true) }
        ensures left { OnErr result (LeftOf self.old self.new) }
    {
        match self {
            Conn::Client(client) => client.pull(vbs, disks, frames),
            Conn::Peer(peer) => peer.pull(alloc, vbs, disks, frames),
        }
    }

    /// Has those of its streams that hand vBuckets of the node `node` over give them up, where so many
    /// frames are to be put next. A client's has none that does.
    #[tactic(auto, using(vb_calls::proofs::Runs::began_none))]
    pub fn give_up<A: VbAccess>(
        &mut self,
        alloc: Global,
        vbs: &mut A,
        node: u8,
        frames: u32,
    ) -> Alloc<Gave>
        ensures ok { IfOk result (λ gave. ConnGaveUp A.step frames self.old vbs.old gave.given self.new vbs.new) }
        ensures said { IfOk result (λ gave. gave ≡ gave_of node gave.given) }
        ensures err { OnErr result (ConnUngiven A.step frames self.old vbs.old vbs.new) }
        ensures spent { OnErr result (is_spent self.new ≡ true) }
        ensures left { OnErr result (LeftOf self.old self.new) }
    {
        match self {
            Conn::Client(_) => Ok(Gave::none(alloc)),
            Conn::Peer(peer) => peer.give_up(alloc, vbs, node, frames),
        }
    }

    /// Ends those of its streams that a change of role at the vBucket `vb` ended.
    pub fn ended(&mut self, vb: u16, ids: &[u64])
        ensures { self.new ≡ conn_ended vb (Some ids.now) self.old }
    {
        match self {
            Conn::Client(client) => client.ended(vb, ids),
            Conn::Peer(peer) => peer.ended(vb, ids),
        }
    }

    /// Takes the cursor of its stream of the vBucket `vb` away: whether it had one.
    pub fn drop_cursor<A: VbAccess>(&self, vbs: &mut A, vb: u16) -> bool
        ensures { Ran A.step (cursor_dropped vb (producer_in self.now)) vbs.old result vbs.new }
    {
        match self {
            Conn::Client(client) => client.drop_cursor(vbs, vb),
            Conn::Peer(peer) => peer.drop_cursor(vbs, vb),
        }
    }

    /// Closes its streams, since the connection ends.
    pub fn close<A: VbAccess>(&self, vbs: &mut A)
        ensures { ConnShut A.step self.now vbs.old vbs.new }
    {
        match self {
            Conn::Client(client) => client.close(vbs),
            Conn::Peer(peer) => peer.close(vbs),
        }
    }
}

/// Puts a connection back under its key, unless it is closed.
pub fn put_back(conns: &mut Slab<Conn>, key: usize, conn: Conn, closed: bool)
    requires key { conns.old.vacant_key ≡ key }
    requires free { get conns.old key ≡ None }
    requires room { HasRoomFor conns.old 1 }
    ensures { Updates conns.old conns.new key (kept_unless closed conn) }
{
    if !closed {
        conns.insert_reserved(conn);
    }
}

/// Tells the connection of a key, if there is one, which streams a change of role ended.
fn tell_ended(conns: &mut Slab<Conn>, key: usize, vb: u16, ids: &[u64])
    ensures { Updates conns.old conns.new key (option_map (conn_ended vb (Some ids.now)) (get conns.old key)) }
{
    if let Some(conn) = conns.get_mut(key) {
        conn.ended(vb, ids);
    }
}

/// Tells all connections which streams a change of role ended.
pub fn tell_all(conns: &mut Slab<Conn>, vb: u16, ids: &[u64])
    ensures { (key : ℕ) → get conns.new key ≡ option_map (conn_ended vb (Some ids.now)) (get conns.old key) }
{
    for key in 0..conns.capacity() {
        tell_ended(conns, key, vb, ids);
    }
}
