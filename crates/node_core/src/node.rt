//! A node: the vBuckets that it reaches, its connections, and the dials of its vBuckets.
ghost use Rattle.std.specs.Prelude.{◌≡◌, ◌≢◌, ◌<◌, ◌&&◌, ◌⊎◌, [], Ok, not, IfOk, OnErr, is_some};
ghost use Rattle.node_core.specs.Calls.{branch_lines, ask_of_reply, ask_if, dial_requested};
ghost use Rattle.node_core.specs.Outcomes.{value_at, Made, HalfMade, Opened, FedAt, Stopped, Heard, Unheard, AnsweredAt, Unanswered, PostedAt, Unposted, conn_awaits, DialDueAt, DialUndue, PulledAt, Halted, ShutAt, DroppedAt, Dialed, DialedAs, DialFedAt, DialStopped, DialShutAt};
ghost use Rattle.{node_core.specs.GivingUp.{GaveUpAt, Ungiven}, node_core.specs.Outs.{is_gone, made_unless}, slab.specs.Slab.{get}, vb_calls.specs.Programs.{Began}, vb_calls.specs.State.{first_log}};
ghost use Rattle.{vb_types.specs.declared.journal.Record.TheVariants.{State}, vb_types.specs.declared.role.Role.TheVariants.{Active, Pending}};

mod flushes;
mod loading;
mod operator;
mod settles;
mod starts;

use crate::conn::put_back;
use crate::giving::{Gave, tell_given};
use crate::out::bytes_of;
use crate::{Alloc, Conn, ConnKind, Dial, NodeOut, Numbered};
use bytes::{Bytes, BytesMut};
use dcp_consumer as consumer;
pub use loading::{LoadFault, Loaded};
use mcbp_frame::Frame;
use slab::Slab;
pub use starts::Started;
use std::alloc::Global;
use vb_calls::{Journals, Resolved, VbAccess, VbAnswer, VbCall, VbReply, Wrote};
use vb_events::{Answer, Cause, Event};
use vb_types::{Listed, LogEntry, Record, Role, StreamAsk};

/// How many vBuckets a node may have.
pub const MAX_VBS: usize = 64;

/// A node: its number, the vBuckets that it reaches and their journals, its connections, each under its
/// key, and the dials of its vBuckets that follow others, by the vBuckets' numbers. After want of memory a
/// connection or a dial is spent: each later call on it but the one that lets it go fails and does
/// nothing.
#[derive(Drop)]
pub struct Node<A, J> {
    alloc: Global,
    number: u8,
    vbs: A,
    disks: J,
    conns: Slab<Conn>,
    dials: Numbered<Dial>,
}

/// The lines of a vBucket that was made.
fn made_lines(alloc: Global, node: u8, vb: u16, role: Role, uuid: u64) -> Alloc<Listed<Event>>
    ensures { IfOk result (λ lines. lines ≡ branch_lines node vb role uuid) }
{
    let mut lines = Listed::new(alloc);
    if let Role::Active = role {
        lines.push(Event::Branch {
            node,
            vb,
            uuid,
            parent: None,
            fork: 0,
            high: 0,
        })?;
    }
    lines.push(Event::Role { node, vb, role })?;
    Ok(lines)
}

/// The first record of a vBucket: its role, and the failover log that it begins with.
fn first_record(alloc: Global, role: Role, uuid: u64) -> Alloc<Record>
    ensures { IfOk result (λ what. what ≡ State role (first_log role uuid)) }
{
    let log = match role {
        Role::Active => Listed::one(alloc, LogEntry { uuid, seq: 0 })?,
        _ => Listed::new(alloc),
    };
    Ok(Record::State { role, log })
}

/// Whether a connection or a dial is gone.
fn is_closed(out: &Alloc<NodeOut>) -> bool
    ensures { result ≡ is_gone out.now }
{
    match out {
        Ok(out) => out.closed,
        Err(_) => false,
    }
}

impl<A, J> Node<A, J> {
    ghost use Rattle.std.specs.Borrow.{sem};
    ghost use Rattle.node_core.specs.Lends.{lends_disks};

    /// The journals of the node's vBuckets, for adding one.
    pub fn disks_mut(&mut self) -> &mut J
        ensures* writes_back { sem 𝓛 (lends_disks A.row J.row self.entry result) }
        ensures value { result.now ≡ self.old.disks }
    {
        &mut self.disks
    }
}

impl<A: VbAccess, J: Journals> Node<A, J> {
    /// A node of this number over these vBuckets and journals, with no connection and no dial.
    pub fn over(alloc: Global, number: u8, vbs: A, disks: J) -> Node<A, J>
        ensures number { result.number ≡ number }
        ensures vbs { result.vbs ≡ vbs }
        ensures disks { result.disks ≡ disks }
        ensures conns { result.conns.slots ≡ [] }
        ensures dials { result.dials ≡ [] }
    {
        Node {
            alloc,
            number,
            vbs,
            disks,
            conns: Slab::new(alloc),
            dials: Numbered::new(alloc),
        }
    }

    /// The node's number.
    pub fn number(&self) -> u8
        ensures { result ≡ self.now.number }
    {
        self.number
    }

    /// Makes a vBucket with nothing in it, and writes its role and failover log down: what became of
    /// that, unless there is a vBucket of that number.
    fn make_noted(&mut self, v: u16, role: Role, uuid: u64) -> Alloc<Option<Wrote>>
        requires uuid { role ≡ Active → 0 < uuid }
        requires kept { role ≢ Pending }
        ensures ok { IfOk result (λ wrote. Made A.made J.asks v role uuid self.old (made_unless self.old.number v role uuid wrote) self.new) }
        ensures err { OnErr result ((self.new ≡ self.old) ⊎ HalfMade A.made J.asks v role uuid self.old self.new) }
    {
        let first = first_record(self.alloc, role, uuid)?;
        match self.vbs.make(v, self.number, role, uuid) {
            Ok(true) => {
                let wrote = self.disks.append(v, &first);
                drop(first);
                Ok(Some(wrote?))
            }
            Ok(false) => {
                drop(first);
                Ok(None)
            }
            Err(stop) => {
                drop(first);
                Err(stop)
            }
        }
    }

    /// Makes a vBucket with nothing in it, writes its role and failover log down, and tells of it; it
    /// is refused exactly where there is one of that number. The vBucket stays where its record could
    /// not be appended. An `Err` changes nothing, or the vBucket is made and nothing is told of it.
    pub fn make_vb(&mut self, v: u16, role: Role, uuid: u64) -> Alloc<NodeOut>
        requires uuid { role ≡ Active → 0 < uuid }
        requires kept { role ≢ Pending }
        ensures ok { IfOk result (λ out. Made A.made J.asks v role uuid self.old out self.new) }
        ensures err { OnErr result ((self.new ≡ self.old) ⊎ HalfMade A.made J.asks v role uuid self.old self.new) }
    {
        let events = made_lines(self.alloc, self.number, v, role, uuid)?;
        match self.make_noted(v, role, uuid)? {
            Some(wrote) => Ok(NodeOut::done(self.alloc, events, Bytes::new()).noted(wrote)),
            None => Ok(NodeOut::refused(self.alloc, Cause::VbExists)),
        }
    }

    /// Opens a connection, and gives its key. An `Err` opens none.
    pub fn open(&mut self, kind: ConnKind) -> Alloc<usize>
        ensures ok { IfOk result (λ key. Opened kind self.old key self.new) }
        ensures err { OnErr result (self.new ≡ record self.old {
          conns = record self.old.conns { capacity = self.new.conns.capacity };
        }) }
    {
        self.conns.reserve(1)?;
        let conn = Conn::open(self.alloc, self.number, kind)?;
        Ok(self.conns.insert_reserved(conn))
    }

    /// Gives a client's connection the next bytes from its client, while the clock shows `clock`
    /// nanoseconds. One that is closed gives its key back. It is refused exactly where no client's
    /// connection has that key. After an `Err` the connection is spent.
    #[tactic(auto, using(crate::proofs::Keys::updates_again))]
    pub fn feed(&mut self, key: usize, piece: &[u8], clock: u64) -> Alloc<NodeOut>
        ensures ok { IfOk result (λ out. FedAt A.step clock key piece.now (get self.old.conns key) self.old out self.new) }
        ensures err { OnErr result (Stopped A.step clock key piece.now self.old self.new) }
    {
        let Some(mut conn) = self.conns.try_remove(key) else {
            return Ok(NodeOut::refused(self.alloc, Cause::LinkClosed));
        };
        let fed = conn.feed(self.alloc, &mut self.vbs, clock, piece);
        let closed = is_closed(&fed);
        put_back(&mut self.conns, key, conn, closed);
        fed
    }

    /// Whether the connection of this key is a client's that awaits the outcome of the durable write of
    /// this waiter.
    pub fn awaits(&self, key: usize, waiter: u64) -> bool
        ensures { result ≡ conn_awaits waiter (get self.now.conns key) }
    {
        match self.conns.get(key) {
            Some(conn) => conn.awaits(waiter),
            None => false,
        }
    }

    /// Tells a client's connection what became of a durable write, while the clock shows `clock`
    /// nanoseconds: where it awaits it, it is answered, and the frames behind it are served. One that
    /// is closed gives its key back. It is refused exactly where no client's connection has that key.
    /// After an `Err` the connection is spent.
    #[tactic(auto, using(crate::proofs::Keys::updates_again))]
    pub fn post(&mut self, key: usize, outcome: Resolved, clock: u64) -> Alloc<NodeOut>
        ensures ok { IfOk result (λ out. PostedAt A.step clock key outcome (get self.old.conns key) self.old out self.new) }
        ensures err { OnErr result (Unposted A.step clock key outcome self.old self.new) }
    {
        let Some(mut conn) = self.conns.try_remove(key) else {
            return Ok(NodeOut::refused(self.alloc, Cause::LinkClosed));
        };
        let posted = conn.post(self.alloc, &mut self.vbs, clock, outcome);
        let closed = is_closed(&posted);
        put_back(&mut self.conns, key, conn, closed);
        posted
    }

    /// Gives a peer's connection the next bytes from its peer, and gives the frames that are whole
    /// now: each is to be answered, in their order. There are none where no peer's connection has that
    /// key. After an `Err` the connection is spent.
    #[tactic(auto, using(crate::proofs::Keys::updates_again))]
    pub fn hear(&mut self, key: usize, piece: &[u8]) -> Alloc<Vec<Frame>>
        ensures ok { IfOk result (λ frames. Heard key piece.now self.old frames.items self.new) }
        ensures err { OnErr result (Unheard key self.old self.new) }
    {
        let Some(mut conn) = self.conns.try_remove(key) else {
            return Ok(Vec::new(self.alloc));
        };
        let frames = conn.hear(self.alloc, piece);
        put_back(&mut self.conns, key, conn, false);
        frames
    }

    /// Answers a frame that a peer's connection gave. What became of durable writes with it is to be
    /// posted before the next frame is answered. It is refused exactly where no peer's connection has
    /// that key. After an `Err` the connection is spent.
    #[tactic(auto, using(crate::proofs::Keys::updates_again))]
    pub fn answer(&mut self, key: usize, frame: &Frame) -> Alloc<NodeOut>
        ensures ok { IfOk result (λ out. AnsweredAt A.step key frame.now (get self.old.conns key) self.old out self.new) }
        ensures err { OnErr result (Unanswered A.step key frame.now self.old self.new) }
    {
        let Some(mut conn) = self.conns.try_remove(key) else {
            return Ok(NodeOut::refused(self.alloc, Cause::LinkClosed));
        };
        let answered = conn.answer(self.alloc, &mut self.vbs, frame);
        put_back(&mut self.conns, key, conn, false);
        answered
    }

    /// Has a connection put at most so many frames of its streams. It is refused exactly where no
    /// connection has that key. After an `Err` the connection is spent.
    #[tactic(auto, using(crate::proofs::Keys::updates_again))]
    pub fn pull(&mut self, key: usize, frames: u32) -> Alloc<NodeOut>
        ensures ok { IfOk result (λ out. PulledAt A.step J.asks frames key (get self.old.conns key) self.old out self.new) }
        ensures err { OnErr result (Halted A.step J.asks frames key self.old self.new) }
    {
        let Some(mut conn) = self.conns.try_remove(key) else {
            return Ok(NodeOut::refused(self.alloc, Cause::LinkClosed));
        };
        let put = conn.pull(self.alloc, &mut self.vbs, &mut self.disks, frames);
        put_back(&mut self.conns, key, conn, false);
        put
    }

    /// Has those streams of a connection that hand vBuckets over give them up, where so many frames are to
    /// be put next. Each vBucket that was given up is told dead, each connection is told which of its
    /// streams ended with that, and who waits for durable writes there is to be told that their outcome
    /// is not known. Nothing is written down, and a dial stays, also that of such a vBucket, which took
    /// over by it. The call is refused exactly where no connection has that key. After an `Err` the
    /// connection is spent, and no other was told.
    #[tactic(auto, using(crate::proofs::Keys::updates_again))]
    pub fn give_up(&mut self, key: usize, frames: u32) -> Alloc<NodeOut>
        ensures ok { IfOk result (λ out. GaveUpAt A.step frames key (get self.old.conns key) self.old out self.new) }
        ensures err { OnErr result (Ungiven A.step frames key self.old self.new) }
    {
        let Some(mut conn) = self.conns.try_remove(key) else {
            return Ok(NodeOut::refused(self.alloc, Cause::LinkClosed));
        };
        let gave = conn.give_up(self.alloc, &mut self.vbs, self.number, frames);
        put_back(&mut self.conns, key, conn, false);
        let Gave {
            given,
            lines,
            resolved,
        } = gave?;
        tell_given(&mut self.conns, given.as_slice());
        Ok(NodeOut::done(self.alloc, lines, Bytes::new()).resolving(resolved))
    }

    /// Takes the cursor of a connection's stream of a vBucket away, spent or not, and answers 1 where it
    /// had one, and else 0. It is refused exactly where no connection has that key.
    pub fn drop_cursor(&mut self, key: usize, v: u16) -> NodeOut
        ensures { DroppedAt A.step v (get self.old.conns key) self.old result self.new }
    {
        let Some(conn) = self.conns.get(key) else {
            return NodeOut::refused(self.alloc, Cause::LinkClosed);
        };
        let had = conn.drop_cursor(&mut self.vbs, v);
        NodeOut::answered(self.alloc, Answer::Number(u64::from(had)))
    }

    /// Lets a connection go, spent or not, and closes its streams. It is refused where none is.
    pub fn shut(&mut self, key: usize) -> NodeOut
        ensures { ShutAt A.step key (get self.old.conns key) self.old result self.new }
    {
        let Some(conn) = self.conns.try_remove(key) else {
            return NodeOut::refused(self.alloc, Cause::LinkClosed);
        };
        conn.close(&mut self.vbs);
        drop(conn);
        NodeOut::done(self.alloc, Listed::new(self.alloc), Bytes::new())
    }

    /// What a vBucket asks for, or why it does not dial: it did already, or the link is not free.
    fn asked(&self, v: u16, is_free: bool, reply: &Option<VbReply>) -> Result<StreamAsk, Cause>
        ensures { result ≡ ask_if (is_free && not (is_some (value_at self.now.dials v))) (ask_of_reply reply.now) }
    {
        let Some(reply) = reply else {
            return Err(Cause::UnknownVb);
        };
        match reply.answer {
            VbAnswer::Named(ask) if is_free && self.dials.get(u32::from(v)).is_none() => Ok(ask),
            VbAnswer::Named(_) => Err(Cause::LinkOpen),
            _ => Err(Cause::WrongRole),
        }
    }

    /// Keeps a new dial of a link, which asks for this, and hands out its requests.
    fn open_dial(&mut self, dialed: consumer::Dialed, ask: StreamAsk) -> Alloc<NodeOut>
        ensures ok { IfOk result (λ out. DialedAs dialed (Ok ask) self.old.dials out self.new.dials) }
        ensures rest { self.new ≡ record self.old { dials = self.new.dials } }
        ensures err { OnErr result (self.new ≡ self.old) }
    {
        let mut requests = BytesMut::new(self.alloc);
        let dial = Dial::new(self.alloc, dialed, ask, &mut requests)?;
        let out = bytes_of(requests)?;
        self.dials.put(u32::from(dialed.vb), dial)?;
        Ok(NodeOut::done(self.alloc, Listed::new(self.alloc), out))
    }

    /// Dials for a vBucket, as the consumer of the link of this number, and hands out the requests
    /// for its producer. `buffer` is the size of the producer's window: a frame goes only while fewer
    /// bytes than this are not acknowledged; 0 for no window. A `takeover` asks for the vBucket's branch
    /// too, and any other link follows it alone. The call is refused where there is no
    /// such vBucket or it does not follow, and then where it dialed already or the link's number is
    /// not free. An `Err` dials nothing.
    pub fn dial(
        &mut self,
        v: u16,
        link: u32,
        buffer: u32,
        takeover: bool,
        is_free: bool,
    ) -> Alloc<NodeOut>
        ensures ok { IfOk result (λ out. Dialed A.step v link buffer takeover is_free self.old out self.new) }
        ensures err { OnErr result (self.new ≡ record self.old { vbs = self.new.vbs }) }
        ensures began { OnErr result (Began A.step (dial_requested v is_free) self.old.vbs self.new.vbs) }
    {
        let reply = self.vbs.call(v, VbCall::Ask)?;
        let asked = self.asked(v, is_free, &reply);
        drop(reply);
        let dialed = consumer::Dialed {
            link,
            node: self.number,
            vb: v,
            buffer,
            takeover,
        };
        match asked {
            Err(why) => Ok(NodeOut::refused(self.alloc, why)),
            Ok(ask) => self.open_dial(dialed, ask),
        }
    }

    /// Gives the dial of a vBucket the next bytes from its producer. One that is over is let go, and
    /// its last line says why. It is refused exactly where the vBucket did not dial. After an `Err`
    /// the dial is spent.
    #[tactic(auto, using(crate::proofs::Keys::renumbered_again))]
    pub fn feed_dial(&mut self, v: u16, piece: &[u8]) -> Alloc<NodeOut>
        ensures ok { IfOk result (λ out. DialFedAt A.step J.asks v piece.now (value_at self.old.dials v) self.old out self.new) }
        ensures err { OnErr result (DialStopped A.step J.asks v piece.now self.old self.new) }
    {
        let Some(dial) = self.dials.get_mut(u32::from(v)) else {
            return Ok(NodeOut::refused(self.alloc, Cause::LinkClosed));
        };
        let fed = dial.feed(&mut self.vbs, &mut self.disks, piece);
        if is_closed(&fed) {
            drop(self.dials.remove(u32::from(v)));
        }
        fed
    }

    /// Has the dial of a vBucket acknowledge what is due, after more of the vBucket was written down,
    /// and hands out the bytes for its producer. Nothing is due where the vBucket did not dial. After
    /// an `Err` the dial is spent.
    #[tactic(auto, using(crate::proofs::Keys::renumbered_again))]
    pub fn acknowledge(&mut self, v: u16) -> Alloc<NodeOut>
        ensures ok { IfOk result (λ out. DialDueAt A.step v (value_at self.old.dials v) self.old out self.new) }
        ensures err { OnErr result (DialUndue A.step v self.old self.new) }
    {
        match self.dials.get_mut(u32::from(v)) {
            Some(dial) => dial.acknowledge(&mut self.vbs),
            None => Ok(NodeOut::done(self.alloc, Listed::new(self.alloc), Bytes::new())),
        }
    }

    /// Lets the dial of a vBucket go, spent or not, and tells that it is cut. It is refused exactly
    /// where the vBucket did not dial. An `Err` changes nothing.
    pub fn shut_dial(&mut self, v: u16) -> Alloc<NodeOut>
        ensures ok { IfOk result (λ out. DialShutAt v (value_at self.old.dials v) self.old out self.new) }
        ensures err { OnErr result (self.new ≡ self.old) }
    {
        let Some(dial) = self.dials.get(u32::from(v)) else {
            return Ok(NodeOut::refused(self.alloc, Cause::LinkClosed));
        };
        let events = Listed::one(self.alloc, dial.cut_line())?;
        drop(self.dials.remove(u32::from(v)));
        Ok(NodeOut::done(self.alloc, events, Bytes::new()).closed_if(true))
    }
}
