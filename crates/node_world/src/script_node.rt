//! One node of a script's world.
ghost use Rattle.std.specs.Prelude.{◌≡◌, ◌≢◌, ◌<◌, ◌++◌, if◌then◌else◌, ℕ, List, [], is_some, not, IfOk, OnOk, None, Some};
ghost use Rattle.{node_core.specs.Outcomes.{value_at, Renumbered}, node_core.specs.declared.node.TheConstants.{MAX_VBS}};
ghost use Rattle.node_world.specs.Arms.{no_arm};
ghost use Rattle.node_world.specs.Ends.{Carries, IsThere, AddsShelf, LiftsArm, PlacesArm, RefusesChain, DialsFor, FeedsDial, DuesDial, CutsDial, SetsRole};
ghost use Rattle.node_world.specs.Lines.{was_there, counted, made_unless, at_node};
ghost use Rattle.{node_world.specs.Nodes.{PlainNode, bad_chain_cause, first_cause, limit_causes, uuid_causes, client_at, bytes_at, hang_at, pull_at, clock_at, flush_line, save_line, chain_line, tick_line}, node_world.specs.Stands.{IdsStand, NodeMatch}};
ghost use Rattle.{node_world.specs.Turns.{KeepsRole, admin_line}, vb_types.specs.declared.role.Role.TheVariants.{Active, Pending}};

use crate::{Alloc, Arm, Bases, Ids, Told};
use disk_journals::{DiskJournals, Disks};
use durability::Chain;
use node_core::{AdminCall, ConnKind, MAX_VBS, Node, NodeOut, Numbered};
use std::alloc::Global;
use vb_disk::{Fuse, FuseDisk, MemDisk};
use vb_events::{Answer, Cause};
use vb_types::{FlushPart, Listed, Role};
use vbucket::VbMap;

/// A node whose journals are on disks in memory, and what the script alone knows of it: the keys and
/// the bases of its client connections by their numbers, what its clock shows in nanoseconds, how many
/// vBuckets it has, its arm, and its disks while it is not running. Its node is an empty one then.
#[derive(Drop)]
pub struct ScriptNode {
    pub node: Node<VbMap, DiskJournals<FuseDisk>>,
    pub clients: Numbered<usize>,
    pub bases: Bases,
    pub clock: u64,
    pub made: usize,
    pub arm: Arm,
    pub off: Option<Disks<FuseDisk>>,
}

/// What a line asks of a node that is made.
#[derive(Clone, Copy)]
pub enum NodeLine<'a> {
    /// An active vBucket is made, on a branch of this id.
    VbActive(u16, u64),
    /// A replica is made.
    VbReplica(u16),
    /// A vBucket's chain is this node and these.
    Chain(u16, &'a [Option<u8>]),
    /// A client's connection is opened, and its waits and its streams are numbered by this.
    Client(u32, u32),
    /// A client's connection is given bytes.
    Bytes(u32, &'a [u8]),
    /// A client closes its connection.
    Hang(u32),
    /// A client's connection is asked for so many frames of its streams.
    Pull(u32, u32),
    /// The clock shows so many nanoseconds.
    Clock(u64),
    /// A vBucket's open span is sealed.
    Seal(u16),
    /// A vBucket gives up the spans that are needed no more.
    Trim(u16),
    /// A vBucket's next batch is taken.
    Take(u16),
    /// A vBucket's batch is appended.
    Save(u16),
    /// A vBucket's batch is counted as saved.
    Done(u16),
    /// A vBucket gives up the prepares whose time is up.
    Tick(u16),
    /// A vBucket's numbers are shown.
    Stat(u16),
    /// A vBucket's failover log is shown.
    Log(u16),
    /// A vBucket is shown.
    Show(u16),
}

/// The most client connections of a node: their numbers are below this.
pub const MAX_CLIENTS: u32 = 1000;

/// Whether a call came to a vBucket.
fn was_there(answer: Answer) -> bool
    ensures { result ≡ was_there answer }
{
    !matches!(answer, Answer::No(Cause::UnknownVb))
}

/// Why a chain is refused that can't be one, by whether there is the vBucket and whether it is active.
fn bad_chain_cause(active: Option<bool>) -> Cause
    ensures { result ≡ bad_chain_cause active }
{
    match active {
        None => Cause::UnknownVb,
        Some(false) => Cause::WrongRole,
        Some(true) => Cause::ChainBad,
    }
}

/// Forgets the key of a connection that is closed.
pub fn forget_if(clients: &mut Numbered<usize>, c: u32, closed: bool)
    ensures { Renumbered clients.old clients.new c (if closed then None else value_at clients.old c) }
{
    if closed {
        clients.remove(c);
    }
}

impl ScriptNode {
    /// A node with nothing.
    pub fn new(alloc: Global, number: u8) -> ScriptNode
        ensures number { result.node.number ≡ number }
        ensures vbs { result.node.vbs ≡ [] }
        ensures disks { result.node.disks ≡ [] }
        ensures conns { result.node.conns.slots ≡ [] }
        ensures dials { result.node.dials ≡ [] }
        ensures clients { result.clients ≡ [] }
        ensures clock { result.clock ≡ 0 }
        ensures made { result.made ≡ 0 }
        ensures arm { result.arm ≡ no_arm }
        ensures off { result.off ≡ None }
    {
        ScriptNode {
            node: Node::over(alloc, number, VbMap::new(alloc), DiskJournals::new(alloc)),
            clients: Numbered::new(alloc),
            bases: Bases::new(alloc),
            clock: 0,
            made: 0,
            arm: Arm::off(),
            off: None,
        }
    }

    /// Whether it is running.
    pub fn is_up(&self) -> bool
        ensures { result ≡ not (is_some self.now.off) }
    {
        self.off.is_none()
    }

    /// Puts the arm over the disk of a vBucket.
    pub fn place_arm(&mut self, v: u16)
        ensures { PlacesArm v self.old self.new }
    {
        let fuse = self.arm.fuse;
        self.node.disks_mut().arm(v, fuse);
    }

    /// Takes what is left of the arm off the disk of a vBucket.
    pub fn lift_arm(&mut self, v: u16)
        ensures { LiftsArm v self.old self.new }
    {
        if let Some(left) = self.node.disks_mut().disarm(v) {
            self.arm.fuse = left;
        }
    }

    /// Whether there is a vBucket of this number: one that is there has a failover log.
    fn has(&mut self, v: u16) -> Alloc<bool>
        ensures { IfOk result (λ there. IsThere v self.old there self.new) }
    {
        let out = self.node.admin(v, AdminCall::Log)?;
        Ok(was_there(out.answer))
    }

    /// Why no vBucket more is made.
    fn limit(&self) -> Option<Cause>
        ensures first { (plain : PlainNode) → NodeMatch self.now plain → result ≡ first_cause (limit_causes plain) }
        ensures room { result ≡ None → self.now.made < MAX_VBS }
    {
        if self.made >= MAX_VBS {
            return Some(Cause::Limit);
        }
        None
    }

    /// Why no active vBucket is made on this branch, unless there is one of its number.
    fn active_cause(&self, ids: &Ids, uuid: u64) -> Option<Cause>
        ensures first { (plain : PlainNode) (uuids : List ℕ) → NodeMatch self.now plain → IdsStand ids.now uuids →
            result ≡ first_cause (limit_causes plain ++ uuid_causes uuids uuid) }
        ensures room { result ≡ None → self.now.made < MAX_VBS }
        ensures named { result ≡ None → 0 < uuid }
    {
        if self.made >= MAX_VBS {
            return Some(Cause::Limit);
        }
        if uuid == 0 {
            return Some(Cause::UuidZero);
        }
        if ids.has(uuid) {
            return Some(Cause::UuidUsed);
        }
        None
    }

    /// Counts a vBucket that was made, whatever became of its first record.
    fn count(&mut self, answer: Answer)
        requires { self.old.made < MAX_VBS }
        ensures { self.new ≡ record self.old { made = counted answer self.old.made } }
    {
        if !matches!(answer, Answer::No(Cause::VbExists)) {
            self.made += 1;
        }
    }

    /// Adds a blank journal, on a new disk, for a vBucket that has none.
    fn add_disk(&mut self, alloc: Global, v: u16) -> Alloc<()>
        ensures { OnOk result (AddsShelf v self.old self.new) }
    {
        let disk = FuseDisk::new(MemDisk::new(alloc)?);
        let disks = self.node.disks_mut();
        if disks.has(v) {
            return Ok(());
        }
        disks.add(v, disk)
    }

    /// Makes a vBucket, unless there is one of that number, or that is refused for another cause.
    fn make(
        &mut self,
        alloc: Global,
        refused: Option<Cause>,
        v: u16,
        role: Role,
        uuid: u64,
    ) -> Alloc<Told>
        requires named { refused ≡ None → role ≡ Active → 0 < uuid }
        requires room { refused ≡ None → self.old.made < MAX_VBS }
        requires kept { role ≢ Pending }
        ensures { IfOk result (λ told. Carries (made_unless refused self.old.node.number v role uuid) self.old told self.new) }
    {
        if self.has(v)? {
            return Ok(Told::refusal(alloc, Cause::VbExists));
        }
        if let Some(cause) = refused {
            return Ok(Told::refusal(alloc, cause));
        }
        self.add_disk(alloc, v)?;
        self.place_arm(v);
        let out = self.node.make_vb(v, role, uuid)?;
        self.lift_arm(v);
        self.count(out.answer);
        Ok(Told::of(out))
    }

    /// Opens a client's connection.
    fn open_client(&mut self, alloc: Global, client: u32, base: u32) -> Alloc<Told>
        ensures { IfOk result (λ told. Carries (client_at self.old.node.number base client) self.old told self.new) }
    {
        if self.clients.get(client).is_some() {
            return Ok(Told::refusal(alloc, Cause::LinkOpen));
        }
        let key = self.node.open(ConnKind::Client { client, base })?;
        self.bases.set(client, base)?;
        self.clients.put(client, key)?;
        Ok(Told::done(Listed::new(alloc)))
    }

    /// Gives a client's connection the next bytes from its client.
    fn feed(&mut self, alloc: Global, c: u32, piece: &[u8]) -> Alloc<Told>
        ensures { IfOk result (λ told. Carries (bytes_at c piece.now) self.old told self.new) }
    {
        let Some(key) = self.clients.get(c).copied() else {
            return Ok(Told::refusal(alloc, Cause::LinkClosed));
        };
        let out = self.node.feed(key, piece, self.clock)?;
        forget_if(&mut self.clients, c, out.closed);
        Ok(Told::of(out))
    }

    /// Has a client's connection put at most so many frames of its streams.
    fn pull_client(&mut self, alloc: Global, c: u32, frames: u32) -> Alloc<Told>
        ensures { IfOk result (λ told. Carries (pull_at c frames) self.old told self.new) }
    {
        let Some(key) = self.clients.get(c).copied() else {
            return Ok(Told::refusal(alloc, Cause::LinkClosed));
        };
        let out = self.node.pull(key, frames)?;
        Ok(Told::of(out))
    }

    /// Closes a client's connection, as its client did.
    fn hang(&mut self, alloc: Global, c: u32) -> Told
        ensures { Carries (hang_at c) self.old result self.new }
    {
        let Some(key) = self.clients.remove(c) else {
            return Told::refusal(alloc, Cause::LinkClosed);
        };
        self.node.shut(key);
        Told::done(Listed::new(alloc))
    }

    /// Sets the clock, in nanoseconds.
    fn set_clock(&mut self, alloc: Global, nanos: u64) -> Told
        ensures { Carries (clock_at nanos) self.old result self.new }
    {
        self.clock = nanos;
        Told::done(Listed::new(alloc))
    }

    /// Makes an operator's call that changes no role.
    fn ask(&mut self, v: u16, call: AdminCall) -> Alloc<Told>
        requires { KeepsRole call }
        ensures { IfOk result (λ told. Carries (admin_line self.old.node.number v call) self.old told self.new) }
    {
        let out = self.node.admin(v, call)?;
        Ok(Told::of(out))
    }

    /// Why a chain is refused that can't be one.
    fn chain_cause(&mut self, v: u16) -> Alloc<Cause>
        ensures { IfOk result (λ why. RefusesChain v self.old why self.new) }
    {
        let active = self.node.is_active(v)?;
        Ok(bad_chain_cause(active))
    }

    /// Sets a vBucket's chain.
    fn set_chain(&mut self, alloc: Global, v: u16, others: &[Option<u8>]) -> Alloc<Told>
        ensures { IfOk result (λ told. Carries (chain_line self.old.node.number v others.now) self.old told self.new) }
    {
        let members = Vec::from_slice(alloc, others)?;
        match Chain::new(self.node.number(), members) {
            None => Ok(Told::refusal(alloc, self.chain_cause(v)?)),
            Some(chain) => {
                let out = self.node.set_chain(v, chain)?;
                self.tell_out(alloc, out)
            }
        }
    }

    /// Has a vBucket give up the prepares whose time is up.
    fn tick(&mut self, alloc: Global, v: u16) -> Alloc<Told>
        ensures { IfOk result (λ told. Carries (tick_line self.old.node.number v) self.old told self.new) }
    {
        let out = self.node.tick(v, self.clock)?;
        self.tell_out(alloc, out)
    }

    /// Makes a step of writing a vBucket down.
    fn write_down(&mut self, alloc: Global, v: u16, part: FlushPart) -> Alloc<Told>
        ensures { IfOk result (λ told. Carries (flush_line self.old.node.number v part) self.old told self.new) }
    {
        let out = self.node.flush(v, part)?;
        self.tell_out(alloc, out)
    }

    /// Appends a vBucket's batch, under the arm.
    fn save(&mut self, alloc: Global, v: u16) -> Alloc<Told>
        ensures { IfOk result (λ told. Carries (save_line self.old.node.number v) self.old told self.new) }
    {
        self.place_arm(v);
        let told = self.write_down(alloc, v, FlushPart::Save)?;
        self.lift_arm(v);
        Ok(told)
    }

    /// Carries out a line.
    pub fn tell(&mut self, alloc: Global, ids: &Ids, line: NodeLine) -> Alloc<Told>
        ensures { IfOk result (λ told. (uuids : List ℕ) → IdsStand ids.now uuids → Carries (at_node uuids self.old.node.number line.entry) self.old told self.new) }
    {
        match line {
            NodeLine::VbActive(vb, uuid) => {
                let refused = self.active_cause(ids, uuid);
                self.make(alloc, refused, vb, Role::Active, uuid)
            }
            NodeLine::VbReplica(vb) => {
                let refused = self.limit();
                self.make(alloc, refused, vb, Role::Replica, 0)
            }
            NodeLine::Chain(vb, others) => self.set_chain(alloc, vb, others),
            NodeLine::Client(c, base) => self.open_client(alloc, c, base),
            NodeLine::Bytes(c, bytes) => self.feed(alloc, c, bytes),
            NodeLine::Hang(c) => Ok(self.hang(alloc, c)),
            NodeLine::Pull(c, frames) => self.pull_client(alloc, c, frames),
            NodeLine::Clock(nanos) => Ok(self.set_clock(alloc, nanos)),
            NodeLine::Seal(vb) => self.ask(vb, AdminCall::Seal),
            NodeLine::Trim(vb) => self.ask(vb, AdminCall::Trim),
            NodeLine::Take(vb) => self.write_down(alloc, vb, FlushPart::Take),
            NodeLine::Save(vb) => self.save(alloc, vb),
            NodeLine::Done(vb) => self.write_down(alloc, vb, FlushPart::Done),
            NodeLine::Tick(vb) => self.tick(alloc, vb),
            NodeLine::Stat(vb) => self.ask(vb, AdminCall::Stat),
            NodeLine::Log(vb) => self.ask(vb, AdminCall::Log),
            NodeLine::Show(vb) => self.ask(vb, AdminCall::Show),
        }
    }

    /// Makes an operator's call that gives a vBucket another role, unless it is refused. It is
    /// written down under the arm.
    pub fn set_role(&mut self, v: u16, call: AdminCall) -> Alloc<NodeOut>
        ensures { IfOk result (λ out. SetsRole v call self.old out self.new) }
    {
        self.place_arm(v);
        let out = self.node.admin(v, call)?;
        self.lift_arm(v);
        Ok(out)
    }

    /// Dials for a vBucket, as the consumer of a link, to follow or to take over.
    pub fn dial(
        &mut self,
        v: u16,
        link: u32,
        buffer: u32,
        takeover: bool,
        is_free: bool,
    ) -> Alloc<NodeOut>
        ensures { IfOk result (λ out. DialsFor v link buffer takeover is_free self.old out self.new) }
    {
        self.node.dial(v, link, buffer, takeover, is_free)
    }

    /// Gives a link's consumer the next bytes from its producer, under the arm: its vBucket may have
    /// to write down that it goes back.
    pub fn feed_dial(&mut self, v: u16, piece: &[u8]) -> Alloc<NodeOut>
        ensures { IfOk result (λ out. FeedsDial v piece.now self.old out self.new) }
    {
        self.place_arm(v);
        let out = self.node.feed_dial(v, piece)?;
        self.lift_arm(v);
        Ok(out)
    }

    /// Has the dial of a vBucket acknowledge what is due, after more was written down.
    pub fn acknowledge(&mut self, v: u16) -> Alloc<NodeOut>
        ensures { IfOk result (λ out. DuesDial v self.old out self.new) }
    {
        self.node.acknowledge(v)
    }

    /// Lets the dial of a vBucket go.
    pub fn cut_dial(&mut self, v: u16) -> Alloc<NodeOut>
        ensures { IfOk result (λ out. CutsDial v self.old out self.new) }
    {
        self.node.shut_dial(v)
    }
}
