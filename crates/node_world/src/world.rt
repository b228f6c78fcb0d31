//! The nodes of a script, and what its lines make of them.
ghost use Rattle.std.specs.Prelude.{◌≡◌, ◌<◌, ◌++◌, true, length, IfOk};
ghost use Rattle.{std.specs.Option.{option_copied}, node_world.specs.Ends.{LeavesLink, LeavesOwn}, node_world.specs.Dials.{OpensLink}, node_world.specs.Lines.{ChangesRole, at_node, link_line_at, out_told}};
ghost use Rattle.{node_world.specs.Rests.{Rests}, node_world.specs.Nodes.{arm_at}, node_world.specs.Power.{is_broken_answer, with_arm}, node_world.specs.Worlds.{on_made}};
ghost use Rattle.{node_world.specs.Stands.{IsNodeIf, WorldStands}, node_world.specs.Turns.{posted_in, role_outcome, promote_step}};
ghost use Rattle.{node_world.specs.Cuts.{own_link}, node_world.specs.Dues.{due_of, done_step, is_counted}, node_world.specs.World.{base_of}};
ghost use Rattle.{node_world.specs.World.{client_verb_at, down_step, empty_world, link_verb_step, node_verb_step, on_node, node_step, link_step, vb_verb_step, verb_step, world_step}, node_world.specs.Worlds.{PlainWorld}};

use crate::link::{link_place, own_place};
use crate::link_lines::{link_line, node_place, shut};
use crate::{Alloc, Arm, Ids, Link, NodeLine, ScriptNode, Told};
use disk_journals::DiskJournals;
use mcbp_frame::ByteQueue;
use node_core::{AdminCall, Node, NodeOut};
use script_text::{ClientVerb, LinkVerb, NodeVerb, ScriptLine, VbVerb, Verb};
use std::alloc::Global;
use std::marker::Model;
use vb_disk::FuseDisk;
use vb_events::{Answer, Cause, Group};
use vb_types::Listed;
use vbucket::VbMap;

/// All nodes of a script, the ids of all branches that were made, and the open links.
#[derive(Drop)]
pub struct World {
    pub(crate) alloc: Global,
    pub(crate) nodes: Vec<ScriptNode>,
    pub(crate) ids: Ids,
    pub(crate) links: Vec<Link>,
}

impl Model for World {
    ghost use Rattle.std.specs.Coded.{codes};
    ghost use Rattle.node_world.specs.contracts.script_node.ScriptNode as node_row;
    ghost use Rattle.node_world.specs.Stands.{Kept};

    ghost Value = { Kept };

    ghost coded = { Prim.hlevel (codes, node_row.the_row.coded) };

    ghost view = { λ w. record { nodes = w.nodes.items; ids = w.ids; links = w.links.items } };
}

/// What a line asks for that dials: its own number, the link's, the nodes of both ends, the vBucket
/// that is fed, the size of the producer's window, and whether the vBucket is to be taken over.
#[derive(Clone, Copy)]
pub(crate) struct LinkAsk {
    line: u64,
    link: u32,
    producer: u8,
    node: u8,
    vb: u16,
    buffer: u32,
    takeover: bool,
}

/// Whether a line's answer says that a rollback could not be written down.
fn is_broken_answer(answer: Answer) -> bool
    ensures { result ≡ is_broken_answer answer }
{
    matches!(answer, Answer::No(Cause::Disk))
}

/// Whether a line's answer says that a batch is done.
fn is_counted(answer: Answer) -> bool
    ensures { result ≡ is_counted answer }
{
    matches!(answer, Answer::Number(_))
}

/// What is told, with what a dial handed out behind it; the bytes for its producer go up.
fn send_on(mut told: Told, out: NodeOut, up: &mut ByteQueue) -> Alloc<Told>
    ensures { IfOk result (λ came. (came ≡ record { events = told.events ++ out.events; answer = told.answer }) × (up.new ≡ up.old ++ out.out)) }
{
    up.push(out.out.as_slice())?;
    told.events.append(out.events)?;
    Ok(told)
}

/// The number by which the waits or the streams of a connection are numbered that the line of this
/// number opens.
fn base_of(line: u64) -> u32
    ensures { result ≡ base_of line }
{
    (line % (1 << 32)) as u32
}

impl World {
    /// A world without nodes.
    pub fn new(alloc: Global) -> World
        ensures { WorldStands result empty_world }
    {
        World {
            alloc,
            nodes: Vec::new(alloc),
            ids: Ids::new(alloc),
            links: Vec::new(alloc),
        }
    }

    /// The node of a number, if it is made and running.
    pub fn node(&self, n: u8) -> Option<&Node<VbMap, DiskJournals<FuseDisk>>>
        ensures { (w : PlainWorld) → WorldStands self.now w → IsNodeIf n (option_copied result) (w.nodes n) }
    {
        let Some(at) = node_place(&self.nodes, n) else {
            return None;
        };
        let up = self.nodes[at].is_up();
        if !up {
            return None;
        }
        Some(&self.nodes[at].node)
    }

    /// Makes a node.
    fn make_node(&mut self, n: u8) -> Alloc<Told>
        ensures { IfOk result (λ told. (w : PlainWorld) → WorldStands self.old w →
            WorldStands self.new (node_step w n).0 × (told ≡ (node_step w n).1)) }
    {
        if node_place(&self.nodes, n).is_some() {
            return Ok(Told::refusal(self.alloc, Cause::NodeExists));
        }
        self.nodes.push(ScriptNode::new(self.alloc, n))?;
        Ok(Told::done(Listed::new(self.alloc)))
    }

    /// Carries out a line for a node, which must be running.
    fn on_node(&mut self, n: u8, line: NodeLine) -> Alloc<Told>
        ensures { IfOk result (λ told. (w : PlainWorld) → WorldStands self.old w →
            WorldStands self.new (on_node w n (at_node w.uuids n line.entry)).0
            × (told ≡ (on_node w n (at_node w.uuids n line.entry)).1)) }
    {
        let Some(at) = node_place(&self.nodes, n) else {
            return Ok(Told::refusal(self.alloc, Cause::UnknownNode));
        };
        let up = self.nodes[at].is_up();
        if !up {
            return Ok(Told::refusal(self.alloc, Cause::NodeDown));
        }
        self.nodes[at].tell(self.alloc, &self.ids, line)
    }

    /// Carries out a line for a node that may write to its disks: its arm may befall it there.
    fn on_armed(&mut self, n: u8, line: NodeLine) -> Alloc<Told>
        ensures { IfOk result (λ told. (w : PlainWorld) → WorldStands self.old w →
            WorldStands self.new (with_arm n w (on_node w n (at_node w.uuids n line.entry))).0
            × (told ≡ (with_arm n w (on_node w n (at_node w.uuids n line.entry))).1)) }
    {
        let arm = self.arm(n);
        let told = self.on_node(n, line)?;
        self.meet_arm(n, arm, told)
    }

    /// Puts an arm over a node, whether it is running or not.
    fn set_arm(&mut self, n: u8, arm: Arm) -> Told
        ensures { (w : PlainWorld) → WorldStands self.old w →
            WorldStands self.new (on_made w n (arm_at arm)).0 × (result ≡ (on_made w n (arm_at arm)).1) }
    {
        let Some(at) = node_place(&self.nodes, n) else {
            return Told::refusal(self.alloc, Cause::UnknownNode);
        };
        self.nodes[at].arm = arm;
        Told::done(Listed::new(self.alloc))
    }

    /// Takes a link out, where it is over: its connection at its producer's node is closed.
    pub(crate) fn leave(&mut self, at: usize, over: bool)
        requires { over ≡ true → at < length self.old.links }
        ensures { LeavesLink at over self.old self.new }
    {
        if over {
            let link = self.links.remove(at);
            shut(&mut self.nodes, &link);
        }
    }

    /// Takes the link out that feeds a vBucket, where its dial was let go.
    fn leave_own(&mut self, n: u8, v: u16, over: bool)
        ensures { LeavesOwn n v over self.old self.new }
    {
        if let Some(at) = own_place(&self.links, n, v) {
            self.leave(at, over);
        }
    }

    /// What is told of a call of a node, once what became of durable writes with it is told to who
    /// awaits it there.
    pub(crate) fn tell_out(&mut self, n: u8, out: NodeOut) -> Alloc<Told>
        ensures { IfOk result (λ told. (w : PlainWorld) → WorldStands self.old w →
            WorldStands self.new (posted_in n out.resolved (w, out_told out)).0
            × (told ≡ (posted_in n out.resolved (w, out_told out)).1)) }
    {
        let Some(at) = node_place(&self.nodes, n) else {
            return Ok(Told::of(out));
        };
        self.nodes[at].tell_out(self.alloc, out)
    }

    /// Makes an operator's call that gives a vBucket another role: its own link is over then.
    fn set_role(&mut self, n: u8, v: u16, call: AdminCall) -> Alloc<Told>
        requires { ChangesRole call }
        ensures { IfOk result (λ told. (w : PlainWorld) → WorldStands self.old w → Rests w →
            WorldStands self.new (role_outcome n v call w).0
            × (told ≡ (role_outcome n v call w).1)) }
    {
        let Some(at) = node_place(&self.nodes, n) else {
            return Ok(Told::refusal(self.alloc, Cause::UnknownNode));
        };
        let up = self.nodes[at].is_up();
        if !up {
            return Ok(Told::refusal(self.alloc, Cause::NodeDown));
        }
        let out = self.nodes[at].set_role(v, call)?;
        self.leave_own(n, v, out.closed);
        self.tell_out(n, out)
    }

    /// Makes a vBucket active on a new branch.
    fn promote(&mut self, n: u8, v: u16, uuid: u64) -> Alloc<Told>
        ensures { IfOk result (λ told. (w : PlainWorld) → WorldStands self.old w → Rests w →
            WorldStands self.new (promote_step w n v uuid).0
            × (told ≡ (promote_step w n v uuid).1)) }
    {
        let asked = self.ids.free(uuid);
        let told = self.set_role(n, v, AdminCall::Promote(asked))?;
        Ok(told.naming(uuid))
    }

    /// Opens a link whose dial was let through: a connection at its producer's node, and the link, with
    /// the requests on their way up.
    fn add_link(&mut self, asked: LinkAsk, serving: usize, out: NodeOut) -> Alloc<Told>
        requires { serving < length self.old.nodes }
        ensures { IfOk result (λ told. OpensLink asked serving self.old out told self.new) }
    {
        let mut up = ByteQueue::new(self.alloc);
        up.push(out.out.as_slice())?;
        let told = Told::of(out);
        let conn = self.nodes[serving].open_peer(asked.link, base_of(asked.line))?;
        self.links.push(Link {
            number: asked.link,
            producer: asked.producer,
            conn,
            node: asked.node,
            vb: asked.vb,
            up,
            down: ByteQueue::new(self.alloc),
        })?;
        Ok(told)
    }

    /// Dials a node for a vBucket of another one.
    fn dial(&mut self, asked: LinkAsk) -> Alloc<Told>
        ensures { IfOk result (λ told. (w : PlainWorld) → WorldStands self.old w →
            WorldStands self.new (link_step w asked.line asked.link asked.producer asked.node asked.vb asked.buffer asked.takeover).0
            × (told ≡ (link_step w asked.line asked.link asked.producer asked.node asked.vb asked.buffer asked.takeover).1)) }
    {
        let Some(serving) = node_place(&self.nodes, asked.producer) else {
            return Ok(Told::refusal(self.alloc, Cause::UnknownNode));
        };
        let Some(at) = node_place(&self.nodes, asked.node) else {
            return Ok(Told::refusal(self.alloc, Cause::UnknownNode));
        };
        let serves = self.nodes[serving].is_up();
        if !serves {
            return Ok(Told::refusal(self.alloc, Cause::NodeDown));
        }
        let runs = self.nodes[at].is_up();
        if !runs {
            return Ok(Told::refusal(self.alloc, Cause::NodeDown));
        }
        let is_free = link_place(&self.links, asked.link).is_none();
        let out = self.nodes[at].dial(asked.vb, asked.link, asked.buffer, asked.takeover, is_free)?;
        let Answer::Ok = out.answer else {
            return Ok(Told::of(out));
        };
        self.add_link(asked, serving, out)
    }

    /// Carries out a line for a link, which must be open. One that is over is taken out.
    pub(crate) fn on_link(&mut self, l: u32, line: LinkVerb) -> Alloc<Told>
        ensures { IfOk result (λ told. (w : PlainWorld) → WorldStands self.old w →
            WorldStands self.new (link_line_at line w l).0
            × (told ≡ (link_line_at line w l).1)) }
    {
        let Some(at) = link_place(&self.links, l) else {
            return Ok(Told::refusal(self.alloc, Cause::LinkClosed));
        };
        let came = link_line(self.alloc, &mut self.nodes, &mut self.links[at], line)?;
        self.leave(at, came.over);
        Ok(came.told)
    }

    /// Makes a call that gives a vBucket another role, and that its node's arm may befall.
    fn set_role_armed(&mut self, n: u8, v: u16, call: AdminCall) -> Alloc<Told>
        requires { ChangesRole call }
        ensures { IfOk result (λ told. (w : PlainWorld) → WorldStands self.old w → Rests w →
            WorldStands self.new (with_arm n w (role_outcome n v call w)).0
            × (told ≡ (with_arm n w (role_outcome n v call w)).1)) }
    {
        let arm = self.arm(n);
        let told = self.set_role(n, v, call)?;
        self.meet_arm(n, arm, told)
    }

    /// Makes a vBucket active on a new branch, which its node's arm may befall.
    fn promote_armed(&mut self, n: u8, v: u16, uuid: u64) -> Alloc<Told>
        ensures { IfOk result (λ told. (w : PlainWorld) → WorldStands self.old w → Rests w →
            WorldStands self.new (with_arm n w (promote_step w n v uuid)).0
            × (told ≡ (with_arm n w (promote_step w n v uuid)).1)) }
    {
        let arm = self.arm(n);
        let told = self.promote(n, v, uuid)?;
        self.meet_arm(n, arm, told)
    }

    /// Gives a link's consumer the next bytes, which its node's arm may befall.
    fn down(&mut self, l: u32, bytes: u64) -> Alloc<Told>
        ensures { IfOk result (λ told. (w : PlainWorld) → WorldStands self.old w →
            WorldStands self.new (down_step w l bytes).0 × (told ≡ (down_step w l bytes).1)) }
    {
        let Some(at) = link_place(&self.links, l) else {
            return Ok(Told::refusal(self.alloc, Cause::LinkClosed));
        };
        let n = self.links[at].node;
        let arm = self.arm(n);
        let told = self.on_link(l, LinkVerb::Down { bytes })?;
        if is_broken_answer(told.answer) {
            return self.meet_broken(n, l, arm, told);
        }
        Ok(told)
    }

    /// Has the link that feeds a vBucket acknowledge what is due, and tells of that behind what is told.
    fn acknowledge(&mut self, n: u8, v: u16, told: Told) -> Alloc<Told>
        ensures { IfOk result (λ came. (w : PlainWorld) → WorldStands self.old w →
            WorldStands self.new (due_of n w told (own_link n v w.links)).0
            × (came ≡ (due_of n w told (own_link n v w.links)).1)) }
    {
        let Some(at) = own_place(&self.links, n, v) else {
            return Ok(told);
        };
        let Some(owner) = node_place(&self.nodes, n) else {
            return Ok(told);
        };
        let out = self.nodes[owner].acknowledge(v)?;
        send_on(told, out, &mut self.links[at].up)
    }

    /// Counts a vBucket's batch as saved, and has the link that feeds it acknowledge what is due then.
    fn done(&mut self, n: u8, v: u16) -> Alloc<Told>
        ensures { IfOk result (λ told. (w : PlainWorld) → WorldStands self.old w →
            WorldStands self.new (done_step w n v).0 × (told ≡ (done_step w n v).1)) }
    {
        let told = self.on_node(n, NodeLine::Done(v))?;
        if is_counted(told.answer) {
            return self.acknowledge(n, v, told);
        }
        Ok(told)
    }

    /// Carries out a line for a node, whether it is running or not.
    fn tell_node(&mut self, n: u8, what: &NodeVerb) -> Alloc<Told>
        ensures { IfOk result (λ told. (w : PlainWorld) → WorldStands self.old w → Rests w →
            WorldStands self.new (node_verb_step w n what.now).0 × (told ≡ (node_verb_step w n what.now).1)) }
    {
        match what {
            &NodeVerb::Clock { nanos } => self.on_node(n, NodeLine::Clock(nanos)),
            &NodeVerb::Stop { call, out } => Ok(self.set_arm(n, Arm::stop(call, out))),
            &NodeVerb::Fail { call } => Ok(self.set_arm(n, Arm::fail(call))),
            &NodeVerb::Crash { out } => self.crash(n, out),
            NodeVerb::Start { uuids } => self.start(n, uuids.as_slice()),
        }
    }

    /// Carries out a line for a vBucket of a node.
    fn tell_vb(&mut self, n: u8, v: u16, what: &VbVerb) -> Alloc<Told>
        ensures { IfOk result (λ told. (w : PlainWorld) → WorldStands self.old w → Rests w →
            WorldStands self.new (vb_verb_step w n v what.now).0 × (told ≡ (vb_verb_step w n v what.now).1)) }
    {
        match what {
            &VbVerb::MakeActive { uuid } => self.on_armed(n, NodeLine::VbActive(v, uuid)),
            VbVerb::MakeReplica => self.on_armed(n, NodeLine::VbReplica(v)),
            VbVerb::Chain { others } => self.on_node(n, NodeLine::Chain(v, others.as_slice())),
            &VbVerb::Promote { uuid } => self.promote_armed(n, v, uuid),
            VbVerb::Follow => self.set_role_armed(n, v, AdminCall::Follow),
            VbVerb::Dead => self.set_role_armed(n, v, AdminCall::Dead),
            VbVerb::Tick => self.on_node(n, NodeLine::Tick(v)),
            VbVerb::Seal => self.on_node(n, NodeLine::Seal(v)),
            VbVerb::Trim => self.on_node(n, NodeLine::Trim(v)),
            VbVerb::Take => self.on_node(n, NodeLine::Take(v)),
            VbVerb::Save => self.on_armed(n, NodeLine::Save(v)),
            VbVerb::Done => self.done(n, v),
            VbVerb::Stat => self.on_node(n, NodeLine::Stat(v)),
            VbVerb::Log => self.on_node(n, NodeLine::Log(v)),
            VbVerb::Show => self.on_node(n, NodeLine::Show(v)),
        }
    }

    /// Carries out the line of a number for a client's connection to a node.
    fn tell_client(&mut self, n: u8, line: u64, c: u32, what: &ClientVerb) -> Alloc<Told>
        ensures { IfOk result (λ told. (w : PlainWorld) → WorldStands self.old w →
            WorldStands self.new (on_node w n (client_verb_at n line c what.now)).0
            × (told ≡ (on_node w n (client_verb_at n line c what.now)).1)) }
    {
        match what {
            ClientVerb::Open => self.on_node(n, NodeLine::Client(c, base_of(line))),
            ClientVerb::Bytes { bytes } => self.on_node(n, NodeLine::Bytes(c, bytes.as_slice())),
            ClientVerb::Hang => self.on_node(n, NodeLine::Hang(c)),
            ClientVerb::Pull { frames } => self.on_node(n, NodeLine::Pull(c, *frames)),
        }
    }

    /// Carries out a line for a link.
    fn tell_link(&mut self, l: u32, what: LinkVerb) -> Alloc<Told>
        ensures { IfOk result (λ told. (w : PlainWorld) → WorldStands self.old w →
            WorldStands self.new (link_verb_step w l what).0 × (told ≡ (link_verb_step w l what).1)) }
    {
        match what {
            LinkVerb::Up { bytes } => self.on_link(l, LinkVerb::Up { bytes }),
            LinkVerb::Down { bytes } => self.down(l, bytes),
            LinkVerb::Pump { frames } => self.pump(l, frames),
            LinkVerb::Drop => self.on_link(l, LinkVerb::Drop),
            LinkVerb::Cut => self.on_link(l, LinkVerb::Cut),
        }
    }

    /// Carries out what a line says, by what it names.
    fn tell(&mut self, line: u64, verb: &Verb) -> Alloc<Told>
        ensures { IfOk result (λ told. (w : PlainWorld) → WorldStands self.old w → Rests w →
            WorldStands self.new (verb_step w line verb.now).0
            × (told ≡ (verb_step w line verb.now).1)) }
    {
        match verb {
            &Verb::Node { node } => self.make_node(node),
            &Verb::Link {
                id,
                from,
                to,
                vb,
                buffer,
                takeover,
            } => self.dial(LinkAsk {
                line,
                link: id,
                producer: from,
                node: to,
                vb,
                buffer,
                takeover,
            }),
            Verb::AtNode { node, what } => self.tell_node(*node, what),
            Verb::AtVb { node, vb, what } => self.tell_vb(*node, *vb, what),
            Verb::AtClient { node, client, what } => self.tell_client(*node, line, *client, what),
            &Verb::AtLink { link, what } => self.tell_link(link, what),
        }
    }

    /// Carries out a line, and gives its group. After an `Err` nothing is known of the world.
    #[tactic(auto, unfolding(crate::specs::World::world_step))]
    pub fn step(&mut self, line: &ScriptLine) -> Alloc<Group>
        ensures { IfOk result (λ group. (w : PlainWorld) → WorldStands self.old w → Rests w →
            WorldStands self.new (world_step w line.now).0 × Rests (world_step w line.now).0
            × (group ≡ (world_step w line.now).1)) }
    {
        let told = self.tell(line.line, &line.verb)?;
        self.ids.give_all(told.events.as_slice())?;
        Ok(Group {
            line: line.line,
            events: told.events,
            answer: told.answer,
        })
    }
}
