//! Nodes that stop, and nodes that start again.
ghost use Rattle.std.specs.Prelude.{◌≡◌, ◌++◌, [], IfOk, OnOk, Some};
ghost use Rattle.node_core.specs.Outs.{start_by};
ghost use Rattle.node_world.specs.Starts.{MeetsArm, StartsDisks, StartsFrom, StartsNext, StartsOne, StartsUp, Stops};
ghost use Rattle.vb_disk.specs.declared.fuse.Fuse.TheVariants.{Off};
ghost use Rattle.node_world.specs.{Arms.{fired_by, no_arm}, Nodes.{done}, Power.{first_no, opening_told}};

use crate::{Alloc, Arm, Fired, ScriptNode, Told};
use disk_journals::{DiskJournals, Disks, lay_arm};
use node_core::{LoadFault, Loaded, Node, Numbered, Started};
use std::alloc::{AllocError, Global};
use std::mem::replace;
use vb_disk::{Fuse, FuseDisk, Outcome};
use vb_events::{Answer, Cause, Event};
use vb_types::Listed;
use vbucket::VbMap;

/// The first answer of two that is not Ok.
fn first_no(before: Answer, next: Answer) -> Answer
    ensures { result ≡ first_no before next }
{
    match before {
        Answer::Ok => next,
        _ => before,
    }
}

/// Lines go behind the others.
fn put_lines(events: &mut Listed<Event>, lines: Vec<Event>) -> Alloc<()>
    ensures { OnOk result (events.new ≡ events.old ++ lines.items) }
{
    for line in lines {
        events.push(line)?;
    }
    Ok(())
}

/// What a start told goes behind what was told before.
fn tell_start(told: &mut Told, one: Started) -> Alloc<()>
    ensures { OnOk result (told.new ≡ record { events = told.old.events ++ (start_by one).events; answer = first_no told.old.answer one.answer }) }
{
    let Started { lines, answer } = one;
    put_lines(&mut told.events, lines)?;
    told.answer = first_no(told.answer, answer);
    Ok(())
}

/// What is told where an arm fired before a vBucket was loaded.
fn opening_told(alloc: Global, n: u8, fired: Fired) -> Alloc<Told>
    ensures { IfOk result (λ told. told ≡ opening_told n fired) }
{
    let (line, cause) = match fired {
        Fired::No => return Ok(Told::refusal(alloc, Cause::Disk)),
        Fired::Failed => (Event::CallFailed { node: n }, Cause::Disk),
        Fired::Stopped => (Event::NodeStopped { node: n }, Cause::Stopped),
    };
    Ok(Told {
        events: Listed::one(alloc, line)?,
        answer: Answer::No(cause),
    })
}

impl ScriptNode {
    /// The node stops: a crash leaves this of its disks, and nothing else is left of it.
    pub fn power_off(&mut self, alloc: Global, out: Outcome)
        ensures { Stops out self.old self.new }
    {
        let number = self.node.number();
        let stopped = replace(self, ScriptNode::new(alloc, number));
        self.off = Some(stopped.node.into_journals().crash(out));
    }

    /// One more vBucket takes its new branch, under the arm.
    fn start_one(&mut self, v: u16, uuid: u64) -> Alloc<Started>
        ensures { IfOk result (λ told. StartsOne (v, uuid) self.old told self.new) }
    {
        self.place_arm(v);
        let told = self.node.start(v, uuid)?;
        self.lift_arm(v);
        Ok(told)
    }

    /// The arm fired, or not, when one more vBucket had started; and whether the node stopped.
    fn meet_arm(&mut self, alloc: Global, arm: Arm, told: &mut Told) -> Alloc<bool>
        ensures { IfOk result (λ over. MeetsArm arm self.old told.old self.new told.new over) }
    {
        let node = self.node.number();
        match arm.fired(self.arm.fuse) {
            Fired::No => Ok(false),
            Fired::Failed => {
                told.events.push(Event::CallFailed { node })?;
                Ok(false)
            }
            Fired::Stopped => {
                told.events.push(Event::NodeStopped { node })?;
                told.answer = Answer::No(Cause::Stopped);
                self.power_off(alloc, arm.out);
                Ok(true)
            }
        }
    }

    /// One more vBucket takes its new branch, behind what was told so far; and whether the node
    /// stopped meanwhile.
    fn start_one_more(&mut self, alloc: Global, v: u16, uuid: u64, told: &mut Told) -> Alloc<bool>
        ensures { IfOk result (λ over. StartsNext (v, uuid) self.old told.old self.new told.new over) }
    {
        let arm = self.arm;
        let one = self.start_one(v, uuid)?;
        tell_start(told, one)?;
        self.meet_arm(alloc, arm, told)
    }

    /// vBuckets that were active take their new branches one after the other. Where the node stops
    /// meanwhile, it is down again, and the later ones do not start.
    fn start_all(&mut self, alloc: Global, starts: &[(u16, u64)]) -> Alloc<Told>
        ensures { IfOk result (λ told. StartsFrom starts.now (done []) self.old told self.new) }
    {
        let mut told = Told::done(Listed::new(alloc));
        for &(v, uuid) in starts {
            if self.start_one_more(alloc, v, uuid, &mut told)? {
                return Ok(told);
            }
        }
        Ok(told)
    }

    /// It is running, with what was loaded, and with nothing else.
    fn rise(
        &mut self,
        alloc: Global,
        node: Node<VbMap, DiskJournals<FuseDisk>>,
        made: usize,
        left: Fuse,
    )
        ensures { self.new ≡ record self.old { node = node; clients = []; clock = 0; made = made; arm = record self.old.arm { fuse = left } } }
    {
        self.node = node;
        self.clients = Numbered::new(alloc);
        self.clock = 0;
        self.made = made;
        self.arm.fuse = left;
    }

    /// It stays down, with its disks, and with this left of its arm.
    fn stay_down(&mut self, disks: Disks<FuseDisk>, left: Fuse)
        ensures { self.new ≡ record self.old { off = Some disks; arm = record self.old.arm { fuse = left } } }
    {
        self.off = Some(disks);
        self.arm.fuse = left;
    }

    /// A disk was not opened: it stays down, and no arm is left.
    fn not_opened(&mut self, alloc: Global, disks: Disks<FuseDisk>) -> Alloc<Told>
        ensures told { IfOk result (λ told. told ≡ opening_told self.old.node.number (fired_by self.old.arm.fuse Off)) }
        ensures down { self.new ≡ record self.old { off = Some disks; arm = no_arm } }
    {
        let fired = self.arm.fired(Fuse::Off);
        self.off = Some(disks);
        self.arm = Arm::off();
        opening_told(alloc, self.node.number(), fired)
    }

    /// Opens the disks of a node that is down, and starts it. Where a disk is not opened, or there
    /// are too few ids, it stays down.
    fn start_with_ids(
        &mut self,
        alloc: Global,
        mut disks: Disks<FuseDisk>,
        ids: &[u64],
    ) -> Alloc<Told>
        ensures { IfOk result (λ told. StartsDisks disks.items ids.now self.old told self.new) }
    {
        let n = self.node.number();
        let arm = self.arm;
        let left = lay_arm(&mut disks, arm.fuse);
        match Node::load(alloc, n, disks, ids) {
            Ok(Loaded { node, starts, made }) => {
                self.rise(alloc, node, made, left);
                self.start_all(alloc, &starts)
            }
            Err(LoadFault::IdsShort { disks }) => {
                self.stay_down(disks, left);
                Ok(Told::refusal(alloc, Cause::IdsShort))
            }
            Err(LoadFault::DiskFailed { disks }) => self.not_opened(alloc, disks),
            Err(LoadFault::Damaged { disks, .. }) => self.not_opened(alloc, disks),
            Err(LoadFault::NoMemory { .. }) => Err(AllocError),
        }
    }

    /// Starts a node that is down.
    pub fn start(&mut self, alloc: Global, ids: &[u64]) -> Alloc<Told>
        ensures { IfOk result (λ told. StartsUp ids.now self.old told self.new) }
    {
        match self.off.take() {
            None => Ok(Told::refusal(alloc, Cause::NodeUp)),
            Some(disks) => self.start_with_ids(alloc, disks, ids),
        }
    }
}
