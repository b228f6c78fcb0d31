//! A node at work, over vBuckets and journals that nobody else calls. A test is a table of what is done, of the
//! bytes for the other side and of the answer.
use crate::lines::{Told, outline};
use bytes::{Bytes, BytesMut};
use disk_journals::DiskJournals;
use durability::Chain;
use mcbp_frame::Frame;
use node_core::{AdminCall, ConnKind, Node, NodeOut};
use std::alloc::{AllocError, Global};
use std::test::Fail;
use vb_calls::{Resolution, Resolved, VbAccess};
use vb_disk::MemDisk;
use vb_events::{Answer, Cause, Event, StreamName};
use vb_types::{FlushPart, Listed, Role};
use vbucket::VbMap;

/// What the clock shows.
const CLOCK: u64 = 131_072;

#[derive(Clone, Copy)]
pub enum Do {
    /// Makes the vBucket 3, active on branch 7.
    Lead,
    /// Makes the vBucket 3, a replica.
    Replicate,
    /// Opens a connection for this client. Its key is the answer.
    Client(u32),
    /// Opens the connection of link 1, whose streams have the base 1. Its key is the answer.
    Peer,
    /// Gives the client's connection under this key these bytes.
    Feed(usize, &'static [u8]),
    /// Gives the peer's connection under this key these bytes, and has each frame answered.
    Hear(usize, &'static [u8]),
    /// Tells the connection under this key that the write of its first wait is given up.
    Post(usize),
    /// Sets the chain of the vBucket 3: the node and this one.
    Chain(u8),
    /// Gives up what is late by this clock.
    Tick(u64),
    /// Has the dial of the vBucket 3 acknowledge what is due.
    Acknowledge,
    /// Has the connection under this key give vBuckets up, where so many frames are to be put next.
    GiveUp(usize, u32),
    /// Has the connection under this key put so many frames.
    Pull(usize, u32),
    Shut(usize),
    /// Dials for the vBucket 3 over link 9.
    Dial,
    /// Dials so, with this buffer.
    DialWith(u32),
    /// Dials for the vBucket 3 over link 9, to take it over.
    TakeOver,
    /// Gives the dial of the vBucket 3 these bytes.
    Down(&'static [u8]),
    CutDial,
    /// Makes a step of writing the vBucket 3 down.
    Flush(FlushPart),
    Admin(AdminCall),
}

/// What is done, the bytes for the other side, and the answer.
pub type Step = (Do, &'static [u8], Answer);

/// The number by which the waits of a client are numbered.
const BASE: u32 = 5;

/// The write of a client's first wait is given up.
const GIVEN_UP: Resolved = Resolved {
    waiter: 5 * 4_294_967_296 + 1,
    how: Resolution::Ambiguous,
};

/// The chain of a node and another one, if there can be one.
fn chain_of(alloc: Global, active: u8, other: u8) -> Result<Option<Chain>, AllocError> {
    let mut others = Vec::new(alloc);
    others.push(Some(other))?;
    Ok(Chain::new(active, others))
}

/// A node, and the lines so far.
#[derive(Drop)]
pub struct Bench<A> {
    alloc: Global,
    node: Node<A, DiskJournals<MemDisk>>,
    told: Vec<Told>,
}

impl<A: VbAccess + Drop> Bench<A> {
    /// A node of this number over these vBuckets, of which there is none, and with a blank journal for
    /// the vBucket 3.
    pub fn over(alloc: Global, number: u8, vbs: A) -> Result<Bench<A>, AllocError> {
        let mut disks = DiskJournals::new(alloc);
        disks.add(3, MemDisk::new(alloc)?)?;
        Ok(Bench {
            alloc,
            node: Node::over(alloc, number, vbs, disks),
            told: Vec::new(alloc),
        })
    }

    fn open(&mut self, kind: ConnKind) -> Result<NodeOut, AllocError> {
        let key = self.node.open(kind)?;
        Ok(NodeOut::answered(self.alloc, Answer::Number(key as u64)))
    }

    fn open_client(&mut self, client: u32) -> Result<NodeOut, AllocError> {
        self.open(ConnKind::Client { client, base: BASE })
    }

    fn open_peer(&mut self) -> Result<NodeOut, AllocError> {
        let stream = StreamName::Link(1);
        self.open(ConnKind::Peer { stream, base: 1 })
    }

    /// Has a frame answered, keeps the lines, and appends the bytes.
    fn answer(
        &mut self,
        key: usize,
        frame: &Frame,
        answers: &mut BytesMut,
    ) -> Result<(), AllocError> {
        let out = self.node.answer(key, frame)?;
        let kept = self.keep(out.events.as_slice());
        let added = answers.extend_from_slice(out.out.as_slice());
        drop(out);
        kept?;
        added
    }

    /// Has each frame of these bytes answered, and hands all answers out.
    pub fn hear(&mut self, key: usize, piece: &[u8]) -> Result<NodeOut, AllocError> {
        let mut answers = BytesMut::new(self.alloc);
        let frames = self.node.hear(key, piece)?;
        for frame in &frames {
            self.answer(key, frame, &mut answers)?;
        }
        drop(frames);
        self.handed(answers)
    }

    /// These bytes alone.
    fn handed(&self, mut answers: BytesMut) -> Result<NodeOut, AllocError> {
        let out = answers.freeze_to(answers.len())?;
        Ok(NodeOut::done(self.alloc, Listed::new(self.alloc), out))
    }

    fn set_chain(&mut self, other: u8) -> Result<NodeOut, AllocError> {
        match chain_of(self.alloc, self.node.number(), other)? {
            Some(chain) => self.node.set_chain(3, chain),
            None => Ok(NodeOut::refused(self.alloc, Cause::ChainBad)),
        }
    }

    /// What the node hands out.
    fn make(&mut self, what: Do) -> Result<NodeOut, AllocError> {
        match what {
            Do::Client(client) => self.open_client(client),
            Do::Peer => self.open_peer(),
            Do::Lead => self.node.make_vb(3, Role::Active, 7),
            Do::Replicate => self.node.make_vb(3, Role::Replica, 0),
            Do::Hear(key, piece) => self.hear(key, piece),
            Do::Feed(key, piece) => self.node.feed(key, piece, CLOCK),
            Do::Post(key) => self.node.post(key, GIVEN_UP, CLOCK),
            Do::Chain(other) => self.set_chain(other),
            Do::Tick(clock) => self.node.tick(3, clock),
            Do::Acknowledge => self.node.acknowledge(3),
            Do::GiveUp(key, frames) => self.node.give_up(key, frames),
            Do::Pull(key, frames) => self.node.pull(key, frames),
            Do::Shut(key) => Ok(self.node.shut(key)),
            Do::Dial => self.node.dial(3, 9, 0, false, true),
            Do::DialWith(buffer) => self.node.dial(3, 9, buffer, false, true),
            Do::TakeOver => self.node.dial(3, 9, 0, true, true),
            Do::Down(piece) => self.node.feed_dial(3, piece),
            Do::CutDial => self.node.shut_dial(3),
            Do::Flush(part) => self.node.flush(3, part),
            Do::Admin(call) => self.node.admin(3, call),
        }
    }

    fn keep(&mut self, lines: &[Event]) -> Result<(), AllocError> {
        for line in lines {
            self.told.push(outline(line))?;
        }
        Ok(())
    }

    /// What the node hands out. Keeps the lines.
    pub fn done(&mut self, what: Do) -> Result<NodeOut, AllocError> {
        let out = self.make(what)?;
        match self.keep(out.events.as_slice()) {
            Ok(()) => Ok(out),
            Err(stop) => {
                drop(out);
                Err(stop)
            }
        }
    }

    /// Gives the dial of the vBucket 3 these bytes. Keeps the lines.
    pub fn down(&mut self, piece: &[u8]) -> Result<NodeOut, AllocError> {
        let out = self.node.feed_dial(3, piece)?;
        match self.keep(out.events.as_slice()) {
            Ok(()) => Ok(out),
            Err(stop) => {
                drop(out);
                Err(stop)
            }
        }
    }

    /// Tells the first connections of an outcome, each that awaits it. Keeps the lines.
    fn post(&mut self, outcome: Resolved) -> Result<(), AllocError> {
        for key in 0..4 {
            if self.node.awaits(key, outcome.waiter) {
                let out = self.node.post(key, outcome, CLOCK)?;
                let kept = self.keep(out.events.as_slice());
                drop(out);
                kept?;
            }
        }
        Ok(())
    }

    fn post_all(&mut self, outcomes: &[Resolved]) -> Result<(), AllocError> {
        for outcome in outcomes {
            self.post(*outcome)?;
        }
        Ok(())
    }

    /// Has the connection under this key give vBuckets up, tells who waited there, and has it put so
    /// many frames. Keeps the lines.
    pub fn pump(&mut self, key: usize, frames: u32) -> Result<NodeOut, AllocError> {
        let given = self.done(Do::GiveUp(key, frames))?;
        let posted = self.post_all(given.resolved.as_slice());
        drop(given);
        posted?;
        self.done(Do::Pull(key, frames))
    }

    /// Whether it went as told. Keeps the lines.
    fn went(&mut self, step: &Step) -> Result<bool, AllocError> {
        let (what, bytes, answer) = *step;
        let out = self.done(what)?;
        let is_so = out.out.as_slice() == bytes && out.answer == answer;
        drop(out);
        Ok(is_so)
    }

    /// Whether these are all lines so far.
    pub fn told(&self, lines: &[Told]) -> bool {
        self.told.as_slice() == lines
    }

    /// The place of the first step that goes otherwise.
    fn first_other(&mut self, steps: &[Step]) -> Result<Option<usize>, AllocError> {
        for (at, step) in steps.iter().enumerate() {
            if !self.went(step)? {
                return Ok(Some(at));
            }
        }
        Ok(None)
    }

    /// The place of the first step that goes otherwise; the one behind the last where other lines
    /// are told.
    fn run(mut self, steps: &[Step], lines: &[Told]) -> Result<Option<usize>, AllocError> {
        let other = self.first_other(steps)?;
        if other.is_none() && self.told.as_slice() != lines {
            return Ok(Some(steps.len()));
        }
        Ok(other)
    }
}

/// The number of a node, what is done there, and the lines that it tells.
pub type Talk = (u8, &'static [Step], &'static [Told]);

/// The place of the first step of a talk that goes otherwise, at a node with no vBucket.
pub fn first_other(alloc: Global, talk: &Talk) -> Result<Option<usize>, Fail> {
    let (number, steps, lines) = *talk;
    let bench = Bench::over(alloc, number, VbMap::new(alloc))?;
    Ok(bench.run(steps, lines)?)
}

/// The place of the first talk that goes otherwise, and that of the step.
pub fn first_other_of(alloc: Global, talks: &[Talk]) -> Result<Option<(usize, usize)>, Fail> {
    for (at, talk) in talks.iter().enumerate() {
        if let Some(place) = first_other(alloc, talk)? {
            return Ok(Some((at, place)));
        }
    }
    Ok(None)
}
