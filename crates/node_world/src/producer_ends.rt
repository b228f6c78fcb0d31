//! The ends of links that a node keeps for their producers.
ghost use Rattle.std.specs.Prelude.{◌≡◌, ◌++◌, IfOk, OnOk};
ghost use Rattle.node_world.specs.Ends.{AnswersPeer, DropsPeer, FeedsPeer, OpensPeer, PullsPeer, ShutsPeer};

use crate::{Alloc, ScriptNode};
use bytes::{Bytes, BytesMut};
use mcbp_frame::Frame;
use node_core::{ConnKind, NodeOut};
use std::alloc::Global;
use vb_events::{Event, StreamName};
use vb_types::Listed;

/// The bytes that were written, handed out.
fn bytes_of(mut written: BytesMut) -> Alloc<Bytes>
    ensures { IfOk result (λ bytes. bytes ≡ written.items) }
{
    written.freeze_to(written.len())
}

/// What an answered frame handed out goes behind what the earlier ones did.
fn hand_on(out: NodeOut, events: &mut Listed<Event>, bytes: &mut BytesMut) -> Alloc<()>
    ensures events { OnOk result (events.new ≡ events.old ++ out.events) }
    ensures bytes { OnOk result (bytes.new.items ≡ bytes.old.items ++ out.out) }
{
    bytes.extend_from_slice(out.out.as_slice())?;
    events.append(out.events)
}

impl ScriptNode {
    /// Opens the connection of a link's producer, and gives its key.
    pub fn open_peer(&mut self, link: u32, base: u32) -> Alloc<usize>
        ensures { IfOk result (λ key. OpensPeer link base self.old key self.new) }
    {
        self.node.open(ConnKind::Peer {
            stream: StreamName::Link(link),
            base,
        })
    }

    /// Answers a frame of a link's consumer, and tells what became of durable writes with it.
    fn answer_peer(&mut self, alloc: Global, key: usize, frame: &Frame) -> Alloc<NodeOut>
        ensures { IfOk result (λ out. AnswersPeer key frame.now self.old out self.new) }
    {
        let mut out = self.node.answer(key, frame)?;
        let outcomes = std::mem::replace(&mut out.resolved, Listed::new(alloc));
        self.post_all(alloc, outcomes.as_slice(), &mut out.events)?;
        Ok(out)
    }

    /// Gives a link's producer the next bytes from its consumer: the frames that are whole now are
    /// answered, and what becomes of durable writes with one of them is told before the next.
    pub fn feed_peer(&mut self, alloc: Global, key: usize, piece: &[u8]) -> Alloc<NodeOut>
        ensures { IfOk result (λ out. FeedsPeer key piece.now self.old out self.new) }
    {
        let frames = self.node.hear(key, piece)?;
        let mut events = Listed::new(alloc);
        let mut bytes = BytesMut::new(alloc);
        for frame in &frames {
            let out = self.answer_peer(alloc, key, frame)?;
            hand_on(out, &mut events, &mut bytes)?;
        }
        let answers = bytes_of(bytes)?;
        Ok(NodeOut::done(alloc, events, answers))
    }

    /// Has a link's producer put frames of its streams.
    pub fn pull(&mut self, key: usize, frames: u32) -> Alloc<NodeOut>
        ensures { IfOk result (λ out. PullsPeer key frames self.old out self.new) }
    {
        self.node.pull(key, frames)
    }

    /// Takes the cursor away of the stream of the vBucket `v` of a link's producer.
    pub fn drop_peer(&mut self, key: usize, v: u16) -> NodeOut
        ensures { DropsPeer key v self.old result self.new }
    {
        self.node.drop_cursor(key, v)
    }

    /// Closes the connection of a link's producer.
    pub fn shut_peer(&mut self, conn: usize)
        ensures { ShutsPeer conn self.old self.new }
    {
        self.node.shut(conn);
    }
}
