//! A peer's connection.
ghost use Rattle.std.specs.Prelude.{◌≡◌, false, true, [], IfOk, OnOk, OnErr};
ghost use Rattle.{dcp_producer.specs.{Dropping.{cursor_dropped}, Ending.{end_closed}}, node_core.specs.Outs.{peer_out, peer_result_by, pulled_by}, node_core.specs.Peers.{new_peer, peer_heard, peer_frames, peer_answered, peer_pulled, peer_ended}};
ghost use Rattle.{node_core.specs.GivingUp.{gave_of, peer_gives_up}, vb_calls.specs.Jobs.{RanJob, BeganJob}, vb_calls.specs.Programs.{Ran, Began}};

use crate::giving::Gave;
use crate::out::bytes_of;
use crate::{Alloc, NodeOut};
use dcp_producer::{Desk, Producer};
use mcbp_frame::{Frame, FrameReader};
use std::alloc::{AllocError, Global};
use std::marker::Model;
use vb_calls::{Journals, VbAccess};
use vb_events::Answer;

/// A peer's connection: the bytes that came and are no whole frame yet, and the producer of its
/// streams, in a box, as each call takes the connection out of its node's table and puts it back.
/// After want of memory it is spent: it does nothing any more but close its streams.
#[derive(Drop)]
pub struct Peer {
    reader: FrameReader,
    producer: Box<Producer>,
    spent: bool,
}

impl Model for Peer {
    ghost use Rattle.node_core.specs.Peers.{KeptPeer};

    ghost Value = { KeptPeer };

    ghost view = { λ p. record { plain = record { heard = p.reader; producer = p.producer.value.plain }; spent = p.spent } };
}

impl Peer {
    /// A new connection.
    pub fn new(alloc: Global, desk: Desk) -> Alloc<Peer>
        ensures { IfOk result (λ peer. peer ≡ record { plain = new_peer desk; spent = false }) }
    {
        Ok(Peer {
            reader: FrameReader::new(alloc)?,
            producer: Box::new(alloc, Producer::new(alloc, desk))?,
            spent: false,
        })
    }

    /// Takes the next bytes from the peer, and gives the frames that are whole now.
    pub fn hear(&mut self, piece: &[u8]) -> Alloc<Vec<Frame>>
        ensures ok { IfOk result (λ frames. frames.items ≡ peer_frames piece.now self.old.plain) }
        ensures heard { OnOk result (self.new ≡ record { plain = peer_heard piece.now self.old.plain; spent = false }) }
        ensures kept { OnOk result (self.old.spent ≡ false) }
        ensures spent { OnErr result (self.new.spent ≡ true) }
        ensures same { OnErr result (self.old.spent ≡ true → self.new ≡ self.old) }
        ensures desk { self.new.plain.producer.desk ≡ self.old.plain.producer.desk }
    {
        if std::mem::replace(&mut self.spent, true) {
            return Err(AllocError);
        }
        self.reader.feed(piece)?;
        let frames = self.reader.frames()?;
        self.spent = false;
        Ok(frames)
    }

    /// Answers a frame of the peer.
    #[tactic(auto, using(vb_calls::proofs::Runs::runs))]
    pub fn answer<A: VbAccess>(
        &mut self,
        alloc: Global,
        vbs: &mut A,
        frame: &Frame,
    ) -> Alloc<NodeOut>
        ensures ok { IfOk result (λ out. Ran A.step (peer_answered frame.now self.old.plain) vbs.old (peer_result_by self.new.plain out) vbs.new) }
        ensures said { IfOk result (λ out. out ≡ peer_out (peer_result_by self.new.plain out)) }
        ensures kept { IfOk result (λ out. (self.old.spent ≡ false) × (self.new.spent ≡ false)) }
        ensures err { OnErr result (Began A.step (peer_answered frame.now self.old.plain) vbs.old vbs.new) }
        ensures spent { OnErr result (self.new.spent ≡ true) }
        ensures over { OnErr result (self.old.spent ≡ true → vbs.new ≡ vbs.old) }
        ensures same { OnErr result (self.old.spent ≡ true → self.new ≡ self.old) }
        ensures desk { self.new.plain.producer.desk ≡ self.old.plain.producer.desk }
    {
        if std::mem::replace(&mut self.spent, true) {
            return Err(AllocError);
        }
        let asked = self.producer.answer(vbs, frame)?;
        let out = bytes_of(asked.out)?;
        self.spent = false;
        Ok(NodeOut::done(alloc, asked.events, out).resolving(asked.resolved))
    }

    /// Puts at most so many frames of the streams.
    #[tactic(auto, using(vb_calls::proofs::JobRuns::jobs))]
    pub fn pull<A: VbAccess, J: Journals>(
        &mut self,
        alloc: Global,
        vbs: &mut A,
        disks: &mut J,
        frames: u32,
    ) -> Alloc<NodeOut>
        ensures ok { IfOk result (λ out. RanJob A.step J.asks (peer_pulled frames self.old.plain) vbs.old disks.old (pulled_by self.new.plain out) vbs.new disks.new) }
        ensures said { IfOk result (λ out. (out.closed ≡ false) × (out.resolved ≡ [])) }
        ensures kept { IfOk result (λ out. (self.old.spent ≡ false) × (self.new.spent ≡ false)) }
        ensures err { OnErr result (BeganJob A.step J.asks (peer_pulled frames self.old.plain) vbs.old disks.old vbs.new disks.new) }
        ensures spent { OnErr result (self.new.spent ≡ true) }
        ensures over { OnErr result (self.old.spent ≡ true → (vbs.new ≡ vbs.old) × (disks.new ≡ disks.old)) }
        ensures same { OnErr result (self.old.spent ≡ true → self.new ≡ self.old) }
        ensures desk { self.new.plain.producer.desk ≡ self.old.plain.producer.desk }
    {
        if std::mem::replace(&mut self.spent, true) {
            return Err(AllocError);
        }
        let pulled = self.producer.pull(vbs, disks, frames)?;
        let out = bytes_of(pulled.out)?;
        self.spent = false;
        let answer = Answer::Pulled(pulled.count, pulled.halt.why());
        Ok(NodeOut::told(alloc, pulled.events, out, answer))
    }

    /// Has the streams that hand vBuckets of the node `node` over give them up, where so many frames are
    /// to be put next.
    #[tactic(auto, using(vb_calls::proofs::Runs::runs))]
    pub fn give_up<A: VbAccess>(
        &mut self,
        alloc: Global,
        vbs: &mut A,
        node: u8,
        frames: u32,
    ) -> Alloc<Gave>
        ensures ok { IfOk result (λ gave. Ran A.step (peer_gives_up frames self.old.plain) vbs.old (record { peer = self.new.plain; given = gave.given }) vbs.new) }
        ensures said { IfOk result (λ gave. gave ≡ gave_of node gave.given) }
        ensures kept { IfOk result (λ gave. (self.old.spent ≡ false) × (self.new.spent ≡ false)) }
        ensures err { OnErr result (Began A.step (peer_gives_up frames self.old.plain) vbs.old vbs.new) }
        ensures spent { OnErr result (self.new.spent ≡ true) }
        ensures over { OnErr result (self.old.spent ≡ true → vbs.new ≡ vbs.old) }
        ensures same { OnErr result (self.old.spent ≡ true → self.new ≡ self.old) }
        ensures desk { self.new.plain.producer.desk ≡ self.old.plain.producer.desk }
    {
        if std::mem::replace(&mut self.spent, true) {
            return Err(AllocError);
        }
        let given = self.producer.give_up(vbs, frames)?;
        let gave = Gave::of(alloc, node, given)?;
        self.spent = false;
        Ok(gave)
    }

    /// Ends the streams that a change of role at the vBucket `vb` ended.
    pub fn ended(&mut self, vb: u16, ids: &[u64])
        ensures { self.new ≡ record self.old { plain = peer_ended vb ids.now self.old.plain } }
    {
        self.producer.ended(vb, ids);
    }

    /// Takes the cursor of its stream of the vBucket `vb` away: whether it had one.
    pub fn drop_cursor<A: VbAccess>(&self, vbs: &mut A, vb: u16) -> bool
        ensures { Ran A.step (cursor_dropped vb self.now.plain.producer) vbs.old result vbs.new }
    {
        self.producer.drop_cursor(vbs, vb)
    }

    /// Closes the streams at their vBuckets, since the connection ends.
    pub fn close<A: VbAccess>(&self, vbs: &mut A)
        ensures { Ran A.step (end_closed self.now.plain.producer) vbs.old tt vbs.new }
    {
        self.producer.close(vbs);
    }
}
