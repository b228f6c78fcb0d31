//! A vBucket that goes from one node to another, at the calls of both.
use crate::bench::{Bench, Do};
use crate::frames::{ASK, DURABLE, OPEN, SET};
use crate::lines::Told;
use node_core::{AdminCall, NodeOut};
use std::alloc::{AllocError, Global};
use std::test::Fail;
use vb_calls::VbAccess;
use vb_events::{Answer, EndReason, Why};
use vb_types::Role;
use vbucket::VbMap;

#[derive(Clone, Copy)]
pub enum Move {
    /// This is done at the node that gives the vBucket up.
    Giver(Do),
    /// This is done at the one that takes it over; what it hands out is on its way up.
    Taker(Do),
    /// What is on its way up comes to the giver, whose answers are on their way down.
    Up,
    /// The giver's connection of the link is pumped: what it puts is on its way down.
    Pump(u32),
    /// What is on its way down comes to the taker, whose answers are on their way up.
    Down,
}

/// What is done, and the answer.
pub type Turn = (Move, Answer);

/// The keys of the giver's connections: a client that writes, an indexer's, and the link's.
const WRITER: usize = 0;

const INDEXER: usize = 1;

const LINK: usize = 2;

const SHOW: Do = Do::Admin(AdminCall::Show);

/// The node 0 gives a vBucket up, and the node 1 takes it over.
#[derive(Drop)]
pub struct Pair<A> {
    alloc: Global,
    giver: Bench<A>,
    taker: Bench<VbMap>,
    up: Vec<u8>,
    down: Vec<u8>,
}

/// Appends what a node hands out, and says what it answers.
fn carry(way: &mut Vec<u8>, out: NodeOut) -> Result<Answer, AllocError> {
    let answer = out.answer;
    let carried = way.extend_from_slice(out.out.as_slice());
    drop(out);
    carried?;
    Ok(answer)
}

impl<A: VbAccess + Drop> Pair<A> {
    /// Both have no vBucket; the giver's are to be these.
    pub fn over(alloc: Global, vbs: A) -> Result<Pair<A>, AllocError> {
        Ok(Pair {
            alloc,
            giver: Bench::over(alloc, 0, vbs)?,
            taker: Bench::over(alloc, 1, VbMap::new(alloc))?,
            up: Vec::new(alloc),
            down: Vec::new(alloc),
        })
    }

    fn go_up(&mut self) -> Result<Answer, AllocError> {
        let piece = std::mem::replace(&mut self.up, Vec::new(self.alloc));
        let heard = self.giver.hear(LINK, &piece);
        drop(piece);
        carry(&mut self.down, heard?)
    }

    fn go_down(&mut self) -> Result<Answer, AllocError> {
        let piece = std::mem::replace(&mut self.down, Vec::new(self.alloc));
        let taken = self.taker.down(&piece);
        drop(piece);
        carry(&mut self.up, taken?)
    }

    fn make(&mut self, what: Move) -> Result<Answer, AllocError> {
        match what {
            Move::Giver(what) => {
                let out = self.giver.done(what)?;
                let answer = out.answer;
                drop(out);
                Ok(answer)
            }
            Move::Taker(what) => carry(&mut self.up, self.taker.done(what)?),
            Move::Up => self.go_up(),
            Move::Pump(frames) => carry(&mut self.down, self.giver.pump(LINK, frames)?),
            Move::Down => self.go_down(),
        }
    }

    /// The place of the first turn that is answered otherwise.
    fn first_other(&mut self, turns: &[Turn]) -> Result<Option<usize>, AllocError> {
        for (at, turn) in turns.iter().enumerate() {
            let (what, answer) = *turn;
            if self.make(what)? != answer {
                return Ok(Some(at));
            }
        }
        Ok(None)
    }

    /// The same; the one behind the last where the giver tells other lines, and the next one where the
    /// taker does.
    pub fn run(
        mut self,
        turns: &[Turn],
        lines: (&[Told], &[Told]),
    ) -> Result<Option<usize>, AllocError> {
        let other = self.first_other(turns)?;
        if other.is_some() {
            return Ok(other);
        }
        if !self.giver.told(lines.0) {
            return Ok(Some(turns.len()));
        }
        if !self.taker.told(lines.1) {
            return Ok(Some(turns.len() + 1));
        }
        Ok(None)
    }
}

// The writer has set a key; an indexer has a stream of the vBucket, and a link takes it over. A durable
// write is in the rest: it waits until the vBucket is given up, and its outcome is not known then. The
// indexer's stream ends, and no write is taken. The taker commits the write on the same branch.
const HANDED: [Turn; 24] = [
    (Move::Giver(Do::Lead), Answer::Ok),
    (Move::Giver(Do::Client(5)), Answer::Number(0)),
    (Move::Giver(Do::Client(6)), Answer::Number(1)),
    (Move::Giver(Do::Peer), Answer::Number(2)),
    (Move::Giver(Do::Feed(WRITER, SET)), Answer::Ok),
    (Move::Giver(Do::Feed(INDEXER, OPEN)), Answer::Ok),
    (Move::Giver(Do::Feed(INDEXER, ASK)), Answer::Ok),
    (Move::Giver(Do::Chain(2)), Answer::Ok),
    (Move::Taker(Do::Replicate), Answer::Ok),
    (Move::Taker(Do::TakeOver), Answer::Ok),
    (Move::Up, Answer::Ok),
    (Move::Pump(9), Answer::Pulled(3, Why::WaitState)),
    (Move::Down, Answer::Ok),
    (Move::Giver(Do::Feed(WRITER, DURABLE)), Answer::Ok),
    (Move::Pump(9), Answer::Pulled(0, Why::WaitState)),
    (Move::Up, Answer::Ok),
    (Move::Pump(1), Answer::Pulled(1, Why::All)),
    (
        Move::Giver(Do::Pull(INDEXER, 9)),
        Answer::Pulled(1, Why::Idle),
    ),
    (Move::Pump(9), Answer::Pulled(2, Why::WaitState)),
    (Move::Down, Answer::Ok),
    (Move::Up, Answer::Ok),
    (Move::Pump(9), Answer::Pulled(1, Why::Idle)),
    (Move::Down, Answer::Ok),
    (Move::Taker(SHOW), Answer::Ok),
];

const HANDED_GIVER: [Told; 21] = [
    Told::Branch(7),
    Told::Role(Role::Active),
    Told::Changed(1),
    Told::Other,
    Told::Other,
    Told::Granted(1),
    Told::Other,
    Told::Granted(1),
    Told::Marked(0, 1),
    Told::Put(1),
    Told::Stated(Role::Pending),
    Told::Other,
    Told::Changed(2),
    Told::Role(Role::Dead),
    Told::Other,
    Told::Marked(1, 2),
    Told::Finished(2),
    Told::Other,
    Told::Put(2),
    Told::Stated(Role::Active),
    Told::Finished(0),
];

const HANDED_TAKER: [Told; 13] = [
    Told::Role(Role::Replica),
    Told::Adopted,
    Told::Ranged(0, 1),
    Told::Got(1),
    Told::Role(Role::Pending),
    Told::Ranged(1, 2),
    Told::Got(2),
    Told::Other,
    Told::Role(Role::Active),
    Told::Committed(7, 3),
    Told::Ended(EndReason::Done),
    Told::Shown(3, 3, 3),
    Told::Other,
];

// The vBucket's role changes behind the answer, so it is not given up: the stream ends, and the taker
// stays about to take over.
const TURNED: [Turn; 14] = [
    (Move::Giver(Do::Lead), Answer::Ok),
    (Move::Giver(Do::Client(5)), Answer::Number(0)),
    (Move::Giver(Do::Client(6)), Answer::Number(1)),
    (Move::Giver(Do::Peer), Answer::Number(2)),
    (Move::Taker(Do::Replicate), Answer::Ok),
    (Move::Taker(Do::TakeOver), Answer::Ok),
    (Move::Up, Answer::Ok),
    (Move::Pump(9), Answer::Pulled(1, Why::WaitState)),
    (Move::Down, Answer::Ok),
    (Move::Up, Answer::Ok),
    (Move::Giver(Do::Admin(AdminCall::Follow)), Answer::Ok),
    (Move::Pump(9), Answer::Pulled(1, Why::Idle)),
    (Move::Down, Answer::Ok),
    (Move::Taker(SHOW), Answer::Ok),
];

const TURNED_GIVER: [Told; 6] = [
    Told::Branch(7),
    Told::Role(Role::Active),
    Told::Granted(0),
    Told::Stated(Role::Pending),
    Told::Role(Role::Replica),
    Told::Finished(2),
];

const TURNED_TAKER: [Told; 5] = [
    Told::Role(Role::Replica),
    Told::Adopted,
    Told::Role(Role::Pending),
    Told::Ended(EndReason::State),
    Told::Shown(0, 0, 0),
];

#[test]
fn vbuckets_are_handed_over(rt: HostRuntime) -> Result<(), Fail> {
    let pair = Pair::over(rt.alloc(), VbMap::new(rt.alloc()))?;
    assert_eq!(rt; pair.run(&HANDED, (&HANDED_GIVER, &HANDED_TAKER))?, None);
    Ok(())
}

#[test]
fn a_change_of_role_comes_first(rt: HostRuntime) -> Result<(), Fail> {
    let pair = Pair::over(rt.alloc(), VbMap::new(rt.alloc()))?;
    assert_eq!(rt; pair.run(&TURNED, (&TURNED_GIVER, &TURNED_TAKER))?, None);
    Ok(())
}
