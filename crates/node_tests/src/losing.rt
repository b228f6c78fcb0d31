//! A vBucket that is not given up, since it lost the stream.
ghost use Rattle.vbucket.specs.Stands.{has_slot};

use crate::bench::Do;
use crate::handovers::{Move, Pair, Turn};
use crate::lines::Told;
use std::alloc::AllocError;
use std::test::Fail;
use vb_calls::{VbAccess, VbCall, VbReply};
use vb_events::{Answer, EndReason, Why};
use vb_types::Role;
use vbucket::VbMap;

/// vBuckets that are to be given up for a stream which they do not know any more: none has the number
/// 0.
#[derive(Drop)]
struct Losing {
    vbs: VbMap,
}

impl VbAccess for Losing {
    ghost has = { λ losing v. has_slot losing.vbs v };

    fn is_there(&self, v: u16) -> bool {
        self.vbs.has(v)
    }

    ghost step = { λ old v call reply new. Unit {0} };

    fn call(&mut self, v: u16, call: VbCall) -> Result<Option<VbReply>, AllocError> {
        match call {
            VbCall::Yield { .. } => self.vbs.call(v, VbCall::Yield { id: 0 }),
            other => self.vbs.call(v, other),
        }
    }

    ghost made = { λ old v node role uuid fresh new. Unit {0} };

    fn make(&mut self, v: u16, node: u8, role: Role, uuid: u64) -> Result<bool, AllocError> {
        self.vbs.make(v, node, role, uuid)
    }
}

// The stream is ended, and no line tells of a role: the vBucket stays active, and the taker about to
// take over.
const LOST: [Turn; 13] = [
    (Move::Giver(Do::Lead), Answer::Ok),
    (Move::Giver(Do::Client(5)), Answer::Number(0)),
    (Move::Giver(Do::Client(6)), Answer::Number(1)),
    (Move::Giver(Do::Peer), Answer::Number(2)),
    (Move::Taker(Do::Replicate), Answer::Ok),
    (Move::Taker(Do::TakeOver), Answer::Ok),
    (Move::Up, Answer::Ok),
    (Move::Pump(9), Answer::Pulled(1, Why::WaitState)),
    (Move::Down, Answer::Ok),
    (Move::Up, Answer::Ok),
    (Move::Giver(Do::GiveUp(2, 0)), Answer::Ok),
    (Move::Pump(9), Answer::Pulled(1, Why::Idle)),
    (Move::Down, Answer::Ok),
];

const LOST_GIVER: [Told; 5] = [
    Told::Branch(7),
    Told::Role(Role::Active),
    Told::Granted(0),
    Told::Stated(Role::Pending),
    Told::Finished(2),
];

const LOST_TAKER: [Told; 4] = [
    Told::Role(Role::Replica),
    Told::Adopted,
    Told::Role(Role::Pending),
    Told::Ended(EndReason::State),
];

#[test]
fn a_vbucket_is_not_given_up(rt: HostRuntime) -> Result<(), Fail> {
    let vbs = Losing {
        vbs: VbMap::new(rt.alloc()),
    };
    let pair = Pair::over(rt.alloc(), vbs)?;
    assert_eq!(rt; pair.run(&LOST, (&LOST_GIVER, &LOST_TAKER))?, None);
    Ok(())
}
