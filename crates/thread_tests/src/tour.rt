//! What docs/TOUR-THREADS.md shows: two seats of one vBucket, the calls in the page's order, and each answer.
ghost use Rattle.std.specs.Prelude.{◌≡◌, IfOk};
ghost use Rattle.vb_turn.specs.Turning.{all_parts};
ghost use Rattle.vb_turn.specs.Words.{IsSeatOf, view};

use std::alloc::Global;
use std::sync::Wait;
use std::test::Fail;
use vb_calls::{VbAnswer, VbCall, VbReply};
use vb_turn::ALL_PARTS;
use vb_types::{Image, Key, Op, Role, Value, Write};
use vbucket::{TurnVb, VBucket, VbSeat};

/// A vBucket that is active, and its seat.
fn opened(alloc: Global) -> Result<(TurnVb, VbSeat), Fail>
    ensures { IfOk result (λ t. IsSeatOf t.0 t.1 × ((view t.1).parts ≡ all_parts)) }
{
    let vb = VBucket::new(alloc, 0, Role::Active, 7)?;
    Ok(TurnVb::new(alloc, vb)?)
}

/// A write of this key.
fn stores(alloc: Global, key: &[u8]) -> Result<VbCall, Fail> {
    let key = Key::new(alloc, key)?.ok_or("key")?;
    let value = Value::new(alloc, b"v")?.ok_or("value")?;
    let write = Write {
        op: Op::Set,
        key,
        value,
        flags: 0,
        expiry: 0,
        datatype: 0,
        cas: 0,
    };
    Ok(VbCall::Store { write, clock: 0 })
}

/// Back to nothing.
fn rolls(alloc: Global) -> VbCall {
    VbCall::RollTo {
        at: 0,
        image: Image::new(alloc),
        cas: 0,
    }
}

/// The seqno that an answer tells.
fn seqno_in(reply: &VbReply) -> Option<u64> {
    match &reply.answer {
        VbAnswer::Stored { seq, .. } => Some(*seq),
        VbAnswer::Num(now) => Some(*now),
        VbAnswer::Stat { high, .. } => Some(*high),
        _ => None,
    }
}

/// Stores a key through a seat, and tells the seqno.
fn store<W: Wait>(
    rt: &W,
    alloc: Global,
    turn: &TurnVb,
    seat: &mut VbSeat,
    key: &[u8],
) -> Result<Option<u64>, Fail>
    requires { IsSeatOf turn.now seat.old }
    ensures { IsSeatOf turn.now seat.new }
{
    let call = stores(alloc, key)?;
    Ok(seqno_in(&turn.call(rt, seat, call)?))
}

/// Makes the vBucket a replica through a seat, takes all from it, and tells its seqno then.
fn roll_back<W: Wait>(
    rt: &W,
    alloc: Global,
    turn: &TurnVb,
    seat: &mut VbSeat,
) -> Result<Option<u64>, Fail>
    requires { IsSeatOf turn.now seat.old }
    ensures { IsSeatOf turn.now seat.new }
{
    turn.call(rt, seat, VbCall::Follow)?;
    Ok(seqno_in(&turn.call(rt, seat, rolls(alloc))?))
}

/// Two seats of a vBucket, of which each has stored a key.
fn written<W: Wait>(rt: &W, alloc: Global) -> Result<(TurnVb, VbSeat, VbSeat), Fail>
    ensures { IfOk result (λ t. IsSeatOf t.0 t.1 × IsSeatOf t.0 t.2) }
{
    let (turn, mut one) = opened(alloc)?;
    let mut two = turn.split_seat(&mut one, 1);
    store(rt, alloc, &turn, &mut one, b"a")?;
    store(rt, alloc, &turn, &mut two, b"b")?;
    Ok((turn, one, two))
}

#[test]
fn two_seats_share_one_history(rt: HostRuntime) -> Result<(), Fail> {
    let alloc = rt.alloc();
    let (turn, mut one) = opened(alloc)?;
    let mut two = turn.split_seat(&mut one, 1);
    assert_eq!(rt; one.parts(), 4_294_967_295);
    assert_eq!(rt; two.parts(), 1);
    assert_eq!(rt; store(&rt, alloc, &turn, &mut one, b"a")?, Some(1));
    assert_eq!(rt; turn.seen_high(&mut two), 1);
    assert_eq!(rt; store(&rt, alloc, &turn, &mut two, b"b")?, Some(2));
    assert_eq!(rt; turn.seen_high(&mut one), 2);
    Ok(())
}

#[test]
fn a_rollback_leaves_the_number(rt: HostRuntime) -> Result<(), Fail> {
    let (turn, mut one, mut two) = written(&rt, rt.alloc())?;
    assert_eq!(rt; roll_back(&rt, rt.alloc(), &turn, &mut two)?, Some(0));
    assert_eq!(rt; turn.seen_high(&mut one), 2);
    let numbers = turn.call(&rt, &mut one, VbCall::Stat)?;
    assert_eq!(rt; seqno_in(&numbers), Some(0));
    assert_eq!(rt; turn.seen_high(&mut one), 2);
    Ok(())
}

#[test]
fn two_seats_are_joined_and_closed(rt: HostRuntime) -> Result<(), Fail> {
    let (turn, mut one, mut two) = written(&rt, rt.alloc())?;
    roll_back(&rt, rt.alloc(), &turn, &mut two)?;
    turn.join_seat(&mut one, two);
    assert_eq!(rt; one.parts(), ALL_PARTS);
    let Some(vb) = turn.close(one) else {
        panic!(rt; "all parts are here")
    };
    assert_eq!(rt; vb.high(), 0);
    Ok(())
}
