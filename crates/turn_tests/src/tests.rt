//! Turns with real threads.
ghost use Rattle.std.specs.Prelude.{◌≡◌, IfOk};
ghost use Rattle.vb_turn.specs.Turning.{all_parts};
ghost use Rattle.vb_turn.specs.Words.{IsSeatOf, view};

use crate::numbers::{Call, Numbers, NumbersSeat, NumbersTurn, Reply};
use crate::workers::{put_all, put_by_two};
use std::sync::Wait;
use std::sync::atomic::AtomicU64;
use std::sync::atomic::Ordering::SeqCst;
use std::test::Fail;
use std::thread;
use std::thread::join;
use vb_turn::{ALL_PARTS, Gate};

/// So many values, from the first on.
fn values_from(rt: &HostRuntime, first: u64, count: u64) -> Result<Vec<u64>, Fail> {
    let mut values = Vec::new(rt.alloc());
    for i in 0..count {
        values.push(first.wrapping_add(i))?;
    }
    Ok(values)
}

/// The turn of no numbers, and the seat that has all parts.
fn opened(rt: &HostRuntime) -> Result<(NumbersTurn, NumbersSeat), Fail>
    ensures { IfOk result (λ t. IsSeatOf t.0 t.1 × ((view t.1).parts ≡ all_parts)) }
{
    Ok(NumbersTurn::new(rt.alloc(), Numbers::new(rt.alloc()))?)
}

#[test]
fn two_threads_put_each_value_once(rt: HostRuntime) -> Result<(), Fail> {
    let first = values_from(&rt, 0, 2000)?;
    let second = values_from(&rt, 100_000, 3000)?;
    let numbers = put_by_two(&rt, rt.alloc(), first.as_slice(), second.as_slice())?;
    let mut ones = 0u64;
    let mut total = 0u64;
    for &value in numbers.values() {
        if value < 100_000 {
            assert_eq!(rt; value, ones);
            ones = ones.wrapping_add(1);
        }
        total = total.wrapping_add(value);
    }
    assert_eq!(rt; numbers.values().len(), 5000);
    assert_eq!(rt; ones, 2000);
    assert_eq!(rt; total, 1_999_000 + 304_498_500);
    Ok(())
}

#[test]
fn a_worker_puts_in_order(rt: HostRuntime) -> Result<(), Fail> {
    let (turn, seat) = opened(&rt)?;
    let values = values_from(&rt, 5, 4)?;
    let seat = put_all(&rt, &turn, seat, values.as_slice())?;
    let Some(numbers) = turn.close(seat) else {
        panic!(rt; "all parts are here")
    };
    assert!(rt; numbers.values() == [5u64, 6, 7, 8].as_slice());
    Ok(())
}

#[test]
fn the_number_outlives_a_rollback(rt: HostRuntime) -> Result<(), Fail> {
    let (turn, mut seat) = opened(&rt)?;
    assert_eq!(rt; turn.seen_high(&mut seat), 0);
    let stored = turn.call(&rt, &mut seat, Call::Put(7))?;
    assert!(rt; matches!(&stored, Reply::Stored(1)) && turn.seen_high(&mut seat) == 1);
    let rolled = turn.call(&rt, &mut seat, Call::Roll(0))?;
    assert!(rt; matches!(&rolled, Reply::Rolled) && turn.seen_high(&mut seat) == 1);
    let gone = turn.call(&rt, &mut seat, Call::Get(0))?;
    assert!(rt; matches!(&gone, Reply::Got(None)));
    Ok(())
}

#[test]
fn another_seat_sees_what_was_called(rt: HostRuntime) -> Result<(), Fail> {
    let (turn, mut one) = opened(&rt)?;
    let mut two = turn.split_seat(&mut one, 7);
    turn.call(&rt, &mut one, Call::Put(3))?;
    assert_eq!(rt; turn.seen_high(&mut two), 1);
    let got = turn.call(&rt, &mut two, Call::Get(0))?;
    assert!(rt; matches!(&got, Reply::Got(Some(3))));
    Ok(())
}

#[test]
fn all_parts_close(rt: HostRuntime) -> Result<(), Fail> {
    let (turn, mut seat) = opened(&rt)?;
    let mut other = turn.split_seat(&mut seat, 5);
    assert_eq!(rt; seat.parts(), ALL_PARTS - 5);
    assert_eq!(rt; other.parts(), 5);
    turn.call(&rt, &mut other, Call::Put(3))?;
    turn.join_seat(&mut seat, other);
    assert_eq!(rt; seat.parts(), ALL_PARTS);
    let Some(numbers) = turn.close(seat) else {
        panic!(rt; "all parts are here")
    };
    assert!(rt; numbers.values() == [3u64].as_slice());
    Ok(())
}

#[test]
fn one_part_less_closes_nothing(rt: HostRuntime) -> Result<(), Fail> {
    let (turn, mut seat) = opened(&rt)?;
    let _other = turn.split_seat(&mut seat, 1);
    assert!(rt; turn.close(seat).is_none());
    Ok(())
}

/// Counts who passes, and how many were inside at most. It stays long enough that others park.
#[derive(Drop)]
struct Door {
    inside: AtomicU64,
    most: AtomicU64,
    passes: AtomicU64,
}

impl Gate for Door {
    fn pass(&self, _v: u16) {
        let was = self.inside.fetch_add(1, SeqCst);
        self.most.fetch_max(was.wrapping_add(1), SeqCst);
        self.passes.fetch_add(1, SeqCst);
        for _ in 0..10 {
            thread::yield_now();
        }
        self.inside.fetch_sub(1, SeqCst);
    }
}

/// Puts the numbers below `count`, through the gate.
fn put_gated<W: Wait, G: Gate>(
    rt: &W,
    turn: &NumbersTurn,
    gate: &G,
    v: u16,
    mut seat: NumbersSeat,
    count: u64,
) -> NumbersSeat
    requires { IsSeatOf turn.now seat }
    ensures { IsSeatOf turn.now result }
{
    for i in 0..count {
        let _ = turn.call_gated(rt, gate, v, &mut seat, Call::Put(i));
    }
    seat
}

#[test]
fn one_at_a_time_passes_the_gate(rt: HostRuntime) -> Result<(), Fail> {
    let (turn, mut one) = opened(&rt)?;
    let two = turn.split_seat(&mut one, 1);
    let door = Door {
        inside: AtomicU64::new(0),
        most: AtomicU64::new(0),
        passes: AtomicU64::new(0),
    };
    let (shared, gate) = (&turn, &door);
    join(
        &rt,
        || -> NumbersSeat
            requires { IsSeatOf shared.now one }
        { put_gated(&rt, shared, gate, 3, one, 100) },
        || -> NumbersSeat
            requires { IsSeatOf shared.now two }
        { put_gated(&rt, shared, gate, 3, two, 100) },
    );
    assert_eq!(rt; door.most.load(SeqCst), 1);
    assert_eq!(rt; door.passes.load(SeqCst), 200);
    Ok(())
}

/// How often the one at the gate looks for the other before it goes on alone.
const LOOKS: u64 = 10_000_000;

/// Two that pass meet here: each waits for the other, but only so long.
#[derive(Drop)]
struct Meeting {
    arrived: [AtomicU64; 2],
    met: AtomicU64,
}

impl Gate for Meeting {
    fn pass(&self, v: u16) {
        let me = usize::from(v % 2);
        self.arrived[me].store(1, SeqCst);
        for _ in 0..LOOKS {
            if self.arrived[1 - me].load(SeqCst) == 1 {
                self.met.fetch_add(1, SeqCst);
                break;
            }
            thread::yield_now();
        }
    }
}

#[test]
fn two_turns_are_had_at_once(rt: HostRuntime) -> Result<(), Fail> {
    let (left, one) = opened(&rt)?;
    let (right, two) = opened(&rt)?;
    let meeting = Meeting {
        arrived: [AtomicU64::new(0), AtomicU64::new(0)],
        met: AtomicU64::new(0),
    };
    let (a, b, gate) = (&left, &right, &meeting);
    join(
        &rt,
        || -> NumbersSeat
            requires { IsSeatOf a.now one }
        { put_gated(&rt, a, gate, 0, one, 1) },
        || -> NumbersSeat
            requires { IsSeatOf b.now two }
        { put_gated(&rt, b, gate, 1, two, 1) },
    );
    assert_eq!(rt; meeting.met.load(SeqCst), 2);
    Ok(())
}
