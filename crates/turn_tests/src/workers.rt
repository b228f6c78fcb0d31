//! Workers that take turns at one list of numbers, and what it has then.
ghost use Rattle.std.specs.Prelude.{◌≡◌, ◌+◌, IfOk, length, sum, [], Some};
ghost use Rattle.vb_turn.specs.Words.{IsSeatOf, view};
ghost use Rattle.vb_turn.specs.Turning.{all_parts};
ghost use Rattle.turn_tests.specs.Puts.{calls_of, HasPut, Weighs, values_of, others_of};

use crate::numbers::{Call, Numbers, NumbersSeat, NumbersTurn};
use std::alloc::{AllocError, Global};
use std::sync::Wait;
use std::thread::{Threads, join};

/// Puts all values, in order, and nothing else.
pub fn put_all<W: Wait>(
    rt: &W,
    turn: &NumbersTurn,
    mut seat: NumbersSeat,
    values: &[u64],
) -> Result<NumbersSeat, AllocError>
    requires { IsSeatOf turn.now seat }
    ensures { IfOk result (λ s. IsSeatOf turn.now s × HasPut values.now (view seat) (view s)) }
{
    for &value in values {
        turn.call(rt, &mut seat, Call::Put(value))?;
    }
    Ok(seat)
}

/// As `put_all`, with the sum and the number of the values told of.
fn weigh_all<W: Wait>(
    rt: &W,
    turn: &NumbersTurn,
    seat: NumbersSeat,
    values: &[u64],
) -> Result<NumbersSeat, AllocError>
    requires { IsSeatOf turn.now seat }
    ensures { IfOk result (λ s. IsSeatOf turn.now s × Weighs values.now (view seat) (view s)) }
{
    Ok(put_all(rt, turn, seat, values)?)
}

/// The numbers, where two seats have all parts and put alone.
fn finish(turn: NumbersTurn, mut one: NumbersSeat, two: NumbersSeat) -> Numbers
    requires own { IsSeatOf turn one × IsSeatOf turn two }
    requires all { (view one).parts + (view two).parts ≡ all_parts }
    requires opening { (view one).opening ≡ Some [] }
    requires puts { (others_of (calls_of (view one)) ≡ 0) × (others_of (calls_of (view two)) ≡ 0) }
    ensures { (sum result ≡ values_of (calls_of (view one)) + values_of (calls_of (view two))) × (length result ≡ length (calls_of (view one)) + length (calls_of (view two))) }
{
    turn.join_seat(&mut one, two);
    match turn.close(one) {
        Some(numbers) => numbers,
        None => unreachable!(),
    }
}

/// Two threads put their values. The numbers have each value of both, and no other: sum and count are
/// those of both.
pub fn put_by_two<R: Threads + Wait + Sync>(
    rt: &R,
    alloc: Global,
    first: &[u64],
    second: &[u64],
) -> Result<Numbers, AllocError>
    ensures { IfOk result (λ numbers. (sum numbers ≡ sum first.now + sum second.now) × (length numbers ≡ length first.now + length second.now)) }
{
    let (turn, mut seat) = NumbersTurn::new(alloc, Numbers::new(alloc))?;
    let other = turn.split_seat(&mut seat, 1);
    let shared = &turn;
    let (a, b) = join(
        rt,
        || -> Result<NumbersSeat, AllocError>
            requires { IsSeatOf shared.now seat }
            ensures { IfOk result (λ s. IsSeatOf shared.entry.now s × Weighs first.entry.now (view seat) (view s)) }
        { weigh_all(rt, shared, seat, first) },
        || -> Result<NumbersSeat, AllocError>
            requires { IsSeatOf shared.now other }
            ensures { IfOk result (λ s. IsSeatOf shared.entry.now s × Weighs second.entry.now (view other) (view s)) }
        { weigh_all(rt, shared, other, second) },
    );
    Ok(finish(turn, a?, b?))
}
