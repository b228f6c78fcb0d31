//! Several changes that enter a list at once.
ghost use Rattle.std.specs.Prelude.{◌≡◌, true, IfOk};
ghost use Rattle.vb_calls.specs.Spans.{is_durable};
ghost use Rattle.ckpt_list.specs.Windows.{ArePartsAbove};

use crate::lists::taken;
use ckpt_list::CkptList;
use std::alloc::Global;
use std::test::Fail;
use vb_calls::Origin;
use vb_types::{Act, Change, Key};

/// An abort of the key that this number spells.
fn abort(alloc: Global, seq: u64, n: u64) -> Result<Change, Fail>
    ensures seq { IfOk result (λ change. change.seq ≡ seq) }
    ensures part { IfOk result (λ change. is_durable change.act ≡ true) }
{
    let key = Key::new(alloc, &n.to_be_bytes())?.ok_or("key")?;
    Ok(Change {
        seq,
        key,
        act: Act::Abort { prepared: seq },
    })
}

/// Aborts of so many keys from the first on, by the seqnos above a high one.
fn aborts(alloc: Global, high: u64, first: u64, count: u64) -> Result<Vec<Change>, Fail>
    ensures { IfOk result (λ changes. ArePartsAbove high changes.items) }
{
    let mut changes = Vec::new(alloc);
    let mut seq = high;
    for n in 0..count {
        seq = seq.checked_add(1).ok_or("seqno")?;
        let key = first.checked_add(n).ok_or("key")?;
        changes.push(abort(alloc, seq, key)?)?;
    }
    Ok(changes)
}

/// Queues changes one by one.
fn queue_each(list: &mut CkptList, changes: Vec<Change>) -> Result<(), Fail> {
    for change in changes {
        if list.high() < change.seq {
            list.queue(Origin::Own, change)?;
        }
    }
    Ok(())
}

/// Queues aborts of so many keys from the first on, all at once or one by one.
fn enter(list: &mut CkptList, alloc: Global, keys: (u64, u64), at_once: bool) -> Result<(), Fail> {
    let changes = aborts(alloc, list.high(), keys.0, keys.1)?;
    if at_once {
        list.queue_all(changes)?;
        return Ok(());
    }
    queue_each(list, changes)
}

/// 1,000 keys, which the open checkpoint takes, one more, a key that stands there, many at once, and
/// none.
const KEYS: [(u64, u64); 5] = [(0, 1_000), (1_000, 1), (1_000, 1), (2_000, 2_500), (0, 0)];

/// Of each checkpoint then: how many changes it has, and its last seqno.
const WINDOWS: [(usize, u64); 6] = [
    (1_000, 1_000),
    (1, 1_001),
    (1_000, 2_001),
    (1_000, 3_001),
    (501, 3_502),
    (0, 0),
];

fn enter_all(
    list: &mut CkptList,
    alloc: Global,
    keys: &[(u64, u64)],
    at_once: bool,
) -> Result<(), Fail> {
    for pair in keys {
        enter(list, alloc, *pair, at_once)?;
    }
    Ok(())
}

/// What is given of the first checkpoint that is not as it is told.
fn first_other(
    list: &mut CkptList,
    windows: &[(usize, u64)],
) -> Result<Option<(usize, u64)>, Fail> {
    for window in windows {
        let given = taken(list, 0, 0)?;
        if given != *window {
            return Ok(Some(given));
        }
    }
    Ok(None)
}

/// The same where all keys entered, all of a pair at once or one by one.
fn first_other_of(alloc: Global, at_once: bool) -> Result<Option<(usize, u64)>, Fail> {
    let mut list = CkptList::new(alloc, 0)?;
    enter_all(&mut list, alloc, &KEYS, at_once)?;
    first_other(&mut list, &WINDOWS)
}

#[test]
fn several_enter_at_once(rt: HostRuntime) -> Result<(), Fail> {
    assert_eq!(rt; first_other_of(rt.alloc(), true)?, None);
    Ok(())
}

#[test]
fn several_enter_one_by_one(rt: HostRuntime) -> Result<(), Fail> {
    assert_eq!(rt; first_other_of(rt.alloc(), false)?, None);
    Ok(())
}
