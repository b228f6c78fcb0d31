//! Long lists, and what their cursors are given.
use ckpt_list::CkptList;
use std::alloc::Global;
use std::test::Fail;
use vb_calls::Origin;
use vb_types::{Act, Change, Key};

/// Queues a removal of the key that this number spells, and its seqno.
pub fn put(list: &mut CkptList, alloc: Global, n: u64) -> Result<u64, Fail> {
    let seq = list.high().checked_add(1).ok_or("seqno")?;
    let key = Key::new(alloc, &n.to_be_bytes())?.ok_or("key")?;
    let act = Act::Remove { cas: seq, rev: 1 };
    list.queue(Origin::Own, Change { seq, key, act })?;
    Ok(seq)
}

/// How many changes a cursor is given up to `need`, and the seqno of the last one.
pub fn taken(list: &mut CkptList, id: u64, need: u64) -> Result<(usize, u64), Fail> {
    let Some(_) = list.place(id) else {
        return Ok((0, 0));
    };
    let Some(items) = list.take(id, need)? else {
        return Ok((0, 0));
    };
    match items.as_slice().last() {
        Some(change) => Ok((items.as_slice().len(), change.seq)),
        None => Ok((0, 0)),
    }
}

/// The first change that a cursor is not given alone, right after it is queued.
fn first_not_alone(list: &mut CkptList, alloc: Global, count: u64) -> Result<Option<u64>, Fail> {
    for n in 0..count {
        let seq = put(list, alloc, n)?;
        if taken(list, 0, 0)? != (1, seq) {
            return Ok(Some(n));
        }
    }
    Ok(None)
}

#[test]
fn a_cursor_is_given_each_change_alone(rt: HostRuntime) -> Result<(), Fail> {
    let mut list = CkptList::new(rt.alloc(), 0)?;
    let other = first_not_alone(&mut list, rt.alloc(), 400_000);
    drop(list);
    assert_eq!(rt; other?, None);
    Ok(())
}

/// The first of 100 cursors that is given other changes than those since its last take, where the
/// cursor of a number takes after as many changes.
fn first_astray(list: &mut CkptList, seq: u64) -> Result<Option<u64>, Fail> {
    for id in 1..101u64 {
        if seq % id == 0 && taken(list, id, seq)? != (id as usize, seq) {
            return Ok(Some(id));
        }
    }
    Ok(None)
}

/// The same over 5,000 changes, with the cursors at the start.
fn first_astray_of(list: &mut CkptList, alloc: Global) -> Result<Option<u64>, Fail> {
    for id in 1..101u64 {
        list.place_cursor(id, 0)?;
    }
    for n in 0..5_000u64 {
        let seq = put(list, alloc, n)?;
        let astray = first_astray(list, seq)?;
        if astray.is_some() {
            return Ok(astray);
        }
    }
    Ok(None)
}

#[test]
fn cursors_go_in_their_own_steps(rt: HostRuntime) -> Result<(), Fail> {
    let mut list = CkptList::new(rt.alloc(), 0)?;
    let astray = first_astray_of(&mut list, rt.alloc());
    drop(list);
    assert_eq!(rt; astray?, None);
    Ok(())
}

/// How many checkpoints and changes are left of 1,000,000 changes of 1,000 keys, and what the cursor
/// 0 is given of them.
fn overwritten(alloc: Global) -> Result<(u64, u64, (usize, u64)), Fail> {
    let mut list = CkptList::new(alloc, 0)?;
    for n in 0..1_000_000u64 {
        put(&mut list, alloc, n % 1_000)?;
    }
    let stat = list.stat();
    Ok((stat.windows, stat.open_items, taken(&mut list, 0, 0)?))
}

#[test]
fn a_key_is_kept_once(rt: HostRuntime) -> Result<(), Fail> {
    assert_eq!(rt; overwritten(rt.alloc())?, (1, 1_000, (1_000, 1_000_000)));
    Ok(())
}
