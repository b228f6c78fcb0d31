//! What a list gives up.
use crate::lists::{put, taken};
use ckpt_list::CkptList;
use std::alloc::Global;
use std::test::Fail;

/// A list of so many sealed checkpoints, each of one change, all of which the cursor 0 was given.
fn sealed(alloc: Global, count: u64) -> Result<CkptList, Fail> {
    let mut list = CkptList::new(alloc, 0)?;
    for n in 0..count {
        put(&mut list, alloc, n)?;
        list.seal()?;
    }
    taken(&mut list, 0, count)?;
    Ok(list)
}

/// The first of so many checkpoints that is not given up alone, right after the cursor 0 was given it.
fn first_kept(alloc: Global, count: u64) -> Result<Option<u64>, Fail> {
    let mut list = CkptList::new(alloc, 0)?;
    for n in 0..count {
        let seq = put(&mut list, alloc, n)?;
        list.seal()?;
        if taken(&mut list, 0, 0)? != (1, seq) || list.trim(seq) != 1 {
            return Ok(Some(n));
        }
    }
    Ok(None)
}

#[test]
fn each_checkpoint_is_given_up_alone(rt: HostRuntime) -> Result<(), Fail> {
    assert_eq!(rt; first_kept(rt.alloc(), 200_000)?, None);
    Ok(())
}

/// How many go at once of so many checkpoints, how many changes are left, and the floor then.
fn all_at_once(alloc: Global, count: u64) -> Result<(u64, u64, u64), Fail> {
    let mut list = sealed(alloc, count)?;
    let gone = list.trim(count);
    let stat = list.stat();
    Ok((gone, stat.items, stat.floor))
}

#[test]
fn all_are_given_up_at_once(rt: HostRuntime) -> Result<(), Fail> {
    assert_eq!(rt; all_at_once(rt.alloc(), 200_000)?, (200_000, 0, 200_000));
    Ok(())
}

/// How many of ten checkpoints go: a cursor stands at 3; it is gone; all is gone that is saved; a new
/// one stands at 9; and it goes on to 10.
fn held_back(alloc: Global) -> Result<[u64; 5], Fail> {
    let mut list = sealed(alloc, 10)?;
    list.place_cursor(1, 3)?;
    let first = list.trim(7);
    list.drop_cursor(1);
    let second = list.trim(7);
    let third = list.trim(7);
    list.place_cursor(1, 8)?;
    list.place_cursor(1, 9)?;
    let fourth = list.trim(10);
    list.place_cursor(1, 10)?;
    Ok([first, second, third, fourth, list.trim(10)])
}

#[test]
fn a_cursor_holds_what_it_lacks(rt: HostRuntime) -> Result<(), Fail> {
    assert_eq!(rt; held_back(rt.alloc())?, [3, 4, 0, 2, 1]);
    Ok(())
}
