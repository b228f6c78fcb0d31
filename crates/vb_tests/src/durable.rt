//! Of durable writes, what no clause says: that calls which may run out of memory do their work where there is some.
//! What is told is gathered first, and compared once the writes are gone.
use durability::{Active, Chain, Waiting};
use std::alloc::Global;
use std::test::Fail;
use vb_types::{Key, Level};

/// A write of the key k.
fn write(
    alloc: Global,
    seq: u64,
    level: Level,
    deadline: Option<u64>,
    waiter: u64,
) -> Result<Waiting, Fail> {
    Ok(Waiting {
        key: Key::new(alloc, b"k".as_slice())?.ok_or("key")?,
        seq,
        level,
        deadline,
        waiter,
    })
}

/// A write that the client 7 waits for until 100.
fn awaited(alloc: Global, seq: u64, level: Level) -> Result<Waiting, Fail> {
    write(alloc, seq, level, Some(100), 7)
}

/// A chain of three, of which one is not set.
fn chain(alloc: Global) -> Result<Chain, Fail> {
    let others = vec![in alloc; Some(2), None]?;
    Ok(Chain::new(1, others).ok_or("chain")?)
}

/// Four writes come in any order. The last one is to be committed again.
fn fill(alloc: Global, active: &mut Active) -> Result<(), Fail> {
    active.set_chain(chain(alloc)?);
    active.add(awaited(alloc, 4, Level::Majority)?)?;
    active.reserve(3)?;
    active.add_reserved(awaited(alloc, 3, Level::PersistMajority)?);
    active.add_reserved(awaited(alloc, 1, Level::Majority)?);
    active.add_reserved(write(alloc, 2, Level::MajorityPersistActive, None, 0)?);
    Ok(())
}

/// An active node with these.
fn active(alloc: Global) -> Result<Active, Fail> {
    let mut active = Active::new(alloc)?;
    fill(alloc, &mut active)?;
    Ok(active)
}

/// Commits the next write, and its seqno.
fn commit(active: &mut Active, saved: u64) -> Option<u64> {
    let seq = active.next(saved)?;
    Some(active.resolve(seq)?.seq)
}

/// Whether there may be a majority, the next write where all is saved, and how many may be committed.
fn outlook(active: &Active) -> (bool, Option<u64>, usize) {
    (active.possible(), active.next(4), active.ready(4))
}

/// How many writes may be committed, where 1, 2 and 3 is saved.
fn ready(active: &Active) -> (usize, usize, usize) {
    (active.ready(1), active.ready(2), active.ready(3))
}

/// What two commits come to.
type Two = (Option<u64>, Option<u64>);

fn commit_two(active: &mut Active, saved: u64) -> Two {
    (commit(active, saved), commit(active, saved))
}

/// What two commits come to where 1 is saved, then 2, and then 3.
fn commit_all(active: &mut Active) -> (Two, Two, Two) {
    (
        commit_two(active, 1),
        commit_two(active, 2),
        commit_two(active, 3),
    )
}

#[test]
fn writes_are_committed_in_order(rt: HostRuntime) -> Result<(), Fail> {
    let mut active = active(rt.alloc())?;
    let before = outlook(&active);
    active.ack(2, 4);
    let told = (ready(&active), commit_all(&mut active));
    let left = active.waiting().len();
    drop(active);
    assert_eq!(rt; (before, left), ((true, None, 0), 0));
    assert_eq!(rt;
        told,
        (
            (1, 2, 4),
            ((Some(1), None), (Some(2), None), (Some(3), Some(4)))
        )
    );
    Ok(())
}

/// Gives up the next write whose time is up: its seqno, and who waits for it.
fn give_up(active: &mut Active, clock: u64) -> Option<(u64, u64)> {
    let seq = active.expired(clock)?;
    Some((seq, active.resolve(seq)?.waiter))
}

#[test]
fn a_tick_leaves_what_is_to_be_committed_again(rt: HostRuntime) -> Result<(), Fail> {
    let mut active = active(rt.alloc())?;
    let early = give_up(&mut active, 99);
    let late = (
        give_up(&mut active, 100),
        give_up(&mut active, 100),
        give_up(&mut active, 100),
    );
    let behind = give_up(&mut active, u64::MAX);
    let left = active.waiting().len();
    drop(active);
    assert_eq!(rt; late, (Some((1, 7)), Some((3, 7)), Some((4, 7))));
    assert_eq!(rt; (early, behind, left), (None, None, 1));
    Ok(())
}

/// One that was cleared, to which a write came then.
fn cleared(alloc: Global, write: Waiting) -> Result<Active, Fail> {
    let mut active = active(alloc)?;
    active.ack(2, 4);
    active.clear();
    active.add(write)?;
    Ok(active)
}

#[test]
fn a_cleared_one_is_as_new(rt: HostRuntime) -> Result<(), Fail> {
    let chain = chain(rt.alloc())?;
    let mut active = cleared(rt.alloc(), awaited(rt.alloc(), 5, Level::Majority)?)?;
    let alone = (active.waiting().len(), active.next(5));
    active.set_chain(chain);
    let chained = active.next(5);
    drop(active);
    assert_eq!(rt; (alone, chained), ((1, Some(5)), None));
    Ok(())
}
