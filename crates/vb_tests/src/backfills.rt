//! What a stream is given of a journal, where there is memory enough.
use crate::tables::{commit, doc, key, prepare};
use backfill::disk_snapshot;
use std::alloc::{AllocError, Global};
use std::test::Fail;
use vb_types::{Act, Batch, Change, Level, Listed, Position, Record};

/// One more change of the key of this name.
fn add(
    alloc: Global,
    items: &mut Listed<Change>,
    seq: u64,
    name: &[u8],
    act: Act,
) -> Result<(), Fail> {
    let key = key(alloc, name)?;
    items.push(Change { seq, key, act })?;
    Ok(())
}

/// a is set, b is written durably, a durable write of c is given up, and a is removed.
fn fill(alloc: Global, items: &mut Listed<Change>) -> Result<(), Fail> {
    add(alloc, items, 1, b"a", Act::Set(doc(alloc, 1)?))?;
    add(alloc, items, 2, b"b", prepare(alloc, Level::Majority, 2)?)?;
    add(alloc, items, 3, b"b", commit(alloc, 2, 2)?)?;
    add(alloc, items, 4, b"c", prepare(alloc, Level::Majority, 4)?)?;
    add(alloc, items, 5, b"c", Act::Abort { prepared: 4 })?;
    add(alloc, items, 6, b"a", Act::Remove { cas: 6, rev: 2 })
}

/// The record of these changes.
fn record(alloc: Global) -> Result<Record, Fail> {
    let mut items = Listed::new(alloc);
    fill(alloc, &mut items)?;
    Ok(Record::Rows(Batch {
        position: Position {
            ss: 0,
            se: 6,
            at: 6,
        },
        cas: 6,
        log: Listed::new(alloc),
        items,
    }))
}

/// Where a stream's snapshot starts and ends, and the seqnos of its items; nothing where there is none.
fn told(
    alloc: Global,
    records: &[Record],
    start: u64,
    upto: u64,
    sync: bool,
) -> Result<Vec<u64>, AllocError> {
    let mut told = Vec::new(alloc);
    if let Some(snapshot) = disk_snapshot(alloc, records, start, upto, sync)? {
        told.push(snapshot.start)?;
        told.push(snapshot.end)?;
        for item in snapshot.items.as_slice() {
            told.push(item.seq)?;
        }
    }
    Ok(told)
}

#[test]
fn a_stream_is_given_what_nothing_replaced(rt: HostRuntime) -> Result<(), Fail> {
    let records = [record(rt.alloc())?];
    let sync = told(rt.alloc(), &records, 0, 6, true);
    let front = told(rt.alloc(), &records, 0, 4, false);
    let none = told(rt.alloc(), &records, 6, 6, true);
    drop(records);
    assert_eq!(rt; sync?.as_slice(), [0, 6, 3, 5, 6].as_slice());
    assert_eq!(rt; front?.as_slice(), [0, 3, 1, 3].as_slice());
    assert_eq!(rt; none?.as_slice(), [].as_slice());
    Ok(())
}
