//! Changes as they come, and what is found after each.
use hash_table::HashTable;
use std::alloc::{AllocError, Global};
use std::test::Fail;
use vb_types::{Act, Change, Doc, Key, Level, Value};

pub fn key(alloc: Global, bytes: &[u8]) -> Result<Key, Fail> {
    Ok(Key::new(alloc, bytes)?.ok_or("key")?)
}

pub fn doc(alloc: Global, cas: u64) -> Result<Doc, Fail> {
    Ok(Doc {
        value: Value::new(alloc, b"v")?.ok_or("value")?,
        cas,
        rev: 1,
        flags: 0,
        expiry: 0,
        datatype: 0,
    })
}

pub fn prepare(alloc: Global, level: Level, cas: u64) -> Result<Act, Fail> {
    Ok(Act::Prepare {
        level,
        doc: doc(alloc, cas)?,
        deleted: false,
    })
}

pub fn commit(alloc: Global, prepared: u64, cas: u64) -> Result<Act, Fail> {
    Ok(Act::Commit {
        prepared,
        doc: doc(alloc, cas)?,
        deleted: false,
    })
}

/// The CAS of a key's document and that of its pending entry, each 0 where there is none.
fn found(table: &HashTable, key: &Key) -> (u64, u64) {
    let doc = match table.doc(key) {
        Some(doc) => doc.cas,
        None => 0,
    };
    let pend = match table.pend(key) {
        Some(pend) => pend.doc.cas,
        None => 0,
    };
    (doc, pend)
}

/// A change of a key.
fn change(key: &Key, seq: u64, act: Act) -> Result<Change, AllocError> {
    match key.clone() {
        Ok(key) => Ok(Change { seq, key, act }),
        Err(stop) => {
            drop(act);
            Err(stop)
        }
    }
}

/// Takes a change in.
fn put(table: &mut HashTable, change: Change) -> Result<(), AllocError> {
    match table.reserve(1) {
        Ok(()) => {
            table.apply(change);
            Ok(())
        }
        Err(stop) => {
            drop(change);
            Err(stop)
        }
    }
}

/// What is found of a key after one more change of it.
fn after(table: &mut HashTable, key: &Key, seq: u64, act: Act) -> Result<(u64, u64), AllocError> {
    let change = change(key, seq, act)?;
    put(table, change)?;
    Ok(found(table, key))
}

/// What is found after a prepare, after its commit, and after a removal.
type Found = ((u64, u64), (u64, u64), (u64, u64));

/// The same in this table.
fn write_in(alloc: Global, table: &mut HashTable, key: &Key) -> Result<Found, Fail> {
    let prepared = after(table, key, 1, prepare(alloc, Level::Majority, 1)?)?;
    let committed = after(table, key, 2, commit(alloc, 1, 2)?)?;
    let removed = after(table, key, 3, Act::Remove { cas: 3, rev: 2 })?;
    Ok((prepared, committed, removed))
}

fn durable_write(alloc: Global) -> Result<Found, Fail> {
    let key = key(alloc, b"k")?;
    let mut table = HashTable::new(alloc);
    let found = write_in(alloc, &mut table, &key);
    drop(table);
    found
}

#[test]
fn a_durable_write_is_pending_and_then_a_document(rt: HostRuntime) -> Result<(), Fail> {
    let found = durable_write(rt.alloc())?;
    assert_eq!(rt; found, ((0, 1), (2, 0), (0, 0)));
    Ok(())
}

/// Sets the document of this byte; its CAS is one more.
fn set(alloc: Global, table: &mut HashTable, n: u8) -> Result<(), Fail> {
    let key = key(alloc, &[n])?;
    let seq = n as u64 + 1;
    let doc = doc(alloc, seq)?;
    put(
        table,
        Change {
            seq,
            key,
            act: Act::Set(doc),
        },
    )?;
    Ok(())
}

fn fill(alloc: Global, table: &mut HashTable) -> Result<(), Fail> {
    for n in 0..200u8 {
        set(alloc, table, n)?;
    }
    Ok(())
}

/// A table of 200 keys of one byte; the CAS of each document is one more than its key's byte.
fn filled(alloc: Global) -> Result<HashTable, Fail> {
    let mut table = HashTable::new(alloc);
    fill(alloc, &mut table)?;
    Ok(table)
}

/// The first key that is not found with its document.
fn first_lost(alloc: Global, table: &HashTable) -> Result<Option<u8>, Fail> {
    for n in 0..200u8 {
        let key = key(alloc, &[n])?;
        if found(table, &key) != (n as u64 + 1, 0) {
            return Ok(Some(n));
        }
    }
    Ok(None)
}

#[test]
fn many_keys_are_found(rt: HostRuntime) -> Result<(), Fail> {
    let table = filled(rt.alloc())?;
    let lost = first_lost(rt.alloc(), &table);
    drop(table);
    assert_eq!(rt; lost?, None);
    Ok(())
}

/// A prepare of the key that is this byte.
fn prepare_at(
    alloc: Global,
    table: &mut HashTable,
    name: &[u8],
    seq: u64,
    level: Level,
) -> Result<(), Fail> {
    let key = key(alloc, name)?;
    let act = prepare(alloc, level, seq)?;
    put(table, Change { seq, key, act })?;
    Ok(())
}

/// Its commit.
fn commit_at(
    alloc: Global,
    table: &mut HashTable,
    name: &[u8],
    seq: u64,
    prepared: u64,
) -> Result<(), Fail> {
    let key = key(alloc, name)?;
    let act = commit(alloc, prepared, seq)?;
    put(table, Change { seq, key, act })?;
    Ok(())
}

type Ends = ((u64, u64), (u64, u64));

/// The last prepare up to 2 and the first level 3 one above 1, before and after that one is committed.
fn prepares_in(alloc: Global, table: &mut HashTable) -> Result<Ends, Fail> {
    prepare_at(alloc, table, b"a", 1, Level::Majority)?;
    prepare_at(alloc, table, b"b", 2, Level::PersistMajority)?;
    prepare_at(alloc, table, b"c", 3, Level::Majority)?;
    let before = ends(table);
    commit_at(alloc, table, b"b", 4, 2)?;
    Ok((before, ends(table)))
}

fn found_by_seqnos(alloc: Global) -> Result<Ends, Fail> {
    let mut table = HashTable::new(alloc);
    let found = prepares_in(alloc, &mut table);
    drop(table);
    found
}

/// The last prepare up to 2 and the first level 3 one above 1, each 0 where there is none.
fn ends(table: &HashTable) -> (u64, u64) {
    (
        table.last_pending(2).unwrap_or(0),
        table.first_pending_third(1).unwrap_or(0),
    )
}

#[test]
fn prepares_are_found_by_their_seqnos(rt: HostRuntime) -> Result<(), Fail> {
    let found = found_by_seqnos(rt.alloc())?;
    assert_eq!(rt; found, ((2, 2), (1, 0)));
    Ok(())
}
