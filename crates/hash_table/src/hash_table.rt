//! The documents and the pending entries that changes leave.
ghost use Rattle.std.specs.Prelude.{◌≡◌, ◌+◌, ◌<◌, ◌≤◌, ◌++◌, IfOk, OnOk, map as map_list};
ghost use Rattle.std.specs.FinMap as map;
ghost use Rattle.std.specs.Option.{option_copied};
ghost use Rattle.vb_types.specs.declared.change.Act.TheVariants as act;
ghost use Rattle.vb_types.specs.Images.{nothing, applied, settled};
ghost use Rattle.hash_table.specs.Seqnos.{IsFirstAbove, IsLastUpTo, ThirdWaitsAt, WaitsAt};
ghost use Rattle.hash_table.specs.Tables.{by_seqnos, put_all};

use crate::hashed::Hashed;
use crate::prepares::Prepares;
use std::alloc::{AllocError, Global};
use std::marker::Model;
use vb_types::{Act, Change, Doc, Image, Key, Pend};

/// The committed documents of a vBucket, and its pending entries.
#[derive(Drop)]
pub struct HashTable {
    docs: Hashed<Doc>,
    pending: Prepares,
}

impl Model for HashTable {
    ghost use Rattle.std.specs.Prelude.{min};
    ghost use Rattle.hash_table.specs.Tables.{Table, table_code};

    ghost Value = { Table };

    ghost coded = { table_code };

    ghost view = { λ t. record { image = record { docs = t.docs.map; pending = t.pending.map }; room = min t.docs.room t.pending.room } };
}

impl HashTable {
    /// No document, and nothing pending.
    pub fn new(alloc: Global) -> HashTable
        ensures { result.image ≡ nothing }
    {
        HashTable {
            docs: Hashed::new(alloc),
            pending: Prepares::new(alloc),
        }
    }

    /// All documents and all that is pending of an image.
    pub fn load(alloc: Global, image: &Image) -> Result<HashTable, AllocError>
        ensures { IfOk result (λ table. table.image ≡ image.now) }
    {
        let docs = loaded_docs(alloc, image)?;
        let pending = loaded_pends(alloc, image)?;
        Ok(HashTable { docs, pending })
    }

    /// The document of a key.
    pub fn doc(&self, key: &Key) -> Option<&Doc>
        ensures { option_copied result ≡ map.get self.now.image.docs key.now }
    {
        self.docs.get(key)
    }

    /// The prepare of a key that waits.
    pub fn pend(&self, key: &Key) -> Option<&Pend>
        ensures { option_copied result ≡ map.get self.now.image.pending key.now }
    {
        self.pending.get(key)
    }

    /// The greatest seqno of a prepare that waits, of those that are at most this one.
    pub fn last_pending(&self, upto: u64) -> Option<u64>
        ensures { IsLastUpTo (WaitsAt self.now.image.pending) upto result }
    {
        self.pending.last_up_to(upto)
    }

    /// The lowest seqno of a level 3 prepare that waits, of those that are above this one.
    pub fn first_pending_third(&self, above: u64) -> Option<u64>
        ensures { IsFirstAbove (ThirdWaitsAt self.now.image.pending) above result }
    {
        self.pending.first_third_above(above)
    }

    /// Room for so many more changes.
    pub fn reserve(&mut self, changes: usize) -> Result<(), AllocError>
        ensures image { self.new.image ≡ self.old.image }
        ensures room { OnOk result (changes ≤ self.new.room) }
    {
        self.docs.reserve(changes)?;
        self.pending.reserve(changes)
    }

    /// Takes in one more change. Takes no memory.
    pub fn apply(&mut self, change: Change)
        requires { 0 < self.old.room }
        ensures image { self.new.image ≡ applied self.old.image change }
        ensures room { self.old.room ≤ self.new.room + 1 }
    {
        let Change { seq, key, act } = change;
        match act {
            Act::Remove { .. } | Act::Commit { deleted: true, .. } => {
                self.docs.remove(&key);
                settle(&mut self.pending, seq, &key);
            }
            Act::Set(doc) | Act::Commit { doc, .. } => {
                settle(&mut self.pending, seq, &key);
                self.docs.insert(key, doc);
            }
            Act::Prepare {
                level,
                doc,
                deleted,
            } => self.pending.insert(
                key,
                Pend {
                    seq,
                    level,
                    doc,
                    deleted,
                },
            ),
            Act::Abort { .. } => settle(&mut self.pending, seq, &key),
        }
    }

    /// The prepares that wait, with their keys: by rising seqnos, of equal ones the smaller key first.
    pub fn prepares(&self, alloc: Global) -> Result<Vec<(Key, Pend)>, AllocError>
        ensures { IfOk result (λ prepares. prepares.items ≡ by_seqnos self.now.image.pending) }
    {
        let mut pends = self.pending.in_order(alloc)?;
        pends.sort_by_key(|pair| pair.1.seq)?;
        let mut prepares = Vec::with_capacity(alloc, pends.len())?;
        copy_pends(&pends, &mut prepares)?;
        Ok(prepares)
    }

    /// All documents and all that is pending, in the order of keys.
    pub fn image(&self, alloc: Global) -> Result<Image, AllocError>
        ensures { IfOk result (λ image. image ≡ self.now.image) }
    {
        let mut image = Image::new(alloc);
        show_docs(alloc, &self.docs, &mut image)?;
        show_pends(alloc, &self.pending, &mut image)?;
        Ok(image)
    }
}

/// A copy of a pending entry, with its key.
fn copy_of(key: &Key, pend: &Pend) -> Result<(Key, Pend), AllocError>
    ensures { IfOk result (λ copy. copy ≡ (key.now, pend.now)) }
{
    let key = key.clone()?;
    let pend = pend.clone()?;
    Ok((key, pend))
}

/// Appends copies of pending entries.
fn copy_pends(pends: &[(&Key, &Pend)], copies: &mut Vec<(Key, Pend)>) -> Result<(), AllocError>
    ensures { OnOk result (copies.new.items ≡ copies.old.items ++ map_list (λ p. (p.0.now, p.1.now)) pends.now) }
{
    for &(key, pend) in pends {
        copies.push(copy_of(key, pend)?)?;
    }
    Ok(())
}

/// A change of this key takes away the key's pending entry of a lower seqno.
fn settle(pending: &mut Prepares, seq: u64, key: &Key)
    ensures map { pending.new.map ≡ settled pending.old.map seq key.now }
    ensures room { pending.old.room ≤ pending.new.room }
{
    if let Some(pend) = pending.get(key) {
        if pend.seq < seq {
            pending.remove(key);
        }
    }
}

/// A change that puts a copy of a document.
fn set_of(key: &Key, doc: &Doc) -> Result<Change, AllocError>
    ensures { IfOk result (λ change. change ≡ record { seq = 0; key = key.now; act = act.Set doc.now }) }
{
    let key = key.clone()?;
    let doc = doc.copy()?;
    Ok(Change {
        seq: 0,
        key,
        act: Act::Set(doc),
    })
}

/// The prepare that a pending entry is of, with a copy of its document.
fn prepare_of(key: &Key, pend: &Pend) -> Result<Change, AllocError>
    ensures { IfOk result (λ change. change ≡ record { seq = pend.now.seq; key = key.now; act = act.Prepare pend.now.level pend.now.doc pend.now.deleted }) }
{
    let key = key.clone()?;
    let doc = pend.doc.copy()?;
    Ok(Change {
        seq: pend.seq,
        key,
        act: Act::Prepare {
            level: pend.level,
            doc,
            deleted: pend.deleted,
        },
    })
}

/// Puts a document into an image.
fn put_doc(image: &mut Image, key: &Key, doc: &Doc) -> Result<(), AllocError>
    ensures { OnOk result (image.new ≡ record image.old { docs = map.insert image.old.docs key.now doc.now }) }
{
    let change = set_of(key, doc)?;
    image.apply(&change)
}

/// Puts a pending entry into an image.
fn put_pend(image: &mut Image, key: &Key, pend: &Pend) -> Result<(), AllocError>
    ensures { OnOk result (image.new ≡ record image.old { pending = map.insert image.old.pending key.now pend.now }) }
{
    let change = prepare_of(key, pend)?;
    image.apply(&change)
}

/// Puts documents into an image, the last first.
fn put_docs(image: &mut Image, docs: &[(&Key, &Doc)]) -> Result<(), AllocError>
    ensures { OnOk result (image.new ≡ record image.old { docs = put_all image.old.docs (map_list (λ p. (p.0.now, p.1.now)) docs.now) }) }
{
    let mut at = docs.len();
    while at > 0 {
        at -= 1;
        let pair = docs[at];
        put_doc(image, pair.0, pair.1)?;
    }
    Ok(())
}

/// Puts pending entries into an image, the last first.
fn put_pends(image: &mut Image, pends: &[(&Key, &Pend)]) -> Result<(), AllocError>
    ensures { OnOk result (image.new ≡ record image.old { pending = put_all image.old.pending (map_list (λ p. (p.0.now, p.1.now)) pends.now) }) }
{
    let mut at = pends.len();
    while at > 0 {
        at -= 1;
        let pair = pends[at];
        put_pend(image, pair.0, pair.1)?;
    }
    Ok(())
}

/// Puts all documents of a table into an image that has none.
fn show_docs(alloc: Global, docs: &Hashed<Doc>, image: &mut Image) -> Result<(), AllocError>
    requires { image.old.docs ≡ map.empty }
    ensures { OnOk result (image.new ≡ record image.old { docs = docs.now.map }) }
{
    let listed = docs.list(alloc)?;
    put_docs(image, &listed)
}

/// Puts all pending entries of a table into an image that has none.
fn show_pends(alloc: Global, pending: &Prepares, image: &mut Image) -> Result<(), AllocError>
    requires { image.old.pending ≡ map.empty }
    ensures { OnOk result (image.new ≡ record image.old { pending = pending.now.map }) }
{
    let listed = pending.list(alloc)?;
    put_pends(image, &listed)
}

/// The documents of an image as a table.
fn loaded_docs(alloc: Global, image: &Image) -> Result<Hashed<Doc>, AllocError>
    ensures { IfOk result (λ docs. docs.map ≡ image.now.docs) }
{
    let listed = image.docs().list(alloc)?;
    let mut table = Hashed::new(alloc);
    load_docs(&mut table, &listed)?;
    Ok(table)
}

/// The pending entries of an image as a table.
fn loaded_pends(alloc: Global, image: &Image) -> Result<Prepares, AllocError>
    ensures { IfOk result (λ pends. pends.map ≡ image.now.pending) }
{
    let mut listed = image.prepares().list(alloc)?;
    // Put in from the last to the first, each seqno goes to the front of those that are there.
    listed.sort_by_key(|prepare| prepare.1.seq)?;
    let mut table = Prepares::new(alloc);
    load_pends(&mut table, &listed)?;
    Ok(table)
}

/// Puts a document into a table.
fn load_doc(table: &mut Hashed<Doc>, key: &Key, doc: &Doc) -> Result<(), AllocError>
    ensures { OnOk result (table.new.map ≡ map.insert table.old.map key.now doc.now) }
{
    table.reserve(1)?;
    table.insert(key.clone()?, doc.copy()?);
    Ok(())
}

/// Puts a pending entry into a table.
fn load_pend(table: &mut Prepares, key: &Key, pend: &Pend) -> Result<(), AllocError>
    ensures { OnOk result (table.new.map ≡ map.insert table.old.map key.now pend.now) }
{
    table.reserve(1)?;
    table.insert(key.clone()?, pend.clone()?);
    Ok(())
}

/// Puts documents into a table, the last first.
fn load_docs(table: &mut Hashed<Doc>, docs: &[(&Key, &Doc)]) -> Result<(), AllocError>
    ensures { OnOk result (table.new.map ≡ put_all table.old.map (map_list (λ p. (p.0.now, p.1.now)) docs.now)) }
{
    let mut at = docs.len();
    while at > 0 {
        at -= 1;
        let pair = docs[at];
        load_doc(table, pair.0, pair.1)?;
    }
    Ok(())
}

/// Puts pending entries into a table, the last first.
fn load_pends(table: &mut Prepares, pends: &[(&Key, &Pend)]) -> Result<(), AllocError>
    ensures { OnOk result (table.new.map ≡ put_all table.old.map (map_list (λ p. (p.0.now, p.1.now)) pends.now)) }
{
    let mut at = pends.len();
    while at > 0 {
        at -= 1;
        let pair = pends[at];
        load_pend(table, pair.0, pair.1)?;
    }
    Ok(())
}
