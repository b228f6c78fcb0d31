//! How changes enter the table and the list of checkpoints: both of them, or neither.
ghost use Rattle.std.specs.Prelude.{◌≡◌, ◌<◌, ◌≤◌, ◌∷◌, [], length, IfOk, OnOk, OnErr};
ghost use Rattle.std.specs.List.{fold};
ghost use Rattle.vb_types.specs.Images.{applied};
ghost use Rattle.ckpt_list.specs.Lists.{high_of, queued, sealed_list};
ghost use Rattle.ckpt_list.specs.Windows.{ArePartsAbove, queued_all};
ghost use Rattle.vb_calls.specs.declared.span.Origin.TheVariants.{Own};

use ckpt_list::CkptList;
use hash_table::HashTable;
use std::alloc::{AllocError, Global};
use vb_calls::Origin;
use vb_types::{Change, Listed};

/// Makes room in a table for a change, and copies it.
fn ready(
    alloc: Global,
    table: &mut HashTable,
    change: &Change,
) -> Result<Listed<Change>, AllocError>
    ensures image { table.new.image ≡ table.old.image }
    ensures room { OnOk result (1 ≤ table.new.room) }
    ensures copy { IfOk result (λ copy. copy ≡ change.now ∷ []) }
{
    table.reserve(1)?;
    Listed::one(alloc, change.copy()?)
}

/// Queues a copy of a change. An `Err` changes nothing.
fn queue_copy(list: &mut CkptList, origin: Origin, change: &Change) -> Result<(), AllocError>
    requires { high_of list.old < change.now.seq }
    ensures ok { OnOk result (list.new ≡ queued list.old origin change.now) }
    ensures err { OnErr result (list.new ≡ list.old) }
{
    list.queue(origin, change.copy()?)
}

/// Makes room in a table for a change, and queues a copy of it. Another copy; an `Err` changes nothing.
fn queue_ready(
    alloc: Global,
    table: &mut HashTable,
    list: &mut CkptList,
    origin: Origin,
    change: &Change,
) -> Result<Listed<Change>, AllocError>
    requires { high_of list.old < change.now.seq }
    ensures image { table.new.image ≡ table.old.image }
    ensures room { OnOk result (1 ≤ table.new.room) }
    ensures list { OnOk result (list.new ≡ queued list.old origin change.now) }
    ensures copy { IfOk result (λ copy. copy ≡ change.now ∷ []) }
    ensures err { OnErr result (list.new ≡ list.old) }
{
    let copy = ready(alloc, table, change)?;
    queue_copy(list, origin, change)?;
    Ok(copy)
}

/// Takes a change into a table and a list, and gives a copy of it. An `Err` changes nothing.
pub(super) fn put(
    alloc: Global,
    table: &mut HashTable,
    list: &mut CkptList,
    origin: Origin,
    change: Change,
) -> Result<Listed<Change>, AllocError>
    requires { high_of list.old < change.seq }
    ensures table { OnOk result (table.new.image ≡ applied table.old.image change) }
    ensures list { OnOk result (list.new ≡ queued list.old origin change) }
    ensures copy { IfOk result (λ copy. copy ≡ change ∷ []) }
    ensures same { OnErr result (table.new.image ≡ table.old.image) }
    ensures err { OnErr result (list.new ≡ list.old) }
{
    let copy = queue_ready(alloc, table, list, origin, &change)?;
    table.apply(change);
    Ok(copy)
}

/// Copies of changes.
fn copies(alloc: Global, changes: &[Change]) -> Result<Vec<Change>, AllocError>
    ensures { IfOk result (λ copies. copies.items ≡ changes.now) }
{
    let mut copies = Vec::with_capacity(alloc, changes.len())?;
    for change in changes {
        copies.push(change.copy()?)?;
    }
    Ok(copies)
}

/// Makes room in a table for changes, and copies them.
fn ready_all(
    alloc: Global,
    table: &mut HashTable,
    changes: &[Change],
) -> Result<Vec<Change>, AllocError>
    ensures image { table.new.image ≡ table.old.image }
    ensures room { OnOk result (length changes.now ≤ table.new.room) }
    ensures copies { IfOk result (λ copies. copies.items ≡ changes.now) }
{
    table.reserve(changes.len())?;
    copies(alloc, changes)
}

/// Takes changes into a table. Takes no memory.
fn apply_all(table: &mut HashTable, changes: Vec<Change>)
    requires { length changes.items ≤ table.old.room }
    ensures { table.new.image ≡ fold applied table.old.image changes.items }
{
    let mut rest = changes;
    rest.reverse();
    while let Some(change) = rest.pop() {
        table.apply(change);
    }
}

/// Queues copies of changes. An `Err` changes nothing.
fn queue_copies(alloc: Global, list: &mut CkptList, changes: &[Change]) -> Result<(), AllocError>
    requires { ArePartsAbove (high_of list.old) changes.now }
    ensures ok { OnOk result (list.new ≡ queued_all list.old changes.now) }
    ensures err { OnErr result (list.new ≡ list.old) }
{
    list.queue_all(copies(alloc, changes)?)
}

/// The same behind the open checkpoint, which is sealed.
fn seal_and_queue_copies(
    alloc: Global,
    list: &mut CkptList,
    changes: &[Change],
) -> Result<(), AllocError>
    requires { ArePartsAbove (high_of list.old) changes.now }
    ensures ok { OnOk result (list.new ≡ queued_all (sealed_list list.old) changes.now) }
    ensures err { OnErr result (list.new ≡ list.old) }
{
    list.seal_and_queue_all(copies(alloc, changes)?)
}

/// Takes a change of the vBucket's own into a table and a list. An `Err` changes nothing.
fn put_own(table: &mut HashTable, list: &mut CkptList, change: &Change) -> Result<(), AllocError>
    requires { high_of list.old < change.now.seq }
    ensures table { OnOk result (table.new.image ≡ applied table.old.image change.now) }
    ensures list { OnOk result (list.new ≡ queued list.old Own change.now) }
    ensures same { OnErr result (table.new.image ≡ table.old.image) }
    ensures err { OnErr result (list.new ≡ list.old) }
{
    table.reserve(1)?;
    let copy = change.copy()?;
    queue_copy(list, Origin::Own, change)?;
    table.apply(copy);
    Ok(())
}

/// Takes changes of the vBucket's own into a table and a list. An `Err` changes nothing.
pub(super) fn put_all(
    alloc: Global,
    table: &mut HashTable,
    list: &mut CkptList,
    changes: &[Change],
) -> Result<(), AllocError>
    requires { ArePartsAbove (high_of list.old) changes.now }
    ensures table { OnOk result (table.new.image ≡ fold applied table.old.image changes.now) }
    ensures list { OnOk result (list.new ≡ queued_all list.old changes.now) }
    ensures same { OnErr result (table.new.image ≡ table.old.image) }
    ensures err { OnErr result (list.new ≡ list.old) }
{
    // Mostly there is one, which needs no lists of copies.
    if let [change] = changes {
        return put_own(table, list, change);
    }
    let copies = ready_all(alloc, table, changes)?;
    queue_copies(alloc, list, changes)?;
    apply_all(table, copies);
    Ok(())
}

/// The same where the list's open checkpoint is sealed first.
pub(super) fn seal_and_put_all(
    alloc: Global,
    table: &mut HashTable,
    list: &mut CkptList,
    changes: &[Change],
) -> Result<(), AllocError>
    requires { ArePartsAbove (high_of list.old) changes.now }
    ensures table { OnOk result (table.new.image ≡ fold applied table.old.image changes.now) }
    ensures list { OnOk result (list.new ≡ queued_all (sealed_list list.old) changes.now) }
    ensures same { OnErr result (table.new.image ≡ table.old.image) }
    ensures err { OnErr result (list.new ≡ list.old) }
{
    let copies = ready_all(alloc, table, changes)?;
    seal_and_queue_copies(alloc, list, changes)?;
    apply_all(table, copies);
    Ok(())
}
