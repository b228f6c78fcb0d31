//! The disk snapshot of a stream.
ghost use Rattle.std.specs.Prelude.{◌≡◌, reverse, IfOk};
ghost use Rattle.std.specs.List.{filter};
ghost use Rattle.vb_types.specs.Histories.{is_visible};
ghost use Rattle.backfill.specs.Backfills.{seen_by, disk_of, disk_snapshot_of};

use journal_points::above;
use std::alloc::{AllocError, Global};
use vb_types::{Act, Change, Listed, Record, Snapshot};

/// One snapshot from a stream's place `start` up to `upto`, of the changes that the records tell and
/// that no other one up to there replaced. A stream that is not `sync` sees sets and removals alone.
/// `None` exactly where the stream sees none.
pub fn disk_snapshot(
    alloc: Global,
    records: &[Record],
    start: u64,
    upto: u64,
    sync: bool,
) -> Result<Option<Snapshot>, AllocError>
    ensures { IfOk result (λ found. found ≡ disk_snapshot_of (reverse records.now) start upto sync) }
{
    let lasts = above(alloc, records, start, upto)?;
    let items = seen(alloc, lasts, sync)?;
    Ok(snapshot_of(start, items))
}

/// What a stream sees of these changes, in which commits are written out.
fn seen(alloc: Global, changes: Listed<Change>, sync: bool) -> Result<Listed<Change>, AllocError>
    ensures { IfOk result (λ items. items ≡ seen_by sync changes) }
{
    if sync {
        return Ok(changes);
    }
    documents(alloc, changes.as_slice())
}

/// The sets and removals among these changes. They share their bytes.
fn documents(alloc: Global, changes: &[Change]) -> Result<Listed<Change>, AllocError>
    ensures { IfOk result (λ items. items ≡ filter (λ c. is_visible c.act) changes.now) }
{
    let mut items = Listed::new(alloc);
    for change in changes {
        if is_document(&change.act) {
            items.push(change.copy()?)?;
        }
    }
    Ok(items)
}

/// Whether an act puts a document or takes it away.
fn is_document(act: &Act) -> bool
    ensures { result ≡ is_visible act.now }
{
    matches!(act, Act::Set(_) | Act::Remove { .. } | Act::Commit { .. })
}

/// The snapshot from the disk with these items, if there is one at least.
fn snapshot_of(start: u64, items: Listed<Change>) -> Option<Snapshot>
    ensures { result ≡ disk_of start items }
{
    let end = match items.as_slice().last() {
        Some(item) => item.seq,
        None => return None,
    };
    Some(Snapshot {
        start,
        end,
        disk: true,
        items,
    })
}
