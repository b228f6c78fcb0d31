//! What is sent of the changes that stand.
ghost use Rattle.std.specs.Prelude.{◌≡◌, ◌++◌, ◌∷◌, [], map, reverse, IfOk, OnOk};
ghost use Rattle.vb_types.specs.Histories as histories;
ghost use Rattle.journal_points.specs.Points as told;
ghost use Rattle.journal_points.specs.Sides.{lasts_sent};

use crate::lasts::Lasts;
use crate::standing::changes_within;
use std::alloc::{AllocError, Global};
use vb_types::{Act, Change, Listed, Record};

/// What is sent of the changes that stand, above `start` and up to `upto`: those that no other one
/// up to there replaces, in their order, a commit as the set or the removal of its document.
pub fn above(
    alloc: Global,
    records: &[Record],
    start: u64,
    upto: u64,
) -> Result<Listed<Change>, AllocError>
    ensures { IfOk result (λ list. list ≡ told.above (reverse records.now) start upto) }
{
    let standing = changes_within(alloc, records, None)?;
    let front = front_of(alloc, &standing, upto)?;
    sent_of(alloc, &front, start)
}

/// The changes of a list up to a seqno.
fn front_of<'a>(
    alloc: Global,
    changes: &[&'a Change],
    upto: u64,
) -> Result<Vec<&'a Change>, AllocError>
    ensures { IfOk result (λ front. map (λ c. c.now) front.items ≡ histories.upto (map (λ c. c.now) changes.now) upto) }
{
    changes
        .iter()
        .copied()
        .filter(|change| change.seq <= upto)
        .collect(alloc)
}

/// What is sent of a list above `start`.
fn sent_of(alloc: Global, changes: &[&Change], start: u64) -> Result<Listed<Change>, AllocError>
    ensures { IfOk result (λ sent. sent ≡ lasts_sent start (map (λ c. c.now) changes.now)) }
{
    let lasts = Lasts::of(alloc, changes)?;
    let mut sent = Listed::new(alloc);
    for change in changes {
        if lasts.has_above(start, change) {
            push_plain(&mut sent, change)?;
        }
    }
    Ok(sent)
}

/// Appends the change, a commit as the set or the removal of its document.
fn push_plain(sent: &mut Listed<Change>, change: &Change) -> Result<(), AllocError>
    ensures { OnOk result (sent.new ≡ sent.old ++ histories.plain change.now ∷ []) }
{
    let change = plain(change)?;
    sent.push(change)
}

/// The change, a commit as the set or the removal of its document.
fn plain(change: &Change) -> Result<Change, AllocError>
    ensures { IfOk result (λ sent. sent ≡ histories.plain change.now) }
{
    let Act::Commit { doc, deleted, .. } = &change.act else {
        return change.copy();
    };
    let (seq, key) = (change.seq, change.key.clone()?);
    let act = if *deleted {
        Act::Remove {
            cas: doc.cas,
            rev: doc.rev,
        }
    } else {
        Act::Set(doc.copy()?)
    };
    Ok(Change { seq, key, act })
}
