//! The backfill of a stream, out of its vBucket's journal.
ghost use Rattle.std.specs.Prelude.{◌≡◌, Option, reverse, IfOk, OnErr};
ghost use Rattle.backfill.specs.Backfills.{backfill_job, backfilled, found};
ghost use Rattle.vb_calls.specs.{Jobs.{BeganRequests, RanRequests}, Shelves.{Book}};

use crate::snapshots::disk_snapshot;
use std::alloc::{AllocError, Global};
use vb_calls::Journals;
use vb_types::{Record, Snapshot};

/// What a vBucket's journal has for a stream.
#[derive(Drop)]
pub enum Backfilled {
    /// One snapshot, of what the stream sees.
    Snapshot(Snapshot),
    /// Nothing that the stream sees.
    Nothing,
    /// The journal can't be read: it is closed or damaged, or its disk failed.
    Disk,
}

/// What there is, by the snapshot.
fn found(snapshot: Option<Snapshot>) -> Backfilled
    ensures { result ≡ found snapshot }
{
    match snapshot {
        Some(snapshot) => Backfilled::Snapshot(snapshot),
        None => Backfilled::Nothing,
    }
}

/// What these records have for a stream.
#[tactic(auto, unfolding(crate::specs::Backfills::backfilled))]
fn found_in(
    alloc: Global,
    records: &[Record],
    start: u64,
    upto: u64,
    sync: bool,
) -> Result<Backfilled, AllocError>
    ensures { IfOk result (λ came. came ≡ backfilled start upto sync (Book (reverse records.now))) }
{
    Ok(found(disk_snapshot(alloc, records, start, upto, sync)?))
}

/// Reads the journal of a vBucket once, for a stream at the place `start`: one snapshot from there up
/// to `upto`, of the changes that no other one up to there replaced. A stream that is not `sync` sees
/// sets and removals alone. No vBucket is called.
#[tactic(auto, unfolding(crate::specs::Backfills::backfilled))]
pub fn backfill<J: Journals>(
    alloc: Global,
    journals: &mut J,
    v: u16,
    start: u64,
    upto: u64,
    sync: bool,
) -> Result<Backfilled, AllocError>
    ensures ok { IfOk result (λ came. RanRequests J.asks (backfill_job v start upto sync) journals.old came journals.new) }
    ensures err { OnErr result (BeganRequests J.asks (backfill_job v start upto sync) journals.old journals.new) }
{
    match journals.records(v)? {
        Ok(records) => found_in(alloc, records.as_slice(), start, upto, sync),
        Err(_) => Ok(Backfilled::Disk),
    }
}
