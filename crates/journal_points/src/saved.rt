//! What a vBucket starts with.
ghost use Rattle.std.specs.Prelude.{◌≡◌, reverse, IfOk};
ghost use Rattle.std.specs.List.{filter};
ghost use Rattle.branch_model.specs.Journals as journal;
ghost use Rattle.journal_points.specs.Limits.{is_within};
ghost use Rattle.journal_points.specs.Points as told;

use crate::images::image_within;
use crate::standing::{lower, within};
use std::alloc::{AllocError, Global};
use vb_types::{Image, Listed, LogEntry, Position, Record, Role};

/// What the records tell a vBucket that starts with them.
#[derive(Drop)]
pub struct Saved {
    /// The last role; dead where no record has one.
    pub role: Role,
    /// The failover log of the last record that has one, without what later rollbacks gave up; empty
    /// where no record has one.
    pub log: Listed<LogEntry>,
    /// Where the last batch ended, or where the vBucket went back to after it.
    pub position: Position,
    /// The CAS of the last batch, also where a rollback cut that; 0 where there is none.
    pub cas: u64,
    /// What all batches that stand leave.
    pub image: Image,
}

/// What the records tell.
pub fn state(alloc: Global, records: &[Record]) -> Result<Saved, AllocError>
    ensures { IfOk result (λ state. state ≡ told.saved (reverse records.now)) }
{
    Ok(Saved {
        role: role_of(records),
        log: log_of(alloc, records)?,
        position: place_of(records),
        cas: cas_of_last(records),
        image: image_within(alloc, records, None)?,
    })
}

/// The last role.
fn role_of(records: &[Record]) -> Role
    ensures { result ≡ told.or_dead (journal.role_of (reverse records.now)) }
{
    let mut rest = records;
    while let Some((record, before)) = rest.split_last() {
        if let Record::State { role, .. } = record {
            return *role;
        }
        rest = before;
    }
    Role::Dead
}

/// The log of the last record that has one, cut by each later rollback.
fn log_of(alloc: Global, records: &[Record]) -> Result<Listed<LogEntry>, AllocError>
    ensures { IfOk result (λ log. log ≡ journal.log_of (reverse records.now)) }
{
    let mut rest = records;
    let mut least = None;
    while let Some((record, before)) = rest.split_last() {
        match record {
            Record::State { log, .. } => return kept(alloc, log.as_slice(), least),
            Record::Rows(batch) => return kept(alloc, batch.log.as_slice(), least),
            Record::Roll { to } => least = Some(lower(least, *to)),
        }
        rest = before;
    }
    Ok(Listed::new(alloc))
}

/// The entries of a log within a limit.
fn kept(alloc: Global, log: &[LogEntry], limit: Option<u64>) -> Result<Listed<LogEntry>, AllocError>
    ensures { IfOk result (λ kept. kept ≡ filter (λ e. is_within limit e.seq) log.now) }
{
    let entries: Vec<LogEntry> = log
        .iter()
        .copied()
        .filter(|entry| within(limit, entry.seq))
        .collect(alloc)?;
    Ok(Listed::from_vec(entries))
}

/// Where the last batch ended, or where a later rollback went.
fn place_of(records: &[Record]) -> Position
    ensures { result ≡ journal.place_of (reverse records.now) }
{
    let mut rest = records;
    while let Some((record, before)) = rest.split_last() {
        match record {
            Record::State { .. } => rest = before,
            Record::Rows(batch) => return batch.position,
            Record::Roll { to } => return complete_at(*to),
        }
    }
    complete_at(0)
}

/// The position of a vBucket that holds all up to a seqno and is in no snapshot.
fn complete_at(seq: u64) -> Position
    ensures { result ≡ record { ss = seq; se = seq; at = seq } }
{
    Position {
        ss: seq,
        se: seq,
        at: seq,
    }
}

/// The CAS of the last batch, also where a rollback cut that; 0 where there is none. Takes no memory.
pub fn cas_of_last(records: &[Record]) -> u64
    ensures { result ≡ journal.cas_of_last (reverse records.now) }
{
    let mut rest = records;
    while let Some((record, before)) = rest.split_last() {
        if let Record::Rows(batch) = record {
            return batch.cas;
        }
        rest = before;
    }
    0
}
