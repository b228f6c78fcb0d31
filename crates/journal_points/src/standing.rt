//! The batches that no rollback cut.
ghost use Rattle.std.specs.Prelude.{◌≡◌, map, reverse, IfOk};
ghost use Rattle.std.specs.Iterator.{YieldsFirstRef, item_count};
ghost use Rattle.branch_model.specs.Journals.{items_of};
ghost use Rattle.journal_points.specs.Limits.{is_within, lowered, standing_within};

use std::alloc::{AllocError, Global};
use std::cmp::min;
use vb_types::{Batch, Change, Record};

/// The batches that stand and end within a limit, the last first.
#[derive(Drop)]
pub struct Standing<'a> {
    /// The records that were not looked at.
    records: &'a [Record],
    /// The least seqno that a rollback behind them went to, or the limit where that is lower.
    least: Option<u64>,
}

impl<'a> Standing<'a> {
    /// All batches that stand, or those that end at most at a seqno.
    pub fn new(records: &'a [Record], limit: Option<u64>) -> Standing<'a>
        ensures { standing_within result.least (reverse result.records.now) ≡ standing_within limit (reverse records.now) }
    {
        Standing {
            records,
            least: limit,
        }
    }
}

impl<'a> Iterator for Standing<'a> {
    type Item = &'a Batch;

    ghost next_gives = { YieldsFirstRef (λ s. standing_within s.least (reverse s.records.now)) };

    ghost remaining = { item_count (λ s. standing_within s.least (reverse s.records.now)) };

    fn next(&mut self) -> Option<&'a Batch> {
        while let Some((record, before)) = self.records.split_last() {
            self.records = before;
            match record {
                Record::State { .. } => {}
                Record::Rows(batch) => {
                    if within(self.least, batch.position.at) {
                        return Some(batch);
                    }
                }
                Record::Roll { to } => self.least = Some(lower(self.least, *to)),
            }
        }
        None
    }
}

/// Whether a seqno is within a limit.
pub fn within(limit: Option<u64>, seq: u64) -> bool
    ensures { result ≡ is_within limit seq }
{
    match limit {
        Some(most) => seq <= most,
        None => true,
    }
}

/// A limit that is also at most `to`.
pub fn lower(limit: Option<u64>, to: u64) -> u64
    ensures { result ≡ lowered limit to }
{
    match limit {
        Some(most) => min(most, to),
        None => to,
    }
}

/// The changes of the batches that stand and end within a limit, the oldest first.
pub fn changes_within<'a>(
    alloc: Global,
    records: &'a [Record],
    limit: Option<u64>,
) -> Result<Vec<&'a Change>, AllocError>
    ensures { IfOk result (λ changes. map (λ c. c.now) changes.items ≡ items_of (standing_within limit (reverse records.now))) }
{
    let batches: Vec<&Batch> = Standing::new(records, limit).collect(alloc)?;
    batches
        .iter()
        .rev()
        .flat_map(|batch| batch.items.as_slice())
        .collect(alloc)
}
