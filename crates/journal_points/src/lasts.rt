//! Which changes of a list are the last of their keys.
ghost use Rattle.std.specs.Prelude.{◌≡◌, ◌&&◌, ◌||◌, nat_lt, map, IfOk};
ghost use Rattle.std.specs.FinMap.{get};
ghost use Rattle.journal_points.specs.Sides.{is_of_side, is_at, AreLasts};
ghost use Rattle.journal_points.specs.declared.lasts.Side.TheVariants as sides;

use std::alloc::{AllocError, Global};
use vb_types::{Act, Change, Keyed};

/// What a change may be the last of: its key's document, or its key's prepare that waits.
#[derive(Clone, Copy)]
pub enum Side {
    Committed,
    Pending,
}

/// The seqnos of the last changes of all keys, of either side.
#[derive(Drop)]
pub struct Lasts {
    committed: Keyed<u64>,
    pending: Keyed<u64>,
}

impl Lasts {
    /// The last changes of a list.
    pub fn of(alloc: Global, changes: &[&Change]) -> Result<Lasts, AllocError>
        ensures committed { IfOk result (λ lasts. AreLasts sides.Committed (map (λ c. c.now) changes.now) lasts.committed) }
        ensures pending { IfOk result (λ lasts. AreLasts sides.Pending (map (λ c. c.now) changes.now) lasts.pending) }
    {
        Ok(Lasts {
            committed: last_seqs(alloc, changes, Side::Committed)?,
            pending: last_seqs(alloc, changes, Side::Pending)?,
        })
    }

    /// Whether a change is above `start`, and the last one of either side of its key.
    pub fn has_above(&self, start: u64, change: &Change) -> bool
        ensures { result ≡ (nat_lt start change.now.seq && (is_at change.now.seq (get self.now.committed change.now.key) || is_at change.now.seq (get self.now.pending change.now.key))) }
    {
        start < change.seq && (is_last(&self.committed, change) || is_last(&self.pending, change))
    }
}

/// The seqno of each key's last change of a side.
fn last_seqs(alloc: Global, changes: &[&Change], side: Side) -> Result<Keyed<u64>, AllocError>
    ensures { IfOk result (λ lasts. AreLasts side (map (λ c. c.now) changes.now) lasts) }
{
    let mut lasts = Keyed::new(alloc);
    for change in changes {
        if touches(side, &change.act) {
            lasts.insert(change.key.clone()?, change.seq)?;
        }
    }
    Ok(lasts)
}

/// Whether an act touches this side of its key.
fn touches(side: Side, act: &Act) -> bool
    ensures { result ≡ is_of_side side act.now }
{
    match side {
        Side::Committed => !matches!(act, Act::Prepare { .. } | Act::Abort { .. }),
        Side::Pending => true,
    }
}

/// Whether these are the seqnos of last changes, and the change has its key's.
fn is_last(lasts: &Keyed<u64>, change: &Change) -> bool
    ensures { result ≡ is_at change.now.seq (get lasts.now change.now.key) }
{
    match lasts.get(&change.key) {
        Some(seq) => *seq == change.seq,
        None => false,
    }
}
