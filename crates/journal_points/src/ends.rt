//! Where batches ended.
ghost use Rattle.std.specs.Prelude.{◌≡◌, reverse, IfOk};
ghost use Rattle.branch_model.specs.Journals as journal;

use crate::standing::Standing;
use std::alloc::{AllocError, Global};
use vb_types::{Listed, Position, Record};

/// The positions of the batches that no rollback cut, the oldest first.
pub fn points(alloc: Global, records: &[Record]) -> Result<Listed<Position>, AllocError>
    ensures { IfOk result (λ list. list ≡ reverse (journal.points (reverse records.now))) }
{
    let mut positions: Vec<Position> = Standing::new(records, None)
        .map(|batch| batch.position)
        .collect(alloc)?;
    positions.reverse();
    Ok(Listed::from_vec(positions))
}

/// Where a rollback goes that names a seqno: to the greatest complete point at most `to`, or to 0.
/// Takes no memory.
pub fn roll_point(records: &[Record], to: u64) -> u64
    ensures { result ≡ journal.roll_point (reverse records.now) to }
{
    let mut point = 0;
    for batch in Standing::new(records, Some(to)) {
        if batch.position.at == batch.position.se {
            point = point.max(batch.position.at);
        }
    }
    point
}
