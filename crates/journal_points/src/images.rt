//! What a vBucket held.
ghost use Rattle.std.specs.Prelude.{◌≡◌, reverse, IfOk};
ghost use Rattle.branch_model.specs.Journals as journal;
ghost use Rattle.journal_points.specs.Limits.{standing_within};
ghost use Rattle.vb_types.specs.Images as pictures;

use crate::standing::changes_within;
use std::alloc::{AllocError, Global};
use vb_types::{Image, Record};

/// The image that the batches leave that stand and end at most at a seqno: at a complete point,
/// what the vBucket held there. Documents share their bytes with the records.
pub fn image_at(alloc: Global, records: &[Record], at: u64) -> Result<Image, AllocError>
    ensures { IfOk result (λ image. image ≡ journal.image_at (reverse records.now) at) }
{
    image_within(alloc, records, Some(at))
}

/// The image that the batches leave that stand and end within a limit.
pub fn image_within(
    alloc: Global,
    records: &[Record],
    limit: Option<u64>,
) -> Result<Image, AllocError>
    ensures { IfOk result (λ image. image ≡ pictures.image_of (journal.items_of (standing_within limit (reverse records.now)))) }
{
    let changes = changes_within(alloc, records, limit)?;
    let mut image = Image::new(alloc);
    for change in &changes {
        image.apply(change)?;
    }
    Ok(image)
}
