//! The flusher of a vBucket: takes its changes, and writes them down.
ghost use Rattle.std.specs.Prelude.{◌≡◌, false, IfOk, OnOk};
ghost use Rattle.vb_calls.specs.Plain.{Plain};
ghost use Rattle.storm_model.specs.Sums.{flushed};
ghost use Rattle.storm_seats.specs.Draining.{flushed_once};
ghost use Rattle.storm.specs.Ending.{IsQuiet, Reads, is_done};

use disk_journals::DiskJournals;
use node_threads::VbSeats;
use std::alloc::{AllocError, Global};
use std::sync::Wait;
use vb_calls::{Flushed, Journals};
use vb_disk::MemDisk;
use vb_turn::Gate;
use vb_types::FlushPart;

/// A blank journal of the vBucket, on a disk in memory.
fn journal(alloc: Global, v: u16) -> Result<DiskJournals<MemDisk>, AllocError>
    ensures { IfOk result (λ journals. IsQuiet v journals) }
{
    let mut journals = DiskJournals::new(alloc);
    journals.add(v, MemDisk::new(alloc)?)?;
    Ok(journals)
}

/// Whether a batch was written down.
fn is_done(came: &Flushed) -> bool
    ensures { result ≡ is_done came.now }
{
    matches!(came, Flushed::Done(_))
}

/// Takes the next batch and writes it down; false where there is none.
fn flush_next<W: Wait, G: Gate>(
    journals: &mut DiskJournals<MemDisk>,
    seats: &mut VbSeats<'_, W, G>,
    v: u16,
) -> Result<bool, AllocError>
    ensures { IfOk result (λ more. (vb : Plain) → Reads v seats.old vb → IsQuiet v journals.old
        → Reads v seats.new (flushed_once vb) × IsQuiet v journals.new × (more ≡ false → flushed_once vb ≡ vb)) }
{
    let came = journals.flush(v, FlushPart::All, seats)?;
    Ok(is_done(&came))
}

/// Writes all down that a vBucket has, which are so many changes: no batch is empty, so there are no more
/// batches than changes.
pub(crate) fn flush_all<W: Wait, G: Gate>(
    alloc: Global,
    seats: &mut VbSeats<'_, W, G>,
    v: u16,
    count: u64,
) -> Result<(), AllocError>
    ensures { OnOk result ((vb : Plain) → Reads v seats.old vb → Reads v seats.new (flushed count vb)) }
{
    let mut journals = journal(alloc, v)?;
    for _ in 0..count {
        if !flush_next(&mut journals, seats, v)? {
            return Ok(());
        }
    }
    Ok(())
}
