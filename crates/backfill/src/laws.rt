//! What a stream gets from the disk, in other words and in numbers; each law as the contract of a
//! function that does nothing. What a whole snapshot does to an image is `branch_model`'s laws
//! `whole_snapshot` and `plain_stream`.
ghost use Rattle.std.specs.Prelude.{◌≡◌, true, false, [], ◌∷◌, None};
ghost use Rattle.backfill.specs.Backfills.{backfill_job, disk_snapshot_of};
ghost use Rattle.backfill.specs.Laws.{BackfillsReadOnce, GivesDue};
ghost use Rattle.backfill.specs.declared.backfilled.Backfilled.TheVariants.{Disk, Nothing};
ghost use Rattle.backfill.specs.Rows.{prepare_a, remove_a, prepare_c, abort_c, prepare_d, saved, rolled, disk, filled_at, has, no_vb, shelves};
ghost use Rattle.journal_points.specs.Rows.{set_a, prepare_b, set_b};
ghost use Rattle.vb_calls.specs.Jobs.{after_job};

use vb_calls::{Journals, VbAccess};

/// Where seqnos rise: the last change of each slot that is above the place and that the stream sees
/// has an item, and no other change has one. So the snapshot is a whole one of what stands, and there
/// is none exactly where the stream sees nothing above its place.
pub fn gives_what_is_due()
    ensures { GivesDue }
{}

/// The journal of `Rows`: a is set at 1 and its removal committed at 5, b is committed at 3, c given
/// up at 7, and d waits at 8.
pub fn snapshots_in_numbers()
    ensures sync { disk_snapshot_of saved 0 8 true ≡ disk 0 8 (set_b ∷ remove_a ∷ abort_c ∷ prepare_d ∷ []) }
    ensures plain { disk_snapshot_of saved 0 8 false ≡ disk 0 5 (set_b ∷ remove_a ∷ []) }
    ensures beyond { disk_snapshot_of saved 0 99 true ≡ disk_snapshot_of saved 0 8 true }
    ensures later { disk_snapshot_of saved 3 8 true ≡ disk 3 8 (remove_a ∷ abort_c ∷ prepare_d ∷ []) }
    ensures later_plain { disk_snapshot_of saved 4 8 false ≡ disk 4 5 (remove_a ∷ []) }
    ensures inside { disk_snapshot_of saved 0 6 true ≡ disk 0 6 (set_b ∷ remove_a ∷ prepare_c ∷ []) }
    ensures lower { disk_snapshot_of saved 0 4 true ≡ disk 0 4 (set_a ∷ set_b ∷ prepare_a ∷ []) }
    ensures lower_plain { disk_snapshot_of saved 0 4 false ≡ disk 0 3 (set_a ∷ set_b ∷ []) }
    ensures prepared { disk_snapshot_of saved 0 2 true ≡ disk 0 2 (set_a ∷ prepare_b ∷ []) }
    ensures cut { disk_snapshot_of rolled 0 8 true ≡ disk 0 3 (set_a ∷ set_b ∷ []) }
    ensures alone { disk_snapshot_of saved 7 8 true ≡ disk 7 8 (prepare_d ∷ []) }
    ensures alone_plain { disk_snapshot_of saved 7 8 false ≡ None }
    ensures unseen { disk_snapshot_of saved 5 8 false ≡ None }
    ensures end { disk_snapshot_of saved 8 8 true ≡ None }
    ensures above { disk_snapshot_of saved 9 8 true ≡ None }
    ensures gone { disk_snapshot_of rolled 3 8 true ≡ None }
    ensures empty { disk_snapshot_of [] 0 8 true ≡ None }
{}

/// A backfill reads the journal of its vBucket once, and asks and calls nothing else. It comes to
/// `Disk` exactly where the journal is closed or damaged, or its disk failed in that read, which was
/// counted; to nothing exactly where the stream sees nothing above its place; and else to the stream's
/// disk snapshot.
pub fn backfills_read_once<A: VbAccess, J: Journals>()
    ensures { BackfillsReadOnce A.step J.asks J.failures }
{}

/// The same of the journal of `Rows`, of one of which an append failed, and of none; all stay.
#[tactic(auto, unfolding(crate::specs::Backfills::backfilled))]
pub fn backfills_in_numbers()
    ensures all { filled_at 7 0 8 true ≡ has 0 8 (set_b ∷ remove_a ∷ abort_c ∷ prepare_d ∷ []) }
    ensures plain { filled_at 7 0 8 false ≡ has 0 5 (set_b ∷ remove_a ∷ []) }
    ensures later { filled_at 7 3 8 true ≡ has 3 8 (remove_a ∷ abort_c ∷ prepare_d ∷ []) }
    ensures unseen { filled_at 7 5 8 false ≡ Nothing }
    ensures end { filled_at 7 8 8 true ≡ Nothing }
    ensures closed { filled_at 8 0 8 true ≡ Disk }
    ensures closed_above { filled_at 8 8 8 true ≡ Disk }
    ensures none { filled_at 9 0 8 true ≡ Disk }
    ensures journals { (after_job (backfill_job 7 0 8 true) no_vb shelves).0.1 7 ≡ shelves 7 }
    ensures closed_stays { (after_job (backfill_job 8 0 8 true) no_vb shelves).0.1 8 ≡ shelves 8 }
{}
