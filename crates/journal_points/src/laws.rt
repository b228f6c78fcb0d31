//! What the records of a journal tell, in other words and in numbers; each law as the contract of a
//! function that does nothing. Where a rollback goes, in other words, is `branch_model`'s law
//! `rollback_point`, and what the image at a complete point is worth its law `point_image`.
ghost use Rattle.std.specs.Prelude.{◌≡◌, ℕ, List, [], ◌∷◌, Some, false};
ghost use Rattle.std.specs.FinMap.{get};
ghost use Rattle.branch_model.specs.Journals as journal;
ghost use Rattle.journal_points.specs.{Laws.{RecordsTell, RollsCut, SendsWhole, SendsLasts}, Points.{above, saved}};
ghost use Rattle.journal_points.specs.Rows.{doc_of, set_a, prepare_b, commit_b, set_b, prepare_c, abort_c, remove_a, old_log, first, part, rest, taken, rolled};
ghost use Rattle.{vb_types.specs.Images.{image_of, nothing}, vb_types.specs.declared.journal.Record.{Record}};
ghost use Rattle.vb_types.specs.declared.role.Role.TheVariants.{Replica};
ghost use Rattle.vb_types.specs.declared.change.Level.TheVariants.{Majority};

/// What one more record makes of the state that a vBucket starts with.
pub fn records_tell()
    ensures { RecordsTell }
{}

/// Behind a rollback the points and the images are those of the records before it, up to where it
/// went.
pub fn rolls_cut()
    ensures { (js : List Record) (to n : ℕ) → RollsCut js to n }
{}

/// Where seqnos rise, what is sent is a snapshot of the changes that stand, and whoever had the image
/// at its start has that at its end with it.
pub fn sends_whole()
    ensures { SendsWhole }
{}

/// Each last change of a slot is sent, a removal too, and no other change. No commit is sent as such.
pub fn sends_lasts()
    ensures { SendsLasts }
{}

/// A journal of three batches, the second of which ends inside its snapshot, and the same after a
/// rollback that cut two of them.
pub fn points_in_numbers()
    ensures points { journal.points taken ≡ rest.position ∷ part.position ∷ first.position ∷ [] }
    ensures cut { journal.points rolled ≡ first.position ∷ [] }
    ensures complete { journal.roll_point taken 6 ≡ 6 }
    ensures inside { journal.roll_point taken 5 ≡ 2 }
    ensures below { journal.roll_point taken 1 ≡ 0 }
    ensures behind { journal.roll_point rolled 6 ≡ 2 }
{}

/// Their images: the prepare that waits is there at 2, and at 1 there is nothing.
pub fn images_in_numbers()
    ensures start { journal.image_at taken 1 ≡ nothing }
    ensures prepared { journal.image_at taken 2 ≡ image_of (set_a ∷ prepare_b ∷ []) }
    ensures waits { get (journal.image_at taken 2).pending (98 ∷ []) ≡ Some (record { seq = 2; level = Majority; doc = doc_of 20; deleted = false }) }
    ensures inside { journal.image_at taken 5 ≡ image_of (set_a ∷ prepare_b ∷ commit_b ∷ prepare_c ∷ []) }
    ensures cut { journal.image_at rolled 6 ≡ image_of (set_a ∷ prepare_b ∷ []) }
{}

/// What a vBucket starts with after the rollback: the log without the branch that it gave up, and the
/// CAS of a batch that it cut.
pub fn state_in_numbers()
    ensures { saved rolled ≡ record { role = Replica; log = old_log; position = record { ss = 2; se = 2; at = 2 }; cas = 60; image = image_of (set_a ∷ prepare_b ∷ []) } }
{}

/// What is sent of them.
pub fn sent_in_numbers()
    ensures all { above taken 0 6 ≡ set_b ∷ abort_c ∷ remove_a ∷ [] }
    ensures front { above taken 0 4 ≡ set_a ∷ set_b ∷ prepare_c ∷ [] }
    ensures later { above taken 3 6 ≡ abort_c ∷ remove_a ∷ [] }
    ensures cut { above rolled 0 6 ≡ set_a ∷ prepare_b ∷ [] }
    ensures none { above taken 6 9 ≡ [] }
{}
