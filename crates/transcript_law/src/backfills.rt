//! What is lawful where a stream is fed from a journal.

ghost use Rattle.std.specs.List.{All};
ghost use Rattle.std.specs.Prelude.{◌≡◌, ℕ, [], ◌∷◌, ◌++◌, map, false, true, Some};
ghost use Rattle.vb_types.specs.Histories.{Rises};
ghost use Rattle.journal_points.specs.Rows.{commit_b, prepare_b, set_a, set_b};
ghost use Rattle.transcript_law.specs.BackfillRows.{LawfulSaved, abort_c, begins, ends, fed, first_two, from_inside, from_start, marked_so, marks, prepare_a, prepare_d, put_from_disk, remove_a, saved_elsewhere, sends, unreplaced, within};
ghost use Rattle.transcript_law.specs.ClientStreamRows.{all_changes, fresh, sent};
ghost use Rattle.transcript_law.specs.Chronicles.{Begun};
ghost use Rattle.transcript_law.specs.Lawfulness.{LawfulFrom};
ghost use Rattle.transcript_law.specs.StreamLaws.{HasExactly, IsOfSource, IsWholeIf};

/// A snapshot from the journal of which each item was lawful, and that was put whole, has of its branch the
/// last change of each slot above its place and up to its end, in their order, and no other.
pub fn disk_snapshots_are_exact()
    ensures { (b : Begun) (top : ℕ) → Rises 0 top b.history → b.disk ≡ true → All (IsOfSource b) b.items → IsWholeIf (Some b) → HasExactly b }
{}

/// A marker says that its snapshot is from memory or from the journal, and nothing else. One from the
/// journal ends at most where the vBucket counts all as saved; it does not matter what another one counts,
/// nor where a snapshot from memory ends. From either the first one starts where the request means, and the
/// next one at the place before it, behind a whole snapshot: not where the first one started, not inside a
/// snapshot, and not behind what is saved, where none was sent up to there.
pub fn judged_disk_markers()
    ensures whole { LawfulFrom (fed 8 from_start) (marks 0 8 2 ∷ []) }
    ensures part { LawfulFrom (fed 5 from_start) (marks 0 5 2 ∷ []) }
    ensures above { LawfulFrom (fed 7 from_start) (marks 0 8 2 ∷ []) → ⊥ }
    ensures elsewhere { LawfulFrom (saved_elsewhere from_start) (marks 0 8 2 ∷ []) → ⊥ }
    ensures memory { LawfulFrom (fed 0 from_start) (marks 0 8 1 ∷ []) }
    ensures both { LawfulFrom (fed 8 from_start) (marks 0 8 3 ∷ []) → ⊥ }
    ensures neither { LawfulFrom (fed 8 from_start) (marks 0 8 0 ∷ []) → ⊥ }
    ensures first { LawfulFrom (fed 8 from_inside) (marks 0 3 2 ∷ []) }
    ensures next { LawfulFrom (fed 8 (within (begins true 1 3 (set_b ∷ [])) from_inside)) (marks 3 8 2 ∷ []) }
    ensures next_memory { LawfulFrom (fed 8 (within (begins true 1 3 (set_b ∷ [])) from_inside)) (marks 3 8 1 ∷ []) }
    ensures again { LawfulFrom (fed 8 (within (begins true 1 3 (set_b ∷ [])) from_inside)) (marks 0 8 2 ∷ []) → ⊥ }
    ensures unput { LawfulFrom (fed 8 (within (begins true 0 5 (set_b ∷ [])) from_start)) (marks 5 8 2 ∷ []) → ⊥ }
    ensures unsent { LawfulFrom (fed 5 from_start) (marks 5 8 1 ∷ []) → ⊥ }
{}

/// A snapshot from the journal has of its branch the last change of each slot, a commit as the set or the
/// removal that it makes, and nothing else. Not lawful are a removal that is left out, and an abort; a set
/// and a prepare that were replaced, and a commit as such, which memory may send; an item at the end of a
/// snapshot that ends where a vBucket holds no longer what was not replaced up to there; and an end behind
/// a part.
pub fn judged_disk_items()
    ensures all { LawfulFrom (fed 8 from_start) (marks 0 8 2 ∷ map sends unreplaced) }
    ensures removal { LawfulFrom (fed 8 (within (begins true 0 8 (set_b ∷ [])) from_start)) (sends abort_c ∷ []) → ⊥ }
    ensures abort { LawfulFrom (fed 8 (within (begins true 0 8 first_two) from_start)) (sends prepare_d ∷ []) → ⊥ }
    ensures replaced { LawfulFrom (fed 8 (within (begins true 0 8 []) from_start)) (sends set_a ∷ []) → ⊥ }
    ensures replaced_prepare { LawfulFrom (fed 8 (within (begins true 0 8 (set_b ∷ [])) from_start)) (sends prepare_a ∷ []) → ⊥ }
    ensures commit { LawfulFrom (fed 8 (within (begins true 0 8 []) from_start)) (sends commit_b ∷ []) → ⊥ }
    ensures replaced_memory { LawfulFrom (fed 8 (within (begins false 0 8 []) from_start)) (sends set_a ∷ []) }
    ensures commit_memory { LawfulFrom (fed 8 (within (begins false 0 8 (set_a ∷ prepare_b ∷ [])) from_start)) (sends commit_b ∷ []) }
    ensures inside { LawfulFrom (fed 8 (within (begins true 0 3 []) from_start)) (sends set_b ∷ []) → ⊥ }
    ensures ended { LawfulFrom (fed 8 (within (begins true 0 8 unreplaced) from_start)) (ends ∷ []) }
    ensures ended_early { LawfulFrom (fed 8 (within (begins true 0 8 first_two) from_start)) (ends ∷ []) → ⊥ }
{}

/// So it is of a client's stream, whole changes: one that is not shown durable writes is sent the sets and
/// removals of the journal alone, and one that is, no commit as such.
pub fn judged_disk_clients()
    ensures plain { LawfulSaved 5 (fresh false all_changes) (marked_so 0 5 2 ++ sent 0 set_b ++ sent 0 remove_a) }
    ensures document { LawfulSaved 8 (put_from_disk true 8 []) (sent 0 set_b) }
    ensures above { LawfulSaved 4 (fresh false all_changes) (marked_so 0 5 2) → ⊥ }
    ensures both { LawfulSaved 8 (fresh true all_changes) (marked_so 0 8 3) → ⊥ }
    ensures commit { LawfulSaved 8 (put_from_disk true 8 []) (sent 0 commit_b) → ⊥ }
    ensures replaced { LawfulSaved 8 (put_from_disk true 8 []) (sent 0 set_a) → ⊥ }
    ensures plain_replaced { LawfulSaved 5 (put_from_disk false 5 []) (sent 0 set_a) → ⊥ }
{}
