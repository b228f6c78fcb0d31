//! Lines that one clause of the law alone refuses.

ghost use Rattle.std.specs.Prelude.{[], ◌∷◌};
ghost use Rattle.transcript_law.specs.Alone.{back_at, begun_one, both_in, commit_removal, commit_set, counts_anywhere, counts_at_vb, dialed_once, ended_inside, first_before, first_groups, first_lines, got_at, held_before, held_less, held_otherwise, other_value, prepared, prepared_less, range_at, refused_at, removed_item, sent_anywhere, shown_waiting, strange_shown};
ghost use Rattle.transcript_law.specs.Contrary.{acknowledged_lines, inside_got, sent_known};
ghost use Rattle.transcript_law.specs.Followers.{both_sent_lines, first_item_line, granted_inside, marker_line, next_item_line};
ghost use Rattle.transcript_law.specs.Lawfulness.{Lawful, LawfulFrom};
ghost use Rattle.transcript_law.specs.Rollbacks.{stream_end_lines, sent_back};
ghost use Rattle.transcript_law.specs.Transcripts.{change_line, one_change};
ghost use Rattle.vb_types.specs.declared.role.Role.TheVariants as role;

/// Not lawful are a change that its branch has, though the vBucket does not hold it; a commit where no
/// prepare waits, and one with another document, or of a removal; a vBucket with a complete snapshot
/// that is shown with what it holds where its branch has something else; and one inside a snapshot
/// that is shown with a prepare too many.
pub fn judged_single_changes()
    ensures branch { LawfulFrom held_less (change_line 0 ∷ []) → ⊥ }
    ensures commits { LawfulFrom prepared (commit_set (6 ∷ [])) }
    ensures unprepared { LawfulFrom prepared_less (commit_set (6 ∷ [])) → ⊥ }
    ensures document { LawfulFrom prepared (commit_set (7 ∷ [])) → ⊥ }
    ensures removal { LawfulFrom prepared commit_removal → ⊥ }
    ensures history { LawfulFrom held_otherwise strange_shown → ⊥ }
    ensures waiting { LawfulFrom inside_got shown_waiting → ⊥ }
{}

/// Over a link that was dialed, not lawful are a request at another node than it was dialed to; a
/// rollback, a marker and a change at another vBucket or node than it was dialed for; a marker below
/// what the vBucket holds, one that ends where the branch has no change, and one that ends elsewhere at
/// a change of it; a change that the vBucket holds, and one with another value than the branch's; an
/// acknowledgement of a vBucket that is dead, or active; and one that is counted at another node or
/// vBucket than it was written to.
pub fn judged_single_links()
    ensures asked { LawfulFrom dialed_once (refused_at 0) }
    ensures asked_elsewhere { LawfulFrom dialed_once (refused_at 2) → ⊥ }
    ensures back { LawfulFrom sent_back (back_at 1 0) }
    ensures back_node { LawfulFrom sent_back (back_at 2 0) → ⊥ }
    ensures back_vb { LawfulFrom sent_back (back_at 1 1) → ⊥ }
    ensures range { LawfulFrom (sent_known both_sent_lines) (range_at 1 0 2) }
    ensures range_anywhere { LawfulFrom sent_anywhere (range_at 1 0 2) }
    ensures range_node { LawfulFrom sent_anywhere (range_at 2 0 2) → ⊥ }
    ensures range_vb { LawfulFrom sent_anywhere (range_at 1 1 2) → ⊥ }
    ensures range_below { LawfulFrom first_before (range_at 1 0 1) → ⊥ }
    ensures range_unended { LawfulFrom (sent_known (marker_line 0 3 ∷ [])) (range_at 1 0 3) → ⊥ }
    ensures range_short { LawfulFrom (sent_known both_sent_lines) (range_at 1 0 1) → ⊥ }
    ensures got_node { LawfulFrom sent_anywhere (got_at 2 0 one_change) → ⊥ }
    ensures got_vb { LawfulFrom sent_anywhere (got_at 1 1 one_change) → ⊥ }
    ensures got_held { LawfulFrom held_before (got_at 1 0 one_change) → ⊥ }
    ensures got_value { LawfulFrom (sent_known both_sent_lines) (got_at 1 0 other_value) → ⊥ }
    ensures dead { LawfulFrom (both_in role.Dead) (acknowledged_lines 1 2) → ⊥ }
    ensures active { LawfulFrom (both_in role.Active) (acknowledged_lines 1 2) → ⊥ }
    ensures counted { LawfulFrom counts_anywhere (counts_at_vb 0 0) }
    ensures counted_node { LawfulFrom counts_anywhere (counts_at_vb 2 0) → ⊥ }
    ensures counted_vb { LawfulFrom counts_anywhere (counts_at_vb 0 1) → ⊥ }
{}

/// Not lawful are an item behind its stream's end, one before any marker, one at the request's start, and
/// one of another act than its change's; and the end of a stream that was not granted. A transcript has a
/// group for each line of its script, and no more.
pub fn judged_single_streams()
    ensures item { LawfulFrom begun_one (next_item_line ∷ []) }
    ensures item_behind { LawfulFrom ended_inside (next_item_line ∷ []) → ⊥ }
    ensures item_unbegun { LawfulFrom (granted_inside 2) (next_item_line ∷ []) → ⊥ }
    ensures item_below { LawfulFrom begun_one (first_item_line ∷ []) → ⊥ }
    ensures item_act { LawfulFrom begun_one removed_item → ⊥ }
    ensures ungranted { LawfulFrom dialed_once stream_end_lines → ⊥ }
    ensures missing { Lawful (first_lines 5) (first_groups 4) → ⊥ }
    ensures more { Lawful (first_lines 4) (first_groups 5) → ⊥ }
{}
