//! Which commits of durable writes are lawful, by what the lines before them tell.

ghost use Rattle.std.specs.Prelude.{[], ◌∷◌, Some, None};
ghost use Rattle.transcript_law.specs.Commits.{Commits, Leaves, active_again, chained_later, chained_known, commit_anew, commit_lines, counted_dead, counted_elsewhere, count_lines, crashed_chained, risen_again, risen_anew, started_anew, unchained};
ghost use Rattle.transcript_law.specs.Chronicles.{after_lines};
ghost use Rattle.transcript_law.specs.Lawfulness.{LawfulFrom};
ghost use Rattle.vb_types.specs.declared.change.Level.TheVariants.{Majority, MajorityPersistActive, PersistMajority};

/// A write of level 1 is committed where the chain is its node alone; in a chain of two or three once
/// another node of it acknowledged the prepare, and in one of four once two did, with unset members
/// counted, whether it did before the chain was set or after. One of level 2 or 3 is committed once the
/// active node saved it, too. A line that is refused sets no chain. Not lawful is a commit where too few
/// did: none, one up to below the prepare, one that is not of the chain or that another vBucket counted,
/// one of a chain of four, or the same one twice; where it is not saved; and by what was counted on an
/// earlier branch, also where its node starts anew, or before it was dead and active again on its
/// branch. A vBucket becomes active where its node alone is its chain, and not with another one.
pub fn judged_commits()
    ensures alone { Commits Majority [] 0 [] }
    ensures lacking { Commits Majority (Some 1 ∷ []) 0 [] → ⊥ }
    ensures of_two { Commits Majority (Some 1 ∷ []) 0 ((1, 1) ∷ []) }
    ensures below { Commits Majority (Some 1 ∷ []) 0 ((1, 0) ∷ []) → ⊥ }
    ensures stranger { Commits Majority (Some 1 ∷ []) 0 ((2, 1) ∷ []) → ⊥ }
    ensures of_three { Commits Majority (Some 1 ∷ Some 2 ∷ []) 0 ((2, 5) ∷ []) }
    ensures unset { Commits Majority (Some 1 ∷ None ∷ None ∷ []) 0 ((1, 1) ∷ []) → ⊥ }
    ensures twice { Commits Majority (Some 1 ∷ Some 2 ∷ Some 3 ∷ []) 0 ((1, 1) ∷ (1, 2) ∷ []) → ⊥ }
    ensures of_four { Commits Majority (Some 1 ∷ Some 2 ∷ Some 3 ∷ []) 0 ((1, 1) ∷ (3, 1) ∷ []) }
    ensures second { Commits MajorityPersistActive [] 1 [] }
    ensures second_unsaved { Commits MajorityPersistActive [] 0 [] → ⊥ }
    ensures third { Commits PersistMajority [] 1 [] }
    ensures third_unsaved { Commits PersistMajority [] 0 [] → ⊥ }
    ensures elsewhere { LawfulFrom counted_elsewhere commit_lines → ⊥ }
    ensures chained_later { LawfulFrom chained_later commit_lines }
    ensures unchained { LawfulFrom unchained commit_lines }
    ensures anew { LawfulFrom risen_anew commit_anew }
    ensures anew_chained { LawfulFrom (chained_known risen_anew (Some 1 ∷ [])) commit_anew → ⊥ }
    ensures started { LawfulFrom (chained_known started_anew (Some 1 ∷ [])) commit_anew → ⊥ }
    ensures again { LawfulFrom (risen_again []) commit_lines }
    ensures again_chained { LawfulFrom (risen_again (Some 1 ∷ [])) commit_lines → ⊥ }
    ensures again_counted { LawfulFrom (after_lines (risen_again (Some 1 ∷ [])) (count_lines ((1, 1) ∷ []))) commit_lines }
    ensures alone_again { LawfulFrom counted_dead active_again }
    ensures chained_active { LawfulFrom (chained_known counted_dead (Some 1 ∷ [])) active_again → ⊥ }
    ensures crashed { LawfulFrom crashed_chained active_again }
{}

/// A commit that is due is not left out: an active vBucket does not follow its branch where its lowest
/// prepare waits and has what it needs, by what the lines tell. That is its node alone in a chain of
/// one, one other in a chain of two, and two in a chain of four; and at the levels 2 and 3 that it is
/// saved.
pub fn judged_left_commits()
    ensures alone { Leaves Majority [] 0 [] → ⊥ }
    ensures of_two { Leaves Majority (Some 1 ∷ []) 0 ((1, 1) ∷ []) → ⊥ }
    ensures of_three { Leaves Majority (Some 1 ∷ Some 2 ∷ []) 0 ((2, 5) ∷ []) → ⊥ }
    ensures of_four { Leaves Majority (Some 1 ∷ Some 2 ∷ Some 3 ∷ []) 0 ((1, 1) ∷ (3, 1) ∷ []) → ⊥ }
    ensures second { Leaves MajorityPersistActive [] 1 [] → ⊥ }
    ensures third { Leaves PersistMajority (Some 1 ∷ []) 3 ((1, 2) ∷ []) → ⊥ }
{}
