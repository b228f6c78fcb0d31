//! What makes a transcript lawful or not by what stands behind its sets and removals.

ghost use Rattle.std.specs.Prelude.{[], ◌∷◌, ◌++◌};
ghost use Rattle.mcbp_kv.specs.declared.opcodes.TheConstants.{SET};
ghost use Rattle.vb_types.specs.declared.role.Role.TheVariants.{Dead};
ghost use Rattle.vb_types.specs.declared.status.Status.TheVariants.{KeyEexists, SyncWriteAmbiguous, SyncWriteInProgress};
ghost use Rattle.transcript_law.specs.AnswerRows.{durably, makes, says, stores, LawfulAwaited, LawfulTo, answers, once};
ghost use Rattle.transcript_law.specs.AnsweredWrites.{AllToldNext};
ghost use Rattle.transcript_law.specs.ClientStreamRows.{committed, turned, pending, prepared};
ghost use Rattle.transcript_law.specs.ClientRows.{noop};
ghost use Rattle.transcript_law.specs.Lawfulness.{Lawful};
ghost use Rattle.transcript_law.specs.StoredRows.{LawfulBeside, NoTick, abort_line, beside_set, commit_line, one_set_told, prepare_line, refusal_told, removal_line, sets_beside, told_elsewhere};
ghost use Rattle.transcript_law.specs.Transcripts.{change_line, one_set, set_told};

/// Directly behind each set and each removal a client of its node is told that a write was made, with
/// the CAS of the change. Not lawful are a set and a removal with no answer behind them in their group,
/// also where one stands before them; with another line between them and their answer; with a refusal,
/// an answer with another CAS, or one to a client of another node there; two for one answer; and one
/// that a vBucket makes at a `tick`. A prepare, a commit and an abort are a durable write's, whose
/// outcome may come later.
pub fn judged_stored()
    ensures told { AllToldNext (change_line 0 ∷ set_told 1 ∷ removal_line ∷ set_told 2 ∷ []) }
    ensures untold { AllToldNext (change_line 0 ∷ []) → ⊥ }
    ensures unremoved { AllToldNext (change_line 0 ∷ set_told 1 ∷ removal_line ∷ []) → ⊥ }
    ensures before { AllToldNext (set_told 1 ∷ change_line 0 ∷ []) → ⊥ }
    ensures later { AllToldNext (change_line 0 ∷ commit_line ∷ set_told 1 ∷ []) → ⊥ }
    ensures twice { AllToldNext (change_line 0 ∷ change_line 0 ∷ set_told 1 ∷ []) → ⊥ }
    ensures refused { AllToldNext (change_line 0 ∷ refusal_told ∷ []) → ⊥ }
    ensures cas { AllToldNext (change_line 0 ∷ set_told 2 ∷ []) → ⊥ }
    ensures elsewhere { AllToldNext (change_line 0 ∷ told_elsewhere ∷ []) → ⊥ }
    ensures durable { AllToldNext (prepare_line ∷ commit_line ∷ abort_line ∷ []) }
    ensures right { Lawful one_set (one_set_told (change_line 0 ∷ set_told 1 ∷ [])) }
    ensures unanswered { Lawful one_set (one_set_told (change_line 0 ∷ [])) → ⊥ }
    ensures ticked { NoTick (change_line 0 ∷ []) }
    ensures ticked_told { NoTick (change_line 0 ∷ set_told 2 ∷ []) }
{}

/// A set and a removal are answered by the Success of a write that is not to be durable, and by nothing
/// else. Not lawful is one that nobody asked for, in front of which or behind which a durable write is
/// committed whose Success stands next, also where both have one CAS; nor one before another answer, as
/// that nobody knows the outcome of a durable write.
pub fn judged_set_outcomes()
    ensures outcome { LawfulBeside (durably 1 9 6) (makes committed ∷ stores SET 2 [] ∷ []) }
    ensures unasked { LawfulBeside (durably 1 9 6) (makes committed ∷ beside_set ∷ stores SET 2 [] ∷ []) → ⊥ }
    ensures unasked_before { LawfulBeside (durably 1 9 6) (beside_set ∷ makes committed ∷ stores SET 2 [] ∷ []) → ⊥ }
    ensures unsure { LawfulBeside (durably 1 9 6) (turned Dead ∷ says SET SyncWriteAmbiguous ∷ []) }
    ensures unasked_unsure { LawfulBeside (durably 1 9 6) (turned Dead ∷ beside_set ∷ says SET SyncWriteAmbiguous ∷ []) → ⊥ }
    ensures asked { LawfulBeside sets_beside (beside_set ∷ stores SET 2 [] ∷ []) }
    ensures refused { LawfulBeside sets_beside (beside_set ∷ says SET KeyEexists ∷ []) → ⊥ }
{}

/// Behind a change a client of the node is told an outcome next: that a write was made, or that nobody
/// knows what became of a durable one, as where its vBucket is dead then. Not lawful is a refusal behind
/// a prepare, as if that was not its own, nor behind a commit; nor any other answer, until one tells an
/// outcome.
pub fn judged_kept_prepares()
    ensures refused { LawfulTo pending (durably 1 9 4) (says SET SyncWriteInProgress ∷ []) }
    ensures left { LawfulTo once (durably 1 9 6) (makes prepared ∷ says SET SyncWriteInProgress ∷ []) → ⊥ }
    ensures unsure { LawfulTo once (durably 1 9 6) (makes prepared ∷ turned Dead ∷ says SET SyncWriteAmbiguous ∷ []) }
    ensures waits { LawfulTo once (durably 1 9 6) (makes prepared ∷ []) }
    ensures behind_commit { LawfulAwaited pending (noop 9) (makes committed ∷ answers 9 ∷ []) → ⊥ }
    ensures behind_outcome { LawfulAwaited pending (durably 1 9 6 ++ noop 9) (makes committed ∷ stores SET 2 [] ∷ answers 9 ∷ []) }
{}
