//! Which changes a vBucket may make of its own next, by what the lines before them tell.

ghost use Rattle.std.specs.Prelude.{true, false, [], ◌∷◌, ◌++◌, ◌+◌, ◌-◌, ◌^◌, Some, None, take};
ghost use Rattle.script_text.specs.declared.verb.VbVerb.TheVariants.{Chain};
ghost use Rattle.script_text.specs.declared.verb.Verb.TheVariants.{AtVb};
ghost use Rattle.mcbp_kv.specs.declared.opcodes.TheConstants.{SET};
ghost use Rattle.transcript_law.specs.AnswerRows.{answers, durably, durably_removes, says, writes};
ghost use Rattle.transcript_law.specs.BoundRows.{LawfulHere};
ghost use Rattle.transcript_law.specs.ChangeRows.{Aborts, AbortsBehind, abort_lines, aborted_known, asking, asking_behind, asking_far, durably_beside, durably_unfit, given_known, gives_up, greatest, greatest_known, own_lines, prepares, removed_known, removing_known, set_known, sets_seven, stamped, waiting_known};
ghost use Rattle.transcript_law.specs.Chronicles.{alone};
ghost use Rattle.transcript_law.specs.Crashes.{ok};
ghost use Rattle.transcript_law.specs.ClientRows.{noop};
ghost use Rattle.transcript_law.specs.Lawfulness.{LawfulFrom};
ghost use Rattle.transcript_law.specs.Transcripts.{first_doc};
ghost use Rattle.vb_events.specs.declared.event.Event.TheVariants.{Closed};
ghost use Rattle.vb_types.specs.declared.change.Act.TheVariants.{Abort, Commit, Remove, Set};
ghost use Rattle.vb_types.specs.declared.status.Status.TheVariants.{KeyEexists};

/// A change has the seqno behind the last one that its vBucket holds, and no other. While a prepare
/// waits at a key, the key gets its commit or its abort, by its seqno, and other keys are written. Not
/// lawful are a set, a removal or another prepare of that key then, and a commit or an abort that
/// names another seqno; nor are those of a key at which no prepare waits.
pub fn judged_next_changes()
    ensures next { LawfulFrom set_known (own_lines 2 7 (Set (stamped 2 2))) }
    ensures gap { LawfulFrom set_known (own_lines 3 7 (Set (stamped 2 2))) → ⊥ }
    ensures beside { LawfulFrom waiting_known (own_lines 2 7 (Set (stamped 2 1))) }
    ensures set { LawfulFrom waiting_known (own_lines 2 9 (Set (stamped 2 1))) → ⊥ }
    ensures removed { LawfulFrom waiting_known (own_lines 2 9 (Remove 2 1)) → ⊥ }
    ensures prepared { LawfulFrom (asking (durably 1 9 6) waiting_known) (own_lines 2 9 (prepares 2 1 false)) → ⊥ }
    ensures over_removal { LawfulFrom removing_known (own_lines 3 7 (Set (stamped 3 2))) → ⊥ }
    ensures commits { LawfulFrom waiting_known (own_lines 2 9 (Commit 1 (first_doc 1 (6 ∷ [])) false)) }
    ensures commits_other { LawfulFrom waiting_known (own_lines 2 9 (Commit 2 (first_doc 1 (6 ∷ [])) false)) → ⊥ }
    ensures commits_none { LawfulFrom waiting_known (own_lines 2 7 (Commit 1 (first_doc 1 (6 ∷ [])) false)) → ⊥ }
    ensures aborts { Aborts (Some (0, 0)) 0 1000000 }
    ensures aborts_other { LawfulFrom waiting_known (own_lines 2 9 (Abort 2)) → ⊥ }
    ensures aborts_none { LawfulFrom waiting_known (own_lines 2 7 (Abort 1)) → ⊥ }
    ensures aborts_set { LawfulFrom set_known (own_lines 2 7 (Abort 1)) → ⊥ }
{}

/// A prepare is given up in the group of the vBucket's own `tick`, once its node's clock shows 1,000,000
/// nanoseconds more than when the vBucket made it, or its last number. Not lawful are an abort a
/// nanosecond early, or at once; in the group of another line, or of another vBucket's `tick`; one of a
/// prepare that the vBucket did not make since it is active; and behind another node's clock, or none.
pub fn judged_aborts()
    ensures up { Aborts (Some (0, 0)) 5 1000005 }
    ensures early { Aborts (Some (0, 0)) 5 1000004 → ⊥ }
    ensures at_once { Aborts (Some (0, 0)) 5 5 → ⊥ }
    ensures last { Aborts (Some (0, 0)) (2 ^ 64 - 2) (2 ^ 64 - 1) }
    ensures before_last { Aborts (Some (0, 0)) (2 ^ 64 - 3) (2 ^ 64 - 2) → ⊥ }
    ensures unasked { Aborts None 5 1000005 → ⊥ }
    ensures other_vb { Aborts (Some (0, 1)) 5 1000005 → ⊥ }
    ensures other_node { Aborts (Some (1, 0)) 5 1000005 → ⊥ }
    ensures unmade { LawfulFrom (record (given_known (Some (0, 0)) 5 1000005) { counts_at = λ n v. alone 0 }) abort_lines → ⊥ }
    ensures behind { AbortsBehind 0 1000000 0 }
    ensures behind_early { AbortsBehind 0 999999 0 → ⊥ }
    ensures behind_other { AbortsBehind 1 1000000 0 → ⊥ }
    ensures tick_other { AbortsBehind 0 1000000 1 → ⊥ }
    ensures without_clock { LawfulHere waiting_known (gives_up 0) (ok abort_lines) → ⊥ }
    ensures chained { LawfulHere (record waiting_known { clock_at = λ n. 1000000 }) (AtVb 0 0 (Chain [])) (ok abort_lines) → ⊥ }
{}

/// A set, a removal and a prepare have a CAS above each that their vBucket holds, of whichever key and
/// also of a prepare that waits, or the greatest number of 64 bits: not the same one, nor a lower one,
/// and none above that number.
pub fn judged_casses()
    ensures above { LawfulFrom set_known (own_lines 2 9 (Set (stamped 2 1))) }
    ensures far_above { LawfulFrom set_known (own_lines 2 9 (Set (stamped 5 1))) }
    ensures same { LawfulFrom set_known (own_lines 2 7 (Set (stamped 1 2))) → ⊥ }
    ensures falls { LawfulFrom set_known (own_lines 2 7 (Set (stamped 0 2))) → ⊥ }
    ensures elsewhere { LawfulFrom set_known (own_lines 2 9 (Set (stamped 1 1))) → ⊥ }
    ensures waiting { LawfulFrom waiting_known (own_lines 2 7 (Set (stamped 1 1))) → ⊥ }
    ensures removal { LawfulFrom set_known (own_lines 2 7 (Remove 1 2)) → ⊥ }
    ensures prepare { LawfulFrom (asking (durably 1 7 6) set_known) (own_lines 2 7 (prepares 1 2 false)) → ⊥ }
    ensures prepare_removal { LawfulFrom (asking (durably_removes 1 7) set_known) (own_lines 2 7 (prepares 1 2 true)) → ⊥ }
    ensures behind_abort { LawfulFrom aborted_known (own_lines 3 7 (Set (stamped 1 1))) → ⊥ }
    ensures removed { LawfulFrom removed_known (own_lines 3 7 (Set (stamped 2 1))) → ⊥ }
    ensures greatest { LawfulFrom greatest_known (own_lines 2 9 (Set (stamped greatest 1))) }
    ensures too_great { LawfulFrom greatest_known (own_lines 2 9 (Set (stamped (greatest + 1) 1))) → ⊥ }
    ensures below_greatest { LawfulFrom greatest_known (own_lines 2 9 (Set (stamped 2 1))) → ⊥ }
{}

/// They have the revision behind that of the key's document, the first one where there is none, and none
/// above the greatest number of 64 bits; and a removal, or the prepare of one, has a document to take.
pub fn judged_revisions()
    ensures prepare { LawfulFrom (asking (durably 1 7 6) set_known) (own_lines 2 7 (prepares 2 2 false)) }
    ensures same { LawfulFrom set_known (own_lines 2 7 (Set (stamped 2 1))) → ⊥ }
    ensures jumps { LawfulFrom set_known (own_lines 2 7 (Set (stamped 2 3))) → ⊥ }
    ensures removal_jumps { LawfulFrom set_known (own_lines 2 7 (Remove 2 3)) → ⊥ }
    ensures prepare_jumps { LawfulFrom (asking (durably 1 7 6) set_known) (own_lines 2 7 (prepares 2 3 false)) → ⊥ }
    ensures removal_prepare_jumps { LawfulFrom (asking (durably_removes 1 7) set_known) (own_lines 2 7 (prepares 2 3 true)) → ⊥ }
    ensures first { LawfulFrom (asking (durably 1 9 6) set_known) (own_lines 2 9 (prepares 2 1 false)) }
    ensures other_first { LawfulFrom set_known (own_lines 2 9 (Set (stamped 2 2))) → ⊥ }
    ensures anew { LawfulFrom removed_known (own_lines 3 7 (Set (stamped 3 1))) }
    ensures goes_on { LawfulFrom removed_known (own_lines 3 7 (Set (stamped 3 3))) → ⊥ }
    ensures greatest { LawfulFrom greatest_known (own_lines 2 7 (Set (stamped greatest greatest))) }
    ensures above_greatest { LawfulFrom greatest_known (own_lines 2 7 (Set (stamped greatest (greatest + 1)))) → ⊥ }
    ensures removes { LawfulFrom set_known (own_lines 2 7 (Remove 2 2)) }
    ensures removes_none { LawfulFrom set_known (own_lines 2 9 (Remove 2 1)) → ⊥ }
    ensures removes_again { LawfulFrom removed_known (own_lines 3 7 (Remove 3 1)) → ⊥ }
    ensures prepares_removal { LawfulFrom (asking (durably_removes 1 7) set_known) (own_lines 2 7 (prepares 2 2 true)) }
    ensures prepares_none { LawfulFrom (asking (durably_removes 1 9) set_known) (own_lines 2 9 (prepares 2 1 true)) → ⊥ }
{}

/// A vBucket prepares what a client of its node asks for next: a durable write of that key, at that
/// vBucket and level, with that document or for its removal. Not lawful are a prepare that nobody asks
/// for, or a client of another node; one that is asked for behind another question, by less than a
/// frame, or by what was answered before it; of another key, vBucket, level or document; of a removal
/// in place of a set; where a write is asked for that is not to be durable; once the connection
/// closed; where that has used its 4,294,967,295 numbers; behind the commit of another prepare for
/// it, and directly behind any other change.
pub fn judged_asked_prepares()
    ensures asked { LawfulFrom (asking (durably 1 7 6) set_known) sets_seven }
    ensures unasked { LawfulFrom set_known sets_seven → ⊥ }
    ensures elsewhere { LawfulFrom (asking_far (durably 1 7 6) set_known) sets_seven → ⊥ }
    ensures part { LawfulFrom (asking (take 34 (durably 1 7 6)) set_known) sets_seven → ⊥ }
    ensures behind { LawfulFrom (asking (noop 9 ++ durably 1 7 6) set_known) sets_seven → ⊥ }
    ensures behind_answered { LawfulFrom (asking (noop 9 ++ durably 1 7 6) set_known) (answers 9 ∷ sets_seven) }
    ensures refused { LawfulFrom (asking durably_unfit set_known) (says SET KeyEexists ∷ []) }
    ensures answered { LawfulFrom (asking durably_unfit set_known) (says SET KeyEexists ∷ sets_seven) → ⊥ }
    ensures other_key { LawfulFrom (asking (durably 1 9 6) set_known) sets_seven → ⊥ }
    ensures other_vb { LawfulFrom (asking durably_beside set_known) sets_seven → ⊥ }
    ensures other_level { LawfulFrom (asking (durably 2 7 6) set_known) sets_seven → ⊥ }
    ensures other_value { LawfulFrom (asking (durably 1 7 5) set_known) sets_seven → ⊥ }
    ensures removal { LawfulFrom (asking (durably_removes 1 7) set_known) sets_seven → ⊥ }
    ensures plain { LawfulFrom (asking (writes SET 0 7 6) set_known) sets_seven → ⊥ }
    ensures shut { LawfulFrom (asking (durably 1 7 6) set_known) (Closed 0 1 ∷ sets_seven) → ⊥ }
    ensures last_number { LawfulFrom (asking_behind (2 ^ 32 - 2) (durably 1 7 6) set_known) sets_seven }
    ensures spent { LawfulFrom (asking_behind (2 ^ 32 - 1) (durably 1 7 6) set_known) sets_seven → ⊥ }
    ensures again { LawfulFrom (asking (durably 1 7 6) set_known) (sets_seven ++ own_lines 3 7 (Commit 2 (stamped 2 2) false) ++ own_lines 4 7 (prepares 4 3 false)) → ⊥ }
    ensures behind_change { LawfulFrom (record (asking (durably 1 7 6) set_known) { changed = true }) sets_seven → ⊥ }
{}
