//! What makes a transcript of appends to a closed journal lawful or not.

ghost use Rattle.std.specs.Prelude.{ℕ, ◌≤◌, Bool, true, false, List, [], ◌∷◌};
ghost use Rattle.script_text.specs.declared.verb.Verb.TheVariants as verb;
ghost use Rattle.script_text.specs.declared.verb.VbVerb.TheVariants as vb_verb;
ghost use Rattle.script_text.specs.declared.verb.NodeVerb.TheVariants as node_verb;
ghost use Rattle.script_text.specs.declared.verb.LinkVerb.TheVariants as link_verb;
ghost use Rattle.transcript_law.specs.BoundRows.{LawfulHere};
ghost use Rattle.transcript_law.specs.ClosedJournals.{back_line, dead_after_start, dead_after_start_groups, dialed_for, down_under, down_under_groups, fails_down, follow_after_crash, follow_after_crash_groups, follow_line, found_closed, save_again, save_again_groups, save_given_up, save_given_up_groups, save_none, save_none_groups, save_twice, save_twice_groups, sent_back_for, sent_back_under};
ghost use Rattle.transcript_law.specs.Crashes.{LawfulAfter, dead_line, dead_under, dead_under_groups, failed_behind, numbered, ok, groups_from_number};
ghost use Rattle.transcript_law.specs.Downs.{refused};
ghost use Rattle.transcript_law.specs.Lawfulness.{Lawful, LawfulGroups};
ghost use Rattle.transcript_law.specs.LineAnswers.{LawfulAnswer};
ghost use Rattle.vb_disk.specs.declared.fuse.Fuse.TheVariants.{Fail, Stop};
ghost use Rattle.vb_disk.specs.declared.made.Outcome.TheVariants.{Old};
ghost use Rattle.vb_events.specs.declared.event.Answer.TheVariants as answer;
ghost use Rattle.vb_events.specs.declared.event.Cause.{Cause};
ghost use Rattle.vb_events.specs.declared.event.Cause.TheVariants as cause;
ghost use Rattle.vb_events.specs.declared.event.Event.{Event};

/// An append that fails closes its journal, and no other one stands there until a crash; a journal is
/// closed by nothing else. Not lawful are a role and a batch that stand behind a failed append, of a
/// line or of a start; a role and a new vBucket that are answered `closed` where no append failed, or
/// where the node crashed since; a `save` that is answered `disk`, `stopped` or `closed` where no batch
/// is taken; a rollback that stands in a closed journal, or under an arm that hits its append, or finds
/// one closed that is not; one that is told by a line that is refused; and a `down` that tells of one, or is answered `disk`, `stopped` or
/// `closed`, where its link was not sent back.
pub fn judged_closed()
    ensures follows { (k : ℕ) (lines : List Event) → LawfulAfter (dead_under (verb.AtNode 0 (node_verb.Fail k)) (verb.AtVb 0 0 vb_verb.Follow)) (dead_under_groups (failed_behind (dead_line ∷ [])) (ok lines)) → ⊥ }
    ensures stands { LawfulAfter (verb.AtVb 0 0 vb_verb.Dead ∷ []) (ok (dead_line ∷ []) ∷ []) }
    ensures unfailed { (lines : List Event) → LawfulAfter (verb.AtVb 0 0 vb_verb.Dead ∷ []) (found_closed lines ∷ []) → ⊥ }
    ensures unmade { (lines : List Event) → Lawful (numbered 1 (verb.Node 0 ∷ verb.AtVb 0 0 vb_verb.MakeReplica ∷ [])) (groups_from_number 1 (ok [] ∷ found_closed lines ∷ [])) → ⊥ }
    ensures again { LawfulAfter save_again (save_again_groups (found_closed [])) }
    ensures again_ok { LawfulAfter save_again (save_again_groups (ok [])) → ⊥ }
    ensures twice_ok { LawfulAfter save_twice (save_twice_groups (ok [])) → ⊥ }
    ensures none_taken { LawfulAfter (save_none (verb.AtNode 0 (node_verb.Fail 1))) (save_none_groups (refused cause.NothingTaken)) }
    ensures none_failed { (lines : List Event) → LawfulAfter (save_none (verb.AtNode 0 (node_verb.Fail 1))) (save_none_groups (lines, answer.No cause.Disk)) → ⊥ }
    ensures none_stopped { (lines : List Event) → LawfulAfter (save_none (verb.AtNode 0 (node_verb.Stop 1 Old))) (save_none_groups (lines, answer.No cause.Stopped)) → ⊥ }
    ensures given_up { LawfulAfter save_given_up (save_given_up_groups (refused cause.NothingTaken)) }
    ensures given_up_closed { (lines : List Event) → LawfulAfter save_given_up (save_given_up_groups (found_closed lines)) → ⊥ }
    ensures opened { LawfulAfter follow_after_crash (follow_after_crash_groups (ok (follow_line ∷ []))) }
    ensures opened_closed { (lines : List Event) → LawfulAfter follow_after_crash (follow_after_crash_groups (found_closed lines)) → ⊥ }
    ensures started { LawfulAfter dead_after_start (dead_after_start_groups (found_closed (dead_line ∷ []))) }
    ensures started_ok { (lines : List Event) → LawfulAfter dead_after_start (dead_after_start_groups (ok lines)) → ⊥ }
    ensures back { LawfulAnswer (sent_back_for false) (verb.AtLink 1 (link_verb.Down 10)) (back_line ∷ []) (answer.Number 10) }
    ensures back_stands { LawfulAnswer (sent_back_for true) (verb.AtLink 1 (link_verb.Down 10)) (back_line ∷ []) (answer.Number 10) → ⊥ }
    ensures back_passes { LawfulAnswer (sent_back_under (Fail 5)) (verb.AtLink 1 (link_verb.Down 10)) (back_line ∷ []) (answer.Number 10) }
    ensures back_failed { (k : ℕ) → k ≤ 4 → LawfulAnswer (sent_back_under (Fail k)) (verb.AtLink 1 (link_verb.Down 10)) (back_line ∷ []) (answer.Number 10) → ⊥ }
    ensures back_stopped { (k : ℕ) → k ≤ 4 → LawfulAnswer (sent_back_under (Stop k)) (verb.AtLink 1 (link_verb.Down 10)) (back_line ∷ []) (answer.Number 10) → ⊥ }
    ensures back_shut { LawfulAnswer (sent_back_for true) (verb.AtLink 1 (link_verb.Down 10)) [] (answer.No cause.Closed) }
    ensures back_closed { LawfulAnswer (sent_back_for false) (verb.AtLink 1 (link_verb.Down 10)) [] (answer.No cause.Closed) → ⊥ }
    ensures back_refused { (closed : Bool) (why : Cause) → LawfulAnswer (sent_back_for closed) (verb.AtLink 1 (link_verb.Down 10)) (back_line ∷ []) (answer.No why) → ⊥ }
    ensures back_fails { LawfulGroups (sent_back_for false) (down_under (verb.AtNode 1 (node_verb.Fail 1))) (down_under_groups fails_down) }
    ensures unsent_failed { (lines : List Event) → LawfulGroups (dialed_for false) (down_under (verb.AtNode 1 (node_verb.Fail 1))) (down_under_groups (lines, answer.No cause.Disk)) → ⊥ }
    ensures unsent_stopped { (lines : List Event) → LawfulGroups (dialed_for false) (down_under (verb.AtNode 1 (node_verb.Stop 1 Old))) (down_under_groups (lines, answer.No cause.Stopped)) → ⊥ }
    ensures unsent_closed { (lines : List Event) → LawfulHere (dialed_for true) (verb.AtLink 1 (link_verb.Down 10)) (lines, answer.No cause.Closed) → ⊥ }
    ensures unsent_back { (closed : Bool) → LawfulAnswer (dialed_for closed) (verb.AtLink 1 (link_verb.Down 10)) (back_line ∷ []) (answer.Number 10) → ⊥ }
{}
