//! What makes a transcript of arms, crashes and restarts lawful or not.

ghost use Rattle.std.specs.Prelude.{◌<◌, ◌≤◌, ℕ, List, [], ◌∷◌, ◌++◌};
ghost use Rattle.script_text.specs.declared.verb.Verb.TheVariants as verb;
ghost use Rattle.script_text.specs.declared.verb.VbVerb.TheVariants as vb_verb;
ghost use Rattle.script_text.specs.declared.verb.NodeVerb.TheVariants as node_verb;
ghost use Rattle.transcript_law.specs.Crashes.{LawfulAfter, ok, took, crashed, stopped_behind, failed_behind, branch_line, restarted, dead_line, none_shown, one_shown, stat_of, save_under, save_under_groups, dead_under, dead_under_groups, save_and_dead, save_and_dead_groups, crash_under, crash_under_groups, crash_behind, crash_behind_groups, to_save, saved_groups, to_done, counted_groups, stopped_in, stopped_in_groups, after_noted_back, log_after_crash, log_after_crash_groups, dead_unwritten, dead_unwritten_groups, set_restarted, set_restarted_groups, commit_of, seal_restarted, seal_restarted_groups, made_under, made_under_groups};
ghost use Rattle.transcript_law.specs.Followers.{log_of};
ghost use Rattle.transcript_law.specs.Lawfulness.{Lawful, LawfulGroups};
ghost use Rattle.transcript_law.specs.Rollbacks.{made_log};
ghost use Rattle.vb_disk.specs.declared.made.Outcome.TheVariants.{Old, New, Fill};
ghost use Rattle.vb_events.specs.declared.event.Answer.{Answer};
ghost use Rattle.vb_events.specs.declared.event.Answer.TheVariants as answer;
ghost use Rattle.vb_events.specs.declared.event.Cause.TheVariants as cause;
ghost use Rattle.vb_events.specs.declared.event.Event.{Event};
ghost use Rattle.vb_events.specs.declared.event.Event.TheVariants as event;
ghost use Rattle.vb_types.specs.declared.role.Role.{Role};
ghost use Rattle.vb_types.specs.declared.role.Role.TheVariants as role;

/// A batch is written down under an arm that hits none of the four device calls of its append, and is
/// not where one is hit: then the call fails, or the node stops. Not lawful are a line of a call that
/// failed, or of a node that stopped, where there is no arm, where the arm is of the other kind, and at
/// another node; either answer where no call is hit, and the answer of the other kind; and a second
/// such line for one arm, in a later line, behind a crash or behind the stop itself.
pub fn judged_arms()
    ensures passed { LawfulAfter (save_under (verb.AtNode 0 (node_verb.Fail 5))) (save_under_groups (ok [])) }
    ensures passed_failed { LawfulAfter (save_under (verb.AtNode 0 (node_verb.Fail 5))) (save_under_groups (failed_behind [])) → ⊥ }
    ensures passed_stopped { LawfulAfter (save_under (verb.AtNode 0 (node_verb.Stop 5 Old))) (save_under_groups (stopped_behind [])) → ⊥ }
    ensures fails { (k : ℕ) → 0 < k → k ≤ 4 → LawfulAfter (save_under (verb.AtNode 0 (node_verb.Fail k))) (save_under_groups (failed_behind [])) }
    ensures fails_ok { (k : ℕ) (lines : List Event) → 0 < k → k ≤ 4 → LawfulAfter (save_under (verb.AtNode 0 (node_verb.Fail k))) (save_under_groups (ok lines)) → ⊥ }
    ensures stops { (k : ℕ) → 0 < k → k ≤ 4 → LawfulAfter (save_under (verb.AtNode 0 (node_verb.Stop k Old))) (save_under_groups (stopped_behind [])) }
    ensures stops_ok { (k : ℕ) (lines : List Event) → 0 < k → k ≤ 4 → LawfulAfter (save_under (verb.AtNode 0 (node_verb.Stop k Old))) (save_under_groups (ok lines)) → ⊥ }
    ensures fails_stopped { (k : ℕ) (lines : List Event) → LawfulAfter (save_under (verb.AtNode 0 (node_verb.Fail k))) (save_under_groups (lines, answer.No cause.Stopped)) → ⊥ }
    ensures stops_failed { (k : ℕ) (lines : List Event) → LawfulAfter (save_under (verb.AtNode 0 (node_verb.Stop k Old))) (save_under_groups (lines, answer.No cause.Disk)) → ⊥ }
    ensures unarmed_failed { (said : Answer) → LawfulAfter (save_under (verb.AtNode 0 (node_verb.Fail 0))) (save_under_groups (event.CallFailed 0 ∷ [], said)) → ⊥ }
    ensures unarmed_stopped { (said : Answer) → LawfulAfter (save_under (verb.AtNode 0 (node_verb.Stop 0 Old))) (save_under_groups (event.NodeStopped 0 ∷ event.Closed 0 1 ∷ [], said)) → ⊥ }
    ensures other_failed { (said : Answer) → LawfulAfter (save_under (verb.AtNode 0 (node_verb.Stop 1 Old))) (save_under_groups (event.CallFailed 0 ∷ [], said)) → ⊥ }
    ensures other_stopped { (said : Answer) → LawfulAfter (save_under (verb.AtNode 0 (node_verb.Fail 1))) (save_under_groups (event.NodeStopped 0 ∷ event.Closed 0 1 ∷ [], said)) → ⊥ }
    ensures elsewhere { (said : Answer) → LawfulAfter (save_under (verb.AtNode 0 (node_verb.Fail 1))) (save_under_groups (event.CallFailed 1 ∷ [], said)) → ⊥ }
    ensures counted { LawfulAfter save_and_dead (save_and_dead_groups (failed_behind (dead_line ∷ []))) }
    ensures counted_ok { LawfulAfter save_and_dead (save_and_dead_groups (ok (dead_line ∷ []))) → ⊥ }
    ensures once { LawfulAfter (dead_under (verb.AtNode 0 (node_verb.Fail 1)) (verb.AtVb 0 0 vb_verb.Follow)) (dead_under_groups (failed_behind (dead_line ∷ [])) (event.Role 0 0 role.Replica ∷ [], answer.No cause.Closed)) }
    ensures twice { LawfulAfter (dead_under (verb.AtNode 0 (node_verb.Fail 1)) (verb.AtVb 0 0 vb_verb.Follow)) (dead_under_groups (failed_behind (dead_line ∷ [])) (failed_behind (event.Role 0 0 role.Replica ∷ []))) → ⊥ }
    ensures stopped_once { LawfulAfter (dead_under (verb.AtNode 0 (node_verb.Stop 1 Old)) (verb.AtNode 0 (node_verb.Start (7 ∷ [])))) (dead_under_groups (stopped_behind (dead_line ∷ [])) (restarted 0)) }
    ensures stopped_twice { LawfulAfter (dead_under (verb.AtNode 0 (node_verb.Stop 1 Old)) (verb.AtNode 0 (node_verb.Start (7 ∷ [])))) (dead_under_groups (stopped_behind (dead_line ∷ [])) (stopped_behind (branch_line 0 0 ∷ []))) → ⊥ }
    ensures gone { LawfulAfter (crash_under (verb.AtNode 0 (node_verb.Fail 1))) (crash_under_groups (restarted 0)) }
    ensures survives { LawfulAfter (crash_under (verb.AtNode 0 (node_verb.Fail 1))) (crash_under_groups (failed_behind [])) → ⊥ }
    ensures stop_survives { LawfulAfter (crash_under (verb.AtNode 0 (node_verb.Stop 1 Old))) (crash_under_groups (event.NodeStopped 0 ∷ [], answer.No cause.Stopped)) → ⊥ }
{}

/// A crash leaves what was written down, and nothing else. Where a node stopped inside the third call
/// of an append, or in a later one, the record stands exactly where the crash leaves all; where it
/// stopped inside an earlier one, it does not. Not lawful are a vBucket that is shown with a change
/// that did not stand, or without one that did; a count of what is saved that tells more or less; a
/// batch that was on its way and is written down after the crash; and a failover log that has an entry
/// which a rollback cut before the crash, or lacks one of those that were written down.
pub fn judged_crashes()
    ensures old { LawfulAfter (stopped_in 3 Old (verb.AtVb 0 0 vb_verb.Show)) (stopped_in_groups 0 (none_shown role.Active 7)) }
    ensures old_shown { (at : ℕ) → LawfulAfter (stopped_in 3 Old (verb.AtVb 0 0 vb_verb.Show)) (stopped_in_groups at (one_shown role.Active 7)) → ⊥ }
    ensures new { LawfulAfter (stopped_in 3 New (verb.AtVb 0 0 vb_verb.Show)) (stopped_in_groups 1 (one_shown role.Active 7)) }
    ensures new_lost { (at : ℕ) → LawfulAfter (stopped_in 3 New (verb.AtVb 0 0 vb_verb.Show)) (stopped_in_groups at (none_shown role.Active 7)) → ⊥ }
    ensures old_stat { LawfulAfter (stopped_in 3 Old (verb.AtVb 0 0 vb_verb.Stat)) (stopped_in_groups 0 (stat_of 0 0)) }
    ensures old_counted { (at high : ℕ) → LawfulAfter (stopped_in 3 Old (verb.AtVb 0 0 vb_verb.Stat)) (stopped_in_groups at (stat_of 1 high)) → ⊥ }
    ensures new_stat { LawfulAfter (stopped_in 3 New (verb.AtVb 0 0 vb_verb.Stat)) (stopped_in_groups 1 (stat_of 1 1)) }
    ensures new_uncounted { (at high : ℕ) → LawfulAfter (stopped_in 3 New (verb.AtVb 0 0 vb_verb.Stat)) (stopped_in_groups at (stat_of 0 high)) → ⊥ }
    ensures early { LawfulAfter (stopped_in 2 New (verb.AtVb 0 0 vb_verb.Show)) (stopped_in_groups 0 (none_shown role.Active 7)) }
    ensures early_shown { (at : ℕ) → LawfulAfter (stopped_in 2 New (verb.AtVb 0 0 vb_verb.Show)) (stopped_in_groups at (one_shown role.Active 7)) → ⊥ }
    ensures filled { LawfulAfter (stopped_in 4 (Fill 1) (verb.AtVb 0 0 vb_verb.Show)) (stopped_in_groups 1 (one_shown role.Active 7)) }
    ensures filled_otherwise { (at : ℕ) → LawfulAfter (stopped_in 4 (Fill 2) (verb.AtVb 0 0 vb_verb.Show)) (stopped_in_groups at (one_shown role.Active 7)) → ⊥ }
    ensures unwritten { LawfulAfter (crash_behind [] New (7 ∷ []) (verb.AtVb 0 0 vb_verb.Show)) (crash_behind_groups [] (restarted 0) (none_shown role.Active 7)) }
    ensures unwritten_shown { (at : ℕ) → LawfulAfter (crash_behind [] New (7 ∷ []) (verb.AtVb 0 0 vb_verb.Show)) (crash_behind_groups [] (restarted at) (one_shown role.Active 7)) → ⊥ }
    ensures taken_shown { (at : ℕ) → LawfulAfter (crash_behind (verb.AtVb 0 0 vb_verb.Take ∷ []) New (7 ∷ []) (verb.AtVb 0 0 vb_verb.Show)) (crash_behind_groups (took ∷ []) (restarted at) (one_shown role.Active 7)) → ⊥ }
    ensures written { LawfulAfter (crash_behind to_save Old (7 ∷ []) (verb.AtVb 0 0 vb_verb.Show)) (crash_behind_groups saved_groups (restarted 1) (one_shown role.Active 7)) }
    ensures written_lost { (at : ℕ) → LawfulAfter (crash_behind to_save Old (7 ∷ []) (verb.AtVb 0 0 vb_verb.Show)) (crash_behind_groups saved_groups (restarted at) (none_shown role.Active 7)) → ⊥ }
    ensures saved { LawfulAfter (crash_behind to_done Old (7 ∷ []) (verb.AtVb 0 0 vb_verb.Stat)) (crash_behind_groups counted_groups (restarted 1) (stat_of 1 1)) }
    ensures saved_forgotten { (at : ℕ) → LawfulAfter (crash_behind to_done Old (7 ∷ []) (verb.AtVb 0 0 vb_verb.Stat)) (crash_behind_groups counted_groups (restarted at) (stat_of 0 1)) → ⊥ }
    ensures undone { LawfulAfter (crash_behind to_save Old (7 ∷ []) (verb.AtVb 0 0 vb_verb.Stat)) (crash_behind_groups saved_groups (restarted 1) (stat_of 1 1)) }
    ensures undone_forgotten { (at : ℕ) → LawfulAfter (crash_behind to_save Old (7 ∷ []) (verb.AtVb 0 0 vb_verb.Stat)) (crash_behind_groups saved_groups (restarted at) (stat_of 0 1)) → ⊥ }
    ensures taken_lost { LawfulAfter (crash_behind (verb.AtVb 0 0 vb_verb.Take ∷ []) New (7 ∷ []) (verb.AtVb 0 0 vb_verb.Save)) (crash_behind_groups (took ∷ []) (restarted 0) ([], answer.No cause.NothingTaken)) }
    ensures taken_survives { (at : ℕ) → LawfulAfter (crash_behind (verb.AtVb 0 0 vb_verb.Take ∷ []) New (7 ∷ []) (verb.AtVb 0 0 vb_verb.Save)) (crash_behind_groups (took ∷ []) (restarted at) (ok [])) → ⊥ }
    ensures written_survives { (at saved : ℕ) → LawfulAfter (crash_behind to_save New (7 ∷ []) (verb.AtVb 0 0 vb_verb.Done)) (crash_behind_groups saved_groups (restarted at) ([], answer.Number saved)) → ⊥ }
    ensures log { LawfulAfter (crash_behind to_save Old (7 ∷ []) (verb.AtVb 0 0 vb_verb.Log)) (crash_behind_groups saved_groups (restarted 1) (ok (event.Logged 0 0 made_log ∷ []))) }
    ensures log_lost { (at : ℕ) → LawfulAfter (crash_behind to_save Old (7 ∷ []) (verb.AtVb 0 0 vb_verb.Log)) (crash_behind_groups saved_groups (restarted at) (ok (event.Logged 0 0 (log_of 5) ∷ []))) → ⊥ }
    ensures cut_log { LawfulGroups after_noted_back log_after_crash (log_after_crash_groups (log_of 5)) }
    ensures cut_log_back { LawfulGroups after_noted_back log_after_crash (log_after_crash_groups made_log) → ⊥ }
{}

/// A vBucket that was active makes a new branch as its node starts, and is active on that; any other
/// one has the role that was written down last, and one of which no record stands is not there. Not
/// lawful are a start without the line of the branch, or with that of another vBucket alone; one that
/// is shown active without it, as the node crashed or as it did not start; another role than the last
/// one whose record stands; any role where none does; and a change on the branch from before the crash.
/// A prepare that it wrote down it may commit as its node starts, on the new branch and behind its line
/// alone; and no commit names another prepare than the one that waits.
pub fn judged_restarts()
    ensures branch { LawfulAfter (crash_behind [] Old (7 ∷ []) (verb.AtVb 0 0 vb_verb.Show)) (crash_behind_groups [] (restarted 0) (none_shown role.Active 7)) }
    ensures no_branch { (last : List Event) (said : Answer) → LawfulAfter (crash_behind [] Old (7 ∷ []) (verb.AtVb 0 0 vb_verb.Show)) (crash_behind_groups [] (ok []) (last, said)) → ⊥ }
    ensures other_branch { (last : List Event) (said : Answer) → LawfulAfter (crash_behind [] Old (7 ∷ []) (verb.AtVb 0 0 vb_verb.Show)) (crash_behind_groups [] (ok (branch_line 1 0 ∷ [])) (last, said)) → ⊥ }
    ensures short { LawfulAfter (crash_behind [] Old [] (verb.AtVb 0 0 vb_verb.Show)) (crash_behind_groups [] ([], answer.No cause.IdsShort) ([], answer.No cause.NodeDown)) }
    ensures short_active { (uuid : ℕ) → LawfulAfter (crash_behind [] Old [] (verb.AtVb 0 0 vb_verb.Show)) (crash_behind_groups [] ([], answer.No cause.IdsShort) (none_shown role.Active uuid)) → ⊥ }
    ensures old_branch_shown { (at : ℕ) → LawfulAfter (crash_behind [] Old (7 ∷ []) (verb.AtVb 0 0 vb_verb.Show)) (crash_behind_groups [] (restarted at) (none_shown role.Active 5)) → ⊥ }
    ensures dead { LawfulAfter (crash_behind (verb.AtVb 0 0 vb_verb.Dead ∷ []) Old [] (verb.AtVb 0 0 vb_verb.Show)) (crash_behind_groups (ok (dead_line ∷ []) ∷ []) (ok []) (none_shown role.Dead 5)) }
    ensures dead_replica { LawfulAfter (crash_behind (verb.AtVb 0 0 vb_verb.Dead ∷ []) Old [] (verb.AtVb 0 0 vb_verb.Show)) (crash_behind_groups (ok (dead_line ∷ []) ∷ []) (ok []) (none_shown role.Replica 5)) → ⊥ }
    ensures dead_active { LawfulAfter (crash_behind (verb.AtVb 0 0 vb_verb.Dead ∷ []) Old [] (verb.AtVb 0 0 vb_verb.Show)) (crash_behind_groups (ok (dead_line ∷ []) ∷ []) (ok []) (none_shown role.Active 5)) → ⊥ }
    ensures unnoted { LawfulAfter (dead_unwritten Old) (dead_unwritten_groups (restarted 0) (none_shown role.Active 7)) }
    ensures unnoted_dead { (at : ℕ) → LawfulAfter (dead_unwritten Old) (dead_unwritten_groups (restarted at) (none_shown role.Dead 7)) → ⊥ }
    ensures unnoted_silent { (last : List Event) (said : Answer) → LawfulAfter (dead_unwritten Old) (dead_unwritten_groups (ok []) (last, said)) → ⊥ }
    ensures found { LawfulAfter (dead_unwritten New) (dead_unwritten_groups (ok []) (none_shown role.Dead 5)) }
    ensures found_active { LawfulAfter (dead_unwritten New) (dead_unwritten_groups (ok []) (none_shown role.Active 5)) → ⊥ }
    ensures on_new { LawfulAfter set_restarted (set_restarted_groups 7) }
    ensures on_old { LawfulAfter set_restarted (set_restarted_groups 5) → ⊥ }
    ensures commits { LawfulAfter seal_restarted (seal_restarted_groups (branch_line 0 2 ∷ event.Changed 0 0 7 (commit_of 2) ∷ [])) }
    ensures commits_on_old { LawfulAfter seal_restarted (seal_restarted_groups (branch_line 0 2 ∷ event.Changed 0 0 5 (commit_of 2) ∷ [])) → ⊥ }
    ensures commits_early { (uuid : ℕ) → LawfulAfter seal_restarted (seal_restarted_groups (event.Changed 0 0 uuid (commit_of 2) ∷ branch_line 0 2 ∷ [])) → ⊥ }
    ensures commits_other { LawfulAfter seal_restarted (seal_restarted_groups (branch_line 0 2 ∷ event.Changed 0 0 7 (commit_of 1) ∷ [])) → ⊥ }
    ensures unmade { Lawful (made_under 1 New) (made_under_groups (ok []) ([], answer.No cause.UnknownVb)) }
    ensures unmade_shown { (said : Role) (uuid : ℕ) → Lawful (made_under 1 New) (made_under_groups (ok []) (none_shown said uuid)) → ⊥ }
    ensures late { Lawful (made_under 4 New) (made_under_groups (restarted 0) (none_shown role.Active 7)) }
    ensures late_shown { (said : Role) (uuid : ℕ) → Lawful (made_under 4 Old) (made_under_groups (ok []) (none_shown said uuid)) → ⊥ }
{}
