//! What a checker decides of a transcript: it reads the script and the lines, and runs nothing.

ghost use Rattle.std.specs.Prelude.{List, [], ◌∷◌, ◌++◌, Some, true, false};
ghost use Rattle.mcbp_kv.specs.declared.opcodes.TheConstants.{SET};
ghost use Rattle.node_world.specs.World.{groups};
ghost use Rattle.script_text.specs.Fitting.{ScriptFits};
ghost use Rattle.script_text.specs.declared.verb.ScriptLine.{ScriptLine};
ghost use Rattle.vb_events.specs.declared.event.Event.{Event};
ghost use Rattle.vb_events.specs.declared.event.Group.{Group};
ghost use Rattle.vb_types.specs.declared.change.Level.TheVariants.{Majority, PersistMajority};
ghost use Rattle.vb_types.specs.declared.stream.AskAnswer.TheVariants as ask_answer;
ghost use Rattle.transcript_law.specs.Alone.{first_groups, first_lines};
ghost use Rattle.transcript_law.specs.AnswerRows.{durably, makes, once, stores};
ghost use Rattle.transcript_law.specs.Checked.{Checked, CheckedFrom};
ghost use Rattle.transcript_law.specs.CheckedRows.{PassesAwaited, PassesCommit, PassesPut, PassesTo, last_numbered};
ghost use Rattle.transcript_law.specs.Chronicles.{Chronicle};
ghost use Rattle.transcript_law.specs.ClientStreamRows.{all_changes, asks_for, committed, durable, ended, first_item, for_another, fresh, inside, marked, next_item, one, pending, prepared, sent, three, two, unframed, up_to};
ghost use Rattle.transcript_law.specs.Contrary.{acknowledged_lines, counted_lines, dialed_itself, done_lines, first_lost, inside_got, new_branch_lines, on_another, sent_known, third_held};
ghost use Rattle.transcript_law.specs.Followers.{adopted_lines, after_both, ask_above, ask_lines, first_item_line, granted_inside, log_of, made_ask_lines, made_dead, made_from, marker_line, next_change, next_item_line, set_item_line};
ghost use Rattle.transcript_law.specs.Journals.{with_stood, within};
ghost use Rattle.transcript_law.specs.Lawfulness.{Lawful, LawfulFrom};
ghost use Rattle.transcript_law.specs.Rollbacks.{made_log, rest_lines, rolled_lines, sent_back};
ghost use Rattle.transcript_law.specs.Transcripts.{change_line, one_change, one_set, one_set_groups, set_dead_and_show, set_one, sets_groups, shown_after_change, two_vbs, two_vbs_groups, value_lines};

/// A lawful transcript passes a checker, and so does that of each script; and lawful lines pass,
/// whatever was read before them.
pub fn lawful_transcripts_pass()
    ensures passes { (script : List ScriptLine) (told : List Group) → Lawful script told → Checked script told }
    ensures lines { (before : Chronicle) (lines : List Event) → LawfulFrom before lines → CheckedFrom before lines }
    ensures own { (script : List ScriptLine) → ScriptFits script → Checked script (groups script) }
{}

/// A transcript passes in which a document is shown as it was set. Not so with another value, or
/// without it; with a group of another line's number, a group less or a group more; with a branch id
/// that is given twice; with a change by another vBucket than made the branch; and shown with a newest
/// branch of another history. That a line counts its documents wrong is not looked at: the transcript
/// passes, and is not lawful.
pub fn judged_checked_transcripts()
    ensures right { Checked one_set (one_set_groups 1 0 (value_lines (8 ∷ []))) }
    ensures value { Checked one_set (one_set_groups 1 0 (value_lines (9 ∷ []))) → ⊥ }
    ensures missing { Checked one_set (one_set_groups 1 0 []) → ⊥ }
    ensures number { Checked one_set (last_numbered 6) → ⊥ }
    ensures fewer { Checked (first_lines 5) (first_groups 4) → ⊥ }
    ensures excess { Checked (first_lines 4) (first_groups 5) → ⊥ }
    ensures own { Checked (two_vbs 6 set_one) (two_vbs_groups 6 (sets_groups (change_line 0 ∷ []))) }
    ensures branch { Checked (two_vbs 5 []) (two_vbs_groups 5 []) → ⊥ }
    ensures writer { Checked (two_vbs 6 set_one) (two_vbs_groups 6 (sets_groups (change_line 1 ∷ []))) → ⊥ }
    ensures same { Checked (two_vbs 6 set_dead_and_show) (two_vbs_groups 6 (shown_after_change 5)) }
    ensures history { Checked (two_vbs 6 set_dead_and_show) (two_vbs_groups 6 (shown_after_change 6)) → ⊥ }
    ensures counted { Checked one_set (one_set_groups 2 0 (value_lines (8 ∷ []))) }
    ensures miscounted { Lawful one_set (one_set_groups 2 0 (value_lines (8 ∷ []))) → ⊥ }
{}

/// A request is let continue up to where both branches are the same, and sent back to there from
/// above it. Not so where the failover rule sends it back and it is let continue, or sends it
/// elsewhere; where the histories differ; by a vBucket that is dead; and with another log or last
/// seqno than the vBucket's. A replica takes over the log of its link's stream, and no other.
pub fn judged_checked_requests()
    ensures goes { CheckedFrom (made_from 5) (made_ask_lines 1 ask_answer.Go) }
    ensures sent_back { CheckedFrom (made_from 5) (made_ask_lines 2 (ask_answer.Roll 1)) }
    ensures goes_on { CheckedFrom (made_from 5) (made_ask_lines 2 ask_answer.Go) → ⊥ }
    ensures elsewhere { CheckedFrom (made_from 5) (made_ask_lines 2 (ask_answer.Roll 0)) → ⊥ }
    ensures stranger { CheckedFrom (made_from 6) (made_ask_lines 1 ask_answer.Go) → ⊥ }
    ensures dead { CheckedFrom made_dead (made_ask_lines 1 ask_answer.Go) → ⊥ }
    ensures log { CheckedFrom (made_from 5) (ask_lines (ask_above 1 5) 1 (log_of 5) ask_answer.Go) → ⊥ }
    ensures high { CheckedFrom (made_from 5) (ask_lines (ask_above 1 5) 2 made_log ask_answer.Go) → ⊥ }
    ensures adopts { CheckedFrom (granted_inside 2) (adopted_lines 5) }
    ensures adopts_other { CheckedFrom (granted_inside 2) (adopted_lines 6) → ⊥ }
{}

/// A vBucket goes back to the greatest end of a whole snapshot that it wrote down, up to the point
/// that is named, or to 0; not below, not inside a snapshot, and not above.
pub fn judged_checked_rollbacks()
    ensures point { CheckedFrom (with_stood sent_back (within 1 1 ∷ []) 1) (rolled_lines 1 1) }
    ensures below { CheckedFrom (with_stood sent_back (within 1 1 ∷ []) 1) (rolled_lines 1 0) → ⊥ }
    ensures inside { CheckedFrom (with_stood sent_back (within 2 1 ∷ []) 1) (rolled_lines 1 0) }
    ensures not_inside { CheckedFrom (with_stood sent_back (within 2 1 ∷ []) 1) (rolled_lines 1 1) → ⊥ }
    ensures above { CheckedFrom (with_stood sent_back (within 2 2 ∷ within 1 1 ∷ []) 2) (rolled_lines 1 2) → ⊥ }
{}

/// A snapshot is begun where its request means, put whole, and ended. Not so one that starts
/// elsewhere, or ends below what the request means, or where no change is; one behind a snapshot of
/// which nothing was put; an item of another key, before another that is to come, or put twice; and an
/// end by which all was sent, inside a snapshot. That an end has a reason that was not asked for is
/// not looked at.
pub fn judged_checked_snapshots()
    ensures whole { CheckedFrom (granted_inside 2) (rest_lines ++ done_lines) }
    ensures start { CheckedFrom (granted_inside 2) (marker_line 1 2 ∷ []) → ⊥ }
    ensures short { CheckedFrom (granted_inside 3) (marker_line 0 2 ∷ []) → ⊥ }
    ensures past { CheckedFrom (sent_known []) (marker_line 0 3 ∷ []) → ⊥ }
    ensures unput { CheckedFrom (sent_known []) (marker_line 0 1 ∷ marker_line 1 2 ∷ []) → ⊥ }
    ensures key { CheckedFrom (sent_known []) (marker_line 0 2 ∷ set_item_line 1 (9 ∷ []) ∷ []) → ⊥ }
    ensures skipped { CheckedFrom (sent_known []) (marker_line 0 2 ∷ next_item_line ∷ []) → ⊥ }
    ensures twice { CheckedFrom (sent_known []) (marker_line 0 2 ∷ first_item_line ∷ first_item_line ∷ []) → ⊥ }
    ensures part { CheckedFrom (granted_inside 2) (marker_line 0 2 ∷ done_lines) → ⊥ }
{}

/// A replica acknowledges the last change of its snapshot, and that is counted. Not so more than it
/// holds; inside a snapshot, more than lies before its start; a prepare of level 3 that is not saved;
/// where it lacks a change of its branch, or is on another one than its stream; and not counted are
/// what it did not acknowledge, another member, the node itself, and what was acknowledged on an
/// earlier branch.
pub fn judged_checked_acknowledgements()
    ensures counted { CheckedFrom after_both (acknowledged_lines 1 2 ++ counted_lines 1 2) }
    ensures above { CheckedFrom after_both (acknowledged_lines 1 3) → ⊥ }
    ensures inside { CheckedFrom inside_got (acknowledged_lines 1 1) → ⊥ }
    ensures unsaved { CheckedFrom third_held (acknowledged_lines 1 2) → ⊥ }
    ensures lost { CheckedFrom first_lost (acknowledged_lines 1 2) → ⊥ }
    ensures astray { CheckedFrom on_another (acknowledged_lines 1 2) → ⊥ }
    ensures unwritten { CheckedFrom after_both (counted_lines 1 2) → ⊥ }
    ensures member { CheckedFrom after_both (acknowledged_lines 1 2 ++ counted_lines 2 2) → ⊥ }
    ensures itself { CheckedFrom dialed_itself (counted_lines 0 2) → ⊥ }
    ensures branched { CheckedFrom after_both (acknowledged_lines 1 2 ++ new_branch_lines ++ counted_lines 1 2) → ⊥ }
{}

/// A durable write is committed once a majority of its chain holds it, and at level 3 it is saved; and
/// it is answered with Success behind that commit, with its CAS. Not so where nobody acknowledged it,
/// or only up to below it, or one that is not of the chain, or one twice in place of two; where it is
/// not saved; and not Success without a commit, behind a prepare, with another CAS, or of a prepare of
/// another level.
pub fn judged_checked_commits()
    ensures of_two { PassesCommit Majority (Some 1 ∷ []) 0 ((1, 1) ∷ []) }
    ensures lacking { PassesCommit Majority (Some 1 ∷ []) 0 [] → ⊥ }
    ensures below { PassesCommit Majority (Some 1 ∷ []) 0 ((1, 0) ∷ []) → ⊥ }
    ensures stranger { PassesCommit Majority (Some 1 ∷ []) 0 ((2, 1) ∷ []) → ⊥ }
    ensures twice { PassesCommit Majority (Some 1 ∷ Some 2 ∷ Some 3 ∷ []) 0 ((1, 1) ∷ (1, 2) ∷ []) → ⊥ }
    ensures saved { PassesCommit PersistMajority [] 1 [] }
    ensures unsaved { PassesCommit PersistMajority [] 0 [] → ⊥ }
    ensures told { PassesAwaited pending (durably 1 9 6) (makes committed ∷ stores SET 2 [] ∷ []) }
    ensures uncommitted { PassesTo durable (durably 1 9 6) (stores SET 2 [] ∷ []) → ⊥ }
    ensures prepared { PassesTo once (durably 1 9 6) (makes prepared ∷ stores SET 2 [] ∷ []) → ⊥ }
    ensures cas { PassesTo pending (durably 1 9 6) (makes committed ∷ stores SET 3 [] ∷ []) → ⊥ }
    ensures level { PassesAwaited pending (durably 2 9 6) (makes committed ∷ stores SET 2 [] ∷ []) → ⊥ }
{}

/// So it is of a client's stream, by the frame directly behind each line. Not so a line without one,
/// one before another client's frame, or of a vBucket of which the connection has no stream; a marker
/// that starts elsewhere than the request means, ends below, or comes inside a snapshot; an item
/// before another that is to come; and an end by which all was sent, inside a snapshot.
pub fn judged_checked_streams()
    ensures whole { PassesPut two (one (fresh true all_changes)) (marked 0 0 2 ++ sent 0 one_change ++ sent 0 next_change) }
    ensures all_sent { PassesPut two (one (inside true (up_to 2) two 0 2 (first_item ∷ next_item ∷ []))) (ended 0 0) }
    ensures alone { PassesPut two (one (fresh true all_changes)) unframed → ⊥ }
    ensures another { PassesPut two (one (fresh true all_changes)) for_another → ⊥ }
    ensures header { PassesPut two (one (fresh true all_changes)) (marked 1 0 2) → ⊥ }
    ensures start { PassesPut two (one (fresh true (asks_for 0 1 2 9))) (marked 0 1 2) → ⊥ }
    ensures short { PassesPut three (one (fresh true (asks_for 0 1 3 9))) (marked 0 0 2) → ⊥ }
    ensures plain_short { PassesPut three (one (fresh false (asks_for 0 1 3 9))) (marked 0 0 2) → ⊥ }
    ensures between { PassesPut three (one (inside true all_changes three 0 2 (first_item ∷ []))) (marked 0 2 3) → ⊥ }
    ensures skipped { PassesPut two (one (inside true all_changes two 0 2 [])) (sent 0 next_change) → ⊥ }
    ensures part { PassesPut three (one (inside true (up_to 2) three 0 2 (first_item ∷ []))) (ended 0 0) → ⊥ }
{}
