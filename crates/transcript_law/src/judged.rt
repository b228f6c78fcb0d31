//! What makes a transcript lawful or not, and what is no state that a script leaves.

ghost use Rattle.std.specs.Prelude.{◌≡◌, ◌<◌, ℕ, [], ◌∷◌, ◌++◌, take, Some};
ghost use Rattle.transcript_law.specs.Followers.{two_followed, log_of, ask_above, ask_lines, other_ask_lines, late_ask_lines, granted_lines, stranger_lines, ended_lines, again_got, marker_line, set_item_line, first_item_line, next_item_line, both_sent_lines, next_change, replica_shown, two_docs, third_doc, ask_groups, answered_so, adopted_so, sent_so, got_so, shown_so, granted_inside, dialed_elsewhere, after_both, replica_ask_lines, made_from, made_dead, made_ask_lines, after_adopted, empty_in, changed_in, after_got, based, all_active, client_world, prepared_in, unbounded};
ghost use Rattle.transcript_law.specs.Chronicles.{Idle, Written, empty_chronicle, after_lines, after_group, stood};
ghost use Rattle.transcript_law.specs.Journals.{within, taken, with_written, with_stood, batch_lines, stat_lines, point_noted};
ghost use Rattle.transcript_law.specs.Commits.{chained_known};
ghost use Rattle.transcript_law.specs.Contrary.{later_held, next_made, link_over, dialed_anew, log_forgotten, strange, inside_got, inside_dead, inside_active, inside_shown, active_shown, set_and_sealed, sealed_groups, after_dead_changed, promotes_dead, promoted_groups, risen_lines, logged_six, inside_newest, unadopted, branch_left, branch_inside, disk_marker, done_lines, sent_known, range_lines, got_lines, strange_change, after_prepare, prepare_shown, prepare_lines, after_back, taken_log, refused_ask_lines, after_follow, after_promote, acknowledged_saved, acknowledged_lines, ungranted_lines, third_held, third_saved, third_below, second_held, first_lost, on_another, after_ack, dialed_itself, dialed_by_another, granted_anew, counted_lines, new_branch_lines, after_both_dead};
ghost use Rattle.transcript_law.specs.Lawfulness.{Lawful, LawfulFrom, LawfulGroups, LawfulLine};
ghost use Rattle.transcript_law.specs.Prefixes.{AreFollowed, FollowsBranch, PointsAreBranch};
ghost use Rattle.transcript_law.specs.Rollbacks.{sent_back, rolled_lines, stream_end_lines, rest_lines, log_lines, made_log, empty_shown, empty_uuid, after_active, after_dead, forgotten};
ghost use Rattle.transcript_law.specs.LineAnswers.{LawfulAnswer};
ghost use Rattle.transcript_law.specs.Transcripts.{one_change, one_set, one_set_groups, change_line, shown_with_change, value_lines, two_vbs, two_vbs_groups, dead_and_show, set_dead_and_show, show_alone, set_one, sets_groups, both_on_one, forked_at, shown_after_change, shown_active, shown_dead};
ghost use Rattle.vb_types.specs.declared.change.Level.TheVariants as level;
ghost use Rattle.script_text.specs.declared.verb.Verb.TheVariants as verb;
ghost use Rattle.script_text.specs.declared.verb.VbVerb.TheVariants as vb_verb;
ghost use Rattle.script_text.specs.declared.verb.LinkVerb.TheVariants as link_verb;
ghost use Rattle.vb_events.specs.declared.event.Answer.TheVariants as answer;
ghost use Rattle.vb_types.specs.declared.stream.AskAnswer.TheVariants as ask_answer;
ghost use Rattle.vb_events.specs.declared.event.Cause.TheVariants as cause;
ghost use Rattle.vb_events.specs.declared.event.Event.TheVariants as event;
ghost use Rattle.vb_events.specs.declared.event.Why.TheVariants as why;
ghost use Rattle.vb_types.specs.declared.role.Role.TheVariants as role;

/// A transcript that is lawful, and what is not lawful in its place: another value than the one that
/// was set, a document that is not shown, one that the line counts and the history lacks, a prepare
/// that it counts so, a branch id that is given twice, and a seqno that is used twice.
pub fn judged_transcripts()
    ensures right { Lawful one_set (one_set_groups 1 0 (value_lines (8 ∷ []))) }
    ensures value { Lawful one_set (one_set_groups 1 0 (value_lines (9 ∷ []))) → ⊥ }
    ensures missing { Lawful one_set (one_set_groups 1 0 []) → ⊥ }
    ensures more { Lawful one_set (one_set_groups 2 0 (value_lines (8 ∷ []))) → ⊥ }
    ensures prepares { Lawful one_set (one_set_groups 1 1 (value_lines (8 ∷ []))) → ⊥ }
    ensures branch { Lawful (two_vbs 5 []) (two_vbs_groups 5 []) → ⊥ }
    ensures seqno { Lawful (two_vbs 6 set_one) (two_vbs_groups 6 (sets_groups (change_line 0 ∷ change_line 0 ∷ []))) → ⊥ }
{}

/// Of two vBuckets that are each made on a branch of its own, the one that made a branch changes it,
/// and the other does not, even where both are on it. It changes it above where another branch was
/// made from it, and not there; above all that it holds, even where its branch lacks that; and not
/// any more once it is on another branch. A vBucket is shown with its own branch, and not with one of
/// another history, nor, though it is of the same history, with another than the newest one of its
/// log; and an active one with no other than the branch that it is on. A new branch is made
/// from the newest one of its vBucket's log, goes up to the vBucket's last change, and leaves its
/// parent there, or where the snapshot starts that the vBucket is inside; not from another branch, or
/// from none, nor elsewhere, nor further up.
pub fn judged_branches()
    ensures own { Lawful (two_vbs 6 set_one) (two_vbs_groups 6 (sets_groups (change_line 0 ∷ []))) }
    ensures writer { Lawful (two_vbs 6 set_one) (two_vbs_groups 6 (sets_groups (change_line 1 ∷ []))) → ⊥ }
    ensures maker { LawfulLine both_on_one (change_line 0) [] }
    ensures follower { LawfulLine both_on_one (change_line 1) [] → ⊥ }
    ensures above { LawfulLine (forked_at 0) (change_line 0) [] }
    ensures at_fork { LawfulLine (forked_at 1) (change_line 0) [] → ⊥ }
    ensures later { LawfulLine later_held (change_line 0) [] → ⊥ }
    ensures on_new { LawfulFrom (made_from 5) (next_made 7) }
    ensures left { LawfulFrom (made_from 5) (next_made 5) → ⊥ }
    ensures same { Lawful (two_vbs 6 set_dead_and_show) (two_vbs_groups 6 (shown_after_change 5)) }
    ensures history { Lawful (two_vbs 6 set_dead_and_show) (two_vbs_groups 6 (shown_after_change 6)) → ⊥ }
    ensures dead { Lawful (two_vbs 6 dead_and_show) (two_vbs_groups 6 (shown_dead 5)) }
    ensures dead_other { Lawful (two_vbs 6 dead_and_show) (two_vbs_groups 6 (shown_dead 6)) → ⊥ }
    ensures active { Lawful (two_vbs 6 show_alone) (two_vbs_groups 6 (shown_active 6)) → ⊥ }
    ensures log_shown { LawfulFrom (logged_six after_dead) (empty_uuid role.Dead 6) }
    ensures log_history { LawfulFrom (logged_six after_dead_changed) (shown_with_change role.Dead 6 1 0 (value_lines (8 ∷ []))) → ⊥ }
    ensures log_active { LawfulFrom (logged_six after_active) (empty_uuid role.Active 6) → ⊥ }
    ensures leaves { LawfulFrom after_dead_changed (branch_left (Some 5) 1 1) }
    ensures parent { LawfulFrom after_dead_changed (branch_left (Some 6) 1 1) → ⊥ }
    ensures parentless { LawfulFrom after_dead_changed (branch_left None 1 1) → ⊥ }
    ensures fork { LawfulFrom after_dead_changed (branch_left (Some 5) 0 1) → ⊥ }
    ensures high { LawfulFrom after_dead_changed (branch_left (Some 5) 1 2) → ⊥ }
    ensures inside { LawfulFrom inside_dead (branch_inside 0) }
    ensures not_inside { LawfulFrom inside_dead (branch_inside 1) → ⊥ }
{}

/// The request of an empty replica is granted. Not lawful are a request that is granted with another
/// log than the vBucket's own, or with another last seqno; one above 0 that is granted on a branch
/// that the log lacks, or beyond its changes; an empty replica that is sent back; a refusal without a
/// status; a request for another vBucket than the link was dialed for; and one over a link that ended.
pub fn judged_requests()
    ensures asks { Lawful two_followed (ask_groups granted_lines) }
    ensures log { Lawful two_followed (ask_groups (ask_lines (ask_above 0 0) 2 (log_of 6) ask_answer.Go)) → ⊥ }
    ensures high { Lawful two_followed (ask_groups (ask_lines (ask_above 0 0) 3 (log_of 5) ask_answer.Go)) → ⊥ }
    ensures unknown { Lawful two_followed (ask_groups (ask_lines (ask_above 1 9) 2 (log_of 5) ask_answer.Go)) → ⊥ }
    ensures ahead { Lawful two_followed (ask_groups (ask_lines (ask_above 3 5) 2 (log_of 5) ask_answer.Go)) → ⊥ }
    ensures back { Lawful two_followed (ask_groups (ask_lines (ask_above 0 0) 2 (log_of 5) (ask_answer.Roll 0))) → ⊥ }
    ensures nameless { Lawful two_followed (ask_groups (ask_lines (ask_above 0 0) 2 (log_of 5) (ask_answer.Refuse 0))) → ⊥ }
    ensures other { Lawful two_followed (ask_groups other_ask_lines) → ⊥ }
    ensures late { Lawful two_followed (ask_groups late_ask_lines) → ⊥ }
{}

/// A request that names an older branch of the log is granted up to where the newer one was made, and
/// sent back to there from above it. Neither is lawful where the newer branch has another history, or
/// where the vBucket is not active: then it refuses.
pub fn judged_prefixes()
    ensures continues { LawfulFrom (made_from 5) (made_ask_lines 1 ask_answer.Go) }
    ensures rolls { LawfulFrom (made_from 5) (made_ask_lines 2 (ask_answer.Roll 1)) }
    ensures stranger { LawfulFrom (made_from 6) (made_ask_lines 1 ask_answer.Go) → ⊥ }
    ensures rolls_stranger { LawfulFrom (made_from 6) (made_ask_lines 2 (ask_answer.Roll 1)) → ⊥ }
    ensures dead_continues { LawfulFrom made_dead (made_ask_lines 1 ask_answer.Go) → ⊥ }
    ensures dead_rolls { LawfulFrom made_dead (made_ask_lines 2 (ask_answer.Roll 1)) → ⊥ }
    ensures dead_refuses { LawfulFrom made_dead (made_ask_lines 1 (ask_answer.Refuse 7)) }
{}

/// Two changes are sent in one snapshot, or each in its own, and a request from inside a snapshot is
/// met by a marker of that snapshot. Not lawful are a marker that starts elsewhere than the request
/// means, or ends below; one that ends where no change is; one behind a snapshot of which an item was
/// not put; one of a link that dials for another vBucket than the stream's; and one that names the
/// journal, where nothing is saved.
pub fn judged_markers()
    ensures whole { Lawful two_followed (sent_so both_sent_lines) }
    ensures parts { Lawful two_followed (sent_so (marker_line 0 1 ∷ first_item_line ∷ marker_line 1 2 ∷ next_item_line ∷ [])) }
    ensures inside { LawfulFrom (granted_inside 2) (marker_line 0 2 ∷ []) }
    ensures start { Lawful two_followed (sent_so (marker_line 1 2 ∷ first_item_line ∷ next_item_line ∷ [])) → ⊥ }
    ensures later_start { LawfulFrom (granted_inside 2) (marker_line 1 2 ∷ []) → ⊥ }
    ensures short { LawfulFrom (granted_inside 3) (marker_line 0 2 ∷ []) → ⊥ }
    ensures beyond { Lawful two_followed (sent_so (marker_line 0 3 ∷ [])) → ⊥ }
    ensures unput { Lawful two_followed (sent_so (marker_line 0 1 ∷ marker_line 1 2 ∷ next_item_line ∷ [])) → ⊥ }
    ensures other { LawfulFrom dialed_elsewhere (marker_line 0 2 ∷ []) → ⊥ }
    ensures disk { LawfulFrom (granted_inside 2) disk_marker → ⊥ }
{}

/// Not lawful are an item of another key than the change at its seqno, one with the snapshot's end
/// while another change is still to come, and one that is put twice.
pub fn judged_items()
    ensures key { Lawful two_followed (sent_so (marker_line 0 2 ∷ set_item_line 1 (9 ∷ []) ∷ [])) → ⊥ }
    ensures skipped { Lawful two_followed (sent_so (marker_line 0 2 ∷ next_item_line ∷ [])) → ⊥ }
    ensures twice { Lawful two_followed (sent_so (marker_line 0 2 ∷ first_item_line ∷ first_item_line ∷ [])) → ⊥ }
{}

/// A replica takes over the log that its request was answered with, and no other, and none after the
/// link ended; a vBucket that did not dial takes over none. A change that was got is not got again.
/// With the whole snapshot the replica is shown with its branch's documents, and not with one more,
/// with one less, or with another one. Asked itself, it answers by the last change that it got.
pub fn judged_replicas()
    ensures adopts { Lawful two_followed (adopted_so 5) }
    ensures adopted { Lawful two_followed (adopted_so 6) → ⊥ }
    ensures taker { Lawful two_followed (answered_so stranger_lines) → ⊥ }
    ensures ended { Lawful two_followed (answered_so ended_lines) → ⊥ }
    ensures again { Lawful two_followed (got_so again_got) → ⊥ }
    ensures right { Lawful two_followed (shown_so (replica_shown 2 two_docs)) }
    ensures more { Lawful two_followed (shown_so (replica_shown 3 (two_docs ++ third_doc))) → ⊥ }
    ensures missing { Lawful two_followed (shown_so (replica_shown 1 (take 1 two_docs))) → ⊥ }
    ensures another { Lawful two_followed (shown_so (replica_shown 2 (take 1 two_docs ++ third_doc))) → ⊥ }
    ensures onward { LawfulFrom after_both (replica_ask_lines 2) }
    ensures onward_none { LawfulFrom after_both (replica_ask_lines 0) → ⊥ }
{}

/// A replica takes the marker of the snapshot that its link's stream began, and then the snapshot's
/// changes. Not lawful are a marker that starts above what the replica holds, one that ends below that,
/// one that ends elsewhere than the one that was put, one that is taken twice, and one that a vBucket
/// takes that did not dial;
/// and a change of another link, one that the stream's branch lacks, one before another that was put
/// in front of it, one that was not put, and one that is inside its snapshot and was not put yet; and
/// either before it took the stream's log over.
pub fn judged_taken()
    ensures range { LawfulFrom (sent_known both_sent_lines) (range_lines 0 0 2) }
    ensures high { LawfulFrom (sent_known both_sent_lines) (range_lines 0 1 2) → ⊥ }
    ensures low { LawfulFrom after_both (range_lines 0 0 1) → ⊥ }
    ensures beyond { LawfulFrom (sent_known both_sent_lines) (range_lines 0 0 3) → ⊥ }
    ensures again { LawfulFrom (sent_known both_sent_lines) (range_lines 0 0 2 ++ range_lines 0 0 2) → ⊥ }
    ensures stranger { LawfulFrom (sent_known both_sent_lines) (range_lines 1 0 2) → ⊥ }
    ensures got { LawfulFrom (sent_known both_sent_lines) (range_lines 0 0 2 ++ got_lines 1 one_change) }
    ensures other_link { LawfulFrom (sent_known both_sent_lines) (got_lines 2 one_change) → ⊥ }
    ensures other_change { LawfulFrom (sent_known both_sent_lines) (got_lines 1 strange_change) → ⊥ }
    ensures skipped { LawfulFrom (sent_known both_sent_lines) (got_lines 1 next_change) → ⊥ }
    ensures unput { LawfulFrom (sent_known (marker_line 0 1 ∷ first_item_line ∷ [])) (got_lines 1 next_change) → ⊥ }
    ensures early { LawfulFrom (sent_known (marker_line 0 2 ∷ first_item_line ∷ [])) (got_lines 1 one_change ++ got_lines 1 next_change) → ⊥ }
    ensures range_unadopted { LawfulFrom unadopted (range_lines 0 0 2) → ⊥ }
    ensures got_unadopted { LawfulFrom unadopted (got_lines 1 one_change) → ⊥ }
{}

/// A consumer that was sent back and wrote nothing down goes back to 0. Not lawful are one that goes
/// elsewhere, one that names another point than the one that it was sent to, one that was not sent
/// back, one that goes back twice, and one whose link is another of the same number by then.
pub fn judged_rollbacks()
    ensures back { LawfulFrom sent_back (rolled_lines 1 0) }
    ensures elsewhere { LawfulFrom sent_back (rolled_lines 1 1) → ⊥ }
    ensures unnamed { LawfulFrom sent_back (rolled_lines 2 0) → ⊥ }
    ensures unasked { LawfulFrom (made_from 5) (rolled_lines 1 0) → ⊥ }
    ensures twice { LawfulFrom sent_back (rolled_lines 1 0 ++ rolled_lines 1 0) → ⊥ }
    ensures anew { LawfulFrom (dialed_anew sent_back) (rolled_lines 1 0) → ⊥ }
{}

/// One that wrote a whole snapshot down goes back to its end, and not below. It does not go to where it
/// was inside a snapshot, nor above the point that is named. What it wrote down above is gone then, and
/// the batch on its way too. A journal's complete point has the documents of the vBucket's branch.
pub fn judged_points()
    ensures point { LawfulFrom (with_stood sent_back (within 1 1 ∷ []) 1) (rolled_lines 1 1) }
    ensures below { LawfulFrom (with_stood sent_back (within 1 1 ∷ []) 1) (rolled_lines 1 0) → ⊥ }
    ensures inside { LawfulFrom (with_stood sent_back (within 2 1 ∷ []) 1) (rolled_lines 1 0) }
    ensures not_inside { LawfulFrom (with_stood sent_back (within 2 1 ∷ []) 1) (rolled_lines 1 1) → ⊥ }
    ensures greatest { LawfulFrom (with_stood sent_back (within 2 2 ∷ within 1 1 ∷ []) 2) (rolled_lines 1 1 ++ stat_lines 1 1 0) }
    ensures above { LawfulFrom (with_stood sent_back (within 2 2 ∷ within 1 1 ∷ []) 2) (rolled_lines 1 2) → ⊥ }
    ensures saved { LawfulFrom (with_stood sent_back (within 2 2 ∷ within 1 1 ∷ []) 2) (rolled_lines 1 1 ++ stat_lines 1 2 0) → ⊥ }
    ensures kept { stood ((after_lines (with_written sent_back (taken 3 3) (within 2 2 ∷ within 1 1 ∷ []) 2) (rolled_lines 1 1)).disk_at 1 0) ≡ within 1 1 ∷ [] }
    ensures gone { ((after_lines (with_written sent_back (taken 3 3) (within 2 2 ∷ within 1 1 ∷ []) 2) (rolled_lines 1 1)).disk_at 1 0).flushing ≡ Idle }
    ensures branch { PointsAreBranch after_got 1 0 (point_noted (one_change ∷ [])) }
    ensures other { PointsAreBranch after_got 1 0 (point_noted []) → ⊥ }
{}

/// A replica that has two changes takes a batch of both, or of the first inside their snapshot. Not
/// lawful are a batch beyond its last change, one with no change, one with three, one that ends behind its
/// snapshot or in front of it, one of changes that were written down already, one while another is on its
/// way, and one while another stands that does not count as saved yet.
pub fn judged_batches()
    ensures both { LawfulFrom after_both (batch_lines 2 2 2) }
    ensures first { LawfulFrom after_both (batch_lines 2 1 1) }
    ensures beyond { LawfulFrom after_both (batch_lines 3 3 2) → ⊥ }
    ensures nothing { LawfulFrom after_both (batch_lines 2 2 0) → ⊥ }
    ensures more { LawfulFrom after_both (batch_lines 2 2 3) → ⊥ }
    ensures behind { LawfulFrom after_both (batch_lines 1 2 2) → ⊥ }
    ensures again { LawfulFrom (with_stood after_both (within 2 2 ∷ []) 0) (batch_lines 2 2 2) → ⊥ }
    ensures rest { LawfulFrom (with_stood after_both (within 2 1 ∷ []) 1) (batch_lines 2 2 1) }
    ensures rest_more { LawfulFrom (with_stood after_both (within 2 1 ∷ []) 1) (batch_lines 2 2 2) → ⊥ }
    ensures twice { LawfulFrom after_both (batch_lines 2 1 1 ++ batch_lines 2 2 1) → ⊥ }
    ensures in_front { LawfulFrom after_both (event.Batch 1 0 2 2 1 1 ∷ []) → ⊥ }
    ensures undone { LawfulFrom (with_written after_both (Written 1) (within 2 1 ∷ []) 0) (batch_lines 2 2 1) → ⊥ }
{}

/// A batch is taken with as many changes as its line tells, of the vBucket that the line names, or
/// there is none. One that was taken is written down, and then counts as saved up to its end, unless
/// more does already, and is not on its way any more; the numbers that are shown are these, the last
/// seqno, at least one cursor, the flusher's, and no more spans than changes.
pub fn judged_saves()
    ensures taken { LawfulAnswer after_both (verb.AtVb 1 0 vb_verb.Take) (batch_lines 2 2 2) (answer.Number 2) }
    ensures taken_other { LawfulAnswer after_both (verb.AtVb 1 0 vb_verb.Take) (batch_lines 2 2 2) (answer.Number 1) → ⊥ }
    ensures taken_elsewhere { LawfulAnswer after_both (verb.AtVb 2 0 vb_verb.Take) (batch_lines 2 2 2) (answer.Number 2) → ⊥ }
    ensures none { LawfulAnswer (with_stood after_both (within 2 2 ∷ []) 2) (verb.AtVb 1 0 vb_verb.Take) [] (answer.Number 0) }
    ensures untold { LawfulAnswer after_both (verb.AtVb 1 0 vb_verb.Take) [] (answer.Number 2) → ⊥ }
    ensures refused { LawfulAnswer after_both (verb.AtVb 1 0 vb_verb.Take) [] (answer.No cause.BatchOut) }
    ensures refused_told { LawfulAnswer after_both (verb.AtVb 1 0 vb_verb.Take) (batch_lines 2 2 2) (answer.No cause.BatchOut) → ⊥ }
    ensures saved { LawfulAnswer (with_written after_both (taken 2 2) [] 0) (verb.AtVb 1 0 vb_verb.Save) [] answer.Ok }
    ensures untaken { LawfulAnswer after_both (verb.AtVb 1 0 vb_verb.Save) [] answer.Ok → ⊥ }
    ensures twice { LawfulAnswer (with_written after_both (Written 2) (within 2 2 ∷ []) 0) (verb.AtVb 1 0 vb_verb.Save) [] answer.Ok → ⊥ }
    ensures done { LawfulAnswer (with_written after_both (Written 2) (within 2 2 ∷ []) 0) (verb.AtVb 1 0 vb_verb.Done) [] (answer.Number 2) }
    ensures falls { LawfulAnswer (with_written after_both (Written 2) (within 2 2 ∷ []) 1) (verb.AtVb 1 0 vb_verb.Done) [] (answer.Number 1) → ⊥ }
    ensures less { LawfulAnswer (with_written after_both (Written 1) (within 2 1 ∷ []) 2) (verb.AtVb 1 0 vb_verb.Done) [] (answer.Number 1) → ⊥ }
    ensures early { LawfulAnswer (with_written after_both (taken 2 2) [] 0) (verb.AtVb 1 0 vb_verb.Done) [] (answer.Number 2) → ⊥ }
    ensures stands { (after_group (with_written after_both (taken 2 2) [] 0) (verb.AtVb 1 0 vb_verb.Save) [] answer.Ok).disk_at 1 0 ≡ (with_written after_both (Written 2) (within 2 2 ∷ []) 0).disk_at 1 0 }
    ensures counts { (after_group (with_written after_both (Written 2) (within 2 2 ∷ []) 0) (verb.AtVb 1 0 vb_verb.Done) [] (answer.Number 2)).disk_at 1 0 ≡ (with_stood after_both (within 2 2 ∷ []) 2).disk_at 1 0 }
    ensures numbers { LawfulFrom (with_stood after_both (within 2 2 ∷ []) 2) (stat_lines 1 2 2) }
    ensures more_saved { LawfulFrom (with_stood after_both (within 2 2 ∷ []) 1) (stat_lines 1 2 2) → ⊥ }
    ensures other_last { LawfulFrom (with_stood after_both (within 2 2 ∷ []) 2) (stat_lines 1 2 3) → ⊥ }
    ensures no_cursor { LawfulFrom (with_stood after_both (within 2 2 ∷ []) 2) (stat_lines 0 2 2) → ⊥ }
    ensures empty_span { LawfulFrom (with_stood after_both (within 2 2 ∷ []) 2) (event.Stat 1 0 3 2 1 2 2 ∷ []) → ⊥ }
{}

/// A stream ends behind a whole snapshot, not inside one, and nothing of it comes behind its end, no
/// second end either, nor behind the end of its link, even where a link of that number is dialed anew.
/// A stream that was asked for with no end does not end as if it had reached one. A link ends once.
pub fn judged_ends()
    ensures ends { LawfulFrom (granted_inside 2) (rest_lines ++ stream_end_lines) }
    ensures inside { LawfulFrom (granted_inside 2) (marker_line 0 2 ∷ stream_end_lines) → ⊥ }
    ensures behind { LawfulFrom (granted_inside 2) (stream_end_lines ++ marker_line 0 2 ∷ []) → ⊥ }
    ensures twice { LawfulFrom (granted_inside 2) (stream_end_lines ++ stream_end_lines) → ⊥ }
    ensures reason { LawfulFrom (granted_inside 2) done_lines → ⊥ }
    ensures over { LawfulFrom (granted_inside 2) (link_over ++ marker_line 0 2 ∷ []) → ⊥ }
    ensures ended { LawfulFrom (granted_inside 2) link_over }
    ensures ended_twice { LawfulFrom (granted_inside 2) (link_over ++ link_over) → ⊥ }
    ensures anew { LawfulFrom (dialed_anew (granted_inside 2)) (marker_line 0 2 ∷ []) → ⊥ }
{}

/// A vBucket's failover log is the one that the lines tell. A role that a vBucket has is not told
/// again, a vBucket that is not active makes no change, it is shown in no other role, and one that was
/// not made is not shown. Where role and log are not known any more, each of these is lawful.
pub fn judged_roles()
    ensures log { LawfulFrom (made_from 5) (log_lines made_log) }
    ensures other { LawfulFrom (made_from 5) (log_lines (log_of 5)) → ⊥ }
    ensures same { LawfulFrom after_active (event.Role 0 0 role.Active ∷ []) → ⊥ }
    ensures resting { LawfulFrom after_dead (change_line 0 ∷ []) → ⊥ }
    ensures shown { LawfulFrom after_dead (empty_shown role.Replica) → ⊥ }
    ensures unmade { LawfulFrom empty_chronicle (empty_shown role.Replica) → ⊥ }
    ensures any_log { LawfulFrom forgotten (log_lines (log_of 6)) }
    ensures any_role { LawfulFrom forgotten (event.Role 0 0 role.Dead ∷ []) }
    ensures any_change { LawfulFrom forgotten (change_line 0 ∷ []) }
    ensures any_shown { LawfulFrom forgotten (empty_shown role.Replica) }
{}

/// A role and a log that a line told are known from there on. Not lawful are a replica that answers by
/// another log than the one that it took over, one that has more of that log than it kept as it went
/// back, one that was not made and has a log, and a vBucket that turns dead twice, changes its branch
/// or is shown as active while it follows, or is shown as dead after it was made active again.
pub fn judged_known()
    ensures adopted { LawfulFrom after_both (refused_ask_lines (log_of 6)) → ⊥ }
    ensures kept { LawfulFrom after_back (taken_log (log_of 5)) }
    ensures cut { LawfulFrom after_back (taken_log made_log) → ⊥ }
    ensures unmade { LawfulFrom empty_chronicle (log_lines (log_of 5)) → ⊥ }
    ensures dead_again { LawfulFrom after_dead (event.Role 0 0 role.Dead ∷ []) → ⊥ }
    ensures changes { LawfulFrom after_follow (change_line 0 ∷ []) → ⊥ }
    ensures active { LawfulFrom after_follow (empty_shown role.Active) → ⊥ }
    ensures dead { LawfulFrom after_promote (empty_shown role.Dead) → ⊥ }
{}

/// Inside a snapshot a vBucket is shown in its role, at its last change, with its snapshot and with what
/// its changes leave. Not lawful are another role, another seqno, another snapshot, another value, no
/// document, another count of documents, and another branch than its log's newest, or none. One that
/// becomes active there is at the end of what it holds, and is not shown inside the snapshot any more.
pub fn judged_shows()
    ensures right { LawfulFrom inside_got (inside_shown role.Replica 1 2 1 (value_lines (8 ∷ []))) }
    ensures dead { LawfulFrom inside_dead (inside_shown role.Dead 1 2 1 (value_lines (8 ∷ []))) }
    ensures role { LawfulFrom inside_dead (inside_shown role.Replica 1 2 1 (value_lines (8 ∷ []))) → ⊥ }
    ensures seqno { LawfulFrom inside_got (inside_shown role.Replica 0 2 1 (value_lines (8 ∷ []))) → ⊥ }
    ensures snapshot { LawfulFrom inside_got (inside_shown role.Replica 1 3 1 (value_lines (8 ∷ []))) → ⊥ }
    ensures value { LawfulFrom inside_got (inside_shown role.Replica 1 2 1 (value_lines (9 ∷ []))) → ⊥ }
    ensures missing { LawfulFrom inside_got (inside_shown role.Replica 1 2 1 []) → ⊥ }
    ensures count { LawfulFrom inside_got (inside_shown role.Replica 1 2 2 (value_lines (8 ∷ []))) → ⊥ }
    ensures newest { LawfulFrom inside_got (inside_newest 5) }
    ensures other { LawfulFrom inside_got (inside_newest 6) → ⊥ }
    ensures none { LawfulFrom inside_got (inside_newest 0) → ⊥ }
    ensures risen { LawfulFrom inside_active (active_shown 1 1) }
    ensures risen_inside { LawfulFrom inside_active (active_shown 0 2) → ⊥ }
{}

/// A vBucket that waits for a durable write is shown with that prepare, its seqno and its level. Not
/// lawful are the same without the prepare's line, with another seqno, and with another level.
pub fn judged_prepares()
    ensures right { LawfulFrom after_prepare (prepare_shown (prepare_lines 1 level.Majority)) }
    ensures missing { LawfulFrom after_prepare (prepare_shown []) → ⊥ }
    ensures seqno { LawfulFrom after_prepare (prepare_shown (prepare_lines 2 level.Majority)) → ⊥ }
    ensures other { LawfulFrom after_prepare (prepare_shown (prepare_lines 1 level.PersistMajority)) → ⊥ }
{}

/// A replica that has both changes of a snapshot acknowledges the second one, and inside the snapshot
/// nothing above its start; and one that has a prepare of level 3 acknowledges it once it is written
/// down, and what is below it before; one of level 2 bars nothing. Not lawful are more than it holds, the first change while the second one is to come, a link
/// that was not dialed, one that was dialed for another node, one whose stream was not granted, that
/// prepare before it is written down, or one behind it, another number than counts as saved, a vBucket
/// on another branch than its stream's, and one that lacks a change of that. The active vBucket counts as the replica's what that
/// acknowledged, while its stream goes on. Not lawful are what it did not acknowledge, or another
/// number than it did, another member, the node itself, what was acknowledged before the link was
/// dialed anew, also by another node, more than the vBucket holds, and either behind the stream's
/// end, or where the vBucket is dead or on another branch.
pub fn judged_acknowledgements()
    ensures whole { LawfulFrom after_both (acknowledged_lines 1 2) }
    ensures above { LawfulFrom after_both (acknowledged_lines 1 3) → ⊥ }
    ensures before { LawfulFrom inside_got (acknowledged_lines 1 0) }
    ensures inside { LawfulFrom inside_got (acknowledged_lines 1 1) → ⊥ }
    ensures strange { LawfulFrom after_both (acknowledged_lines 3 2) → ⊥ }
    ensures elsewhere { LawfulFrom after_both (acknowledged_lines 2 2) → ⊥ }
    ensures ungranted { LawfulFrom after_both ungranted_lines → ⊥ }
    ensures saved { LawfulFrom third_saved (acknowledged_saved 1 2 2) }
    ensures unsaved { LawfulFrom third_held (acknowledged_lines 1 2) → ⊥ }
    ensures unsaved_below { LawfulFrom third_below (acknowledged_lines 1 3) → ⊥ }
    ensures below_the_unsaved { LawfulFrom third_held (acknowledged_lines 1 1) }
    ensures second { LawfulFrom second_held (acknowledged_lines 1 2) }
    ensures missaid { LawfulFrom third_saved (acknowledged_saved 1 2 3) → ⊥ }
    ensures astray { LawfulFrom on_another (acknowledged_lines 1 2) → ⊥ }
    ensures lost { LawfulFrom first_lost (acknowledged_lines 1 2) → ⊥ }
    ensures counted { LawfulFrom after_both (acknowledged_lines 1 2 ++ counted_lines 1 2) }
    ensures unwritten { LawfulFrom after_both (counted_lines 1 2) → ⊥ }
    ensures number { LawfulFrom after_both (acknowledged_lines 1 2 ++ counted_lines 1 1) → ⊥ }
    ensures member { LawfulFrom after_both (acknowledged_lines 1 2 ++ counted_lines 2 2) → ⊥ }
    ensures itself { LawfulFrom dialed_itself (counted_lines 0 2) → ⊥ }
    ensures redialed { LawfulFrom dialed_by_another (counted_lines 2 2) → ⊥ }
    ensures granted_anew { LawfulFrom granted_anew (counted_lines 1 2) → ⊥ }
    ensures more { LawfulFrom (after_ack 3) (counted_lines 1 3) → ⊥ }
    ensures over { LawfulFrom after_both (acknowledged_lines 1 2 ++ stream_end_lines ++ counted_lines 1 2) → ⊥ }
    ensures dead { LawfulFrom (after_both_dead after_both) (acknowledged_lines 1 2 ++ counted_lines 1 2) → ⊥ }
    ensures branched { LawfulFrom after_both (acknowledged_lines 1 2 ++ new_branch_lines ++ counted_lines 1 2) → ⊥ }
{}

/// A line that moves bytes is answered by how many it moved, and no more than were asked for. A line
/// that has a producer put frames is answered by as many as its group tells of, and by `all` exactly
/// where these are as many as were asked for. A line that counts nothing is answered by no number.
pub fn judged_answers()
    ensures moved { LawfulAnswer empty_chronicle (verb.AtLink 1 (link_verb.Up 10)) [] (answer.Number 10) }
    ensures beyond { LawfulAnswer empty_chronicle (verb.AtLink 1 (link_verb.Up 10)) [] (answer.Number 11) → ⊥ }
    ensures beyond_down { LawfulAnswer empty_chronicle (verb.AtLink 1 (link_verb.Down 10)) [] (answer.Number 11) → ⊥ }
    ensures uncounted { LawfulAnswer empty_chronicle (verb.AtLink 1 (link_verb.Up 10)) [] answer.Ok → ⊥ }
    ensures pumped { LawfulAnswer empty_chronicle (verb.AtLink 1 (link_verb.Pump 9)) both_sent_lines (answer.Pulled 3 why.Idle) }
    ensures all { LawfulAnswer empty_chronicle (verb.AtLink 1 (link_verb.Pump 3)) both_sent_lines (answer.Pulled 3 why.All) }
    ensures full { LawfulAnswer empty_chronicle (verb.AtLink 1 (link_verb.Pump 9)) both_sent_lines (answer.Pulled 3 why.Full) }
    ensures full_at_once { (wanted : ℕ) → 0 < wanted → LawfulAnswer empty_chronicle (verb.AtLink 1 (link_verb.Pump wanted)) [] (answer.Pulled 0 why.Full) }
    ensures fewer { LawfulAnswer empty_chronicle (verb.AtLink 1 (link_verb.Pump 9)) both_sent_lines (answer.Pulled 2 why.Idle) → ⊥ }
    ensures full_fewer { LawfulAnswer empty_chronicle (verb.AtLink 1 (link_verb.Pump 9)) both_sent_lines (answer.Pulled 2 why.Full) → ⊥ }
    ensures full_more { LawfulAnswer empty_chronicle (verb.AtLink 1 (link_verb.Pump 9)) both_sent_lines (answer.Pulled 4 why.Full) → ⊥ }
    ensures not_full { LawfulAnswer empty_chronicle (verb.AtLink 1 (link_verb.Pump 3)) both_sent_lines (answer.Pulled 3 why.Full) → ⊥ }
    ensures not_all { LawfulAnswer empty_chronicle (verb.AtLink 1 (link_verb.Pump 9)) both_sent_lines (answer.Pulled 3 why.All) → ⊥ }
    ensures not_idle { LawfulAnswer empty_chronicle (verb.AtLink 1 (link_verb.Pump 3)) both_sent_lines (answer.Pulled 3 why.Idle) → ⊥ }
    ensures excess { LawfulAnswer empty_chronicle (verb.AtLink 1 (link_verb.Pump 2)) both_sent_lines (answer.Pulled 3 why.All) → ⊥ }
    ensures counted { LawfulAnswer empty_chronicle (verb.AtVb 0 0 (vb_verb.Promote 7)) [] (answer.Number 0) → ⊥ }
{}

/// A dead vBucket is promoted, and its group has its branch and its role; or that is refused, for a
/// cause which says where it stands, and its group tells of nothing. Not lawful are the same lines in
/// the group of a line that is refused so, and a group with the number of another line.
pub fn judged_groups()
    ensures promoted { LawfulGroups after_dead promotes_dead (promoted_groups 1 risen_lines answer.Ok) }
    ensures refused { LawfulGroups after_dead promotes_dead (promoted_groups 1 [] (answer.No cause.WrongRole)) }
    ensures refused_told { LawfulGroups after_dead promotes_dead (promoted_groups 1 risen_lines (answer.No cause.WrongRole)) → ⊥ }
    ensures another { LawfulGroups after_dead promotes_dead (promoted_groups 2 risen_lines answer.Ok) → ⊥ }
{}

/// A vBucket that changed is sealed, and then again without a change. It is not sealed anew behind
/// a role, and a replica not before it took a change in its snapshot, and then it is.
pub fn judged_seals()
    ensures twice { Lawful set_and_sealed (sealed_groups 1 0) }
    ensures not_once { Lawful set_and_sealed (sealed_groups 0 0) → ⊥ }
    ensures not_twice { Lawful set_and_sealed (sealed_groups 1 1) → ⊥ }
    ensures more { Lawful set_and_sealed (sealed_groups 2 0) → ⊥ }
    ensures role { LawfulAnswer after_dead_changed (verb.AtVb 0 0 vb_verb.Seal) [] (answer.Number 0) }
    ensures not_role { LawfulAnswer after_dead_changed (verb.AtVb 0 0 vb_verb.Seal) [] (answer.Number 1) → ⊥ }
    ensures marker { LawfulAnswer (after_lines (sent_known both_sent_lines) (range_lines 0 0 2)) (verb.AtVb 1 0 vb_verb.Seal) [] (answer.Number 0) }
    ensures taken { LawfulAnswer after_both (verb.AtVb 1 0 vb_verb.Seal) [] (answer.Number 1) }
    ensures not_taken { LawfulAnswer after_both (verb.AtVb 1 0 vb_verb.Seal) [] (answer.Number 0) → ⊥ }
    ensures back { LawfulAnswer (after_lines after_both (rolled_lines 1 0)) (verb.AtVb 1 0 vb_verb.Seal) [] (answer.Number 0) }
{}

/// A replica without its branch's one change follows the branch inside a snapshot of that change, and
/// not with the complete one, nor with a change of which no line tells. Once it got the change it
/// follows the branch with what the change leaves, also where it does not hold the change itself, and
/// not with the log of a branch that lacks the change, even where its log is not known any more. No
/// branch has two active vBuckets, and none was made from it above the last seqno of its active one.
/// Nor follows a vBucket whose last CAS has more than 64 bits, or at which a prepare waits that its
/// node alone commits, also where the lines alone tell of no other node; with another one in its chain
/// it does. Each connection is told as one of its own node.
pub fn judged_followers()
    ensures inside { FollowsBranch after_adopted 1 0 (empty_in 0 1) }
    ensures lacking { FollowsBranch after_adopted 1 0 (empty_in 1 1) → ⊥ }
    ensures untold { FollowsBranch after_adopted 1 0 changed_in → ⊥ }
    ensures left { FollowsBranch after_got 1 0 based }
    ensures unlogged { FollowsBranch log_forgotten 1 0 based }
    ensures stranger { FollowsBranch log_forgotten 1 0 strange → ⊥ }
    ensures two { AreFollowed both_on_one all_active → ⊥ }
    ensures above { AreFollowed (forked_at 1) all_active → ⊥ }
    ensures unbounded { FollowsBranch after_got 1 0 unbounded → ⊥ }
    ensures waits { FollowsBranch (chained_known after_prepare (Some 1 ∷ [])) 0 0 (prepared_in (Some 1 ∷ [])) }
    ensures unchained { FollowsBranch after_prepare 0 0 (prepared_in (Some 1 ∷ [])) → ⊥ }
    ensures uncommitted { FollowsBranch after_prepare 0 0 (prepared_in []) → ⊥ }
    ensures own { AreFollowed empty_chronicle (client_world 0) }
    ensures not_own { AreFollowed empty_chronicle (client_world 1) → ⊥ }
{}
