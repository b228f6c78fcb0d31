//! What is lawful where a vBucket goes from one node to another.

ghost use Rattle.std.specs.Prelude.{◌≡◌, ◌≤◌, ℕ, true, false, List, [], ◌∷◌, ◌++◌, Option, Some, None};
ghost use Rattle.transcript_law.specs.Chronicles.{Chronicle, after_branch, after_group, alone, crashed_disk, empty_chronicle, resting};
ghost use Rattle.branch_model.specs.Histories.{last_seq};
ghost use Rattle.transcript_law.specs.Followers.{both_got, log_of, marker_line};
ghost use Rattle.transcript_law.specs.Heirs.{IsRisen, IsWriter, LawfulState};
ghost use Rattle.transcript_law.specs.Lawfulness.{Lawful, LawfulChange, LawfulGroup};
ghost use Rattle.transcript_law.specs.LineAnswers.{IsSealed};
ghost use Rattle.transcript_law.specs.LinesTold.{Answered, Obeys, Put};
ghost use Rattle.transcript_law.specs.Prefixes.{known_after};
ghost use Rattle.transcript_law.specs.TakeoverAnswers.{HandsOver};
ghost use Rattle.transcript_law.specs.TakeoverRows.{DownAnswer, DownTells, HasNoted, KnownAs, MayAsk, MayGet, MayHand, MayStand, PumpSays, PumpTells, active_then, answers_at, asked_again, asked_with, commits_at, cut_here, dead_here, ended_with, fallen, finishes, first_got, follows_here, gets, given_elsewhere, given_on, given_up, given_up_early, half_heard, half_put, half_taken, heard, heir_commit, heir_change, journals_under, just_heard, links_end, marked_only, marks_beside, moved, moved_beside, moved_heard, offered, pends, put_active_now, put_to, puts, redialed, rises, rises_failing, states, takes_down, takes_up, third_change, told_active, told_active_beside, told_active_early, told_active_in, told_active_short, told_beside, told_pending, untaken, unwritten, with_third, written_by_another};
ghost use Rattle.transcript_law.specs.Takeovers.{AllFollow, IsPlainFor, NoneDialed, TellsOnly, all_made};
ghost use Rattle.transcript_law.specs.Tellings.{TellsOf};
ghost use Rattle.script_text.specs.declared.verb.ScriptLine.{ScriptLine};
ghost use Rattle.script_text.specs.declared.verb.Verb.{Verb};
ghost use Rattle.script_text.specs.declared.verb.Verb.TheVariants as verb;
ghost use Rattle.script_text.specs.declared.verb.LinkVerb.TheVariants as link_verb;
ghost use Rattle.vb_disk.specs.declared.fuse.Fuse.TheVariants.{Fail, Off};
ghost use Rattle.vb_disk.specs.declared.made.Outcome.{Outcome};
ghost use Rattle.vb_events.specs.declared.event.Answer.{Answer};
ghost use Rattle.vb_events.specs.declared.event.Answer.TheVariants as answer;
ghost use Rattle.vb_events.specs.declared.event.Cause.TheVariants as cause;
ghost use Rattle.vb_events.specs.declared.event.EndReason.TheVariants as reason;
ghost use Rattle.vb_events.specs.declared.event.Event.{Event};
ghost use Rattle.vb_events.specs.declared.event.Event.TheVariants as event;
ghost use Rattle.vb_events.specs.declared.event.Group.{Group};
ghost use Rattle.vb_events.specs.declared.event.Why.TheVariants as why;
ghost use Rattle.vb_types.specs.declared.journal.Record.TheVariants as noted;
ghost use Rattle.vb_types.specs.declared.role.Role.{Role};
ghost use Rattle.vb_types.specs.declared.role.Role.TheVariants as role;

/// Where no link is dialed for a takeover no vBucket is handed over: whatever was read before, each
/// vBucket that a lawful group tells is active makes its branch in the line directly in front, where its
/// node alone is its chain, and nothing was counted yet; a group tells of nothing else than its line may;
/// and no state is put. So it is of every transcript of a script whose links all follow.
pub fn none_is_handed_over()
    ensures made { (chronicle : Chronicle) (line : ScriptLine) (group : Group) → NoneDialed chronicle → LawfulGroup chronicle line group → all_made None group.events ≡ true }
    ensures risen { (chronicle : Chronicle) (n v uuid : ℕ) (parent : Option ℕ) (fork high : ℕ) → IsRisen (after_branch chronicle n v uuid parent fork high) n v }
    ensures tells { (chronicle : Chronicle) (asked : Verb) (lines : List Event) (said : Answer) → IsPlainFor chronicle asked → HandsOver chronicle asked lines said → TellsOf chronicle asked lines }
    ensures stated { (chronicle : Chronicle) (l : ℕ) (role : Role) → NoneDialed chronicle → LawfulState chronicle l role → ⊥ }
    ensures none { (script : List ScriptLine) (groups : List Group) → AllFollow script → NoneDialed (known_after empty_chronicle script groups) }
{}

/// Where all links of a script follow, no vBucket of a lawful transcript is pending behind any front of
/// it: so what a seal answers is judged of each, and a group tells no more, and nothing else, than where
/// there are no takeovers. And whatever is dialed, no record tells that a vBucket was pending: one that is
/// started again is active, a replica or dead, whatever its disk finds of what it was to write down.
pub fn none_is_pending()
    ensures follows { (script : List ScriptLine) (groups : List Group) → AllFollow script → Lawful script groups → (n v : ℕ) → (known_after empty_chronicle script groups).role_at n v ≡ Some (Some role.Pending) → ⊥ }
    ensures rests { (script : List ScriptLine) (groups : List Group) (n v : ℕ) (out : Outcome) → resting (crashed_disk out ((known_after empty_chronicle script groups).disk_at n v)).book ≡ Some role.Pending → ⊥ }
{}

/// A replica is pending where the state pending was put on the takeover's stream that feeds it, and it
/// took all that was put; not where no state was, or the stream is for no takeover, or a change or a marker
/// is untaken, or it is pending already, or dead; where the state was put on another link, or on an earlier
/// one of its number; nor is another vBucket, or the producer's. Pending it is active
/// where the state active was put, and it has all of the branch, at the end of its snapshot; not where
/// pending was the last state, or it is a replica, or a change is missing, or inside a snapshot, or another
/// one writes on the branch, or over a link that was cut, or twice, or as another vBucket.
pub fn judged_heirs()
    ensures pends { MayGet (told_pending true) 1 0 role.Pending }
    ensures pends_unstated { MayGet (put_to true) 1 0 role.Pending → ⊥ }
    ensures pends_following { MayGet (told_pending false) 1 0 role.Pending → ⊥ }
    ensures pends_untaken { MayGet half_taken 1 0 role.Pending → ⊥ }
    ensures pends_unmarked { MayGet marked_only 1 0 role.Pending → ⊥ }
    ensures pends_beside { MayGet told_beside 1 0 role.Pending → ⊥ }
    ensures pends_redialed { MayGet redialed 1 0 role.Pending → ⊥ }
    ensures pends_fallen { MayGet fallen 1 0 role.Pending → ⊥ }
    ensures pends_again { MayGet pends 1 0 role.Pending → ⊥ }
    ensures pends_elsewhere { MayGet (told_pending true) 1 1 role.Pending → ⊥ }
    ensures pends_producer { MayGet (told_pending true) 0 0 role.Pending → ⊥ }
    ensures rises { MayGet told_active 1 0 role.Active }
    ensures rises_unstated { MayGet given_up 1 0 role.Active → ⊥ }
    ensures rises_replica { MayGet (told_pending true) 1 0 role.Active → ⊥ }
    ensures rises_early { MayGet told_active_early 1 0 role.Active → ⊥ }
    ensures rises_written { MayGet written_by_another 1 0 role.Active → ⊥ }
    ensures rises_short { MayGet told_active_short 1 0 role.Active → ⊥ }
    ensures rises_inside { MayGet (told_active_in (0, 3)) 1 0 role.Active → ⊥ }
    ensures rises_cut { MayGet (cut_here told_active) 1 0 role.Active → ⊥ }
    ensures rises_again { MayGet moved 1 0 role.Active → ⊥ }
    ensures rises_elsewhere { MayGet told_active 1 1 role.Active → ⊥ }
    ensures yields { MayGet pends 0 0 role.Dead }
{}

/// The state pending is put on a takeover's stream behind all changes, and none before; not where a
/// change was made since, or the last item is not put, or the stream is for no takeover, or twice. The
/// state active is put once the vBucket was given up over the link; not before, nor where it is dead by a
/// line of the script, nor where a change is still to be sent, or the replica is not pending, nor first,
/// nor twice; nor is either where the vBucket does not write on the branch. No other state is put.
pub fn judged_put_states()
    ensures pending { LawfulState (put_to true) 1 role.Pending }
    ensures pending_following { LawfulState (put_to false) 1 role.Pending → ⊥ }
    ensures pending_unput { LawfulState half_put 1 role.Pending → ⊥ }
    ensures pending_short { LawfulState (with_third (put_to true)) 1 role.Pending → ⊥ }
    ensures pending_again { LawfulState (offered true) 1 role.Pending → ⊥ }
    ensures pending_dead { LawfulState (follows_here (put_to true)) 1 role.Pending → ⊥ }
    ensures active { LawfulState given_up 1 role.Active }
    ensures pending_nobody { LawfulState (unwritten (put_to true)) 1 role.Pending → ⊥ }
    ensures active_unobeyed { LawfulState given_up_early 1 role.Active → ⊥ }
    ensures active_first { LawfulState (put_to true) 1 role.Active → ⊥ }
    ensures active_early { LawfulState heard 1 role.Active → ⊥ }
    ensures active_dead { LawfulState dead_here 1 role.Active → ⊥ }
    ensures active_short { LawfulState (with_third given_up) 1 role.Active → ⊥ }
    ensures active_again { LawfulState told_active 1 role.Active → ⊥ }
    ensures replica { LawfulState (put_to true) 1 role.Replica → ⊥ }
    ensures dead { LawfulState given_up 1 role.Dead → ⊥ }
{}

/// The writer of a branch is its maker, also once that is given up, until the state active was put: then
/// nobody is, until the heir is active. It is in its snapshot at the end of what it holds, its node
/// alone is its chain, and nothing was counted; it makes the next change of the branch, and its maker
/// does not. Other branches keep their writers all the while.
pub fn judged_writers()
    ensures maker { pends.writer_of 5 ≡ Some (0, 0) }
    ensures yielded { given_up.writer_of 5 ≡ Some (0, 0) }
    ensures nobody { told_active.writer_of 5 ≡ None }
    ensures heir { moved.writer_of 5 ≡ Some (1, 0) }
    ensures others { moved.writer_of 6 ≡ None }
    ensures beside { told_active_beside.writer_of 6 ≡ Some (2, 0) }
    ensures beside_heir { moved_beside.writer_of 6 ≡ Some (2, 0) }
    ensures counts { moved.counts_at 1 0 ≡ alone 2 }
    ensures snapshot { moved.snap_at 1 0 ≡ Some (2, 2) }
    ensures heir_writes { IsWriter moved 1 0 5 }
    ensures maker_writes { IsWriter moved 0 0 5 → ⊥ }
    ensures early { LawfulChange told_active 1 0 5 third_change → ⊥ }
    ensures late { LawfulChange given_up 0 0 5 third_change → ⊥ }
    ensures later { LawfulChange moved 0 0 5 third_change → ⊥ }
{}

/// What is known of a link's last state: it was put; its consumer obeyed it, with nothing moved up
/// since; and it was answered, where all was moved up since, and not where as much was as was asked for.
/// The next state begins anew. The vBucket that feeds the link is given up over it by a `pump` alone; by
/// a line of the script, or over another link, it gets another role, until the link's request is granted
/// again; and not once the stream's end was put.
pub fn judged_takeover_notes()
    ensures put { KnownAs (offered true) false 0 Put }
    ensures obeyed { KnownAs pends false 0 Obeys }
    ensures answered { KnownAs heard false 24 Answered }
    ensures half { KnownAs half_heard false 23 Obeys }
    ensures just { KnownAs just_heard false 24 Obeys }
    ensures anew { KnownAs told_active false 0 Put }
    ensures taken_over { KnownAs moved false 0 Obeys }
    ensures turned { KnownAs dead_here true 24 Answered }
    ensures turned_other { KnownAs given_elsewhere true 24 Answered }
    ensures granted { KnownAs asked_again false 48 Answered }
    ensures turned_late { KnownAs (follows_here told_active) true 0 Put }
    ensures over { KnownAs (follows_here (ended_with 0 moved_heard)) false 24 Answered }
{}

/// Where a vBucket takes its branch over, its role and log are written down: that stands where its
/// journal takes it and the node's arm passes it, and by four device calls, which are counted. It is answered so, and as
/// failed, stopped or closed only where it is; and not so where nothing is to be written down. A crash
/// finds it where its append failed in the fourth call, and leaves all.
pub fn judged_handed_notes()
    ensures stands { HasNoted Off rises (answer.Number 25) (noted.State role.Active (log_of 5) ∷ []) }
    ensures breaks { HasNoted (Fail 1) rises_failing (answer.No cause.Disk) [] }
    ensures counted { ((after_group (journals_under false (Fail 5) told_active) takes_down rises (answer.Number 25)).arm_at 1).fuse ≡ Fail 1 }
    ensures none { HasNoted Off [] (answer.Number 25) [] }
    ensures answered { DownAnswer false Off rises (answer.Number 25) }
    ensures passes { DownAnswer false (Fail 5) rises (answer.Number 25) }
    ensures hit { (k : ℕ) → k ≤ 4 → DownAnswer false (Fail k) rises (answer.Number 25) → ⊥ }
    ensures shut { DownAnswer true Off rises (answer.Number 25) → ⊥ }
    ensures failed { DownAnswer false (Fail 1) rises_failing (answer.No cause.Disk) }
    ensures closed { DownAnswer true Off rises (answer.No cause.Closed) }
    ensures unowed { DownAnswer true Off [] (answer.No cause.Closed) → ⊥ }
    ensures beside { DownAnswer false Off (event.Rolled 1 0 1 0 ∷ rises) (answer.Number 25) → ⊥ }
{}

/// The group of a `pump` begins, where the state pending can have been answered, as the vBucket that
/// feeds its link is given up; behind that stand answers to clients of its node, and then frames of the
/// stream. Not so where no state was put, the replica is not pending or did not take all, too few bytes
/// were moved up, or the vBucket does not write on the branch, nor of the other end, behind a frame, with an answer at another node, or in another role. By a `down` the
/// vBucket that its link was dialed for is pending, behind what it took; or it is active, with commits of
/// its own behind; no other one is, nor does a set, a change that it took, or a new branch stand there. No
/// other line of a link hands a vBucket over.
pub fn judged_moves()
    ensures gives_up { PumpTells heard (gets 0 0 role.Dead ∷ answers_at 0 ∷ marker_line 2 4 ∷ []) }
    ensures gives_up_unstated { PumpTells (put_to true) (gets 0 0 role.Dead ∷ []) → ⊥ }
    ensures gives_up_unobeyed { PumpTells (offered true) (gets 0 0 role.Dead ∷ []) → ⊥ }
    ensures gives_up_unheard { PumpTells pends (gets 0 0 role.Dead ∷ []) → ⊥ }
    ensures gives_up_half { PumpTells half_heard (gets 0 0 role.Dead ∷ []) → ⊥ }
    ensures gives_up_untaken { PumpTells untaken (gets 0 0 role.Dead ∷ []) → ⊥ }
    ensures gives_up_nobody { PumpTells (unwritten heard) (gets 0 0 role.Dead ∷ []) → ⊥ }
    ensures gives_up_other { PumpTells heard (gets 1 0 role.Dead ∷ []) → ⊥ }
    ensures gives_up_late { PumpTells heard (marker_line 2 4 ∷ gets 0 0 role.Dead ∷ []) → ⊥ }
    ensures gives_up_elsewhere { PumpTells heard (gets 0 0 role.Dead ∷ answers_at 1 ∷ []) → ⊥ }
    ensures gives_up_again { PumpTells given_up (gets 0 0 role.Dead ∷ []) → ⊥ }
    ensures gives_up_twice { PumpTells active_then (gets 0 0 role.Dead ∷ []) → ⊥ }
    ensures gives_up_beside { PumpTells heard (gets 0 0 role.Dead ∷ marks_beside ∷ []) → ⊥ }
    ensures gives_up_in { PumpTells heard (gets 0 0 role.Replica ∷ []) → ⊥ }
    ensures answers_alone { PumpTells heard (answers_at 0 ∷ []) → ⊥ }
    ensures pends { DownTells (offered true) (both_got ++ gets 1 0 role.Pending ∷ []) }
    ensures pends_other { DownTells (offered true) (gets 0 0 role.Pending ∷ []) → ⊥ }
    ensures pends_unstated { DownTells (put_to true) (both_got ++ gets 1 0 role.Pending ∷ []) → ⊥ }
    ensures pends_untaken { DownTells (offered true) (first_got ++ gets 1 0 role.Pending ∷ []) → ⊥ }
    ensures pends_taking { DownTells (offered true) (both_got ++ gets 1 0 role.Pending ∷ first_got) → ⊥ }
    ensures rises { DownTells told_active (gets 1 0 role.Active ∷ heir_commit ∷ []) }
    ensures rises_failing { DownTells told_active rises_failing }
    ensures rises_other { DownTells told_active (gets 0 0 role.Active ∷ []) → ⊥ }
    ensures rises_early { DownTells given_up (gets 1 0 role.Active ∷ []) → ⊥ }
    ensures rises_committing { DownTells told_active (gets 1 0 role.Active ∷ commits_at 0 0 ∷ []) → ⊥ }
    ensures rises_beside { DownTells told_active (gets 1 0 role.Active ∷ commits_at 1 1 ∷ []) → ⊥ }
    ensures rises_setting { DownTells told_active (gets 1 0 role.Active ∷ heir_change ∷ []) → ⊥ }
    ensures rises_taking { DownTells told_active (gets 1 0 role.Active ∷ first_got) → ⊥ }
    ensures rises_making { DownTells told_active (event.Branch 1 0 7 (Some 5) 2 2 ∷ gets 1 0 role.Active ∷ []) → ⊥ }
    ensures up { TellsOnly heard (takes_up 9) (gets 0 0 role.Dead ∷ []) → ⊥ }
    ensures cut { TellsOnly told_active (verb.AtLink 1 link_verb.Cut) (gets 1 0 role.Active ∷ []) → ⊥ }
    ensures plain { PumpTells (offered false) (gets 0 0 role.Dead ∷ []) → ⊥ }
{}

/// On a takeover's stream a marker stands before the state pending, and behind the vBucket was given up;
/// not while that is to be answered, nor behind the state active, nor once it got another role. The
/// stream ends with 0 once the heir was active and its answer can have come, also where it was given up in
/// turn by then; not in the `pump` that puts the state active, and not with 2; with 2 once the vBucket got
/// another role, and not with 0. Its link is done behind the one, and over for a change of role behind the
/// other, and neither before. Its request has the flag, and no other link's has it.
pub fn judged_takeover_lines()
    ensures marked { MayStand (put_to true) (marker_line 2 3) }
    ensures marked_offered { MayStand (offered true) (marker_line 2 3) → ⊥ }
    ensures marked_rest { MayStand given_up (marker_line 2 3) }
    ensures marked_late { MayStand told_active (marker_line 2 3) → ⊥ }
    ensures marked_turned { MayStand dead_here (marker_line 2 3) → ⊥ }
    ensures ended { MayStand moved_heard (finishes 0) }
    ensures ended_given_on { MayStand (given_on moved_heard) (finishes 0) }
    ensures ended_early { MayStand told_active (finishes 0) → ⊥ }
    ensures ended_at_once { MayStand put_active_now (finishes 0) → ⊥ }
    ensures ended_unheard { MayStand moved (finishes 0) → ⊥ }
    ensures ended_changed { MayStand moved_heard (finishes 2) → ⊥ }
    ensures ended_turned { MayStand (follows_here moved_heard) (finishes 2) }
    ensures ended_turned_so { MayStand (follows_here moved_heard) (finishes 0) → ⊥ }
    ensures done { MayStand (ended_with 0 moved_heard) (links_end reason.Done) }
    ensures done_early { MayStand moved_heard (links_end reason.Done) → ⊥ }
    ensures done_changed { MayStand (ended_with 0 moved_heard) (links_end reason.State) → ⊥ }
    ensures done_later { MayStand (follows_here (ended_with 0 moved_heard)) (links_end reason.Done) }
    ensures over { MayStand (ended_with 2 (follows_here moved_heard)) (links_end reason.State) }
    ensures over_done { MayStand (ended_with 2 (follows_here moved_heard)) (links_end reason.Done) → ⊥ }
    ensures asked { MayStand (put_to true) (asked_with 1) }
    ensures asked_plain { MayStand (put_to true) (asked_with 0) → ⊥ }
    ensures flag { MayAsk (put_to true) 1 }
    ensures flag_following { MayAsk (put_to false) 1 → ⊥ }
    ensures no_flag { MayAsk (put_to false) 0 }
{}

/// A `pump` waits for a state behind one that it put, and as long as its answer is not known to have come;
/// not where none was put, nor once it was answered, nor of a link that is for no takeover. It is not
/// idle then, nor waits for what is to be saved. One by which a vBucket was given up puts a frame.
pub fn judged_awaited_states()
    ensures puts_pending { PumpSays (put_to true) (states role.Pending ∷ []) 1 why.WaitState }
    ensures waits { PumpSays (offered true) [] 0 why.WaitState }
    ensures waits_on { PumpSays pends [] 0 why.WaitState }
    ensures waits_half { PumpSays half_heard [] 0 why.WaitState }
    ensures waits_heard { PumpSays heard [] 0 why.WaitState → ⊥ }
    ensures waits_unstated { PumpSays (put_to true) [] 0 why.WaitState → ⊥ }
    ensures waits_turned { PumpSays dead_here [] 0 why.WaitState → ⊥ }
    ensures puts_active { PumpSays heard (gets 0 0 role.Dead ∷ states role.Active ∷ []) 1 why.WaitState }
    ensures gives_up_alone { PumpSays heard (gets 0 0 role.Dead ∷ []) 0 why.Full → ⊥ }
    ensures idle { PumpSays (offered true) [] 0 why.Idle → ⊥ }
    ensures idle_unstated { PumpSays (put_to true) [] 0 why.Idle → ⊥ }
    ensures saves { PumpSays (offered true) [] 0 why.WaitSaved → ⊥ }
    ensures ends_idle { PumpSays moved_heard (finishes 0 ∷ []) 1 why.Idle }
{}

/// The whole of a takeover, group by group: the state pending is put, and obeyed; the vBucket is given up
/// and the state active put; it is taken over; and the end is put, and taken.
pub fn judged_handovers()
    ensures offers { MayHand (put_to true) puts (states role.Pending ∷ []) (answer.Pulled 1 why.WaitState) }
    ensures obeys { MayHand (offered true) takes_down (both_got ++ gets 1 0 role.Pending ∷ []) (answer.Number 183) }
    ensures answers { MayHand pends (takes_up 99) [] (answer.Number 24) }
    ensures yields { MayHand heard puts (gets 0 0 role.Dead ∷ states role.Active ∷ []) (answer.Pulled 1 why.WaitState) }
    ensures rises { MayHand told_active takes_down (gets 1 0 role.Active ∷ []) (answer.Number 25) }
    ensures ends { MayHand moved_heard puts (finishes 0 ∷ []) (answer.Pulled 1 why.Idle) }
    ensures over { MayHand (ended_with 0 moved_heard) takes_down (links_end reason.Done ∷ []) (answer.Number 28) }
{}

/// Of a vBucket that is pending it is not known whether it was sealed since it changed; of any other it
/// is, and of one that did not change.
pub fn judged_pending_seals()
    ensures sealed { IsSealed (Some (Some role.Pending)) true (answer.Number 0) }
    ensures changed { IsSealed (Some (Some role.Pending)) true (answer.Number 1) }
    ensures unchanged { IsSealed (Some (Some role.Pending)) false (answer.Number 1) → ⊥ }
    ensures two { IsSealed (Some (Some role.Pending)) true (answer.Number 2) → ⊥ }
    ensures active { IsSealed (Some (Some role.Active)) true (answer.Number 0) → ⊥ }
    ensures replica { IsSealed (Some (Some role.Replica)) false (answer.Number 1) → ⊥ }
{}
