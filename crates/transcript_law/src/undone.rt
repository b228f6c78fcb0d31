//! Of what no line may leave undone.

ghost use Rattle.std.specs.Prelude.{ℕ, ◌≤◌, true, false, [], ◌∷◌};
ghost use Rattle.transcript_law.specs.BoundRows.{LawfulHere};
ghost use Rattle.transcript_law.specs.Chronicles.{after_dial, empty_chronicle};
ghost use Rattle.vb_types.specs.declared.change.Level.TheVariants as level;
ghost use Rattle.transcript_law.specs.Contrary.{after_both_dead};
ghost use Rattle.transcript_law.specs.Followers.{adopted_lines, after_both, both_sent_lines, granted_inside};
ghost use Rattle.transcript_law.specs.UndoneRows.{DownLeavesNone, LawfulPump, LawfulTake, acknowledged_too, back_at_one, both_unread, change_got, end_unread, granted_both, half_unread, is_shut, journal_so, lost, next_marker, prepare_got, prepare_held, prepare_marked, prepare_saved, prepare_sent, puts_end, puts_first, puts_half, puts_none, regot, stands_to, takes_none, takes_to, unread_now};
ghost use Rattle.script_text.specs.declared.verb.Verb.TheVariants as verb;
ghost use Rattle.script_text.specs.declared.verb.VbVerb.TheVariants as vb_verb;
ghost use Rattle.vb_events.specs.declared.event.Answer.TheVariants as answer;
ghost use Rattle.vb_events.specs.declared.event.Cause.TheVariants as cause;
ghost use Rattle.vb_events.specs.declared.event.Why.TheVariants as why;

/// A replica that holds two changes takes none where both were taken, or where the line is refused. It is
/// not lawful where both are left, nor where one is; one that went back, and has the second again, has it
/// to take. One that holds no change has none to take.
pub fn judged_takes()
    ensures both_left { LawfulTake after_both takes_none → ⊥ }
    ensures both_taken { LawfulTake after_both (takes_to 2 2) }
    ensures one_left { LawfulTake (stands_to 1) takes_none → ⊥ }
    ensures one_taken { LawfulTake (stands_to 1) (takes_to 2 1) }
    ensures none_left { LawfulTake (stands_to 2) takes_none }
    ensures refused { LawfulTake after_both ([], answer.No cause.BatchOut) }
    ensures went_back { LawfulTake back_at_one takes_none }
    ensures left_again { LawfulTake regot takes_none → ⊥ }
    ensures blank { LawfulHere after_both (verb.AtVb 2 0 vb_verb.Take) takes_none }
{}

/// A batch that could not be appended is gone, and its changes are taken all the same: behind one of both
/// there is none to take, and none of them is taken again; behind one of the first the second is left.
pub fn judged_lost_batches()
    ensures none_left { LawfulTake (lost 2) takes_none }
    ensures again { (at count : ℕ) → LawfulTake (lost 2) (takes_to at count) → at ≤ 2 → ⊥ }
    ensures one_left { LawfulTake (lost 1) takes_none → ⊥ }
    ensures one_taken { LawfulTake (lost 1) (takes_to 2 1) }
    ensures first_again { LawfulTake (lost 1) (takes_to 2 2) → ⊥ }
{}

/// A pump is idle where both changes of the vBucket were put, now or before, and over a link that has no
/// stream. It is not where neither was, where one is left of the snapshot that was begun, or one behind
/// it; nor where the vBucket is dead and the stream's end was not put. Behind a request from inside a
/// snapshot up to 3 the vBucket has to reach that first, and behind one up to 2 it does.
pub fn judged_idle_pumps()
    ensures all_put { LawfulPump granted_both (both_sent_lines, answer.Pulled 3 why.Idle) }
    ensures put_before { LawfulPump after_both puts_none }
    ensures none_put { LawfulPump granted_both puts_none → ⊥ }
    ensures half_put { LawfulPump granted_both puts_half → ⊥ }
    ensures first_put { LawfulPump granted_both puts_first → ⊥ }
    ensures shut { LawfulPump granted_both is_shut }
    ensures ended { LawfulPump (after_both_dead after_both) puts_end }
    ensures unended { LawfulPump (after_both_dead after_both) puts_none → ⊥ }
    ensures no_stream { LawfulPump (after_dial empty_chronicle 1 0 1 0 answer.Ok) puts_none }
    ensures short { LawfulPump (granted_inside 3) puts_none }
    ensures reached { LawfulPump (granted_inside 2) puts_none → ⊥ }
{}

/// A pump ends for a journal where that is closed, and the vBucket counts changes above the stream's place
/// as saved: at once, and behind both changes where a third counts. It is not where the journal is open,
/// where nothing above the place counts as saved, inside a snapshot, behind the stream's end, nor of a
/// link that has no stream.
pub fn judged_unread_pumps()
    ensures unread { LawfulPump (journal_so true 2 granted_both) unread_now }
    ensures behind { LawfulPump (journal_so true 3 granted_both) both_unread }
    ensures opened { LawfulPump (journal_so false 2 granted_both) unread_now → ⊥ }
    ensures unsaved { LawfulPump (journal_so true 0 granted_both) unread_now → ⊥ }
    ensures put { LawfulPump (journal_so true 2 granted_both) both_unread → ⊥ }
    ensures half_put { LawfulPump (journal_so true 3 granted_both) half_unread → ⊥ }
    ensures ended { LawfulPump (journal_so true 3 (after_both_dead after_both)) end_unread → ⊥ }
    ensures no_stream { LawfulPump (journal_so true 2 (after_dial empty_chronicle 1 0 1 0 answer.Ok)) unread_now → ⊥ }
{}

/// A replica that takes a prepare acknowledges it behind that, all up to it. None is due inside the
/// prepare's snapshot, nor of level 3 while it is not saved, nor where the line tells that nothing was
/// taken. One that waits is due behind a log alone, behind the marker alone of a snapshot that begins at
/// it, and behind its change alone; and of level 3 once it is saved.
pub fn judged_dues()
    ensures acknowledged { DownLeavesNone (prepare_sent level.Majority 1) (acknowledged_too level.Majority 1) }
    ensures unacknowledged { DownLeavesNone (prepare_sent level.Majority 1) (prepare_got level.Majority 1) → ⊥ }
    ensures less { DownLeavesNone (prepare_sent level.Majority 1) (acknowledged_too level.Majority 0) → ⊥ }
    ensures inside { DownLeavesNone (prepare_sent level.Majority 2) (prepare_got level.Majority 2) }
    ensures unsaved { DownLeavesNone (prepare_sent level.PersistMajority 1) (prepare_got level.PersistMajority 1) }
    ensures untaken { DownLeavesNone (prepare_held level.Majority) [] }
    ensures log { DownLeavesNone (prepare_held level.Majority) (adopted_lines 5) → ⊥ }
    ensures marker { DownLeavesNone (prepare_held level.Majority) next_marker → ⊥ }
    ensures change { DownLeavesNone (prepare_marked level.Majority) (change_got level.Majority) → ⊥ }
    ensures saved { DownLeavesNone (prepare_saved level.PersistMajority 1) (prepare_got level.PersistMajority 1) → ⊥ }
{}
