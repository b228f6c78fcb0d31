//! Of lines that do not tell what was asked for.

ghost use Rattle.std.specs.Prelude.{ℕ, List, [], ◌∷◌, ◌++◌};
ghost use Rattle.script_text.specs.declared.verb.Verb.TheVariants as verb;
ghost use Rattle.script_text.specs.declared.verb.VbVerb.TheVariants as vb_verb;
ghost use Rattle.script_text.specs.declared.verb.NodeVerb.TheVariants as node_verb;
ghost use Rattle.vb_events.specs.declared.event.Answer.TheVariants as answer;
ghost use Rattle.vb_events.specs.declared.event.Event.{Event};
ghost use Rattle.vb_events.specs.declared.event.Event.TheVariants as event;
ghost use Rattle.vb_events.specs.declared.event.Cause.TheVariants as cause;
ghost use Rattle.transcript_law.specs.Chronicles.{Chronicle};
ghost use Rattle.vb_types.specs.declared.role.Role.TheVariants as role;
ghost use Rattle.vb_types.specs.declared.stream.StreamAsk.{StreamAsk};
ghost use Rattle.transcript_law.specs.Asked.{AreAmong};
ghost use Rattle.transcript_law.specs.AskedRows.{item_of, adopts_by, fails_here, NotDone, NotFailed, NotRefused, NotTaken, acks_at, asks_of, counts_of, finishes, gets_by, here, in_role, logged_here, made_at, marks_of, one_active, pump_one, ranges_at, shown_at, up_one};
ghost use Rattle.transcript_law.specs.BoundRows.{LawfulHere};
ghost use Rattle.transcript_law.specs.Chronicles.{empty_chronicle};
ghost use Rattle.transcript_law.specs.Contrary.{promoted_groups, promotes_dead, risen_lines};
ghost use Rattle.transcript_law.specs.Crashes.{LawfulAfter, crash_under, crash_under_groups, dead_line, ok, restarted};
ghost use Rattle.transcript_law.specs.Followers.{replica_shown, shown_so, two_docs, two_followed};
ghost use Rattle.transcript_law.specs.Lawfulness.{Lawful, LawfulGroups};
ghost use Rattle.transcript_law.specs.Rollbacks.{after_dead};
ghost use Rattle.transcript_law.specs.TellingRows.{MayNotTell, batch_at, changes_here, ends_at, log_at, stat_at, stops_at};
ghost use Rattle.transcript_law.specs.Transcripts.{active_vb_lines};

/// A vBucket is shown by one line of its own, and behind that by what it has: not by that of another
/// one, at its node or elsewhere, by none, by two, or behind another line. So are its numbers and its
/// log. Where any of these is refused, it tells of nothing, whatever the cause.
pub fn judged_told_answers()
    ensures shown { LawfulHere one_active (here vb_verb.Show) (shown_at 0 0 ∷ [], answer.Ok) }
    ensures shown_other { (lines : List Event) → NotDone (here vb_verb.Show) (shown_at 0 1 ∷ lines) }
    ensures shown_elsewhere { (lines : List Event) → NotDone (here vb_verb.Show) (shown_at 1 0 ∷ lines) }
    ensures shown_none { NotDone (here vb_verb.Show) [] }
    ensures shown_twice { NotDone (here vb_verb.Show) (shown_at 0 0 ∷ shown_at 0 0 ∷ []) }
    ensures shown_behind { (lines : List Event) → NotDone (here vb_verb.Show) (changes_here ∷ lines) }
    ensures shown_refused { (first : Event) (lines : List Event) → NotRefused (here vb_verb.Show) (first ∷ lines) }
    ensures stat { LawfulHere one_active (here vb_verb.Stat) (stat_at 0 0 ∷ [], answer.Ok) }
    ensures stat_none { NotDone (here vb_verb.Stat) [] }
    ensures stat_twice { NotDone (here vb_verb.Stat) (stat_at 0 0 ∷ stat_at 0 0 ∷ []) }
    ensures stat_change { NotDone (here vb_verb.Stat) (stat_at 0 0 ∷ changes_here ∷ []) }
    ensures stat_refused { (first : Event) (lines : List Event) → NotRefused (here vb_verb.Stat) (first ∷ lines) }
    ensures log { LawfulHere one_active (here vb_verb.Log) (logged_here ∷ [], answer.Ok) }
    ensures log_none { NotDone (here vb_verb.Log) [] }
    ensures log_twice { NotDone (here vb_verb.Log) (log_at 0 0 ∷ log_at 0 0 ∷ []) }
    ensures log_refused { (first : Event) (lines : List Event) → NotRefused (here vb_verb.Log) (first ∷ lines) }
{}

/// A vBucket that is made active tells of one branch with the id that its line names, and directly
/// behind that of its one role: not with another id, without a role, without a branch, of the role or
/// the branch of another vBucket, of another role, with a line between them, the other way round, or
/// with one more role. So does one that is promoted. One that is made a replica, follows or is dead
/// tells of that role once, and of no branch; also where a disk fails.
pub fn judged_turns()
    ensures made { LawfulHere empty_chronicle (here (vb_verb.MakeActive 5)) (active_vb_lines 0 5, answer.Ok) }
    ensures made_other_id { NotDone (here (vb_verb.MakeActive 5)) (active_vb_lines 0 6) }
    ensures made_no_role { NotDone (here (vb_verb.MakeActive 5)) (made_at 0 0 5 ∷ []) }
    ensures made_no_branch { NotDone (here (vb_verb.MakeActive 5)) (in_role 0 0 role.Active ∷ []) }
    ensures made_none { NotDone (here (vb_verb.MakeActive 5)) [] }
    ensures made_other_vb { NotDone (here (vb_verb.MakeActive 5)) (made_at 0 0 5 ∷ in_role 0 1 role.Active ∷ []) }
    ensures made_elsewhere { NotDone (here (vb_verb.MakeActive 5)) (made_at 1 0 5 ∷ in_role 0 0 role.Active ∷ []) }
    ensures made_other_role { NotDone (here (vb_verb.MakeActive 5)) (made_at 0 0 5 ∷ in_role 0 0 role.Replica ∷ []) }
    ensures made_apart { NotDone (here (vb_verb.MakeActive 5)) (made_at 0 0 5 ∷ ends_at 1 ∷ in_role 0 0 role.Active ∷ []) }
    ensures made_round { NotDone (here (vb_verb.MakeActive 5)) (in_role 0 0 role.Active ∷ made_at 0 0 5 ∷ []) }
    ensures made_twice { NotDone (here (vb_verb.MakeActive 5)) (made_at 0 0 5 ∷ in_role 0 0 role.Active ∷ in_role 0 0 role.Active ∷ []) }
    ensures made_failed { NotFailed (here (vb_verb.MakeActive 5)) [] }
    ensures promoted { LawfulGroups after_dead promotes_dead (promoted_groups 1 risen_lines answer.Ok) }
    ensures promoted_no_branch { NotDone (here (vb_verb.Promote 7)) (in_role 0 0 role.Active ∷ []) }
    ensures promoted_other_id { NotDone (here (vb_verb.Promote 7)) (made_at 0 0 6 ∷ in_role 0 0 role.Active ∷ []) }
    ensures promoted_round { NotDone (here (vb_verb.Promote 7)) (in_role 0 0 role.Active ∷ made_at 0 0 7 ∷ []) }
    ensures promoted_failed { NotFailed (here (vb_verb.Promote 7)) (fails_here ∷ []) }
    ensures dead_untold { NotFailed (here vb_verb.Dead) (fails_here ∷ []) }
    ensures dead_closed { (chronicle : Chronicle) → LawfulHere chronicle (here vb_verb.Dead) ([], answer.No cause.Closed) → ⊥ }
    ensures promoted_no_role { NotDone (here (vb_verb.Promote 7)) (made_at 0 0 7 ∷ []) }
    ensures replica { LawfulHere empty_chronicle (here vb_verb.MakeReplica) (in_role 0 0 role.Replica ∷ [], answer.Ok) }
    ensures replica_none { NotDone (here vb_verb.MakeReplica) [] }
    ensures replica_dead { NotDone (here vb_verb.MakeReplica) (in_role 0 0 role.Dead ∷ []) }
    ensures replica_branch { NotDone (here vb_verb.MakeReplica) (made_at 0 0 5 ∷ in_role 0 0 role.Replica ∷ []) }
    ensures dead { LawfulAfter (here vb_verb.Dead ∷ []) (ok (dead_line ∷ []) ∷ []) }
    ensures dead_none { NotDone (here vb_verb.Dead) [] }
    ensures dead_replica { NotDone (here vb_verb.Dead) (in_role 0 0 role.Replica ∷ []) }
    ensures dead_failed { NotFailed (here vb_verb.Dead) [] }
    ensures follow_none { NotDone (here vb_verb.Follow) [] }
    ensures follow_dead { NotDone (here vb_verb.Follow) (in_role 0 0 role.Dead ∷ []) }
    ensures follow_twice { NotDone (here vb_verb.Follow) (in_role 0 0 role.Replica ∷ in_role 0 0 role.Replica ∷ []) }
{}

/// The branches that a node makes as it starts have ids that its line names, in their order, from
/// whichever on: not one that it does not name, none out of order, and none twice.
pub fn judged_start_ids()
    ensures started { LawfulAfter (crash_under (verb.AtNode 0 (node_verb.Fail 1))) (crash_under_groups (restarted 0)) }
    ensures both { AreAmong (7 ∷ 8 ∷ []) (7 ∷ 8 ∷ []) }
    ensures later { AreAmong (8 ∷ []) (7 ∷ 8 ∷ []) }
    ensures other { NotDone (verb.AtNode 0 (node_verb.Start (7 ∷ 8 ∷ []))) (made_at 0 0 9 ∷ []) }
    ensures failed { NotFailed (verb.AtNode 0 (node_verb.Start (7 ∷ 8 ∷ []))) (made_at 0 0 9 ∷ fails_here ∷ []) }
    ensures order { NotDone (verb.AtNode 0 (node_verb.Start (7 ∷ 8 ∷ []))) (made_at 0 0 8 ∷ made_at 0 1 7 ∷ []) }
    ensures twice { NotDone (verb.AtNode 0 (node_verb.Start (7 ∷ 8 ∷ []))) (made_at 0 0 7 ∷ made_at 0 1 7 ∷ []) }
{}

/// What comes up a link tells of its own requests and acknowledgements; a pull, of frames of its own
/// stream; and bytes for its consumer, of what the vBucket takes that the link was dialed for: of no
/// other link, no other vBucket and no other node, and not of what the other end does. What is
/// acknowledged behind a batch that is done is of that vBucket.
pub fn judged_link_ends()
    ensures right { Lawful two_followed (shown_so (replica_shown 2 two_docs)) }
    ensures up_other { (ask : StreamAsk) → MayNotTell up_one (asks_of 2 ask) }
    ensures up_counts { MayNotTell up_one (counts_of 2) }
    ensures up_mark { MayNotTell up_one (marks_of 1) }
    ensures up_range { MayNotTell up_one (ranges_at 1 0) }
    ensures up_batch { MayNotTell up_one (batch_at 0 0) }
    ensures up_stop { MayNotTell up_one (stops_at 0) }
    ensures pump_other { MayNotTell pump_one (marks_of 2) }
    ensures pump_finish { MayNotTell pump_one (finishes 2) }
    ensures up_item { MayNotTell up_one (item_of 1) }
    ensures up_got { MayNotTell up_one (gets_by 1 1 0) }
    ensures pump_item { MayNotTell pump_one (item_of 2) }
    ensures pump_range { MayNotTell pump_one (ranges_at 1 0) }
    ensures down_item { NotTaken (item_of 1) }
    ensures adopt_other_vb { NotTaken (adopts_by 1 1) }
    ensures adopt_elsewhere { NotTaken (adopts_by 0 0) }
    ensures roll_other_vb { NotTaken (event.Rolled 1 1 0 0) }
    ensures pump_ask { (ask : StreamAsk) → MayNotTell pump_one (asks_of 1 ask) }
    ensures pump_got { MayNotTell pump_one (gets_by 1 1 0) }
    ensures pump_change { MayNotTell pump_one changes_here }
    ensures down_mark { NotTaken (marks_of 1) }
    ensures down_ask { (ask : StreamAsk) → NotTaken (asks_of 1 ask) }
    ensures down_counts { NotTaken (counts_of 1) }
    ensures down_change { NotTaken changes_here }
    ensures down_other { NotTaken (gets_by 2 1 0) }
    ensures down_other_vb { NotTaken (gets_by 1 1 1) }
    ensures down_elsewhere { NotTaken (gets_by 1 0 0) }
    ensures range_other_vb { NotTaken (ranges_at 1 1) }
    ensures range_elsewhere { NotTaken (ranges_at 0 0) }
    ensures ack_other_vb { NotTaken (acks_at 1 1) }
    ensures ack_elsewhere { NotTaken (acks_at 0 0) }
    ensures down_stop { NotTaken (stops_at 0) }
    ensures done_other { MayNotTell (here vb_verb.Done) (acks_at 0 1) }
    ensures done_elsewhere { MayNotTell (here vb_verb.Done) (acks_at 1 0) }
{}
