//! Links that end and are not told over, judged by hand.
ghost use Rattle.std.specs.Prelude.{[], ◌∷◌, ◌++◌};
ghost use Rattle.script_text.specs.declared.verb.LinkVerb.TheVariants as link_verb;
ghost use Rattle.script_text.specs.declared.verb.NodeVerb.TheVariants as node_verb;
ghost use Rattle.script_text.specs.declared.verb.Verb.TheVariants as verb;
ghost use Rattle.script_text.specs.declared.verb.VbVerb.TheVariants as vb_verb;
ghost use Rattle.vb_disk.specs.declared.made.Outcome.TheVariants.{Old};
ghost use Rattle.vb_events.specs.declared.event.Answer.TheVariants as answer;
ghost use Rattle.vb_events.specs.declared.event.Cause.TheVariants as cause;
ghost use Rattle.vb_types.specs.declared.role.Role.TheVariants as role;
ghost use Rattle.transcript_law.specs.BoundRows.{LawfulHere, one_dialed};
ghost use Rattle.transcript_law.specs.Crashes.{ok};
ghost use Rattle.transcript_law.specs.EndRows.{IsCarried, IsNoDisk, NotAlone, dials, dials_elsewhere, over_one, rises, turns, turns_and_stops};
ghost use Rattle.vb_events.specs.declared.event.Cause.{Cause};
ghost use Rattle.transcript_law.specs.Ends.{AllEnded};
ghost use Rattle.transcript_law.specs.TellingRows.{ends_at, stops_at};

/// Each link that ends with a line is told over in its group: where a node crashes or stops, those that
/// have an end there, also behind other lines; where a vBucket changes its role, the one that feeds it, but none that it feeds or
/// that feeds another one; and one that is cut.
pub fn judged_told_ends()
    ensures crash_source { LawfulHere one_dialed (verb.AtNode 0 (node_verb.Crash Old)) (ok []) → ⊥ }
    ensures crash_follower { LawfulHere one_dialed (verb.AtNode 1 (node_verb.Crash Old)) (ok []) → ⊥ }
    ensures crash_elsewhere { LawfulHere one_dialed (verb.AtNode 2 (node_verb.Crash Old)) (ok []) }
    ensures stop { NotAlone (verb.AtVb 1 0 vb_verb.Save) (stops_at 1 ∷ []) }
    ensures stop_source { NotAlone (verb.AtVb 0 0 vb_verb.Save) (stops_at 0 ∷ []) }
    ensures down_stop { NotAlone (over_one (link_verb.Down 9)) (stops_at 1 ∷ []) }
    ensures stopped { AllEnded one_dialed (verb.AtVb 1 1 vb_verb.Dead) (stops_at 1 ∷ []) (answer.No cause.Stopped) → ⊥ }
    ensures stopped_source { AllEnded one_dialed (verb.AtVb 0 0 vb_verb.Dead) (stops_at 0 ∷ []) (answer.No cause.Stopped) → ⊥ }
    ensures stopped_behind { AllEnded one_dialed (verb.AtVb 1 1 vb_verb.Dead) turns_and_stops (answer.No cause.Stopped) → ⊥ }
    ensures stopped_told { AllEnded one_dialed (verb.AtVb 1 1 vb_verb.Dead) (turns_and_stops ++ ends_at 1 ∷ []) (answer.No cause.Stopped) }
    ensures stopped_elsewhere { AllEnded one_dialed (verb.AtVb 2 0 vb_verb.Dead) (stops_at 2 ∷ []) (answer.No cause.Stopped) }
    ensures promote { NotAlone (verb.AtVb 1 0 (vb_verb.Promote 7)) (rises 0) }
    ensures follow { NotAlone (verb.AtVb 1 0 vb_verb.Follow) (turns role.Replica) }
    ensures dead { NotAlone (verb.AtVb 1 0 vb_verb.Dead) (turns role.Dead) }
    ensures dead_told { LawfulHere one_dialed (verb.AtVb 1 0 vb_verb.Dead) (ok (ends_at 1 ∷ turns role.Dead)) }
    ensures promote_beside { LawfulHere one_dialed (verb.AtVb 1 1 (vb_verb.Promote 7)) (ok (rises 1)) }
    ensures cut { LawfulHere one_dialed (over_one link_verb.Cut) (ok []) → ⊥ }
    ensures cut_told { LawfulHere one_dialed (over_one link_verb.Cut) (ok (ends_at 1 ∷ [])) }
{}

/// Over a link that was dialed and not told over each line is carried out, but for one that the disk of
/// its consumer's node fails; and a link is dialed only where none of its number was, and none for its
/// vBucket of that node, and refused as open only where one was.
pub fn judged_open_links()
    ensures up { IsCarried (link_verb.Up 9) }
    ensures pump { IsCarried (link_verb.Pump 9) }
    ensures cut { IsCarried link_verb.Cut }
    ensures down { LawfulHere one_dialed (over_one (link_verb.Down 9)) ([], answer.No cause.LinkClosed) → ⊥ }
    ensures down_node { LawfulHere one_dialed (over_one (link_verb.Down 9)) ([], answer.No cause.NodeDown) → ⊥ }
    ensures down_others { (why : Cause) → IsNoDisk why → LawfulHere one_dialed (over_one (link_verb.Down 9)) ([], answer.No why) → ⊥ }
    ensures up_carried { LawfulHere one_dialed (over_one (link_verb.Up 9)) ([], answer.Number 9) }
    ensures again { LawfulHere one_dialed (dials 1 1) (ok []) → ⊥ }
    ensures fed { LawfulHere one_dialed (dials 2 0) (ok []) → ⊥ }
    ensures beside { LawfulHere one_dialed (dials 2 1) (ok []) }
    ensures beside_node { LawfulHere one_dialed (dials_elsewhere 2) (ok []) }
    ensures again_open { LawfulHere one_dialed (dials 1 1) ([], answer.No cause.LinkOpen) }
    ensures fed_open { LawfulHere one_dialed (dials 2 0) ([], answer.No cause.LinkOpen) }
    ensures beside_open { LawfulHere one_dialed (dials 2 1) ([], answer.No cause.LinkOpen) → ⊥ }
    ensures beside_node_open { LawfulHere one_dialed (dials_elsewhere 2) ([], answer.No cause.LinkOpen) → ⊥ }
{}
