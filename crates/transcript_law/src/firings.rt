//! What a transcript tells of arms that fired and of rollbacks, lawfully or not.

ghost use Rattle.std.specs.Prelude.{false, List, [], ◌∷◌};
ghost use Rattle.script_text.specs.declared.verb.Verb.TheVariants as verb;
ghost use Rattle.script_text.specs.declared.verb.VbVerb.TheVariants as vb_verb;
ghost use Rattle.script_text.specs.declared.verb.NodeVerb.TheVariants as node_verb;
ghost use Rattle.script_text.specs.declared.verb.LinkVerb.TheVariants as link_verb;
ghost use Rattle.script_text.specs.declared.verb.ClientVerb.TheVariants as client_verb;
ghost use Rattle.transcript_law.specs.ClosedJournals.{back_line, dialed_for};
ghost use Rattle.transcript_law.specs.Crashes.{LawfulAfter, branch_line, failed_behind, ok, save_under, save_under_groups, stopped_behind};
ghost use Rattle.transcript_law.specs.FiredArms.{LawfulNext, other_back, seal_under, seal_under_groups, start_short, start_under, start_under_groups, stopped_starting, two_armed, two_armed_groups};
ghost use Rattle.transcript_law.specs.Firings.{FiresAsSaid, writes_at};
ghost use Rattle.vb_disk.specs.declared.made.Outcome.TheVariants.{Old};
ghost use Rattle.vb_events.specs.declared.event.Answer.{Answer};
ghost use Rattle.vb_events.specs.declared.event.Answer.TheVariants as answer;
ghost use Rattle.vb_events.specs.declared.event.Cause.TheVariants as cause;
ghost use Rattle.vb_events.specs.declared.event.EndReason.TheVariants as reason;
ghost use Rattle.vb_events.specs.declared.event.Event.{Event};
ghost use Rattle.vb_events.specs.declared.event.Event.TheVariants as event;

/// A group tells of a call that failed exactly where its answer is that a disk failed, and of its node's
/// stop exactly where the answer says that, once, and at the node whose disk the line calls. Not lawful
/// are two such lines in one group; either answer with none; one with any other answer, of a line that
/// appends and of a start; one in the group of a line that writes nothing down, and either answer of
/// such a line; and one of another node, in a save and behind a rollback. A start fails, or stops the
/// node, exactly where its arm hits one of its calls, which are one for each disk and four for each
/// vBucket that was active: with one of each the fifth is the last. It is short of ids only where all
/// disks were opened.
pub fn judged_firings()
    ensures once { LawfulAfter (save_under (verb.AtNode 0 (node_verb.Fail 1))) (save_under_groups (failed_behind [])) }
    ensures twice { LawfulAfter (save_under (verb.AtNode 0 (node_verb.Fail 1))) (save_under_groups (failed_behind (event.CallFailed 0 ∷ []))) → ⊥ }
    ensures untold { LawfulAfter (save_under (verb.AtNode 0 (node_verb.Fail 1))) (save_under_groups ([], answer.No cause.Disk)) → ⊥ }
    ensures unfired { LawfulAfter (save_under (verb.AtNode 0 (node_verb.Fail 5))) (save_under_groups (ok [])) }
    ensures fired_ok { LawfulAfter (save_under (verb.AtNode 0 (node_verb.Fail 5))) (save_under_groups (ok (event.CallFailed 0 ∷ []))) → ⊥ }
    ensures stopped { LawfulAfter (save_under (verb.AtNode 0 (node_verb.Stop 1 Old))) (save_under_groups (stopped_behind [])) }
    ensures stopped_twice { LawfulAfter (save_under (verb.AtNode 0 (node_verb.Stop 1 Old))) (save_under_groups (stopped_behind (event.NodeStopped 0 ∷ []))) → ⊥ }
    ensures stopped_untold { LawfulAfter (save_under (verb.AtNode 0 (node_verb.Stop 1 Old))) (save_under_groups (event.Closed 0 1 ∷ [], answer.No cause.Stopped)) → ⊥ }
    ensures stopped_ok { LawfulAfter (save_under (verb.AtNode 0 (node_verb.Stop 5 Old))) (save_under_groups (ok (event.NodeStopped 0 ∷ event.Closed 0 1 ∷ []))) → ⊥ }
    ensures seals { LawfulAfter seal_under (seal_under_groups ([], answer.Number 1)) }
    ensures seal_failed { LawfulAfter seal_under (seal_under_groups (event.CallFailed 0 ∷ [], answer.Number 1)) → ⊥ }
    ensures seal_disk { (lines : List Event) → LawfulAfter seal_under (seal_under_groups (lines, answer.No cause.Disk)) → ⊥ }
    ensures seal_stopped { (lines : List Event) → LawfulAfter seal_under (seal_under_groups (lines, answer.No cause.Stopped)) → ⊥ }
    ensures here { LawfulAfter two_armed (two_armed_groups (failed_behind [])) }
    ensures there { LawfulAfter two_armed (two_armed_groups (event.CallFailed 1 ∷ [], answer.No cause.Disk)) → ⊥ }
    ensures opened { LawfulAfter (start_under (verb.AtNode 0 (node_verb.Fail 1))) (start_under_groups (failed_behind [])) }
    ensures opened_untold { LawfulAfter (start_under (verb.AtNode 0 (node_verb.Fail 1))) (start_under_groups ([], answer.No cause.Disk)) → ⊥ }
    ensures started { LawfulAfter (start_under (verb.AtNode 0 (node_verb.Fail 6))) (start_under_groups (ok (branch_line 0 0 ∷ []))) }
    ensures started_fired { LawfulAfter (start_under (verb.AtNode 0 (node_verb.Fail 6))) (start_under_groups (ok (branch_line 0 0 ∷ event.CallFailed 0 ∷ []))) → ⊥ }
    ensures opened_ok { (lines : List Event) → LawfulAfter (start_under (verb.AtNode 0 (node_verb.Fail 1))) (start_under_groups (ok lines)) → ⊥ }
    ensures last_failed { LawfulAfter (start_under (verb.AtNode 0 (node_verb.Fail 5))) (start_under_groups (failed_behind (branch_line 0 0 ∷ []))) }
    ensures last_ok { (lines : List Event) → LawfulAfter (start_under (verb.AtNode 0 (node_verb.Fail 5))) (start_under_groups (ok lines)) → ⊥ }
    ensures started_far { (lines : List Event) → LawfulAfter (start_under (verb.AtNode 0 (node_verb.Fail 6))) (start_under_groups (lines, answer.No cause.Disk)) → ⊥ }
    ensures last_stopped { LawfulAfter (start_under (verb.AtNode 0 (node_verb.Stop 5 Old))) (start_under_groups (stopped_starting (branch_line 0 0 ∷ []))) }
    ensures last_stopped_ok { (lines : List Event) → LawfulAfter (start_under (verb.AtNode 0 (node_verb.Stop 5 Old))) (start_under_groups (ok lines)) → ⊥ }
    ensures stopped_far { (lines : List Event) → LawfulAfter (start_under (verb.AtNode 0 (node_verb.Stop 6 Old))) (start_under_groups (lines, answer.No cause.Stopped)) → ⊥ }
    ensures short { LawfulAfter (start_short (verb.AtNode 0 (node_verb.Fail 2))) (start_under_groups ([], answer.No cause.IdsShort)) }
    ensures short_unopened { LawfulAfter (start_short (verb.AtNode 0 (node_verb.Fail 1))) (start_under_groups ([], answer.No cause.IdsShort)) → ⊥ }
    ensures back_failed { FiresAsSaid (writes_at (dialed_for false) (verb.AtLink 1 (link_verb.Down 10))) (event.CallFailed 1 ∷ event.Ended 1 reason.Disk ∷ []) (answer.No cause.Disk) }
    ensures back_elsewhere { FiresAsSaid (writes_at (dialed_for false) (verb.AtLink 1 (link_verb.Down 10))) (event.CallFailed 0 ∷ event.Ended 1 reason.Disk ∷ []) (answer.No cause.Disk) → ⊥ }
{}

/// A group tells of a rollback only behind a `down`, of the vBucket that its own link was dialed for,
/// and once. Where two links were sent back, not lawful are in the group of the one the other's line,
/// alone or beside its own; its own twice; and its own in the group of a line of another verb, however
/// that is answered: of a client's bytes, of the link's other end, of a seal and of a save.
pub fn judged_backs()
    ensures own { LawfulNext (verb.AtLink 1 (link_verb.Down 10)) (back_line ∷ [], answer.Number 10) }
    ensures other_own { LawfulNext (verb.AtLink 2 (link_verb.Down 10)) (other_back ∷ [], answer.Number 10) }
    ensures another { LawfulNext (verb.AtLink 1 (link_verb.Down 10)) (other_back ∷ [], answer.Number 10) → ⊥ }
    ensures both { LawfulNext (verb.AtLink 1 (link_verb.Down 10)) (back_line ∷ other_back ∷ [], answer.Number 10) → ⊥ }
    ensures again { LawfulNext (verb.AtLink 1 (link_verb.Down 10)) (back_line ∷ back_line ∷ [], answer.Number 10) → ⊥ }
    ensures in_bytes { (said : Answer) → LawfulNext (verb.AtClient 1 1 (client_verb.Bytes [])) (back_line ∷ [], said) → ⊥ }
    ensures in_up { (said : Answer) → LawfulNext (verb.AtLink 1 (link_verb.Up 10)) (back_line ∷ [], said) → ⊥ }
    ensures in_seal { (said : Answer) → LawfulNext (verb.AtVb 1 0 vb_verb.Seal) (back_line ∷ [], said) → ⊥ }
    ensures in_save { (said : Answer) → LawfulNext (verb.AtVb 1 0 vb_verb.Save) (back_line ∷ [], said) → ⊥ }
{}
