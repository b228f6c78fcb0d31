//! What a line that is refused may not tell, by its cause, and markers that are taken out of turn.

ghost use Rattle.std.specs.Prelude.{ℕ, List};
ghost use Rattle.script_text.specs.declared.verb.Verb.TheVariants as verb;
ghost use Rattle.script_text.specs.declared.verb.VbVerb.TheVariants as vb_verb;
ghost use Rattle.script_text.specs.declared.verb.NodeVerb.TheVariants as node_verb;
ghost use Rattle.transcript_law.specs.Contrary.{range_lines};
ghost use Rattle.transcript_law.specs.Lawfulness.{LawfulFrom};
ghost use Rattle.transcript_law.specs.RefusalRows.{TellsItsCause, TellsNoRollback, TellsNothing, two_marks};
ghost use Rattle.vb_events.specs.declared.event.Cause.TheVariants as cause;

/// Whatever was read before, and whatever line it is: one that is refused for a cause that stands
/// before it is begun tells of nothing.
pub fn judged_refusals()
    ensures unknown_node { TellsNothing cause.UnknownNode }
    ensures node_exists { TellsNothing cause.NodeExists }
    ensures unknown_vb { TellsNothing cause.UnknownVb }
    ensures vb_exists { TellsNothing cause.VbExists }
    ensures limit { TellsNothing cause.Limit }
    ensures uuid_zero { TellsNothing cause.UuidZero }
    ensures uuid_used { TellsNothing cause.UuidUsed }
    ensures wrong_role { TellsNothing cause.WrongRole }
    ensures chain_bad { TellsNothing cause.ChainBad }
    ensures link_open { TellsNothing cause.LinkOpen }
    ensures link_closed { TellsNothing cause.LinkClosed }
    ensures batch_out { TellsNothing cause.BatchOut }
    ensures nothing_taken { TellsNothing cause.NothingTaken }
    ensures node_up { TellsNothing cause.NodeUp }
    ensures node_down { TellsNothing cause.NodeDown }
{}

/// A line that is answered as failed, stopped or closed tells of just that, once, and not of another
/// mishap, nor of a vBucket that went back; a start too.
pub fn judged_mishaps()
    ensures vb_active { (v uuid : ℕ) → TellsItsCause (verb.AtVb 0 v (vb_verb.MakeActive uuid)) }
    ensures vb_replica { (v : ℕ) → TellsItsCause (verb.AtVb 0 v vb_verb.MakeReplica) }
    ensures promote { (v uuid : ℕ) → TellsItsCause (verb.AtVb 0 v (vb_verb.Promote uuid)) }
    ensures follow { (v : ℕ) → TellsItsCause (verb.AtVb 0 v vb_verb.Follow) }
    ensures dead { (v : ℕ) → TellsItsCause (verb.AtVb 0 v vb_verb.Dead) }
    ensures save { (v : ℕ) → TellsItsCause (verb.AtVb 0 v vb_verb.Save) }
    ensures start { (uuids : List ℕ) → TellsItsCause (verb.AtNode 0 (node_verb.Start uuids)) }
    ensures vb_active_back { (v uuid : ℕ) → TellsNoRollback (verb.AtVb 0 v (vb_verb.MakeActive uuid)) }
    ensures vb_replica_back { (v : ℕ) → TellsNoRollback (verb.AtVb 0 v vb_verb.MakeReplica) }
    ensures promote_back { (v uuid : ℕ) → TellsNoRollback (verb.AtVb 0 v (vb_verb.Promote uuid)) }
    ensures follow_back { (v : ℕ) → TellsNoRollback (verb.AtVb 0 v vb_verb.Follow) }
    ensures dead_back { (v : ℕ) → TellsNoRollback (verb.AtVb 0 v vb_verb.Dead) }
    ensures save_back { (v : ℕ) → TellsNoRollback (verb.AtVb 0 v vb_verb.Save) }
    ensures start_back { (uuids : List ℕ) → TellsNoRollback (verb.AtNode 0 (node_verb.Start uuids)) }
{}

/// Of two markers that were put a replica takes the first one. Not lawful is the second one before it.
pub fn judged_next_markers()
    ensures first { LawfulFrom two_marks (range_lines 0 0 1) }
    ensures second { LawfulFrom two_marks (range_lines 0 0 2) → ⊥ }
{}
