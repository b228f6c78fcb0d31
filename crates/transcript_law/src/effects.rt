//! What single lines leave, by what is told behind them.

ghost use Rattle.std.specs.Prelude.{ℕ, true, false, List, [], ◌∷◌, ◌++◌, Some};
ghost use Rattle.script_text.specs.declared.verb.Verb.TheVariants as verb;
ghost use Rattle.script_text.specs.declared.verb.VbVerb.TheVariants as vb_verb;
ghost use Rattle.script_text.specs.declared.verb.NodeVerb.TheVariants as node_verb;
ghost use Rattle.transcript_law.specs.BoundRows.{LawfulHere, zero_down};
ghost use Rattle.transcript_law.specs.Chronicles.{empty_chronicle};
ghost use Rattle.transcript_law.specs.Contrary.{sent_known};
ghost use Rattle.transcript_law.specs.Effects.{HasDisk, Notes, Spends, adopts_at, after_change_known, role_line};
ghost use Rattle.transcript_law.specs.Followers.{log_of};
ghost use Rattle.transcript_law.specs.Lawfulness.{LawfulFrom};
ghost use Rattle.transcript_law.specs.Rollbacks.{after_active, made_log};
ghost use Rattle.transcript_law.specs.Transcripts.{active_vb_lines};
ghost use Rattle.vb_disk.specs.declared.fuse.Fuse.TheVariants.{Fail, Off};
ghost use Rattle.vb_events.specs.declared.event.Answer.TheVariants as answer;
ghost use Rattle.vb_events.specs.declared.event.Cause.TheVariants as cause;
ghost use Rattle.vb_events.specs.declared.event.Event.{Event};
ghost use Rattle.vb_events.specs.declared.event.Event.TheVariants as event;
ghost use Rattle.vb_types.specs.declared.journal.Record.TheVariants as noted;
ghost use Rattle.vb_types.specs.declared.role.Role.TheVariants as role;

/// Each line that gives a role notes it with the vBucket's failover log, and none that is refused. A
/// vBucket that was made has a disk, also where its journal took no record.
pub fn judged_notes()
    ensures vb_active { Notes empty_chronicle (verb.AtVb 0 0 (vb_verb.MakeActive 5)) (active_vb_lines 0 5) answer.Ok (noted.State role.Active (log_of 5) ∷ []) }
    ensures vb_replica { Notes empty_chronicle (verb.AtVb 0 0 vb_verb.MakeReplica) (role_line role.Replica) answer.Ok (noted.State role.Replica [] ∷ []) }
    ensures promote { Notes after_change_known (verb.AtVb 0 0 (vb_verb.Promote 7)) (event.Branch 0 0 7 (Some 5) 1 1 ∷ role_line role.Active) answer.Ok (noted.State role.Active made_log ∷ []) }
    ensures follow { Notes after_active (verb.AtVb 0 0 vb_verb.Follow) (role_line role.Replica) answer.Ok (noted.State role.Replica (log_of 5) ∷ []) }
    ensures dead { Notes after_active (verb.AtVb 0 0 vb_verb.Dead) (role_line role.Dead) answer.Ok (noted.State role.Dead (log_of 5) ∷ []) }
    ensures refused { Notes after_active (verb.AtVb 0 0 vb_verb.Dead) [] (answer.No cause.WrongRole) [] }
    ensures closed { Notes after_active (verb.AtVb 0 0 vb_verb.Dead) (role_line role.Dead) (answer.No cause.Closed) [] }
    ensures made { HasDisk empty_chronicle (verb.AtVb 0 0 vb_verb.MakeReplica) (role_line role.Replica) answer.Ok true }
    ensures made_closed { HasDisk empty_chronicle (verb.AtVb 0 0 (vb_verb.MakeActive 5)) (active_vb_lines 0 5) (answer.No cause.Closed) true }
    ensures unmade { HasDisk empty_chronicle (verb.AtVb 0 0 vb_verb.MakeReplica) [] (answer.No cause.Limit) false }
{}

/// Each line that appends the record of a role or of a batch makes four device calls, and one that is
/// refused, a take, a `done`, a seal and a stat none: of an arm that is to fail the ninth call the fifth
/// is left, or the ninth. A line that arms sets the arm anew, and by 0 takes it off.
pub fn judged_calls()
    ensures vb_active { Spends empty_chronicle (verb.AtVb 0 0 (vb_verb.MakeActive 5)) (active_vb_lines 0 5) answer.Ok (Fail 5) }
    ensures vb_replica { Spends empty_chronicle (verb.AtVb 0 0 vb_verb.MakeReplica) (role_line role.Replica) answer.Ok (Fail 5) }
    ensures promote { Spends after_active (verb.AtVb 0 0 (vb_verb.Promote 7)) [] answer.Ok (Fail 5) }
    ensures follow { Spends after_active (verb.AtVb 0 0 vb_verb.Follow) (role_line role.Replica) answer.Ok (Fail 5) }
    ensures dead { Spends after_active (verb.AtVb 0 0 vb_verb.Dead) (role_line role.Dead) answer.Ok (Fail 5) }
    ensures save { Spends after_active (verb.AtVb 0 0 vb_verb.Save) [] answer.Ok (Fail 5) }
    ensures closed { Spends after_active (verb.AtVb 0 0 vb_verb.Save) [] (answer.No cause.Closed) (Fail 9) }
    ensures refused { Spends after_active (verb.AtVb 0 0 vb_verb.Dead) [] (answer.No cause.WrongRole) (Fail 9) }
    ensures take { Spends after_active (verb.AtVb 0 0 vb_verb.Take) [] (answer.Number 0) (Fail 9) }
    ensures done { Spends after_active (verb.AtVb 0 0 vb_verb.Done) [] (answer.Number 0) (Fail 9) }
    ensures seal { Spends after_active (verb.AtVb 0 0 vb_verb.Seal) [] (answer.Number 0) (Fail 9) }
    ensures stat { Spends after_active (verb.AtVb 0 0 vb_verb.Stat) [] answer.Ok (Fail 9) }
    ensures armed { Spends after_active (verb.AtNode 0 (node_verb.Fail 2)) [] answer.Ok (Fail 2) }
    ensures disarmed { Spends after_active (verb.AtNode 0 (node_verb.Fail 0)) [] answer.Ok Off }
{}

/// A start that is refused for an id that was used, or for the id 0, tells of nothing, and without an arm
/// none is answered as failed, stopped or closed; and a log is taken over by the vBucket of the link that
/// was granted it, at its node.
pub fn judged_refused_starts()
    ensures used { (uuids : List ℕ) (first : Event) (lines : List Event) → LawfulHere zero_down (verb.AtNode 0 (node_verb.Start uuids)) (first ∷ lines, answer.No cause.UuidUsed) → ⊥ }
    ensures zero { (uuids : List ℕ) (first : Event) (lines : List Event) → LawfulHere zero_down (verb.AtNode 0 (node_verb.Start uuids)) (first ∷ lines, answer.No cause.UuidZero) → ⊥ }
    ensures failed { (uuids : List ℕ) (lines : List Event) → LawfulHere zero_down (verb.AtNode 0 (node_verb.Start uuids)) (lines, answer.No cause.Disk) → ⊥ }
    ensures stopped { (uuids : List ℕ) (lines : List Event) → LawfulHere zero_down (verb.AtNode 0 (node_verb.Start uuids)) (lines, answer.No cause.Stopped) → ⊥ }
    ensures closed { (uuids : List ℕ) (lines : List Event) → LawfulHere zero_down (verb.AtNode 0 (node_verb.Start uuids)) (lines, answer.No cause.Closed) → ⊥ }
    ensures adopts { LawfulFrom (sent_known []) (adopts_at 1 0) }
    ensures adopts_node { LawfulFrom (sent_known []) (adopts_at 2 0) → ⊥ }
    ensures adopts_vb { LawfulFrom (sent_known []) (adopts_at 1 1) → ⊥ }
{}
