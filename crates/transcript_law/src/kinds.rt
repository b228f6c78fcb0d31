//! What each verb may be answered, and may tell of arms, verb by verb.

ghost use Rattle.std.specs.Prelude.{ℕ, Bool, List, Option};
ghost use Rattle.script_text.specs.declared.verb.Verb.TheVariants as verb;
ghost use Rattle.script_text.specs.declared.verb.VbVerb.TheVariants as vb_verb;
ghost use Rattle.script_text.specs.declared.verb.NodeVerb.TheVariants as node_verb;
ghost use Rattle.script_text.specs.declared.verb.LinkVerb.TheVariants as link_verb;
ghost use Rattle.script_text.specs.declared.verb.ClientVerb.TheVariants as client_verb;
ghost use Rattle.transcript_law.specs.BoundRows.{one_dialed, zero_down};
ghost use Rattle.transcript_law.specs.Chronicles.{empty_chronicle};
ghost use Rattle.transcript_law.specs.KindRows.{CountsFrames, CountsNothing, CountsOne, FiresAt, FiresNothing, MeetsJournal};
ghost use Rattle.vb_disk.specs.declared.made.Outcome.{Outcome as OutcomeData};

/// A line that moves bytes, seals, trims, drops a cursor, takes a batch or is done is answered by a number or refused, one that
/// has frames put by their count and why no more were put, and any other by no number.
pub fn judged_kinds()
    ensures made { CountsNothing empty_chronicle (verb.Node 0) }
    ensures vb_active { (v : ℕ) (uuid : ℕ) → CountsNothing empty_chronicle (verb.AtVb 0 v (vb_verb.MakeActive uuid)) }
    ensures vb_replica { (v : ℕ) → CountsNothing empty_chronicle (verb.AtVb 0 v vb_verb.MakeReplica) }
    ensures chain { (v : ℕ) (others : List (Option ℕ)) → CountsNothing empty_chronicle (verb.AtVb 0 v (vb_verb.Chain others)) }
    ensures client { (k : ℕ) → CountsNothing empty_chronicle (verb.AtClient 0 k client_verb.Open) }
    ensures bytes { (k : ℕ) (sent : List ℕ) → CountsNothing empty_chronicle (verb.AtClient 0 k (client_verb.Bytes sent)) }
    ensures hang { (k : ℕ) → CountsNothing empty_chronicle (verb.AtClient 0 k client_verb.Hang) }
    ensures clock { (nanos : ℕ) → CountsNothing empty_chronicle (verb.AtNode 0 (node_verb.Clock nanos)) }
    ensures link { (l : ℕ) (v : ℕ) (buffer : ℕ) (takeover : Bool) → CountsNothing empty_chronicle (verb.Link l 0 1 v buffer takeover) }
    ensures cut { CountsNothing one_dialed (verb.AtLink 1 link_verb.Cut) }
    ensures promote { (v : ℕ) (uuid : ℕ) → CountsNothing empty_chronicle (verb.AtVb 0 v (vb_verb.Promote uuid)) }
    ensures follow { (v : ℕ) → CountsNothing empty_chronicle (verb.AtVb 0 v vb_verb.Follow) }
    ensures dead { (v : ℕ) → CountsNothing empty_chronicle (verb.AtVb 0 v vb_verb.Dead) }
    ensures save { (v : ℕ) → CountsNothing empty_chronicle (verb.AtVb 0 v vb_verb.Save) }
    ensures tick { (v : ℕ) → CountsNothing empty_chronicle (verb.AtVb 0 v vb_verb.Tick) }
    ensures stat { (v : ℕ) → CountsNothing empty_chronicle (verb.AtVb 0 v vb_verb.Stat) }
    ensures log { (v : ℕ) → CountsNothing empty_chronicle (verb.AtVb 0 v vb_verb.Log) }
    ensures show { (v : ℕ) → CountsNothing empty_chronicle (verb.AtVb 0 v vb_verb.Show) }
    ensures stop { (call : ℕ) (out : OutcomeData) → CountsNothing empty_chronicle (verb.AtNode 0 (node_verb.Stop call out)) }
    ensures fail { (call : ℕ) → CountsNothing empty_chronicle (verb.AtNode 0 (node_verb.Fail call)) }
    ensures crash { (out : OutcomeData) → CountsNothing empty_chronicle (verb.AtNode 0 (node_verb.Crash out)) }
    ensures start { (uuids : List ℕ) → CountsNothing zero_down (verb.AtNode 0 (node_verb.Start uuids)) }
    ensures up { (wanted : ℕ) → CountsOne one_dialed (verb.AtLink 1 (link_verb.Up wanted)) }
    ensures down { (wanted : ℕ) → CountsOne one_dialed (verb.AtLink 1 (link_verb.Down wanted)) }
    ensures seal { (v : ℕ) → CountsOne empty_chronicle (verb.AtVb 0 v vb_verb.Seal) }
    ensures trim { (v : ℕ) → CountsOne empty_chronicle (verb.AtVb 0 v vb_verb.Trim) }
    ensures drop { CountsOne one_dialed (verb.AtLink 1 link_verb.Drop) }
    ensures take { (v : ℕ) → CountsOne empty_chronicle (verb.AtVb 0 v vb_verb.Take) }
    ensures done { (v : ℕ) → CountsOne empty_chronicle (verb.AtVb 0 v vb_verb.Done) }
    ensures pump { (wanted : ℕ) → CountsFrames one_dialed (verb.AtLink 1 (link_verb.Pump wanted)) }
{}

/// Each line that appends the record of a role or of a batch meets its journal and its node's arm: it is
/// not answered `ok` where the journal is closed or one of the four calls is hit, nor as closed where it
/// is open, nor as failed or stopped but by an arm of that kind that hits one of them.
pub fn judged_journal_lines()
    ensures vb_active { (uuid : ℕ) → MeetsJournal (verb.AtVb 0 0 (vb_verb.MakeActive uuid)) }
    ensures vb_replica { MeetsJournal (verb.AtVb 0 0 vb_verb.MakeReplica) }
    ensures promote { (uuid : ℕ) → MeetsJournal (verb.AtVb 0 0 (vb_verb.Promote uuid)) }
    ensures follow { MeetsJournal (verb.AtVb 0 0 vb_verb.Follow) }
    ensures dead { MeetsJournal (verb.AtVb 0 0 vb_verb.Dead) }
    ensures save { MeetsJournal (verb.AtVb 0 0 vb_verb.Save) }
{}

/// Whatever was read before, each line that calls no disk tells of no call that failed, no stop and no
/// rollback, and each that calls one of its own node, or starts that, tells of a call that failed there,
/// or of that node's stop, as it is answered. Of `down` the laws of rollbacks say it.
pub fn judged_firing_lines()
    ensures made { FiresNothing (verb.Node 0) }
    ensures chain { (v : ℕ) (others : List (Option ℕ)) → FiresNothing (verb.AtVb 0 v (vb_verb.Chain others)) }
    ensures client { (k : ℕ) → FiresNothing (verb.AtClient 0 k client_verb.Open) }
    ensures bytes { (k : ℕ) (sent : List ℕ) → FiresNothing (verb.AtClient 0 k (client_verb.Bytes sent)) }
    ensures hang { (k : ℕ) → FiresNothing (verb.AtClient 0 k client_verb.Hang) }
    ensures clock { (nanos : ℕ) → FiresNothing (verb.AtNode 0 (node_verb.Clock nanos)) }
    ensures link { (l : ℕ) (v : ℕ) (buffer : ℕ) (takeover : Bool) → FiresNothing (verb.Link l 0 1 v buffer takeover) }
    ensures up { (wanted : ℕ) → FiresNothing (verb.AtLink 1 (link_verb.Up wanted)) }
    ensures pump { (wanted : ℕ) → FiresNothing (verb.AtLink 1 (link_verb.Pump wanted)) }
    ensures cut { FiresNothing (verb.AtLink 1 link_verb.Cut) }
    ensures seal { (v : ℕ) → FiresNothing (verb.AtVb 0 v vb_verb.Seal) }
    ensures trim { (v : ℕ) → FiresNothing (verb.AtVb 0 v vb_verb.Trim) }
    ensures drop { FiresNothing (verb.AtLink 1 link_verb.Drop) }
    ensures take { (v : ℕ) → FiresNothing (verb.AtVb 0 v vb_verb.Take) }
    ensures done { (v : ℕ) → FiresNothing (verb.AtVb 0 v vb_verb.Done) }
    ensures tick { (v : ℕ) → FiresNothing (verb.AtVb 0 v vb_verb.Tick) }
    ensures stat { (v : ℕ) → FiresNothing (verb.AtVb 0 v vb_verb.Stat) }
    ensures log { (v : ℕ) → FiresNothing (verb.AtVb 0 v vb_verb.Log) }
    ensures show { (v : ℕ) → FiresNothing (verb.AtVb 0 v vb_verb.Show) }
    ensures stop { (call : ℕ) (out : OutcomeData) → FiresNothing (verb.AtNode 0 (node_verb.Stop call out)) }
    ensures fail { (call : ℕ) → FiresNothing (verb.AtNode 0 (node_verb.Fail call)) }
    ensures crash { (out : OutcomeData) → FiresNothing (verb.AtNode 0 (node_verb.Crash out)) }
    ensures vb_active { (v : ℕ) (uuid : ℕ) → FiresAt 0 (verb.AtVb 0 v (vb_verb.MakeActive uuid)) }
    ensures vb_replica { (v : ℕ) → FiresAt 0 (verb.AtVb 0 v vb_verb.MakeReplica) }
    ensures promote { (v : ℕ) (uuid : ℕ) → FiresAt 0 (verb.AtVb 0 v (vb_verb.Promote uuid)) }
    ensures follow { (v : ℕ) → FiresAt 0 (verb.AtVb 0 v vb_verb.Follow) }
    ensures dead { (v : ℕ) → FiresAt 0 (verb.AtVb 0 v vb_verb.Dead) }
    ensures save { (v : ℕ) → FiresAt 0 (verb.AtVb 0 v vb_verb.Save) }
    ensures start { (uuids : List ℕ) → FiresAt 0 (verb.AtNode 0 (node_verb.Start uuids)) }
{}
