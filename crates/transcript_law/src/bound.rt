//! Each line that a node or a link is bound to refuse, by itself.

ghost use Rattle.std.specs.Prelude.{ℕ, Bool, false, List, [], ◌∷◌, Option};
ghost use Rattle.script_text.specs.declared.verb.Verb.TheVariants as verb;
ghost use Rattle.script_text.specs.declared.verb.VbVerb.TheVariants as vb_verb;
ghost use Rattle.script_text.specs.declared.verb.NodeVerb.TheVariants as node_verb;
ghost use Rattle.script_text.specs.declared.verb.LinkVerb.TheVariants as link_verb;
ghost use Rattle.script_text.specs.declared.verb.ClientVerb.TheVariants as client_verb;
ghost use Rattle.transcript_law.specs.BoundRows.{IsRefusedFor, IsRefusedForOne, LawfulHere, zero_down, one_dialed, one_over};
ghost use Rattle.transcript_law.specs.Chronicles.{empty_chronicle};
ghost use Rattle.transcript_law.specs.Crashes.{ok};
ghost use Rattle.vb_disk.specs.declared.made.Outcome.{Outcome as OutcomeData};
ghost use Rattle.vb_events.specs.declared.event.Cause.TheVariants as cause;
ghost use Rattle.vb_events.specs.declared.event.EndReason.TheVariants as reason;
ghost use Rattle.vb_events.specs.declared.event.Event.TheVariants as event;

/// Each line of a node that is down, by its verb, is refused as that, and no other answer of it is
/// lawful, and no line in its group; the node is not made once more. A link is refused where the node
/// at one of its ends is down, whichever that is. What arms the node is carried out, and so are lines of
/// another node, which does not start.
pub fn judged_down_lines()
    ensures made { IsRefusedFor zero_down cause.NodeExists (verb.Node 0) }
    ensures vb_active { (v uuid : ℕ) → IsRefusedFor zero_down cause.NodeDown (verb.AtVb 0 v (vb_verb.MakeActive uuid)) }
    ensures vb_replica { (v : ℕ) → IsRefusedFor zero_down cause.NodeDown (verb.AtVb 0 v vb_verb.MakeReplica) }
    ensures chain { (v : ℕ) (others : List (Option ℕ)) → IsRefusedFor zero_down cause.NodeDown (verb.AtVb 0 v (vb_verb.Chain others)) }
    ensures client { (c : ℕ) → IsRefusedFor zero_down cause.NodeDown (verb.AtClient 0 c client_verb.Open) }
    ensures bytes { (c : ℕ) (sent : List ℕ) → IsRefusedFor zero_down cause.NodeDown (verb.AtClient 0 c (client_verb.Bytes sent)) }
    ensures hang { (c : ℕ) → IsRefusedFor zero_down cause.NodeDown (verb.AtClient 0 c client_verb.Hang) }
    ensures clock { (nanos : ℕ) → IsRefusedFor zero_down cause.NodeDown (verb.AtNode 0 (node_verb.Clock nanos)) }
    ensures promote { (v uuid : ℕ) → IsRefusedFor zero_down cause.NodeDown (verb.AtVb 0 v (vb_verb.Promote uuid)) }
    ensures follow { (v : ℕ) → IsRefusedFor zero_down cause.NodeDown (verb.AtVb 0 v vb_verb.Follow) }
    ensures dead { (v : ℕ) → IsRefusedFor zero_down cause.NodeDown (verb.AtVb 0 v vb_verb.Dead) }
    ensures seal { (v : ℕ) → IsRefusedFor zero_down cause.NodeDown (verb.AtVb 0 v vb_verb.Seal) }
    ensures trim { (v : ℕ) → IsRefusedFor zero_down cause.NodeDown (verb.AtVb 0 v vb_verb.Trim) }
    ensures take { (v : ℕ) → IsRefusedFor zero_down cause.NodeDown (verb.AtVb 0 v vb_verb.Take) }
    ensures save { (v : ℕ) → IsRefusedFor zero_down cause.NodeDown (verb.AtVb 0 v vb_verb.Save) }
    ensures done { (v : ℕ) → IsRefusedFor zero_down cause.NodeDown (verb.AtVb 0 v vb_verb.Done) }
    ensures tick { (v : ℕ) → IsRefusedFor zero_down cause.NodeDown (verb.AtVb 0 v vb_verb.Tick) }
    ensures stat { (v : ℕ) → IsRefusedFor zero_down cause.NodeDown (verb.AtVb 0 v vb_verb.Stat) }
    ensures log { (v : ℕ) → IsRefusedFor zero_down cause.NodeDown (verb.AtVb 0 v vb_verb.Log) }
    ensures show { (v : ℕ) → IsRefusedFor zero_down cause.NodeDown (verb.AtVb 0 v vb_verb.Show) }
    ensures crash { (out : OutcomeData) → IsRefusedFor zero_down cause.NodeDown (verb.AtNode 0 (node_verb.Crash out)) }
    ensures producer { (l v buffer : ℕ) (takeover : Bool) → IsRefusedForOne zero_down cause.NodeDown cause.UnknownNode (verb.Link l 0 1 v buffer takeover) }
    ensures consumer { (l v buffer : ℕ) (takeover : Bool) → IsRefusedForOne zero_down cause.NodeDown cause.UnknownNode (verb.Link l 1 0 v buffer takeover) }
    ensures start { (uuids : List ℕ) → IsRefusedForOne zero_down cause.NodeUp cause.UnknownNode (verb.AtNode 1 (node_verb.Start uuids)) }
    ensures stops { (call : ℕ) (out : OutcomeData) → LawfulHere zero_down (verb.AtNode 0 (node_verb.Stop call out)) (ok []) }
    ensures fails { (call : ℕ) → LawfulHere zero_down (verb.AtNode 0 (node_verb.Fail call)) (ok []) }
    ensures other { LawfulHere zero_down (verb.AtNode 1 (node_verb.Clock 5)) (ok []) }
    ensures other_link { LawfulHere zero_down (verb.Link 1 2 1 0 0 false) (ok []) }
    ensures other_crash { (out : OutcomeData) → LawfulHere zero_down (verb.AtNode 1 (node_verb.Crash out)) (ok []) }
{}

/// Over a link that was not dialed, and over one that ended, each line is refused as closed, and no
/// other answer is lawful; over one that was dialed it may be carried out.
pub fn judged_closed_links()
    ensures up { (wanted : ℕ) → IsRefusedFor one_over cause.LinkClosed (verb.AtLink 1 (link_verb.Up wanted)) }
    ensures down { (wanted : ℕ) → IsRefusedFor one_over cause.LinkClosed (verb.AtLink 1 (link_verb.Down wanted)) }
    ensures pump { (wanted : ℕ) → IsRefusedFor one_over cause.LinkClosed (verb.AtLink 1 (link_verb.Pump wanted)) }
    ensures drop { IsRefusedFor one_over cause.LinkClosed (verb.AtLink 1 link_verb.Drop) }
    ensures cut { IsRefusedFor one_over cause.LinkClosed (verb.AtLink 1 link_verb.Cut) }
    ensures up_undialed { (l wanted : ℕ) → IsRefusedFor empty_chronicle cause.LinkClosed (verb.AtLink l (link_verb.Up wanted)) }
    ensures down_undialed { (l wanted : ℕ) → IsRefusedFor empty_chronicle cause.LinkClosed (verb.AtLink l (link_verb.Down wanted)) }
    ensures pump_undialed { (l wanted : ℕ) → IsRefusedFor empty_chronicle cause.LinkClosed (verb.AtLink l (link_verb.Pump wanted)) }
    ensures drop_undialed { (l : ℕ) → IsRefusedFor empty_chronicle cause.LinkClosed (verb.AtLink l link_verb.Drop) }
    ensures cut_undialed { (l : ℕ) → IsRefusedFor empty_chronicle cause.LinkClosed (verb.AtLink l link_verb.Cut) }
    ensures cuts { LawfulHere one_dialed (verb.AtLink 1 link_verb.Cut) (ok (event.Ended 1 reason.Cut ∷ [])) }
    ensures other { (wanted : ℕ) → IsRefusedFor one_dialed cause.LinkClosed (verb.AtLink 2 (link_verb.Up wanted)) }
{}
