//! Of what a line may not tell, and which worlds are not fed.

ghost use Rattle.std.specs.Prelude.{ℕ, Bool, List, [], ◌∷◌};
ghost use Rattle.durability.specs.Chains.{Members};
ghost use Rattle.script_text.specs.declared.verb.Verb.TheVariants as verb;
ghost use Rattle.script_text.specs.declared.verb.VbVerb.TheVariants as vb_verb;
ghost use Rattle.script_text.specs.declared.verb.NodeVerb.TheVariants as node_verb;
ghost use Rattle.script_text.specs.declared.verb.LinkVerb.TheVariants as link_verb;
ghost use Rattle.script_text.specs.declared.verb.ClientVerb.TheVariants as client_verb;
ghost use Rattle.vb_events.specs.declared.event.EndReason.TheVariants as reason;
ghost use Rattle.vb_events.specs.declared.event.Event.TheVariants as event;
ghost use Rattle.transcript_law.specs.AskedRows.{down_one, pump_one, shown_at, up_one};
ghost use Rattle.transcript_law.specs.BoundRows.{LawfulHere, one_dialed};
ghost use Rattle.transcript_law.specs.ClientRows.{closes};
ghost use Rattle.transcript_law.specs.Crashes.{ok};
ghost use Rattle.transcript_law.specs.Feeding.{LinksAreFed, StreamsAreFed};
ghost use Rattle.transcript_law.specs.FeedingRows.{GoesOn, down, feeding, has_one, has_streams, one_node, owning, streaming, streaming_both, two_nodes, up};
ghost use Rattle.transcript_law.specs.TellingRows.{MayNotTell, NoneAt, NoneFirstAt, NoneOf, NotBehindStop, NotFirst, batch_at, branches_at, changes_here, ends_at, ends_for, log_at, makes_at, replies, stat_at, stops_at, turns_at};
ghost use Rattle.dcp_producer.specs.Producers.{PlainStream};
ghost use Rattle.vb_calls.specs.declared.stream.Stream.{Stream};
ghost use Rattle.vb_disk.specs.declared.made.Outcome.{Outcome};
ghost use Rattle.vb_disk.specs.declared.made.Outcome.TheVariants.{Old};
ghost use Rattle.vb_types.specs.declared.role.Role.TheVariants as role;
ghost use Rattle.vb_types.specs.declared.stream.StreamAsk.{StreamAsk};

/// Whatever was read before and however it is answered, a line for a vBucket tells of nothing that is not
/// its own: a save of no role, no branch, no change and no reply, and of no other node that stopped; a
/// change of role of no other vBucket's, at its node or elsewhere; and so on.
pub fn judged_own_lines()
    ensures save_role { MayNotTell (verb.AtVb 0 0 vb_verb.Save) (turns_at 0 0) }
    ensures save_branch { MayNotTell (verb.AtVb 0 0 vb_verb.Save) (branches_at 0 0) }
    ensures save_change { MayNotTell (verb.AtVb 0 0 vb_verb.Save) changes_here }
    ensures save_reply { MayNotTell (verb.AtVb 0 0 vb_verb.Save) replies }
    ensures save_elsewhere { MayNotTell (verb.AtVb 0 0 vb_verb.Save) (stops_at 1) }
    ensures follow_elsewhere { MayNotTell (verb.AtVb 0 0 vb_verb.Follow) (turns_at 1 0) }
    ensures follow_other { MayNotTell (verb.AtVb 0 0 vb_verb.Follow) (turns_at 0 1) }
    ensures dead_elsewhere { MayNotTell (verb.AtVb 0 0 vb_verb.Dead) (turns_at 1 0) }
    ensures dead_other { MayNotTell (verb.AtVb 0 0 vb_verb.Dead) (turns_at 0 1) }
    ensures promote_elsewhere { (uuid : ℕ) → MayNotTell (verb.AtVb 0 0 (vb_verb.Promote uuid)) (branches_at 1 0) }
    ensures promote_other { (uuid : ℕ) → MayNotTell (verb.AtVb 0 0 (vb_verb.Promote uuid)) (branches_at 0 1) }
    ensures make_elsewhere { (uuid : ℕ) → MayNotTell (verb.AtVb 0 0 (vb_verb.MakeActive uuid)) (branches_at 1 0) }
    ensures make_other { MayNotTell (verb.AtVb 0 0 vb_verb.MakeReplica) (turns_at 0 1) }
    ensures make_reply { (uuid : ℕ) → MayNotTell (verb.AtVb 0 0 (vb_verb.MakeActive uuid)) replies }
    ensures chain_role { (others : Members) → MayNotTell (verb.AtVb 0 0 (vb_verb.Chain others)) (turns_at 0 0) }
    ensures tick_role { MayNotTell (verb.AtVb 0 0 vb_verb.Tick) (turns_at 0 0) }
    ensures seal_change { MayNotTell (verb.AtVb 0 0 vb_verb.Seal) changes_here }
    ensures trim_change { MayNotTell (verb.AtVb 0 0 vb_verb.Trim) changes_here }
    ensures trim_stat { MayNotTell (verb.AtVb 0 0 vb_verb.Trim) (stat_at 0 0) }
    ensures take_other { MayNotTell (verb.AtVb 0 0 vb_verb.Take) (batch_at 0 1) }
    ensures take_change { MayNotTell (verb.AtVb 0 0 vb_verb.Take) changes_here }
    ensures done_role { MayNotTell (verb.AtVb 0 0 vb_verb.Done) (turns_at 0 0) }
    ensures stat_other { MayNotTell (verb.AtVb 0 0 vb_verb.Stat) (stat_at 0 1) }
    ensures stat_elsewhere { MayNotTell (verb.AtVb 0 0 vb_verb.Stat) (stat_at 1 0) }
    ensures log_other { MayNotTell (verb.AtVb 0 0 vb_verb.Log) (log_at 0 1) }
    ensures log_elsewhere { MayNotTell (verb.AtVb 0 0 vb_verb.Log) (log_at 1 0) }
    ensures show_other { MayNotTell (verb.AtVb 0 0 vb_verb.Show) (shown_at 0 1) }
    ensures show_elsewhere { MayNotTell (verb.AtVb 0 0 vb_verb.Show) (shown_at 1 0) }
    ensures show_change { MayNotTell (verb.AtVb 0 0 vb_verb.Show) changes_here }
    ensures show_log { MayNotTell (verb.AtVb 0 0 vb_verb.Show) (log_at 0 0) }
{}

/// So it is of lines for nodes, clients and links: one that makes a node, dials, sets a clock or an arm,
/// opens a connection, hangs up or drops a cursor tells of nothing; a crash of ends alone; a start of its own node; and a
/// cut of its own link.
pub fn judged_other_lines()
    ensures node { MayNotTell (verb.Node 0) (turns_at 0 0) }
    ensures link { (buffer : ℕ) (takeover : Bool) → MayNotTell (verb.Link 1 0 1 0 buffer takeover) (ends_at 1) }
    ensures clock { (nanos : ℕ) → MayNotTell (verb.AtNode 0 (node_verb.Clock nanos)) changes_here }
    ensures clock_closes { (nanos : ℕ) → MayNotTell (verb.AtNode 0 (node_verb.Clock nanos)) (closes 0 1) }
    ensures stop { (k : ℕ) (out : Outcome) → MayNotTell (verb.AtNode 0 (node_verb.Stop k out)) (stops_at 0) }
    ensures fail { (k : ℕ) → MayNotTell (verb.AtNode 0 (node_verb.Fail k)) (stops_at 0) }
    ensures crash { (out : Outcome) → MayNotTell (verb.AtNode 0 (node_verb.Crash out)) (turns_at 0 0) }
    ensures crash_stop { (out : Outcome) → MayNotTell (verb.AtNode 0 (node_verb.Crash out)) (stops_at 0) }
    ensures start_elsewhere { (uuids : List ℕ) → MayNotTell (verb.AtNode 0 (node_verb.Start uuids)) (branches_at 1 0) }
    ensures start_role { (uuids : List ℕ) → MayNotTell (verb.AtNode 0 (node_verb.Start uuids)) (turns_at 0 0) }
    ensures opens { MayNotTell (verb.AtClient 0 1 client_verb.Open) replies }
    ensures hang { MayNotTell (verb.AtClient 0 1 client_verb.Hang) replies }
    ensures bytes { (bytes : List ℕ) → MayNotTell (verb.AtClient 0 1 (client_verb.Bytes bytes)) (turns_at 0 0) }
    ensures drop_end { MayNotTell (verb.AtLink 1 link_verb.Drop) (ends_at 1) }
    ensures drop_role { MayNotTell (verb.AtLink 1 link_verb.Drop) (turns_at 0 0) }
    ensures cut_other { MayNotTell (verb.AtLink 1 link_verb.Cut) (ends_at 2) }
    ensures cut_role { MayNotTell (verb.AtLink 1 link_verb.Cut) (turns_at 0 0) }
{}

/// A link that feeds a replica from a node that runs is fed. It is not where its producer's node is down,
/// or was not made, or the node of its vBucket is down; where there is no such vBucket, or it is active or
/// dead; and where another link feeds the same one. One by which its vBucket took its branch over is fed
/// exactly where that is active or dead.
pub fn judged_fed_links()
    ensures fed { (ask : StreamAsk) → LinksAreFed (two_nodes up (has_one role.Replica) (feeding 1 ask ∷ [])) }
    ensures producer_down { (ask : StreamAsk) → LinksAreFed (two_nodes down (has_one role.Replica) (feeding 1 ask ∷ [])) → ⊥ }
    ensures producer_unmade { (ask : StreamAsk) → LinksAreFed (one_node (has_one role.Replica) (feeding 1 ask ∷ [])) → ⊥ }
    ensures consumer_down { (ask : StreamAsk) → LinksAreFed (two_nodes up down (feeding 1 ask ∷ [])) → ⊥ }
    ensures no_vb { (ask : StreamAsk) → LinksAreFed (two_nodes up up (feeding 1 ask ∷ [])) → ⊥ }
    ensures active { (ask : StreamAsk) → LinksAreFed (two_nodes up (has_one role.Active) (feeding 1 ask ∷ [])) → ⊥ }
    ensures dead { (ask : StreamAsk) → LinksAreFed (two_nodes up (has_one role.Dead) (feeding 1 ask ∷ [])) → ⊥ }
    ensures owner { (ask : StreamAsk) → LinksAreFed (two_nodes up (has_one role.Active) (owning 1 ask ∷ [])) }
    ensures gone_on { (ask : StreamAsk) → LinksAreFed (two_nodes up (has_one role.Dead) (owning 1 ask ∷ [])) }
    ensures owns_none { (ask : StreamAsk) → LinksAreFed (two_nodes up (has_one role.Replica) (owning 1 ask ∷ [])) → ⊥ }
    ensures twice { (ask : StreamAsk) → LinksAreFed (two_nodes up (has_one role.Replica) (feeding 1 ask ∷ feeding 2 ask ∷ [])) → ⊥ }
{}

/// The streams of vBuckets are those of links and of clients: not of a vBucket's stream that neither has,
/// of a link's that its vBucket lacks, be it the first that its producer has or the second, and of two
/// links that have one.
pub fn judged_linked_streams()
    ensures unlinked { (s : Stream) → StreamsAreFed (two_nodes (has_streams (s ∷ [])) up []) → ⊥ }
    ensures unopened { (ask : StreamAsk) (stream : PlainStream) → GoesOn stream → StreamsAreFed (two_nodes (has_streams []) (has_one role.Replica) (streaming 1 ask stream ∷ [])) → ⊥ }
    ensures second { (ask : StreamAsk) (first stream : PlainStream) → GoesOn stream → StreamsAreFed (two_nodes (has_streams []) (has_one role.Replica) (streaming_both 1 ask first stream ∷ [])) → ⊥ }
    ensures shared { (ask : StreamAsk) (stream : PlainStream) → GoesOn stream → (s : Stream) → StreamsAreFed (two_nodes (has_streams (s ∷ [])) (has_one role.Replica) (streaming 1 ask stream ∷ streaming 2 ask stream ∷ [])) → ⊥ }
{}

/// What a line tells of clients is of its own node, and where bytes come over a connection of that one
/// alone: of no change, no request, no answer and no closing at another node, in lines that set a chain,
/// give prepares up, count a batch as saved or change a role, and of no other connection where bytes come.
/// What comes up a link tells of clients of its producer's node alone.
pub fn judged_own_clients()
    ensures chain { (others : Members) → NoneAt (verb.AtVb 0 0 (vb_verb.Chain others)) 1 }
    ensures tick { NoneAt (verb.AtVb 0 0 vb_verb.Tick) 1 }
    ensures done { NoneAt (verb.AtVb 0 0 vb_verb.Done) 1 }
    ensures promote { (uuid : ℕ) → NoneAt (verb.AtVb 0 0 (vb_verb.Promote uuid)) 1 }
    ensures follow { NoneAt (verb.AtVb 0 0 vb_verb.Follow) 1 }
    ensures dead { NoneAt (verb.AtVb 0 0 vb_verb.Dead) 1 }
    ensures bytes { (bytes : List ℕ) → NoneAt (verb.AtClient 0 1 (client_verb.Bytes bytes)) 1 }
    ensures bytes_beside { (bytes : List ℕ) → NoneOf (verb.AtClient 0 1 (client_verb.Bytes bytes)) 0 2 }
    ensures pull_beside { NoneOf (verb.AtClient 0 1 (client_verb.Pull 9)) 0 2 }
    ensures up { NoneFirstAt up_one 1 }
    ensures down { NoneFirstAt down_one 1 }
{}

/// Where a node crashes, the links that have an end there are cut, and no other link is; each ends so
/// alone. Where it stops inside a line, that is told behind the stop and not before it, and nothing else
/// is told there. A change of role cuts the link that feeds its vBucket: not that of another vBucket, nor
/// one that the vBucket feeds. Bytes for a consumer end their own link alone, for another reason than a
/// cut, and let no client go; a cut is told as one; and neither `up` nor `pump` ends a link.
pub fn judged_ended_links()
    ensures crash_source { LawfulHere one_dialed (verb.AtNode 0 (node_verb.Crash Old)) (ok (ends_at 1 ∷ [])) }
    ensures crash_follower { LawfulHere one_dialed (verb.AtNode 1 (node_verb.Crash Old)) (ok (ends_at 1 ∷ [])) }
    ensures crash_elsewhere { (out : Outcome) → NotFirst (verb.AtNode 2 (node_verb.Crash out)) (ends_at 1) }
    ensures crash_other { (out : Outcome) → NotFirst (verb.AtNode 1 (node_verb.Crash out)) (ends_at 2) }
    ensures crash_reason { (out : Outcome) → MayNotTell (verb.AtNode 1 (node_verb.Crash out)) (ends_for 1 reason.Protocol) }
    ensures crash_client { (out : Outcome) → MayNotTell (verb.AtNode 1 (node_verb.Crash out)) (closes 0 1) }
    ensures promote_other { (uuid : ℕ) → NotFirst (verb.AtVb 1 1 (vb_verb.Promote uuid)) (ends_at 1) }
    ensures promote_source { (uuid : ℕ) → NotFirst (verb.AtVb 0 0 (vb_verb.Promote uuid)) (ends_at 1) }
    ensures promote_reason { (uuid : ℕ) → MayNotTell (verb.AtVb 1 0 (vb_verb.Promote uuid)) (ends_for 1 reason.Protocol) }
    ensures follow_other { NotFirst (verb.AtVb 1 1 vb_verb.Follow) (ends_at 1) }
    ensures follow_source { NotFirst (verb.AtVb 0 0 vb_verb.Follow) (ends_at 1) }
    ensures follow_reason { MayNotTell (verb.AtVb 1 0 vb_verb.Follow) (ends_for 1 reason.Protocol) }
    ensures dead_other { NotFirst (verb.AtVb 1 1 vb_verb.Dead) (ends_at 1) }
    ensures dead_source { NotFirst (verb.AtVb 0 0 vb_verb.Dead) (ends_at 1) }
    ensures dead_reason { MayNotTell (verb.AtVb 1 0 vb_verb.Dead) (ends_for 1 reason.Protocol) }
    ensures save_early { NotFirst (verb.AtVb 1 0 vb_verb.Save) (ends_at 1) }
    ensures save_client { NotFirst (verb.AtVb 1 0 vb_verb.Save) (closes 1 1) }
    ensures make_early { NotFirst (verb.AtVb 1 0 vb_verb.MakeReplica) (ends_at 1) }
    ensures stop_elsewhere { NotBehindStop (verb.AtVb 2 0 vb_verb.Save) 2 (ends_at 1) }
    ensures stop_reason { NotBehindStop (verb.AtVb 1 0 vb_verb.Save) 1 (ends_for 1 reason.Protocol) }
    ensures stop_client { NotBehindStop (verb.AtVb 1 0 vb_verb.Save) 1 (closes 0 1) }
    ensures stop_fails { NotBehindStop (verb.AtVb 1 0 vb_verb.Save) 1 (event.CallFailed 1) }
    ensures stop_again { NotBehindStop (verb.AtVb 1 0 vb_verb.Save) 1 (stops_at 1) }
    ensures stop_role { NotBehindStop (verb.AtVb 1 0 vb_verb.Follow) 1 (turns_at 1 0) }
    ensures stop_change { NotBehindStop (verb.AtNode 1 (node_verb.Start [])) 1 (makes_at 1) }
    ensures down_other { NotFirst down_one (ends_at 2) }
    ensures down_cut { NotFirst down_one (ends_at 1) }
    ensures down_stopped { NotBehindStop down_one 1 (ends_at 2) }
    ensures cut_reason { MayNotTell (verb.AtLink 1 link_verb.Cut) (ends_for 1 reason.Protocol) }
    ensures up_ends { MayNotTell up_one (ends_at 1) }
    ensures pump_ends { MayNotTell pump_one (ends_at 1) }
{}
