//! What makes a transcript lawful or not by whether nodes are down, and links over.

ghost use Rattle.std.specs.Prelude.{◌≡◌, ℕ, Bool, List, [], ◌∷◌, ◌++◌};
ghost use Rattle.script_text.specs.declared.verb.Verb.TheVariants as verb;
ghost use Rattle.script_text.specs.declared.verb.VbVerb.TheVariants as vb_verb;
ghost use Rattle.script_text.specs.declared.verb.NodeVerb.TheVariants as node_verb;
ghost use Rattle.script_text.specs.declared.verb.LinkVerb.TheVariants as link_verb;
ghost use Rattle.script_text.specs.declared.verb.ClientVerb.TheVariants as client_verb;
ghost use Rattle.transcript_law.specs.Crashes.{LawfulAfter, Said, ok, restarted};
ghost use Rattle.transcript_law.specs.Downs.{refused, crash_and, crash_and_groups, start_and, start_and_groups, begun_and_crashed, crash_under_link, crash_under_link_groups};
ghost use Rattle.transcript_law.specs.Followers.{granted_inside, next_item_line};
ghost use Rattle.transcript_law.specs.Lawfulness.{LawfulFrom, LawfulGroups};
ghost use Rattle.vb_disk.specs.declared.made.Outcome.TheVariants.{Old};
ghost use Rattle.vb_events.specs.declared.event.Answer.TheVariants as answer;
ghost use Rattle.vb_events.specs.declared.event.Cause.TheVariants as cause;
ghost use Rattle.vb_events.specs.declared.event.Event.{Event};

/// A node that is down carries out no line: each is refused as that, and tells of nothing, until it
/// starts, and it starts only then. Not lawful are lines of such a node that are answered `ok`, refused
/// for another cause, or tell of something; a start of a node that runs, or twice, and one of a node
/// that is down which is refused as one that runs, or is down, for want of ids where there are enough,
/// or for the id 0 where that is none of them; branches of a start that was refused for want of ids, and
/// a crash behind one; and over a link with an end at a node that crashed an item, frames,
/// and bytes, whichever end that was, though no line tells of the link's end. A link between other nodes goes on.
pub fn judged_downs()
    ensures shown_down { LawfulAfter (crash_and (verb.AtVb 0 0 vb_verb.Show)) (crash_and_groups (refused cause.NodeDown)) }
    ensures shows { (lines : List Event) → LawfulAfter (crash_and (verb.AtVb 0 0 vb_verb.Show)) (crash_and_groups (ok lines)) → ⊥ }
    ensures unknown { LawfulAfter (crash_and (verb.AtVb 0 0 vb_verb.Show)) (crash_and_groups (refused cause.UnknownVb)) → ⊥ }
    ensures tells { (line : Event) (lines : List Event) → LawfulAfter (crash_and (verb.AtVb 0 0 vb_verb.Show)) (crash_and_groups (line ∷ lines, answer.No cause.NodeDown)) → ⊥ }
    ensures promotes { (lines : List Event) → LawfulAfter (crash_and (verb.AtVb 0 0 (vb_verb.Promote 7))) (crash_and_groups (ok lines)) → ⊥ }
    ensures makes { (lines : List Event) → LawfulAfter (crash_and (verb.AtVb 0 1 vb_verb.MakeReplica)) (crash_and_groups (ok lines)) → ⊥ }
    ensures opens { (lines : List Event) → LawfulAfter (crash_and (verb.AtClient 0 1 client_verb.Open)) (crash_and_groups (ok lines)) → ⊥ }
    ensures dials { (buffer : ℕ) (takeover : Bool) (lines : List Event) → LawfulAfter (crash_and (verb.Link 1 0 0 0 buffer takeover)) (crash_and_groups (ok lines)) → ⊥ }
    ensures crashes_twice { (lines : List Event) → LawfulAfter (crash_and (verb.AtNode 0 (node_verb.Crash Old))) (crash_and_groups (ok lines)) → ⊥ }
    ensures made_twice { (lines : List Event) → LawfulAfter (crash_and (verb.Node 0)) (crash_and_groups (ok lines)) → ⊥ }
    ensures started_up { LawfulAfter (verb.AtNode 0 (node_verb.Start (7 ∷ [])) ∷ []) (refused cause.NodeUp ∷ []) }
    ensures starts_up { (lines : List Event) → LawfulAfter (verb.AtNode 0 (node_verb.Start (7 ∷ [])) ∷ []) (ok lines ∷ []) → ⊥ }
    ensures starts_twice { (at : ℕ) (lines : List Event) → LawfulAfter (start_and (verb.AtNode 0 (node_verb.Start (9 ∷ [])))) (start_and_groups (restarted at) (ok lines)) → ⊥ }
    ensures crashes_again { LawfulAfter (start_and (verb.AtNode 0 (node_verb.Crash Old))) (start_and_groups (restarted 0) (ok [])) }
    ensures starts_down { LawfulAfter (crash_and (verb.AtNode 0 (node_verb.Start (7 ∷ [])))) (crash_and_groups (refused cause.NodeUp)) → ⊥ }
    ensures stays_down { LawfulAfter (crash_and (verb.AtNode 0 (node_verb.Start (7 ∷ [])))) (crash_and_groups (refused cause.NodeDown)) → ⊥ }
    ensures short_tells { (line : Event) (lines : List Event) → LawfulAfter (crash_and (verb.AtNode 0 (node_verb.Start []))) (crash_and_groups (line ∷ lines, answer.No cause.IdsShort)) → ⊥ }
    ensures enough { LawfulAfter (crash_and (verb.AtNode 0 (node_verb.Start (7 ∷ [])))) (crash_and_groups (refused cause.IdsShort)) → ⊥ }
    ensures nonzero { LawfulAfter (crash_and (verb.AtNode 0 (node_verb.Start (7 ∷ [])))) (crash_and_groups (refused cause.UuidZero)) → ⊥ }
    ensures short_again { LawfulAfter (verb.AtNode 0 (node_verb.Crash Old) ∷ verb.AtNode 0 (node_verb.Start []) ∷ verb.AtNode 0 (node_verb.Crash Old) ∷ []) (crash_and_groups (refused cause.IdsShort) ++ ok [] ∷ []) → ⊥ }
    ensures next_item { LawfulFrom (begun_and_crashed 2) (next_item_line ∷ []) }
    ensures of_producer { LawfulFrom (begun_and_crashed 0) (next_item_line ∷ []) → ⊥ }
    ensures of_consumer { LawfulFrom (begun_and_crashed 1) (next_item_line ∷ []) → ⊥ }
    ensures closed { LawfulGroups (granted_inside 2) (crash_under_link 0 (verb.AtLink 1 (link_verb.Pump 9))) (crash_under_link_groups (refused cause.LinkClosed)) }
    ensures pumps { (next : Said) → (next.1 ≡ answer.No cause.LinkClosed → ⊥) → LawfulGroups (granted_inside 2) (crash_under_link 0 (verb.AtLink 1 (link_verb.Pump 9))) (crash_under_link_groups next) → ⊥ }
    ensures takes { (next : Said) → (next.1 ≡ answer.No cause.LinkClosed → ⊥) → LawfulGroups (granted_inside 2) (crash_under_link 1 (verb.AtLink 1 (link_verb.Down 9))) (crash_under_link_groups next) → ⊥ }
{}
