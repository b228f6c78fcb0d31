//! What a transcript tells of the connections of clients, lawfully or not.

ghost use Rattle.std.specs.Prelude.{◌≡◌, ℕ, List, [], ◌∷◌};
ghost use Rattle.script_text.specs.declared.verb.Verb.TheVariants as verb;
ghost use Rattle.script_text.specs.declared.verb.NodeVerb.TheVariants as node_verb;
ghost use Rattle.transcript_law.specs.ClientRows.{LawfulOpened, asks, breaks, closes, hangs, nooped, opens, refused, replies, sends, waits};
ghost use Rattle.transcript_law.specs.Crashes.{LawfulAfter, Said, ok, save_under, save_under_groups, stopped_behind};
ghost use Rattle.vb_disk.specs.declared.made.Outcome.TheVariants.{Old};
ghost use Rattle.vb_events.specs.declared.event.Answer.TheVariants as answer;
ghost use Rattle.vb_events.specs.declared.event.Cause.TheVariants as cause;
ghost use Rattle.vb_events.specs.declared.event.Event.TheVariants as event;

/// A connection that is open is told closed where its bytes break off, or answered what its client asked.
/// Not lawful is that of one that was never opened, of one of that number at another node, and of one that
/// is not open any more: it was told closed before, in the same group or in an earlier one, or its client
/// hung up. Nor is it that a later line closes a connection whose client waits for nothing, and an answer
/// that comes with a later line, as the first one leaves its client without it.
pub fn judged_client_lines()
    ensures closed { LawfulOpened (breaks 1 ∷ []) (ok (closes 0 1 ∷ []) ∷ []) }
    ensures closed_other { LawfulOpened (breaks 1 ∷ []) (ok (closes 0 2 ∷ []) ∷ []) → ⊥ }
    ensures closed_elsewhere { LawfulOpened (breaks 1 ∷ []) (ok (closes 1 1 ∷ []) ∷ []) → ⊥ }
    ensures closed_twice { LawfulOpened (breaks 1 ∷ []) (ok (closes 0 1 ∷ closes 0 1 ∷ []) ∷ []) → ⊥ }
    ensures closed_later { LawfulOpened (sends 1 ∷ waits ∷ []) (ok [] ∷ ok (closes 0 1 ∷ []) ∷ []) → ⊥ }
    ensures closed_again { LawfulOpened (breaks 1 ∷ waits ∷ []) (ok (closes 0 1 ∷ []) ∷ ok (closes 0 1 ∷ []) ∷ []) → ⊥ }
    ensures closed_hung { LawfulOpened (hangs 1 ∷ waits ∷ []) (ok [] ∷ ok (closes 0 1 ∷ []) ∷ []) → ⊥ }
    ensures hung { LawfulOpened (hangs 1 ∷ waits ∷ []) (ok [] ∷ ok [] ∷ []) }
    ensures reply { LawfulOpened (asks 1 ∷ []) (ok (replies 0 1 (nooped 9) ∷ []) ∷ []) }
    ensures reply_unasked { (bytes : List ℕ) → LawfulOpened (sends 1 ∷ []) (ok (replies 0 1 bytes ∷ []) ∷ []) → ⊥ }
    ensures reply_other { (bytes : List ℕ) → LawfulOpened (asks 1 ∷ []) (ok (replies 0 2 bytes ∷ []) ∷ []) → ⊥ }
    ensures reply_elsewhere { (bytes : List ℕ) → LawfulOpened (asks 1 ∷ []) (ok (replies 1 1 bytes ∷ []) ∷ []) → ⊥ }
    ensures reply_behind { (bytes : List ℕ) → LawfulOpened (asks 1 ∷ []) (ok (closes 0 1 ∷ replies 0 1 bytes ∷ []) ∷ []) → ⊥ }
    ensures reply_later { LawfulOpened (asks 1 ∷ waits ∷ []) (ok [] ∷ ok (replies 0 1 (nooped 9) ∷ []) ∷ []) → ⊥ }
    ensures reply_closed { (bytes : List ℕ) → LawfulOpened (asks 1 ∷ waits ∷ []) (ok (closes 0 1 ∷ []) ∷ ok (replies 0 1 bytes ∷ []) ∷ []) → ⊥ }
    ensures reply_hung { (bytes : List ℕ) → LawfulOpened (asks 1 ∷ hangs 1 ∷ waits ∷ []) (ok [] ∷ ok [] ∷ ok (replies 0 1 bytes ∷ []) ∷ []) → ⊥ }
{}

/// A connection opens where none of its number is open, and is refused as open where one is, and in no
/// other way; bytes and a hang are carried out where it is open, and in no other way, and are refused as
/// closed where it is not. So each goes on once the connection was hung up.
pub fn judged_client_answers()
    ensures opened_again { LawfulOpened (opens 1 ∷ []) (refused cause.LinkOpen ∷ []) }
    ensures opened_twice { (said : Said) → (said.1 ≡ answer.No cause.LinkOpen → ⊥) → LawfulOpened (opens 1 ∷ []) (said ∷ []) → ⊥ }
    ensures opened_other { LawfulOpened (opens 2 ∷ []) (ok [] ∷ []) }
    ensures other_taken { LawfulOpened (opens 2 ∷ []) (refused cause.LinkOpen ∷ []) → ⊥ }
    ensures other_limit { LawfulOpened (opens 2 ∷ []) (refused cause.Limit ∷ []) → ⊥ }
    ensures sent { LawfulOpened (sends 1 ∷ []) (ok [] ∷ []) }
    ensures sent_refused { (said : Said) → (said.1 ≡ answer.Ok → ⊥) → LawfulOpened (sends 1 ∷ []) (said ∷ []) → ⊥ }
    ensures sent_other { LawfulOpened (sends 2 ∷ []) (ok [] ∷ []) → ⊥ }
    ensures other_closed { LawfulOpened (sends 2 ∷ []) (refused cause.LinkClosed ∷ []) }
    ensures other_refused { LawfulOpened (sends 2 ∷ []) (refused cause.Limit ∷ []) → ⊥ }
    ensures hung { LawfulOpened (hangs 1 ∷ []) (ok [] ∷ []) }
    ensures hung_refused { (said : Said) → (said.1 ≡ answer.Ok → ⊥) → LawfulOpened (hangs 1 ∷ []) (said ∷ []) → ⊥ }
    ensures hung_other { LawfulOpened (hangs 2 ∷ []) (ok [] ∷ []) → ⊥ }
    ensures hung_twice { LawfulOpened (hangs 1 ∷ hangs 1 ∷ []) (ok [] ∷ ok [] ∷ []) → ⊥ }
    ensures hung_closed { LawfulOpened (hangs 1 ∷ hangs 1 ∷ []) (ok [] ∷ refused cause.LinkClosed ∷ []) }
    ensures sent_hung { LawfulOpened (hangs 1 ∷ sends 1 ∷ []) (ok [] ∷ ok [] ∷ []) → ⊥ }
    ensures sent_anew { LawfulOpened (hangs 1 ∷ opens 1 ∷ sends 1 ∷ []) (ok [] ∷ ok [] ∷ ok [] ∷ []) }
    ensures sent_closed { LawfulOpened (breaks 1 ∷ sends 1 ∷ []) (ok (closes 0 1 ∷ []) ∷ ok [] ∷ []) → ⊥ }
    ensures closed_anew { LawfulOpened (breaks 1 ∷ opens 1 ∷ []) (ok (closes 0 1 ∷ []) ∷ ok [] ∷ []) }
{}

/// Where a node stops each of its connections is told closed, once, in that group: where it crashes,
/// and behind the line that tells that it stopped.
pub fn judged_client_stops()
    ensures crashed { LawfulOpened (verb.AtNode 0 (node_verb.Crash Old) ∷ []) (ok (closes 0 1 ∷ []) ∷ []) }
    ensures untold { LawfulOpened (verb.AtNode 0 (node_verb.Crash Old) ∷ []) (ok [] ∷ []) → ⊥ }
    ensures other { LawfulOpened (verb.AtNode 0 (node_verb.Crash Old) ∷ []) (ok (closes 0 1 ∷ closes 0 2 ∷ []) ∷ []) → ⊥ }
    ensures armed { LawfulOpened (verb.AtNode 0 (node_verb.Crash Old) ∷ verb.AtNode 0 (node_verb.Fail 1) ∷ []) (ok (closes 0 1 ∷ []) ∷ ok [] ∷ []) }
    ensures again { LawfulOpened (verb.AtNode 0 (node_verb.Crash Old) ∷ verb.AtNode 0 (node_verb.Fail 1) ∷ []) (ok (closes 0 1 ∷ []) ∷ ok (closes 0 1 ∷ []) ∷ []) → ⊥ }
    ensures reply { (bytes : List ℕ) → LawfulOpened (asks 1 ∷ verb.AtNode 0 (node_verb.Crash Old) ∷ verb.AtNode 0 (node_verb.Fail 1) ∷ []) (ok [] ∷ ok (closes 0 1 ∷ []) ∷ ok (replies 0 1 bytes ∷ []) ∷ []) → ⊥ }
    ensures stopped { LawfulAfter (save_under (verb.AtNode 0 (node_verb.Stop 1 Old))) (save_under_groups (stopped_behind [])) }
    ensures stopped_untold { LawfulAfter (save_under (verb.AtNode 0 (node_verb.Stop 1 Old))) (save_under_groups (event.NodeStopped 0 ∷ [], answer.No cause.Stopped)) → ⊥ }
    ensures stopped_before { LawfulAfter (save_under (verb.AtNode 0 (node_verb.Stop 1 Old))) (save_under_groups (closes 0 1 ∷ event.NodeStopped 0 ∷ closes 0 1 ∷ [], answer.No cause.Stopped)) → ⊥ }
{}
