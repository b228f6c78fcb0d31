//! That nobody waits for nothing.

ghost use Rattle.std.specs.Prelude.{◌≡◌, ◌≢◌, ◌<◌, ◌^◌, ◌++◌, ℕ, List, [], ◌∷◌, true, Some, None, Ok};
ghost use Rattle.client_session.specs.declared.session.Awaited.{Awaited};
ghost use Rattle.durability.specs.Chains.{Members};
ghost use Rattle.mcbp_kv.specs.Requests.{request_of};
ghost use Rattle.mcbp_kv.specs.declared.durable.Durability.{Durability};
ghost use Rattle.mcbp_kv.specs.declared.request.KvRequest.TheVariants as request;
ghost use Rattle.node_core.specs.Clients.{PlainClient};
ghost use Rattle.node_core.specs.Admin.{changes_role};
ghost use Rattle.node_core.specs.declared.admin.AdminCall.{AdminCall};
ghost use Rattle.node_world.specs.Turns.{called_at};
ghost use Rattle.node_world.specs.Links.{PlainLink, up_at};
ghost use Rattle.node_world.specs.Nodes.{PlainNode, all_posted, bytes_at, chain_line, flush_line, save_line, tick_line};
ghost use Rattle.node_world.specs.Worlds.{empty_world};
ghost use Rattle.script_text.specs.Fitting.{ScriptFits};
ghost use Rattle.script_text.specs.declared.verb.ScriptLine.{ScriptLine};
ghost use Rattle.transcript_law.specs.LastLines.{LastLine, risen_through};
ghost use Rattle.transcript_law.specs.LinesTold.{Chronicle};
ghost use Rattle.transcript_law.specs.OwnWaits.{AllAwaitTheirOwn, AwaitTheirOwnIf, AwaitsItsOwn, IsEntryOf, IsTheOneAt, another_waits, node_alone, one_node, two_states, waits_alone};
ghost use Rattle.transcript_law.specs.Prefixes.{AreFollowed, known_of, world_of};
ghost use Rattle.transcript_law.specs.Questions.{Question, question_of};
ghost use Rattle.transcript_law.specs.StreamsTold.{Asking};
ghost use Rattle.transcript_law.specs.Waits.{ForgetsNone, IsItsWish, LeavesOthers, NoneWaitsInVain, WaitsAsAsked, one_waits, told_one, waits_elsewhere, waits_for_ever, waits_higher, waits_later, waits_longer, with_one_at, with_only, with_told, with_waiting};
ghost use Rattle.vb_types.specs.declared.journal.FlushPart.{FlushPart};
ghost use Rattle.vb_calls.specs.Durable.{Wish};
ghost use Rattle.vb_calls.specs.Plain.{Plain, plain_step};
ghost use Rattle.vb_calls.specs.State.{pending_of};
ghost use Rattle.vb_calls.specs.States.{States};
ghost use Rattle.vb_calls.specs.declared.calls.VbAnswer.TheVariants as answer;
ghost use Rattle.vb_calls.specs.declared.calls.VbCall.{VbCall as Call};
ghost use Rattle.vb_calls.specs.declared.calls.VbReply.{VbReply as Reply};
ghost use Rattle.vb_types.specs.declared.change.Pend.{Pend};
ghost use Rattle.vb_types.specs.declared.role.Role.TheVariants as role;
ghost use Rattle.vb_types.specs.declared.write.Op.TheVariants as op;
ghost use Rattle.vb_types.specs.declared.write.Write.{Write as WriteData};
ghost use Rattle.vbucket.specs.DurableLaws.{durably};
ghost use Rattle.vbucket.specs.Laws.{IsTimely, Sound};
ghost use Rattle.vbucket.specs.Settles.{IsSettled};

/// No call of a vBucket forgets who waits for a durable write: behind each call a prepare is outstanding
/// as it was, or who waits for it is told what became of it. A durable write that is prepared is
/// outstanding under the number that it was asked with, or its outcome is told at once. Where no more may
/// be committed it leaves all others outstanding, so that no outcome is told but its own.
pub fn calls_forget_none()
    ensures keeps { (vb : Plain) (made : Call) → Sound vb → IsTimely made → ForgetsNone vb (plain_step vb made) }
    ensures places { (vb : Plain) (write : WriteData) (clock : ℕ) (wish : Wish) (seq cas : ℕ) → Sound vb → clock < 2 ^ 64 → wish.waiter ≢ 0
        → (plain_step vb (durably write clock wish)).1.answer ≡ answer.Prepared seq cas → WaitsAsAsked write wish seq (plain_step vb (durably write clock wish)) }
    ensures leaves { (vb : Plain) (write : WriteData) (clock : ℕ) (wish : Wish) → Sound vb → IsSettled vb → LeavesOthers vb (plain_step vb (durably write clock wish)) }
{}

/// One prepare is outstanding, and somebody waits for it under 7: a call that leaves it, or that tells 7,
/// forgets none; one that tells nobody, or somebody else, does, also where another prepare of the same
/// seqno is outstanding behind it; and so does one that leaves it as that of another key, with another
/// seqno or level, or with another deadline or none. One for which nobody waits may go untold.
pub fn judged_forgotten_waits()
    ensures stays { (vb : Plain) (reply : Reply) → ForgetsNone (with_waiting vb (one_waits 7 ∷ [])) (with_waiting vb (one_waits 7 ∷ []), with_told reply []) }
    ensures told { (vb : Plain) (reply : Reply) → ForgetsNone (with_waiting vb (one_waits 7 ∷ [])) (with_waiting vb [], with_told reply (told_one 7)) }
    ensures untold { (vb : Plain) (reply : Reply) → ForgetsNone (with_waiting vb (one_waits 7 ∷ [])) (with_waiting vb [], with_told reply []) → ⊥ }
    ensures other { (vb : Plain) (reply : Reply) → ForgetsNone (with_waiting vb (one_waits 7 ∷ [])) (with_waiting vb [], with_told reply (told_one 8)) → ⊥ }
    ensures renumbered { (vb : Plain) (reply : Reply) → ForgetsNone (with_waiting vb (one_waits 7 ∷ [])) (with_waiting vb (one_waits 8 ∷ []), with_told reply []) → ⊥ }
    ensures elsewhere { (vb : Plain) (reply : Reply) → ForgetsNone (with_waiting vb (one_waits 7 ∷ [])) (with_waiting vb (waits_elsewhere ∷ []), with_told reply []) → ⊥ }
    ensures later { (vb : Plain) (reply : Reply) → ForgetsNone (with_waiting vb (one_waits 7 ∷ [])) (with_waiting vb (waits_later ∷ []), with_told reply []) → ⊥ }
    ensures higher { (vb : Plain) (reply : Reply) → ForgetsNone (with_waiting vb (one_waits 7 ∷ [])) (with_waiting vb (waits_higher ∷ []), with_told reply []) → ⊥ }
    ensures longer { (vb : Plain) (reply : Reply) → ForgetsNone (with_waiting vb (one_waits 7 ∷ [])) (with_waiting vb (waits_longer ∷ []), with_told reply []) → ⊥ }
    ensures for_ever { (vb : Plain) (reply : Reply) → ForgetsNone (with_waiting vb (one_waits 7 ∷ [])) (with_waiting vb (waits_for_ever ∷ []), with_told reply []) → ⊥ }
    ensures nobody { (vb : Plain) (reply : Reply) → ForgetsNone (with_waiting vb (one_waits 0 ∷ [])) (with_waiting vb [], with_told reply []) }
    ensures left { (vb : Plain) (reply : Reply) → LeavesOthers (with_waiting vb (one_waits 7 ∷ [])) (with_waiting vb (one_waits 7 ∷ one_waits 8 ∷ []), reply) }
    ensures taken { (vb : Plain) (reply : Reply) → LeavesOthers (with_waiting vb (one_waits 7 ∷ [])) (with_waiting vb (one_waits 8 ∷ []), with_told reply (told_one 7)) → ⊥ }
{}

/// A durable write of the key 107 is prepared at 5 for 7, at level 1, to be given up at 1: that is
/// outstanding then, or 7 is told. It is not where it is outstanding for 8, or as that of another key, with
/// another seqno or level, or with another deadline or none; nor where nothing is, and nobody is told.
pub fn judged_placed_waits()
    ensures placed { (vb : Plain) (reply : Reply) (write : WriteData) (wish : Wish) → IsItsWish write wish → WaitsAsAsked write wish 5 (with_waiting vb (one_waits 7 ∷ []), with_told reply []) }
    ensures told { (vb : Plain) (reply : Reply) (write : WriteData) (wish : Wish) → IsItsWish write wish → WaitsAsAsked write wish 5 (with_waiting vb [], with_told reply (told_one 7)) }
    ensures other { (vb : Plain) (reply : Reply) (write : WriteData) (wish : Wish) → IsItsWish write wish → WaitsAsAsked write wish 5 (with_waiting vb (one_waits 8 ∷ []), with_told reply (told_one 8)) → ⊥ }
    ensures elsewhere { (vb : Plain) (reply : Reply) (write : WriteData) (wish : Wish) → IsItsWish write wish → WaitsAsAsked write wish 5 (with_waiting vb (waits_elsewhere ∷ []), with_told reply []) → ⊥ }
    ensures later { (vb : Plain) (reply : Reply) (write : WriteData) (wish : Wish) → IsItsWish write wish → WaitsAsAsked write wish 5 (with_waiting vb (waits_later ∷ []), with_told reply []) → ⊥ }
    ensures higher { (vb : Plain) (reply : Reply) (write : WriteData) (wish : Wish) → IsItsWish write wish → WaitsAsAsked write wish 5 (with_waiting vb (waits_higher ∷ []), with_told reply []) → ⊥ }
    ensures longer { (vb : Plain) (reply : Reply) (write : WriteData) (wish : Wish) → IsItsWish write wish → WaitsAsAsked write wish 5 (with_waiting vb (waits_longer ∷ []), with_told reply []) → ⊥ }
    ensures for_ever { (vb : Plain) (reply : Reply) (write : WriteData) (wish : Wish) → IsItsWish write wish → WaitsAsAsked write wish 5 (with_waiting vb (waits_for_ever ∷ []), with_told reply []) → ⊥ }
    ensures untold { (vb : Plain) (reply : Reply) (write : WriteData) (wish : Wish) → IsItsWish write wish → WaitsAsAsked write wish 5 (with_waiting vb [], with_told reply []) → ⊥ }
{}

/// Where no connection of a node waits for nothing, none does behind what a client sends. And where the
/// numbers of a script's lines rise, none does behind a chain, a tick, each step of writing a vBucket down,
/// and bytes for the producer of a link, whose frames acknowledge; nor behind
/// a change of role, once its outcomes are posted: who is told an outcome goes on with what
/// it sent behind its write, and awaits at most a later one, which is outstanding.
pub fn settling_leaves_none_in_vain()
    ensures bytes { (script : List ScriptLine) → ScriptFits script → (n : ℕ) (node : PlainNode) → (world_of script).nodes n ≡ Some node → NoneWaitsInVain node → (c : ℕ) (bytes : List ℕ) → NoneWaitsInVain (bytes_at c bytes node).0 }
    ensures chains { (script : List ScriptLine) → ScriptFits script → (line : LastLine) → (known_of script).last ≡ Some line → (n : ℕ) (node : PlainNode) → (world_of script).nodes n ≡ Some node → NoneWaitsInVain node
        → (v : ℕ) (others : Members) → NoneWaitsInVain (chain_line n v others node).0 }
    ensures ticks { (script : List ScriptLine) → ScriptFits script → (line : LastLine) → (known_of script).last ≡ Some line → (n : ℕ) (node : PlainNode) → (world_of script).nodes n ≡ Some node → NoneWaitsInVain node
        → (v : ℕ) → NoneWaitsInVain (tick_line n v node).0 }
    ensures flushes { (script : List ScriptLine) → ScriptFits script → (line : LastLine) → (known_of script).last ≡ Some line → (n : ℕ) (node : PlainNode) → (world_of script).nodes n ≡ Some node → NoneWaitsInVain node
        → (v : ℕ) (part : FlushPart) → NoneWaitsInVain (flush_line n v part node).0 }
    ensures saves { (script : List ScriptLine) → ScriptFits script → (line : LastLine) → (known_of script).last ≡ Some line → (n : ℕ) (node : PlainNode) → (world_of script).nodes n ≡ Some node → NoneWaitsInVain node
        → (v : ℕ) → NoneWaitsInVain (save_line n v node).0 }
    ensures ups { (script : List ScriptLine) → ScriptFits script → (line : LastLine) → (known_of script).last ≡ Some line → (n : ℕ) (node : PlainNode) → (world_of script).nodes n ≡ Some node → NoneWaitsInVain node
        → (wanted : ℕ) (link : PlainLink) → NoneWaitsInVain (up_at wanted link node).0 }
    ensures roles { (script : List ScriptLine) → ScriptFits script → (line : LastLine) → (known_of script).last ≡ Some line → (n : ℕ) (node : PlainNode) → (world_of script).nodes n ≡ Some node → NoneWaitsInVain node
        → (v : ℕ) (asked : AdminCall) (ids : List ℕ) → changes_role asked ≡ true → (called_at n v asked node).1.ended ≡ Some ids → NoneWaitsInVain (all_posted (called_at n v asked node).1.resolved (called_at n v asked node).0).0 }
{}

/// A connection that awaits 7 does not wait for nothing where a prepare is outstanding for 7; where there is
/// none, or only one for 8, or where the node has no vBucket, it does, whatever its number is, up to 999.
pub fn judged_vain_waits()
    ensures waits { (node : PlainNode) (client : PlainClient) (a : Awaited) (vb : Plain) → client.session.awaited ≡ Some a → a.waiter ≡ 7 → NoneWaitsInVain (with_only node client (Some (with_waiting vb (one_waits 7 ∷ [])))) }
    ensures other { (node : PlainNode) (client : PlainClient) (a : Awaited) (vb : Plain) → client.session.awaited ≡ Some a → a.waiter ≡ 7 → NoneWaitsInVain (with_only node client (Some (with_waiting vb (one_waits 8 ∷ [])))) → ⊥ }
    ensures nothing { (node : PlainNode) (client : PlainClient) (a : Awaited) (vb : Plain) → client.session.awaited ≡ Some a → a.waiter ≡ 7 → NoneWaitsInVain (with_only node client (Some (with_waiting vb []))) → ⊥ }
    ensures nowhere { (node : PlainNode) (client : PlainClient) (a : Awaited) → client.session.awaited ≡ Some a → a.waiter ≡ 7 → NoneWaitsInVain (with_only node client None) → ⊥ }
    ensures any { (node : PlainNode) (client : PlainClient) (a : Awaited) (c : ℕ) → c < 1000 → client.session.awaited ≡ Some a → NoneWaitsInVain (with_one_at node c client) → ⊥ }
    ensures idle { (node : PlainNode) (client : PlainClient) → client.session.awaited ≡ None → NoneWaitsInVain (with_only node client None) }
{}

/// Behind each script whose lines' numbers rise below 2^32, as those of a text that is read do, nobody waits
/// for nothing; and a front of a script is one. Each connection that awaits an outcome is to be answered a durable
/// write next, and exactly one prepare of its node is outstanding under the number that it awaits: at the
/// vBucket that the write's frame names, which is active, of the write's key, and what waits at that key in
/// the vBucket's image is that prepare, with the write's document.
pub fn awaited_writes_are_outstanding()
    ensures none { (script : List ScriptLine) → ScriptFits script → (line : ℕ) → risen_through (Some 0) script ≡ Some line → (n : ℕ) (node : PlainNode) → (world_of script).nodes n ≡ Some node → NoneWaitsInVain node }
    ensures own { (script : List ScriptLine) → ScriptFits script → (line : ℕ) → risen_through (Some 0) script ≡ Some line → AllAwaitTheirOwn (known_of script) (world_of script) }
    ensures fronts { (front rest : List ScriptLine) (line : ℕ) → risen_through (Some 0) (front ++ rest) ≡ Some line → (before : ℕ) × (risen_through (Some 0) front ≡ Some before) }
{}

/// At an active vBucket a prepare of a write is outstanding under 7, and waits at its key with its document: it
/// is the one that is awaited under 7. It is not where it is outstanding under 8 or at another vBucket,
/// where the vBucket is no active one, or the write is of another key, or where nothing waits at the key, or what
/// came later, or what holds another value, other flags, another expiry or datatype, or removes; nor where another prepare is outstanding under
/// 7 too, at another vBucket or at the same one.
pub fn judged_own_prepares()
    ensures one { (vb : Plain) (write : WriteData) (pend : Pend) → vb.role ≡ role.Active → write.key ≡ 107 ∷ [] → pending_of vb (107 ∷ []) ≡ Some pend → pend.seq ≡ 5 → IsEntryOf write pend → IsTheOneAt 7 (two_states (waits_alone vb 7) None) 0 write }
    ensures other { (vb : Plain) (write : WriteData) → IsTheOneAt 7 (two_states (waits_alone vb 8) None) 0 write → ⊥ }
    ensures elsewhere { (vb : Plain) (write : WriteData) → IsTheOneAt 7 (two_states None (waits_alone vb 7)) 0 write → ⊥ }
    ensures idle { (vb : Plain) (write : WriteData) → vb.role ≡ role.Replica → IsTheOneAt 7 (two_states (waits_alone vb 7) None) 0 write → ⊥ }
    ensures key { (vb : Plain) (write : WriteData) → write.key ≡ 108 ∷ [] → IsTheOneAt 7 (two_states (waits_alone vb 7) None) 0 write → ⊥ }
    ensures nothing { (vb : Plain) (write : WriteData) → pending_of vb write.key ≡ None → IsTheOneAt 7 (two_states (waits_alone vb 7) None) 0 write → ⊥ }
    ensures later { (vb : Plain) (write : WriteData) (pend : Pend) → pending_of vb write.key ≡ Some pend → pend.seq ≡ 6 → IsTheOneAt 7 (two_states (waits_alone vb 7) None) 0 write → ⊥ }
    ensures value { (vb : Plain) (write : WriteData) (pend : Pend) → pending_of vb write.key ≡ Some pend → pend.doc.value ≢ write.value → IsTheOneAt 7 (two_states (waits_alone vb 7) None) 0 write → ⊥ }
    ensures flags { (vb : Plain) (write : WriteData) (pend : Pend) → pending_of vb write.key ≡ Some pend → pend.doc.flags ≢ write.flags → IsTheOneAt 7 (two_states (waits_alone vb 7) None) 0 write → ⊥ }
    ensures expiry { (vb : Plain) (write : WriteData) (pend : Pend) → pending_of vb write.key ≡ Some pend → pend.doc.expiry ≢ write.expiry → IsTheOneAt 7 (two_states (waits_alone vb 7) None) 0 write → ⊥ }
    ensures datatype { (vb : Plain) (write : WriteData) (pend : Pend) → pending_of vb write.key ≡ Some pend → pend.doc.datatype ≢ write.datatype → IsTheOneAt 7 (two_states (waits_alone vb 7) None) 0 write → ⊥ }
    ensures removes { (vb : Plain) (write : WriteData) (pend : Pend) → pending_of vb write.key ≡ Some pend → pend.deleted ≡ true → write.op ≡ op.Set → IsTheOneAt 7 (two_states (waits_alone vb 7) None) 0 write → ⊥ }
    ensures two { (vb other : Plain) (write : WriteData) → IsTheOneAt 7 (two_states (waits_alone vb 7) (waits_alone other 7)) 0 write → ⊥ }
    ensures both { (vb : Plain) (write : WriteData) → IsTheOneAt 7 (two_states (Some (with_waiting vb (one_waits 7 ∷ another_waits 7 ∷ []))) None) 0 write → ⊥ }
    ensures apart { (vb : Plain) (write : WriteData) (pend : Pend) → vb.role ≡ role.Active → write.key ≡ 107 ∷ [] → pending_of vb (107 ∷ []) ≡ Some pend → pend.seq ≡ 5 → IsEntryOf write pend
        → IsTheOneAt 7 (two_states (Some (with_waiting vb (one_waits 7 ∷ another_waits 8 ∷ []))) None) 0 write }
{}

/// A connection whose next question is a durable write awaits its own where that prepare is the one; one
/// that has no question, or whose question is a plain write, does not, nor one whose prepare is outstanding
/// at another vBucket than the question names. In a world with no node all do, and
/// not where a connection awaits an outcome at a node with no vBucket, whatever the numbers of both are, as
/// long as the numbers of lines rise; nor is that what a script leaves.
pub fn judged_own_waits()
    ensures own { (asking : Asking) (q : Question) (write : WriteData) (wish : Durability) (a : Awaited) (states : States) → question_of asking ≡ Some q → request_of asking.settings.json q.frame ≡ Ok (request.Write write (Some wish))
        → IsTheOneAt a.waiter states q.frame.vb_or_status write → AwaitsItsOwn asking a states }
    ensures unasked { (asking : Asking) (a : Awaited) (states : States) → question_of asking ≡ None → AwaitsItsOwn asking a states → ⊥ }
    ensures plain { (asking : Asking) (q : Question) (write : WriteData) (a : Awaited) (states : States) → question_of asking ≡ Some q → request_of asking.settings.json q.frame ≡ Ok (request.Write write None) → AwaitsItsOwn asking a states → ⊥ }
    ensures elsewhere { (asking : Asking) (q : Question) (a : Awaited) (vb : Plain) → question_of asking ≡ Some q → q.frame.vb_or_status ≡ 1 → AwaitsItsOwn asking a (two_states (waits_alone vb a.waiter) None) → ⊥ }
    ensures empty { (told : Chronicle) → AllAwaitTheirOwn told empty_world }
    ensures nowhere { (told : Chronicle) (node : PlainNode) (client : PlainClient) (a : Awaited) → client.session.awaited ≡ Some a → AllAwaitTheirOwn told (one_node (with_only node client None)) → ⊥ }
    ensures any { (told : Chronicle) (node : PlainNode) (client : PlainClient) (a : Awaited) (n c : ℕ) → c < 1000 → client.session.awaited ≡ Some a → AllAwaitTheirOwn told (node_alone n (with_one_at node c client)) → ⊥ }
    ensures rises { (line : LastLine) (told : Chronicle) (node : PlainNode) (client : PlainClient) (a : Awaited) → client.session.awaited ≡ Some a → AwaitTheirOwnIf (Some line) told (one_node (with_only node client None)) → ⊥ }
    ensures left { (line : LastLine) (told : Chronicle) (node : PlainNode) (client : PlainClient) (a : Awaited) → told.last ≡ Some line → client.session.awaited ≡ Some a → AreFollowed told (one_node (with_only node client None)) → ⊥ }
    ensures unnumbered { (told : Chronicle) (node : PlainNode) (client : PlainClient) → AwaitTheirOwnIf None told (one_node (with_only node client None)) }
{}
