//! What the definitions come to, in other words and in numbers. Nothing here runs.

ghost use Rattle.std.specs.Prelude.{◌≡◌, ◌≢◌, ℕ, ◌<◌, ◌≤◌, ◌+◌, ◌++◌, ◌∷◌, [], List, Some, None, length, drop, max, true, false};
ghost use Rattle.vb_types.specs.declared.change.Level.{Level};
ghost use Rattle.vb_types.specs.declared.change.Level.TheVariants.{Majority, MajorityPersistActive, PersistMajority};
ghost use Rattle.vb_types.specs.declared.change.Pend.{Pend};
ghost use Rattle.durability.specs.declared.waiting.Waiting.{Waiting as Prepare};
ghost use Rattle.durability.specs.Chains.{Members, chain_of, is_chain, named, differ, holders, majority, chain_length, is_possible, has_enough, next_of, committed_now};
ghost use Rattle.durability.specs.Outstanding.{Rises, no_acks, acked, with_ack, at_seq, late, front_seq, placed, without};
ghost use Rattle.durability.specs.Pending.{due};
ghost use Rattle.durability.specs.Laws.{Waits, HasMajority, WantsSaved, IsPending, ThirdsSaved, IsLate, at_level};

/// The chain counts the active node and unset members; a majority is more than half of it.
pub fn majorities_in_numbers()
    ensures length { chain_length (None ∷ Some 1 ∷ None ∷ []) ≡ 4 }
    ensures one { majority 1 ≡ 1 }
    ensures two { majority 2 ≡ 2 }
    ensures three { majority 3 ≡ 2 }
    ensures four { majority 4 ≡ 3 }
    ensures shared { (n : ℕ) → n < majority n + majority n }
    ensures alone { is_possible [] ≡ true }
    ensures unset { is_possible (None ∷ []) ≡ false }
    ensures half { is_possible (Some 1 ∷ None ∷ []) ≡ true }
    ensures few { is_possible (Some 1 ∷ None ∷ None ∷ []) ≡ false }
{}

/// A chain has at most three members beside its active node, set or not, and no two of those that are
/// set are one node, nor is one of them the active node.
pub fn chains_in_numbers()
    ensures set { (is_chain 0 [] ≡ true) × (is_chain 0 (Some 1 ∷ Some 2 ∷ Some 15 ∷ []) ≡ true) }
    ensures unset { (is_chain 0 (None ∷ None ∷ None ∷ []) ≡ true) × (is_chain 0 (Some 1 ∷ None ∷ Some 2 ∷ []) ≡ true) }
    ensures many { (is_chain 0 (Some 1 ∷ Some 2 ∷ Some 3 ∷ Some 4 ∷ []) ≡ false) × (is_chain 0 (None ∷ None ∷ None ∷ None ∷ []) ≡ false) }
    ensures itself { (is_chain 5 (Some 5 ∷ []) ≡ false) × (is_chain 5 (Some 1 ∷ None ∷ Some 5 ∷ []) ≡ false) }
    ensures twice { (is_chain 0 (Some 1 ∷ Some 1 ∷ []) ≡ false) × (is_chain 0 (Some 1 ∷ Some 2 ∷ Some 1 ∷ []) ≡ false) }
    ensures kept { (chain_of 5 (Some 1 ∷ None ∷ []) ≡ Some (record { active = 5; others = Some 1 ∷ None ∷ [] })) × (chain_of 5 (Some 5 ∷ []) ≡ None) }
{}

/// The next prepare to commit is the lowest outstanding one. A majority of the chain holds it, the active
/// node counted, each other member once; at levels 2 and 3 the active node has saved it. And no more than
/// that is asked.
pub fn committed_prepare()
    ensures lowest { (acks : ℕ → ℕ) (others : Members) (saved n p : ℕ) (waiting : List Prepare) → Rises n waiting → next_of acks others saved waiting ≡ Some p → (w : Prepare) × Waits w waiting × (w.seq ≡ p) × ((v : Prepare) → Waits v waiting → p ≤ v.seq) × (has_enough acks others saved w ≡ true) }
    ensures held { (acks : ℕ → ℕ) (others : Members) (saved : ℕ) (w : Prepare) → differ (named others) ≡ true → has_enough acks others saved w ≡ true → HasMajority others (λ m. w.seq ≤ acks m) }
    ensures saved { (acks : ℕ → ℕ) (others : Members) (saved : ℕ) (w : Prepare) → has_enough acks others saved w ≡ true → WantsSaved w.level → w.seq ≤ saved }
    ensures exact { (acks : ℕ → ℕ) (others : Members) (saved : ℕ) (w : Prepare) → (WantsSaved w.level → w.seq ≤ saved) → majority (chain_length others) ≤ length (holders acks others w.seq) + 1 → has_enough acks others saved w ≡ true }
{}

/// Committing the next prepare until there is none commits the outstanding prepares in their order, as far
/// as each has what it needs.
pub fn committed_in_turn()
    ensures first { (acks : ℕ → ℕ) (others : Members) (saved p : ℕ) (w : Prepare) (more : List Prepare) → next_of acks others saved (w ∷ more) ≡ Some p → (w.seq ≡ p) × (committed_now acks others saved (w ∷ more) ≡ w ∷ committed_now acks others saved more) }
    ensures rest { (acks : ℕ → ℕ) (others : Members) (saved : ℕ) (waiting : List Prepare) → (more : List Prepare) × (waiting ≡ committed_now acks others saved waiting ++ more) × (next_of acks others saved more ≡ None) }
{}

/// An acknowledgement counts once however often it comes, a lower one after a greater one counts nothing,
/// and no other member's number changes. An active node begins with none.
pub fn acknowledgements_count_once()
    ensures kept { (acks : List ℕ) (m q : ℕ) → m < length acks → acked (with_ack acks m q) m ≡ max (acked acks m) q }
    ensures others { (acks : List ℕ) (m n q : ℕ) → n ≢ m → acked (with_ack acks m q) n ≡ acked acks n }
    ensures again { (acks : List ℕ) (m p q : ℕ) → p ≤ q → with_ack (with_ack acks m q) m p ≡ with_ack acks m q }
    ensures none { (m : ℕ) → acked no_acks m ≡ 0 }
    ensures members { (length no_acks ≡ 256) × (acked (with_ack no_acks 255 7) 255 ≡ 7) × (acked (with_ack no_acks 0 7) 0 ≡ 7) }
{}

/// What each level waits for, in a chain of two whose other member acknowledged 5 and in one of the active
/// node alone.
pub fn levels_in_numbers()
    ensures acknowledged { next_of (λ m. 5) (Some 1 ∷ []) 0 (at_level Majority) ≡ Some 5 }
    ensures lower { next_of (λ m. 4) (Some 1 ∷ []) 5 (at_level Majority) ≡ None }
    ensures second { next_of (λ m. 5) (Some 1 ∷ []) 4 (at_level MajorityPersistActive) ≡ None }
    ensures second_saved { next_of (λ m. 5) (Some 1 ∷ []) 5 (at_level MajorityPersistActive) ≡ Some 5 }
    ensures third { next_of (λ m. 5) (Some 1 ∷ []) 4 (at_level PersistMajority) ≡ None }
    ensures third_saved { next_of (λ m. 5) (Some 1 ∷ []) 5 (at_level PersistMajority) ≡ Some 5 }
    ensures alone { next_of (λ m. 0) [] 0 (at_level Majority) ≡ Some 5 }
    ensures alone_unsaved { next_of (λ m. 0) [] 4 (at_level PersistMajority) ≡ None }
    ensures unset { next_of (λ m. 5) (None ∷ []) 5 (at_level Majority) ≡ None }
    ensures three { next_of (λ m. 5) (Some 1 ∷ None ∷ []) 5 (at_level Majority) ≡ Some 5 }
    ensures four { next_of (λ m. 5) (Some 1 ∷ None ∷ None ∷ []) 5 (at_level Majority) ≡ None }
    ensures tick { late 9 (at_level Majority) ≡ [] }
{}

/// A prepare whose time is up has a deadline, and the lowest such one goes first. One that is to be
/// committed again has no deadline, and its time is never up.
pub fn expired_prepare()
    ensures some { (clock n p : ℕ) (waiting : List Prepare) → Rises n waiting → front_seq (late clock waiting) ≡ Some p → (w : Prepare) × Waits w waiting × (w.seq ≡ p) × IsLate clock w × ((v : Prepare) → Waits v waiting → IsLate clock v → p ≤ v.seq) }
    ensures none { (clock : ℕ) (waiting : List Prepare) (w : Prepare) → front_seq (late clock waiting) ≡ None → Waits w waiting → IsLate clock w → ⊥ }
{}

/// A prepare that comes stands behind those of its seqno, and one that goes is the first of its seqno. The
/// prepares of any other seqno stay, in their order.
pub fn prepares_come_and_go()
    ensures comes { (p : Prepare) (waiting : List Prepare) → at_seq p.seq (placed p waiting) ≡ at_seq p.seq waiting ++ p ∷ [] }
    ensures stay { (p : Prepare) (q : ℕ) (waiting : List Prepare) → q ≢ p.seq → at_seq q (placed p waiting) ≡ at_seq q waiting }
    ensures goes { (q : ℕ) (waiting : List Prepare) → at_seq q (without q waiting) ≡ drop 1 (at_seq q waiting) }
    ensures left { (q other : ℕ) (waiting : List Prepare) → other ≢ q → at_seq other (without q waiting) ≡ at_seq other waiting }
{}

/// A replica acknowledges a pending prepare's seqno that it has all up to, with each level 3 prepare up to
/// it saved, and the greatest such.
pub fn acknowledged_number()
    ensures of { (pending : List Pend) (complete saved : ℕ) → 0 < due pending complete saved → (e : Pend) × IsPending e pending × (e.seq ≡ due pending complete saved) }
    ensures complete { (pending : List Pend) (complete saved : ℕ) → due pending complete saved ≤ complete }
    ensures thirds { (pending : List Pend) (complete saved : ℕ) → ThirdsSaved pending (due pending complete saved) saved }
    ensures greatest { (pending : List Pend) (complete saved : ℕ) (e : Pend) → IsPending e pending → e.seq ≤ complete → ThirdsSaved pending e.seq saved → e.seq ≤ due pending complete saved }
{}
