//! Changes by their seqnos, and the seqno of each key's change.
ghost use Rattle.std.specs.Prelude.{◌≡◌, ◌+◌, ◌<◌, ◌≤◌, ◌∷◌, ◌++◌, [], List, ℕ, None, Some, IfOk, if◌then◌else◌, OnOk, OnErr};
ghost use Rattle.std.specs.HashMap as hash;
ghost use Rattle.std.specs.Str.{bytes_eq};
ghost use Rattle.vb_types.specs.Histories.{upto};
ghost use Rattle.vb_calls.specs.declared.span.TheConstants.{MAX_WEIGHT};
ghost use Rattle.vb_calls.specs.Spans.{change_weight};
ghost use Rattle.checkpoint.specs.Checkpoints.{items_weight};
ghost use Rattle.checkpoint.specs.Finds.{Finds, without, weight_at};
ghost use Rattle.checkpoint.specs.Runs.{AreBelow};

use crate::run::Run;
use crate::weights::weight_of;
use std::alloc::AllocError;
use std::collections::HashMap;
use vb_types::{Change, Key};

/// Puts a change behind all others, and its seqno at its key, and answers the seqno that stood there.
/// An `Err` changes nothing.
pub fn enter(
    changes: &mut Run,
    seqs: &mut HashMap<Key, u64>,
    change: Change,
) -> Result<Option<u64>, AllocError>
    requires { AreBelow change.seq changes.now }
    ensures changes { OnOk result (changes.new ≡ changes.old ++ change ∷ []) }
    ensures seqs { OnOk result ((key : List ℕ) → hash.get bytes_eq seqs.new key ≡ if bytes_eq change.key key then Some change.seq else hash.get bytes_eq seqs.old key) }
    ensures earlier { IfOk result (λ earlier. earlier ≡ hash.get bytes_eq seqs.old change.key) }
    ensures err { OnErr result ((changes.new ≡ changes.old) × (hash.get bytes_eq seqs.new ≡ hash.get bytes_eq seqs.old)) }
{
    let key = ready(seqs, &change.key)?;
    let seq = change.seq;
    changes.push(change)?;
    Ok(place(seqs, key, seq))
}

/// Room for one more key, and a copy of it.
fn ready(seqs: &mut HashMap<Key, u64>, key: &Key) -> Result<Key, AllocError>
    ensures same { hash.get bytes_eq seqs.new ≡ hash.get bytes_eq seqs.old }
    ensures room { OnOk result (0 < hash.spare seqs.new) }
    ensures key { IfOk result (λ copy. copy ≡ key.now) }
{
    seqs.reserve(1)?;
    let copy = key.clone()?;
    Ok(copy)
}

/// Puts a seqno at a key, where there is room, and answers the one that stood there. Takes no memory.
fn place(seqs: &mut HashMap<Key, u64>, key: Key, seq: u64) -> Option<u64>
    requires { 0 < hash.spare seqs.old }
    ensures seqs { (other : List ℕ) → hash.get bytes_eq seqs.new other ≡ if bytes_eq key other then Some seq else hash.get bytes_eq seqs.old other }
    ensures earlier { result ≡ hash.get bytes_eq seqs.old key }
{
    let placed: Result<_, _> = seqs.insert(key, seq);
    placed.unwrap()
}

/// Takes away the change with a seqno, if one is named, and answers what it weighs.
pub fn replace(changes: &mut Run, earlier: Option<u64>) -> u64
    ensures changes { changes.new ≡ without earlier changes.old }
    ensures weight { result ≡ weight_at earlier changes.old }
{
    let Some(seq) = earlier else {
        return 0;
    };
    match changes.remove(seq) {
        Some(change) => weight_of(&change),
        None => 0,
    }
}

/// Takes the changes above a seqno away, and each one's key, and answers what they weigh.
pub fn cut(changes: &mut Run, seqs: &mut HashMap<Key, u64>, last: u64) -> u64
    requires finds { Finds changes.now (hash.get bytes_eq seqs.now) }
    requires light { items_weight changes.now ≤ MAX_WEIGHT }
    ensures changes { changes.new ≡ upto changes.old last }
    ensures finds { Finds changes.new (hash.get bytes_eq seqs.new) }
    ensures weight { result + items_weight changes.new ≡ items_weight changes.old }
{
    let mut freed = 0;
    while let Some(change) = changes.pop_above(last) {
        freed += release(seqs, change);
    }
    freed
}

/// Takes the key of a change away that goes, and answers what it weighs.
fn release(seqs: &mut HashMap<Key, u64>, change: Change) -> u64
    ensures seqs { (key : List ℕ) → hash.get bytes_eq seqs.new key ≡ if bytes_eq change.key key then None else hash.get bytes_eq seqs.old key }
    ensures weight { result ≡ change_weight change }
{
    seqs.remove(&change.key);
    weight_of(&change)
}
