//! Entries by rising seqno, of which some are holes: their changes were taken away.
ghost use Rattle.std.specs.Prelude.{◌≡◌, ◌+◌, ◌<◌, ◌≤◌, ◌∷◌, ◌++◌, [], length, IfSome, IfNone, false};
ghost use Rattle.std.specs.VecDeque.{deque_capacity};
ghost use Rattle.vb_types.specs.Histories.{upto};
ghost use Rattle.checkpoint.specs.Checkpoints.{items_above};
ghost use Rattle.checkpoint.specs.Runs.{AreEntries, IsAt, IsRun, Lacks, changes_there, is_above, is_hole, last_entry};

use std::collections::VecDeque;
use vb_types::Change;

/// Where the entry of a seqno is.
pub fn place_of(entries: &[(u64, Option<Change>)], seq: u64) -> Option<usize>
    requires { AreEntries 0 entries.now }
    ensures some { IfSome result (λ at. IsAt seq at entries.now) }
    ensures none { IfNone result (Lacks seq entries.now) }
{
    entries.binary_search_by_key(&seq, |entry| entry.0).ok()
}

/// The entries above a place.
pub fn later(entries: &[(u64, Option<Change>)], place: u64) -> &[(u64, Option<Change>)]
    requires { AreEntries 0 entries.now }
    ensures { changes_there result.now ≡ items_above place (changes_there entries.now) }
{
    let at = entries.partition_point(|entry| entry.0 <= place);
    &entries[at..]
}

/// Whether the last entry is a hole.
fn ends_in_hole(entries: &[(u64, Option<Change>)]) -> bool
    ensures { result ≡ is_hole (last_entry entries.now) }
{
    match entries.last() {
        Some(entry) => entry.1.is_none(),
        None => false,
    }
}

/// Whether the last entry is above a seqno.
fn ends_above(entries: &[(u64, Option<Change>)], seq: u64) -> bool
    ensures { result ≡ is_above seq (last_entry entries.now) }
{
    match entries.last() {
        Some(entry) => entry.0 > seq,
        None => false,
    }
}

/// Takes the holes behind the last change away.
pub fn drop_holes_behind(entries: &mut Vec<(u64, Option<Change>)>)
    requires { AreEntries 0 entries.now.items }
    ensures there { changes_there entries.new.items ≡ changes_there entries.old.items }
    ensures entries { AreEntries 0 entries.new.items }
    ensures ends { is_hole (last_entry entries.new.items) ≡ false }
    ensures fewer { length entries.new.items ≤ length entries.old.items }
{
    while ends_in_hole(entries) {
        drop(entries.pop());
    }
}

/// Takes the last change away, if it is above a seqno, and the holes behind it.
pub fn pop_last_above(entries: &mut Vec<(u64, Option<Change>)>, last: u64) -> Option<Change>
    requires { AreEntries 0 entries.now.items }
    ensures some { IfSome result (λ c. (changes_there entries.old.items ≡ changes_there entries.new.items ++ c ∷ []) × (last < c.seq)) }
    ensures none { IfNone result ((changes_there entries.new.items ≡ changes_there entries.old.items) × (upto (changes_there entries.old.items) last ≡ changes_there entries.old.items)) }
    ensures entries { AreEntries 0 entries.new.items }
    ensures fewer { length entries.new.items ≤ length entries.old.items }
{
    drop_holes_behind(entries);
    if !ends_above(entries, last) {
        return None;
    }
    let (_, change) = entries.pop()?;
    change
}

/// Takes the holes away, if they are more than the changes, of which there are so many.
pub fn close_up(entries: &mut Vec<(u64, Option<Change>)>, there: usize)
    requires entries { AreEntries 0 entries.now.items }
    requires counted { there ≡ length (changes_there entries.now.items) }
    ensures there { changes_there entries.new.items ≡ changes_there entries.old.items }
    ensures run { IsRun there entries.new.items }
{
    if entries.len() - there > there {
        entries.retain(|entry| entry.1.is_some());
    }
}

/// Moves the changes that are there behind others, where there is room for them.
pub fn move_there(entries: Vec<(u64, Option<Change>)>, into: &mut VecDeque<Change>)
    requires { length into.now.items + length (changes_there entries.items) ≤ deque_capacity into.now }
    ensures items { into.new.items ≡ into.old.items ++ changes_there entries.items }
    ensures room { deque_capacity into.new ≡ deque_capacity into.old }
{
    for (_, change) in entries {
        if let Some(change) = change {
            into.push_back_reserved(change);
        }
    }
}
