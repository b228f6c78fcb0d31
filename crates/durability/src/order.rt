//! Where prepares stand among the outstanding ones, which lie by rising seqnos.
ghost use Rattle.std.specs.Prelude.{◌≡◌, ◌==◌, ◌+◌, ◌<◌, ◌≤◌, ◌&&◌, [], not, is_some};
ghost use Rattle.std.specs.List.{insert, list_any};
ghost use Rattle.std.specs.Option.{MatchOption};
ghost use Rattle.std.specs.VecDeque.{deque_len, deque_capacity};
ghost use Rattle.durability.specs.Outstanding as spec;

use crate::waiting::Waiting;
use std::collections::VecDeque;

/// Where a prepare goes: behind each one whose seqno is not above its own.
pub fn place_for(waiting: &VecDeque<Waiting>, prepare: &Waiting) -> usize
    requires { spec.Rises 0 waiting.now.items }
    ensures placed { insert waiting.now.items result prepare.now ≡ spec.placed prepare.now waiting.now.items }
    ensures rises { spec.Rises 0 (spec.placed prepare.now waiting.now.items) }
    ensures within { result ≤ deque_len waiting.now }
{
    waiting.partition_point(|earlier| earlier.seq <= prepare.seq)
}

/// Puts a prepare at a place, where there is room. Takes no memory, and the room stays, of which
/// `insert` says nothing.
pub fn put_at(waiting: &mut VecDeque<Waiting>, at: usize, prepare: Waiting)
    requires room { deque_len waiting.old < deque_capacity waiting.old }
    requires within { at ≤ deque_len waiting.old }
    ensures items { waiting.new.items ≡ insert waiting.old.items at prepare }
    ensures len { deque_len waiting.new ≡ deque_len waiting.old + 1 }
    ensures capacity { deque_capacity waiting.new ≡ deque_capacity waiting.old }
{
    let behind = waiting.len() - at;
    waiting.rotate_right(behind);
    waiting.push_front_reserved(prepare);
    waiting.rotate_left(behind + 1);
}

/// Where the first one of a seqno stands.
pub fn place_of(waiting: &VecDeque<Waiting>, seq: u64) -> Option<usize>
    requires { spec.Rises 0 waiting.now.items }
    ensures first { MatchOption result ((spec.at_seq seq waiting.now.items ≡ []) × (spec.without seq waiting.now.items ≡ waiting.now.items)) (spec.IsFirst seq waiting.now.items) }
    ensures rises { spec.Rises 0 (spec.without seq waiting.now.items) }
{
    let at = waiting.partition_point(|lower| lower.seq < seq);
    if at < waiting.len() && waiting[at].seq == seq {
        Some(at)
    } else {
        None
    }
}

/// Whether one of a seqno is to be committed again: it has no deadline.
pub fn holds_left(waiting: &VecDeque<Waiting>, seq: u64) -> bool
    requires { spec.Rises 0 waiting.now.items }
    ensures { result ≡ list_any (λ w. w.seq == seq && not (is_some w.deadline)) waiting.now.items }
{
    let from = waiting.partition_point(|lower| lower.seq < seq);
    for prepare in waiting.range(from..) {
        if prepare.seq != seq {
            return false;
        }
        if prepare.deadline.is_none() {
            return true;
        }
    }
    false
}

/// The seqno of the first one whose deadline is not after the clock.
pub fn first_late(waiting: &VecDeque<Waiting>, clock: u64) -> Option<u64>
    ensures { result ≡ spec.front_seq (spec.late clock waiting.now.items) }
{
    for prepare in waiting {
        if let Some(deadline) = prepare.deadline {
            if deadline <= clock {
                return Some(prepare.seq);
            }
        }
    }
    None
}
