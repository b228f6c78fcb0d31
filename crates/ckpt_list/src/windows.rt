//! Checkpoints that are full, before they are sealed and when they are.
ghost use Rattle.std.specs.Prelude.{◌≡◌, ℕ, ◌+◌, ◌<◌, ◌≤◌, ◌++◌, [], Some, length, option_to_list, IfOk, OnOk, OnErr};
ghost use Rattle.std.specs.List.{fold, All, AllByRecursion};
ghost use Rattle.std.specs.VecDeque.{deque_capacity, deque_len};
ghost use Rattle.std.specs.List.Sorted.{IsNonDecreasingBy};
ghost use Rattle.vb_calls.specs.declared.span.Span.{Span as TheSpan};
ghost use Rattle.checkpoint.specs.Checkpoints.{ckpt_last, ckpt_span, cut_to, empty_ckpt, items_weight};
ghost use Rattle.ckpt_list.specs.Windows.{ArePartsAbove, CanSeal, count_in, ends_behind, first_of, put_in, sealed_behind};

use crate::parts::kept_by;
use checkpoint::{Checkpoint, weight_of};
use std::alloc::{AllocError, Global};
use std::collections::VecDeque;
use std::mem::replace;
use vb_calls::{MAX_WEIGHT, Origin, Span};
use vb_types::Change;

/// A checkpoint's span, if it has changes.
pub fn span_of(window: &Checkpoint) -> Option<Span>
    ensures { result ≡ ckpt_span window.now }
{
    if window.len() == 0 {
        return None;
    }
    Some(Span {
        above: window.above(),
        last: window.last(),
        origin: window.origin(),
    })
}

/// Room for so many more sealed checkpoints, and changes in them. An `Err` changes nothing.
pub fn make_room(
    sealed: &mut VecDeque<Span>,
    items: &mut VecDeque<Change>,
    wholes: &mut VecDeque<u64>,
    windows: usize,
    changes: usize,
) -> Result<(), AllocError>
    ensures sealed { sealed.new.items ≡ sealed.old.items }
    ensures items { items.new.items ≡ items.old.items }
    ensures wholes { wholes.new.items ≡ wholes.old.items }
    ensures sealed_room { OnOk result (length sealed.new.items + windows ≤ deque_capacity sealed.new) }
    ensures items_room { OnOk result (length items.new.items + changes ≤ deque_capacity items.new) }
    ensures wholes_room { OnOk result (length wholes.new.items + windows ≤ deque_capacity wholes.new) }
{
    sealed.reserve(windows)?;
    wholes.reserve(windows)?;
    items.reserve(changes)
}

/// Puts a checkpoint, if it has changes, behind sealed ones, where there is room. Takes no memory.
pub fn seal_behind(
    sealed: &mut VecDeque<Span>,
    items: &mut VecDeque<Change>,
    wholes: &mut VecDeque<u64>,
    window: &mut Checkpoint,
)
    requires sealed_room { length sealed.now.items < deque_capacity sealed.now }
    requires items_room { length items.now.items + length window.now.items ≤ deque_capacity items.now }
    requires wholes_room { length wholes.now.items < deque_capacity wholes.now }
    requires rise { IsNonDecreasingBy (λ (e : ℕ). e) wholes.now.items }
    requires below { (w : TheSpan) → ckpt_span window.now ≡ Some w → All (λ e. e < w.last) wholes.now.items }
    ensures sealed { sealed.new.items ≡ sealed.old.items ++ option_to_list (ckpt_span window.old) }
    ensures items { items.new.items ≡ items.old.items ++ window.old.items }
    ensures wholes { wholes.new.items ≡ ends_behind (ckpt_span window.old) wholes.old.items }
    ensures room { (deque_capacity sealed.old ≤ deque_capacity sealed.new) × (deque_capacity items.old ≤ deque_capacity items.new) × (deque_capacity wholes.old ≤ deque_capacity wholes.new) }
    ensures empty { window.new ≡ empty_ckpt (ckpt_last window.old) window.old.origin }
    ensures light { items_weight window.old.items ≤ MAX_WEIGHT }
{
    let span = span_of(window);
    window.seal_in_room(items);
    if let Some(span) = span {
        let kept = kept_by(wholes, &span);
        sealed.push_back_reserved(span);
        wholes.truncate(kept);
        wholes.push_back_reserved(span.last);
    }
}

/// Puts checkpoints behind sealed ones, the oldest first, where there is room. Takes no memory.
pub fn seal_all(
    sealed: &mut VecDeque<Span>,
    items: &mut VecDeque<Change>,
    wholes: &mut VecDeque<u64>,
    mut full: VecDeque<Checkpoint>,
)
    requires sealed_room { length sealed.now.items + deque_len full ≤ deque_capacity sealed.now }
    requires items_room { length items.now.items + count_in full.items ≤ deque_capacity items.now }
    requires wholes_room { length wholes.now.items + deque_len full ≤ deque_capacity wholes.now }
    requires can { CanSeal wholes.now.items full.items }
    ensures sealed { record { spans = sealed.new.items; items = items.new.items; ends = wholes.new.items } ≡ fold sealed_behind (record { spans = sealed.old.items; items = items.old.items; ends = wholes.old.items }) full.items }
    ensures light { AllByRecursion (λ w. items_weight w.items ≤ MAX_WEIGHT) full.items }
{
    while let Some(mut window) = full.pop_front() {
        seal_behind(sealed, items, wholes, &mut window);
    }
}

/// Puts a change into the open checkpoint where that has changes and takes it; else that is full, and
/// a new one opens. An `Err` changes nothing.
fn put_in_newest(
    alloc: Global,
    full: &mut VecDeque<Checkpoint>,
    newest: &mut Checkpoint,
    change: Change,
) -> Result<(), AllocError>
    requires { ckpt_last newest.now < change.seq }
    ensures ok { OnOk result ((full.new.items, newest.new) ≡ put_in (full.old.items, newest.old) change) }
    ensures err { OnErr result ((full.new.items ≡ full.old.items) × (newest.new ≡ newest.old)) }
{
    if newest.len() > 0 && newest.fits(&change, true) {
        return newest.put(change);
    }
    prove!(weight_of(&change) <= MAX_WEIGHT);
    let mut fresh = Checkpoint::new(alloc, newest.last(), Origin::Own);
    fresh.put(change)?;
    full.reserve(1)?;
    full.push_back_reserved(replace(newest, fresh));
    Ok(())
}

/// Puts prepares, commits and aborts into the open checkpoint and new ones behind it, and gives those
/// that are full. An `Err` changes nothing.
pub fn put_all(
    alloc: Global,
    newest: &mut Checkpoint,
    changes: Vec<Change>,
) -> Result<VecDeque<Checkpoint>, AllocError>
    requires { ArePartsAbove (ckpt_last newest.now) changes.items }
    ensures ok { IfOk result (λ full. (full.items, newest.new) ≡ fold put_in ([], newest.old) changes.items) }
    ensures err { OnErr result (newest.new ≡ newest.old) }
{
    let last = newest.last();
    let mut full = VecDeque::new(alloc);
    let mut rest = VecDeque::from(changes);
    while let Some(change) = rest.pop_front() {
        if let Err(error) = put_in_newest(alloc, &mut full, newest, change) {
            reopen(full, newest, last);
            return Err(error);
        }
    }
    Ok(full)
}

/// Takes all changes above a seqno away again: the first checkpoint is open as it was. Takes no memory.
pub fn reopen(mut full: VecDeque<Checkpoint>, newest: &mut Checkpoint, last: u64)
    requires { ckpt_last (cut_to last (first_of full.items newest.now)) ≡ last }
    ensures { newest.new ≡ cut_to last (first_of full.items newest.old) }
{
    if let Some(first) = full.pop_front() {
        *newest = first;
    }
    newest.cut_back(last);
}
