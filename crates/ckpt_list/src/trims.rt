//! What goes from the front of sealed checkpoints.
ghost use Rattle.std.specs.Prelude.{◌≡◌, ℕ, nat_le, nat_lt};
ghost use Rattle.std.specs.List.{filter};
ghost use Rattle.std.specs.List.Sorted.{IsNonDecreasingBy};
ghost use Rattle.std.specs.Option.{option_map};
ghost use Rattle.checkpoint.specs.Checkpoints.{items_above};
ghost use Rattle.vb_calls.specs.Trims.{end_of, ended_by};
ghost use Rattle.ckpt_list.specs.Trims.{first_if, is_first};

use std::collections::VecDeque;
use vb_calls::Span;
use vb_types::Change;

/// Where the first of these spans ends, if that is not above a seqno.
fn first_end(spans: &VecDeque<Span>, to: u64) -> Option<u64>
    ensures { result ≡ option_map (λ w. w.last) (first_if (λ w. nat_le w.last to) spans.now.items) }
{
    match spans.front() {
        Some(span) if span.last <= to => Some(span.last),
        _ => None,
    }
}

/// Whether the first of these changes is not above a seqno.
fn starts_to(items: &VecDeque<Change>, to: u64) -> bool
    ensures { result ≡ is_first (λ c. nat_le c.seq to) items.now.items }
{
    match items.front() {
        Some(change) => change.seq <= to,
        None => false,
    }
}

/// Whether the first of these ends is not above a seqno.
fn ends_to(ends: &VecDeque<u64>, to: u64) -> bool
    ensures { result ≡ is_first (λ e. nat_le e to) ends.now.items }
{
    match ends.front() {
        Some(end) => *end <= to,
        None => false,
    }
}

/// Takes the spans away, of these, which rise, that end at most at a seqno, and where the last of them
/// ends; `floor` where there is none. Takes no memory.
pub fn shed_spans(spans: &mut VecDeque<Span>, to: u64, floor: u64) -> u64
    requires { IsNonDecreasingBy (λ (w : Span). w.last) spans.now.items }
    ensures spans { spans.new.items ≡ filter (λ w. nat_lt to w.last) spans.old.items }
    ensures floor { result ≡ end_of floor (ended_by to spans.old.items) }
{
    let mut end = floor;
    while let Some(next) = first_end(spans, to) {
        end = next;
        drop(spans.pop_front());
    }
    end
}

/// Takes the changes away, of these, which rise, that are not above a seqno. Takes no memory.
pub fn shed_items(items: &mut VecDeque<Change>, to: u64)
    requires { IsNonDecreasingBy (λ (c : Change). c.seq) items.now.items }
    ensures { items.new.items ≡ items_above to items.old.items }
{
    while starts_to(items, to) {
        drop(items.pop_front());
    }
}

/// Takes the ends away, of these, which rise, that are not above a seqno. Takes no memory.
pub fn shed_ends(ends: &mut VecDeque<u64>, to: u64)
    requires { IsNonDecreasingBy (λ (e : ℕ). e) ends.now.items }
    ensures { ends.new.items ≡ filter (λ e. nat_lt to e) ends.old.items }
{
    while ends_to(ends, to) {
        drop(ends.pop_front());
    }
}
