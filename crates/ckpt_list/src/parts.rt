//! What is found among spans and changes.
ghost use Rattle.std.specs.Prelude.{◌≡◌, ℕ, ◌<◌, ◌≤◌, ◌&&◌, ◌++◌, not, nat_lt, take, drop, length, IfOk, OnOk};
ghost use Rattle.std.specs.List.{find, filter, All};
ghost use Rattle.std.specs.List.Sorted.{IsNonDecreasingBy};
ghost use Rattle.std.specs.Option.{option_copied, option_map};
ghost use Rattle.vb_types.specs.Histories.{upto};
ghost use Rattle.vb_calls.specs.Spans.{is_whole, span_position, starts_below};
ghost use Rattle.vb_calls.specs.Streams.{is_seen};
ghost use Rattle.checkpoint.specs.Checkpoints.{items_above};
ghost use Rattle.ckpt_list.specs.Lists as spec;
ghost use Rattle.ckpt_list.specs.Sound.{whole_by};

use std::alloc::{AllocError, Global};
use std::collections::VecDeque;
use vb_calls::{Origin, Span};
use vb_types::{Act, Change, Listed, Position};

/// Whether changes are the vBucket's own.
pub fn is_own(origin: Origin) -> bool
    ensures { result ≡ spec.is_own origin }
{
    match origin {
        Origin::Own => true,
        Origin::Received { .. } => false,
    }
}

/// Whether a span goes on above `n` that is of a received snapshot which starts below `n`.
pub fn is_split_at(span: &Span, n: u64) -> bool
    ensures { result ≡ (nat_lt n span.now.last && starts_below n span.now.origin) }
{
    match span.origin {
        Origin::Own => false,
        Origin::Received { ss, .. } => n < span.last && ss < n,
    }
}

/// Whether no span goes on above `n` that is of a received snapshot which starts below `n`.
pub fn ends_whole(spans: &VecDeque<Span>, n: u64) -> bool
    ensures { result ≡ is_whole n spans.now.items }
{
    let (front, back) = spans.as_slices();
    are_whole(front, n) && are_whole(back, n)
}

/// The same of a part of them.
fn are_whole(spans: &[Span], n: u64) -> bool
    ensures { result ≡ is_whole n spans.now }
{
    spans.iter().all(|span| !is_split_at(span, n))
}

/// An end, unless the open span is of a received snapshot that goes beyond it.
pub fn unless_split(newest: Option<Span>, end: Option<u64>) -> Option<u64>
    ensures { result ≡ whole_by newest end }
{
    match (newest, end) {
        (Some(span), Some(end)) if is_split_at(&span, end) => None,
        _ => end,
    }
}

/// The snapshot that a span's changes stand in.
pub fn position_of(span: &Span) -> Position
    ensures { result ≡ span_position span.now.origin span.now.last }
{
    let (ss, se) = match span.origin {
        Origin::Own => (span.last, span.last),
        Origin::Received { ss, se } => (ss, se),
    };
    Position {
        ss,
        se,
        at: span.last,
    }
}

/// Whether a stream sees an act.
fn sees(sync: bool, act: &Act) -> bool
    ensures { result ≡ is_seen sync act.now }
{
    sync || matches!(act, Act::Set(_) | Act::Remove { .. } | Act::Commit { .. })
}

/// How many of these changes, which rise, have at most a seqno.
fn count_to(items: &[Change], n: u64) -> usize
    requires { IsNonDecreasingBy (λ (c : Change). c.seq) items.now }
    ensures bound { result ≤ length items.now }
    ensures front { take result items.now ≡ upto items.now n }
    ensures back { drop result items.now ≡ items_above n items.now }
{
    items.partition_point(|change| change.seq <= n)
}

/// The changes of these, which rise, above a seqno.
fn above(items: &[Change], n: u64) -> &[Change]
    requires { IsNonDecreasingBy (λ (c : Change). c.seq) items.now }
    ensures above { result.now ≡ items_above n items.now }
    ensures rise { IsNonDecreasingBy (λ (c : Change). c.seq) result.now }
{
    &items[count_to(items, n)..]
}

/// The changes of these, which rise, above a place and up to a seqno.
fn stretch(items: &[Change], place: u64, end: u64) -> &[Change]
    requires { IsNonDecreasingBy (λ (c : Change). c.seq) items.now }
    ensures { result.now ≡ spec.between place end items.now }
{
    let later = above(items, place);
    &later[..count_to(later, end)]
}

/// The first of these changes that a stream sees.
fn seen(items: &[Change], sync: bool) -> Option<&Change>
    ensures { option_copied result ≡ find (λ c. is_seen sync c.act) items.now }
{
    items.iter().find(|change| sees(sync, &change.act))
}

/// The seqno of the first of these changes, which rise, above a place that a stream sees.
pub fn first_seen(items: &VecDeque<Change>, place: u64, sync: bool) -> Option<u64>
    requires { IsNonDecreasingBy (λ (c : Change). c.seq) items.now.items }
    ensures { result ≡ option_map (λ c. c.seq) (find (λ c. is_seen sync c.act) (items_above place items.now.items)) }
{
    let (front, back) = items.as_slices();
    match first_seen_in(front, place, sync) {
        Some(seq) => Some(seq),
        None => first_seen_in(back, place, sync),
    }
}

/// The same of a part of them.
fn first_seen_in(items: &[Change], place: u64, sync: bool) -> Option<u64>
    requires { IsNonDecreasingBy (λ (c : Change). c.seq) items.now }
    ensures { result ≡ option_map (λ c. c.seq) (find (λ c. is_seen sync c.act) (items_above place items.now)) }
{
    match seen(above(items, place), sync) {
        Some(change) => Some(change.seq),
        None => None,
    }
}

/// The first of these spans, which follow one another, that goes on above a seqno.
pub fn end_above(spans: &VecDeque<Span>, n: u64) -> Option<Span>
    requires { IsNonDecreasingBy (λ (w : Span). w.last) spans.now.items }
    ensures { result ≡ find (λ w. nat_lt n w.last) spans.now.items }
{
    let at = spans.partition_point(|span| span.last <= n);
    if at < spans.len() {
        Some(spans[at])
    } else {
        None
    }
}

/// The first of these ends, which rise, above a seqno.
pub fn first_above(ends: &VecDeque<u64>, n: u64) -> Option<u64>
    requires { IsNonDecreasingBy (λ (e : ℕ). e) ends.now.items }
    ensures { result ≡ find (λ e. nat_lt n e) ends.now.items }
{
    let at = ends.partition_point(|end| *end <= n);
    if at < ends.len() {
        Some(ends[at])
    } else {
        None
    }
}

/// How many of these ends, which rise and lie below the end of a span, the span does not go beyond with a
/// received snapshot.
pub fn kept_by(ends: &VecDeque<u64>, span: &Span) -> usize
    requires rise { IsNonDecreasingBy (λ (e : ℕ). e) ends.now.items }
    requires below { All (λ e. e < span.now.last) ends.now.items }
    ensures bound { result ≤ length ends.now.items }
    ensures kept { take result ends.now.items ≡ filter (λ e. not (nat_lt e span.now.last && starts_below e span.now.origin)) ends.now.items }
{
    match span.origin {
        Origin::Own => ends.len(),
        Origin::Received { ss, .. } => ends.partition_point(|end| *end <= ss),
    }
}

/// Copies of the changes of these, which rise, above a place and up to a seqno.
pub fn copies(
    alloc: Global,
    items: &VecDeque<Change>,
    place: u64,
    end: u64,
) -> Result<Listed<Change>, AllocError>
    requires { IsNonDecreasingBy (λ (c : Change). c.seq) items.now.items }
    ensures { IfOk result (λ copies. copies ≡ spec.between place end items.now.items) }
{
    let (front, back) = items.as_slices();
    let mut copies = Listed::new(alloc);
    copy_to(&mut copies, stretch(front, place, end))?;
    copy_to(&mut copies, stretch(back, place, end))?;
    Ok(copies)
}

/// Appends copies of changes. An `Err` may have appended some.
fn copy_to(copies: &mut Listed<Change>, items: &[Change]) -> Result<(), AllocError>
    ensures { OnOk result (copies.new ≡ copies.old ++ items.now) }
{
    for change in items {
        copies.push(change.copy()?)?;
    }
    Ok(())
}
