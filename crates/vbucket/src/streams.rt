//! Streams: who is fed with a vBucket's changes, and what is sent next.
ghost use Rattle.std.specs.Prelude.{◌≡◌, ◌<◌, ◌≤◌, ◌++◌, ◌∷◌, [], if◌then◌else◌, IfOk, OnOk, OnErr, map};
ghost use Rattle.std.specs.List.{filter};
ghost use Rattle.std.specs.Option.{option_copied};
ghost use Rattle.branch_model.specs.Histories.{last_seq};
ghost use Rattle.ckpt_list.specs.Lists.{between, held_of, high_of, moved_cursor};
ghost use Rattle.vbucket.specs.Kept.{SameChanges, sent_items};
ghost use Rattle.vbucket.specs.Steady.{CursorsAreStreams, with_cursor};
ghost use Rattle.vbucket.specs.Turning.{only_stream};
ghost use Rattle.vb_calls.specs.Roles.{stream_ids};
ghost use Rattle.vb_calls.specs.Trims.{has_cursor};
ghost use Rattle.vb_types.specs.declared.change.Act.TheVariants.{Remove, Set};
ghost use Rattle.vb_calls.specs.Streams as spec;

use ckpt_list::CkptList;
use snap_range::{effective, in_order};
use std::alloc::{AllocError, Global};
use vb_calls::Stream;
use vb_types::{Act, Change, Doc, Listed, Snapshot, StreamAsk};

/// The open stream of a number.
pub fn stream_of(streams: &[Stream], id: u64) -> Option<&Stream>
    ensures { option_copied result ≡ spec.stream_at id streams.now }
{
    streams.iter().find(|stream| stream.id == id)
}

/// The numbers of the open streams.
fn ids_of(alloc: Global, streams: &[Stream]) -> Result<Vec<u64>, AllocError>
    ensures { IfOk result (λ ids. ids.items ≡ stream_ids streams.now) }
{
    streams.iter().map(|stream| stream.id).collect(alloc)
}

/// The numbers of the open streams but one.
pub fn ids_but(alloc: Global, streams: &[Stream], id: u64) -> Result<Listed<u64>, AllocError>
    ensures { IfOk result (λ ids. ids ≡ stream_ids (spec.without_stream id streams.now)) }
{
    let mut ids = ids_of(alloc, streams)?;
    ids.retain(|open| *open != id);
    Ok(Listed::from_vec(ids))
}

/// Takes away all open streams but the one of a number.
pub fn keep(streams: &mut Vec<Stream>, id: u64)
    ensures { streams.new.items ≡ only_stream id streams.old.items }
{
    streams.retain(|stream| stream.id == id);
}

/// Takes away the open stream of a number, if there is one.
pub fn close(streams: &mut Vec<Stream>, id: u64)
    ensures { streams.new.items ≡ spec.without_stream id streams.old.items }
{
    streams.retain(|stream| stream.id != id);
}

/// Whether a request's start lies in the snapshot that it names, and not above the end that it wants.
pub fn has_range(ask: &StreamAsk) -> bool
    ensures { result ≡ spec.is_ranged ask.now }
{
    ask.start <= ask.end && in_order(ask.start, ask.ss, ask.se)
}

/// The snapshot's end that a stream's request means, until a snapshot has reached it.
pub fn needed_end(stream: &Stream) -> u64
    ensures { result ≡ spec.need_of stream.now }
{
    let (_, se) = effective(stream.ask.start, stream.ask.ss, stream.ask.se);
    if stream.taken { 0 } else { se }
}

/// Makes a new stream's cursor, if it has one. An `Err` changes nothing.
fn feed(list: &mut CkptList, stream: &Stream) -> Result<(), AllocError>
    ensures ok { OnOk result (list.new ≡ record list.old { places = with_cursor list.old.places stream.now }) }
    ensures err { OnErr result (list.new ≡ list.old) }
{
    if stream.cursor {
        list.place_cursor(stream.id, stream.place)?;
    }
    Ok(())
}

/// Opens a stream at the start of its request. An `Err` changes nothing.
pub fn open(
    list: &mut CkptList,
    streams: &mut Vec<Stream>,
    stream: Stream,
) -> Result<(), AllocError>
    ensures streams { OnOk result (streams.new.items ≡ streams.old.items ++ stream ∷ []) }
    ensures list { OnOk result (list.new ≡ record list.old { places = with_cursor list.old.places stream }) }
    ensures same { OnErr result (streams.new.items ≡ streams.old.items) }
    ensures err { OnErr result (list.new ≡ list.old) }
{
    streams.reserve(1)?;
    feed(list, &stream)?;
    streams.push(stream).unwrap();
    Ok(())
}

/// A stream with a cursor at its place, or with none, if it is the one of this number.
fn with_its(stream: &Stream, id: u64, has: bool) -> Stream
    ensures { result ≡ spec.with_cursor_as has id stream.now }
{
    if stream.id != id {
        return *stream;
    }
    Stream {
        cursor: has,
        ..*stream
    }
}

/// Gives the stream of this number a cursor at its place, or takes it away.
fn mark_fed(streams: &mut [Stream], id: u64, has: bool)
    ensures { streams.new ≡ map (spec.with_cursor_as has id) streams.old }
{
    for at in 0..streams.len() {
        streams[at] = with_its(&streams[at], id, has);
    }
}

/// Whether the stream of a number is open, and has a cursor.
pub fn has_cursor(streams: &[Stream], id: u64) -> bool
    ensures { result ≡ has_cursor (spec.stream_at id streams.now) }
{
    match stream_of(streams, id) {
        Some(stream) => stream.cursor,
        None => false,
    }
}

/// Takes the cursor of the stream of this number away; no stream has the number 0. Takes no memory.
pub fn drop_cursor(list: &mut CkptList, streams: &mut Vec<Stream>, id: u64)
    requires { CursorsAreStreams list.old.places streams.old.items }
    ensures streams { streams.new.items ≡ map (spec.without_cursor id) streams.old.items }
    ensures list { SameChanges list.old list.new }
    ensures fed { CursorsAreStreams list.new.places (map (spec.without_cursor id) streams.old.items) }
{
    mark_fed(streams, id, false);
    if id == 0 {
        return;
    }
    list.drop_cursor(id);
}

/// Makes the cursor of the stream of this number, at its place. An `Err` changes nothing.
pub fn give_cursor(
    list: &mut CkptList,
    streams: &mut Vec<Stream>,
    id: u64,
    place: u64,
) -> Result<(), AllocError>
    ensures streams { OnOk result (streams.new.items ≡ map (spec.given_cursor id) streams.old.items) }
    ensures list { OnOk result (list.new ≡ moved_cursor list.old id place) }
    ensures same { OnErr result (streams.new.items ≡ streams.old.items) }
    ensures err { OnErr result (list.new ≡ list.old) }
{
    list.place_cursor(id, place)?;
    mark_fed(streams, id, true);
    Ok(())
}

/// Whether a stream sees an act.
fn sees(stream: &Stream, act: &Act) -> bool
    ensures { result ≡ spec.is_seen stream.now.sync act.now }
{
    stream.sync || matches!(act, Act::Set(_) | Act::Remove { .. } | Act::Commit { .. })
}

/// A change as it is sent: where `as_plain`, a commit as the set or removal of its document.
fn sent(as_plain: bool, change: &Change) -> Result<Change, AllocError>
    ensures { IfOk result (λ sent. sent ≡ spec.sent_as as_plain change.now) }
{
    match &change.act {
        Act::Commit { doc, deleted, .. } if as_plain => {
            let key = change.key.clone()?;
            let act = plain_act(doc, *deleted)?;
            Ok(Change {
                seq: change.seq,
                key,
                act,
            })
        }
        _ => change.copy(),
    }
}

/// The set or the removal of a document.
fn plain_act(doc: &Doc, deleted: bool) -> Result<Act, AllocError>
    ensures { IfOk result (λ act. act ≡ (if deleted then Remove doc.now.cas doc.now.rev else Set doc.now)) }
{
    if deleted {
        return Ok(Act::Remove {
            cas: doc.cas,
            rev: doc.rev,
        });
    }
    Ok(Act::Set(doc.copy()?))
}

/// What a stream is sent of these changes.
fn items_for(
    alloc: Global,
    stream: &Stream,
    changes: &[Change],
) -> Result<Listed<Change>, AllocError>
    ensures { IfOk result (λ items. items ≡ sent_items stream.now changes.now) }
{
    let as_plain = !stream.sync;
    let mut items = Listed::new(alloc);
    for change in changes {
        if sees(stream, &change.act) {
            items.push(sent(as_plain, change)?)?;
        }
    }
    Ok(items)
}

/// A stream's snapshot of these changes.
fn snapshot_of(alloc: Global, stream: &Stream, changes: &[Change]) -> Result<Snapshot, AllocError>
    ensures { IfOk result (λ snapshot. snapshot ≡ spec.snapshot_of stream.now (sent_items stream.now changes.now)) }
{
    let items = items_for(alloc, stream, changes)?;
    Ok(Snapshot {
        start: stream.place,
        end: end_seq(stream.place, items.as_slice()),
        disk: false,
        items,
    })
}

/// A stream's snapshot of what a list has above its place, up to `end`.
pub fn snapshot_to(
    alloc: Global,
    list: &CkptList,
    stream: &Stream,
    end: u64,
) -> Result<Snapshot, AllocError>
    requires { list.now.newest.above < end → high_of list.now ≤ end }
    ensures { IfOk result (λ snapshot. snapshot ≡ spec.snapshot_of stream.now (sent_items stream.now (between stream.now.place end (held_of list.now)))) }
{
    let changes = list.copied(stream.place, end)?;
    snapshot_of(alloc, stream, changes.as_slice())
}

/// The seqno of the last change, or `place` where there is none.
fn end_seq(place: u64, items: &[Change]) -> u64
    ensures { result ≡ last_seq place items.now }
{
    match items.last() {
        Some(item) => item.seq,
        None => place,
    }
}

/// A stream after a take up to `end` by the stream of this number.
fn moved(stream: &Stream, id: u64, end: u64) -> Stream
    ensures { result ≡ spec.moved_on id end stream.now }
{
    if stream.id != id {
        return *stream;
    }
    Stream {
        place: end,
        taken: true,
        ..*stream
    }
}

/// Moves the stream of this number on to the end of its snapshot.
pub fn move_on(streams: &mut [Stream], id: u64, end: u64)
    ensures { streams.new ≡ map (spec.moved_on id end) streams.old }
{
    for at in 0..streams.len() {
        streams[at] = moved(&streams[at], id, end);
    }
}
