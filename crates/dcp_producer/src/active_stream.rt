//! A stream: the snapshot that it was given last, and how far it was put.
ghost use Rattle.std.specs.Prelude.{◌≡◌, ◌&&◌, ◌==◌, ◌+◌, ◌^◌, ◌<◌, slice_get, IfOk, IsSome, true, Some};
ghost use Rattle.{std.specs.Option.{option_copied, option_map}, dcp_producer.specs.Ending.{ended_in}, dcp_producer.specs.Firsts.{as_sent}, dcp_producer.specs.Frames.{past_item, reaches_end, with_snapshot}, dcp_producer.specs.Giving.{is_due}, dcp_producer.specs.Serving.{gives_of, heard, new_stream, unread_of, with_source_at}, takeover.specs.GivingUp.{done}};
ghost use Rattle.vb_types.specs.declared.stream.Place.TheVariants.{Memory};

use crate::first::first_items;
use crate::{Alloc, First};
use mcbp_frame::Frame;
use std::alloc::Global;
use std::marker::Model;
use takeover::{GiveStep, GiveUp};
use vb_types::{Change, Listed, Place, Snapshot, StreamAsk};

/// Whether a stream is given more snapshots.
#[derive(Clone, Copy)]
pub enum StreamState {
    /// It is.
    Memory,
    /// A change of role ended the stream.
    Ended,
}

/// A stream that was opened: under which number, of which vBucket, and with which opaque its frames
/// go. Of the snapshot that was taken last, the items before `next` have been put; `marked` is the
/// END of its marker; the first one is sent by `first`, and prepares, commits and aborts go where it
/// is `sync`. Its consumer asked for all up to `until`, was told of changes up to `place`, which is the
/// start that it asked for or the END of the last marker, and may have all up to `reached`: that start,
/// or the last item that was put. `unread` is the end of a backfill that its vBucket told it to go on
/// with and that is not read. One that gives its vBucket up to its consumer's has in `gives` how far
/// that is.
#[derive(Drop)]
pub struct ActiveStream {
    pub id: u64,
    pub vb: u16,
    pub opaque: u32,
    until: u64,
    first: First,
    pub sync: bool,
    pub place: u64,
    pub unread: Option<u64>,
    items: Listed<Change>,
    next: usize,
    marked: Option<u64>,
    reached: u64,
    state: StreamState,
    gives: Option<GiveUp>,
}

impl Model for ActiveStream {
    ghost use Rattle.dcp_producer.specs.Producers.{PlainStream, is_ended};

    ghost Value = { PlainStream };

    ghost view = { λ s. record { id = s.id; vb = s.vb; opaque = s.opaque; until = s.until; first = s.first; sync = s.sync; place = s.place; unread = s.unread; items = s.items; next = s.next; marked = s.marked; reached = s.reached; ended = is_ended s.state; gives = s.gives } };
}

/// How far a stream with these flags is in giving its vBucket up, if it does.
fn gives_for(flags: u32) -> Option<GiveUp>
    ensures { result ≡ gives_of flags }
{
    if flags == 1 {
        Some(GiveUp::new())
    } else {
        None
    }
}

/// The end of a backfill, where changes come from the journal.
fn unread_of(from: Place) -> Option<u64>
    ensures { result ≡ unread_of from }
{
    match from {
        Place::Backfill(end) => Some(end),
        Place::Memory | Place::WaitSaved => None,
    }
}

impl ActiveStream {
    /// The stream of this number that this request asks for, before it is known where its first changes
    /// come from.
    pub fn new(alloc: Global, id: u64, request: &Frame, ask: &StreamAsk, sync: bool) -> ActiveStream
        ensures { result ≡ new_stream id request.now ask.now sync Memory }
    {
        ActiveStream {
            id,
            vb: request.vb_or_status,
            opaque: request.opaque,
            until: ask.end,
            first: First::of(ask),
            sync,
            place: ask.start,
            unread: None,
            items: Listed::new(alloc),
            next: 0,
            marked: None,
            reached: ask.start,
            state: StreamState::Memory,
            gives: gives_for(ask.flags),
        }
    }

    /// Where its first changes come from is known now, if it has this number.
    pub fn begin_if(&mut self, id: u64, from: Place)
        ensures { self.new ≡ with_source_at from id self.old }
    {
        if self.id == id {
            self.unread = unread_of(from);
        }
    }

    /// Its number, and with which opaque and for which vBucket its frames go.
    pub fn names(&self) -> (u64, u32, u16)
        ensures { result ≡ (self.now.id, self.now.opaque, self.now.vb) }
    {
        (self.id, self.opaque, self.vb)
    }

    /// The next item of the snapshot that was taken last.
    pub fn item(&self) -> Option<&Change>
        ensures item { option_copied result ≡ slice_get self.now.items self.now.next }
        ensures room { IsSome result → self.now.next + 1 < 2 ^ 64 }
    {
        self.items.as_slice().get(self.next)
    }

    /// Whether a change of role ended it.
    pub fn is_ended(&self) -> bool
        ensures { result ≡ self.now.ended }
    {
        matches!(self.state, StreamState::Ended)
    }

    /// Whether the end that its consumer asked for was reached by a marker that was sent.
    pub fn reaches_end(&self) -> bool
        ensures { result ≡ reaches_end self.now.until self.now.marked }
    {
        match self.marked {
            Some(end) => self.until <= end,
            None => false,
        }
    }

    /// How far it is in giving its vBucket up, if it does.
    pub fn gives(&self) -> Option<GiveUp>
        ensures { result ≡ self.now.gives }
    {
        self.gives
    }

    /// Goes on to this step of giving its vBucket up.
    pub fn give_on(&mut self, gives: GiveUp)
        ensures { self.new ≡ record self.old { gives = Some gives } }
    {
        self.gives = Some(gives);
    }

    /// Whether its vBucket is to be given up now: all of its items are put, and no change of role
    /// ended it.
    pub fn is_due(&self) -> bool
        ensures { result ≡ is_due self.now }
    {
        match self.gives {
            Some(gives) => {
                gives.next() == GiveStep::Yield
                    && self.items.as_slice().len() <= self.next
                    && !self.is_ended()
            }
            None => false,
        }
    }

    /// Its step of giving its vBucket up was done.
    pub fn did(&mut self)
        ensures { self.new ≡ record self.old { gives = option_map done self.old.gives } }
    {
        if let Some(gives) = &mut self.gives {
            gives.done();
        }
    }

    /// A state was answered that was put with this opaque.
    pub fn hear(&mut self, opaque: u32)
        ensures { self.new ≡ heard opaque self.old }
    {
        if self.opaque != opaque {
            return;
        }
        if let Some(gives) = &mut self.gives {
            gives.answered();
        }
    }

    /// A change of role ended it.
    pub fn end(&mut self)
        ensures { self.new ≡ record self.old { ended = true } }
    {
        self.state = StreamState::Ended;
    }

    /// The last seqno that its consumer may have.
    pub fn reached(&self) -> u64
        ensures { result ≡ self.now.reached }
    {
        self.reached
    }

    /// Goes past an item of this seqno, which is put.
    pub fn pass(&mut self, seq: u64)
        requires { self.old.next + 1 < 2 ^ 64 }
        ensures { self.new ≡ past_item seq self.old }
    {
        self.next += 1;
        self.reached = self.reached.max(seq);
    }

    /// A snapshot that its vBucket gave, as it is sent.
    pub fn as_sent(&self, alloc: Global, snapshot: Snapshot) -> Alloc<Snapshot>
        ensures { IfOk result (λ sent. sent ≡ as_sent self.now snapshot) }
    {
        if self.marked.is_some() {
            return Ok(snapshot);
        }
        let Snapshot {
            end,
            disk,
            items,
            ..
        } = snapshot;
        Ok(Snapshot {
            start: self.first.start,
            end,
            disk,
            items: first_items(alloc, self.first, items)?,
        })
    }

    /// Goes to the front of the next snapshot, behind its marker.
    pub fn give(&mut self, snapshot: Snapshot)
        ensures { self.new ≡ with_snapshot self.old snapshot }
    {
        self.marked = Some(snapshot.end);
        self.place = snapshot.end;
        self.items = snapshot.items;
        self.next = 0;
    }

    /// Ends the stream, if it is of this vBucket and has one of these numbers.
    pub fn end_if(&mut self, vb: u16, ids: &[u64])
        ensures { self.new ≡ ended_in vb ids.now self.old }
    {
        if self.vb == vb && ids.contains(&self.id) {
            self.state = StreamState::Ended;
        }
    }
}
