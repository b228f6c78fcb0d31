//! How a vBucket opens streams and feeds them.
ghost use Rattle.std.specs.Prelude.{◌≡◌, ℕ, ◌<◌, ◌≤◌, true, Some, None, IfOk, OnOk, OnErr, length};
ghost use Rattle.branch_model.specs.Logs.{log_limit};
ghost use Rattle.ckpt_list.specs.Trims.{needless};
ghost use Rattle.cursor_set.specs.Cursors.{place_of};
ghost use Rattle.vb_calls.specs.Forms.{HasForm};
ghost use Rattle.vb_calls.specs.State.{is_active, quiet_reply};
ghost use Rattle.vb_calls.specs.Streams.{ask_reply, is_in_memory, memory_from, open_refusal, source_of, stream_at};
ghost use Rattle.vb_calls.specs.Trims.{drop_row, needless_of};
ghost use Rattle.vb_calls.specs.declared.calls.VbAnswer.TheVariants.{Asked, Opened};
ghost use Rattle.vb_calls.specs.declared.calls.VbCall.TheVariants.{OpenStream};
ghost use Rattle.vbucket.specs.Kept.{SameChanges, floored, kept_open, kept_place, kept_take, kept_trim};

use super::VBucket;
use crate::streams;
use crate::writes::takes_writes;
use std::alloc::AllocError;
use vb_calls::{Stream, VbAnswer, VbReply};
use vb_types::{AskAnswer, Listed, LogEntry, Place, Status, StreamAsk, Verdict};

impl VBucket {
    /// Why a request for a stream is refused, the first of its reasons.
    fn stream_refusal(&self, id: u64, ask: &StreamAsk) -> Option<Status>
        ensures first { result ≡ open_refusal self.now.rest id ask.now }
        ensures number { result ≡ None → 0 < id }
        ensures active { result ≡ None → is_active self.now.rest.role ≡ true }
        ensures free { result ≡ None → stream_at id self.now.rest.streams ≡ None }
    {
        if !takes_writes(self.role) {
            Some(Status::NotMyVbucket)
        } else if id == 0 || streams::stream_of(&self.streams, id).is_some() {
            Some(Status::KeyEexists)
        } else if streams::has_range(ask) {
            None
        } else {
            Some(Status::Erange)
        }
    }

    /// What is said to a request that opens no stream, with the failover log and the last seqno.
    fn tell_asked(&self, said: AskAnswer) -> Result<VbReply, AllocError>
        ensures reply { IfOk result (λ reply. reply ≡ ask_reply self.now.rest said) }
        ensures bounded { length self.now.rest.log ≤ log_limit }
    {
        let log = self.entries()?;
        Ok(self.asked(said, log))
    }

    /// The same with this log.
    fn asked(&self, said: AskAnswer, log: Listed<LogEntry>) -> VbReply
        ensures { result ≡ quiet_reply (Asked said log self.now.rest.position.at) }
    {
        let high = self.position.at;
        self.told(VbAnswer::Asked { said, log, high })
    }

    /// What is said of a stream that is opened, with this log, and where its changes come from.
    fn opened(&self, log: Listed<LogEntry>, place: Place) -> VbReply
        ensures { result ≡ quiet_reply (Opened log self.now.rest.position.at place) }
    {
        let high = self.position.at;
        self.told(VbAnswer::Opened { log, high, place })
    }

    /// The least place that is served from memory.
    fn memory_from(&self) -> u64
        ensures { result ≡ memory_from (floored self.now) }
    {
        self.list.floor()
    }

    /// Whether all changes above a place are in memory.
    fn is_in_memory(&self, place: u64) -> bool
        ensures { result ≡ is_in_memory (floored self.now) place }
    {
        self.memory_from() <= place
    }

    /// Where the changes of a stream come from that has no cursor.
    fn source_of(&self, stream: &Stream) -> Place
        ensures { result ≡ source_of (floored self.now) stream.now }
    {
        if self.is_in_memory(stream.place) {
            Place::Memory
        } else {
            Place::WaitSaved
        }
    }

    /// Opens a stream, unless its request is refused or has to roll back. An `Err` changes nothing.
    pub(super) fn open_stream(
        &mut self,
        id: u64,
        ask: StreamAsk,
        sync: bool,
    ) -> Result<VbReply, AllocError>
        ensures ok { IfOk result (λ reply. (self.new.rest, reply) ≡ kept_open self.old id ask sync) }
        ensures list { OnOk result (SameChanges self.old.list self.new.list) }
        ensures form { IfOk result (λ reply. HasForm (OpenStream id ask sync) reply.answer) }
        ensures err { OnErr result (self.new ≡ self.old) }
    {
        if let Some(status) = self.stream_refusal(id, &ask) {
            return self.tell_asked(AskAnswer::Refuse(status.code()));
        }
        if let Verdict::Roll(to) = self.log.rule(&ask, self.position.at) {
            return self.tell_asked(AskAnswer::Roll(to));
        }
        let stream = Stream {
            id,
            ask,
            sync,
            place: ask.start,
            cursor: self.is_in_memory(ask.start),
            taken: false,
        };
        let from = self.source_of(&stream);
        let log = self.entries()?;
        streams::open(&mut self.list, &mut self.streams, stream)?;
        Ok(self.opened(log, from))
    }

    /// Where a stream's next changes come from; one that has no cursor is given one where they are in
    /// memory. An `Err` changes nothing.
    pub(super) fn place(&mut self, id: u64) -> Result<VbReply, AllocError>
        ensures ok { IfOk result (λ reply. (self.new.rest, reply) ≡ kept_place self.old id) }
        ensures list { OnOk result (SameChanges self.old.list self.new.list) }
        ensures err { OnErr result (self.new ≡ self.old) }
    {
        let Some(stream) = streams::stream_of(&self.streams, id) else {
            return Ok(self.told(VbAnswer::Absent));
        };
        if stream.cursor {
            return Ok(self.told(VbAnswer::Placed(Place::Memory)));
        }
        let place = stream.place;
        if !self.is_in_memory(place) {
            return Ok(self.told(VbAnswer::Placed(Place::WaitSaved)));
        }
        streams::give_cursor(&mut self.list, &mut self.streams, id, place)?;
        Ok(self.told(VbAnswer::Placed(Place::Memory)))
    }

    /// Takes a stream's cursor away, and whether it had one. Takes no memory.
    pub(super) fn drop_cursor(&mut self, id: u64) -> VbReply
        ensures row { (self.new.rest, result) ≡ drop_row self.old.rest id }
        ensures list { SameChanges self.old.list self.new.list }
    {
        let had = streams::has_cursor(&self.streams, id);
        streams::drop_cursor(&mut self.list, &mut self.streams, id);
        self.told(VbAnswer::Flag(had))
    }

    /// Gives up the sealed spans that are written down and that no cursor needs, and how many these are.
    /// Takes no memory.
    pub(super) fn trim(&mut self) -> VbReply
        ensures row { (self.new, result) ≡ kept_trim self.old }
        ensures needless { (flushed : ℕ) → place_of self.old.list.places 0 ≡ Some flushed → needless self.old.list self.old.rest.saved ≡ needless_of self.old.rest.saved flushed self.old.rest.streams }
    {
        let gone = self.list.trim(self.saved);
        self.told(VbAnswer::Num(gone))
    }

    /// A stream's next snapshot; none for one that has no cursor. An `Err` changes nothing.
    pub(super) fn take(&mut self, id: u64) -> Result<VbReply, AllocError>
        ensures ok { IfOk result (λ reply. (self.new, reply) ≡ kept_take self.old id) }
        ensures zero { place_of self.new.list.places 0 ≡ place_of self.old.list.places 0 }
        ensures err { OnErr result (self.new ≡ self.old) }
    {
        let Some(stream) = streams::stream_of(&self.streams, id) else {
            return Ok(self.told(VbAnswer::Absent));
        };
        let stream = *stream;
        if !stream.cursor {
            return Ok(self.told(VbAnswer::Nothing));
        }
        let need = streams::needed_end(&stream);
        let Some(end) = self.list.whole_end(stream.place, need, stream.sync) else {
            return Ok(self.told(VbAnswer::Nothing));
        };
        let snapshot = streams::snapshot_to(self.alloc, &self.list, &stream, end)?;
        self.list.advance(id, end);
        streams::move_on(&mut self.streams, id, end);
        Ok(self.told(VbAnswer::Taken(snapshot)))
    }
}
