//! What a vBucket asks of its producer, and what it takes from it.
ghost use Rattle.std.specs.Prelude.{◌≡◌, ◌<◌, ◌&&◌, true, IfOk, OnOk, OnErr};
ghost use Rattle.vb_calls.specs.Following.{ask_row, adopt_row, is_follower, is_next, marker_fits, marker_row};
ghost use Rattle.vb_calls.specs.Forms.{HasForm};
ghost use Rattle.vb_calls.specs.declared.calls.VbCall.TheVariants.{Adopt, Marker, Receive};
ghost use Rattle.vb_calls.specs.declared.calls.VbAnswer.TheVariants.{Done};
ghost use Rattle.vbucket.specs.Kept.{SealedIf, kept_receive, kept_received};

use super::VBucket;
use crate::following;
use snap_range::effective;
use std::alloc::AllocError;
use vb_calls::{Origin, VbAnswer, VbReply};
use vb_types::{Change, LogEntry, Position, Status, StreamAsk};

impl VBucket {
    /// The stream that the vBucket wants, where it follows another one.
    pub(super) fn ask(&self) -> VbReply
        ensures { result ≡ ask_row self.now.rest }
    {
        if !following::follows(self.role) {
            return self.told(VbAnswer::Status(Status::NotMyVbucket));
        }
        let Position { ss, se, at } = self.position;
        let (_, reach) = effective(at, ss, se);
        self.told(VbAnswer::Named(StreamAsk {
            flags: 0,
            start: at,
            end: u64::MAX,
            uuid: self.log.entry_for(reach),
            ss,
            se,
        }))
    }

    /// Takes over the failover log of its producer. An `Err` changes nothing.
    pub(super) fn adopt(&mut self, log: &[LogEntry]) -> Result<VbReply, AllocError>
        ensures ok { IfOk result (λ reply. (self.new.rest, reply) ≡ adopt_row self.old.rest log.now) }
        ensures list { self.new.list ≡ self.old.list }
        ensures form { IfOk result (λ reply. HasForm (Adopt log.now) reply.answer) }
        ensures err { OnErr result (self.new ≡ self.old) }
    {
        if !following::follows(self.role) {
            return Ok(self.told(VbAnswer::Status(Status::NotMyVbucket)));
        }
        if !following::may_be_answered(log) {
            return Ok(self.told(VbAnswer::Status(Status::Einval)));
        }
        self.log.replace(log);
        self.first = true;
        Ok(self.told(VbAnswer::Done))
    }

    /// A snapshot begins, up to `end`. An `Err` changes nothing.
    pub(super) fn mark(&mut self, start: u64, end: u64) -> Result<VbReply, AllocError>
        ensures ok { IfOk result (λ reply. (self.new.rest, reply) ≡ marker_row self.old.rest start end) }
        ensures list { OnOk result (SealedIf (is_follower self.old.rest.role && marker_fits self.old.rest.position self.old.rest.first start end) self.old.list self.new.list) }
        ensures form { IfOk result (λ reply. HasForm (Marker start end) reply.answer) }
        ensures err { OnErr result (self.new ≡ self.old) }
    {
        if !following::follows(self.role) {
            return Ok(self.told(VbAnswer::Status(Status::NotMyVbucket)));
        }
        if !following::takes_marker(self.position, self.first, start, end) {
            return Ok(self.told(VbAnswer::Status(Status::Erange)));
        }
        self.list.seal()?;
        let at = self.position.at;
        let ss = start.min(at);
        self.position = Position { ss, se: end, at };
        self.first = false;
        Ok(self.told(VbAnswer::Range { ss, se: end }))
    }

    /// Takes in a change of its producer. An `Err` changes nothing.
    pub(super) fn receive(&mut self, change: Change) -> Result<VbReply, AllocError>
        ensures ok { IfOk result (λ reply. (self.new, reply) ≡ kept_receive self.old change) }
        ensures form { IfOk result (λ reply. HasForm (Receive change) reply.answer) }
        ensures err { OnErr result (self.new ≡ self.old) }
    {
        if !following::follows(self.role) {
            drop(change);
            return Ok(self.told(VbAnswer::Status(Status::NotMyVbucket)));
        }
        if !following::comes_next(self.position, change.seq) {
            drop(change);
            return Ok(self.told(VbAnswer::Status(Status::Erange)));
        }
        self.complete(change)
    }

    /// Takes in a change that comes next, unless it commits no prepare that waits. An `Err` changes nothing.
    fn complete(&mut self, change: Change) -> Result<VbReply, AllocError>
        requires follows { is_follower self.old.rest.role ≡ true }
        requires next { is_next self.old.rest.position change.seq ≡ true }
        ensures ok { IfOk result (λ reply. (self.new, reply) ≡ kept_receive self.old change) }
        ensures form { IfOk result (λ reply. HasForm (Receive change) reply.answer) }
        ensures err { OnErr result (self.new ≡ self.old) }
    {
        let Change { seq, key, act } = change;
        match following::completed(&self.table, &key, act)? {
            Some(act) => self.take_in(Change { seq, key, act }),
            None => Ok(self.told(VbAnswer::Status(Status::Einval))),
        }
    }

    /// Takes in a change that comes next. An `Err` changes nothing.
    fn take_in(&mut self, change: Change) -> Result<VbReply, AllocError>
        requires { self.old.rest.position.at < change.seq }
        ensures ok { IfOk result (λ reply. (self.new, reply) ≡ kept_received self.old change) }
        ensures answer { IfOk result (λ reply. reply.answer ≡ Done) }
        ensures err { OnErr result (self.new ≡ self.old) }
    {
        let last_cas = self.last_cas.max(following::cas(&change.act));
        let Position { ss, se, .. } = self.position;
        let position = Position {
            ss,
            se,
            at: change.seq,
        };
        let changes = self.enter(Origin::Received { ss, se }, position, last_cas, change)?;
        Ok(self.told_with(VbAnswer::Done, 0, changes))
    }
}
