//! One vBucket.
ghost use Rattle.std.specs.Prelude.{◌≡◌, ◌<◌, ◌≤◌, ◌+◌, ◌&&◌, true, false, None, IfOk, OnOk, OnErr, [], ◌∷◌, length, unwrap_or};
ghost use Rattle.std.specs.Option.{option_copied};
ghost use Rattle.branch_model.specs.Logs.{log_limit};
ghost use Rattle.vb_types.specs.declared.position.TheConstants.{MAX_SEQ as last_seq};
ghost use Rattle.vb_types.specs.declared.role.Role.TheVariants.{Active as ActiveRole};
ghost use Rattle.vb_calls.specs.Plain.{Plain, plain_step, new_vb};
ghost use Rattle.vbucket.specs.Kept.{kept_behind, kept_store};
ghost use Rattle.vbucket.specs.Stands.{MayFail, StandsFor};
ghost use Rattle.vbucket.specs.Stepping.{IsOther};
ghost use Rattle.vb_calls.specs.State.{complete_position, doc_at, first_log, is_active, is_left, newest_branch, get_row, log_row, pending_of, quiet_reply, show_row};
ghost use Rattle.vb_calls.specs.Writes.{key_refusal, lacks_seqnos, store_refusal, write_change};
ghost use Rattle.vb_calls.specs.Roles.{parent_of};
ghost use Rattle.vb_calls.specs.Forms.{HasForm, TakesMemory};
ghost use Rattle.vb_calls.specs.declared.calls.VbCall.TheVariants.{Store, Log};
ghost use Rattle.vb_calls.specs.declared.span.Origin.TheVariants.{Own};
ghost use Rattle.ckpt_list.specs.Lists.{ckpts_at};
ghost use Rattle.durability.specs.Outstanding.{no_acks};

mod consuming;
mod durable;
mod entering;
mod feeding;
mod flushing;
mod loading;
mod roles;
mod settling;

use self::durable::Wish;
use crate::writes::{next_cas, next_rev, refusal_by, takes_writes};
use ckpt_list::CkptList;
use durability::Active;
use failover_log::FailoverLog;
use hash_table::HashTable;
use std::alloc::{AllocError, Global};
use std::marker::Model;
use vb_calls::{Origin, Stream, VbAnswer, VbCall, VbReply};
use vb_types::{
    Act, Change, Doc, Key, Listed, LogEntry, MAX_SEQ, Op, Position, Role, Status, Write,
};

/// A vBucket: its documents, and the checkpoints of its changes.
#[derive(Drop)]
pub struct VBucket {
    alloc: Global,
    node: u8,
    role: Role,
    table: HashTable,
    position: Position,
    log: FailoverLog,
    last_cas: u64,
    /// The seqno up to which all is written down.
    saved: u64,
    list: CkptList,
    streams: Vec<Stream>,
    /// The durable writes that are outstanding, while the vBucket is active.
    durable: Active,
    /// No marker came since a producer's log was adopted.
    first: bool,
}

impl Model for VBucket {
    ghost use Rattle.std.specs.Prelude.{[]};
    ghost use Rattle.vb_calls.specs.Spans.{no_spans};
    ghost use Rattle.vbucket.specs.Kept.{Kept};
    ghost use Rattle.vbucket.specs.Codes.{kept_code};
    ghost use Rattle.vbucket.specs.Steady.{IsSteady};

    ghost Value = { Kept };

    ghost coded = { kept_code };

    ghost view = { λ v. record { rest = record { node = v.node; role = v.role; base = v.table.image; held = []; position = v.position; log = v.log; last_cas = v.last_cas; spans = no_spans; streams = v.streams.items; first = v.first; floor = 0; saved = v.saved; flushed = 0; others = v.durable.others; acks = v.durable.acks; waiting = v.durable.waiting }; list = v.list } };

    ghost invariant = { λ v. IsSteady v.role v.position.at v.list v.streams.items };
}

impl VBucket {
    /// A vBucket that holds nothing yet. An active one is on the branch `uuid`.
    #[tactic(auto, unfolding(crate::specs::Stands::StandsFor))]
    pub fn new(alloc: Global, node: u8, role: Role, uuid: u64) -> Result<VBucket, AllocError>
        requires { role ≡ ActiveRole → 0 < uuid }
        ensures { IfOk result (λ v. StandsFor v (new_vb node role uuid)) }
    {
        let log = first_entries(alloc, role, uuid)?;
        let (list, durable) = nothing_above(alloc, 0)?;
        Ok(VBucket {
            alloc,
            node,
            role,
            table: HashTable::new(alloc),
            position: complete_at(0),
            log,
            last_cas: 0,
            saved: 0,
            list,
            streams: Vec::new(alloc),
            durable,
            first: false,
        })
    }

    /// The newest branch, if the vBucket has one.
    fn branch(&self) -> Option<u64>
        ensures branch { result ≡ parent_of self.now.rest.log }
        ensures or_none { unwrap_or result 0 ≡ newest_branch self.now.rest.log }
    {
        self.log.front().map(|entry| entry.uuid)
    }

    fn told(&self, answer: VbAnswer) -> VbReply
        ensures { result ≡ quiet_reply answer }
    {
        self.told_with(answer, 0, Listed::new(self.alloc))
    }

    /// An answer, and changes that were made, of a branch if they are the vBucket's own.
    fn told_with(&self, answer: VbAnswer, branch: u64, changes: Listed<Change>) -> VbReply
        ensures { result ≡ record { answer = answer; resolved = []; ended = []; branch = branch; changes = changes } }
    {
        VbReply {
            answer,
            resolved: Listed::new(self.alloc),
            ended: Listed::new(self.alloc),
            branch,
            changes,
        }
    }

    fn get(&self, key: &Key) -> Result<VbReply, AllocError>
        ensures { IfOk result (λ reply. reply ≡ get_row self.now.rest key.now) }
    {
        if !takes_writes(self.role) {
            return Ok(self.told(VbAnswer::Status(Status::NotMyVbucket)));
        }
        if self.is_left(key) {
            return Ok(self.told(VbAnswer::Status(Status::SyncWriteReCommitInProgress)));
        }
        match self.table.doc(key) {
            Some(doc) => Ok(self.told(VbAnswer::Found(doc.copy()?))),
            None => Ok(self.told(VbAnswer::Status(Status::KeyEnoent))),
        }
    }

    /// Whether a key's prepare waits that is to be committed again.
    fn is_left(&self, key: &Key) -> bool
        ensures { result ≡ is_left self.now.rest.waiting (pending_of self.now.rest key.now) }
    {
        match self.table.pend(key) {
            Some(pend) => self.durable.holds_left(pend.seq),
            None => false,
        }
    }

    fn entries(&self) -> Result<Listed<LogEntry>, AllocError>
        ensures log { IfOk result (λ log. log ≡ self.now.rest.log) }
        ensures short { IfOk result (λ log. length log ≤ log_limit) }
        ensures bounded { length self.now.rest.log ≤ log_limit }
    {
        Ok(Listed::from_vec(Vec::from_slice(self.alloc, self.log.as_slice())?))
    }

    fn tell_log(&self) -> Result<VbReply, AllocError>
        ensures reply { IfOk result (λ reply. reply ≡ log_row self.now.rest) }
        ensures form { IfOk result (λ reply. HasForm Log reply.answer) }
    {
        let log = self.entries()?;
        Ok(self.told(VbAnswer::Logged { log }))
    }

    fn show(&self) -> Result<VbReply, AllocError>
        ensures { IfOk result (λ reply. reply ≡ show_row self.now.rest) }
    {
        let image = self.table.image(self.alloc)?;
        Ok(self.told(VbAnswer::Shown {
            role: self.role,
            uuid: self.branch().unwrap_or(0),
            ss: self.position.ss,
            se: self.position.se,
            at: self.position.at,
            image,
        }))
    }

    /// Why a write is refused where its key has this document, or none: the first of its reasons.
    fn refusal(&self, write: &Write, doc: Option<&Doc>) -> Option<Status>
        requires { option_copied doc ≡ doc_at self.now.rest write.now.key }
        ensures first { result ≡ store_refusal self.now.rest write.now }
        ensures room { result ≡ None → self.now.rest.position.at < last_seq }
        ensures active { result ≡ None → is_active self.now.rest.role ≡ true }
    {
        if !takes_writes(self.role) {
            return Some(Status::NotMyVbucket);
        }
        if self.lacks_seqnos(1) {
            return Some(Status::Etmpfail);
        }
        self.key_refusal(write, doc)
    }

    /// Whether there are not as many seqnos left, beside one for each outstanding prepare.
    fn lacks_seqnos(&self, n: u64) -> bool
        ensures value { result ≡ lacks_seqnos self.now.rest n }
        ensures room { result ≡ false → self.now.rest.position.at + n ≤ last_seq }
    {
        let outstanding = self.durable.waiting().len() as u64;
        MAX_SEQ
            < self
                .position
                .at
                .saturating_add(outstanding)
                .saturating_add(n)
    }

    /// Why a key is not written, by its prepare that waits and then by its document.
    fn key_refusal(&self, write: &Write, doc: Option<&Doc>) -> Option<Status>
        requires { option_copied doc ≡ doc_at self.now.rest write.now.key }
        ensures { result ≡ key_refusal self.now.rest write.now }
    {
        if self.table.pend(&write.key).is_none() {
            return refusal_by(write.op, write.cas, doc);
        }
        if self.is_left(&write.key) {
            Some(Status::SyncWriteReCommitInProgress)
        } else {
            Some(Status::SyncWriteInProgress)
        }
    }

    /// The change that a write makes where its key has this document, or none.
    fn change_of(&self, write: Write, doc: Option<&Doc>, cas: u64) -> Change
        requires room { self.now.rest.position.at < last_seq }
        requires doc { option_copied doc ≡ doc_at self.now.rest write.key }
        ensures { result ≡ write_change self.now.rest write cas }
    {
        let key = write.key;
        let rev = next_rev(doc);
        let act = match write.op {
            Op::Delete => Act::Remove { cas, rev },
            Op::Set | Op::Add | Op::Replace => Act::Set(Doc {
                value: write.value,
                cas,
                rev,
                flags: write.flags,
                expiry: write.expiry,
                datatype: write.datatype,
            }),
        };
        Change {
            seq: self.position.at + 1,
            key,
            act,
        }
    }

    /// Takes a change into the table and the list, and gives a copy of it. An `Err` changes nothing.
    fn enter(
        &mut self,
        origin: Origin,
        position: Position,
        last_cas: u64,
        change: Change,
    ) -> Result<Listed<Change>, AllocError>
        requires above { self.old.rest.position.at < change.seq }
        requires at { position.at ≡ change.seq }
        ensures new { OnOk result (self.new ≡ record (kept_behind self.old origin change) { rest = record (kept_behind self.old origin change).rest { position = position; last_cas = last_cas } }) }
        ensures changes { IfOk result (λ changes. changes ≡ change ∷ []) }
        ensures err { OnErr result (self.new ≡ self.old) }
    {
        let changes = entering::put(self.alloc, &mut self.table, &mut self.list, origin, change)?;
        self.position = position;
        self.last_cas = last_cas;
        Ok(changes)
    }

    fn store(&mut self, write: Write, clock: u64) -> Result<VbReply, AllocError>
        ensures ok { IfOk result (λ reply. (self.new, reply) ≡ kept_store self.old write clock) }
        ensures form { IfOk result (λ reply. HasForm (Store write clock) reply.answer) }
        ensures err { OnErr result (self.new ≡ self.old) }
    {
        let doc = self.table.doc(&write.key);
        if let Some(status) = self.refusal(&write, doc) {
            return Ok(self.told(VbAnswer::Status(status)));
        }
        let cas = next_cas(clock, self.last_cas);
        let change = self.change_of(write, doc, cas);
        let seq = change.seq;
        let changes = self.enter(Origin::Own, complete_at(seq), cas, change)?;
        let uuid = self.branch().unwrap_or(0);
        Ok(self.told_with(VbAnswer::Stored { uuid, seq, cas }, uuid, changes))
    }

    /// Makes one call. The reply and the new state are the plain vBucket's. An `Err` changes nothing,
    /// and comes of no call that takes no memory, nor of a batch that is done where the vBucket is not active.
    #[tactic(auto, unfolding(crate::specs::Stands::StandsFor))]
    pub fn step(&mut self, call: VbCall) -> Result<VbReply, AllocError>
        ensures ok { IfOk result (λ reply. (s : Plain) → StandsFor self.old s → StandsFor self.new (plain_step s call).0 × (reply ≡ (plain_step s call).1)) }
        ensures err { OnErr result (self.new ≡ self.old) }
        ensures form { IfOk result (λ reply. HasForm call reply.answer) }
        ensures sure { OnErr result (TakesMemory call) }
        ensures active { OnErr result ((s : Plain) → StandsFor self.old s → MayFail s call) }
    {
        match call {
            VbCall::Get { key } => self.get(&key),
            VbCall::Store { write, clock } => self.store(write, clock),
            VbCall::Durable {
                write,
                clock,
                level,
                deadline,
                waiter,
            } => self.prepare(
                write,
                clock,
                Wish {
                    level,
                    deadline,
                    waiter,
                },
            ),
            VbCall::Chain { chain } => self.set_chain(chain),
            VbCall::Ack { member, seq } => self.acknowledge(member, seq),
            VbCall::Tick { clock } => self.tick(clock),
            VbCall::Due => Ok(self.due()),
            VbCall::OpenStream { id, ask, sync } => self.open_stream(id, ask, sync),
            VbCall::Place { id } => self.place(id),
            VbCall::Take { id } => self.take(id),
            VbCall::CloseStream { id } => Ok(self.close_stream(id)),
            other => self.step_other(other),
        }
    }

    /// Makes one of the calls that `step` has no arm for. One match of all is longer to prove than both.
    #[tactic(auto, unfolding(crate::specs::Stands::StandsFor))]
    fn step_other(&mut self, call: VbCall) -> Result<VbReply, AllocError>
        requires { IsOther call }
        ensures ok { IfOk result (λ reply. (s : Plain) → StandsFor self.old s → StandsFor self.new (plain_step s call).0 × (reply ≡ (plain_step s call).1)) }
        ensures err { OnErr result (self.new ≡ self.old) }
        ensures form { IfOk result (λ reply. HasForm call reply.answer) }
        ensures sure { OnErr result (TakesMemory call) }
        ensures active { OnErr result ((s : Plain) → StandsFor self.old s → MayFail s call) }
    {
        match call {
            VbCall::Ask => Ok(self.ask()),
            VbCall::Adopt { log } => self.adopt(log.as_slice()),
            VbCall::Marker { start, end } => self.mark(start, end),
            VbCall::Receive { change } => self.receive(change),
            VbCall::RollTo { at, image, cas } => self.roll_to(at, &image, cas),
            VbCall::Promote { uuid } => self.promote(uuid),
            VbCall::Follow => self.set_role(Role::Replica),
            VbCall::Dead => self.set_role(Role::Dead),
            VbCall::Pend => self.pend(),
            VbCall::Own => self.own(),
            VbCall::Yield { id } => self.hand_over(id),
            VbCall::Seal => self.seal(),
            VbCall::Trim => Ok(self.trim()),
            VbCall::DropCursor { id } => Ok(self.drop_cursor(id)),
            VbCall::FlushTake => self.flush_take(),
            VbCall::FlushDone { receipt } => self.flush_done(receipt.seq()),
            VbCall::Stat => Ok(self.stat()),
            VbCall::Log => self.tell_log(),
            VbCall::Show => self.show(),
            _ => unreachable!(),
        }
    }
}

/// The position of a complete snapshot that ends at a seqno.
fn complete_at(seq: u64) -> Position
    ensures { result ≡ complete_position seq }
{
    Position {
        ss: seq,
        se: seq,
        at: seq,
    }
}

/// A list of no changes above a seqno, and no durable write that is outstanding.
fn nothing_above(alloc: Global, at: u64) -> Result<(CkptList, Active), AllocError>
    ensures list { IfOk result (λ parts. parts.0 ≡ ckpts_at at Own) }
    ensures others { IfOk result (λ parts. parts.1.others ≡ []) }
    ensures acks { IfOk result (λ parts. parts.1.acks ≡ no_acks) }
    ensures waiting { IfOk result (λ parts. parts.1.waiting ≡ []) }
{
    let list = CkptList::new(alloc, at)?;
    let durable = Active::new(alloc)?;
    Ok((list, durable))
}

/// The failover log of a new vBucket, the newest entry first.
fn first_entries(alloc: Global, role: Role, uuid: u64) -> Result<FailoverLog, AllocError>
    requires { role ≡ ActiveRole → 0 < uuid }
    ensures { IfOk result (λ log. log ≡ first_log role uuid) }
{
    let mut log = FailoverLog::new(alloc)?;
    if takes_writes(role) {
        log.add(uuid, 0);
    }
    Ok(log)
}
