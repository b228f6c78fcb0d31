//! Durable writes: how they are prepared, what nodes acknowledge, and when they are given up.
ghost use Rattle.std.specs.Prelude.{◌≡◌, ◌<◌, None, Some, IfOk, OnErr, map as map_list};
ghost use Rattle.std.specs.FinMap as map;
ghost use Rattle.std.specs.Option.{option_copied};
ghost use Rattle.durability.specs.Pending.{due};
ghost use Rattle.vb_types.specs.declared.change.Act.TheVariants.{Prepare};
ghost use Rattle.vb_types.specs.declared.position.TheConstants.{MAX_SEQ as last_seq};
ghost use Rattle.vb_calls.specs.Durable.{due_row, durable_refusal, is_delete};
ghost use Rattle.vb_calls.specs.Forms.{HasForm};
ghost use Rattle.vb_calls.specs.State.{doc_at};
ghost use Rattle.vb_calls.specs.Writes.{written_doc};
ghost use Rattle.vb_calls.specs.declared.calls.VbCall.TheVariants.{Ack, Chain as SetChain, Due, Durable, Tick};
ghost use Rattle.vb_calls.specs.declared.calls.VbAnswer.TheVariants.{Prepared};
ghost use Rattle.vbucket.specs.Plans.{IsRising};
ghost use Rattle.vbucket.specs.Settling as spec;

use super::VBucket;
use super::settling::Plan;
use crate::following;
use crate::writes::{next_cas, next_rev, takes_writes};
use durability::{Chain, Waiting};
use hash_table::HashTable;
use snap_range::effective;
use std::alloc::AllocError;
use vb_calls::{VbAnswer, VbReply};
use vb_types::{Act, Doc, Key, Level, Op, Position, Status, Write};

/// What is asked of a durable write: where it must be before it is committed, when it is given up, and
/// who waits for the outcome.
#[derive(Clone, Copy, Debug, PartialEq, Eq)]
pub(super) struct Wish {
    pub(super) level: Level,
    pub(super) deadline: u64,
    pub(super) waiter: u64,
}

impl VBucket {
    /// Why a durable write is refused where its key has this document, or none: the first of its reasons.
    fn durable_refusal(&self, write: &Write, doc: Option<&Doc>) -> Option<Status>
        requires { option_copied doc ≡ doc_at self.now.rest write.now.key }
        ensures first { result ≡ durable_refusal self.now.rest write.now }
        ensures room { result ≡ None → self.now.rest.position.at < last_seq }
    {
        if !takes_writes(self.role) {
            return Some(Status::NotMyVbucket);
        }
        if !self.durable.possible() {
            return Some(Status::DurabilityImpossible);
        }
        if self.lacks_seqnos(2) {
            return Some(Status::Etmpfail);
        }
        self.key_refusal(write, doc)
    }

    /// A durable write's prepare is outstanding, with this CAS as the last one, and a plan is carried out
    /// with all commits that may be made then. An `Err` changes nothing.
    fn settle_with(&mut self, prepare: Waiting, cas: u64, plan: Plan) -> Result<VbReply, AllocError>
        requires { IsRising self.old.rest.position.at plan }
        ensures ok { IfOk result (λ reply. (self.new, reply) ≡ spec.kept_settled (spec.kept_with_prepare self.old prepare cas) (Prepared prepare.seq cas) plan) }
        ensures answer { IfOk result (λ reply. reply.answer ≡ Prepared prepare.seq cas) }
        ensures err { OnErr result (self.new ≡ self.old) }
    {
        self.durable.reserve(1)?;
        let seq = prepare.seq;
        let place = self.durable.add_reserved(prepare);
        let former = self.last_cas;
        self.last_cas = cas;
        match self.settle(plan, VbAnswer::Prepared { seq, cas }) {
            Ok(reply) => Ok(reply),
            Err(stop) => {
                self.last_cas = former;
                self.durable.take_back(place);
                Err(stop)
            }
        }
    }

    /// The prepare of a write whose key has this document, or none, as the plan of a call.
    fn plan_of(
        &self,
        write: Write,
        doc: Option<&Doc>,
        level: Level,
        cas: u64,
    ) -> Result<Plan, AllocError>
        requires room { self.now.rest.position.at < last_seq }
        requires doc { option_copied doc ≡ doc_at self.now.rest write.key }
        ensures plan { IfOk result (λ plan. plan ≡ spec.prepare_plan self.now write level cas) }
        ensures rises { IfOk result (λ plan. IsRising self.now.rest.position.at plan) }
    {
        let (key, act) = prepare_of(write, level, cas, next_rev(doc));
        let mut plan = Plan::new(self.alloc, self.position.at);
        plan.add(key, act)?;
        Ok(plan)
    }

    /// Prepares a durable write. An `Err` changes nothing.
    pub(super) fn prepare(
        &mut self,
        write: Write,
        clock: u64,
        wish: Wish,
    ) -> Result<VbReply, AllocError>
        ensures ok { IfOk result (λ reply. (self.new, reply) ≡ spec.kept_durable self.old write clock (record { level = wish.level; deadline = wish.deadline; waiter = wish.waiter })) }
        ensures form { IfOk result (λ reply. HasForm (Durable write clock wish.level wish.deadline wish.waiter) reply.answer) }
        ensures err { OnErr result (self.new ≡ self.old) }
    {
        let doc = self.table.doc(&write.key);
        if let Some(status) = self.durable_refusal(&write, doc) {
            return Ok(self.told(VbAnswer::Status(status)));
        }
        let cas = next_cas(clock, self.last_cas);
        let prepare = waiting_for(&write.key, self.position.at + 1, wish)?;
        let plan = self.plan_of(write, doc, wish.level, cas)?;
        self.settle_with(prepare, cas, plan)
    }

    /// Sets the chain. An `Err` changes nothing.
    pub(super) fn set_chain(&mut self, chain: Chain) -> Result<VbReply, AllocError>
        ensures ok { IfOk result (λ reply. (self.new, reply) ≡ spec.kept_chain self.old chain) }
        ensures form { IfOk result (λ reply. HasForm (SetChain chain) reply.answer) }
        ensures err { OnErr result (self.new ≡ self.old) }
    {
        if !takes_writes(self.role) {
            return Ok(self.told(VbAnswer::Status(Status::NotMyVbucket)));
        }
        let former = self.durable.set_chain(chain);
        match self.settle(Plan::new(self.alloc, self.position.at), VbAnswer::Done) {
            Ok(reply) => Ok(reply),
            Err(stop) => {
                self.durable.unset_chain(former);
                Err(stop)
            }
        }
    }

    /// A member acknowledged all up to a seqno. An `Err` changes nothing.
    pub(super) fn acknowledge(&mut self, member: u8, seq: u64) -> Result<VbReply, AllocError>
        ensures ok { IfOk result (λ reply. (self.new, reply) ≡ spec.kept_ack self.old member seq) }
        ensures form { IfOk result (λ reply. HasForm (Ack member seq) reply.answer) }
        ensures err { OnErr result (self.new ≡ self.old) }
    {
        if !takes_writes(self.role) {
            return Ok(self.told(VbAnswer::Status(Status::NotMyVbucket)));
        }
        if self.position.at < seq {
            return Ok(self.told(VbAnswer::Status(Status::Erange)));
        }
        let former = self.durable.acked(member);
        self.durable.ack(member, seq);
        match self.settle(Plan::new(self.alloc, self.position.at), VbAnswer::Done) {
            Ok(reply) => Ok(reply),
            Err(stop) => {
                self.durable.unack(member, former);
                Err(stop)
            }
        }
    }

    /// Gives up the prepares whose time is up. An `Err` changes nothing.
    pub(super) fn tick(&mut self, clock: u64) -> Result<VbReply, AllocError>
        ensures ok { IfOk result (λ reply. (self.new, reply) ≡ spec.kept_tick self.old clock) }
        ensures form { IfOk result (λ reply. HasForm (Tick clock) reply.answer) }
        ensures err { OnErr result (self.new ≡ self.old) }
    {
        if !takes_writes(self.role) {
            return Ok(self.told(VbAnswer::Status(Status::NotMyVbucket)));
        }
        self.expire(clock)
    }

    /// What the vBucket, which follows another one, may acknowledge, and up to where all is written down.
    pub(super) fn due(&self) -> VbReply
        ensures reply { result ≡ due_row self.now.rest }
        ensures form { HasForm Due result.answer }
    {
        if !following::follows(self.role) {
            return self.told(VbAnswer::Status(Status::NotMyVbucket));
        }
        let Position { ss, se, at } = self.position;
        let (complete, _) = effective(at, ss, se);
        self.told(VbAnswer::Dues {
            seq: last_due(&self.table, complete, self.saved),
            saved: self.saved,
        })
    }
}

/// The key of a write, and the act that prepares it, with this revision.
fn prepare_of(write: Write, level: Level, cas: u64, rev: u64) -> (Key, Act)
    ensures { result ≡ (write.key, Prepare level (written_doc write cas rev) (is_delete write.op)) }
{
    let act = Act::Prepare {
        level,
        doc: Doc {
            value: write.value,
            cas,
            rev,
            flags: write.flags,
            expiry: write.expiry,
            datatype: write.datatype,
        },
        deleted: matches!(write.op, Op::Delete),
    };
    (write.key, act)
}

/// A write of this key whose prepare has this seqno, as an outstanding one.
fn waiting_for(key: &Key, seq: u64, wish: Wish) -> Result<Waiting, AllocError>
    ensures { IfOk result (λ waiting. waiting ≡ record { key = key.now; seq = seq; level = wish.level; deadline = Some wish.deadline; waiter = wish.waiter }) }
{
    Ok(Waiting {
        key: key.clone()?,
        seq,
        level: wish.level,
        deadline: Some(wish.deadline),
        waiter: wish.waiter,
    })
}

/// The greatest prepare that waits and that a follower may acknowledge, or 0. It has all up to
/// `complete`, and all up to `saved` is written down. Two searches in order, and no memory.
fn last_due(table: &HashTable, complete: u64, saved: u64) -> u64
    ensures { result ≡ due (map_list (λ e. e.1) (map.entries table.now.image.pending)) complete saved }
{
    match table.first_pending_third(saved) {
        Some(bar) => table.last_pending(complete.min(bar - 1)).unwrap_or(0),
        None => table.last_pending(complete).unwrap_or(0),
    }
}
