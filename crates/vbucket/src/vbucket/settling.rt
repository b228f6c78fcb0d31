//! How durable writes are resolved: they are committed, in order, or given up.
ghost use Rattle.std.specs.Prelude.{◌≡◌, ℕ, ◌<◌, ◌≤◌, true, length, IfOk, OnOk, OnErr};
ghost use Rattle.std.specs.FinMap as map;
ghost use Rattle.std.specs.List.{fold, list_all};
ghost use Rattle.durability.specs.Chains.{committed_now};
ghost use Rattle.durability.specs.Outstanding.{acked, is_late};
ghost use Rattle.vb_types.specs.Histories.{Rises};
ghost use Rattle.vb_types.specs.Images.{applied};
ghost use Rattle.vb_types.specs.declared.position.TheConstants.{MAX_SEQ as last_seq};
ghost use Rattle.vb_calls.specs.Following.{committed_act};
ghost use Rattle.vb_calls.specs.Settling.{given_up};
ghost use Rattle.vb_calls.specs.Spans.{is_durable};
ghost use Rattle.vb_calls.specs.State.{newest_branch};
ghost use Rattle.vb_calls.specs.declared.calls.VbAnswer.TheVariants.{Done};
ghost use Rattle.vbucket.specs.Plans.{IsRising, keys_of};
ghost use Rattle.vbucket.specs.Settling as spec;

use super::{VBucket, complete_at, entering};
use crate::following;
use durability::{Active, Waiting};
use hash_table::HashTable;
use std::alloc::{AllocError, Global};
use std::collections::VecDeque;
use vb_calls::{Resolution, Resolved, VbAnswer, VbReply};
use vb_types::{Act, Change, Key, Keyed, Listed, MAX_SEQ, Pend};

/// The changes that a call is about to make, what they make of durable writes, and the last seqno once
/// they are made.
#[derive(Drop)]
pub(super) struct Plan {
    pub(super) at: u64,
    pub(super) changes: Listed<Change>,
    pub(super) resolved: Listed<Resolved>,
}

impl Plan {
    /// Nothing yet, above a seqno.
    pub(super) fn new(alloc: Global, at: u64) -> Plan
        ensures { result ≡ spec.no_plan at }
    {
        Plan {
            at,
            changes: Listed::new(alloc),
            resolved: Listed::new(alloc),
        }
    }

    /// One more change.
    pub(super) fn add(&mut self, key: Key, act: Act) -> Result<(), AllocError>
        requires { self.old.at < last_seq }
        ensures { OnOk result (self.new ≡ spec.with_next key act self.old) }
    {
        self.at += 1;
        let seq = self.at;
        self.changes.push(Change { seq, key, act })
    }

    /// A prepare is resolved by this change, with this outcome.
    pub(super) fn resolve(
        &mut self,
        prepare: &Waiting,
        act: Act,
        how: Resolution,
    ) -> Result<(), AllocError>
        requires { self.old.at < last_seq }
        ensures { OnOk result (self.new ≡ spec.with_resolved act how prepare.now self.old) }
    {
        self.add(prepare.key.clone()?, act)?;
        tell(&mut self.resolved, prepare.waiter, how)
    }

    /// A prepare is committed by this change, on a branch.
    fn commit(&mut self, prepare: &Waiting, act: Act, uuid: u64) -> Result<(), AllocError>
        requires { self.old.at < last_seq }
        ensures { OnOk result (self.new ≡ spec.with_committed act uuid prepare.now self.old) }
    {
        let seq = self.at + 1;
        let cas = following::cas(&act);
        self.resolve(prepare, act, Resolution::Committed { uuid, seq, cas })
    }
}

/// A prepare is committed by the next change of a plan, on a branch. The keys of its changes stay noted.
fn commit(
    plan: &mut Plan,
    keys: &mut Keyed<()>,
    prepare: &Waiting,
    act: Act,
    uuid: u64,
) -> Result<(), AllocError>
    requires at { plan.old.at < last_seq }
    requires keys { keys.old ≡ keys_of plan.old.changes }
    ensures plan { OnOk result (plan.new ≡ spec.with_committed act uuid prepare.now plan.old) }
    ensures keys { OnOk result (keys.new ≡ keys_of plan.new.changes) }
{
    plan.commit(prepare, act, uuid)?;
    keys.insert(prepare.key.clone()?, ())
}

/// Tells the outcome to who waits for it; nobody does under 0.
fn tell(resolved: &mut Listed<Resolved>, waiter: u64, how: Resolution) -> Result<(), AllocError>
    ensures { OnOk result (resolved.new ≡ spec.with_outcome waiter how resolved.old) }
{
    if waiter == 0 {
        return Ok(());
    }
    resolved.push(Resolved { waiter, how })
}

/// A branch where there are changes, and else 0.
pub(super) fn branch_if(uuid: u64, changes: &[Change]) -> u64
    ensures { result ≡ spec.own_branch uuid changes.now }
{
    if changes.is_empty() { 0 } else { uuid }
}

/// That nobody knows whether these stand.
pub(super) fn ambiguous(
    alloc: Global,
    waiting: &VecDeque<Waiting>,
) -> Result<Listed<Resolved>, AllocError>
    ensures { IfOk result (λ resolved. resolved ≡ given_up waiting.now.items) }
{
    let mut resolved = Listed::new(alloc);
    for prepare in waiting {
        tell(&mut resolved, prepare.waiter, Resolution::Ambiguous)?;
    }
    Ok(resolved)
}

/// A key's prepare that waits once a change is made.
fn pend_at(key: &Key, pend: Option<Pend>, change: &Change) -> Result<Option<Pend>, AllocError>
    ensures { IfOk result (λ left. left ≡ spec.pend_at key.now pend change.now) }
{
    if !change.key.is(key) {
        return Ok(pend);
    }
    if let Act::Prepare {
        level,
        doc,
        deleted,
    } = &change.act
    {
        return Ok(Some(Pend {
            seq: change.seq,
            level: *level,
            doc: doc.copy()?,
            deleted: *deleted,
        }));
    }
    Ok(pend.filter(|pend| pend.seq >= change.seq))
}

/// The commit of a prepare that waits, if it is the one of this seqno.
fn commit_of(pend: Option<Pend>, prepared: u64) -> Option<Act>
    ensures { result ≡ committed_act prepared pend }
{
    let Pend {
        seq,
        doc,
        deleted,
        ..
    } = pend?;
    if seq != prepared {
        return None;
    }
    Some(Act::Commit {
        prepared,
        doc,
        deleted,
    })
}

/// The keys of changes.
fn keys_of(alloc: Global, changes: &[Change]) -> Result<Keyed<()>, AllocError>
    ensures { IfOk result (λ keys. keys ≡ keys_of changes.now) }
{
    let mut keys = Keyed::new(alloc);
    for change in changes {
        keys.insert(change.key.clone()?, ())?;
    }
    Ok(keys)
}

/// The prepare that a change resolves.
fn resolved_by(act: &Act) -> Option<u64>
    ensures { result ≡ spec.resolved_seq act.now }
{
    match act {
        Act::Commit { prepared, .. } | Act::Abort { prepared } => Some(*prepared),
        _ => None,
    }
}

/// Whether a prepare's time is up.
fn is_late(prepare: &Waiting, clock: u64) -> bool
    ensures { result ≡ is_late clock prepare.now.deadline }
{
    prepare.deadline.is_some_and(|deadline| deadline <= clock)
}

/// The prepares that these changes resolve are outstanding no more. Takes no memory.
pub(super) fn resolve_all(durable: &mut Active, changes: &[Change])
    ensures { durable.new ≡ record durable.old { waiting = fold spec.waiting_behind durable.old.waiting changes.now; spare = durable.new.spare } }
{
    for change in changes {
        if let Some(seq) = resolved_by(&change.act) {
            durable.resolve(seq);
        }
    }
}

impl VBucket {
    /// A key's prepare that waits once these changes are made, which have these keys. They are passed only
    /// where this key is among them: no two outstanding prepares have the same, so that is seldom.
    fn pend_after(
        &self,
        made: &[Change],
        keys: &Keyed<()>,
        key: &Key,
    ) -> Result<Option<Pend>, AllocError>
        requires { keys.now ≡ keys_of made.now }
        ensures { IfOk result (λ pend. pend ≡ map.get (fold applied self.now.rest.base made.now).pending key.now) }
    {
        let mut pend = match self.table.pend(key) {
            Some(pend) => Some(pend.clone()?),
            None => None,
        };
        if keys.get(key).is_none() {
            return Ok(pend);
        }
        for change in made {
            pend = pend_at(key, pend, change)?;
        }
        Ok(pend)
    }

    /// The commit of a prepare once these changes are made, which have these keys, if it is its key's
    /// prepare that waits then.
    fn commit_after(
        &self,
        made: &[Change],
        keys: &Keyed<()>,
        prepare: &Waiting,
    ) -> Result<Option<Act>, AllocError>
        requires { keys.now ≡ keys_of made.now }
        ensures { IfOk result (λ act. act ≡ committed_act prepare.now.seq (map.get (fold applied self.now.rest.base made.now).pending prepare.now.key)) }
    {
        let pend = self.pend_after(made, keys, &prepare.key)?;
        Ok(commit_of(pend, prepare.seq))
    }

    /// Plans to commit on a branch what has what it needs where these prepares are outstanding, one after
    /// the other: up to the first that is not its key's prepare that waits, and while seqnos are left.
    pub(super) fn commit_ready(
        &self,
        uuid: u64,
        outstanding: &Active,
        plan: &mut Plan,
    ) -> Result<(), AllocError>
        ensures { OnOk result (plan.new ≡ spec.with_commits uuid self.now.rest.base (committed_now (acked outstanding.now.acks) outstanding.now.others self.now.rest.saved outstanding.now.waiting) plan.old) }
    {
        let ready = outstanding.ready(self.saved);
        // Mostly nothing is, and then no key is noted.
        if ready == 0 {
            return Ok(());
        }
        let mut keys = keys_of(self.alloc, plan.changes.as_slice())?;
        for prepare in outstanding.waiting().range(..ready) {
            if plan.at >= MAX_SEQ {
                return Ok(());
            }
            let Some(act) = self.commit_after(plan.changes.as_slice(), &keys, prepare)? else {
                return Ok(());
            };
            commit(plan, &mut keys, prepare, act, uuid)?;
        }
        Ok(())
    }

    /// Makes changes of the vBucket's own. An `Err` changes nothing.
    fn make(&mut self, changes: &[Change]) -> Result<(), AllocError>
        requires rises { (n : ℕ) × Rises self.old.rest.position.at n changes.now }
        requires durable { list_all (λ c. is_durable c.act) changes.now ≡ true }
        ensures ok { OnOk result (self.new ≡ fold spec.with_made self.old changes.now) }
        ensures err { OnErr result (self.new ≡ self.old) }
    {
        let Some(last) = changes.last() else {
            return Ok(());
        };
        entering::put_all(self.alloc, &mut self.table, &mut self.list, changes)?;
        self.position = complete_at(last.seq);
        Ok(())
    }

    /// The branch of these changes of the vBucket's own; 0 where there is none.
    fn branch_of(&self, changes: &[Change]) -> u64
        ensures { result ≡ spec.own_branch (newest_branch self.now.rest.log) changes.now }
    {
        branch_if(self.branch().unwrap_or(0), changes)
    }

    /// Makes the changes of a plan, and answers. An `Err` changes nothing.
    fn carry_out(&mut self, plan: Plan, answer: VbAnswer) -> Result<VbReply, AllocError>
        requires rises { Rises self.old.rest.position.at plan.at plan.changes }
        requires durable { list_all (λ c. is_durable c.act) plan.changes ≡ true }
        ensures ok { IfOk result (λ reply. (self.new, reply) ≡ spec.carried_out self.old answer plan) }
        ensures answer { IfOk result (λ reply. reply.answer ≡ answer) }
        ensures err { OnErr result (self.new ≡ self.old) }
    {
        self.make(plan.changes.as_slice())?;
        resolve_all(&mut self.durable, plan.changes.as_slice());
        let branch = self.branch_of(plan.changes.as_slice());
        Ok(VbReply {
            answer,
            resolved: plan.resolved,
            ended: Listed::new(self.alloc),
            branch,
            changes: plan.changes,
        })
    }

    /// Commits all that may be once the changes of a plan are made, and makes them all. An `Err` changes
    /// nothing.
    pub(super) fn settle(&mut self, plan: Plan, answer: VbAnswer) -> Result<VbReply, AllocError>
        requires rises { Rises self.old.rest.position.at plan.at plan.changes }
        requires durable { list_all (λ c. is_durable c.act) plan.changes ≡ true }
        ensures ok { IfOk result (λ reply. (self.new, reply) ≡ spec.kept_settled self.old answer plan) }
        ensures answer { IfOk result (λ reply. reply.answer ≡ answer) }
        ensures err { OnErr result (self.new ≡ self.old) }
    {
        let plan = self.with_ready(&self.durable, plan)?;
        self.carry_out(plan, answer)
    }

    /// A plan with the commits that may be made then, where these prepares are outstanding.
    fn with_ready(&self, outstanding: &Active, plan: Plan) -> Result<Plan, AllocError>
        ensures { IfOk result (λ ready. ready ≡ spec.with_ready (record self.now.rest { others = outstanding.now.others; acks = outstanding.now.acks }) outstanding.now.waiting plan) }
    {
        let mut plan = plan;
        let uuid = self.branch().unwrap_or(0);
        self.commit_ready(uuid, outstanding, &mut plan)?;
        Ok(plan)
    }

    /// Plans to give up the prepares whose time is up, the lowest first, and leaves the others in `left`.
    fn give_up(&self, clock: u64, left: &mut Active, plan: &mut Plan) -> Result<(), AllocError>
        ensures plan { OnOk result ((plan.new, left.new.waiting) ≡ spec.given_up_plan clock self.now.rest.waiting (plan.old, left.old.waiting)) }
        ensures rest { OnOk result (left.new ≡ record left.old { waiting = left.new.waiting; spare = left.new.spare }) }
    {
        for prepare in self.durable.waiting() {
            if is_late(prepare, clock) && plan.at < MAX_SEQ {
                let act = Act::Abort {
                    prepared: prepare.seq,
                };
                plan.resolve(prepare, act, Resolution::Ambiguous)?;
                left.resolve(prepare.seq);
            }
        }
        Ok(())
    }

    /// Gives up the prepares whose time is up, and commits all that may be then. An `Err` changes nothing.
    pub(super) fn expire(&mut self, clock: u64) -> Result<VbReply, AllocError>
        ensures ok { IfOk result (λ reply. (self.new, reply) ≡ spec.kept_expired self.old clock) }
        ensures answer { IfOk result (λ reply. reply.answer ≡ Done) }
        ensures err { OnErr result (self.new ≡ self.old) }
    {
        if self.durable.expired(clock).is_none() {
            let plan = Plan::new(self.alloc, self.position.at);
            return self.settle(plan, VbAnswer::Done);
        }
        let plan = self.late_plan(clock)?;
        self.carry_out(plan, VbAnswer::Done)
    }

    /// Plans to give up the prepares whose time is up, and to commit all that may be then.
    fn late_plan(&self, clock: u64) -> Result<Plan, AllocError>
        ensures plan { IfOk result (λ plan. plan ≡ spec.with_ready self.now.rest (spec.given_up_plan clock self.now.rest.waiting (spec.no_plan self.now.rest.position.at, self.now.rest.waiting)).1 (spec.given_up_plan clock self.now.rest.waiting (spec.no_plan self.now.rest.position.at, self.now.rest.waiting)).0) }
        ensures rises { IfOk result (IsRising self.now.rest.position.at) }
    {
        let mut plan = Plan::new(self.alloc, self.position.at);
        let mut left = self.durable.copy(self.alloc)?;
        self.give_up(clock, &mut left, &mut plan)?;
        self.with_ready(&left, plan)
    }
}
