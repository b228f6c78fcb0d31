//! How a vBucket changes its role, seals its checkpoint and closes streams.
ghost use Rattle.std.specs.Prelude.{◌≡◌, ◌≢◌, ◌<◌, ◌&&◌, not, is_some, [], IfOk, OnOk, OnErr, Some, None};
ghost use Rattle.std.specs.List.{fold};
ghost use Rattle.durability.specs.Chains.{committed_now};
ghost use Rattle.durability.specs.Outstanding.{acked, no_acks};
ghost use Rattle.vb_types.specs.declared.role.Role.TheVariants.{Dead as DeadRole};
ghost use Rattle.vb_calls.specs.Following.{is_follower};
ghost use Rattle.vb_calls.specs.Streams.{close_row, stream_at, without_stream};
ghost use Rattle.branch_model.specs.Logs.{Lacks};
ghost use Rattle.vb_calls.specs.declared.calls.VbAnswer.TheVariants.{Flag};
ghost use Rattle.vb_calls.specs.declared.calls.VbCall.TheVariants.{Own, Pend as PendCall, Promote, Yield};
ghost use Rattle.vb_calls.specs.declared.stream.Stream.{Stream as TheStream};
ghost use Rattle.vb_calls.specs.Forms.{HasForm};
ghost use Rattle.vb_calls.specs.Settling.{left_prepare, left_prepares};
ghost use Rattle.vb_calls.specs.State.{is_active, quiet_reply};
ghost use Rattle.vb_calls.specs.Roles.{is_role, own_refusal, pend_row, promote_refusal, stream_ids, turn_row, yield_row, yielded};
ghost use Rattle.checkpoint.specs.Checkpoints.{ckpt_span};
ghost use Rattle.ckpt_list.specs.Lists.{sealed_list};
ghost use Rattle.ckpt_list.specs.Windows.{ArePartsAbove};
ghost use Rattle.vbucket.specs.Kept.{SameChanges, SealedIf};
ghost use Rattle.vbucket.specs.Promoting as spec;
ghost use Rattle.vbucket.specs.Settling.{with_commits, with_made};
ghost use Rattle.vbucket.specs.Steady.{CursorsAreStreams};
ghost use Rattle.vbucket.specs.Turning.{only_stream, turned_idle, turned_to};

use super::settling::{Plan, ambiguous, branch_if, resolve_all};
use super::{VBucket, complete_at, entering};
use crate::writes::takes_writes;
use crate::{following, streams};
use ckpt_list::CkptList;
use durability::{Active, Waiting};
use snap_range::effective;
use std::alloc::AllocError;
use vb_calls::{Stream, VbAnswer, VbReply};
use vb_types::{Change, Key, Listed, Pend, Position, Role, Status};

impl VBucket {
    /// Why the vBucket does not become active on a branch, the first of the reasons.
    fn unready(&self, uuid: u64) -> Option<Status>
        ensures first { result ≡ promote_refusal self.now.rest uuid }
        ensures lacks { result ≡ None → Lacks self.now.rest.log uuid }
        ensures branch { result ≡ None → 0 < uuid }
    {
        if takes_writes(self.role) {
            Some(Status::NotMyVbucket)
        } else if uuid != 0 && following::lacks(self.log.as_slice(), uuid) {
            None
        } else {
            Some(Status::Einval)
        }
    }

    /// Why the vBucket does not take over, the first of the reasons.
    fn unfit(&self) -> Option<Status>
        ensures { result ≡ own_refusal self.now.rest }
    {
        if self.role != Role::Pending {
            Some(Status::NotMyVbucket)
        } else if self.log.front().is_some() && self.position.at == self.position.se {
            None
        } else {
            Some(Status::Einval)
        }
    }

    /// Becomes active on a new branch, where it may. That leaves the old one at the last seqno of a
    /// complete snapshot, and else at the snapshot's start. An `Err` changes nothing.
    pub(super) fn promote(&mut self, uuid: u64) -> Result<VbReply, AllocError>
        ensures ok { IfOk result (λ reply. (self.new, reply) ≡ spec.kept_promote self.old uuid) }
        ensures form { IfOk result (λ reply. HasForm (Promote uuid) reply.answer) }
        ensures err { OnErr result (self.new ≡ self.old) }
    {
        if let Some(status) = self.unready(uuid) {
            return Ok(self.told(VbAnswer::Status(status)));
        }
        let parent = self.branch();
        let Position { ss, se, at: high } = self.position;
        let (fork, _) = effective(high, ss, se);
        let answer = VbAnswer::Branch {
            uuid,
            parent,
            fork,
            high,
        };
        let reply = self.rise(uuid, answer)?;
        self.log.add(uuid, fork);
        Ok(reply)
    }

    /// Becomes active on the branch that it is on, where it may. An `Err` changes nothing.
    pub(super) fn own(&mut self) -> Result<VbReply, AllocError>
        ensures ok { IfOk result (λ reply. (self.new, reply) ≡ spec.kept_own self.old) }
        ensures form { IfOk result (λ reply. HasForm Own reply.answer) }
        ensures err { OnErr result (self.new ≡ self.old) }
    {
        if let Some(status) = self.unfit() {
            return Ok(self.told(VbAnswer::Status(status)));
        }
        let uuid = self.branch().unwrap_or(0);
        self.rise(uuid, VbAnswer::Done)
    }

    /// Becomes active. The prepares that wait are outstanding then, and what may be committed is, on the
    /// branch `uuid`. The failover log stays. An `Err` changes nothing.
    fn rise(&mut self, uuid: u64, answer: VbAnswer) -> Result<VbReply, AllocError>
        ensures ok { IfOk result (λ reply. (self.new, reply) ≡ spec.kept_rise self.old uuid answer) }
        ensures answer { IfOk result (λ reply. reply.answer ≡ answer) }
        ensures log { OnOk result (self.new.rest.log ≡ self.old.rest.log) }
        ensures err { OnErr result (self.new ≡ self.old) }
    {
        let left = self.left()?;
        let plan = self.commits_on(uuid, &left)?;
        self.lead(uuid, answer, left, plan)
    }

    /// The prepares that wait, as outstanding ones that are to be committed again.
    fn left(&self) -> Result<Active, AllocError>
        ensures acks { IfOk result (λ left. left.acks ≡ no_acks) }
        ensures others { IfOk result (λ left. left.others ≡ []) }
        ensures waiting { IfOk result (λ left. left.waiting ≡ left_prepares self.now.rest.base) }
    {
        let prepares = self.table.prepares(self.alloc)?;
        let mut left = Active::new(self.alloc)?;
        add_left(&mut left, &prepares)?;
        Ok(left)
    }

    /// The commits that may be made on a branch where these prepares are outstanding; those that were so
    /// before are given up.
    fn commits_on(&self, uuid: u64, left: &Active) -> Result<Plan, AllocError>
        ensures { IfOk result (λ plan. plan ≡ with_commits uuid self.now.rest.base (committed_now (acked left.now.acks) left.now.others self.now.rest.saved left.now.waiting) (spec.lead_plan self.now.rest)) }
    {
        let mut plan = Plan::new(self.alloc, self.position.at);
        plan.resolved = ambiguous(self.alloc, self.durable.waiting())?;
        self.commit_ready(uuid, left, &mut plan)?;
        Ok(plan)
    }

    /// Becomes active, with these prepares outstanding, and makes the changes of a plan, on the branch
    /// `uuid`. An `Err` changes nothing.
    fn lead(
        &mut self,
        uuid: u64,
        answer: VbAnswer,
        left: Active,
        plan: Plan,
    ) -> Result<VbReply, AllocError>
        requires { ArePartsAbove self.old.rest.position.at plan.changes }
        ensures ok { IfOk result (λ reply. (self.new, reply) ≡ spec.led_with self.old uuid answer left plan) }
        ensures answer { IfOk result (λ reply. reply.answer ≡ answer) }
        ensures log { OnOk result (self.new.rest.log ≡ self.old.rest.log) }
        ensures err { OnErr result (self.new ≡ self.old) }
    {
        let ended = streams::ids_but(self.alloc, &self.streams, 0)?;
        self.seal_and_make(plan.changes.as_slice())?;
        self.turn_active(left, plan.changes.as_slice());
        let branch = branch_if(uuid, plan.changes.as_slice());
        Ok(VbReply {
            answer,
            resolved: plan.resolved,
            ended,
            branch,
            changes: plan.changes,
        })
    }

    /// Seals the open checkpoint, and makes changes of the vBucket's own. An `Err` changes nothing.
    fn seal_and_make(&mut self, changes: &[Change]) -> Result<(), AllocError>
        requires { ArePartsAbove self.old.rest.position.at changes.now }
        ensures ok { OnOk result (self.new ≡ fold with_made (record self.old { list = sealed_list self.old.list }) changes.now) }
        ensures err { OnErr result (self.new ≡ self.old) }
    {
        entering::seal_and_put_all(self.alloc, &mut self.table, &mut self.list, changes)?;
        if let Some(last) = changes.last() {
            self.position = complete_at(last.seq);
        }
        Ok(())
    }

    /// Is active from now on, where these prepares are outstanding but for those that the changes
    /// resolve, and feeds no stream any more. Takes no memory.
    fn turn_active(&mut self, left: Active, changes: &[Change])
        ensures { self.new ≡ spec.turned_active self.old left changes.now }
    {
        let mut left = left;
        resolve_all(&mut left, changes);
        self.role = Role::Active;
        self.position = complete_at(self.position.at);
        drop_cursors(&mut self.list, &self.streams, 0);
        self.streams.clear();
        self.durable = left;
    }

    /// Takes a role that it does not have. An `Err` changes nothing.
    pub(super) fn set_role(&mut self, role: Role) -> Result<VbReply, AllocError>
        ensures ok { IfOk result (λ reply. (self.new.rest, reply) ≡ turn_row self.old.rest role) }
        ensures list { OnOk result (SealedIf (not (is_role self.old.rest.role role)) self.old.list self.new.list) }
        ensures err { OnErr result (self.new ≡ self.old) }
    {
        if self.role == role {
            return Ok(self.told(VbAnswer::Status(Status::NotMyVbucket)));
        }
        self.turn(role, 0)
    }

    /// Is to take over from the vBucket that it follows, and follows it still. An `Err` changes nothing.
    pub(super) fn pend(&mut self) -> Result<VbReply, AllocError>
        ensures ok { IfOk result (λ reply. (self.new.rest, reply) ≡ pend_row self.old.rest) }
        ensures list { OnOk result (SealedIf (is_follower self.old.rest.role) self.old.list self.new.list) }
        ensures form { IfOk result (λ reply. HasForm PendCall reply.answer) }
        ensures err { OnErr result (self.new ≡ self.old) }
    {
        if !following::follows(self.role) {
            return Ok(self.told(VbAnswer::Status(Status::NotMyVbucket)));
        }
        self.turn(Role::Pending, 0)
    }

    /// Is dead from now on, and goes on to feed the stream of a number alone. An `Err` changes nothing.
    pub(super) fn hand_over(&mut self, id: u64) -> Result<VbReply, AllocError>
        ensures ok { IfOk result (λ reply. (self.new.rest, reply) ≡ yield_row self.old.rest id) }
        ensures list { OnOk result (SealedIf (is_active self.old.rest.role && is_some (stream_at id self.old.rest.streams)) self.old.list self.new.list) }
        ensures form { IfOk result (λ reply. HasForm (Yield id) reply.answer) }
        ensures err { OnErr result (self.new ≡ self.old) }
    {
        if !takes_writes(self.role) {
            return Ok(self.told(VbAnswer::Status(Status::NotMyVbucket)));
        }
        if streams::stream_of(&self.streams, id).is_none() {
            return Ok(self.told(VbAnswer::Absent));
        }
        self.turn(Role::Dead, id)
    }

    /// Takes another role. It goes on to feed the stream of a number, where that is not 0, and ends all
    /// others. An `Err` changes nothing.
    fn turn(&mut self, role: Role, kept: u64) -> Result<VbReply, AllocError>
        requires { kept ≢ 0 → role ≡ DeadRole }
        ensures ok { IfOk result (λ reply. (self.new.rest, reply) ≡ turned_to self.old.rest role kept) }
        ensures none { kept ≡ 0 → IfOk result (λ reply. (self.new.rest, reply) ≡ turned_idle self.old.rest role) }
        ensures one { (s : TheStream) → stream_at kept self.old.rest.streams ≡ Some s → role ≡ DeadRole → IfOk result (λ reply. (self.new.rest, reply) ≡ yielded (Some s) self.old.rest) }
        ensures list { OnOk result (SameChanges (sealed_list self.old.list) self.new.list) }
        ensures err { OnErr result (self.new ≡ self.old) }
    {
        let resolved = ambiguous(self.alloc, self.durable.waiting())?;
        let ended = self.end_streams(role, kept)?;
        self.durable.clear();
        Ok(VbReply {
            answer: VbAnswer::Done,
            resolved,
            ended,
            branch: 0,
            changes: Listed::new(self.alloc),
        })
    }

    /// Seals the open checkpoint, takes a role, and ends all streams but the one of a number, where that
    /// is not 0. Their numbers; an `Err` changes nothing.
    fn end_streams(&mut self, role: Role, kept: u64) -> Result<Listed<u64>, AllocError>
        requires { kept ≢ 0 → role ≡ DeadRole }
        ensures rest { OnOk result (self.new.rest ≡ record self.old.rest { role = role; streams = only_stream kept self.old.rest.streams }) }
        ensures list { OnOk result (SameChanges (sealed_list self.old.list) self.new.list) }
        ensures ended { IfOk result (λ ended. ended ≡ stream_ids (without_stream kept self.old.rest.streams)) }
        ensures err { OnErr result (self.new ≡ self.old) }
    {
        let ended = streams::ids_but(self.alloc, &self.streams, kept)?;
        self.list.seal()?;
        drop_cursors(&mut self.list, &self.streams, kept);
        streams::keep(&mut self.streams, kept);
        self.role = role;
        Ok(ended)
    }

    /// Seals the open checkpoint. An `Err` changes nothing.
    pub(super) fn seal(&mut self) -> Result<VbReply, AllocError>
        ensures ok { OnOk result (self.new ≡ record self.old { list = sealed_list self.old.list }) }
        ensures reply { IfOk result (λ reply. reply ≡ quiet_reply (Flag (is_some (ckpt_span self.old.list.newest)))) }
        ensures err { OnErr result (self.new ≡ self.old) }
    {
        let sealed = self.list.seal()?;
        Ok(self.told(VbAnswer::Flag(sealed)))
    }

    /// Feeds a stream no more. Takes no memory.
    pub(super) fn close_stream(&mut self, id: u64) -> VbReply
        ensures row { (self.new.rest, result) ≡ close_row self.old.rest id }
        ensures list { SameChanges self.old.list self.new.list }
    {
        let closed = streams::stream_of(&self.streams, id).is_some();
        close(&mut self.list, &mut self.streams, id);
        self.told(VbAnswer::Flag(closed))
    }
}

/// One prepare that waits, as one that is to be committed again: it has no deadline, and nobody waits.
fn left_one(prepare: &(Key, Pend)) -> Result<Waiting, AllocError>
    ensures { IfOk result (λ left. left ≡ left_prepare prepare.now) }
{
    let (key, pend) = prepare;
    Ok(Waiting {
        key: key.clone()?,
        seq: pend.seq,
        level: pend.level,
        deadline: None,
        waiter: 0,
    })
}

/// Adds these, as ones that are to be committed again.
fn add_left(left: &mut Active, prepares: &[(Key, Pend)]) -> Result<(), AllocError>
    ensures { OnOk result (left.new ≡ record left.old { waiting = fold spec.with_left left.old.waiting prepares.now; spare = left.new.spare }) }
{
    for prepare in prepares {
        left.add(left_one(prepare)?)?;
    }
    Ok(())
}

/// Takes away a stream and its cursor. No stream has the number 0.
fn close(list: &mut CkptList, streams: &mut Vec<Stream>, id: u64)
    requires { CursorsAreStreams list.old.places streams.old.items }
    ensures streams { streams.new.items ≡ without_stream id streams.old.items }
    ensures list { SameChanges list.old list.new }
    ensures fed { CursorsAreStreams list.new.places streams.new.items }
{
    streams::close(streams, id);
    if id == 0 {
        return;
    }
    list.drop_cursor(id);
}

/// Takes the cursors of these streams away, but for that of the one of a number, where that is not 0.
fn drop_cursors(list: &mut CkptList, streams: &[Stream], kept: u64)
    requires { CursorsAreStreams list.old.places streams.now }
    ensures changes { SameChanges list.old list.new }
    ensures fed { CursorsAreStreams list.new.places (only_stream kept streams.now) }
{
    for stream in streams {
        if stream.id != kept {
            list.drop_cursor(stream.id);
        }
    }
}
