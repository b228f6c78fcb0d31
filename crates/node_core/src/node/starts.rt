//! A vBucket that was active takes its new branch, once its node is loaded.
ghost use Rattle.std.specs.Prelude.{◌≡◌, ◌++◌, ◌+◌, ◌≤◌, [], IfOk, OnErr, vec_len, vec_capacity};
ghost use Rattle.{node_core.specs.Admin.{MadeChanges}, node_core.specs.Loading.{branch_in, branch_lines_of_reply, start_job}, node_core.specs.Outs.{start_by}};
ghost use Rattle.vb_calls.specs.Jobs.{RanJob, BeganJob};

use crate::changes::tell_changes;
use crate::out::noted;
use crate::{Alloc, Node};
use vb_calls::{Journals, VbAccess, VbAnswer, VbCall, VbReply};
use vb_events::{Answer, Event};

/// What a start told: the line of the new branch, if one was made, and those of the changes that the
/// vBucket made at once; and its answer.
#[derive(Drop)]
pub struct Started {
    pub lines: Vec<Event>,
    pub answer: Answer,
}

/// The line of a new branch, if one was made. There is room for it.
fn tell_branch(node: u8, vb: u16, answer: &VbAnswer, lines: &mut Vec<Event>)
    requires room { vec_len lines.old + 1 ≤ vec_capacity lines.old }
    ensures { lines.new.items ≡ lines.old.items ++ branch_in node vb answer.now }
{
    if let VbAnswer::Branch {
        uuid,
        parent,
        fork,
        high,
    } = answer
    {
        lines.push_reserved(Event::Branch {
            node,
            vb,
            uuid: *uuid,
            parent: *parent,
            fork: *fork,
            high: *high,
        });
    }
}

/// The lines of a start. Takes no memory where the vBucket made no change.
fn start_lines(
    mut room: Vec<Event>,
    node: u8,
    vb: u16,
    reply: &Option<VbReply>,
) -> Alloc<Vec<Event>>
    requires empty { room.items ≡ [] }
    requires room { vec_len room + 1 ≤ vec_capacity room }
    ensures ok { IfOk result (λ lines. lines.items ≡ branch_lines_of_reply node vb reply.now) }
    ensures sure { OnErr result (MadeChanges reply.now) }
{
    if let Some(made) = reply {
        tell_branch(node, vb, &made.answer, &mut room);
        tell_changes(node, vb, made, &mut room)?;
    }
    Ok(room)
}

impl<A: VbAccess, J: Journals> Node<A, J> {
    /// A vBucket that was active when its node was loaded takes its new branch, of this id, which is
    /// written down; no line tells of its role. It is active from then on, also where its record could
    /// not be appended. A vBucket that refuses stays, and nothing is told of it. This comes before
    /// any connection is opened, as none is told of streams. After an `Err` the vBucket may be
    /// active, and its record may stand; of the changes that it made at once no line tells then.
    #[tactic(auto, using(vb_calls::proofs::JobRuns::jobs, vb_calls::proofs::JobRuns::began_all_job))]
    pub fn start(&mut self, vb: u16, uuid: u64) -> Alloc<Started>
        ensures ok { IfOk result (λ told. RanJob A.step J.asks (start_job self.old.number vb uuid) self.old.vbs self.old.disks (start_by told) self.new.vbs self.new.disks) }
        ensures err { OnErr result (BeganJob A.step J.asks (start_job self.old.number vb uuid) self.old.vbs self.old.disks self.new.vbs self.new.disks) }
        ensures rest { self.new ≡ record self.old { vbs = self.new.vbs; disks = self.new.disks } }
    {
        let room = Vec::with_capacity(self.alloc, 1)?;
        let promote = VbCall::Promote { uuid };
        let (reply, wrote) = self.disks.turn_role(vb, promote, &mut self.vbs)?;
        let lines = start_lines(room, self.number, vb, &reply);
        drop(reply);
        let answer = noted(wrote, Answer::Ok);
        Ok(Started {
            lines: lines?,
            answer,
        })
    }
}
