//! What a node does for an operator.
ghost use Rattle.std.specs.Prelude.{◌≡◌, ◌≢◌, ◌+◌, ◌++◌, ◌≤◌, ℕ, [], None, Some, is_some, IfOk, OnErr, vec_len, vec_capacity};
ghost use Rattle.{std.specs.Option.{option_map}, node_core.specs.Admin.{admin_job, noted_job, role_lines}, node_core.specs.Handing.{HandsOut}, vb_calls.specs.Jobs.{RanJob, BeganJob}};
ghost use Rattle.{node_core.specs.Outcomes.{value_at, Renumbered, conn_ended, Administered}, node_core.specs.Outs.{cut_lines, done_out}, slab.specs.Slab.{get}};

use crate::conn::tell_all;
use crate::readings::told;
use crate::roles::{AdminResult, RoleLines, all_lines};
use crate::{AdminCall, Alloc, Node, NodeOut};
use bytes::Bytes;
use vb_calls::{Journals, VbAccess, VbReply, Wrote};
use vb_events::Event;
use vb_types::Listed;

impl<A: VbAccess, J: Journals> Node<A, J> {
    /// The lines of a change of role of a vBucket, behind that of its own dial, which is to be cut. Takes
    /// no memory where the vBucket made no change.
    fn role_lines(&self, v: u16, room: Vec<Event>, told: RoleLines) -> Alloc<Listed<Event>>
        requires empty { room.items ≡ [] }
        requires room { vec_len room + 3 ≤ vec_capacity room }
        ensures ok { IfOk result (λ lines. lines ≡ cut_lines (value_at self.now.dials v) ++ role_lines told) }
        ensures sure { OnErr result (told.changes.items ≢ []) }
    {
        match self.dials.get(u32::from(v)) {
            Some(dial) => all_lines(room, Some(dial.cut_line()), told),
            None => all_lines(room, None, told),
        }
    }

    /// The role of a vBucket changed: its own dial is cut, and each connection is told which streams
    /// ended. These are the lines that tell of it. Takes no memory.
    fn set_role(&mut self, v: u16, lines: Listed<Event>, ids: &[u64]) -> NodeOut
        ensures said { result ≡ record (done_out lines []) { closed = is_some (value_at self.old.dials v) } }
        ensures conns { (key : ℕ) → get self.new.conns key ≡ option_map (conn_ended v (Some ids.now)) (get self.old.conns key) }
        ensures dials { Renumbered self.old.dials self.new.dials v None }
        ensures rest { self.new ≡ record self.old { conns = self.new.conns; dials = self.new.dials } }
    {
        tell_all(&mut self.conns, v, ids);
        let cut = self.dials.remove(u32::from(v)).is_some();
        NodeOut::done(self.alloc, lines, Bytes::new()).closed_if(cut)
    }

    /// Hands out what an operator's call told. Where the role changed, the vBucket's own dial is cut,
    /// and each connection is told which streams ended. Takes no memory where the vBucket made no change.
    fn hand_out(
        &mut self,
        v: u16,
        room: Vec<Event>,
        told: AdminResult,
        wrote: Wrote,
    ) -> Alloc<NodeOut>
        requires empty { room.items ≡ [] }
        requires room { vec_len room + 3 ≤ vec_capacity room }
        ensures ok { IfOk result (λ out. HandsOut v told wrote self.old out self.new) }
        ensures err { OnErr result (self.new ≡ self.old) }
    {
        match told {
            AdminResult::Out(out) => Ok(out.noted(wrote)),
            AdminResult::Role(lines, ids, resolved) => {
                let lines = self.role_lines(v, room, lines)?;
                let turned = self.set_role(v, lines, ids.as_slice());
                Ok(turned.resolving(resolved).noted(wrote))
            }
        }
    }

    /// Makes an operator's call; one that gives a role is written down.
    fn make_call(&mut self, v: u16, call: AdminCall) -> Alloc<(Option<VbReply>, Wrote)>
        ensures ok { IfOk result (λ made. RanJob A.step J.asks (noted_job v call) self.old.vbs self.old.disks made self.new.vbs self.new.disks) }
        ensures err { OnErr result (BeganJob A.step J.asks (noted_job v call) self.old.vbs self.old.disks self.new.vbs self.new.disks) }
        ensures rest { self.new ≡ record self.old { vbs = self.new.vbs; disks = self.new.disks } }
    {
        let asked = call.vb_call_of();
        if call.changes_role() {
            return self.disks.turn_role(v, asked, &mut self.vbs);
        }
        let reply = self.vbs.call(v, asked)?;
        Ok((reply, Wrote::NotAsked))
    }

    /// Makes an operator's call to a vBucket. Where it changes the role, that is written down, the
    /// vBucket's own dial is cut, and each connection is told which streams ended; the role stays
    /// changed where its record could not be appended. An `Err` leaves connections and dials, and may
    /// have changed the role; of the changes that the vBucket made at once no line tells then.
    pub fn admin(&mut self, v: u16, call: AdminCall) -> Alloc<NodeOut>
        ensures ok { IfOk result (λ out. Administered A.step J.asks v call self.old out self.new) }
        ensures err { OnErr result (self.new ≡ record self.old { vbs = self.new.vbs; disks = self.new.disks }) }
        ensures began { OnErr result (BeganJob A.step J.asks (admin_job self.old.number v call) self.old.vbs self.old.disks self.new.vbs self.new.disks) }
    {
        let room = Vec::with_capacity(self.alloc, 3)?;
        let (reply, wrote) = self.make_call(v, call)?;
        let said = told(self.alloc, self.number, v, call, reply)?;
        self.hand_out(v, room, said, wrote)
    }
}
