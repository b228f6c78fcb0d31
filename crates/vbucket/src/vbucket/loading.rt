//! How a vBucket is made of what was written down, and goes back to what stood at a seqno.
ghost use Rattle.std.specs.Prelude.{◌≡◌, ◌≤◌, length, IfOk, OnErr};
ghost use Rattle.branch_model.specs.Logs.{log_limit};
ghost use Rattle.vb_calls.specs.State.{loaded_role, loaded_vb};
ghost use Rattle.vbucket.specs.Kept.{kept_roll};
ghost use Rattle.vbucket.specs.Stands.{StandsFor};

use super::{VBucket, complete_at, nothing_above};
use crate::following;
use failover_log::FailoverLog;
use hash_table::HashTable;
use journal_points::Saved;
use std::alloc::{AllocError, Global};
use vb_calls::{VbAnswer, VbReply};
use vb_types::{Image, LogEntry, Role, Status};

impl VBucket {
    /// A vBucket as it was written down; one that was active is dead until it is promoted. Changes
    /// lie above its position from here on, and all up to there is saved.
    #[tactic(auto, unfolding(crate::specs::Stands::StandsFor))]
    pub fn load(alloc: Global, node: u8, saved: &Saved) -> Result<VBucket, AllocError>
        requires { length saved.now.log ≤ log_limit }
        ensures { IfOk result (λ v. StandsFor v (loaded_vb node saved.now.role saved.now.log saved.now.position saved.now.cas saved.now.image)) }
    {
        let position = saved.position;
        let table = HashTable::load(alloc, &saved.image)?;
        let log = log_of(alloc, saved.log.as_slice())?;
        let (list, durable) = nothing_above(alloc, position.at)?;
        Ok(VBucket {
            alloc,
            node,
            role: role_of(saved.role),
            table,
            position,
            log,
            last_cas: saved.cas,
            saved: position.at,
            list,
            streams: Vec::new(alloc),
            durable,
            first: false,
        })
    }

    /// Goes back to what stood at a seqno, which is this image, where the vBucket follows. An `Err`
    /// changes nothing.
    pub(super) fn roll_to(
        &mut self,
        at: u64,
        image: &Image,
        cas: u64,
    ) -> Result<VbReply, AllocError>
        ensures ok { IfOk result (λ reply. (self.new, reply) ≡ kept_roll self.old at image.now cas) }
        ensures err { OnErr result (self.new ≡ self.old) }
    {
        if !following::follows(self.role) {
            return Ok(self.told(VbAnswer::Status(Status::NotMyVbucket)));
        }
        self.table = HashTable::load(self.alloc, image)?;
        self.list.reset(at);
        self.log.keep_to(at);
        self.position = complete_at(at);
        self.last_cas = self.last_cas.max(cas);
        self.saved = at;
        Ok(self.told(VbAnswer::Num(at)))
    }
}

/// A failover log of these entries.
fn log_of(alloc: Global, entries: &[LogEntry]) -> Result<FailoverLog, AllocError>
    requires { length entries.now ≤ log_limit }
    ensures { IfOk result (λ log. log ≡ entries.now) }
{
    let mut log = FailoverLog::new(alloc)?;
    log.replace(entries);
    Ok(log)
}

/// The role of a vBucket that was written down in this one.
fn role_of(role: Role) -> Role
    ensures { result ≡ loaded_role role }
{
    match role {
        Role::Active => Role::Dead,
        Role::Replica | Role::Pending | Role::Dead => role,
    }
}
