//! The failover log of a vBucket: the branches that its history went through, the newest first.
#![tactic(auto)]

ghost use Rattle.std.specs.Prelude.{◌≡◌, ◌<◌, ◌≤◌, length, IfOk, []};
ghost use Rattle.branch_model.specs.Logs as logs;
ghost use Rattle.branch_model.specs.Requests as requests;

mod reading;

use reading::{entry_of, rule_of};
use std::alloc::{AllocError, Global};
use vb_types::{LogEntry, StreamAsk, Verdict};

/// The most entries of a log.
pub const MAX_ENTRIES: usize = 25;

/// A failover log of at most 25 entries, seen as their list.
#[derive(Drop)]
pub struct FailoverLog {
    entries: Vec<LogEntry>,
}

impl std::marker::Model for FailoverLog {
    ghost use Rattle.std.specs.Prelude.{List, ◌<◌, ◌≤◌, vec_len, vec_capacity};
    ghost use Rattle.branch_model.specs.Logs.{log_limit};
    ghost use Rattle.vb_types.specs.declared.role.LogEntry.{LogEntry};

    ghost Value = { List LogEntry };

    ghost view = { λ log. log.entries.items };

    ghost invariant = { λ log. (vec_len log.entries ≤ log_limit) × (log_limit < vec_capacity log.entries) };
}

impl FailoverLog {
    /// The empty log, with room for all the entries that it may have.
    pub fn new(alloc: Global) -> Result<FailoverLog, AllocError>
        ensures { IfOk result (λ log. log ≡ []) }
    {
        let entries = Vec::with_capacity(alloc, MAX_ENTRIES + 1)?;
        Ok(FailoverLog { entries })
    }

    /// The entries, the newest first.
    pub fn as_slice(&self) -> &[LogEntry]
        ensures entries { result.now ≡ self.now }
        ensures short { length result.now ≤ logs.log_limit }
    {
        &self.entries
    }

    /// The newest entry.
    pub fn front(&self) -> Option<LogEntry>
        ensures { result ≡ logs.front self.now }
    {
        self.entries.first().copied()
    }

    /// The branch of the newest entry with a seqno of at most `se`, or 0: what a consumer names whose
    /// snapshot ends there.
    pub fn entry_for(&self, se: u64) -> u64
        ensures { result ≡ logs.uuid_of (logs.entry_for se self.now) }
    {
        entry_of(&self.entries, se)
    }

    /// What the log of a vBucket with the high seqno `high` says of a request for a stream.
    pub fn rule(&self, ask: &StreamAsk, high: u64) -> Verdict
        ensures { result ≡ requests.rule self.now high ask.now }
    {
        rule_of(&self.entries, ask, high)
    }

    /// Takes away the entries above a seqno, as a rollback to it does.
    pub fn keep_to(&mut self, seq: u64)
        ensures { self.new ≡ logs.kept_to seq self.old }
    {
        self.entries.retain(|entry| entry.seq <= seq);
    }

    /// Enters a new branch, made at `seq`: the entries above it go, and of 26 the oldest.
    pub fn add(&mut self, uuid: u64, seq: u64)
        requires new { logs.Lacks self.old uuid }
        requires branch { 0 < uuid }
        ensures { self.new ≡ logs.with_entry uuid seq self.old }
    {
        self.keep_to(seq);
        self.entries.insert(0, LogEntry { uuid, seq }).unwrap();
        self.entries.truncate(MAX_ENTRIES);
    }

    /// Becomes the log of these entries, the newest first.
    pub fn replace(&mut self, entries: &[LogEntry])
        requires { length entries.now ≤ logs.log_limit }
        ensures { self.new ≡ entries.now }
    {
        self.entries.clear();
        self.entries.extend_from_slice(entries).unwrap();
    }
}
