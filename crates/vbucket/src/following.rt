//! What a vBucket takes from its producer.
ghost use Rattle.std.specs.Prelude.{◌≡◌, IfOk};
ghost use Rattle.std.specs.FinMap as map;
ghost use Rattle.std.specs.Option.{option_copied};
ghost use Rattle.vb_calls.specs.Following as spec;

use failover_log::MAX_ENTRIES;
use hash_table::HashTable;
use std::alloc::AllocError;
use vb_types::{Act, Key, LogEntry, MAX_SEQ, Pend, Position, Role};

/// Whether a vBucket takes changes from another node.
pub fn follows(role: Role) -> bool
    ensures { result ≡ spec.is_follower role }
{
    matches!(role, Role::Replica | Role::Pending)
}

/// Whether no entry is of this branch.
pub fn lacks(entries: &[LogEntry], uuid: u64) -> bool
    ensures { result ≡ spec.log_lacks entries.now uuid }
{
    entries.iter().all(|entry| entry.uuid != uuid)
}

/// Whether a producer may answer this log.
pub fn may_be_answered(entries: &[LogEntry]) -> bool
    ensures { result ≡ spec.is_answerable entries.now }
{
    let mut top = MAX_SEQ;
    let mut rest = entries;
    while let Some((entry, older)) = rest.split_first() {
        if entry.uuid == 0 || entry.seq > top || !lacks(older, entry.uuid) {
            return false;
        }
        top = entry.seq;
        rest = older;
    }
    !entries.is_empty() && entries.len() <= MAX_ENTRIES
}

/// Whether a marker fits at a position, where `first` says that none came since the log was adopted.
pub fn takes_marker(position: Position, first: bool, start: u64, end: u64) -> bool
    ensures { result ≡ spec.marker_fits position first start end }
{
    start <= end && position.at <= end && end <= MAX_SEQ && (first || position.at == position.se)
}

/// Whether a change lies above what was taken, and in the snapshot.
pub fn comes_next(position: Position, seq: u64) -> bool
    ensures { result ≡ spec.is_next position seq }
{
    position.at < seq && seq <= position.se
}

/// An act as it is taken in: a commit has the document of the pending prepare that it names. `None`
/// where there is no such prepare.
pub fn completed(table: &HashTable, key: &Key, act: Act) -> Result<Option<Act>, AllocError>
    ensures { IfOk result (λ got. got ≡ spec.completed_act (map.get table.now.image.pending key.now) act) }
{
    let Act::Commit { prepared, .. } = act else {
        return Ok(Some(act));
    };
    commit_of(table.pend(key), prepared)
}

/// The commit of a prepare that waits, if it is the one of this seqno.
fn commit_of(pend: Option<&Pend>, prepared: u64) -> Result<Option<Act>, AllocError>
    ensures { IfOk result (λ act. act ≡ spec.committed_act prepared (option_copied pend.entry)) }
{
    match pend {
        Some(pend) if pend.seq == prepared => Ok(Some(Act::Commit {
            prepared,
            doc: pend.doc.copy()?,
            deleted: pend.deleted,
        })),
        _ => Ok(None),
    }
}

/// The CAS of a change; an abort has none.
pub fn cas(act: &Act) -> u64
    ensures { result ≡ spec.cas_of act.now }
{
    match act {
        Act::Set(doc) | Act::Prepare { doc, .. } | Act::Commit { doc, .. } => doc.cas,
        Act::Remove { cas, .. } => *cas,
        Act::Abort { .. } => 0,
    }
}
