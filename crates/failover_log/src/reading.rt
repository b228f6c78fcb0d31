//! What is read off a log's entries.
ghost use Rattle.std.specs.Prelude.{◌≡◌};
ghost use Rattle.branch_model.specs.Logs.{upper, entry_for, uuid_of};
ghost use Rattle.branch_model.specs.Requests.{judged, rule};

use snap_range::effective;
use vb_types::{LogEntry, StreamAsk, Verdict};

/// The branch of the newest entry with a seqno of at most `se`, or 0.
pub fn entry_of(entries: &[LogEntry], se: u64) -> u64
    ensures { result ≡ uuid_of (entry_for se entries.now) }
{
    match entries.iter().find(|entry| entry.seq <= se) {
        Some(entry) => entry.uuid,
        None => 0,
    }
}

/// How far a branch goes: up to the next newer entry's seqno, or up to `high` where it is the newest.
fn upper_of(entries: &[LogEntry], high: u64, uuid: u64) -> Option<u64>
    ensures { result ≡ upper high entries.now uuid }
{
    let mut top = high;
    let mut rest = entries;
    while let Some((entry, older)) = rest.split_first() {
        if entry.uuid == uuid {
            return Some(top);
        }
        top = entry.seq;
        rest = older;
    }
    None
}

/// A request for the snapshot from `ss` to `se` of a branch that goes up to `top`.
fn judge(top: Option<u64>, ss: u64, se: u64) -> Verdict
    ensures { result ≡ judged top ss se }
{
    match top {
        None => Verdict::Roll(0),
        Some(top) if se <= top => Verdict::Continue,
        Some(top) => Verdict::Roll(ss.min(top)),
    }
}

/// What a log says of a request.
pub fn rule_of(entries: &[LogEntry], ask: &StreamAsk, high: u64) -> Verdict
    ensures { result ≡ rule entries.now high ask.now }
{
    if ask.start == 0 {
        return Verdict::Continue;
    }
    if ask.uuid == 0 {
        return Verdict::Roll(0);
    }
    let top = upper_of(entries, high, ask.uuid);
    let (ss, se) = effective(ask.start, ask.ss, ask.se);
    judge(top, ss, se)
}
