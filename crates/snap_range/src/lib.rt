//! The snapshot that a stream request means, and the first marker of its stream.
#![tactic(auto)]

ghost use Rattle.std.specs.Prelude.{◌≡◌, ◌↔◌, IsTrue};
ghost use Rattle.branch_model.specs.Requests as spec;

/// The snapshot's start and end that a request from `start` within (`ss`, `se`] means: at either end
/// of its snapshot it means `start` alone.
pub fn effective(start: u64, ss: u64, se: u64) -> (u64, u64)
    ensures { result ≡ (spec.effective_ss start ss se, spec.effective_se start ss se) }
{
    let from = if start == se { start } else { ss };
    let to = if start == from { start } else { se };
    (from, to)
}

/// Whether a request from `start` lies within its snapshot.
pub fn in_order(start: u64, ss: u64, se: u64) -> bool
    ensures { IsTrue result ↔ spec.InOrder start ss se }
{
    ss <= start && start <= se
}

/// The start and the end that the first snapshot marker of a stream names, once its changes reach
/// `end`: `None` exactly where `end` is below the snapshot's end that the request means.
pub fn first_marker(start: u64, ss: u64, se: u64, end: u64) -> Option<(u64, u64)>
    ensures { result ≡ spec.first_marker start ss se end }
{
    let (from, to) = effective(start, ss, se);
    if to <= end { Some((from, end)) } else { None }
}
