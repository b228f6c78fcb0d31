//! What a replica acknowledges.
ghost use Rattle.std.specs.Prelude.{◌≡◌, ℕ};
ghost use Rattle.durability.specs.Pending as spec;

use vb_types::{Level, Pend};

/// The lowest pending prepare that must be saved first, if there is one: a level 3 one above `saved`.
fn first_bar(pend: &[Pend], saved: u64) -> Option<u64>
    ensures { (q : ℕ) → spec.has_none (spec.is_bar saved q) pend.now ≡ spec.is_under result q }
{
    let mut bar = None;
    let mut rest = pend;
    while let Some((first, more)) = rest.split_first() {
        if first.level == Level::PersistMajority && saved < first.seq {
            bar = match bar {
                Some(bar) => Some(first.seq.min(bar)),
                None => Some(first.seq),
            };
        }
        rest = more;
    }
    bar
}

/// The number that a replica has to acknowledge, or 0: the greatest seqno of a pending prepare that it
/// has all up to, with each level 3 prepare up to it saved. `complete` is the seqno up to which the
/// replica has all, and `saved` the one up to which it has written all down. Takes no memory.
pub fn due(pend: &[Pend], complete: u64, saved: u64) -> u64
    ensures { result ≡ spec.due pend.now complete saved }
{
    let bar = first_bar(pend, saved);
    let mut best = 0;
    let mut rest = pend;
    while let Some((first, more)) = rest.split_first() {
        if first.seq <= complete && bar.is_none_or(|bar| first.seq < bar) {
            best = first.seq.max(best);
        }
        rest = more;
    }
    best
}
