//! What a dial does at the states of a takeover, as the contract of a function that does nothing.
ghost use Rattle.std.specs.Prelude.{ℕ};
ghost use Rattle.{mcbp_frame.specs.declared.frame.Frame.{Frame as FrameData}, node_core.specs.Dials.{DialResult, owned, pended}, node_core.specs.Taking.{OwnsAs, PendsAs, StatesInPlace}};
ghost use Rattle.{vb_calls.specs.Jobs.{RanJob}, vb_calls.specs.Programs.{Ran}};

use vb_calls::{Journals, VbAccess};

/// A state pending has the vBucket be about to take over, and a state active has it take over, which is
/// written down with the failover log as it stands then. A state is answered exactly where the vBucket
/// made its call. Then lines tell its role, unless it was about to take over already, and the changes
/// that it made at once, none of them as taken from the producer. A takeover that could not be written
/// down is one all the same, and ends the link for `disk`. Where the vBucket refused, the link ends for
/// `protocol`, and nothing is told, answered or asked of the journal; so it does at a state that the
/// consumer does not obey, of which the vBucket never hears.
pub fn states_are_taken<A: VbAccess, J: Journals>()
    ensures pending { (opaque : ℕ) (s : DialResult) (old : A) (told : DialResult) (now : A) → Ran A.step (pended opaque s) old told now → PendsAs A.step opaque s old told now }
    ensures active { (opaque : ℕ) (s : DialResult) (old : A) (kept : J) (told : DialResult) (now : A) (left : J)
        → RanJob A.step J.asks (owned opaque s) old kept told now left → OwnsAs A.step J.asks opaque s old kept told now left }
    ensures place { (f : FrameData) (s : DialResult) → StatesInPlace f s }
{}
