//! Counts that stand still at their end.
ghost use Rattle.std.specs.Prelude.{◌≡◌};
ghost use Rattle.dcp_io.specs.Counts.{raised};

#[tactic(auto, unfolding(dcp_io::specs::Counts::raised))]
pub fn raise(count: u64, by: u64) -> u64
    ensures { result ≡ raised count by }
{
    count.saturating_add(by)
}
