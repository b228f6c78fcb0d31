//! What a storm is asked for.
ghost use Rattle.std.specs.Prelude.{◌≡◌, true, false, MatchOption};
ghost use Rattle.storm_model.specs.Limits.{is_storm};

use storm_model::is_storm;

/// A seed, how many clients there are, and how many writes each makes.
#[derive(Drop)]
pub struct Plan {
    pub(crate) seed: u64,
    pub(crate) clients: u32,
    pub(crate) writes: u32,
    ghost fits: { is_storm clients writes ≡ true },
}

impl Plan {
    /// The plan of these, if a storm may have so many clients and writes.
    pub fn new(seed: u64, clients: u64, writes: u64) -> Option<Plan>
        ensures { MatchOption result (is_storm clients writes ≡ false) (λ plan. (plan.seed ≡ seed) × (plan.clients ≡ clients) × (plan.writes ≡ writes)) }
    {
        if !is_storm(clients, writes) {
            return None;
        }
        Some(Plan {
            seed,
            clients: clients as u32,
            writes: writes as u32,
        })
    }
}
