//! How many clients and writes a storm may have.
ghost use Rattle.std.specs.Prelude.{◌≡◌};
ghost use Rattle.storm_model.specs.Limits.{is_storm};

/// The most clients.
pub const MAX_CLIENTS: u64 = 64;

/// The most writes of all clients together.
pub const MAX_WRITES: u64 = 1_000_000;

/// Whether so many clients may make so many writes each.
pub fn is_storm(clients: u64, writes: u64) -> bool
    ensures { result ≡ is_storm clients writes }
{
    1 <= clients
        && clients <= MAX_CLIENTS
        && 1 <= writes
        && writes <= MAX_WRITES
        && clients * writes <= MAX_WRITES
}
