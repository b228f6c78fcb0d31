//! What a durable write requires.
ghost use Rattle.std.specs.Prelude.{◌≡◌};
ghost use Rattle.mcbp_kv.specs.Durable.{timeout_named, durability_named};

use crate::framing::Requirement;
use vb_types::Level;

/// The timeout in milliseconds of a write whose frame names none, or 0.
pub const DEFAULT_TIMEOUT: u16 = 30_000;

/// Where a durable write must be, and within how many milliseconds.
#[derive(Clone, Copy, Debug, PartialEq, Eq)]
pub struct Durability {
    pub level: Level,
    pub timeout: u16,
}

fn timeout_of(named: u16) -> u16
    ensures { result ≡ timeout_named named }
{
    if named == 0 { DEFAULT_TIMEOUT } else { named }
}

impl Durability {
    /// What a requirement asks for, if there is such a level.
    pub fn of(requirement: Requirement) -> Option<Durability>
        ensures { result ≡ durability_named requirement }
    {
        let level = Level::of(requirement.level)?;
        Some(Durability {
            level,
            timeout: timeout_of(requirement.timeout),
        })
    }
}
