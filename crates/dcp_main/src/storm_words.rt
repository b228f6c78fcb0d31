//! The words of a storm.
ghost use Rattle.std.specs.Prelude.{◌≡◌, map, string_bytes, Some, None, MatchOption};
ghost use Rattle.dcp_main.specs.Words.{starts_storm, storm_words};

use crate::words::number;
use storm::Plan;

/// Whether the first word is `storm`.
pub fn starts_storm(words: &[String]) -> bool
    ensures { result ≡ starts_storm (map string_bytes words.now) }
{
    matches!(words.first(), Some(word) if word.as_str() == "storm")
}

/// The plan, where the words are `storm` with a seed, how many clients there are and how many writes each makes
/// behind it, and a storm may have so many.
pub fn storm_words(words: &[String]) -> Option<Plan>
    ensures { MatchOption result (storm_words (map string_bytes words.now) ≡ None)
        (λ plan. storm_words (map string_bytes words.now) ≡ Some (plan.seed, (plan.clients, plan.writes))) }
{
    match words {
        [word, seed, clients, writes] if word.as_str() == "storm" => {
            let seed = number(seed.as_bytes())?;
            let clients = number(clients.as_bytes())?;
            let writes = number(writes.as_bytes())?;
            Plan::new(seed, clients, writes)
        }
        _ => None,
    }
}
