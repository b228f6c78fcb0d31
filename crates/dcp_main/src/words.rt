//! The words of the command line.
ghost use Rattle.std.specs.Prelude.{◌≡◌, map, string_bytes};
ghost use Rattle.script_text.specs.Numbers.{digit_step, number_of};
ghost use Rattle.dcp_main.specs.Words.{AcceptedWords, gen_words, if_count, says_run};

use dcp_io::Status;
use std::alloc::Global;
use std::io;

/// How many writes a script that is made may have.
pub const MAX_COUNT: u64 = 100_000;

/// The words to go by. Words that are no text are none that the program has, but want of memory
/// is no fault of the words.
pub fn accept_words(alloc: Global, fetched: io::Result<Vec<String>>) -> Result<Vec<String>, Status>
    ensures { AcceptedWords fetched result }
{
    match fetched {
        Ok(words) => Ok(words),
        Err(fault) if fault.kind() == io::ErrorKind::OutOfMemory => Err(Status::NoMemory),
        Err(_) => Ok(Vec::new(alloc)),
    }
}

/// Whether the words are the one word `run`.
pub fn is_run(words: &[String]) -> bool
    ensures { result ≡ says_run (map string_bytes words.now) }
{
    matches!(words, [word] if word.as_str() == "run")
}

fn next_digit(number: Option<u64>, b: u8) -> Option<u64>
    ensures { result ≡ digit_step number b }
{
    let number = number?;
    if b < b'0' || b > b'9' {
        return None;
    }
    number.checked_mul(10)?.checked_add((b - b'0') as u64)
}

/// The number that a word says in decimal digits, with no sign and no needless zero.
#[tactic(auto, unfolding(script_text::specs::Numbers::number_of))]
pub fn number(text: &[u8]) -> Option<u64>
    ensures { result ≡ number_of text.now }
{
    if text.is_empty() || text.len() > 1 && text[0] == b'0' {
        return None;
    }
    text.iter()
        .fold(Some(0), |number, b| next_digit(number, *b))
}

/// How many writes a word asks for.
fn count(text: &[u8]) -> Option<u32>
    ensures { result ≡ if_count (number_of text.now) }
{
    let number = number(text)?;
    if number < 1 || number > MAX_COUNT {
        return None;
    }
    Some(number as u32)
}

/// The seed and the count, where the words are `gen` with both behind it.
pub fn gen_words(words: &[String]) -> Option<(u64, u32)>
    ensures { result ≡ gen_words (map string_bytes words.now) }
{
    match words {
        [word, seed, writes] if word.as_str() == "gen" => {
            let seed = number(seed.as_bytes())?;
            let writes = count(writes.as_bytes())?;
            Some((seed, writes))
        }
        _ => None,
    }
}
