//! Numbers of a script line.
ghost use Rattle.std.specs.Prelude.{◌≡◌};
ghost use Rattle.script_text.specs.Numbers.{digit_step, number_of, if_below, node_of, vbucket_of, connection_of, moved_of, frames_of, byte_of, buffer_of};

/// A script names nodes below this number.
const NODES: u64 = 16;

/// A script names vBuckets below this number.
const VBUCKETS: u64 = 1024;

/// A script names client connections and links below this number.
const CONNECTIONS: u64 = 1000;

/// A line moves at most this many bytes, and counts at most this many device calls.
const MOVED: u64 = 1_000_000_000;

/// A line asks for at least one stream frame, and for at most this many.
const FRAMES: u64 = 1_000_000;

/// A byte's number is below this one.
const BYTES: u64 = 256;

/// A link's buffer is below this number of bytes.
const BUFFERS: u64 = 4_294_967_296;

fn next_digit(number: Option<u64>, b: u8) -> Option<u64>
    ensures { result ≡ digit_step number b }
{
    let number = number?;
    if b < b'0' || b > b'9' {
        return None;
    }
    number.checked_mul(10)?.checked_add((b - b'0') as u64)
}

/// The number that a text says in decimal digits, with no sign and no needless zero.
#[tactic(auto, unfolding(crate::specs::Numbers::number_of))]
pub fn number(text: &[u8]) -> Option<u64>
    ensures { result ≡ number_of text.now }
{
    match text {
        [] => None,
        // Most have one digit.
        [digit] => next_digit(Some(0), *digit),
        [b'0', ..] => None,
        _ => text
            .iter()
            .fold(Some(0), |number, b| next_digit(number, *b)),
    }
}

fn below(limit: u64, text: &[u8]) -> Option<u64>
    ensures { result ≡ if_below limit (number_of text.now) }
{
    number(text).filter(|n| *n < limit)
}

/// A node's number.
pub fn node(text: &[u8]) -> Option<u8>
    ensures { result ≡ node_of text.now }
{
    let number = below(NODES, text)?;
    Some(number as u8)
}

/// A vBucket's number.
pub fn vbucket(text: &[u8]) -> Option<u16>
    ensures { result ≡ vbucket_of text.now }
{
    let number = below(VBUCKETS, text)?;
    Some(number as u16)
}

/// The number of a client connection or a link.
pub fn connection(text: &[u8]) -> Option<u32>
    ensures { result ≡ connection_of text.now }
{
    let number = below(CONNECTIONS, text)?;
    Some(number as u32)
}

/// How many bytes a line moves, or how many device calls it counts.
pub fn moved(text: &[u8]) -> Option<u64>
    ensures { result ≡ moved_of text.now }
{
    below(MOVED + 1, text)
}

/// For how many stream frames a line asks.
pub fn frames(text: &[u8]) -> Option<u32>
    ensures { result ≡ frames_of text.now }
{
    let number = number(text)?;
    if number < 1 || number > FRAMES {
        return None;
    }
    Some(number as u32)
}

/// A byte's number.
pub fn byte(text: &[u8]) -> Option<u8>
    ensures { result ≡ byte_of text.now }
{
    let number = below(BYTES, text)?;
    Some(number as u8)
}

/// How many bytes a link's buffer has.
pub fn buffer(text: &[u8]) -> Option<u32>
    ensures { result ≡ buffer_of text.now }
{
    let number = below(BUFFERS, text)?;
    Some(number as u32)
}
