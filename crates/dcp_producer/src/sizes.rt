//! The size of a window, as a CONTROL says it.
ghost use Rattle.std.specs.Prelude.{◌≡◌};
ghost use Rattle.dcp_producer.specs.Sizes.{digit_step, size_of};

/// One more digit of a number.
fn next_digit(number: Option<u32>, b: u8) -> Option<u32>
    ensures { result ≡ digit_step number b }
{
    let number = number?;
    if b < b'0' || b > b'9' {
        return None;
    }
    number.checked_mul(10)?.checked_add((b - b'0') as u32)
}

/// The size that a value says in decimal digits, with no sign and no needless zero.
#[tactic(auto, unfolding(crate::specs::Sizes::size_of))]
pub fn size_of(value: &[u8]) -> Option<u32>
    ensures { result ≡ size_of value.now }
{
    if value.is_empty() || value.len() > 1 && value[0] == b'0' {
        return None;
    }
    value
        .iter()
        .fold(Some(0), |number, b| next_digit(number, *b))
}
