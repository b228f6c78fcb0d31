//! Hexadecimal digits.
ghost use Rattle.std.specs.Prelude.{◌≡◌, ◌+◌, ◌*◌, ◌/◌, ◌%◌, ◌<◌, length, set, slice_index, true};
ghost use Rattle.std.specs.List.{AllPass};
ghost use Rattle.{hex.specs.Hex.{decode_of, encode_lower, hex_digit_value, is_hex_digit, lower_digits}, script_text.specs.Sent.{are_digits}};

/// The two digits of each byte.
static PAIRS: [u8; 512] =
    *b"000102030405060708090a0b0c0d0e0f101112131415161718191a1b1c1d1e1f202122232425262728292a2b2c2d2e2f303132333435363738393a3b3c3d3e3f404142434445464748494a4b4c4d4e4f505152535455565758595a5b5c5d5e5f606162636465666768696a6b6c6d6e6f707172737475767778797a7b7c7d7e7f808182838485868788898a8b8c8d8e8f909192939495969798999a9b9c9d9e9fa0a1a2a3a4a5a6a7a8a9aaabacadaeafb0b1b2b3b4b5b6b7b8b9babbbcbdbebfc0c1c2c3c4c5c6c7c8c9cacbcccdcecfd0d1d2d3d4d5d6d7d8d9dadbdcdddedfe0e1e2e3e4e5e6e7e8e9eaebecedeeeff0f1f2f3f4f5f6f7f8f9fafbfcfdfeff";

#[inline(always)]
fn is_digit(b: u8) -> bool
    ensures { result ≡ is_hex_digit b }
{
    matches!(b, b'A'..=b'F' | b'a'..=b'f' | b'0'..=b'9')
}

/// Whether each is a digit, in either case. It goes through all of them, so that many are looked at
/// side by side.
pub fn are_digits(text: &[u8]) -> bool
    ensures { result ≡ are_digits text.now }
{
    text.iter().fold(true, |digits, b| digits & is_digit(*b))
}

/// What a digit says, in either case.
#[inline(always)]
fn value(digit: u8) -> u8
    requires { is_hex_digit digit ≡ true }
    ensures says { hex_digit_value digit ≡ Some result }
    ensures small { result < 16 }
{
    (digit & 15) + 9 * (digit >> 6)
}

/// Puts the bytes that digits say into their room.
pub fn decode_into(digits: &[u8], room: &mut [u8])
    requires digits { AllPass is_hex_digit digits.now }
    requires fits { length digits.now ≡ 2 * length room.old }
    ensures { decode_of digits.now ≡ Ok room.new }
{
    'bytes: for i in 0..room.len() {
        room[i] = value(digits[2 * i]) * 16 + value(digits[2 * i + 1]);
    }
}

/// Puts the digits of a byte into their room, from a place on.
#[inline(always)]
fn put_pair(byte: u8, room: &mut [u8], at: usize)
    requires { at + 1 < length room.old }
    ensures { room.new ≡ set (set room.old at (slice_index lower_digits (byte / 16))) (at + 1) (slice_index lower_digits (byte % 16)) }
{
    let from = 2 * byte as usize;
    let (high, low) = (PAIRS[from], PAIRS[from + 1]);
    room[at] = high;
    room[at + 1] = low;
}

/// Puts the digits of bytes into their room, in lower case.
pub fn encode_into(bytes: &[u8], room: &mut [u8])
    requires { length room.old ≡ 2 * length bytes.now }
    ensures { room.new ≡ encode_lower bytes.now }
{
    'bytes: for i in 0..bytes.len() {
        put_pair(bytes[i], room, 2 * i);
    }
}
