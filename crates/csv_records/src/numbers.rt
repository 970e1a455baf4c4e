//! The number that a field holds.
ghost use Rattle.std.specs.Prelude.{◌≡◌, ◌==◌, ◌≤◌, min};
ghost use Rattle.std.specs.List.{list_all};
ghost use Rattle.csv_records.specs.Numbers.{is_digit, is_magnitude, magnitude_of, plain_number, minus_number, number_of};

/// 2^64, one above the greatest number.
const TOO_LARGE: u128 = 18446744073709551616;

/// The magnitude of the least number, -2^63.
const LEAST: u128 = 9223372036854775808;

fn is_digit(b: u8) -> bool
    ensures { result ≡ is_digit b }
{
    b >= b'0' && b <= b'9'
}

fn has_only_digits(text: &[u8]) -> bool
    ensures { result ≡ list_all is_digit text.now }
{
    text.iter().all(|b| is_digit(*b))
}

// Whether the text is digits that write a number in its one way.
fn is_magnitude(text: &[u8]) -> bool
    ensures { result ≡ is_magnitude text.now }
{
    match text {
        [] => false,
        [first, others @ ..] => has_only_digits(text) && (*first != b'0' || others.is_empty()),
    }
}

// The number that digits write, or the least number that is too large.
#[tactic(auto, using(crate::proofs::Digits::magnitude_more))]
fn magnitude(digits: &[u8]) -> u128
    ensures { result ≡ min (magnitude_of digits.now) 18446744073709551616 }
{
    let mut value: u128 = 0;
    for digit in digits {
        value = (10 * value + u128::from(digit.saturating_sub(b'0'))).min(TOO_LARGE);
    }
    value
}

fn plain_number(digits: &[u8]) -> Option<i128>
    ensures { result ≡ plain_number digits.now }
{
    if !is_magnitude(digits) {
        return None;
    }
    let magnitude = magnitude(digits);
    if magnitude < TOO_LARGE {
        Some(magnitude as i128)
    } else {
        None
    }
}

// The number that digits write after a `-`.
fn minus_number(digits: &[u8]) -> Option<i128>
    ensures { result ≡ minus_number digits.now }
{
    if !is_magnitude(digits) {
        return None;
    }
    let magnitude = magnitude(digits);
    if magnitude == 0 || magnitude > LEAST {
        return None;
    }
    Some(-(magnitude as i128))
}

/// The number that a text writes, from -2^63 to 2^64 - 1. Takes no memory.
pub fn read_number(text: &[u8]) -> Option<i128>
    ensures { result ≡ number_of text.now }
{
    match text {
        [] => None,
        [b'-', digits @ ..] => minus_number(digits),
        _ => plain_number(text),
    }
}
