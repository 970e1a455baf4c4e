//! How a line is read as a line marker.
ghost use Rattle.std.specs.Prelude.{◌≡◌, ◌≤◌, ◌+◌, ◌*◌, length, option_map};
ghost use Rattle.std.specs.Char.{digit_value};
ghost use Rattle.std.specs.List.{list_all, prefix_len};
ghost use Rattle.std.specs.Str.Parse.{digits_value};
ghost use Rattle.mc_lex.specs.Bytes as sets;
ghost use Rattle.mc_lex.specs.Gaps as gaps;
ghost use Rattle.mc_places.specs.Markers as spec;
ghost use Rattle.mc_places.specs.Seen.{marker_seen};

use crate::byte::{is_digit, is_digit_or_white_space, is_quoted, is_white_space_in_line};

/// The greatest number of a line (C17 6.10.4).
pub(crate) const GREATEST_LINE: u32 = 2_147_483_647;

/// What a line marker says: the number of the line after it, where C has it, and the name of its
/// file as it is written there, where it has one.
#[derive(Clone, Copy)]
pub(crate) struct Marker<'a> {
    pub(crate) number: Option<u32>,
    pub(crate) name: Option<&'a [u8]>,
}

fn digits_len(bytes: &[u8]) -> usize
    ensures value { result ≡ prefix_len sets.is_digit bytes.now }
    ensures within { result ≤ length bytes.now }
{
    bytes.iter().take_while(|b| is_digit(**b)).count()
}

fn white_space_len(bytes: &[u8]) -> usize
    ensures value { result ≡ prefix_len sets.is_white_space_in_line bytes.now }
    ensures within { result ≤ length bytes.now }
{
    bytes
        .iter()
        .take_while(|b| is_white_space_in_line(**b))
        .count()
}

fn quoted_len(bytes: &[u8]) -> usize
    ensures value { result ≡ prefix_len gaps.is_quoted bytes.now }
    ensures within { result ≤ length bytes.now }
{
    bytes.iter().take_while(|b| is_quoted(**b)).count()
}

/// What stands after the white space.
fn past_white_space(bytes: &[u8]) -> &[u8]
    ensures { result.now ≡ spec.past sets.is_white_space_in_line bytes.now }
{
    bytes.split_at(white_space_len(bytes)).1
}

/// Whether only digits and white space stand here.
fn are_digits_or_white_space(bytes: &[u8]) -> bool
    ensures { result ≡ list_all gaps.is_digit_or_white_space bytes.now }
{
    let mut left = bytes;
    while let [byte, later @ ..] = left {
        if !is_digit_or_white_space(*byte) {
            return false;
        }
        left = later;
    }
    true
}

/// The value of a digit or a letter as a digit.
fn digit_value(b: u8) -> u8
    ensures { result ≡ digit_value b }
{
    match b {
        b'0'..=b'9' => b - b'0',
        b'A'..=b'Z' => b - b'A' + 10,
        b'a'..=b'z' => b - b'a' + 10,
        _ => 36,
    }
}

/// A number with one more digit, where it is that of a line.
fn with_digit(value: u32, digit: u8) -> Option<u32>
    ensures { result ≡ spec.line_number (value * 10 + digit_value digit) }
{
    let more = u64::from(value) * 10 + u64::from(digit_value(digit));
    if more <= u64::from(GREATEST_LINE) {
        Some(more as u32)
    } else {
        None
    }
}

/// The number that digits write, where it is that of a line.
#[tactic(auto, using(crate::proofs::Reading::none_after))]
fn number_of(digits: &[u8]) -> Option<u32>
    ensures { result ≡ spec.line_number (digits_value 10 digits.now) }
{
    let mut value = 0;
    let mut left = digits;
    while let [digit, later @ ..] = left {
        match with_digit(value, *digit) {
            Some(more) => value = more,
            None => return None,
        }
        left = later;
    }
    Some(value)
}

/// The marker, by the `"` that closes the name and what stands after it.
fn closed<'a>(number: Option<u32>, name: &'a [u8], after: &[u8]) -> Option<Marker<'a>>
    ensures { option_map marker_seen result ≡ spec.closed number name.now after.now }
{
    match after {
        [first, rest @ ..] if *first == b'"' && are_digits_or_white_space(rest) => Some(Marker {
            number,
            name: Some(name),
        }),
        _ => None,
    }
}

fn named(number: Option<u32>, bytes: &[u8]) -> Option<Marker<'_>>
    ensures { option_map marker_seen result ≡ spec.named number bytes.now }
{
    match bytes {
        [first, rest @ ..] if *first == b'"' => {
            let (name, after) = rest.split_at(quoted_len(rest));
            closed(number, name, after)
        }
        _ => None,
    }
}

fn after_number(number: Option<u32>, bytes: &[u8]) -> Option<Marker<'_>>
    ensures { option_map marker_seen result ≡ spec.after_number number bytes.now }
{
    if are_digits_or_white_space(bytes) {
        Some(Marker { number, name: None })
    } else {
        named(number, past_white_space(bytes))
    }
}

fn numbered(bytes: &[u8]) -> Option<Marker<'_>>
    ensures { option_map marker_seen result ≡ spec.numbered bytes.now }
{
    match bytes {
        [first, ..] if is_digit(*first) => {
            let (digits, after) = bytes.split_at(digits_len(bytes));
            after_number(number_of(digits), after)
        }
        _ => None,
    }
}

fn hashed(bytes: &[u8]) -> Option<Marker<'_>>
    ensures { option_map marker_seen result ≡ spec.hashed bytes.now }
{
    match bytes {
        [first, rest @ ..] if *first == b'#' => numbered(past_white_space(rest)),
        _ => None,
    }
}

/// The marker that a line is, where it is one.
pub(crate) fn marker_of(line: &[u8]) -> Option<Marker<'_>>
    ensures { option_map marker_seen result ≡ spec.marker_of line.now }
{
    hashed(past_white_space(line))
}
