//! What stands between tokens.
ghost use Rattle.std.specs.Prelude.{◌≡◌, ◌+◌, ◌≤◌, ◌<◌, ◌^◌, length, IfSome};
ghost use Rattle.std.specs.List.{list_all, prefix_len};
ghost use Rattle.mc_lex.specs.Bytes.{is_white_space_in_line};
ghost use Rattle.mc_lex.specs.Gaps as gaps;
ghost use Rattle.mc_lex.specs.steps.Scanner as spec;

use crate::byte::{is_digit, is_line_end, is_white_space_in_line};
use crate::digits::decimal_len;

/// How many bytes a comment has after its `/*`, where it is closed.
#[tactic(auto, using(crate::proofs::Turns::close_short))]
pub fn close_len(bytes: &[u8]) -> Option<usize>
    requires { length bytes.now < 2 ^ 31 }
    ensures value { result ≡ spec.close_len bytes.now }
    ensures within { IfSome result (λ n. n ≤ length bytes.now) }
{
    let mut rest = bytes;
    let mut n = 0;
    while let [a, b, ..] = rest {
        if *a == b'*' && *b == b'/' {
            return Some(n + 2);
        }
        n += 1;
        rest = &rest[1..];
    }
    None
}

/// How many bytes are left of the line.
pub fn line_len(bytes: &[u8]) -> usize
    ensures value { result ≡ spec.line_len bytes.now }
    ensures within { result ≤ length bytes.now }
{
    bytes.iter().take_while(|b| !is_line_end(**b)).count()
}

fn is_digit_or_white_space(b: u8) -> bool
    ensures { result ≡ gaps.is_digit_or_white_space b }
{
    is_digit(b) || is_white_space_in_line(b)
}

fn is_quoted(b: u8) -> bool
    ensures { result ≡ gaps.is_quoted b }
{
    !is_line_end(b) && b != b'"'
}

/// Whether only digits and white space stand here.
fn are_digits_or_white_space(bytes: &[u8]) -> bool
    ensures { result ≡ list_all gaps.is_digit_or_white_space bytes.now }
{
    let mut left = bytes;
    while let [byte, later @ ..] = left {
        if !is_digit_or_white_space(*byte) {
            return false;
        }
        left = later;
    }
    true
}

fn white_space_len(bytes: &[u8]) -> usize
    ensures value { result ≡ prefix_len is_white_space_in_line bytes.now }
    ensures within { result ≤ length bytes.now }
{
    bytes
        .iter()
        .take_while(|b| is_white_space_in_line(**b))
        .count()
}

fn quoted_len(bytes: &[u8]) -> usize
    ensures value { result ≡ prefix_len gaps.is_quoted bytes.now }
    ensures within { result ≤ length bytes.now }
{
    bytes.iter().take_while(|b| is_quoted(**b)).count()
}

fn is_marker_end(bytes: &[u8]) -> bool
    ensures { result ≡ spec.is_marker_end bytes.now }
{
    match bytes {
        [] => false,
        [first, rest @ ..] => *first == b'"' && are_digits_or_white_space(rest),
    }
}

fn is_marker_name(bytes: &[u8]) -> bool
    ensures { result ≡ spec.is_marker_name bytes.now }
{
    match bytes {
        [] => false,
        [first, rest @ ..] => *first == b'"' && is_marker_end(rest.split_at(quoted_len(rest)).1),
    }
}

fn is_marker_rest(bytes: &[u8]) -> bool
    ensures { result ≡ spec.is_marker_rest bytes.now }
{
    are_digits_or_white_space(bytes) || is_marker_name(bytes.split_at(white_space_len(bytes)).1)
}

fn is_marker_number(bytes: &[u8]) -> bool
    ensures { result ≡ spec.is_marker_number bytes.now }
{
    match bytes {
        [] => false,
        [first, rest @ ..] => is_digit(*first)
            && is_marker_rest(rest.split_at(decimal_len(rest)).1),
    }
}

/// Whether a line, from its `#` on, is a line marker.
#[tactic(auto, unfolding(crate::specs::steps::Scanner::is_marker))]
pub fn is_marker(line: &[u8]) -> bool
    ensures { result ≡ spec.is_marker line.now }
{
    match line {
        [] => false,
        [first, rest @ ..] => *first == b'#'
            && is_marker_number(rest.split_at(white_space_len(rest)).1),
    }
}
