//! What stands next in a source.
ghost use Rattle.std.specs.Prelude.{◌≡◌, ◌<◌, ◌≤◌, ◌^◌, length};
ghost use Rattle.mc_lex.specs.steps.Scanner as spec;
ghost use Rattle.mc_lex.specs.steps.Scanner.{Within};

use crate::byte::{is_white_space, starts_with_byte};
use crate::candidate::{Candidate, candidate_at, kind_of};
use crate::fault_kind::FaultKind;
use crate::gap::{close_len, is_marker, line_len};
use crate::token::{Dialect, TokenKind};

/// What stands next in a source.
#[derive(Clone, Copy, Debug, PartialEq, Eq)]
pub enum Next {
    /// What stands between tokens, of so many bytes.
    Gap(usize),
    /// A token of so many bytes.
    Token(TokenKind, usize),
    /// Neither, and why.
    Refused(FaultKind),
}

fn comment_next(inside: Option<usize>) -> Next
    requires { spec.IsShort inside }
    ensures { result ≡ spec.comment_next inside }
{
    match inside {
        Some(n) => Next::Gap(n + 2),
        None => Next::Refused(FaultKind::Token),
    }
}

fn hash_next(is_first: bool, bytes: &[u8]) -> Next
    ensures { result ≡ spec.hash_next is_first bytes.now }
{
    let n = line_len(bytes);
    let (line, _after) = bytes.split_at(n);
    if is_first && is_marker(line) {
        Next::Gap(n)
    } else {
        Next::Refused(FaultKind::Directive)
    }
}

fn kind_next(kind: Result<TokenKind, FaultKind>, length: usize) -> Next
    ensures { result ≡ spec.kind_next kind length }
{
    match kind {
        Ok(kind) => Next::Token(kind, length),
        Err(why) => Next::Refused(why),
    }
}

fn nothing_next(bytes: &[u8]) -> Next
    ensures { result ≡ spec.nothing_next bytes.now }
{
    if starts_with_byte(bytes, b'\'') {
        Next::Refused(FaultKind::Token)
    } else {
        Next::Refused(FaultKind::Byte)
    }
}

fn length_next(dialect: Dialect, bytes: &[u8], candidate: Candidate) -> Next
    requires short { length bytes.now < 2 ^ 31 }
    requires within { candidate.length ≤ length bytes.now }
    ensures { result ≡ spec.length_next dialect bytes.now candidate.class candidate.length }
{
    if candidate.length == 0 {
        nothing_next(bytes)
    } else {
        let (text, _after) = bytes.split_at(candidate.length);
        kind_next(kind_of(dialect, candidate.class, text), candidate.length)
    }
}

#[tactic(auto, using(crate::proofs::NextPiece::candidate_within), unfolding(crate::specs::steps::Scanner::candidate_next))]
fn candidate_next(dialect: Dialect, bytes: &[u8]) -> Next
    requires { length bytes.now < 2 ^ 31 }
    ensures { result ≡ spec.candidate_next dialect bytes.now }
{
    length_next(dialect, bytes, candidate_at(bytes))
}

fn begins_block_comment(bytes: &[u8]) -> bool
    ensures { result ≡ spec.begins_block_comment bytes.now }
{
    match bytes {
        [a, b, ..] => *a == b'/' && *b == b'*',
        _ => false,
    }
}

fn begins_line_comment(bytes: &[u8]) -> bool
    ensures { result ≡ spec.begins_line_comment bytes.now }
{
    match bytes {
        [a, b, ..] => *a == b'/' && *b == b'/',
        _ => false,
    }
}

/// How many bytes a comment has after its first byte, where it is closed.
fn comment_len(bytes: &[u8]) -> Option<usize>
    requires { length bytes.now < 2 ^ 31 }
    ensures value { result ≡ spec.close_len (spec.after_first bytes.now) }
    ensures short { spec.IsShort result }
{
    match bytes {
        [] => close_len(bytes),
        [_, inside @ ..] => close_len(inside),
    }
}

/// What stands next, where `is_first` says that only white space stands before it on its line.
#[tactic(auto, unfolding(crate::specs::steps::Scanner::next_at))]
pub fn next_at(dialect: Dialect, is_first: bool, bytes: &[u8]) -> Next
    requires { length bytes.now < 2 ^ 31 }
    ensures { result ≡ spec.next_at dialect is_first bytes.now }
{
    match bytes {
        [] => Next::Refused(FaultKind::Byte),
        [first, rest @ ..] => {
            if is_white_space(*first) {
                Next::Gap(1)
            } else if begins_block_comment(bytes) {
                comment_next(comment_len(rest))
            } else if begins_line_comment(bytes) {
                Next::Gap(line_len(bytes))
            } else if *first == b'#' {
                hash_next(is_first, bytes)
            } else {
                candidate_next(dialect, bytes)
            }
        }
    }
}
