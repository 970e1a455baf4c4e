//! What becomes of a source: its tokens, its tree, and the first outside form.
ghost use Rattle.std.specs.Prelude.{◌≤◌, ◌+◌, ◌<◌, ◌^◌, All, length};

use mc_lex::{Dialect, LexFault, Token, lex};
use mc_parse::{ParseFault, parse_within};
use mc_subset::{Outside, check};
use mc_tree::{Unit, height};
use std::alloc::{AllocError, AllocFailed, Global};

/// What becomes of a source; places are numbers of bytes.
#[derive(Clone, Copy)]
pub enum Outcome {
    /// It is longer than any source, or has no tokens.
    NotTokens,
    Syntax {
        at: usize,
    },
    /// The tree's height, and the first outside form.
    Read {
        height: u32,
        outside: Option<Outside>,
    },
}

/// A test could not go on: memory ran out, or a source has no tokens.
#[derive(Debug, Drop)]
pub struct Fail;

impl From<AllocError> for Fail {
    fn from(_error: AllocError) -> Fail {
        Fail
    }
}

impl<T: Drop> From<AllocFailed<T>> for Fail {
    fn from(_error: AllocFailed<T>) -> Fail {
        Fail
    }
}

/// What there is to say of a tree.
fn read(unit: &Unit<'_>) -> Outcome {
    Outcome::Read {
        height: height(unit),
        outside: check(unit).err(),
    }
}

/// Where the token of this number stands; the end of the source where there is none.
fn place(tokens: &[Token<'_>], at: u32, end: usize) -> usize {
    match tokens.get(at as usize) {
        Some(token) => token.start as usize,
        None => end,
    }
}

/// Reads the tokens of a source that ends at `end`.
fn parsed(alloc: Global, tokens: &[Token<'_>], end: usize, limit: u32) -> Result<Outcome, Fail>
    requires short { All (λ token. token.start + length token.text.now < 2 ^ 31) tokens.now }
    requires few { length tokens.now < 2 ^ 31 }
    requires limit { limit ≤ 800 }
{
    match parse_within(alloc, tokens, limit) {
        Ok(unit) => {
            let read = read(&unit);
            drop(unit);
            Ok(read)
        }
        Err(ParseFault::Syntax { at }) => Ok(Outcome::Syntax {
            at: place(tokens, at, end),
        }),
        Err(ParseFault::OutOfMemory) => Err(Fail),
    }
}

/// Reads a source whose tree has at most so many levels.
#[tactic(auto, using(crate::proofs::Short::all_short))]
pub fn judged(alloc: Global, source: &[u8], limit: u32) -> Result<Outcome, Fail>
    requires { limit ≤ 800 }
{
    if source.len() >= 0x8000_0000 {
        return Ok(Outcome::NotTokens);
    }
    match lex(alloc, source, Dialect::Plain) {
        Ok(tokens) => {
            let outcome = parsed(alloc, &tokens, source.len(), limit);
            drop(tokens);
            outcome
        }
        Err(LexFault::OutOfMemory) => Err(Fail),
        Err(_) => Ok(Outcome::NotTokens),
    }
}

/// These texts, one after the other.
pub fn joined(alloc: Global, parts: &[&str]) -> Result<Vec<u8>, Fail> {
    let mut all = Vec::new(alloc);
    for part in parts {
        all.extend_from_slice(part.as_bytes())?;
    }
    Ok(all)
}
