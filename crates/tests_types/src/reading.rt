//! What becomes of a source: its first fault of names and types, where it has a tree.
ghost use Rattle.std.specs.Prelude.{◌<◌, ◌+◌, ◌^◌, length, All};

use mc_lex::{Dialect, LexFault, Token, lex};
use mc_parse::{ParseFault, parse};
use mc_subset::check;
use mc_tree::Unit;
use mc_typed::{Program, frame, levels};
use mc_types::{TypeFault, type_unit};
use std::alloc::{AllocError, AllocFailed, Global};

/// What becomes of a source; places are numbers of bytes.
#[derive(Clone, Copy)]
pub enum Outcome {
    /// It has no tree, or one with an outside form.
    NotAccepted,
    /// It has a typed program, whose last function takes so much, where it has one.
    Typed { last: Option<Size> },
    Refused { words: &'static str, at: usize },
}

/// What an activation of a function takes.
#[derive(Clone, Copy, PartialEq, Eq)]
pub struct Size {
    pub levels: u32,
    pub cells: u32,
}

/// A test could not go on: memory ran out.
#[derive(Debug, Drop)]
pub struct Fail;

impl From<AllocError> for Fail {
    fn from(_error: AllocError) -> Fail {
        Fail
    }
}

impl<T: Drop> From<AllocFailed<T>> for Fail {
    fn from(_error: AllocFailed<T>) -> Fail {
        Fail
    }
}

fn last_size(program: &Program<'_>) -> Option<Size> {
    let last = program.functions().len().checked_sub(1)?;
    let last = u32::try_from(last).ok()?;
    Some(Size {
        levels: levels(program, last),
        cells: frame(program, last),
    })
}

/// What a source is read as, its tree and then its typed program, or why it is not.
trait Stage {
    fn outcome(&self, alloc: Global) -> Result<Outcome, Fail>;
}

impl Stage for Program<'_> {
    fn outcome(&self, _alloc: Global) -> Result<Outcome, Fail> {
        Ok(Outcome::Typed {
            last: last_size(self),
        })
    }
}

impl Stage for TypeFault {
    fn outcome(&self, _alloc: Global) -> Result<Outcome, Fail> {
        match self.at() {
            Some(at) => Ok(Outcome::Refused {
                words: self.words(),
                at: at as usize,
            }),
            None => Err(Fail),
        }
    }
}

/// What becomes of what was read. For any type: a match that takes a whole tree or program out of
/// its result makes a long proof.
fn outcome_of<T: Stage + Drop, E: Stage + Drop>(
    alloc: Global,
    read: Result<T, E>,
) -> Result<Outcome, Fail> {
    match read {
        Ok(it) => {
            let outcome = it.outcome(alloc);
            drop(it);
            outcome
        }
        Err(fault) => fault.outcome(alloc),
    }
}

impl Stage for Unit<'_> {
    fn outcome(&self, alloc: Global) -> Result<Outcome, Fail> {
        if check(self).is_err() {
            return Ok(Outcome::NotAccepted);
        }
        outcome_of(alloc, type_unit(alloc, self))
    }
}

impl Stage for ParseFault {
    fn outcome(&self, _alloc: Global) -> Result<Outcome, Fail> {
        match self {
            ParseFault::Syntax { .. } => Ok(Outcome::NotAccepted),
            ParseFault::OutOfMemory => Err(Fail),
        }
    }
}

fn of_tokens(alloc: Global, tokens: &[Token<'_>]) -> Result<Outcome, Fail>
    requires short { All (λ token. token.start + length token.text.now < 2 ^ 31) tokens.now }
    requires few { length tokens.now < 2 ^ 31 }
{
    outcome_of(alloc, parse(alloc, tokens, Dialect::Plain))
}

/// Reads a source, and judges its names and types.
#[tactic(auto, using(crate::proofs::Short::all_short))]
pub fn judged(alloc: Global, source: &[u8]) -> Result<Outcome, Fail> {
    if source.len() >= 0x8000_0000 {
        return Ok(Outcome::NotAccepted);
    }
    match lex(alloc, source, Dialect::Plain) {
        Ok(tokens) => {
            let outcome = of_tokens(alloc, &tokens);
            drop(tokens);
            outcome
        }
        Err(LexFault::OutOfMemory) => Err(Fail),
        Err(_) => Ok(Outcome::NotAccepted),
    }
}

/// These texts, one after the other.
pub fn joined(alloc: Global, parts: &[&str]) -> Result<Vec<u8>, Fail> {
    let mut all = Vec::new(alloc);
    for part in parts {
        all.extend_from_slice(part.as_bytes())?;
    }
    Ok(all)
}
