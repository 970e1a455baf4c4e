//! The mutants of a source, as text.
ghost use Rattle.std.specs.Prelude.{◌<◌, ◌+◌, ◌^◌, length, All};

use crate::show::{Asked, show_mutants};
use mc_decide::decisions;
use mc_lex::{Dialect, Token, lex};
use mc_parse::parse;
use mc_subset::check;
use mc_tree::Unit;
use mc_typed::Program;
use mc_types::type_unit;
use std::alloc::{AllocError, Global};

/// What a source is read as: its tree, and then its typed program.
trait Stage {
    /// Adds what is asked for as text, or why there is none.
    fn tell(&self, alloc: Global, text: &mut String, asked: Asked) -> Result<(), AllocError>;
}

/// Tells of what was read and lets it go, or says why it was not read. For any type: a match that
/// takes a whole tree or program out of its result makes a long proof.
fn tell_of<T: Stage + Drop, E: Drop>(
    alloc: Global,
    text: &mut String,
    asked: Asked,
    read: Result<T, E>,
    fault: &str,
) -> Result<(), AllocError> {
    match read {
        Ok(it) => {
            let told = it.tell(alloc, text, asked);
            drop(it);
            told
        }
        Err(_) => text.push_str(fault),
    }
}

impl Stage for Program<'_> {
    fn tell(&self, alloc: Global, text: &mut String, asked: Asked) -> Result<(), AllocError> {
        match decisions(alloc, self) {
            Ok(found) => {
                let told = show_mutants(alloc, text, asked, &found, self);
                drop(found);
                told
            }
            Err(_) => text.push_str("decisions"),
        }
    }
}

impl Stage for Unit<'_> {
    fn tell(&self, alloc: Global, text: &mut String, asked: Asked) -> Result<(), AllocError> {
        if check(self).is_err() {
            return text.push_str("outside form");
        }
        tell_of(alloc, text, asked, type_unit(alloc, self), "names or types")
    }
}

fn of_tokens(
    alloc: Global,
    text: &mut String,
    asked: Asked,
    tokens: &[Token<'_>],
) -> Result<(), AllocError>
    requires short { All (λ token. token.start + length token.text.now < 2 ^ 31) tokens.now }
    requires few { length tokens.now < 2 ^ 31 }
{
    let read = parse(alloc, tokens, Dialect::Plain);
    tell_of(alloc, text, asked, read, "syntax")
}

/// Adds what is asked for of a source's mutants as text, or why there is none.
#[tactic(auto, using(crate::proofs::Short::all_short))]
pub fn tell(
    alloc: Global,
    text: &mut String,
    asked: Asked,
    source: &str,
) -> Result<(), AllocError> {
    let bytes = source.as_bytes();
    if bytes.len() >= 0x8000_0000 {
        return text.push_str("too long");
    }
    match lex(alloc, bytes, Dialect::Plain) {
        Ok(tokens) => {
            let told = of_tokens(alloc, text, asked, &tokens);
            drop(tokens);
            told
        }
        Err(_) => text.push_str("tokens"),
    }
}
