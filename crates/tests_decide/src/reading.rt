//! What the decisions of a source are, as text.
ghost use Rattle.std.specs.Prelude.{◌<◌, ◌+◌, ◌^◌, length, All};
ghost use Rattle.mc_cond.specs.Tree.{tree_of, IsNumbered};

use crate::show::{show_decisions, show_vectors};
use mc_decide::{DecideFault, Decision, decisions};
use mc_lex::{Dialect, Token, lex};
use mc_parse::parse;
use mc_subset::check;
use mc_tree::Unit;
use mc_typed::Program;
use mc_types::type_unit;
use std::alloc::{AllocError, Global};

/// What is shown of decisions.
#[derive(Clone, Copy)]
pub enum Shown {
    Decisions,
    Vectors,
}

/// What a source is read as: its tree, and then its typed program.
trait Stage {
    /// Adds the decisions as text, or why there are none.
    fn tell(
        &self,
        alloc: Global,
        shown: Shown,
        text: &mut String,
        source: &str,
    ) -> Result<(), AllocError>;
}

/// Tells of what was read and lets it go, or says why it was not read. For any type: a match that
/// takes a whole tree or program out of its result makes a long proof.
fn tell_of<T: Stage + Drop, E: Drop>(
    alloc: Global,
    shown: Shown,
    text: &mut String,
    source: &str,
    read: Result<T, E>,
    fault: &str,
) -> Result<(), AllocError> {
    match read {
        Ok(it) => {
            let told = it.tell(alloc, shown, text, source);
            drop(it);
            told
        }
        Err(_) => text.push_str(fault),
    }
}

fn show(
    alloc: Global,
    shown: Shown,
    text: &mut String,
    source: &str,
    decisions: &[Decision],
) -> Result<(), AllocError>
    requires { All (λ d. IsNumbered (tree_of d.tree)) decisions.now }
{
    match shown {
        Shown::Decisions => show_decisions(text, source, decisions),
        Shown::Vectors => show_vectors(alloc, text, decisions),
    }
}

impl Stage for Program<'_> {
    fn tell(
        &self,
        alloc: Global,
        shown: Shown,
        text: &mut String,
        source: &str,
    ) -> Result<(), AllocError> {
        match decisions(alloc, self) {
            Ok(found) => {
                let told = show(alloc, shown, text, source, &found);
                drop(found);
                told
            }
            Err(DecideFault::TooManyConditions { at, count }) => {
                write!(text, "{at}: too many conditions {count}")
            }
            Err(DecideFault::OutOfMemory) => text.push_str("out of memory"),
        }
    }
}

impl Stage for Unit<'_> {
    fn tell(
        &self,
        alloc: Global,
        shown: Shown,
        text: &mut String,
        source: &str,
    ) -> Result<(), AllocError> {
        if check(self).is_err() {
            return text.push_str("outside form");
        }
        tell_of(
            alloc,
            shown,
            text,
            source,
            type_unit(alloc, self),
            "names or types",
        )
    }
}

fn of_tokens(
    alloc: Global,
    shown: Shown,
    text: &mut String,
    source: &str,
    tokens: &[Token<'_>],
) -> Result<(), AllocError>
    requires short { All (λ token. token.start + length token.text.now < 2 ^ 31) tokens.now }
    requires few { length tokens.now < 2 ^ 31 }
{
    let read = parse(alloc, tokens, Dialect::Plain);
    tell_of(alloc, shown, text, source, read, "syntax")
}

/// Adds the decisions of a source as text, or why there are none.
#[tactic(auto, using(crate::proofs::Short::all_short))]
pub fn tell(
    alloc: Global,
    shown: Shown,
    text: &mut String,
    source: &str,
) -> Result<(), AllocError> {
    let bytes = source.as_bytes();
    if bytes.len() >= 0x8000_0000 {
        return text.push_str("too long");
    }
    match lex(alloc, bytes, Dialect::Plain) {
        Ok(tokens) => {
            let told = of_tokens(alloc, shown, text, source, &tokens);
            drop(tokens);
            told
        }
        Err(_) => text.push_str("tokens"),
    }
}
