//! Instrumented programs that can be printed.

use mc_lex::Token;
use mc_probe::Instrumented;

/// An instrumented program, and the tokens of its source.
#[derive(Drop)]
pub struct Printable<'a> {
    pub tokens: Vec<Token<'a>>,
    pub tree: Instrumented<'a>,
}
