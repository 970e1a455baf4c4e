//! The pieces of an instrumented text.
ghost use Rattle.std.specs.Prelude.{
  ◌≡◌,
  ◌+◌,
  ◌<◌,
  ◌≤◌,
  ◌^◌,
  IfOk,
  IsErrOf,
  List,
  MatchResult,
  length,
  suc,
  ℕ,
};
ghost use Rattle.mc_lex.specs.Tokens.{toks_of};
ghost use Rattle.reread_pieces.specs.Pieces as spec;
ghost use Rattle.reread_pieces.specs.Pieces.{ArePieces, Mark};
ghost use Rattle.reread_pieces.specs.steps.Views.{here_of, marks_of};
ghost use Rattle.reread_pieces.specs.steps.Runs.{Gives, Steps, added_to, run};

use crate::fault::ShapeFault;
use crate::here::Here;
use crate::piece::Piece;
use mc_lex::Token;
use std::alloc::Global;

/// Reads the piece at the start of the tokens that are left. `at` is the number of the first.
fn step<'t, 'a>(
    alloc: Global,
    here: &mut Here<'t, 'a>,
    all: &mut Vec<Piece<'a>>,
    at: u32,
) -> Result<(), ShapeFault>
    requires some { 0 < length here.old.left.now }
    ensures pieces { (fuel : ℕ) → Steps fuel
        (run (suc fuel) (here_of here.old) (toks_of here.old.left.now))
        (marks_of all.old.items) (here_of here.new) (toks_of here.new.left.now)
        (marks_of all.new.items) result }
    ensures place { (place : ℕ) → IsErrOf result (ShapeFault.Shape place) → place ≡ at }
{
    let Some(piece) = here.next() else {
        return Err(ShapeFault::Shape { at });
    };
    all.push(piece)?;
    here.pass(alloc, piece)?;
    Ok(())
}

/// How many tokens of a list stand before these last ones of it.
fn place(tokens: &[Token<'_>], left: &[Token<'_>]) -> u32
    requires { length tokens.now < 2 ^ 31 }
    ensures { result ≤ length tokens.now }
{
    tokens.len().saturating_sub(left.len()) as u32
}

/// The pieces, where no token is left and nothing open. `at` is the number of the first token left.
fn finish<'a>(
    all: Vec<Piece<'a>>,
    here: &Here<'_, 'a>,
    at: u32,
) -> Result<Vec<Piece<'a>>, ShapeFault>
    ensures pieces { Gives (added_to (marks_of all.entry.items)
        (run 0 (here_of here.now) (toks_of here.now.left.now))) result }
    ensures place { (place : ℕ) → IsErrOf result (ShapeFault.Shape place) → place ≡ at }
{
    if here.left.is_empty() && here.brackets.is_empty() {
        Ok(all)
    } else {
        Err(ShapeFault::Shape { at })
    }
}

fn run<'t, 'a>(alloc: Global, tokens: &'t [Token<'a>]) -> Result<Vec<Piece<'a>>, ShapeFault>
    requires { length tokens.now < 2 ^ 31 }
    ensures pieces { Gives (run (length tokens.now + 1) (spec.start (toks_of tokens.now))
        (toks_of tokens.now)) result }
    ensures place { (at : ℕ) → IsErrOf result (ShapeFault.Shape at) → at ≤ length tokens.now }
{
    let mut all = Vec::new(alloc);
    let mut here = Here::new(alloc, tokens);
    for _turn in 0..tokens.len() + 1 {
        let at = place(tokens, here.left);
        if here.left.is_empty() {
            return finish(all, &here, at);
        }
        step(alloc, &mut here, &mut all, at)?;
    }
    let at = place(tokens, here.left);
    finish(all, &here, at)
}

/// Reads the tokens of an instrumented text as tokens of its source and as what its probes insert.
///
/// The shapes are those of tokens alone. Whether a statement stands where a counted one is marked,
/// a label before a label's probe, and an expression inside a probe's parentheses, the tree of the
/// tokens that are left has to say.
pub fn pieces<'a>(alloc: Global, tokens: &[Token<'a>]) -> Result<Vec<Piece<'a>>, ShapeFault>
    requires few { length tokens.now < 2 ^ 31 }
    // What is returned are the pieces of the tokens.
    ensures found { IfOk result (λ v. ArePieces (toks_of tokens.now) (marks_of v.items)) }
    // They have no others, and they are found where memory suffices.
    ensures only { (marks : List Mark) → ArePieces (toks_of tokens.now) marks
        → MatchResult result (λ v. marks_of v.items ≡ marks) (λ e. e ≡ ShapeFault.OutOfMemory) }
    // The place of the fault is one of the tokens or the end.
    ensures place { (at : ℕ) → IsErrOf result (ShapeFault.Shape at) → at ≤ length tokens.now }
{
    run(alloc, tokens)
}
