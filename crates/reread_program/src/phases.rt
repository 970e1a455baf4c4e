//! The phases of the reading: what each gives, or its fault.
ghost use Rattle.std.specs.Prelude.{◌≡◌, ◌+◌, ◌≤◌, ◌<◌, ◌^◌, All, IfOk, None, length};
ghost use Rattle.mc_lex.specs.Tokens.{toks_of};
ghost use Rattle.mc_tree.specs.Units.{items_of};
ghost use Rattle.mc_typed.specs.Views.{program_of};
ghost use Rattle.reread_pieces.specs.Plain.{plain_of};
ghost use Rattle.reread_pieces.specs.steps.Views.{marks_of};
ghost use Rattle.mc_subset.specs.Forms.{first_outside};
ghost use Rattle.mc_subset.specs.Nodes.{nodes_of_unit};
ghost use Rattle.mc_probe.specs.Trees.{tree_of};
ghost use Rattle.reread_program.specs.Reading.{Admits, Lexes, Parses, Places, PutsBack, Splits, Types};
ghost use Rattle.reread_program.specs.Returned.{Gives};
ghost use Rattle.reread_program.specs.steps.Short.{AreShort, ParsesTokens};

use crate::fault::RereadFault;
use mc_lex::{Dialect, Token, lex};
use mc_parse::{ParseFault, parse};
use mc_probe::Instrumented;
use mc_subset::check;
use mc_tree::Unit;
use mc_typed::Program;
use mc_types::type_unit;
use reread_pieces::{Piece, Placed, ShapeFault};
use reread_probes::PlaceFault;
use reread_put_back::{BackFault, put_back};
use std::alloc::Global;

/// The tokens.
pub(crate) fn lexed<'a>(alloc: Global, text: &'a [u8]) -> Result<Vec<Token<'a>>, RereadFault>
    requires { length text.now < 2 ^ 31 }
    ensures lexes { Gives (λ tokens. toks_of tokens.items) (Lexes text.now) result }
    ensures few { IfOk result (λ tokens. length tokens.items ≤ length text.now) }
{
    match lex(alloc, text, Dialect::Instrumented) {
        Ok(tokens) => Ok(tokens),
        Err(fault) => match fault.at() {
            Some(_) => Err(RereadFault::Lex(fault)),
            None => Err(RereadFault::OutOfMemory),
        },
    }
}

/// The pieces.
pub(crate) fn split<'a>(alloc: Global, tokens: &[Token<'a>]) -> Result<Vec<Piece<'a>>, RereadFault>
    requires { length tokens.now < 2 ^ 31 }
    ensures { Gives (λ pieces. marks_of pieces.items) (Splits (toks_of tokens.now)) result }
{
    match reread_pieces::pieces(alloc, tokens) {
        Ok(pieces) => Ok(pieces),
        Err(ShapeFault::Shape { at }) => Err(RereadFault::Parse(ParseFault::Syntax { at })),
        Err(ShapeFault::OutOfMemory) => Err(RereadFault::OutOfMemory),
    }
}

/// The tree of tokens without probes.
fn parsed_tokens<'a>(alloc: Global, tokens: &[Token<'a>]) -> Result<Unit<'a>, RereadFault>
    requires short { All (λ token. token.start + length token.text.now < 2 ^ 31) tokens.now }
    requires few { length tokens.now < 2 ^ 31 }
    ensures { Gives (λ unit. items_of unit.items.items) (ParsesTokens (toks_of tokens.now)) result }
{
    match parse(alloc, tokens, Dialect::Instrumented) {
        Ok(unit) => Ok(unit),
        Err(ParseFault::Syntax { at }) => Err(RereadFault::Parse(ParseFault::Syntax { at })),
        Err(ParseFault::OutOfMemory) => Err(RereadFault::OutOfMemory),
    }
}

/// The tree of the tokens without probes.
#[tactic(auto, using(crate::proofs::Short::tokens_short, crate::proofs::Short::tokens_few))]
pub(crate) fn parsed<'a>(alloc: Global, pieces: &[Piece<'a>]) -> Result<Unit<'a>, RereadFault>
    requires short { AreShort (plain_of (marks_of pieces.now)) }
    requires few { length (plain_of (marks_of pieces.now)) < 2 ^ 31 }
    ensures { Gives (λ unit. items_of unit.items.items) (Parses (marks_of pieces.now)) result }
{
    match reread_pieces::plain(alloc, pieces) {
        Ok(tokens) => parsed_tokens(alloc, &tokens),
        Err(_) => Err(RereadFault::OutOfMemory),
    }
}

/// The probes at what they stand at.
pub(crate) fn placed<'a>(
    alloc: Global,
    pieces: &[Piece<'a>],
    unit: &Unit<'a>,
) -> Result<Vec<Placed>, RereadFault>
    ensures { Gives (λ placed. placed.items)
        (Places (marks_of pieces.now) (items_of unit.now.items.items)) result }
{
    match reread_probes::placed(alloc, pieces, unit) {
        Ok(placed) => Ok(placed),
        Err(PlaceFault::NoShape) => Err(RereadFault::Parse(ParseFault::Syntax { at: 0 })),
        Err(PlaceFault::OutOfMemory) => Err(RereadFault::OutOfMemory),
    }
}

/// The profile.
pub(crate) fn admitted(unit: &Unit<'_>) -> Result<(), RereadFault>
    ensures { Gives (λ u. u) (Admits (items_of unit.now.items.items)) result }
{
    match check(unit) {
        Ok(()) => Ok(()),
        Err(outside) => Err(RereadFault::Outside(outside)),
    }
}

/// The names and types.
pub(crate) fn typed<'a>(alloc: Global, unit: &Unit<'a>) -> Result<Program<'a>, RereadFault>
    requires { first_outside (nodes_of_unit (items_of unit.now.items.items)) ≡ None }
    ensures { Gives program_of (Types (items_of unit.now.items.items)) result }
{
    match type_unit(alloc, unit) {
        Ok(program) => Ok(program),
        Err(fault) => match fault.at() {
            Some(_) => Err(RereadFault::Typing(fault)),
            None => Err(RereadFault::OutOfMemory),
        },
    }
}

/// The probes, put back.
pub(crate) fn probed<'a>(
    alloc: Global,
    program: &Program<'a>,
    placed: &[Placed],
) -> Result<Instrumented<'a>, RereadFault>
    ensures { Gives tree_of (PutsBack (program_of program.now) placed.now) result }
{
    match put_back(alloc, program, placed) {
        Ok(tree) => Ok(tree),
        Err(BackFault::Probe { at }) => Err(RereadFault::Probe { at }),
        Err(BackFault::OutOfMemory) => Err(RereadFault::OutOfMemory),
    }
}
