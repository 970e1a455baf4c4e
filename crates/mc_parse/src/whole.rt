//! The tree of a whole source.
ghost use Rattle.mc_limits.specs.Limits.{most_instrumented_height};
ghost use Rattle.std.specs.Prelude.{◌≡◌, ◌+◌, ◌≤◌, ◌<◌, ◌^◌, All, IfOk, IsErrOf, List, MatchResult, length, ℕ};
ghost use Rattle.mc_lex.specs.Tokens.{toks_of};
ghost use Rattle.mc_tree.specs.Tree as source_tree;
ghost use Rattle.mc_tree.specs.Units.{items_of};
ghost use Rattle.mc_grammar.specs.Items.{IsSyntaxOf, IsTreeWithin, greatest_height};
ghost use Rattle.mc_grammar.specs.Words.{lexemes_of};
ghost use Rattle.laws_grammar.specs.Items.{unit_of};
ghost use Rattle.mc_parse.specs.steps.Wholes.{GivesWhole, tree_in};

use crate::fault::ParseFault;
use crate::items::items;
use mc_lex::{Dialect, Token};
use mc_limits::{MOST_HEIGHT, MOST_INSTRUMENTED_HEIGHT};
use mc_tree::{Item, Unit};
use parse_cursor::cursor::Cursor;
use parse_cursor::fault::Fault;
use std::alloc::Global;

/// Reads external declarations of fewer than `room` levels.
fn whole<'a>(alloc: Global, tokens: &[Token<'a>], room: u32) -> Result<Vec<Item<'a>>, ParseFault>
    requires short { All (λ token. token.start + length token.text.now < 2 ^ 31) tokens.now }
    requires few { length tokens.now < 2 ^ 31 }
    requires room { room ≤ 1000 }
    ensures { GivesWhole (tree_in (unit_of room (lexemes_of (toks_of tokens.now))))
        (length tokens.now) result }
{
    let mut cursor = Cursor::new(alloc, tokens);
    match items(alloc, room, &mut cursor) {
        Ok(all) => Ok(all),
        Err(Fault::OutOfMemory) => Err(ParseFault::OutOfMemory),
        Err(Fault::Syntax) => {
            let at = tokens.len().saturating_sub(cursor.left()) as u32;
            Err(ParseFault::Syntax { at })
        }
    }
}

/// The tree of the tokens, where its height is at most `limit`.
pub fn parse_within<'a>(
    alloc: Global,
    tokens: &[Token<'a>],
    limit: u32,
) -> Result<Unit<'a>, ParseFault>
    requires short { All (λ token. token.start + length token.text.now < 2 ^ 31) tokens.now }
    requires few { length tokens.now < 2 ^ 31 }
    requires limit { limit ≤ most_instrumented_height }
    // What is read is a tree of the tokens, no higher than the limit.
    ensures tree { (dialect : Dialect)
        → IfOk result (λ unit. IsTreeWithin limit dialect (toks_of tokens.now)
        (items_of unit.items.items)) }
    // It is the only one, and it is read where memory suffices.
    ensures only { (dialect : Dialect) (tree : List source_tree.Item)
        → IsTreeWithin limit dialect (toks_of tokens.now) tree
        → MatchResult result (λ unit. items_of unit.items.items ≡ tree) (λ fault. fault
        ≡ ParseFault.OutOfMemory) }
    // The place of the fault is one of the tokens or the end.
    ensures place { (at : ℕ) → IsErrOf result (ParseFault.Syntax at) → at ≤ length tokens.now }
{
    match whole(alloc, tokens, limit + 1) {
        Ok(items) => Ok(Unit { items }),
        Err(fault) => Err(fault),
    }
}

/// The greatest height of a tree that is read.
fn limit_of(dialect: Dialect) -> u32
    ensures limit { result ≡ greatest_height dialect }
    ensures small { result ≤ most_instrumented_height }
{
    match dialect {
        Dialect::Plain => MOST_HEIGHT,
        Dialect::Instrumented => MOST_INSTRUMENTED_HEIGHT,
    }
}

/// The tree of the tokens of a source, where its height is at most the greatest of the dialect.
pub fn parse<'a>(
    alloc: Global,
    tokens: &[Token<'a>],
    dialect: Dialect,
) -> Result<Unit<'a>, ParseFault>
    requires short { All (λ token. token.start + length token.text.now < 2 ^ 31) tokens.now }
    requires few { length tokens.now < 2 ^ 31 }
    // What is read is the syntax of the tokens.
    ensures tree { IfOk result
        (λ unit. IsSyntaxOf dialect (toks_of tokens.now) (items_of unit.items.items)) }
    // They have no other, and it is read where memory suffices.
    ensures only { (tree : List source_tree.Item) → IsSyntaxOf dialect (toks_of tokens.now) tree
        → MatchResult result (λ unit. items_of unit.items.items ≡ tree) (λ fault. fault
        ≡ ParseFault.OutOfMemory) }
    // The place of the fault is one of the tokens or the end.
    ensures place { (at : ℕ) → IsErrOf result (ParseFault.Syntax at) → at ≤ length tokens.now }
{
    parse_within(alloc, tokens, limit_of(dialect))
}
