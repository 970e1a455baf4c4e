//! From a source to its instrumented text and back; from a text to its tree, and to its text again.
ghost use Rattle.std.specs.Prelude.{◌<◌, ◌+◌, ◌^◌, length, All};

use crate::fail::Fail;
use mc_decide::decisions;
use mc_instrument::instrument;
use mc_lex::{Dialect, Token, TokenKind, lex};
use mc_parse::parse;
use mc_port::MemorySink;
use mc_print::print;
use mc_probe::Instrumented;
use mc_subset::check;
use mc_tree::Unit;
use mc_typed::Program;
use mc_types::type_unit;
use reread_pieces::{Piece, What, pieces};
use reread_program::reread;
use std::alloc::Global;

/// How much room a sink has.
const ROOM: u32 = 65_536;

// ---- from a text to its text

/// The token of the source that a piece has, where it has one.
fn of_source<'a>(piece: &Piece<'a>) -> Option<Token<'a>> {
    match piece.what {
        What::Source | What::Opening { .. } | What::Closing => Some(piece.token),
        What::Value => Some(Token {
            kind: TokenKind::Keyword,
            text: b"return",
            start: piece.token.start,
        }),
        What::ValueEnd { .. } => Some(piece.token),
        _ => None,
    }
}

/// The tokens of the source, where they stand in the text.
fn source_tokens<'a>(alloc: Global, pieces: &[Piece<'a>]) -> Result<Vec<Token<'a>>, Fail> {
    let mut tokens = Vec::new(alloc);
    for piece in pieces {
        if let Some(token) = of_source(piece) {
            tokens.push(token)?;
        }
    }
    Ok(tokens)
}

/// The words of a text and what stands after each, as the table lays them out.
fn laid_out(alloc: Global, tokens: &[Token<'_>]) -> Result<Vec<u8>, Fail> {
    let mut text = Vec::new(alloc);
    for token in tokens {
        text.extend_from_slice(token.text)?;
        let ends = matches!(token.text, b";" | b"{" | b"}");
        text.push(if ends { b'\n' } else { b' ' })?;
    }
    if text.pop().is_some() {
        text.push(b'\n')?;
    }
    Ok(text)
}

/// Whether the tree is put as these bytes.
fn puts(
    alloc: Global,
    tokens: &[Token<'_>],
    tree: &Instrumented<'_>,
    wanted: &[u8],
) -> Result<bool, Fail> {
    let mut out = MemorySink::new(alloc, ROOM, Vec::new(alloc))?;
    let whole = print(tokens, tree, &mut out).is_ok();
    let same = out.bytes() == wanted;
    drop(out);
    Ok(whole && same)
}

/// Whether the tree is put as the tokens of the text that it was read from.
fn puts_again(alloc: Global, tokens: &[Token<'_>], tree: &Instrumented<'_>) -> Result<bool, Fail>
    requires few { length tokens.now < 2 ^ 31 }
{
    let Ok(found) = pieces(alloc, tokens) else {
        return Err(Fail);
    };
    let source = source_tokens(alloc, &found)?;
    let wanted = laid_out(alloc, tokens)?;
    puts(alloc, &source, tree, &wanted)
}

/// Whether a text is read as a tree with so many bits, which is put as the text.
pub(crate) fn is_read(alloc: Global, text: &[u8], bits: u32) -> Result<bool, Fail> {
    if text.len() >= 0x8000_0000 {
        return Err(Fail);
    }
    let Ok(tree) = reread(alloc, text) else {
        return Ok(false);
    };
    let Ok(tokens) = lex(alloc, text, Dialect::Instrumented) else {
        return Err(Fail);
    };
    let same = puts_again(alloc, &tokens, &tree)?;
    let counted = tree.bits() == bits;
    drop(tree);
    Ok(same && counted)
}

// ---- from a source to its text

/// Whether the text of a tree is read as a tree with as many bits and the same text.
fn is_read_again(
    alloc: Global,
    tokens: &[Token<'_>],
    tree: &Instrumented<'_>,
) -> Result<bool, Fail> {
    let mut out = MemorySink::new(alloc, ROOM, Vec::new(alloc))?;
    if print(tokens, tree, &mut out).is_err() {
        return Err(Fail);
    }
    let same = is_read(alloc, out.bytes(), tree.bits());
    drop(out);
    same
}

/// What a source is read as: its tree, and then its typed program.
trait Stage {
    fn holds(&self, alloc: Global, tokens: &[Token<'_>]) -> Result<bool, Fail>;
}

/// The same of what was read, which is let go.
fn holds_of<T: Stage + Drop, E: Drop>(
    alloc: Global,
    tokens: &[Token<'_>],
    read: Result<T, E>,
) -> Result<bool, Fail> {
    match read {
        Ok(it) => {
            let right = it.holds(alloc, tokens);
            drop(it);
            right
        }
        Err(_) => Err(Fail),
    }
}

impl Stage for Program<'_> {
    fn holds(&self, alloc: Global, tokens: &[Token<'_>]) -> Result<bool, Fail> {
        let found = match decisions(alloc, self) {
            Ok(found) => found,
            Err(_) => return Err(Fail),
        };
        match instrument(alloc, self, found) {
            Ok((tree, map)) => {
                drop(map);
                let right = is_read_again(alloc, tokens, &tree);
                drop(tree);
                right
            }
            Err(_) => Err(Fail),
        }
    }
}

impl Stage for Unit<'_> {
    fn holds(&self, alloc: Global, tokens: &[Token<'_>]) -> Result<bool, Fail> {
        if check(self).is_err() {
            return Err(Fail);
        }
        holds_of(alloc, tokens, type_unit(alloc, self))
    }
}

fn of_tokens(alloc: Global, tokens: &[Token<'_>]) -> Result<bool, Fail>
    requires short { All (λ token. token.start + length token.text.now < 2 ^ 31) tokens.now }
    requires few { length tokens.now < 2 ^ 31 }
{
    holds_of(alloc, tokens, parse(alloc, tokens, Dialect::Plain))
}

/// Whether the instrumented text of a source is read as the tree that it was put from, by its text
/// and its bits.
#[tactic(auto, using(crate::proofs::Short::all_short))]
pub(crate) fn comes_back(alloc: Global, source: &str) -> Result<bool, Fail> {
    let source = source.as_bytes();
    if source.len() >= 0x8000_0000 {
        return Err(Fail);
    }
    match lex(alloc, source, Dialect::Plain) {
        Ok(tokens) => {
            let right = of_tokens(alloc, &tokens);
            drop(tokens);
            right
        }
        Err(_) => Err(Fail),
    }
}
