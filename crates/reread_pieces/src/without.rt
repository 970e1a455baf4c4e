//! The tokens of a text without its probes.
ghost use Rattle.std.specs.Prelude.{◌≡◌, ◌++◌, IfOk, length, map};
ghost use Rattle.mc_lex.specs.Tokens.{tok_of, toks_of};
ghost use Rattle.reread_pieces.specs.Plain as spec;
ghost use Rattle.reread_pieces.specs.steps.Views.{laid_of, mark_of, marks_of};

use crate::piece::{Piece, What};
use mc_lex::{Token, TokenKind};
use std::alloc::{AllocError, Global};

/// A token, and whether it stands where the next one does.
#[derive(Clone, Copy)]
pub(crate) struct Laid<'a> {
    pub token: Token<'a>,
    pub opens: bool,
}

/// Where the token of a piece stands: with the next one, at the end of the one before, at its own
/// place, or nowhere.
#[derive(Clone, Copy, Debug, PartialEq, Eq)]
pub enum Stand {
    Opens,
    Closes,
    Own,
    Nowhere,
}

/// Where the token of a piece stands.
pub fn stand_of(what: What) -> Stand
    ensures { result ≡ spec.stand_of what }
{
    match what {
        What::Source | What::Opening { .. } | What::Closing | What::Value | What::ValueEnd { .. } =>
            { Stand::Own }
        What::Statement { .. }
        | What::Decision { .. }
        | What::Condition { .. }
        | What::Switch { .. } => Stand::Opens,
        What::StatementEnd | What::OperandEnd => Stand::Closes,
        _ => Stand::Nowhere,
    }
}

/// The word of C that stands for what a probe inserts, or the text of the token itself.
fn text_of<'a>(piece: &Piece<'a>) -> &'a [u8]
    ensures { result.now ≡ spec.text_of (mark_of piece.now) }
{
    match piece.what {
        What::Value => b"return",
        What::Statement { .. } => b"{",
        What::StatementEnd => b"}",
        What::Decision { .. } | What::Condition { .. } | What::Switch { .. } => b"(",
        What::OperandEnd => b")",
        _ => piece.token.text,
    }
}

fn kind_of(piece: &Piece<'_>) -> TokenKind
    ensures { result ≡ spec.kind_of (mark_of piece.now) }
{
    match stand_of(piece.what) {
        Stand::Own => {
            if matches!(piece.what, What::Value) {
                TokenKind::Keyword
            } else {
                piece.token.kind
            }
        }
        _ => TokenKind::Punctuator,
    }
}

/// Where a token of a piece stands, after one that ends at `end`.
fn start_of(piece: &Piece<'_>, end: u32) -> u32
    ensures { result ≡ spec.start_of (mark_of piece.now) end }
{
    match stand_of(piece.what) {
        Stand::Closes => end.saturating_sub(1),
        Stand::Own => piece.token.start,
        _ => 0,
    }
}

/// The place after so many bytes from a start; the last place there is where it would be later.
fn place_after(start: u32, bytes: &[u8]) -> u32
    ensures { result ≡ spec.place_after start (length bytes.now) }
{
    let place = start as u64 + bytes.len() as u64;
    if place <= 4_294_967_295 {
        place as u32
    } else {
        4_294_967_295
    }
}

/// Where the last token with a place of its own ends, after a piece; the one before ends at `end`.
pub fn end_of(piece: &Piece<'_>, end: u32) -> u32
    ensures { result ≡ spec.end_of (mark_of piece.now) end }
{
    match stand_of(piece.what) {
        Stand::Own => place_after(piece.token.start, text_of(piece)),
        _ => end,
    }
}

/// Adds the token of a piece, where it has one.
fn lay<'a>(all: &mut Vec<Laid<'a>>, piece: &Piece<'a>, end: u32) -> Result<(), AllocError>
    ensures { IfOk result (λ _. map laid_of all.new.items
        ≡ map laid_of all.old.items ++ spec.laid_one (mark_of piece.now) end) }
{
    let stand = stand_of(piece.what);
    if !matches!(stand, Stand::Nowhere) {
        all.push(Laid {
            token: Token {
                kind: kind_of(piece),
                text: text_of(piece),
                start: start_of(piece, end),
            },
            opens: matches!(stand, Stand::Opens),
        })?;
    }
    Ok(())
}

/// The tokens of the pieces, each of them at its own place or after the one before.
fn lay_all<'a>(alloc: Global, pieces: &[Piece<'a>]) -> Result<Vec<Laid<'a>>, AllocError>
    ensures { IfOk result (λ v. map laid_of v.items ≡ spec.laid 0 (marks_of pieces.now)) }
{
    let mut all = Vec::new(alloc);
    let mut end = 0u32;
    let mut left = pieces;
    while let [piece, later @ ..] = left {
        lay(&mut all, piece, end)?;
        end = end_of(piece, end);
        left = later;
    }
    Ok(all)
}

/// The same token at the place of the next one, where it stands there.
fn moved<'a>(laid: &Laid<'a>, next: u32) -> Token<'a>
    ensures { tok_of result ≡ spec.moved (laid_of laid.now) next }
{
    if laid.opens {
        Token {
            kind: laid.token.kind,
            text: laid.token.text,
            start: next,
        }
    } else {
        laid.token
    }
}

/// The last token first: each at its place, before one that starts at `next`.
fn moved_back<'a>(alloc: Global, laid: &[Laid<'a>]) -> Result<Vec<Token<'a>>, AllocError>
    ensures { IfOk result (λ v. toks_of v.items ≡ spec.moved_back 0 (map laid_of laid.now)) }
{
    let mut all = Vec::new(alloc);
    let mut next = 0u32;
    let mut left = laid;
    while let [one, later @ ..] = left {
        let token = moved(one, next);
        all.push(token)?;
        next = token.start;
        left = later;
    }
    Ok(all)
}

/// The tokens of C that a text without its probes has: those of its source, and brackets of C for
/// those of its probes.
///
/// A counted statement stands in braces, the operand of a probe in parentheses. These stand where
/// what they enclose begins and ends, so they add nothing to the place of a tree.
pub fn plain<'a>(alloc: Global, pieces: &[Piece<'a>]) -> Result<Vec<Token<'a>>, AllocError>
    ensures { IfOk result (λ v. toks_of v.items ≡ spec.plain_of (marks_of pieces.now)) }
{
    let mut laid = lay_all(alloc, pieces)?;
    laid.reverse();
    let mut all = moved_back(alloc, &laid)?;
    all.reverse();
    Ok(all)
}
