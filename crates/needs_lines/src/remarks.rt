//! The remarks on the conditions of a decision.
ghost use Rattle.std.specs.Prelude.{◌≡◌, ◌++◌, ◌∷◌, [], if◌then◌else◌, OnOk};
ghost use Rattle.std.specs.List.{concat};
ghost use Rattle.std.specs.List.Sorted.{IsNonDecreasingBy};
ghost use Rattle.mc_lex.specs.Tokens.{toks_of};
ghost use Rattle.needs_lines.specs.Remarks.{constant_line, constants, first_same, one_text_line, one_text_lines, one_texts, remark_lines};

use crate::parts::{are_same, has_name, tokens_in};
use mc_lex::Token;
use mc_span::Span;
use std::alloc::{AllocError, Global};

fn push_one_text_line(
    alloc: Global,
    text: &mut Vec<u8>,
    first: usize,
    later: usize,
) -> Result<(), AllocError>
    ensures { OnOk result (text.new.items ≡ text.old.items ++ one_text_line first later) }
{
    let line = format!(in alloc; "  conditions {first} and {later} have one text\n")?;
    text.extend_from_slice(line.as_bytes())
}

fn push_constant_line(alloc: Global, text: &mut Vec<u8>, k: usize) -> Result<(), AllocError>
    ensures { OnOk result (text.new.items ≡ text.old.items ++ constant_line k) }
{
    let line = format!(in alloc; "  condition {k} is a constant\n")?;
    text.extend_from_slice(line.as_bytes())
}

/// The number of the first of the conditions that has the tokens of this one.
fn first_same(tokens: &[Token<'_>], earlier: &[Span], span: Span) -> Option<usize>
    requires { IsNonDecreasingBy (λ t. t.start) tokens.now }
    ensures { result ≡ first_same (toks_of tokens.now) 1 earlier.now span }
{
    let own = tokens_in(tokens, span);
    let mut k = 1;
    let mut left = earlier;
    while let [one, later @ ..] = left {
        if are_same(tokens_in(tokens, *one), own) {
            return Some(k);
        }
        k += 1;
        left = later;
    }
    None
}

/// Adds the line of two conditions with one text.
fn push_one_text(
    alloc: Global,
    text: &mut Vec<u8>,
    first: Option<usize>,
    later: usize,
) -> Result<(), AllocError>
    ensures { OnOk result
        (text.new.items ≡ text.old.items ++ concat (one_text_lines first later)) }
{
    if let Some(first) = first {
        push_one_text_line(alloc, text, first, later)?;
    }
    Ok(())
}

/// Adds a line for each condition that has the tokens of an earlier one.
#[tactic(auto, using(crate::proofs::Joined::joined))]
fn push_one_texts(
    alloc: Global,
    text: &mut Vec<u8>,
    tokens: &[Token<'_>],
    spans: &[Span],
) -> Result<(), AllocError>
    requires { IsNonDecreasingBy (λ t. t.start) tokens.now }
    ensures { OnOk result (text.new.items
        ≡ text.old.items ++ concat (one_texts (toks_of tokens.now) [] 1 spans.now)) }
{
    let mut k = 0;
    let mut left = spans;
    while let [span, later @ ..] = left {
        let first = first_same(tokens, &spans[..k], *span);
        k += 1;
        push_one_text(alloc, text, first, k)?;
        left = later;
    }
    Ok(())
}

/// Adds the line of a condition that is a constant.
fn push_constant(
    alloc: Global,
    text: &mut Vec<u8>,
    is_constant: bool,
    k: usize,
) -> Result<(), AllocError>
    ensures { OnOk result (text.new.items ≡ text.old.items
        ++ concat (if is_constant then constant_line k ∷ [] else [])) }
{
    if is_constant {
        push_constant_line(alloc, text, k)?;
    }
    Ok(())
}

/// Adds a line for each condition without a name.
#[tactic(auto, using(crate::proofs::Joined::joined))]
fn push_constants(
    alloc: Global,
    text: &mut Vec<u8>,
    tokens: &[Token<'_>],
    spans: &[Span],
) -> Result<(), AllocError>
    requires { IsNonDecreasingBy (λ t. t.start) tokens.now }
    ensures { OnOk result (text.new.items
        ≡ text.old.items ++ concat (constants (toks_of tokens.now) 1 spans.now)) }
{
    let mut k = 0;
    let mut left = spans;
    while let [span, later @ ..] = left {
        let is_constant = !has_name(tokens_in(tokens, *span));
        k += 1;
        push_constant(alloc, text, is_constant, k)?;
        left = later;
    }
    Ok(())
}

/// Adds the remarks on conditions.
pub(crate) fn push_remarks(
    alloc: Global,
    text: &mut Vec<u8>,
    tokens: &[Token<'_>],
    spans: &[Span],
) -> Result<(), AllocError>
    requires { IsNonDecreasingBy (λ t. t.start) tokens.now }
    ensures { OnOk result (text.new.items
        ≡ text.old.items ++ concat (remark_lines (toks_of tokens.now) spans.now)) }
{
    push_one_texts(alloc, text, tokens, spans)?;
    push_constants(alloc, text, tokens, spans)?;
    Ok(())
}
