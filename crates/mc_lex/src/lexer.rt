//! The token list of a source.
ghost use Rattle.std.specs.Prelude.{◌≡◌, ◌<◌, ◌≤◌, ◌+◌, ◌^◌, ◌≢◌, ℕ, length, List, Option, Some, None, IsErrOf, IfOk, All, [], vec_len};
ghost use Rattle.mc_lex.specs.declared.fault.LexFault.{LexFault};
ghost use Rattle.mc_lex.specs.declared.fault.LexFault.TheVariants as fault;
ghost use Rattle.mc_lex.specs.Faults.{fault_place};
ghost use Rattle.mc_lex.specs.Tokens.{Tok, toks_of};
ghost use Rattle.mc_lex.specs.Scans.{Scans};
ghost use Rattle.mc_lex.specs.Returned.{Gives, IsSlice};
ghost use Rattle.mc_lex.specs.steps.Scanner as spec;

use crate::byte::{is_line_end, is_white_space};
use crate::fault::LexFault;
use crate::fault_kind::fault_at;
use crate::next::{Next, next_at};
use crate::token::{Dialect, Token};
use std::alloc::Global;

/// Whether only white space stands on the line before what follows these bytes.
fn still_first(is_first: bool, bytes: &[u8]) -> bool
    ensures { result ≡ spec.still_first is_first bytes.now }
{
    let mut first = is_first;
    let mut left = bytes;
    while let [byte, later @ ..] = left {
        first = is_line_end(*byte) || (is_white_space(*byte) && first);
        left = later;
    }
    first
}

#[tactic(auto, using(crate::proofs::Lexing::scan_steps))]
fn scan<'a>(alloc: Global, source: &'a [u8], dialect: Dialect) -> Result<Vec<Token<'a>>, LexFault>
    requires { length source.now < 2 ^ 31 }
    ensures { Gives (spec.scan dialect (length source.now + 1) [] source.now) result }
{
    let mut tokens = Vec::new(alloc);
    let mut rest = source;
    let mut at = 0;
    let mut is_first = true;
    for _turn in 0..source.len() + 1 {
        if rest.is_empty() {
            break;
        }
        match next_at(dialect, is_first, rest) {
            Next::Refused(why) => return Err(fault_at(why, at as u32)),
            Next::Gap(n) => {
                let (gap, after) = rest.split_at(n);
                is_first = still_first(is_first, gap);
                rest = after;
                at += n;
            }
            Next::Token(kind, n) => {
                let (text, after) = rest.split_at(n);
                tokens.push(Token {
                    kind,
                    text,
                    start: at as u32,
                })?;
                is_first = still_first(is_first, text);
                rest = after;
                at += n;
            }
        }
    }
    Ok(tokens)
}

/// Cuts a source into its tokens (C17 6.4), or finds the first place where no token stands.
///
/// White space, comments and line markers stand between tokens. Each token's text is lent from
/// the source.
pub fn lex<'a>(
    alloc: Global,
    source: &'a [u8],
    dialect: Dialect,
) -> Result<Vec<Token<'a>>, LexFault>
    requires { length source.now < 2 ^ 31 }
    // What is returned is the source's token list.
    ensures found { IfOk result (λ v. Scans dialect [] source.now (toks_of v.items) None) }
    // A fault stands at the first place without a token.
    ensures fault { (e : LexFault) → IsErrOf result e → e ≢ fault.OutOfMemory
        → (ts : List Tok) × Scans dialect [] source.now ts (Some e) }
    // The place of a fault is that of a byte of the source.
    ensures inside { (e : LexFault) (at : ℕ) → IsErrOf result e → fault_place e ≡ Some at
        → at < length source.now }
    // The token list or the fault that the source has is what is returned, unless memory runs out.
    ensures only { (ts : List Tok) (stop : Option LexFault)
        → Scans dialect [] source.now ts stop → Gives (ts, stop) result }
    // Each token is the part of the source at its start.
    ensures slices { IfOk result (λ v. All (IsSlice source.now) (toks_of v.items)) }
    // There are no more tokens than bytes.
    ensures count { IfOk result (λ v. vec_len v ≤ length source.now) }
{
    scan(alloc, source, dialect)
}
