//! What the two dialects have of their own: the names of the probes, and the greatest heights of
//! trees.
ghost use Rattle.std.specs.Prelude.{◌+◌, ◌<◌, ◌^◌, All, length};

use crate::reading::Fail;
use mc_lex::{Dialect, LexFault, Token, TokenKind, lex};
use mc_parse::{ParseFault, parse};
use std::alloc::Global;

/// The names of the probes: outside words in the plain dialect, and words in the other.
static PROBE_NAMES: [&[u8]; 7] = [
    b"MCDC_H", b"MCDC_L", b"MCDC_W", b"MCDC_D", b"MCDC_C", b"mcdc_r", b"mcdc_v",
];

/// Identifiers of both dialects.
static IDENTIFIERS: [&[u8]; 6] = [
    b"mcdc_h", b"MCDC_R", b"MCDC_", b"MCDC_HH", b"xmcdc_r", b"mcdc_in",
];

/// Sources with a name of a probe, which no production of C takes, and which token it is.
static WITH_PROBES: [(&[u8], u32); 8] = [
    (b"int MCDC_H;", 1),
    (b"int mcdc_v;", 1),
    (b"MCDC_L a;", 0),
    (b"int f(int mcdc_r);", 4),
    (b"int f(int a) { MCDC_H(0); }", 7),
    (b"int f(int a) { return MCDC_D(0, 3, a); }", 8),
    (b"int f(int a) { a.mcdc_v; }", 9),
    (b"struct MCDC_W { int a; };", 1),
];

/// Heights of trees, and whether each dialect reads one of that height.
static HEIGHTS: [(u32, bool, bool); 5] = [
    (4, true, true),
    (200, true, true),
    (201, false, true),
    (800, false, true),
    (801, false, false),
];

/// The kind of the one token, where there is one.
fn kind_alone(tokens: &[Token<'_>]) -> Option<TokenKind> {
    match tokens {
        [one] => Some(one.kind),
        _ => None,
    }
}

/// The kind of the one token of a source, where it has one.
fn kind_of(alloc: Global, source: &[u8], dialect: Dialect) -> Result<Option<TokenKind>, LexFault> {
    if source.len() > 100 {
        return Ok(None);
    }
    let tokens = lex(alloc, source, dialect)?;
    let kind = kind_alone(&tokens);
    drop(tokens);
    Ok(kind)
}

/// Whether the source is one token of this kind.
fn is_one(alloc: Global, source: &[u8], dialect: Dialect, kind: TokenKind) -> bool {
    match kind_of(alloc, source, dialect) {
        Ok(found) => found == Some(kind),
        Err(_) => false,
    }
}

/// Whether the source begins with an outside word.
fn is_outside(alloc: Global, source: &[u8], dialect: Dialect) -> bool {
    match kind_of(alloc, source, dialect) {
        Ok(_) => false,
        Err(fault) => fault.at() == Some(0) && fault.words() == "outside word",
    }
}

#[test]
fn has_names_of_probes(rt: HostRuntime) {
    let alloc = rt.alloc();
    for name in &PROBE_NAMES {
        assert!(rt; is_outside(alloc, *name, Dialect::Plain));
        assert!(rt; is_one(alloc, *name, Dialect::Instrumented, TokenKind::Keyword));
    }
    for name in &IDENTIFIERS {
        assert!(rt; is_one(alloc, *name, Dialect::Plain, TokenKind::Identifier));
        assert!(rt; is_one(alloc, *name, Dialect::Instrumented, TokenKind::Identifier));
    }
    assert!(rt; is_outside(alloc, b"float", Dialect::Instrumented));
    assert!(rt; is_one(alloc, b"int", Dialect::Instrumented, TokenKind::Keyword));
}

/// The token at which the reading of the tokens ends without a tree; none where they have one.
fn stop(alloc: Global, tokens: &[Token<'_>], dialect: Dialect) -> Result<Option<u32>, Fail>
    requires short { All (λ token. token.start + length token.text.now < 2 ^ 31) tokens.now }
    requires few { length tokens.now < 2 ^ 31 }
{
    match parse(alloc, tokens, dialect) {
        Ok(unit) => {
            drop(unit);
            Ok(None)
        }
        Err(ParseFault::Syntax { at }) => Ok(Some(at)),
        Err(ParseFault::OutOfMemory) => Err(Fail),
    }
}

/// The token at which the reading of a source ends without a tree; none where it has one.
#[tactic(auto, using(crate::proofs::Short::all_short))]
fn stop_of(alloc: Global, source: &[u8], dialect: Dialect) -> Result<Option<u32>, Fail> {
    if source.len() >= 0x8000_0000 {
        return Err(Fail);
    }
    match lex(alloc, source, dialect) {
        Ok(tokens) => {
            let at = stop(alloc, &tokens, dialect);
            drop(tokens);
            at
        }
        Err(_) => Err(Fail),
    }
}

#[test]
fn takes_no_name_of_a_probe(rt: HostRuntime) -> Result<(), Fail> {
    for (source, at) in &WITH_PROBES {
        let stop = stop_of(rt.alloc(), *source, Dialect::Instrumented)?;
        assert_eq!(rt; stop, Some(*at));
    }
    Ok(())
}

/// A source whose tree has so many levels: the body, the statement, the name and each pair of
/// parentheses count one.
fn parentheses(alloc: Global, levels: u32) -> Result<Vec<u8>, Fail> {
    let pairs = levels.saturating_sub(3);
    let mut all = Vec::new(alloc);
    all.extend_from_slice(b"int f(int a){")?;
    for _ in 0..pairs {
        all.push(b'(')?;
    }
    all.push(b'a')?;
    for _ in 0..pairs {
        all.push(b')')?;
    }
    all.extend_from_slice(b";}")?;
    Ok(all)
}

/// Whether a tree of so many levels is read.
fn is_read(alloc: Global, levels: u32, dialect: Dialect) -> Result<bool, Fail> {
    let source = parentheses(alloc, levels)?;
    Ok(stop_of(alloc, &source, dialect)?.is_none())
}

#[test]
fn has_greatest_heights(rt: HostRuntime) -> Result<(), Fail> {
    let alloc = rt.alloc();
    for (levels, plain, instrumented) in &HEIGHTS {
        assert_eq!(rt;
            is_read(alloc, *levels, Dialect::Plain)?,
            *plain,
            "{levels} levels"
        );
        let read = is_read(alloc, *levels, Dialect::Instrumented)?;
        assert_eq!(rt; read, *instrumented, "{levels} levels");
    }
    Ok(())
}
