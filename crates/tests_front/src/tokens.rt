//! Sources and their tokens or faults. What follows from C17 was compared with gcc; what this
//! project leaves out follows from docs/LANGUAGE.md.

use mc_lex::{Dialect, LexFault, Place, Token, TokenKind, lex, place_of, quote};
use mc_span::Span;
use std::alloc::Global;

/// Sources that are refused, with the byte at which the fault stands, and its words.
static REFUSED: [(&[u8], u32, &str); 70] = [
    // words, punctuators and literals that are left out
    (b"1.5", 0, "outside word"),
    (b".5", 0, "outside word"),
    (b"1e5", 0, "outside word"),
    (b"1e", 0, "outside word"),
    (b"1..2", 0, "outside word"),
    (b"0x1p3", 0, "outside word"),
    (b"1.e+5", 0, "outside word"),
    (b"a = 1.5;", 4, "outside word"),
    (b"L'a'", 0, "outside word"),
    (b"u'a'", 0, "outside word"),
    (b"u8\"x\"", 0, "outside word"),
    (b"U\"x\"", 0, "outside word"),
    (b"\"x\"", 0, "outside word"),
    (b"/* \"x\" */ \"x\"", 10, "outside word"),
    (b"->", 0, "outside word"),
    (b"...", 0, "outside word"),
    (b"%:", 0, "outside word"),
    (b"<:", 0, "outside word"),
    (b"a%>b", 1, "outside word"),
    (b"int f(int p){return p->x;}", 21, "outside word"),
    (b"float", 0, "outside word"),
    (b"x _Static_assert", 2, "outside word"),
    (b"MCDC_H", 0, "outside word"),
    (b"mcdc_r", 0, "outside word"),
    // numbers, character constants and comments that are not well formed
    (b"0x", 0, "token"),
    (b"08", 0, "token"),
    (b"1uu", 0, "token"),
    (b"1lul", 0, "token"),
    (b"1lL", 0, "token"),
    (b"1Lul", 0, "token"),
    (b"0b1", 0, "token"),
    (b"1p3", 0, "token"),
    (b"1_", 0, "token"),
    (b"0x1e+5", 0, "token"),
    (b"''", 0, "token"),
    (b"'ab'", 0, "token"),
    (b"'\\400'", 0, "token"),
    (b"'\\x'", 0, "token"),
    (b"'\\8'", 0, "token"),
    (b"'\\1234'", 0, "token"),
    (b"'\\'", 0, "token"),
    (b"'\xe9'", 0, "token"),
    (b"'\x7f'", 0, "token"),
    (b"'a", 0, "token"),
    (b"x '\n'", 2, "token"),
    (b"/* open", 0, "token"),
    (b"int x; /* open", 7, "token"),
    (b"/*/", 0, "token"),
    // constants that no type holds
    (b"18446744073709551615", 0, "constant too wide"),
    (b"9223372036854775808", 0, "constant too wide"),
    (b"18446744073709551616u", 0, "constant too wide"),
    (b"int a = 18446744073709551616;", 8, "constant too wide"),
    (b"0x10000000000000000", 0, "constant too wide"),
    // a `#` that does not begin a line marker
    (b"#include <x.h>", 0, "directive"),
    (b"# 1x", 0, "directive"),
    (b"/* c */ # 1", 8, "directive"),
    (b"# 1 \"x\" /* c */", 0, "directive"),
    (b"#\n1", 0, "directive"),
    (b"a # 1", 2, "directive"),
    (b"/* c\n*/ # 1", 8, "directive"),
    (b"# 1 2 \"x\"", 0, "directive"),
    // bytes that begin nothing
    (b"\\", 0, "byte"),
    (b"a\\\nb", 1, "byte"),
    (b"$", 0, "byte"),
    (b"@", 0, "byte"),
    (b"`", 0, "byte"),
    (b"\0", 0, "byte"),
    (b"\xff", 0, "byte"),
    (b"int f(int a){return a@1;}", 21, "byte"),
    // the first fault answers
    (b"$ 1.5 08 # \"x\"", 0, "byte"),
];

/// Sources of one integer constant: its value, whether it is decimal, whether it has a `u`, and
/// how many `l` it has.
static CONSTANTS: [(&[u8], u64, bool, bool, u32); 12] = [
    (b"0", 0, false, false, 0),
    (b"7", 7, true, false, 0),
    (b"010", 8, false, false, 0),
    (b"00000000000000000000000017", 15, false, false, 0),
    (b"0xFFFFFFFFFFFFFFFFull", u64::MAX, false, true, 2),
    (b"18446744073709551615u", u64::MAX, true, true, 0),
    (b"0xffffffffffffffffl", u64::MAX, false, false, 1),
    (
        b"9223372036854775807",
        9_223_372_036_854_775_807,
        true,
        false,
        0,
    ),
    (b"0X1aLLU", 26, false, true, 2),
    (b"1lu", 1, true, true, 1),
    (b"1LL", 1, true, false, 2),
    (b"0x0000000000000000000000000000001", 1, false, false, 0),
];

/// Sources of one character constant, and its value.
static CHARACTERS: [(&[u8], i32); 13] = [
    (b"'a'", 97),
    (b"' '", 32),
    (b"'#'", 35),
    (b"'\"'", 34),
    (b"'\\''", 39),
    (b"'\\\\'", 92),
    (b"'\\n'", 10),
    (b"'\\v'", 11),
    (b"'\\0'", 0),
    (b"'\\177'", 127),
    (b"'\\xff'", -1),
    (b"'\\377'", -1),
    (b"'\\x000000000000000000000041'", 65),
];

/// Sources, the texts of their tokens, each with a `|` after it, and a letter for the kind of
/// each.
static LISTS: [(&[u8], &[u8], &[u8]); 24] = [
    // no token
    (b"", b"", b""),
    (b" \t\n\x0b\x0c\r", b"", b""),
    (b"/* * / // */ // /* x", b"", b""),
    (b"/* \xff\0 */", b"", b""),
    (b"# 1 \"x\" 2 3\r\n", b"", b""),
    (b"# 1\"x\"2", b"", b""),
    (b"#1", b"", b""),
    (b" \t#\t12 \"a/b.c\"", b"", b""),
    (b"/**/\n/*\n\n*/\n # 1 2", b"", b""),
    // the longest token is taken
    (b"..", b".|.|", b"pp"),
    (b"a+++b", b"a|++|+|b|", b"ippi"),
    (b"a<<=b>>c", b"a|<<=|b|>>|c|", b"ipipi"),
    (b"x-->y", b"x|--|>|y|", b"ippi"),
    (b"u8'a'", b"u8|'a'|", b"ih"),
    (b"xL'a'", b"xL|'a'|", b"ih"),
    (b"a.b[1]-1", b"a|.|b|[|1|]|-|1|", b"ipipcppc"),
    // words
    (b"mcdc_in", b"mcdc_in|", b"i"),
    (b"MCDC_X L u8", b"MCDC_X|L|u8|", b"iii"),
    (b"int i1_/*x*/intx", b"int|i1_|intx|", b"kii"),
    (b"_Bool\x0cgoto", b"_Bool|goto|", b"kk"),
    // lines
    (b"return\r\nx;", b"return|x|;|", b"kip"),
    (b"a/b//c\n/d", b"a|/|b|/|d|", b"ipipi"),
    (b"# 1 \"x\" 2 3\nx", b"x|", b"i"),
    // a backslash does not join lines, so the comment ends before the second line
    (b"// a \\\nx", b"x|", b"i"),
];

/// Offsets in the source `ab`, CR, LF, `c`, LF, and their places.
static PLACES: [(u32, u32, u32); 4] = [(0, 1, 1), (3, 1, 4), (4, 2, 1), (6, 3, 1)];

fn fault_of(alloc: Global, source: &[u8]) -> Option<LexFault> {
    if source.len() > 100 {
        return None;
    }
    match lex(alloc, source, Dialect::Plain) {
        Ok(_tokens) => None,
        Err(fault) => Some(fault),
    }
}

/// The kind of the one token, where that is the whole source.
fn kind_alone(tokens: &[Token<'_>], source: &[u8]) -> Option<TokenKind> {
    match tokens {
        [one] if one.text == source => Some(one.kind),
        _ => None,
    }
}

/// The kind of the one token that is the whole source.
fn kind_of(alloc: Global, source: &[u8]) -> Option<TokenKind> {
    if source.len() > 100 {
        return None;
    }
    let Ok(tokens) = lex(alloc, source, Dialect::Plain) else {
        return None;
    };
    let kind = kind_alone(&tokens, source);
    drop(tokens);
    kind
}

fn letter(kind: TokenKind) -> u8 {
    match kind {
        TokenKind::Identifier => b'i',
        TokenKind::Keyword => b'k',
        TokenKind::Punctuator => b'p',
        TokenKind::Constant { .. } => b'c',
        TokenKind::Character { .. } => b'h',
    }
}

/// Whether these are the tokens, each followed by `|` in `texts`, and of these kinds.
fn are_these(tokens: &[Token<'_>], texts: &[u8], kinds: &[u8]) -> bool {
    let mut texts_left = texts;
    let mut kinds_left = kinds;
    for token in tokens {
        let Some(after) = texts_left.strip_prefix(token.text) else {
            return false;
        };
        let Some(after) = after.strip_prefix(b"|") else {
            return false;
        };
        let [kind, others @ ..] = kinds_left else {
            return false;
        };
        if *kind != letter(token.kind) {
            return false;
        }
        texts_left = after;
        kinds_left = others;
    }
    texts_left.is_empty() && kinds_left.is_empty()
}

/// Whether the source has these tokens, each followed by `|` in `texts`, of these kinds.
fn is_list(alloc: Global, source: &[u8], texts: &[u8], kinds: &[u8]) -> bool {
    if source.len() > 100 {
        return false;
    }
    let Ok(tokens) = lex(alloc, source, Dialect::Plain) else {
        return false;
    };
    let same = are_these(&tokens, texts, kinds);
    drop(tokens);
    same
}

/// Whether the source is refused with these words at this byte.
fn is_refused(alloc: Global, source: &[u8], at: u32, words: &str) -> bool {
    match fault_of(alloc, source) {
        Some(fault) => fault.at() == Some(at) && fault.words() == words,
        None => false,
    }
}

#[test]
fn refuses(rt: HostRuntime) {
    let mut row = 0u32;
    for (source, at, words) in &REFUSED {
        assert!(rt; is_refused(rt.alloc(), *source, *at, *words), "row {row}");
        row = row.wrapping_add(1);
    }
}

#[test]
fn accepts_constants(rt: HostRuntime) {
    for (source, value, decimal, unsigned, longs) in &CONSTANTS {
        let want = TokenKind::Constant {
            value: *value,
            decimal: *decimal,
            unsigned: *unsigned,
            longs: *longs,
        };
        assert_eq!(rt;
            kind_of(rt.alloc(), *source),
            Some(want),
            "constant {value}"
        );
    }
}

#[test]
fn accepts_characters(rt: HostRuntime) {
    for (source, value) in &CHARACTERS {
        let want = TokenKind::Character { value: *value };
        assert_eq!(rt;
            kind_of(rt.alloc(), *source),
            Some(want),
            "character {value}"
        );
    }
}

#[test]
fn accepts_lists(rt: HostRuntime) {
    let mut row = 0u32;
    for (source, texts, kinds) in &LISTS {
        assert!(rt; is_list(rt.alloc(), *source, *texts, *kinds), "row {row}");
        row = row.wrapping_add(1);
    }
}

#[test]
fn tells_places(rt: HostRuntime) {
    let source = b"ab\r\nc\n";
    for (at, line, column) in &PLACES {
        if *at <= 6 {
            let place = Place {
                line: *line,
                column: *column,
            };
            assert_eq!(rt; place_of(source, *at), place);
        }
    }
    assert!(rt; quote(source, Span { start: 1, end: 5 }) == b"b\r\nc".as_slice());
}
