//! Texts that are refused, and all that is outside the language in them.

use mc_adapt::{Adapted, Fault, Reason, adapt};
use std::alloc::Global;

/// Texts, and what is outside: the byte at which it starts, why, and its bytes.
static REFUSED: [(&[u8], &[(u32, Reason, &[u8])]); 39] = [
    // words and punctuators
    (b"volatile int x;", &[(0, Reason::Word, b"volatile")]),
    (
        b"double f(float a);",
        &[(0, Reason::Word, b"double"), (9, Reason::Word, b"float")],
    ),
    (b"p->a", &[(1, Reason::Word, b"->")]),
    (b"int f(int a, ...);", &[(13, Reason::Word, b"...")]),
    (
        b"int a<:1:>;",
        &[(5, Reason::Word, b"<:"), (8, Reason::Word, b":>")],
    ),
    (
        b"void f(void) { asm(1); goto x; }",
        &[(15, Reason::Word, b"asm"), (23, Reason::Word, b"goto")],
    ),
    (b"int MCDC_H;", &[(4, Reason::Word, b"MCDC_H")]),
    (b"_Alignas(8) int x;", &[(0, Reason::Word, b"_Alignas")]),
    (b"int a = sizeof(int);", &[(8, Reason::Word, b"sizeof")]),
    // inline that is not of a static function
    (b"inline int f(void);", &[(0, Reason::Word, b"inline")]),
    (
        b"extern inline int f(void);",
        &[(7, Reason::Word, b"inline")],
    ),
    (
        b"static int a; inline int f(void);",
        &[(14, Reason::Word, b"inline")],
    ),
    (
        b"static int f(void) { } __inline int g(void);",
        &[(23, Reason::Word, b"__inline")],
    ),
    // attributes that mean something
    (
        b"int x __attribute__((packed));",
        &[(21, Reason::Attribute, b"packed")],
    ),
    (
        b"int x __attribute__((unused, mode(DI)));",
        &[(29, Reason::Attribute, b"mode")],
    ),
    (
        b"int x __attribute__((weak)), y __attribute__((__cleanup__(f)));",
        &[
            (21, Reason::Attribute, b"weak"),
            (46, Reason::Attribute, b"__cleanup__"),
        ],
    ),
    (
        b"__attribute__((vector_size(16))) int x;",
        &[(15, Reason::Attribute, b"vector_size")],
    ),
    (
        b"__attribute__((unuse)) int x;",
        &[(15, Reason::Attribute, b"unuse")],
    ),
    // brackets and a semicolon that are missing
    (b"__attribute__ int x;", &[(14, Reason::Bracket, b"int")]),
    (
        b"_Static_assert(1) int x;",
        &[(18, Reason::Bracket, b"int")],
    ),
    (b"__attribute__((unused)", &[(22, Reason::Bracket, b"")]),
    (b"_Static_assert", &[(14, Reason::Bracket, b"")]),
    (b"_Static_assert)", &[(14, Reason::Bracket, b")")]),
    // what is no type after register and auto
    (
        b"void f(void) { auto x = 5; }",
        &[(22, Reason::NoType, b"=")],
    ),
    (
        b"void f(void) { register x; }",
        &[(25, Reason::NoType, b";")],
    ),
    (b"void f(register) { }", &[(15, Reason::NoType, b")")]),
    // pointers
    (b"int *p;", &[(4, Reason::Pointer, b"*")]),
    (
        b"int f(const int *a, int *b);",
        &[(16, Reason::Pointer, b"*"), (24, Reason::Pointer, b"*")],
    ),
    (
        b"void f(void) { g(&x); *p = 1; }",
        &[(17, Reason::Pointer, b"&"), (22, Reason::Pointer, b"*")],
    ),
    (
        b"void **p;",
        &[(5, Reason::Pointer, b"*"), (6, Reason::Pointer, b"*")],
    ),
    // strings, floating constants
    (b"f(\"a\\\"b\");", &[(2, Reason::Text, b"\"a\\\"b\"")]),
    (
        b"x = 1.5 + .5e-3f + 0x1p3;",
        &[
            (4, Reason::Floating, b"1.5"),
            (10, Reason::Floating, b".5e-3f"),
            (19, Reason::Floating, b"0x1p3"),
        ],
    ),
    // what is no token
    (b"int x; /* a", &[(7, Reason::OpenComment, b"/* a")]),
    (b"f(\"a\n);", &[(2, Reason::OpenText, b"\"a")]),
    (b"x = 'a\\'", &[(4, Reason::OpenText, b"'a\\'")]),
    (
        b"#include <a.h>\n#define A\n",
        &[
            (0, Reason::Directive, b"#include <a.h>"),
            (15, Reason::Directive, b"#define A"),
        ],
    ),
    (b"#line A\n", &[(0, Reason::Directive, b"#line A")]),
    (
        b"a # 1 $ \\\n @",
        &[
            (2, Reason::Byte, b"#"),
            (6, Reason::Byte, b"$"),
            (8, Reason::Byte, b"\\"),
            (11, Reason::Byte, b"@"),
        ],
    ),
    // all in one call, in the order of the text
    (
        b"inline double f(void) { return \"a\"[0] * 1.5; } int *x __attribute__((packed, weak));",
        &[
            (0, Reason::Word, b"inline"),
            (7, Reason::Word, b"double"),
            (31, Reason::Text, b"\"a\""),
            (40, Reason::Floating, b"1.5"),
            (51, Reason::Pointer, b"*"),
            (69, Reason::Attribute, b"packed"),
            (77, Reason::Attribute, b"weak"),
        ],
    ),
];

fn is_same(fault: &Fault<'_>, at: u32, reason: Reason, text: &[u8]) -> bool {
    fault.at == at && fault.reason == reason && fault.text == text
}

fn are_same(faults: &[Fault<'_>], wanted: &[(u32, Reason, &[u8])]) -> bool {
    let mut left = wanted;
    for fault in faults {
        let [(at, reason, text), others @ ..] = left else {
            return false;
        };
        if !is_same(fault, *at, *reason, *text) {
            return false;
        }
        left = others;
    }
    left.is_empty()
}

/// Whether this is all that is outside.
fn is_refused(alloc: Global, source: &[u8], wanted: &[(u32, Reason, &[u8])]) -> bool {
    if source.len() > 200 {
        return false;
    }
    match adapt(alloc, source) {
        Ok(Adapted::Refused(faults)) => are_same(&faults, wanted),
        _ => false,
    }
}

#[test]
fn refuses(rt: HostRuntime) {
    let mut row = 0u32;
    for (source, wanted) in &REFUSED {
        assert!(rt; is_refused(rt.alloc(), *source, *wanted), "row {row}");
        row = row.wrapping_add(1);
    }
}
