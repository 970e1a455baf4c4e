//! Texts, and what is written of them.

use mc_adapt::{Adapted, adapt};
use std::alloc::Global;

/// Texts, and what is written of them.
static WRITTEN: [(&[u8], &[u8]); 49] = [
    // no rule applies
    (b"", b""),
    (
        b"int f(void) { return 1; }\n",
        b"int f(void) { return 1; }\n",
    ),
    (
        b"int f(int a, int b);\r\n\t/* c */ // d\n",
        b"int f(int a, int b);\r\n\t/* c */ // d\n",
    ),
    (b"# 1 \"a.c\" 2\nint x;\n", b"# 1 \"a.c\" 2\nint x;\n"),
    (b"int a = 'x' * 2 & ~3;", b"int a = 'x' * 2 & ~3;"),
    (
        b"int a = b[1] * (c) * d-- & e;",
        b"int a = b[1] * (c) * d-- & e;",
    ),
    (b"int a = 0x1e+5;", b"int a = 0x1e+5;"),
    (b"int a='\\'';", b"int a='\\'';"),
    (b"int a=b/ c<<=d;", b"int a=b/ c<<=d;"),
    // inline (C17 6.7.4), after static
    (b"static inline int f(void);", b"static        int f(void);"),
    (
        b"static __inline int f(void);",
        b"static          int f(void);",
    ),
    (
        b"static int __inline__ f(void);",
        b"static int            f(void);",
    ),
    (
        b"static/**/inline/**/int f(void);",
        b"static/**/      /**/int f(void);",
    ),
    // register and auto (C17 6.7.1)
    (
        b"void f(register int a) { auto int b; }",
        b"void f(         int a) {      int b; }",
    ),
    (
        b"void f(register T a) { auto T b; }",
        b"void f(         T a) {      T b; }",
    ),
    (
        b"void f(void) { register const T a = 1; }",
        b"void f(void) {          const T a = 1; }",
    ),
    // restrict (C17 6.7.3), _Noreturn (C17 6.7.4), __extension__
    (b"int a[restrict];", b"int a[        ];"),
    (
        b"int a[__restrict], b[__restrict__];",
        b"int a[          ], b[            ];",
    ),
    (b"_Noreturn void f(void);", b"          void f(void);"),
    (
        b"__extension__ typedef long long L;",
        b"              typedef long long L;",
    ),
    // what only begins or ends so is a name
    (
        b"int inlined, reg_register, _Noreturns, __attribute__x;",
        b"int inlined, reg_register, _Noreturns, __attribute__x;",
    ),
    // _Static_assert (C17 6.7.10)
    (
        b"_Static_assert(sizeof(int) == 4, \"int\");int x;",
        b"                                        int x;",
    ),
    (
        b"_Static_assert (\n(1),\n\"a;)\"\n)\n;int x;",
        b"                \n    \n     \n \n int x;",
    ),
    (
        b"struct S { int a; _Static_assert(1, \"\"); };",
        b"struct S { int a;                        };",
    ),
    // attributes that change no value
    (
        b"int f(void) __attribute__((pure));",
        b"int f(void)                      ;",
    ),
    (
        b"int f(void) __attribute ((__pure__));",
        b"int f(void)                         ;",
    ),
    (
        b"void g(void) __attribute__((nonnull(1, 2), nothrow));",
        b"void g(void)                                        ;",
    ),
    (
        b"__attribute__((format(printf, 1, 2))) void g(void);",
        b"                                      void g(void);",
    ),
    (
        b"__attribute__(()) __attribute__((,unused,)) int x;",
        b"                                            int x;",
    ),
    (
        b"static int x __attribute__((visibility(\"default\")));",
        b"static int x                                       ;",
    ),
    (
        b"int f(void) __attribute__((/* why */ const\n));",
        b"int f(void)                /* why */      \n  ;",
    ),
    (
        b"__attribute__\n# 7 \"a.h\"\n((cold))int x;",
        b"             \n# 7 \"a.h\"\n        int x;",
    ),
    // one in the other
    (
        b"static __attribute__((always_inline)) inline int f(void);",
        b"static                                       int f(void);",
    ),
    (
        b"void f(register __attribute__((unused)) int a);",
        b"void f(                                 int a);",
    ),
    // #pragma (C17 6.10.6) and #line (C17 6.10.4)
    (b"#pragma once\nint x;\n", b"            \nint x;\n"),
    (
        b"  # pragma GCC diagnostic push\r\nint x;",
        b"                              \r\nint x;",
    ),
    (
        b"int f(int a,\n#pragma STDC FP_CONTRACT ON\nint b);",
        b"int f(int a,\n                           \nint b);",
    ),
    (b"#line 12 \"a.c\"\nint x;", b"#     12 \"a.c\"\nint x;"),
    (b" # line 7\nint x;", b" #      7\nint x;"),
    (b"/* a\n#pragma b\n*/int x;", b"/* a\n#pragma b\n*/int x;"),
    // T f() with a body becomes T f(void) (C17 6.7.6.3p14)
    (b"int f() { return 1; }", b"int f(void) { return 1; }"),
    (
        b"int f ( /* none */ )\n{ return 1; }",
        b"int f (void /* none */ )\n{ return 1; }",
    ),
    (
        b"static inline int f(){return g();}",
        b"static        int f(void){return g();}",
    ),
    (b"int f()\n# 3 \"a.c\"\n{}", b"int f(void)\n# 3 \"a.c\"\n{}"),
    (b"int f(__extension__) {}", b"int f(void             ) {}"),
    // a call and a declaration are none
    (
        b"int f(void) { if (g()) { } return h(); }",
        b"int f(void) { if (g()) { } return h(); }",
    ),
    (b"int f();", b"int f();"),
    (b"int f(a) { }", b"int f(a) { }"),
    (b"int f(void) {}", b"int f(void) {}"),
];

/// Whether the text is written so.
fn is_written(alloc: Global, source: &[u8], wanted: &[u8]) -> bool {
    if source.len() > 200 {
        return false;
    }
    match adapt(alloc, source) {
        Ok(Adapted::Text(text)) => text.as_slice() == wanted,
        _ => false,
    }
}

#[test]
fn writes(rt: HostRuntime) {
    let mut row = 0u32;
    for (source, wanted) in &WRITTEN {
        assert!(rt; is_written(rt.alloc(), *source, *wanted), "row {row}");
        row = row.wrapping_add(1);
    }
}

#[test]
fn writes_again_the_same(rt: HostRuntime) {
    let mut row = 0u32;
    for (_source, wanted) in &WRITTEN {
        assert!(rt; is_written(rt.alloc(), *wanted, *wanted), "row {row}");
        row = row.wrapping_add(1);
    }
}
