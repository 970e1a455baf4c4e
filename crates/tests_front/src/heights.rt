//! Heights of trees, counted by hand: each expression, pair of parentheses round one, statement,
//! initializer and list of members or enumerators counts one level.

use crate::reading::{Fail, Outcome, judged};
use std::alloc::Global;

/// Sources and the heights of their trees.
static HEIGHTS: [(&[u8], u32); 55] = [
    (b"", 0),
    (b"int a;", 0),
    (b"int f(int a, int b);", 0),
    (b"int a = 1;", 2),
    (b"int a[2] = { 1, 2 };", 3),
    (b"int a[1][2];", 1),
    (b"int f(int a[1 + 1]);", 2),
    (b"struct S { int a; };", 1),
    (b"struct S { int a[2]; };", 2),
    (b"struct S { struct { int a; } b; } s;", 2),
    (b"enum { A };", 1),
    (b"enum { A = 1 };", 2),
    (b"int f(void) {}", 1),
    (b"int f(void) { ; }", 2),
    (b"int f(void) { return; }", 2),
    (b"int f(void) { return 1; }", 3),
    (b"int f(int a) { a; }", 3),
    (b"int f(int a) { (a); }", 4),
    (b"int f(int a) { !a; }", 4),
    (b"int f(int a) { a++; }", 4),
    (b"int f(int a) { a.b; }", 4),
    (b"int f(int a) { a = a; }", 4),
    (b"int f(int a) { a[a]; }", 4),
    (b"int f(int a) { a ? a : a; }", 4),
    (b"int f(int a) { a, a, a; }", 4),
    (b"int f(int a) { f(); }", 3),
    (b"int f(int a) { f(1, 2); }", 4),
    (b"int f(int a) { a + a + a; }", 5),
    (b"int f(int a) { a + (a + a); }", 6),
    (b"int f(int a) { (enum { A, B = 1 })a; }", 5),
    (b"int f(int a) { int b = 1; }", 3),
    (b"int f(int a) { if (a) ; else { ; } }", 4),
    (b"int f(int a) { switch (a) { case 1: ; } }", 5),
    (b"int f(int a) { while (a) ; }", 3),
    (b"int f(int a) { do ; while (a + a); }", 4),
    (b"int f(int a) { for (int i = 0; ; ) ; }", 4),
    (b"int f(int a) { for (; ; a) ; }", 3),
    (b"int f(int a) { for (; a + a; ) ; }", 4),
    (b"int f(int a) { x: ; }", 3),
    // how operators group: otherwise the height would be another
    (b"int f(int a) { a * a + a * a; }", 5),
    (b"int f(int a) { a + a << a + a; }", 5),
    (b"int f(int a) { a << a < a << a; }", 5),
    (b"int f(int a) { a < a == a < a; }", 5),
    (b"int f(int a) { a == a & a == a; }", 5),
    (b"int f(int a) { a & a ^ a & a; }", 5),
    (b"int f(int a) { a ^ a | a ^ a; }", 5),
    (b"int f(int a) { a | a && a | a; }", 5),
    (b"int f(int a) { a && a || a && a; }", 5),
    (b"int f(int a) { !a + a * a; }", 5),
    (b"int f(int a) { (int)a + a * a; }", 5),
    (b"int f(int a) { a = a, a = a; }", 5),
    (b"int f(int a) { a = a ? a : a; }", 5),
    // the nearest `if` has the `else`
    (b"int f(int a) { if (a) if (a) ; else { ; } }", 5),
    // a cast where the name is that of a typedef, and else a subtraction
    (b"typedef int T; int f(int a) { (T)-(1); }", 6),
    (b"int f(int T) { (T)-(1); }", 5),
];

/// Whether the tree of this source has this height.
fn has_height(alloc: Global, source: &[u8], wanted: u32) -> Result<bool, Fail> {
    match judged(alloc, source, 200)? {
        Outcome::Read { height, .. } => Ok(height == wanted),
        _ => Ok(false),
    }
}

/// The first row, counted from 0, whose tree has another height.
fn odd_row(alloc: Global) -> Result<Option<usize>, Fail> {
    let mut row = 0usize;
    for (source, height) in &HEIGHTS {
        if !has_height(alloc, *source, *height)? {
            return Ok(Some(row));
        }
        row = row.wrapping_add(1);
    }
    Ok(None)
}

#[test]
fn heights(rt: HostRuntime) -> Result<(), Fail> {
    assert_eq!(rt; odd_row(rt.alloc())?, None);
    Ok(())
}
