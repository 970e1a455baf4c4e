//! Constructs inside themselves, up to the greatest height of a tree and above it.
//!
//! A function's body, a statement, an expression, a pair of parentheses round one, an initializer
//! and a list of members or enumerators count one level each.

ghost use Rattle.std.specs.Prelude.{◌≤◌};

use crate::reading::{Fail, Outcome, judged};
use std::alloc::Global;

/// What stands before a construct and after it, and how many levels each of them counts.
type Level = (&'static [u8], &'static [u8], u32);

/// What stands before the constructs, in the innermost and after them, and how many levels these
/// count together.
type Frame = (&'static [u8], &'static [u8], &'static [u8], u32);

/// An expression statement; the body, the statement and the innermost name count.
const EXPRESSION: Frame = (b"int f(int a){", b"a", b";}", 3);

/// Expressions inside expressions.
static EXPRESSIONS: [Level; 28] = [
    (b"(", b")", 1),
    (b"+ ", b"", 1),
    (b"- ", b"", 1),
    (b"~", b"", 1),
    (b"!", b"", 1),
    (b"*", b"", 1),
    (b"& ", b"", 1),
    (b"++", b"", 1),
    (b"--", b"", 1),
    (b"a(", b")", 1),
    (b"a(1, ", b")", 1),
    (b"a[", b"]", 1),
    (b"", b"[1]", 1),
    (b"", b".b", 1),
    (b"", b"++", 1),
    (b"", b"+a", 1),
    (b"", b"&&a", 1),
    (b"a||(", b")", 2),
    (b"a?", b":a", 1),
    (b"a?a:", b"", 1),
    (b"(", b")?a:a", 2),
    (b"a=", b"", 1),
    (b"a+=", b"", 1),
    (b"(int)", b"", 1),
    (b"(int)(", b")", 2),
    (b"(a,", b")", 2),
    (b"a[a,", b"]", 2),
    (b"(enum{A=", b"})a", 2),
];

/// A null statement in a function; the body and the statement count.
const STATEMENT: Frame = (b"int f(int a){", b";", b"}", 2);

/// Statements inside statements.
static STATEMENTS: [Level; 16] = [
    (b"{", b"}", 1),
    (b"if(a)", b"", 1),
    (b"if(a)", b"else;", 1),
    (b"if(a);else ", b"", 1),
    (b"if(a){}else ", b"", 1),
    (b"if(a){", b"}", 2),
    (b"switch(a)", b"", 1),
    (b"switch(a){case 1:", b"}", 3),
    (b"while(a)", b"", 1),
    (b"do ", b"while(a);", 1),
    (b"for(;;)", b"", 1),
    (b"for(int i;a;a)", b"", 1),
    (b"case 1:", b"", 1),
    (b"default:", b"", 1),
    (b"x:", b"", 1),
    (b"{int b;", b"}", 1),
];

/// Initializers inside initializers; the innermost and its expression count.
const INITIALIZER: Frame = (b"int a=", b"1", b";", 2);

/// An initializer of a local declaration.
const LOCAL_INITIALIZER: Frame = (b"int f(int a){int b[]=", b"1", b";}", 3);

static INITIALIZERS: [Level; 2] = [(b"{", b"}", 1), (b"{1,", b",}", 1)];

/// Structures inside structures, whose declarations count no level.
const STRUCTURE: Frame = (b"", b"int", b" a;", 0);

/// Structures in a function, whose body counts.
const LOCAL_STRUCTURE: Frame = (b"int f(int a){", b"int", b" b;}", 1);

static STRUCTURES: [Level; 3] = [
    (b"struct{", b" a;}", 1),
    (b"struct S{int a;", b" *b[];}", 1),
    (b"struct{int f(", b" a);}", 1),
];

/// Openings of constructs in a function, far more than are within the greatest height.
static OPENINGS: [&[u8]; 22] = [
    b"(",
    b"{",
    b"[",
    b"a[",
    b"f(",
    b"- ",
    b"!",
    b"++",
    b"a?",
    b"a?a:",
    b"a=",
    b"(T)",
    b"(int)",
    b"if(a)",
    b"if(a);else ",
    b"while(a)",
    b"do ",
    b"for(;;)",
    b"switch(a)",
    b"case 1:",
    b"x:",
    b"int b={",
];

/// Openings outside functions.
static OUTER_OPENINGS: [&[u8]; 5] = [b"struct{", b"int f(", b"enum{A=", b"int a[", b"int a={"];

/// A source with so many constructs.
fn nested(alloc: Global, frame: Frame, level: Level, count: u32) -> Result<Vec<u8>, Fail> {
    let (before, middle, after, _) = frame;
    let (front, back, _) = level;
    let mut all = Vec::new(alloc);
    all.extend_from_slice(before)?;
    for _ in 0..count {
        all.extend_from_slice(front)?;
    }
    all.extend_from_slice(middle)?;
    for _ in 0..count {
        all.extend_from_slice(back)?;
    }
    all.extend_from_slice(after)?;
    Ok(all)
}

/// Whether so many constructs are read exactly where the height is within the limit, and have that
/// height.
fn is_right(alloc: Global, frame: Frame, level: Level, count: u32, limit: u32) -> Result<bool, Fail>
    requires { limit ≤ 800 }
{
    let (_, _, _, others) = frame;
    let (_, _, each) = level;
    let levels = count.wrapping_mul(each).wrapping_add(others);
    let source = nested(alloc, frame, level, count)?;
    match judged(alloc, &source, limit)? {
        Outcome::NotTokens => Ok(false),
        Outcome::Syntax { .. } => Ok(levels > limit),
        Outcome::Read { height, .. } => Ok(levels <= limit && height == levels),
    }
}

/// How many of these constructs are read within a limit.
fn most(frame: Frame, level: Level, limit: u32) -> u32 {
    let (_, _, _, others) = frame;
    let (_, _, each) = level;
    limit.saturating_sub(others).checked_div(each).unwrap_or(0)
}

/// Whether this construct is right at the greatest heights of both kinds of text.
fn is_right_level(alloc: Global, frame: Frame, level: Level) -> Result<bool, Fail> {
    let few = most(frame, level, 200);
    for count in [few, few.wrapping_add(1), 196, 197, 198, 199, 200, 201, 202] {
        if !is_right(alloc, frame, level, count, 200)? {
            return Ok(false);
        }
    }
    let many = most(frame, level, 800);
    for count in [many, many.wrapping_add(1), 799] {
        if !is_right(alloc, frame, level, count, 800)? {
            return Ok(false);
        }
    }
    Ok(true)
}

/// The first construct, counted from 0, that is not right.
fn odd_level(alloc: Global, frame: Frame, levels: &[Level]) -> Result<Option<usize>, Fail> {
    let mut row = 0usize;
    for level in levels {
        if !is_right_level(alloc, frame, *level)? {
            return Ok(Some(row));
        }
        row = row.wrapping_add(1);
    }
    Ok(None)
}

#[test]
fn counts_levels_of_expressions(rt: HostRuntime) -> Result<(), Fail> {
    let alloc = rt.alloc();
    assert_eq!(rt; odd_level(alloc, EXPRESSION, &EXPRESSIONS)?, None);
    Ok(())
}

#[test]
fn counts_levels_of_statements(rt: HostRuntime) -> Result<(), Fail> {
    let alloc = rt.alloc();
    assert_eq!(rt; odd_level(alloc, STATEMENT, &STATEMENTS)?, None);
    assert_eq!(rt; odd_level(alloc, INITIALIZER, &INITIALIZERS)?, None);
    assert_eq!(rt; odd_level(alloc, LOCAL_INITIALIZER, &INITIALIZERS)?, None);
    assert_eq!(rt; odd_level(alloc, STRUCTURE, &STRUCTURES)?, None);
    assert_eq!(rt; odd_level(alloc, LOCAL_STRUCTURE, &STRUCTURES)?, None);
    Ok(())
}

/// Whether 100,000 of these have no tree.
fn is_refused(alloc: Global, before: &'static [u8], front: &'static [u8]) -> Result<bool, Fail> {
    let source = nested(alloc, (before, b"", b"", 0), (front, b"", 0), 100_000)?;
    Ok(matches!(judged(alloc, &source, 200)?, Outcome::Syntax { .. }))
}

#[test]
fn refuses_openings(rt: HostRuntime) -> Result<(), Fail> {
    let alloc = rt.alloc();
    let mut row = 0u32;
    for front in &OPENINGS {
        let refused = is_refused(alloc, b"typedef int T;int f(int a){", *front)?;
        assert!(rt; refused, "row {row}");
        row = row.wrapping_add(1);
    }
    for front in &OUTER_OPENINGS {
        assert!(rt; is_refused(alloc, b"", *front)?, "row {row}");
        row = row.wrapping_add(1);
    }
    Ok(())
}
