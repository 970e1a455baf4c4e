//! What the grammar reads, and beside each text one that it does not read (docs/LANGUAGE.md, C17
//! 6.5 to 6.9).
//!
//! A row is the beginning of a text, an ending with which it is read, and one with which it is not,
//! with `@` between them: the fault stands at the first token of that ending. A line with `#` tells
//! what follows.

use crate::reading::{Fail, Outcome, joined, judged};
use std::alloc::Global;

/// Expressions, as statements of a function.
const EXPRESSIONS: &str = "\
# primary expressions and calls
@a@]
@1@)
@'a'@:
(@a)@)
(a@)@]
(a, @a)@)
a(@)@,)
a(a@)@]
a(a @, a)@a)
a(a, @a = a)@)
1@@(a)
(a)@@(a)
a(a)@@(a)
a[a]@@(a)
a.b@@(a)
# suffixes
a[@a]@]
a[a@]@)
a[a, @a]@]
a. @b@1
a(a).@b@(b)
a @++@a
a[a].b @--@1
a++ @++@a
# operators before an operand
++@a@)
--@a@]
++@-a@/a
++(@a)@int)a
+@a@]
-@a@)
~@a@:
!@a@;
*@a@/a
&@a@|a
!(int)@a@;
- @-a@=a
# casts
(@int)a@static int)a
(int @)a@a)
(int @*)a@[1])a
(int *@)a@a)
(int)@(int)a@{1}
(int)@-a@/a
(unsigned @long)a@struct S)a
(struct S@)a@;
(enum E @)a@1)a
(int)a @@= a
# operators between operands
a * @a@;
a / @a@/ a
a % @a@% a
a + @a@/ a
a - @a@]
a << @a@< a
a >> @a@> a
a < @a@= a
a > @a@= a
a <= @a@= a
a >= @a@= a
a == @a@= a
a != @a@= a
a & @a@^ a
a ^ @a@^ a
a | @a@| a
a && @a@|| a
a || @a@| a
a + a @* a@= a
# the conditional operator
1 @? a : a@: a
a ? @a, a : a@: a
a ? a @: a@;
a ? a : @a ? a : a@;
a ? a ? a : a @: a@;
a ? a = a @: a@)
a ? a : a @, a@= a
# assignments
a = @a = a@= a
a *= @a@= a
a /= @a@= a
a %= @a@= a
a += @a@= a
a -= @a@= a
a <<= @a@= a
a >>= @a@= a
a &= @a@= a
a ^= @a@= a
a |= @a@= a
-a @= a@a
1 = @a@;
# commas
a, @a = a@;
a @, a, a@a
";

/// Statements and local declarations, in a function.
const STATEMENTS: &str = "\
# blocks, expression statements and null statements
@;@)
a@;@
{ a; @}@)
{@{} }@else ; }
{ int b; @b = 1; int c; }@else ; }
# `if`
if @(a) ;@a;
if (@a, a) ;@) ;
if (a@) ;@;
if (a) @;@int b;
if (a) @if (a) ; else ;@else ;
@if (a) ; else ;@else ;
if (a) ; else @{}@int b;
if (a) ; else ; @@else ;
if (a) if (a) ; else ; @else ;@)
if (a) if (a) ; else ; else ; @@else ;
if (a) { if (a) ; } @else ;@)
# `switch` and labels
switch @(a) ;@{}
switch (@a) {}@) {}
switch (a) @{ case 1: ; default: ; }@int b;
case @1: ;@: ;
case 1@: ;@, 2: ;
case a @? a : a: ;@= a: ;
case 1: @case 2: default: ;@int b;
case 1:@ a;@
default@: ;@;
default @: a;@1: ;
default: @;@int b;
x: @y: a;@int b;
x:@ ;@
# loops
while @(a) ;@a;
while (@a, a) ;@) ;
while (a) @a;@int b;
do @; while (a);@int b; while (a);
do ; @while (a);@if (a);
do ; while @(a);@a;
do ; while (@a);@);
do { a; } while (a) @;@a;
for @(;;) ;@[;;) ;
for (@;;) ;@) ;
for (@a;;) ;@static int i;;) ;
for (@int i = 0, j = 0; i < j; i++) ;@extern int i;;) ;
for (@const int i = 0;;) ;@typedef int i;;) ;
for (a@; a; a) ;@) ;
for (int i@;;) ;@) ;
for (int i;@;) ;@) ;
for (;@a;) ;@) ;
for (;@;) ;@int i;) ;
for (;;@a) ;@;) ;
for (;;@) ;@int i) ;
for (a, a; a, a; @a, a) ;@, a) ;
for (;;) @a;@int b;
# jumps
goto @x;@1;
goto x @;@+ 1;
break @;@a;
continue @;@a;
return @;@int;
return @a;@= a;
return a @, a;@a;
# local declarations
@int b;@typedef int b;
@static int b;@extern int b;
static @const int b = 1;@static int b;
const @int b;@b;
int b @;@c;
int b @= 1;@== 1;
int b = @a = a;@;
int b = 1, @c, d = 2;@= 2;
int b, @c;@;
int b[@];@, 1];
int b[a @? a : a];@= 1];
int b[1]@[2];@(int);
int b[1]@[];@(void);
int g(int)@;@[1];
int g(void) @, b;@{}
int @b;@(b);
int *@*b;@const b;
int *@b;@;
struct S { int m; } @s;@{ int m; } s;
enum { A } @e;@1;
# initializers
int b = {@1 };@};
int b = { 1 @, };@2 };
int b = { 1,@ };@, };
int b = { 1,@ 2 };@;
int b = { 1 @};@;
int b = { { 1 } @, { 2 }, };@{ 2 } };
int b = { a @= a };@: 1 };
int b = { @a };@.a = 1 };
int b = { @{ 1 } };@[0] = 1 };
# what is no declaration in C either
int b = 1 @+ 1;@2;
int b = @(a, a);@, a;
int b = (@int)1;@);
unsigned @b;@= 1;
struct S @b;@= 1;
enum E @b;@1;
int b @, *c, d[2];@* c;
a * @b;@int b;
a @= a;@b;
";

/// Whole sources.
const SOURCES: &str = "\
# items
@@;
@int a;@a;
@int;@1
int@;@
int a @;@b;
int a@, b = 1;@
int a, @b;@;
int a @= 1;@{}
int a[@], b[2][3];@static 2];
int f(void) @;@int a; {}
int f(void) @{}@+ 1;
int f(void) @= 1;@a;
int f(void), @a;@{}
int a, f(void) @;@1
int f(void) {} @int a;@;
int f(void) {@}@
int f(void){return 1@;}@
int *f(void) @{ return a; }@* {}
static int f(void) @{}@static
typedef int f(void) @;@{}
# parameters
int f(@);@a);
int f(@int);@, int);
int f(@void a);@static int a);
int f(const@ int);@);
int f(int @, int);@int);
int f(int, @int) {}@);
int f(int a @);@b);
int f(int a@[]);@(int));
int f(int a[@3]);@, 3]);
int f(int a[2]@[b ? 1 : 2]);@= 1);
int f(int @[2], int []);@(int));
int f(int *@a) { return a; }@const a);
int f(void @, int);@int);
int f(void *@);@(int));
int f(int a) @{ return a; }@int a; { }
# structures
struct @S;@1;
struct S @{ int a; };@[1];
struct S { @int a; };@} s;
struct { @const int a; };@static int a; };
struct { @struct { int c; } d; };@typedef int c; };
struct { int @a; };@; };
struct { int a @; };@= 1; };
struct { int a@, *b, c[2]; };@: 1; };
struct { int a, @b; };@; };
struct { int f(void) @; };@{} };
struct { int a; @} s;@2 } s;
struct { int a; int @b; } s, t;@} s;
struct { int a; } @s = { 1 };@{}
# enumerations
enum @E;@;
enum @E { A };@1;
enum { @A };@} e;
enum { @A } e;@1 };
enum { A @= 1 };@1 };
enum { A = @1 + 1 };@};
enum { A = b @? 1 : 2 };@= 1 };
enum { A@, };@; };
enum { A,@ B, };@, };
enum { A = 1, @};@= 2 };
# names of typedefs
typedef int T; @typedef T U; U a;@U a;
typedef int T; T @a; T f(T b) { T c; return (T)c; }@T;
typedef int T; int @a;@T;
typedef int T;int f(int @t){return 1;}@T){return 1;}
typedef int T, @U[(T)3]; U a;@T;
typedef int T[(T)@ + 3];@3];
typedef int T = (T)@3;@;
typedef int T; struct S { int @t; };@T; };
typedef int T; struct @T { int a; } b;@1;
typedef int T; enum @T { A };@1;
typedef int T; enum { @A };@T };
typedef int T; unsigned @a;@T;
typedef int T; const @T const a;@a;
typedef int T; void f(void) { int a = @(T)1; }@T; }
typedef int T; void f(void) { a.@b; }@T; }
typedef int T; void f(void) { goto @t; }@T; }
typedef int T; void f(void) { T@ a; }@: ; }
typedef int T; void f(void) { T @* x; }@= 1; }
void f(int T, int x) { T @* x; }@x; }
void f(int T) { (T)@ - 1; }@1; }
";

/// Which specifiers may stand together (C17 6.7.1, 6.7.2).
const SPECIFIERS: &str = "\
char @a;@int a;
signed char @a;@signed a;
char unsigned @a;@short a;
short @a;@long a;
signed short @a;@char a;
int short @a;@short a;
int signed short @a;@unsigned a;
unsigned short @a;@_Bool a;
int unsigned short @a;@int a;
int @a;@int a;
signed @a;@unsigned a;
int signed @a;@signed a;
unsigned @a;@unsigned a;
int unsigned @a;@char a;
long @a;@short a;
signed long @a;@void a;
int long @a;@struct S a;
int long signed @a;@enum E a;
unsigned long @a;@char a;
long int unsigned @a;@signed a;
long long @a;@long a;
long signed long @a;@short a;
long int long @a;@int a;
long int signed long @a;@long a;
unsigned long long @a;@_Bool a;
long int long unsigned @a;@unsigned a;
_Bool @a;@_Bool a;
void @f(void);@void f(void);
struct S @a;@struct S a;
enum E @a;@int a;
enum { A } @a;@struct S a;
static @int a;@extern int a;
extern @int a;@typedef int a;
typedef @int a;@static int a;
int static @a;@static a;
int const static @const a;@typedef a;
const @int const a;@= 1;
";

/// The place of the syntax fault of a source, or none where it is read.
fn fault(alloc: Global, parts: &[&str]) -> Result<Option<usize>, Fail> {
    let source = joined(alloc, parts)?;
    match judged(alloc, &source, 200)? {
        Outcome::NotTokens => Err(Fail),
        Outcome::Syntax { at } => Ok(Some(at)),
        Outcome::Read { .. } => Ok(None),
    }
}

/// Whether this is true of a row between two texts: its beginning is read with the first ending,
/// and with the other it is refused at the end of the beginning.
fn is_right<'x>(
    alloc: Global,
    row: &'x str,
    before: &'x str,
    after: &'x str,
) -> Result<bool, Fail> {
    let Some((front, endings)) = row.split_once('@') else {
        return Ok(row.starts_with('#'));
    };
    let Some((good, bad)) = endings.split_once('@') else {
        return Ok(false);
    };
    if fault(alloc, &[before, front, good, after])?.is_some() {
        return Ok(false);
    }
    let at = before.len().wrapping_add(front.len());
    Ok(fault(alloc, &[before, front, bad, after])? == Some(at))
}

/// The first row of a table that is not right.
fn odd_row<'x>(
    alloc: Global,
    table: &'x str,
    before: &'x str,
    after: &'x str,
) -> Result<Option<&'x str>, Fail> {
    for row in table.lines() {
        if !is_right(alloc, row, before, after)? {
            return Ok(Some(row));
        }
    }
    Ok(None)
}

/// Each table, and the texts between which its rows stand.
static TABLES: [(&str, &str, &str); 4] = [
    (EXPRESSIONS, "int f(int a){", ";}"),
    (STATEMENTS, "int f(int a){", "}"),
    (SOURCES, "", ""),
    (SPECIFIERS, "", ""),
];

#[test]
fn productions(rt: HostRuntime) -> Result<(), Fail> {
    for (table, before, after) in &TABLES {
        assert_eq!(rt; odd_row(rt.alloc(), *table, *before, *after)?, None);
    }
    Ok(())
}
