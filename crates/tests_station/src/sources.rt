//! Which sources are accepted, and the lines for those that are not.

use crate::run::{HEADER, gives, is_refused, of_files, plain};
use crate::text::{lines_of, push};
use std::alloc::Global;
use std::thread::Threads;
use tests_memory::Fail;

/// A row is the place and the words of the line that refuses a source, or nothing where it is
/// accepted, or `?` for `syntax` at any place; and after `@` the source, in which `$` is the end of
/// a line. A line with `#` tells what follows.
const ROWS: &str = "\
# expressions
@int f(int a,int b,int c){return a&&b||c;}
@int f(int a,int b,int c){return !(!a);}
@int f(int a,int b,int c){return ((a))&&b;}
@int f(int a,int b,int c){return a&&0;}
@int f(int a,int b,int c){return a\x0b&&\x0cb\r$||\tc;}
@int f(int a,int b,int c){return a/* with */&&// a comment$b;}
@int f(int a,int b,int c){return 1&&2;}
@int f(int a,int b,int c){return (a<b)==a;}
@int f(int a,int b,int c){return a&&2147483648;}
@int f(int a,int b,int c){return a&&'a';}
@int f(int a,int b,int c){return a<<1|b;}
@int f(int a,int b,int c){return a?b:c;}
# expressions that have to be of type int, and are refused
 1:26: mismatch@int f(int a,int b,int c){return ;}
 1:36: undeclared@int f(int a,int b,int c){return a&&d;}
 1:33: mismatch@int f(int a,int b,int c){return a&&f;}
 1:36: mismatch@int f(int a,int b,int c){return a&&f(b);}
 1:36: syntax@int f(int a,int b,int c){return a&&;}
 1:33: syntax@int f(int a,int b,int c){return &&a;}
 1:38: syntax@int f(int a,int b,int c){return (a&&b;}
 1:37: syntax@int f(int a,int b,int c){return a&&b);}
 1:36: outside form pointer@int f(int a,int b,int c){return a&&&a;}
 1:36: syntax@int f(int a,int b,int c){return a===1;}
 1:33: outside form nested assignment@int f(int a,int b,int c){return a=1;}
 1:36: syntax@int f(int a,int b,int c){return a|||b;}
 1:33: outside form comma@int f(int a,int b,int c){return a,b;}
 1:35: syntax@int f(int a,int b,int c){return a b;}
# sources
@int f(int a){return(a<1);}
@$\t int\x0bf\x0c(int\ra)${ return!a ; } $
@int f(int a/*x*/,int b){return a&&b;}
@# 1 \"flap.c\"$int f(int a,int b){return a&&b;}
@
@/* nothing */$
@typedef int T;T f(T a){return !a;}
@int f(int a);
@static int f(int f){return !f;}int g;
# a place has no token, whatever else is wrong
 1:10: outside word@int f(){ float
 1:11: outside word@int f(int auto){return !auto;}
 1:11: outside word@int f(int mcdc_r){return !mcdc_r;}
 1:1: directive@#include <x.h>
 1:1: outside word@float x;
 1:22: outside word@int f(int p){return p->x;}
 1:8: token@int x; /* open
 1:9: constant too wide@int a = 18446744073709551616;
 1:22: byte@int f(int a){return a@1;}
 2:10: byte@int f(int a)${return a@1;}
 3:3: outside word@int x;$$  float y;
# no tree: where a reader would look, which no clause says
 1:1: syntax@intf(int a){return !a;}
 1:7: syntax@int f(inta){return !a;}
 1:13: syntax@int f(int a,){return !a;}
 1:11: syntax@int f(int return){return !return;}
 1:25: syntax@int f(int a){return !a;};
 1:23: syntax@int f(int a){return !a}
 1:24: syntax@int f(int a){return !a;
 1:21: syntax@int f(void){return 1
 2:1: syntax@int f(void){return 1$
 3:3: syntax@int f(int a)${ return !a;$} }
 1:18: syntax@int f(){return 1;
# no tree, where a reader might look at two places
?@typedef int T;int f(int T){return 1;}
?@int int(int a){return !a;}
?@int int x;
# a node that the profile leaves out; the first one answers
 1:7: outside form empty parameters@int f(){return 1;}
 1:5: outside form pointer@int *p;
 1:13: outside form pointer@int f(int a,int *b){return !a;}
 1:16: outside form nested assignment@int f(int a){a=a=1;return a;}
 1:21: outside form nested assignment@int f(int a){return a++;}
 1:21: outside form comma@int f(int a){return a,1;}
 1:14: outside form goto@int f(int a){goto b;}
 1:14: outside form goto@int f(int a){b:return a;}
 1:14: outside form switch shape@int f(int a){switch(a)return 1;}
 1:14: outside form local tag@int f(int a){struct s{int b;}c;}
 1:18: outside form local function@int f(int a){int g(int b);}
 1:12: outside form external object@extern int a;
 1:10: outside form const member@struct s{const int a;};
 1:5: outside form pointer@int *f();
 2:6: outside form pointer@int a;$ int *b;int f();
# a fault of names or types; the first one answers
 1:14: undeclared@int f(int a){returna<1;}
 1:21: undeclared@int f(int a){return b||c;}
 1:17: redeclared@int f(int a,int a){return !a;}
 1:5: redeclared@int mcdc_in(int a){return !a;}
 1:24: mismatch@int f(int a[1]){return !a;}
 1:13: mismatch@int f(void){return;}
 1:15: not constant@int n=1;int t[n];
 2:1: duplicate label@void f(int a){switch(a){case 1:;$case 1:;}}
 1:32: no body@int g(void);int f(void){return g();}
 1:5: type limit@int t[65537];
 1:5: type limit@int t[65536][65536]={0};
 1:27: outside form pointer@int f(void){return x;}int *p;
";

/// Whether a run with a tests file of no test refuses this source with this line, and so does one
/// that asks for no tests file.
fn is_refused_with<R: Threads + Sync>(
    rt: &R,
    alloc: Global,
    source: &[u8],
    line: &str,
) -> Result<bool, Fail> {
    let want: (u8, &[u8], &[u8]) = (3, b"", line.as_bytes());
    let by_vectors = gives(rt, alloc, &plain(source, HEADER.as_bytes()), want)?;
    let alone = of_files("instrument|s.c", source, b"", b"");
    Ok(by_vectors && gives(rt, alloc, &alone, want)?)
}

/// Whether a run with a tests file of no test accepts this source where there are no words, and
/// else refuses it with a line of them.
fn is_judged<R: Threads + Sync>(
    rt: &R,
    alloc: Global,
    source: &[u8],
    words: &str,
) -> Result<bool, Fail> {
    if words.is_empty() {
        let setting = plain(source, HEADER.as_bytes());
        return gives(rt, alloc, &setting, (0, b"", b""));
    }
    if words == "?" {
        return is_refused(rt, alloc, source, ": syntax\n");
    }
    let line = format!(in alloc; "mcdc: source{words}\n")?;
    let is_wanted = is_refused_with(rt, alloc, source, line.as_str());
    drop(line);
    is_wanted
}

fn is_right<R: Threads + Sync>(rt: &R, alloc: Global, row: &str) -> Result<bool, Fail> {
    let Some((words, text)) = row.split_once('@') else {
        return Ok(row.starts_with('#'));
    };
    let source = lines_of(alloc, text)?;
    let is_wanted = is_judged(rt, alloc, &source, words);
    drop(source);
    is_wanted
}

#[test]
fn sources(rt: HostRuntime) -> Result<(), Fail> {
    for row in ROWS.lines() {
        assert!(rt; is_right(&rt, rt.alloc(), row)?, "{row}");
    }
    Ok(())
}

/// Whether a source with a piece between two others, this number of times, is judged so.
fn is_repeated<R: Threads + Sync>(
    rt: &R,
    alloc: Global,
    front: &str,
    pieces: (&str, usize),
    back: &str,
    words: &str,
) -> Result<bool, Fail> {
    let (piece, times) = pieces;
    let mut source = String::from_str(alloc, front)?;
    for _turn in 0..times {
        source.push_str(piece)?;
    }
    source.push_str(back)?;
    let is_wanted = is_judged(rt, alloc, source.as_bytes(), words);
    drop(source);
    is_wanted
}

/// What is repeated, how often, what comes after it, and how the source is judged. All conditions
/// are counted before any paths.
static LARGE: [(&str, usize, &str, &str); 7] = [
    ("a&&", 63, "a;}", ""),
    ("a&&", 64, "a;}", " 1:21: too many conditions 65"),
    ("(a||a)&&", 10, "(a||a);}", ""),
    ("(a||a)&&", 11, "(a||a);}", " 1:21: too many paths 8191"),
    (
        "(a||a)&&",
        31,
        "(a||a);}",
        " 1:21: too many paths 8589934591",
    ),
    ("a<1^", 11, "a<1;}", ""),
    ("a<1^", 12, "a<1;}", " 1:21: too many paths 8192"),
];

#[test]
fn decisions_that_are_too_large(rt: HostRuntime) -> Result<(), Fail> {
    let front = "int f(int a){return ";
    for (piece, times, back, words) in &LARGE {
        let is_judged = is_repeated(&rt, rt.alloc(), front, (piece, *times), back, words)?;
        assert!(rt; is_judged, "{piece} {times}");
    }
    Ok(())
}

/// Whether a function with one parameter more than the text has is judged so.
fn has_room<R: Threads + Sync>(
    rt: &R,
    alloc: Global,
    text: &mut String,
    count: u32,
) -> Result<bool, Fail> {
    push(text, format!(in alloc; ",int p{count}"))?;
    let words = if count <= 16 { "" } else { " 1:5: type limit" };
    is_repeated(rt, alloc, text.as_str(), ("", 0), "){return !a;}", words)
}

#[test]
fn limit_of_parameters(rt: HostRuntime) -> Result<(), Fail> {
    let mut text = String::from_str(rt.alloc(), "int f(int a")?;
    for count in 2..18 {
        assert!(rt; has_room(&rt, rt.alloc(), &mut text, count)?, "{count}");
    }
    Ok(())
}

/// Whether a tree that would be too high is refused, where these numbers of parentheses are opened
/// and closed.
fn is_too_high<R: Threads + Sync>(
    rt: &R,
    alloc: Global,
    opened: usize,
    closed: usize,
) -> Result<bool, Fail> {
    let mut front = String::from_str(alloc, "int f(int a){return ")?;
    for _turn in 0..opened {
        front.push_str("(")?;
    }
    front.push_str("a")?;
    let is_wanted = is_repeated(rt, alloc, front.as_str(), (")", closed), ";}", "?");
    drop(front);
    is_wanted
}

#[test]
fn deep_parentheses(rt: HostRuntime) -> Result<(), Fail> {
    assert!(rt; is_too_high(&rt, rt.alloc(), 250, 250)?);
    assert!(rt; is_too_high(&rt, rt.alloc(), 100_000, 0)?);
    Ok(())
}
