//! How many mutants a program may have.

use crate::run::{Want, gives};
use std::alloc::{AllocError, Global};
use std::thread::Threads;
use tests_memory::Fail;

const HEADER: &str = "test,call,arguments,inputs,expect,output\n";

/// Adds a text, which is made with `format!`, and lets it go.
fn push(text: &mut String, made: Result<String, AllocError>) -> Result<(), Fail> {
    let more = made?;
    let pushed = text.push_str(more.as_str());
    drop(more);
    Ok(pushed?)
}

// A source with so many decisions of one condition, each with four mutants.
fn many_decisions(alloc: Global, count: u32) -> Result<String, Fail> {
    let mut source = String::from_str(alloc, "int f(int a){")?;
    for _decision in 0..count {
        source.push_str("\nif(a<1);")?;
    }
    source.push_str("\nreturn a;}")?;
    Ok(source)
}

// What is written of 4,096 mutants that all survive.
fn all_survive(alloc: Global) -> Result<String, Fail> {
    let mut text = String::new(alloc);
    for before in 0..1024_u32 {
        let line = before + 2;
        let first = 4 * before;
        let (m1, m2, m3, m4) = (first + 1, first + 2, first + 3, first + 4);
        push(
            &mut text,
            format!(in alloc; "M{m1} {line}:4 negated survived\n"),
        )?;
        push(
            &mut text,
            format!(in alloc; "M{m2} {line}:4 true survived\n"),
        )?;
        push(
            &mut text,
            format!(in alloc; "M{m3} {line}:4 false survived\n"),
        )?;
        push(
            &mut text,
            format!(in alloc; "M{m4} {line}:4 shifted survived\n"),
        )?;
    }
    text.push_str("mutants killed 0 survived 4096 of 4096\n")?;
    Ok(text)
}

// Whether so many decisions give this with these tests.
fn gives_many<R: Threads + Sync>(
    rt: &R,
    alloc: Global,
    count: u32,
    tests: &str,
    want: Want<'_>,
) -> Result<bool, Fail> {
    let source = many_decisions(alloc, count)?;
    let given = gives(rt, alloc, source.as_bytes(), tests.as_bytes(), want);
    drop(source);
    given
}

#[test]
fn most_mutants(rt: HostRuntime) -> Result<(), Fail> {
    let alloc = rt.alloc();
    let text = all_survive(alloc)?;
    // The changed decisions have no effect, so a test kills none either.
    let one = "test,call,arguments,inputs,expect,output\nt1,f,1,,,\n";
    let without = gives_many(&rt, alloc, 1024, HEADER, (1, text.as_bytes(), b""));
    let with = gives_many(&rt, alloc, 1024, one, (1, text.as_bytes(), b""));
    drop(text);
    assert!(rt; without? && with?);
    Ok(())
}

// The tests are judged before the mutants are counted.
#[test]
fn too_many_mutants(rt: HostRuntime) -> Result<(), Fail> {
    let alloc = rt.alloc();
    let line = b"mcdc: too many mutants 4100\n";
    assert!(rt; gives_many(&rt, alloc, 1025, HEADER, (10, b"", line))?);
    let bad = "test,call,arguments,inputs,expect,output\nt1,g,1,,,\n";
    let fault = b"mcdc: tests record 2: function\n";
    assert!(rt; gives_many(&rt, alloc, 1025, bad, (4, b"", fault))?);
    Ok(())
}
