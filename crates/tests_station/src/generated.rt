//! Runs whose files or texts are put together: many tests, many functions, and a long output.

use crate::run::{HEADER, Want, gives, of_files, plain};
use crate::text::push;
use std::alloc::Global;
use std::thread::Threads;
use tests_memory::Fail;

/// A header, and as many tests of `f` with the two lowest bits of their number as arguments.
pub fn many_tests(alloc: Global, count: u32) -> Result<String, Fail> {
    let mut tests = String::from_str(alloc, HEADER)?;
    for before in 0..count {
        let j = before + 1;
        let first = j % 2;
        let second = j / 2 % 2;
        push(
            &mut tests,
            format!(in alloc; "t{j},f,{first} {second},,,\n"),
        )?;
    }
    Ok(tests)
}

/// Adds the lines of 130 such tests of `a&&b`.
pub fn push_lines(alloc: Global, out: &mut String) -> Result<(), Fail> {
    for j in 1..131 {
        let value = if j % 4 == 3 { 1 } else { 0 };
        push(
            out,
            format!(in alloc; "test t{j} pass values {value} output\n"),
        )?;
    }
    Ok(())
}

/// The lines of these tests, and those of the vectors.
fn lines_of_tests(alloc: Global) -> Result<String, Fail> {
    let mut out = String::new(alloc);
    push_lines(alloc, &mut out)?;
    out.push_str("D1 TT=T by t3\nD1 TF=F by t1\nD1 F-=F by t2\n")?;
    Ok(out)
}

fn are_least<R: Threads + Sync>(rt: &R, alloc: Global, tests: &str) -> Result<bool, Fail> {
    let out = lines_of_tests(alloc)?;
    let mut setting = plain(b"int f(int a,int b){return a&&b;}", tests.as_bytes());
    setting.room = 65536;
    let is_wanted = gives(rt, alloc, &setting, (0, out.as_bytes(), b""));
    drop(out);
    is_wanted
}

#[test]
fn least_of_many_tests(rt: HostRuntime) -> Result<(), Fail> {
    let tests = many_tests(rt.alloc(), 130)?;
    assert!(rt; are_least(&rt, rt.alloc(), tests.as_str())?);
    Ok(())
}

/// A decision of 4,095 paths.
const PATHS: &str =
    "(a||b)&&(a||b)&&(a||b)&&(a||b)&&(a||b)&&(a||b)&&(a||b)&&(a||b)&&(a||b)&&(a||b)&&(a||b)";

fn many_functions(alloc: Global, functions: u32) -> Result<String, Fail> {
    let mut source = String::new(alloc);
    for before in 0..functions {
        let k = before + 1;
        push(
            &mut source,
            format!(in alloc; "int f{k}(int a,int b){{return {PATHS};}}"),
        )?;
    }
    Ok(source)
}

fn tests_of_first(alloc: Global, count: u32) -> Result<String, Fail> {
    let mut tests = String::from_str(alloc, HEADER)?;
    for j in 0..count {
        push(&mut tests, format!(in alloc; "t{j},f1,1 1,,,\n"))?;
    }
    Ok(tests)
}

/// Whether these words are refused for a program of this number of functions with such a decision,
/// under this number of tests.
fn is_too_large<R: Threads + Sync>(
    rt: &R,
    alloc: Global,
    words: &str,
    functions: u32,
    count: u32,
    status: u8,
    line: &str,
) -> Result<bool, Fail> {
    let source = many_functions(alloc, functions)?;
    let tests = tests_of_first(alloc, count)?;
    let setting = of_files(words, source.as_bytes(), tests.as_bytes(), b"[]");
    let is_wanted = gives(rt, alloc, &setting, (status, b"", line.as_bytes()));
    drop(tests);
    drop(source);
    is_wanted
}

const TOO_LARGE: &str = "mcdc: matrix needs 1311360 words\n";

#[test]
fn sizes_of_maps_and_matrices(rt: HostRuntime) -> Result<(), Fail> {
    let words = "vectors|s.c|t.csv";
    assert!(rt; is_too_large(&rt, rt.alloc(), words, 5, 4096, 9, TOO_LARGE)?);
    let bits = "mcdc: source: too many bits 65568\n";
    assert!(rt; is_too_large(&rt, rt.alloc(), words, 16, 0, 3, bits)?);
    assert!(rt; is_too_large(&rt, rt.alloc(), "instrument|s.c", 16, 0, 3, bits)?);
    Ok(())
}

/// Words with a file of justifications that is not there.
static JUSTIFIED: [&str; 2] = [
    "report|s.c|t.csv|--justify|u.json",
    "list|--justify|u.json|s.c|t.csv",
];

/// The load that fails, the status and the line, where the matrix does not fit: the source is asked
/// for, then the tests, and no third file.
static LOADS: [(u32, u8, &str); 4] = [
    (0, 9, TOO_LARGE),
    (1, 6, "mcdc: cannot read s.c\n"),
    (2, 6, "mcdc: cannot read t.csv\n"),
    (3, 9, TOO_LARGE),
];

fn asks_for_two<R: Threads + Sync>(
    rt: &R,
    alloc: Global,
    words: &str,
    source: &str,
    tests: &str,
) -> Result<bool, Fail> {
    let mut setting = of_files(words, source.as_bytes(), tests.as_bytes(), b"[]");
    for (load, status, line) in &LOADS {
        setting.failing_load = *load;
        let want: Want<'_> = (*status, b"", line.as_bytes());
        if !gives(rt, alloc, &setting, want)? {
            return Ok(false);
        }
    }
    Ok(true)
}

#[test]
fn a_matrix_that_does_not_fit_is_told_before_justifications(rt: HostRuntime) -> Result<(), Fail> {
    let source = many_functions(rt.alloc(), 5)?;
    let tests = tests_of_first(rt.alloc(), 4096)?;
    for words in &JUSTIFIED {
        let is_wanted = asks_for_two(&rt, rt.alloc(), words, source.as_str(), tests.as_str())?;
        assert!(rt; is_wanted, "{words}");
    }
    Ok(())
}

const COUNTS_DOWN: &str = "void mcdc_out(int v);void f(int n){while(n>0){mcdc_out(n);n--;}}";

/// Adds the 4,096 numbers from one on, downwards, each after a space.
fn push_down(alloc: Global, text: &mut String, first: u32) -> Result<(), Fail> {
    for turn in 0..4096_u32 {
        let number = first.saturating_sub(turn);
        push(text, format!(in alloc; " {number}"))?;
    }
    Ok(())
}

fn lines_of_outputs(alloc: Global) -> Result<String, Fail> {
    let mut out = String::from_str(alloc, "test t1 pass values void output")?;
    push_down(alloc, &mut out, 4096)?;
    out.push_str("\ntest t2 output-full values output")?;
    push_down(alloc, &mut out, 4097)?;
    out.push_str("\nD1 T=T by t1\nD1 F=F by t1\n")?;
    Ok(out)
}

fn is_full<R: Threads + Sync>(rt: &R, alloc: Global, out: &str) -> Result<bool, Fail> {
    let tests = format!(in alloc; "{HEADER}t1,f,4096,,,\nt2,f,4097,,,\n")?;
    let mut setting = plain(COUNTS_DOWN.as_bytes(), tests.as_bytes());
    setting.room = 65536;
    let is_wanted = gives(rt, alloc, &setting, (1, out.as_bytes(), b""));
    drop(tests);
    is_wanted
}

#[test]
fn a_full_output(rt: HostRuntime) -> Result<(), Fail> {
    let out = lines_of_outputs(rt.alloc())?;
    assert!(rt; is_full(&rt, rt.alloc(), out.as_str())?);
    Ok(())
}
