//! Which tests files are accepted, and the limits of both files.

use crate::run::{HEADER, SOURCE, TESTS, Want, gives, plain};
use crate::text::{lines_of, padded, push};
use std::alloc::Global;
use std::thread::Threads;
use tests_memory::Fail;

const NAME_64: &str = "aaaaaaaaaaaaaaaabbbbbbbbbbbbbbbbccccccccccccccccdddddddddddddddd";

/// Whether a tests file of the header and these lines gives this.
fn lists<R: Threads + Sync>(
    rt: &R,
    alloc: Global,
    lines: &[u8],
    want: Want<'_>,
) -> Result<bool, Fail> {
    let mut tests = Vec::new(alloc);
    tests.extend_from_slice(HEADER.as_bytes())?;
    tests.extend_from_slice(lines)?;
    let mut setting = plain(SOURCE.as_bytes(), &tests);
    setting.room = 200000;
    let is_wanted = gives(rt, alloc, &setting, want);
    drop(tests);
    is_wanted
}

/// Whether a tests file of the header and these lines is refused with this record and fault.
fn is_refused<R: Threads + Sync>(
    rt: &R,
    alloc: Global,
    lines: &[u8],
    fault: &str,
) -> Result<bool, Fail> {
    let diag = format!(in alloc; "mcdc: tests record {fault}\n")?;
    let is_wanted = lists(rt, alloc, lines, (4, b"", diag.as_bytes()));
    drop(diag);
    is_wanted
}

/// What the run writes, and what follows the header of a tests file that is accepted. A vector is
/// the least test's that evaluates it. Here and below `$` is the end of a line.
const ACCEPTED: &str = "\
test t1 pass values 1 output$D1 TT=T by t1$@t1,f,1 1,,,
test t1 pass values 1 output$D1 TT=T by t1$@t1,f,1 1,,,$
test t1 pass values 1 output$D1 TT=T by t1$@t1,f,1 1,,,\r$
test t1 pass values 1 output$D1 TT=T by t1$@$t1,f,1 1,,,$$
test t1 pass values 1 output$D1 TT=T by t1$@\"t1\",\"f\",\"1 1\",\"\",\"\",\"\"$
test t1 pass values 1 output$D1 TT=T by t1$@t1,f,-1 2147483647,,,$
test t1 pass values 0 output$D1 TF=F by t1$@t1,f,-2147483648 0,,,$
test A_z-0.9 pass values 0 output$D1 F-=F by A_z-0.9$@A_z-0.9,f,0 0,,,$
test z pass values 0 output$test a pass values 0 output$D1 F-=F by z$@z,f,0 5,,,$a,f,0 6,,,$
";

fn is_accepted_row<R: Threads + Sync>(rt: &R, alloc: Global, row: &str) -> Result<bool, Fail> {
    let Some((out, lines)) = row.split_once('@') else {
        return Err(Fail);
    };
    let out = lines_of(alloc, out)?;
    let lines = lines_of(alloc, lines)?;
    let is_wanted = lists(rt, alloc, &lines, (0, &out, b""));
    drop(lines);
    drop(out);
    is_wanted
}

/// The record and its fault, and what follows the header of a tests file that is refused.
const REFUSED: &str = "\
2: number@t1,f,-0 1,,,$
2: number@t1,f,01 1,,,$
2: number@t1,f,+1 1,,,$
2: arguments@t1,f,2147483648 1,,,$
2: arguments@t1,f,-2147483649 1,,,$
2: number@t1,f,1  1,,,$
2: number@t1,f, 1 1,,,$
2: number@t1,f,1 1 ,,,$
2: text@t1,f,1\t1,,,$
2: arguments@t1,f,1,,,$
2: arguments@t1,f,1 1 1,,,$
2: arguments@t1,f,,,,$
2: number@t1,f,1 a,,,$
2: number@t1,f,1 -,,,$
2: text@t1,f,1 \01,,,$
2: text@t\01,f,1 1,,,$
2: text@t1,f,1 1,\0,,$
2: function@t1,g,1 1,,,$
2: function@t1,,1 1,,,$
2: text@,f,1 1,,,$
2: text@t 1,f,1 1,,,$
2: number@t1,f,1 1,2147483648,,$
2: number@t1,f,1 1,,a,$
2: number@t1,f,1 1,,,1 a$
2: width@t1,f,1 1,,$
2: width@t1,f,1 1,,,,$
4: name again@t1,f,1 1,,,$t2,f,1 0,,,$t1,f,1 1,,,$
";

fn is_refused_row<R: Threads + Sync>(rt: &R, alloc: Global, row: &str) -> Result<bool, Fail> {
    let Some((fault, lines)) = row.split_once('@') else {
        return Err(Fail);
    };
    let lines = lines_of(alloc, lines)?;
    let is_wanted = is_refused(rt, alloc, &lines, fault);
    drop(lines);
    is_wanted
}

/// The record and its fault, where there is one, and the whole tests file.
const HEADERS: &str = "\
@test,call,arguments,inputs,expect,output
@test,call,arguments,inputs,expect,output\r$
@\"test\",call,arguments,inputs,expect,output$
1: header@
1: header@$
1: header@t1,f,1 1,,,$
1: header@test,call,arguments,inputs,expect$
1: header@test,call,arguments,inputs,expect,output,$
1: header@test,call,arguments,expect,inputs,output$
1: header@Test,call,arguments,inputs,expect,output$
";

/// Whether a tests file without a test is accepted, or else has no header.
fn is_judged_row<R: Threads + Sync>(rt: &R, alloc: Global, row: &str) -> Result<bool, Fail> {
    let Some((fault, file)) = row.split_once('@') else {
        return Err(Fail);
    };
    let tests = lines_of(alloc, file)?;
    let setting = plain(SOURCE.as_bytes(), &tests);
    let want: Want<'_> = if fault.is_empty() {
        (0, b"", b"")
    } else {
        (4, b"", b"mcdc: tests record 1: header\n")
    };
    let is_wanted = gives(rt, alloc, &setting, want);
    drop(tests);
    is_wanted
}

#[test]
fn tests_files(rt: HostRuntime) -> Result<(), Fail> {
    for row in ACCEPTED.lines() {
        assert!(rt; is_accepted_row(&rt, rt.alloc(), row)?, "{row}");
    }
    for row in REFUSED.lines() {
        assert!(rt; is_refused_row(&rt, rt.alloc(), row)?, "{row}");
    }
    for row in HEADERS.lines() {
        assert!(rt; is_judged_row(&rt, rt.alloc(), row)?, "{row}");
    }
    Ok(())
}

/// Whether a test with a name of 64 bytes is accepted.
fn is_named<R: Threads + Sync>(rt: &R, alloc: Global, name: &str) -> Result<bool, Fail> {
    let line = format!(in alloc; "{name},f,1 1,,,\n")?;
    let out = format!(in alloc; "test {name} pass values 1 output\nD1 TT=T by {name}\n")?;
    let is_wanted = lists(rt, alloc, line.as_bytes(), (0, out.as_bytes(), b""));
    drop(out);
    drop(line);
    is_wanted
}

/// Whether a test with a name of one byte more is refused.
fn is_too_long<R: Threads + Sync>(rt: &R, alloc: Global, name: &str) -> Result<bool, Fail> {
    let line = format!(in alloc; "{name}e,f,1 1,,,\n")?;
    let is_wanted = is_refused(rt, alloc, line.as_bytes(), "2: text");
    drop(line);
    is_wanted
}

#[test]
fn length_of_names(rt: HostRuntime) -> Result<(), Fail> {
    assert!(rt; is_named(&rt, rt.alloc(), NAME_64)?);
    assert!(rt; is_too_long(&rt, rt.alloc(), NAME_64)?);
    Ok(())
}

/// 4,096 lines with their numbers.
fn numbered(alloc: Global, front: &str, back: &str) -> Result<String, Fail> {
    let mut text = String::new(alloc);
    for count in 0..4096_u32 {
        push(&mut text, format!(in alloc; "{front}{count}{back}"))?;
    }
    Ok(text)
}

fn are_most<R: Threads + Sync>(rt: &R, alloc: Global, lines: &str) -> Result<bool, Fail> {
    let mut out = numbered(alloc, "test t", " pass values 1 output\n")?;
    out.push_str("D1 TT=T by t0\n")?;
    let is_wanted = lists(rt, alloc, lines.as_bytes(), (0, out.as_bytes(), b""));
    drop(out);
    is_wanted
}

fn are_too_many<R: Threads + Sync>(
    rt: &R,
    alloc: Global,
    lines: &mut String,
) -> Result<bool, Fail> {
    lines.push_str("more,f,1 1,,,\n")?;
    is_refused(rt, alloc, lines.as_bytes(), "4098: limit")
}

#[test]
fn number_of_tests(rt: HostRuntime) -> Result<(), Fail> {
    let mut lines = numbered(rt.alloc(), "t", ",f,1 1,,,\n")?;
    assert!(rt; are_most(&rt, rt.alloc(), lines.as_str())?);
    assert!(rt; are_too_many(&rt, rt.alloc(), &mut lines)?);
    Ok(())
}

/// Whether files of these lengths give this.
fn is_limited<R: Threads + Sync>(
    rt: &R,
    alloc: Global,
    source: usize,
    tests: usize,
    status: u8,
    diag: &str,
) -> Result<bool, Fail> {
    let source = padded(alloc, SOURCE, b' ', source)?;
    let tests = padded(alloc, HEADER, b'\n', tests)?;
    let is_wanted = gives(
        rt,
        alloc,
        &plain(&source, &tests),
        (status, b"", diag.as_bytes()),
    );
    drop(tests);
    drop(source);
    is_wanted
}

/// Lengths of both files, and what the run gives.
static LENGTHS: [(usize, usize, u8, &str); 5] = [
    (1048576, 0, 0, ""),
    (1048577, 0, 3, "mcdc: s.c: longer than 1048576 bytes\n"),
    (0, 4194304, 0, ""),
    (0, 4194305, 4, "mcdc: t.csv: longer than 4194304 bytes\n"),
    (
        1048576,
        4194305,
        4,
        "mcdc: t.csv: longer than 4194304 bytes\n",
    ),
];

#[test]
fn lengths_of_files(rt: HostRuntime) -> Result<(), Fail> {
    for (source, tests, status, diag) in &LENGTHS {
        assert!(rt;
            is_limited(&rt, rt.alloc(), *source, *tests, *status, diag)?,
            "{source} {tests}"
        );
    }
    Ok(())
}

#[test]
fn faults_come_in_order(rt: HostRuntime) -> Result<(), Fail> {
    let source = b"int f(int a){return b;}".as_slice();
    let fault: Want<'_> = (3, b"", b"mcdc: source 1:21: undeclared\n");
    let mut setting = plain(source, b"");
    assert!(rt; gives(&rt, rt.alloc(), &setting, fault)?);
    setting.failing_load = 1;
    assert!(rt;
        gives(
            &rt,
            rt.alloc(),
            &setting,
            (6, b"", b"mcdc: cannot read s.c\n")
        )?
    );
    setting = plain(source, TESTS.as_bytes());
    assert!(rt; gives(&rt, rt.alloc(), &setting, fault)?);
    Ok(())
}
