//! One file for each fault, for each two faults that one record can have, and for two records.
use crate::limits::{LIMITS, write_out};
use crate::outcome::outcome;
use mc_tests::TestFault;
use mc_typed::Program;
use std::alloc::{AllocError, Global};
use std::process::Abort;
use std::test::Fail;

const HEADER: &str = "test,call,arguments,inputs,expect,output$";

/// A row for each file: its fault, or `none`, and after `@` its records. There `$` is a line feed,
/// `^` a carriage return and `?` the byte 255.
const RECORDS: &str = "\
# no fault: quoted fields, CR LF, blank lines, no line end after the last record
none@
none@t1,f,1 1,,,$
none@t1,f,1 1,,,
none@\"t1\",\"f\",\"1 1\",\"\",\"\",\"\"$
none@t1,f,1 1,,,^$t2,f,1 1,,,^$
none@$$t1,f,1 1,,,$$^$t2,f,1 1,,,$$
none@t1,f,1 1,,0,$
none@t1,f,1 1,,,none$
none@t1,f,1 1,,,5 -5$
none@t1,v,1,,,$t1,z,,1 2,5,$t2,z,,,,$
none@aZ09_-.,z,,,,$
none@aaaaaaaaaaaaaaaabbbbbbbbbbbbbbbbccccccccccccccccdddddddddddddddd,z,,,,$
none@t1,z,,,-9223372036854775808,$t2,z,,,18446744073709551615,$
none@t1,z,,-2147483648 2147483647,,-2147483648 2147483647$
# the ends of each parameter's type
none@t1,w,0 -128 -128 0 -32768 0 -2147483648 0 -9223372036854775808 0 -9223372036854775808 0,,,$
none@t1,w,1 127 127 255 32767 65535 2147483647 4294967295 9223372036854775807 18446744073709551615 9223372036854775807 18446744073709551615,,,$
# one beyond
2: arguments@t1,w,-1 0 0 0 0 0 0 0 0 0 0 0,,,$
2: arguments@t1,w,2 0 0 0 0 0 0 0 0 0 0 0,,,$
2: arguments@t1,w,0 -129 0 0 0 0 0 0 0 0 0 0,,,$
2: arguments@t1,w,0 128 0 0 0 0 0 0 0 0 0 0,,,$
2: arguments@t1,w,0 0 -129 0 0 0 0 0 0 0 0 0,,,$
2: arguments@t1,w,0 0 128 0 0 0 0 0 0 0 0 0,,,$
2: arguments@t1,w,0 0 0 -1 0 0 0 0 0 0 0 0,,,$
2: arguments@t1,w,0 0 0 256 0 0 0 0 0 0 0 0,,,$
2: arguments@t1,w,0 0 0 0 -32769 0 0 0 0 0 0 0,,,$
2: arguments@t1,w,0 0 0 0 32768 0 0 0 0 0 0 0,,,$
2: arguments@t1,w,0 0 0 0 0 -1 0 0 0 0 0 0,,,$
2: arguments@t1,w,0 0 0 0 0 65536 0 0 0 0 0 0,,,$
2: arguments@t1,w,0 0 0 0 0 0 -2147483649 0 0 0 0 0,,,$
2: arguments@t1,w,0 0 0 0 0 0 2147483648 0 0 0 0 0,,,$
2: arguments@t1,w,0 0 0 0 0 0 0 -1 0 0 0 0,,,$
2: arguments@t1,w,0 0 0 0 0 0 0 4294967296 0 0 0 0,,,$
2: arguments@t1,w,0 0 0 0 0 0 0 0 9223372036854775808 0 0 0,,,$
2: arguments@t1,w,0 0 0 0 0 0 0 0 0 -1 0 0,,,$
2: arguments@t1,w,0 0 0 0 0 0 0 0 0 0 9223372036854775808 0,,,$
2: arguments@t1,w,0 0 0 0 0 0 0 0 0 0 0 -1,,,$
# beyond each type there is no number
2: number@t1,w,0 0 0 0 0 0 0 0 -9223372036854775809 0 0 0,,,$
2: number@t1,w,0 0 0 0 0 0 0 0 0 18446744073709551616 0 0,,,$
2: number@t1,w,0 0 0 0 0 0 0 0 0 0 0 99999999999999999999999999999999999999999999,,,$
# 2, width
2: width@t1,f,1 1$
2: width@t1,f,1 1,,$
2: width@t1,f,1 1,,,,$
2: width@t1$
# 3, text
2: text@,f,1 1,,,$
2: text@t 1,f,1 1,,,$
2: text@t+1,f,1 1,,,$
2: text@\"t$1\",f,1 1,,,$
2: text@\"t,1\",f,1 1,,,$
2: text@t?,f,1 1,,,$
2: text@t1,f?,1 1,,,$
2: text@t1,f,1\t1,,,$
2: text@t1,f,1 1,\u{1f},,$
2: text@t1,f,1 1,,\u{7f},$
2: text@t1,f,1 1,,,\"1$2\"$
2: text@aaaaaaaaaaaaaaaabbbbbbbbbbbbbbbbccccccccccccccccdddddddddddddddde,z,,,,$
# 4, number
2: number@t1,f,1 x,,,$
2: number@t1,f,-0 1,,,$
2: number@t1,f,01 1,,,$
2: number@t1,f,+1 1,,,$
2: number@t1,f,1  1,,,$
2: number@t1,f, 1 1,,,$
2: number@t1,f,1 1 ,,,$
2: number@t1,f,- 1,,,$
2: number@t1,f,--1 1,,,$
2: number@t1,f,-01 1,,,$
2: number@t1,f,0x1 1,,,$
2: number@t1,f,1.0 1,,,$
2: number@t1,f, ,,,$
2: number@t1,z,, ,,$
2: number@t1,z,,2147483648,,$
2: number@t1,z,,-2147483649,,$
2: number@t1,z,,,none,$
2: number@t1,z,,,1 1,$
2: number@t1,z,,,18446744073709551616,$
2: number@t1,z,,,-9223372036854775809,$
2: number@t1,z,,,,None$
2: number@t1,z,,,,none $
2: number@t1,z,,,,2147483648$
2: number@t1,z,,,,-2147483649$
2: number@t1,f,none,,,$
# 5, function
2: function@t1,g,,,,$
2: function@t1,F,1 1,,,$
2: function@t1,~,,,,$
2: function@t1,,1 1,,,$
2: function@t1, f,1 1,,,$
# 6, arguments
2: arguments@t1,f,1,,,$
2: arguments@t1,f,1 1 1,,,$
2: arguments@t1,f,,,,$
2: arguments@t1,z,1,,,$
2: arguments@t1,f,2147483648 1,,,$
2: arguments@t1,v,1,,1,$
# 7, not callable
2: not callable@t1,t,,,,$
2: not callable@t1,a,1,,,$
2: not callable@t1,p,,,,$
2: not callable@t1,s,,,,$
2: not callable@t1,s,,,1,$
# 8, name again
4: name again@t1,z,,,,$t2,z,,,,$t1,z,,,,$
5: name again@t1,z,,,,$t2,z,,,,$$t2,z,,,,$t1,z,,,,$
# two faults in one record: the lower number answers
2: width@t 1,f,1 1$
2: width@t1,f,x$
2: width@t1,g,1$
2: width@t1,z,1$
2: width@t1,t$
4: width@t1,z,,,,$t2,z,,,,$t1,z$
2: text@t 1,f,x 1,,,$
2: text@t 1,g,,,,$
2: text@t 1,f,1,,,$
2: text@t 1,t,,,,$
4: text@t1,z,,,,$t2,z,,,,$t1,z,\t,,,$
2: number@t1,g,x,,,$
2: number@t1,v,x,,1,$
2: number@t1,t,x,,,$
4: number@t1,z,,,,$t2,z,,,,$t1,z,x,,,$
4: function@t1,z,,,,$t2,z,,,,$t1,g,,,,$
2: arguments@t1,a,,,,$
4: arguments@t1,z,,,,$t2,z,,,,$t1,z,1,,,$
4: not callable@t1,z,,,,$t2,z,,,,$t1,t,,,,$
# in two records the earlier one answers, whatever its number
2: not callable@t1,t,,,,$t2$
2: arguments@t1,f,1,,,$t 2,f,1 1,,,$
2: function@t1,g,,,,$t2,f,x,,,$
3: number@t1,z,,,,$t2,f,x,,,$t3,g,,,,$
4: name again@t1,z,,,,$t2,z,,,,$t1,z,,,,$t3$
3: text@t1,z,,,,$t 2,z,,,,$t3$
";

/// The same for whole files.
const FILES: &str = "\
# no header, or another one
1: header@
1: header@$
1: header@t1,f,1 1,,,$
1: header@test,call,arguments,inputs,expect$
1: header@test,call,arguments,inputs,expect,output,$
1: header@Test,call,arguments,inputs,expect,output$
1: header@test,call,arguments,inputs,output,expect$
1: header@test, call,arguments,inputs,expect,output$
1: header@?,test,call,arguments,inputs,expect,output$
1: header@test,call,arguments,inputs,expect$t1$
# the header, also with quotes, after a byte-order mark and after blank lines
none@test,call,arguments,inputs,expect,output
none@\"test\",\"call\",\"arguments\",\"inputs\",\"expect\",\"output\"^$
none@\u{feff}test,call,arguments,inputs,expect,output$
none@$^$test,call,arguments,inputs,expect,output$
";

/// The byte that a character of a row stands for.
fn meant(byte: u8) -> u8 {
    match byte {
        b'$' => b'\n',
        b'^' => b'\r',
        b'?' => 255,
        _ => byte,
    }
}

/// Adds the bytes that a text is written for.
fn add_text(file: &mut Vec<u8>, text: &str) -> Result<(), AllocError> {
    for byte in text.as_bytes() {
        file.push(meant(*byte))?;
    }
    Ok(())
}

/// Adds the bytes that a row is written for.
fn add_row(alloc: Global, file: &mut Vec<u8>, row: &str) -> Result<(), AllocError> {
    let mut text = String::new(alloc);
    let written = write_out(alloc, &mut text, row);
    let added = add_text(file, text.as_str());
    drop(text);
    written?;
    added
}

/// Adds the bytes of a file whose records stand after `head`.
fn add_file(alloc: Global, file: &mut Vec<u8>, head: &str, row: &str) -> Result<(), AllocError> {
    add_text(file, head)?;
    add_row(alloc, file, row)
}

/// What is told of a file: how many tests it makes, or its fault.
fn told(alloc: Global, tests: usize, fault: Option<TestFault>) -> Result<String, Fail> {
    match fault {
        Some(fault) => Ok(format!(in alloc; "{fault}")?),
        None => Ok(format!(in alloc; "tests record {tests} tests")?),
    }
}

fn is_told(
    alloc: Global,
    tests: usize,
    fault: Option<TestFault>,
    want: &str,
) -> Result<bool, Fail> {
    let text = told(alloc, tests, fault)?;
    let same = text.as_str().strip_prefix("tests record ") == Some(want);
    drop(text);
    Ok(same)
}

fn is_text(alloc: Global, fault: TestFault, want: &str) -> Result<bool, Fail> {
    let text = told(alloc, 0, Some(fault))?;
    let same = text.as_str() == want;
    drop(text);
    Ok(same)
}

fn is_outcome(alloc: Global, program: &Program<'_>, file: &[u8], want: &str) -> Result<bool, Fail> {
    let (tests, fault) = outcome(alloc, program, file);
    if want == "none" {
        return Ok(fault.is_none());
    }
    is_told(alloc, tests, fault, want)
}

fn is_right_in(
    alloc: Global,
    program: &Program<'_>,
    file: &mut Vec<u8>,
    head: &str,
    want: &str,
    row: &str,
) -> Result<bool, Fail> {
    add_file(alloc, file, head, row)?;
    is_outcome(alloc, program, file, want)
}

fn is_row_right(
    alloc: Global,
    program: &Program<'_>,
    head: &str,
    want: &str,
    row: &str,
) -> Result<bool, Fail> {
    let mut file = Vec::new(alloc);
    let same = is_right_in(alloc, program, &mut file, head, want, row);
    drop(file);
    same
}

fn is_right(alloc: Global, program: &Program<'_>, head: &str, row: &str) -> Result<bool, Fail> {
    match row.split_once('@') {
        Some((want, text)) => is_row_right(alloc, program, head, want, text),
        None => Ok(row.starts_with('#')),
    }
}

/// Checks each file of the rows, whose records stand after `head`.
fn check_rows(
    rt: &impl Abort,
    alloc: Global,
    program: &Program<'_>,
    head: &str,
    rows: &str,
) -> Result<(), Fail> {
    for row in rows.lines() {
        assert!(rt; is_right(alloc, program, head, row)?, "{row}");
    }
    Ok(())
}

/// Checks each file, and the texts of the faults that none of them has.
pub(crate) fn check_faults(
    rt: &impl Abort,
    alloc: Global,
    program: &Program<'_>,
) -> Result<(), Fail> {
    check_rows(rt, alloc, program, HEADER, RECORDS)?;
    check_rows(rt, alloc, program, HEADER, LIMITS)?;
    check_rows(rt, alloc, program, "", FILES)?;
    assert!(rt; is_text(alloc, TestFault::Limit { row: 9 }, "tests record 9: limit")?);
    assert!(rt; is_text(alloc, TestFault::OutOfMemory, "out of memory")?);
    Ok(())
}
