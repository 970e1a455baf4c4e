//! Files of justifications that are refused, and when they are asked for.

use crate::run::{REPORT, SOURCE, TESTS, Want, gives, of_files, plain};
use crate::text::{bytes_of, padded};
use std::alloc::Global;
use std::thread::Threads;
use tests_memory::Fail;

const WORDS: &str = "report|s.c|t.csv|--justify|j.json";

/// Whether a report of this source with these justifications gives this.
fn reports<R: Threads + Sync>(
    rt: &R,
    alloc: Global,
    source: &[u8],
    file: &[u8],
    want: Want<'_>,
) -> Result<bool, Fail> {
    let setting = of_files(WORDS, source, TESTS.as_bytes(), file);
    gives(rt, alloc, &setting, want)
}

/// What the line says after `mcdc: justification`, and the file. There `'` is a quotation mark, `$`
/// a line feed and `?` the byte 200.
const REFUSED: &str = "\
: json@
: json@[
: json@['?']
: json@[{'id':'S1','quote':'return a$&&b;','reason':'x'}]
 entry 0: shape@{}
 entry 0: shape@'S1'
 entry 1: shape@[{}]
 entry 1: shape@[{'id':'S1','quote':'return a&&b;','reason':''}]
 entry 1: shape@[{'id':'S1','quote':'return a&&b;'}]
 entry 1: unknown@[{'id':'S9','quote':'return a&&b;','reason':'x'}]
 entry 1: quote kept <<return a&&b;>> given <<return a && b;>>\
@[{'id':'S1','quote':'return a && b;','reason':'x'}]
 entry 1: quote kept <<return a&&b;>> given <<return a$&&b;>>\
@[{'id':'S1','quote':'return a\\n&&b;','reason':'x'}]
 entry 1: quote kept <<b>> given <<a>>@[{'id':'D1C2','quote':'a','reason':'x'}]
 entry 2: repeated@[{'id':'S1','quote':'return a&&b;','reason':'x'},\
{'id':'S1','quote':'return a&&b;','reason':'y'}]
";

fn is_refused<R: Threads + Sync>(
    rt: &R,
    alloc: Global,
    source: &str,
    said: &str,
    file: &str,
) -> Result<bool, Fail> {
    let front = "mcdc: justification";
    let source = bytes_of(alloc, source)?;
    let file = bytes_of(alloc, file)?;
    let said = bytes_of(alloc, said)?;
    let mut line = Vec::new(alloc);
    line.extend_from_slice(front.as_bytes())?;
    line.extend_from_slice(&said)?;
    line.push(b'\n')?;
    let is_wanted = reports(rt, alloc, &source, &file, (5, b"", &line));
    drop(line);
    drop(said);
    drop(file);
    drop(source);
    is_wanted
}

fn is_refused_row<R: Threads + Sync>(rt: &R, alloc: Global, row: &str) -> Result<bool, Fail> {
    let Some((said, file)) = row.split_once('@') else {
        return Err(Fail);
    };
    is_refused(rt, alloc, SOURCE, said, file)
}

#[test]
fn files_of_justifications(rt: HostRuntime) -> Result<(), Fail> {
    for row in REFUSED.lines() {
        assert!(rt; is_refused_row(&rt, rt.alloc(), row)?, "{row}");
    }
    Ok(())
}

/// A source with a statement that is no UTF-8, and so never what a file quotes.
const NO_UTF8: &str = "int f(int a,int b){return a&&/*?*/b;}";

#[test]
fn a_statement_that_is_no_utf8(rt: HostRuntime) -> Result<(), Fail> {
    let said = " entry 1: quote kept <<return a&&/*?*/b;>> given <<return a&&/**/b;>>";
    let file = "[{'id':'S1','quote':'return a&&/**/b;','reason':'x'}]";
    assert!(rt; is_refused(&rt, rt.alloc(), NO_UTF8, said, file)?);
    Ok(())
}

/// Whether a file of this number of entries without a shape is refused so.
fn is_counted<R: Threads + Sync>(
    rt: &R,
    alloc: Global,
    count: usize,
    line: &str,
) -> Result<bool, Fail> {
    let mut file = String::from_str(alloc, "[0")?;
    for _turn in 1..count {
        file.push_str(",0")?;
    }
    file.push_str("]")?;
    let want: Want<'_> = (5, b"", line.as_bytes());
    let is_wanted = reports(rt, alloc, SOURCE.as_bytes(), file.as_bytes(), want);
    drop(file);
    is_wanted
}

#[test]
fn number_of_entries(rt: HostRuntime) -> Result<(), Fail> {
    let shape = "mcdc: justification entry 1: shape\n";
    let limit = "mcdc: justification: limit\n";
    assert!(rt; is_counted(&rt, rt.alloc(), 4096, shape)?);
    assert!(rt; is_counted(&rt, rt.alloc(), 4097, limit)?);
    Ok(())
}

/// Whether a file of this length without an entry gives this.
fn is_limited<R: Threads + Sync>(
    rt: &R,
    alloc: Global,
    length: usize,
    want: Want<'_>,
) -> Result<bool, Fail> {
    let file = padded(alloc, "[]", b' ', length)?;
    let is_wanted = reports(rt, alloc, SOURCE.as_bytes(), &file, want);
    drop(file);
    is_wanted
}

#[test]
fn length_of_justifications(rt: HostRuntime) -> Result<(), Fail> {
    let most: Want<'_> = (0, REPORT.as_bytes(), b"");
    let more: Want<'_> = (5, b"", b"mcdc: j.json: longer than 1048576 bytes\n");
    assert!(rt; is_limited(&rt, rt.alloc(), 1048576, most)?);
    assert!(rt; is_limited(&rt, rt.alloc(), 1048577, more)?);
    Ok(())
}

const NO_SOURCE: &str = "int f(int a,int b){return c;}";

const REFUSED_SOURCE: &str = "mcdc: source 1:27: undeclared\n";

const REFUSED_TESTS: &str = "mcdc: tests record 1: header\n";

/// Words, the source, the tests, the load that fails, the status and the line. The store holds no
/// file whose name begins with `u`, and a file that is asked for and not there is told with 6.
static ASKED: [(&str, &str, &str, u32, u8, &str); 11] = [
    (
        "report|u.c|u.csv|--justify|u.json",
        SOURCE,
        TESTS,
        0,
        6,
        "mcdc: cannot read u.c\n",
    ),
    (
        "report|s.c|u.csv|--justify|u.json",
        SOURCE,
        TESTS,
        0,
        6,
        "mcdc: cannot read u.csv\n",
    ),
    (
        "report|s.c|t.csv|--justify|u.json",
        SOURCE,
        TESTS,
        0,
        6,
        "mcdc: cannot read u.json\n",
    ),
    (
        "report|--justify|u.json|s.c|t.csv",
        SOURCE,
        TESTS,
        0,
        6,
        "mcdc: cannot read u.json\n",
    ),
    (WORDS, SOURCE, TESTS, 1, 6, "mcdc: cannot read s.c\n"),
    (WORDS, SOURCE, TESTS, 2, 6, "mcdc: cannot read t.csv\n"),
    (WORDS, SOURCE, TESTS, 3, 6, "mcdc: cannot read j.json\n"),
    (WORDS, NO_SOURCE, TESTS, 2, 3, REFUSED_SOURCE),
    (WORDS, SOURCE, "", 3, 4, REFUSED_TESTS),
    (
        "report|s.c|t.csv|--justify|u.json",
        NO_SOURCE,
        "",
        0,
        3,
        REFUSED_SOURCE,
    ),
    (
        "report|s.c|t.csv|--justify|u.json",
        SOURCE,
        "",
        0,
        4,
        REFUSED_TESTS,
    ),
];

#[test]
fn justifications_are_asked_for_last(rt: HostRuntime) -> Result<(), Fail> {
    for (words, source, tests, load, status, line) in &ASKED {
        let mut setting = plain(source.as_bytes(), tests.as_bytes());
        setting.words = words;
        setting.failing_load = *load;
        let want: Want<'_> = (*status, b"", line.as_bytes());
        assert!(rt; gives(&rt, rt.alloc(), &setting, want)?, "{words} {load}");
    }
    Ok(())
}
