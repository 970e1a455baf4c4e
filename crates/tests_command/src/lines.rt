//! Lines that the program reads.

use crate::show::push_command;
use mc_command::{line_of, read_command};
use mc_port::Words;
use std::alloc::{AllocError, Global};
use std::test::Fail;

/// A row is a line, `@` and the parts of its command: for a run the source, the tests, the workers,
/// the fuel and the task. Where nothing follows, the line is not a command.
static ROWS: &str = "\
report a.c a.csv@a.c|a.csv|4|1000000|report|unique|text
report a.c --fuel=8 a.csv --mode masking@a.c|a.csv|4|8|report|masking|text
report a.c a.csv --workers 1@a.c|a.csv|1|1000000|report|unique|text
report --format json --justify j.json -- -a.c --fuel@-a.c|--fuel|4|1000000|report|unique|json|j.json
report a.c a.csv --justify= --format=csv@a.c|a.csv|4|1000000|report|unique|csv|
vectors a.c a.csv@a.c|a.csv|4|1000000|vectors
vectors a.c --workers=64 a.csv --fuel=8@a.c|a.csv|64|8|vectors
vectors --fuel 100000000 - a.csv@-|a.csv|4|100000000|vectors
instrument a.c@a.c|instrument
instrument -- -a.c@-a.c|instrument
adapt a.i@a.i|adapt
adapt -- -a.i@-a.i|adapt
record a.c a.csv --fuel 8 --workers 2@a.c|a.csv|2|8|record
merge a.c a.rec b.rec@a.c|merge|a.rec|b.rec
analyse a.c a.rec --mode masking@a.c|analyse|a.rec|report|masking|text
selfload 200@selfload|200|4
watch a.c a.csv@a.c|a.csv|4|1000000|watch|10
watch a.c a.csv --looks 100 --workers 63@a.c|a.csv|63|1000000|watch|100
watch --looks=1 a.c a.csv --workers=1 --fuel 8@a.c|a.csv|1|8|watch|1
reduce a.c a.csv@a.c|a.csv|4|1000000|reduce|unique
reduce a.c --mode masking a.csv --workers 64 --fuel 8@a.c|a.csv|64|8|reduce|masking
mutate a.c a.csv@a.c|a.csv|4|1000000|mutate
mutate --fuel=8 a.c a.csv --workers 64@a.c|a.csv|64|8|mutate
mutate a.c --workers=1 -- a.csv@a.c|a.csv|1|1000000|mutate
list a.c a.csv@a.c|a.csv|4|1000000|list|unique
list --justify j.json a.c a.csv --mode=masking --workers 1@a.c|a.csv|1|1000000|list|masking|j.json
functions a.c a.csv@a.c|a.csv|4|1000000|functions|unique
functions --of m.c a.c a.csv --mode=masking --justify j.json@a.c|a.csv|4|1000000|functions|masking|of m.c|j.json
needs a.c a.csv@a.c|a.csv|4|1000000|needs|unique
needs a.c --of=m.c --justify j.json a.csv --mode masking --workers 1@a.c|a.csv|1|1000000|needs|masking|of m.c|j.json
results a.c a.csv@a.c|a.csv|4|1000000|results
results --fuel=8 a.c a.csv --workers 64@a.c|a.csv|64|8|results
selfload 1 --workers 64@selfload|1|64
vectors \u{e9}.c \u{4e2d}.csv@\u{e9}.c|\u{4e2d}.csv|4|1000000|vectors
@
--help@
help report@
report a.c@
report a.c a.csv b.csv@
report a.c a.csv --mode both@
vectors a.c a.csv --fuel 0@
vectors a.c a.csv --fuel +5@
vectors a.c a.csv --fuel 05@
vectors a.c a.csv --fuel 100000001@
vectors a.c a.csv --fuel 5 --fuel 5@
vectors a.c a.csv --fuel@
vectors a.c a.csv --workers 0@
vectors a.c a.csv --workers 65@
vectors a.c a.csv --workers 01@
vectors a.c a.csv --workers +4@
vectors a.c a.csv --workers@
instrument@
instrument a.c a.csv@
instrument a.c --fuel 8@
adapt@
adapt a.i b.i@
adapt a.i --fuel 8@
merge a.c a.rec@
analyse a.c a.rec --fuel 8@
selfload 0@
selfload 201@
selfload 5 --workers 65@
watch a.c a.csv --looks 0@
watch a.c a.csv --looks 101@
watch a.c a.csv --looks 01@
watch a.c a.csv --workers 64@
watch a.c a.csv --mode unique@
vectors a.c a.csv --looks 1@
reduce a.c a.csv --justify j.json@
reduce a.c a.csv --mode both@
mutate a.c@
mutate a.c a.csv b.csv@
mutate a.c a.csv --workers 0@
mutate a.c a.csv --workers 65@
mutate a.c a.csv --fuel 0@
mutate a.c a.csv --mode unique@
mutate a.c a.csv --justify j.json@
list a.c a.csv --format text@
list a.c a.csv --of m.c@
functions a.c@
functions a.c a.csv --of@
functions a.c a.csv --format text@
needs a.c@
needs a.c a.csv --format text@
needs a.c a.csv --workers 65@
results a.c@
results a.c a.csv --mode unique@
results a.c a.csv --of m.c@
";

fn push_words(words: &mut Words, line: &str) -> Result<(), AllocError> {
    for word in line.split(' ') {
        if words.count() < 100 {
            words.push(word)?;
        }
    }
    Ok(())
}

fn push_read(alloc: Global, text: &mut String, line: &[&str]) -> Result<(), AllocError> {
    match read_command(alloc, line)? {
        Some(command) => push_command(alloc, text, command),
        None => Ok(()),
    }
}

fn push_told(alloc: Global, text: &mut String, words: &Words) -> Result<(), AllocError> {
    let line = line_of(alloc, words)?;
    let told = push_read(alloc, text, &line);
    drop(line);
    told
}

fn push_line(alloc: Global, text: &mut String, line: &str) -> Result<(), AllocError> {
    let mut words = Words::new(alloc);
    let pushed = push_words(&mut words, line);
    let told = match pushed {
        Ok(()) => push_told(alloc, text, &words),
        Err(error) => Err(error),
    };
    drop(words);
    told
}

fn is_right(alloc: Global, row: &str) -> Result<bool, AllocError> {
    let Some((line, want)) = row.split_once('@') else {
        return Ok(false);
    };
    let mut text = String::new(alloc);
    let told = push_line(alloc, &mut text, line);
    let same = text.as_str() == want;
    drop(text);
    told?;
    Ok(same)
}

// The first of the rows that is not right.
fn wrong_row<'x>(alloc: Global, rows: &'x str) -> Result<Option<&'x str>, AllocError> {
    for row in rows.lines() {
        if !is_right(alloc, row)? {
            return Ok(Some(row));
        }
    }
    Ok(None)
}

#[test]
fn lines_are_read(rt: HostRuntime) -> Result<(), Fail> {
    let wrong = wrong_row(rt.alloc(), ROWS)?;
    assert!(rt; wrong.is_none(), "{}", wrong.unwrap_or(""));
    Ok(())
}

#[test]
fn no_words_are_read(rt: HostRuntime) -> Result<(), Fail> {
    let alloc = rt.alloc();
    let words = Words::new(alloc);
    let mut text = String::new(alloc);
    let told = push_told(alloc, &mut text, &words);
    assert!(rt; told.is_ok() && text.as_str() == "");
    Ok(())
}
