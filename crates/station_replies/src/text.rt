//! The texts on the errors' sink.
ghost use Rattle.std.specs.Prelude.{◌≡◌, IfOk};
ghost use Rattle.station_replies.specs.Seen.{reply_to};
ghost use Rattle.station_replies.specs.Texts.{bits_line, bytes_line, cannot_read_line, entry_line, form_line, justifications_line, kept_line, longer_line, many_line, many_tests_line, matrix_line, mutants_line, nothing_line, place_line, quote_line, record_line, same_test_line, tests_line, usage_text};

use crate::refusal::Refusal;
use mc_lex::Place;
use mc_tests::TestFault;
use std::alloc::{AllocError, Global};

/// The usage text.
pub fn usage_text(alloc: Global) -> Result<Vec<u8>, AllocError>
    ensures { IfOk result (λ text. text.items ≡ usage_text) }
{
    let text = String::from_str(
        alloc,
        "usage: mcdc report SOURCE TESTS [--mode unique|masking] [--workers N] [--fuel N] \
        [--justify NAME] [--format text|csv|json]\n       \
        mcdc vectors SOURCE TESTS [--workers N] [--fuel N]\n       \
        mcdc instrument SOURCE\n       \
        mcdc record SOURCE TESTS [--workers N] [--fuel N]\n       \
        mcdc merge SOURCE LEFT RIGHT\n       \
        mcdc analyse SOURCE RECORD [--mode unique|masking] [--justify NAME] \
        [--format text|csv|json]\n       \
        mcdc selfload N [--workers N]\n       \
        mcdc watch SOURCE TESTS [--workers N] [--fuel N] [--looks N]\n       \
        mcdc reduce SOURCE TESTS [--mode unique|masking] [--workers N] [--fuel N]\n       \
        mcdc mutate SOURCE TESTS [--workers N] [--fuel N]\n       \
        mcdc list SOURCE TESTS [--mode unique|masking] [--workers N] [--fuel N] \
        [--justify NAME]\n       \
        mcdc functions SOURCE TESTS [--mode unique|masking] [--workers N] [--fuel N] \
        [--justify NAME] [--of NAME]\n       \
        mcdc needs SOURCE TESTS [--mode unique|masking] [--workers N] [--fuel N] \
        [--justify NAME] [--of NAME]\n       \
        mcdc results SOURCE TESTS [--workers N] [--fuel N]\n       \
        mcdc adapt SOURCE\n",
    )?;
    Ok(text.into_bytes())
}

/// The line that names a file which cannot be read.
pub fn cannot_read_line(alloc: Global, name: &str) -> Result<Vec<u8>, AllocError>
    ensures { IfOk result (λ line. line.items ≡ cannot_read_line name.now) }
{
    let text = format!(in alloc; "mcdc: cannot read {name}\n")?;
    Ok(text.into_bytes())
}

// The line that names a file which is longer than its limit.
fn longer_line(alloc: Global, name: &str, limit: u64) -> Result<Vec<u8>, AllocError>
    ensures { IfOk result (λ line. line.items ≡ longer_line name.now limit) }
{
    let text = format!(in alloc; "mcdc: {name}: longer than {limit} bytes\n")?;
    Ok(text.into_bytes())
}

// The line that names a fault of the source and its place.
fn place_line(alloc: Global, place: Place, word: &str) -> Result<Vec<u8>, AllocError>
    ensures { IfOk result (λ text.
        text.items ≡ place_line place.line place.column word.now) }
{
    let line = place.line;
    let column = place.column;
    let text = format!(in alloc; "mcdc: source {line}:{column}: {word}\n")?;
    Ok(text.into_bytes())
}

// The line that names a form that the profile leaves out, and its place.
fn form_line(alloc: Global, place: Place, name: &str) -> Result<Vec<u8>, AllocError>
    ensures { IfOk result (λ text.
        text.items ≡ form_line place.line place.column name.now) }
{
    let line = place.line;
    let column = place.column;
    let text = format!(in alloc; "mcdc: source {line}:{column}: outside form {name}\n")?;
    Ok(text.into_bytes())
}

// The line that names of what there are too many at a place of the source, and how many.
fn many_line(alloc: Global, place: Place, what: &str, count: u128) -> Result<Vec<u8>, AllocError>
    ensures { IfOk result (λ text.
        text.items ≡ many_line place.line place.column what.now count) }
{
    let line = place.line;
    let column = place.column;
    let text = format!(in alloc; "mcdc: source {line}:{column}: too many {what} {count}\n")?;
    Ok(text.into_bytes())
}

// The line on a file that no marker of the source names.
fn nothing_line(alloc: Global, name: &str) -> Result<Vec<u8>, AllocError>
    ensures { IfOk result (λ text. text.items ≡ nothing_line name.now) }
{
    let text = format!(in alloc; "mcdc: source: nothing of {name}\n")?;
    Ok(text.into_bytes())
}

// The line on a program with too many bits.
fn bits_line(alloc: Global, count: u64) -> Result<Vec<u8>, AllocError>
    ensures { IfOk result (λ text. text.items ≡ bits_line count) }
{
    let text = format!(in alloc; "mcdc: source: too many bits {count}\n")?;
    Ok(text.into_bytes())
}

// The line on a source that is made and has too many bytes.
fn bytes_line(alloc: Global, count: u64) -> Result<Vec<u8>, AllocError>
    ensures { IfOk result (λ text. text.items ≡ bytes_line count) }
{
    let text = format!(in alloc; "mcdc: source: too many bytes {count}\n")?;
    Ok(text.into_bytes())
}

// The line on a record of a tests file.
fn record_line(alloc: Global, row: u32, word: &str) -> Result<Vec<u8>, AllocError>
    ensures { IfOk result (λ text. text.items ≡ record_line row word.now) }
{
    let text = format!(in alloc; "mcdc: tests record {row}: {word}\n")?;
    Ok(text.into_bytes())
}

// The line on the first fault of a tests file.
fn tests_line(alloc: Global, fault: TestFault) -> Result<Vec<u8>, AllocError>
    ensures { IfOk result (λ text. text.items ≡ tests_line fault) }
{
    match fault {
        TestFault::Header { row } => record_line(alloc, row, "header"),
        TestFault::Width { row } => record_line(alloc, row, "width"),
        TestFault::Text { row } => record_line(alloc, row, "text"),
        TestFault::Number { row } => record_line(alloc, row, "number"),
        TestFault::Function { row } => record_line(alloc, row, "function"),
        TestFault::Arguments { row } => record_line(alloc, row, "arguments"),
        TestFault::NotCallable { row } => record_line(alloc, row, "not callable"),
        TestFault::NameAgain { row } => record_line(alloc, row, "name again"),
        TestFault::Limit { row } => record_line(alloc, row, "limit"),
        TestFault::OutOfMemory => Err(AllocError),
    }
}

// The line on the first fault of a record.
fn kept_line(alloc: Global, name: &str, row: u32, word: &str) -> Result<Vec<u8>, AllocError>
    ensures { IfOk result (λ text. text.items ≡ kept_line name.now row word.now) }
{
    let text = format!(in alloc; "mcdc: record {name} line {row}: {word}\n")?;
    Ok(text.into_bytes())
}

// The line on tests of two records that have one name. They are numbered from 0.
fn same_test_line(alloc: Global, left: u32, right: u32) -> Result<Vec<u8>, AllocError>
    ensures { IfOk result (λ text. text.items ≡ same_test_line left right) }
{
    let left = u64::from(left) + 1;
    let right = u64::from(right) + 1;
    let text = format!(in alloc; "mcdc: records: same test {left} and {right}\n")?;
    Ok(text.into_bytes())
}

// The line on two records with too many tests together.
fn many_tests_line(alloc: Global, count: u32) -> Result<Vec<u8>, AllocError>
    ensures { IfOk result (λ text. text.items ≡ many_tests_line count) }
{
    let text = format!(in alloc; "mcdc: records: {count} tests\n")?;
    Ok(text.into_bytes())
}

// The line on what is wrong with a file of justifications.
fn justifications_line(alloc: Global, word: &str) -> Result<Vec<u8>, AllocError>
    ensures { IfOk result (λ text. text.items ≡ justifications_line word.now) }
{
    let text = format!(in alloc; "mcdc: justification: {word}\n")?;
    Ok(text.into_bytes())
}

// The line on what is wrong with an entry of a file of justifications.
fn entry_line(alloc: Global, entry: u32, word: &str) -> Result<Vec<u8>, AllocError>
    ensures { IfOk result (λ text. text.items ≡ entry_line entry word.now) }
{
    let text = format!(in alloc; "mcdc: justification entry {entry}: {word}\n")?;
    Ok(text.into_bytes())
}

// The line on a quote that differs. Both byte strings stand in it as they are.
fn quote_line(alloc: Global, entry: u32, kept: &[u8], given: &[u8]) -> Result<Vec<u8>, AllocError>
    ensures { IfOk result (λ text. text.items ≡ quote_line entry kept.now given.now) }
{
    let front = format!(in alloc; "mcdc: justification entry {entry}: quote kept <<")?;
    let mut line = front.into_bytes();
    line.extend_from_slice(kept)?;
    line.extend_from_slice(b">> given <<")?;
    line.extend_from_slice(given)?;
    line.extend_from_slice(b">>\n")?;
    Ok(line)
}

// The line on a matrix that would be too large.
fn matrix_line(alloc: Global, words: u64) -> Result<Vec<u8>, AllocError>
    ensures { IfOk result (λ text. text.items ≡ matrix_line words) }
{
    let text = format!(in alloc; "mcdc: matrix needs {words} words\n")?;
    Ok(text.into_bytes())
}

// The line on a program with too many mutants.
fn mutants_line(alloc: Global, count: u32) -> Result<Vec<u8>, AllocError>
    ensures { IfOk result (λ text. text.items ≡ mutants_line count) }
{
    let text = format!(in alloc; "mcdc: too many mutants {count}\n")?;
    Ok(text.into_bytes())
}

/// The line of a refusal, or its lines where it is of several pieces.
pub fn refusal_line(alloc: Global, refusal: &Refusal<'_>) -> Result<Vec<u8>, AllocError>
    ensures { IfOk result (λ line. line.items ≡ (reply_to refusal.now).diag) }
{
    match refusal {
        Refusal::TooLong(file) => longer_line(alloc, file.name, file.kind.limit()),
        Refusal::Fault { place, word } => place_line(alloc, *place, word),
        Refusal::Outside { place, form } => form_line(alloc, *place, form.as_str()),
        Refusal::TooMany { place, what, count } => many_line(alloc, *place, what, *count),
        Refusal::NothingOf { name } => nothing_line(alloc, name),
        Refusal::TooManyBits { count } => bits_line(alloc, *count),
        Refusal::NotAdapted { lines } => lines.to_vec(alloc),
        Refusal::TooManyBytes { count } => bytes_line(alloc, *count),
        Refusal::Tests(fault) => tests_line(alloc, *fault),
        Refusal::Record { name, line, word } => kept_line(alloc, name, *line, word),
        Refusal::SameTest { left, right } => same_test_line(alloc, *left, *right),
        Refusal::TooManyTests { count } => many_tests_line(alloc, *count),
        Refusal::Justifications { word } => justifications_line(alloc, word),
        Refusal::Entry { entry, word } => entry_line(alloc, *entry, word),
        Refusal::Quote { entry, kept, given } => quote_line(alloc, *entry, kept, given),
        Refusal::TooLarge { words } => matrix_line(alloc, *words),
        Refusal::TooManyMutants { count } => mutants_line(alloc, *count),
    }
}
