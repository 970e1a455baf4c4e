//! Lines 1 to 4.
ghost use Rattle.std.specs.Prelude.{◌≡◌, Some, None, MatchOption, length};
ghost use Rattle.mc_record.specs.Reading.{after_bits, after_header, after_source, count_in, digest_in, head_in, test_count};
ghost use Rattle.mc_record.specs.Seen.{rest_read, number_read, seen_number};

use crate::digits::read_bytes;
use crate::fault::RecordFault;
use crate::lines::bits_line;
use crate::parts::{strip, until};
use csv_records::read_number;
use mc_core::{Shape, words};
use mc_limits::{MOST_TESTS, MOST_WORDS};

const MAX_TESTS: i128 = MOST_TESTS as i128;

fn after_header(text: &[u8], old_rules: bool) -> Result<&[u8], RecordFault>
    ensures { rest_read result ≡ after_header old_rules text.now }
{
    if let Some(rest) = strip(text, b"mcdc-record 2\n") {
        return Ok(rest);
    }
    match strip(text, b"mcdc-record 1\n") {
        None => Err(RecordFault::Header { line: 1 }),
        Some(rest) if old_rules => Ok(rest),
        Some(_) => Err(RecordFault::OldRules { line: 1 }),
    }
}

// Fills the digest from line 2, and gives what follows the line.
fn read_digest<'a>(text: &'a [u8], digest: &mut [u8]) -> Option<&'a [u8]>
    requires { length digest.old ≡ 32 }
    ensures { MatchOption result (digest_in text.now ≡ None)
        (λ rest. digest_in text.now ≡ Some (digest.new, rest.now)) }
{
    let digits = strip(text, b"source ")?;
    let end = read_bytes(digits, digest)?;
    strip(end, b"\n")
}

fn after_source<'a>(text: &'a [u8], digest: &[u8; 32]) -> Result<&'a [u8], RecordFault>
    ensures { rest_read result ≡ after_source digest.now text.now }
{
    let mut kept = [0; 32];
    let Some(rest) = read_digest(text, &mut kept) else {
        return Err(RecordFault::Header { line: 2 });
    };
    if kept.as_slice() == digest.as_slice() {
        return Ok(rest);
    }
    let given = *digest;
    Err(RecordFault::Source {
        line: 2,
        kept,
        given,
    })
}

fn after_bits(text: &[u8], bits: u32) -> Result<&[u8], RecordFault>
    ensures { rest_read result ≡ after_bits bits text.now }
{
    match strip(text, bits_line(bits).as_slice()) {
        Some(rest) => Ok(rest),
        None => Err(RecordFault::Shape { line: 3 }),
    }
}

// A number of tests, where it keeps the limits.
fn test_count(number: Option<i128>, bits: u32) -> Option<u32>
    ensures { result ≡ test_count bits number }
{
    let number = number?;
    if number < 0 || number > MAX_TESTS {
        return None;
    }
    let tests = number as u32;
    if words(Shape { bits, tests }) > MOST_WORDS {
        return None;
    }
    Some(tests)
}

fn read_count(text: &[u8], bits: u32) -> Option<(u32, &[u8])>
    ensures { seen_number result ≡ count_in bits text.now }
{
    let line = strip(text, b"tests ")?;
    let (number, rest) = until(line, b'\n')?;
    let tests = test_count(read_number(number), bits)?;
    Some((tests, rest))
}

/// The number of tests, and what follows these lines. Takes no memory.
pub(crate) fn read_head<'a>(
    text: &'a [u8],
    digest: &[u8; 32],
    bits: u32,
    old_rules: bool,
) -> Result<(u32, &'a [u8]), RecordFault>
    ensures { number_read result ≡ head_in digest.now bits old_rules text.now }
{
    let text = after_header(text, old_rules)?;
    let text = after_source(text, digest)?;
    let text = after_bits(text, bits)?;
    match read_count(text, bits) {
        Some(head) => Ok(head),
        None => Err(RecordFault::Shape { line: 4 }),
    }
}
