//! Two records, joined.
ghost use Rattle.std.specs.Prelude.{◌≤◌, IfOk, IfSome};
ghost use Rattle.mc_record.specs.Kept.{IsKept};
ghost use Rattle.mc_record.specs.Seen.{kept_of};

use crate::outcome::{bits_of, read, written};
use crate::text::write_out;
use mc_record::{PairFault, Record, merge_records};
use std::alloc::{AllocError, Global};
use std::test::Fail;

/// A row is the number of bits, and after `@` each what is written of both, or the text of the
/// fault; the left record, and the right one. These are lines from the number of tests on, without
/// the last, as `write_out` reads them.
static ROWS: &str = "\
6@tests 3$test t1 pass$test t2 pass$test t3 pass$bit 0 *7$bit 1 *7$bit 2 *7$bit 3 *1$bit 4 *2$bit 5 *4$@tests 2$test t1 pass$test t2 pass$bit 0 *3$bit 1 *3$bit 2 *3$bit 3 *1$bit 4 *2$bit 5 *0$@tests 1$test t3 pass$bit 0 *1$bit 1 *1$bit 2 *1$bit 3 *0$bit 4 *0$bit 5 *1$
# the right tests come after the left ones, each with its state and its bits
1@tests 2$test b fuel$test a fail$bit 0 *1$@tests 1$test b fuel$bit 0 *1$@tests 1$test a fail$bit 0 *0$
1@tests 2$test a fail$test b fuel$bit 0 *2$@tests 1$test a fail$bit 0 *0$@tests 1$test b fuel$bit 0 *1$
2@tests 3$test c pass$test b pass$test a pass$bit 0 *5$bit 1 *6$@tests 1$test c pass$bit 0 *1$bit 1 *0$@tests 2$test b pass$test a pass$bit 0 *2$bit 1 *3$
# no tests, or no bits
1@tests 0$bit 0$@tests 0$bit 0$@tests 0$bit 0$
1@tests 1$test a pass$bit 0 *1$@tests 0$bit 0$@tests 1$test a pass$bit 0 *1$
1@tests 1$test a pass$bit 0 *1$@tests 1$test a pass$bit 0 *1$@tests 0$bit 0$
0@tests 2$test a pass$test A pass$@tests 1$test a pass$@tests 1$test A pass$
# a name that stands in both: the first on the right, with its place on the left
1@tests 0 and 0 have one name@tests 1$test a pass$bit 0 *1$@tests 1$test a fail$bit 0 *0$
0@tests 0 and 0 have one name@tests 2$test a pass$test b pass$@tests 2$test a pass$test b pass$
0@tests 1 and 0 have one name@tests 2$test a pass$test b pass$@tests 2$test b pass$test a pass$
0@tests 0 and 2 have one name@tests 1$test a pass$@tests 3$test c pass$test b pass$test a pass$
0@tests 2 and 1 have one name@tests 3$test a pass$test b pass$test c pass$@tests 3$test d pass$test c pass$test a pass$
0@tests 3 and 0 have one name@tests 4$test a pass$test b pass$test c pass$test d pass$@tests 1$test d pass$
";

fn told(alloc: Global, fault: &PairFault) -> Result<Vec<u8>, AllocError> {
    let text = format!(in alloc; "{fault}")?;
    text.as_bytes().to_vec(alloc)
}

/// What comes of both, where they are of one source.
pub(crate) fn merge_of(
    alloc: Global,
    left: &Record,
    right: &Record,
) -> Option<Result<Record, PairFault>>
    requires left { IsKept (kept_of left.now) }
    requires right { IsKept (kept_of right.now) }
    ensures { IfSome result (λ found. IfOk found (λ both. IsKept (kept_of both))) }
{
    if left.digest != right.digest || left.matrix.shape().bits != right.matrix.shape().bits {
        return None;
    }
    Some(merge_records(alloc, left, right))
}

// The record of so many bits with these lines.
fn push_record(out: &mut Vec<u8>, bits: &str, lines: &str) -> Result<(), AllocError> {
    write_out(out, "mcdc-record 2$source #$bits ")?;
    write_out(out, bits)?;
    write_out(out, "$")?;
    write_out(out, lines)?;
    write_out(out, "end$")
}

// What comes of two records.
fn outcome_of(alloc: Global, left: &Record, right: &Record) -> Result<Vec<u8>, AllocError>
    requires left { IsKept (kept_of left.now) }
    requires right { IsKept (kept_of right.now) }
{
    let Some(found) = merge_of(alloc, left, right) else {
        return Ok(Vec::new(alloc));
    };
    match found {
        Ok(both) => written(alloc, &both, 10_000),
        Err(fault) => told(alloc, &fault),
    }
}

// What comes of two texts, of which each is a record.
fn outcome_of_texts(
    alloc: Global,
    left: &[u8],
    right: &[u8],
    bits: u32,
) -> Result<Vec<u8>, AllocError>
    requires { bits ≤ 65536 }
{
    match (
        read(alloc, left, bits, false),
        read(alloc, right, bits, false),
    ) {
        (Ok(left), Ok(right)) => outcome_of(alloc, &left, &right),
        _ => Ok(Vec::new(alloc)),
    }
}

fn is_right_for(
    alloc: Global,
    bits: &str,
    want: &str,
    left: &str,
    right: &str,
) -> Result<bool, AllocError> {
    let mut left_text = Vec::new(alloc);
    push_record(&mut left_text, bits, left)?;
    let mut right_text = Vec::new(alloc);
    push_record(&mut right_text, bits, right)?;
    let found = outcome_of_texts(alloc, &left_text, &right_text, bits_of(bits))?;
    let mut wanted = Vec::new(alloc);
    if want.as_bytes().ends_with("one name".as_bytes()) {
        write_out(&mut wanted, want)?;
    } else {
        push_record(&mut wanted, bits, want)?;
    }
    Ok(found == wanted)
}

fn is_right(alloc: Global, row: &str) -> Result<bool, AllocError> {
    let mut parts = row.split('@');
    match (parts.next(), parts.next(), parts.next(), parts.next()) {
        (Some(bits), Some(want), Some(left), Some(right)) => {
            is_right_for(alloc, bits, want, left, right)
        }
        _ => Ok(row.starts_with('#')),
    }
}

#[test]
fn joined_records(rt: HostRuntime) -> Result<(), Fail> {
    let alloc = rt.alloc();
    for row in ROWS.lines() {
        assert!(rt; is_right(alloc, row)?, "{row}");
    }
    Ok(())
}
