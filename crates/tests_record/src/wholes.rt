//! Whole texts of records.
ghost use Rattle.std.specs.Prelude.{◌≤◌};

use crate::outcome::{bits_of, outcome, read};
use crate::text::{DIGEST, write_first, write_out};
use mc_record::{Record, RecordFault};
use mc_typed::{Ending, TestState};
use std::alloc::{AllocError, Global};
use std::test::Fail;

/// A row is what comes of a text: the text of the fault, or `ok` where it is written as it was
/// read, in version 2; `@`, the rules, `@`, the number of bits, `@` and the text, as `write_out`
/// reads it. Under `any` the same comes of it under either rules.
static ROWS: &str = "\
record line 1: header@any@0@
record line 1: header@any@0@mcdc-record 2
record line 2: header@any@0@mcdc-record 2$
record line 1: header@any@0@$mcdc-record 2$source #$bits 0$tests 0$end$
# no tests, or no bits
ok@any@0@mcdc-record 2$source #$bits 0$tests 0$end$
ok@any@2@mcdc-record 2$source #$bits 2$tests 0$bit 0$bit 1$end$
ok@any@0@mcdc-record 2$source #$bits 0$tests 1$test a pass$end$
record line 5: word@any@2@mcdc-record 2$source #$bits 2$tests 0$bit 0 *0$bit 1 *0$end$
record line 5: word@any@2@mcdc-record 2$source #$bits 2$tests 0$bit 0 $bit 1 $end$
record line 6: word@any@2@mcdc-record 2$source #$bits 2$tests 0$bit 0$end$
record line 7: ending@any@2@mcdc-record 2$source #$bits 2$tests 0$bit 0$bit 1$bit 2$end$
record line 5: ending@any@0@mcdc-record 2$source #$bits 0$tests 0$bit 0$end$
record line 3: shape@any@1@mcdc-record 2$source #$bits 0$tests 0$end$
record line 6: name again@any@0@mcdc-record 2$source #$bits 0$tests 2$test a pass$test a pass$end$
# a test without a bit
ok@any@1@mcdc-record 2$source #$bits 1$tests 2$test a pass$test b fuel$bit 0 *1$end$
# each state
ok@any@0@mcdc-record 2$source #$bits 0$tests 7$test a pass$test b fail$test c trap-overflow$test d trap-division$test e trap-shift$test f trap-index$test g trap-unset$end$
ok@any@0@mcdc-record 2$source #$bits 0$tests 6$test a trap-no-return$test b trap-input-end$test c fuel$test d levels$test e cells$test f output-full$end$
# version 1
ok@old@1@mcdc-record 1$source #$bits 1$tests 1$test a pass$bit 0 *1$end$
record line 1: old rules@new@1@mcdc-record 1$source #$bits 1$tests 1$test a pass$bit 0 *1$end$
record line 1: old rules@new@1@mcdc-record 1$
record line 2: header@old@1@mcdc-record 1$
record line 1: header@any@1@mcdc-record 1
record line 1: old rules@new@1@mcdc-record 1$source #$bits 1$tests 1$test a pass$bit 0 *2$end$
record line 6: spare bit@old@1@mcdc-record 1$source #$bits 1$tests 1$test a pass$bit 0 *2$end$
record line 2: source@old@1@mcdc-record 1$source ****0000$
record line 1: old rules@new@1@mcdc-record 1$source ****0000$
ok@old@6@mcdc-record 1$source #$bits 6$tests 3$test t1 pass$test t2 pass$test t3 pass$bit 0 *7$bit 1 *7$bit 2 *7$bit 3 *1$bit 4 *2$bit 5 *4$end$
record line 1: old rules@new@6@mcdc-record 1$source #$bits 6$tests 3$test t1 pass$test t2 pass$test t3 pass$bit 0 *7$bit 1 *7$bit 2 *7$bit 3 *1$bit 4 *2$bit 5 *4$end$
# the first line with a fault answers
record line 2: source@any@1@mcdc-record 2$source ****0000$bits 2$tests 5000$
record line 3: shape@any@1@mcdc-record 2$source #$bits 2$tests 5000$
record line 5: word@any@1@mcdc-record 2$source #$bits 1$tests 2$test a none$test a pass$bit 0 *4$
record line 6: name again@any@1@mcdc-record 2$source #$bits 1$tests 2$test a pass$test a pass$bit 0 *4$
record line 7: spare bit@any@1@mcdc-record 2$source #$bits 1$tests 2$test a pass$test b pass$bit 0 *4$
record line 8: ending@any@1@mcdc-record 2$source #$bits 1$tests 2$test a pass$test b pass$bit 0 *2$
# 1,048,576 words, and more
record line 5: word@any@65536@mcdc-record 2$source #$bits 65536$tests 1024$
record line 4: shape@any@65536@mcdc-record 2$source #$bits 65536$tests 1025$
record line 5: word@any@16384@mcdc-record 2$source #$bits 16384$tests 4096$
record line 4: shape@any@16384@mcdc-record 2$source #$bits 16384$tests 4097$
record line 4: shape@any@16385@mcdc-record 2$source #$bits 16385$tests 4096$
record line 5: word@any@16385@mcdc-record 2$source #$bits 16385$tests 4032$
";

// Whether that comes of the text: a fault, or the same text in version 2.
fn comes(
    alloc: Global,
    text: &[u8],
    bits: u32,
    old_rules: bool,
    want: &str,
) -> Result<bool, AllocError>
    requires { bits ≤ 65536 }
{
    let found = outcome(alloc, text, bits, old_rules)?;
    if want != "ok" {
        return Ok(found.as_slice() == want.as_bytes());
    }
    let Some(later) = text.get(14..) else {
        return Ok(false);
    };
    let mut wanted = b"mcdc-record 2\n".to_vec(alloc)?;
    wanted.extend_from_slice(later)?;
    Ok(found == wanted)
}

fn is_right_for(
    alloc: Global,
    want: &str,
    rules: &str,
    bits: &str,
    text: &str,
) -> Result<bool, AllocError> {
    let bits = bits_of(bits);
    let mut whole = Vec::new(alloc);
    write_out(&mut whole, text)?;
    if rules != "old" && !comes(alloc, &whole, bits, false, want)? {
        return Ok(false);
    }
    if rules != "new" && !comes(alloc, &whole, bits, true, want)? {
        return Ok(false);
    }
    Ok(true)
}

fn is_right(alloc: Global, row: &str) -> Result<bool, AllocError> {
    let mut parts = row.split('@');
    match (parts.next(), parts.next(), parts.next(), parts.next()) {
        (Some(want), Some(rules), Some(bits), Some(text)) => {
            is_right_for(alloc, want, rules, bits, text)
        }
        _ => Ok(row.starts_with('#')),
    }
}

#[test]
fn whole_texts(rt: HostRuntime) -> Result<(), Fail> {
    let alloc = rt.alloc();
    for row in ROWS.lines() {
        assert!(rt; is_right(alloc, row)?, "{row}");
    }
    Ok(())
}

fn first_record(alloc: Global) -> Result<Record, RecordFault> {
    let mut text = Vec::new(alloc);
    write_first(&mut text, 14)?;
    read(alloc, &text, 6, false)
}

// Whether it is the record of t1, t2 and t3, which passed.
fn is_of_three(record: &Record) -> bool {
    let [first, second, third] = record.names.as_slice() else {
        return false;
    };
    let [one, two, three] = record.states.as_slice() else {
        return false;
    };
    let named = first.bytes() == b"t1".as_slice()
        && second.bytes() == b"t2".as_slice()
        && third.bytes() == b"t3".as_slice();
    let passed = *one == TestState::Pass && *two == TestState::Pass && *three == TestState::Pass;
    let shape = record.matrix.shape();
    named
        && passed
        && record.digest == DIGEST
        && shape.bits == 6
        && shape.tests == 3
        && record.matrix.as_words() == [7, 7, 7, 1, 2, 4].as_slice()
}

#[test]
fn parts_of_a_record(rt: HostRuntime) -> Result<(), Fail> {
    match first_record(rt.alloc()) {
        Ok(record) => {
            assert!(rt; is_of_three(&record));
            assert!(rt; record.matrix.holds(4, 1) && !record.matrix.holds(4, 0));
        }
        Err(fault) => assert!(rt; false, "{fault}"),
    }
    Ok(())
}

#[test]
fn digests_that_differ(rt: HostRuntime) -> Result<(), Fail> {
    let alloc = rt.alloc();
    let mut text = Vec::new(alloc);
    write_out(&mut text, "mcdc-record 2$source ****00ff$")?;
    let mut other = [0; 32];
    other[31] = 255;
    let want = RecordFault::Source {
        line: 2,
        kept: other,
        given: DIGEST,
    };
    match read(alloc, &text, 6, false) {
        Ok(_) => assert!(rt; false),
        Err(fault) => assert!(rt; fault == want),
    }
    Ok(())
}

#[test]
fn states_as_they_ended(rt: HostRuntime) -> Result<(), Fail> {
    let alloc = rt.alloc();
    let mut text = Vec::new(alloc);
    write_out(&mut text, "mcdc-record 2$source #$bits 0$tests 2$")?;
    write_out(&mut text, "test a fuel$test b fail$end$")?;
    match read(alloc, &text, 0, false) {
        Ok(record) => {
            let want = [TestState::Ended(Ending::Fuel), TestState::Fail];
            assert!(rt; record.states.as_slice() == want.as_slice());
        }
        Err(fault) => assert!(rt; false, "{fault}"),
    }
    Ok(())
}
