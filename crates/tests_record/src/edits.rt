//! Records with one line changed, and those that are cut off.

use crate::outcome::outcome;
use crate::text::{write_edited, write_first, write_out};
use std::alloc::{AllocError, Global};
use std::test::Fail;

/// A row is what comes of the record with a text in place of a line: the text of the fault, or `ok`
/// where it is written as it was read; `@`, the number of the line, `@` and the text, as
/// `write_out` reads it.
static ROWS: &str = "\
ok@1@mcdc-record 2$
# line 1
record line 1: header@1@
record line 1: header@1@$
record line 1: header@1@mcdc-record 0$
record line 1: header@1@mcdc-record 3$
record line 1: header@1@mcdc-record 22$
record line 1: header@1@mcdc-record 11$
record line 1: header@1@mcdc-record 12$
record line 1: header@1@mcdc-record 21$
record line 1: header@1@mcdc-record 02$
record line 1: header@1@mcdc-record 2 $
record line 1: header@1@ mcdc-record 2$
record line 1: header@1@mcdc-record  2$
record line 1: header@1@Mcdc-record 2$
record line 1: header@1@mcdc-record 2^$
record line 1: header@1@mcdc-record 1^$
record line 1: header@1@mcdc-record 2
# line 2
record line 2: header@2@
record line 2: header@2@source$
record line 2: header@2@source $
record line 2: header@2@Source #$
record line 2: header@2@source  #$
record line 2: header@2@source #<$
record line 2: header@2@source #0$
record line 2: header@2@source # $
record line 2: header@2@source #^$
record line 2: header@2@source #
record line 2: header@2@source #<F$
record line 2: header@2@source #<g$
record line 2: header@2@source #<@$
record line 2: header@2@source #</$
record line 2: header@2@source #<:$
record line 2: header@2@source #<`$
record line 2: header@2@source 0x#<<$
record line 2: source@2@source #<e$
record line 2: source@2@source #<<bf$
record line 2: source@2@source ****0000$
# line 3
record line 3: shape@3@
record line 3: shape@3@bits 7$
record line 3: shape@3@bits 5$
record line 3: shape@3@bits 06$
record line 3: shape@3@bits +6$
record line 3: shape@3@bits 6 $
record line 3: shape@3@bits  6$
record line 3: shape@3@bits 6^$
record line 3: shape@3@bits 66$
record line 3: shape@3@bits $
record line 3: shape@3@bit 6$
record line 3: shape@3@Bits 6$
record line 3: shape@3@bits 6
# line 4
record line 4: shape@4@
record line 4: shape@4@tests$
record line 4: shape@4@tests $
record line 4: shape@4@tests x$
record line 4: shape@4@tests 03$
record line 4: shape@4@tests 00$
record line 4: shape@4@tests +3$
record line 4: shape@4@tests -3$
record line 4: shape@4@tests -0$
record line 4: shape@4@tests  3$
record line 4: shape@4@tests 3 $
record line 4: shape@4@tests 3^$
record line 4: shape@4@tests 0x3$
record line 4: shape@4@Tests 3$
record line 4: shape@4@test 3$
record line 4: shape@4@tests 3
record line 4: shape@4@tests 4097$
record line 4: shape@4@tests 4294967299$
record line 4: shape@4@tests 18446744073709551615$
record line 4: shape@4@tests 18446744073709551619$
record line 8: word@4@tests 4096$
record line 8: word@4@tests 4$
record line 7: word@4@tests 2$
record line 5: word@4@tests 0$
# the line of a test
record line 7: word@5@
record line 7: word@6@
record line 7: word@7@
record line 5: word@5@$
record line 5: word@5@test$
record line 5: word@5@test $
record line 5: word@5@test t1$
record line 5: word@5@test t1 $
record line 5: word@5@test  pass$
record line 5: word@5@test  t1 pass$
record line 5: word@5@ test t1 pass$
record line 5: word@5@Test t1 pass$
record line 5: word@5@tests t1 pass$
record line 5: word@5@test t/1 pass$
record line 5: word@5@test t\u{e9} pass$
record line 5: word@5@test t1, pass$
record line 5: word@5@test t1 Pass$
record line 5: word@5@test t1 passed$
record line 5: word@5@test t1 pass $
record line 5: word@5@test t1  pass$
record line 5: word@5@test t1 pass^$
record line 5: word@5@test t1 pas$
record line 5: word@5@test t1 returned$
record line 5: word@5@test t1 trap$
record line 5: word@5@test t1 trap-over$
record line 5: word@5@test t1 out-of-memory$
record line 5: word@5@test t1 pass
record line 5: word@5@test %nnnnn pass$
record line 7: word@7@bit 0 *7$
ok@5@test %nnnn pass$
ok@5@test a-Z_0.9 pass$
ok@5@test T2 fail$
ok@6@test t trap-overflow$
ok@7@test - output-full$
# a name that stands in an earlier line
record line 6: name again@6@test t1 pass$
record line 6: name again@5@test t2 pass$
record line 7: name again@5@test t3 pass$
record line 7: name again@7@test t1 fail$
record line 7: name again@7@test t2 trap-index$
record line 7: word@7@test t1 $
record line 7: word@7@test t1 pass^$
# the line of a bit
record line 8: word@8@
record line 9: word@9@
record line 13: word@13@
record line 8: word@8@$
record line 8: word@8@bit 1 *7$
record line 8: word@8@bit 00 *7$
record line 8: word@8@bit +0 *7$
record line 8: word@8@bit -0 *7$
record line 8: word@8@bit  *7$
record line 8: word@8@bits 0 *7$
record line 8: word@8@Bit 0 *7$
record line 8: word@8@bit 0$
record line 8: word@8@bit 0 $
record line 8: word@8@bit 0 *$
record line 8: word@8@bit 0 *07$
record line 8: word@8@bit 0 *7 *0$
record line 8: word@8@bit 0  *7$
record line 8: word@8@bit 0 *7 $
record line 8: word@8@bit 0 *7^$
record line 8: word@8@bit 0 *A$
record line 8: word@8@bit 0 *g$
record line 8: word@8@bit 0 * 7$
record line 8: word@8@bit 0 0x*7$
record line 8: word@8@bit 0 *7
record line 9: word@9@bit 0 *7$
record line 13: word@13@bit 6 *4$
record line 13: word@13@bit 5 *4
ok@8@bit 0 *0$
ok@11@bit 3 *7$
# a bit of a test that does not exist
record line 8: spare bit@8@bit 0 *8$
record line 8: spare bit@8@bit 0 *f$
record line 13: spare bit@13@bit 5 *8$
record line 13: spare bit@13@bit 5 8*$
record line 13: spare bit@13@bit 5 0000000100000000$
record line 13: word@13@bit 5 *8 $
record line 13: word@13@bit 5 *8
# the last line
record line 14: ending@14@
record line 14: ending@14@$
record line 14: ending@14@end
record line 14: ending@14@en$
record line 14: ending@14@End$
record line 14: ending@14@ end$
record line 14: ending@14@end $
record line 14: ending@14@end^$
record line 14: ending@14@ends$
record line 14: ending@14@bit 6 *0$end$
record line 14: ending@14@test t4 pass$end$
record line 14: ending@14@end$$
record line 14: ending@14@end$end$
record line 14: ending@14@end$x
record line 14: ending@14@end$mcdc-record 2$
";

/// What comes of the first lines alone, from none to all.
static CUT: [&str; 15] = [
    "record line 1: header",
    "record line 2: header",
    "record line 3: shape",
    "record line 4: shape",
    "record line 5: word",
    "record line 6: word",
    "record line 7: word",
    "record line 8: word",
    "record line 9: word",
    "record line 10: word",
    "record line 11: word",
    "record line 12: word",
    "record line 13: word",
    "record line 14: ending",
    "ok",
];

// Whether that comes of the text under either rules.
fn comes(alloc: Global, text: &[u8], want: &str) -> Result<bool, AllocError> {
    let new = outcome(alloc, text, 6, false)?;
    let old = outcome(alloc, text, 6, true)?;
    let wanted = if want == "ok" { text } else { want.as_bytes() };
    Ok(new.as_slice() == wanted && old.as_slice() == wanted)
}

fn number_of(text: &str) -> usize {
    text.parse::<usize>().unwrap_or(0)
}

fn is_right(alloc: Global, row: &str) -> Result<bool, AllocError> {
    let Some((want, edit)) = row.split_once('@') else {
        return Ok(row.starts_with('#'));
    };
    let Some((line, text)) = edit.split_once('@') else {
        return Ok(false);
    };
    let mut edited = Vec::new(alloc);
    write_edited(&mut edited, number_of(line), text)?;
    comes(alloc, &edited, want)
}

fn is_cut(alloc: Global, count: usize, want: &str) -> Result<bool, AllocError> {
    let mut text = Vec::new(alloc);
    write_first(&mut text, count)?;
    comes(alloc, &text, want)
}

#[test]
fn changed_lines(rt: HostRuntime) -> Result<(), Fail> {
    let alloc = rt.alloc();
    for row in ROWS.lines() {
        assert!(rt; is_right(alloc, row)?, "{row}");
    }
    Ok(())
}

#[test]
fn first_lines_alone(rt: HostRuntime) -> Result<(), Fail> {
    let alloc = rt.alloc();
    for count in 0..15 {
        assert!(rt; is_cut(alloc, count, CUT[count])?, "{count}");
    }
    Ok(())
}
