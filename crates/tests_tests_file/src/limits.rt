//! The limits of tests, calls, inputs and expected outputs, and one more of each.
use std::alloc::{AllocError, Global};

/// A row for each file: how many tests it makes or its fault, and after `@` its records. There `$`
/// is a line feed, and `{9|,}` stands for the numbers from 0 to 8, a comma after each.
pub(crate) const LIMITS: &str = "\
# 4,096 tests, one more, and one more with an earlier name, which is the lower fault
4096 tests@t{4095|,z,,,,$t}x,z,,,,$
4098: limit@t{4096|,z,,,,$t}x,z,,,,$
4098: name again@t{4096|,z,,,,$t}0,z,,,,$
# 1,024 calls of a test, and one more
1 tests@a,z,,,{1023|,$a,z,,,},$
1026: limit@a,z,,,{1024|,$a,z,,,},$
# 4,096 inputs of a test in three records, and one more
1 tests@a,z,,{2047| }1,,$a,z,,,,$a,z,,{2047| }1,,$
4: limit@a,z,,{2047| }1,,$a,z,,,,$a,z,,{2048| }1,,$
# the same with expected outputs
1 tests@a,z,,,,{2047| }1$a,z,,,,none$a,z,,,,{2047| }1$
4: limit@a,z,,,,{2047| }1$a,z,,,,none$a,z,,,,{2048| }1$
# a record that passes a limit and has another fault too: the lower number answers
2: limit@a,z,,{4096| }1,,$
2: width@a,z,{4096| }1,,$
2: text@a+,z,,{4096| }1,,$
2: number@a,z,,x {4096| }1,,$
2: function@a,g,,{4096| }1,,$
2: arguments@a,z,1,{4096| }1,,$
2: not callable@a,t,,{4096| }1,,$
4: name again@a,z,,,,$b,z,,,,$a,z,,{4096| }1,,$
4: limit@a,z,,,,$b,z,,,,$b,z,,{4096| }1,,$
";

fn push_number(
    alloc: Global,
    text: &mut String,
    number: u32,
    tail: &str,
) -> Result<(), AllocError> {
    let one = format!(in alloc; "{number}{tail}")?;
    text.push_str(one.as_str())
}

// What a part of a row stands for: `9|,}x` are numbers with a text after each, and then `x`.
fn push_part(alloc: Global, text: &mut String, part: &str) -> Result<(), AllocError> {
    let Some((count, rest)) = part.split_once('|') else {
        return text.push_str(part);
    };
    let Some((tail, last)) = rest.split_once('}') else {
        return text.push_str(part);
    };
    for number in 0..count.parse::<u32>().unwrap_or(0) {
        push_number(alloc, text, number, tail)?;
    }
    text.push_str(last)
}

/// Adds the text of a row with its numbers written out.
pub(crate) fn write_out(alloc: Global, text: &mut String, row: &str) -> Result<(), AllocError> {
    for part in row.split('{') {
        push_part(alloc, text, part)?;
    }
    Ok(())
}
