//! Every binary operator on every pair of types that promotion leaves as they are, and on some
//! pairs of narrower ones, at the ends of their ranges.

use crate::fail::Fail;
use crate::reading::told;
use std::alloc::Global;

static OPERATORS: [&str; 16] = [
    "+", "-", "*", "/", "%", "<<", ">>", "<", ">", "<=", ">=", "==", "!=", "&", "^", "|",
];

/// Two types, a value of each, and what each operator gives, as a `long`: a number, or `o`, `d` or
/// `s` for a trap of an overflow, a division by zero or a shift. Written by bench/operators, which
/// asks gcc.
const ROWS: &str = "\
_Bool|char|1 127|128 -126 127 0 1 s s 1 0 1 0 0 1 1 126 127
_Bool|unsigned long|1 18446744073709551615|0 2 -1 0 1 s s 1 0 1 0 0 1 1 -2 -1
char|signed char|127 127|254 0 16129 1 0 s s 0 0 1 1 1 0 127 0 127
char|unsigned|-128 4294967295|4294967167 4294967169 128 0 4294967168 s s 1 0 1 0 0 1 4294967168 127 4294967295
signed char|unsigned char|127 255|382 -128 32385 0 127 s s 1 0 1 0 0 1 127 128 255
unsigned char|short|255 32767|33022 -32512 8355585 0 255 s s 1 0 1 0 0 1 255 32512 32767
unsigned char|long|255 9223372036854775807|o -9223372036854775552 o 0 255 s s 1 0 1 0 0 1 255 9223372036854775552 9223372036854775807
short|unsigned short|32767 65535|98302 -32768 2147385345 0 32767 s s 1 0 1 0 0 1 32767 32768 65535
unsigned short|_Bool|65535 0|65535 65535 0 d d 65535 65535 0 1 0 1 0 1 0 65535 65535
unsigned short|int|65535 2147483647|o -2147418112 o 0 65535 s s 1 0 1 0 0 1 65535 2147418112 2147483647
int|int|-2147483648 -2147483648|o 0 o 1 0 s s 0 0 1 1 1 0 -2147483648 0 -2147483648
int|unsigned|2147483647 4294967295|2147483646 2147483648 2147483649 0 2147483647 s s 1 0 1 0 0 1 2147483647 2147483648 4294967295
int|long|-2147483648 9223372036854775807|9223372034707292159 o o 0 -2147483648 s s 1 0 1 0 0 1 9223372034707292160 -9223372034707292161 -1
int|unsigned long|2147483647 0|2147483647 2147483647 0 d d 2147483647 2147483647 0 1 0 1 0 1 0 2147483647 2147483647
int|long long|-2147483648 -9223372036854775808|o 9223372034707292160 o 0 -2147483648 s s 0 1 0 1 0 1 -9223372036854775808 9223372034707292160 -2147483648
int|unsigned long long|2147483647 18446744073709551615|2147483646 2147483648 -2147483647 0 2147483647 s s 1 0 1 0 0 1 2147483647 -2147483648 -1
unsigned|int|4294967295 -2147483648|2147483647 2147483647 2147483648 1 2147483647 s s 0 1 0 1 0 1 2147483648 2147483647 4294967295
unsigned|unsigned|0 0|0 0 0 d d 0 0 0 0 1 1 1 0 0 0 0
unsigned|long|4294967295 9223372036854775807|o -9223372032559808512 o 0 4294967295 s s 1 0 1 0 0 1 4294967295 9223372032559808512 9223372036854775807
unsigned|unsigned long|0 18446744073709551615|-1 1 0 0 0 s s 1 0 1 0 0 1 0 -1 -1
unsigned|long long|4294967295 -9223372036854775808|-9223372032559808513 o o 0 4294967295 s s 0 1 0 1 0 1 0 -9223372032559808513 -9223372032559808513
unsigned|unsigned long long|0 0|0 0 0 d d 0 0 0 0 1 1 1 0 0 0 0
long|int|-9223372036854775808 2147483647|-9223372034707292161 o o -4294967298 -2 s s 1 0 1 0 0 1 0 -9223372034707292161 -9223372034707292161
long|unsigned|9223372036854775807 0|9223372036854775807 9223372036854775807 0 d d 9223372036854775807 9223372036854775807 0 1 0 1 0 1 0 9223372036854775807 9223372036854775807
long|long|-9223372036854775808 -9223372036854775808|o 0 o 1 0 s s 0 0 1 1 1 0 -9223372036854775808 0 -9223372036854775808
long|unsigned long|9223372036854775807 18446744073709551615|9223372036854775806 -9223372036854775808 -9223372036854775807 0 9223372036854775807 s s 1 0 1 0 0 1 9223372036854775807 -9223372036854775808 -1
long|long long|-9223372036854775808 9223372036854775807|-1 o o -1 -1 s s 1 0 1 0 0 1 0 -1 -1
long|unsigned long long|9223372036854775807 0|9223372036854775807 9223372036854775807 0 d d 9223372036854775807 9223372036854775807 0 1 0 1 0 1 0 9223372036854775807 9223372036854775807
unsigned long|short|18446744073709551615 -32768|-32769 32767 32768 1 32767 s s 0 1 0 1 0 1 -32768 32767 -1
unsigned long|int|18446744073709551615 2147483647|2147483646 -2147483648 -2147483647 8589934596 3 s s 0 1 0 1 0 1 2147483647 -2147483648 -1
unsigned long|unsigned|0 4294967295|4294967295 -4294967295 0 0 0 s s 1 0 1 0 0 1 0 4294967295 4294967295
unsigned long|long|18446744073709551615 -9223372036854775808|9223372036854775807 9223372036854775807 -9223372036854775808 1 9223372036854775807 s s 0 1 0 1 0 1 -9223372036854775808 9223372036854775807 -1
unsigned long|unsigned long|0 0|0 0 0 d d 0 0 0 0 1 1 1 0 0 0 0
unsigned long|long long|18446744073709551615 9223372036854775807|9223372036854775806 -9223372036854775808 -9223372036854775807 2 1 s s 0 1 0 1 0 1 9223372036854775807 -9223372036854775808 -1
unsigned long|unsigned long long|0 18446744073709551615|-1 1 0 0 0 s s 1 0 1 0 0 1 0 -1 -1
long long|int|-9223372036854775808 -2147483648|o -9223372034707292160 o 4294967296 0 s s 1 0 1 0 0 1 -9223372036854775808 9223372034707292160 -2147483648
long long|unsigned|9223372036854775807 4294967295|o 9223372032559808512 o 2147483648 2147483647 s s 0 1 0 1 0 1 4294967295 9223372032559808512 9223372036854775807
long long|long|-9223372036854775808 9223372036854775807|-1 o o -1 -1 s s 1 0 1 0 0 1 0 -1 -1
long long|unsigned long|9223372036854775807 0|9223372036854775807 9223372036854775807 0 d d 9223372036854775807 9223372036854775807 0 1 0 1 0 1 0 9223372036854775807 9223372036854775807
long long|long long|-9223372036854775808 -9223372036854775808|o 0 o 1 0 s s 0 0 1 1 1 0 -9223372036854775808 0 -9223372036854775808
long long|unsigned long long|9223372036854775807 18446744073709551615|9223372036854775806 -9223372036854775808 -9223372036854775807 0 9223372036854775807 s s 1 0 1 0 0 1 9223372036854775807 -9223372036854775808 -1
unsigned long long|signed char|18446744073709551615 -128|-129 127 128 1 127 s s 0 1 0 1 0 1 -128 127 -1
unsigned long long|int|18446744073709551615 -2147483648|-2147483649 2147483647 2147483648 1 2147483647 s s 0 1 0 1 0 1 -2147483648 2147483647 -1
unsigned long long|unsigned|0 0|0 0 0 d d 0 0 0 0 1 1 1 0 0 0 0
unsigned long long|long|18446744073709551615 9223372036854775807|9223372036854775806 -9223372036854775808 -9223372036854775807 2 1 s s 0 1 0 1 0 1 9223372036854775807 -9223372036854775808 -1
unsigned long long|unsigned long|0 18446744073709551615|-1 1 0 0 0 s s 1 0 1 0 0 1 0 -1 -1
unsigned long long|long long|18446744073709551615 -9223372036854775808|9223372036854775807 9223372036854775807 -9223372036854775808 1 9223372036854775807 s s 0 1 0 1 0 1 -9223372036854775808 9223372036854775807 -1
unsigned long long|unsigned long long|0 0|0 0 0 d d 0 0 0 0 1 1 1 0 0 0 0
";

/// How a run ends.
fn ending_of(told: &str) -> &'static str {
    match told {
        "o" => "trap-overflow",
        "d" => "trap-division",
        "s" => "trap-shift",
        _ => "returned",
    }
}

/// The value that a run gives.
fn value_of(told: &str) -> &str {
    match told {
        "o" | "d" | "s" => "",
        value => value,
    }
}

/// Two types, the values that an operator takes of them, and what each operator gives.
#[derive(Clone, Copy)]
struct Operands<'t> {
    left: &'t str,
    right: &'t str,
    values: &'t str,
    results: &'t str,
}

fn operands_of(row: &str) -> Option<Operands<'_>> {
    let (left, rest) = row.split_once('|')?;
    let (right, rest) = rest.split_once('|')?;
    let (values, results) = rest.split_once('|')?;
    Some(Operands {
        left,
        right,
        values,
        results,
    })
}

/// How each test ends.
fn add_endings(text: &mut String, results: &str) -> Result<(), Fail> {
    for told in results.split_whitespace() {
        text.push_str(ending_of(told))?;
        text.push_str(",")?;
    }
    Ok(())
}

/// A test for each operator.
fn add_records(alloc: Global, text: &mut String, of: &Operands<'_>) -> Result<(), Fail> {
    let values = of.values;
    for (at, told) in of.results.split_whitespace().enumerate() {
        let value = value_of(told);
        let record = format!(in alloc; "t{at},f{at},{values},,{value},$")?;
        text.push_str(record.as_str())?;
    }
    Ok(())
}

/// A function for each operator.
fn add_source(alloc: Global, text: &mut String, of: &Operands<'_>) -> Result<(), Fail> {
    let (left, right) = (of.left, of.right);
    for (at, operator) in OPERATORS.iter().enumerate() {
        let function = format!(in alloc; "long f{at}({left} a,{right} b){{return a{operator}b;}}")?;
        text.push_str(function.as_str())?;
    }
    Ok(())
}

fn text_of(alloc: Global, of: &Operands<'_>) -> Result<String, Fail> {
    let mut text = String::new(alloc);
    add_endings(&mut text, of.results)?;
    text.push_str(" 2 0@")?;
    add_records(alloc, &mut text, of)?;
    text.push_str("@")?;
    add_source(alloc, &mut text, of)?;
    Ok(text)
}

/// Whether each operator gives what a row tells of it.
fn give(alloc: Global, row: &str) -> Result<bool, Fail> {
    let Some(of) = operands_of(row) else {
        return Err(Fail);
    };
    let text = text_of(alloc, &of)?;
    told(alloc, text.as_str())
}

#[test]
fn operators(rt: HostRuntime) -> Result<(), Fail> {
    for row in ROWS.lines() {
        assert!(rt; matches!(give(rt.alloc(), row), Ok(true)), "{row}");
    }
    Ok(())
}
