//! The fields of a record of a tests file.
ghost use Rattle.std.specs.Prelude.{◌≡◌, ◌==◌, IfOk, length, option_map};
ghost use Rattle.std.specs.List.{list_all};
ghost use Rattle.plan_fields.specs.Fields.{all_four, expected_output, expected_value, is_header, is_printable, is_readable, numbers_in};
ghost use Rattle.csv_records.specs.Names.{is_name};
ghost use Rattle.csv_records.specs.Numbers.{number_of};
ghost use Rattle.plan_fields.specs.Numbers.{int_of, numbers_of};
ghost use Rattle.plan_fields.specs.Seen.{seen_numbers, seen_output};

use crate::numbers::{read_ints, read_numbers};
use csv_records::{Row, is_name, read_number};
use std::alloc::{AllocError, Global};

const FIELDS: usize = 6;

/// Whether the record is the first one that each tests file has. Takes no memory.
pub fn is_header(fields: &Row) -> bool
    ensures { result ≡ is_header fields.now }
{
    fields.len() == FIELDS
        && fields.field(0) == b"test".as_slice()
        && fields.field(1) == b"call".as_slice()
        && fields.field(2) == b"arguments".as_slice()
        && fields.field(3) == b"inputs".as_slice()
        && fields.field(4) == b"expect".as_slice()
        && fields.field(5) == b"output".as_slice()
}

fn is_printable(b: u8) -> bool
    ensures { result ≡ is_printable b }
{
    b >= 32 && b <= 126
}

fn has_only_printable(text: &[u8]) -> bool
    ensures { result ≡ list_all is_printable text.now }
{
    text.iter().all(|b| is_printable(*b))
}

/// Whether there are six fields. Takes no memory.
pub fn has_six_fields(fields: &Row) -> bool
    ensures { result ≡ (length fields.now == 6) }
{
    fields.len() == FIELDS
}

/// Whether a record of six fields has printable characters alone and begins with the name of a
/// test. Takes no memory.
pub fn is_readable(fields: &Row) -> bool
    requires { length fields.now ≡ 6 }
    ensures { result ≡ is_readable fields.now }
{
    has_only_printable(fields.field(0))
        && has_only_printable(fields.field(1))
        && has_only_printable(fields.field(2))
        && has_only_printable(fields.field(3))
        && has_only_printable(fields.field(4))
        && has_only_printable(fields.field(5))
        && is_name(fields.field(0))
}

/// What the four fields of numbers of a record say.
#[derive(Drop)]
pub struct Numbers {
    pub arguments: Vec<i128>,
    pub inputs: Vec<i32>,
    pub expect: Option<i128>,
    pub output: Option<Vec<i32>>,
}

// The value that has to be returned: any where the field is empty.
fn expected_value(text: &[u8]) -> Option<Option<i128>>
    ensures { result ≡ expected_value text.now }
{
    if text.is_empty() {
        return Some(None);
    }
    match read_number(text) {
        Some(value) => Some(Some(value)),
        None => None,
    }
}

// The numbers that have to be appended to the output: any where the field is empty.
fn expected_output(alloc: Global, text: &[u8]) -> Result<Option<Option<Vec<i32>>>, AllocError>
    ensures { IfOk result (λ found. option_map seen_output found ≡ expected_output text.now) }
{
    if text.is_empty() {
        return Ok(Some(None));
    }
    if text == b"none".as_slice() {
        return Ok(Some(Some(Vec::new(alloc))));
    }
    match read_ints(alloc, text)? {
        Some(numbers) => Ok(Some(Some(numbers))),
        None => Ok(None),
    }
}

/// What the fields of numbers of a record say, or `None` exactly where one of them is no field of
/// numbers.
pub fn read_all_numbers(alloc: Global, fields: &Row) -> Result<Option<Numbers>, AllocError>
    ensures { IfOk result (λ found. option_map seen_numbers found ≡ numbers_in fields.now) }
{
    let Some(arguments) = read_numbers(alloc, fields.field(2))? else {
        return Ok(None);
    };
    let Some(inputs) = read_ints(alloc, fields.field(3))? else {
        return Ok(None);
    };
    let Some(expect) = expected_value(fields.field(4)) else {
        return Ok(None);
    };
    let Some(output) = expected_output(alloc, fields.field(5))? else {
        return Ok(None);
    };
    Ok(Some(Numbers {
        arguments,
        inputs,
        expect,
        output,
    }))
}
