//! One record of a tests file by itself.
ghost use Rattle.std.specs.Prelude.{◌≡◌, ◌≢◌, ◌<◌, Ok, Err, Some, IfOk, IfErr, length, map, option_map};
ghost use Rattle.mc_typed.specs.Views.{function_of};
ghost use Rattle.mc_tests.specs.Lines.{called, function_named, line_of};
ghost use Rattle.plan_fields.specs.Seen.{seen_numbers};
ghost use Rattle.name_table.specs.Tables.{last_of};
ghost use Rattle.mc_tests.specs.Seen.{AreNumbers, seen_line};
ghost use Rattle.mc_tests.specs.declared.fault.TestFault.TheVariants.{OutOfMemory};

use crate::fault::TestFault;
use csv_records::Row;
use mc_typed::{Call, Function};
use name_table::Table;
use plan_fields::{
    Numbers, are_values, has_six_fields, is_callable, is_readable, may_expect, read_all_numbers,
};
use std::alloc::Global;

/// One call of the test with that name, and the inputs that its record adds to those of the test.
#[derive(Drop)]
pub(crate) struct Line<'r> {
    pub name: &'r [u8],
    pub call: Call,
    pub inputs: Vec<i32>,
}

// The number of the first function with a name.
fn number_named(numbers: &Table<'_, u32>, name: &[u8]) -> Option<u32>
    ensures { result ≡ last_of name.now numbers.now }
{
    numbers.get(name).copied()
}

// The first function with a name, and its number.
fn find<'p, 'a>(
    functions: &'p [Function<'a>],
    numbers: &Table<'_, u32>,
    name: &[u8],
) -> Option<(u32, &'p Function<'a>)>
    requires { AreNumbers numbers.now (map function_of functions.now) }
    ensures { option_map (λ found. (found.0, function_of found.1.now)) result
        ≡ function_named name.now 0 (map function_of functions.now) }
{
    let number = number_named(numbers, name)?;
    Some((number, &functions[number as usize]))
}

// The call of a function, where a test can make it.
fn to_line<'r>(
    row: u32,
    fields: &'r Row,
    numbers: Numbers,
    found: Option<(u32, &Function<'_>)>,
) -> Result<Line<'r>, TestFault>
    ensures line { IfOk result (λ l. called row fields.now (seen_numbers numbers)
        (option_map (λ f. (f.0, function_of f.1.now)) found.entry) ≡ Ok (seen_line l)) }
    ensures fault { IfErr result (λ e. called row fields.now (seen_numbers numbers)
        (option_map (λ f. (f.0, function_of f.1.now)) found.entry) ≡ Err e) }
{
    let Some((number, function)) = found else {
        return Err(TestFault::Function { row });
    };
    if !(are_values(&numbers.arguments, &function.parameters)
        && may_expect(numbers.expect, &function.result))
    {
        return Err(TestFault::Arguments { row });
    }
    if !is_callable(function) {
        return Err(TestFault::NotCallable { row });
    }
    let call = Call {
        function: number,
        arguments: numbers.arguments,
        expect: numbers.expect,
        output: numbers.output,
    };
    Ok(Line {
        name: fields.field(0),
        call,
        inputs: numbers.inputs,
    })
}

/// The call that the record with number `row` is, or its lowest fault.
pub(crate) fn read_line<'r>(
    alloc: Global,
    functions: &[Function<'_>],
    numbers: &Table<'_, u32>,
    row: u32,
    fields: &'r Row,
) -> Result<Line<'r>, TestFault>
    requires { AreNumbers numbers.now (map function_of functions.now) }
    ensures line { IfOk result (λ l.
        line_of (map function_of functions.now) row fields.now ≡ Ok (seen_line l)) }
    ensures fault { IfErr result (λ e. e ≢ OutOfMemory
        → line_of (map function_of functions.now) row fields.now ≡ Err e) }
{
    if !has_six_fields(fields) {
        return Err(TestFault::Width { row });
    }
    if !is_readable(fields) {
        return Err(TestFault::Text { row });
    }
    let Some(said) = read_all_numbers(alloc, fields)? else {
        return Err(TestFault::Number { row });
    };
    to_line(row, fields, said, find(functions, numbers, fields.field(1)))
}
