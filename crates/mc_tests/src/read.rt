//! The plans that a tests file stands for.
ghost use Rattle.std.specs.Prelude.{◌≡◌, ◌≢◌, ◌≤◌, ◌<◌, ◌^◌, [], Ok, Err, IfOk, IfErr, length, map};
ghost use Rattle.mc_limits.specs.Limits.{most_fuel, most_tests};
ghost use Rattle.mc_typed.specs.Views.{function_of, program_of};
ghost use Rattle.mc_tests.specs.File.{AllFit, AreNamed, records_from, rows_file, tests_file};
ghost use Rattle.mc_tests.specs.Seen.{seen_plans};
ghost use Rattle.mc_tests.specs.declared.fault.TestFault.TheVariants.{OutOfMemory};

use crate::fault::TestFault;
use crate::functions::numbers_by_name;
use crate::line::read_line;
use crate::tests::{add, no_tests, to_plans};
use csv_records::Rows;
use mc_typed::{Function, Program, TestPlan};
use plan_fields::is_header;
use std::alloc::Global;

// The plans of the records that are left, the first of which is record 2.
fn read_records(
    alloc: Global,
    functions: &[Function<'_>],
    fuel: u32,
    rows: &mut Rows<'_>,
) -> Result<Vec<TestPlan>, TestFault>
    requires { length functions.now < 2 ^ 31 }
    ensures plans { IfOk result (λ v.
        records_from (map function_of functions.now) fuel 2 [] rows.old ≡ Ok (seen_plans v.items)) }
    ensures fault { IfErr result (λ e. e ≢ OutOfMemory
        → records_from (map function_of functions.now) fuel 2 [] rows.old ≡ Err e) }
{
    let numbers = numbers_by_name(alloc, functions)?;
    let mut tests = no_tests(alloc, fuel);
    let mut row = 2;
    'reading: while let Some(fields) = rows.next_row()? {
        let line = read_line(alloc, functions, &numbers, row, &fields)?;
        tests = add(alloc, tests, row, line)?;
        row += 1;
    }
    Ok(to_plans(tests)?)
}

fn read_rows(
    alloc: Global,
    functions: &[Function<'_>],
    fuel: u32,
    rows: &mut Rows<'_>,
) -> Result<Vec<TestPlan>, TestFault>
    requires { length functions.now < 2 ^ 31 }
    ensures plans { IfOk result (λ v.
        rows_file (map function_of functions.now) fuel rows.old ≡ Ok (seen_plans v.items)) }
    ensures fault { IfErr result (λ e. e ≢ OutOfMemory
        → rows_file (map function_of functions.now) fuel rows.old ≡ Err e) }
{
    let Some(first) = rows.next_row()? else {
        return Err(TestFault::Header { row: 1 });
    };
    if !is_header(&first) {
        return Err(TestFault::Header { row: 1 });
    }
    read_records(alloc, functions, fuel, rows)
}

/// The plans that the bytes of a tests file stand for, each with so many units of fuel, from 1 to
/// 100,000,000, or the first fault of the file. Each plan fits the program. The file is read up to
/// the first record that has a fault, and a record is dropped as soon as its call stands in its
/// test.
pub fn read_tests(
    alloc: Global,
    bytes: &[u8],
    program: &Program<'_>,
    fuel: u32,
) -> Result<Vec<TestPlan>, TestFault>
    requires some { 1 ≤ fuel }
    requires few { fuel ≤ most_fuel }
    ensures plans { IfOk result (λ v.
        tests_file (program_of program.now) fuel bytes.now ≡ Ok (seen_plans v.items)) }
    ensures fit { IfOk result (λ v. AllFit (program_of program.now) (seen_plans v.items)) }
    ensures named { IfOk result (λ v. AreNamed (seen_plans v.items)) }
    ensures few { IfOk result (λ v. length (seen_plans v.items) ≤ most_tests) }
    ensures fault { IfErr result (λ e. e ≢ OutOfMemory
        → tests_file (program_of program.now) fuel bytes.now ≡ Err e) }
{
    let mut rows = Rows::of(alloc, bytes);
    read_rows(alloc, program.functions(), fuel, &mut rows)
}
