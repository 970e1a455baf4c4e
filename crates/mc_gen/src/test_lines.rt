//! The tests file.
ghost use Rattle.std.specs.Prelude.{◌≡◌, ◌≤◌, ◌<◌, ◌++◌, IfOk, OnOk, string_bytes};
ghost use Rattle.std.specs.Int.{bit_at};
ghost use Rattle.mc_limits.specs.Limits.{most_functions};
ghost use Rattle.mc_gen.specs.Tests.{arguments_of, test_line, lines_of, tests_text};

use std::alloc::{AllocError, Global};

/// How many tests a function has: one for each choice of four digits.
const TESTS_EACH: u32 = 16;

fn digit(number: u32, place: u32) -> u32
    requires { place < 32 }
    ensures { result ≡ bit_at number place }
{
    number >> place & 1
}

fn arguments(alloc: Global, test: u32) -> Result<String, AllocError>
    ensures { IfOk result (λ text. string_bytes text ≡ arguments_of test) }
{
    let (a, b, c, d) = (
        digit(test, 0),
        digit(test, 1),
        digit(test, 2),
        digit(test, 3),
    );
    format!(in alloc; "{a} {b} {c} {d}")
}

fn test_line(alloc: Global, function: u32, test: u32) -> Result<String, AllocError>
    ensures { IfOk result (λ line. string_bytes line ≡ test_line function test) }
{
    let arguments = arguments(alloc, test)?;
    format!(in alloc; "g{function}_{test},g{function},{arguments},,,\n")
}

fn push_tests(alloc: Global, text: &mut Vec<u8>, function: u32) -> Result<(), AllocError>
    ensures { OnOk result (text.new.items ≡ text.old.items ++ lines_of function) }
{
    for test in 0..TESTS_EACH {
        let line = test_line(alloc, function, test)?;
        text.extend_from_slice(line.as_bytes())?;
    }
    Ok(())
}

/// The header, and the tests of each function.
pub(crate) fn tests(alloc: Global, functions: u32) -> Result<Vec<u8>, AllocError>
    requires { functions ≤ most_functions }
    ensures { IfOk result (λ text. text.items ≡ tests_text functions) }
{
    let mut text = Vec::new(alloc);
    text.extend_from_slice(b"test,call,arguments,inputs,expect,output\n")?;
    for function in 1..functions + 1 {
        push_tests(alloc, &mut text, function)?;
    }
    Ok(text)
}
