//! The lines of tests.
ghost use Rattle.std.specs.Prelude.{◌≡◌, ◌≢◌, ◌≤◌, ◌||◌, ℕ, List, [], Ok, Err, IfOk, IfErr, OnOk, length};
ghost use Rattle.std.specs.Str.{bytes_eq};
ghost use Rattle.mc_limits.specs.Limits.{most_tests};
ghost use Rattle.mc_record.specs.Seen.{AreSeen, has_name, seen_test, tests_of};
ghost use Rattle.mc_record.specs.Tests.{test_in, tests_in, with_test};
ghost use Rattle.mc_record.specs.declared.fault.RecordFault.TheVariants.{OutOfMemory};

use crate::fault::RecordFault;
use crate::parts::{strip, until};
use csv_records::is_name;
use mc_typed::{Name, TestState};
use report_words::state_named;
use std::alloc::{AllocError, Global};
use std::collections::BTreeSet;

/// What a line says.
#[derive(Clone, Copy, Drop)]
struct TestLine<'a> {
    name: &'a [u8],
    state: TestState,
    rest: &'a [u8],
}

fn read_line(text: &[u8]) -> Option<TestLine<'_>>
    ensures { seen_test result ≡ test_in text.now }
{
    let line = strip(text, b"test ")?;
    let (name, after_name) = until(line, b' ')?;
    let (word, rest) = until(after_name, b'\n')?;
    let state = state_named(word)?;
    if is_name(name) {
        Some(TestLine { name, state, rest })
    } else {
        None
    }
}

fn has_name(seen: &BTreeSet<&[u8]>, name: &[u8]) -> bool
    ensures { result ≡ has_name seen.now name.now }
{
    seen.contains(name)
}

fn add_name<'a>(seen: &mut BTreeSet<&'a [u8]>, name: &'a [u8]) -> Result<(), AllocError>
    ensures { OnOk result ((q : List ℕ)
        → has_name seen.new q ≡ (bytes_eq q name.now || has_name seen.old q)) }
{
    seen.insert(name)?;
    Ok(())
}

/// Adds the test of the next line, and gives what follows it.
fn read_test<'a>(
    alloc: Global,
    names: &mut Vec<Name>,
    states: &mut Vec<TestState>,
    seen: &mut BTreeSet<&'a [u8]>,
    text: &'a [u8],
) -> Result<&'a [u8], RecordFault>
    requires few { length names.old.items ≤ most_tests }
    requires seen { AreSeen names.old.items seen.old }
    ensures seen { IfOk result (λ rest. AreSeen names.new.items seen.new) }
    ensures read { IfOk result (λ rest.
        with_test names.old.items states.old.items (test_in text.now)
        ≡ Ok (tests_of names.new states.new rest.now)) }
    ensures fault { IfErr result (λ e. e ≢ OutOfMemory
        → with_test names.old.items states.old.items (test_in text.now) ≡ Err e) }
{
    let line = 5 + names.len() as u32;
    let Some(test) = read_line(text) else {
        return Err(RecordFault::Word { line });
    };
    if has_name(seen, test.name) {
        return Err(RecordFault::NameAgain { line });
    }
    add_name(seen, test.name)?;
    names.push(Name::new(test.name.to_vec(alloc)?))?;
    states.push(test.state)?;
    Ok(test.rest)
}

/// Adds this number of tests, and gives what follows their lines.
pub(crate) fn read_tests<'a>(
    alloc: Global,
    names: &mut Vec<Name>,
    states: &mut Vec<TestState>,
    text: &'a [u8],
    tests: u32,
) -> Result<&'a [u8], RecordFault>
    requires few { tests ≤ most_tests }
    requires names { names.old.items ≡ [] }
    requires states { states.old.items ≡ [] }
    ensures read { IfOk result (λ rest.
        tests_in [] [] tests text.now ≡ Ok (tests_of names.new states.new rest.now)) }
    ensures fault { IfErr result (λ e. e ≢ OutOfMemory
        → tests_in [] [] tests text.now ≡ Err e) }
{
    let mut seen = BTreeSet::new(alloc);
    let mut left = text;
    for _test in 0..tests {
        left = read_test(alloc, names, states, &mut seen, left)?;
    }
    Ok(left)
}
