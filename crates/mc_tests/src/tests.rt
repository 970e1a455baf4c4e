//! The tests that the records of a tests file make.
ghost use Rattle.std.specs.Prelude.{◌≡◌, ◌≢◌, ◌++◌, ◌∷◌, ◌||◌, ◌&&◌, ◌+◌, ℕ, List, [], not, Some, IfOk, IfErr, OnOk, length, nat_le};
ghost use Rattle.std.specs.Str.{bytes_eq};
ghost use Rattle.mc_limits.specs.Limits.{most_tests};
ghost use Rattle.mc_tests.specs.Seen.{AreRead, IsCounted, Stand, has_name, open_plans, plans_in, seen_draft, seen_line, seen_plans};
ghost use Rattle.mc_tests.specs.Tests.{is_small, test_of, tests_fault};
ghost use Rattle.mc_tests.specs.steps.Adding.{extended, with_last};
ghost use Rattle.mc_tests.specs.declared.fault.TestFault.TheVariants.{OutOfMemory};

use crate::draft::{Draft, extend, fits_alone, has_room, start, to_plan};
use crate::fault::TestFault;
use crate::line::Line;
use mc_limits::MOST_TESTS;
use mc_typed::TestPlan;
use name_table::hash;
use std::alloc::{AllocError, Global};
use std::collections::BTreeSet;

const MAX_TESTS: usize = MOST_TESTS as usize;

/// The names of tests, each after its hash, so that the search compares numbers first.
pub(crate) type Names = BTreeSet<(u64, Vec<u8>)>;

/// The tests so far, the last of which is open: its next record may follow. The names are those of
/// them all.
#[derive(Drop)]
pub(crate) struct Tests {
    pub fuel: u32,
    pub done: Vec<TestPlan>,
    pub open: Option<Draft>,
    pub names: Names,
}

/// No tests. Takes no memory.
pub(crate) fn no_tests(alloc: Global, fuel: u32) -> Tests
    ensures stand { Stand result }
    ensures none { plans_in result ≡ [] }
    ensures fuel { result.fuel ≡ fuel }
{
    Tests {
        fuel,
        done: Vec::new(alloc),
        open: None,
        names: BTreeSet::new(alloc),
    }
}

// Adds a name, and tells whether it is a new one: one search does both.
fn add_name(alloc: Global, names: &mut Names, name: &[u8]) -> Result<bool, AllocError>
    ensures new { IfOk result (λ is_new. not is_new ≡ has_name names.old name.now) }
    ensures names { OnOk result ((q : List ℕ)
        → has_name names.new q ≡ (bytes_eq name.now q || has_name names.old q)) }
{
    let is_new = names.insert((hash(name), name.to_vec(alloc)?))?;
    Ok(is_new)
}

// Whether one test more, of this record alone, keeps the limits.
fn has_room_after(done: &[TestPlan], line: &Line<'_>) -> bool
    ensures { (fuel : ℕ) → result
        ≡ (nat_le (length done.now + 1) most_tests && is_small (test_of fuel (seen_line line.now))) }
{
    done.len() < MAX_TESTS && fits_alone(line)
}

// The tests with one of this record alone after them. Its name is added first, since a name that
// comes again answers before a limit; a file that is refused loses its names.
fn add_test(
    alloc: Global,
    fuel: u32,
    done: Vec<TestPlan>,
    names: Names,
    row: u32,
    line: Line<'_>,
) -> Result<Tests, TestFault>
    requires { AreRead (seen_plans done.items) names }
    ensures fuel { IfOk result (λ after. after.fuel ≡ fuel) }
    ensures stand { IfOk result (λ after. Stand after) }
    ensures plans { IfOk result (λ after. plans_in after
        ≡ seen_plans done.items ++ test_of fuel (seen_line line.entry) ∷ []) }
    ensures fault { IfErr result (λ e. e ≢ OutOfMemory → tests_fault row
        (seen_plans done.items ++ test_of fuel (seen_line line.entry) ∷ []) ≡ Some e) }
{
    let mut names = names;
    let is_new = add_name(alloc, &mut names, line.name)?;
    if !is_new {
        return Err(TestFault::NameAgain { row });
    }
    if !has_room_after(&done, &line) {
        return Err(TestFault::Limit { row });
    }
    let draft = start(alloc, line)?;
    Ok(Tests {
        fuel,
        done,
        open: Some(draft),
        names,
    })
}

// The tests with one more record in the open one.
fn add_to_open(
    fuel: u32,
    done: Vec<TestPlan>,
    draft: Draft,
    names: Names,
    row: u32,
    line: Line<'_>,
) -> Result<Tests, TestFault>
    requires counted { IsCounted draft }
    requires read { AreRead (seen_plans done.items ++ seen_draft fuel draft ∷ []) names }
    ensures fuel { IfOk result (λ after. after.fuel ≡ fuel) }
    ensures stand { IfOk result (λ after. Stand after) }
    ensures plans { IfOk result (λ after. plans_in after ≡ seen_plans done.items
        ++ extended (seen_draft fuel draft) (seen_line line.entry) ∷ []) }
    ensures fault { IfErr result (λ e. e ≢ OutOfMemory → tests_fault row (seen_plans done.items
        ++ extended (seen_draft fuel draft) (seen_line line.entry) ∷ []) ≡ Some e) }
{
    if !has_room(&draft, &line) {
        return Err(TestFault::Limit { row });
    }
    let draft = extend(draft, line)?;
    Ok(Tests {
        fuel,
        done,
        open: Some(draft),
        names,
    })
}

// Whether a test has that name.
fn is_named(draft: &Draft, name: &[u8]) -> bool
    ensures { result ≡ bytes_eq draft.now.name.items name.now }
{
    draft.name.as_slice() == name
}

/// The tests with one more record, which belongs to the open one where that has its name.
pub(crate) fn add(alloc: Global, tests: Tests, row: u32, line: Line<'_>) -> Result<Tests, TestFault>
    requires { Stand tests }
    ensures fuel { IfOk result (λ after. after.fuel ≡ tests.fuel) }
    ensures stand { IfOk result (λ after. Stand after) }
    ensures plans { IfOk result (λ after.
        plans_in after ≡ with_last tests.fuel (plans_in tests) (seen_line line.entry)) }
    ensures fault { IfErr result (λ e. e ≢ OutOfMemory
        → tests_fault row (with_last tests.fuel (plans_in tests) (seen_line line.entry)) ≡ Some e) }
{
    let Tests {
        fuel,
        mut done,
        open,
        names,
    } = tests;
    let Some(draft) = open else {
        return add_test(alloc, fuel, done, names, row, line);
    };
    if is_named(&draft, line.name) {
        return add_to_open(fuel, done, draft, names, row, line);
    }
    done.push(to_plan(draft, fuel))?;
    add_test(alloc, fuel, done, names, row, line)
}

/// The plans of the tests, when all records have been read.
pub(crate) fn to_plans(tests: Tests) -> Result<Vec<TestPlan>, AllocError>
    ensures { IfOk result (λ v. seen_plans v.items ≡ plans_in tests) }
{
    let Tests {
        fuel,
        mut done,
        open,
        names: _,
    } = tests;
    if let Some(draft) = open {
        done.push(to_plan(draft, fuel))?;
    }
    Ok(done)
}
