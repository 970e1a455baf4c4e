//! The items of the mutants of a source that its tests kill, as text.
ghost use Rattle.std.specs.Prelude.{◌≡◌, ◌≤◌, ◌<◌, ◌+◌, ◌*◌, ◌^◌, length, map, All, IfSome};
ghost use Rattle.std.specs.Thread.{IsSync};
ghost use Rattle.mc_limits.specs.Limits.{most_tests, most_workers};
ghost use Rattle.mc_limits.specs.Limits.{most_mutants};
ghost use Rattle.mc_mutate.specs.Mutants.{count};
ghost use Rattle.decide_rules.specs.Decisions.{AreDecisions};
ghost use Rattle.decide_rules.specs.Seen.{decision_of};
ghost use Rattle.mc_typed.specs.Plans.{Fits, plan_of};
ghost use Rattle.mc_typed.specs.Views.{program_of};

use mc_core::{Matrix, Shape};
use mc_cover::{close, open};
use mc_decide::{Decision, decisions};
use mc_lex::{Dialect, Token, lex};
use mc_mutate::{count_mutants, run_mutants};
use mc_parse::parse;
use mc_port::OpenGate;
use mc_subset::check;
use mc_tests::read_tests;
use mc_tree::Unit;
use mc_typed::{Program, TestPlan};
use mc_types::type_unit;
use std::alloc::{AllocError, Global};
use std::thread::Threads;

const HEADER: &str = "test,call,arguments,inputs,expect,output";

/// What the tests of a source are run with: their file, and how many workers.
#[derive(Clone, Copy)]
struct Runs<'t> {
    records: &'t str,
    workers: u32,
}

/// The file of these records, each of which stands after `$`.
fn file_of(alloc: Global, records: &str) -> Result<Vec<u8>, AllocError> {
    let mut file = Vec::new(alloc);
    file.extend_from_slice(HEADER.as_bytes())?;
    for byte in records.as_bytes() {
        file.push(if *byte == b'$' { b'\n' } else { *byte })?;
    }
    file.push(b'\n')?;
    Ok(file)
}

/// Adds the items under which bit 0 is held, and how many items there are.
fn tell_items(alloc: Global, text: &mut String, matrix: &Matrix) -> Result<(), AllocError> {
    let tests = matrix.shape().tests;
    for item in 0..tests {
        if matrix.holds(0, item) {
            let number = format!(in alloc; "{item} ")?;
            text.push_str(number.as_str())?;
        }
    }
    let all = format!(in alloc; "of {tests}")?;
    text.push_str(all.as_str())
}

/// The shape of the items, where there are few enough mutants.
#[tactic(auto, using(crate::proofs::Fitting::few_mutants, crate::proofs::Fitting::few_items))]
fn shape_of(program: &Program<'_>, found: &[Decision], plans: &[TestPlan]) -> Option<Shape>
    requires { length plans.now ≤ most_tests }
    ensures { IfSome result (λ shape. (count (program_of program.now) ≤ most_mutants) × (shape
        ≡ record { bits = 1; tests = count (program_of program.now) * length plans.now })) }
{
    let mutants = count_mutants(found, program);
    if mutants > 4096 {
        return None;
    }
    Some(Shape {
        bits: 1,
        tests: mutants * plans.len() as u32,
    })
}

/// Runs the tests on the mutants, and adds the killed items as text.
fn tell_runs<R: Threads + Sync>(
    rt: &R,
    alloc: Global,
    text: &mut String,
    program: &Program<'_>,
    found: &[Decision],
    plans: &[TestPlan],
    workers: u32,
) -> Result<(), AllocError>
    requires found { AreDecisions (program_of program.now).functions (map decision_of found.now) }
    requires fit { All (λ plan. Fits (plan_of plan) (program_of program.now)) plans.now }
    requires few { length plans.now ≤ most_tests }
    requires workers { (1 ≤ workers) × (workers ≤ most_workers) }
{
    let Some(shape) = shape_of(program, found, plans) else {
        return text.push_str("too many mutants");
    };
    let Ok((cover, pass)) = open(alloc, shape) else {
        return Err(AllocError);
    };
    let gate = OpenGate::new();
    let pass = run_mutants(
        rt, alloc, &cover, pass, program, found, plans, workers, &gate,
    )?;
    let matrix = close(cover, pass);
    tell_items(alloc, text, &matrix)
}

/// Reads the tests, runs them on the mutants, and adds the killed items as text.
#[tactic(auto, using(crate::proofs::Fitting::few_plans))]
fn tell_program<R: Threads + Sync>(
    rt: &R,
    alloc: Global,
    text: &mut String,
    program: &Program<'_>,
    found: &[Decision],
    runs: Runs<'_>,
) -> Result<(), AllocError>
    requires { AreDecisions (program_of program.now).functions (map decision_of found.now) }
{
    if runs.workers == 0 || runs.workers > 64 {
        return text.push_str("workers");
    }
    let file = file_of(alloc, runs.records)?;
    match read_tests(alloc, &file, program, 1_000_000) {
        Ok(plans) => {
            let told = tell_runs(rt, alloc, text, program, found, &plans, runs.workers);
            drop(plans);
            told
        }
        Err(_) => text.push_str("tests"),
    }
}

/// What a source is read as: its tree, and then its typed program.
trait Stage {
    /// Adds the killed items as text, or why there are none.
    fn tell<R: Threads + Sync>(
        &self,
        rt: &R,
        alloc: Global,
        text: &mut String,
        runs: Runs<'_>,
    ) -> Result<(), AllocError>
        requires { IsSync R.row };
}

/// Tells of what was read and lets it go, or says why it was not read. For any type: a match that
/// takes a whole tree or program out of its result makes a long proof.
fn tell_of<R: Threads + Sync, T: Stage + Drop, E: Drop>(
    rt: &R,
    alloc: Global,
    text: &mut String,
    read: Result<T, E>,
    runs: Runs<'_>,
    fault: &str,
) -> Result<(), AllocError> {
    match read {
        Ok(it) => {
            let told = it.tell(rt, alloc, text, runs);
            drop(it);
            told
        }
        Err(_) => text.push_str(fault),
    }
}

impl Stage for Program<'_> {
    fn tell<R: Threads + Sync>(
        &self,
        rt: &R,
        alloc: Global,
        text: &mut String,
        runs: Runs<'_>,
    ) -> Result<(), AllocError> {
        match decisions(alloc, self) {
            Ok(found) => {
                let told = tell_program(rt, alloc, text, self, &found, runs);
                drop(found);
                told
            }
            Err(_) => text.push_str("decisions"),
        }
    }
}

impl Stage for Unit<'_> {
    fn tell<R: Threads + Sync>(
        &self,
        rt: &R,
        alloc: Global,
        text: &mut String,
        runs: Runs<'_>,
    ) -> Result<(), AllocError> {
        if check(self).is_err() {
            return text.push_str("outside form");
        }
        tell_of(
            rt,
            alloc,
            text,
            type_unit(alloc, self),
            runs,
            "names or types",
        )
    }
}

fn of_tokens<R: Threads + Sync>(
    rt: &R,
    alloc: Global,
    text: &mut String,
    tokens: &[Token<'_>],
    runs: Runs<'_>,
) -> Result<(), AllocError>
    requires short { All (λ token. token.start + length token.text.now < 2 ^ 31) tokens.now }
    requires few { length tokens.now < 2 ^ 31 }
{
    let read = parse(alloc, tokens, Dialect::Plain);
    tell_of(rt, alloc, text, read, runs, "syntax")
}

/// Adds the items of the source's mutants that its tests kill, by this number of workers, as text,
/// or why there are none.
pub fn tell_kills<R: Threads + Sync>(
    rt: &R,
    alloc: Global,
    text: &mut String,
    source: &str,
    records: &str,
    workers: u32,
) -> Result<(), AllocError> {
    let runs = Runs { records, workers };
    let bytes = source.as_bytes();
    if bytes.len() >= 0x8000_0000 {
        return text.push_str("too long");
    }
    match lex(alloc, bytes, Dialect::Plain) {
        Ok(tokens) => {
            let told = of_tokens(rt, alloc, text, &tokens, runs);
            drop(tokens);
            told
        }
        Err(_) => text.push_str("tokens"),
    }
}
