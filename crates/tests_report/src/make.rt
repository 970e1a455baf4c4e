//! Reports on one function whose decision is `a && b`, made by hand.
ghost use Rattle.std.specs.Prelude.{◌≡◌, ◌≤◌, ◌<◌, ◌^◌, length, All, IfOk, IsUtf8};
ghost use Rattle.mc_cond.specs.Tree.{IsNumbered, size, tree_of};
ghost use Rattle.mc_probe.specs.BitMaps.{map_of};
ghost use Rattle.mc_report.specs.Report.{AreJudged, IsReport};
ghost use Rattle.mc_report.specs.Seen.{report_of};

use decide_rules::Decision;
use mc_cond::CondTree;
use mc_core::{Matrix, Shape};
use mc_meaning::TestResult;
use mc_oblige::{Mode, Obligation, Verdict, judge, obligations};
use mc_paths::number;
use mc_probe::{BitMap, MappedDecision};
use mc_report::Report;
use mc_span::Span;
use mc_typed::{Ending, Name, TestState};
use std::alloc::{AllocError, Global};
use std::process::Abort;
use std::test::Fail;

const SOURCE: &[u8] = b"int f(int a,int b){return a&&b;}";

/// What sha256sum gives of it.
static DIGEST: [u8; 32] = [
    0x82, 0x00, 0xd2, 0x38, 0x49, 0x91, 0xa9, 0x0c, 0x0f, 0xb5, 0xf6, 0xa2, 0x08, 0xa7, 0xf0, 0x17,
    0x6c, 0xae, 0x5c, 0x64, 0x43, 0xe4, 0x61, 0x77, 0xef, 0x6b, 0xfd, 0x44, 0xc4, 0x0d, 0x4c, 0xaf,
];

/// A test: the bits that it sets, its state, and the value of its call that returned.
#[derive(Clone, Copy)]
pub(crate) struct Test<'a> {
    pub(crate) bits: &'a [u32],
    pub(crate) state: TestState,
    pub(crate) value: i128,
}

fn one_and(alloc: Global) -> Result<CondTree, AllocError>
    ensures numbered { IfOk result (λ t. IsNumbered (tree_of t)) }
    ensures size { IfOk result (λ t. size (tree_of t) ≡ 2) }
{
    let left = Box::new(alloc, CondTree::Leaf(0))?;
    let right = Box::new(alloc, CondTree::Leaf(1))?;
    Ok(CondTree::And(left, right))
}

fn one(alloc: Global, span: Span) -> Result<Vec<Span>, AllocError>
    ensures { IfOk result (λ v. length v.items ≡ 1) }
{
    let spans = vec![in alloc; span]?;
    Ok(spans)
}

fn two(alloc: Global, first: Span, second: Span) -> Result<Vec<Span>, AllocError>
    ensures { IfOk result (λ v. length v.items ≡ 2) }
{
    let spans = vec![in alloc; first, second]?;
    Ok(spans)
}

fn mapped(alloc: Global) -> Result<MappedDecision, Fail>
    ensures { IfOk result (λ m. m.base ≡ 3) }
{
    let first = Span { start: 26, end: 27 };
    let conditions = two(alloc, first, Span { start: 29, end: 30 })?;
    let tree = one_and(alloc)?;
    match number(alloc, &tree) {
        Ok(numbering) => Ok(MappedDecision {
            decision: Decision {
                root: Span { start: 26, end: 30 },
                function: 0,
                tree,
                conditions,
            },
            numbering,
            base: 3,
        }),
        Err(fault) => {
            drop(tree);
            Err(fault.into())
        }
    }
}

fn map(alloc: Global) -> Result<BitMap, Fail> {
    let entries = one(alloc, Span { start: 4, end: 5 })?;
    let exits = one(alloc, Span { start: 19, end: 31 })?;
    let statements = one(alloc, Span { start: 19, end: 31 })?;
    let labels = Vec::new(alloc);
    let decision = mapped(alloc)?;
    let bits = 3 + decision.numbering.count();
    let decisions = vec![in alloc; decision]?;
    Ok(BitMap {
        entries,
        exits,
        statements,
        labels,
        decisions,
        bits,
    })
}

fn set_all(rt: &impl Abort, matrix: &mut Matrix, test: u32, bits: &[u32]) {
    for bit in bits {
        let shape = matrix.shape();
        assert!(rt; *bit < shape.bits);
        assert!(rt; test < shape.tests);
        matrix.set(*bit, test);
    }
}

fn matrix(rt: &impl Abort, alloc: Global, bits: u32, tests: &[Test<'_>]) -> Result<Matrix, Fail>
    requires { bits ≤ 65536 }
{
    assert!(rt; tests.len() <= 64);
    let count = tests.len() as u32;
    let mut matrix = Matrix::zero(alloc, Shape { bits, tests: count })?;
    for (test, one) in tests.iter().enumerate() {
        set_all(rt, &mut matrix, test as u32, one.bits);
    }
    Ok(matrix)
}

/// What is known of the tests: their names, their states and their results.
#[derive(Drop)]
struct Parts {
    names: Vec<Name>,
    states: Vec<TestState>,
    results: Vec<TestResult>,
}

fn name(alloc: Global, number: u64) -> Result<Name, AllocError>
    ensures { IfOk result (λ name. IsUtf8 name) }
{
    let text = format!(in alloc; "t{number}")?;
    Ok(Name::new(text.into_bytes()))
}

fn names(alloc: Global, count: usize) -> Result<Vec<Name>, AllocError>
    ensures count { IfOk result (λ v. length v.items ≡ count) }
    ensures text { IfOk result (λ v. All IsUtf8 v.items) }
{
    let mut all = Vec::new(alloc);
    for test in 0..count {
        all.push(name(alloc, test as u64 + 1)?)?;
    }
    Ok(all)
}

fn states(alloc: Global, tests: &[Test<'_>]) -> Result<Vec<TestState>, AllocError>
    ensures { IfOk result (λ v. length v.items ≡ length tests.now) }
{
    let mut all = Vec::new(alloc);
    for test in tests {
        all.push(test.state)?;
    }
    Ok(all)
}

fn ending(state: TestState) -> Ending {
    match state {
        TestState::Ended(ending) => ending,
        TestState::Pass | TestState::Fail => Ending::Returned,
    }
}

fn results(alloc: Global, tests: &[Test<'_>]) -> Result<Vec<TestResult>, AllocError>
    ensures { IfOk result (λ v. length v.items ≡ length tests.now) }
{
    let mut all = Vec::new(alloc);
    for test in tests {
        all.push(TestResult {
            ending: ending(test.state),
            values: vec![in alloc; Some(test.value)]?,
            output: Vec::new(alloc),
            state: test.state,
        })?;
    }
    Ok(all)
}

fn told(alloc: Global, tests: &[Test<'_>]) -> Result<Parts, AllocError>
    ensures names { IfOk result (λ t. length t.names.items ≡ length tests.now) }
    ensures text { IfOk result (λ t. All IsUtf8 t.names.items) }
    ensures states { IfOk result (λ t. length t.states.items ≡ length tests.now) }
    ensures results { IfOk result (λ t. length t.results.items ≡ length tests.now) }
{
    Ok(Parts {
        names: names(alloc, tests.len())?,
        states: states(alloc, tests)?,
        results: results(alloc, tests)?,
    })
}

/// The obligations of a map, and the verdicts on them.
#[derive(Drop)]
struct Verdicts {
    obligations: Vec<Obligation>,
    verdicts: Vec<Verdict>,
}

fn judged(alloc: Global, map: &BitMap, matrix: &Matrix) -> Result<Verdicts, AllocError>
    requires { matrix.now.shape.bits ≡ map.now.bits }
    ensures { IfOk result (λ j. AreJudged matrix.now.shape.tests (map_of map.now).decisions
        j.obligations.items j.verdicts.items) }
{
    let obligations = obligations(alloc, map)?;
    let verdicts = judge(alloc, map, matrix, Mode::Unique, &[])?;
    Ok(Verdicts {
        obligations,
        verdicts,
    })
}

fn judged_by(
    rt: &impl Abort,
    alloc: Global,
    map: &BitMap,
    tests: &[Test<'_>],
) -> Result<Verdicts, Fail>
    ensures { IfOk result (λ j. AreJudged (length tests.now) (map_of map.now).decisions
        j.obligations.items j.verdicts.items) }
{
    let matrix = matrix(rt, alloc, map.bits, tests)?;
    assert_eq!(rt; matrix.shape().bits, map.bits);
    assert_eq!(rt; matrix.shape().tests as usize, tests.len());
    Ok(judged(alloc, map, &matrix)?)
}

fn assembled(count: usize, told: Parts, map: BitMap, judged: Verdicts) -> Report<'static>
    requires names { length told.names.items ≡ count }
    requires states { length told.states.items ≡ count }
    requires results { length told.results.items ≡ count }
    requires judged { AreJudged count (map_of map).decisions judged.obligations.items
        judged.verdicts.items }
    ensures report { IsReport (report_of result) }
    ensures names { (report_of result).names ≡ told.names.items }
{
    Report {
        source: SOURCE,
        digest: DIGEST,
        mode: Mode::Unique,
        names: told.names,
        states: told.states,
        results: Some(told.results),
        map,
        obligations: judged.obligations,
        verdicts: judged.verdicts,
    }
}

/// The report on these tests.
pub(crate) fn report(
    rt: &impl Abort,
    alloc: Global,
    tests: &[Test<'_>],
) -> Result<Report<'static>, Fail>
    ensures report { IfOk result (λ r. IsReport (report_of r)) }
    ensures text { IfOk result (λ r. All IsUtf8 (report_of r).names) }
{
    let told = told(alloc, tests)?;
    let map = map(alloc)?;
    match judged_by(rt, alloc, &map, tests) {
        Ok(judged) => Ok(assembled(tests.len(), told, map, judged)),
        Err(fault) => {
            drop(map);
            Err(fault)
        }
    }
}
