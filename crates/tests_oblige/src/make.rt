//! Maps of programs with one function and one decision, and matrices.
ghost use Rattle.std.specs.Prelude.{◌≡◌, ◌+◌, ◌*◌, ◌≤◌, length, IfOk};
ghost use Rattle.mc_cond.specs.Tree.{And, FullXor, IsNumbered, Leaf, Or, tree_of};

use decide_rules::Decision;
use mc_cond::{CondTree, conditions};
use mc_core::{Matrix, Shape};
use mc_paths::number;
use mc_probe::{BitMap, MappedDecision};
use mc_span::Span;
use std::alloc::{AllocError, Global};
use std::process::Abort;
use std::test::Fail;

fn and(alloc: Global, left: CondTree, right: CondTree) -> Result<CondTree, AllocError>
    ensures { IfOk result (λ t. tree_of t ≡ And (tree_of left) (tree_of right)) }
{
    let left = Box::new(alloc, left)?;
    let right = Box::new(alloc, right)?;
    Ok(CondTree::And(left, right))
}

fn or(alloc: Global, left: CondTree, right: CondTree) -> Result<CondTree, AllocError>
    ensures { IfOk result (λ t. tree_of t ≡ Or (tree_of left) (tree_of right)) }
{
    let left = Box::new(alloc, left)?;
    let right = Box::new(alloc, right)?;
    Ok(CondTree::Or(left, right))
}

fn xor(alloc: Global, left: CondTree, right: CondTree) -> Result<CondTree, AllocError>
    ensures { IfOk result (λ t. tree_of t ≡ FullXor (tree_of left) (tree_of right)) }
{
    let left = Box::new(alloc, left)?;
    let right = Box::new(alloc, right)?;
    Ok(CondTree::FullXor(left, right))
}

/// `a && b`
pub(crate) fn one_and(alloc: Global) -> Result<CondTree, AllocError>
    ensures { IfOk result (λ t. IsNumbered (tree_of t)) }
{
    and(alloc, CondTree::Leaf(0), CondTree::Leaf(1))
}

/// `(a && b) || (a && c)`
pub(crate) fn two_ands(alloc: Global) -> Result<CondTree, AllocError>
    ensures { IfOk result (λ t. IsNumbered (tree_of t)) }
{
    let first = and(alloc, CondTree::Leaf(0), CondTree::Leaf(1))?;
    let second = and(alloc, CondTree::Leaf(2), CondTree::Leaf(3))?;
    or(alloc, first, second)
}

/// `(a ^ b) && c`, where `^` is evaluated in full. No vector has the number 1.
pub(crate) fn xor_before_and(alloc: Global) -> Result<CondTree, AllocError>
    ensures { IfOk result (λ t. IsNumbered (tree_of t)) }
{
    let first = xor(alloc, CondTree::Leaf(0), CondTree::Leaf(1))?;
    and(alloc, first, CondTree::Leaf(2))
}

/// So many times `a || b`, joined by `&&`.
pub(crate) fn many_ors(alloc: Global, count: u32) -> Result<CondTree, AllocError>
    requires least { 1 ≤ count }
    requires most { count ≤ 32 }
    ensures { IfOk result (λ t. IsNumbered (tree_of t)) }
{
    let mut tree = or(alloc, CondTree::Leaf(0), CondTree::Leaf(1))?;
    for at in 1..count {
        let next = or(alloc, CondTree::Leaf(2 * at), CondTree::Leaf(2 * at + 1))?;
        tree = and(alloc, tree, next)?;
    }
    Ok(tree)
}

/// Places that differ.
fn spans(alloc: Global, first: u32, count: u32) -> Result<Vec<Span>, AllocError>
    requires { first + count ≤ 100 }
    ensures { IfOk result (λ v. length v.items ≡ count) }
{
    let mut all = Vec::new(alloc);
    for at in 0..count {
        all.push(Span {
            start: first + at,
            end: first + at + 1,
        })?;
    }
    Ok(all)
}

fn mapped(alloc: Global, tree: CondTree, base: u32) -> Result<MappedDecision, Fail>
    requires { IsNumbered (tree_of tree) }
    ensures { IfOk result (λ m. m.base ≡ base) }
{
    let numbering = number(alloc, &tree)?;
    let places = spans(alloc, 30, conditions(&tree))?;
    let decision = Decision {
        root: Span { start: 30, end: 40 },
        function: 0,
        tree,
        conditions: places,
    };
    Ok(MappedDecision {
        decision,
        numbering,
        base,
    })
}

/// The map of a function with an exit, a statement, a label, which stand at 0, 10, 15 and 20, and
/// this decision.
pub(crate) fn map(alloc: Global, tree: CondTree) -> Result<BitMap, Fail>
    requires { IsNumbered (tree_of tree) }
{
    let decision = mapped(alloc, tree, 4)?;
    let bits = 4 + decision.numbering.count();
    Ok(BitMap {
        entries: spans(alloc, 0, 1)?,
        exits: spans(alloc, 10, 1)?,
        statements: spans(alloc, 15, 1)?,
        labels: spans(alloc, 20, 1)?,
        decisions: vec![in alloc; decision]?,
        bits,
    })
}

/// The matrix of tests that set these bits.
pub(crate) fn matrix(
    rt: &impl Abort,
    alloc: Global,
    bits: u32,
    tests: &[&[u32]],
) -> Result<Matrix, Fail>
    requires { bits ≤ 65536 }
{
    assert!(rt; tests.len() <= 64);
    let count = tests.len() as u32;
    let mut matrix = Matrix::zero(alloc, Shape { bits, tests: count })?;
    for (test, own) in tests.iter().enumerate() {
        set_all(rt, &mut matrix, test as u32, own);
    }
    Ok(matrix)
}

fn set_all(rt: &impl Abort, matrix: &mut Matrix, test: u32, bits: &[u32]) {
    for bit in bits {
        let shape = matrix.shape();
        assert!(rt; *bit < shape.bits);
        assert!(rt; test < shape.tests);
        matrix.set(*bit, test);
    }
}
