//! Decisions, their vectors as texts, and lists of paths.

ghost use Rattle.std.specs.Prelude.{◌≡◌, ◌+◌, ◌*◌, ◌<◌, ◌≤◌, All, IfOk, IsTrue};
ghost use Rattle.std.specs.List.Sorted.{IsStrictlyIncreasing};
ghost use Rattle.mc_cond.specs.Tree.{
  Leaf,
  Not,
  And,
  Or,
  FullAnd,
  FullXor,
  tree_of,
  IsNumbered,
};

use mc_cond::{CondTree, Vector};
use std::alloc::{AllocError, Global};

fn leaf(k: u32) -> CondTree
    ensures { tree_of result ≡ Leaf k }
{
    CondTree::Leaf(k)
}

fn not(alloc: Global, operand: CondTree) -> Result<CondTree, AllocError>
    ensures { IfOk result (λ t. tree_of t ≡ Not (tree_of operand)) }
{
    let operand = Box::new(alloc, operand)?;
    Ok(CondTree::Not(operand))
}

fn and(alloc: Global, left: CondTree, right: CondTree) -> Result<CondTree, AllocError>
    ensures { IfOk result (λ t. tree_of t ≡ And (tree_of left) (tree_of right)) }
{
    let left = Box::new(alloc, left)?;
    let right = Box::new(alloc, right)?;
    Ok(CondTree::And(left, right))
}

fn or(alloc: Global, left: CondTree, right: CondTree) -> Result<CondTree, AllocError>
    ensures { IfOk result (λ t. tree_of t ≡ Or (tree_of left) (tree_of right)) }
{
    let left = Box::new(alloc, left)?;
    let right = Box::new(alloc, right)?;
    Ok(CondTree::Or(left, right))
}

fn full_and(alloc: Global, left: CondTree, right: CondTree) -> Result<CondTree, AllocError>
    ensures { IfOk result (λ t. tree_of t ≡ FullAnd (tree_of left) (tree_of right)) }
{
    let left = Box::new(alloc, left)?;
    let right = Box::new(alloc, right)?;
    Ok(CondTree::FullAnd(left, right))
}

fn full_xor(alloc: Global, left: CondTree, right: CondTree) -> Result<CondTree, AllocError>
    ensures { IfOk result (λ t. tree_of t ≡ FullXor (tree_of left) (tree_of right)) }
{
    let left = Box::new(alloc, left)?;
    let right = Box::new(alloc, right)?;
    Ok(CondTree::FullXor(left, right))
}

/// `a && b`
pub(crate) fn one_and(alloc: Global) -> Result<CondTree, AllocError>
    ensures { IfOk result (λ t. IsNumbered (tree_of t)) }
{
    and(alloc, leaf(0), leaf(1))
}

/// `!(a && b) || c`
pub(crate) fn negated_and(alloc: Global) -> Result<CondTree, AllocError>
    ensures { IfOk result (λ t. IsNumbered (tree_of t)) }
{
    let both = and(alloc, leaf(0), leaf(1))?;
    let neither = not(alloc, both)?;
    or(alloc, neither, leaf(2))
}

/// `(a && b) || (a && c)`
pub(crate) fn two_ands(alloc: Global) -> Result<CondTree, AllocError>
    ensures { IfOk result (λ t. IsNumbered (tree_of t)) }
{
    let first = and(alloc, leaf(0), leaf(1))?;
    let second = and(alloc, leaf(2), leaf(3))?;
    or(alloc, first, second)
}

/// `(a || b) && (c || d)`
pub(crate) fn two_ors(alloc: Global) -> Result<CondTree, AllocError>
    ensures { IfOk result (λ t. IsNumbered (tree_of t)) }
{
    let first = or(alloc, leaf(0), leaf(1))?;
    let second = or(alloc, leaf(2), leaf(3))?;
    and(alloc, first, second)
}

/// `a & b`
pub(crate) fn one_full_and(alloc: Global) -> Result<CondTree, AllocError>
    ensures { IfOk result (λ t. IsNumbered (tree_of t)) }
{
    full_and(alloc, leaf(0), leaf(1))
}

/// `(a ^ b) && c`
pub(crate) fn xor_then_and(alloc: Global) -> Result<CondTree, AllocError>
    ensures { IfOk result (λ t. IsNumbered (tree_of t)) }
{
    let one = full_xor(alloc, leaf(0), leaf(1))?;
    and(alloc, one, leaf(2))
}

/// So many times `a || b`, joined by `&&`.
pub(crate) fn many_ors(alloc: Global, count: u32) -> Result<CondTree, AllocError>
    requires least { 1 ≤ count }
    requires most { count ≤ 32 }
    ensures { IfOk result (λ t. IsNumbered (tree_of t)) }
{
    let mut tree = or(alloc, leaf(0), leaf(1))?;
    for at in 1..count {
        let next = or(alloc, leaf(2 * at), leaf(2 * at + 1))?;
        tree = and(alloc, tree, next)?;
    }
    Ok(tree)
}

/// So many conditions, joined by `&&`.
pub(crate) fn many_ands(alloc: Global, count: u32) -> Result<CondTree, AllocError>
    requires least { 1 ≤ count }
    requires most { count ≤ 64 }
    ensures { IfOk result (λ t. IsNumbered (tree_of t)) }
{
    let mut tree = leaf(0);
    for at in 1..count {
        tree = and(alloc, tree, leaf(at))?;
    }
    Ok(tree)
}

/// So many conditions, joined by `^`.
pub(crate) fn many_xors(alloc: Global, count: u32) -> Result<CondTree, AllocError>
    requires least { 1 ≤ count }
    requires most { count ≤ 64 }
    ensures { IfOk result (λ t. IsNumbered (tree_of t)) }
{
    let mut tree = leaf(0);
    for at in 1..count {
        tree = full_xor(alloc, tree, leaf(at))?;
    }
    Ok(tree)
}

/// `a && (b ^ c ^ ..)`, with so many conditions after the first.
pub(crate) fn and_then_xors(alloc: Global, count: u32) -> Result<CondTree, AllocError>
    requires least { 1 ≤ count }
    requires most { count ≤ 63 }
    ensures { IfOk result (λ t. IsNumbered (tree_of t)) }
{
    let mut right = leaf(1);
    for at in 1..count {
        right = full_xor(alloc, right, leaf(at + 1))?;
    }
    and(alloc, leaf(0), right)
}

/// Whether a vector is written so: `T`, `F` or `-` for each condition, then `=` and the outcome.
pub(crate) fn is_written(vector: &Vector, text: &str) -> bool {
    let [answers @ .., b'=', outcome] = text.as_bytes() else {
        return false;
    };
    if answers.len() != vector.len() as usize || (*outcome == b'T') != vector.outcome() {
        return false;
    }
    for k in 0..vector.len() {
        let letter = match vector.answer(k) {
            Some(true) => b'T',
            Some(false) => b'F',
            None => b'-',
        };
        if answers[k as usize] != letter {
            return false;
        }
    }
    true
}

/// Whether the numbers ascend and are those of paths.
pub(crate) fn are_paths(seen: &[u32], count: u32) -> bool
    ensures ascending { IsTrue result → IsStrictlyIncreasing seen.now }
    ensures below { IsTrue result → All (λ path. path < count) seen.now }
{
    for (i, path) in seen.iter().enumerate() {
        if *path >= count || (i > 0 && seen[i - 1] >= *path) {
            return false;
        }
    }
    true
}
