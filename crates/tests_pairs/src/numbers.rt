//! The vectors and the numbers of a decision of up to four conditions against Rust's own operators,
//! which evaluate what C's do.

ghost use Rattle.mc_cond.specs.Tree.{tree_of, IsNumbered, AreBelow};
ghost use Rattle.mc_paths.specs.Paths.{IsInUse};

use mc_cond::{CondTree, Vector, is_short};
use mc_paths::Numbering;
use std::process::Abort;

/// A vector as words: which conditions were evaluated, and which of these were true.
#[derive(Clone, Copy, PartialEq, Eq, Debug)]
pub(crate) struct Words {
    pub evaluated: u64,
    pub values: u64,
    pub outcome: bool,
}

/// Evaluates by Rust's operators, and notes which conditions are evaluated.
fn by_rust(tree: &CondTree, row: u64, evaluated: &mut u64) -> bool
    requires { AreBelow 64 (tree_of tree.now) }
{
    match tree {
        CondTree::Leaf(k) => {
            *evaluated |= 1 << *k;
            (row >> *k) & 1 == 1
        }
        CondTree::Not(operand) => !by_rust(operand, row, evaluated),
        CondTree::And(left, right) => {
            by_rust(left, row, evaluated) && by_rust(right, row, evaluated)
        }
        CondTree::Or(left, right) => {
            by_rust(left, row, evaluated) || by_rust(right, row, evaluated)
        }
        CondTree::FullAnd(left, right) => {
            by_rust(left, row, evaluated) & by_rust(right, row, evaluated)
        }
        CondTree::FullOr(left, right) => {
            by_rust(left, row, evaluated) | by_rust(right, row, evaluated)
        }
        CondTree::FullXor(left, right) => {
            by_rust(left, row, evaluated) ^ by_rust(right, row, evaluated)
        }
    }
}

/// The vector that a row gives.
pub(crate) fn words_on(tree: &CondTree, row: u64) -> Words
    requires { IsNumbered (tree_of tree.now) }
{
    let mut evaluated = 0;
    let outcome = by_rust(tree, row, &mut evaluated);
    Words {
        evaluated,
        values: row & evaluated,
        outcome,
    }
}

/// The place of a vector of four conditions in the order of vectors: true before false before not
/// evaluated, from the first condition on.
fn rank(words: Words) -> usize {
    let mut rank = 0;
    for k in 0..4u32 {
        let bit = 1 << k;
        let digit = if words.evaluated & bit == 0 {
            2
        } else if words.values & bit == 0 {
            1
        } else {
            0
        };
        rank = (3 * rank + digit) % 81;
    }
    rank
}

/// The vectors of a decision, each at its place in the order of vectors.
fn vectors_of(tree: &CondTree) -> [Option<Words>; 81]
    requires { IsNumbered (tree_of tree.now) }
{
    let mut vectors = [None; 81];
    for row in 0..16 {
        let words = words_on(tree, row);
        if let Some(place) = vectors.get_mut(rank(words)) {
            *place = Some(words);
        }
    }
    vectors
}

pub(crate) fn words_of(vector: &Vector) -> Words {
    let mut words = Words {
        evaluated: 0,
        values: 0,
        outcome: vector.outcome(),
    };
    for k in 0..vector.len() {
        if let Some(value) = vector.answer(k) {
            words.evaluated |= 1 << k;
            if value {
                words.values |= 1 << k;
            }
        }
    }
    words
}

/// The sum along the conditions of a vector.
fn sum_of(numbering: &Numbering, words: Words) -> u64 {
    let mut sum = 0u64;
    for k in 0..numbering.conditions() {
        let bit = 1u64.checked_shl(k).unwrap_or(0);
        let edge = if words.evaluated & bit == 0 {
            0
        } else if words.values & bit == 0 {
            numbering.on_false(k)
        } else {
            numbering.on_true(k)
        };
        sum = sum.saturating_add(edge as u64);
    }
    sum
}

/// Compares a path in use with a vector.
fn compare_path(rt: &impl Abort, numbering: &Numbering, path: u32, words: Words)
    requires { IsInUse (tree_of numbering.now) path }
{
    assert_eq!(rt; words_of(&numbering.vector_of(path)), words, "path {path}");
    assert_eq!(rt; numbering.outcome_of(path), words.outcome);
    assert_eq!(rt; numbering.evaluated(path), words.evaluated);
    assert_eq!(rt; numbering.value(path), words.values);
    assert_eq!(rt; sum_of(numbering, words), path as u64);
}

/// The first number from `from` on that is in use.
fn next_in_use(numbering: &Numbering, from: u32) -> Option<u32> {
    for path in from..numbering.count() {
        if numbering.in_use(path) {
            return Some(path);
        }
    }
    None
}

/// Compares the numbers in use with the vectors, both in order.
pub(crate) fn compare_numbers(rt: &impl Abort, tree: &CondTree, numbering: &Numbering)
    requires { IsNumbered (tree_of tree.now) }
{
    let mut from = 0u32;
    let mut used = 0u32;
    for words in vectors_of(tree) {
        if let Some(words) = words {
            let path = next_in_use(numbering, from).expect(rt, "a number for each vector");
            assert!(rt; numbering.in_use(path));
            compare_path(rt, numbering, path, words);
            from = path.saturating_add(1);
            used = used.saturating_add(1);
        }
    }
    assert_eq!(rt; from, numbering.count());
    assert!(rt; used == numbering.count() || !is_short(tree));
}
