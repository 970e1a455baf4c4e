//! The numbers, both kinds of pairs and the influence in every decision of up to four conditions,
//! with all operators and at most one NOT above each node, against the definitions tried on each
//! row of the truth table.

ghost use Rattle.std.specs.Prelude.{◌≡◌, ◌<◌, ◌≤◌};
ghost use Rattle.mc_cond.specs.Tree.{tree_of, IsNumbered};
ghost use Rattle.mc_paths.specs.Paths.{IsInUse};

use crate::every::{Choices, chosen_tree};
use crate::numbers::{Words, compare_numbers, words_of, words_on};
use crate::trees::are_paths;
use mc_cond::{CondTree, conditions};
use mc_masking::{influence, masking_pair};
use mc_paths::{Numbering, number};
use mc_unique::unique_pair;
use std::alloc::Global;
use std::process::Abort;
use std::test::Fail;

/// The truth table of up to four conditions.
type Table = [bool; 16];

/// What the rows say of the vector of a path.
#[derive(Clone, Copy)]
struct Shown {
    words: Words,
    /// The conditions that are true in a completion on which their flip changes the outcome.
    on: u64,
    /// Those that are false in one.
    off: u64,
}

/// The paths of up to four conditions, or none where a number is idle.
type Paths = [Option<Shown>; 16];

/// The truth table of a decision, by Rust's own operators.
fn table_of(tree: &CondTree) -> Table
    requires { IsNumbered (tree_of tree.now) }
{
    let mut table = [false; 16];
    for row in 0..16 {
        table[row] = words_on(tree, row as u64).outcome;
    }
    table
}

fn is_completion(words: Words, row: u64) -> bool {
    row & words.evaluated == words.values
}

/// Whether the outcomes on two rows differ.
fn differs(table: &Table, row: u64, other: u64) -> bool {
    table.get(row as usize).copied() != table.get(other as usize).copied()
}

/// The conditions whose flip changes the outcome on a row.
fn changing(table: &Table, row: u64) -> u64 {
    let mut mask = 0;
    for k in 0..4u32 {
        let bit = 1 << k;
        if differs(table, row, row ^ bit) {
            mask |= bit;
        }
    }
    mask
}

fn shown_by(table: &Table, words: Words) -> Shown {
    let mut shown = Shown {
        words,
        on: 0,
        off: 0,
    };
    for row in 0..16u64 {
        if is_completion(words, row) {
            let mask = changing(table, row);
            shown.on |= mask & row;
            shown.off |= mask & !row;
        }
    }
    shown
}

fn paths_of(numbering: &Numbering, table: &Table) -> Paths {
    let mut paths = [None; 16];
    for path in 0..16u32 {
        if numbering.in_use(path) {
            paths[path as usize] = Some(shown_by(table, words_of(&numbering.vector_of(path))));
        }
    }
    paths
}

fn is_masking(first: &Shown, second: &Shown, bit: u64) -> bool {
    first.words.outcome != second.words.outcome && first.on & bit != 0 && second.off & bit != 0
}

fn is_unique(table: &Table, first: &Shown, second: &Shown, bit: u64) -> bool {
    // A pair is of such completions.
    if first.on & bit == 0 || second.off & bit == 0 {
        return false;
    }
    for row in 0..16u64 {
        let other = row ^ bit;
        if row & bit != 0
            && is_completion(first.words, row)
            && is_completion(second.words, other)
            && differs(table, row, other)
        {
            return true;
        }
    }
    false
}

/// A way in which two vectors show a condition, by the rows.
#[derive(Clone, Copy)]
enum Kind {
    Unique,
    Masking,
}

fn is_pair(kind: Kind, table: &Table, first: &Shown, second: &Shown, bit: u64) -> bool {
    match kind {
        Kind::Unique => is_unique(table, first, second, bit),
        Kind::Masking => is_masking(first, second, bit),
    }
}

/// What the rows say of a number, if it has a vector.
fn path_at(paths: &Paths, path: u32) -> Option<Shown> {
    paths.get(path as usize).copied().flatten()
}

/// The least seen path that makes a pair with a first one.
fn least_second(
    kind: Kind,
    paths: &Paths,
    table: &Table,
    seen: &[u32],
    first: &Shown,
    bit: u64,
) -> Option<u32> {
    for second in seen {
        if let Some(shown) = path_at(paths, *second) {
            if is_pair(kind, table, first, &shown, bit) {
                return Some(*second);
            }
        }
    }
    None
}

/// The pair of the least seen path that makes one, by the rows.
fn least_pair(
    kind: Kind,
    paths: &Paths,
    table: &Table,
    seen: &[u32],
    bit: u64,
) -> Option<(u32, u32)> {
    for first in seen {
        if let Some(shown) = path_at(paths, *first) {
            if let Some(second) = least_second(kind, paths, table, seen, &shown, bit) {
                return Some((*first, second));
            }
        }
    }
    None
}

/// Compares the chosen pairs of seen numbers, for each condition.
fn compare_seen(
    rt: &impl Abort,
    tree: &CondTree,
    numbering: &Numbering,
    paths: &Paths,
    table: &Table,
    seen: &[u32],
)
    requires tree { IsNumbered (tree_of tree.now) }
    requires numbering { tree_of numbering.now ≡ tree_of tree.now }
{
    assert!(rt; are_paths(seen, numbering.count()));
    for k in 0..conditions(tree) {
        let bit = 1 << k;
        assert_eq!(rt;
            unique_pair(tree, numbering, seen, k),
            least_pair(Kind::Unique, paths, table, seen, bit)
        );
        assert_eq!(rt;
            masking_pair(tree, numbering, seen, k),
            least_pair(Kind::Masking, paths, table, seen, bit)
        );
    }
}

/// Compares the influence of each path.
fn compare_influence(rt: &impl Abort, tree: &CondTree, numbering: &Numbering, paths: &Paths)
    requires tree { IsNumbered (tree_of tree.now) }
    requires numbering { tree_of numbering.now ≡ tree_of tree.now }
{
    for path in 0..numbering.count() {
        if numbering.in_use(path) {
            let shown = path_at(paths, path).expect(rt, "a vector of each path");
            assert_eq!(rt; influence(tree, numbering, path), shown.on | shown.off);
        }
    }
}

/// Compares each two numbers.
fn compare_twos(
    rt: &impl Abort,
    tree: &CondTree,
    numbering: &Numbering,
    paths: &Paths,
    table: &Table,
)
    requires tree { IsNumbered (tree_of tree.now) }
    requires numbering { tree_of numbering.now ≡ tree_of tree.now }
{
    for second in 1..numbering.count() {
        for first in 0..second {
            compare_seen(rt, tree, numbering, paths, table, &[first, second]);
        }
    }
}

/// Compares some lists of numbers.
fn compare_lists(
    rt: &impl Abort,
    alloc: Global,
    tree: &CondTree,
    numbering: &Numbering,
    paths: &Paths,
    table: &Table,
) -> Result<(), Fail>
    requires tree { IsNumbered (tree_of tree.now) }
    requires numbering { tree_of numbering.now ≡ tree_of tree.now }
{
    for step in 1..4 {
        compare_many(rt, alloc, tree, numbering, paths, table, step)?;
    }
    Ok(())
}

/// Compares all numbers, or every second, and so on.
fn compare_many(
    rt: &impl Abort,
    alloc: Global,
    tree: &CondTree,
    numbering: &Numbering,
    paths: &Paths,
    table: &Table,
    step: usize,
) -> Result<(), Fail>
    requires tree { IsNumbered (tree_of tree.now) }
    requires numbering { tree_of numbering.now ≡ tree_of tree.now }
    requires step { 0 < step }
{
    let seen: Vec<u32> = (0..numbering.count()).step_by(step).collect(alloc)?;
    compare_seen(rt, tree, numbering, paths, table, &seen);
    Ok(())
}

/// Compares the decision that these choices lead to. A number with a rest names a decision again.
fn compare_tree(
    rt: &impl Abort,
    alloc: Global,
    count: u32,
    choice: u32,
    each_two: bool,
) -> Result<(), Fail>
    requires least { 1 ≤ count }
    requires most { count ≤ 4 }
{
    let mut choices = Choices::new(choice);
    let tree = chosen_tree(alloc, &mut choices, 0, count)?;
    if choices.left != 0 {
        return Ok(());
    }
    let numbering = number(alloc, &tree)?;
    compare_numbers(rt, &tree, &numbering);
    let table = table_of(&tree);
    let paths = paths_of(&numbering, &table);
    compare_influence(rt, &tree, &numbering, &paths);
    compare_lists(rt, alloc, &tree, &numbering, &paths, &table)?;
    if each_two {
        compare_twos(rt, &tree, &numbering, &paths, &table);
    }
    Ok(())
}

#[test]
fn up_to_three_conditions(rt: HostRuntime) -> Result<(), Fail> {
    for (count, choices) in [(1, 2), (2, 40), (3, 1_600)] {
        for choice in 0..choices {
            compare_tree(&rt, rt.alloc(), count, choice, true)?;
        }
    }
    Ok(())
}

/// Compares every decision of four conditions whose first node, perhaps under a NOT, has this
/// operator.
fn compare_four(rt: &impl Abort, alloc: Global, operator: u32) -> Result<(), Fail>
    requires { operator < 5 }
{
    for rest in 0..9_600u32 {
        for negated in 0..2u32 {
            let choice = negated + 2 * operator + 10 * rest;
            compare_tree(rt, alloc, 4, choice, false)?;
        }
    }
    Ok(())
}

#[test]
fn four_conditions_under_and(rt: HostRuntime) -> Result<(), Fail> {
    compare_four(&rt, rt.alloc(), 0)
}

#[test]
fn four_conditions_under_or(rt: HostRuntime) -> Result<(), Fail> {
    compare_four(&rt, rt.alloc(), 1)
}

#[test]
fn four_conditions_under_full_and(rt: HostRuntime) -> Result<(), Fail> {
    compare_four(&rt, rt.alloc(), 2)
}

#[test]
fn four_conditions_under_full_or(rt: HostRuntime) -> Result<(), Fail> {
    compare_four(&rt, rt.alloc(), 3)
}

#[test]
fn four_conditions_under_full_xor(rt: HostRuntime) -> Result<(), Fail> {
    compare_four(&rt, rt.alloc(), 4)
}
