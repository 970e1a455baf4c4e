//! Values of objects with static storage duration (C17 6.7.9p4, p10, p21).
ghost use Rattle.std.specs.Prelude.{◌≡◌, ◌≤◌, ◌∷◌, ◌++◌, [], ℤ, List, pos, length, map, unwrap_or, IfOk, OnOk};
ghost use Rattle.mc_typed.specs.Constants as folded;
ghost use Rattle.mc_typed.specs.Views.{expression_of, initializer_of, initializers_from};
ghost use Rattle.types_rules.specs.Initializers as initializers;

use crate::lists::{push, where_done};
use mc_typed::{Expression, Initializer, constant_value};
use std::alloc::{AllocError, Global};

fn number_or_zero(value: &Expression) -> i128
    ensures { result ≡ unwrap_or (folded.constant_value (expression_of value.now)) (pos 0) }
{
    match constant_value(value) {
        Some(number) => number,
        None => 0,
    }
}

// Zeros, so that there are so many values from `start` on.
#[tactic(auto, using(crate::proofs::Filled::filled_more))]
fn fill(values: &mut Vec<i128>, start: usize, count: u32) -> Result<(), AllocError>
    requires { start ≤ length values.old.items }
    ensures { OnOk result ((before vs : List ℤ) → values.old.items ≡ before ++ vs
        → length before ≡ start → values.new.items ≡ before ++ initializers.filled count vs) }
{
    let given = values.len() - start;
    let missing = (count as usize).saturating_sub(given);
    let total = values.len() + missing;
    values.resize(total, 0)
}

// So many zeros.
#[tactic(auto, using(crate::proofs::Filled::zeros_more))]
fn add_zeros(values: &mut Vec<i128>, count: u32) -> Result<(), AllocError>
    ensures { OnOk result (values.new.items ≡ values.old.items ++ initializers.filled count []) }
{
    let total = values.len() + count as usize;
    values.resize(total, 0)
}

// The value of a number.
fn add_number(values: &mut Vec<i128>, value: &Expression) -> Result<(), AllocError>
    ensures { OnOk result (values.new.items
        ≡ values.old.items ++ unwrap_or (folded.constant_value (expression_of value.now)) (pos 0)
        ∷ []) }
{
    push(values, number_or_zero(value))
}

#[cycle(values)]
fn add_values(values: &mut Vec<i128>, tree: &Initializer) -> Result<(), AllocError>
    ensures { OnOk result (values.new.items
        ≡ values.old.items ++ initializers.values_of (initializer_of tree.now)) }
{
    match tree {
        Initializer::Number { value } => { add_number(values, value) }
        Initializer::Structure { .. } => Ok(()),
        Initializer::List { items, cells } => {
            let start = values.len();
            add_all(values, items)?;
            fill(values, start, *cells)
        }
        Initializer::Zero { cells, .. } => add_zeros(values, *cells),
    }
}

#[cycle(values)]
fn add_all(values: &mut Vec<i128>, trees: &[Initializer]) -> Result<(), AllocError>
    ensures { OnOk result (values.new.items ≡ values.old.items
        ++ initializers.values_of_items (initializers_from (map initializer_of trees.now))) }
{
    for tree in trees {
        add_values(values, tree)?;
    }
    Ok(())
}

/// The values of the cells of an object, from its initializer.
pub fn values_of(alloc: Global, tree: &Initializer) -> Result<Vec<i128>, AllocError>
    ensures { IfOk result (λ r. r.items ≡ initializers.values_of (initializer_of tree.now)) }
{
    let mut values = Vec::new(alloc);
    let done = add_values(&mut values, tree);
    where_done(done, values)
}

/// The values of so many cells without an initializer (C17 6.7.9p10).
pub fn zeros(alloc: Global, count: u32) -> Result<Vec<i128>, AllocError>
    ensures { IfOk result (λ r. r.items ≡ initializers.filled count []) }
{
    let mut values = Vec::new(alloc);
    let done = add_zeros(&mut values, count);
    where_done(done, values)
}
