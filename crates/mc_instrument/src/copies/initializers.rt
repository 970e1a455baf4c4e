//! Initializers with their probes.
ghost use Rattle.std.specs.Prelude.{◌≡◌, ◌+◌, ◌<◌, ◌^◌, map, option_map, IfOk};
ghost use Rattle.mc_typed.specs.Views as plain;
ghost use Rattle.decide_rules.specs.Counts.{roots, roots_in};
ghost use Rattle.decide_rules.specs.Nodes as nodes;
ghost use Rattle.decide_rules.specs.declared.role.Role.TheVariants as role;
ghost use Rattle.mc_probe.specs.Bare.{bare_expression};
ghost use Rattle.mc_probe.specs.BitMaps.{map_of};
ghost use Rattle.mc_probe.specs.Table.{put_declarators, put_initial, put_initializer, put_initializers};
ghost use Rattle.mc_probe.specs.Views as probed;

use crate::copies::expressions::{expression, structure};
use crate::copies::walk::Walk;
use mc_typed::{Declarator, Expression, Initializer};
use std::alloc::AllocError;

/// A copy of an initializer.
#[cycle(initializer)]
fn initializer(
    walk: &Walk<'_>,
    next: &mut u32,
    tree: &Initializer,
) -> Result<Initializer, AllocError>
    requires { next.now
        + roots role.Plain (nodes.initializer (plain.initializer_of tree.now)) < 2 ^ 32 }
    ensures copy { IfOk result (λ c. probed.initializer_of c
        ≡ put_initializer (map_of walk.now.map.now) walk.now.first next.old
        (plain.initializer_of tree.now)) }
    ensures next { IfOk result (λ _. next.new
        ≡ next.old + roots role.Plain (nodes.initializer (plain.initializer_of tree.now))) }
{
    match tree {
        Initializer::Number { value } => {
            let value = expression(walk, next, value)?;
            Ok(Initializer::Number { value })
        }
        Initializer::Structure { value, cells } => {
            let value = structure(walk, next, value)?;
            Ok(Initializer::Structure {
                value,
                cells: *cells,
            })
        }
        Initializer::List { items, cells } => {
            let items = initializers(walk, next, items)?;
            Ok(Initializer::List {
                items,
                cells: *cells,
            })
        }
        Initializer::Zero { value, cells } => {
            let value = without_probes(walk, next, value)?;
            Ok(Initializer::Zero {
                value,
                cells: *cells,
            })
        }
    }
}

/// A copy without probes of an expression that is not evaluated. Its decisions have their numbers.
fn without_probes(
    walk: &Walk<'_>,
    next: &mut u32,
    tree: &Expression,
) -> Result<Expression, AllocError>
    requires { next.now
        + roots role.Plain (nodes.expression (plain.expression_of tree.now)) < 2 ^ 32 }
    ensures copy { IfOk result (λ c. probed.expression_of c
        ≡ bare_expression (plain.expression_of tree.now)) }
    ensures next { IfOk result (λ _. next.new
        ≡ next.old + roots role.Plain (nodes.expression (plain.expression_of tree.now))) }
{
    let numbered = expression(walk, next, tree)?;
    drop(numbered);
    instrument_copies::expression(walk.alloc, tree)
}

#[cycle(initializer)]
fn initializers(
    walk: &Walk<'_>,
    next: &mut u32,
    trees: &[Initializer],
) -> Result<Vec<Initializer>, AllocError>
    requires { next.now
        + roots_in (nodes.initializers
        (plain.initializers_from (map plain.initializer_of trees.now))) < 2 ^ 32 }
    ensures copy { IfOk result (λ c. probed.initializers_from (map probed.initializer_of c.items)
        ≡ put_initializers (map_of walk.now.map.now) walk.now.first next.old
        (plain.initializers_from (map plain.initializer_of trees.now))) }
    ensures next { IfOk result (λ _. next.new
        ≡ next.old
        + roots_in (nodes.initializers
        (plain.initializers_from (map plain.initializer_of trees.now)))) }
{
    let mut copies = Vec::with_capacity(walk.alloc, trees.len())?;
    for tree in trees {
        let copy = initializer(walk, next, tree)?;
        copies.push(copy)?;
    }
    Ok(copies)
}

fn initial(
    walk: &Walk<'_>,
    next: &mut u32,
    tree: &Option<Initializer>,
) -> Result<Option<Initializer>, AllocError>
    requires { next.now
        + roots role.Plain (nodes.initial (option_map plain.initializer_of tree.now)) < 2 ^ 32 }
    ensures copy { IfOk result (λ c. option_map probed.initializer_of c
        ≡ put_initial (map_of walk.now.map.now) walk.now.first next.old
        (option_map plain.initializer_of tree.now)) }
    ensures next { IfOk result (λ _. next.new
        ≡ next.old + roots role.Plain (nodes.initial (option_map plain.initializer_of tree.now))) }
{
    match tree {
        Some(value) => {
            let value = initializer(walk, next, value)?;
            Ok(Some(value))
        }
        None => Ok(None),
    }
}

fn declarator(walk: &Walk<'_>, next: &mut u32, tree: &Declarator) -> Result<Declarator, AllocError>
    requires { next.now
        + roots role.Plain (nodes.initial (option_map plain.initializer_of tree.now.value)) < 2 ^ 32 }
    ensures copy { IfOk result (λ c. probed.declarator_of c ≡ record {
      slot = tree.now.slot;
      cells = tree.now.cells;
      value = put_initial (map_of walk.now.map.now) walk.now.first next.old
          (option_map plain.initializer_of tree.now.value);
    }) }
    ensures next { IfOk result (λ _. next.new
        ≡ next.old
        + roots role.Plain (nodes.initial (option_map plain.initializer_of tree.now.value))) }
{
    let value = initial(walk, next, &tree.value)?;
    Ok(Declarator {
        slot: tree.slot,
        cells: tree.cells,
        value,
    })
}

/// Copies of declarators.
pub(crate) fn declarators(
    walk: &Walk<'_>,
    next: &mut u32,
    trees: &[Declarator],
) -> Result<Vec<Declarator>, AllocError>
    requires { next.now
        + roots_in (nodes.declarators (map plain.declarator_of trees.now)) < 2 ^ 32 }
    ensures copy { IfOk result (λ c. map probed.declarator_of c.items
        ≡ put_declarators (map_of walk.now.map.now) walk.now.first next.old
        (map plain.declarator_of trees.now)) }
    ensures next { IfOk result (λ _. next.new
        ≡ next.old + roots_in (nodes.declarators (map plain.declarator_of trees.now))) }
{
    let mut copies = Vec::with_capacity(walk.alloc, trees.len())?;
    for tree in trees {
        let copy = declarator(walk, next, tree)?;
        copies.push(copy)?;
    }
    Ok(copies)
}
