//! The height of initializers and declarators.
ghost use Rattle.std.specs.Prelude.{◌≡◌, map, option_map};
ghost use Rattle.mc_typed.specs.Levels.{height_initializer, height_initializers, height_value, height_declarators, limited_more};
ghost use Rattle.mc_typed.specs.Views.{initializer_of, initializers_from, declarator_of};

use crate::heights::expressions::{expression, structure};
use crate::initializers::Initializer;
use crate::statements::Declarator;
use std::cmp::max;

#[cycle(initializer)]
fn initializer(tree: &Initializer) -> u32
    ensures { result ≡ height_initializer limited_more (initializer_of tree.now) }
{
    match tree {
        Initializer::Number { value } | Initializer::Zero { value, .. } => expression(value),
        Initializer::Structure { value, .. } => structure(value),
        Initializer::List { items, .. } => initializers(items),
    }
}

#[cycle(initializer)]
fn initializers(trees: &[Initializer]) -> u32
    ensures { result
        ≡ height_initializers limited_more (initializers_from (map initializer_of trees.now)) }
{
    let mut tallest = 0;
    for tree in trees {
        tallest = max(tallest, initializer(tree));
    }
    tallest
}

fn value(tree: &Option<Initializer>) -> u32
    ensures { result ≡ height_value limited_more (option_map initializer_of tree.now) }
{
    match tree {
        Some(value) => initializer(value),
        None => 0,
    }
}

pub(super) fn declarators(trees: &[Declarator]) -> u32
    ensures { result ≡ height_declarators limited_more (map declarator_of trees.now) }
{
    let mut tallest = 0;
    for tree in trees {
        tallest = max(tallest, value(&tree.value));
    }
    tallest
}
