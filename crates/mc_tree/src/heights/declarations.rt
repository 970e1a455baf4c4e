//! The height of initializers and declarations.
ghost use Rattle.std.specs.Prelude.{◌≡◌, ◌≤◌, map};
ghost use Rattle.mc_tree.specs.Units.{initializer_of, initializers_from, init_declarator_of, declaration_of, option_of, start_of};
ghost use Rattle.mc_tree.specs.Height as height;

use crate::declarations::declaration::Declaration;
use crate::declarations::init_declarator::InitDeclarator;
use crate::declarations::initializer::Initializer;
use crate::expressions::expression::Expression;
use crate::heights::syntax::{declarator, expression, specifiers};
use crate::statements::for_start::ForStart;
use std::cmp::max;

fn initializer(tree: &Initializer<'_>) -> u32
    requires { height.height_initializer (initializer_of tree.now) ≤ 800 }
    ensures { result ≡ height.height_initializer (initializer_of tree.now) }
{
    match tree {
        Initializer::Single { value } => expression(value) + 1,
        Initializer::Braced { items, .. } => {
            let mut tallest = 0;
            for item in items {
                tallest = max(tallest, initializer(item));
            }
            tallest + 1
        }
    }
}

fn init_declarator(tree: &InitDeclarator<'_>) -> u32
    requires { height.height_init_declarator (init_declarator_of tree.now) ≤ 800 }
    ensures { result ≡ height.height_init_declarator (init_declarator_of tree.now) }
{
    match tree {
        InitDeclarator::Bare {
            declarator: declared,
        } => declarator(declared),
        InitDeclarator::Initialized {
            declarator: declared,
            value,
        } => { max(declarator(declared), initializer(value)) }
    }
}

fn init_declarators(trees: &[InitDeclarator<'_>]) -> u32
    requires { height.height_init_declarators (map init_declarator_of trees.now) ≤ 800 }
    ensures { result ≡ height.height_init_declarators (map init_declarator_of trees.now) }
{
    let mut tallest = 0;
    for tree in trees {
        tallest = max(tallest, init_declarator(tree));
    }
    tallest
}

pub(crate) fn declaration(tree: &Declaration<'_>) -> u32
    requires { height.height_declaration (declaration_of tree.now) ≤ 800 }
    ensures { result ≡ height.height_declaration (declaration_of tree.now) }
{
    max(
        specifiers(&tree.specifiers),
        init_declarators(&tree.declarators),
    )
}

pub(crate) fn optional(tree: &Option<Box<Expression<'_>>>) -> u32
    requires { height.height_optional (option_of tree.now) ≤ 800 }
    ensures { result ≡ height.height_optional (option_of tree.now) }
{
    match tree {
        Some(value) => expression(value),
        None => 0,
    }
}

pub(crate) fn for_start(tree: &ForStart<'_>) -> u32
    requires { height.height_start (start_of tree.now) ≤ 800 }
    ensures { result ≡ height.height_start (start_of tree.now) }
{
    match tree {
        ForStart::Local { declaration: local } => declaration(local),
        ForStart::Expression { value } => optional(value),
    }
}
