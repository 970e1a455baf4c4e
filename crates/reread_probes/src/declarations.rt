//! The walk over initializers and declarations, and which declarations are counted.
ghost use Rattle.std.specs.Prelude.{◌≡◌, map, IfOk};
ghost use Rattle.mc_tree.specs.Views.{specifier_of, specifiers_from};
ghost use Rattle.mc_tree.specs.Units.{
  declaration_of,
  init_declarator_of,
  initializer_of,
  initializers_from,
  option_of,
  start_of,
};
ghost use Rattle.reread_probes.specs.Statements as spec;
ghost use Rattle.reread_probes.specs.steps.Views.{walk_of};

use crate::expressions::{declarator, expression, specifiers};
use crate::spot::Spot;
use crate::walk::Walk;
use mc_tree::{
    Declaration, Expression, ForStart, InitDeclarator, Initializer, Specifier, SpecifierWord,
};
use std::alloc::AllocError;

#[cycle(initializer)]
fn initializer(walk: &mut Walk<'_>, tree: &Initializer<'_>) -> Result<(), AllocError>
    ensures { IfOk result (λ _. walk_of walk.new
        ≡ spec.walk_initializer (initializer_of tree.now) (walk_of walk.old)) }
{
    match tree {
        Initializer::Single { value } => {
            expression(walk, value)?;
            Ok(())
        }
        Initializer::Braced { items, .. } => {
            initializers(walk, items)?;
            Ok(())
        }
    }
}

#[cycle(initializer)]
fn initializers(walk: &mut Walk<'_>, trees: &[Initializer<'_>]) -> Result<(), AllocError>
    ensures { IfOk result (λ _. walk_of walk.new ≡ spec.walk_initializers
        (initializers_from (map initializer_of trees.now)) (walk_of walk.old)) }
{
    for tree in trees {
        initializer(walk, tree)?;
    }
    Ok(())
}

fn init_declarator(walk: &mut Walk<'_>, tree: &InitDeclarator<'_>) -> Result<(), AllocError>
    ensures { IfOk result (λ _. walk_of walk.new
        ≡ spec.walk_init_declarator (init_declarator_of tree.now) (walk_of walk.old)) }
{
    match tree {
        InitDeclarator::Bare {
            declarator: declared,
        } => {
            declarator(walk, declared)?;
            Ok(())
        }
        InitDeclarator::Initialized {
            declarator: declared,
            value,
        } => {
            declarator(walk, declared)?;
            initializer(walk, value)?;
            Ok(())
        }
    }
}

fn init_declarators(walk: &mut Walk<'_>, trees: &[InitDeclarator<'_>]) -> Result<(), AllocError>
    ensures { IfOk result (λ _. walk_of walk.new
        ≡ spec.walk_init_declarators (map init_declarator_of trees.now) (walk_of walk.old)) }
{
    for tree in trees {
        init_declarator(walk, tree)?;
    }
    Ok(())
}

pub(crate) fn declaration(walk: &mut Walk<'_>, tree: &Declaration<'_>) -> Result<(), AllocError>
    ensures { IfOk result (λ _. walk_of walk.new
        ≡ spec.walk_declaration (declaration_of tree.now) (walk_of walk.old)) }
{
    specifiers(walk, &tree.specifiers)?;
    init_declarators(walk, &tree.declarators)?;
    Ok(())
}

fn is_static(tree: &Specifier<'_>) -> bool
    ensures { result ≡ spec.is_static (specifier_of tree.now) }
{
    matches!(
        tree,
        Specifier::Word {
            word: SpecifierWord::Static,
            ..
        }
    )
}

fn has_static(trees: &[Specifier<'_>]) -> bool
    ensures { result ≡ spec.has_static (specifiers_from (map specifier_of trees.now)) }
{
    for tree in trees {
        if is_static(tree) {
            return true;
        }
    }
    false
}

fn is_initialized(tree: &InitDeclarator<'_>) -> bool
    ensures { result ≡ spec.is_initialized (init_declarator_of tree.now) }
{
    matches!(tree, InitDeclarator::Initialized { .. })
}

fn initializes(trees: &[InitDeclarator<'_>]) -> bool
    ensures { result ≡ spec.initializes (map init_declarator_of trees.now) }
{
    for tree in trees {
        if is_initialized(tree) {
            return true;
        }
    }
    false
}

/// Whether a declaration in a block initializes an object each time that it is reached.
pub(crate) fn is_counted_local(tree: &Declaration<'_>) -> bool
    ensures { result ≡ spec.is_counted_local (declaration_of tree.now) }
{
    !has_static(&tree.specifiers) && initializes(&tree.declarators)
}

/// A declaration in a block, with its probe where it is counted and has one.
pub(crate) fn local(walk: &mut Walk<'_>, tree: &Declaration<'_>) -> Result<(), AllocError>
    ensures { IfOk result (λ _. walk_of walk.new ≡ spec.walk_declaration (declaration_of tree.now)
        (spec.enter_local (declaration_of tree.now) (walk_of walk.old))) }
{
    enter_local(walk, tree)?;
    declaration(walk, tree)?;
    Ok(())
}

fn enter_local(walk: &mut Walk<'_>, tree: &Declaration<'_>) -> Result<(), AllocError>
    ensures { IfOk result (λ _. walk_of walk.new
        ≡ spec.enter_local (declaration_of tree.now) (walk_of walk.old)) }
{
    if is_counted_local(tree) {
        let spot = Spot::Declaration {
            start: tree.span.start,
        };
        walk.may_take(spot, tree.span)?;
    }
    Ok(())
}

pub(crate) fn optional(
    walk: &mut Walk<'_>,
    tree: &Option<Box<Expression<'_>>>,
) -> Result<(), AllocError>
    ensures { IfOk result (λ _. walk_of walk.new
        ≡ spec.walk_optional (option_of tree.now) (walk_of walk.old)) }
{
    match tree {
        Some(value) => {
            expression(walk, value)?;
            Ok(())
        }
        None => Ok(()),
    }
}

fn for_start(walk: &mut Walk<'_>, tree: &ForStart<'_>) -> Result<(), AllocError>
    ensures { IfOk result (λ _. walk_of walk.new
        ≡ spec.walk_start (start_of tree.now) (walk_of walk.old)) }
{
    match tree {
        ForStart::Local { declaration: first } => {
            declaration(walk, first)?;
            Ok(())
        }
        ForStart::Expression { value } => {
            optional(walk, value)?;
            Ok(())
        }
    }
}

/// The three parts of a `for` before its body.
pub(crate) fn for_parts(
    walk: &mut Walk<'_>,
    start: &ForStart<'_>,
    test: &Option<Box<Expression<'_>>>,
    step: &Option<Box<Expression<'_>>>,
) -> Result<(), AllocError>
    ensures { IfOk result (λ _. walk_of walk.new ≡ spec.walk_parts (start_of start.now)
        (option_of test.now) (option_of step.now) (walk_of walk.old)) }
{
    for_start(walk, start)?;
    optional(walk, test)?;
    optional(walk, step)?;
    Ok(())
}
