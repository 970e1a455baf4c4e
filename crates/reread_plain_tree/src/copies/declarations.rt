//! Copies of initializers and declarations.
ghost use Rattle.std.specs.Prelude.{◌≡◌, IfOk, map};
ghost use Rattle.mc_tree.specs.Units.{
  declaration_of,
  init_declarator_of,
  initializer_of,
  initializers_from,
  option_of,
  start_of,
};
ghost use Rattle.reread_plain_tree.specs.Unprobed as spec;
ghost use Rattle.reread_plain_tree.specs.steps.Heaps.{heap_start_of};

use crate::copies::expressions::{declarator, expression, specifiers};
use crate::copies::heap::on_heap;
use mc_tree::{Declaration, Expression, ForStart, InitDeclarator, Initializer};
use std::alloc::{AllocError, Global};

#[cycle(copy)]
fn initializer<'a>(alloc: Global, tree: &Initializer<'a>) -> Result<Initializer<'a>, AllocError>
    ensures { IfOk result (λ c.
        initializer_of c ≡ spec.unprobed_initializer (initializer_of tree.now)) }
{
    match tree {
        Initializer::Single { value } => {
            let value = expression(alloc, value)?;
            Ok(Initializer::Single { value })
        }
        Initializer::Braced { items, span } => {
            let items = initializers(alloc, items)?;
            Ok(Initializer::Braced { items, span: *span })
        }
    }
}

#[cycle(copy)]
fn initializers<'a>(
    alloc: Global,
    trees: &[Initializer<'a>],
) -> Result<Vec<Initializer<'a>>, AllocError>
    ensures { IfOk result (λ c. initializers_from (map initializer_of c.items)
        ≡ spec.unprobed_initializers (initializers_from (map initializer_of trees.now))) }
{
    let mut copies = Vec::with_capacity(alloc, trees.len())?;
    for tree in trees {
        let copy = initializer(alloc, tree)?;
        copies.push(copy)?;
    }
    Ok(copies)
}

fn init_declarator<'a>(
    alloc: Global,
    tree: &InitDeclarator<'a>,
) -> Result<InitDeclarator<'a>, AllocError>
    ensures { IfOk result (λ c.
        init_declarator_of c ≡ spec.unprobed_init_declarator (init_declarator_of tree.now)) }
{
    match tree {
        InitDeclarator::Bare {
            declarator: declared,
        } => {
            let declarator = declarator(alloc, declared)?;
            Ok(InitDeclarator::Bare { declarator })
        }
        InitDeclarator::Initialized {
            declarator: declared,
            value,
        } => {
            let declarator = declarator(alloc, declared)?;
            let value = initializer(alloc, value)?;
            Ok(InitDeclarator::Initialized { declarator, value })
        }
    }
}

fn init_declarators<'a>(
    alloc: Global,
    trees: &[InitDeclarator<'a>],
) -> Result<Vec<InitDeclarator<'a>>, AllocError>
    ensures { IfOk result (λ c. map init_declarator_of c.items
        ≡ spec.unprobed_init_declarators (map init_declarator_of trees.now)) }
{
    let mut copies = Vec::with_capacity(alloc, trees.len())?;
    for tree in trees {
        let copy = init_declarator(alloc, tree)?;
        copies.push(copy)?;
    }
    Ok(copies)
}

/// A copy of a declaration.
#[inline(never)]
pub(super) fn declaration<'a>(
    alloc: Global,
    tree: &Declaration<'a>,
) -> Result<Declaration<'a>, AllocError>
    ensures { IfOk result (λ c.
        declaration_of c ≡ spec.unprobed_declaration (declaration_of tree.now)) }
{
    let specifiers = specifiers(alloc, &tree.specifiers)?;
    let declarators = init_declarators(alloc, &tree.declarators)?;
    Ok(Declaration {
        specifiers,
        declarators,
        span: tree.span,
    })
}

/// A copy of an expression that may be left out.
#[inline(never)]
pub(super) fn optional<'a>(
    alloc: Global,
    tree: &Option<Box<Expression<'a>>>,
) -> Result<Option<Box<Expression<'a>>>, AllocError>
    ensures { IfOk result (λ c. option_of c ≡ spec.unprobed_optional (option_of tree.now)) }
{
    match tree {
        Some(value) => {
            let value = expression(alloc, value)?;
            Ok(Some(value))
        }
        None => Ok(None),
    }
}

fn start<'a>(alloc: Global, tree: &ForStart<'a>) -> Result<ForStart<'a>, AllocError>
    ensures { IfOk result (λ c. start_of c ≡ spec.unprobed_start (start_of tree.now)) }
{
    match tree {
        ForStart::Local { declaration: local } => {
            let declaration = declaration(alloc, local)?;
            Ok(ForStart::Local { declaration })
        }
        ForStart::Expression { value } => {
            let value = optional(alloc, value)?;
            Ok(ForStart::Expression { value })
        }
    }
}

/// A copy of the first part of a `for`, on the heap.
#[inline(never)]
pub(super) fn start_on_heap<'a>(
    alloc: Global,
    tree: &ForStart<'a>,
) -> Result<Box<ForStart<'a>>, AllocError>
    ensures { IfOk result (λ c. heap_start_of c ≡ spec.unprobed_start (start_of tree.now)) }
{
    let copy = start(alloc, tree)?;
    on_heap(alloc, copy)
}
