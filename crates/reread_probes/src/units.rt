//! The probes of a whole text.
ghost use Rattle.std.specs.Prelude.{◌≡◌, map, IfOk};
ghost use Rattle.mc_tree.specs.Tree.{name_of};
ghost use Rattle.mc_tree.specs.Views.{declarator_of, specifier_of, specifiers_from};
ghost use Rattle.mc_tree.specs.Units.{block_from, block_item_of, item_of, items_of};
ghost use Rattle.reread_pieces.specs.steps.Views.{marks_of};
ghost use Rattle.reread_probes.specs.Walks as walks;
ghost use Rattle.reread_probes.specs.Statements as spec;
ghost use Rattle.reread_probes.specs.Statements.{placements};
ghost use Rattle.reread_probes.specs.Returned.{Gives};
ghost use Rattle.reread_probes.specs.steps.Views.{walk_of};

use crate::declarations::declaration;
use crate::expressions::{declarator, specifiers};
use crate::fault::PlaceFault;
use crate::probe::probes;
use crate::spot::Spot;
use crate::statements::block;
use crate::walk::Walk;
use mc_span::Span;
use mc_tree::{BlockItem, Declarator, Item, Unit};
use reread_pieces::{Piece, Placed};
use std::alloc::{AllocError, Global};

/// Where the name of a declarator stands.
fn name_span(tree: &Declarator<'_>) -> Span
    ensures { result ≡ (name_of (declarator_of tree.now)).span }
{
    match tree {
        Declarator::Object { name, .. }
        | Declarator::EmptyFunction { name, .. }
        | Declarator::VoidFunction { name, .. }
        | Declarator::Function { name, .. } => name.span,
    }
}

/// The body of a function that ends at `end`, with the probes at its front and its end.
fn body(
    walk: &mut Walk<'_>,
    name: Span,
    end: u32,
    items: &[BlockItem<'_>],
) -> Result<(), AllocError>
    ensures { IfOk result (λ _. walk_of walk.new ≡ spec.walk_body name end
        (block_from (map block_item_of items.now)) (walk_of walk.old)) }
{
    walk.may_take(Spot::Registers { end }, name)?;
    walk.may_take(Spot::Entry { end }, name)?;
    block(walk, items)?;
    walk.may_take(Spot::Exit { end }, name)
}

fn item(walk: &mut Walk<'_>, tree: &Item<'_>) -> Result<(), AllocError>
    ensures { IfOk result (λ _. walk_of walk.new
        ≡ spec.walk_item (item_of tree.now) (walk_of walk.old)) }
{
    match tree {
        Item::Declared { declaration: one } => {
            declaration(walk, one)?;
            Ok(())
        }
        Item::Defined {
            specifiers: words,
            declarator: declared,
            body: items,
            span,
        } => {
            specifiers(walk, words)?;
            declarator(walk, declared)?;
            body(walk, name_span(declared), span.end, items)?;
            Ok(())
        }
    }
}

fn items(walk: &mut Walk<'_>, trees: &[Item<'_>]) -> Result<(), AllocError>
    ensures { IfOk result (λ _. walk_of walk.new
        ≡ spec.walk_items (items_of trees.now) (walk_of walk.old)) }
{
    for tree in trees {
        item(walk, tree)?;
    }
    Ok(())
}

/// What was placed, where all was taken and had a shape.
fn answer(walk: Walk<'_>) -> Result<Vec<Placed>, PlaceFault>
    ensures { Gives (walks.answer (walk_of walk.entry)) result }
{
    let Walk { left, placed, fits } = walk;
    if fits && left.is_empty() {
        Ok(placed)
    } else {
        drop(placed);
        Err(PlaceFault::NoShape)
    }
}

/// The probes of an instrumented text, in the order of the text, each at what it stands at.
///
/// `pieces` are the pieces of the text, `unit` is the tree of its tokens without probes: there the
/// operand of a probe stands in parentheses, a counted statement in braces. The text has the
/// shapes of the table where each probe stands at a statement, a declaration, a label or an
/// expression at which the table puts such a one.
pub fn placed<'a>(
    alloc: Global,
    pieces: &[Piece<'a>],
    unit: &Unit<'a>,
) -> Result<Vec<Placed>, PlaceFault>
    // What is returned is what the definition gives; where it gives nothing, the fault is
    // `NoShape`.
    ensures { Gives (placements (marks_of pieces.now) (items_of unit.now.items.items)) result }
{
    let found = probes(alloc, pieces)?;
    let mut walk = Walk::new(alloc, &found);
    items(&mut walk, &unit.items)?;
    answer(walk)
}
