//! Makers of nodes, which keep large values out of the frames of the recursion.
ghost use Rattle.std.specs.Prelude.{◌≡◌, map};
ghost use Rattle.mc_tree.specs.Views.{expression_of, expressions_from, specifier_of, specifiers_from};
ghost use Rattle.mc_grammar.specs.Places as places;
ghost use Rattle.parse_expressions.specs.Given.{GivesMade};

use crate::read::Read;
use mc_span::Span;
use mc_tree::{Expression, Specifier};
use parse_cursor::fault::Fault;
use parse_cursor::values::on_heap;
use std::alloc::Global;

/// A tree on the heap.
#[inline(never)]
pub fn boxed<'a>(alloc: Global, tree: Expression<'a>, height: u32) -> Result<Read<'a>, Fault>
    ensures { GivesMade (expression_of tree.entry) height result }
{
    let tree = on_heap(alloc, tree)?;
    Ok(Read { tree, height })
}

/// Where the last of these expressions stands; where there is none, the place before them.
#[inline(never)]
pub fn end_of_expressions(before: Span, all: &[Expression<'_>]) -> Span
    ensures { result
        ≡ places.end_of_expressions before (expressions_from (map expression_of all.now)) }
{
    let mut end = before;
    for one in all {
        end = one.span();
    }
    end
}

/// Where the last of these specifiers stands; where there is none, the place before them.
#[inline(never)]
pub fn end_of_specifiers(before: Span, all: &[Specifier<'_>]) -> Span
    ensures { result
        ≡ places.end_of_specifiers before (specifiers_from (map specifier_of all.now)) }
{
    let mut end = before;
    for one in all {
        end = one.span();
    }
    end
}
