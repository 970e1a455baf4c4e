//! Expression statements and the third parts of `for` (C17 6.8.3, 6.8.5.3).
ghost use Rattle.std.specs.Prelude.{◌≡◌, ◌++◌, drop, map, IfOk, IfSome, true};
ghost use Rattle.mc_value.specs.declared.int_type.IntType.TheVariants.{Int};
ghost use Rattle.mc_value.specs.declared.operators.BinOp.TheVariants.{Add};
ghost use Rattle.mc_typed.specs.declared.operators.Operator.TheVariants.{Binary};
ghost use Rattle.mc_probe.specs.Tree as probed;
ghost use Rattle.mc_probe.specs.Views as view;
ghost use Rattle.mc_interp.specs.Views.{effect_of, leaf_of};

use super::leaves::{Leaf, leaf_from};
use mc_span::Span;
use mc_typed::{Effect, Operator, Place, Slot};
use mc_value::{BinOp, IntType};
use std::alloc::{AllocError, Global};

/// An effect. The first three assign a leaf to an object of the activation; `place` is where that
/// object stands in the source.
pub(crate) enum Step<'p> {
    /// `+=` in `int` to an `int`, as in `++`.
    Add {
        slot: Slot,
        place: Span,
        right: Leaf,
        span: Span,
    },
    Assign {
        slot: Slot,
        place: Span,
        of: IntType,
        right: Leaf,
        span: Span,
    },
    /// Any other compound assignment.
    Update {
        slot: Slot,
        place: Span,
        of: IntType,
        operator: Operator,
        common: IntType,
        right: Leaf,
        span: Span,
    },
    Walked {
        tree: &'p Effect,
    },
}

// Not derived: a derived one would be proved again wherever a step is let go.
impl<'p> Drop for Step<'p> {
    fn drop(self) {
        match self {
            Step::Add {
                slot: _,
                place: _,
                right: _,
                span: _,
            }
            | Step::Assign {
                slot: _,
                place: _,
                of: _,
                right: _,
                span: _,
            }
            | Step::Update {
                slot: _,
                place: _,
                of: _,
                operator: _,
                common: _,
                right: _,
                span: _,
            }
            | Step::Walked { tree: _ } => {}
        }
    }
}

/// The object of the activation that a place is, and where it stands.
fn local(place: &Place) -> Option<(Slot, Span)>
    ensures { IfSome result (λ found. view.place_of place.now ≡ probed.Local found.0 found.1) }
{
    match place {
        Place::Local { slot, span } => Some((*slot, *span)),
        Place::Static { .. }
        | Place::Parameter { .. }
        | Place::Item { .. }
        | Place::Member { .. } => None,
    }
}

/// Whether a compound assignment adds in `int` to an `int`.
fn adds_ints(of: IntType, operator: Operator, common: IntType) -> bool
    ensures { result ≡ true → (of ≡ Int) × (operator ≡ Binary Add) × (common ≡ Int) }
{
    match (of, operator, common) {
        (IntType::Int, Operator::Binary(BinOp::Add), IntType::Int) => true,
        _ => false,
    }
}

/// The step for a compound assignment of a leaf to an object of the activation.
fn updated<'p>(
    slot: Slot,
    place: Span,
    of: IntType,
    operator: Operator,
    common: IntType,
    right: Leaf,
    span: Span,
) -> Step<'p>
    ensures { effect_of result
        ≡ probed.Update (probed.Local slot place) of operator common (leaf_of right) span }
{
    if adds_ints(of, operator, common) {
        Step::Add {
            slot,
            place,
            right,
            span,
        }
    } else {
        Step::Update {
            slot,
            place,
            of,
            operator,
            common,
            right,
            span,
        }
    }
}

/// The step that an effect is, if it needs no walk.
fn short<'p>(tree: &Effect) -> Option<Step<'p>>
    ensures { IfSome result (λ made. effect_of made ≡ view.effect_of tree.now) }
{
    match tree {
        Effect::Assign {
            target,
            of,
            value,
            span,
        } => {
            let (slot, place) = local(target)?;
            let right = leaf_from(value)?;
            Some(Step::Assign {
                slot,
                place,
                of: *of,
                right,
                span: *span,
            })
        }
        Effect::Update {
            target,
            of,
            operator,
            common,
            value,
            span,
        } => {
            let (slot, place) = local(target)?;
            let right = leaf_from(value)?;
            Some(updated(slot, place, *of, *operator, *common, right, *span))
        }
        _ => None,
    }
}

/// The step that an effect is.
pub(crate) fn step_from<'p>(tree: &'p Effect) -> Step<'p>
    ensures { effect_of result ≡ view.effect_of tree.now }
{
    match short(tree) {
        Some(made) => made,
        None => Step::Walked { tree },
    }
}

/// The steps that effects are.
pub(crate) fn steps_from<'p>(
    alloc: Global,
    trees: &'p [Effect],
) -> Result<Vec<Step<'p>>, AllocError>
    ensures { IfOk result (λ made. map effect_of made.items ≡ map view.effect_of trees.now) }
{
    let mut made = Vec::with_capacity(alloc, trees.len())?;
    for tree in trees {
        made.push(step_from(tree))?;
    }
    Ok(made)
}
