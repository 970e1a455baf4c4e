//! Operands that have no operands of their own.
ghost use Rattle.std.specs.Prelude.{◌≡◌, IfSome};
ghost use Rattle.mc_probe.specs.Views.{expression_of};
ghost use Rattle.mc_interp.specs.Views.{leaf_of};

use mc_span::Span;
use mc_typed::{Expression, Place, Slot};
use mc_value::IntType;

/// An integer object of the activation, which is read, or a constant.
#[derive(Clone, Copy)]
pub(crate) enum Leaf {
    Local {
        slot: Slot,
        span: Span,
        of: IntType,
    },
    Constant {
        value: i128,
        of: IntType,
        span: Span,
    },
}

/// The leaf that an expression is, if it is one.
pub(crate) fn leaf_from(e: &Expression) -> Option<Leaf>
    ensures { IfSome result (λ made. leaf_of made ≡ expression_of e.now) }
{
    match e {
        Expression::Constant { value, of, span } => Some(Leaf::Constant {
            value: *value,
            of: *of,
            span: *span,
        }),
        Expression::Read { place, of } => match place {
            Place::Local { slot, span } => Some(Leaf::Local {
                slot: *slot,
                span: *span,
                of: *of,
            }),
            Place::Static { .. }
            | Place::Parameter { .. }
            | Place::Item { .. }
            | Place::Member { .. } => None,
        },
        Expression::Unary { .. }
        | Expression::Convert { .. }
        | Expression::Not { .. }
        | Expression::Binary { .. }
        | Expression::Logic { .. }
        | Expression::Choice { .. }
        | Expression::Call { .. }
        | Expression::Input { .. }
        | Expression::Probe { .. } => None,
    }
}
