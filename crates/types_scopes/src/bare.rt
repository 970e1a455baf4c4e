//! Where an expression starts inside the parentheses round it, and faults that stand there.
ghost use Rattle.std.specs.Prelude.{◌≡◌, option_map};
ghost use Rattle.mc_tree.specs.Views as tree;
ghost use Rattle.types_faults.specs.Faults.{least_of};
ghost use Rattle.types_rules.specs.Values as values;
ghost use Rattle.types_scopes.specs.Found.{kind_of};

use crate::kind::{Kind, fails_discarded, fails_effect};
use mc_tree::Expression;
use types_faults::{Fault, FaultKind, fault_where};

/// Where an expression starts inside the parentheses round it. Takes no memory.
pub fn bare_start(expression: &Expression<'_>) -> u32
    ensures { result ≡ values.bare_start (tree.expression_of expression.now) }
{
    match expression {
        Expression::Parenthesized { inner, .. } => bare_start(inner),
        Expression::Name { .. }
        | Expression::Constant { .. }
        | Expression::Character { .. }
        | Expression::Call { .. }
        | Expression::Index { .. }
        | Expression::Member { .. }
        | Expression::PostfixStep { .. }
        | Expression::PrefixStep { .. }
        | Expression::Unary { .. }
        | Expression::Cast { .. }
        | Expression::Binary { .. }
        | Expression::Conditional { .. }
        | Expression::Assignment { .. }
        | Expression::Comma { .. } => expression.span().start,
    }
}

/// The fault of an expression that stands as a statement and may not.
pub fn effect_fault(expression: &Expression<'_>, kind: Option<Kind<'_>>) -> Option<Fault>
    ensures { result ≡ least_of
        (values.effect_faults (tree.expression_of expression.now) (option_map kind_of kind.entry)) }
{
    fault_where(
        fails_effect(kind),
        FaultKind::Mismatch,
        bare_start(expression),
    )
}

/// The fault of an expression that stands under a cast to void and may not.
pub fn discarded_fault(expression: &Expression<'_>, kind: Option<Kind<'_>>) -> Option<Fault>
    ensures { result ≡ least_of
        (values.discarded_faults (tree.expression_of expression.now)
        (option_map kind_of kind.entry)) }
{
    fault_where(
        fails_discarded(kind),
        FaultKind::Mismatch,
        bare_start(expression),
    )
}
