//! Which expressions are roots of decisions.
ghost use Rattle.std.specs.Prelude.{◌≡◌};
ghost use Rattle.mc_typed.specs.Views.{expression_of};
ghost use Rattle.decide_rules.specs.Nodes.{expression};
ghost use Rattle.decide_rules.specs.Roots as roots;
ghost use Rattle.decide_rules.specs.declared.role.Role.TheVariants as role;

use crate::constants::is_constant;
use decide_rules::is_boolean;
use mc_typed::Expression;

/// Whether a controlling expression, or the first operand of `?:`, is the root of a decision.
pub fn is_root_as_test(tree: &Expression) -> bool
    ensures { result ≡ roots.is_root role.Controlling (expression (expression_of tree.now)) }
{
    !is_constant(tree)
}

/// Whether another expression that stands loose is the root of a decision.
pub fn is_root(tree: &Expression) -> bool
    ensures { result ≡ roots.is_root role.Plain (expression (expression_of tree.now)) }
{
    is_boolean(tree) && !is_constant(tree)
}
