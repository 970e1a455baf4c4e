//! Which expressions are candidates: roots unless they are constant.
ghost use Rattle.std.specs.Prelude.{◌≡◌, IfOk};
ghost use Rattle.mc_typed.specs.Views.{expression_of};
ghost use Rattle.decide_rules.specs.Nodes.{expression};
ghost use Rattle.decide_rules.specs.Roots.{is_candidate};
ghost use Rattle.decide_walk.specs.steps.Gathering.{entered, gathered_of, is_taken};

use crate::gathered::{Gathered, add};
use decide_rules::{Role, is_boolean};
use mc_typed::Expression;
use std::alloc::AllocError;

/// Adds the decision with this root where it is one unless it is constant.
pub fn enter(found: &mut Gathered, role: Role, tree: &Expression) -> Result<(), AllocError>
    ensures { IfOk result (λ _. gathered_of found.new
        ≡ entered role (expression (expression_of tree.now)) (gathered_of found.old)) }
{
    if is_candidate(role, tree) {
        add(found, tree)
    } else {
        Ok(())
    }
}

fn is_candidate(role: Role, tree: &Expression) -> bool
    ensures { result ≡ is_candidate role (expression (expression_of tree.now)) }
{
    is_taken(role, is_boolean(tree))
}

fn is_taken(role: Role, boolean: bool) -> bool
    ensures { result ≡ is_taken role boolean }
{
    match role {
        Role::Controlling => true,
        Role::Inner => false,
        Role::Plain => boolean,
    }
}
