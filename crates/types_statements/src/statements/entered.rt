//! Blocks that statements begin (C17 6.8.2p1, 6.8.4p3).
ghost use Rattle.std.specs.Prelude.{◌≡◌, IfOk};
ghost use Rattle.types_rules.specs.Scopes as scopes;
ghost use Rattle.types_rules.specs.Statements as statement_rules;
ghost use Rattle.types_scopes.specs.Blocks as blocks;
ghost use Rattle.types_scopes.specs.Views.{scope_of};
ghost use Rattle.types_scopes.specs.Found.{found_of};
ghost use Rattle.types_scopes.specs.Statements.{around_of};

use crate::statements::selections::label_type;
use std::alloc::{AllocError, Global};
use types_scopes::around::Around;
use types_scopes::found::Found;
use types_scopes::{Block, Labels, Scope};

fn same_labels(labels: &Option<Labels>) -> Result<Option<Labels>, AllocError>
    ensures { IfOk result (λ r. r ≡ labels.now) }
{
    match labels {
        Some(labels) => match labels.try_clone() {
            Ok(labels) => Ok(Some(labels)),
            Err(error) => Err(error),
        },
        None => Ok(None),
    }
}

// The labels that stand in a compound statement.
fn labels_inside(scope: &Scope<'_>, around: Around) -> Result<Option<Labels>, AllocError>
    ensures { IfOk result (λ r. scopes.entered r (scope_of scope.now)
        ≡ statement_rules.compound_scope (around_of around) (scope_of scope.now)) }
{
    if around.is_body {
        same_labels(&scope.labels)
    } else {
        Ok(None)
    }
}

/// The block of a compound statement: labels stand in it where it is the body of a `switch`.
pub fn enter_compound(scope: &mut Scope<'_>, around: Around) -> Result<Block, AllocError>
    ensures block { IfOk result (λ b. blocks.around_of b ≡ blocks.around (scope_of scope.old)) }
    ensures entered { IfOk result (λ _. scope_of scope.new
        ≡ statement_rules.compound_scope (around_of around) (scope_of scope.old)) }
{
    match labels_inside(scope, around) {
        Ok(labels) => Ok(scope.enter(labels)),
        Err(error) => Err(error),
    }
}

/// The body of a `switch` on this expression. Takes no memory.
pub fn enter_switch(alloc: Global, scope: &mut Scope<'_>, value: &Found) -> Block
    ensures block { blocks.around_of result ≡ blocks.around (scope_of scope.old) }
    ensures entered { scope_of scope.new
        ≡ statement_rules.switch_scope (found_of value.now (scope_of scope.old)) }
{
    let labels = Labels::new(alloc, label_type(value));
    scope.enter(Some(labels))
}
