//! Clauses of a `for`, and the declarators of a declaration, as lists.
ghost use Rattle.std.specs.Prelude.{◌≡◌, [], ◌∷◌, None, Some, IfOk, option_map};
ghost use Rattle.mc_typed.specs.Tree as typed;
ghost use Rattle.mc_typed.specs.Views.{effect_of, start_of};
ghost use Rattle.types_rules.specs.Scopes as scopes;
ghost use Rattle.types_rules.specs.Values.{judged};
ghost use Rattle.types_rules.specs.Declarations.{both_lists};
ghost use Rattle.types_rules.specs.Bodies as bodies;
ghost use Rattle.types_scopes.specs.Found.{judged_of};
ghost use Rattle.types_scopes.specs.Statements.{declarators_of, effects_of, test_of};
ghost use Rattle.types_scopes.specs.steps.Squeezed.{squeezed_part};

use mc_typed::{Declarator, Effect, Expression, ForStart};
use std::alloc::{AllocError, Global};
use types_scopes::found::Judged;
use types_scopes::lists::{joined_lists, list_of};

// ---- parts that are absent

/// No clauses. Takes no memory.
pub fn no_clauses(alloc: Global) -> Judged<Vec<Effect>>
    ensures { (s : scopes.Scope) → judged_of effects_of result s ≡ bodies.no_step s }
{
    Judged {
        fault: None,
        value: Some(Vec::new(alloc)),
    }
}

/// The first part of a `while`, which has none. Takes no memory.
pub fn no_start(alloc: Global) -> Judged<ForStart>
    ensures { (s : scopes.Scope) → judged_of start_of result s ≡ bodies.no_start s }
{
    Judged {
        fault: None,
        value: Some(ForStart::Effects {
            effects: Vec::new(alloc),
        }),
    }
}

/// A test that is absent.
pub fn no_test() -> Judged<Option<Expression>>
    ensures { (s : scopes.Scope) → judged_of test_of result s ≡ judged [] (Some None) s }
{
    Judged {
        fault: None,
        value: Some(None),
    }
}

// ---- clauses

fn clause_of(alloc: Global, effect: Option<Effect>) -> Result<Option<Vec<Effect>>, AllocError>
    ensures { IfOk result (λ r. option_map effects_of r
        ≡ option_map (λ effect. effect ∷ []) (option_map effect_of effect)) }
{
    match effect {
        Some(effect) => match list_of(alloc, effect) {
            Ok(list) => Ok(Some(list)),
            Err(error) => Err(error),
        },
        None => Ok(None),
    }
}

/// One clause.
pub fn clause(alloc: Global, effect: Judged<Effect>) -> Result<Judged<Vec<Effect>>, AllocError>
    ensures { IfOk result (λ r. (s : scopes.Scope) → judged_of effects_of r s
        ≡ bodies.listed (judged_of effect_of effect s)) }
{
    match clause_of(alloc, effect.value) {
        Ok(value) => Ok(Judged {
            fault: effect.fault,
            value,
        }),
        Err(error) => Err(error),
    }
}

/// Clauses, and more after them.
pub fn more_clauses(
    list: Judged<Vec<Effect>>,
    more: Judged<Vec<Effect>>,
) -> Result<Judged<Vec<Effect>>, AllocError>
    ensures { IfOk result (λ r. (s : scopes.Scope) → judged_of effects_of r s
        ≡ squeezed_part (both_lists
        (judged_of effects_of list s) (judged_of effects_of more s))) }
{
    joined_lists(list, more)
}

// ---- declarators

/// No declarators. Takes no memory.
pub fn no_declarators(alloc: Global) -> Judged<Vec<Declarator>>
    ensures { (s : scopes.Scope) → judged_of declarators_of result s ≡ judged [] (Some []) s }
{
    Judged {
        fault: None,
        value: Some(Vec::new(alloc)),
    }
}

/// Declarators, and more after them.
pub fn more_declarators(
    list: Judged<Vec<Declarator>>,
    more: Judged<Vec<Declarator>>,
) -> Result<Judged<Vec<Declarator>>, AllocError>
    ensures { IfOk result (λ r. (s : scopes.Scope) → judged_of declarators_of r s
        ≡ squeezed_part (both_lists
        (judged_of declarators_of list s) (judged_of declarators_of more s))) }
{
    joined_lists(list, more)
}
