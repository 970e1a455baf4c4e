//! Expressions that stand as statements (C17 6.8.3).
ghost use Rattle.std.specs.Prelude.{◌≡◌, option_map, option_and_then};
ghost use Rattle.mc_tree.specs.Views as tree;
ghost use Rattle.mc_typed.specs.Views.{effect_of};
ghost use Rattle.types_rules.specs.Scopes as scopes;
ghost use Rattle.types_rules.specs.Values as values;
ghost use Rattle.types_rules.specs.Statements as statement_rules;
ghost use Rattle.types_scopes.specs.Found.{found_of, judged_of, value_of};
ghost use Rattle.types_scopes.specs.steps.Squeezed.{squeezed_part};

use mc_tree::Expression;
use mc_typed::Effect;
use types_faults::after;
use types_scopes::bare::effect_fault;
use types_scopes::effects::make_whole;
use types_scopes::found::{Found, Judged, kind_found};
use types_scopes::value::Value;

fn whole(effect: Option<Effect>) -> Option<Effect>
    ensures { option_map effect_of result ≡ option_map values.whole (option_map effect_of effect) }
{
    match effect {
        Some(mut effect) => {
            make_whole(&mut effect);
            Some(effect)
        }
        None => None,
    }
}

fn effect_in(value: Option<Value>) -> Option<Effect>
    ensures { option_map effect_of result
        ≡ option_and_then values.effect_in (option_map value_of value) }
{
    match value {
        Some(value) => value.into_effect(),
        None => None,
    }
}

/// A whole expression statement or a clause of a `for`, from what is found of the expression.
pub fn effect(expression: &Expression<'_>, found: Found) -> Judged<Effect>
    ensures { (s : scopes.Scope) → judged_of effect_of result s ≡ squeezed_part
        (statement_rules.effect_judged (tree.expression_of expression.now) (found_of found s)) }
{
    let own = effect_fault(expression, kind_found(&found.value));
    let fault = after(found.fault, own);
    let value = whole(effect_in(found.value));
    Judged { fault, value }
}
