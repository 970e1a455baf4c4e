//! Whole effects (C17 6.8.3).
ghost use Rattle.std.specs.Prelude.{◌≡◌};
ghost use Rattle.mc_typed.specs.Views.{effect_of};
ghost use Rattle.types_rules.specs.Values as values;

use mc_typed::Effect;

/// Makes an effect that of a whole expression statement or clause of a `for`, which does not use
/// the value of a call. Takes no memory.
pub fn make_whole(effect: &mut Effect)
    ensures { effect_of effect.new ≡ values.whole (effect_of effect.old) }
{
    match effect {
        Effect::Number { whole, .. } => *whole = true,
        Effect::Structure { whole, .. } => *whole = true,
        Effect::Discard { operand, .. } => make_whole(operand),
        Effect::Assign { .. }
        | Effect::Update { .. }
        | Effect::Copy { .. }
        | Effect::Call { .. }
        | Effect::Output { .. }
        | Effect::Choice { .. } => {}
    }
}
