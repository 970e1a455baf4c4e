//! Worked examples: what is said of short texts. Their trees stand in `specs/Sample*.antt`, each
//! with its text. The functions do nothing: each has a law as its contract.
ghost use Rattle.std.specs.Prelude.{◌≡◌, pos, [], ◌∷◌, Some};
ghost use Rattle.mc_typed.specs.Examples as example;
ghost use Rattle.types_rules.specs.Typing.{typing_of};
ghost use Rattle.types_rules.specs.SampleTyped as typed;
ghost use Rattle.types_rules.specs.Sampled.{Answers, TypesSoundly, functions_only, initial_of};
ghost use Rattle.types_rules.specs.SampleNames as names;
ghost use Rattle.types_rules.specs.SampleTypes as types;
ghost use Rattle.types_rules.specs.SampleValues as values;
ghost use Rattle.types_rules.specs.SampleBodies as bodies;
ghost use Rattle.types_rules.specs.SampleLimits as limits;
ghost use Rattle.types_rules.specs.SampleLists as lists;
ghost use Rattle.types_rules.specs.SamplePlaces as places;
ghost use Rattle.types_rules.specs.SampleSilent as silent;

/// Short texts on names, tags and scopes.
pub fn texts_on_names()
    ensures { Answers names.all }
{}

/// Short texts on types and declarations.
pub fn texts_on_types()
    ensures { Answers types.all }
{}

/// Short texts on expressions.
pub fn texts_on_values()
    ensures { Answers values.all }
{}

/// Short texts on statements.
pub fn texts_on_bodies()
    ensures { Answers bodies.all }
{}

/// Short texts on limits.
pub fn texts_on_limits()
    ensures { Answers limits.all }
{}

/// Short texts on initializers.
pub fn texts_on_lists()
    ensures { Answers lists.all }
{}

/// Short texts on places, assignments and arguments.
pub fn texts_on_places()
    ensures { Answers places.all }
{}

/// Short texts in which a missing type silences other faults, or does not.
pub fn texts_on_silent()
    ensures { Answers silent.all }
{}

/// The text has the typed program that `mc_typed` writes out by hand.
pub fn text_of_recursion_is_typed()
    ensures { typing_of typed.recursion ≡ Some example.recursion }
{}

/// The text has the typed program that `mc_typed` writes out by hand.
pub fn text_of_array_is_typed()
    ensures { typing_of typed.array ≡ functions_only (example.array ∷ []) }
{}

/// The text has the typed program that `mc_typed` writes out by hand.
pub fn text_of_structures_is_typed()
    ensures { typing_of typed.structures ≡ Some example.structures }
{}

/// The text has the typed program that `mc_typed` writes out by hand.
pub fn text_of_constructs_is_typed()
    ensures { typing_of typed.constructs ≡ functions_only (example.constructs ∷ []) }
{}

/// Declared objects stand before their initializers, the copy of a structure argument after that
/// argument, and a returned structure after the arguments of its call.
pub fn temporary_objects_are_sound()
    ensures { TypesSoundly typed.temporaries }
{}

/// The objects of a `do` statement's test stand after those of its body.
pub fn objects_of_a_loop_are_sound()
    ensures { TypesSoundly typed.loop }
{}

/// Conversions that C implies are written.
pub fn conversions_are_sound()
    ensures { TypesSoundly typed.arithmetic }
{}

/// Objects with static storage duration have converted values, and 0 where a list is shorter.
pub fn statics_have_values()
    ensures sound { TypesSoundly typed.statics }
    ensures initial { initial_of (typing_of typed.statics)
        ≡ (pos 1 ∷ pos 0 ∷ pos 0 ∷ pos 0 ∷ pos 0 ∷ pos 0 ∷ [])
        ∷ (pos 1 ∷ pos 1 ∷ pos 6 ∷ pos 0 ∷ []) ∷ (pos 12 ∷ []) ∷ (pos 3 ∷ []) ∷ [] }
{}
