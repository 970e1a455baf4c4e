//! A text, and the same where each byte stands twice as far.
ghost use Rattle.std.specs.Prelude.{◌≡◌, Some};
ghost use Rattle.types_rules.specs.Typing.{typing_of};
ghost use Rattle.reread_law_texts.specs.alike.Trees.{moved_unit};
ghost use Rattle.reread_law_places.specs.natural.Moved.{moved_program};
ghost use Rattle.reread_law_places.specs.natural.Settled.{settled};
ghost use Rattle.reread_law_places.specs.natural.Samples.{doubled, doubled_program, short_program, short_unit};

/// The typed program of `void f(int a){if(a)a++;}`, and that of the moved tree, in which `if`,
/// `++` and `}` have as many bytes as before. Once these places are settled, the one is the other,
/// moved.
pub fn places_are_settled()
    ensures short { typing_of short_unit ≡ Some short_program }
    ensures doubled { typing_of (moved_unit doubled short_unit) ≡ Some doubled_program }
    ensures moved { settled doubled_program ≡ settled (moved_program doubled short_program) }
{}
