//! Laws of the places of a text's program with probes: no two of its expressions stand at one. The
//! functions do nothing: each has a law as its contract.
ghost use Rattle.reread_law_probes.specs.stood.Laws.{PlacesAreApart, ProgramsStandApart, StandsAreApart};
ghost use Rattle.reread_law_probes.specs.stood.Worked.{StepsHavePlaces};

use laws_types::programs_have_their_source;

/// No two expressions of a text stand at one place, and none where a `++` or `--` stands.
pub fn stands_are_apart()
    ensures { StandsAreApart }
{}

/// So no two expressions of its program with probes do, where an implied conversion has the place
/// of its operand and the 1 of `++` that of the `++`.
pub fn programs_stand_apart()
    ensures { ProgramsStandApart }
{
    programs_have_their_source();
}

/// Both together: of every text.
pub fn places_are_apart()
    ensures { PlacesAreApart }
{
    stands_are_apart();
    programs_stand_apart();
}

/// The places in `a++` and in `++a`.
pub fn steps_have_places()
    ensures { StepsHavePlaces }
{}
