//! Laws of names and types for texts that differ in blanks and comments alone: their typed programs
//! differ in places alone. The functions do nothing: each has a law as its contract.
ghost use Rattle.reread_law_places.specs.natural.Laws.{
  ExpressionsMove,
  FaultsMove,
  ProgramsMove,
  ProgramsReturn,
  TypingsMove,
};

/// What is found of a moved expression is what is found of the expression, moved: its faults and
/// its value. Nothing else changes, and the scope after it is the same.
pub fn expressions_move()
    ensures { ExpressionsMove }
{}

/// A moved unit has the faults of names and types that the unit has, moved, and its typed program,
/// moved: but for the places of the words with which statements begin, of closing braces, of the 1
/// that `++` and `--` add and subtract, and of a constant to the right of a compound assignment.
pub fn units_move()
    ensures faults { FaultsMove }
    ensures typing { TypingsMove }
    ensures program { ProgramsMove }
    ensures back { ProgramsReturn }
{}
