//! What follows from the definitions. The functions do nothing: each has a law as its contract.
ghost use Rattle.mc_mutate.specs.Laws.{MutantsAreSound, ChangesAreOfRoots, CountsAreSmall, ConjunctionHasSeven, TheyReturn, RelationHasFour, SumHasNone, NodesInPreorder, InnerComesLater, FullOperatorIsNode};

/// A mutant of a sound program is sound.
pub fn mutants_are_sound()
    ensures { MutantsAreSound }
{}

/// The changes of a program's mutants are those of its decisions, in their order.
pub fn changes_are_of_roots()
    ensures { ChangesAreOfRoots }
{}

/// A program has at most five mutants for each condition of its decisions.
pub fn counts_are_small()
    ensures { CountsAreSmall }
{}

/// The mutants of small programs: `a&&b` has seven, `a<b` four, and `a+b` none; nodes are in
/// preorder, a decision in a condition comes after the one around it, and `(a<b)^(b<a)` is a node
/// with two conditions.
pub fn worked_mutants()
    ensures seven { ConjunctionHasSeven }
    ensures trees { TheyReturn }
    ensures four { RelationHasFour }
    ensures none { SumHasNone }
    ensures preorder { NodesInPreorder }
    ensures inner { InnerComesLater }
    ensures full { FullOperatorIsNode }
{}
