//! The programs of the worked runs, with their probes.
ghost use Rattle.std.specs.Prelude.{[], ◌∷◌};
ghost use Rattle.tests_meaning.specs.Flap as flap;
ghost use Rattle.tests_meaning.specs.Rows as rows;
ghost use Rattle.tests_meaning.specs.RulesOfCompleting as completing;
ghost use Rattle.tests_meaning.specs.RulesOfEndings as endings;
ghost use Rattle.tests_meaning.specs.RulesOfFullOperators as full_operators;
ghost use Rattle.tests_meaning.specs.RulesOfInitializers as initializers;
ghost use Rattle.tests_meaning.specs.RulesOfOperators as operators;
ghost use Rattle.tests_meaning.specs.RulesOfOrder as order;
ghost use Rattle.tests_meaning.specs.RulesOfStatements as statements;
ghost use Rattle.tests_meaning.specs.RulesOfValues as values;
ghost use Rattle.tests_meaning.specs.Traps as traps;
ghost use Rattle.tests_probe.specs.Followed.{Follow};

/// Decisions wherever they stand, a decision of its own in an operand, recursion, a condition of
/// type `long`, a decision that a trap cuts, constant expressions, and fuel.
pub fn decisions_anywhere()
    ensures { Follow rows.rows }
{}

/// Each trap, and the endings `Levels` and `Cells`.
pub fn traps_and_endings()
    ensures { Follow traps.rows }
{}

/// The flap controller: a static object, a structure, inputs, outputs and labels.
pub fn flap_controller()
    ensures { Follow (flap.row ∷ []) }
{}

/// What is easily got wrong about values, places and calls.
pub fn rules_of_values()
    ensures { Follow values.rows }
{}

/// Initializers, clauses of `for`, and updates.
pub fn rules_of_initializers()
    ensures { Follow initializers.rows }
{}

/// What is easily got wrong about statements and labels, and a test of several calls that traps.
pub fn rules_of_statements()
    ensures rows { Follow statements.rows }
    ensures trapped { Follow (statements.trapped_test ∷ []) }
{}

/// What each operator gives, and where it traps; shifts, comparisons and conversions.
pub fn rules_of_operators()
    ensures { Follow operators.rows }
{}

/// Operators that are evaluated in full: the value of each on its operands, how they stand with
/// other operators of a decision, and which operands are Boolean.
pub fn rules_of_full_operators()
    ensures values { Follow full_operators.value_rows }
    ensures nested { Follow full_operators.nested_rows }
    ensures operands { Follow full_operators.operand_rows }
{}

/// In which order parts are evaluated, and how decisions are numbered.
pub fn rules_of_order()
    ensures { Follow order.rows }
{}

/// Which bodies complete: branches, loops, controlling expressions and switches.
pub fn rules_of_completing()
    ensures branches { Follow completing.rows }
    ensures loops { Follow completing.loop_rows }
    ensures tests { Follow completing.test_rows }
    ensures cases { Follow completing.case_rows }
{}

/// Functions that fall off their end, labels that are absent, and limits.
pub fn rules_of_endings()
    ensures rows { Follow endings.rows }
    ensures large { Follow endings.large_rows }
{}
