//! Plain runs that were worked by hand. Each function has some of them as its contract.
ghost use Rattle.std.specs.Prelude.{◌≡◌, pos, [], ◌∷◌};
ghost use Rattle.mc_typed.specs.declared.plans.Ending.TheVariants as ending;
ghost use Rattle.mc_meaning.specs.Tests.{plain_run};
ghost use Rattle.tests_meaning.specs.Seen.{Hold, one_call};
ghost use Rattle.tests_meaning.specs.Flap as flap;
ghost use Rattle.tests_meaning.specs.Rows as rows;
ghost use Rattle.tests_meaning.specs.RulesOfFullOperators as full_operators;
ghost use Rattle.tests_meaning.specs.RulesOfInitializers as initializers;
ghost use Rattle.tests_meaning.specs.RulesOfOperators as operators;
ghost use Rattle.tests_meaning.specs.RulesOfOrder as order;
ghost use Rattle.tests_meaning.specs.RulesOfCompleting as completing;
ghost use Rattle.tests_meaning.specs.RulesOfEndings as endings;
ghost use Rattle.tests_meaning.specs.RulesOfEndings.{ExpectationsAreJudged, FuelComesFirst, OutputTakesAUnit};
ghost use Rattle.tests_meaning.specs.RulesOfValues as values;
ghost use Rattle.tests_meaning.specs.RulesOfStatements.{LimitsAreInOrder, OutputIsLimited, StatesAreJudged};
ghost use Rattle.tests_meaning.specs.RulesOfStatements as statements;
ghost use Rattle.tests_meaning.specs.Traps as traps;

/// Decisions wherever they stand, a decision of its own in an operand, recursion, a condition of
/// type `long`, a decision that a trap cuts, constant expressions, and fuel.
pub fn decisions_anywhere()
    ensures { Hold rows.rows }
{}

/// Each trap, and the endings `Levels` and `Cells`.
pub fn traps_and_endings()
    ensures { Hold traps.rows }
{}

/// The flap controller: a static object, a structure, inputs, outputs and labels.
pub fn flap_controller()
    ensures run { Hold (flap.row ∷ []) }
    ensures passes { flap.Passes }
{}

/// What is easily got wrong about values, places and calls.
pub fn rules_of_values()
    ensures { Hold values.rows }
{}

/// Initializers, clauses of `for`, and updates.
pub fn rules_of_initializers()
    ensures { Hold initializers.rows }
{}

/// What is easily got wrong about statements and labels.
pub fn rules_of_statements()
    ensures { Hold statements.rows }
{}

/// The limits are tested in their order, after the unit of fuel and before the entry.
pub fn limits_are_in_order()
    ensures { LimitsAreInOrder }
{}

/// The output holds 4,096 numbers.
pub fn output_is_limited()
    ensures { OutputIsLimited }
{}

/// How the calls of a test belong together, and its state.
pub fn states_of_tests()
    ensures judged { StatesAreJudged }
    ensures trapped { Hold (statements.trapped_test ∷ []) }
{}

/// What each operator gives, and where it traps; shifts, comparisons and conversions.
pub fn rules_of_operators()
    ensures { Hold operators.rows }
{}

/// Operators that are evaluated in full: the value of each on its operands, how they stand with
/// other operators of a decision, and which operands are Boolean.
pub fn rules_of_full_operators()
    ensures values { Hold full_operators.value_rows }
    ensures nested { Hold full_operators.nested_rows }
    ensures operands { Hold full_operators.operand_rows }
{}

/// In which order parts are evaluated, and how decisions are numbered.
pub fn rules_of_order()
    ensures { Hold order.rows }
{}

/// Which bodies complete: branches, loops, controlling expressions and switches.
pub fn rules_of_completing()
    ensures branches { Hold completing.rows }
    ensures loops { Hold completing.loop_rows }
    ensures tests { Hold completing.test_rows }
    ensures cases { Hold completing.case_rows }
{}

/// Functions that fall off their end, labels that are absent, and limits.
pub fn rules_of_endings()
    ensures rows { Hold endings.rows }
    ensures large { Hold endings.large_rows }
    ensures unit { OutputTakesAUnit }
    ensures first { FuelComesFirst }
{}

/// Expected values and outputs, of one call and of two.
pub fn expectations_are_judged()
    ensures { ExpectationsAreJudged }
{}
