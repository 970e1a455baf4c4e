//! The functions do nothing: each has a law as its contract.
ghost use Rattle.laws_types.specs.Constants.{ConstantsHaveTheirTypes, NarrowWords, WideWords};
ghost use Rattle.laws_types.specs.ConstantExpressions.{ConstantExpressionsAreTold};
ghost use Rattle.laws_types.specs.Conversions.{AssignedIsConverted, LabelsArePromoted, OneIsPromoted, OperandsAreConverted};
ghost use Rattle.laws_types.specs.Decided.{DecisionsStandInTheSource};
ghost use Rattle.laws_types.specs.Exact.{UnitsAreExact};
ghost use Rattle.laws_types.specs.InTheText.{DecisionsAreInOrder, ProgramsStandInTheirText};
ghost use Rattle.laws_types.specs.Heights.{ExpressionsHaveLevels, StatementsHaveLevels};
ghost use Rattle.laws_types.specs.Operators.{AssignmentsAreKept, OperatorsAreKept};
ghost use Rattle.laws_types.specs.Places.{CallsAreResolved, NamesAreResolved};
ghost use Rattle.laws_types.specs.SourceUnits.{DeclarationsMakeObjects, ProgramsHaveTheirSource};
ghost use Rattle.laws_types.specs.Statements.{StatementsAreKept};
ghost use Rattle.laws_types.specs.WholeEffects.{WholeEffectsUseNoValue};

/// The typed program of every unit has the operators of its source, in their order and with the
/// same operands, and each node stands where that of the source stands.
pub fn programs_have_their_source()
    ensures { ProgramsHaveTheirSource }
{}

/// In a block each declaration without `static` and `typedef` makes the objects of its declarators,
/// and one with such a word makes none.
pub fn declarations_make_objects()
    ensures { DeclarationsMakeObjects }
{}

/// Roots of decisions and their conditions stand where expressions of the source stand.
pub fn decisions_stand_in_the_source()
    ensures { DecisionsStandInTheSource }
{}

/// The typed program of every accepted source stands as its text does: each node between two bytes
/// of the source, its parts within it and one after the other. So its decisions are in the order of
/// the starts of their roots, and of two that start together the outer one comes first.
pub fn programs_stand_in_their_text()
    ensures nodes { ProgramsStandInTheirText }
    ensures decisions { DecisionsAreInOrder }
{}

/// Each operator of the source is the same one in the typed program, with its operands in order.
pub fn operators_are_kept()
    ensures { OperatorsAreKept }
{}

/// So is that of each assignment and step.
pub fn assignments_are_kept()
    ensures { AssignmentsAreKept }
{}

/// The operands of arithmetic operators, `?:` and shifts, of each pair of types, have the
/// conversions that C implies, and no others.
pub fn operands_are_converted()
    ensures { OperandsAreConverted }
{}

/// So has what is assigned, of each pair of types.
pub fn assigned_is_converted()
    ensures { AssignedIsConverted }
{}

/// The operand of a unary operator, of each type, is promoted.
pub fn one_is_promoted()
    ensures { OneIsPromoted }
{}

/// In the typed program of every unit the conversions that C implies are the usual arithmetic ones,
/// the promotions and those of assignments, and none leads to the type that is there.
pub fn units_are_exact()
    ensures { UnitsAreExact }
{}

/// The labels of a `switch` have the promoted type of its expression.
pub fn labels_are_promoted()
    ensures { LabelsArePromoted }
{}

/// The types of constants: each cell of the table.
pub fn constants_have_their_types()
    ensures { ConstantsHaveTheirTypes }
{}

/// The types of words: each set of the table, in more than one order.
pub fn words_have_their_types()
    ensures narrow { NarrowWords }
    ensures wide { WideWords }
{}

/// Each part of each expression the highest once.
pub fn expressions_have_levels()
    ensures { ExpressionsHaveLevels }
{}

/// Each part of each effect, declaration and statement the highest once.
pub fn statements_have_levels()
    ensures { StatementsHaveLevels }
{}

/// Names, elements, members and calls: which object, which part, which function.
pub fn names_are_resolved()
    ensures values { NamesAreResolved }
    ensures effects { CallsAreResolved }
{}

/// Each statement is the same one in the typed program, with its parts in order and its keyword.
pub fn statements_are_kept()
    ensures { StatementsAreKept }
{}

/// Which expressions are built as integer constant expressions, evaluated or not.
pub fn constant_expressions_are_told()
    ensures { ConstantExpressionsAreTold }
{}

/// Whole statements and clauses use no value, also under casts to void; the arms of `?:` do.
pub fn whole_effects_use_no_value()
    ensures { WholeEffectsUseNoValue }
{}
