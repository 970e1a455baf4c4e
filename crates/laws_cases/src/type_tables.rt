//! Tables. The functions do nothing: each has laws as its contract.
ghost use Rattle.laws_cases.specs.TypeTables as tables;

/// A table with a wrong row is none: of words, of assignments, of conversions, and of one relation.
pub fn wrong_rows_are_none()
    ensures words { tables.LongIsNotInt }
    ensures assignments { tables.SumIsNoDifference }
    ensures operands { tables.SumIsNoChoice }
    ensures assigned { tables.AssignmentIsNoSum }
    ensures rows { tables.WrongRowIsNone }
{}

/// The tables of operands, labels, names, calls, statements and whole effects, by that relation.
pub fn tables_are_told()
    ensures promoted { tables.OneIsPromoted }
    ensures labels { tables.LabelsArePromoted }
    ensures names { tables.NamesAreResolved }
    ensures calls { tables.CallsAreResolved }
    ensures statements { tables.StatementsAreKept }
    ensures effects { tables.WholeEffectsUseNoValue }
{}
