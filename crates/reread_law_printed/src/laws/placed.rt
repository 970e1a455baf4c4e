//! Laws of the places of the parts of a text with probes: each may stand where it does. The
//! functions do nothing: each has a law as its contract.
ghost use Rattle.reread_law_printed.specs.placed.Laws.{
  FrontsAreKept,
  FunctionsHaveEntries,
  NeedsAreEnough,
  PartsAreFollowed,
  PartsAreInside,
  PartsArePlaced,
  PartsAreSpelled,
  PartsComeAfter,
  RowsAreSaid,
  SourcesHaveOwnWords,
  ValuesAreTyped,
};

/// Where each part has what it needs, it may stand where it does.
pub fn needs_are_enough()
    ensures { NeedsAreEnough }
{}

/// The words of the parts are those of the source, of which none is the name of a probe, and those
/// of the table's rows, whose numbers are short.
pub fn parts_are_spelled()
    ensures { PartsAreSpelled }
{}

/// Where each function has an entry, its registers and its entry stand at the front of its body,
/// and nothing else does.
pub fn fronts_are_kept()
    ensures { FrontsAreKept }
{}

/// Where the numbers of a program are short, those of its rows are.
pub fn rows_are_said()
    ensures { RowsAreSaid }
{}

/// The words of a source are no names of probes, and no `#`.
pub fn sources_have_own_words()
    ensures { SourcesHaveOwnWords }
{}

/// The table puts an entry into each function.
pub fn functions_have_entries()
    ensures { FunctionsHaveEntries }
{}

/// The parts of the text of a program with probes may stand where they do, where what stands before
/// them and after them allows it, and the brackets that they are in.
pub fn parts_are_placed()
    ensures { PartsArePlaced }
{}

/// What stands directly before each part of the text of a program with probes is what the part
/// needs there, where its rows are separate.
pub fn parts_come_after()
    ensures { PartsComeAfter }
{}

/// The brackets of the source and those of rows stand one inside the other, so that each part
/// stands in the brackets that it needs: a body outside all others, directly after a `)`, the rows
/// of a body inside of it, and an absent `default` directly in its statement.
pub fn parts_are_inside()
    ensures { PartsAreInside }
{}

/// The type of the value of each `return` is that of its function, as the words before the name of
/// the function say it.
pub fn values_are_typed()
    ensures { ValuesAreTyped }
{}

/// What follows a part is what may follow it: after an exit the `}` of its body, after a counted
/// declaration that declaration, in a counted statement neither a declaration nor another hit.
/// What follows a part is what may follow it: after an exit the `}` of its body, after the hit of a
/// declaration that declaration, after the start of a counted statement neither a declaration nor
/// another hit, after that of a bare `return` the text `return ; }`, and after a `{` of the source
/// no hit without its declaration.
pub fn parts_are_followed()
    ensures { PartsAreFollowed }
{}
