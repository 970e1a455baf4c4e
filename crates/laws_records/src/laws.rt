//! The functions do nothing: each has a law as its contract.
ghost use Rattle.laws_records.specs.Texts.{OldTextsAreRefused, UnknownVersionsAreRefused, TextsAreRead};

/// A text is read as a record exactly where it is the text of that record, in a version that is
/// accepted, and the record is one of the source.
pub fn texts_are_read()
    ensures { TextsAreRead }
{}

/// A text has the fault `OldRules` exactly where line 1 is that of version 1 and the caller says
/// that its rules do not hold.
pub fn old_texts_are_refused()
    ensures { OldTextsAreRefused }
{}

/// A text has the fault `Header` at line 1 exactly where that line is of neither version.
pub fn unknown_versions_are_refused()
    ensures { UnknownVersionsAreRefused }
{}
