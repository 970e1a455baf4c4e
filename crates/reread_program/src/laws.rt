//! Laws of what is read.
ghost use Rattle.reread_program.specs.Laws.{ReadsAsOne};

/// A text is read as at most one tree, or refused with one fault.
pub fn reads_as_one()
    ensures { ReadsAsOne }
{}
