//! What follows from the definitions.
ghost use Rattle.mc_print.specs.Worked.{TheText};

/// A worked text.
pub fn worked_text()
    ensures { TheText }
{}
