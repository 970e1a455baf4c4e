//! The generated source. The function does nothing: it has a law as its contract.
ghost use Rattle.laws_cases.specs.Generated.{SourceOfFour};

/// The source of four functions, one of each form.
pub fn source_of_four()
    ensures { SourceOfFour }
{}
