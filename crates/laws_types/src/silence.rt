//! The functions do nothing: each has a law as its contract.
ghost use Rattle.laws_types.specs.Silence.{MissingIsSpared, ValuesHaveNoFault};

/// What uses a part without a type has no fault for that reason.
pub fn missing_is_spared()
    ensures { MissingIsSpared }
{}

/// An expression that has a type has no fault inside.
pub fn values_have_no_fault()
    ensures { ValuesHaveNoFault }
{}
