//! The store of a run. The function does nothing: it has a law as its contract.
ghost use Rattle.laws_cases.specs.Stores.{ActivationsAreUnset};

/// At the start of a test the objects of activations are unset.
pub fn activations_are_unset()
    ensures { ActivationsAreUnset }
{}
