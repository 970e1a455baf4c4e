//! Faults of texts. The function does nothing: it has laws as its contract.
ghost use Rattle.laws_reread_cases.specs.Faults.{FaultsAreInside, WantsAreNotHeld};

/// A fault of the syntax has the number of a token or of the end, and no fault of a phase holds a
/// want of memory.
pub fn faults_of_syntax_are_inside()
    ensures inside { FaultsAreInside }
    ensures wants { WantsAreNotHeld }
{}
