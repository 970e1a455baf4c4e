//! Trees that are well-formed and that are not, and events that stand.
ghost use Rattle.tests_probe.specs.Formed.{Declarations, Defaults, EntryStands, Fits, IsItsTree, Registers, Zeros};

/// The tree that the table gives.
pub fn tree_of_the_table()
    ensures fits { Fits }
    ensures its { IsItsTree }
{}

/// Where a probe can stand, and where it cannot.
pub fn probes_fit()
    ensures registers { Registers }
    ensures declarations { Declarations }
    ensures defaults { Defaults }
    ensures zeros { Zeros }
{}

/// An entry stands under the test that enters, and not where that test is skipped.
pub fn entry_stands()
    ensures { EntryStands }
{}
