//! What follows from the definitions. The functions do nothing: each has a law as its contract.
ghost use Rattle.laws_simulation.specs.Laws.{InstrumentedErases, InstrumentedIsWellFormed, StoresAreKept};
ghost use Rattle.laws_simulation.specs.Simulation.{BareRunsAsPlain, InstrumentedRunsAsPlain};

/// What a run does to places and to cells keeps them alike.
pub fn stores_are_kept()
    ensures { StoresAreKept }
{}

/// The probes taken away, an instrumented program is the program, and it is well-formed where the
/// program is sound.
pub fn instrumented_programs_erase()
    ensures program { InstrumentedErases }
    ensures well_formed { InstrumentedIsWellFormed }
{}

/// For every plan that fits, the run of an instrumented program ends as the plain run does, with
/// its values, its output and the fuel that it leaves, and hits the bits of its events in order.
pub fn instrumented_programs_run_as_plain()
    ensures { InstrumentedRunsAsPlain }
{}

/// For every plan that fits, the run of a program without probes ends as the plain run does, with
/// its values, its output and the fuel that it leaves, and hits nothing.
pub fn bare_programs_run_as_plain()
    ensures { BareRunsAsPlain }
{}
