//! Laws on the number of bits: those of an instrumented program are counted by its map. The
//! functions do nothing: each has a law as its contract.
ghost use Rattle.reread_law_probes.specs.counted.Laws.{
  InstrumentedProgramsAreCounted,
  InstrumentedUnitsAreCounted,
};

/// The number of bits of an instrumented program is the least that is above all its bits.
pub fn instrumented_programs_are_counted()
    ensures { InstrumentedProgramsAreCounted }
{}

/// So it is for the typed program of each unit.
pub fn instrumented_units_are_counted()
    ensures { InstrumentedUnitsAreCounted }
{}
