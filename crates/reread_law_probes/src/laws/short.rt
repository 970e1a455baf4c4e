//! A law on the numbers of probes: they are short. The function does nothing: it has a law as its
//! contract.
ghost use Rattle.reread_law_probes.specs.short.Laws.{InstrumentedNumbersAreShort};

/// Registers, bits, bases and increments of an instrumented program fit into 32 bits.
pub fn instrumented_numbers_are_short()
    ensures { InstrumentedNumbersAreShort }
{}
