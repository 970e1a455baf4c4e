//! The constants are the numbers of the definitions. The function does nothing: its contract says
//! so.
ghost use Rattle.std.specs.Prelude.{◌≡◌};
ghost use Rattle.mc_limits.specs.Limits.{most_conditions, most_paths, most_bits, most_parameters, most_nesting, most_frame_cells, most_static_cells, most_run_cells, most_levels, most_run_outputs, most_tests, most_calls, most_inputs, most_expected, most_fuel, usual_fuel, most_source_bytes, most_tests_bytes, most_justification_bytes, most_justifications, most_record_bytes, most_functions, most_words, most_mutants, most_looks, most_height, most_instrumented_height, most_workers};

use crate::{
    MOST_BITS, MOST_CALLS, MOST_CONDITIONS, MOST_EXPECTED, MOST_FRAME_CELLS, MOST_FUEL,
    MOST_FUNCTIONS, MOST_HEIGHT, MOST_INPUTS, MOST_INSTRUMENTED_HEIGHT, MOST_JUSTIFICATION_BYTES,
    MOST_JUSTIFICATIONS, MOST_LEVELS, MOST_LOOKS, MOST_MUTANTS, MOST_NESTING, MOST_PARAMETERS,
    MOST_PATHS, MOST_RECORD_BYTES, MOST_RUN_CELLS, MOST_RUN_OUTPUTS, MOST_SOURCE_BYTES,
    MOST_STATIC_CELLS, MOST_TESTS, MOST_TESTS_BYTES, MOST_WORDS, MOST_WORKERS, USUAL_FUEL,
};

/// Each constant is the limit of its name in the definitions.
pub fn limits_are_the_defined_ones()
    ensures conditions { MOST_CONDITIONS ≡ most_conditions }
    ensures paths { MOST_PATHS ≡ most_paths }
    ensures bits { MOST_BITS ≡ most_bits }
    ensures parameters { MOST_PARAMETERS ≡ most_parameters }
    ensures nesting { MOST_NESTING ≡ most_nesting }
    ensures frame_cells { MOST_FRAME_CELLS ≡ most_frame_cells }
    ensures static_cells { MOST_STATIC_CELLS ≡ most_static_cells }
    ensures run_cells { MOST_RUN_CELLS ≡ most_run_cells }
    ensures levels { MOST_LEVELS ≡ most_levels }
    ensures run_outputs { MOST_RUN_OUTPUTS ≡ most_run_outputs }
    ensures tests { MOST_TESTS ≡ most_tests }
    ensures calls { MOST_CALLS ≡ most_calls }
    ensures inputs { MOST_INPUTS ≡ most_inputs }
    ensures expected { MOST_EXPECTED ≡ most_expected }
    ensures fuel { MOST_FUEL ≡ most_fuel }
    ensures usual_fuel { USUAL_FUEL ≡ usual_fuel }
    ensures source_bytes { MOST_SOURCE_BYTES ≡ most_source_bytes }
    ensures tests_bytes { MOST_TESTS_BYTES ≡ most_tests_bytes }
    ensures justification_bytes { MOST_JUSTIFICATION_BYTES ≡ most_justification_bytes }
    ensures justifications { MOST_JUSTIFICATIONS ≡ most_justifications }
    ensures record_bytes { MOST_RECORD_BYTES ≡ most_record_bytes }
    ensures functions { MOST_FUNCTIONS ≡ most_functions }
    ensures words { MOST_WORDS ≡ most_words }
    ensures mutants { MOST_MUTANTS ≡ most_mutants }
    ensures looks { MOST_LOOKS ≡ most_looks }
    ensures height { MOST_HEIGHT ≡ most_height }
    ensures instrumented_height { MOST_INSTRUMENTED_HEIGHT ≡ most_instrumented_height }
    ensures workers { MOST_WORKERS ≡ most_workers }
{}
