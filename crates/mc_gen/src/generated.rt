//! The source and the tests file that `selfload` makes.
ghost use Rattle.std.specs.Prelude.{◌≡◌, ◌≤◌, IfOk};
ghost use Rattle.mc_limits.specs.Limits.{most_functions};
ghost use Rattle.mc_gen.specs.Source.{source_text};
ghost use Rattle.mc_gen.specs.Tests.{tests_text};

use crate::functions::source;
use crate::test_lines::tests;
use std::alloc::{AllocError, Global};

/// The source of `functions` functions, at most `MOST_FUNCTIONS`, and a tests file with 16 tests of
/// each.
pub fn generate(alloc: Global, functions: u32) -> Result<(Vec<u8>, Vec<u8>), AllocError>
    requires { (1 ≤ functions) × (functions ≤ most_functions) }
    ensures source { IfOk result (λ files. files.0.items ≡ source_text functions) }
    ensures tests { IfOk result (λ files. files.1.items ≡ tests_text functions) }
{
    Ok((source(alloc, functions)?, tests(alloc, functions)?))
}
