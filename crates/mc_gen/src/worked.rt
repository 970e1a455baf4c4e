//! Worked examples: the texts of one function. The functions do nothing: each has a law as its
//! contract.
ghost use Rattle.std.specs.Prelude.{◌≡◌};
ghost use Rattle.mc_gen.specs.Source.{source_text};
ghost use Rattle.mc_gen.specs.Tests.{tests_text};
ghost use Rattle.mc_gen.specs.Worked.{one_source, one_tests};

/// The source of one function.
pub fn source_of_one()
    ensures { source_text 1 ≡ one_source }
{}

/// Its sixteen tests.
pub fn tests_of_one()
    ensures { tests_text 1 ≡ one_tests }
{}
