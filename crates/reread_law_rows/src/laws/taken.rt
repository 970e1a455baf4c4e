//! Laws of the probes of an instrumented text: each is found at what the table puts it at. The
//! functions do nothing: each has a law as its contract.
ghost use Rattle.reread_law_rows.specs.taken.Laws.{LocalsAreApart, ProbesAreTaken};

use laws_types::programs_have_their_source;

/// Probes that stand where the rows of the table do are all found, each at what its row stands at.
pub fn probes_are_taken()
    ensures { ProbesAreTaken }
{
    programs_have_their_source();
}

/// No two declarations in the blocks of a text start at one byte.
pub fn locals_are_apart()
    ensures { LocalsAreApart }
{}
