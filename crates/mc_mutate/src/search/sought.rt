//! What a search has come to.
ghost use Rattle.std.specs.Prelude.{◌≡◌};
ghost use Rattle.mc_mutate.specs.steps.Search.{passed};

use crate::changes::{Change, MutantKind};
use mc_typed::Span;

/// How far a search for a mutant has come.
#[derive(Clone, Copy)]
pub(crate) enum Sought {
    /// So many mutants are still to be passed before the one that is sought.
    Left(u32),
    /// What is changed in the one that is sought.
    Found(Change),
}

/// Passes a mutant.
pub(crate) fn pass(sought: Sought, kind: MutantKind, span: Span) -> Sought
    ensures { result ≡ passed kind span sought }
{
    match sought {
        Sought::Found(_) => sought,
        Sought::Left(number) => {
            if number == 0 {
                Sought::Found(Change {
                    kind,
                    at: span.start,
                })
            } else {
                Sought::Left(number - 1)
            }
        }
    }
}
