//! Obligations at places that are numbered from 0 on.
ghost use Rattle.std.specs.Prelude.{◌≡◌, ◌≤◌, ◌++◌, length, IfOk};
ghost use Rattle.mc_limits.specs.Limits.{most_bits};
ghost use Rattle.mc_oblige.specs.Obligations.{numbered};
ghost use Rattle.mc_oblige.specs.steps.Places.{id_of};

use crate::obligation::{Obligation, ObligationId};
use mc_span::Span;
use std::alloc::AllocError;

/// What stands at a place.
#[derive(Clone, Copy)]
pub(crate) enum Kind {
    Entry,
    Exit,
    Statement,
    Label,
    /// A condition of the decision with this number.
    Condition(u32),
}

impl Kind {
    fn id(self, k: u32) -> ObligationId
        ensures { result ≡ id_of self k }
    {
        match self {
            Kind::Entry => ObligationId::Entry(k),
            Kind::Exit => ObligationId::Exit(k),
            Kind::Statement => ObligationId::Statement(k),
            Kind::Label => ObligationId::Label(k),
            Kind::Condition(d) => ObligationId::Condition(d, k),
        }
    }
}

/// Appends one obligation for each place.
pub(crate) fn add_places(
    all: &mut Vec<Obligation>,
    kind: Kind,
    spans: &[Span],
) -> Result<(), AllocError>
    requires { length spans.now ≤ most_bits }
    ensures { IfOk result (λ _.
        all.new.items ≡ all.old.items ++ numbered (id_of kind) 0 spans.now) }
{
    for (k, span) in spans.iter().enumerate() {
        all.push(Obligation {
            id: kind.id(k as u32),
            span: *span,
        })?;
    }
    Ok(())
}
