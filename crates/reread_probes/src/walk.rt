//! The steps of a walk over a tree.
ghost use Rattle.std.specs.Prelude.{◌≡◌, ◌++◌, if◌then◌else◌, IfOk, option_map};
ghost use Rattle.reread_probes.specs.Walks as spec;
ghost use Rattle.reread_probes.specs.steps.Views.{walk_of};

use crate::probe::Probe;
use crate::spot::Spot;
use mc_span::Span;
use reread_pieces::{Placed, What};
use std::alloc::{AllocError, Global};

/// What a walk has in hand: the probes that are not taken yet, those that are placed, and whether
/// all so far has the shape of the table.
#[derive(Drop)]
pub(crate) struct Walk<'p> {
    pub left: &'p [Probe],
    pub placed: Vec<Placed>,
    pub fits: bool,
}

impl<'p> Walk<'p> {
    pub fn new(alloc: Global, probes: &'p [Probe]) -> Walk<'p>
        ensures { walk_of result ≡ spec.start probes.now }
    {
        Walk {
            left: probes,
            placed: Vec::new(alloc),
            fits: true,
        }
    }
}

/// Whether a row of the table stands at a spot.
fn is_row(spot: Spot, what: What) -> bool
    ensures { result ≡ spec.is_row spot what }
{
    match spot {
        Spot::Registers { .. } => matches!(what, What::Registers { .. }),
        Spot::Entry { .. } => matches!(what, What::Entry { .. }),
        Spot::Exit { .. } => matches!(what, What::Exit { .. }),
        Spot::Declaration { .. } => matches!(what, What::Declaration { .. }),
        Spot::Label { .. } => matches!(what, What::Label { .. }),
        Spot::Default { .. } => matches!(what, What::Default { .. }),
        Spot::Statement { .. } => matches!(what, What::Statement { .. }),
        Spot::Value { .. } => matches!(what, What::Value),
        Spot::ValueEnd => matches!(what, What::ValueEnd { .. }),
        Spot::Return { .. } => matches!(what, What::Return { .. }),
        Spot::Operand { is_cond, .. } => match what {
            What::Decision { .. } | What::Condition { .. } => is_cond,
            What::Switch { .. } => true,
            _ => false,
        },
    }
}

/// Whether a probe is there, between tokens of which the last ends and the next starts at these
/// bytes.
fn is_there(spot: Spot, last: u32, next: u32) -> bool
    ensures { result ≡ spec.is_there spot last next }
{
    match spot {
        Spot::Registers { end } | Spot::Entry { end } | Spot::Exit { end } => next < end,
        Spot::Label { end } | Spot::Default { end } => last == end,
        Spot::Declaration { start }
        | Spot::Statement { start }
        | Spot::Value { start }
        | Spot::Return { start }
        | Spot::Operand { start, .. } => next == start,
        Spot::ValueEnd => true,
    }
}

impl Walk<'_> {
    /// Whether the next probe stands at a spot.
    pub fn stands(&self, spot: Spot) -> bool
        ensures { result ≡ spec.stands spot (walk_of self.now).left }
    {
        match self.left {
            [] => false,
            [probe, ..] => is_row(spot, probe.what) && is_there(spot, probe.last, probe.next),
        }
    }

    /// Something has no shape.
    pub fn refuse(&mut self)
        ensures { walk_of self.new ≡ spec.refused (walk_of self.old) }
    {
        self.fits = false;
    }

    pub fn refuse_if(&mut self, wrong: bool)
        ensures { walk_of self.new ≡ spec.refused_if wrong (walk_of self.old) }
    {
        if wrong {
            self.refuse();
        }
    }

    /// Takes the next probe, and does not place it.
    pub fn pass(&mut self)
        ensures { walk_of self.new ≡ spec.passed (walk_of self.old) }
    {
        if let [_, later @ ..] = self.left {
            self.left = later;
        }
    }

    pub fn pass_if(&mut self, stands: bool)
        ensures { walk_of self.new ≡ spec.passed_if stands (walk_of self.old) }
    {
        if stands {
            self.pass();
        }
    }

    /// Takes the next probe, and places it at what stands there.
    fn take(&mut self, span: Span) -> Result<(), AllocError>
        ensures { IfOk result (λ _. walk_of self.new ≡ spec.taken span (walk_of self.old)) }
    {
        if let [probe, later @ ..] = self.left {
            self.placed.push(Placed {
                what: probe.what,
                word: probe.word,
                span,
            })?;
            self.left = later;
        }
        Ok(())
    }

    /// Takes the next probe where it stands at a spot.
    pub fn may_take(&mut self, spot: Spot, span: Span) -> Result<(), AllocError>
        ensures { IfOk result (λ _. walk_of self.new ≡ spec.may_take spot span (walk_of self.old)) }
    {
        if self.stands(spot) {
            self.take(span)?;
        }
        Ok(())
    }

    /// Takes the next probe, which has to stand at a spot.
    pub fn must_take(&mut self, spot: Spot, span: Span) -> Result<(), AllocError>
        ensures { IfOk result (λ _. walk_of self.new
            ≡ spec.must_take spot span (walk_of self.old)) }
    {
        if self.stands(spot) {
            self.take(span)?;
        } else {
            self.refuse();
        }
        Ok(())
    }
}
