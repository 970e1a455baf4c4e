//! A probe that keeps where a run is.
ghost use Rattle.std.specs.Prelude.{◌≡◌, ◌<◌, Some, IfOk, option_map};
ghost use Rattle.mc_limits.specs.Limits.{most_bits};
ghost use Rattle.interp_trail.specs.Kept.{Comes, fresh};
ghost use Rattle.interp_trail.specs.Layouts.{after_bit};
ghost use Rattle.interp_trail.specs.Stops.{stop_of};
ghost use Rattle.interp_trail.specs.Trails.{began, entered, exited};

use crate::activation::Activation;
use crate::layout::Layout;
use crate::stop::{Stop, stop_among};
use hit_sink::Probe;
use mc_limits::MOST_LEVELS;
use mc_typed::Ending;
use std::alloc::{AllocError, Global};
use std::marker::Model;

/// Keeps the activations that are open in a run, each with the last of its counted statements that
/// began, and the last exit. It is seen as the layout of its bits and the trail, which is lost
/// where there was no memory for one more activation. The memory for as many as a run can have
/// open is taken when it is made.
#[derive(Drop)]
pub struct TrailProbe {
    layout: Layout,
    inner: Option<Activation>,
    // The activations around the inner one, the outermost first.
    around: Vec<Activation>,
    exit: Option<u32>,
    lost: bool,
}

impl Model for TrailProbe {
    ghost use Rattle.interp_trail.specs.Kept.{Kept, open_in, trail_in};

    ghost Value = { Kept };

    ghost view = { λ p. record {
      layout = p.layout;
      trail = trail_in p.lost (open_in p.inner p.around.items) p.exit;
    } };
}

impl TrailProbe {
    /// No activation is open.
    pub fn new(alloc: Global, layout: Layout) -> Result<TrailProbe, AllocError>
        ensures { IfOk result (λ p. p ≡ fresh layout) }
    {
        let around = Vec::with_capacity(alloc, MOST_LEVELS as usize)?;
        Ok(TrailProbe {
            layout,
            inner: None,
            around,
            exit: None,
            lost: false,
        })
    }

    /// Forgets the trail of the last run. Takes no memory.
    pub fn start(&mut self)
        ensures { self.new ≡ fresh self.old.layout }
    {
        self.inner = None;
        self.exit = None;
        self.lost = false;
    }

    /// Where the run that was told stopped, if it ended so. Out of memory where the trail is lost.
    pub fn stop(&self, ending: Ending) -> Result<Option<Stop>, AllocError>
        ensures { IfOk result (λ stop. option_map (stop_of ending) self.now.trail ≡ Some stop) }
    {
        if self.lost {
            return Err(AllocError);
        }
        match ending {
            Ending::Returned => Ok(None),
            _ => Ok(Some(stop_among(ending, self.inner, self.exit))),
        }
    }

    /// An activation of the function is open, inside the others.
    fn enter(&mut self, function: u32)
        ensures layout { self.new.layout ≡ self.old.layout }
        ensures trail { Comes (option_map (entered function) self.old.trail) self.new.trail }
    {
        match self.inner {
            // No activation is around it.
            None => self.around.clear(),
            Some(outer) => {
                if self.around.push(outer).is_err() {
                    self.lost = true;
                }
            }
        }
        self.inner = Some(Activation {
            function,
            statement: None,
        });
    }

    /// The inner activation is closed.
    fn leave(&mut self, exit: u32)
        ensures layout { self.new.layout ≡ self.old.layout }
        ensures trail { self.new.trail ≡ option_map (exited exit) self.old.trail }
    {
        if self.inner.is_some() {
            self.inner = self.around.pop();
        }
        self.exit = Some(exit);
    }

    /// The bit of an entry or of an exit is hit. Few hits are, and most are of statements and of
    /// decisions: so it is kept out of their way.
    #[cold]
    #[inline(never)]
    fn cross(&mut self, bit: u32)
        requires { bit < self.old.layout.first_statement }
        ensures layout { self.new.layout ≡ self.old.layout }
        ensures trail { Comes (option_map (after_bit self.old.layout bit) self.old.trail)
            self.new.trail }
    {
        let first_exit = self.layout.first_exit;
        if bit < first_exit {
            self.enter(bit);
        } else {
            self.leave(bit - first_exit);
        }
    }

    /// A statement begins in the inner activation.
    #[inline(always)]
    fn begin(&mut self, statement: u32)
        ensures layout { self.new.layout ≡ self.old.layout }
        ensures trail { self.new.trail ≡ option_map (began statement) self.old.trail }
    {
        if let Some(inner) = &mut self.inner {
            inner.statement = Some(statement);
        }
    }
}

impl Probe for TrailProbe {
    ghost use Rattle.interp_trail.specs.Kept.{Leads};
    ghost use Rattle.interp_trail.specs.Led.{joins, stays};

    ghost bits = { λ p. most_bits };

    ghost leads = { Leads };

    #[inline(always)]
    fn hit(&mut self, bit: u32) {
        if bit < self.layout.first_statement {
            self.cross(bit);
        } else if bit < self.layout.first_label {
            self.begin(bit - self.layout.first_statement);
        }
    }

    ghost stays = { stays };

    ghost joins = { joins };
}
