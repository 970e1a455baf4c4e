//! The rule of the shared words, and what each step does to the views.

use crate::view::View;
use atomic_table::{Join, Play, Split, TableRule};
use mc_core::Shape;

/// What holds of the words and of all views between any two steps.
pub struct Rule;

impl TableRule<(), View, Shape> for Rule {
    ghost use Rattle.mc_cover.specs.Rule.{IsKept};
    ghost use Rattle.mc_cover.specs.Views.{opener};

    ghost holds = { IsKept };

    ghost first = { opener };
}

/// A worker's pass is cut from the opener's.
pub(crate) struct Forks;

impl Split<View> for Forks {
    ghost use Rattle.mc_cover.specs.Views.{after_fork, worker};

    ghost left = { after_fork };

    ghost right = { worker };
}

/// A draw from word 0.
pub(crate) struct Claims;

impl Play<(), View> for Claims {
    ghost use Rattle.mc_cover.specs.Tells.{claim_is};

    ghost then = { claim_is };
}

/// A bit set in a coverage word.
pub(crate) struct Hits;

impl Play<(), View> for Hits {
    ghost use Rattle.mc_cover.specs.Tells.{hit_is};

    ghost then = { hit_is };
}

/// A look at a coverage word.
pub(crate) struct Looks;

impl Play<(), View> for Looks {
    ghost use Rattle.mc_cover.specs.Tells.{look_is};

    ghost then = { look_is };
}

/// The opener's pass takes in a worker's.
pub(crate) struct Joins;

impl Join<View> for Joins {
    ghost use Rattle.mc_cover.specs.Views.{after_join, spent};

    ghost both = { after_join };

    ghost spent = { spent };
}

/// A look at word 0 that changes nothing.
pub(crate) struct Settles;

impl Play<(), View> for Settles {
    ghost use Rattle.mc_cover.specs.Tells.{settle_is};

    ghost then = { settle_is };
}
