//! The right to step on the shared words.

use crate::view::View;
use atomic_table::Seat;
use std::marker::Model;

/// The right of one thread to step on the words of one cover. It has no bytes.
/// Contracts see of which cover it is, and what it knows. One that is dropped keeps its view, and
/// its cover cannot be closed.
#[derive(Drop)]
pub struct Pass {
    pub(crate) seat: Seat<(), View>,
}

impl Model for Pass {
    ghost use Rattle.std.specs.Prelude.{◌≡◌, ◌≢◌, []};
    ghost use Rattle.mc_cover.specs.declared.view.Role.TheVariants.{Spent};
    ghost use Rattle.mc_cover.specs.Model.{PassView};

    ghost Value = { PassView };

    ghost view = { λ p. record { cover = p.seat.table_id; view = p.seat.me.0 } };

    ghost invariant = { λ p. (p.seat.me.1 ≡ []) × (p.seat.me.0.role ≢ Spent) };
}
