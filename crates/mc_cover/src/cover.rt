//! The shared words.
ghost use Rattle.std.specs.Prelude.{◌≡◌, ◌≤◌};
ghost use Rattle.mc_limits.specs.Limits.{most_words};
ghost use Rattle.mc_core.specs.Shape.{word_count};

use crate::rule::Rule;
use crate::view::View;
use atomic_table::Table;
use mc_core::Shape;
use std::alloc::Global;
use std::marker::Model;

/// The shared words: the number of draws, and after it the words of a matrix.
/// Contracts see which cover it is, and its shape. Threads share it by `&`.
#[derive(Drop)]
pub struct Cover {
    pub(crate) table: Table<(), View, Shape, Rule, Global>,
    pub(crate) shape: Shape,
    /// The memory of the closing matrix.
    pub(crate) room: Vec<u64>,
}

impl Model for Cover {
    ghost use Rattle.std.specs.Prelude.{vec_len};
    ghost use Rattle.mc_cover.specs.Model.{CoverView, IsSized};

    ghost Value = { CoverView };

    ghost view = { λ c. record { cover = c.table.shared.table_id; shape = c.shape } };

    ghost invariant = { λ c.
        IsSized c.table.shared.table_id c.table.shared.key c.shape (vec_len c.room) };
}

impl Cover {
    /// How many coverage words there are.
    pub fn words(&self) -> u32
        ensures is { result ≡ word_count self.now.shape }
        ensures few { result ≤ most_words }
    {
        self.room.len() as u32
    }
}
