//! The tree of a whole source (C17 6.9).
ghost use Rattle.std.specs.Prelude.{◌≤◌, ◌<◌, ◌^◌};
ghost use Rattle.mc_tree.specs.Units.{items_of};
ghost use Rattle.mc_tree.specs.Height.{height_unit};
ghost use Rattle.mc_tree.specs.Length.{token_count};

use crate::units::item::Item;

/// The tree of a whole source (C17 6.9). Its height is at most 800, and it
/// stands for fewer than 2^31 tokens.
pub struct Unit<'a> {
    pub items: Vec<Item<'a>>,
    ghost low: { height_unit (items_of items.items) ≤ 800 },
    ghost short: { token_count (items_of items.items) < 2 ^ 31 },
}

impl Drop for Unit<'_> {
    fn drop(self) {
        let Self { items: _ } = self;
    }
}
