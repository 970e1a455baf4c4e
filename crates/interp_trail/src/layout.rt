//! Where the bits of each kind of event begin.
ghost use Rattle.std.specs.Prelude.{◌≡◌};
ghost use Rattle.mc_probe.specs.BitMaps.{map_of};
ghost use Rattle.interp_trail.specs.Layouts.{layout_of};

use mc_probe::BitMap;

/// The first bit of an exit, of a counted statement and of a label. Those of entries come first.
#[derive(Clone, Copy)]
pub struct Layout {
    pub first_exit: u32,
    pub first_statement: u32,
    pub first_label: u32,
}

impl Layout {
    /// The layout of a map. Takes no memory.
    #[tactic(auto, using(crate::proofs::Based::labels_within))]
    pub fn of(map: &BitMap) -> Layout
        ensures { result ≡ layout_of (map_of map.now) }
    {
        let first_exit = map.entries.len();
        let first_statement = first_exit + map.exits.len();
        let first_label = first_statement + map.statements.len();
        Layout {
            first_exit: first_exit as u32,
            first_statement: first_statement as u32,
            first_label: first_label as u32,
        }
    }
}
