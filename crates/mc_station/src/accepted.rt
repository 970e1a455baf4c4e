//! Sources that are accepted.
ghost use Rattle.std.specs.Prelude.{◌≡◌};
ghost use Rattle.mc_typed.specs.Sound.{IsSound};
ghost use Rattle.mc_probe.specs.Erase.{erase};
ghost use Rattle.mc_probe.specs.Trees.{tree_of};

use mc_probe::{BitMap, Instrumented};
use std::mem::forget;

/// A source that is accepted: its bytes, its program with the probes, and the map of its bits.
#[derive(Drop)]
pub struct Accepted<'a> {
    pub source: &'a [u8],
    pub tree: Instrumented<'a>,
    pub map: BitMap,
}

impl<'a> Accepted<'a> {
    /// The source of these parts.
    pub fn new(source: &'a [u8], tree: Instrumented<'a>, map: BitMap) -> Accepted<'a>
        ensures parts { result
            ≡ record { source = source.entry; tree = tree.entry; map = map } }
        ensures sound { IsSound (erase (tree_of result.tree).program) }
    {
        Accepted { source, tree, map }
    }

    /// Leaves its memory to the system: the process ends once its reply is written, and to let go
    /// of a tree is to visit each of its nodes.
    pub fn leak(self) {
        forget(self);
    }
}
