//! What the copies of a function's parts are given.
ghost use Rattle.std.specs.Prelude.{◌≡◌, slice_get, unwrap_or, IfOk};
ghost use Rattle.mc_cond.specs.Tree.{tree_of};
ghost use Rattle.mc_paths.specs.Paths.{increments};
ghost use Rattle.mc_probe.specs.BitMaps.{map_of};
ghost use Rattle.mc_probe.specs.Table.{base_of, increment_of, mapped};
ghost use Rattle.mc_probe.specs.Tree as probed_tree;
ghost use Rattle.mc_probe.specs.Views as probed;

use mc_paths::Numbering;
use mc_probe::BitMap;
use mc_typed::{Expression, Probe};
use std::alloc::{AllocError, Global};

/// The map of the bits, and how many decisions stand in the functions before this one.
#[derive(Drop)]
pub(crate) struct Walk<'m> {
    pub alloc: Global,
    pub map: &'m BitMap,
    pub first: u32,
}

impl<'m> Walk<'m> {
    /// The first bit of decision `k` of the function.
    pub fn base(&self, k: u32) -> u32
        ensures { result ≡ base_of (mapped (map_of self.now.map.now) self.now.first k) }
    {
        match self.map.decisions.get(self.first as usize + k as usize) {
            Some(decision) => decision.base,
            None => 0,
        }
    }

    /// What condition `c` of decision `k` adds to the decision's register where it is false.
    pub fn increment(&self, k: u32, c: u32) -> u32
        ensures { result ≡ increment_of (mapped (map_of self.now.map.now) self.now.first k) c }
    {
        match self.map.decisions.get(self.first as usize + k as usize) {
            Some(decision) => on_false(&decision.numbering, c),
            None => 0,
        }
    }
}

fn on_false(numbering: &Numbering, c: u32) -> u32
    ensures { result ≡ unwrap_or (slice_get (increments (tree_of numbering.now)) c) 0 }
{
    if c < numbering.conditions() {
        numbering.on_false(c)
    } else {
        0
    }
}

/// An expression with a probe round it.
pub(crate) fn with_probe(
    alloc: Global,
    probe: Probe,
    operand: Expression,
) -> Result<Expression, AllocError>
    ensures { IfOk result (λ c.
        probed.expression_of c ≡ probed_tree.Probe probe (probed.expression_of operand)) }
{
    let operand = Box::new(alloc, operand)?;
    Ok(Expression::Probe { probe, operand })
}
