//! The list of wanted vectors.
ghost use Rattle.std.specs.Prelude.{◌≡◌, ℕ, ◌+◌, ◌<◌, ◌≤◌, Bool, Option, Some, None, length, get_or, [], ◌∷◌, IfOk};
ghost use Rattle.mc_cond.specs.Tree.{tree_of, size};
ghost use Rattle.mc_paths.specs.Paths.{count_of, IsInUse};
ghost use Rattle.mc_probe.specs.BitMaps.{map_of};
ghost use Rattle.mc_probe.specs.Mapped.{mapped_of};
ghost use Rattle.mc_needs.specs.steps.Each.{IsProper};
ghost use Rattle.mc_needs.specs.steps.Due.{due_at, is_due};
ghost use Rattle.mc_needs.specs.steps.Listing.{IsAdded, AreAdded, IsAddedForCondition, IsAddedForOutcome, IsAddedFor};

use crate::decision::decision_at;
use crate::due::Due;
use crate::outcome::least_with;
use crate::pairing::{Pairing, has_pair, needed_pair};
use mc_oblige::{Mode, ObligationId};
use mc_probe::{BitMap, MappedDecision};
use needed_paths::Wanted;
use std::alloc::{AllocError, Global};

/// The list, a mark at the bit of each vector that is evaluated or on it, and for each decision the
/// outcomes that are asked and that no vector of the list has.
#[derive(Drop)]
pub(crate) struct Listing {
    pub(crate) wanted: Vec<Wanted>,
    pub(crate) marks: Vec<bool>,
    pub(crate) due: Vec<Due>,
}

impl Listing {
    /// The empty list.
    pub(crate) fn new(alloc: Global, marks: Vec<bool>, due: Vec<Due>) -> Listing
        ensures wanted { result.wanted.items ≡ [] }
        ensures marks { result.marks.items ≡ marks.items }
        ensures due { result.due.items ≡ due.items }
    {
        Listing {
            wanted: Vec::new(alloc),
            marks,
            due,
        }
    }

    /// Puts on the list what an obligation needs, with what is evaluated and on the list.
    pub(crate) fn add_for(
        &mut self,
        alloc: Global,
        map: &BitMap,
        mode: Mode,
        id: ObligationId,
    ) -> Result<(), AllocError>
        requires bits { length self.old.marks.items ≡ map.now.bits }
        requires decisions { length self.old.due.items ≡ length map.now.decisions.items }
        requires proper { IsProper (map_of map.now) id }
        ensures { IfOk result (λ _. IsAddedFor (map_of map.now) mode id self.old self.new) }
    {
        match id {
            ObligationId::Condition(d, k) => {
                self.add_for_condition(alloc, decision_at(map, d), mode, d, k)
            }
            ObligationId::Outcome(d, outcome) => {
                self.add_for_outcome(decision_at(map, d), d, outcome)
            }
            _ => Ok(()),
        }
    }

    fn add_for_condition(
        &mut self,
        alloc: Global,
        mapped: &MappedDecision,
        mode: Mode,
        d: u32,
        k: u32,
    ) -> Result<(), AllocError>
        requires inside { mapped.now.base + count_of (tree_of mapped.now.decision.tree)
            ≤ length self.old.marks.items }
        requires decision { d < length self.old.due.items }
        requires condition { k < size (tree_of mapped.now.decision.tree) }
        ensures { IfOk result (λ _.
            IsAddedForCondition (mapped_of mapped.now) mode d k self.old self.new) }
    {
        if has_pair(alloc, mapped, &self.marks, mode, k)? {
            return Ok(());
        }
        match needed_pair(alloc, mapped, &self.marks, mode, k)? {
            Pairing::Beside { path, .. } => self.add(mapped, d, Some(k), path),
            Pairing::Both { first, second } => self.add_both(mapped, d, k, first, second),
        }
    }

    fn add_for_outcome(
        &mut self,
        mapped: &MappedDecision,
        d: u32,
        outcome: bool,
    ) -> Result<(), AllocError>
        requires inside { mapped.now.base + count_of (tree_of mapped.now.decision.tree)
            ≤ length self.old.marks.items }
        requires decision { d < length self.old.due.items }
        ensures { IfOk result (λ _.
            IsAddedForOutcome (mapped_of mapped.now) d outcome self.old self.new) }
    {
        if !self.due[d as usize].has(outcome) {
            return Ok(());
        }
        self.add(mapped, d, None, least_with(mapped, outcome))
    }

    /// Puts two vectors on the list.
    fn add_both(
        &mut self,
        mapped: &MappedDecision,
        d: u32,
        k: u32,
        first: u32,
        second: u32,
    ) -> Result<(), AllocError>
        requires inside { mapped.now.base + count_of (tree_of mapped.now.decision.tree)
            ≤ length self.old.marks.items }
        requires decision { d < length self.old.due.items }
        requires first { IsInUse (tree_of mapped.now.decision.tree) first }
        requires second { IsInUse (tree_of mapped.now.decision.tree) second }
        ensures { IfOk result (λ _. AreAdded (mapped_of mapped.now) d (Some k)
            (first ∷ second ∷ []) self.old self.new) }
    {
        self.add(mapped, d, Some(k), first)?;
        self.add(mapped, d, Some(k), second)
    }

    /// Puts a vector on the list.
    fn add(
        &mut self,
        mapped: &MappedDecision,
        decision: u32,
        condition: Option<u32>,
        path: u32,
    ) -> Result<(), AllocError>
        requires inside { mapped.now.base + count_of (tree_of mapped.now.decision.tree)
            ≤ length self.old.marks.items }
        requires decision { decision < length self.old.due.items }
        requires path { IsInUse (tree_of mapped.now.decision.tree) path }
        ensures { IfOk result (λ _.
            IsAdded (mapped_of mapped.now) decision condition path self.old self.new) }
    {
        let outcome = mapped.numbering.outcome_of(path);
        let due = self.due[decision as usize];
        self.wanted.push(Wanted {
            decision,
            path,
            condition,
            outcome: due.first(outcome),
        })?;
        self.due[decision as usize] = due.with(outcome, false);
        self.marks[mapped.base as usize + path as usize] = true;
        Ok(())
    }
}
