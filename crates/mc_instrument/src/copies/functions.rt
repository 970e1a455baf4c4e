//! Functions with their probes.
ghost use Rattle.std.specs.Prelude.{◌≡◌, ◌==◌, ℕ, ◌+◌, ◌<◌, ◌^◌, map, drop, length, IfOk};
ghost use Rattle.mc_typed.specs.Views as plain;
ghost use Rattle.decide_rules.specs.Decisions.{AreDecisions};
ghost use Rattle.mc_steps.specs.Points.{◌⊕◌};
ghost use Rattle.mc_steps.specs.Points as points;
ghost use Rattle.mc_probe.specs.BitMaps.{map_of};
ghost use Rattle.mc_probe.specs.Laws.{AreCounted};
ghost use Rattle.mc_probe.specs.Mapped.{mapped_of};
ghost use Rattle.mc_probe.specs.Table.{decisions_in, put_function, put_functions};
ghost use Rattle.mc_probe.specs.Views as probed;
ghost use Rattle.mc_instrument.specs.steps.Counters.{all_points, leading, taken_by_function, StandsAt};

use crate::copies::statements::{At, statements};
use crate::copies::walk::Walk;
use instrument_bits::closing_exit;
use mc_probe::{BitMap, MappedDecision};
use mc_typed::{Function, Span};
use std::alloc::{AllocError, Global};

fn stands_in(mapped: &MappedDecision, function: u32) -> bool
    ensures { result ≡ ((mapped_of mapped.now).decision.function == function) }
{
    mapped.decision.function == function
}

/// How many decisions from `first` on are those of the function with this number.
fn decisions_of(bit_map: &BitMap, first: u32, function: u32) -> u32
    ensures { result ≡ leading function (drop first (map_of bit_map.now).decisions) }
{
    let list = decisions_from(&bit_map.decisions, first as usize);
    leading_decisions(list, function) as u32
}

/// How many decisions at the head of a list are those of a function.
#[tactic(auto, using(crate::proofs::Leading::begin, crate::proofs::Leading::stops, crate::proofs::Leading::goes_on, crate::proofs::Leading::ends))]
fn leading_decisions(list: &[MappedDecision], function: u32) -> usize
    ensures { result ≡ leading function (map mapped_of list.now) }
{
    for (found, mapped) in list.iter().enumerate() {
        if !stands_in(mapped, function) {
            return found;
        }
    }
    list.len()
}

fn decisions_from(decisions: &[MappedDecision], first: usize) -> &[MappedDecision]
    ensures { result.now ≡ drop first decisions.now }
{
    if first <= decisions.len() {
        &decisions[first..]
    } else {
        &[]
    }
}

/// A copy of the function with this number, before which `first` decisions stand.
fn function<'a>(
    walk: &Walk<'_>,
    number: u32,
    at: &mut At,
    tree: &Function<'a>,
) -> Result<Function<'a>, AllocError>
    requires decisions { leading number (drop walk.now.first (map_of walk.now.map.now).decisions)
        ≡ decisions_in (plain.function_of tree.now) }
    requires room { at.now.exit + at.now.statement + at.now.label
        + taken_by_function (plain.function_of tree.now) < 2 ^ 32 }
    ensures copy { IfOk result (λ c. (q : points.Points) → let m = map_of walk.now.map.now in
        StandsAt m q at.old
        → probed.function_of c
        ≡ put_function m number walk.now.first q (plain.function_of tree.now)) }
    ensures past { IfOk result (λ _. (q : points.Points) → let m = map_of walk.now.map.now in
        StandsAt m q at.old
        → StandsAt m (q ⊕ points.points_of_function (plain.function_of tree.now)) at.new) }
    ensures decisions { IfOk result (λ _.
        at.new.decision ≡ decisions_in (plain.function_of tree.now)) }
{
    let decisions = decisions_of(walk.map, walk.first, number);
    at.decision = 0;
    at.switch = decisions;
    let parameters = instrument_copies::parameters(walk.alloc, &tree.parameters)?;
    let result = instrument_copies::result_type(&tree.result)?;
    let objects = instrument_copies::local_objects(walk.alloc, &tree.objects)?;
    let body = statements(walk, 0, at, &tree.body)?;
    let exit = closing_exit(&mut at.exit, &tree.body);
    Ok(Function {
        name: tree.name,
        name_span: tree.name_span,
        parameters,
        result,
        objects,
        body,
        closing: tree.closing,
        registers: at.switch,
        entry: Some(number),
        exit,
    })
}

/// The bit after those of these places, of which `first` is the first.
fn bit_after(first: u32, places: &[Span]) -> u32
    requires { first + length places.now < 2 ^ 32 }
    ensures { result ≡ first + length places.now }
{
    first + places.len() as u32
}

/// Where the bits of exits, counted statements and labels begin.
fn beginning(bit_map: &BitMap) -> At
    ensures { StandsAt (map_of bit_map.now) points.no_points result }
{
    let exit = bit_after(0, &bit_map.entries);
    let statement = bit_after(exit, &bit_map.exits);
    let label = bit_after(statement, &bit_map.statements);
    At {
        exit,
        statement,
        label,
        decision: 0,
        switch: 0,
    }
}

/// Copies of all functions.
pub(crate) fn all_functions<'a>(
    alloc: Global,
    bit_map: &BitMap,
    trees: &[Function<'a>],
) -> Result<Vec<Function<'a>>, AllocError>
    requires few { length trees.now < 2 ^ 31 }
    requires decisions { AreDecisions (map plain.function_of trees.now)
        (map (λ d. d.decision) (map_of bit_map.now).decisions) }
    requires counted { AreCounted (map_of bit_map.now).statements (map_of bit_map.now).exits
        (map_of bit_map.now).labels (all_points (map plain.function_of trees.now)) }
    ensures { IfOk result (λ c. map probed.function_of c.items
        ≡ put_functions (map_of bit_map.now) 0 0 points.no_points
        (map plain.function_of trees.now)) }
{
    let mut at = beginning(bit_map);
    let mut first = 0;
    let mut copies = Vec::with_capacity(alloc, trees.len())?;
    for (number, tree) in trees.iter().enumerate() {
        let walk = Walk {
            alloc,
            map: bit_map,
            first,
        };
        let copy = function(&walk, number as u32, &mut at, tree)?;
        copies.push(copy)?;
        first += at.decision;
    }
    Ok(copies)
}
