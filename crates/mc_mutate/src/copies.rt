//! The program of a mutant.
ghost use Rattle.std.specs.Prelude.{◌≡◌, ◌<◌, ◌≤◌, map, IfOk};
ghost use Rattle.mc_typed.specs.Sound.{IsSound};
ghost use Rattle.mc_typed.specs.Views.{function_of, program_of};
ghost use Rattle.mc_probe.specs.Views as probed;
ghost use Rattle.mc_probe.specs.Bare.{bare_function, bare_tree};
ghost use Rattle.decide_rules.specs.Nodes as nodes;
ghost use Rattle.mc_mutate.specs.Mutants.{IsMutant, count};
ghost use Rattle.mc_mutate.specs.steps.Bared.{HasMutant};
ghost use Rattle.mc_mutate.specs.steps.Search.{inside_parts};
ghost use Rattle.mc_mutate.specs.steps.Changed.{functions_changed, program_changed, statements_changed};
ghost use Rattle.mc_mutate.specs.declared.search.sought.Sought.TheVariants as sought;

mod decision;
mod effects;
mod expressions;
mod initializers;
mod statements;

use crate::copies::statements::statements;
use crate::search::Sought;
use decide_rules::Decision;
use instrument_copies::{all_structures, local_objects, parameters, result_type, static_objects};
use mc_probe::Instrumented;
use mc_typed::{Function, Program};
use std::alloc::{AllocError, Global};

/// The mutant of the program with these decisions that has this number, from 1 on, without probes.
pub fn mutant<'a>(
    alloc: Global,
    program: &Program<'a>,
    _decisions: &[Decision],
    number: u32,
) -> Result<Program<'a>, AllocError>
    requires first { 1 ≤ number }
    requires last { number ≤ count (program_of program.now) }
    ensures { IfOk result (λ q. IsMutant (program_of program.now) number (program_of q)) }
{
    changed(alloc, program, number - 1)
}

/// The same program as a tree that runs, by the number from 0 on. It has no probes.
pub(crate) fn bare_mutant<'a>(
    alloc: Global,
    program: &Program<'a>,
    index: u32,
) -> Result<Instrumented<'a>, AllocError>
    requires { index < count (program_of program.now) }
    ensures { IfOk result (HasMutant (program_of program.now) index) }
{
    let program = changed(alloc, program, index)?;
    Ok(Instrumented::new(program, 0))
}

/// The program with the change at which a search from this number on comes to its end. It is made
/// once, without probes, and so it is the tree that runs too.
fn changed<'a>(alloc: Global, program: &Program<'a>, index: u32) -> Result<Program<'a>, AllocError>
    ensures sound { IsSound (program_of program.now) }
    ensures made { IfOk result (λ q. probed.program_of q
        ≡ (bare_tree (program_changed (program_of program.now) (sought.Left index))).program) }
{
    let mut sought = Sought::Left(index);
    let functions = all_functions(alloc, &mut sought, program.functions())?;
    let statics = static_objects(alloc, program.statics())?;
    let structures = all_structures(alloc, program.structures())?;
    Ok(Program::new(functions, statics, structures))
}

/// A function with the change that is sought.
fn function<'a>(
    alloc: Global,
    sought: &mut Sought,
    tree: &Function<'a>,
) -> Result<Function<'a>, AllocError>
    ensures tree { IfOk result (λ c. probed.function_of c
        ≡ bare_function (record (function_of tree.now) {
          body = statements_changed (function_of tree.now).body sought.old;
        })) }
    ensures sought { IfOk result (λ _. sought.new
        ≡ inside_parts (nodes.statements (function_of tree.now).body) sought.old) }
{
    let parameters = parameters(alloc, &tree.parameters)?;
    let result = result_type(&tree.result)?;
    let objects = local_objects(alloc, &tree.objects)?;
    let body = statements(alloc, sought, &tree.body)?;
    Ok(Function {
        name: tree.name,
        name_span: tree.name_span,
        parameters,
        result,
        objects,
        body,
        closing: tree.closing,
        registers: 0,
        entry: None,
        exit: None,
    })
}

/// Functions with the change that is sought.
fn all_functions<'a>(
    alloc: Global,
    sought: &mut Sought,
    trees: &[Function<'a>],
) -> Result<Vec<Function<'a>>, AllocError>
    ensures tree { IfOk result (λ c. map probed.function_of c.items
        ≡ map bare_function (functions_changed (map function_of trees.now) sought.old)) }
    ensures sought { IfOk result (λ _. sought.new
        ≡ inside_parts (nodes.functions (map function_of trees.now)) sought.old) }
{
    let mut copies = Vec::with_capacity(alloc, trees.len())?;
    for tree in trees {
        let copy = function(alloc, sought, tree)?;
        copies.push(copy)?;
    }
    Ok(copies)
}
