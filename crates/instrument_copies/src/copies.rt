//! Copies of a program and its parts, without probes.
ghost use Rattle.std.specs.Prelude.{◌≡◌, IfOk};
ghost use Rattle.mc_typed.specs.Views.{program_of};
ghost use Rattle.mc_probe.specs.Bare.{bare_tree};
ghost use Rattle.mc_probe.specs.Trees.{tree_of};

mod effects;
mod expressions;
mod functions;
mod initializers;
mod objects;
mod statements;

pub use crate::copies::expressions::expression;
use crate::copies::functions::all_functions;
pub use crate::copies::functions::{local_objects, parameters, result_type};
pub use crate::copies::objects::{all_structures, static_objects};
use mc_probe::Instrumented;
use mc_typed::Program;
use std::alloc::{AllocError, Global};

/// The tree of a program without probes and registers: its run hits nothing.
pub fn bare<'a>(alloc: Global, program: &Program<'a>) -> Result<Instrumented<'a>, AllocError>
    ensures { IfOk result (λ c. tree_of c ≡ bare_tree (program_of program.now)) }
{
    let functions = all_functions(alloc, program.functions())?;
    let statics = static_objects(alloc, program.statics())?;
    let structures = all_structures(alloc, program.structures())?;
    let copy = Program::new(functions, statics, structures);
    Ok(Instrumented::new(copy, 0))
}
