//! A whole program, with the probes of its text put back into each function.
ghost use Rattle.std.specs.Prelude.{◌≡◌, None, Ok, IfErr, IfOk};
ghost use Rattle.mc_typed.specs.Views.{program_of};
ghost use Rattle.mc_probe.specs.Erase.{erase};
ghost use Rattle.mc_probe.specs.Trees.{tree_of};
ghost use Rattle.reread_put_back.specs.Back as spec;
ghost use Rattle.reread_put_back.specs.Faults.{IsFault};
ghost use Rattle.reread_put_back.specs.steps.First.{IsFirst};
ghost use Rattle.reread_put_back.specs.steps.Strays.{first_of_all};

use crate::fault::BackFault;
use crate::functions::all_functions;
use crate::judging::first_fault;
use crate::pen::Pen;
use instrument_copies::{all_structures, static_objects};
use mc_probe::Instrumented;
use mc_typed::Program;
use reread_pieces::Placed;
use std::alloc::{AllocError, Global};

/// How many bits there are, where no probe has a fault.
fn checked(
    alloc: Global,
    program: &Program<'_>,
    placed: &[Placed],
    pen: &Pen<'_>,
) -> Result<u32, BackFault>
    ensures bits { IfOk result (λ bits. bits ≡ pen.now.bits) }
    ensures none { IfOk result (λ _.
        first_of_all (program_of program.now) placed.now pen.now.left.now pen.now.fault ≡ None) }
    ensures refused { IfErr result (IsFirst
        (first_of_all (program_of program.now) placed.now pen.now.left.now pen.now.fault)) }
{
    match first_fault(alloc, program, placed, pen)? {
        Some(at) => Err(BackFault::Probe { at }),
        None => Ok(pen.bits),
    }
}

/// The program with these probes, which are in the order of the text.
///
/// `Probe` is answered exactly where one of them has a fault, with the first one in the text.
/// Without its probes the answer is the program. Takes memory in proportion to the program and its
/// probes, and time too for each probe that stands at no part of the program.
pub fn put_back<'a>(
    alloc: Global,
    program: &Program<'a>,
    placed: &[Placed],
) -> Result<Instrumented<'a>, BackFault>
    ensures tree { IfOk result (λ i.
        spec.put_back (program_of program.now) placed.now ≡ Ok (tree_of i)) }
    ensures erases { IfOk result (λ i. erase (tree_of i).program ≡ program_of program.now) }
    ensures refused { IfErr result
        (IsFault (spec.put_back (program_of program.now) placed.now)) }
{
    let mut pen = Pen {
        left: placed,
        fault: None,
        bits: 0,
    };
    let functions = all_functions(alloc, &mut pen, program.functions())?;
    let bits = match checked(alloc, program, placed, &pen) {
        Ok(bits) => bits,
        Err(fault) => return Err(fault),
    };
    let statics = static_objects(alloc, program.statics())?;
    let structures = all_structures(alloc, program.structures())?;
    let copy = Program::new(functions, statics, structures);
    Ok(Instrumented::new(copy, bits))
}
