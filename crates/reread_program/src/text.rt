//! Reading a whole text: the first phase with a fault refuses it.
ghost use Rattle.std.specs.Prelude.{◌≡◌, ◌<◌, ◌^◌, IfErr, MatchResult, length};
ghost use Rattle.mc_tree.specs.Units.{items_of};
ghost use Rattle.reread_pieces.specs.Plain.{plain_of};
ghost use Rattle.reread_pieces.specs.steps.Views.{marks_of};
ghost use Rattle.mc_probe.specs.Tree as probed;
ghost use Rattle.mc_probe.specs.Trees.{tree_of};
ghost use Rattle.reread_program.specs.Reading.{IsReading, Reads, ReadsPieces, ReadsUnit};
ghost use Rattle.reread_program.specs.Returned.{Gives, HoldsNoWant};
ghost use Rattle.reread_program.specs.steps.Short.{AreShort};

use crate::fault::RereadFault;
use crate::phases::{admitted, lexed, parsed, placed, probed, split, typed};
use mc_probe::Instrumented;
use mc_tree::Unit;
use reread_pieces::{Piece, Placed};
use reread_plain_tree::unprobed;
use std::alloc::Global;

/// What is read of a unit without probes, where these are the probes.
fn read_unit<'a>(
    alloc: Global,
    unit: &Unit<'a>,
    placed: &[Placed],
) -> Result<Instrumented<'a>, RereadFault>
    ensures { Gives tree_of (ReadsUnit (items_of unit.now.items.items) placed.now) result }
{
    admitted(unit)?;
    let program = typed(alloc, unit)?;
    probed(alloc, &program, placed)
}

/// What is read of a text with these pieces.
fn read_pieces<'a>(alloc: Global, pieces: &[Piece<'a>]) -> Result<Instrumented<'a>, RereadFault>
    requires short { AreShort (plain_of (marks_of pieces.now)) }
    requires few { length (plain_of (marks_of pieces.now)) < 2 ^ 31 }
    ensures { Gives tree_of (ReadsPieces (marks_of pieces.now)) result }
{
    let unit = parsed(alloc, pieces)?;
    let places = placed(alloc, pieces, &unit)?;
    let source = unprobed(alloc, &unit)?;
    drop(unit);
    read_unit(alloc, &source, &places)
}

fn read<'a>(alloc: Global, text: &'a [u8]) -> Result<Instrumented<'a>, RereadFault>
    requires { length text.now < 2 ^ 31 }
    ensures { Gives tree_of (Reads text.now) result }
{
    let tokens = lexed(alloc, text)?;
    let pieces = split(alloc, &tokens)?;
    drop(tokens);
    read_pieces(alloc, &pieces)
}

/// Reads an instrumented text: the typed program of the text without its probes, with the probes at
/// what they stand at, the register counts of the text, and as `bits` one more than the greatest
/// bit that it names or that some path through a decision reaches.
///
/// The first phase with a fault refuses the text: tokens, pieces and their tree, the profile, names
/// and types, and the probes. Each is judged without the probes before it.
pub fn reread<'a>(alloc: Global, text: &'a [u8]) -> Result<Instrumented<'a>, RereadFault>
    requires { length text.now < 2 ^ 31 }
    // What is returned is what the text is read as; a fault is one of the text, but out of memory.
    ensures reads { Gives tree_of (Reads text.now) result }
    // A text that is read as a tree is read as no other, and where memory suffices it is read.
    ensures only { (tree : probed.Tree) → IsReading text.now tree
        → MatchResult result (λ i. tree_of i ≡ tree) (λ f. f ≡ RereadFault.OutOfMemory) }
    // No fault of a phase holds a want of memory.
    ensures memory { IfErr result HoldsNoWant }
{
    read(alloc, text)
}
