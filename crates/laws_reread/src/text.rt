//! Reading a printed text again.
ghost use Rattle.std.specs.Prelude.{◌<◌, ◌^◌, IfErr, length};
ghost use Rattle.mc_probe.specs.Trees.{tree_of};
ghost use Rattle.reread_program.specs.Reading.{Reads};
ghost use Rattle.reread_program.specs.Returned.{Gives, HoldsNoWant};
ghost use Rattle.laws_reread.specs.Laws.{GivesWhatWasPrinted};

use crate::laws::printed_texts_are_read_only_so;
use mc_probe::Instrumented;
use reread_program::RereadFault;
use std::alloc::Global;

/// Reads an instrumented text, as `reread_program` does. The text that was printed of an accepted source
/// gives the tree that was printed, but for its places.
pub fn reread<'a>(alloc: Global, text: &'a [u8]) -> Result<Instrumented<'a>, RereadFault>
    requires { length text.now < 2 ^ 31 }
    // What is returned is what the text is read as; a fault is one of the text, but out of memory.
    ensures reads { Gives tree_of (Reads text.now) result }
    // A printed text gives the tree that was printed, and is refused for want of memory alone.
    ensures printed { GivesWhatWasPrinted text.now result }
    // No fault of a phase holds a want of memory.
    ensures memory { IfErr result HoldsNoWant }
{
    printed_texts_are_read_only_so();
    reread_program::reread(alloc, text)
}
