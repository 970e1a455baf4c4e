//! How functions are printed.
ghost use Rattle.std.specs.Prelude.{map};
ghost use Rattle.mc_probe.specs.Views.{function_of};
ghost use Rattle.mc_print.specs.Texts as spec;
ghost use Rattle.mc_print.specs.steps.Holds.{Writes};

use crate::insertions::{hit_at, put_entry, put_registers};
use crate::pen::{Pen, into_body, note, upto};
use crate::statements::statements;
use mc_port::Sink;
use mc_typed::Function;

/// What stands through the front of the body.
fn front<K: Sink>(out: &mut K, pen: &mut Pen<'_, '_>, tree: &Function<'_>)
    ensures { Writes (spec.write_front (function_of tree.now))
        (K.written out.old) (K.faults out.old) pen.old
        (K.written out.new) (K.faults out.new) pen.new }
{
    note(pen, tree.name_span.start);
    upto(out, pen, tree.name_span.end);
    into_body(out, pen);
    put_registers(out, pen, tree.registers);
    put_entry(out, pen, tree.entry);
}

fn function<K: Sink>(out: &mut K, pen: &mut Pen<'_, '_>, tree: &Function<'_>)
    ensures { Writes (spec.write_function (function_of tree.now))
        (K.written out.old) (K.faults out.old) pen.old
        (K.written out.new) (K.faults out.new) pen.new }
{
    front(out, pen, tree);
    statements(out, pen, &tree.body);
    hit_at(out, pen, tree.exit, tree.closing.start);
}

/// All functions, in the order of the text.
pub(crate) fn all_functions<K: Sink>(out: &mut K, pen: &mut Pen<'_, '_>, trees: &[Function<'_>])
    ensures { Writes (spec.write_functions (map function_of trees.now))
        (K.written out.old) (K.faults out.old) pen.old
        (K.written out.new) (K.faults out.new) pen.new }
{
    for tree in trees {
        function(out, pen, tree);
    }
}
