//! How initializers are printed.
ghost use Rattle.std.specs.Prelude.{map, option_map};
ghost use Rattle.mc_probe.specs.Views.{declarator_of, initializer_of, initializers_from};
ghost use Rattle.mc_print.specs.Texts as spec;
ghost use Rattle.mc_print.specs.steps.Holds.{Writes};

use crate::expressions::{expression, structure};
use crate::pen::Pen;
use mc_port::Sink;
use mc_typed::{Declarator, Initializer};

#[cycle(initializer)]
fn initializer<K: Sink>(out: &mut K, pen: &mut Pen<'_, '_>, tree: &Initializer)
    ensures { Writes (spec.write_initializer (initializer_of tree.now))
        (K.written out.old) (K.faults out.old) pen.old
        (K.written out.new) (K.faults out.new) pen.new }
{
    match tree {
        Initializer::Number { value } => expression(out, pen, value),
        Initializer::Structure { value, .. } => structure(out, pen, value),
        Initializer::List { items, .. } => initializers(out, pen, items),
        Initializer::Zero { value, .. } => expression(out, pen, value),
    }
}

#[cycle(initializer)]
fn initializers<K: Sink>(out: &mut K, pen: &mut Pen<'_, '_>, trees: &[Initializer])
    ensures { Writes (spec.write_initializers (initializers_from (map initializer_of trees.now)))
        (K.written out.old) (K.faults out.old) pen.old
        (K.written out.new) (K.faults out.new) pen.new }
{
    for tree in trees {
        initializer(out, pen, tree);
    }
}

fn initial<K: Sink>(out: &mut K, pen: &mut Pen<'_, '_>, tree: &Option<Initializer>)
    ensures { Writes (spec.write_initial (option_map initializer_of tree.now))
        (K.written out.old) (K.faults out.old) pen.old
        (K.written out.new) (K.faults out.new) pen.new }
{
    if let Some(value) = tree {
        initializer(out, pen, value);
    }
}

/// The initializers of a declaration.
pub(crate) fn declarators<K: Sink>(out: &mut K, pen: &mut Pen<'_, '_>, trees: &[Declarator])
    ensures { Writes (spec.write_declarators (map declarator_of trees.now))
        (K.written out.old) (K.faults out.old) pen.old
        (K.written out.new) (K.faults out.new) pen.new }
{
    for tree in trees {
        initial(out, pen, &tree.value);
    }
}
