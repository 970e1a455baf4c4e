//! A program with its probes, put piece by piece.
ghost use Rattle.std.specs.Prelude.{◌≡◌, ◌≤◌, ℕ, List, Option};
ghost use Rattle.mc_lex.specs.Tokens.{toks_of};
ghost use Rattle.mc_port.specs.Sink.{Puts};
ghost use Rattle.mc_probe.specs.Trees.{tree_of};
ghost use Rattle.mc_print.specs.Pens as spec;
ghost use Rattle.mc_print.specs.Pens.{spaced};
ghost use Rattle.mc_print.specs.Texts as texts;
ghost use Rattle.mc_print.specs.Texts.{text_of};
ghost use Rattle.mc_print.specs.steps.Holds.{ending, gap_bytes, Holds, Writes};

use crate::functions::all_functions;
use crate::gap::Gap;
use crate::pen::{Pen, rest};
use mc_lex::Token;
use mc_port::{PutFault, Sink};
use mc_probe::Instrumented;

/// What stands after the last token.
fn ending(gap: Gap) -> &'static [u8]
    ensures { result.now ≡ ending (gap_bytes gap) }
{
    match gap {
        Gap::Nothing => b"",
        Gap::Blank | Gap::Line => b"\n",
    }
}

fn write_all<K: Sink>(out: &mut K, pen: &mut Pen<'_, '_>, tree: &Instrumented<'_>)
    ensures { Writes (texts.write_all (tree_of tree.now))
        (K.written out.old) (K.faults out.old) pen.old
        (K.written out.new) (K.faults out.new) pen.new }
{
    all_functions(out, pen, tree.program().functions());
    rest(out, pen);
}

fn finish<K: Sink>(out: &mut K, pen: &Pen<'_, '_>) -> Result<(), PutFault>
    ensures bytes { (start : Option (List ℕ)) (first : ℕ) (p : spec.Pen)
        → Holds start first p (K.written out.old) (K.faults out.old) pen.now
        → Puts start (K.written out.new) first (K.faults out.new) (spaced p.written) result }
    ensures later { K.faults out.old ≤ K.faults out.new }
{
    match pen.fault {
        Some(fault) => Err(fault),
        None => out.put(ending(pen.gap)),
    }
}

/// Puts the instrumented program as C text. `tokens` are those of its source.
///
/// The text is the tokens of the source with what the table of docs/TARGET.md inserts for the
/// probes of the tree. A token is one piece, and so is the blank or the line feed after it: a line
/// feed stands after each `;`, `{` and `}` and after the last token. A fault is that of the first
/// piece that cannot be put; a first part of the text stands before it. Takes no memory.
pub fn print<K: Sink>(
    tokens: &[Token<'_>],
    tree: &Instrumented<'_>,
    out: &mut K,
) -> Result<(), PutFault>
    ensures bytes { Puts (K.written out.old) (K.written out.new)
        (K.faults out.old) (K.faults out.new)
        (spaced (text_of (toks_of tokens.now) (tree_of tree.now))) result }
    ensures later { K.faults out.old ≤ K.faults out.new }
{
    let mut pen = Pen {
        left: tokens,
        specifiers: &[],
        gap: Gap::Nothing,
        fault: None,
    };
    write_all(out, &mut pen, tree);
    finish(out, &pen)
}
