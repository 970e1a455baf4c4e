//! What the probes insert: a function for each row of the table.
ghost use Rattle.std.specs.Prelude.{◌∷◌, [], codes};
ghost use Rattle.mc_print.specs.Insertions as spec;
ghost use Rattle.mc_print.specs.Pens.{◌▸◌, put};
ghost use Rattle.mc_print.specs.steps.Holds.{Writes};

use crate::pen::{Pen, put_type, skip, upto, word};
use crate::pieces::{Piece, insert};
use mc_port::Sink;
use mc_typed::{Mark, Probe, Span};

/// An entry, an exit, or the probe of a counted declaration.
fn hit<K: Sink>(out: &mut K, pen: &mut Pen<'_, '_>, bit: u32)
    ensures { Writes (put (spec.hit bit))
        (K.written out.old) (K.faults out.old) pen.old
        (K.written out.new) (K.faults out.new) pen.new }
{
    insert(
        out,
        pen,
        &[
            Piece::Word(b"MCDC_H"),
            Piece::Word(b"("),
            Piece::Number(bit),
            Piece::Word(b")"),
            Piece::Word(b";"),
        ],
    );
}

/// A probe in braces that stay open.
fn open_hit<K: Sink>(out: &mut K, pen: &mut Pen<'_, '_>, bit: u32)
    ensures { Writes (put (codes "{" ∷ spec.hit bit))
        (K.written out.old) (K.faults out.old) pen.old
        (K.written out.new) (K.faults out.new) pen.new }
{
    insert(
        out,
        pen,
        &[
            Piece::Word(b"{"),
            Piece::Word(b"MCDC_H"),
            Piece::Word(b"("),
            Piece::Number(bit),
            Piece::Word(b")"),
            Piece::Word(b";"),
        ],
    );
}

/// The registers of a function.
fn registers<K: Sink>(out: &mut K, pen: &mut Pen<'_, '_>, count: u32)
    ensures { Writes (put (spec.registers count))
        (K.written out.old) (K.faults out.old) pen.old
        (K.written out.new) (K.faults out.new) pen.new }
{
    insert(
        out,
        pen,
        &[
            Piece::Word(b"unsigned"),
            Piece::Word(b"mcdc_r"),
            Piece::Word(b"["),
            Piece::Number(count),
            Piece::Word(b"]"),
            Piece::Word(b";"),
        ],
    );
}

/// A label, or an absent `default`.
fn label<K: Sink>(out: &mut K, pen: &mut Pen<'_, '_>, mark: Mark)
    ensures { Writes (put (spec.label mark))
        (K.written out.old) (K.faults out.old) pen.old
        (K.written out.new) (K.faults out.new) pen.new }
{
    insert(
        out,
        pen,
        &[
            Piece::Word(b"MCDC_L"),
            Piece::Word(b"("),
            Piece::Number(mark.register),
            Piece::Word(b","),
            Piece::Number(mark.bit),
            Piece::Word(b")"),
            Piece::Word(b";"),
        ],
    );
}

/// What stands before the operand of a probe.
fn opening<K: Sink>(out: &mut K, pen: &mut Pen<'_, '_>, probe: Probe)
    ensures { Writes (put (spec.opening probe))
        (K.written out.old) (K.faults out.old) pen.old
        (K.written out.new) (K.faults out.new) pen.new }
{
    match probe {
        Probe::Decision { register, base } => insert(
            out,
            pen,
            &[
                Piece::Word(b"MCDC_D"),
                Piece::Word(b"("),
                Piece::Number(register),
                Piece::Word(b","),
                Piece::Number(base),
                Piece::Word(b","),
            ],
        ),
        Probe::Condition {
            register,
            on_true,
            on_false,
        } => insert(
            out,
            pen,
            &[
                Piece::Word(b"MCDC_C"),
                Piece::Word(b"("),
                Piece::Number(register),
                Piece::Word(b","),
                Piece::Number(on_true),
                Piece::Word(b","),
                Piece::Number(on_false),
                Piece::Word(b","),
            ],
        ),
        Probe::Switch { register } => insert(
            out,
            pen,
            &[
                Piece::Word(b"MCDC_W"),
                Piece::Word(b"("),
                Piece::Number(register),
                Piece::Word(b","),
            ],
        ),
    }
}

/// The exit after the value of a `return`.
fn value_exit<K: Sink>(out: &mut K, pen: &mut Pen<'_, '_>, bit: u32)
    ensures { Writes (put (spec.value_exit bit))
        (K.written out.old) (K.faults out.old) pen.old
        (K.written out.new) (K.faults out.new) pen.new }
{
    insert(
        out,
        pen,
        &[
            Piece::Word(b"MCDC_H"),
            Piece::Word(b"("),
            Piece::Number(bit),
            Piece::Word(b")"),
            Piece::Word(b";"),
            Piece::Word(b"return"),
            Piece::Word(b"mcdc_v"),
            Piece::Word(b";"),
            Piece::Word(b"}"),
        ],
    );
}

// ---- at their places

/// Before a byte, what stands before the operand of a probe.
pub(crate) fn open_probe<K: Sink>(out: &mut K, pen: &mut Pen<'_, '_>, probe: Probe, place: u32)
    ensures { Writes (spec.at place (spec.opening probe))
        (K.written out.old) (K.faults out.old) pen.old
        (K.written out.new) (K.faults out.new) pen.new }
{
    upto(out, pen, place);
    opening(out, pen, probe);
}

/// Before a byte, a token.
pub(crate) fn word_at<K: Sink>(out: &mut K, pen: &mut Pen<'_, '_>, place: u32, text: &[u8])
    ensures { Writes (spec.at place (text.now ∷ []))
        (K.written out.old) (K.faults out.old) pen.old
        (K.written out.new) (K.faults out.new) pen.new }
{
    upto(out, pen, place);
    word(out, pen, text);
}

/// Before a byte, a probe in braces that stay open.
pub(crate) fn open_hit_at<K: Sink>(out: &mut K, pen: &mut Pen<'_, '_>, place: u32, bit: u32)
    ensures { Writes (spec.at place (codes "{" ∷ spec.hit bit))
        (K.written out.old) (K.faults out.old) pen.old
        (K.written out.new) (K.faults out.new) pen.new }
{
    upto(out, pen, place);
    open_hit(out, pen, bit);
}

/// Before a counted statement.
pub(crate) fn before_counted<K: Sink>(
    out: &mut K,
    pen: &mut Pen<'_, '_>,
    bit: Option<u32>,
    span: Span,
)
    ensures { Writes (spec.before_counted bit span)
        (K.written out.old) (K.faults out.old) pen.old
        (K.written out.new) (K.faults out.new) pen.new }
{
    if let Some(bit) = bit {
        open_hit_at(out, pen, span.start, bit);
    }
}

/// After a counted statement.
pub(crate) fn after_counted<K: Sink>(
    out: &mut K,
    pen: &mut Pen<'_, '_>,
    bit: Option<u32>,
    span: Span,
)
    ensures { Writes (spec.after_counted bit span)
        (K.written out.old) (K.faults out.old) pen.old
        (K.written out.new) (K.faults out.new) pen.new }
{
    if bit.is_some() {
        word_at(out, pen, span.end, b"}");
    }
}

/// Before a byte, an exit or the probe of a counted declaration.
pub(crate) fn hit_at<K: Sink>(out: &mut K, pen: &mut Pen<'_, '_>, bit: Option<u32>, place: u32)
    ensures { Writes (spec.hit_at bit place)
        (K.written out.old) (K.faults out.old) pen.old
        (K.written out.new) (K.faults out.new) pen.new }
{
    if let Some(bit) = bit {
        upto(out, pen, place);
        hit(out, pen, bit);
    }
}

/// The probe of a label or of an absent `default`, after what stands there.
pub(crate) fn label_after<K: Sink>(
    out: &mut K,
    pen: &mut Pen<'_, '_>,
    mark: Option<Mark>,
    span: Span,
)
    ensures { Writes (spec.label_after mark span)
        (K.written out.old) (K.faults out.old) pen.old
        (K.written out.new) (K.faults out.new) pen.new }
{
    if let Some(mark) = mark {
        upto(out, pen, span.end);
        label(out, pen, mark);
    }
}

/// What stands after the body of a `switch`: the probe of an absent `default`, and then the end of
/// the counted statement.
pub(crate) fn close_switch<K: Sink>(
    out: &mut K,
    pen: &mut Pen<'_, '_>,
    absent: Option<Mark>,
    bit: Option<u32>,
    span: Span,
)
    ensures { Writes (spec.label_after absent span ▸ spec.after_counted bit span)
        (K.written out.old) (K.faults out.old) pen.old
        (K.written out.new) (K.faults out.new) pen.new }
{
    label_after(out, pen, absent, span);
    after_counted(out, pen, bit, span);
}

/// The registers at the front of a body.
pub(crate) fn put_registers<K: Sink>(out: &mut K, pen: &mut Pen<'_, '_>, count: u32)
    ensures { Writes (spec.put_registers count)
        (K.written out.old) (K.faults out.old) pen.old
        (K.written out.new) (K.faults out.new) pen.new }
{
    if count != 0 {
        registers(out, pen, count);
    }
}

/// The entry at the front of a body.
pub(crate) fn put_entry<K: Sink>(out: &mut K, pen: &mut Pen<'_, '_>, bit: Option<u32>)
    ensures { Writes (spec.put_entry bit)
        (K.written out.old) (K.faults out.old) pen.old
        (K.written out.new) (K.faults out.new) pen.new }
{
    if let Some(bit) = bit {
        hit(out, pen, bit);
    }
}

/// What stands in place of the word `return`, before a value.
pub(crate) fn open_value<K: Sink>(out: &mut K, pen: &mut Pen<'_, '_>, span: Span)
    ensures { Writes (spec.open_value span)
        (K.written out.old) (K.faults out.old) pen.old
        (K.written out.new) (K.faults out.new) pen.new }
{
    upto(out, pen, span.start);
    skip(pen);
    word(out, pen, b"{");
    put_type(out, pen);
    insert(out, pen, &[Piece::Word(b"mcdc_v"), Piece::Word(b"=")]);
}

/// What stands after a `return` with a value.
pub(crate) fn close_value<K: Sink>(out: &mut K, pen: &mut Pen<'_, '_>, bit: u32, span: Span)
    ensures { Writes (spec.close_value bit span)
        (K.written out.old) (K.faults out.old) pen.old
        (K.written out.new) (K.faults out.new) pen.new }
{
    let end = span.end;
    upto(out, pen, end);
    value_exit(out, pen, bit);
}
