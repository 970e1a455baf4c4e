//! What is inserted, in pieces.
ghost use Rattle.std.specs.Prelude.{◌∷◌, []};
ghost use Rattle.mc_print.specs.Pens as spec;
ghost use Rattle.mc_print.specs.steps.Holds.{Writes};
ghost use Rattle.mc_print.specs.steps.Pieces.{texts_of};

use crate::pen::{Pen, word};
use itoa::Buffer;
use mc_port::Sink;

/// A token that is inserted.
#[derive(Clone, Copy)]
pub(crate) enum Piece {
    Word(&'static [u8]),
    /// In decimal.
    Number(u32),
}

fn put_piece<K: Sink>(out: &mut K, pen: &mut Pen<'_, '_>, piece: Piece)
    ensures { Writes (spec.put (texts_of (piece ∷ [])))
        (K.written out.old) (K.faults out.old) pen.old
        (K.written out.new) (K.faults out.new) pen.new }
{
    match piece {
        Piece::Word(text) => word(out, pen, text),
        Piece::Number(number) => {
            let mut buffer = Buffer::new();
            word(out, pen, buffer.format(number).as_bytes());
        }
    }
}

/// Inserts these.
pub(crate) fn insert<K: Sink>(out: &mut K, pen: &mut Pen<'_, '_>, pieces: &[Piece])
    ensures { Writes (spec.put (texts_of pieces.now))
        (K.written out.old) (K.faults out.old) pen.old
        (K.written out.new) (K.faults out.new) pen.new }
{
    for piece in pieces {
        put_piece(out, pen, *piece);
    }
}
