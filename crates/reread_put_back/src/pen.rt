//! The pen that puts the probes of a text into its program.
ghost use Rattle.std.specs.Prelude.{◌≡◌, ◌≤◌, nat_lt, Option};
ghost use Rattle.reread_put_back.specs.Pens as spec;
ghost use Rattle.reread_put_back.specs.Rows as rows;
ghost use Rattle.reread_put_back.specs.steps.Views.{pen_of};

use mc_limits::MOST_BITS;
use mc_typed::{Mark, Span};
use reread_pieces::{Placed, What};

/// The probes that are left, from the front; where the word of the first one in the text starts
/// that was put and has a fault; and one more than the greatest bit of those that were put.
#[derive(Drop)]
pub(crate) struct Pen<'p> {
    pub left: &'p [Placed],
    pub fault: Option<u32>,
    pub bits: u32,
}

// ---- faults

/// Whether a register is one of a function that has so many, or there is none.
fn is_below(registers: u32, register: Option<u32>) -> bool
    ensures { result ≡ spec.is_below registers register }
{
    match register {
        Some(register) => register < registers,
        None => true,
    }
}

/// The first in the text of this probe and those before.
pub(crate) fn first_of(word: u32, fault: Option<u32>) -> Option<u32>
    ensures { result ≡ spec.first_of word fault }
{
    match fault {
        Some(other) => Some(word.min(other)),
        None => Some(word),
    }
}

fn register_of(what: What) -> Option<u32>
    ensures { result ≡ rows.register_of what }
{
    match what {
        What::Label { register, .. }
        | What::Default { register, .. }
        | What::Decision { register, .. }
        | What::Condition { register, .. }
        | What::Switch { register } => Some(register),
        What::Source
        | What::Opening { .. }
        | What::Closing
        | What::Registers { .. }
        | What::Entry { .. }
        | What::Exit { .. }
        | What::Declaration { .. }
        | What::Statement { .. }
        | What::StatementEnd
        | What::Value
        | What::ValueEnd { .. }
        | What::Return { .. }
        | What::ReturnEnd
        | What::OperandEnd => None,
    }
}

/// One more than the bit that a probe names; 0 for one round an expression.
fn end_of(what: What) -> u64
    ensures { result ≡ rows.end_of what }
{
    match what {
        What::Entry { bit }
        | What::Exit { bit }
        | What::Declaration { bit }
        | What::Label { bit, .. }
        | What::Default { bit, .. }
        | What::Statement { bit }
        | What::ValueEnd { bit }
        | What::Return { bit } => u64::from(bit) + 1,
        What::Source
        | What::Opening { .. }
        | What::Closing
        | What::Registers { .. }
        | What::StatementEnd
        | What::Value
        | What::ReturnEnd
        | What::Decision { .. }
        | What::Condition { .. }
        | What::Switch { .. }
        | What::OperandEnd => 0,
    }
}

/// Notes a probe of a function with so many registers, which names or reaches only bits below
/// `end`.
pub(crate) fn note(pen: &mut Pen<'_>, registers: u32, probe: Placed, end: u64)
    ensures { pen_of pen.new ≡ spec.noted registers probe end (pen_of pen.old) }
{
    if is_below(registers, register_of(probe.what)) && end <= MOST_BITS as u64 {
        pen.bits = pen.bits.max(end as u32);
    } else {
        pen.fault = first_of(probe.word, pen.fault);
    }
}

// ---- probes of statements and functions

pub(crate) fn is_same(a: Span, b: Span) -> bool
    ensures { result ≡ spec.is_same a b }
{
    a.start == b.start && a.end == b.end
}

/// What the next probe is, where it stands at this place.
fn next_at(pen: &Pen<'_>, span: Span) -> Option<What>
    ensures { result ≡ spec.next_at span pen.now.left.now }
{
    match pen.left {
        [probe, ..] if is_same(probe.span, span) => Some(probe.what),
        _ => None,
    }
}

/// Puts the next probe.
fn put_next(pen: &mut Pen<'_>, registers: u32)
    ensures { pen_of pen.new ≡ spec.put_next registers pen.old.left.now (pen_of pen.old) }
{
    if let [probe, later @ ..] = pen.left {
        pen.left = later;
        note(pen, registers, *probe, end_of(probe.what));
    }
}

/// The bit of a counted statement, where its probe is the next one; that is put.
pub(crate) fn statement_bit(pen: &mut Pen<'_>, registers: u32, span: Span) -> Option<u32>
    ensures part { result ≡ (spec.put registers rows.statement_bit span (pen_of pen.old)).0 }
    ensures pen { pen_of pen.new
        ≡ (spec.put registers rows.statement_bit span (pen_of pen.old)).1 }
{
    match next_at(pen, span) {
        Some(What::Statement { bit }) => {
            put_next(pen, registers);
            Some(bit)
        }
        _ => None,
    }
}

/// The bit of a counted declaration.
pub(crate) fn declaration_bit(pen: &mut Pen<'_>, registers: u32, span: Span) -> Option<u32>
    ensures part { result ≡ (spec.put registers rows.declaration_bit span (pen_of pen.old)).0 }
    ensures pen { pen_of pen.new
        ≡ (spec.put registers rows.declaration_bit span (pen_of pen.old)).1 }
{
    match next_at(pen, span) {
        Some(What::Declaration { bit }) => {
            put_next(pen, registers);
            Some(bit)
        }
        _ => None,
    }
}

/// The bit of the exit of a `return`.
pub(crate) fn return_bit(pen: &mut Pen<'_>, registers: u32, span: Span) -> Option<u32>
    ensures part { result ≡ (spec.put registers rows.return_bit span (pen_of pen.old)).0 }
    ensures pen { pen_of pen.new
        ≡ (spec.put registers rows.return_bit span (pen_of pen.old)).1 }
{
    match next_at(pen, span) {
        Some(What::ValueEnd { bit } | What::Return { bit }) => {
            put_next(pen, registers);
            Some(bit)
        }
        _ => None,
    }
}

/// The probe of a label.
pub(crate) fn label_mark(pen: &mut Pen<'_>, registers: u32, span: Span) -> Option<Mark>
    ensures part { result ≡ (spec.put registers rows.label_mark span (pen_of pen.old)).0 }
    ensures pen { pen_of pen.new
        ≡ (spec.put registers rows.label_mark span (pen_of pen.old)).1 }
{
    match next_at(pen, span) {
        Some(What::Label { register, bit }) => {
            put_next(pen, registers);
            Some(Mark { register, bit })
        }
        _ => None,
    }
}

/// The probe of an absent `default`.
pub(crate) fn default_mark(pen: &mut Pen<'_>, registers: u32, span: Span) -> Option<Mark>
    ensures part { result ≡ (spec.put registers rows.default_mark span (pen_of pen.old)).0 }
    ensures pen { pen_of pen.new
        ≡ (spec.put registers rows.default_mark span (pen_of pen.old)).1 }
{
    match next_at(pen, span) {
        Some(What::Default { register, bit }) => {
            put_next(pen, registers);
            Some(Mark { register, bit })
        }
        _ => None,
    }
}

/// How many registers a function has.
pub(crate) fn register_count(pen: &mut Pen<'_>, span: Span) -> Option<u32>
    ensures part { result ≡ (spec.put 0 rows.register_count span (pen_of pen.old)).0 }
    ensures pen { pen_of pen.new
        ≡ (spec.put 0 rows.register_count span (pen_of pen.old)).1 }
{
    match next_at(pen, span) {
        Some(What::Registers { count }) => {
            put_next(pen, 0);
            Some(count)
        }
        _ => None,
    }
}

/// The bit of the entry of a function.
pub(crate) fn entry_bit(pen: &mut Pen<'_>, span: Span) -> Option<u32>
    ensures part { result ≡ (spec.put 0 rows.entry_bit span (pen_of pen.old)).0 }
    ensures pen { pen_of pen.new
        ≡ (spec.put 0 rows.entry_bit span (pen_of pen.old)).1 }
{
    match next_at(pen, span) {
        Some(What::Entry { bit }) => {
            put_next(pen, 0);
            Some(bit)
        }
        _ => None,
    }
}

/// The bit of the exit at the closing brace of a function.
pub(crate) fn exit_bit(pen: &mut Pen<'_>, span: Span) -> Option<u32>
    ensures part { result ≡ (spec.put 0 rows.exit_bit span (pen_of pen.old)).0 }
    ensures pen { pen_of pen.new
        ≡ (spec.put 0 rows.exit_bit span (pen_of pen.old)).1 }
{
    match next_at(pen, span) {
        Some(What::Exit { bit }) => {
            put_next(pen, 0);
            Some(bit)
        }
        _ => None,
    }
}
