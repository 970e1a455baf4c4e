//! A source and its obligations, made by hand.
use mc_oblige::{Obligation, ObligationId};
use mc_span::Span;
use std::alloc::{AllocError, Global};

/// A source, with a line end and a byte that is not UTF-8 in the text of an obligation.
pub(crate) const SOURCE: &[u8] = b"entry exit stmt lab deci a b two\nlines /*\xff*/x";

/// Where each obligation stands. There is one of each kind, and these: numbers of two digits, a
/// place with a line end, one with the byte that is not UTF-8, one that passes the end of the
/// source, one beyond it, and one whose end stands before its start. The last one has the id of the
/// first and stands elsewhere.
static PLACES: [(ObligationId, u32, u32); 15] = [
    (ObligationId::Entry(0), 0, 5),
    (ObligationId::Exit(0), 6, 10),
    (ObligationId::Statement(0), 11, 15),
    (ObligationId::Label(0), 16, 19),
    (ObligationId::Outcome(0, true), 20, 24),
    (ObligationId::Outcome(0, false), 20, 24),
    (ObligationId::Condition(0, 0), 25, 26),
    (ObligationId::Condition(0, 1), 27, 28),
    (ObligationId::Statement(1), 29, 38),
    (ObligationId::Statement(2), 39, 45),
    (ObligationId::Statement(9), 44, 400),
    (ObligationId::Statement(10), 50, 60),
    (ObligationId::Statement(11), 5, 2),
    (ObligationId::Condition(11, 33), 0, 5),
    (ObligationId::Entry(0), 6, 10),
];

/// The obligations of the source.
pub(crate) fn obligations(alloc: Global) -> Result<Vec<Obligation>, AllocError> {
    let mut all = Vec::new(alloc);
    for (id, start, end) in &PLACES {
        all.push(Obligation {
            id: *id,
            span: Span {
                start: *start,
                end: *end,
            },
        })?;
    }
    Ok(all)
}
