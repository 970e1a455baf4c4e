//! What becomes of a piece.
ghost use Rattle.std.specs.Prelude.{◌≡◌};
ghost use Rattle.mc_adapt.specs.Marks as marks;

use crate::mark::{Mark, Reason};
use crate::sort::Sort;
use crate::state::{Around, Last, State};
use crate::words::is_harmless;

fn is_word(sort: Sort) -> bool
    ensures { result ≡ marks.is_word sort }
{
    match sort {
        Sort::Name
        | Sort::Keyword
        | Sort::Static
        | Sort::Inline
        | Sort::Storage
        | Sort::Silent
        | Sort::Attribute
        | Sort::Assertion
        | Sort::OutsideWord => true,
        _ => false,
    }
}

fn is_operator(sort: Sort) -> bool
    ensures { result ≡ marks.is_operator sort }
{
    match sort {
        Sort::Operator => true,
        _ => false,
    }
}

/// Whether no type stands after `register` or `auto`.
fn lacks_type(last: Last, sort: Sort) -> bool
    ensures { result ≡ marks.lacks_type last sort }
{
    match last {
        Last::Storage => !is_word(sort),
        Last::StoredName => !is_word(sort) && !is_operator(sort),
        _ => false,
    }
}

/// Whether a `*` or `&` here has no operand before it.
fn takes_operand(last: Last) -> bool
    ensures { result ≡ marks.takes_operand last }
{
    match last {
        Last::Start | Last::Keyword | Last::Other => true,
        _ => false,
    }
}

fn goes_if(holds: bool, reason: Reason) -> Mark
    ensures { result ≡ marks.goes_if holds reason }
{
    if holds {
        Mark::Goes
    } else {
        Mark::Outside(reason)
    }
}

fn stays_if(holds: bool, reason: Reason) -> Mark
    ensures { result ≡ marks.stays_if holds reason }
{
    if holds {
        Mark::Stays
    } else {
        Mark::Outside(reason)
    }
}

fn sort_mark(state: State, sort: Sort) -> Mark
    ensures { result ≡ marks.sort_mark state sort }
{
    match sort {
        Sort::Attribute | Sort::Assertion | Sort::Storage | Sort::Silent => Mark::Goes,
        Sort::Inline => goes_if(state.has_static, Reason::Word),
        Sort::OutsideWord => Mark::Outside(Reason::Word),
        Sort::Text => Mark::Outside(Reason::Text),
        Sort::Floating => Mark::Outside(Reason::Floating),
        Sort::Operator => stays_if(!takes_operand(state.last), Reason::Pointer),
        _ => Mark::Stays,
    }
}

/// Outside attributes and assertions.
fn plain_mark(state: State, sort: Sort) -> Mark
    ensures { result ≡ marks.plain_mark state sort }
{
    if lacks_type(state.last, sort) {
        Mark::Outside(Reason::NoType)
    } else {
        sort_mark(state, sort)
    }
}

fn opens(sort: Sort) -> bool
    ensures { result ≡ marks.opens sort }
{
    match sort {
        Sort::Opens => true,
        _ => false,
    }
}

fn is_semicolon(sort: Sort) -> bool
    ensures { result ≡ marks.is_semicolon sort }
{
    match sort {
        Sort::Semicolon => true,
        _ => false,
    }
}

/// In an attribute or an assertion.
fn group_mark(state: State, sort: Sort) -> Mark
    ensures { result ≡ marks.group_mark state sort }
{
    goes_if(!(state.depth == 0) || opens(sort), Reason::Bracket)
}

fn attribute_mark(state: State, sort: Sort, text: &[u8]) -> Mark
    ensures { result ≡ marks.attribute_mark state sort text.now }
{
    if state.depth == 2 && is_word(sort) {
        goes_if(is_harmless(text), Reason::Attribute)
    } else {
        group_mark(state, sort)
    }
}

fn around_mark(state: State, sort: Sort, text: &[u8]) -> Mark
    ensures { result ≡ marks.around_mark state state.around sort text.now }
{
    match state.around {
        Around::Plain => plain_mark(state, sort),
        Around::Attribute => attribute_mark(state, sort, text),
        Around::Assertion => group_mark(state, sort),
        Around::Ending => goes_if(is_semicolon(sort), Reason::Bracket),
    }
}

/// What becomes of a piece of this sort with these bytes.
pub(crate) fn mark_of(state: State, sort: Sort, text: &[u8]) -> Mark
    ensures { result ≡ marks.mark_of state sort text.now }
{
    match sort {
        Sort::Gap => Mark::Stays,
        Sort::OpenComment => Mark::Outside(Reason::OpenComment),
        Sort::OpenText => Mark::Outside(Reason::OpenText),
        Sort::Directive => Mark::Outside(Reason::Directive),
        Sort::Byte => Mark::Outside(Reason::Byte),
        _ => around_mark(state, sort, text),
    }
}
