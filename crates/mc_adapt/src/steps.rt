//! What stands before the next piece.
ghost use Rattle.std.specs.Prelude.{◌≡◌};
ghost use Rattle.mc_adapt.specs.States as states;

use crate::sort::Sort;
use crate::state::{Around, Last, State};

/// Before the first piece.
pub(crate) fn start() -> State
    ensures { result ≡ states.start }
{
    State {
        around: Around::Plain,
        depth: 0,
        has_static: false,
        last: Last::Start,
    }
}

fn static_after(before: bool, sort: Sort) -> bool
    ensures { result ≡ states.static_after before sort }
{
    match sort {
        Sort::Static => true,
        Sort::Semicolon | Sort::Begins | Sort::Ends => false,
        _ => before,
    }
}

fn name_after(before: Last) -> Last
    ensures { result ≡ states.name_after before }
{
    match before {
        Last::Storage => Last::StoredName,
        _ => Last::Name,
    }
}

fn last_after(before: Last, sort: Sort) -> Last
    ensures { result ≡ states.last_after before sort }
{
    match sort {
        Sort::Name => name_after(before),
        Sort::Keyword | Sort::Static => Last::Keyword,
        Sort::Storage => Last::Storage,
        Sort::Inline | Sort::Silent | Sort::Attribute | Sort::Assertion => before,
        Sort::Operand | Sort::Closes | Sort::Step | Sort::Text | Sort::Floating => Last::Operand,
        _ => Last::Other,
    }
}

fn around_after(sort: Sort) -> Around
    ensures { result ≡ states.around_after sort }
{
    match sort {
        Sort::Attribute => Around::Attribute,
        Sort::Assertion => Around::Assertion,
        _ => Around::Plain,
    }
}

fn plain_after(state: State, sort: Sort) -> State
    ensures { result ≡ states.plain_after state sort }
{
    State {
        around: around_after(sort),
        depth: 0,
        has_static: static_after(state.has_static, sort),
        last: last_after(state.last, sort),
    }
}

/// Brackets are counted to the end of 32 bits.
fn one_deeper(depth: u32) -> u32
    ensures { result ≡ states.one_deeper depth }
{
    if depth < 4_294_967_295 {
        depth + 1
    } else {
        depth
    }
}

fn deep(state: State, around: Around, depth: u32) -> State
    ensures { result ≡ states.deep state around depth }
{
    State {
        around,
        depth,
        has_static: state.has_static,
        last: state.last,
    }
}

fn closed_around(around: Around) -> Around
    ensures { result ≡ states.closed_around around }
{
    match around {
        Around::Assertion => Around::Ending,
        _ => Around::Plain,
    }
}

fn closed_after(state: State) -> State
    ensures { result ≡ states.closed_after state }
{
    if state.depth >= 2 {
        deep(state, state.around, state.depth - 1)
    } else if state.depth == 0 {
        deep(state, Around::Plain, 0)
    } else {
        deep(state, closed_around(state.around), 0)
    }
}

/// In an attribute or an assertion.
fn group_after(state: State, sort: Sort) -> State
    ensures { result ≡ states.group_after state sort }
{
    match sort {
        Sort::Opens => deep(state, state.around, one_deeper(state.depth)),
        Sort::Closes => closed_after(state),
        _ => inside_after(state),
    }
}

/// What does not open the brackets ends the attribute or the assertion.
fn inside_after(state: State) -> State
    ensures { result ≡ states.inside_after state }
{
    if state.depth == 0 {
        deep(state, Around::Plain, 0)
    } else {
        state
    }
}

fn token_after(state: State, sort: Sort) -> State
    ensures { result ≡ states.token_after state state.around sort }
{
    match state.around {
        Around::Plain => plain_after(state, sort),
        Around::Attribute | Around::Assertion => group_after(state, sort),
        Around::Ending => deep(state, Around::Plain, 0),
    }
}

/// What stands before the piece after one of this sort.
pub(crate) fn state_after(state: State, sort: Sort) -> State
    ensures { result ≡ states.state_after state sort }
{
    match sort {
        Sort::Gap => state,
        _ => token_after(state, sort),
    }
}
