//! `NAME ( ) {` becomes `NAME (void ) {`.
ghost use Rattle.std.specs.Prelude.{◌≡◌};
ghost use Rattle.mc_adapt.specs.Texts as texts;
ghost use Rattle.mc_adapt.specs.Seen.{marking_of, markings_of};

use crate::mark::Mark;
use crate::marking::Marked;
use crate::sort::Sort;

fn stays(mark: Mark) -> bool
    ensures { result ≡ texts.stays mark }
{
    match mark {
        Mark::Stays => true,
        _ => false,
    }
}

fn is_gap(sort: Sort) -> bool
    ensures { result ≡ texts.is_gap sort }
{
    match sort {
        Sort::Gap => true,
        _ => false,
    }
}

fn is_name(sort: Sort) -> bool
    ensures { result ≡ texts.is_name sort }
{
    match sort {
        Sort::Name => true,
        _ => false,
    }
}

fn is_opening(sort: Sort) -> bool
    ensures { result ≡ texts.is_opening sort }
{
    match sort {
        Sort::Opens => true,
        _ => false,
    }
}

fn is_closing(sort: Sort) -> bool
    ensures { result ≡ texts.is_closing sort }
{
    match sort {
        Sort::Closes => true,
        _ => false,
    }
}

fn is_body(sort: Sort) -> bool
    ensures { result ≡ texts.is_body sort }
{
    match sort {
        Sort::Begins => true,
        _ => false,
    }
}

/// A token that stays.
fn is_token(mark: Mark, sort: Sort) -> bool
    ensures { result ≡ texts.is_token mark sort }
{
    stays(mark) && !is_gap(sort)
}

/// Whether the next token that stays is `{`.
fn body_follows(marked: &[Marked<'_>]) -> bool
    ensures { result ≡ texts.body_follows (markings_of marked.now) }
{
    let mut left = marked;
    while let [next, later @ ..] = left {
        if is_token(next.mark, next.sort) {
            return is_body(next.sort);
        }
        left = later;
    }
    false
}

/// Whether the next tokens that stay are `)` and `{`.
fn empty_list_follows(marked: &[Marked<'_>]) -> bool
    ensures { result ≡ texts.empty_list_follows (markings_of marked.now) }
{
    let mut left = marked;
    while let [next, later @ ..] = left {
        if is_token(next.mark, next.sort) {
            return is_closing(next.sort) && body_follows(later);
        }
        left = later;
    }
    false
}

/// Whether `void` has to stand after the piece. `named` says that the last token that stays is a
/// name.
pub(crate) fn takes_void(named: bool, marked: Marked<'_>, later: &[Marked<'_>]) -> bool
    ensures { result ≡ texts.takes_void named (marking_of marked.entry) (markings_of later.now) }
{
    named
        && is_token(marked.mark, marked.sort)
        && is_opening(marked.sort)
        && empty_list_follows(later)
}

/// Whether the last token that stays is a name, after the piece.
pub(crate) fn named_after(named: bool, marked: Marked<'_>) -> bool
    ensures { result ≡ texts.named_after named (marking_of marked.entry) }
{
    if is_token(marked.mark, marked.sort) {
        is_name(marked.sort)
    } else {
        named
    }
}
