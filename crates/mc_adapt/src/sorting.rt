//! What a piece is by itself.
ghost use Rattle.std.specs.Prelude.{◌≡◌};
ghost use Rattle.adapt_tokens.specs.Kinds.{is_other_pair};
ghost use Rattle.mc_adapt.specs.Sorts as sorts;

use crate::floating::looks_floating;
use crate::sort::Sort;
use crate::words::{
    begins_assertion, begins_attribute, is_inline, is_kept, is_outside, is_silent, is_storage,
};
use adapt_tokens::Kind;

fn kept_sort(text: &[u8]) -> Sort
    ensures { result ≡ sorts.kept_sort text.now }
{
    if text == b"static".as_slice() {
        Sort::Static
    } else if is_kept(text) {
        Sort::Keyword
    } else {
        Sort::Name
    }
}

fn word_sort(text: &[u8]) -> Sort
    ensures { result ≡ sorts.word_sort text.now }
{
    if is_outside(text) {
        Sort::OutsideWord
    } else if begins_attribute(text) {
        Sort::Attribute
    } else if begins_assertion(text) {
        Sort::Assertion
    } else if is_inline(text) {
        Sort::Inline
    } else if is_storage(text) {
        Sort::Storage
    } else if is_silent(text) {
        Sort::Silent
    } else {
        kept_sort(text)
    }
}

fn lone_sort(b: u8) -> Sort
    ensures { result ≡ sorts.lone_sort b }
{
    match b {
        b'(' => Sort::Opens,
        b')' => Sort::Closes,
        b'{' => Sort::Begins,
        b'}' => Sort::Ends,
        b';' => Sort::Semicolon,
        b']' => Sort::Operand,
        b'*' | b'&' => Sort::Operator,
        _ => Sort::Other,
    }
}

/// `->` and the digraphs.
fn is_other_pair(a: u8, b: u8) -> bool
    ensures { result ≡ is_other_pair a b }
{
    (a == b'-' && b == b'>')
        || (a == b'<' && b == b':')
        || (a == b':' && b == b'>')
        || (a == b'<' && b == b'%')
        || (a == b'%' && b == b'>')
        || (a == b'%' && b == b':')
}

fn pair_sort(a: u8, b: u8) -> Sort
    ensures { result ≡ sorts.pair_sort a b }
{
    if (a == b'+' || a == b'-') && b == a {
        Sort::Step
    } else if is_other_pair(a, b) {
        Sort::OutsideWord
    } else {
        Sort::Other
    }
}

fn punctuator_sort(text: &[u8]) -> Sort
    ensures { result ≡ sorts.punctuator_sort text.now }
{
    match text {
        [] => Sort::Other,
        [a] => lone_sort(*a),
        [a, b] => pair_sort(*a, *b),
        [a, _, _, ..] => {
            if *a == b'.' {
                Sort::OutsideWord
            } else {
                Sort::Other
            }
        }
    }
}

fn number_sort(text: &[u8]) -> Sort
    ensures { result ≡ sorts.number_sort text.now }
{
    if looks_floating(text) {
        Sort::Floating
    } else {
        Sort::Operand
    }
}

/// What a piece is, by its kind and its bytes.
pub(crate) fn sort_of(kind: Kind, text: &[u8]) -> Sort
    ensures { result ≡ sorts.sort_of kind text.now }
{
    match kind {
        Kind::White | Kind::Comment | Kind::Marker | Kind::Pragma | Kind::Line => Sort::Gap,
        Kind::Word => word_sort(text),
        Kind::Number => number_sort(text),
        Kind::Character => Sort::Operand,
        Kind::Text => Sort::Text,
        Kind::Punctuator => punctuator_sort(text),
        Kind::OpenComment => Sort::OpenComment,
        Kind::OpenText => Sort::OpenText,
        Kind::Directive => Sort::Directive,
        Kind::Byte => Sort::Byte,
    }
}
