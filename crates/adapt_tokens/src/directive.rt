//! Lines that begin with `#`.
ghost use Rattle.std.specs.Prelude.{◌≡◌, ◌≤◌, ◌<◌, ◌^◌, length};
ghost use Rattle.adapt_tokens.specs.Directives as directives;
ghost use Rattle.adapt_tokens.specs.steps.Next as spec;

use crate::byte::{is_digit, line_len, space_len, word_len};
use crate::kind::Kind;
use crate::next::Next;

fn begins_with_digit(bytes: &[u8]) -> bool
    ensures { result ≡ directives.begins_with_digit bytes.now }
{
    match bytes {
        [] => false,
        [first, ..] => is_digit(*first),
    }
}

/// What stands after the white space.
fn past_space(bytes: &[u8]) -> &[u8]
    ensures { result.now ≡ directives.past_space bytes.now }
{
    bytes.split_at(space_len(bytes)).1
}

fn first_word(bytes: &[u8]) -> &[u8]
    ensures { result.now ≡ directives.first_word bytes.now }
{
    bytes.split_at(word_len(bytes)).0
}

fn past_word(bytes: &[u8]) -> &[u8]
    ensures { result.now ≡ directives.past_word bytes.now }
{
    bytes.split_at(word_len(bytes)).1
}

/// The kind by what stands after `line`.
fn line_kind(bytes: &[u8]) -> Kind
    ensures { result ≡ directives.line_kind bytes.now }
{
    if begins_with_digit(past_space(bytes)) {
        Kind::Line
    } else {
        Kind::Directive
    }
}

/// The kind by what stands after the `#` and white space.
fn named_directive(bytes: &[u8]) -> Kind
    ensures { result ≡ directives.named_directive bytes.now }
{
    let word = first_word(bytes);
    if begins_with_digit(bytes) {
        Kind::Marker
    } else if word == b"pragma".as_slice() {
        Kind::Pragma
    } else if word == b"line".as_slice() {
        line_kind(past_word(bytes))
    } else {
        Kind::Directive
    }
}

/// The kind of a line from the byte after its `#` on.
fn directive_kind(bytes: &[u8]) -> Kind
    ensures { result ≡ directives.directive_kind bytes.now }
{
    named_directive(past_space(bytes))
}

/// The line that goes on with these bytes after its `#`.
pub(crate) fn directive_next(bytes: &[u8]) -> Next
    requires { length bytes.now < 2 ^ 31 }
    ensures { result ≡ spec.directive_next bytes.now }
{
    let n = line_len(bytes);
    Next {
        kind: directive_kind(bytes.split_at(n).0),
        length: 1 + n,
    }
}
