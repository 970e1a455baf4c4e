//! The pen that writes the instrumented text.
ghost use Rattle.std.specs.Prelude.{◌≡◌, ◌≤◌, ◌∷◌, ◌++◌, [], drop, length, take, codes};
ghost use Rattle.mc_lex.specs.Tokens.{tok_of, toks_of};
ghost use Rattle.mc_lex.specs.Words.{one_of};
ghost use Rattle.mc_port.specs.Sink.{Puts};
ghost use Rattle.mc_print.specs.Pens as spec;
ghost use Rattle.mc_print.specs.steps.Holds.{PutsMore, Writes};

use crate::gap::{Gap, after, bytes_of};
use crate::words::is;
use mc_lex::Token;
use mc_port::{PutFault, Sink};

/// What is left to be copied of the source, the specifiers of the function whose body is written,
/// what stands before the next token, and the first fault of the sink, after which nothing is put.
#[derive(Drop)]
pub(crate) struct Pen<'t, 'a> {
    pub left: &'t [Token<'a>],
    pub specifiers: &'t [Token<'a>],
    pub gap: Gap,
    pub fault: Option<PutFault>,
}

// ---- tokens

fn put_both<K: Sink>(out: &mut K, gap: &[u8], text: &[u8]) -> Result<(), PutFault>
    ensures bytes { Puts (K.written out.old) (K.written out.new)
        (K.faults out.old) (K.faults out.new) (gap.now ++ text.now) result }
    ensures later { K.faults out.old ≤ K.faults out.new }
{
    match out.put(gap) {
        Ok(()) => out.put(text),
        Err(fault) => Err(fault),
    }
}

/// The same unless there was a fault before. Gives the first fault.
fn put_more<K: Sink>(
    out: &mut K,
    fault: Option<PutFault>,
    gap: &[u8],
    text: &[u8],
) -> Option<PutFault>
    ensures bytes { PutsMore fault (K.written out.old) (K.written out.new)
        (K.faults out.old) (K.faults out.new) (gap.now ++ text.now) result }
    ensures later { K.faults out.old ≤ K.faults out.new }
{
    match fault {
        Some(fault) => Some(fault),
        None => put_both(out, gap, text).err(),
    }
}

/// Writes one token, after what stands before it.
pub(crate) fn word<K: Sink>(out: &mut K, pen: &mut Pen<'_, '_>, text: &[u8])
    ensures { Writes (spec.put (text.now ∷ []))
        (K.written out.old) (K.faults out.old) pen.old
        (K.written out.new) (K.faults out.new) pen.new }
{
    pen.fault = put_more(out, pen.fault, bytes_of(pen.gap), text);
    pen.gap = after(text);
}

fn texts<K: Sink>(out: &mut K, pen: &mut Pen<'_, '_>, tokens: &[Token<'_>])
    ensures { Writes (spec.put (spec.texts_of (toks_of tokens.now)))
        (K.written out.old) (K.faults out.old) pen.old
        (K.written out.new) (K.faults out.new) pen.new }
{
    for token in tokens {
        word(out, pen, token.text);
    }
}

// ---- copying

/// How many tokens at the front start before a byte.
fn before(at: u32, tokens: &[Token<'_>]) -> usize
    ensures count { result ≡ spec.before at (toks_of tokens.now) }
    ensures within { result ≤ length tokens.now }
{
    let mut count = 0;
    let mut left = tokens;
    while let [token, later @ ..] = left {
        if token.start >= at {
            return count;
        }
        count += 1;
        left = later;
    }
    count
}

/// How many tokens stand at the front up to the first `{`, with it.
fn through(tokens: &[Token<'_>]) -> usize
    ensures count { result ≡ spec.through (toks_of tokens.now) }
    ensures within { result ≤ length tokens.now }
{
    let mut count = 0;
    let mut left = tokens;
    while let [token, later @ ..] = left {
        count += 1;
        if is(token.text, b"{") {
            return count;
        }
        left = later;
    }
    count
}

fn front<'t, 'a>(tokens: &'t [Token<'a>], count: usize) -> &'t [Token<'a>]
    requires { count ≤ length tokens.now }
    ensures { toks_of result.now ≡ take count (toks_of tokens.now) }
{
    &tokens[..count]
}

fn back<'t, 'a>(tokens: &'t [Token<'a>], count: usize) -> &'t [Token<'a>]
    requires { count ≤ length tokens.now }
    ensures { toks_of result.now ≡ drop count (toks_of tokens.now) }
{
    &tokens[count..]
}

fn copy<'t, 'a, K: Sink>(out: &mut K, pen: &mut Pen<'t, 'a>, count: usize)
    requires { count ≤ length pen.old.left.now }
    ensures { Writes (spec.copy count)
        (K.written out.old) (K.faults out.old) pen.old
        (K.written out.new) (K.faults out.new) pen.new }
{
    let front = front(pen.left, count);
    pen.left = back(pen.left, count);
    texts(out, pen, front);
}

/// Copies the tokens that start before a byte.
pub(crate) fn upto<K: Sink>(out: &mut K, pen: &mut Pen<'_, '_>, at: u32)
    ensures { Writes (spec.upto at)
        (K.written out.old) (K.faults out.old) pen.old
        (K.written out.new) (K.faults out.new) pen.new }
{
    let count = before(at, pen.left);
    copy(out, pen, count);
}

/// Copies the tokens through the first `{`.
pub(crate) fn into_body<K: Sink>(out: &mut K, pen: &mut Pen<'_, '_>)
    ensures { Writes spec.into_body
        (K.written out.old) (K.faults out.old) pen.old
        (K.written out.new) (K.faults out.new) pen.new }
{
    let count = through(pen.left);
    copy(out, pen, count);
}

/// Copies all the tokens that are left.
pub(crate) fn rest<K: Sink>(out: &mut K, pen: &mut Pen<'_, '_>)
    ensures { Writes spec.rest
        (K.written out.old) (K.faults out.old) pen.old
        (K.written out.new) (K.faults out.new) pen.new }
{
    let count = pen.left.len();
    copy(out, pen, count);
}

/// Leaves one token out.
pub(crate) fn skip<'t, 'a>(pen: &mut Pen<'t, 'a>)
    ensures left { toks_of pen.new.left.now ≡ drop 1 (toks_of pen.old.left.now) }
    ensures specifiers { pen.new.specifiers.now ≡ pen.old.specifiers.now }
    ensures gap { pen.new.gap ≡ pen.old.gap }
    ensures fault { pen.new.fault ≡ pen.old.fault }
{
    match pen.left {
        [] => {}
        [_, later @ ..] => pen.left = later,
    }
}

// ---- the type words of a function

fn ends_item(token: &Token<'_>) -> bool
    ensures { result ≡ spec.ends_item (tok_of token.now) }
{
    is(token.text, b";") || is(token.text, b"}")
}

/// The tokens after the last end of an item.
fn last_item<'t, 'a>(tokens: &'t [Token<'a>]) -> &'t [Token<'a>]
    ensures { toks_of result.now ≡ spec.last_item (toks_of tokens.now) }
{
    let mut found = tokens;
    let mut left = tokens;
    while let [token, later @ ..] = left {
        if ends_item(token) {
            found = later;
        }
        left = later;
    }
    found
}

/// Notes the specifiers of the function whose name starts at a byte.
pub(crate) fn note<'t, 'a>(pen: &mut Pen<'t, 'a>, at: u32)
    ensures left { pen.new.left.now ≡ pen.old.left.now }
    ensures specifiers { toks_of pen.new.specifiers.now ≡ spec.last_item
        (take (spec.before at (toks_of pen.old.left.now)) (toks_of pen.old.left.now)) }
    ensures gap { pen.new.gap ≡ pen.old.gap }
    ensures fault { pen.new.fault ≡ pen.old.fault }
{
    let count = before(at, pen.left);
    pen.specifiers = last_item(front(pen.left, count));
}

fn is_left_out(text: &[u8]) -> bool
    ensures { result
        ≡ one_of (codes "static" ∷ codes "extern" ∷ codes "const" ∷ []) text.now }
{
    is(text, b"static") || is(text, b"extern") || is(text, b"const")
}

fn type_word<K: Sink>(out: &mut K, pen: &mut Pen<'_, '_>, token: &Token<'_>)
    ensures { Writes (spec.put (spec.type_words (tok_of token.now ∷ [])))
        (K.written out.old) (K.faults out.old) pen.old
        (K.written out.new) (K.faults out.new) pen.new }
{
    if !is_left_out(token.text) {
        word(out, pen, token.text);
    }
}

fn type_words<K: Sink>(out: &mut K, pen: &mut Pen<'_, '_>, tokens: &[Token<'_>])
    ensures { Writes (spec.put (spec.type_words (toks_of tokens.now)))
        (K.written out.old) (K.faults out.old) pen.old
        (K.written out.new) (K.faults out.new) pen.new }
{
    for token in tokens {
        type_word(out, pen, token);
    }
}

/// Inserts the words that say the type of the function whose body is written.
pub(crate) fn put_type<K: Sink>(out: &mut K, pen: &mut Pen<'_, '_>)
    ensures { Writes spec.put_type
        (K.written out.old) (K.faults out.old) pen.old
        (K.written out.new) (K.faults out.new) pen.new }
{
    let specifiers = pen.specifiers;
    type_words(out, pen, specifiers);
}
