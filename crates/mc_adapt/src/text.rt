//! The text that is written.
ghost use Rattle.std.specs.Prelude.{◌≡◌, ◌≤◌, ◌++◌, length, IfOk, OnOk};
ghost use Rattle.std.specs.List.{prefix_len};
ghost use Rattle.mc_lex.specs.Bytes as sets;
ghost use Rattle.mc_adapt.specs.Texts as texts;
ghost use Rattle.mc_adapt.specs.Seen.{marking_of, markings_of};

use crate::mark::Mark;
use crate::marking::Marked;
use crate::void::{named_after, takes_void};
use adapt_tokens::Kind;
use std::alloc::{AllocError, Global};

fn is_digit(b: u8) -> bool
    ensures { result ≡ sets.is_digit b }
{
    b >= b'0' && b <= b'9'
}

/// Space, tab, LF, VT, FF or CR (C17 6.4, white space).
fn is_white_space(b: u8) -> bool
    ensures { result ≡ sets.is_white_space b }
{
    b == b' ' || (b >= 9 && b <= 13)
}

fn blank(b: u8) -> u8
    ensures { result ≡ texts.blank b }
{
    if is_white_space(b) { b } else { b' ' }
}

/// Adds a blank for each byte.
fn push_blanks(text: &mut Vec<u8>, bytes: &[u8]) -> Result<(), AllocError>
    ensures { OnOk result (text.new.items ≡ text.old.items ++ texts.blanks bytes.now) }
{
    let mut left = bytes;
    while let [byte, later @ ..] = left {
        text.push(blank(*byte))?;
        left = later;
    }
    Ok(())
}

/// How many bytes before the first digit stand at the start.
fn before_digits_len(bytes: &[u8]) -> usize
    ensures value { result ≡ prefix_len texts.no_digit bytes.now }
    ensures within { result ≤ length bytes.now }
{
    bytes.iter().take_while(|b| !is_digit(**b)).count()
}

/// Adds a `#line` as a line marker.
fn push_marker(text: &mut Vec<u8>, line: &[u8]) -> Result<(), AllocError>
    ensures { OnOk result (text.new.items ≡ text.old.items ++ texts.as_marker line.now) }
{
    match line {
        [] => Ok(()),
        [hash, rest @ ..] => {
            let (word, number) = rest.split_at(before_digits_len(rest));
            text.push(*hash)?;
            push_blanks(text, word)?;
            text.extend_from_slice(number)
        }
    }
}

/// Adds a piece that stays.
fn push_kept(text: &mut Vec<u8>, kind: Kind, bytes: &[u8]) -> Result<(), AllocError>
    ensures { OnOk result (text.new.items ≡ text.old.items ++ texts.kept kind bytes.now) }
{
    match kind {
        Kind::Pragma => push_blanks(text, bytes),
        Kind::Line => push_marker(text, bytes),
        _ => text.extend_from_slice(bytes),
    }
}

fn push_written(text: &mut Vec<u8>, marked: Marked<'_>) -> Result<(), AllocError>
    ensures { OnOk result (text.new.items
        ≡ text.old.items ++ texts.written (marking_of marked.entry)) }
{
    match marked.mark {
        Mark::Stays => push_kept(text, marked.piece.kind, marked.piece.text),
        Mark::Goes => push_blanks(text, marked.piece.text),
        Mark::Outside(_) => text.extend_from_slice(marked.piece.text),
    }
}

fn push_void(text: &mut Vec<u8>, wanted: bool) -> Result<(), AllocError>
    ensures { OnOk result (text.new.items ≡ text.old.items ++ texts.void_if wanted) }
{
    if wanted {
        text.extend_from_slice(b"void")
    } else {
        Ok(())
    }
}

/// The text of marked pieces.
pub(crate) fn text_of(alloc: Global, marked: &[Marked<'_>]) -> Result<Vec<u8>, AllocError>
    ensures { IfOk result (λ v. v.items ≡ texts.text_of (markings_of marked.now)) }
{
    let mut text = Vec::new(alloc);
    let mut named = false;
    let mut left = marked;
    while let [next, later @ ..] = left {
        push_written(&mut text, *next)?;
        push_void(&mut text, takes_void(named, *next, later))?;
        named = named_after(named, *next);
        left = later;
    }
    Ok(text)
}
