//! A text without its comments.
ghost use Rattle.std.specs.Prelude.{◌≡◌, ◌++◌, ◌∷◌, [], ℕ, List, IfOk, OnOk};
ghost use Rattle.source_excerpt.specs.Comments.{without_comments};
ghost use Rattle.source_excerpt.specs.steps.Modes.{code_rest};

use std::alloc::{AllocError, Global};

/// What stands before the next byte.
#[derive(Clone, Copy)]
enum Mode {
    Code,
    /// A `/` of code, which is not written yet.
    Slash,
    Comment,
    /// A `*` in a comment.
    Star,
    /// `//`, and what stands after it.
    Line,
}

/// What stands before the byte after this one. Writes what is no comment.
fn step(text: &mut Vec<u8>, mode: Mode, byte: u8) -> Result<Mode, AllocError>
    ensures { IfOk result (λ next. (later : List ℕ) →
        text.new.items ++ code_rest next later ≡ text.old.items ++ code_rest mode (byte ∷ later)) }
{
    match mode {
        Mode::Code => in_code(text, byte),
        Mode::Slash => after_slash(text, byte),
        Mode::Comment => Ok(in_comment(byte)),
        Mode::Star => Ok(after_star(byte)),
        Mode::Line => in_line(text, byte),
    }
}

fn in_code(text: &mut Vec<u8>, byte: u8) -> Result<Mode, AllocError>
    ensures { IfOk result (λ next. (later : List ℕ) →
        text.new.items ++ code_rest next later
        ≡ text.old.items ++ code_rest Mode.Code (byte ∷ later)) }
{
    if byte == b'/' {
        return Ok(Mode::Slash);
    }
    text.push(byte)?;
    Ok(Mode::Code)
}

fn after_slash(text: &mut Vec<u8>, byte: u8) -> Result<Mode, AllocError>
    ensures { IfOk result (λ next. (later : List ℕ) →
        text.new.items ++ code_rest next later
        ≡ text.old.items ++ code_rest Mode.Slash (byte ∷ later)) }
{
    if byte == b'*' {
        text.push(b' ')?;
        return Ok(Mode::Comment);
    }
    if byte == b'/' {
        text.push(b' ')?;
        return Ok(Mode::Line);
    }
    text.push(b'/')?;
    text.push(byte)?;
    Ok(Mode::Code)
}

fn in_comment(byte: u8) -> Mode
    ensures { (later : List ℕ) → code_rest result later ≡ code_rest Mode.Comment (byte ∷ later) }
{
    if byte == b'*' {
        Mode::Star
    } else {
        Mode::Comment
    }
}

fn after_star(byte: u8) -> Mode
    ensures { (later : List ℕ) → code_rest result later ≡ code_rest Mode.Star (byte ∷ later) }
{
    if byte == b'/' {
        Mode::Code
    } else if byte == b'*' {
        Mode::Star
    } else {
        Mode::Comment
    }
}

fn in_line(text: &mut Vec<u8>, byte: u8) -> Result<Mode, AllocError>
    ensures { IfOk result (λ next. (later : List ℕ) →
        text.new.items ++ code_rest next later
        ≡ text.old.items ++ code_rest Mode.Line (byte ∷ later)) }
{
    if byte != b'\n' {
        return Ok(Mode::Line);
    }
    text.push(byte)?;
    Ok(Mode::Code)
}

/// Writes what was not written yet.
fn finish(text: &mut Vec<u8>, mode: Mode) -> Result<(), AllocError>
    ensures { OnOk result (text.new.items ≡ text.old.items ++ code_rest mode []) }
{
    match mode {
        Mode::Slash => text.push(b'/')?,
        Mode::Code | Mode::Comment | Mode::Star | Mode::Line => {}
    }
    Ok(())
}

/// The text with a blank in place of each comment.
pub(crate) fn without_comments(alloc: Global, bytes: &[u8]) -> Result<Vec<u8>, AllocError>
    ensures { IfOk result (λ text. text.items ≡ without_comments bytes.now) }
{
    let mut text = Vec::new(alloc);
    let mut mode = Mode::Code;
    let mut left = bytes;
    while let [byte, later @ ..] = left {
        mode = step(&mut text, mode, *byte)?;
        left = later;
    }
    finish(&mut text, mode)?;
    Ok(text)
}
