//! A text on one line.
ghost use Rattle.std.specs.Prelude.{◌≡◌, ◌++◌, ◌∷◌, ℕ, List, true, false, IfOk, OnOk};
ghost use Rattle.mc_lex.specs.Bytes.{is_white_space};
ghost use Rattle.source_excerpt.specs.Blanks.{on_one_line};
ghost use Rattle.source_excerpt.specs.steps.Modes.{text_rest};

use std::alloc::{AllocError, Global};

/// What stands before the next byte: nothing but white space, a byte of a word, or white space
/// after a word, which is not written yet.
#[derive(Clone, Copy)]
enum Before {
    Nothing,
    Word,
    Blank,
}

fn is_white_space(byte: u8) -> bool
    ensures { result ≡ is_white_space byte }
{
    byte == b' ' || (9 <= byte && byte <= 13)
}

/// What stands before the byte after white space.
fn after_white_space(before: Before) -> Before
    ensures { (byte : ℕ) (later : List ℕ) → is_white_space byte ≡ true →
        text_rest result later ≡ text_rest before (byte ∷ later) }
{
    match before {
        Before::Nothing => Before::Nothing,
        Before::Word | Before::Blank => Before::Blank,
    }
}

/// Writes a byte of a word, after a blank where one is due.
fn write(text: &mut Vec<u8>, before: Before, byte: u8) -> Result<(), AllocError>
    ensures { OnOk result ((later : List ℕ) → is_white_space byte ≡ false →
        text.new.items ++ text_rest Before.Word later
        ≡ text.old.items ++ text_rest before (byte ∷ later)) }
{
    match before {
        Before::Blank => text.push(b' ')?,
        Before::Nothing | Before::Word => {}
    }
    text.push(byte)?;
    Ok(())
}

/// What stands before the byte after this one. Writes what is no white space.
fn step(text: &mut Vec<u8>, before: Before, byte: u8) -> Result<Before, AllocError>
    ensures { IfOk result (λ next. (later : List ℕ) →
        text.new.items ++ text_rest next later
        ≡ text.old.items ++ text_rest before (byte ∷ later)) }
{
    if is_white_space(byte) {
        return Ok(after_white_space(before));
    }
    write(text, before, byte)?;
    Ok(Before::Word)
}

/// The text with one blank between each two words.
pub(crate) fn on_one_line(alloc: Global, bytes: &[u8]) -> Result<Vec<u8>, AllocError>
    ensures { IfOk result (λ text. text.items ≡ on_one_line bytes.now) }
{
    let mut text = Vec::new(alloc);
    let mut before = Before::Nothing;
    let mut left = bytes;
    while let [byte, later @ ..] = left {
        before = step(&mut text, before, *byte)?;
        left = later;
    }
    Ok(text)
}
