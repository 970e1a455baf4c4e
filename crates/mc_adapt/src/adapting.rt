//! A text becomes a source of the language.
ghost use Rattle.std.specs.Prelude.{◌≡◌, ◌≤◌, ◌<◌, ◌^◌, ◌++◌, length, IfOk, OnOk};
ghost use Rattle.mc_adapt.specs.Adapted.{Adapts};
ghost use Rattle.mc_adapt.specs.Outside as outside;
ghost use Rattle.mc_adapt.specs.Seen.{marking_of, markings_of, seen_adapted};

use crate::adapted::Adapted;
use crate::fault::Fault;
use crate::mark::{Mark, Reason};
use crate::marking::{Marked, markings, state_at_end};
use crate::state::Around;
use crate::text::text_of;
use adapt_tokens::cut;
use std::alloc::{AllocError, Global};

/// Adds a piece that is outside the language.
fn push_fault<'a>(faults: &mut Vec<Fault<'a>>, marked: Marked<'a>) -> Result<(), AllocError>
    ensures { OnOk result (outside.refusals_of faults.new.items
        ≡ outside.refusals_of faults.old.items ++ outside.refused (marking_of marked.entry)) }
{
    match marked.mark {
        Mark::Stays | Mark::Goes => {}
        Mark::Outside(reason) => faults.push(Fault {
            at: marked.piece.start,
            reason,
            text: marked.piece.text,
        })?,
    }
    Ok(())
}

/// Adds an attribute or an assertion that the end of the text leaves open.
fn push_open<'a>(
    faults: &mut Vec<Fault<'a>>,
    around: Around,
    source: &'a [u8],
) -> Result<(), AllocError>
    requires { length source.now < 2 ^ 31 }
    ensures { OnOk result (outside.refusals_of faults.new.items
        ≡ outside.refusals_of faults.old.items ++ outside.open_at_end around (length source.now)) }
{
    match around {
        Around::Plain => {}
        _ => faults.push(Fault {
            at: source.len() as u32,
            reason: Reason::Bracket,
            text: &[],
        })?,
    }
    Ok(())
}

/// All that is outside the language.
fn faults_of<'a>(
    alloc: Global,
    source: &'a [u8],
    marked: &[Marked<'a>],
) -> Result<Vec<Fault<'a>>, AllocError>
    requires { length source.now < 2 ^ 31 }
    ensures { IfOk result (λ v. outside.refusals_of v.items
        ≡ outside.all_refusals (length source.now) (markings_of marked.now)) }
{
    let mut faults = Vec::new(alloc);
    let mut left = marked;
    while let [next, later @ ..] = left {
        push_fault(&mut faults, *next)?;
        left = later;
    }
    push_open(&mut faults, state_at_end(marked).around, source)?;
    Ok(faults)
}

/// Makes a source of the language from what `gcc -E` or `clang -E` gives: words that have no
/// meaning in the language become blanks, `NAME ()` with a body becomes `NAME (void)`, `#pragma` is
/// blank and `#line` a line marker. What stays stands on its line. Where something is outside the
/// language, all of it is named, and there is no text.
pub fn adapt<'a>(alloc: Global, source: &'a [u8]) -> Result<Adapted<'a>, AllocError>
    requires { length source.now < 2 ^ 31 }
    ensures { IfOk result (λ a. Adapts source.now (seen_adapted a)) }
{
    let pieces = cut(alloc, source)?;
    let marked = markings(alloc, &pieces)?;
    let faults = faults_of(alloc, source, &marked)?;
    if faults.is_empty() {
        Ok(Adapted::Text(text_of(alloc, &marked)?))
    } else {
        Ok(Adapted::Refused(faults))
    }
}
