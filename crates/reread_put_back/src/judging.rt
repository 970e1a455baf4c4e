//! Where the first probe in the text with a fault starts.
ghost use Rattle.std.specs.Prelude.{◌≡◌, length, remove, IfOk};
ghost use Rattle.mc_typed.specs.Views.{program_of};
ghost use Rattle.reread_put_back.specs.Back as spec;
ghost use Rattle.reread_put_back.specs.steps.Strays as steps;

use crate::functions::all_functions;
use crate::pen::{Pen, first_of};
use mc_typed::Program;
use reread_pieces::Placed;
use std::alloc::{AllocError, Global};

/// A probe at no part of the program: which one it is of the probes, and where its word starts.
#[derive(Clone, Copy)]
pub(crate) struct Stray {
    pub at: usize,
    pub word: u32,
}

/// What the probes come to: the first at no part of the program, and where the first starts that
/// was put and has a fault.
#[derive(Clone, Copy)]
struct Tried {
    stray: Option<Stray>,
    fault: Option<u32>,
}

/// The first of these probes at no part of the program, where these are left.
fn first_stray(placed: &[Placed], left: &[Placed]) -> Option<Stray>
    ensures { result ≡ steps.stray_of placed.now left.now }
{
    let [probe, ..] = left else {
        return None;
    };
    Some(Stray {
        at: placed.len().saturating_sub(left.len()),
        word: probe.word,
    })
}

/// Puts the probes into a copy, and lets it go.
fn put_all(alloc: Global, program: &Program<'_>, placed: &[Placed]) -> Result<Tried, AllocError>
    ensures stray { IfOk result (λ t. t.stray ≡ steps.stray_of placed.now
        (spec.put_all (program_of program.now) placed.now).1.left) }
    ensures fault { IfOk result (λ t.
        t.fault ≡ (spec.put_all (program_of program.now) placed.now).1.fault) }
{
    let mut pen = Pen {
        left: placed,
        fault: None,
        bits: 0,
    };
    let copies = all_functions(alloc, &mut pen, program.functions())?;
    drop(copies);
    Ok(Tried {
        stray: first_stray(placed, pen.left),
        fault: pen.fault,
    })
}

fn remove_at(placed: &mut Vec<Placed>, at: usize)
    ensures { placed.new.items ≡ remove placed.old.items at }
{
    if at < placed.len() {
        placed.remove(at);
    }
}

/// The first in the text of two.
fn first_of_both(one: Option<u32>, other: Option<u32>) -> Option<u32>
    ensures { result ≡ steps.first_of_both one other }
{
    match one {
        Some(word) => first_of(word, other),
        None => other,
    }
}

/// The first fault of these probes: it takes away one after the other that stands at no part of the
/// program, so many at most.
fn faults(
    alloc: Global,
    program: &Program<'_>,
    placed: &mut Vec<Placed>,
    most: usize,
) -> Result<Option<u32>, AllocError>
    ensures { IfOk result (λ f.
        f ≡ spec.faults most (program_of program.now) placed.old.items) }
{
    let mut found = None;
    for _turn in 0..most {
        let tried = put_all(alloc, program, placed)?;
        let Some(stray) = tried.stray else {
            return Ok(first_of_both(found, tried.fault));
        };
        found = first_of(stray.word, found);
        remove_at(placed, stray.at);
    }
    Ok(found)
}

/// Where the word of the first probe with a fault starts, after a walk with all of them.
pub(crate) fn first_fault(
    alloc: Global,
    program: &Program<'_>,
    placed: &[Placed],
    pen: &Pen<'_>,
) -> Result<Option<u32>, AllocError>
    ensures { IfOk result (λ f. f ≡ steps.first_of_all (program_of program.now) placed.now
        pen.now.left.now pen.now.fault) }
{
    let Some(stray) = first_stray(placed, pen.left) else {
        return Ok(pen.fault);
    };
    let mut others = Vec::from_slice(alloc, placed)?;
    remove_at(&mut others, stray.at);
    let later = faults(alloc, program, &mut others, placed.len())?;
    Ok(first_of(stray.word, later))
}
