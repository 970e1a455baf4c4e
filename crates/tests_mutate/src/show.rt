//! Changes and mutants as text.
ghost use Rattle.std.specs.Prelude.{◌≤◌};
ghost use Rattle.mc_typed.specs.Views.{program_of};
ghost use Rattle.mc_mutate.specs.Mutants.{count};

use crate::statements::show_program;
use mc_decide::Decision;
use mc_mutate::{Change, MutantKind, change, count_mutants, mutant};
use mc_typed::Program;
use std::alloc::{AllocError, Global};

/// What of the mutants of a source is asked for.
#[derive(Clone, Copy)]
pub enum Asked {
    /// What each of them changes.
    Changes,
    /// The program and each of them.
    Programs,
}

fn letter(kind: MutantKind) -> &'static str {
    match kind {
        MutantKind::Exchanged => "E",
        MutantKind::Negated => "N",
        MutantKind::FixedTrue => "T",
        MutantKind::FixedFalse => "F",
        MutantKind::Shifted => "S",
    }
}

fn show_change(shown: &mut String, change: Change) -> Result<(), AllocError> {
    let kind = letter(change.kind);
    let at = change.at;
    write!(shown, "{kind}{at};")
}

/// For each mutant in order its kind and the byte at which the change begins.
#[tactic(auto, unfolding(mc_typed::specs::Levels::limited))]
fn show_changes(
    shown: &mut String,
    decisions: &[Decision],
    program: &Program<'_>,
) -> Result<(), AllocError> {
    let count = count_mutants(decisions, program);
    for number in 1..=count {
        show_change(shown, change(decisions, program, number))?;
    }
    Ok(())
}

fn show_mutant(
    alloc: Global,
    shown: &mut String,
    decisions: &[Decision],
    program: &Program<'_>,
    number: u32,
) -> Result<(), AllocError>
    requires first { 1 ≤ number }
    requires last { number ≤ count (program_of program.now) }
{
    shown.push_str("\n")?;
    let changed = mutant(alloc, program, decisions, number)?;
    let told = show_program(shown, &changed);
    drop(changed);
    told
}

/// The program, and each mutant in order, a line each.
#[tactic(auto, unfolding(mc_typed::specs::Levels::limited))]
fn show_programs(
    alloc: Global,
    shown: &mut String,
    decisions: &[Decision],
    program: &Program<'_>,
) -> Result<(), AllocError> {
    show_program(shown, program)?;
    let count = count_mutants(decisions, program);
    for number in 1..=count {
        show_mutant(alloc, shown, decisions, program, number)?;
    }
    Ok(())
}

/// What is asked for.
pub fn show_mutants(
    alloc: Global,
    shown: &mut String,
    asked: Asked,
    decisions: &[Decision],
    program: &Program<'_>,
) -> Result<(), AllocError> {
    match asked {
        Asked::Changes => show_changes(shown, decisions, program),
        Asked::Programs => show_programs(alloc, shown, decisions, program),
    }
}
