//! The lines of tests and of the vectors that they evaluate.
ghost use Rattle.std.specs.Prelude.{◌≡◌, ◌++◌, ◌∷◌, [], length, map, All, IfOk, OnOk};
ghost use Rattle.mc_meaning.specs.Seen.{told_of};
ghost use Rattle.mc_probe.specs.Mapped.{mapped_of};
ghost use Rattle.mc_report.specs.Seen.{bytes_of};
ghost use Rattle.mc_report.specs.VectorsText.{IsPresent, vector_line, vectors_lines};

use crate::test_lines::push_runs;
use evidence_texts::{push_name, push_path};
use mc_meaning::TestResult;
use mc_oblige::EvaluatedPath;
use mc_probe::MappedDecision;
use mc_typed::{Name, TestState};
use std::alloc::{AllocError, Global};

fn vector_line(
    alloc: Global,
    names: &[Name],
    decisions: &[MappedDecision],
    evaluated: EvaluatedPath,
) -> Result<Vec<u8>, AllocError>
    requires { IsPresent (length names.now) (map mapped_of decisions.now) evaluated }
    ensures { IfOk result (λ line.
        line.items ≡ vector_line names.now (map mapped_of decisions.now) evaluated) }
{
    let number = u64::from(evaluated.decision) + 1;
    let decision = format!(in alloc; "D{number}")?;
    let mut line = Vec::new(alloc);
    line.extend_from_slice(decision.as_bytes())?;
    push_path(&mut line, decisions, evaluated.decision, evaluated.path)?;
    push_name(&mut line, names, evaluated.test)?;
    line.push(b'\n')?;
    Ok(line)
}

fn push_vector_line(
    alloc: Global,
    lines: &mut Vec<Vec<u8>>,
    names: &[Name],
    decisions: &[MappedDecision],
    evaluated: EvaluatedPath,
) -> Result<(), AllocError>
    requires { IsPresent (length names.now) (map mapped_of decisions.now) evaluated }
    ensures { OnOk result (bytes_of lines.new.items ≡ bytes_of lines.old.items
        ++ vector_line names.now (map mapped_of decisions.now) evaluated ∷ []) }
{
    let line = vector_line(alloc, names, decisions, evaluated)?;
    lines.push(line)?;
    Ok(())
}

fn push_vector_lines(
    alloc: Global,
    lines: &mut Vec<Vec<u8>>,
    names: &[Name],
    decisions: &[MappedDecision],
    paths: &[EvaluatedPath],
) -> Result<(), AllocError>
    requires { All (IsPresent (length names.now) (map mapped_of decisions.now)) paths.now }
    ensures { OnOk result (bytes_of lines.new.items ≡ bytes_of lines.old.items
        ++ map (vector_line names.now (map mapped_of decisions.now)) paths.now) }
{
    for evaluated in paths {
        push_vector_line(alloc, lines, names, decisions, *evaluated)?;
    }
    Ok(())
}

/// A line for each test with its result, and then one for each evaluated path: its decision, its
/// vector, and the name of its test.
pub fn vectors_lines(
    alloc: Global,
    names: &[Name],
    states: &[TestState],
    results: &[TestResult],
    decisions: &[MappedDecision],
    paths: &[EvaluatedPath],
) -> Result<Vec<Vec<u8>>, AllocError>
    requires states { length states.now ≡ length names.now }
    requires results { length results.now ≡ length names.now }
    requires paths { All (IsPresent (length names.now) (map mapped_of decisions.now)) paths.now }
    ensures { IfOk result (λ lines. bytes_of lines.items
        ≡ vectors_lines names.now states.now (map told_of results.now)
        (map mapped_of decisions.now) paths.now) }
{
    let mut lines = Vec::new(alloc);
    push_runs(alloc, &mut lines, names, states, results)?;
    push_vector_lines(alloc, &mut lines, names, decisions, paths)?;
    Ok(lines)
}
