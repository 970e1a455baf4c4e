//! The lines of the conditions of a decision.
ghost use Rattle.std.specs.List.{concat};
ghost use Rattle.std.specs.Prelude.{◌≡◌, ℕ, ◌++◌, ◌∷◌, [], None, Some, slice_index_or, IfOk, OnOk};
ghost use Rattle.decide_rules.specs.Seen.{decision_of};
ghost use Rattle.mc_cond.specs.Tree.{tree_of};
ghost use Rattle.mc_probe.specs.Mapped.{mapped_of};
ghost use Rattle.needs_lines.specs.Conditions.{asked_vectors, condition_line, condition_lines, values_text};
ghost use Rattle.needs_lines.specs.Report.{IsOf};

use evidence_texts::{answer_byte, vector_of};
use mc_cond::Vector;
use mc_probe::MappedDecision;
use mc_span::Span;
use needed_paths::Need;
use source_excerpt::{bytes_at, one_line};
use std::alloc::{AllocError, Global};

/// The answer of condition `k`, where the vector has one.
fn answer_at(vector: &Vector, k: usize) -> Option<bool>
    ensures { result ≡ slice_index_or vector.now.answers k None }
{
    if k < vector.len() as usize {
        vector.answer(k as u32)
    } else {
        None
    }
}

/// Adds the value of condition `k` in a vector, after a blank.
fn push_value(line: &mut Vec<u8>, vector: &Vector, k: usize) -> Result<(), AllocError>
    ensures { OnOk result (line.new.items ≡ line.old.items ++ values_text (vector.now ∷ []) k) }
{
    line.push(b' ')?;
    line.push(answer_byte(answer_at(vector, k)))?;
    Ok(())
}

/// Adds the values of condition `k`.
fn push_values(line: &mut Vec<u8>, vectors: &[Vector], k: usize) -> Result<(), AllocError>
    ensures { OnOk result (line.new.items ≡ line.old.items ++ values_text vectors.now k) }
{
    let mut left = vectors;
    while let [vector, later @ ..] = left {
        push_value(line, vector, k)?;
        left = later;
    }
    Ok(())
}

/// Adds the line of condition `k`.
fn push_condition(
    alloc: Global,
    text: &mut Vec<u8>,
    source: &[u8],
    vectors: &[Vector],
    k: usize,
    span: Span,
) -> Result<(), AllocError>
    ensures { OnOk result
        (text.new.items ≡ text.old.items ++ condition_line source.now vectors.now k span) }
{
    let shown = one_line(alloc, bytes_at(source, span))?;
    text.push(b' ')?;
    push_values(text, vectors, k)?;
    text.push(b' ')?;
    text.extend_from_slice(&shown)?;
    text.push(b'\n')?;
    Ok(())
}

/// Adds a line for each condition.
fn push_all(
    alloc: Global,
    text: &mut Vec<u8>,
    source: &[u8],
    vectors: &[Vector],
    spans: &[Span],
) -> Result<(), AllocError>
    ensures { OnOk result (text.new.items ≡ text.old.items
        ++ concat (condition_lines source.now vectors.now 0 spans.now)) }
{
    let mut k = 0;
    let mut left = spans;
    while let [span, later @ ..] = left {
        push_condition(alloc, text, source, vectors, k, *span)?;
        k += 1;
        left = later;
    }
    Ok(())
}

/// The vectors that are asked for: one, or two.
fn asked_vectors(
    alloc: Global,
    mapped: &MappedDecision,
    need: Need,
) -> Result<Vec<Vector>, AllocError>
    requires { (tests : ℕ) × IsOf tests (Some (mapped_of mapped.now)) (Some need) }
    ensures { IfOk result (λ v.
        v.items ≡ asked_vectors (tree_of mapped.now.decision.tree) need) }
{
    let mut vectors = Vec::new(alloc);
    match need {
        Need::Vector { path } | Need::Beside { path, .. } => {
            vectors.push(vector_of(mapped, path))?;
        }
        Need::Both { first, second } => {
            vectors.push(vector_of(mapped, first))?;
            vectors.push(vector_of(mapped, second))?;
        }
    }
    Ok(vectors)
}

/// Adds a line for each condition of the decision, with the values that the need asks of it.
pub(crate) fn push_conditions(
    alloc: Global,
    text: &mut Vec<u8>,
    source: &[u8],
    mapped: &MappedDecision,
    need: Need,
) -> Result<(), AllocError>
    requires { (tests : ℕ) × IsOf tests (Some (mapped_of mapped.now)) (Some need) }
    ensures { OnOk result (text.new.items ≡ text.old.items
        ++ (let d = decision_of mapped.now.decision in
        concat (condition_lines source.now (asked_vectors d.tree need) 0 d.conditions))) }
{
    let vectors = asked_vectors(alloc, mapped, need)?;
    push_all(alloc, text, source, &vectors, &mapped.decision.conditions)
}
