//! Vectors as text.
ghost use Rattle.std.specs.Prelude.{◌≡◌, ◌++◌, OnOk, map};
ghost use Rattle.evidence_texts.specs.Words.{answer_byte, truth_byte, vector_text};

use mc_cond::Vector;
use std::alloc::AllocError;

fn truth_byte(truth: bool) -> u8
    ensures { result ≡ truth_byte truth }
{
    if truth { b'T' } else { b'F' }
}

/// `T`, `F`, and `-` for a condition that was not evaluated. Takes no memory.
pub fn answer_byte(answer: Option<bool>) -> u8
    ensures { result ≡ answer_byte answer }
{
    match answer {
        Some(truth) => truth_byte(truth),
        None => b'-',
    }
}

fn push_answers(line: &mut Vec<u8>, vector: &Vector) -> Result<(), AllocError>
    ensures { OnOk result (line.new.items ≡ line.old.items ++ map answer_byte vector.now.answers) }
{
    for k in 0..vector.len() {
        line.push(answer_byte(vector.answer(k)))?;
    }
    Ok(())
}

/// Adds the answers and the outcome.
pub(crate) fn push_vector(line: &mut Vec<u8>, vector: &Vector) -> Result<(), AllocError>
    ensures { OnOk result (line.new.items ≡ line.old.items ++ vector_text vector.now) }
{
    push_answers(line, vector)?;
    line.push(b'=')?;
    line.push(truth_byte(vector.outcome()))?;
    Ok(())
}
