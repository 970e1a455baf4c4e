//! What is asked about, when it is asked what is needed, and the sums of that.
ghost use Rattle.std.specs.Prelude.{◌≡◌, ◌++◌, length, IfOk, OnOk};
ghost use Rattle.mc_functions.specs.Asked.{asked_in, is_asked, missing_line, missing_text, needs_sums};
ghost use Rattle.mc_functions.specs.Measured.{all_counts, elsewhere};
ghost use Rattle.mc_functions.specs.Seen.{bytes_of, measured_of};

use crate::lines::{push_others, status_line};
use crate::measured::{Measured, is_verdict};
use mc_oblige::{Obligation, Verdict, VerdictState};
use std::alloc::{AllocError, Global};

fn is_asked(measured: &Measured<'_>, obligation: &Obligation, verdict: &Verdict) -> bool
    ensures { result ≡ is_asked (measured_of measured.now) obligation.now verdict.now }
{
    measured.is_counted(obligation) && is_verdict(VerdictState::Missing, verdict.state)
}

/// For each obligation whether it is asked about: whether it is missing, and is one of those that
/// are counted.
pub fn asked(alloc: Global, measured: &Measured<'_>) -> Result<Vec<bool>, AllocError>
    requires { let m = measured_of measured.now in length m.verdicts ≡ length m.obligations }
    ensures { IfOk result (λ v. v.items ≡ asked_in (measured_of measured.now)) }
{
    let mut found = Vec::new(alloc);
    let mut obligations = measured.obligations;
    let mut verdicts = measured.verdicts;
    while let [obligation, later_obligations @ ..] = obligations {
        let [verdict, later_verdicts @ ..] = verdicts else {
            unreachable!();
        };
        found.push(is_asked(measured, obligation, verdict))?;
        obligations = later_obligations;
        verdicts = later_verdicts;
    }
    Ok(found)
}

/// Adds how many are missing, how many vectors are wanted, and how many are stale.
fn push_numbers(
    alloc: Global,
    line: &mut Vec<u8>,
    measured: &Measured<'_>,
    wanted: usize,
) -> Result<(), AllocError>
    requires { let m = measured_of measured.now in length m.verdicts ≡ length m.obligations }
    ensures { OnOk result (line.new.items ≡ line.old.items
        ++ missing_text (all_counts (measured_of measured.now)) wanted) }
{
    let counts = measured.all_counts();
    let missing = counts.missing;
    let stale = counts.stale;
    let text = format!(in alloc; "missing {missing} wanted {wanted} stale {stale}")?;
    line.extend_from_slice(text.as_bytes())
}

fn missing_line(
    alloc: Global,
    measured: &Measured<'_>,
    wanted: usize,
) -> Result<Vec<u8>, AllocError>
    requires { let m = measured_of measured.now in length m.verdicts ≡ length m.obligations }
    ensures { IfOk result (λ line. line.items ≡ missing_line (measured_of measured.now) wanted) }
{
    let mut line = Vec::new(alloc);
    push_numbers(alloc, &mut line, measured, wanted)?;
    push_others(alloc, &mut line, measured.file, measured.elsewhere())?;
    line.push(b'\n')?;
    Ok(line)
}

/// Adds the last two lines of what is needed: how many of the obligations that are counted are
/// missing, how many vectors are wanted and how many of the obligations are stale, with those of
/// other files; and the status.
pub fn push_needs_sums(
    alloc: Global,
    lines: &mut Vec<Vec<u8>>,
    measured: &Measured<'_>,
    wanted: usize,
) -> Result<(), AllocError>
    requires { let m = measured_of measured.now in length m.verdicts ≡ length m.obligations }
    ensures { OnOk result (bytes_of lines.new.items
        ≡ bytes_of lines.old.items ++ needs_sums (measured_of measured.now) wanted) }
{
    lines.push(missing_line(alloc, measured, wanted)?)?;
    lines.push(status_line(alloc, measured)?)?;
    Ok(())
}
