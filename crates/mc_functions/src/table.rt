//! The counts of each function.
ghost use Rattle.std.specs.Prelude.{◌≡◌, ◌+◌, ◌<◌, ◌^◌, ℕ, length, slice_index_or, IfOk};
ghost use Rattle.mc_functions.specs.Counts.{of_kind, of_verdict};
ghost use Rattle.mc_functions.specs.Measured.{names_of};
ghost use Rattle.mc_functions.specs.Seen.{measured_of};
ghost use Rattle.mc_functions.specs.steps.Table.{AreEmpty, AreRows, added, no_row};

use crate::functions::function_of;
use crate::kind::Kind;
use crate::measured::Measured;
use crate::row::Row;
use mc_oblige::VerdictState;
use std::alloc::{AllocError, Global};

/// So many rows of no obligation.
fn empty(alloc: Global, count: usize) -> Result<Vec<Row>, AllocError>
    ensures { IfOk result (λ rows. AreEmpty count rows.items) }
{
    let mut rows = Vec::new(alloc);
    let mut left = count;
    while left > 0 {
        rows.push(Row::none())?;
        left -= 1;
    }
    Ok(rows)
}

/// Adds one obligation to a row.
fn add(rows: &mut Vec<Row>, function: usize, kind: Kind, state: VerdictState)
    requires { function < length rows.old.items → of_verdict state
        (of_kind kind (slice_index_or rows.old.items function no_row)) + 1 < 2 ^ 64 }
    ensures whole { length rows.new.items ≡ length rows.old.items }
    ensures each { (k : ℕ) → k < length rows.old.items → slice_index_or rows.new.items k no_row
        ≡ added function kind state k (slice_index_or rows.old.items k no_row) }
{
    if function < rows.len() {
        rows[function] = rows[function].with(kind, state);
    }
}

/// The counts of each function, by the places of their names.
pub(crate) fn table(
    alloc: Global,
    measured: &Measured<'_>,
    names: &[u32],
) -> Result<Vec<Row>, AllocError>
    requires same { let m = measured_of measured.now in length m.verdicts ≡ length m.obligations }
    requires names { names.now ≡ names_of (measured_of measured.now) }
    ensures { IfOk result (λ rows. AreRows (measured_of measured.now) rows.items) }
{
    let mut rows = empty(alloc, names.len())?;
    let mut obligations = measured.obligations;
    let mut verdicts = measured.verdicts;
    while let [obligation, later_obligations @ ..] = obligations {
        let [verdict, later_verdicts @ ..] = verdicts else {
            unreachable!();
        };
        if measured.is_counted(obligation) {
            let function = function_of(names, obligation.span.start);
            add(&mut rows, function, Kind::of(obligation.id), verdict.state);
        }
        obligations = later_obligations;
        verdicts = later_verdicts;
    }
    Ok(rows)
}
