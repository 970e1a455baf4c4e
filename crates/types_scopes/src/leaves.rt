//! Statements that stand alone.
ghost use Rattle.std.specs.Prelude.{◌≡◌, Some, IfOk, option_map};
ghost use Rattle.mc_typed.specs.Views.{statement_of};
ghost use Rattle.types_rules.specs.Statements as statements;
ghost use Rattle.types_scopes.specs.Statements.{statements_of};

use crate::found::Judged;
use crate::lists::list_of;
use mc_typed::Statement;
use std::alloc::{AllocError, Global};
use types_faults::Fault;

/// A list of one statement.
pub fn alone(alloc: Global, one: Statement) -> Result<Vec<Statement>, AllocError>
    ensures { IfOk result (λ r. statements_of r ≡ statements.alone (statement_of one)) }
{
    list_of(alloc, one)
}

/// A statement of its own, which has this fault.
pub fn leaf(
    alloc: Global,
    first: Option<Fault>,
    one: Statement,
) -> Result<Judged<Vec<Statement>>, AllocError>
    ensures fault { IfOk result (λ r. r.fault ≡ first) }
    ensures value { IfOk result (λ r.
        option_map statements_of r.value ≡ Some (statements.alone (statement_of one))) }
{
    let value = alone(alloc, one)?;
    Ok(Judged {
        fault: first,
        value: Some(value),
    })
}
