//! Lists of typed statements.
ghost use Rattle.std.specs.Prelude.{◌≡◌, Some, IfOk, option_map, option_and_then};
ghost use Rattle.mc_typed.specs.Views.{statement_of};
ghost use Rattle.types_rules.specs.Scopes as scopes;
ghost use Rattle.types_rules.specs.Statements as statements;
ghost use Rattle.types_scopes.specs.Found.{judged_of};
ghost use Rattle.types_scopes.specs.Statements.{statements_of};
ghost use Rattle.types_scopes.specs.steps.Squeezed.{squeezed_part};
ghost use Rattle.types_statements.specs.Lists.{boxed_of};

use crate::values;
use crate::values::only;
use mc_typed::{Span, Statement};
use std::alloc::{AllocError, Global};
use types_scopes::found::Judged;
use types_scopes::leaves::alone;
use types_scopes::lists::joined_lists;

/// The statement that stands alone, where there is one.
#[tactic(auto, using(crate::proofs::Lists::only_statement))]
pub(crate) fn only_in(list: Option<Vec<Statement>>) -> Option<Statement>
    ensures { option_map statement_of result
        ≡ option_and_then statements.only (option_map statements_of list) }
{
    match list {
        Some(list) => only(list),
        None => None,
    }
}

/// The same, in a box.
pub(crate) fn only_boxed(
    alloc: Global,
    list: Option<Vec<Statement>>,
) -> Result<Option<Box<Statement>>, AllocError>
    ensures { IfOk result (λ r. option_map boxed_of r
        ≡ option_and_then statements.only (option_map statements_of list)) }
{
    match list {
        Some(list) => values::only_boxed(alloc, list),
        None => Ok(None),
    }
}

/// Statements, and more after them.
pub fn followed(
    list: Judged<Vec<Statement>>,
    more: Judged<Vec<Statement>>,
) -> Result<Judged<Vec<Statement>>, AllocError>
    ensures { IfOk result (λ r. (s : scopes.Scope) → judged_of statements_of r s
        ≡ squeezed_part (statements.followed_judged
        (judged_of statements_of list s) (judged_of statements_of more s))) }
{
    joined_lists(list, more)
}

/// A list of one statement, which is known.
pub(crate) fn listed(alloc: Global, one: Statement) -> Result<Option<Vec<Statement>>, AllocError>
    ensures { IfOk result (λ r. option_map statements_of r
        ≡ Some (statements.alone (statement_of one))) }
{
    match alone(alloc, one) {
        Ok(list) => Ok(Some(list)),
        Err(error) => Err(error),
    }
}

/// The word with which a statement begins, of so many bytes. Takes no memory.
pub(crate) fn first_word(size: u32, span: Span) -> Span
    ensures { result ≡ statements.keyword size span }
{
    Span {
        start: span.start,
        end: span.start.saturating_add(size).min(span.end),
    }
}
