//! Jump statements (C17 6.8.6).
ghost use Rattle.std.specs.Prelude.{◌≡◌, IfOk, option_map};
ghost use Rattle.mc_typed.specs.Tree as typed;
ghost use Rattle.types_faults.specs.Faults.{least_of};
ghost use Rattle.types_rules.specs.Scopes as scopes;
ghost use Rattle.types_rules.specs.Statements as statements;
ghost use Rattle.types_scopes.specs.Types.{base_of};
ghost use Rattle.types_scopes.specs.Found.{judged_of};
ghost use Rattle.types_scopes.specs.Statements.{statements_of, around_of};
ghost use Rattle.types_scopes.specs.steps.Squeezed.{squeezed_part};

use mc_typed::{ReturnValue, Span, Statement};
use std::alloc::{AllocError, Global};
use types_faults::{Fault, FaultKind, or_fault};
use types_scopes::Base;
use types_scopes::around::Around;
use types_scopes::found::Judged;
use types_scopes::leaves::leaf;

/// A `break`.
pub fn break_statement(
    alloc: Global,
    around: Around,
    span: Span,
) -> Result<Judged<Vec<Statement>>, AllocError>
    ensures { IfOk result (λ r. (s : scopes.Scope) → judged_of statements_of r s
        ≡ squeezed_part (statements.break_judged (around_of around) span s)) }
{
    let fault = or_fault(None, !around.breaks, FaultKind::Mismatch, span.start);
    leaf(alloc, fault, Statement::Break { span, bit: None })
}

/// A `continue`.
pub fn continue_statement(
    alloc: Global,
    around: Around,
    span: Span,
) -> Result<Judged<Vec<Statement>>, AllocError>
    ensures { IfOk result (λ r. (s : scopes.Scope) → judged_of statements_of r s
        ≡ squeezed_part (statements.continue_judged (around_of around) span s)) }
{
    let fault = or_fault(None, !around.continues, FaultKind::Mismatch, span.start);
    leaf(alloc, fault, Statement::Continue { span, bit: None })
}

fn return_nothing_fault(gives: Option<Base>, at: u32) -> Option<Fault>
    ensures { result ≡ least_of (statements.return_nothing_faults (option_map base_of gives) at) }
{
    match gives {
        None => None,
        Some(Base::Void) => None,
        Some(_) => Some(Fault {
            kind: FaultKind::Mismatch,
            at,
        }),
    }
}

/// A `return` without an expression, in a function that gives this.
pub fn return_nothing(
    alloc: Global,
    gives: Option<Base>,
    span: Span,
) -> Result<Judged<Vec<Statement>>, AllocError>
    ensures { IfOk result (λ r. (s : scopes.Scope) → judged_of statements_of r s
        ≡ squeezed_part (statements.return_nothing_judged (option_map base_of gives) span s)) }
{
    let fault = return_nothing_fault(gives, span.start);
    leaf(
        alloc,
        fault,
        Statement::Return {
            value: ReturnValue::Nothing,
            span,
            bit: None,
            exit: None,
        },
    )
}
