//! Statements, labels of `switch` and local declarations (C17 6.8).
ghost use Rattle.std.specs.Prelude.{◌≡◌, ◌++◌, drop, map, IfOk};
ghost use Rattle.mc_probe.specs.Views as view;
ghost use Rattle.mc_interp.specs.Views.{statement_of};

use super::controls::{Test, test_from, test_if_any};
use super::steps::{Step, step_from, steps_from};
use mc_span::Span;
use mc_typed::{Declarator, Expression, ForStart, Mark, ReturnValue, Statement};
use std::alloc::{AllocError, Global};

/// A statement with its parts as they run. The names are those of the tree.
pub(crate) enum Prepared<'p> {
    Compound {
        items: Vec<Prepared<'p>>,
        span: Span,
    },
    Label {
        value: Option<i128>,
        span: Span,
        mark: Option<Mark>,
    },
    Declaration {
        declarators: &'p [Declarator],
        span: Span,
        bit: Option<u32>,
    },
    Null {
        span: Span,
        bit: Option<u32>,
    },
    Effect {
        step: Step<'p>,
        span: Span,
        bit: Option<u32>,
    },
    If {
        test: Test<'p>,
        chosen: Box<Prepared<'p>>,
        keyword: Span,
        span: Span,
        bit: Option<u32>,
    },
    IfElse {
        test: Test<'p>,
        chosen: Box<Prepared<'p>>,
        other: Box<Prepared<'p>>,
        keyword: Span,
        span: Span,
        bit: Option<u32>,
    },
    Switch {
        value: &'p Expression,
        items: Vec<Prepared<'p>>,
        keyword: Span,
        span: Span,
        bit: Option<u32>,
        absent: Option<Mark>,
    },
    For {
        start: &'p ForStart,
        test: Option<Test<'p>>,
        step: Vec<Step<'p>>,
        body: Box<Prepared<'p>>,
        keyword: Span,
        span: Span,
        bit: Option<u32>,
    },
    DoWhile {
        body: Box<Prepared<'p>>,
        test: Test<'p>,
        keyword: Span,
        span: Span,
        bit: Option<u32>,
    },
    Break {
        span: Span,
        bit: Option<u32>,
    },
    Continue {
        span: Span,
        bit: Option<u32>,
    },
    Return {
        value: &'p ReturnValue,
        span: Span,
        bit: Option<u32>,
        exit: Option<u32>,
    },
}

// Not derived: a derived one would be proved again wherever a body is let go.
impl<'p> Drop for Prepared<'p> {
    fn drop(self) {
        match self {
            Prepared::Compound { items: _, span: _ }
            | Prepared::Label {
                value: _,
                span: _,
                mark: _,
            }
            | Prepared::Declaration {
                declarators: _,
                span: _,
                bit: _,
            }
            | Prepared::Null { span: _, bit: _ }
            | Prepared::Effect {
                step: _,
                span: _,
                bit: _,
            }
            | Prepared::If {
                test: _,
                chosen: _,
                keyword: _,
                span: _,
                bit: _,
            }
            | Prepared::IfElse {
                test: _,
                chosen: _,
                other: _,
                keyword: _,
                span: _,
                bit: _,
            }
            | Prepared::Switch {
                value: _,
                items: _,
                keyword: _,
                span: _,
                bit: _,
                absent: _,
            }
            | Prepared::For {
                start: _,
                test: _,
                step: _,
                body: _,
                keyword: _,
                span: _,
                bit: _,
            }
            | Prepared::DoWhile {
                body: _,
                test: _,
                keyword: _,
                span: _,
                bit: _,
            }
            | Prepared::Break { span: _, bit: _ }
            | Prepared::Continue { span: _, bit: _ }
            | Prepared::Return {
                value: _,
                span: _,
                bit: _,
                exit: _,
            } => {}
        }
    }
}

/// The prepared statement that a tree is.
#[cycle(statements)]
fn prepare<'p>(alloc: Global, tree: &'p Statement) -> Result<Prepared<'p>, AllocError>
    ensures { IfOk result (λ made. statement_of made ≡ view.statement_of tree.now) }
{
    match tree {
        Statement::Compound { items, span } => Ok(Prepared::Compound {
            items: prepare_all(alloc, items)?,
            span: *span,
        }),
        Statement::Label { value, span, mark } => Ok(Prepared::Label {
            value: *value,
            span: *span,
            mark: *mark,
        }),
        Statement::Declaration {
            declarators,
            span,
            bit,
        } => Ok(Prepared::Declaration {
            declarators,
            span: *span,
            bit: *bit,
        }),
        Statement::Null { span, bit } => Ok(Prepared::Null {
            span: *span,
            bit: *bit,
        }),
        Statement::Effect { effect, span, bit } => Ok(Prepared::Effect {
            step: step_from(effect),
            span: *span,
            bit: *bit,
        }),
        Statement::If {
            test,
            chosen,
            keyword,
            span,
            bit,
        } => {
            let asked = test_from(alloc, test)?;
            let taken = boxed(alloc, chosen)?;
            Ok(Prepared::If {
                test: asked,
                chosen: taken,
                keyword: *keyword,
                span: *span,
                bit: *bit,
            })
        }
        Statement::IfElse {
            test,
            chosen,
            other,
            keyword,
            span,
            bit,
        } => {
            let asked = test_from(alloc, test)?;
            let taken = boxed(alloc, chosen)?;
            let left = boxed(alloc, other)?;
            Ok(Prepared::IfElse {
                test: asked,
                chosen: taken,
                other: left,
                keyword: *keyword,
                span: *span,
                bit: *bit,
            })
        }
        Statement::Switch {
            value,
            items,
            keyword,
            span,
            bit,
            absent,
        } => Ok(Prepared::Switch {
            value,
            items: prepare_all(alloc, items)?,
            keyword: *keyword,
            span: *span,
            bit: *bit,
            absent: *absent,
        }),
        Statement::For {
            start,
            test,
            step,
            body,
            keyword,
            span,
            bit,
        } => {
            let asked = test_if_any(alloc, test)?;
            let steps = steps_from(alloc, step)?;
            let repeated = boxed(alloc, body)?;
            Ok(Prepared::For {
                start,
                test: asked,
                step: steps,
                body: repeated,
                keyword: *keyword,
                span: *span,
                bit: *bit,
            })
        }
        Statement::DoWhile {
            body,
            test,
            keyword,
            span,
            bit,
        } => {
            let repeated = boxed(alloc, body)?;
            let asked = test_from(alloc, test)?;
            Ok(Prepared::DoWhile {
                body: repeated,
                test: asked,
                keyword: *keyword,
                span: *span,
                bit: *bit,
            })
        }
        Statement::Break { span, bit } => Ok(Prepared::Break {
            span: *span,
            bit: *bit,
        }),
        Statement::Continue { span, bit } => Ok(Prepared::Continue {
            span: *span,
            bit: *bit,
        }),
        Statement::Return {
            value,
            span,
            bit,
            exit,
        } => Ok(Prepared::Return {
            value,
            span: *span,
            bit: *bit,
            exit: *exit,
        }),
    }
}

/// The same on the heap. What is boxed passes through this function alone: a function clears all
/// its values as it begins, and that would be much of the time that `prepare` takes.
#[cycle(statements)]
#[inline(never)]
fn boxed<'p>(alloc: Global, tree: &'p Statement) -> Result<Box<Prepared<'p>>, AllocError>
    ensures { IfOk result (λ made. statement_of made.value ≡ view.statement_of tree.now) }
{
    let made = prepare(alloc, tree)?;
    let made = Box::new(alloc, made)?;
    Ok(made)
}

/// The items of a body.
#[cycle(statements)]
pub(crate) fn prepare_all<'p>(
    alloc: Global,
    trees: &'p [Statement],
) -> Result<Vec<Prepared<'p>>, AllocError>
    ensures { IfOk result (λ made.
        map statement_of made.items ≡ map view.statement_of trees.now) }
{
    let mut made = Vec::with_capacity(alloc, trees.len())?;
    for tree in trees {
        made.push(prepare(alloc, tree)?)?;
    }
    Ok(made)
}
