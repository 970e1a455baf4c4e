//! The controlling expressions of `if` statements and loops (C17 6.8.4.1, 6.8.5).
ghost use Rattle.std.specs.Prelude.{◌≡◌, IfOk, option_map};
ghost use Rattle.mc_probe.specs.Views.{expression_of};
ghost use Rattle.mc_interp.specs.Views.{test_of};

use super::questions::{Question, question_from};
use mc_typed::{Expression, Probe};
use std::alloc::{AllocError, Global};

/// A controlling expression: a decision with its register, the bit of its first path and what it
/// asks, or any other expression, which is walked.
pub(crate) enum Test<'p> {
    Asked {
        register: u32,
        base: u32,
        question: Box<Question>,
    },
    Walked {
        tree: &'p Expression,
    },
}

// Not derived: a derived one would be proved again wherever a test is let go.
impl<'p> Drop for Test<'p> {
    fn drop(self) {
        match self {
            Test::Asked {
                register: _,
                base: _,
                question: _,
            }
            | Test::Walked { tree: _ } => {}
        }
    }
}

/// The test that a controlling expression is.
pub(crate) fn test_from<'p>(alloc: Global, tree: &'p Expression) -> Result<Test<'p>, AllocError>
    ensures { IfOk result (λ made. test_of made ≡ expression_of tree.now) }
{
    match tree {
        Expression::Probe {
            probe: Probe::Decision { register, base },
            operand,
        } => match question_from(alloc, operand)? {
            Some(asked) => Ok(Test::Asked {
                register: *register,
                base: *base,
                question: Box::new(alloc, asked)?,
            }),
            None => Ok(Test::Walked { tree }),
        },
        _ => Ok(Test::Walked { tree }),
    }
}

/// The test of a `for`, where it has one.
pub(crate) fn test_if_any<'p>(
    alloc: Global,
    tree: &'p Option<Expression>,
) -> Result<Option<Test<'p>>, AllocError>
    ensures { IfOk result (λ made. option_map test_of made ≡ option_map expression_of tree.now) }
{
    match tree {
        Some(e) => Ok(Some(test_from(alloc, e)?)),
        None => Ok(None),
    }
}
