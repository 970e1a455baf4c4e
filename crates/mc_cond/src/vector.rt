//! Vectors: evaluations of a decision.

ghost use Rattle.std.specs.Prelude.{◌≡◌, ◌<◌, ◌≤◌, length, slice_get, Some};

use crate::answers::Answers;
use std::marker::Model;

/// An evaluation of a decision: for each of its conditions true, false or not evaluated, and the
/// outcome.
#[derive(Drop)]
pub struct Vector {
    answers: Answers,
    outcome: bool,
}

impl Model for Vector {
    ghost use Rattle.mc_cond.specs.Vectors.{Evaluation};

    ghost Value = { Evaluation };

    ghost view = { λ v. record { answers = v.answers; outcome = v.outcome } };
}

impl Vector {
    /// The evaluation with these answers and this outcome.
    pub fn new(answers: Answers, outcome: bool) -> Self
        ensures { result ≡ record { answers = answers; outcome = outcome } }
    {
        Vector { answers, outcome }
    }

    /// How many conditions the decision has.
    pub fn len(&self) -> u32
        ensures count { result ≡ length self.now.answers }
        ensures few { result ≤ 64 }
    {
        self.answers.len() as u32
    }

    /// Whether condition `k` was true, or `None` where it was not evaluated.
    pub fn answer(&self, k: u32) -> Option<bool>
        requires { k < length self.now.answers }
        ensures { slice_get self.now.answers k ≡ Some result }
    {
        self.answers.get(k as usize)
    }

    /// The decision's outcome.
    pub fn outcome(&self) -> bool
        ensures { result ≡ self.now.outcome }
    {
        self.outcome
    }
}
