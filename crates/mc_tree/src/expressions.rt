//! Expressions and their operators (C17 6.5).
pub mod assignment_operator;
pub mod binary_operator;
pub mod expression;
pub mod step_operator;
pub mod unary_operator;
