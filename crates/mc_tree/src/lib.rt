//! Syntax trees of C, with names that are slices of the source.
#![tactic(auto)]

mod declarations;
mod expressions;
mod heights;
mod identifier;
mod statements;
mod units;

pub use declarations::array_length::ArrayLength;
pub use declarations::declaration::Declaration;
pub use declarations::declarator::Declarator;
pub use declarations::enumerator::Enumerator;
pub use declarations::init_declarator::InitDeclarator;
pub use declarations::initializer::Initializer;
pub use declarations::member::Member;
pub use declarations::parameter::Parameter;
pub use declarations::specifier::Specifier;
pub use declarations::specifier_word::SpecifierWord;
pub use expressions::assignment_operator::AssignmentOperator;
pub use expressions::binary_operator::BinaryOperator;
pub use expressions::expression::Expression;
pub use expressions::step_operator::StepOperator;
pub use expressions::unary_operator::UnaryOperator;
pub use heights::height;
pub use identifier::Identifier;
pub use mc_span::Span;
pub use statements::block_item::BlockItem;
pub use statements::for_start::ForStart;
pub use statements::statement::Statement;
pub use units::item::Item;
pub use units::unit::Unit;
