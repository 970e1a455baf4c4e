//! Expressions, specifiers and the declarators in them: each function walks a tree of one kind, and
//! gives what is found of it. The scope becomes that after the tree.
//!
//! Where a part may fail after another was found, the found one is handed on with the part's result
//! (`steps`): an exit that lets it go here would make the proof of the walk twice as long.
ghost use Rattle.std.specs.Prelude.{◌≡◌, ℕ, IfOk, Some, false, pos, map, option_map};
ghost use Rattle.mc_tree.specs.Views.{name_of, expression_of, expressions_from, specifier_of, specifiers_from, member_of, members_from, enumerator_of, enumerators_from, declarator_of, declarators_from, array_length_of, lengths_from, parameter_of, parameters_from};
ghost use Rattle.mc_tree.specs.Tree as source_tree;
ghost use Rattle.types_rules.specs.Scopes as scopes;
ghost use Rattle.types_rules.specs.Judgement as judgement;
ghost use Rattle.types_scopes.specs.Types.{type_of, kind_of};
ghost use Rattle.types_scopes.specs.Listed.{listed_of};
ghost use Rattle.types_scopes.specs.Views.{scope_of};
ghost use Rattle.types_scopes.specs.Found.{found_of, judged_of};
ghost use Rattle.types_scopes.specs.Given.{arguments_of, given_of};
ghost use Rattle.types_declarations.specs.Declarations.{lengths_in, listed_members, listed_parameters, number_judged, squeezed_listed};
ghost use Rattle.types_scopes.specs.steps.Squeezed.{squeezed, squeezed_part};
ghost use Rattle.types_expressions.specs.steps.Gathered.{squeezed_given};
ghost use Rattle.mc_types.specs.Loops.{TakesLength};

use crate::leaves::{callee, character, named};
use crate::steps::{declarators as declared, expressions as steps};
use crate::unused;
use mc_tree::{
    ArrayLength, BinaryOperator, Declarator, Enumerator, Expression, Identifier, Member, Parameter,
    Specifier,
};
use mc_typed::{Argument, Span};
use std::alloc::{AllocError, Global};
use types_declarations::Parameters;
use types_faults::Fault;
use types_scopes::found::{Found, Given, Judged};
use types_scopes::{CType, Members, ParameterKind, Scope};

/// An expression (C17 6.5). Names, constants, parentheses and operators with two operands, which
/// most nodes are, are told apart first: a function clears all its values as it begins, and the one
/// for the others has many.
#[cycle(judge)]
pub(crate) fn expression<'a>(
    alloc: Global,
    scope: &mut Scope<'a>,
    tree: &Expression<'a>,
) -> Result<Found, AllocError>
    ensures { IfOk result (λ r. found_of r (scope_of scope.new)
        ≡ squeezed (judgement.judge (expression_of tree.now) (scope_of scope.old))) }
{
    match tree {
        Expression::Name { name } => named(scope, name),
        Expression::Constant {
            value,
            decimal,
            unsigned,
            longs,
            span,
        } => Ok(types_expressions::constant(*value, *decimal, *unsigned, *longs, *span)),
        Expression::Parenthesized { inner, .. } => expression(alloc, scope, inner),
        Expression::Binary {
            operator,
            left,
            right,
            span,
        } => {
            let first = expression(alloc, scope, left);
            binary(alloc, scope, right, *operator, first, *span)
        }
        Expression::Character { .. }
        | Expression::Call { .. }
        | Expression::Index { .. }
        | Expression::Member { .. }
        | Expression::PostfixStep { .. }
        | Expression::PrefixStep { .. }
        | Expression::Unary { .. }
        | Expression::Cast { .. }
        | Expression::Conditional { .. }
        | Expression::Assignment { .. }
        | Expression::Comma { .. } => any_expression(alloc, scope, tree),
    }
}

/// An expression of any kind.
#[cycle(judge)]
#[inline(never)]
fn any_expression<'a>(
    alloc: Global,
    scope: &mut Scope<'a>,
    tree: &Expression<'a>,
) -> Result<Found, AllocError>
    ensures { IfOk result (λ r. found_of r (scope_of scope.new)
        ≡ squeezed (judgement.judge (expression_of tree.now) (scope_of scope.old))) }
{
    match tree {
        Expression::Name { name } => named(scope, name),
        Expression::Constant {
            value,
            decimal,
            unsigned,
            longs,
            span,
        } => Ok(types_expressions::constant(*value, *decimal, *unsigned, *longs, *span)),
        Expression::Character { value, span } => Ok(character(value, *span)),
        Expression::Parenthesized { inner, .. } => expression(alloc, scope, inner),
        Expression::Call {
            name,
            arguments: given,
            span,
        } => call(alloc, scope, name, given, *span),
        Expression::Index { array, index, span } => {
            let array = expression(alloc, scope, array)?;
            let index = expression(alloc, scope, index);
            steps::index(alloc, scope, *span, array, index)
        }
        Expression::Member { object, name, span } => {
            let found = expression(alloc, scope, object);
            steps::member(alloc, scope, name, *span, found)
        }
        Expression::PostfixStep {
            operator,
            operand,
            span,
        } => {
            let found = expression(alloc, scope, operand);
            steps::postfix_step(alloc, *operator, *span, found)
        }
        Expression::PrefixStep {
            operator,
            operand,
            span,
        } => {
            let found = expression(alloc, scope, operand);
            steps::prefix_step(alloc, *operator, *span, found)
        }
        Expression::Unary {
            operator,
            operand,
            span,
        } => {
            let found = expression(alloc, scope, operand);
            steps::unary(alloc, *operator, *span, found)
        }
        Expression::Cast {
            specifiers: words,
            type_span,
            operand,
            span,
            ..
        } => {
            let of = typed(alloc, scope, type_span.start, false, words);
            cast(alloc, scope, operand, of, *span)
        }
        Expression::Binary {
            operator,
            left,
            right,
            span,
        } => {
            let first = expression(alloc, scope, left);
            binary(alloc, scope, right, *operator, first, *span)
        }
        Expression::Conditional {
            test,
            chosen,
            other,
            span,
        } => {
            let test = expression(alloc, scope, test)?;
            let chosen = expression(alloc, scope, chosen);
            conditional(alloc, scope, other, test, chosen, *span)
        }
        Expression::Assignment {
            operator,
            target,
            value,
            span,
        } => {
            let target = expression(alloc, scope, target)?;
            let value = expression(alloc, scope, value);
            steps::assignment(alloc, scope, *operator, *span, target, value)
        }
        Expression::Comma { operands, span } => {
            let given = arguments(alloc, scope, operands, &[]);
            steps::comma(*span, given)
        }
    }
}

/// The second operand of an operator with two, after the first (C17 6.5.5 to 6.5.14).
#[cycle(judge)]
#[inline(never)]
fn binary<'a>(
    alloc: Global,
    scope: &mut Scope<'a>,
    tree: &Expression<'a>,
    operator: BinaryOperator,
    first: Result<Found, AllocError>,
    span: Span,
) -> Result<Found, AllocError>
    ensures { (a : source_tree.Expression) (start : scopes.Scope)
        → IfOk first (λ y. found_of y (scope_of scope.old)
        ≡ squeezed (judgement.judge a start))
        → IfOk result (λ r. found_of r (scope_of scope.new)
        ≡ squeezed (judgement.judge (source_tree.Binary operator a (expression_of tree.now) span)
        start)) }
{
    match first {
        Ok(first) => {
            let second = expression(alloc, scope, tree);
            steps::binary(alloc, operator, span, first, second)
        }
        Err(error) => Err(error),
    }
}

/// The operand of a cast to this type (C17 6.5.4).
#[cycle(judge)]
#[inline(never)]
fn cast<'a>(
    alloc: Global,
    scope: &mut Scope<'a>,
    tree: &Expression<'a>,
    of: Result<Judged<CType>, AllocError>,
    span: Span,
) -> Result<Found, AllocError>
    ensures { (all : source_tree.Specifiers) (stars : ℕ) (name : Span) (start : scopes.Scope)
        → IfOk of (λ y. judged_of type_of y (scope_of scope.old) ≡ squeezed_part
        (judgement.typed_by name.start all (judgement.judge_specifiers false all start)))
        → IfOk result (λ r. found_of r (scope_of scope.new) ≡ squeezed (judgement.judge
        (source_tree.Cast (source_tree.type_name all stars name) (expression_of tree.now) span)
        start)) }
{
    match of {
        Ok(of) => {
            let found = expression(alloc, scope, tree);
            steps::cast(alloc, span, of, tree, found)
        }
        Err(error) => Err(error),
    }
}

/// The last operand of `?:`, after the first two (C17 6.5.15).
#[cycle(judge)]
#[inline(never)]
fn conditional<'a>(
    alloc: Global,
    scope: &mut Scope<'a>,
    tree: &Expression<'a>,
    test: Found,
    chosen: Result<Found, AllocError>,
    span: Span,
) -> Result<Found, AllocError>
    ensures { (a b : source_tree.Expression) (start next : scopes.Scope)
        → found_of test next ≡ squeezed (judgement.judge a start)
        → IfOk chosen (λ y. found_of y (scope_of scope.old) ≡ squeezed (judgement.judge b next))
        → IfOk result (λ r. found_of r (scope_of scope.new)
        ≡ squeezed (judgement.judge (source_tree.Conditional a b (expression_of tree.now) span)
        start)) }
{
    match chosen {
        Ok(chosen) => {
            let other = expression(alloc, scope, tree);
            steps::conditional(alloc, span, test, chosen, other)
        }
        Err(error) => {
            unused::found(test);
            Err(error)
        }
    }
}

/// A call (C17 6.5.2.2).
#[cycle(judge)]
#[inline(never)]
fn call<'a>(
    alloc: Global,
    scope: &mut Scope<'a>,
    name: &Identifier<'a>,
    trees: &[Expression<'a>],
    span: Span,
) -> Result<Found, AllocError>
    ensures { IfOk result (λ r. found_of r (scope_of scope.new)
        ≡ squeezed (judgement.judge (source_tree.Call (name_of name.now)
        (expressions_from (map expression_of trees.now)) span) (scope_of scope.old))) }
{
    let callee = callee(scope, name)?;
    let given = arguments(alloc, scope, trees, callee.parameters());
    steps::call(alloc, scope, name, trees.len(), span, callee, given)
}

/// Arguments, for these parameters.
#[cycle(judge)]
fn arguments<'a>(
    alloc: Global,
    scope: &mut Scope<'a>,
    trees: &[Expression<'a>],
    parameters: &[ParameterKind],
) -> Result<Given<Vec<Argument>>, AllocError>
    ensures { IfOk result (λ r. given_of arguments_of r (scope_of scope.new)
        ≡ squeezed_given (judgement.judge_arguments (expressions_from (map expression_of trees.now))
        (map kind_of parameters.now) (scope_of scope.old))) }
{
    let mut given = types_expressions::none_given(alloc);
    let mut left = parameters;
    for tree in trees {
        let found = expression(alloc, scope, tree);
        given = steps::argument(
            alloc,
            scope,
            given,
            types_expressions::first_of(left),
            tree,
            found,
        )?;
        left = types_expressions::rest_of(left);
    }
    Ok(types_expressions::given_for(given, left))
}

/// The type of specifiers that stand at `at` (C17 6.7, 6.7.7).
#[cycle(judge)]
pub(crate) fn typed<'a>(
    alloc: Global,
    scope: &mut Scope<'a>,
    at: u32,
    alone: bool,
    trees: &[Specifier<'a>],
) -> Result<Judged<CType>, AllocError>
    ensures { let all = specifiers_from (map specifier_of trees.now) in
        IfOk result (λ r. judged_of type_of r (scope_of scope.new)
        ≡ squeezed_part (judgement.typed_by at all
        (judgement.judge_specifiers alone all (scope_of scope.old)))) }
{
    let found = specifiers(alloc, scope, alone, trees)?;
    Ok(types_declarations::typed_by(alloc, at, trees, found))
}

/// The type of the specifiers that are no words (C17 6.7.2).
#[cycle(judge)]
fn specifiers<'a>(
    alloc: Global,
    scope: &mut Scope<'a>,
    alone: bool,
    trees: &[Specifier<'a>],
) -> Result<Judged<CType>, AllocError>
    ensures { IfOk result (λ r. judged_of type_of r (scope_of scope.new)
        ≡ squeezed_part (judgement.judge_specifiers alone
        (specifiers_from (map specifier_of trees.now))
        (scope_of scope.old))) }
{
    let mut found = types_declarations::no_specifier();
    for tree in trees {
        let one = specifier(alloc, scope, alone, tree);
        found = declared::specifiers(found, one)?;
    }
    Ok(found)
}

/// A specifier; `alone` says that it is a whole declaration.
#[cycle(judge)]
fn specifier<'a>(
    alloc: Global,
    scope: &mut Scope<'a>,
    alone: bool,
    tree: &Specifier<'a>,
) -> Result<Judged<CType>, AllocError>
    ensures { IfOk result (λ r. judged_of type_of r (scope_of scope.new)
        ≡ squeezed_part (judgement.judge_specifier alone (specifier_of tree.now)
        (scope_of scope.old))) }
{
    match tree {
        Specifier::Word { .. } => Ok(types_declarations::no_specifier()),
        Specifier::TypedefName { name } => types_declarations::typedef_name(scope, name),
        Specifier::StructureTag { tag, span } => {
            types_declarations::structure_tag(alloc, scope, alone, tag, *span)
        }
        Specifier::Structure {
            tag,
            members: list,
            ..
        } => {
            let opened = types_declarations::open_structure(scope, tag)?;
            let mut parts = Members::new(alloc);
            let fault = members(alloc, scope, list, &mut parts);
            declared::structure(alloc, scope, opened, fault, parts)
        }
        Specifier::EnumerationTag { tag, span } => {
            Ok(types_declarations::enumeration_tag(alloc, scope, tag, *span))
        }
        Specifier::Enumeration {
            tag,
            enumerators: list,
            ..
        } => {
            let own = types_declarations::enter_enumeration(scope, tag)?;
            let found = enumerators(alloc, scope, list)?;
            Ok(types_declarations::enumeration(alloc, own, found))
        }
    }
}

/// Members, after those so far (C17 6.7.2.1): the first fault of these.
#[cycle(judge)]
#[inline(never)]
fn members<'a>(
    alloc: Global,
    scope: &mut Scope<'a>,
    trees: &[Member<'a>],
    parts: &mut Members<'a>,
) -> Result<Option<Fault>, AllocError>
    ensures { IfOk result (λ r. listed_members r parts.new (scope_of scope.new)
        ≡ squeezed_listed (judgement.judge_members (members_from (map member_of trees.now))
        (map listed_of parts.old) (scope_of scope.old))) }
{
    let mut fault = None;
    for tree in trees {
        let one = member(alloc, scope, tree, parts)?;
        fault = types_declarations::first_fault(fault, one);
    }
    Ok(fault)
}

/// The members of one declaration.
#[cycle(judge)]
fn member<'a>(
    alloc: Global,
    scope: &mut Scope<'a>,
    tree: &Member<'a>,
    parts: &mut Members<'a>,
) -> Result<Option<Fault>, AllocError>
    ensures { IfOk result (λ r. listed_members r parts.new (scope_of scope.new)
        ≡ squeezed_listed (judgement.judge_member (member_of tree.now) (map listed_of parts.old)
        (scope_of scope.old))) }
{
    let of = typed(alloc, scope, tree.span.start, false, &tree.specifiers)?;
    let fault = declarators(alloc, scope, &of.value, &tree.declarators, parts);
    declared::member(of, fault)
}

/// Declarators of members of this type.
#[cycle(judge)]
fn declarators<'a>(
    alloc: Global,
    scope: &mut Scope<'a>,
    base: &Option<CType>,
    trees: &[Declarator<'a>],
    parts: &mut Members<'a>,
) -> Result<Option<Fault>, AllocError>
    ensures { IfOk result (λ r. listed_members r parts.new (scope_of scope.new)
        ≡ squeezed_listed (judgement.judge_declarators (option_map type_of base.now)
        (declarators_from (map declarator_of trees.now)) (map listed_of parts.old)
        (scope_of scope.old))) }
{
    let mut fault = None;
    for tree in trees {
        let one = declarator(alloc, scope, base, tree, parts)?;
        fault = types_declarations::first_fault(fault, one);
    }
    Ok(fault)
}

/// A declarator of a member of this type.
#[cycle(judge)]
fn declarator<'a>(
    alloc: Global,
    scope: &mut Scope<'a>,
    base: &Option<CType>,
    tree: &Declarator<'a>,
    parts: &mut Members<'a>,
) -> Result<Option<Fault>, AllocError>
    ensures { IfOk result (λ r. listed_members r parts.new (scope_of scope.new)
        ≡ squeezed_listed (judgement.judge_declarator (option_map type_of base.now)
        (declarator_of tree.now) (map listed_of parts.old) (scope_of scope.old))) }
{
    match tree {
        Declarator::Object {
            name,
            lengths: list,
            ..
        } => {
            let given = lengths(alloc, scope, list)?;
            types_declarations::structure_member(alloc, scope, base, name, list, given, parts)
        }
        Declarator::EmptyFunction { name, .. } | Declarator::VoidFunction { name, .. } => {
            let none = types_declarations::no_parameters(alloc);
            declared::function_member(alloc, scope, name, Ok(none), parts)
        }
        Declarator::Function {
            name,
            parameters: list,
            ..
        } => {
            let found = prototype(alloc, scope, list);
            declared::function_member(alloc, scope, name, found, parts)
        }
    }
}

/// The parameters of a function that is no definition: nothing of them stays in scope.
#[cycle(judge)]
pub(crate) fn prototype<'a>(
    alloc: Global,
    scope: &mut Scope<'a>,
    trees: &[Parameter<'a>],
) -> Result<Parameters, AllocError>
    ensures found { let all = parameters_from (map parameter_of trees.now) in
        IfOk result (λ r. (u : scopes.Scope) → listed_parameters r u
        ≡ squeezed_listed (record (judgement.judge_parameter_list all
        (scopes.prototype (scope_of scope.old)))
        { scope = u })) }
    ensures scope { IfOk result (λ _. scope_of scope.new ≡ scope_of scope.old) }
{
    let prototype = scope.enter_declarator(alloc);
    let found = parameters(alloc, scope, trees);
    scope.leave_declarator(prototype);
    found
}

/// Enumerators, counted from 0 (C17 6.7.2.2).
#[cycle(judge)]
#[inline(never)]
fn enumerators<'a>(
    alloc: Global,
    scope: &mut Scope<'a>,
    trees: &[Enumerator<'a>],
) -> Result<Judged<i128>, AllocError>
    ensures { IfOk result (λ r. number_judged r (scope_of scope.new)
        ≡ squeezed_part (judgement.judge_enumerators
        (enumerators_from (map enumerator_of trees.now))
        (Some (pos 0)) (scope_of scope.old))) }
{
    let mut fault = None;
    let mut value = Some(0);
    for tree in trees {
        let one = enumerator(alloc, scope, value, tree)?;
        fault = types_declarations::first_fault(fault, one.fault);
        value = one.value;
    }
    Ok(Judged { fault, value })
}

/// An enumerator, whose value is this one where it has none of its own; the value of the next one.
#[cycle(judge)]
fn enumerator<'a>(
    alloc: Global,
    scope: &mut Scope<'a>,
    value: Option<i128>,
    tree: &Enumerator<'a>,
) -> Result<Judged<i128>, AllocError>
    ensures { IfOk result (λ r. number_judged r (scope_of scope.new)
        ≡ squeezed_part (judgement.judge_enumerator (enumerator_of tree.now) value
        (scope_of scope.old))) }
{
    match tree {
        Enumerator::Bare { name } => types_declarations::enumerator(scope, name, value),
        Enumerator::Valued { name, value: given } => {
            let found = expression(alloc, scope, given);
            declared::valued_enumerator(scope, name, given, found)
        }
    }
}

/// The lengths of an array that are given (C17 6.7.6.2).
#[cycle(judge)]
pub(crate) fn lengths<'a>(
    alloc: Global,
    scope: &mut Scope<'a>,
    trees: &[ArrayLength<'a>],
) -> Result<Judged<Vec<u32>>, AllocError>
    ensures { IfOk result (λ r. judged_of lengths_in r (scope_of scope.new)
        ≡ squeezed_part (judgement.judge_lengths (lengths_from (map array_length_of trees.now))
        (scope_of scope.old))) }
{
    let mut list = types_declarations::no_lengths(alloc);
    for tree in trees {
        list = more_lengths(alloc, scope, list, tree)?;
    }
    Ok(list)
}

/// Lengths so far, and one more where it is given.
#[cycle(judge)]
fn more_lengths<'a>(
    alloc: Global,
    scope: &mut Scope<'a>,
    list: Judged<Vec<u32>>,
    tree: &ArrayLength<'a>,
) -> Result<Judged<Vec<u32>>, AllocError>
    ensures { IfOk result (λ r. TakesLength (array_length_of tree.now) list (scope_of scope.old) r
        (scope_of scope.new)) }
{
    match tree {
        ArrayLength::Absent => Ok(list),
        ArrayLength::Given { value } => {
            let found = expression(alloc, scope, value);
            declared::more_lengths(list, value, found)
        }
    }
}

/// Parameters, in a scope of their own (C17 6.7.6.3).
#[cycle(judge)]
pub(crate) fn parameters<'a>(
    alloc: Global,
    scope: &mut Scope<'a>,
    trees: &[Parameter<'a>],
) -> Result<Parameters, AllocError>
    ensures { IfOk result (λ r. listed_parameters r (scope_of scope.new)
        ≡ squeezed_listed (judgement.judge_parameter_list
        (parameters_from (map parameter_of trees.now))
        (scope_of scope.old))) }
{
    let mut list = types_declarations::no_parameters(alloc);
    for tree in trees {
        let one = parameter(alloc, scope, tree);
        list = declared::parameters(list, one)?;
    }
    Ok(list)
}

/// A parameter. A call in its type adds no object to the function's frame.
#[cycle(judge)]
fn parameter<'a>(
    alloc: Global,
    scope: &mut Scope<'a>,
    tree: &Parameter<'a>,
) -> Result<Parameters, AllocError>
    ensures { IfOk result (λ r. listed_parameters r (scope_of scope.new)
        ≡ squeezed_listed (judgement.judge_parameter (parameter_of tree.now)
        (scope_of scope.old))) }
{
    let before = scope.objects_so_far();
    let of = typed(alloc, scope, tree.span.start, false, &tree.specifiers)?;
    let given = lengths(alloc, scope, &tree.lengths);
    declared::parameter(alloc, scope, before, tree, of, given)
}
