//! Function definitions (C17 6.9.1).
ghost use Rattle.std.specs.Prelude.{◌≡◌, ◌≤◌, [], ◌∷◌, ◌++◌, IfOk, OnOk, true, List, Option, length, take, map, option_map};
ghost use Rattle.mc_tree.specs.Tree as tree;
ghost use Rattle.mc_tree.specs.Views.{name_of, parameter_of, parameters_from};
ghost use Rattle.mc_typed.specs.Tree as typed;
ghost use Rattle.mc_typed.specs.Views.{object_of};
ghost use Rattle.mc_typed.specs.Views as views;
ghost use Rattle.types_faults.specs.declared.fault.Fault.{Fault};
ghost use Rattle.types_rules.specs.Declarations as declarations;
ghost use Rattle.types_faults.specs.Faults.{least_of};
ghost use Rattle.types_rules.specs.Limits as limit;
ghost use Rattle.types_rules.specs.Scopes as scopes;
ghost use Rattle.types_rules.specs.Types as type_rules;
ghost use Rattle.types_rules.specs.Typing as ty;
ghost use Rattle.types_scopes.specs.Blocks.{Around, around, around_of, function_left_by};
ghost use Rattle.types_scopes.specs.Prototypes.{body_in, with_one_name};
ghost use Rattle.types_scopes.specs.Types.{base_of, kind_of, type_of};
ghost use Rattle.types_scopes.specs.Types as types;
ghost use Rattle.types_scopes.specs.Views.{scope_of, structure_of};
ghost use Rattle.types_declarations.specs.Declarations.{functions_of, listed_parameters, signature_in};
ghost use Rattle.types_declarations.specs.Bodies.{IsHeading, body_of, definition_begun, definition_ended, listed_function, squeezed_body};
ghost use Rattle.types_scopes.specs.Statements.{statements_of};
ghost use Rattle.types_scopes.specs.Found.{judged_of};
ghost use Rattle.types_faults.specs.Kept.{listed};
ghost use Rattle.types_scopes.specs.steps.Squeezed.{squeezed_part};

use crate::earlier::{Earlier, declared_before, share_signature};
use crate::external::is_external;
use crate::faults::first_fault;
use crate::parameters::Parameters;
use crate::signatures::{function_fault, repeated_fault, result_of, signature};
use crate::tags::plain;
use mc_limits::MOST_FRAME_CELLS;
use mc_tree::{Identifier, Parameter};
use mc_typed::{Function, Object, ParameterType, ResultType, Span, Statement};
use std::alloc::{AllocError, Global};
use std::sync::Arc;
use types_faults::{Fault, FaultKind, after_two, fault_where, lesser};
use types_scopes::found::Judged;
use types_scopes::lists::{list_of, push, unused, where_done};
use types_scopes::{
    Base, Block, CType, Meaning, ParameterKind, Scope, Signature, Structure, is_complete, layout,
};

// ---- before the parameters

/// What is known of a definition before its parameters: what its name was declared to be, and
/// whether it would give an incomplete structure.
#[derive(Drop)]
pub struct Heading {
    pub before: Earlier,
    pub incomplete: bool,
}

// Whether a function would give an incomplete structure.
fn is_incomplete(structures: &[Structure<'_>], gives: Option<Base>) -> bool
    ensures { result
        ≡ ty.is_incomplete (map structure_of structures.now) (option_map base_of gives) }
{
    match gives {
        Some(base) => match base {
            Base::Tagged(_) => !is_complete(structures, base),
            Base::Void => false,
            Base::Integer(_) => false,
        },
        None => false,
    }
}

/// What is known of a definition whose specifiers have this type.
pub fn heading_of(
    scope: &Scope<'_>,
    name: &Identifier<'_>,
    gives: &Option<CType>,
) -> Result<Heading, AllocError>
    ensures { IfOk result (λ r. IsHeading r (name_of name.now) (option_map type_of gives.now)
        (scope_of scope.now)) }
{
    let incomplete = is_incomplete(&scope.structures, result_of(gives));
    match declared_before(scope.meaning_here(name)) {
        Ok(before) => Ok(Heading { before, incomplete }),
        Err(error) => Err(error),
    }
}

// ---- after the parameters

// The fault of a parameter without a name.
fn unnamed_fault(parameter: &Parameter<'_>) -> Option<Fault>
    ensures { listed result ≡ ty.parameter_names_faults (parameter_of parameter.now) }
{
    match &parameter.name {
        Some(_) => None,
        None => Some(Fault {
            kind: FaultKind::Mismatch,
            at: parameter.span.start,
        }),
    }
}

// The first fault so far, and that of a parameter without a name.
#[tactic(auto, using(crate::proofs::DeclarationFaults::names_step))]
fn with_unnamed(fault: Option<Fault>, parameter: &Parameter<'_>) -> Option<Fault>
    ensures { (rest : List Fault) → least_of (listed result ++ rest) ≡ least_of (listed fault
        ++ (ty.parameter_names_faults (parameter_of parameter.now) ++ rest)) }
{
    let own = unnamed_fault(parameter);
    first_fault(fault, own)
}

/// The first fault of a definition's parameters that have no names (C17 6.9.1p5).
pub fn names_fault(parameters: &[Parameter<'_>]) -> Option<Fault>
    ensures { result ≡ least_of
        (ty.list_names_faults (parameters_from (map parameter_of parameters.now))) }
{
    let mut fault = None;
    let mut left = parameters;
    while let [parameter, later @ ..] = left {
        fault = with_unnamed(fault, parameter);
        left = later;
    }
    fault
}

#[tactic(auto, using(types_scopes::proofs::Squeezed::joined_listed, types_scopes::proofs::Squeezed::joined_leasts))]
fn definition_fault(heading: &Heading, name: &Identifier<'_>) -> Option<Fault>
    ensures { (gives : Option type_rules.CType) (s : scopes.Scope)
        → IsHeading heading.now (name_of name.now) gives s
        → result ≡ least_of (ty.definition_faults (name_of name.now)
        (declarations.result_of gives) s) }
{
    let at = name.span.start;
    let again = heading.before.has_body();
    let external = is_external(name);
    let repeated = fault_where(again || external, FaultKind::Redeclared, at);
    let incomplete = fault_where(heading.incomplete, FaultKind::Mismatch, at);
    lesser(incomplete, repeated)
}

/// A definition whose body begins: its fault so far, its type where it has one, and what stands
/// around the body.
#[derive(Drop)]
pub struct Body {
    pub fault: Option<Fault>,
    pub signature: Option<Arc<Signature>>,
    pub block: Block,
}

// The fault of a definition before its body; `of` is its type.
#[tactic(auto, using(types_scopes::proofs::Squeezed::joined_listed, types_scopes::proofs::Squeezed::joined_leasts))]
fn head_fault(
    heading: &Heading,
    name: &Identifier<'_>,
    typed: &Judged<CType>,
    unnamed: Option<Fault>,
    parameters: &Parameters,
    of: &Option<Arc<Signature>>,
) -> Option<Fault>
    ensures { (o u : scopes.Scope) (ps : tree.Parameters)
        → IsHeading heading.now (name_of name.now) (option_map type_of typed.now.value) o
        → unnamed ≡ least_of (ty.names_faults ps)
        → signature_in of.now ≡ declarations.signature_listed (option_map type_of typed.now.value)
        (listed_parameters parameters.now u)
        → result ≡ least_of (definition_begun (name_of name.now) ps (judged_of type_of typed.now o)
        (listed_parameters parameters.now u)).faults }
{
    let at = name.span.start;
    let count = parameters.kinds.len();
    let own = definition_fault(heading, name);
    let function = function_fault(name, &typed.value, count, of);
    let repeated = repeated_fault(&heading.before, of, at);
    let own = lesser(unnamed, lesser(repeated, lesser(function, own)));
    lesser(typed.fault, lesser(parameters.fault, own))
}

// The block of the body of a function with this type.
fn enter_definition<'a>(
    alloc: Global,
    scope: &mut Scope<'a>,
    block: Block,
    name: &Identifier<'a>,
    of: &Option<Arc<Signature>>,
) -> Result<Block, AllocError>
    requires { block.names ≤ length scope.old.names }
    ensures around { IfOk result (λ b. around_of b ≡ with_one_name (around_of block)) }
    ensures body { IfOk result (λ b. scope_of scope.new ≡ body_in (around_of block).names
        (name_of name.now) (scopes.Function (signature_in of.now) true) (scope_of scope.old)) }
{
    match share_signature(of) {
        Ok(signature) => {
            let meaning = Meaning::Function {
                signature,
                has_body: true,
            };
            scope.enter_body(alloc, block, name, meaning)
        }
        Err(error) => {
            drop(block);
            Err(error)
        }
    }
}

/// The parameters of a definition are known, and its body begins. `unnamed` is the first fault of
/// those without names.
pub fn begin_definition<'a>(
    alloc: Global,
    scope: &mut Scope<'a>,
    block: Block,
    heading: &Heading,
    name: &Identifier<'a>,
    typed: &Judged<CType>,
    unnamed: Option<Fault>,
    parameters: &Parameters,
) -> Result<Body, AllocError>
    requires { block.names ≤ length scope.old.names }
    ensures body { IfOk result (λ r. (o : scopes.Scope) (ps : tree.Parameters)
        → IsHeading heading.now (name_of name.now) (option_map type_of typed.now.value) o
        → unnamed ≡ least_of (ty.names_faults ps)
        → around_of block ≡ around o → take (length o.names) (scope_of scope.old).names ≡ o.names
        → body_of r (scope_of scope.new) ≡ squeezed_body (definition_begun (name_of name.now) ps
        (judged_of type_of typed.now o) (listed_parameters parameters.now (scope_of scope.old)))) }
    ensures block { IfOk result (λ r. (o : scopes.Scope) → around_of block ≡ around o
        → around_of r.block ≡ around (ty.with_function (name_of name.now)
        (signature_in r.signature) o)) }
{
    match signature(alloc, &typed.value, &parameters.kinds) {
        Ok(of) => {
            let fault = head_fault(heading, name, typed, unnamed, parameters, &of);
            match enter_definition(alloc, scope, block, name, &of) {
                Ok(block) => Ok(Body {
                    fault,
                    signature: of,
                    block,
                }),
                Err(error) => {
                    unused(of);
                    Err(error)
                }
            }
        }
        Err(error) => {
            drop(block);
            Err(error)
        }
    }
}

// ---- after the body

fn parameter_type(
    alloc: Global,
    structures: &[Structure<'_>],
    kind: &ParameterKind,
) -> Result<ParameterType, AllocError>
    ensures { IfOk result (λ r. views.parameter_of r
        ≡ ty.parameter_type (map structure_of structures.now) (kind_of kind.now)) }
{
    match kind {
        ParameterKind::Value(base) => match *base {
            Base::Integer(of) => Ok(ParameterType::Int(of)),
            Base::Void => structure_parameter(alloc, structures, Base::Void),
            Base::Tagged(number) => structure_parameter(alloc, structures, Base::Tagged(number)),
        },
        ParameterKind::Array(element) => match layout(alloc, structures, element) {
            Ok(element) => Ok(ParameterType::Array(element)),
            Err(error) => Err(error),
        },
    }
}

fn structure_parameter(
    alloc: Global,
    structures: &[Structure<'_>],
    base: Base,
) -> Result<ParameterType, AllocError>
    ensures { IfOk result (λ r. views.parameter_of r ≡ typed.StructureParameter
        (type_rules.layout_of (map structure_of structures.now)
        (type_rules.plain (base_of base)))) }
{
    let of = plain(alloc, base);
    let layout = layout(alloc, structures, &of);
    drop(of);
    match layout {
        Ok(layout) => Ok(ParameterType::Structure(layout)),
        Err(error) => Err(error),
    }
}

// Adds the types of parameters to none.
fn add_parameter_types(
    alloc: Global,
    structures: &[Structure<'_>],
    types: &mut Vec<ParameterType>,
    kinds: &[ParameterKind],
) -> Result<(), AllocError>
    requires { types.old.items ≡ [] }
    ensures { OnOk result (map views.parameter_of types.new.items ≡ map
        (ty.parameter_type (map structure_of structures.now)) (map kind_of kinds.now)) }
{
    for kind in kinds {
        push(types, parameter_type(alloc, structures, kind)?)?;
    }
    Ok(())
}

fn parameter_types(
    alloc: Global,
    structures: &[Structure<'_>],
    kinds: &[ParameterKind],
) -> Result<Vec<ParameterType>, AllocError>
    ensures { IfOk result (λ r. map views.parameter_of r.items ≡ map
        (ty.parameter_type (map structure_of structures.now)) (map kind_of kinds.now)) }
{
    let mut types = Vec::new(alloc);
    let done = add_parameter_types(alloc, structures, &mut types, kinds);
    where_done(done, types)
}

fn result_type(
    alloc: Global,
    structures: &[Structure<'_>],
    base: Base,
) -> Result<ResultType, AllocError>
    ensures { IfOk result (λ r. views.result_of r
        ≡ ty.result_type (map structure_of structures.now) (base_of base)) }
{
    match base {
        Base::Void => Ok(ResultType::Void),
        Base::Integer(of) => Ok(ResultType::Int(of)),
        Base::Tagged(number) => {
            let of = plain(alloc, Base::Tagged(number));
            let layout = layout(alloc, structures, &of);
            drop(of);
            match layout {
                Ok(layout) => Ok(ResultType::Structure(layout)),
                Err(error) => Err(error),
            }
        }
    }
}

// The types of a function's parameters and of its result.
fn function_types(
    alloc: Global,
    structures: &[Structure<'_>],
    of: &Signature,
) -> Result<(Vec<ParameterType>, ResultType), AllocError>
    ensures parameters { IfOk result (λ r. map views.parameter_of r.0.items
        ≡ map (ty.parameter_type (map structure_of structures.now))
        (map kind_of of.now.parameters.items)) }
    ensures result { IfOk result (λ r. views.result_of r.1
        ≡ ty.result_type (map structure_of structures.now) (base_of of.now.result)) }
{
    match parameter_types(alloc, structures, &of.parameters) {
        Ok(parameters) => match result_type(alloc, structures, of.result) {
            Ok(result) => Ok((parameters, result)),
            Err(error) => {
                drop(parameters);
                Err(error)
            }
        },
        Err(error) => Err(error),
    }
}

// The closing brace of a definition, which is its last byte.
fn closing(span: Span) -> Span
    ensures { result ≡ ty.closing span }
{
    Span {
        start: span.end.saturating_sub(1),
        end: span.end,
    }
}

fn function_from<'a>(
    alloc: Global,
    structures: &[Structure<'a>],
    name: &Identifier<'a>,
    span: Span,
    of: &Signature,
    objects: Vec<Object>,
    body: Vec<Statement>,
) -> Result<Function<'a>, AllocError>
    ensures { IfOk result (λ r. (s : scopes.Scope) → map structure_of structures.now ≡ s.structures
        → map object_of objects.items ≡ s.objects
        → views.function_of r ≡ ty.function_from (name_of name.now) span s
        (types.signature_of of.now) (statements_of body)) }
{
    match function_types(alloc, structures, of) {
        Ok((parameters, result)) => Ok(Function {
            name: name.text,
            name_span: name.span,
            parameters,
            result,
            objects,
            body,
            closing: closing(span),
            registers: 0,
            entry: None,
            exit: None,
        }),
        Err(error) => {
            drop(objects);
            drop(body);
            Err(error)
        }
    }
}

fn one_function<'a>(alloc: Global, function: Function<'a>) -> Result<Vec<Function<'a>>, AllocError>
    ensures { IfOk result (λ r. functions_of r ≡ views.function_of function.entry ∷ []) }
{
    list_of(alloc, function)
}

// The function with this type and this body, alone; its objects leave the scope.
fn function_alone<'a>(
    alloc: Global,
    scope: &mut Scope<'a>,
    name: &Identifier<'a>,
    span: Span,
    of: &Signature,
    body: Vec<Statement>,
) -> Result<Vec<Function<'a>>, AllocError>
    ensures value { IfOk result (λ r. functions_of r ≡ ty.function_from (name_of name.now) span
        (scope_of scope.old) (types.signature_of of.now) (statements_of body) ∷ []) }
    ensures scope { IfOk result (λ r. (a : Around)
        → function_left_by a (scope_of scope.new) ≡ function_left_by a (scope_of scope.old)) }
{
    let objects = scope.take_objects(alloc);
    match function_from(alloc, &scope.structures, name, span, of, objects, body) {
        Ok(function) => one_function(alloc, function),
        Err(error) => Err(error),
    }
}

// The function, where its type is known and its body has no fault; its objects leave the scope.
fn function_listed<'a>(
    alloc: Global,
    scope: &mut Scope<'a>,
    name: &Identifier<'a>,
    span: Span,
    of: &Option<Arc<Signature>>,
    body: Option<Vec<Statement>>,
) -> Result<Option<Vec<Function<'a>>>, AllocError>
    ensures value { IfOk result (λ r. option_map functions_of r
        ≡ listed_function (name_of name.now) span (signature_in of.now)
        (option_map statements_of body) (scope_of scope.old)) }
    ensures scope { IfOk result (λ r. (a : Around)
        → function_left_by a (scope_of scope.new) ≡ function_left_by a (scope_of scope.old)) }
{
    match of {
        Some(of) => match body {
            Some(body) => {
                match function_alone(alloc, scope, name, span, of, body) {
                    Ok(list) => Ok(Some(list)),
                    Err(error) => Err(error),
                }
            }
            None => Ok(None),
        },
        None => {
            unused(body);
            Ok(None)
        }
    }
}

// The fault of an activation with too many cells, or with objects that have no number.
fn frame_fault(scope: &Scope<'_>, at: u32) -> Option<Fault>
    ensures { result ≡ least_of (limit.frame_faults (scope_of scope.now).frame
        (length (scope_of scope.now).objects) at) }
{
    let large = scope.frame > MOST_FRAME_CELLS as u64;
    fault_where(large || scope.has_unnumbered(), FaultKind::Limit, at)
}

/// The end of a definition whose body is known. Its frame holds all its objects.
pub fn end_definition<'a>(
    alloc: Global,
    scope: &mut Scope<'a>,
    name: &Identifier<'a>,
    span: Span,
    body: Body,
    statements: Judged<Vec<Statement>>,
) -> Result<Judged<Vec<Function<'a>>>, AllocError>
    ensures { IfOk result (λ r. (u : scopes.Scope) → judged_of functions_of r (scope_of scope.new)
        ≡ squeezed_part (definition_ended (name_of name.now) span (body_of body u)
        (around_of body.block) (judged_of statements_of statements (scope_of scope.old)))) }
{
    let frame = frame_fault(scope, name.span.start);
    let fault = after_two(body.fault, statements.fault, frame);
    let value = function_listed(alloc, scope, name, span, &body.signature, statements.value);
    scope.leave_function(alloc, body.block);
    unused(body.signature);
    match value {
        Ok(value) => Ok(Judged { fault, value }),
        Err(error) => Err(error),
    }
}
