//! Units (C17 6.9).
ghost use Rattle.std.specs.Prelude.{◌≡◌, IfOk, IfErr, map};
ghost use Rattle.mc_span.specs.declared.span.Span.{Span};
ghost use Rattle.mc_tree.specs.Tree as source_tree;
ghost use Rattle.mc_tree.specs.Units as units;
ghost use Rattle.mc_tree.specs.Views.{name_of, parameter_of, parameters_from, specifier_of, specifiers_from};
ghost use Rattle.mc_typed.specs.Views.{program_of};
ghost use Rattle.laws_soundness.specs.Laws.{IsAccepted};
ghost use Rattle.types_rules.specs.Scopes as scopes;
ghost use Rattle.types_rules.specs.Typing as typing_rules;
ghost use Rattle.types_scopes.specs.Views.{scope_of};
ghost use Rattle.types_scopes.specs.Found.{judged_of};
ghost use Rattle.types_declarations.specs.Declarations.{functions_of};
ghost use Rattle.types_scopes.specs.steps.Squeezed.{squeezed_part};
ghost use Rattle.mc_types.specs.Faults.{IsRefused};

use crate::declarations::declaration;
use crate::expressions::{parameters, typed};
use crate::fault::TypeFault;
use crate::statements::block;
use mc_tree::{BlockItem, Declarator, Identifier, Item, Parameter, Specifier, Unit};
use mc_typed::{Function, Program, Span};
use std::alloc::{AllocError, Global};
use types_scopes::around::Around;
use types_scopes::found::Judged;
use types_scopes::{Scope, structure_types};

/// A function definition (C17 6.9.1).
fn definition<'a>(
    alloc: Global,
    scope: &mut Scope<'a>,
    all: &[Specifier<'a>],
    name: &Identifier<'a>,
    list: &[Parameter<'a>],
    body: &[BlockItem<'a>],
    span: Span,
) -> Result<Judged<Vec<Function<'a>>>, AllocError>
    ensures { (at : Span) → IfOk result (λ r. judged_of functions_of r (scope_of scope.new)
        ≡ squeezed_part (typing_rules.judge_definition (specifiers_from (map specifier_of all.now))
        (name_of name.now) (source_tree.Listed (parameters_from (map parameter_of list.now)) at)
        (units.block_from (map units.block_item_of body.now)) span (scope_of scope.old))) }
{
    let of = typed(alloc, scope, span.start, false, all)?;
    let heading = types_declarations::heading_of(scope, name, &of.value)?;
    let around = Around::outermost(types_declarations::result_of(&of.value));
    let outer = scope.enter_prototype(alloc);
    let found = parameters(alloc, scope, list)?;
    let unnamed = types_declarations::names_fault(list);
    let begun = types_declarations::begin_definition(
        alloc, scope, outer, &heading, name, &of, unnamed, &found,
    )?;
    let statements = block(alloc, scope, around, body)?;
    types_declarations::end_definition(alloc, scope, name, span, begun, statements)
}

/// A declaration or a function definition.
fn item<'a>(
    alloc: Global,
    scope: &mut Scope<'a>,
    tree: &Item<'a>,
) -> Result<Judged<Vec<Function<'a>>>, AllocError>
    ensures { IfOk result (λ r. judged_of functions_of r (scope_of scope.new)
        ≡ squeezed_part (typing_rules.judge_item (units.item_of tree.now) (scope_of scope.old))) }
{
    match tree {
        Item::Declared { declaration: one } => {
            let found = declaration(alloc, scope, one)?;
            Ok(types_declarations::declared_item(alloc, found))
        }
        Item::Defined {
            specifiers: all,
            declarator,
            body,
            span,
        } => match declarator {
            Declarator::Object { .. } => Ok(types_declarations::wrong_definition(*span)),
            Declarator::EmptyFunction { name, .. } | Declarator::VoidFunction { name, .. } => {
                definition(alloc, scope, all, name, &[], body, *span)
            }
            Declarator::Function {
                name,
                parameters: list,
                ..
            } => definition(alloc, scope, all, name, list, body, *span),
        },
    }
}

/// The functions of a unit that have a body, in the order of their definitions.
fn items<'a>(
    alloc: Global,
    scope: &mut Scope<'a>,
    trees: &[Item<'a>],
) -> Result<Judged<Vec<Function<'a>>>, AllocError>
    ensures { IfOk result (λ r. judged_of functions_of r (scope_of scope.new)
        ≡ squeezed_part (typing_rules.judge_unit (units.items_of trees.now) (scope_of scope.old))) }
{
    let mut list = types_declarations::no_functions(alloc);
    for tree in trees {
        let one = item(alloc, scope, tree)?;
        list = types_declarations::more_functions(list, one)?;
    }
    Ok(list)
}

/// The program of these functions, in the scope at the end of their unit, whose objects with static
/// storage duration it takes.
fn program<'a>(
    alloc: Global,
    unit: &Unit<'a>,
    scope: &mut Scope<'a>,
    functions: Vec<Function<'a>>,
) -> Result<Program<'a>, AllocError>
    requires accepted { IsAccepted (units.items_of unit.now.items.items) }
    requires typed { typing_rules.IsTypingOf (units.items_of unit.now.items.items)
        (typing_rules.program_from (scope_of scope.old) (functions_of functions)) }
    ensures { IfOk result (λ p.
        typing_rules.IsTypingOf (units.items_of unit.now.items.items) (program_of p)) }
{
    match structure_types(alloc, &scope.structures) {
        Ok(structures) => {
            let statics = std::mem::replace(&mut scope.statics, Vec::new(alloc));
            Ok(Program::new(functions, statics, structures))
        }
        Err(error) => {
            drop(functions);
            Err(error)
        }
    }
}

/// The typed program of a unit, or its first fault, in the scope in which the unit begins.
fn program_in<'a>(
    alloc: Global,
    scope: &mut Scope<'a>,
    unit: &Unit<'a>,
) -> Result<Program<'a>, TypeFault>
    requires accepted { IsAccepted (units.items_of unit.now.items.items) }
    requires begins { let items = units.items_of unit.now.items.items in
        scope_of scope.old ≡ scopes.file_scope (typing_rules.bodies_of items) }
    ensures typing { IfOk result (λ p.
        typing_rules.IsTypingOf (units.items_of unit.now.items.items) (program_of p)) }
    ensures refused { IfErr result (IsRefused (units.items_of unit.now.items.items)) }
{
    let found = items(alloc, scope, &unit.items)?;
    if let Some(fault) = found.fault {
        return Err(TypeFault::first(fault));
    }
    let Some(functions) = found.value else {
        unreachable!()
    };
    Ok(program(alloc, unit, scope, functions)?)
}

/// The typed program of a unit without outside forms, or its first fault. It takes time in
/// proportion to the unit, but for the look-up of names, which takes logarithmic time. The stack
/// that it takes grows with the height of the unit's tree.
///
/// # Errors
///
/// The fault at the least place, and there the one with the lowest number, exactly where the unit
/// has a fault; `OutOfMemory` where memory runs out.
pub fn type_unit<'a>(alloc: Global, unit: &Unit<'a>) -> Result<Program<'a>, TypeFault>
    requires accepted { IsAccepted (units.items_of unit.now.items.items) }
    ensures typing { IfOk result (λ p.
        typing_rules.IsTypingOf (units.items_of unit.now.items.items) (program_of p)) }
    ensures refused { IfErr result (IsRefused (units.items_of unit.now.items.items)) }
{
    let bodies = types_declarations::bodies_of(alloc, &unit.items)?;
    let mut scope = Scope::of_file(alloc, bodies);
    let typed = program_in(alloc, &mut scope, unit);
    drop(scope);
    typed
}
