//! External declarations (C17 6.9).
ghost use Rattle.std.specs.Prelude.{◌≡◌, ◌<◌, ◌≤◌, ◌^◌, ◌+◌, ◌++◌, [], ◌∷◌, List, length, Some, None, IfOk, OnOk, option_map};
ghost use Rattle.mc_tree.specs.Units.{item_of, items_of};
ghost use Rattle.mc_tree.specs.Tree as tree;
ghost use Rattle.mc_tree.specs.Views.{declarator_of, name_of};
ghost use Rattle.types_faults.specs.declared.fault.FaultKind.TheVariants.{Mismatch};
ghost use Rattle.types_rules.specs.Declarations.{both_lists};
ghost use Rattle.types_faults.specs.Faults.{fault};
ghost use Rattle.types_rules.specs.Scopes as scopes;
ghost use Rattle.types_rules.specs.Typing as ty;
ghost use Rattle.types_rules.specs.Values.{judged};
ghost use Rattle.types_declarations.specs.Declarations.{functions_of};
ghost use Rattle.types_scopes.specs.Statements.{declarators_of};
ghost use Rattle.types_scopes.specs.Found.{judged_of};
ghost use Rattle.types_scopes.specs.steps.Squeezed.{squeezed_part};

use mc_tree::{Declarator, Identifier, Item};
use mc_typed::{Function, Span};
use std::alloc::{AllocError, Global};
use types_faults::{Fault, FaultKind};
use types_scopes::Bodies;
use types_scopes::found::Judged;
use types_scopes::lists::{joined_lists, where_done};

fn no_function_in<'a>(
    alloc: Global,
    declarators: Option<Vec<mc_typed::Declarator>>,
) -> Option<Vec<Function<'a>>>
    ensures { option_map functions_of result
        ≡ option_map (λ ds. []) (option_map declarators_of declarators) }
{
    match declarators {
        Some(declarators) => {
            drop(declarators);
            Some(Vec::new(alloc))
        }
        None => None,
    }
}

/// A declaration among the items of a unit: no function.
pub fn declared_item<'a>(
    alloc: Global,
    declarators: Judged<Vec<mc_typed::Declarator>>,
) -> Judged<Vec<Function<'a>>>
    ensures { (s : scopes.Scope) → judged_of functions_of result s
        ≡ ty.declared_only (judged_of declarators_of declarators s) }
{
    Judged {
        fault: declarators.fault,
        value: no_function_in(alloc, declarators.value),
    }
}

/// A body after a declarator that is no function's, which no text has.
pub fn wrong_definition<'a>(span: Span) -> Judged<Vec<Function<'a>>>
    ensures { (s : scopes.Scope) → judged_of functions_of result s
        ≡ judged (fault Mismatch span.start) None s }
{
    Judged {
        fault: Some(Fault {
            kind: FaultKind::Mismatch,
            at: span.start,
        }),
        value: None,
    }
}

/// No functions. Takes no memory.
pub fn no_functions<'a>(alloc: Global) -> Judged<Vec<Function<'a>>>
    ensures { (s : scopes.Scope) → judged_of functions_of result s ≡ judged [] (Some []) s }
{
    Judged {
        fault: None,
        value: Some(Vec::new(alloc)),
    }
}

/// Functions, and more after them.
pub fn more_functions<'a>(
    list: Judged<Vec<Function<'a>>>,
    more: Judged<Vec<Function<'a>>>,
) -> Result<Judged<Vec<Function<'a>>>, AllocError>
    ensures { IfOk result (λ r. (s : scopes.Scope) → judged_of functions_of r s ≡ squeezed_part
        (both_lists (judged_of functions_of list.entry s) (judged_of functions_of more.entry s))) }
{
    joined_lists(list, more)
}

// ---- functions with a body

/// The name that a declarator declares.
pub fn declared_name<'d, 'a>(declarator: &'d Declarator<'a>) -> &'d Identifier<'a>
    ensures { name_of result.now ≡ tree.name_of (declarator_of declarator.now) }
{
    match declarator {
        Declarator::Object { name, .. } => name,
        Declarator::EmptyFunction { name, .. } => name,
        Declarator::VoidFunction { name, .. } => name,
        Declarator::Function { name, .. } => name,
    }
}

// The function of an item, where it has a body.
fn add_body<'a>(bodies: &mut Bodies<'a>, item: &Item<'a>) -> Result<(), AllocError>
    requires { length bodies.old < 2 ^ 32 }
    ensures named { OnOk result ((rest : List tree.Item) → bodies.new ++ ty.bodies_of rest
        ≡ bodies.old ++ ty.bodies_of (item_of item.now ∷ rest)) }
    ensures count { OnOk result (length bodies.new ≤ length bodies.old + 1) }
{
    match item {
        Item::Defined { declarator, .. } => bodies.push(declared_name(declarator).text),
        Item::Declared { .. } => Ok(()),
    }
}

// The functions of items that have a body, after those so far.
fn add_bodies<'a>(bodies: &mut Bodies<'a>, items: &[Item<'a>]) -> Result<(), AllocError>
    requires { length bodies.old + length items.now < 2 ^ 32 }
    ensures { OnOk result (bodies.new ≡ bodies.old ++ ty.bodies_of (items_of items.now)) }
{
    let mut left = items;
    while let [item, later @ ..] = left {
        add_body(bodies, item)?;
        left = later;
    }
    Ok(())
}

/// The functions of a unit that have a body.
pub fn bodies_of<'a>(alloc: Global, items: &[Item<'a>]) -> Result<Bodies<'a>, AllocError>
    requires { length items.now < 2 ^ 32 }
    ensures { IfOk result (λ r. r ≡ ty.bodies_of (items_of items.now)) }
{
    let mut bodies = Bodies::new(alloc);
    let done = add_bodies(&mut bodies, items);
    where_done(done, bodies)
}
