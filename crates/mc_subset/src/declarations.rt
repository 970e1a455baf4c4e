//! The first node outside in initializers and declarations.
#![tactic(auto, using(crate::proofs::Order::lists))]

ghost use Rattle.std.specs.Prelude.{◌≡◌, map};
ghost use Rattle.mc_tree.specs.Units.{declaration_of, init_declarator_of, initializer_of, initializers_from, option_of, start_of};
ghost use Rattle.mc_subset.specs.Nodes as nodes;
ghost use Rattle.mc_subset.specs.Forms.{first_outside};

use crate::expressions::{declarator, expression, part, specifiers};
use crate::rows::{declaration_form, has_extern, is_local, judge};
use mc_tree::{Declaration, Expression, ForStart, InitDeclarator, Initializer};
use subset_forms::{Outside, Region, Role, Standing, first_of};

#[cycle(initializers)]
fn initializer(tree: &Initializer<'_>, region: Region) -> Option<Outside>
    ensures { result ≡ first_outside (nodes.nodes_of_initializer region (initializer_of tree.now)) }
{
    match tree {
        Initializer::Single { value } => part(value, region),
        Initializer::Braced { items, .. } => initializers(items, region),
    }
}

#[cycle(initializers)]
fn initializers(trees: &[Initializer<'_>], region: Region) -> Option<Outside>
    ensures { let all = initializers_from (map initializer_of trees.now) in
        result ≡ first_outside (nodes.nodes_of_initializers region all) }
{
    for tree in trees {
        if let Some(first) = initializer(tree, region) {
            return Some(first);
        }
    }
    None
}

fn init_declarator(tree: &InitDeclarator<'_>, region: Region, external: bool) -> Option<Outside>
    ensures { let all = nodes.nodes_of_init_declarator region external
        (init_declarator_of tree.now) in
        result ≡ first_outside all }
{
    match tree {
        InitDeclarator::Bare {
            declarator: declared,
        } => declarator(declared, region, is_local(region), external),
        InitDeclarator::Initialized {
            declarator: declared,
            value,
        } => {
            let first = declarator(declared, region, is_local(region), external);
            first_of(first, initializer(value, region))
        }
    }
}

fn init_declarators(trees: &[InitDeclarator<'_>], region: Region, external: bool) -> Option<Outside>
    ensures { let all = map init_declarator_of trees.now in
        result ≡ first_outside (nodes.nodes_of_init_declarators region external all) }
{
    for tree in trees {
        if let Some(first) = init_declarator(tree, region, external) {
            return Some(first);
        }
    }
    None
}

#[tactic(auto, using(crate::proofs::Order::first_of_both), unfolding(crate::specs::Forms::form_of))]
pub(crate) fn declaration(
    tree: &Declaration<'_>,
    region: Region,
    standing: Standing,
) -> Option<Outside>
    ensures { let all = nodes.nodes_of_declaration region standing (declaration_of tree.now) in
        result ≡ first_outside all }
{
    let first = judge(declaration_form(standing), tree.span);
    let second = specifiers(&tree.specifiers, region);
    let external = has_extern(&tree.specifiers);
    let third = init_declarators(&tree.declarators, region, external);
    first_of(first, first_of(second, third))
}

pub(crate) fn optional(tree: &Option<Box<Expression<'_>>>, role: Role) -> Option<Outside>
    ensures { let value = option_of tree.now in
        result ≡ first_outside (nodes.nodes_of_optional role value) }
{
    match tree {
        Some(value) => expression(value, Region::Function, role),
        None => None,
    }
}

fn for_start(tree: &ForStart<'_>) -> Option<Outside>
    ensures { result ≡ first_outside (nodes.nodes_of_start (start_of tree.now)) }
{
    match tree {
        ForStart::Local { declaration: local } => {
            declaration(local, Region::Function, Standing::Elsewhere)
        }
        ForStart::Expression { value } => optional(value, Role::ForPart),
    }
}

/// The three parts of a `for`.
pub(crate) fn for_parts(
    start: &ForStart<'_>,
    test: &Option<Box<Expression<'_>>>,
    step: &Option<Box<Expression<'_>>>,
) -> Option<Outside>
    ensures { let second = option_of test.now in
        let third = option_of step.now in
        result ≡ first_outside (nodes.nodes_of_parts (start_of start.now) second third) }
{
    let second = optional(test, Role::Part);
    let third = optional(step, Role::ForPart);
    first_of(for_start(start), first_of(second, third))
}
