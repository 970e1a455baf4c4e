//! Storage of declared names (C17 6.2.4, 6.7.1), and whole declarations.
ghost use Rattle.std.specs.Prelude.{◌≡◌, ◌++◌, [], map, Some, None, is_some, option_map, option_copied};
ghost use Rattle.mc_tree.specs.Units as units;
ghost use Rattle.mc_tree.specs.Views.{specifier_of, specifiers_from};
ghost use Rattle.mc_typed.specs.Views.{initializer_of};
ghost use Rattle.types_rules.specs.Declarations as declarations;
ghost use Rattle.types_rules.specs.Judgement as judgement;
ghost use Rattle.types_rules.specs.Scopes as scopes;
ghost use Rattle.types_rules.specs.Values as values;
ghost use Rattle.types_declarations.specs.Declarations.{is_structure_tag, optional_of, storage_from};
ghost use Rattle.types_declarations.specs.Halves.{optional_judged};
ghost use Rattle.types_scopes.specs.Statements.{declarators_of};
ghost use Rattle.types_scopes.specs.Found.{judged_of};
ghost use Rattle.types_faults.specs.Kept.{listed};
ghost use Rattle.types_scopes.specs.steps.Squeezed.{squeezed_part};

use crate::faults::first_fault;
use crate::lengths::MOST_KEPT;
use crate::specifier_types::has;
use mc_tree::{InitDeclarator, Specifier, SpecifierWord};
use mc_typed::{Declarator, Initializer};
use types_faults::{Fault, FaultKind, fault_where};
use types_scopes::count::count_of;
use types_scopes::found::Judged;

/// What a declaration declares names to be.
#[derive(Clone, Copy)]
pub enum Storage {
    Typedef,
    Static,
    Automatic,
}

/// By the specifiers of a declaration, and whether it stands at file scope.
pub fn storage_of(specifiers: &[Specifier<'_>], is_file: bool) -> Storage
    ensures { storage_from result
        ≡ declarations.storage_of (specifiers_from (map specifier_of specifiers.now)) is_file }
{
    if has(SpecifierWord::Typedef, specifiers) {
        return Storage::Typedef;
    }
    let written = has(SpecifierWord::Static, specifiers);
    if is_file || written {
        Storage::Static
    } else {
        Storage::Automatic
    }
}

// ---- initializers

/// Whether there is an initializer.
pub(crate) fn has_initializer(value: Option<&mc_tree::Initializer<'_>>) -> bool
    ensures { result ≡ is_some (option_map units.initializer_of (option_copied value.entry)) }
{
    match value {
        Some(_) => true,
        None => false,
    }
}

// A list without items counts for nothing.
fn at_least_one(count: usize) -> Option<u32>
    ensures { result ≡ declarations.at_least_one count }
{
    if count == 0 {
        None
    } else {
        Some(count.min(MOST_KEPT as usize) as u32)
    }
}

/// The number of items of an initializer, where it is a list (C17 6.7.9p22).
pub fn count_listed(value: Option<&mc_tree::Initializer<'_>>) -> Option<u32>
    ensures { result
        ≡ declarations.count_listed (option_map units.initializer_of (option_copied value.entry)) }
{
    match value {
        Some(value) => match value {
            mc_tree::Initializer::Braced { items, .. } => at_least_one(count_of(items)),
            mc_tree::Initializer::Single { .. } => None,
        },
        None => None,
    }
}

/// No initializer.
pub fn no_initializer() -> Judged<Option<Initializer>>
    ensures { (s : scopes.Scope) → judged_of optional_of result s ≡ values.judged [] (Some None) s }
{
    Judged {
        fault: None,
        value: Some(None),
    }
}

fn some_initializer(value: Option<Initializer>) -> Option<Option<Initializer>>
    ensures { option_map optional_of result
        ≡ option_map Some (option_map initializer_of value) }
{
    match value {
        Some(value) => Some(Some(value)),
        None => None,
    }
}

/// An initializer that is there.
pub fn optional_initializer(value: Judged<Initializer>) -> Judged<Option<Initializer>>
    ensures { (s : scopes.Scope) → judged_of optional_of result s
        ≡ optional_judged (judged_of initializer_of value s) }
{
    Judged {
        fault: value.fault,
        value: some_initializer(value.value),
    }
}

// ---- whole declarations

/// Whether a declaration is a structure's tag alone (C17 6.7.2.3p7).
#[tactic(auto, using(crate::proofs::Alone::tag_alone))]
pub fn is_tag_alone(specifiers: &[Specifier<'_>], declarators: &[InitDeclarator<'_>]) -> bool
    ensures { result ≡ declarations.is_tag_alone (specifiers_from (map specifier_of specifiers.now))
        (map units.init_declarator_of declarators.now) }
{
    match specifiers {
        [one, later @ ..] => {
            let tag = is_structure_tag(one);
            let only = later.is_empty();
            let bare = declarators.is_empty();
            (tag && only) && bare
        }
        [] => false,
    }
}

fn is_structure_tag(specifier: &Specifier<'_>) -> bool
    ensures { result ≡ is_structure_tag (specifier_of specifier.now) }
{
    match specifier {
        Specifier::StructureTag { .. } => true,
        Specifier::Word { .. }
        | Specifier::TypedefName { .. }
        | Specifier::Structure { .. }
        | Specifier::EnumerationTag { .. }
        | Specifier::Enumeration { .. } => false,
    }
}

// Whether a specifier declares a tag, or members of an enumeration.
fn declares(specifier: &Specifier<'_>) -> bool
    ensures { result ≡ declarations.declares (specifier_of specifier.now) }
{
    match specifier {
        Specifier::StructureTag { .. } => true,
        Specifier::Structure { tag, .. } => tag.is_some(),
        Specifier::EnumerationTag { .. } => true,
        Specifier::Enumeration { .. } => true,
        Specifier::Word { .. } => false,
        Specifier::TypedefName { .. } => false,
    }
}

fn any_declares(specifiers: &[Specifier<'_>]) -> bool
    ensures { result ≡ declarations.any_declares
        (specifiers_from (map specifier_of specifiers.now)) }
{
    let mut found = false;
    let mut left = specifiers;
    while let [one, later @ ..] = left {
        if declares(one) {
            found = true;
        }
        left = later;
    }
    found
}

/// The fault of a declaration that declares nothing (C17 6.7p2).
pub fn empty_fault(
    specifiers: &[Specifier<'_>],
    declarators: &[InitDeclarator<'_>],
    at: u32,
) -> Option<Fault>
    ensures { listed result ≡ declarations.empty_faults
        (specifiers_from (map specifier_of specifiers.now))
        (map units.init_declarator_of declarators.now) at }
{
    match declarators {
        [] => fault_where(!any_declares(specifiers), FaultKind::Mismatch, at),
        [_, ..] => None,
    }
}

/// A declaration, from the fault of its specifiers and its own.
pub fn declaration(
    typed: Option<Fault>,
    empty: Option<Fault>,
    declarators: Judged<Vec<Declarator>>,
) -> Judged<Vec<Declarator>>
    ensures { (s : scopes.Scope) → judged_of declarators_of result s ≡ squeezed_part
        (judgement.after (listed typed ++ listed empty) (judged_of declarators_of declarators s)) }
{
    let first = first_fault(typed, empty);
    Judged {
        fault: first_fault(first, declarators.fault),
        value: declarators.value,
    }
}
