//! What the items of a list are for.
ghost use Rattle.std.specs.Prelude.{◌≡◌, ◌+◌, ◌<◌, [], ℕ, IfOk, OnOk, map, take, option_copied, option_map};
ghost use Rattle.types_rules.specs.Initializers as initializer_rules;
ghost use Rattle.types_scopes.specs.Listed.{listed_of};
ghost use Rattle.types_scopes.specs.Types.{base_of, type_of};
ghost use Rattle.types_scopes.specs.Views.{scope_of};
ghost use Rattle.types_statements.specs.Initializers.{optional_type, type_at, part_at, parts_from, target_of, members_in};

use crate::initializers::target::{Target, target_for};
use std::alloc::{AllocError, Global};
use types_scopes::lists::push;
use types_scopes::{Base, CType, Complete, Scope};

/// What the items of a list are for: each for the same element, or for one member after the other.
#[derive(Drop)]
pub enum PartTypes {
    Elements(CType),
    /// The types of the first members, where they have one.
    Members(Vec<Option<CType>>),
    Missing,
}

// The type of a member at a place.
#[tactic(auto, using(crate::proofs::ItemParts::type_in_list))]
fn type_in(types: &[Option<CType>], place: usize) -> Option<&CType>
    ensures { option_map type_of (option_copied result)
        ≡ type_at (map optional_type types.now) place }
{
    match types.get(place) {
        Some(of) => match of {
            Some(of) => Some(of),
            None => None,
        },
        None => None,
    }
}

impl PartTypes {
    /// The type of what the item after so many others is for.
    pub fn get(&self, place: usize) -> Option<&CType>
        ensures { option_map type_of (option_copied result) ≡ part_at self.now place }
    {
        match self {
            PartTypes::Elements(of) => Some(of),
            PartTypes::Members(types) => type_in(types, place),
            PartTypes::Missing => None,
        }
    }
}

fn same_type(of: &Option<CType>) -> Result<Option<CType>, AllocError>
    ensures { IfOk result (λ r. optional_type r ≡ optional_type of.now) }
{
    match of {
        Some(of) => match of.try_clone() {
            Ok(of) => Ok(Some(of)),
            Err(error) => Err(error),
        },
        None => Ok(None),
    }
}

// One more type, where there is one more member.
#[tactic(auto, using(crate::proofs::ItemParts::one_more, crate::proofs::ItemParts::no_more))]
fn add_type(
    types: &mut Vec<Option<CType>>,
    members: &Complete<'_>,
    place: usize,
) -> Result<(), AllocError>
    requires { map optional_type types.old.items
        ≡ take place (map (λ m. m.member_type) (map listed_of members.now)) }
    ensures { OnOk result (map optional_type types.new.items
        ≡ take (place + 1) (map (λ m. m.member_type) (map listed_of members.now))) }
{
    match members.at(place) {
        Some(member) => match same_type(&member.of) {
            Ok(of) => push(types, of),
            Err(error) => Err(error),
        },
        None => Ok(()),
    }
}

// Adds the types of the first so many members to none.
fn add_types(
    types: &mut Vec<Option<CType>>,
    members: &Complete<'_>,
    count: usize,
) -> Result<(), AllocError>
    requires { types.old.items ≡ [] }
    ensures { OnOk result (map optional_type types.new.items
        ≡ take count (map (λ m. m.member_type) (map listed_of members.now))) }
{
    for place in 0..count {
        add_type(types, members, place)?;
    }
    Ok(())
}

// The types of the first so many members.
fn member_types(
    alloc: Global,
    members: &Complete<'_>,
    count: usize,
) -> Result<Vec<Option<CType>>, AllocError>
    ensures { IfOk result (λ r. map optional_type r.items
        ≡ take count (map (λ m. m.member_type) (map listed_of members.now))) }
{
    let mut types = Vec::new(alloc);
    match add_types(&mut types, members, count) {
        Ok(()) => Ok(types),
        Err(error) => {
            drop(types);
            Err(error)
        }
    }
}

// The same, where the members are known.
fn types_of(
    alloc: Global,
    members: Option<&Complete<'_>>,
    count: usize,
) -> Result<Vec<Option<CType>>, AllocError>
    ensures { IfOk result (λ r. map optional_type r.items
        ≡ take count (map (λ m. m.member_type) (members_in members.entry))) }
{
    match members {
        Some(members) => member_types(alloc, members, count),
        None => Ok(Vec::new(alloc)),
    }
}

fn elements(alloc: Global, base: Base, is_const: bool, lengths: &[u32]) -> Result<CType, AllocError>
    ensures { IfOk result (λ r. type_of r
        ≡ record { base = base_of base; is_const = is_const; lengths = lengths.now }) }
{
    match Vec::from_slice(alloc, lengths) {
        Ok(lengths) => Ok(CType {
            base,
            is_const,
            lengths,
        }),
        Err(error) => Err(error),
    }
}

// What the first so many items of a list for this target are for.
#[tactic(auto, using(crate::proofs::ItemParts::first_of_members))]
fn parts_of(alloc: Global, target: Target<'_, '_>, count: usize) -> Result<PartTypes, AllocError>
    ensures { IfOk result (λ r. (n : ℕ) → n < count
        → part_at r n ≡ initializer_rules.first_part
        (parts_from n (initializer_rules.parts_of (target_of target.entry)))) }
{
    match target {
        Target::Missing => Ok(PartTypes::Missing),
        Target::Scalar(of) => match of.try_clone() {
            Ok(of) => Ok(PartTypes::Elements(of)),
            Err(error) => Err(error),
        },
        Target::Array {
            base,
            is_const,
            lengths,
            ..
        } => match elements(alloc, base, is_const, lengths) {
            Ok(of) => Ok(PartTypes::Elements(of)),
            Err(error) => Err(error),
        },
        Target::Structure { members, .. } => match types_of(alloc, members, count) {
            Ok(types) => Ok(PartTypes::Members(types)),
            Err(error) => Err(error),
        },
    }
}

/// What the first so many items of a list for an object of this type are for.
pub fn parts(
    alloc: Global,
    scope: &Scope<'_>,
    of: Option<&CType>,
    count: usize,
) -> Result<PartTypes, AllocError>
    ensures { IfOk result (λ r. (n : ℕ) → n < count → part_at r n
        ≡ initializer_rules.first_part (parts_from n
        (initializer_rules.parts_of (initializer_rules.target_of (scope_of scope.now).structures
        (option_map type_of (option_copied of.entry)))))) }
{
    parts_of(alloc, target_for(scope, of), count)
}
