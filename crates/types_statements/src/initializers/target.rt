//! What is initialized.
ghost use Rattle.std.specs.Prelude.{◌≡◌, ◌||◌, length, slice_get, Some, option_copied, option_map};
ghost use Rattle.types_rules.specs.Types.{members_of};
ghost use Rattle.types_rules.specs.Initializers as initializers;
ghost use Rattle.types_scopes.specs.Types.{type_of};
ghost use Rattle.types_scopes.specs.Views.{scope_of, structure_of};
ghost use Rattle.types_statements.specs.Initializers.{members_in, target_of};

use types_scopes::{Base, CType, Complete, Scope, Structure};

/// An object or a part of one that is initialized.
#[derive(Clone, Copy)]
pub enum Target<'t, 'a> {
    /// Its type is missing.
    Missing,
    /// It has this integer type.
    Scalar(&'t CType),
    /// So many elements of a type.
    Array {
        length: u32,
        base: Base,
        is_const: bool,
        lengths: &'t [u32],
    },
    /// The structure type with this number, and its members where it is complete.
    Structure {
        number: usize,
        members: Option<&'t Complete<'a>>,
    },
}

fn complete_in<'t, 'a>(structure: &'t Structure<'a>) -> Option<&'t Complete<'a>>
    ensures { members_in result ≡ members_of (Some (structure_of structure.now)) }
{
    match structure {
        Structure::Complete(complete) => Some(complete),
        Structure::Incomplete { .. } => None,
        Structure::Faulty => None,
    }
}

fn members_at<'t, 'a>(scope: &'t Scope<'a>, number: usize) -> Option<&'t Complete<'a>>
    ensures { members_in result ≡ members_of (slice_get (scope_of scope.now).structures number) }
{
    match scope.structures.get(number) {
        Some(structure) => complete_in(structure),
        None => None,
    }
}

fn target_of_base<'t, 'a>(scope: &'t Scope<'a>, of: &'t CType) -> Target<'t, 'a>
    ensures { target_of result ≡ initializers.target_of_base (scope_of scope.now).structures
        (type_of of.now) (type_of of.now).base }
{
    match of.base {
        Base::Void => Target::Missing,
        Base::Integer(_) => Target::Scalar(of),
        Base::Tagged(number) => Target::Structure {
            number,
            members: members_at(scope, number),
        },
    }
}

fn target_of_type<'t, 'a>(scope: &'t Scope<'a>, of: &'t CType) -> Target<'t, 'a>
    ensures { target_of result ≡ initializers.target_of_object (scope_of scope.now).structures
        (type_of of.now) (type_of of.now).lengths }
{
    match of.lengths.as_slice() {
        [length, lengths @ ..] => Target::Array {
            length: *length,
            base: of.base,
            is_const: of.is_const,
            lengths,
        },
        [] => target_of_base(scope, of),
    }
}

/// An object of this type, where it has one.
pub fn target_for<'t, 'a>(scope: &'t Scope<'a>, of: Option<&'t CType>) -> Target<'t, 'a>
    ensures { target_of result ≡ initializers.target_of (scope_of scope.now).structures
        (option_map type_of (option_copied of.entry)) }
{
    match of {
        Some(of) => target_of_type(scope, of),
        None => Target::Missing,
    }
}

// ---- how many items fit

fn count_of_members(members: Option<&Complete<'_>>) -> usize
    ensures { result ≡ length (members_in members.entry) }
{
    match members {
        Some(complete) => complete.len(),
        None => 0,
    }
}

/// Whether a list with so many items has too many of them, or none for a scalar.
pub(crate) fn fails_count(target: Target<'_, '_>, count: usize) -> bool
    ensures { result ≡ (initializers.is_below (initializers.room_of (target_of target.entry)) count
        || initializers.lacks_item (target_of target.entry) count) }
{
    match target {
        Target::Missing => false,
        Target::Scalar(_) => 1 < count || count == 0,
        Target::Array { length, .. } => (length as usize) < count,
        Target::Structure { members, .. } => count_of_members(members) < count,
    }
}
