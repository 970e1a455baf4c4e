//! Layouts of types (C17 6.2.5), and the limits of objects.
ghost use Rattle.std.specs.Prelude.{◌≡◌, ◌+◌, ◌*◌, ◌<◌, ◌||◌, ◌^◌, ◌∷◌, ◌++◌, nat_lt, min, [], length, map, slice_get, Some, IfOk, OnOk};
ghost use Rattle.mc_limits.specs.Limits.{most_nesting};
ghost use Rattle.mc_value.specs.ObjectTypes.{most_cells};
ghost use Rattle.mc_typed.specs.Layout as layout;
ghost use Rattle.mc_typed.specs.Layout.{object_type_of};
ghost use Rattle.types_rules.specs.Profile as profile;
ghost use Rattle.types_rules.specs.Profile.{most_counted};
ghost use Rattle.types_rules.specs.Types as type_rules;
ghost use Rattle.types_rules.specs.Limits as limit;
ghost use Rattle.types_rules.specs.Declarators.{cells_of_members};
ghost use Rattle.types_rules.specs.Expressions.{layouts_of};
ghost use Rattle.types_scopes.specs.Types.{base_of, type_of};
ghost use Rattle.types_scopes.specs.Views.{structure_of};
ghost use Rattle.types_scopes.specs.Counted.{product};

use crate::lists::{push, shared, where_done};
use crate::members::Structure;
use crate::sums::counted;
use crate::types::{Base, CType};
use mc_limits::MOST_NESTING;
use mc_value::{MOST_CELLS, ObjType};
use std::alloc::{AllocError, Global};
use std::sync::Arc;

// Whether the structure type with this number has its members.
#[tactic(auto, using(crate::proofs::Arrays::structure_at))]
fn has_members(structures: &[Structure<'_>], number: usize) -> bool
    ensures { result
        ≡ type_rules.is_complete_structure (slice_get (map structure_of structures.now) number) }
{
    match structures.get(number) {
        Some(structure) => structure.is_complete(),
        None => false,
    }
}

/// Whether an object can have a type with this base (C17 6.2.5p1).
pub fn is_complete(structures: &[Structure<'_>], base: Base) -> bool
    ensures { result ≡ type_rules.is_complete (map structure_of structures.now) (base_of base) }
{
    match base {
        Base::Void => false,
        Base::Integer(_) => true,
        Base::Tagged(number) => has_members(structures, number),
    }
}

// Whether the structure type with this number has a fault in its list.
#[tactic(auto, using(crate::proofs::Arrays::structure_at))]
fn has_fault(structures: &[Structure<'_>], number: usize) -> bool
    ensures { result ≡ type_rules.is_faulty_structure
        (slice_get (map structure_of structures.now) number) }
{
    match structures.get(number) {
        Some(structure) => structure.is_faulty(),
        None => false,
    }
}

/// Whether the base is a structure with a fault in its list.
pub fn is_faulty(structures: &[Structure<'_>], base: Base) -> bool
    ensures { result ≡ type_rules.is_faulty (map structure_of structures.now) (base_of base) }
{
    match base {
        Base::Void => false,
        Base::Integer(_) => false,
        Base::Tagged(number) => has_fault(structures, number),
    }
}

// ---- layouts

// No members.
fn no_parts(alloc: Global) -> Result<Arc<Vec<ObjType>>, AllocError>
    ensures { IfOk result (λ p. map object_type_of p.value.items ≡ []) }
{
    shared(alloc, Vec::new(alloc))
}

// The layouts of the members of a structure, where it is complete.
fn parts_of(alloc: Global, structure: &Structure<'_>) -> Result<Arc<Vec<ObjType>>, AllocError>
    ensures { IfOk result (λ p. map object_type_of p.value.items
        ≡ map (λ m. m.layout) (type_rules.members_of (Some (structure_of structure.now)))) }
{
    match structure {
        Structure::Complete(complete) => complete.parts(),
        Structure::Incomplete { .. } => no_parts(alloc),
        Structure::Faulty => no_parts(alloc),
    }
}

// The same of the structure type with this number.
#[tactic(auto, using(crate::proofs::Arrays::structure_at))]
fn parts_at(
    alloc: Global,
    structures: &[Structure<'_>],
    number: usize,
) -> Result<Arc<Vec<ObjType>>, AllocError>
    ensures { IfOk result (λ p. map object_type_of p.value.items
        ≡ map (λ m. m.layout) (type_rules.members_of
        (slice_get (map structure_of structures.now) number))) }
{
    match structures.get(number) {
        Some(structure) => parts_of(alloc, structure),
        None => no_parts(alloc),
    }
}

// The layout of a base.
fn layout_of_base(
    alloc: Global,
    structures: &[Structure<'_>],
    base: Base,
) -> Result<ObjType, AllocError>
    ensures { IfOk result (λ r. object_type_of r
        ≡ type_rules.layout_of_base (map structure_of structures.now) (base_of base)) }
{
    match base {
        Base::Void => {
            let members = no_parts(alloc)?;
            Ok(ObjType::Struct { number: 0, members })
        }
        Base::Integer(of) => Ok(ObjType::Int(of)),
        Base::Tagged(number) => {
            let members = parts_at(alloc, structures, number)?;
            let number = counted(number);
            Ok(ObjType::Struct { number, members })
        }
    }
}

// An array of so many elements.
fn array(alloc: Global, length: u32, element: ObjType) -> Result<ObjType, AllocError>
    ensures { IfOk result (λ r. object_type_of r ≡ layout.Array length (object_type_of element)) }
{
    let element = shared(alloc, element)?;
    Ok(ObjType::Array { element, length })
}

// Arrays of arrays, the outermost length first. A type keeps few lengths, so this does not go deep.
fn arrays(alloc: Global, lengths: &[u32], element: ObjType) -> Result<ObjType, AllocError>
    ensures { IfOk result (λ r. object_type_of r
        ≡ type_rules.arrays_of lengths.now (object_type_of element)) }
{
    match lengths {
        [] => Ok(element),
        [length, inner @ ..] => {
            let inner = arrays(alloc, inner, element)?;
            array(alloc, *length, inner)
        }
    }
}

/// The layout of an object of a complete type.
pub fn layout(
    alloc: Global,
    structures: &[Structure<'_>],
    of: &CType,
) -> Result<ObjType, AllocError>
    ensures { IfOk result (λ r. object_type_of r
        ≡ type_rules.layout_of (map structure_of structures.now) (type_of of.now)) }
{
    let base = layout_of_base(alloc, structures, of.base)?;
    arrays(alloc, &of.lengths, base)
}

// The structure type with this number.
fn structure_type(
    alloc: Global,
    number: usize,
    structure: &Structure<'_>,
) -> Result<ObjType, AllocError>
    ensures { IfOk result (λ r. object_type_of r
        ≡ type_rules.structure_from number (structure_of structure.now)) }
{
    let members = parts_of(alloc, structure)?;
    let number = counted(number);
    Ok(ObjType::Struct { number, members })
}

// Adds a structure type, whose number is that of those before it.
fn add_type(
    alloc: Global,
    types: &mut Vec<ObjType>,
    structure: &Structure<'_>,
) -> Result<(), AllocError>
    ensures more { OnOk result (map object_type_of types.new.items
        ≡ map object_type_of types.old.items
        ++ type_rules.structure_from (length types.old.items) (structure_of structure.now) ∷ []) }
    ensures count { OnOk result (length types.new.items ≡ length types.old.items + 1) }
{
    let one = structure_type(alloc, types.len(), structure)?;
    push(types, one)
}

// Adds structure types to none.
fn add_types(
    alloc: Global,
    types: &mut Vec<ObjType>,
    structures: &[Structure<'_>],
) -> Result<(), AllocError>
    requires { types.old.items ≡ [] }
    ensures { OnOk result (map object_type_of types.new.items
        ≡ type_rules.structures_from 0 (map structure_of structures.now)) }
{
    for structure in structures {
        add_type(alloc, types, structure)?;
    }
    Ok(())
}

/// The structure types of a program, by their numbers. One that stays incomplete has no members.
pub fn structure_types(
    alloc: Global,
    structures: &[Structure<'_>],
) -> Result<Vec<ObjType>, AllocError>
    ensures { IfOk result (λ r. map object_type_of r.items
        ≡ type_rules.structures_from 0 (map structure_of structures.now)) }
{
    let mut types = Vec::new(alloc);
    let done = add_types(alloc, &mut types, structures);
    where_done(done, types)
}

// ---- cells

// The cells of an object whose type is the structure type with this number, as far as 32 bits count
// them.
#[tactic(auto, using(crate::proofs::Arrays::structure_at))]
fn cells_at(structures: &[Structure<'_>], number: usize) -> u32
    ensures { result ≡ profile.counted (cells_of_members
        (type_rules.members_of (slice_get (map structure_of structures.now) number))) }
{
    match structures.get(number) {
        Some(structure) => structure.cells(),
        None => 0,
    }
}

// The cells of an object of a base, as far as 32 bits count them.
pub(crate) fn cells_of_base(structures: &[Structure<'_>], base: Base) -> u32
    ensures { result ≡ profile.counted
        (layout.cells (type_rules.layout_of_base (map structure_of structures.now)
        (base_of base))) }
{
    match base {
        Base::Void => 0,
        Base::Integer(_) => 1,
        Base::Tagged(number) => cells_at(structures, number),
    }
}

// A product, as far as 32 bits count it.
fn counted_product(cells: u32, length: u32) -> u32
    ensures { result ≡ profile.counted (cells * length) }
{
    cells.saturating_mul(length)
}

// The same of many factors.
#[tactic(auto, using(crate::proofs::Counted::factors_counted))]
fn counted_products(cells: u32, lengths: &[u32]) -> u32
    ensures { result ≡ profile.counted (cells * product lengths.now) }
{
    let mut total = cells;
    for length in lengths {
        total = counted_product(total, *length);
    }
    total
}

/// How many cells an object of the type has, as far as 32 bits count them. Takes no memory.
#[tactic(auto, using(crate::proofs::Counted::cells_of_arrays))]
pub fn cells(structures: &[Structure<'_>], of: &CType) -> u32
    ensures { result ≡ type_rules.cells_of (map structure_of structures.now) (type_of of.now) }
{
    counted_products(cells_of_base(structures, of.base), &of.lengths)
}

// ---- limits

// How many arrays and structures stand inside one another in the members of the structure type with
// this number, as far as 32 bits count them.
#[tactic(auto, using(crate::proofs::Arrays::structure_at))]
fn nesting_at(structures: &[Structure<'_>], number: usize) -> u32
    ensures { result ≡ min (layout.nesting_all
        (layouts_of (type_rules.members_of (slice_get (map structure_of structures.now) number))))
        most_counted }
{
    match structures.get(number) {
        Some(structure) => structure.nesting(),
        None => 0,
    }
}

// How many arrays and structures stand inside one another in a base. In a structure they are
// counted as far as 32 bits count those in its members.
#[tactic(auto, using(crate::proofs::Counted::deeper_counted))]
fn nesting_of_base(structures: &[Structure<'_>], base: Base) -> u64
    ensures counted { min result most_counted
        ≡ min (layout.nesting (type_rules.layout_of_base (map structure_of structures.now)
        (base_of base)))
        most_counted }
    ensures few { result < 2 ^ 33 }
{
    match base {
        Base::Void => 1,
        Base::Integer(_) => 0,
        Base::Tagged(number) => nesting_at(structures, number) as u64 + 1,
    }
}

/// How many arrays and structures stand inside one another in an object of the type, as far as 32
/// bits count them. Takes no memory.
#[tactic(auto, using(crate::proofs::Counted::nesting_counted))]
pub fn counted_nesting(structures: &[Structure<'_>], of: &CType) -> u32
    ensures { result
        ≡ min (layout.nesting (type_rules.layout_of (map structure_of structures.now)
        (type_of of.now)))
        most_counted }
{
    let total = of.lengths.len() as u64 + nesting_of_base(structures, of.base);
    total.min(u32::MAX as u64) as u32
}

// Whether an object of the type has too many cells.
#[tactic(auto, using(crate::proofs::Counted::many_counted))]
fn has_many_cells(structures: &[Structure<'_>], of: &CType) -> bool
    ensures { result ≡ nat_lt most_cells
        (layout.cells (type_rules.layout_of (map structure_of structures.now) (type_of of.now))) }
{
    cells(structures, of) > MOST_CELLS
}

// Whether an object of the type nests too deep.
#[tactic(auto, using(crate::proofs::Counted::many_counted))]
fn nests_deep(structures: &[Structure<'_>], of: &CType) -> bool
    ensures { result ≡ nat_lt most_nesting
        (layout.nesting (type_rules.layout_of (map structure_of structures.now)
        (type_of of.now))) }
{
    counted_nesting(structures, of) > MOST_NESTING
}

/// Whether an object of the type passes a limit: its cells, its nesting, or a length of an array.
pub fn is_too_large(structures: &[Structure<'_>], of: &CType) -> bool
    ensures { result ≡ limit.is_too_large (map structure_of structures.now) (type_of of.now) }
{
    of.is_long() || has_many_cells(structures, of) || nests_deep(structures, of)
}

/// Whether so many cells are within this limit, but with so many more they pass it.
pub fn is_passed_with(most: u32, before: u64, more: u32) -> bool
    ensures { result ≡ limit.is_passed_with most before more }
{
    before <= most as u64 && before + more as u64 > most as u64
}

// Whether a member of the type is the first with which the cells pass the limit.
#[tactic(auto, using(crate::proofs::Counted::passed_counted))]
fn is_passed_by(before: u32, structures: &[Structure<'_>], of: &CType) -> bool
    ensures { result ≡ limit.is_passed_with most_cells before
        (layout.cells (type_rules.layout_of (map structure_of structures.now) (type_of of.now))) }
{
    is_passed_with(MOST_CELLS, before as u64, cells(structures, of))
}

// Whether a structure with a member of the type nests too deep.
#[tactic(auto, using(crate::proofs::Counted::deep_counted))]
fn nests_deep_inside(structures: &[Structure<'_>], of: &CType) -> bool
    ensures { result ≡ nat_lt most_nesting
        (layout.nesting (type_rules.layout_of (map structure_of structures.now)
        (type_of of.now)) + 1) }
{
    counted_nesting(structures, of) >= MOST_NESTING
}

/// Whether a member of the type, after members with so many cells, passes a limit of its structure.
pub fn is_large_member(before: u32, structures: &[Structure<'_>], of: &CType) -> bool
    ensures { result ≡ (limit.is_long of.now.lengths.items || limit.is_large_member before
        (type_rules.layout_of (map structure_of structures.now) (type_of of.now))) }
{
    of.is_long() || is_passed_by(before, structures, of) || nests_deep_inside(structures, of)
}
