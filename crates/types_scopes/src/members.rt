//! Members of structures (C17 6.7.2.1).
ghost use Rattle.std.specs.Prelude.{◌≡◌, min, ◌∷◌, ◌++◌, [], List, map, length, slice_get, Some, option_map, option_copied, IfSome, IfOk, OnOk, OnErr};
ghost use Rattle.mc_typed.specs.Layout as sizes;
ghost use Rattle.mc_typed.specs.Layout.{object_type_of};
ghost use Rattle.types_rules.specs.Profile.{counted, most_counted};
ghost use Rattle.types_rules.specs.Types as type_rules;
ghost use Rattle.types_rules.specs.Declarators.{has_member, cells_of_members};
ghost use Rattle.types_rules.specs.Expressions.{selected, layouts_of};
ghost use Rattle.types_scopes.specs.Types.{type_of};
ghost use Rattle.types_scopes.specs.Listed.{layout_of, listed_of, selected_of, found_member, member_at};
ghost use Rattle.types_scopes.specs.Views.{complete_in, structure_of};

use crate::lists::{push, shared, where_done};
use crate::member::Member;
use crate::sums::counted_sum;
use crate::types::CType;
use mc_value::ObjType;
use name_table::Table;
use std::alloc::{AllocError, Global};
use std::marker::Model;
use std::sync::Arc;

/// The members of a structure, found by their names in logarithmic time.
#[derive(Drop)]
pub struct Members<'a> {
    table: Table<'a, Member>,
    cells: u32,
    nesting: u32,
}

/// The members of a complete structure, with the types that its layout shares.
#[derive(Drop)]
pub struct Complete<'a> {
    members: Members<'a>,
    parts: Arc<Vec<ObjType>>,
}

/// A structure type (C17 6.7.2.3p4).
#[derive(Drop)]
pub enum Structure<'a> {
    /// Without a list so far, or in its list.
    Incomplete { begun: bool },
    Complete(Complete<'a>),
    /// With a fault in its list.
    Faulty,
}

impl<'a> Model for Members<'a> {
    ghost use Rattle.std.specs.Prelude.{List};
    ghost use Rattle.std.specs.Coded.{codes};
    ghost use Rattle.mc_value.specs.contracts.object_type.ObjType as object_types_of;
    ghost use Rattle.types_scopes.specs.declared.member.Member.{Member};
    ghost use Rattle.name_table.specs.Tables.{Named};
    ghost use Rattle.types_scopes.specs.Listed.{AreLaid};

    ghost Value = { List (Named Member) };

    ghost coded = { Prim.hlevel (codes, object_types_of.the_row.coded) };

    ghost view = { λ m. m.table };

    ghost invariant = { λ m. AreLaid m.table m.cells m.nesting };
}

impl<'a> Model for Complete<'a> {
    ghost use Rattle.std.specs.Prelude.{List, map, ◌≡◌};
    ghost use Rattle.std.specs.Coded.{codes};
    ghost use Rattle.mc_value.specs.contracts.object_type.ObjType as object_types_of;
    ghost use Rattle.mc_typed.specs.Layout.{object_type_of};
    ghost use Rattle.types_scopes.specs.declared.member.Member.{Member};
    ghost use Rattle.name_table.specs.Tables.{Named};
    ghost use Rattle.types_scopes.specs.Listed.{listed_of};

    ghost Value = { List (Named Member) };

    ghost coded = { Prim.hlevel (codes, object_types_of.the_row.coded) };

    ghost view = { λ c. c.members };

    ghost invariant = { λ c. map object_type_of c.parts.value.items
        ≡ map (λ m. m.layout) (map listed_of c.members) };
}

impl<'a> Members<'a> {
    /// No members. Takes no memory.
    #[tactic(auto, using(crate::proofs::Laid::laid_none))]
    pub fn new(alloc: Global) -> Members<'a>
        ensures { result ≡ [] }
    {
        Members {
            table: Table::new(alloc),
            cells: 0,
            nesting: 0,
        }
    }

    /// Whether there is a member with this name. Takes no memory.
    #[tactic(auto, using(crate::proofs::Laid::has_named))]
    pub fn has(&self, name: &[u8]) -> bool
        ensures { result ≡ has_member name.now (map listed_of self.now) }
    {
        match self.table.get(name) {
            Some(_) => true,
            None => false,
        }
    }

    /// How many cells the members have, as far as 32 bits count them. Takes no memory.
    pub fn cells(&self) -> u32
        ensures { result ≡ counted (cells_of_members (map listed_of self.now)) }
    {
        self.cells
    }

    /// How many members there are. Takes no memory.
    pub fn len(&self) -> usize
        ensures { result ≡ length self.now }
    {
        self.table.len()
    }

    // The member with this number.
    fn at(&self, place: usize) -> Option<&Member>
        ensures { option_copied result ≡ option_map (λ m. m.meaning) (slice_get self.now place) }
    {
        self.table.at(place)
    }

    // How many arrays and structures stand inside one another in the members, as far as 32 bits
    // count them.
    fn nesting(&self) -> u32
        ensures { result
            ≡ min (sizes.nesting_all (layouts_of (map listed_of self.now))) most_counted }
    {
        self.nesting
    }

    /// One more member, after the others. Its layout has so many cells, and so many arrays and
    /// structures inside one another, as far as 32 bits count these.
    ///
    /// # Errors
    ///
    /// `AllocError` where memory runs out: then the members are as before.
    pub fn push(
        &mut self,
        name: &'a [u8],
        of: Option<CType>,
        layout: Option<ObjType>,
        cells: u32,
        nesting: u32,
    ) -> Result<(), AllocError>
        requires cells { cells ≡ counted (sizes.cells (layout_of layout)) }
        requires nesting { nesting ≡ min (sizes.nesting (layout_of layout)) most_counted }
        ensures ok { OnOk result (map listed_of self.new
            ≡ map listed_of self.old ++ record {
              name = name.now;
              member_type = option_map type_of of;
              layout = layout_of layout;
            } ∷ []) }
        ensures err { OnErr result (self.new ≡ self.old) }
    {
        let offset = self.cells;
        self.table.push(name, Member { of, layout, offset })?;
        self.cells = counted_sum(self.cells, cells);
        self.nesting = self.nesting.max(nesting);
        Ok(())
    }

    // Adds the layouts of the members to none.
    fn add_parts(&self, alloc: Global, parts: &mut Vec<ObjType>) -> Result<(), AllocError>
        requires { parts.old.items ≡ [] }
        ensures { OnOk result (map object_type_of parts.new.items
            ≡ map (λ m. m.layout) (map listed_of self.now)) }
    {
        for place in 0..self.table.len() {
            let Some(member) = self.table.at(place) else {
                unreachable!()
            };
            push(parts, member.layout(alloc)?)?;
        }
        Ok(())
    }

    // The layouts of the members.
    fn parts(&self, alloc: Global) -> Result<Vec<ObjType>, AllocError>
        ensures { IfOk result (λ r. map object_type_of r.items
            ≡ map (λ m. m.layout) (map listed_of self.now)) }
    {
        let mut parts = Vec::new(alloc);
        let done = self.add_parts(alloc, &mut parts);
        where_done(done, parts)
    }

    // The member at a place, and its number.
    fn numbered(&self, place: usize) -> Option<(usize, &Member)>
        ensures { option_map found_member result
            ≡ option_map (member_at place) (slice_get self.now place) }
    {
        match self.table.at(place) {
            Some(member) => Some((place, member)),
            None => None,
        }
    }

    // The last member with this name, and its number.
    fn select(&self, name: &[u8]) -> Option<(usize, &Member)>
        ensures member { option_map (λ r. selected_of name.now r.0 r.1.now) result
            ≡ selected 0 name.now (map listed_of self.now) }
        ensures offset { IfSome result (λ r. r.1.now.offset
            ≡ counted (sizes.start (layouts_of (map listed_of self.now)) r.0)) }
    {
        match self.table.place(name) {
            Some(place) => self.numbered(place),
            None => None,
        }
    }

    // The layouts of the members, to be shared.
    fn shared_parts(&self, alloc: Global) -> Result<Arc<Vec<ObjType>>, AllocError>
        ensures { IfOk result (λ p. map object_type_of p.value.items
            ≡ map (λ m. m.layout) (map listed_of self.now)) }
    {
        shared(alloc, self.parts(alloc)?)
    }

    /// The members of the structure that they complete (C17 6.7.2.1p8).
    pub fn complete(self, alloc: Global) -> Result<Complete<'a>, AllocError>
        ensures { IfOk result (λ c. c ≡ self.entry) }
    {
        match self.shared_parts(alloc) {
            Ok(parts) => Ok(Complete {
                members: self,
                parts,
            }),
            Err(error) => {
                drop(self);
                Err(error)
            }
        }
    }
}

impl<'a> Complete<'a> {
    /// How many cells the structure has, as far as 32 bits count them. Takes no memory.
    pub fn cells(&self) -> u32
        ensures { result ≡ counted (cells_of_members (map listed_of self.now)) }
    {
        self.members.cells()
    }

    /// How many members it has. Takes no memory.
    pub fn len(&self) -> usize
        ensures { result ≡ length self.now }
    {
        self.members.len()
    }

    /// The member with this number, in the order of the list. Takes no memory.
    pub fn at(&self, place: usize) -> Option<&Member>
        ensures { option_copied result ≡ option_map (λ m. m.meaning) (slice_get self.now place) }
    {
        self.members.at(place)
    }

    /// How many arrays and structures stand inside one another in its members, as far as 32 bits
    /// count them. Takes no memory.
    pub fn nesting(&self) -> u32
        ensures { result
            ≡ min (sizes.nesting_all (layouts_of (map listed_of self.now))) most_counted }
    {
        self.members.nesting()
    }

    /// The layouts of its members, which all layouts of the structure share.
    pub fn parts(&self) -> Result<Arc<Vec<ObjType>>, AllocError>
        ensures { IfOk result (λ p. map object_type_of p.value.items
            ≡ map (λ m. m.layout) (map listed_of self.now)) }
    {
        Arc::try_clone(&self.parts)
    }

    /// The member with this name and its number, where there is one, and where it begins (C17
    /// 6.7.2.1p15), as far as 32 bits count that. Takes no memory.
    pub fn select(&self, name: &[u8]) -> Option<(usize, &Member)>
        ensures member { option_map (λ r. selected_of name.now r.0 r.1.now) result
            ≡ selected 0 name.now (map listed_of self.now) }
        ensures offset { IfSome result (λ r. r.1.now.offset
            ≡ counted (sizes.start (layouts_of (map listed_of self.now)) r.0)) }
    {
        self.members.select(name)
    }
}

impl<'a> Structure<'a> {
    // Whether it has its members.
    pub(crate) fn is_complete(&self) -> bool
        ensures { result ≡ type_rules.is_complete_structure (Some (structure_of self.now)) }
    {
        match self {
            Structure::Complete(_) => true,
            Structure::Incomplete { .. } => false,
            Structure::Faulty => false,
        }
    }

    // Whether there is a fault in its list.
    pub(crate) fn is_faulty(&self) -> bool
        ensures { result ≡ type_rules.is_faulty_structure (Some (structure_of self.now)) }
    {
        match self {
            Structure::Faulty => true,
            Structure::Complete(_) => false,
            Structure::Incomplete { .. } => false,
        }
    }

    // How many cells its members have, as far as 32 bits count them.
    pub(crate) fn cells(&self) -> u32
        ensures { result ≡ counted
            (cells_of_members (type_rules.members_of (Some (structure_of self.now)))) }
    {
        match self {
            Structure::Complete(complete) => complete.cells(),
            Structure::Incomplete { .. } => 0,
            Structure::Faulty => 0,
        }
    }

    // How many arrays and structures stand inside one another in its members, as far as 32 bits
    // count them.
    pub(crate) fn nesting(&self) -> u32
        ensures { result
            ≡ min (sizes.nesting_all (layouts_of
            (type_rules.members_of (Some (structure_of self.now))))) most_counted }
    {
        match self {
            Structure::Complete(complete) => complete.nesting(),
            Structure::Incomplete { .. } => 0,
            Structure::Faulty => 0,
        }
    }

    /// Its members, where it is complete. Takes no memory.
    pub fn complete(&self) -> Option<&Complete<'a>>
        ensures { option_copied result ≡ complete_in self.now }
    {
        match self {
            Structure::Complete(complete) => Some(complete),
            Structure::Incomplete { .. } => None,
            Structure::Faulty => None,
        }
    }
}
