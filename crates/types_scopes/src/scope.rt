//! What is in scope, and what has been declared so far (C17 6.2.1 to 6.2.4).
ghost use Rattle.std.specs.Prelude.{◌≡◌, Some, option_map, option_copied, IfOk, ◌<◌, length, nat_le, nat_lt};
ghost use Rattle.mc_tree.specs.Views.{name_of};
ghost use Rattle.mc_typed.specs.Layout.{cells, object_type_of};
ghost use Rattle.types_rules.specs.Profile as profile;
ghost use Rattle.types_rules.specs.Scopes as scopes;
ghost use Rattle.types_scopes.specs.Views.{meaning_of, scope_of, structure_of, tag_of};

use crate::bodies::Bodies;
use crate::labels::Labels;
use crate::lists::push;
use crate::meanings::{Meaning, TagMeaning};
use crate::members::Structure;
use crate::sums::sum_of;
use mc_limits::{MOST_FRAME_CELLS, MOST_STATIC_CELLS};
use mc_tree::Identifier;
use mc_typed::{Object, Slot, StaticObject};
use mc_value::ObjType;
use name_table::Table;
use std::alloc::{AllocError, Global};

/// What a node of a tree can name, and what has been declared before it.
#[derive(Drop)]
pub struct Scope<'a> {
    pub names: Table<'a, Meaning>,
    pub tags: Table<'a, TagMeaning>,
    /// Where the names and the tags of the innermost block begin.
    pub names_from: usize,
    pub tags_from: usize,
    /// Whether it is file scope.
    pub is_file: bool,
    /// The structure types, by their numbers.
    pub structures: Vec<Structure<'a>>,
    /// The objects with static storage duration, but for those with a fault, and their cells.
    pub statics: Vec<StaticObject>,
    pub static_cells: u64,
    /// The functions of the unit that have a body.
    pub bodies: Bodies<'a>,
    /// The objects of the function, the cells of its frame, and the number of its array parameters.
    pub objects: Vec<Object>,
    pub frame: u64,
    pub arrays: u32,
    /// Directly in the body of a `switch`, its labels.
    pub labels: Option<Labels>,
}

/// The first cell of an object after so many others, which have this limit.
fn start_at(most: u32, before: u64) -> u32
    ensures { result ≡ profile.start_at most before }
{
    if before <= u64::from(most) {
        before as u32
    } else {
        most
    }
}

impl<'a> Scope<'a> {
    /// The scope of a unit without declarations, whose functions with a body are these. Takes no
    /// memory.
    pub fn of_file(alloc: Global, bodies: Bodies<'a>) -> Scope<'a>
        ensures { scope_of result ≡ scopes.file_scope bodies.entry }
    {
        Scope {
            names: Table::new(alloc),
            tags: Table::new(alloc),
            names_from: 0,
            tags_from: 0,
            is_file: true,
            structures: Vec::new(alloc),
            statics: Vec::new(alloc),
            static_cells: 0,
            bodies,
            objects: Vec::new(alloc),
            frame: 0,
            arrays: 0,
            labels: None,
        }
    }

    /// What a name means (C17 6.2.1p4).
    pub fn meaning(&self, name: &Identifier<'_>) -> Option<&Meaning>
        ensures { option_map meaning_of (option_copied result)
            ≡ scopes.meaning_of (name_of name.now) (scope_of self.now) }
    {
        self.names.get(name.text)
    }

    /// What the innermost block declares a name to be.
    pub fn meaning_here(&self, name: &Identifier<'_>) -> Option<&Meaning>
        ensures { option_map meaning_of (option_copied result)
            ≡ scopes.meaning_here (name_of name.now) (scope_of self.now) }
    {
        self.names.get_from(self.names_from, name.text)
    }

    /// What a tag means (C17 6.2.3p1).
    pub fn tag(&self, tag: &Identifier<'_>) -> Option<&TagMeaning>
        ensures { option_map tag_of (option_copied result)
            ≡ scopes.tag_of (name_of tag.now) (scope_of self.now) }
    {
        self.tags.get(tag.text)
    }

    /// What the innermost block declares a tag to be.
    pub fn tag_here(&self, tag: &Identifier<'_>) -> Option<&TagMeaning>
        ensures { option_map tag_of (option_copied result)
            ≡ scopes.tag_here (name_of tag.now) (scope_of self.now) }
    {
        self.tags.get_from(self.tags_from, tag.text)
    }

    /// Declares a name in the innermost block.
    pub fn declare(&mut self, name: &Identifier<'a>, meaning: Meaning) -> Result<(), AllocError>
        ensures { IfOk result (λ _. scope_of self.new
            ≡ scopes.with_name (name_of name.now) (meaning_of meaning) (scope_of self.old)) }
    {
        self.names.push(name.text, meaning)
    }

    /// Declares a tag in the innermost block.
    pub fn declare_tag(
        &mut self,
        tag: &Identifier<'a>,
        meaning: TagMeaning,
    ) -> Result<(), AllocError>
        ensures { IfOk result (λ _. scope_of self.new
            ≡ scopes.with_tag (name_of tag.now) (tag_of meaning) (scope_of self.old)) }
    {
        self.tags.push(tag.text, meaning)
    }

    /// One more structure type, whose number is that of the structure types before it.
    pub fn add_structure(&mut self, structure: Structure<'a>) -> Result<(), AllocError>
        ensures { IfOk result (λ _. scope_of self.new
            ≡ scopes.with_structure (structure_of structure.entry) (scope_of self.old)) }
    {
        push(&mut self.structures, structure)
    }

    /// The structure type with a number is this from now on.
    pub fn set_structure(&mut self, number: usize, structure: Structure<'a>)
        requires { number < length self.old.structures.items }
        ensures { scope_of self.new
            ≡ scopes.with_structure_at number (structure_of structure.entry) (scope_of self.old) }
    {
        self.structures[number] = structure;
    }

    /// The same, where there is a structure type with this number. Takes no memory.
    pub fn put_structure(&mut self, number: usize, structure: Structure<'a>)
        ensures { scope_of self.new
            ≡ scopes.with_structure_at number (structure_of structure.entry) (scope_of self.old) }
    {
        if number < self.structures.len() {
            self.set_structure(number, structure);
        } else {
            drop(structure);
        }
    }

    /// Where the next object of the function stands. Takes no memory.
    pub fn next_slot(&self) -> Slot
        ensures { result ≡ scopes.next_slot (scope_of self.now) }
    {
        Slot {
            object: start_at(u32::MAX, self.objects.len() as u64),
            start: start_at(MOST_FRAME_CELLS, self.frame),
        }
    }

    /// Whether the function has more objects than have numbers. Takes no memory.
    pub fn has_unnumbered(&self) -> bool
        ensures { result ≡ nat_lt profile.most_numbered (length (scope_of self.now).objects) }
    {
        self.objects.len() > u32::MAX as usize
    }

    /// Where the next object with static storage duration stands. Takes no memory.
    pub fn next_static(&self) -> Slot
        ensures { result ≡ scopes.next_static (scope_of self.now) }
    {
        Slot {
            object: start_at(u32::MAX, self.statics.len() as u64),
            start: start_at(MOST_STATIC_CELLS, self.static_cells),
        }
    }

    /// Whether there is no number for one more object with static storage duration. Takes no memory.
    pub fn is_full_of_statics(&self) -> bool
        ensures { result ≡ nat_le profile.most_numbered (length (scope_of self.now).statics) }
    {
        self.statics.len() >= u32::MAX as usize
    }

    /// One more object of the function, with so many cells, as far as 32 bits count them.
    pub fn add_object(&mut self, object_type: ObjType, count: u32) -> Result<(), AllocError>
        requires { count ≡ profile.counted (cells (object_type_of object_type)) }
        ensures { IfOk result (λ _. scope_of self.new
            ≡ scopes.with_object (object_type_of object_type) (scope_of self.old)) }
    {
        let start = start_at(MOST_FRAME_CELLS, self.frame);
        let object = Object {
            object_type,
            cells: count,
            start,
        };
        push(&mut self.objects, object)?;
        self.frame = sum_of(self.frame, u64::from(count));
        Ok(())
    }

    /// So many cells of the frame count no more.
    pub fn uncount(&mut self, count: u64)
        ensures { scope_of self.new ≡ scopes.uncounted count (scope_of self.old) }
    {
        self.frame = self.frame.saturating_sub(count);
    }

    /// One more object with static storage duration, with these initial values and so many cells, as
    /// far as 32 bits count them.
    pub fn add_static(
        &mut self,
        object_type: ObjType,
        count: u32,
        initial: Vec<i128>,
    ) -> Result<(), AllocError>
        requires { count ≡ profile.counted (cells (object_type_of object_type)) }
        ensures { IfOk result (λ _. scope_of self.new
            ≡ scopes.with_static (object_type_of object_type) initial.items (scope_of self.old)) }
    {
        let start = start_at(MOST_STATIC_CELLS, self.static_cells);
        let object = StaticObject {
            object_type,
            cells: count,
            start,
            initial,
        };
        push(&mut self.statics, object)?;
        self.static_cells = sum_of(self.static_cells, u64::from(count));
        Ok(())
    }

    /// One more array parameter. Takes no memory.
    pub fn add_array(&mut self)
        ensures { scope_of self.new ≡ scopes.with_array (scope_of self.old) }
    {
        self.arrays = self.arrays.saturating_add(1);
    }
}
