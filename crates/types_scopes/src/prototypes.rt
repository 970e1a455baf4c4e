//! Parameter lists, and the outermost block of a body (C17 6.2.1p4, 6.7.6.3).
ghost use Rattle.std.specs.Prelude.{◌≡◌, ◌≤◌, [], length, map, IfOk};
ghost use Rattle.mc_tree.specs.Views.{name_of};
ghost use Rattle.mc_typed.specs.Views.{object_of};
ghost use Rattle.types_rules.specs.Scopes as scopes;
ghost use Rattle.types_scopes.specs.Blocks.{around_of};
ghost use Rattle.types_scopes.specs.Prototypes.{counted, counted_of, cut_to, around_prototype, prototype_of, prototype_left_by, body_in, with_one_name};
ghost use Rattle.types_scopes.specs.Views.{meaning_of, scope_of};

use crate::blocks::Block;
use crate::meanings::Meaning;
use crate::scope::Scope;
use mc_tree::Identifier;
use mc_typed::Object;
use std::alloc::{AllocError, Global};

/// How many objects a function has so far, and the cells of its frame.
#[derive(Clone, Copy)]
pub struct Objects {
    pub count: usize,
    pub frame: u64,
}

/// What stands again after the parameters of a declarator that is no definition's.
#[derive(Drop)]
pub struct Prototype {
    pub block: Block,
    pub structures: usize,
    pub objects: Vec<Object>,
    pub frame: u64,
    pub arrays: u32,
}

impl<'a> Scope<'a> {
    /// The objects of the function so far. Takes no memory.
    pub fn objects_so_far(&self) -> Objects
        ensures { counted_of result ≡ counted (scope_of self.now) }
    {
        Objects {
            count: self.objects.len(),
            frame: self.frame,
        }
    }

    /// The objects of the function are those of before, and no others. Takes no memory.
    pub fn cut_objects(&mut self, before: Objects)
        ensures { scope_of self.new ≡ cut_to (counted_of before) (scope_of self.old) }
    {
        self.objects.truncate(before.count);
        self.frame = before.frame;
    }

    /// The objects of the function, which has none after this. Takes no memory.
    pub fn take_objects(&mut self, alloc: Global) -> Vec<Object>
        ensures objects { map object_of result.items ≡ (scope_of self.old).objects }
        ensures scope { scope_of self.new ≡ record (scope_of self.old) { objects = [] } }
    {
        std::mem::replace(&mut self.objects, Vec::new(alloc))
    }

    /// The parameters of a declarator that is no definition's. Takes no memory.
    pub fn enter_declarator(&mut self, alloc: Global) -> Prototype
        ensures around { prototype_of result ≡ around_prototype (scope_of self.old) }
        ensures entered { scope_of self.new ≡ scopes.prototype (scope_of self.old) }
    {
        let structures = self.structures.len();
        let objects = std::mem::replace(&mut self.objects, Vec::new(alloc));
        let frame = self.frame;
        let arrays = self.arrays;
        let block = self.enter(None);
        self.frame = 0;
        self.arrays = 0;
        Prototype {
            block,
            structures,
            objects,
            frame,
            arrays,
        }
    }

    /// The end of these parameters. Takes no memory.
    pub fn leave_declarator(&mut self, prototype: Prototype)
        ensures { scope_of self.new
            ≡ prototype_left_by (prototype_of prototype) (scope_of self.old) }
    {
        self.leave(prototype.block);
        self.structures.truncate(prototype.structures);
        self.objects = prototype.objects;
        self.frame = prototype.frame;
        self.arrays = prototype.arrays;
    }

    /// After the parameters of a definition, the outermost block of its body: the function's name
    /// comes before the names of the parameters. What stands around the body.
    pub fn enter_body(
        &mut self,
        alloc: Global,
        block: Block,
        name: &Identifier<'a>,
        meaning: Meaning,
    ) -> Result<Block, AllocError>
        requires { block.names ≤ length self.old.names }
        ensures around { IfOk result (λ b. around_of b ≡ with_one_name (around_of block)) }
        ensures body { IfOk result (λ b. scope_of self.new
            ≡ body_in (around_of block).names (name_of name.now) (meaning_of meaning)
            (scope_of self.old)) }
    {
        match self.names.insert(alloc, block.names, name.text, meaning) {
            Ok(count) => {
                self.names_from = count;
                Ok(Block {
                    names: count,
                    tags: block.tags,
                    names_from: block.names_from,
                    tags_from: block.tags_from,
                    is_file: block.is_file,
                    labels: block.labels,
                })
            }
            Err(error) => {
                drop(block);
                Err(error)
            }
        }
    }
}
