//! Blocks (C17 6.2.1p4).
ghost use Rattle.std.specs.Prelude.{◌≡◌, IfOk, option_map};
ghost use Rattle.mc_tree.specs.Views.{name_of};
ghost use Rattle.types_rules.specs.Scopes as scopes;
ghost use Rattle.types_scopes.specs.Blocks.{Around, around, around_of, left_by, function_left_by};
ghost use Rattle.types_scopes.specs.Views.{scope_of};

use crate::labels::Labels;
use crate::scope::Scope;
use std::alloc::Global;

/// What stands again at the end of a block.
#[derive(Drop)]
pub struct Block {
    pub names: usize,
    pub tags: usize,
    pub names_from: usize,
    pub tags_from: usize,
    pub is_file: bool,
    pub labels: Option<Labels>,
}

impl<'a> Scope<'a> {
    /// A new block, which may be the body of a `switch` with the labels so far. Takes no memory.
    pub fn enter(&mut self, labels: Option<Labels>) -> Block
        ensures block { around_of result ≡ around (scope_of self.old) }
        ensures entered { scope_of self.new ≡ scopes.entered labels (scope_of self.old) }
    {
        let block = Block {
            names: self.names.len(),
            tags: self.tags.len(),
            names_from: self.names_from,
            tags_from: self.tags_from,
            is_file: self.is_file,
            labels: std::mem::replace(&mut self.labels, labels),
        };
        self.names_from = block.names;
        self.tags_from = block.tags;
        self.is_file = false;
        block
    }

    /// The end of a block: the names before it, and all objects. Takes no memory.
    pub fn leave(&mut self, block: Block)
        ensures { scope_of self.new ≡ left_by (around_of block) (scope_of self.old) }
    {
        self.names.truncate(block.names);
        self.tags.truncate(block.tags);
        self.names_from = block.names_from;
        self.tags_from = block.tags_from;
        self.is_file = block.is_file;
        self.labels = block.labels;
    }

    /// The parameters of a function, whose objects begin a frame. Takes no memory.
    pub fn enter_prototype(&mut self, alloc: Global) -> Block
        ensures block { around_of result ≡ around (scope_of self.old) }
        ensures entered { scope_of self.new ≡ scopes.prototype (scope_of self.old) }
    {
        let block = self.enter(None);
        self.objects = Vec::new(alloc);
        self.frame = 0;
        self.arrays = 0;
        block
    }

    /// The end of a function's definition. Takes no memory.
    pub fn leave_function(&mut self, alloc: Global, block: Block)
        ensures { scope_of self.new ≡ function_left_by (around_of block) (scope_of self.old) }
    {
        self.leave(block);
        self.objects = Vec::new(alloc);
        self.frame = 0;
        self.arrays = 0;
    }
}
