//! One member of a structure (C17 6.7.2.1).
ghost use Rattle.std.specs.Prelude.{◌≡◌, IfOk};
ghost use Rattle.mc_typed.specs.Layout.{object_type_of};
ghost use Rattle.types_scopes.specs.Listed.{layout_of};

use crate::lists::shared;
use crate::types::CType;
use mc_typed::share;
use mc_value::ObjType;
use std::alloc::{AllocError, Global};

/// A member: its type where it has one, how it is laid out, and after how many cells of its
/// structure it begins. Without a type it has no layout and no cells.
#[derive(Drop)]
pub struct Member {
    pub of: Option<CType>,
    pub layout: Option<ObjType>,
    pub offset: u32,
}

impl Member {
    /// Its layout, shared.
    pub fn layout(&self, alloc: Global) -> Result<ObjType, AllocError>
        ensures { IfOk result (λ r. object_type_of r ≡ layout_of self.now.layout) }
    {
        match &self.layout {
            Some(layout) => share(layout),
            None => {
                let members = shared(alloc, Vec::new(alloc))?;
                Ok(ObjType::Struct { number: 0, members })
            }
        }
    }
}
