//! Why a unit has no typed program.

use std::alloc::AllocError;
use thiserror::Error;
use types_faults::{Fault, FaultKind};

/// The first fault of the names and types of a unit, or that memory ran out. `at` is the byte at
/// which the fault stands.
#[derive(Clone, Copy, Debug, Error)]
pub enum TypeFault {
    /// A name, tag or member has no declaration in scope.
    #[error("undeclared")]
    Undeclared { at: u32 },
    /// A name is declared again in its scope and name space, or has a second body.
    #[error("redeclared")]
    Redeclared { at: u32 },
    /// Types do not fit, or a rule of C17 6.5 to 6.9 is broken that no other fault names.
    #[error("mismatch")]
    Mismatch { at: u32 },
    /// What has to be an integer constant expression is none, or its value traps.
    #[error("not constant")]
    NotConstant { at: u32 },
    /// A label of a `switch` stands there twice.
    #[error("duplicate label")]
    DuplicateLabel { at: u32 },
    /// A function is called that has no body.
    #[error("no body")]
    NoBody { at: u32 },
    /// A function, an object, a structure, a parameter or all static objects together are too
    /// large.
    #[error("type limit")]
    Limit { at: u32 },
    /// Memory ran out.
    #[error("out of memory")]
    OutOfMemory,
}

ghost use Rattle.std.specs.Prelude.{◌≡◌, Some};
ghost use Rattle.mc_types.specs.Faults.{fault_of, place_of, word_of};

impl TypeFault {
    /// The fault where it is one of the unit.
    pub(crate) fn first(fault: Fault) -> TypeFault
        ensures { fault_of result ≡ Some fault }
    {
        let at = fault.at;
        match fault.kind {
            FaultKind::Undeclared => TypeFault::Undeclared { at },
            FaultKind::Redeclared => TypeFault::Redeclared { at },
            FaultKind::Mismatch => TypeFault::Mismatch { at },
            FaultKind::NotConstant => TypeFault::NotConstant { at },
            FaultKind::DuplicateLabel => TypeFault::DuplicateLabel { at },
            FaultKind::NoBody => TypeFault::NoBody { at },
            FaultKind::Limit => TypeFault::Limit { at },
        }
    }

    /// The place of the fault: the byte at which it stands. That memory ran out has none.
    pub fn at(&self) -> Option<u32>
        ensures { result ≡ place_of self.now }
    {
        match *self {
            TypeFault::Undeclared { at } => Some(at),
            TypeFault::Redeclared { at } => Some(at),
            TypeFault::Mismatch { at } => Some(at),
            TypeFault::NotConstant { at } => Some(at),
            TypeFault::DuplicateLabel { at } => Some(at),
            TypeFault::NoBody { at } => Some(at),
            TypeFault::Limit { at } => Some(at),
            TypeFault::OutOfMemory => None,
        }
    }

    /// What the fault is called. That memory ran out has no words.
    pub fn words(&self) -> &'static str
        ensures { result.now ≡ word_of self.now }
    {
        match *self {
            TypeFault::Undeclared { .. } => "undeclared",
            TypeFault::Redeclared { .. } => "redeclared",
            TypeFault::Mismatch { .. } => "mismatch",
            TypeFault::NotConstant { .. } => "not constant",
            TypeFault::DuplicateLabel { .. } => "duplicate label",
            TypeFault::NoBody { .. } => "no body",
            TypeFault::Limit { .. } => "type limit",
            TypeFault::OutOfMemory => "",
        }
    }
}

impl From<AllocError> for TypeFault {
    ghost use Rattle.mc_types.specs.declared.fault.TypeFault.TheVariants.{OutOfMemory};

    ghost from_gives = { λ _ e. e ≡ OutOfMemory };

    fn from(_error: AllocError) -> TypeFault {
        TypeFault::OutOfMemory
    }
}
