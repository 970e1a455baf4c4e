//! A typed program: its structure types, objects and functions.
ghost use Rattle.std.specs.Prelude.{◌≡◌, ◌<◌, length, slice_get, Some, IfSome};
ghost use Rattle.mc_typed.specs.Sound.{IsFunction, IsSound};
ghost use Rattle.mc_typed.specs.Views.{function_of, program_of};

use crate::functions::Function;
use crate::objects::StaticObject;
use mc_value::ObjType;
use std::marker::Model;

/// The typed program of an accepted source: its functions that have a body, in the order of their
/// definitions, its objects with static storage duration and its structure types, each by its
/// number. Each program is sound: types fit, conversions are written, what is named exists, and the
/// limits hold. It is the same program whatever probes its tree has.
pub struct Program<'a> {
    functions: Vec<Function<'a>>,
    statics: Vec<StaticObject>,
    structures: Vec<ObjType>,
}

impl Drop for Program<'_> {
    fn drop(self) {
        let Self {
            functions: _,
            statics: _,
            structures: _,
        } = self;
    }
}

impl<'a> Model for Program<'a> {
    ghost use Rattle.mc_typed.specs.Views.{Parts, program_of};
    ghost use Rattle.mc_typed.specs.Sound.{IsSound};
    ghost use Rattle.std.specs.Coded.{codes};
    ghost use Rattle.mc_value.specs.contracts.object_type.ObjType as object_types_of;
    ghost use Rattle.mc_typed.specs.contracts.expressions.Expression as expressions_of;
    ghost use Rattle.mc_typed.specs.contracts.expressions.Place as places_of;
    ghost use Rattle.mc_typed.specs.contracts.expressions.Structure as structures_of;
    ghost use Rattle.mc_typed.specs.contracts.expressions.FunctionCall as calls_of;
    ghost use Rattle.mc_typed.specs.contracts.effects.Effect as effects_of;
    ghost use Rattle.mc_typed.specs.contracts.initializers.Initializer as initializers_of;
    ghost use Rattle.mc_typed.specs.contracts.statements.Statement as statements_of;

    ghost Value = { Parts };

    ghost coded = { Prim.hlevel (
      codes,
      object_types_of.the_row.coded,
      expressions_of.the_row.coded,
      places_of.the_row.coded,
      structures_of.the_row.coded,
      calls_of.the_row.coded,
      effects_of.the_row.coded,
      initializers_of.the_row.coded,
      statements_of.the_row.coded,
    ) };

    ghost view = { λ p. record {
      functions = p.functions.items;
      statics = p.statics.items;
      structures = p.structures.items;
    } };

    ghost invariant = { λ p. IsSound (program_of (record {
      functions = p.functions.items;
      statics = p.statics.items;
      structures = p.structures.items;
    })) };
}

impl<'a> Program<'a> {
    /// The program of these parts.
    pub fn new(
        functions: Vec<Function<'a>>,
        statics: Vec<StaticObject>,
        structures: Vec<ObjType>,
    ) -> Program<'a>
        requires { IsSound (program_of (record {
          functions = functions.items;
          statics = statics.items;
          structures = structures.items;
        })) }
        ensures { result ≡ record {
          functions = functions.entry.items;
          statics = statics.items;
          structures = structures.items;
        } }
    {
        Program {
            functions,
            statics,
            structures,
        }
    }

    /// The functions, by their numbers. Takes no memory.
    pub fn functions(&self) -> &[Function<'a>]
        ensures functions { result.now ≡ self.now.functions }
        ensures sound { IsSound (program_of self.now) }
    {
        &self.functions
    }

    /// The function with this number. Takes no memory.
    pub fn function(&self, function: u32) -> &Function<'a>
        requires { function < length self.now.functions }
        ensures there { slice_get self.now.functions function ≡ Some result.now }
        ensures sound { IsFunction (program_of self.now) (function_of result.now) }
    {
        &self.functions()[function as usize]
    }

    /// The objects with static storage duration, by their numbers. Takes no memory.
    pub fn statics(&self) -> &[StaticObject]
        ensures statics { result.now ≡ self.now.statics }
        ensures sound { IsSound (program_of self.now) }
    {
        &self.statics
    }

    /// The structure types, by their numbers. Takes no memory.
    pub fn structures(&self) -> &[ObjType]
        ensures structures { result.now ≡ self.now.structures }
        ensures sound { IsSound (program_of self.now) }
    {
        &self.structures
    }
}

/// The type of the object with static storage duration that has this number. Takes no memory.
pub fn object_type<'p>(program: &'p Program<'_>, object: u32) -> &'p ObjType
    requires { object < length program.now.statics }
    ensures { IfSome (slice_get program.now.statics object) (λ o. result.now ≡ o.object_type) }
{
    &program.statics()[object as usize].object_type
}
