//! A program with its probes, which is well-formed by its type.
ghost use Rattle.std.specs.Prelude.{◌≡◌};
ghost use Rattle.mc_probe.specs.Trees.{tree_of};
ghost use Rattle.mc_probe.specs.WellFormed.{IsWellFormed};

use mc_typed::Program;
use std::marker::Model;

/// A program with probes: its typed tree, how many registers an activation of each function has,
/// and how many bits there are. It is well-formed: the program under the probes is sound, each
/// register that a probe names is one of its function's, and each probe stands where one can stand.
#[derive(Drop)]
pub struct Instrumented<'a> {
    program: Program<'a>,
    bits: u32,
}

impl<'a> Model for Instrumented<'a> {
    ghost use Rattle.mc_probe.specs.Trees.{tree_of};
    ghost use Rattle.mc_probe.specs.Trees as value;
    ghost use Rattle.mc_probe.specs.WellFormed.{IsWellFormed};
    ghost use Rattle.std.specs.Coded.{codes};
    ghost use Rattle.mc_value.specs.contracts.object_type.ObjType as object_types_of;
    ghost use Rattle.mc_typed.specs.contracts.expressions.Expression as expressions_of;
    ghost use Rattle.mc_typed.specs.contracts.expressions.Place as places_of;
    ghost use Rattle.mc_typed.specs.contracts.expressions.Structure as structures_of;
    ghost use Rattle.mc_typed.specs.contracts.expressions.FunctionCall as calls_of;
    ghost use Rattle.mc_typed.specs.contracts.effects.Effect as effects_of;
    ghost use Rattle.mc_typed.specs.contracts.initializers.Initializer as initializers_of;
    ghost use Rattle.mc_typed.specs.contracts.statements.Statement as statements_of;

    ghost Value = { value.Instrumented };

    ghost coded = { Prim.hlevel (
      codes,
      object_types_of.the_row.coded,
      expressions_of.the_row.coded,
      places_of.the_row.coded,
      structures_of.the_row.coded,
      calls_of.the_row.coded,
      effects_of.the_row.coded,
      initializers_of.the_row.coded,
      statements_of.the_row.coded,
    ) };

    ghost view = { λ i. record { program = i.program; bits = i.bits } };

    ghost invariant = { λ i. IsWellFormed (tree_of (record {
      program = i.program;
      bits = i.bits;
    })) };
}

impl<'a> Instrumented<'a> {
    /// The program with probes of this tree.
    pub fn new(program: Program<'a>, bits: u32) -> Instrumented<'a>
        requires { IsWellFormed (tree_of (record { program = program; bits = bits })) }
        ensures { result ≡ record { program = program.entry; bits = bits } }
    {
        Instrumented { program, bits }
    }

    /// The program, whose tree has the probes. Takes no memory.
    pub fn program(&self) -> &Program<'a>
        ensures program { result.now ≡ self.now.program }
        ensures well_formed { IsWellFormed (tree_of self.now) }
    {
        &self.program
    }

    /// How many bits there are: those below it are the tree's. Takes no memory.
    pub fn bits(&self) -> u32
        ensures { result ≡ self.now.bits }
    {
        self.bits
    }
}
