//! The entry of a call and its end. None takes memory.
#![tactic(auto, unfolding(crate::specs::Stores::limits_of))]

ghost use Rattle.std.specs.Prelude.{◌≡◌, ℕ, ◌+◌, ◌<◌, ◌≤◌, ◌++◌, ◌^◌, nat_le, [], ◌∷◌, List, Some, None, length, map, take, replicate, option_map, IfSome};
ghost use Rattle.mc_limits.specs.Limits.{most_levels, most_parameters, most_run_cells};
ghost use Rattle.mc_value.specs.declared.int_type.IntType.{IntType};
ghost use Rattle.mc_typed.specs.declared.plans.Ending.{Ending};
ghost use Rattle.mc_typed.specs.Levels.{limited};
ghost use Rattle.mc_typed.specs.Sound.{values_of};
ghost use Rattle.mc_typed.specs.Tree.{ParameterType};
ghost use Rattle.mc_typed.specs.Views as plain;
ghost use Rattle.mc_steps.specs.Runs.{changes, spends, stops};
ghost use Rattle.mc_steps.specs.Calls.{leaves, passed_to};
ghost use Rattle.mc_steps.specs.Calls as steps;
ghost use Rattle.mc_cells.specs.Rows.{with_cells};
ghost use Rattle.mc_stack.specs.Rooms.{with_values};
ghost use Rattle.mc_probe.specs.Calls.{left, targets};
ghost use Rattle.mc_probe.specs.Flat.{flat};
ghost use Rattle.mc_interp.specs.Calls.{ArePassed, IsPassed};
ghost use Rattle.mc_interp.specs.Entries.{enters, handed, handed_on, left_after, passed_one, CanHandOn, HasEntered, IsHandedOn, IsPassing, StandAll};
ghost use Rattle.mc_interp.specs.Stores.{given_of, lent_of, passed_of, state_of, told};
ghost use Rattle.mc_interp.specs.Typed.{HasTypes};
ghost use Rattle.mc_interp.specs.Keeps.{KeepsLimits, KeepsRowsForAll};

use crate::store::Store;
use crate::values::{Given, Lent, MOST_PASSED, Passed};
use arrayvec::ArrayVec;
use mc_limits::MOST_LEVELS;
use mc_typed::{Ending, Object};

/// The levels of the open activations with this number more.
pub(crate) fn levels_with(held: u32, more: u32) -> u32
    ensures test { (n : ℕ) → limited n ≡ more → nat_le result most_levels
        ≡ nat_le (held + n) most_levels }
    ensures exact { (n : ℕ) → limited n ≡ more → result ≤ most_levels → result ≡ held + n }
{
    held.saturating_add(more)
}

impl Store {
    /// What a call gives is kept.
    pub(crate) fn keep(&mut self, given: Given)
        ensures given { self.new ≡ record self.old { given = given } }
        ensures kept { KeepsRowsForAll self.old self.new }
        ensures limits { KeepsLimits self.old self.new }
    {
        self.given = given;
    }

    /// The run stops, since no more activations may be open.
    pub(crate) fn too_deep(&mut self) -> Option<()>
        ensures ran { spends (stops Ending.Levels) (state_of self.old)
            ≡ told (option_map (λ _. given_of self.new.given) result) self.new }
        ensures none { result ≡ None }
        ensures limits { KeepsLimits self.old self.new }
    {
        self.spend()?;
        self.ending = Ending::Levels;
        None
    }

    /// A call begins: a unit is spent, the levels and then the cells are tested, and the cells of
    /// the frame are there, all unset.
    pub(crate) fn enter(&mut self, levels: u32, cells: u32) -> Option<u32>
        requires { self.old.cells.limit ≡ most_run_cells }
        ensures ran { enters levels cells (state_of self.old) ≡ told result self.new }
        ensures entered { IfSome result (λ base. HasEntered base cells self.old self.new) }
        ensures levels { IfSome result (λ base. levels ≤ most_levels) }
        ensures limits { KeepsLimits self.old self.new }
    {
        self.spend()?;
        if levels > MOST_LEVELS {
            self.ending = Ending::Levels;
            return None;
        }
        match self.cells.enter(cells) {
            Some(base) => Some(base),
            None => {
                self.ending = Ending::Cells;
                None
            }
        }
    }

    /// The registers of an activation are there, all 0.
    pub(crate) fn enter_registers(&mut self, registers: u32)
        requires { length self.old.registers.items + registers ≤ self.old.registers.limit }
        ensures entered { self.new ≡ record self.old {
          registers = with_values self.old.registers
              (self.old.registers.items ++ replicate registers 0);
        } }
        ensures limits { KeepsLimits self.old self.new }
    {
        self.registers.enter(registers as usize, 0);
    }

    /// Gives back the cells and the registers from these on.
    fn leave(&mut self, base: u32, first: usize)
        requires { base ≤ length self.old.cells.cells }
        ensures left { self.new ≡ record self.old {
          cells = with_cells self.old.cells (take base self.old.cells.cells);
          registers = with_values self.old.registers (take first self.old.registers.items);
        } }
        ensures limits { KeepsLimits self.old self.new }
    {
        self.cells.leave(base);
        self.registers.leave(first);
    }

    /// A structure that is returned is copied to the temporary object of the call.
    fn hand_on(&mut self, into: Option<u32>)
        requires { CanHandOn self.old.given into (length self.old.cells.cells) }
        ensures ran { handed into (given_of self.old.given) (state_of self.old)
            ≡ told (Some (given_of self.new.given)) self.new }
        ensures given { self.new.given ≡ handed_on self.old.given into }
        ensures kept { (types : List IntType) → IsHandedOn types self.old.given into →
            HasTypes types self.old.cells.cells → HasTypes types self.new.cells.cells }
        ensures cells { length self.new.cells.cells ≡ length self.old.cells.cells }
        ensures registers { self.new.registers.items ≡ self.old.registers.items }
        ensures fuel { self.new.fuel ≡ self.old.fuel }
        ensures limits { KeepsLimits self.old self.new }
    {
        if let Given::Structure { at, cells } = self.given {
            match into {
                Some(to) => {
                    self.copy(at, to, cells);
                    self.keep(Given::Structure { at: to, cells });
                }
                None => self.keep(Given::Nothing),
            }
        }
    }

    /// A call ends: a structure that is returned is copied, and then the cells and registers of the
    /// activation are given back.
    pub(crate) fn finish(&mut self, into: Option<u32>, base: u32, first: usize)
        requires copy { CanHandOn self.old.given into (length self.old.cells.cells) }
        requires base { base ≤ length self.old.cells.cells }
        requires first { first ≤ length self.old.registers.items }
        ensures ran { leaves flat into (left base first) (given_of self.old.given)
            (state_of self.old) ≡ told (Some (given_of self.new.given)) self.new }
        ensures given { self.new.given ≡ handed_on self.old.given into }
        ensures typed { (types more : List IntType) → length types ≡ base →
            IsHandedOn (types ++ more) self.old.given into →
            HasTypes (types ++ more) self.old.cells.cells → HasTypes types self.new.cells.cells }
        ensures cells { length self.new.cells.cells ≡ base }
        ensures registers { length self.new.registers.items ≡ first }
        ensures fuel { self.new.fuel ≡ self.old.fuel }
        ensures limits { KeepsLimits self.old self.new }
    {
        self.hand_on(into);
        self.leave(base, first);
    }
}

/// The arrays that are passed, in their order.
pub(crate) fn lend(passed: &[Passed], arrays: &mut ArrayVec<Lent, MOST_PASSED>)
    requires none { arrays.old.items ≡ [] }
    requires few { length passed.now ≤ most_parameters }
    ensures { map lent_of arrays.new.items ≡ steps.lent_of (map passed_of passed.now) }
{
    for given in passed {
        if let Passed::Array(lent) = given {
            arrays.push(*lent);
        }
    }
}

/// A parameter that is an object gets its argument's value. It gives the objects that are left.
fn pass_one<'o>(given: Passed, objects: &'o [Object], base: u32, store: &mut Store) -> &'o [Object]
    requires passing { IsPassing (given ∷ []) objects.now base store.old }
    ensures left { result.now ≡ left_after given objects.now }
    ensures ran { changes (passed_one (targets base (map plain.object_of objects.now))
        (passed_of given)) (state_of store.old) ≡ told (Some tt) store.new }
    ensures typed { (types : List IntType) (parameter : ParameterType) →
        IsPassed types given parameter →
        StandAll types base (values_of (parameter ∷ [])) (map plain.object_of objects.now) →
        HasTypes types store.old.cells.cells → HasTypes types store.new.cells.cells }
    ensures cells { length store.new.cells.cells ≡ length store.old.cells.cells }
    ensures registers { store.new.registers.items ≡ store.old.registers.items }
    ensures fuel { store.new.fuel ≡ store.old.fuel }
    ensures limits { KeepsLimits store.old store.new }
{
    match given {
        Passed::Array(_) => objects,
        Passed::Number { of, word } => {
            store.write(base + objects[0].start, of, word);
            &objects[1..]
        }
        Passed::Structure { at } => {
            store.copy(at, base + objects[0].start, objects[0].cells);
            &objects[1..]
        }
    }
}

/// The parameters that are objects get the arguments' values.
pub(crate) fn pass(passed: &[Passed], objects: &[Object], base: u32, store: &mut Store)
    requires passing { IsPassing passed.now objects.now base store.old }
    ensures ran { changes (passed_to flat (targets base (map plain.object_of objects.now))
        (map passed_of passed.now)) (state_of store.old) ≡ told (Some tt) store.new }
    ensures typed { (types : List IntType) (parameters : List ParameterType) →
        ArePassed types passed.now parameters →
        StandAll types base (values_of parameters) (map plain.object_of objects.now) →
        HasTypes types store.old.cells.cells → HasTypes types store.new.cells.cells }
    ensures cells { length store.new.cells.cells ≡ length store.old.cells.cells }
    ensures registers { store.new.registers.items ≡ store.old.registers.items }
    ensures fuel { store.new.fuel ≡ store.old.fuel }
    ensures limits { KeepsLimits store.old store.new }
{
    let mut left = objects;
    for given in passed {
        left = pass_one(*given, left, base, store);
    }
}
