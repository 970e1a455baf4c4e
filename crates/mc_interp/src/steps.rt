//! The steps of a run that evaluate nothing. None takes memory.
#![tactic(auto, unfolding(crate::specs::Stores::limits_of))]

ghost use Rattle.std.specs.Prelude.{◌≡◌, ℕ, ℤ, ◌+◌, ◌*◌, ◌<◌, ◌≤◌, ◌^◌, pos, length, slice_get, slice_set, Some, None, Ok, Err, option_map, IfSome};
ghost use Rattle.mc_limits.specs.Limits.{most_run_cells};
ghost use Rattle.mc_value.specs.declared.int_type.IntType.{IntType};
ghost use Rattle.mc_value.specs.IntTypes.{InRange};
ghost use Rattle.mc_typed.specs.Layout.{ObjectType, Scalar};
ghost use Rattle.mc_typed.specs.Layout.{cells as cells_of};
ghost use Rattle.mc_typed.specs.Sound.{Scope};
ghost use Rattle.mc_steps.specs.Runs.{gives, traps, changes, with_some, with_result, spends};
ghost use Rattle.mc_steps.specs.Expressions as steps;
ghost use Rattle.mc_steps.specs.Calls.{number_given, structure_given};
ghost use Rattle.mc_cells.specs.Rows.{with_cells};
ghost use Rattle.interp_words.specs.Words.{number_of, result_of, Holds, IsRight, IsRightType};
ghost use Rattle.mc_value.specs.Conversions.{converted, promoted};
ghost use Rattle.mc_probe.specs.Flat.{Activation, flat, value_in, with_register, wrapped_sum};
ghost use Rattle.mc_probe.specs.Flat.{register as register_at};
ghost use Rattle.mc_interp.specs.Stores.{state_of, told, given_of, IsNumber, IsStructureAt};
ghost use Rattle.mc_interp.specs.Typed.{IsPlaced};
ghost use Rattle.mc_interp.specs.Frames.{IsKept};
ghost use Rattle.mc_interp.specs.Keeps.{KeepsLimits, KeepsRowsForAll};

use crate::store::Store;
use crate::values::Given;
use interp_steps::{add, item, set};
use interp_words::{convert, operate};
use mc_typed::{Ending, LogicOperator, Operator};
use mc_value::{IntType, Trap, is_signed};

impl Store {
    /// The run stops in a trap.
    #[cold]
    #[inline(never)]
    fn trap(&mut self, trap: Trap)
        ensures ending { self.new ≡ record self.old { ending = Ending.Trap trap } }
        ensures kept { KeepsRowsForAll self.old self.new }
        ensures limits { KeepsLimits self.old self.new }
    {
        self.ending = Ending::Trap(trap);
    }

    /// A unit of fuel is spent, where one is left.
    pub(crate) fn spend(&mut self) -> Option<()>
        ensures ran { spends (gives tt) (state_of self.old) ≡ told result self.new }
        ensures less { IfSome result (λ _. self.new.fuel + 1 ≡ self.old.fuel) }
        ensures kept { KeepsRowsForAll self.old self.new }
        ensures limits { KeepsLimits self.old self.new }
    {
        if self.fuel == 0 {
            self.ending = Ending::Fuel;
            return None;
        }
        self.fuel -= 1;
        Some(())
    }

    /// What an operator gave, or the run stops in its trap.
    #[inline(always)]
    pub(crate) fn give(&mut self, outcome: Result<u64, Trap>) -> Option<u64>
        ensures ran { (t : IntType) → with_result (result_of t outcome) gives (state_of self.old)
            ≡ told (option_map (number_of t) result) self.new }
        ensures same { IfSome result (λ w. outcome ≡ Ok w) }
        ensures kept { KeepsRowsForAll self.old self.new }
        ensures limits { KeepsLimits self.old self.new }
    {
        match outcome {
            Ok(word) => Some(word),
            Err(trap) => {
                self.trap(trap);
                None
            }
        }
    }

    /// The word in a cell of this type, where it is set.
    #[inline(always)]
    fn word_at(&self, at: u32, of: IntType) -> Option<u64>
        requires there { at < length self.now.cells.cells }
        requires typed { (v : ℤ) → slice_get self.now.cells.cells at ≡ Some (Some v) →
            InRange of v }
        ensures value { option_map (number_of of) result
            ≡ value_in (slice_get self.now.cells.cells at) }
        ensures typed { IfSome result (Holds of) }
    {
        let word = if is_signed(of) {
            self.cells.get_signed(at)?.cast_unsigned()
        } else {
            self.cells.get_unsigned(at)?
        };
        Some(word)
    }

    /// The value of a scalar of this type, which is set, or the run stops.
    #[inline(always)]
    pub(crate) fn read(&mut self, at: u32, of: IntType) -> Option<u64>
        requires there { at < length self.old.cells.cells }
        requires typed { (v : ℤ) → slice_get self.old.cells.cells at ≡ Some (Some v) →
            InRange of v }
        ensures ran { with_some Trap.Unset (flat.read at (state_of self.old).memory) gives
            (state_of self.old) ≡ told (option_map (number_of of) result) self.new }
        ensures typed { IfSome result (Holds of) }
        ensures kept { KeepsRowsForAll self.old self.new }
        ensures limits { KeepsLimits self.old self.new }
    {
        match self.word_at(at, of) {
            Some(word) => Some(word),
            None => {
                self.trap(Trap::Unset);
                None
            }
        }
    }

    /// A cell gets a number of this type.
    #[inline(always)]
    fn put(&mut self, at: u32, of: IntType, word: u64)
        requires { at < length self.old.cells.cells }
        ensures { self.new ≡ record self.old {
          cells = with_cells self.old.cells
              (slice_set self.old.cells.cells at (Some (number_of of word)));
        } }
    {
        if is_signed(of) {
            self.cells.set_signed(at, word.cast_signed());
        } else {
            self.cells.set_unsigned(at, word);
        }
    }

    /// A scalar of this type gets a value.
    #[inline(always)]
    pub(crate) fn write(&mut self, at: u32, of: IntType, word: u64)
        requires there { at < length self.old.cells.cells }
        requires fits { Holds of word }
        ensures ran { changes (flat.put at 1 (Some (number_of of word))) (state_of self.old)
            ≡ told (Some tt) self.new }
        ensures kept { (c : Scope) (w : Activation) → IsPlaced c w at (Some (Scalar of)) →
            IsKept c w self.old self.new }
        ensures limits { KeepsLimits self.old self.new }
    {
        self.put(at, of, word);
    }

    /// A compound assignment to a scalar, whose right side has this value.
    #[inline(always)]
    pub(crate) fn update(
        &mut self,
        at: u32,
        of: IntType,
        operator: Operator,
        common: IntType,
        right: u64,
    ) -> Option<()>
        requires there { at < length self.old.cells.cells }
        requires typed { (v : ℤ) → slice_get self.old.cells.cells at ≡ Some (Some v) →
            InRange of v }
        requires type_promoted { promoted common ≡ common }
        requires right { IsRight operator common right }
        ensures ran { (u : IntType) → IsRightType operator common u →
            with_some Trap.Unset (flat.read at (state_of self.old).memory) (λ x s.
            with_result (steps.operated operator common (converted common x)
            (number_of u right)) (λ v s. changes (flat.put at 1 (Some (converted of v))) s) s)
            (state_of self.old) ≡ told result self.new }
        ensures kept { (c : Scope) (w : Activation) → IsPlaced c w at (Some (Scalar of)) →
            IfSome result (λ _. IsKept c w self.old self.new) }
        ensures limits { KeepsLimits self.old self.new }
    {
        let old = self.read(at, of)?;
        let sum = self.give(operate(operator, common, convert(common, old), right))?;
        self.write(at, of, convert(of, sum));
        Some(())
    }

    /// An object of this number of cells is copied from one place to another.
    pub(crate) fn copy(&mut self, from: u32, to: u32, count: u32)
        requires source { from + count ≤ length self.old.cells.cells }
        requires target { to + count ≤ length self.old.cells.cells }
        ensures ran { changes (flat.copy from to count) (state_of self.old)
            ≡ told (Some tt) self.new }
        ensures kept { (c : Scope) (w : Activation) (u : ObjectType) → count ≡ cells_of u →
            IsPlaced c w from (Some u) → IsPlaced c w to (Some u) →
            IsKept c w self.old self.new }
        ensures limits { KeepsLimits self.old self.new }
    {
        self.cells.copy(from, to, count);
    }

    /// So many cells become unset.
    pub(crate) fn unset(&mut self, at: u32, count: u32)
        requires { at + count ≤ length self.old.cells.cells }
        ensures ran { changes (flat.put at count None) (state_of self.old)
            ≡ told (Some tt) self.new }
        ensures kept { KeepsRowsForAll self.old self.new }
        ensures limits { KeepsLimits self.old self.new }
    {
        self.cells.fill(at, count, None);
    }

    /// So many cells become 0.
    pub(crate) fn zero(&mut self, at: u32, count: u32)
        requires { at + count ≤ length self.old.cells.cells }
        ensures ran { changes (flat.put at count (Some (pos 0))) (state_of self.old)
            ≡ told (Some tt) self.new }
        ensures kept { KeepsRowsForAll self.old self.new }
        ensures limits { KeepsLimits self.old self.new }
    {
        self.cells.fill(at, count, Some(0));
    }

    /// An item of an array by its index, which is tested, or the run stops.
    pub(crate) fn item(&mut self, base: u32, length: u32, stride: u32, index: u64) -> Option<u32>
        requires { base + length * stride ≤ most_run_cells }
        ensures ran { (u : IntType) → steps.with_index (number_of u index) length
            (λ i s. gives (base + i * stride) s) (state_of self.old) ≡ told result self.new }
        ensures index { IfSome result (λ k. (i : ℕ) × (i < length) × (k ≡ base + i * stride)) }
        ensures kept { KeepsRowsForAll self.old self.new }
        ensures limits { KeepsLimits self.old self.new }
    {
        match item(base, length, stride, index) {
            Some(at) => Some(at),
            None => {
                self.trap(Trap::Index);
                None
            }
        }
    }

    /// A register gets a value.
    pub(crate) fn set_register(&mut self, first: usize, register: u32, value: u32)
        requires there { first + register < length self.old.registers.items }
        requires small { length self.old.registers.items ≤ 2 ^ 42 }
        ensures ran { changes (with_register (first + register) value) (state_of self.old)
            ≡ told (Some tt) self.new }
        ensures kept { KeepsRowsForAll self.old self.new }
        ensures limits { KeepsLimits self.old self.new }
    {
        set(&mut self.registers, first, register, value);
    }

    /// A number is added to a register; sums wrap.
    pub(crate) fn add_to_register(&mut self, first: usize, register: u32, value: u32)
        requires there { first + register < length self.old.registers.items }
        requires small { length self.old.registers.items ≤ 2 ^ 42 }
        ensures ran { changes (with_register (first + register) (wrapped_sum
            (register_at (first + register) (state_of self.old).memory) value))
            (state_of self.old) ≡ told (Some tt) self.new }
        ensures kept { KeepsRowsForAll self.old self.new }
        ensures limits { KeepsLimits self.old self.new }
    {
        add(&mut self.registers, first, register, value);
    }

    /// The value of a call that is used.
    pub(crate) fn number_given(&mut self) -> Option<u64>
        ensures ran { (t : IntType) → IsNumber t self.old.given →
            number_given (given_of self.old.given) (state_of self.old)
            ≡ told (option_map (number_of t) result) self.new }
        ensures typed { (t : IntType) → IsNumber t self.old.given → IfSome result (Holds t) }
        ensures kept { KeepsRowsForAll self.old self.new }
        ensures limits { KeepsLimits self.old self.new }
    {
        match self.given {
            Given::Number { word, .. } => Some(word),
            Given::Nothing | Given::Structure { .. } => {
                self.trap(Trap::NoReturn);
                None
            }
        }
    }

    /// The structure that a call gave, which is used.
    pub(crate) fn structure_given(&mut self) -> Option<u32>
        ensures ran { structure_given (given_of self.old.given) (state_of self.old)
            ≡ told result self.new }
        ensures placed { IfSome result (λ at. IsStructureAt at self.old.given) }
        ensures kept { KeepsRowsForAll self.old self.new }
        ensures limits { KeepsLimits self.old self.new }
    {
        match self.given {
            Given::Structure { at, .. } => Some(at),
            Given::Nothing | Given::Number { .. } => {
                self.trap(Trap::NoReturn);
                None
            }
        }
    }

    /// The next input, after a unit of fuel, or the run stops.
    pub(crate) fn input(&mut self) -> Option<u64>
        ensures ran { steps.input_does (state_of self.old)
            ≡ told (option_map (number_of IntType.Int) result) self.new }
        ensures typed { IfSome result (Holds IntType.Int) }
        ensures kept { KeepsRowsForAll self.old self.new }
        ensures limits { KeepsLimits self.old self.new }
    {
        self.spend()?;
        if self.next < self.inputs.len() {
            let number = self.inputs.get(self.next);
            self.next += 1;
            Some(i64::from(number).cast_unsigned())
        } else {
            self.trap(Trap::InputEnd);
            None
        }
    }
}

/// Whether the second operand of `&&` or `||` is evaluated.
pub(crate) fn goes_on(operator: LogicOperator, first: bool) -> bool
    ensures { result ≡ steps.goes_on operator first }
{
    match operator {
        LogicOperator::And => first,
        LogicOperator::Or => !first,
    }
}
