//! Laws of layouts and of constant expressions, and worked examples. The functions do nothing: each
//! has a law as its contract.
ghost use Rattle.std.specs.Prelude.{◌≡◌};
ghost use Rattle.mc_typed.specs.Levels.{levels_of};
ghost use Rattle.mc_typed.specs.Frames.{frame_of};
ghost use Rattle.mc_typed.specs.Plans.{Fits};
ghost use Rattle.mc_typed.specs.Sound.{IsSound};
ghost use Rattle.mc_typed.specs.Examples as example;
ghost use Rattle.mc_typed.specs.Laws.{CellsHaveTypes, ConstantsAreValues, MembersCanBeAdded, PartsLieWithin, PathsLeadOn, ScalarsAreApart};

/// A part of an object lies within it.
pub fn parts_lie_within()
    ensures { PartsLieWithin }
{}

/// Paths lead to objects and members, and go on from where they end.
pub fn paths_lead_on()
    ensures { PathsLeadOn }
{}

/// A scalar that has one of an object's cells is a part of that object, so different scalars have
/// different cells.
pub fn scalars_are_apart()
    ensures { ScalarsAreApart }
{}

/// With one more member at the end, the others stand where they stood, and it stands after them.
pub fn members_can_be_added()
    ensures { MembersCanBeAdded }
{}

/// An element, a member and a scalar have the types of their cells.
pub fn cells_have_types()
    ensures { CellsHaveTypes }
{}

/// In a sound program the value of a constant expression is one of its type, and each operand is
/// one of its operator, so there is a value wherever no evaluation traps (C17 6.6).
pub fn constants_are_values()
    ensures { ConstantsAreValues }
{}

/// `int f(int n){return n?f(n-1):0;}`: the body, `return`, `?:`, the call, `-`, and its operands.
pub fn recursion()
    ensures sound { IsSound example.recursion }
    ensures levels { levels_of example.recursive ≡ 6 }
    ensures frame { frame_of example.recursive ≡ 1 }
{}

/// `int f(int n){int t[30000];t[0]=n;return n?f(n-1):0;}`.
pub fn recursion_with_array()
    ensures levels { levels_of example.array ≡ 6 }
    ensures frame { frame_of example.array ≡ 30001 }
{}

/// `struct S{int a;};static struct S s;int g(void){s.a=9;return 1;}int h(struct S p,int q){return
/// p.a+q;}` `int f(void){s.a=2;return h(s,g());}`: the copy of `s` is an object of the caller.
pub fn structure_argument()
    ensures sound { IsSound example.structures }
    ensures caller { frame_of example.caller ≡ 1 }
    ensures callee { frame_of example.callee ≡ 2 }
    ensures levels { levels_of example.caller ≡ 5 }
{}

/// `int f(int n){int x=n+1;switch(n){case 1:for(;x<9;x++);default:return (long)x;}}`: a declaration
/// is a level and its initializer is deeper, the body of a `switch` is a level, labels and implied
/// conversions are none, a cast is.
pub fn levels_of_each_construct()
    ensures levels { levels_of example.constructs ≡ 6 }
    ensures frame { frame_of example.constructs ≡ 2 }
{}

/// A test may call a function with a value of each parameter's type, and expect what is returned.
pub fn plans_that_fit()
    ensures fits { Fits example.deep_plan example.recursion }
    ensures out_of_range { ¬ (Fits example.wide_plan example.recursion) }
    ensures structure { ¬ (Fits example.structure_plan example.structures) }
{}
