//! The tree of a decision.

ghost use Rattle.std.specs.Prelude.{◌≡◌, ◌≤◌, ◌↔◌, IsTrue};
ghost use Rattle.mc_cond.specs.Tree.{tree_of, size, IsNumbered, IsShort, AreBelow};
ghost use Rattle.mc_cond.specs.Vectors.{truth_of, row_in, xor};

/// A decision: conditions under Boolean operators (DO-178C, glossary).
/// Conditions are numbered from 0 on in the order of the text, and there are at most 64 of them:
/// each call that takes a tree asks for this. Each call goes down the tree by recursion, so the
/// stack that it takes grows with the height of the tree, long chains of NOT included.
#[derive(Drop)]
pub enum CondTree {
    /// A condition, by its number.
    Leaf(u32),
    /// `!` of C17 6.5.3.3.
    Not(Box<CondTree>),
    /// `&&` of C17 6.5.13.
    And(Box<CondTree>, Box<CondTree>),
    /// `||` of C17 6.5.14.
    Or(Box<CondTree>, Box<CondTree>),
    /// `&` of C17 6.5.10 between Boolean operands. Both are evaluated.
    FullAnd(Box<CondTree>, Box<CondTree>),
    /// `|` of C17 6.5.12 between Boolean operands. Both are evaluated.
    FullOr(Box<CondTree>, Box<CondTree>),
    /// `^` of C17 6.5.11 between Boolean operands. Both are evaluated.
    FullXor(Box<CondTree>, Box<CondTree>),
}

/// How many conditions a decision has.
pub fn conditions(tree: &CondTree) -> u32
    requires { IsNumbered (tree_of tree.now) }
    ensures { result ≡ size (tree_of tree.now) }
{
    conditions_in(tree)
}

/// How many conditions stand in a part of a decision.
pub fn conditions_in(tree: &CondTree) -> u32
    requires { size (tree_of tree.now) ≤ 64 }
    ensures { result ≡ size (tree_of tree.now) }
{
    match tree {
        CondTree::Leaf(_) => 1,
        CondTree::Not(operand) => conditions_in(operand),
        CondTree::And(left, right)
        | CondTree::Or(left, right)
        | CondTree::FullAnd(left, right)
        | CondTree::FullOr(left, right)
        | CondTree::FullXor(left, right) => conditions_in(left) + conditions_in(right),
    }
}

/// Whether no operator of a decision is evaluated in full.
pub fn is_short(tree: &CondTree) -> bool
    ensures { IsTrue result ↔ IsShort (tree_of tree.now) }
{
    match tree {
        CondTree::Leaf(_) => true,
        CondTree::Not(operand) => is_short(operand),
        CondTree::And(left, right) | CondTree::Or(left, right) => is_short(left) && is_short(right),
        CondTree::FullAnd(_, _) | CondTree::FullOr(_, _) | CondTree::FullXor(_, _) => false,
    }
}

/// The outcome of a decision on a row of its truth table: bit k of `row` says whether condition k
/// is true.
pub fn truth(tree: &CondTree, row: u64) -> bool
    requires { IsNumbered (tree_of tree.now) }
    ensures { result ≡ truth_of (tree_of tree.now) (row_in row) }
{
    holds(tree, row)
}

/// The outcome of a part of a decision.
fn holds(tree: &CondTree, row: u64) -> bool
    requires { AreBelow 64 (tree_of tree.now) }
    ensures { result ≡ truth_of (tree_of tree.now) (row_in row) }
{
    match tree {
        CondTree::Leaf(k) => (row >> *k) & 1 == 1,
        CondTree::Not(operand) => !holds(operand, row),
        CondTree::And(left, right) | CondTree::FullAnd(left, right) => {
            holds(left, row) && holds(right, row)
        }
        CondTree::Or(left, right) | CondTree::FullOr(left, right) => {
            holds(left, row) || holds(right, row)
        }
        CondTree::FullXor(left, right) => differ(holds(left, row), holds(right, row)),
    }
}

/// The exclusive OR of two outcomes.
pub(crate) fn differ(first: bool, second: bool) -> bool
    ensures { result ≡ xor first second }
{
    first != second
}
