//! Decisions as texts.
ghost use Rattle.std.specs.Prelude.{All};
ghost use Rattle.mc_cond.specs.Tree.{tree_of, IsNumbered};

use mc_cond::Vector;
use mc_decide::{CondTree, Decision, Span};
use mc_paths::{Numbering, number};
use std::alloc::{AllocError, Global};

/// The most vectors that are shown of a decision.
const FEW: u32 = 8;

/// For each decision its function, the start and text of its root, its tree, and the start and text
/// of each condition.
pub fn show_decisions(
    shown: &mut String,
    text: &str,
    decisions: &[Decision],
) -> Result<(), AllocError> {
    for decision in decisions {
        show_decision(shown, text, decision)?;
    }
    Ok(())
}

fn show_decision(shown: &mut String, text: &str, decision: &Decision) -> Result<(), AllocError> {
    let function = decision.function;
    write!(shown, "{function}@")?;
    show_place(shown, text, decision.root)?;
    shown.push_str(" ")?;
    show_tree(shown, &decision.tree)?;
    show_places(shown, text, &decision.conditions)?;
    shown.push_str(";")
}

fn show_places(shown: &mut String, text: &str, places: &[Span]) -> Result<(), AllocError> {
    for place in places {
        shown.push_str(" ")?;
        show_place(shown, text, *place)?;
    }
    Ok(())
}

/// Shows `?` for the text of a place that is outside.
fn show_place(shown: &mut String, text: &str, span: Span) -> Result<(), AllocError> {
    let Span { start, end } = span;
    let quoted = text.get(start as usize..end as usize).unwrap_or("?");
    write!(shown, "{start}:{quoted}")
}

#[cycle(tree)]
fn show_tree(shown: &mut String, tree: &CondTree) -> Result<(), AllocError> {
    match tree {
        CondTree::Leaf(k) => write!(shown, "{k}"),
        CondTree::Not(operand) => show_operand(shown, "!", operand),
        CondTree::And(left, right) => {
            show_operand(shown, "(", left)?;
            show_operand(shown, "&", right)?;
            shown.push_str(")")
        }
        CondTree::Or(left, right) => {
            show_operand(shown, "(", left)?;
            show_operand(shown, "|", right)?;
            shown.push_str(")")
        }
        CondTree::FullAnd(left, right) => {
            show_operand(shown, "(", left)?;
            show_operand(shown, " and ", right)?;
            shown.push_str(")")
        }
        CondTree::FullOr(left, right) => {
            show_operand(shown, "(", left)?;
            show_operand(shown, " or ", right)?;
            shown.push_str(")")
        }
        CondTree::FullXor(left, right) => {
            show_operand(shown, "(", left)?;
            show_operand(shown, " xor ", right)?;
            shown.push_str(")")
        }
    }
}

/// Shows a tree after a sign.
#[cycle(tree)]
fn show_operand(shown: &mut String, sign: &str, tree: &CondTree) -> Result<(), AllocError> {
    shown.push_str(sign)?;
    show_tree(shown, tree)
}

fn show_vector(shown: &mut String, vector: &Vector) -> Result<(), AllocError> {
    for k in 0..vector.len() {
        let sign = match vector.answer(k) {
            Some(true) => "T",
            Some(false) => "F",
            None => "-",
        };
        shown.push_str(sign)?;
    }
    let outcome = if vector.outcome() { "=T;" } else { "=F;" };
    shown.push_str(outcome)
}

fn show_numbering(shown: &mut String, numbering: &Numbering) -> Result<(), AllocError> {
    let count = numbering.count();
    if count > FEW {
        return write!(shown, "{count};");
    }
    for path in 0..count {
        if numbering.in_use(path) {
            show_vector(shown, &numbering.vector_of(path))?;
        }
    }
    Ok(())
}

fn show_paths(alloc: Global, shown: &mut String, tree: &CondTree) -> Result<(), AllocError>
    requires { IsNumbered (tree_of tree.now) }
{
    match number(alloc, tree) {
        Ok(numbering) => {
            let told = show_numbering(shown, &numbering);
            drop(numbering);
            told
        }
        Err(fault) => write!(shown, "{fault};"),
    }
}

/// For each decision its vectors in the order of their numbers, how many they are where they are
/// more than eight, or why it has none.
pub fn show_vectors(
    alloc: Global,
    shown: &mut String,
    decisions: &[Decision],
) -> Result<(), AllocError>
    requires { All (λ d. IsNumbered (tree_of d.tree)) decisions.now }
{
    for decision in decisions {
        show_paths(alloc, shown, &decision.tree)?;
    }
    Ok(())
}
