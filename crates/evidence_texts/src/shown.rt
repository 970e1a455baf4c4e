//! The vectors of the paths of decisions.
ghost use Rattle.std.specs.Prelude.{◌≡◌, ◌++◌, map, slice_get, IfOk, OnOk};
ghost use Rattle.mc_cond.specs.Tree.{tree_of};
ghost use Rattle.mc_paths.specs.Paths.{IsInUse};
ghost use Rattle.mc_probe.specs.Mapped.{mapped_of};
ghost use Rattle.evidence_texts.specs.Paths.{HasPath, path_text, path_vector};
ghost use Rattle.evidence_texts.specs.Vectors.{vector_at};

use crate::vector::push_vector;
use mc_cond::Vector;
use mc_probe::MappedDecision;
use std::alloc::{AllocError, Global};

/// The vector of a path of the decision. Takes no memory.
pub fn vector_of(mapped: &MappedDecision, path: u32) -> Vector
    requires { IsInUse (tree_of mapped.now.decision.tree) path }
    ensures { result ≡ vector_at (tree_of mapped.now.decision.tree) path }
{
    mapped.numbering.vector_of(path)
}

/// The vector of a path of decision `d`, as `TF-=F`.
pub fn path_vector(
    alloc: Global,
    decisions: &[MappedDecision],
    d: u32,
    path: u32,
) -> Result<Vec<u8>, AllocError>
    requires { HasPath (slice_get (map mapped_of decisions.now) d) path }
    ensures { IfOk result (λ text.
        text.items ≡ path_vector (slice_get (map mapped_of decisions.now) d) path) }
{
    let mut text = Vec::new(alloc);
    push_vector(&mut text, &decisions[d as usize].numbering.vector_of(path))?;
    Ok(text)
}

/// Adds the vector of a path of decision `d` after a blank.
pub fn push_path(
    line: &mut Vec<u8>,
    decisions: &[MappedDecision],
    d: u32,
    path: u32,
) -> Result<(), AllocError>
    requires { HasPath (slice_get (map mapped_of decisions.now) d) path }
    ensures { OnOk result (line.new.items ≡ line.old.items
        ++ path_text (slice_get (map mapped_of decisions.now) d) path) }
{
    line.extend_from_slice(b" ")?;
    push_vector(line, &decisions[d as usize].numbering.vector_of(path))
}
