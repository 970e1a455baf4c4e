//! New shared words.
ghost use Rattle.std.specs.Prelude.{◌≡◌, ◌<◌, ◌≤◌, Err, IfOk, IfErr};
ghost use Rattle.mc_limits.specs.Limits.{most_words};
ghost use Rattle.mc_core.specs.Shape.{word_count};
ghost use Rattle.mc_cover.specs.Views.{opener};
ghost use Rattle.mc_cover.specs.Model.{IsOf};

use crate::cover::Cover;
use crate::pass::Pass;
use atomic_table::Table;
use mc_core::{Shape, words};
use mc_limits::MOST_WORDS;
use std::alloc::{AllocError, Global};
use thiserror::Error;

/// Why there are no shared words.
#[derive(Clone, Copy, Debug, PartialEq, Eq, Error)]
pub enum OpenFault {
    /// The matrix would need more than `MOST_WORDS` words; this many.
    #[error("matrix needs {words} words")]
    TooLarge { words: u64 },
    /// Memory has run out.
    #[error("out of memory")]
    OutOfMemory,
}

impl From<AllocError> for OpenFault {
    ghost use Rattle.std.specs.Prelude.{◌≡◌};
    ghost use Rattle.mc_cover.specs.declared.opening.OpenFault.TheVariants.{OutOfMemory};

    ghost from_gives = { λ _ e. e ≡ OutOfMemory };

    fn from(_error: AllocError) -> OpenFault {
        OpenFault::OutOfMemory
    }
}

/// Writes all words as 0, and gives the opener's pass.
/// It also takes the memory of the closing matrix.
pub fn open(alloc: Global, shape: Shape) -> Result<(Cover, Pass), OpenFault>
    ensures own { IfOk result (λ r. IsOf r.0 r.1) }
    ensures shape { IfOk result (λ r. (r.0.shape ≡ shape) × (word_count shape ≤ most_words)) }
    ensures view { IfOk result (λ r. r.1.view ≡ opener shape) }
    ensures too_large { most_words < word_count shape
        → result ≡ Err (OpenFault.TooLarge (word_count shape)) }
    ensures fits { word_count shape ≤ most_words → IfErr result (λ e. e ≡ OpenFault.OutOfMemory) }
{
    let count = words(shape);
    if count > MOST_WORDS {
        return Err(OpenFault::TooLarge { words: count });
    }
    // One vector holds the zeros, and then keeps the room for the matrix.
    let mut room: Vec<u64> = vec![in alloc; 0; count as usize + 1]?;
    let (table, seat) = Table::of_words(alloc, room.as_slice(), &shape)?;
    let _ = room.pop();
    Ok((Cover { table, shape, room }, Pass { seat }))
}
