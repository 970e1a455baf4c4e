//! What follows from the definitions of paths. The functions do nothing: each has a law as its
//! contract. The first three say that numbers and vectors correspond one to one, order kept. The
//! others are of decisions without operators that are evaluated in full.

ghost use Rattle.mc_paths.specs.Laws.{
  CountIsOfGraph,
  IncrementIsOfGraph,
  NumberCountsVectorsBefore,
  NumberIsBelow,
  NumberIsOnce,
  NumberIsTaken,
  NumberKeepsOrder,
  VectorGoesAlongGraph,
};

/// The number of each vector is below the count.
pub fn number_below()
    ensures { NumberIsBelow }
{}

/// No two vectors have one number.
pub fn number_once()
    ensures { NumberIsOnce }
{}

/// The order of numbers is the order of vectors: conditions from the first, true before false
/// before not evaluated.
pub fn number_order()
    ensures { NumberKeepsOrder }
{}

/// Each number below the count is that of a vector: none is idle.
pub fn number_taken()
    ensures { NumberIsTaken }
{}

/// The number of a vector is how many vectors stand before it.
pub fn number_counts()
    ensures { NumberCountsVectorsBefore }
{}

/// A decision has as many paths as lead through its short-circuit graph.
pub fn count_of_graph()
    ensures { CountIsOfGraph }
{}

/// A false edge adds as many as paths lead on from the condition's true successor.
pub fn increment_of_graph()
    ensures { IncrementIsOfGraph }
{}

/// An evaluation goes along the short-circuit graph.
pub fn vector_along_graph()
    ensures { VectorGoesAlongGraph }
{}
