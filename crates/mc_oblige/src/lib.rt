//! Obligations of a map, and verdicts on them with their evidence.
#![tactic(auto)]

mod conditions;
mod decisions;
mod evaluated;
mod evidence;
mod id;
mod judging;
mod justification;
mod laws;
mod listing;
mod obligation;
mod outcomes;
mod paths;
mod places;
mod seen;
mod table;
mod verdict;

pub use evaluated::{EvaluatedPath, evaluated_paths};
pub use id::id_text;
pub use judging::judge;
pub use justification::{Justification, Reason};
pub use laws::{evaluated_paths_are_one, verdicts_are_one};
pub use listing::obligations;
pub use obligation::{Obligation, ObligationId};
pub use report_options::Mode;
pub use verdict::{Evidence, Verdict, VerdictState};
