//! Where a condition was seen to be shown last.

use std::alloc::{AllocError, Global};

/// Two paths of a decision that were a pair for a condition when it was last judged. Tests come and
/// go, so it only says where to look first: a pair is looked at before it is relied on.
#[derive(Clone, Copy)]
pub(crate) struct Hint {
    pub(crate) low: u32,
    pub(crate) high: u32,
}

impl Hint {
    /// That of a pair, in either order.
    pub(crate) fn of(pair: (u32, u32)) -> Hint {
        if pair.0 < pair.1 {
            Hint {
                low: pair.0,
                high: pair.1,
            }
        } else {
            Hint {
                low: pair.1,
                high: pair.0,
            }
        }
    }
}

/// The hints of the obligations, by their positions. Only those of conditions ever have one.
#[derive(Drop)]
pub(crate) struct Hints {
    known: Vec<Option<Hint>>,
}

impl Hints {
    /// None for each of the first obligations, which one event each shows.
    pub(crate) fn new(alloc: Global, events: u32) -> Result<Hints, AllocError> {
        let mut known = Vec::new(alloc);
        for _event in 0..events {
            known.push(None)?;
        }
        Ok(Hints { known })
    }

    /// Appends that of the next obligation.
    pub(crate) fn add(&mut self, hint: Option<Hint>) -> Result<(), AllocError> {
        self.known.push(hint)?;
        Ok(())
    }

    /// The hint at a position.
    pub(crate) fn at(&self, position: usize) -> Option<Hint> {
        match self.known.get(position) {
            Some(hint) => *hint,
            None => None,
        }
    }

    /// Puts another one there.
    pub(crate) fn put(&mut self, position: usize, hint: Option<Hint>) {
        if let Some(place) = self.known.get_mut(position) {
            *place = hint;
        }
    }
}
