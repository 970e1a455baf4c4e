//! Labels of a `switch` (C17 6.8.1).
ghost use Rattle.std.specs.Prelude.{◌≡◌, ℤ, ◌||◌, [], false, IfOk, OnOk, OnErr};
ghost use Rattle.types_rules.specs.Statements.{has_value, with_value, default_in};
ghost use Rattle.mc_value.specs.Arithmetic.{are_equal};
ghost use Rattle.types_scopes.specs.Seen.{is_in};

use mc_value::IntType;
use std::alloc::{AllocError, Global};
use std::collections::BTreeSet;
use std::marker::Model;

/// The labels of a `switch` so far: the promoted type of its controlling expression, their values,
/// found in logarithmic time, and whether `default` is among them.
#[derive(Drop)]
pub struct Labels {
    value_type: Option<IntType>,
    values: Vec<i128>,
    sorted: BTreeSet<i128>,
    has_default: bool,
}

impl Model for Labels {
    ghost use Rattle.types_rules.specs.Scopes as s;
    ghost use Rattle.types_scopes.specs.Seen.{AreSorted};

    ghost Value = { s.Labels };

    ghost view = { λ l. record {
      value_type = l.value_type;
      values = l.values.items;
      has_default = l.has_default;
    } };

    ghost invariant = { λ l. AreSorted l.values.items l.sorted };
}

impl Labels {
    /// No labels. Takes no memory.
    pub fn new(alloc: Global, value_type: Option<IntType>) -> Labels
        ensures { result ≡ record { value_type = value_type; values = []; has_default = false } }
    {
        Labels {
            value_type,
            values: Vec::new(alloc),
            sorted: BTreeSet::new(alloc),
            has_default: false,
        }
    }

    /// The same labels.
    pub fn try_clone(&self) -> Result<Labels, AllocError>
        ensures { IfOk result (λ r. r ≡ self.now) }
    {
        let values = self.values.clone()?;
        match self.sorted.clone() {
            Ok(sorted) => Ok(Labels {
                value_type: self.value_type,
                values,
                sorted,
                has_default: self.has_default,
            }),
            Err(error) => {
                drop(values);
                Err(error)
            }
        }
    }

    /// The promoted type of the controlling expression, where it has one. Takes no memory.
    pub fn value_type(&self) -> Option<IntType>
        ensures { result ≡ self.now.value_type }
    {
        self.value_type
    }

    /// Whether a label has this value. Takes no memory.
    pub fn has_value(&self, value: i128) -> bool
        ensures { result ≡ has_value value self.now.values }
    {
        self.sorted.contains(&value)
    }

    /// Whether `default` is among them. Takes no memory.
    pub fn has_default(&self) -> bool
        ensures { result ≡ self.now.has_default }
    {
        self.has_default
    }

    /// One more label with a value.
    ///
    /// # Errors
    ///
    /// `AllocError` where memory runs out: then the labels are as before.
    pub fn add(&mut self, value: i128) -> Result<(), AllocError>
        ensures ok { OnOk result (self.new ≡ with_value value self.old) }
        ensures err { OnErr result (self.new ≡ self.old) }
    {
        self.values.push(value)?;
        match keep(&mut self.sorted, value) {
            Ok(()) => Ok(()),
            Err(error) => {
                self.values.pop();
                Err(error)
            }
        }
    }

    /// `default` too. Takes no memory.
    pub fn set_default(&mut self)
        ensures { self.new ≡ default_in self.old }
    {
        self.has_default = true;
    }
}

// Keeps a value.
fn keep(sorted: &mut BTreeSet<i128>, value: i128) -> Result<(), AllocError>
    ensures ok { OnOk result ((q : ℤ) → is_in sorted.new q
        ≡ (is_in sorted.old q || are_equal q value)) }
    ensures err { OnErr result ((q : ℤ) → is_in sorted.new q ≡ is_in sorted.old q) }
{
    sorted.insert(value)?;
    Ok(())
}
