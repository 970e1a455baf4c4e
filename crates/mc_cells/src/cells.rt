//! The cells in use, lowest first.
ghost use Rattle.std.specs.Prelude.{◌≡◌, ℕ, ◌+◌, ◌-◌, ◌<◌, ◌≤◌, ◌++◌, [], pos, length, replicate, slice_get, slice_set, Some, None, option_map, IfSome, IfOk, vec_len, vec_capacity};
ghost use Rattle.mc_cells.specs.Rows.{Row, base_of, entered, filled, moved, left, with_cells, IsSigned, IsUnsigned};

use crate::cell::{Cell, UNSET};
use std::alloc::{AllocError, Global};
use std::marker::Model;

/// The cells of a run, seen as the list of those in use, each a number or unset, and the limit that
/// their count does not pass. Places are counted from 0. All memory is taken when they are made,
/// and written where cells come in use for the first time.
#[derive(Drop)]
pub struct Cells {
    /// Those in use, and after them those that were in use before.
    cells: Vec<Cell>,
    used: usize,
    limit: usize,
}

impl Model for Cells {
    ghost use Rattle.std.specs.Prelude.{◌≤◌, ◌^◌, ◌<◌, map, take, vec_len, vec_capacity};
    ghost use Rattle.mc_cells.specs.Rows.{Row};
    ghost use Rattle.mc_cells.specs.steps.Kept.{number_of};

    ghost Value = { Row };

    ghost view = { λ c. record {
      cells = map number_of (take c.used c.cells.items);
      limit = c.limit;
    } };

    ghost invariant = { λ c.
        (c.used ≤ vec_len c.cells) × (c.used ≤ c.limit)
        × (c.limit ≤ vec_capacity c.cells) × (c.limit < 2 ^ 32) };
}

impl Cells {
    /// No cell in use, and room for `limit` of them.
    pub fn with(alloc: Global, limit: u32) -> Result<Cells, AllocError>
        ensures { IfOk result (λ c. c ≡ record { cells = []; limit = limit }) }
    {
        let cells = Vec::with_capacity(alloc, limit as usize)?;
        Ok(Cells {
            cells,
            used: 0,
            limit: limit as usize,
        })
    }

    /// What stands in the cell. Takes no memory.
    pub fn get(&self, at: u32) -> Option<i128>
        requires { at < length self.now.cells }
        ensures { slice_get self.now.cells at ≡ Some result }
    {
        self.cells[at as usize].number()
    }

    /// The same of a cell whose number, where it has one, has 64 bits with a sign.
    pub fn get_signed(&self, at: u32) -> Option<i64>
        requires in_use { at < length self.now.cells }
        requires signed { IfSome (slice_get self.now.cells at) (λ cell. IfSome cell IsSigned) }
        ensures { slice_get self.now.cells at ≡ Some result }
    {
        self.cells[at as usize].signed()
    }

    /// The same of a cell whose number, where it has one, has 64 bits without a sign.
    pub fn get_unsigned(&self, at: u32) -> Option<u64>
        requires in_use { at < length self.now.cells }
        requires unsigned { IfSome (slice_get self.now.cells at) (λ cell. IfSome cell IsUnsigned) }
        ensures { slice_get self.now.cells at ≡ Some (option_map pos result) }
    {
        self.cells[at as usize].unsigned()
    }

    /// Writes a number, or none. Takes no memory.
    pub fn set(&mut self, at: u32, value: Option<i128>)
        requires { at < length self.old.cells }
        ensures { self.new ≡ with_cells self.old (slice_set self.old.cells at value) }
    {
        self.cells[at as usize] = Cell::of(value);
    }

    /// Writes a number of 64 bits with a sign. Takes no memory.
    pub fn set_signed(&mut self, at: u32, value: i64)
        requires { at < length self.old.cells }
        ensures { self.new ≡ with_cells self.old (slice_set self.old.cells at (Some value)) }
    {
        self.cells[at as usize] = Cell::of_signed(value);
    }

    /// Writes a number of 64 bits without a sign. Takes no memory.
    pub fn set_unsigned(&mut self, at: u32, value: u64)
        requires { at < length self.old.cells }
        ensures { self.new ≡ with_cells self.old (slice_set self.old.cells at (Some (pos value))) }
    {
        self.cells[at as usize] = Cell::of_unsigned(value);
    }

    /// Writes one value into `count` cells from `at` on. Takes no memory.
    pub fn fill(&mut self, at: u32, count: u32, value: Option<i128>)
        requires { at + count ≤ length self.old.cells }
        ensures { self.new ≡ with_cells self.old (filled at count value self.old.cells) }
    {
        fill(
            &mut self.cells,
            at as usize,
            count as usize,
            Cell::of(value),
        );
    }

    /// Copies `count` cells from `from` on to those from `to` on, as they stood before. Takes no
    /// memory.
    pub fn copy(&mut self, from: u32, to: u32, count: u32)
        requires source { from + count ≤ length self.old.cells }
        requires target { to + count ≤ length self.old.cells }
        ensures { self.new ≡ with_cells self.old (moved from to count self.old.cells) }
    {
        copy(&mut self.cells, from as usize, to as usize, count as usize);
    }

    /// Takes `count` more cells, all unset, and gives the first of them; `None` exactly where the
    /// cells in use and `count` pass the limit. Takes no memory.
    pub fn enter(&mut self, count: u32) -> Option<u32>
        ensures base { result ≡ base_of self.old count }
        ensures cells { self.new ≡ entered self.old count }
    {
        let base = self.used;
        if self.limit - base < count as usize {
            return None;
        }
        let end = base + count as usize;
        reach(&mut self.cells, end, UNSET);
        fill(&mut self.cells, base, count as usize, UNSET);
        self.used = end;
        Some(base as u32)
    }

    /// Gives back all cells from `base` on. Takes no memory.
    pub fn leave(&mut self, base: u32)
        requires { base ≤ length self.old.cells }
        ensures { self.new ≡ left self.old base }
    {
        self.used = base as usize;
    }
}

/// Puts one cell at the end until as many stand there as are wanted.
fn reach(cells: &mut Vec<Cell>, wanted: usize, cell: Cell)
    requires { wanted ≤ vec_capacity cells.old }
    ensures cells { cells.new.items
        ≡ cells.old.items ++ replicate (wanted - vec_len cells.old) cell }
    ensures capacity { vec_capacity cells.new ≡ vec_capacity cells.old }
{
    let lacking = wanted.saturating_sub(cells.len());
    for _more in 0..lacking {
        cells.push_reserved(cell);
    }
}

/// Writes one cell into `count` of them from `at` on.
fn fill(cells: &mut [Cell], at: usize, count: usize, cell: Cell)
    requires { at + count ≤ length cells.old }
    ensures { cells.new ≡ filled at count cell cells.old }
{
    for done in 0..count {
        cells[at + done] = cell;
    }
}

/// Copies `count` cells.
fn copy(cells: &mut [Cell], from: usize, to: usize, count: usize)
    requires source { from + count ≤ length cells.old }
    requires target { to + count ≤ length cells.old }
    ensures { cells.new ≡ moved from to count cells.old }
{
    cells.copy_within(from..from + count, to);
}
