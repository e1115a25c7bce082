//! Pages of 64 cells.
ghost use Rattle.std.specs.Prelude.{◌≡◌, ◌≤◌, ◌<◌, ◌↔◌, ℕ, None, Some, OnOk, OnErr, IsSome, IfSome, IfNone, IsTrue, slice_set};
ghost use Rattle.std.specs.Option.{option_copied};
ghost use Rattle.rec_file.specs.Inner.Pages.{cell, cell_of, last_page, empty_cells, occupied_below, IsFirstIn, IsLastIn};
ghost use Rattle.rec_file.specs.Pages.{page_of};

use smallvec::SmallVec;
use std::alloc::{AllocError, Global};
use std::marker::Model;

/// How many cells a page has.
pub(crate) const CELLS: u32 = 64;

/// Returns the page of a number.
pub(crate) fn page_of(number: u32) -> u32
    requires { 1 ≤ number }
    ensures { result ≡ page_of number }
{
    (number - 1) / CELLS
}

/// Returns the cell of a number within its page.
pub(crate) fn cell_of(number: u32) -> usize
    requires { 1 ≤ number }
    ensures same { result ≡ cell_of number }
    ensures within { result < 64 }
{
    ((number - 1) % CELLS) as usize
}

/// 64 cells, each with a record or none.
#[derive(Drop)]
pub(crate) struct Page {
    /// Bit k is set exactly where cell k is occupied.
    mask: u64,
    /// The records of the occupied cells, in the order of the cells. A single one is in the page itself.
    bodies: SmallVec<Vec<u8>, 1>,
}

impl Model for Page {
    ghost use Rattle.std.specs.Prelude.{map};
    ghost use Rattle.rec_file.specs.Inner.Pages.{Cells, cells_of, IsPacked};

    ghost Value = { Cells };

    ghost view = { λ a. cells_of a.mask (map (λ v. v.items) a.bodies.items) };

    ghost invariant = { λ a. IsPacked a.mask (map (λ v. v.items) a.bodies.items) };
}

impl Page {
    /// Returns a page with one record. It takes no memory.
    pub(crate) fn with(alloc: Global, at: usize, body: Vec<u8>) -> Page
        requires { at < 64 }
        ensures { result ≡ slice_set empty_cells at (Some body.items) }
    {
        Page {
            mask: 1u64 << at,
            bodies: SmallVec::from_buf(alloc, [body]),
        }
    }

    /// Returns the record of a cell.
    pub(crate) fn get(&self, at: usize) -> Option<&[u8]>
        requires { at < 64 }
        ensures { option_copied result ≡ cell self.now at }
    {
        if (self.mask >> at) & 1 == 0 {
            return None;
        }
        Some(self.bodies.as_slice()[self.rank(at)].as_slice())
    }

    /// Stores a record in an empty cell. An error is a refused allocation: nothing has changed.
    pub(crate) fn put(&mut self, at: usize, body: Vec<u8>) -> Result<(), AllocError>
        requires within { at < 64 }
        requires empty { cell self.old at ≡ None }
        ensures ok { OnOk result (self.new ≡ slice_set self.old at (Some body.items)) }
        ensures err { OnErr result (self.new ≡ self.old) }
    {
        let rank = self.rank(at);
        self.bodies.insert(rank, body)?;
        self.mask |= 1u64 << at;
        Ok(())
    }

    /// Stores another record in an occupied cell.
    pub(crate) fn replace(&mut self, at: usize, body: Vec<u8>)
        requires within { at < 64 }
        requires occupied { IsSome (cell self.old at) }
        ensures { self.new ≡ slice_set self.old at (Some body.items) }
    {
        let rank = self.rank(at);
        self.bodies.as_mut_slice()[rank] = body;
    }

    /// Empties an occupied cell.
    pub(crate) fn clear(&mut self, at: usize)
        requires within { at < 64 }
        requires occupied { IsSome (cell self.old at) }
        ensures { self.new ≡ slice_set self.old at None }
    {
        let rank = self.rank(at);
        let _ = self.bodies.remove(rank);
        self.mask &= !(1u64 << at);
    }

    /// Returns how many cells below this one are occupied: the index of its record.
    fn rank(&self, at: usize) -> usize
        requires { at < 64 }
        ensures { result ≡ occupied_below self.now at }
    {
        let below = self.mask & ((1u64 << at) - 1);
        below.count_ones() as usize
    }

    /// Returns whether no cell is occupied.
    pub(crate) fn is_empty(&self) -> bool
        ensures { IsTrue result ↔ ((k : ℕ) → cell self.now k ≡ None) }
    {
        self.mask == 0
    }

    /// Returns the first occupied cell from this one on.
    pub(crate) fn first_from(&self, at: usize) -> Option<usize>
        requires { at < 64 }
        ensures none { IfNone result ((k : ℕ) → at ≤ k → cell self.now k ≡ None) }
        ensures some { IfSome result (IsFirstIn self.now at) }
    {
        let rest = self.mask >> at;
        if rest == 0 {
            None
        } else {
            Some(at + rest.trailing_zeros() as usize)
        }
    }

    /// Returns the last occupied cell.
    pub(crate) fn last(&self) -> Option<usize>
        ensures none { IfNone result ((k : ℕ) → cell self.now k ≡ None) }
        ensures some { IfSome result (IsLastIn self.now) }
    {
        if self.mask == 0 {
            None
        } else {
            Some(self.mask.ilog2() as usize)
        }
    }
}

/// Returns the number of the first record in the cells of the page with this number, from one cell on.
pub(crate) fn first_in(at: u32, page: &Page, from: usize) -> Option<u32>
    requires page { at ≤ last_page }
    requires cell { from < 64 }
    ensures none { IfNone result ((k : ℕ) → from ≤ k → cell page.now k ≡ None) }
    ensures some { IfSome result
        (λ n. (1 ≤ n) × (page_of n ≡ at) × IsFirstIn page.now from (cell_of n)) }
{
    let cell = page.first_from(from)?;
    Some(CELLS * at + cell as u32 + 1)
}

/// Returns the number of the last record in the page with this number.
pub(crate) fn last_in(at: u32, page: &Page) -> Option<u32>
    requires { at ≤ last_page }
    ensures none { IfNone result ((k : ℕ) → cell page.now k ≡ None) }
    ensures some { IfSome result (λ n. (1 ≤ n) × (page_of n ≡ at) × IsLastIn page.now (cell_of n)) }
{
    let cell = page.last()?;
    Some(CELLS * at + cell as u32 + 1)
}
