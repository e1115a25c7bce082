//! Relative files in pages.
ghost use Rattle.std.specs.Prelude.{◌≡◌, ◌≤◌, ◌<◌, None, Some, false, is_none, length, map as each, IfNone, IfOk, IfSome, IsTrue, MatchBool, OnErr};
ghost use Rattle.std.specs.List.{AllByRecursion};
ghost use Rattle.std.specs.BTreeMap.{is_at};
ghost use Rattle.std.specs.Map.{lookup};
ghost use Rattle.std.specs.Ordering.{nat_cmp};
ghost use Rattle.std.specs.FinMap as map;
ghost use Rattle.slab.specs.Slab.{get, slab_len};
ghost use Rattle.rec_file.specs.Shapes.{is_shape, is_seq};
ghost use Rattle.rec_file.specs.Pages.{occupied_pages};
ghost use Rattle.rec_file.specs.Files.{empty_file, lowest_from};
ghost use Rattle.rec_file.specs.Looks.{plain_look, IsLook};
ghost use Rattle.rec_file.specs.Limits.{max_record};
ghost use Rattle.rec_file.specs.Inner.Pages.{pages_at, page_cell, put_entry, HaveOwnSlots, IsPage, IsSpot};

use crate::files::{OneWalk, RecordFile};
use crate::look::Look;
use crate::pages::{Page, cell_of, first_in, last_in, page_of};
use crate::shapes::Shape;
use crate::slots::{Put, Slots};
use slab::Slab;
use std::alloc::{AllocError, Global};
use std::marker::Model;

/// A relative file (in the manner of RMS): each number from 1 to the limit has a record or none. Number n is in cell
/// `(n - 1) % 64` of page `(n - 1) / 64`; a page is kept while it has a record, and the slots of the pages are kept in
/// the order of the pages' numbers.
#[derive(Drop)]
pub struct RelFile {
    shape: Shape,
    look: Look,
    alloc: Global,
    slots: Slots,
    pages: Slab<Page>,
}

impl Model for RelFile {
    ghost use Rattle.std.specs.Prelude.{◌≡◌, map, length, false, true};
    ghost use Rattle.std.specs.List.{AllByRecursion};
    ghost use Rattle.std.specs.Ordering.{nat_cmp};
    ghost use Rattle.std.specs.FinMap.{is_sorted};
    ghost use Rattle.slab.specs.Slab.{get, slab_len};
    ghost use Rattle.rec_file.specs.Shapes.{is_seq};
    ghost use Rattle.rec_file.specs.Inner.Pages.{paged_file, pages_at, HaveOwnSlots, IsPage};
    ghost use Rattle.rec_file.specs.Files.{FileVal, IsFile};
    ghost use Rattle.rec_file.specs.Stored.{file_code};

    ghost Value = { FileVal };

    ghost coded = { file_code };

    ghost view = { λ a. paged_file a.shape a.look (pages_at (get a.pages) a.slots) };

    ghost invariant = { λ a. IsFile (paged_file a.shape a.look (pages_at (get a.pages) a.slots))
        × (is_seq a.shape.org ≡ false)
        × (is_sorted nat_cmp (pages_at (get a.pages) a.slots) ≡ true)
        × AllByRecursion IsPage (map (λ p. p.1) (pages_at (get a.pages) a.slots))
        × HaveOwnSlots a.slots
        × (slab_len a.pages ≡ length a.slots) };
}

impl RelFile {
    /// Returns an empty file of a relative shape that [`Shape::check`] gives. Nothing is kept of Attributes. It takes no
    /// memory.
    #[tactic(auto, using(crate::proofs::Looking::a_plain_look))]
    pub fn new(alloc: Global, shape: Shape) -> RelFile
        requires valid { IsTrue (is_shape shape) }
        requires relative { is_seq shape.org ≡ false }
        ensures { result ≡ empty_file shape plain_look }
    {
        RelFile::with_look(alloc, shape, Look::plain())
    }

    /// Returns an empty file as [`RelFile::new`] does, with what is kept of the Attributes that make it.
    pub(crate) fn with_look(alloc: Global, shape: Shape, look: Look) -> RelFile
        requires valid { IsTrue (is_shape shape) }
        requires relative { is_seq shape.org ≡ false }
        requires look { IsLook shape look }
        ensures { result ≡ empty_file shape look }
    {
        RelFile {
            shape,
            look,
            alloc,
            slots: Slots::new(alloc),
            pages: Slab::new(alloc),
        }
    }

    /// Returns what is kept of the Attributes that made the file.
    pub(crate) fn look(&self) -> Look
        ensures { result ≡ self.now.look }
    {
        self.look
    }

    /// Returns how many pages are kept: as many as the occupied numbers n have different values of `(n - 1) / 64`.
    pub fn page_count(&self) -> usize
        ensures { result ≡ occupied_pages self.now.records }
    {
        self.pages.len()
    }

    /// Returns the lowest occupied number from this one on, and its page.
    fn spot_from(&self, number: u32) -> Option<(u32, &Page)>
        ensures none { IfNone result (lowest_from self.now.records number ≡ None) }
        ensures spot { IfSome result (λ s. IsSpot self.now number s.0 s.1.now) }
        ensures short { IfSome result (λ s. IfSome (map.get self.now.records s.0)
            (λ body. length body ≤ max_record)) }
    {
        let least = number.max(1);
        let own = page_of(least);
        let mut rest = self.slots.from(own);
        let (at, slot) = rest.pop_first()?;
        let Some(page) = self.pages.get(slot) else {
            unreachable!();
        };
        let from = if at == own { cell_of(least) } else { 0 };
        match first_in(at, page, from) {
            Some(first) => Some((first, page)),
            None => {
                let (at, slot) = rest.pop_first()?;
                let Some(page) = self.pages.get(slot) else {
                    unreachable!();
                };
                let Some(first) = first_in(at, page, 0) else {
                    unreachable!();
                };
                Some((first, page))
            }
        }
    }
}

/// Stores a record in a page that is kept, or else in a new one, and returns whether its cell was empty. An error is a
/// refused allocation: the cell is empty. Where the record wasn't stored, nothing has changed.
fn put_in(
    slots: &mut Slots,
    pages: &mut Slab<Page>,
    alloc: Global,
    at: u32,
    cell: usize,
    body: &[u8],
) -> Result<bool, AllocError>
    requires within { cell < 64 }
    requires kept { AllByRecursion IsPage (each (λ p. p.1) (pages_at (get pages.old)
        slots.old)) }
    requires own { HaveOwnSlots slots.old }
    requires as_many { slab_len pages.old ≡ length slots.old }
    ensures empty { IfOk result (λ empty. empty ≡ is_none (page_cell
        (lookup (is_at (nat_cmp at)) (pages_at (get pages.old) slots.old)) cell)) }
    ensures ok { IfOk result (λ empty. MatchBool empty (pages_at (get pages.new) slots.new
        ≡ put_entry (pages_at (get pages.old) slots.old) at cell body.now)
        (pages_at (get pages.new) slots.new ≡ pages_at (get pages.old) slots.old)) }
    ensures err { OnErr result (pages_at (get pages.new) slots.new
        ≡ pages_at (get pages.old) slots.old) }
    ensures wanted { OnErr result (page_cell
        (lookup (is_at (nat_cmp at)) (pages_at (get pages.old) slots.old)) cell ≡ None) }
    ensures own { HaveOwnSlots slots.new }
    ensures as_many { slab_len pages.new ≡ length slots.new }
{
    match slots.put(alloc, at, pages, body)? {
        Put::Kept(slot) => {
            let Some(page) = pages.get_mut(slot) else {
                unreachable!();
            };
            if page.get(cell).is_some() {
                return Ok(false);
            }
            page.put(cell, Vec::from_slice(alloc, body)?)?;
        }
        Put::Begun(body) => {
            let _ = pages.insert_reserved(Page::with(alloc, cell, body));
        }
    }
    Ok(true)
}

impl OneWalk for RelFile {
    ghost value = { λ f. f };

    fn record_from(&self, number: u32) -> Option<(u32, &[u8])> {
        let (first, page) = self.spot_from(number)?;
        let Some(body) = page.get(cell_of(first)) else {
            unreachable!();
        };
        Some((first, body))
    }

    fn insert_if_free(&mut self, number: u32, body: &[u8]) -> Result<bool, AllocError> {
        let at = page_of(number);
        let cell = cell_of(number);
        put_in(&mut self.slots, &mut self.pages, self.alloc, at, cell, body)
    }

    fn replace_if_occupied(&mut self, number: u32, body: &[u8]) -> Result<bool, AllocError> {
        let slots = &self.slots;
        if number == 0 {
            return Ok(false);
        }
        let Some(slot) = slots.get(page_of(number)) else {
            return Ok(false);
        };
        let Some(page) = self.pages.get_mut(slot) else {
            unreachable!();
        };
        let cell = cell_of(number);
        if page.get(cell).is_none() {
            return Ok(false);
        }
        page.replace(cell, Vec::from_slice(self.alloc, body)?);
        Ok(true)
    }

    fn remove_if_occupied(&mut self, number: u32) -> bool {
        let slots = &mut self.slots;
        if number == 0 {
            return false;
        }
        slots.clear(page_of(number), cell_of(number), &mut self.pages)
    }
}

impl RecordFile for RelFile {
    fn shape(&self) -> Shape {
        self.shape
    }

    fn lookup(&self, number: u32) -> Option<&[u8]> {
        let slots = &self.slots;
        if number == 0 {
            return None;
        }
        let slot = slots.get(page_of(number))?;
        let Some(page) = self.pages.get(slot) else {
            unreachable!();
        };
        page.get(cell_of(number))
    }

    fn highest(&self) -> u32 {
        let Some((at, slot)) = self.slots.last() else {
            return 0;
        };
        let Some(page) = self.pages.get(slot) else {
            unreachable!();
        };
        let Some(highest) = last_in(at, page) else {
            unreachable!();
        };
        highest
    }
}
