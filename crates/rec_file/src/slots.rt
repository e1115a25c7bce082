//! Where the pages of a relative file are.
ghost use Rattle.std.specs.Prelude.{◌≡◌, ◌≤◌, ◌<◌, ℕ, [], ◌∷◌, length, map, slice_index, true, None, IfOk, IfErr, IfSome, IfNone, IsSome, OnErr, OnOk};
ghost use Rattle.std.specs.Ordering.{nat_cmp};
ghost use Rattle.std.specs.FinMap.{is_sorted};
ghost use Rattle.rec_file.specs.Inner.Sorted.{IsGapFor, IsInOrder, IsIndexOf};
ghost use Rattle.slab.specs.Slab.{get, HasRoomFor};
ghost use Rattle.rec_file.specs.Inner.Slots.{slot_of, slots_from, with_slot, had_of, Clears, IsBegunWith, IsLastSlot};

use crate::pages::Page;
use crate::sorted::search;
use slab::Slab;
use std::alloc::{AllocError, Global};
use std::collections::BTreeMap;
use std::collections::btree_map::Range;
use std::marker::Model;

/// How many pages have numbers of one group.
const GROUP: u32 = 4096;

/// The slots of pages, by the pages' numbers, in order. Pages whose numbers have the same quotient are a group.
#[derive(Drop)]
pub(crate) struct Slots {
    groups: BTreeMap<u32, Vec<(u32, usize)>>,
}

impl Model for Slots {
    ghost use Rattle.std.specs.Prelude.{◌≡◌, List, ℕ, true};
    ghost use Rattle.std.specs.Ordering.{nat_cmp};
    ghost use Rattle.std.specs.FinMap.{is_sorted};
    ghost use Rattle.rec_file.specs.Inner.Slots.{bare, listed, ArePageGroups, HavePages};

    ghost Value = { List (ℕ × ℕ) };

    ghost view = { λ a. listed (bare a.groups.entries) };

    ghost invariant = { λ a. (is_sorted nat_cmp (bare a.groups.entries) ≡ true)
        × ArePageGroups (bare a.groups.entries)
        × HavePages (bare a.groups.entries) };
}

/// How many entries to each side of the likely index are looked at first.
const NEAR: usize = 4;

/// Returns a part of a group outside of which a page isn't: near the index where it would be if the pages were spread
/// evenly over the group, or else all up to there, or after it.
fn part(group: &[(u32, usize)], page: u32) -> (usize, usize)
    requires { IsInOrder (map (λ e. e.0) group.now) }
    ensures within { (result.0 ≤ result.1) × (result.1 ≤ length group.now) }
    ensures before { (j : ℕ) → j < result.0 → slice_index (map (λ e. e.0) group.now) j < page }
    ensures after { (j : ℕ) → result.1 ≤ j → j < length group.now
        → page < slice_index (map (λ e. e.0) group.now) j }
{
    let likely = ((page % GROUP) as usize).saturating_mul(group.len()) / GROUP as usize;
    let below = likely.saturating_sub(NEAR);
    let low = match group.get(below) {
        Some(entry) if entry.0 < page => below + 1,
        _ => 0,
    };
    let above = likely.saturating_add(NEAR);
    let high = match group.get(above) {
        Some(entry) if page < entry.0 => above,
        _ => group.len(),
    };
    (low, high)
}

/// Returns the index of a page in its group, or the index where it would be.
fn seek(group: &[(u32, usize)], page: u32) -> Result<usize, usize>
    requires { IsInOrder (map (λ e. e.0) group.now) }
    ensures found { IfOk result (IsIndexOf (map (λ e. e.0) group.now) page) }
    ensures gap { IfErr result (IsGapFor (map (λ e. e.0) group.now) page) }
{
    let (low, high) = part(group, page);
    match search(&group[low..high], page) {
        Ok(at) => Ok(low + at),
        Err(at) => Err(low + at),
    }
}

/// Returns the slot of a page in its group.
fn slot_in(group: &[(u32, usize)], page: u32) -> Option<usize>
    requires { is_sorted nat_cmp group.now ≡ true }
    ensures { result ≡ slot_of group.now page }
{
    match seek(group, page) {
        Ok(at) => Some(group[at].1),
        Err(_) => None,
    }
}

/// What a put of a page found.
#[derive(Drop)]
pub(crate) enum Put {
    /// The page is kept, in this slot.
    Kept(usize),
    /// The page now has the next slot, for which there is room, as for its first record.
    Begun(Vec<u8>),
}

/// Makes room for one more page with a record, and returns its slot and the record. An error is a refused allocation.
fn room_for(
    pages: &mut Slab<Page>,
    alloc: Global,
    body: &[u8],
) -> Result<(usize, Vec<u8>), AllocError>
    ensures slot { IfOk result (λ r. r.0 ≡ pages.old.vacant_key) }
    ensures body { IfOk result (λ r. r.1.items ≡ body.now) }
    ensures room { OnOk result (HasRoomFor pages.new 1) }
    ensures pages { pages.new ≡ record pages.old { capacity = pages.new.capacity } }
{
    let record = Vec::from_slice(alloc, body)?;
    pages.reserve(1)?;
    Ok((pages.vacant_key(), record))
}

/// Puts a page into its group, where it has no slot. An error is a refused allocation: it has no slot, and
/// nothing has changed.
fn put_in(
    group: &mut Vec<(u32, usize)>,
    alloc: Global,
    page: u32,
    pages: &mut Slab<Page>,
    body: &[u8],
) -> Result<Put, AllocError>
    requires { is_sorted nat_cmp group.old.items ≡ true }
    ensures had { IfOk result (λ put. had_of put ≡ slot_of group.old.items page) }
    ensures body { IfOk result (IsBegunWith body.now) }
    ensures room { IfOk result (λ put. IfNone (had_of put) (HasRoomFor pages.new 1)) }
    ensures pages { pages.new ≡ record pages.old { capacity = pages.new.capacity } }
    ensures ok { OnOk result
        (group.new.items ≡ with_slot group.old.items page pages.old.vacant_key) }
    ensures err { OnErr result (group.new.items ≡ group.old.items) }
    ensures wanted { OnErr result (slot_of group.old.items page ≡ None) }
{
    match seek(group, page) {
        Ok(at) => Ok(Put::Kept(group[at].1)),
        Err(at) => {
            let (slot, record) = room_for(pages, alloc, body)?;
            group.insert(at, (page, slot))?;
            Ok(Put::Begun(record))
        }
    }
}

/// Empties a cell of a page of the group, where it is occupied, and returns whether it was; a page that has no record
/// then is removed.
fn clear_in(group: &mut Vec<(u32, usize)>, page: u32, cell: usize, pages: &mut Slab<Page>) -> bool
    requires sorted { is_sorted nat_cmp group.old.items ≡ true }
    requires within { cell < 64 }
    requires stands { IfSome (slot_of group.old.items page) (λ i. IsSome (get pages.old i)) }
    ensures { Clears group.old.items group.new.items pages.old pages.new page cell result }
{
    let Ok(at) = seek(group, page) else {
        return false;
    };
    let slot = group[at].1;
    let Some(kept) = pages.get_mut(slot) else {
        unreachable!();
    };
    if kept.get(cell).is_none() {
        return false;
    }
    kept.clear(cell);
    if kept.is_empty() {
        let _ = pages.try_remove(slot);
        let _ = group.remove(at);
    }
    true
}

/// Returns the pages of a group from one on.
fn rest_from(group: &[(u32, usize)], page: u32) -> &[(u32, usize)]
    requires { is_sorted nat_cmp group.now ≡ true }
    ensures { result.now ≡ slots_from page group.now }
{
    match seek(group, page) {
        Ok(at) => &group[at..],
        Err(at) => &group[at..],
    }
}

impl Slots {
    /// Returns no slots. It takes no memory.
    pub(crate) fn new(alloc: Global) -> Slots
        ensures { result ≡ [] }
    {
        Slots {
            groups: BTreeMap::new(alloc),
        }
    }

    /// Returns the slot of a page.
    pub(crate) fn get(&self, page: u32) -> Option<usize>
        ensures { result ≡ slot_of self.now page }
    {
        let group = self.groups.get(&(page / GROUP))?;
        slot_in(group, page)
    }

    /// Puts a page, where it has no slot. An error is a refused allocation: it has no slot, and nothing has
    /// changed.
    pub(crate) fn put(
        &mut self,
        alloc: Global,
        page: u32,
        pages: &mut Slab<Page>,
        body: &[u8],
    ) -> Result<Put, AllocError>
        ensures had { IfOk result (λ put. had_of put ≡ slot_of self.old page) }
        ensures body { IfOk result (IsBegunWith body.now) }
        ensures room { IfOk result (λ put. IfNone (had_of put) (HasRoomFor pages.new 1)) }
        ensures pages { pages.new ≡ record pages.old { capacity = pages.new.capacity } }
        ensures ok { OnOk result (self.new ≡ with_slot self.old page pages.old.vacant_key) }
        ensures err { OnErr result (self.new ≡ self.old) }
        ensures wanted { OnErr result (slot_of self.old page ≡ None) }
        ensures sorted { is_sorted nat_cmp self.old ≡ true }
    {
        let own = page / GROUP;
        if let Some(group) = self.groups.get_mut(&own) {
            return put_in(group, alloc, page, pages, body);
        }
        let (slot, record) = room_for(pages, alloc, body)?;
        let mut group = Vec::new(alloc);
        group.push((page, slot))?;
        let _ = self.groups.insert(own, group)?;
        Ok(Put::Begun(record))
    }

    /// Empties a cell of a page, where it is occupied, and returns whether it was; a page that has no record then is
    /// removed.
    pub(crate) fn clear(&mut self, page: u32, cell: usize, pages: &mut Slab<Page>) -> bool
        requires within { cell < 64 }
        requires stands { IfSome (slot_of self.old page) (λ i. IsSome (get pages.old i)) }
        ensures { Clears self.old self.new pages.old pages.new page cell result }
    {
        let own = page / GROUP;
        let Some(group) = self.groups.get_mut(&own) else {
            return false;
        };
        let cleared = clear_in(group, page, cell, pages);
        if group.as_slice().is_empty() {
            self.groups.remove(&own);
        }
        cleared
    }

    /// Returns the last page, and its slot.
    pub(crate) fn last(&self) -> Option<(u32, usize)>
        ensures none { IfNone result (self.now ≡ []) }
        ensures some { IfSome result (IsLastSlot self.now) }
    {
        let (_own, group) = self.groups.last_key_value()?;
        let Some(last) = group.last() else {
            unreachable!();
        };
        Some(*last)
    }

    /// Returns the pages from one on, and their slots.
    pub(crate) fn from(&self, page: u32) -> SlotsFrom<'_>
        ensures { result ≡ slots_from page self.now }
    {
        let own = page / GROUP;
        let mut groups = self.groups.range(own..);
        let Some((group, slots)) = groups.next() else {
            return SlotsFrom { rest: &[], groups };
        };
        let rest = if *group == own {
            rest_from(slots, page)
        } else {
            slots.as_slice()
        };
        SlotsFrom { rest, groups }
    }
}

/// Pages and their slots, in order: those of a group, and those of the groups after it.
#[derive(Drop)]
pub(crate) struct SlotsFrom<'a> {
    rest: &'a [(u32, usize)],
    groups: Range<'a, u32, Vec<(u32, usize)>>,
}

impl<'a> Model for SlotsFrom<'a> {
    ghost use Rattle.std.specs.Prelude.{List, ℕ, ◌++◌};
    ghost use Rattle.rec_file.specs.Inner.Slots.{bare, listed, HavePages};

    ghost Value = { List (ℕ × ℕ) };

    ghost view = { λ a. a.rest.now ++ listed (bare a.groups) };

    ghost invariant = { λ a. HavePages (bare a.groups) };
}

impl<'a> SlotsFrom<'a> {
    /// Takes the first page that is left, and its slot.
    pub(crate) fn pop_first(&mut self) -> Option<(u32, usize)>
        ensures none { IfNone result (self.old ≡ []) }
        ensures some { IfSome result (λ first. self.old ≡ first ∷ self.new) }
    {
        if self.rest.is_empty() {
            let (_own, group) = self.groups.next()?;
            self.rest = group.as_slice();
        }
        let rest = self.rest;
        self.rest = &rest[1..];
        Some(rest[0])
    }
}
