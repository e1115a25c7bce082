//! Slots for early segments: the first is that of the sequence number that is expected next.

ghost use Rattle.std.specs.Prelude.{◌≡◌, ◌<◌, ◌≤◌, [], ◌∷◌, ◌++◌, ◌+◌, ℕ, Some, None, false, IfOk, IfSome, MatchOption, is_none, length, drop, replicate, slice_get, slice_set};
ghost use Rattle.nsp_link.specs.Inner.Pieces.{held_from, held_piece, leading};

use crate::piece::Held;
use circular_buffer::HeapCircularBuffer;
use std::alloc::{AllocError, Global};

pub(crate) type Ring = HeapCircularBuffer<Option<Held>>;

/// Returns a ring of this many free slots.
pub(crate) fn free_slots(alloc: Global, count: usize) -> Result<Ring, AllocError>
    ensures items { IfOk result (λ r. r.items ≡ replicate count None) }
    ensures capacity { IfOk result (λ r. r.capacity ≡ count) }
    ensures len { IfOk result (λ r. length r.items ≡ count) }
    ensures free { IfOk result (λ r. 0 < count → slice_get r.items 0 ≡ Some None) }
    ensures none { IfOk result (λ r. (n : ℕ) → held_from n r.items ≡ []) }
{
    let mut ring = HeapCircularBuffer::with_capacity(alloc, count)?;
    for _ in 0..count {
        let _ = ring.push_back(None);
    }
    Ok(ring)
}

/// Fills the slot at an index.
pub(crate) fn fill(ring: &mut Ring, index: usize, held: Held)
    requires { index < length ring.old.items }
    ensures items { ring.new.items ≡ slice_set ring.old.items index (Some held) }
    ensures capacity { ring.new.capacity ≡ ring.old.capacity }
{
    if let Some(slot) = ring.get_mut(index) {
        *slot = Some(held);
    }
}

/// Returns whether there is a slot at an index, and it is free.
pub(crate) fn is_free(ring: &Ring, index: usize) -> bool
    ensures { MatchOption (slice_get ring.now.items index) (result ≡ false)
        (λ o. result ≡ is_none o) }
{
    ring.get(index).is_some_and(Option::is_none)
}

/// Removes this many slots from the start, and adds as many free ones after the last.
pub(crate) fn advance(ring: &mut Ring, count: usize)
    requires full { length ring.old.items ≡ ring.old.capacity }
    requires some { count ≤ length ring.old.items }
    ensures items { ring.new.items ≡ drop count ring.old.items ++ replicate count None }
    ensures capacity { ring.new.capacity ≡ ring.old.capacity }
{
    for _ in 0..count {
        let _ = ring.pop_front();
        let _ = ring.push_back(None);
    }
}

/// Returns the segment in the slot at an index, if there is one.
pub(crate) fn held_at(ring: &Ring, index: usize) -> Option<&Held>
    ensures there { IfSome result (λ h. index < length ring.now.items) }
    ensures leads { MatchOption result (leading (drop index ring.now.items) ≡ [])
        (λ h. leading (drop index ring.now.items)
        ≡ held_piece h.now ∷ leading (drop (index + 1) ring.now.items)) }
{
    match ring.get(index) {
        Some(slot) => slot.as_ref(),
        None => None,
    }
}
