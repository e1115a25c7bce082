//! What is kept of a stream: the segments of messages that aren't whole, and the sequence numbers of those that are
//! listed.

ghost use Rattle.std.specs.Prelude.{◌≡◌, ◌&&◌, ◌++◌, true, ◌≤◌, ◌<◌, ◌+◌, [], IfOk, OnOk, drop, insert, length, slice_index_or, take};
ghost use Rattle.std.specs.List.{AllByRecursion};
ghost use Rattle.dap_follow.specs.Room.{entry_room};
ghost use Rattle.dap_follow.specs.Keeping.Kept.{AbsorbsAfter, AbsorbsBefore, Ascends, Finds, KnowsNumber, IsAbsorbed, IsRoomOf, IsSegment, Joins, Lists, Puts, do_join, is_taken as takes, kept_bytes};

use crate::room::{ENTRY_ROOM, segment_room};
use crate::segments::{ROUND, sequence_near};
use nsp_seg::{SegmentFields, Seq12};
use std::alloc::{AllocError, Global};

/// Sequence numbers in a row: those of segments, with the marks at both ends and the bytes of each payload; or those
/// of messages that are listed, with no payloads.
#[derive(Drop)]
pub(crate) struct Kept {
    pub(crate) from: u64,
    pub(crate) to: u64,
    pub(crate) first: bool,
    pub(crate) last: bool,
    pub(crate) listed: bool,
    /// The bytes of room that it takes.
    pub(crate) room: usize,
    pub(crate) payloads: Vec<Vec<u8>>,
}

impl Kept {
    /// Returns a segment under its sequence number.
    fn segment(
        alloc: Global,
        sequence: u64,
        segment: &SegmentFields<'_>,
    ) -> Result<Self, AllocError>
        ensures { IfOk result (IsSegment sequence segment.now) }
    {
        let room = segment_room(segment)?;
        let payload = Vec::from_slice(alloc, segment.payload.0)?;
        let mut payloads = Vec::new(alloc);
        payloads.push(payload)?;
        Ok(Kept {
            from: sequence,
            to: sequence,
            first: segment.first,
            last: segment.last,
            listed: false,
            room,
            payloads,
        })
    }

    /// Returns the sequence numbers of a message that is listed. It takes no memory.
    fn listed(alloc: Global, from: u64, to: u64) -> Self
        ensures from { result.from ≡ from }
        ensures to { result.to ≡ to }
        ensures listed { result.listed ≡ true }
        ensures room { result.room ≡ entry_room }
    {
        Kept {
            from,
            to,
            first: true,
            last: true,
            listed: true,
            room: ENTRY_ROOM,
            payloads: Vec::new(alloc),
        }
    }

    /// Returns whether others are in a row with these: of a message that isn't whole, or listed as these are.
    fn joins(&self, other: &Kept) -> bool
        ensures { result ≡ do_join self.now other.now }
    {
        if other.from <= self.to || other.from - self.to != 1 {
            return false;
        }
        if self.listed {
            other.listed
        } else {
            !other.listed && !self.last && !other.first
        }
    }

    /// Takes those that follow.
    fn absorb(&mut self, mut other: Kept) -> Result<(), AllocError>
        ensures { OnOk result (IsAbsorbed self.old other self.new) }
    {
        if !self.listed {
            self.room = self.room.checked_add(other.room).ok_or(AllocError)?;
        }
        self.payloads.append(&mut other.payloads)?;
        self.to = other.to;
        self.last = other.last;
        Ok(())
    }

    /// Returns whether these are all segments of a message.
    fn is_message(&self) -> bool
        ensures { result ≡ (self.now.first && self.now.last) }
    {
        self.first && self.last
    }

    /// Puts the bytes of all payloads into a cleared vector.
    pub(crate) fn gather(&self, bytes: &mut Vec<u8>) -> Result<(), AllocError>
        ensures { OnOk result (bytes.new.items ≡ kept_bytes self.now) }
    {
        bytes.clear();
        for payload in &self.payloads {
            bytes.extend_from_slice(payload)?;
        }
        Ok(())
    }
}

/// Returns how many are below a sequence number.
fn count_below(kept: &[Kept], sequence: u64) -> usize
    ensures within { result ≤ length kept.now }
    ensures below { Ascends kept.now
        → AllByRecursion (λ k. k.to < sequence) (take result kept.now) }
    ensures above { Ascends kept.now
        → AllByRecursion (λ k. sequence ≤ k.to) (drop result kept.now) }
{
    kept.partition_point(|one| one.to < sequence)
}

/// Returns whether a segment has this sequence number, where this many are below it.
fn is_taken(kept: &[Kept], below: usize, sequence: u64) -> bool
    ensures { result ≡ takes sequence (drop below kept.now) }
{
    match kept.get(below) {
        Some(next) => next.from <= sequence,
        None => false,
    }
}

/// Takes out the one at an index, with the room that it takes.
fn take_out(kept: &mut Vec<Kept>, held: &mut usize, index: usize) -> Kept
    requires { index < length kept.old.items }
    ensures one { result ≡ slice_index_or kept.old.items index result }
    ensures others { kept.new.items ≡ take index kept.old.items ++ drop (index + 1) kept.old.items }
    ensures held { IsRoomOf held.old kept.old.items → IsRoomOf held.new kept.new.items }
{
    let one = kept.remove(index);
    *held = held.saturating_sub(one.room);
    one
}

/// Puts one in at an index, with the room that it takes.
fn put_at(kept: &mut Vec<Kept>, held: &mut usize, index: usize, one: Kept) -> Result<(), AllocError>
    requires { index ≤ length kept.old.items }
    ensures items { OnOk result (kept.new.items ≡ insert kept.old.items index one) }
    ensures held { OnOk result
        (IsRoomOf held.old kept.old.items → IsRoomOf held.new kept.new.items) }
{
    *held = held.checked_add(one.room).ok_or(AllocError)?;
    kept.insert(index, one)?;
    Ok(())
}

/// Joins the one after an index, if they are in a row.
fn join_after(
    kept: &mut Vec<Kept>,
    held: &mut usize,
    index: usize,
    piece: &mut Kept,
) -> Result<(), AllocError>
    requires { index ≤ length kept.old.items }
    ensures absorbs { OnOk result
        (AbsorbsAfter index kept.old.items piece.old kept.new.items piece.new) }
    ensures held { OnOk result
        (IsRoomOf held.old kept.old.items → IsRoomOf held.new kept.new.items) }
{
    if index == kept.len() || !piece.joins(&kept[index]) {
        return Ok(());
    }
    let after = take_out(kept, held, index);
    piece.absorb(after)
}

/// Joins the one before an index, if they are in a row; returns the index then.
fn join_before(
    kept: &mut Vec<Kept>,
    held: &mut usize,
    index: usize,
    piece: Kept,
) -> Result<(usize, Kept), AllocError>
    requires { index ≤ length kept.old.items }
    ensures absorbs { IfOk result (λ joined.
        AbsorbsBefore index kept.old.items piece joined.0 kept.new.items joined.1) }
    ensures held { OnOk result
        (IsRoomOf held.old kept.old.items → IsRoomOf held.new kept.new.items) }
{
    if index == 0 || !kept[index - 1].joins(&piece) {
        return Ok((index, piece));
    }
    let mut before = take_out(kept, held, index - 1);
    before.absorb(piece)?;
    Ok((index - 1, before))
}

/// Joins those on both sides of an index that are in a row with it; returns the index then.
fn join(
    kept: &mut Vec<Kept>,
    held: &mut usize,
    index: usize,
    mut piece: Kept,
) -> Result<(usize, Kept), AllocError>
    requires { index ≤ length kept.old.items }
    ensures joins { IfOk result (λ joined.
        Joins index kept.old.items piece joined.0 kept.new.items joined.1) }
    ensures held { OnOk result
        (IsRoomOf held.old kept.old.items → IsRoomOf held.new kept.new.items) }
{
    join_after(kept, held, index, &mut piece)?;
    join_before(kept, held, index, piece)
}

/// A message that is whole: its first and last sequence number.
#[derive(Clone, Copy)]
pub(crate) struct Whole {
    pub(crate) from: u64,
    pub(crate) to: u64,
}

/// Keeps a message as listed, and puts its bytes into a cleared vector.
fn list_at(
    alloc: Global,
    kept: &mut Vec<Kept>,
    held: &mut usize,
    index: usize,
    message: Kept,
    bytes: &mut Vec<u8>,
) -> Result<Whole, AllocError>
    requires { index ≤ length kept.old.items }
    ensures lists { IfOk result
        (Lists index kept.old.items message kept.new.items bytes.new.items) }
    ensures held { OnOk result
        (IsRoomOf held.old kept.old.items → IsRoomOf held.new kept.new.items) }
{
    message.gather(bytes)?;
    let (from, to) = (message.from, message.to);
    let (index, run) = join(kept, held, index, Kept::listed(alloc, from, to))?;
    put_at(kept, held, index, run)?;
    Ok(Whole { from, to })
}

/// Puts a segment between others; returns the message that is whole with it, whose bytes are in the vector and whose
/// segments aren't kept then.
fn put_in(
    alloc: Global,
    kept: &mut Vec<Kept>,
    held: &mut usize,
    index: usize,
    segment: Kept,
    bytes: &mut Vec<u8>,
) -> Result<Option<Whole>, AllocError>
    requires { index ≤ length kept.old.items }
    ensures puts { IfOk result (Puts index kept.old.items segment kept.new.items bytes.new.items) }
    ensures held { OnOk result
        (IsRoomOf held.old kept.old.items → IsRoomOf held.new kept.new.items) }
{
    let (index, piece) = join(kept, held, index, segment)?;
    if piece.is_message() {
        return Ok(Some(list_at(alloc, kept, held, index, piece, bytes)?));
    }
    put_at(kept, held, index, piece)?;
    Ok(None)
}

/// What is kept of a stream, in the order of the sequence numbers.
#[derive(Drop)]
pub(crate) struct KeptSegments {
    pub(crate) alloc: Global,
    pub(crate) highest: u64,
    /// The bytes that it takes of the room of all streams.
    pub(crate) held: usize,
    /// The number of the packet with which its last segment came.
    pub(crate) last_packet: usize,
    pub(crate) kept: Vec<Kept>,
}

impl KeptSegments {
    /// Returns what is kept of a stream whose first segment has the number, before it came. It takes no memory.
    pub(crate) fn new(alloc: Global, number: Seq12) -> Self
        ensures highest { result.highest ≡ number + 4096 }
        ensures kept { result.kept.items ≡ [] }
        ensures held { result.held ≡ 0 }
    {
        KeptSegments {
            alloc,
            highest: u64::from(number.get()) + ROUND,
            held: 0,
            last_packet: 0,
            kept: Vec::new(alloc),
        }
    }

    /// Returns whether a segment that came has the sequence number that one with this number would have.
    pub(crate) fn has(&self, number: Seq12) -> bool
        ensures { KnowsNumber number self.now result }
    {
        let sequence = sequence_near(self.highest, number);
        is_taken(&self.kept, count_below(&self.kept, sequence), sequence)
    }

    /// Takes the segment of a packet, unless another has its sequence number; returns the message that is whole with
    /// it, and its bytes in the vector.
    pub(crate) fn add(
        &mut self,
        packet: usize,
        segment: &SegmentFields<'_>,
        bytes: &mut Vec<u8>,
    ) -> Result<Option<Whole>, AllocError>
        ensures finds { IfOk result (Finds segment.now self.old self.new bytes.new.items) }
        ensures last { self.new.last_packet ≡ packet }
    {
        self.last_packet = packet;
        let sequence = sequence_near(self.highest, segment.number);
        self.highest = self.highest.max(sequence);
        let index = count_below(&self.kept, sequence);
        if is_taken(&self.kept, index, sequence) {
            return Ok(None);
        }
        let one = Kept::segment(self.alloc, sequence, segment)?;
        put_in(
            self.alloc,
            &mut self.kept,
            &mut self.held,
            index,
            one,
            bytes,
        )
    }
}
