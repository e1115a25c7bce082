//! The room of streams: what a segment needs, and which streams end for want of it.

ghost use Rattle.std.specs.Prelude.{◌≡◌, min, IfOk};
ghost use Rattle.std.specs.Map.{lookup};
ghost use Rattle.std.specs.Option.{option_map_or};
ghost use Rattle.dap_follow.specs.Streams.{is_same_stream};
ghost use Rattle.dap_follow.specs.Room.{segment_room as room_of_segment};
ghost use Rattle.dap_follow.specs.Keeping.Room.{AreTaken, IsComing, IsCrowd, IsKnown, entry_came, leaves_room, taken_and_since};

use crate::kept::KeptSegments;
use crate::streams::{Stream, Streams};
use nsp_seg::{SegmentFields, Seq12};
use std::alloc::AllocError;

/// The maximum number of streams that are open.
const MAX_STREAMS: usize = 1024;

/// The maximum number of bytes that they take.
const MAX_ROOM: usize = 16_777_216;

/// The bytes that each segment that is in no message yet takes beside its payload; and each run of messages.
pub(crate) const ENTRY_ROOM: usize = 64;

/// Returns the bytes that a segment takes that is in no message yet.
pub(crate) fn segment_room(segment: &SegmentFields<'_>) -> Result<usize, AllocError>
    ensures { IfOk result (λ room. room ≡ room_of_segment segment.now.payload) }
{
    ENTRY_ROOM
        .checked_add(segment.payload.0.len())
        .ok_or(AllocError)
}

/// A segment that comes to a stream: the number of its packet, and the room that it needs.
#[derive(Clone, Copy)]
pub(crate) struct Coming {
    pub(crate) stream: Stream,
    pub(crate) packet: usize,
    pub(crate) need: usize,
}

impl Coming {
    /// Returns the number of the packet with which a stream comes last.
    pub(crate) fn came_with(&self, stream: &Stream, kept: &KeptSegments) -> usize
        ensures { result ≡ entry_came self.now (stream.now, kept.now) }
    {
        if *stream == self.stream {
            self.packet
        } else {
            kept.last_packet
        }
    }
}

/// The streams that leave no room for a segment: those that came last before a packet.
#[derive(Clone, Copy)]
pub(crate) struct Crowd {
    pub(crate) coming: Coming,
    pub(crate) since: usize,
}

/// What streams take: how many there are beside that of a segment, and their bytes; and with which packet the first of
/// them came last.
#[derive(Clone, Copy)]
pub(crate) struct Taken {
    pub(crate) others: usize,
    pub(crate) held: usize,
    pub(crate) first: Option<usize>,
}

/// Returns the lower number.
fn lower(first: Option<usize>, packet: usize) -> usize
    ensures { result ≡ option_map_or (λ one. min one packet) first packet }
{
    match first {
        Some(first) => first.min(packet),
        None => packet,
    }
}

impl Taken {
    /// Returns what these take and a stream, if it came last with this packet or a later one.
    fn with(
        self,
        coming: &Coming,
        packet: usize,
        stream: &Stream,
        kept: &KeptSegments,
    ) -> Result<Self, AllocError>
        ensures { IfOk result (λ taken. taken
            ≡ taken_and_since coming.now packet (stream.now, kept.now) self) }
    {
        let came = coming.came_with(stream, kept);
        if came < packet {
            return Ok(self);
        }
        let one = usize::from(*stream != coming.stream);
        let others = self.others.checked_add(one).ok_or(AllocError)?;
        let held = self.held.checked_add(kept.held).ok_or(AllocError)?;
        Ok(Taken {
            others,
            held,
            first: Some(lower(self.first, came)),
        })
    }

    /// Returns whether there is room for a segment beside these.
    fn leaves(self, need: usize) -> bool
        ensures { result ≡ leaves_room need self }
    {
        self.others < MAX_STREAMS && self.held <= MAX_ROOM && need <= MAX_ROOM - self.held
    }
}

impl Streams {
    /// Returns whether a stream is open to which a segment came that has the sequence number of one with this number.
    fn is_known(&self, stream: &Stream, number: Seq12) -> bool
        ensures { IsKnown number
            (lookup (is_same_stream stream.now) self.now.live.entries) result }
    {
        match self.live.get(stream) {
            Some(kept) => kept.has(number),
            None => false,
        }
    }

    /// Returns a segment of a packet as it comes to its stream.
    pub(crate) fn coming(
        &self,
        stream: Stream,
        packet: usize,
        segment: &SegmentFields<'_>,
    ) -> Result<Coming, AllocError>
        ensures { IfOk result (IsComing stream packet segment.now self.now.live.entries) }
    {
        let is_known = self.is_known(&stream, segment.number);
        let need = if is_known { 0 } else { segment_room(segment)? };
        Ok(Coming {
            stream,
            packet,
            need,
        })
    }

    /// Returns what the streams take that came last with this packet or a later one.
    fn taken_since(&self, coming: &Coming, packet: usize) -> Result<Taken, AllocError>
        ensures { IfOk result (AreTaken coming.now packet self.now.live.entries) }
    {
        let mut taken = Taken {
            others: 0,
            held: 0,
            first: None,
        };
        let mut at = 0;
        while at < self.live.len() {
            let Some((stream, kept)) = self.live.get_index(at) else {
                return Ok(taken);
            };
            taken = taken.with(coming, packet, stream, kept)?;
            at += 1;
        }
        Ok(taken)
    }

    /// Returns the streams that leave no room for a segment.
    pub(crate) fn crowd(&self, coming: Coming) -> Result<Crowd, AllocError>
        ensures { IfOk result (IsCrowd coming self.now.live.entries) }
    {
        let mut since = 0;
        loop {
            let taken = self.taken_since(&coming, since)?;
            match taken.first {
                Some(first) if !taken.leaves(coming.need) => {
                    since = first.checked_add(1).ok_or(AllocError)?;
                }
                _ => return Ok(Crowd { coming, since }),
            }
        }
    }
}
