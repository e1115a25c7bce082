//! What is kept of the streams that haven't ended.

ghost use Rattle.std.specs.Prelude.{◌≡◌, ◌<◌, ◌≤◌, ◌^◌, ℕ, [], not, IfOk, OnOk, List, filter, length};
ghost use Rattle.std.specs.List.{AllZip};
ghost use Rattle.nsp_seg.specs.declared.packet.SegmentFields.{SegmentFields as Segment};
ghost use Rattle.dap_follow.specs.Streams.{OpenStream};
ghost use Rattle.dap_follow.specs.Keeping.Streams.{Continues, IsIndexed, KeepsOpen};
ghost use Rattle.dap_follow.specs.Keeping.Endings.{is_chosen};
ghost use Rattle.dap_follow.specs.Keeping.Room.{Grows};

use crate::ending::Ending;
use crate::kept::{KeptSegments, Whole};
use dap_listing::Direction;
use decnet_frames::Nodes;
use indexmap::IndexMap;
use nsp_seg::{SegmentFields, Seq12};
use std::alloc::{AllocError, Global};

/// The segments that go one way between two ends of two nodes, or of nodes that aren't known.
#[derive(Clone, Copy, PartialEq, Eq, Hash)]
pub(crate) struct Stream {
    pub(crate) way: Direction,
    pub(crate) nodes: Option<Nodes>,
    pub(crate) dst: u16,
    pub(crate) src: u16,
}

/// The streams that haven't ended, in the order in which they appeared, and what is kept of each.
#[derive(Drop)]
pub(crate) struct Streams {
    pub(crate) alloc: Global,
    pub(crate) live: IndexMap<Stream, KeptSegments>,
}

impl Streams {
    /// Returns no streams. It takes no memory.
    pub(crate) fn new(alloc: Global) -> Self
        ensures { result.live.entries ≡ [] }
    {
        Streams {
            alloc,
            live: IndexMap::new(alloc),
        }
    }

    /// Returns the index at which a stream is kept. Where the stream is new, it begins with the number.
    fn stream_index(&mut self, stream: Stream, number: Seq12) -> Result<usize, AllocError>
        ensures within { IfOk result (λ index. index < length self.new.live.entries) }
        ensures indexed { IfOk result
            (IsIndexed stream number self.old.live.entries self.new.live.entries) }
    {
        match self.live.get_index_of(&stream) {
            Some(index) => Ok(index),
            None => {
                let first = KeptSegments::new(self.alloc, number);
                self.live.insert(stream, first)?;
                Ok(self.live.len() - 1)
            }
        }
    }

    /// Takes the segment of a packet and of a stream; returns the message that is whole with it, and its bytes in the vector.
    pub(crate) fn add(
        &mut self,
        stream: Stream,
        packet: usize,
        segment: &SegmentFields<'_>,
        bytes: &mut Vec<u8>,
    ) -> Result<Option<Whole>, AllocError>
        ensures continues { IfOk result (λ found. (number : ℕ) (opens : List OpenStream)
            → number ≤ 2 ^ 50 → AllZip (KeepsOpen number) opens self.old.live.entries
            → packet ≡ number → Continues number stream segment.now opens self.new.live.entries
            bytes.new.items found) }
        ensures grows { OnOk result ((number : ℕ) (opens : List OpenStream)
            → number ≤ 2 ^ 50 → AllZip (KeepsOpen number) opens self.old.live.entries
            → packet ≡ number
            → Grows stream segment.now self.old.live.entries self.new.live.entries) }
    {
        let index = self.stream_index(stream, segment.number)?;
        self.live[index].add(packet, segment, bytes)
    }

    /// Drops the streams that end.
    pub(crate) fn end(&mut self, ending: Ending)
        ensures { self.new.live.entries
            ≡ filter (λ e. not (is_chosen ending e)) self.old.live.entries }
    {
        self.live.retain(
            |stream: &Stream, kept: &mut KeptSegments| -> bool
                ensures { (result ≡ not (is_chosen ending (stream.now, kept.old)))
                    × (kept.new ≡ kept.old) }
            { !ending.has(stream, kept) },
        );
    }
}
