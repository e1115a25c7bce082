//! The lister: packets come one after the other, and their lines are appended.

ghost use Rattle.std.specs.Prelude.{◌≡◌, ◌⊎◌, IfErr, Ok, OnOk};
ghost use Rattle.std.specs.Io.KnownBytes.{Appends, Keeps};
ghost use Rattle.linewise.specs.Output.{WritesFront};
ghost use Rattle.linewise.specs.declared.fault.CaptureFault.TheVariants.{NoMemory, WriteFailed};
ghost use Rattle.texts.specs.Adding.{AddsSome};
ghost use Rattle.dap_follow.specs.Lines.{IsOwnText};
ghost use Rattle.dap_follow.specs.Streams.{stream_of as the_stream_of};
ghost use Rattle.dap_follow.specs.Keeping.Lister.{EndsCrowd, EndsStreams, IsToldText, ListerStarts, TellsJoined, TellsSingle, TellsWhole, rest_of};
ghost use Rattle.nsp_seg.specs.declared.packet.Packet.TheVariants.{Segment as SegmentPacket};
ghost use Rattle.decnet_frames.specs.Found.{found_seen};

use crate::ending::Ending;
use crate::initiate::Initiate;
use crate::kept::Whole;
use crate::rest::push_ending;
use crate::streams::{Stream, Streams};
use crate::text::{push_packet_line, push_piece};
use dap_listing::push_messages;
use decnet_frames::{Found, Takes};
use linewise::{CaptureFault, write_text};
use nsp_seg::{PacketValue, SegFault, SegmentFields, decode_value};
use std::alloc::{AllocError, Global};
use std::io::Write;
use texts::push_str;

/// The maximum number of packets of a capture.
const MAX_PACKETS: usize = 1 << 50;

/// What a listing has.
#[derive(Clone, Copy, Debug, PartialEq, Eq)]
pub struct Chosen {
    /// Whether its lines have words.
    pub in_words: bool,
    /// Whether the segments of messages are joined; else only the segments that are whole messages have theirs.
    pub is_joined: bool,
}

/// A listing of the packets that came: what was chosen, how many there were, and what is kept of each stream that
/// hasn't ended.
#[derive(Drop)]
pub struct Lister {
    pub(crate) alloc: Global,
    pub(crate) chosen: Chosen,
    pub(crate) packets: usize,
    pub(crate) streams: Streams,
    /// Room for the bytes of a message.
    pub(crate) message: Vec<u8>,
}

/// Returns the stream of a packet's segment.
fn stream_of(found: &Found<'_>, segment: &SegmentFields<'_>) -> Stream
    ensures { result ≡ the_stream_of (found_seen found.now) segment.now }
{
    Stream {
        way: found.way,
        nodes: found.nodes,
        dst: segment.dst,
        src: segment.src,
    }
}

/// Appends the lines of a message that is whole and has these bytes.
fn push_whole(
    text: &mut Vec<u8>,
    whole: Whole,
    bytes: &[u8],
    in_words: bool,
) -> Result<(), AllocError>
    ensures { OnOk result
        (AddsSome text.old text.new (IsToldText in_words bytes.now whole)) }
{
    push_str(text, "  message")?;
    push_piece(text, whole.from, whole.to, bytes)?;
    push_messages(text, bytes, in_words)
}

/// Appends the lines of the messages in a segment that is a whole NSP message.
fn push_own(
    text: &mut Vec<u8>,
    seen: &Result<PacketValue<'_>, SegFault>,
    in_words: bool,
) -> Result<(), AllocError>
    ensures { OnOk result (AddsSome text.old text.new (IsOwnText in_words seen.now)) }
{
    match seen {
        Ok(PacketValue::Segment(segment)) if segment.first && segment.last => {
            push_messages(text, segment.payload.0, in_words)
        }
        _ => Ok(()),
    }
}

impl Lister {
    /// Returns a listing of which no packet came yet. It takes no memory.
    pub fn new(alloc: Global, chosen: Chosen) -> Self
        ensures chosen { result.chosen ≡ chosen }
        ensures starts { ListerStarts result }
    {
        Lister {
            alloc,
            chosen,
            packets: 0,
            streams: Streams::new(alloc),
            message: Vec::new(alloc),
        }
    }

    /// Ends the streams that a packet ends: appends what is left of them, and drops it.
    fn end_streams(&mut self, text: &mut Vec<u8>, found: &Found<'_>) -> Result<(), AllocError>
        ensures ends { OnOk result (AddsSome text.old text.new (EndsStreams (found_seen found.now)
            self.old.streams.live.entries self.new.streams.live.entries)) }
        ensures chosen { self.new.chosen ≡ self.old.chosen }
        ensures packets { self.new.packets ≡ self.old.packets }
    {
        let Some(initiate) = Initiate::of(found) else {
            return Ok(());
        };
        let ending = Ending::Opened(initiate);
        push_ending(self.alloc, text, &self.streams, ending)?;
        self.streams.end(ending);
        Ok(())
    }

    /// Makes room for the segment of a packet: ends the streams that leave none.
    fn make_room(
        &mut self,
        text: &mut Vec<u8>,
        found: &Found<'_>,
        segment: &SegmentFields<'_>,
    ) -> Result<(), AllocError>
        ensures room { OnOk result (AddsSome text.old text.new (EndsCrowd (found_seen found.now)
            (Ok (SegmentPacket segment.now)) self.old.packets
            self.old.streams.live.entries self.new.streams.live.entries)) }
        ensures chosen { self.new.chosen ≡ self.old.chosen }
        ensures packets { self.new.packets ≡ self.old.packets }
    {
        let stream = stream_of(found, segment);
        let coming = self.streams.coming(stream, self.packets, segment)?;
        let ending = Ending::Crowded(self.streams.crowd(coming)?);
        push_ending(self.alloc, text, &self.streams, ending)?;
        self.streams.end(ending);
        Ok(())
    }

    /// Makes room for a packet that is one: ends the streams that leave none.
    fn make_room_of(
        &mut self,
        text: &mut Vec<u8>,
        found: &Found<'_>,
        packet: &PacketValue<'_>,
    ) -> Result<(), AllocError>
        ensures room { OnOk result (AddsSome text.old text.new (EndsCrowd (found_seen found.now)
            (Ok packet.now) self.old.packets
            self.old.streams.live.entries self.new.streams.live.entries)) }
        ensures chosen { self.new.chosen ≡ self.old.chosen }
        ensures packets { self.new.packets ≡ self.old.packets }
    {
        match packet {
            PacketValue::Segment(segment) => self.make_room(text, found, segment),
            PacketValue::DataAck(_) => Ok(()),
        }
    }

    /// Makes room for what a packet is: ends the streams that leave none.
    fn make_room_for(
        &mut self,
        text: &mut Vec<u8>,
        found: &Found<'_>,
        seen: &Result<PacketValue<'_>, SegFault>,
    ) -> Result<(), AllocError>
        ensures room { OnOk result (AddsSome text.old text.new (EndsCrowd (found_seen found.now)
            seen.now self.old.packets self.old.streams.live.entries self.new.streams.live.entries)) }
        ensures chosen { self.new.chosen ≡ self.old.chosen }
        ensures packets { self.new.packets ≡ self.old.packets }
    {
        match seen {
            Ok(packet) => self.make_room_of(text, found, packet),
            Err(_) => Ok(()),
        }
    }

    /// Takes a segment, and appends the lines of the message that is whole with it.
    fn push_segment(
        &mut self,
        text: &mut Vec<u8>,
        found: &Found<'_>,
        segment: &SegmentFields<'_>,
    ) -> Result<(), AllocError>
        ensures tells { OnOk result (AddsSome text.old text.new (TellsWhole self.old.chosen.in_words
            self.old.packets (found_seen found.now) (Ok (SegmentPacket segment.now))
            self.old.streams.live.entries self.new.streams.live.entries)) }
        ensures chosen { self.new.chosen ≡ self.old.chosen }
        ensures packets { self.new.packets ≡ self.old.packets }
    {
        let stream = stream_of(found, segment);
        let added = self
            .streams
            .add(stream, self.packets, segment, &mut self.message)?;
        let Some(whole) = added else {
            return Ok(());
        };
        push_whole(text, whole, &self.message, self.chosen.in_words)
    }

    /// Takes a packet that is one, and appends the lines of the message that is whole with it.
    fn push_packet(
        &mut self,
        text: &mut Vec<u8>,
        found: &Found<'_>,
        packet: &PacketValue<'_>,
    ) -> Result<(), AllocError>
        ensures tells { OnOk result (AddsSome text.old text.new (TellsWhole self.old.chosen.in_words
            self.old.packets (found_seen found.now) (Ok packet.now)
            self.old.streams.live.entries self.new.streams.live.entries)) }
        ensures chosen { self.new.chosen ≡ self.old.chosen }
        ensures packets { self.new.packets ≡ self.old.packets }
    {
        match packet {
            PacketValue::Segment(segment) => self.push_segment(text, found, segment),
            PacketValue::DataAck(_) => Ok(()),
        }
    }

    /// Takes what a packet is, and appends the lines of the message that is whole with it.
    fn push_seen(
        &mut self,
        text: &mut Vec<u8>,
        found: &Found<'_>,
        seen: &Result<PacketValue<'_>, SegFault>,
    ) -> Result<(), AllocError>
        ensures tells { OnOk result (AddsSome text.old text.new (TellsWhole self.old.chosen.in_words
            self.old.packets (found_seen found.now) seen.now
            self.old.streams.live.entries self.new.streams.live.entries)) }
        ensures chosen { self.new.chosen ≡ self.old.chosen }
        ensures packets { self.new.packets ≡ self.old.packets }
    {
        match seen {
            Ok(packet) => self.push_packet(text, found, packet),
            Err(_) => Ok(()),
        }
    }

    /// Appends the lines of a packet whose segment is joined with others.
    fn push_joined(
        &mut self,
        text: &mut Vec<u8>,
        found: &Found<'_>,
        seen: &Result<PacketValue<'_>, SegFault>,
    ) -> Result<(), AllocError>
        ensures joined { OnOk result (AddsSome text.old text.new
            (TellsJoined (found_seen found.now) seen.now self.old self.new)) }
        ensures chosen { self.new.chosen ≡ self.old.chosen }
        ensures packets { self.new.packets ≡ self.old.packets }
    {
        self.end_streams(text, found)?;
        self.make_room_for(text, found, seen)?;
        push_packet_line(text, self.packets, found, seen, self.chosen.in_words)?;
        self.push_seen(text, found, seen)
    }

    /// Appends the lines of a packet whose segment isn't joined with others.
    fn push_single(
        &mut self,
        text: &mut Vec<u8>,
        found: &Found<'_>,
        seen: &Result<PacketValue<'_>, SegFault>,
    ) -> Result<(), AllocError>
        ensures single { OnOk result (AddsSome text.old text.new
            (TellsSingle (found_seen found.now) seen.now self.old)) }
        ensures same { self.new ≡ self.old }
    {
        push_packet_line(text, self.packets, found, seen, self.chosen.in_words)?;
        push_own(text, seen, self.chosen.in_words)
    }
}

impl Takes for Lister {
    ghost use Rattle.dap_follow.specs.Keeping.Lister.{takes};

    ghost taken = { takes };

    fn take(&mut self, text: &mut Vec<u8>, found: &Found<'_>) -> Result<(), AllocError> {
        if self.packets >= MAX_PACKETS {
            return Err(AllocError);
        }
        self.packets += 1;
        let seen = decode_value(found.packet);
        if self.chosen.is_joined {
            return self.push_joined(text, found, &seen);
        }
        self.push_single(text, found, &seen)
    }
}

/// Writes what is left of each stream that hasn't ended.
pub fn write_rest<W: Write>(
    alloc: Global,
    lister: &Lister,
    writer: &mut W,
) -> Result<(), CaptureFault>
    ensures whole { OnOk result (Appends (W.contents writer.old) (W.contents writer.new)
        (rest_of lister.now)) }
    ensures fault { IfErr result (λ fault.
        ((fault ≡ NoMemory) × Keeps (W.contents writer.old) (W.contents writer.new))
        ⊎ ((fault ≡ WriteFailed)
        × WritesFront (W.contents writer.old) (W.contents writer.new)
        (rest_of lister.now))) }
{
    let mut text = Vec::new(alloc);
    if push_ending(alloc, &mut text, &lister.streams, Ending::All).is_err() {
        return Err(CaptureFault::NoMemory);
    }
    write_text(&text, writer)
}
