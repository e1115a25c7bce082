//! The lines of a packet.

ghost use Rattle.std.specs.Prelude.{◌≡◌, ◌≤◌, ◌/◌, ◌++◌, ◌∷◌, [], ℕ, List, Ok, OnOk, Some, codes, length};
ghost use Rattle.std.specs.List.{concat};
ghost use Rattle.texts.specs.Text.{word_text};
ghost use Rattle.texts.specs.Adding.{Adds, AddsSome, StillBegins};
ghost use Rattle.dap_listing.specs.Packets.{IsPacketText, ack_text, acks_text, mark_text, seen_line};
ghost use Rattle.dap_listing.specs.Inner.Messages.{SegmentMessages};
ghost use Rattle.nsp_seg.specs.declared.packet.Packet.TheVariants.{DataAck, Segment};

use crate::message::push_messages;
use dap_meanings::push_packet_fault;
use nsp_seg::{AckField, AckFields, PacketValue, SegFault, SegmentFields, decode_value};
use std::alloc::AllocError;
use texts::{push_number, push_str, push_word};

/// Appends an acknowledgement field.
#[tactic(auto, unfolding(texts::specs::Adding::StillBegins))]
fn push_ack_field(text: &mut Vec<u8>, word: &str, ack: AckField) -> Result<(), AllocError>
    ensures added { OnOk result (Adds text.old text.new (word.now ++ ack_text ack)) }
    ensures kept { StillBegins text.old text.new }
{
    push_number(text, word, ack.qual)?;
    push_number(text, ":", ack.number.get())
}

/// Appends the acknowledgement fields of a packet.
#[tactic(auto, unfolding(texts::specs::Adding::StillBegins))]
fn push_acks(
    text: &mut Vec<u8>,
    first: Option<AckField>,
    second: Option<AckField>,
) -> Result<(), AllocError>
    ensures added { OnOk result (Adds text.old text.new (codes " acks=" ++ acks_text first second)) }
    ensures kept { StillBegins text.old text.new }
{
    let Some(first) = first else {
        return push_str(text, " acks=-");
    };
    push_ack_field(text, " acks=", first)?;
    match second {
        None => Ok(()),
        Some(second) => push_ack_field(text, ",", second),
    }
}

/// Appends the link addresses of a packet.
#[tactic(auto, unfolding(texts::specs::Adding::StillBegins))]
fn push_ends(text: &mut Vec<u8>, dst: u16, src: u16) -> Result<(), AllocError>
    ensures added { OnOk result (Adds text.old text.new
        (concat (codes " dst=" ∷ word_text dst ∷ codes " src=" ∷ word_text src ∷ []))) }
    ensures kept { StillBegins text.old text.new }
{
    push_word(text, " dst=", dst)?;
    push_word(text, " src=", src)
}

/// Appends the line of a segment, whose payload has this many bytes.
#[tactic(auto, using(crate::proofs::MessageLemmas::begins_further))]
fn push_segment(
    text: &mut Vec<u8>,
    line: &SegmentFields<'_>,
    count: usize,
) -> Result<(), AllocError>
    requires { count ≡ length line.now.payload }
    ensures added { OnOk result (Adds text.old text.new (seen_line (Ok (Segment line.now)))) }
    ensures kept { StillBegins text.old text.new }
{
    push_str(text, "segment ")?;
    push_str(text, mark_word(line.first, line.last))?;
    push_ends(text, line.dst, line.src)?;
    push_number(text, " seg=", line.number.get())?;
    push_acks(text, line.ack1, line.ack2)?;
    push_number(text, " len=", count)?;
    push_str(text, "\n")
}

/// Returns the word for the marks of a segment.
fn mark_word(first: bool, last: bool) -> &'static str
    ensures { result.now ≡ mark_text first last }
{
    match (first, last) {
        (true, true) => "only",
        (true, false) => "first",
        (false, true) => "last",
        (false, false) => "middle",
    }
}

/// Appends the lines of a segment's messages, where it holds a whole NSP message.
fn push_whole(text: &mut Vec<u8>, first: bool, last: bool, payload: &[u8]) -> Result<(), AllocError>
    ensures { OnOk result (AddsSome text.old text.new (SegmentMessages first last payload.now)) }
{
    match (first, last) {
        (true, true) => push_messages(text, payload, false),
        (true, false) | (false, _) => Ok(()),
    }
}

/// Appends the line of a packet that only acknowledges.
#[tactic(auto, unfolding(texts::specs::Adding::StillBegins))]
fn push_ack(text: &mut Vec<u8>, ack: AckFields) -> Result<(), AllocError>
    ensures added { OnOk result (Adds text.old text.new (seen_line (Ok (DataAck ack)))) }
    ensures kept { StillBegins text.old text.new }
{
    push_str(text, "ack")?;
    push_ends(text, ack.dst, ack.src)?;
    push_acks(text, Some(ack.ack1), ack.ack2)?;
    push_str(text, "\n")
}

/// Appends the line of a packet.
#[tactic(auto, unfolding(texts::specs::Adding::StillBegins))]
fn push_line(text: &mut Vec<u8>, packet: &PacketValue<'_>) -> Result<(), AllocError>
    ensures added { OnOk result (Adds text.old text.new (seen_line (Ok packet.now))) }
    ensures kept { StillBegins text.old text.new }
{
    match packet {
        PacketValue::Segment(line) => push_segment(text, line, line.payload.0.len()),
        PacketValue::DataAck(ack) => push_ack(text, *ack),
    }
}

/// Appends the line of a packet, or of bytes that are none. An error is out of memory.
#[tactic(auto, unfolding(texts::specs::Adding::StillBegins))]
pub fn push_seen(
    text: &mut Vec<u8>,
    seen: &Result<PacketValue<'_>, SegFault>,
) -> Result<(), AllocError>
    ensures added { OnOk result (Adds text.old text.new (seen_line seen.now)) }
    ensures kept { StillBegins text.old text.new }
{
    match seen {
        Ok(packet) => push_line(text, packet),
        Err(fault) => push_packet_fault(text, *fault),
    }
}

/// Appends the lines of a packet, and of its messages.
pub(crate) fn push_packet(text: &mut Vec<u8>, bytes: &[u8]) -> Result<(), AllocError>
    ensures { OnOk result (AddsSome text.old text.new (IsPacketText bytes.now)) }
{
    match decode_value(bytes) {
        Ok(PacketValue::Segment(line)) => {
            let payload = line.payload.0;
            push_segment(text, &line, payload.len())?;
            push_whole(text, line.first, line.last, payload)
        }
        Ok(PacketValue::DataAck(ack)) => push_ack(text, ack),
        Err(fault) => push_packet_fault(text, fault),
    }
}
