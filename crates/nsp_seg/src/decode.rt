//! Bytes to packets.

ghost use Rattle.std.specs.Prelude.{◌≡◌, Ok, Err, IfOk, IfErr};
ghost use Rattle.nsp_seg.specs.Packets.{Packet, Spells, HasFault};
ghost use Rattle.nsp_seg.specs.Inner.Reading.{ReadsPacketAs, read_word, ack_of, tail_of, read_segment, second_of, data_ack_of, read_packet};

use crate::packet::{
    ACK_FIELD, ACK_FIELD_HIGH, AckField, AckFields, FIRST, FlagKind, LAST, Packet, Payload,
    QUAL_UNIT, SegFault, SegmentFields, flag_kind,
};
use crate::seq12::Seq12;
use byteorder::{ByteOrder, LittleEndian};

/// Returns the two-byte number that the bytes begin with, which is at the offset `at` of the packet, and what follows
/// it.
fn take_word(bytes: &[u8], at: usize) -> Result<(u16, &[u8]), SegFault>
    ensures { ReadsPacketAs (λ x. (x.0, x.1.now)) result (read_word at bytes.now) }
{
    if bytes.len() < 2 {
        return Err(SegFault::Truncated(at));
    }
    let (front, rest) = bytes.split_at(2);
    Ok((LittleEndian::read_u16(front), rest))
}

/// Returns the acknowledgement field that a number with its high bit set is.
fn ack_field(word: u16) -> Option<AckField>
    ensures { result ≡ ack_of word }
{
    if word < ACK_FIELD {
        return None;
    }
    Some(AckField {
        qual: (word / QUAL_UNIT % 8) as u8,
        number: Seq12::of(u64::from(word)),
    })
}

/// The acknowledgement fields, the number with its free bits, and the payload, which begin at offset 5
/// of a segment.
type Tail<'a> = (Option<AckField>, Option<AckField>, u16, &'a [u8]);

/// Returns what a segment has from offset 5 on.
#[tactic(auto, unfolding(crate::specs::Inner::Reading::tail_of))]
fn take_tail(bytes: &[u8]) -> Result<Tail<'_>, SegFault>
    ensures { ReadsPacketAs (λ t. (t.0, t.1, t.2, t.3.now)) result (tail_of bytes.now) }
{
    let (one, rest) = take_word(bytes, 5)?;
    if one < ACK_FIELD {
        return Ok((None, None, one, rest));
    }
    let (two, rest) = take_word(rest, 7)?;
    if two < ACK_FIELD {
        return Ok((ack_field(one), None, two, rest));
    }
    let (three, rest) = take_word(rest, 9)?;
    if three < ACK_FIELD {
        return Ok((ack_field(one), ack_field(two), three, rest));
    }
    Err(SegFault::BadNumber(9))
}

/// Reads the segment with this flag byte before these bytes.
#[tactic(auto, unfolding(crate::specs::Inner::Reading::read_segment))]
fn segment(flag: u8, bytes: &[u8]) -> Result<Packet<'_>, SegFault>
    ensures { result ≡ read_segment flag bytes.now }
{
    let (dst, rest) = take_word(bytes, 1)?;
    let (src, rest) = take_word(rest, 3)?;
    let (ack1, ack2, word, payload) = match take_tail(rest) {
        Ok(tail) => tail,
        Err(fault) => return Err(fault),
    };
    Ok(Packet::Segment(SegmentFields {
        first: flag == FIRST || flag == FIRST + LAST,
        last: flag == LAST || flag == FIRST + LAST,
        dst,
        src,
        ack1,
        ack2,
        number: Seq12::of(u64::from(word)),
        payload: Payload(payload),
    }))
}

/// Returns what follows the first field of an acknowledgement, from offset 7 on.
#[tactic(auto, unfolding(crate::specs::Inner::Reading::second_of))]
fn second_ack(bytes: &[u8]) -> Result<Option<AckField>, SegFault>
    ensures { ReadsPacketAs (λ a. a) result (second_of bytes.now) }
{
    match bytes {
        [] => Ok(None),
        [_] => Err(SegFault::Trailing(7)),
        [_, high] if *high >= ACK_FIELD_HIGH => Ok(ack_field(LittleEndian::read_u16(bytes))),
        [_, high, ..] if *high >= ACK_FIELD_HIGH => Err(SegFault::Trailing(9)),
        _ => Err(SegFault::Trailing(7)),
    }
}

/// Reads the data acknowledgement with these bytes after its flag byte.
#[tactic(auto, unfolding(crate::specs::Inner::Reading::data_ack_of))]
fn data_ack(bytes: &[u8]) -> Result<Packet<'_>, SegFault>
    ensures { result ≡ data_ack_of bytes.now }
{
    let (dst, rest) = take_word(bytes, 1)?;
    let (src, rest) = take_word(rest, 3)?;
    let (one, rest) = take_word(rest, 5)?;
    let Some(ack1) = ack_field(one) else {
        return Err(SegFault::BadNumber(5));
    };
    let ack2 = second_ack(rest)?;
    Ok(Packet::DataAck(AckFields {
        dst,
        src,
        ack1,
        ack2,
    }))
}

/// Reads the packet that the bytes spell, or their fault.
#[tactic(auto, unfolding(crate::specs::Inner::Reading::read_packet))]
fn packet(bytes: &[u8]) -> Result<Packet<'_>, SegFault>
    ensures { result ≡ read_packet bytes.now }
{
    match bytes {
        [] => Err(SegFault::Truncated(0)),
        [flag, rest @ ..] => match flag_kind(*flag) {
            FlagKind::Segment => segment(*flag, rest),
            FlagKind::DataAck => data_ack(rest),
            _ => Err(SegFault::NotHere(*flag)),
        },
    }
}

/// Returns the value of the packet that the bytes, all of them, spell, for crates that hold packets as values. It
/// reads as [`crate::decode_packet`] does, which see.
pub fn decode_value(bytes: &[u8]) -> Result<Packet<'_>, SegFault>
    // What is spelled is read, and what is read is spelled.
    ensures only { (p : Packet) → Spells p bytes.now → result ≡ Ok p }
    ensures found { IfOk result (λ p. Spells p bytes.now) }
    // A fault of the bytes is reported, and what is reported is a fault of the bytes.
    ensures fault_found { (f : SegFault) → HasFault f bytes.now → result ≡ Err f }
    ensures fault { IfErr result (λ f. HasFault f bytes.now) }
{
    packet(bytes)
}
