//! Packets with named fields, as a program makes, matches, reads and writes them.

ghost use Rattle.std.specs.Prelude.{◌≡◌, ◌≤◌, ◌+◌, ◌++◌, length, Ok, Err, IfOk, IfErr, IsOk, IsOkUnless, OnOk, OnErr, vec_len, vec_capacity};
ghost use Rattle.nsp_seg.specs.declared.packet.SegFault.TheVariants.{NoMemory};
ghost use Rattle.nsp_seg.specs.Packets.{Packet as PacketValue, FitsFields, HasFault, IsWritable, Spells, spelling};
ghost use Rattle.nsp_seg.specs.Values.{packet_value, packet_answer_value};

use crate::decode::decode_value;
use crate::encode::encode_value;
use crate::packet::{AckField, AckFields, Packet as PacketValue, Payload, SegFault, SegmentFields};
use crate::seq12::Seq12;

/// A packet (NSP 4.0.0, data segments and their acknowledgement), for programs that read or write packets: its fields
/// have names, and its payload is a slice of the bytes that were read. It is copied freely.
///
/// Contracts say its value, the [`PacketValue`] with the same fields, in which the payload is a list of numbers.
#[derive(Clone, Copy, PartialEq, Eq)]
pub enum Packet<'a> {
    /// A data segment (NSP 4.0.0, data segment message).
    Segment {
        /// Whether it is the first segment of its message.
        first: bool,
        /// Whether it is the last.
        last: bool,
        /// The link address to which it goes.
        dst: u16,
        /// The link address from which it comes.
        src: u16,
        /// Up to two acknowledgement fields; the second only beside the first.
        ack1: Option<AckField>,
        ack2: Option<AckField>,
        /// The number of the segment.
        number: Seq12,
        /// Its bytes, which may be none.
        payload: &'a [u8],
    },
    /// A data acknowledgement (NSP 4.0.0, data acknowledgement message).
    DataAck {
        /// The link address to which it goes.
        dst: u16,
        /// The link address from which it comes.
        src: u16,
        /// One or two acknowledgement fields.
        ack1: AckField,
        ack2: Option<AckField>,
    },
}

impl<'a> Packet<'a> {
    /// Returns the value of the packet. Made into a packet again it has the same fields.
    pub fn to_value(&self) -> PacketValue<'a>
        ensures { result ≡ packet_value self.now }
    {
        match *self {
            Packet::Segment {
                first,
                last,
                dst,
                src,
                ack1,
                ack2,
                number,
                payload,
            } => PacketValue::Segment(SegmentFields {
                first,
                last,
                dst,
                src,
                ack1,
                ack2,
                number,
                payload: Payload(payload),
            }),
            Packet::DataAck {
                dst,
                src,
                ack1,
                ack2,
            } => PacketValue::DataAck(AckFields {
                dst,
                src,
                ack1,
                ack2,
            }),
        }
    }

    /// Returns the packet that has this value.
    pub fn from_value(value: PacketValue<'a>) -> Packet<'a>
        ensures { packet_value result ≡ value.entry }
    {
        match value {
            PacketValue::Segment(segment) => Packet::Segment {
                first: segment.first,
                last: segment.last,
                dst: segment.dst,
                src: segment.src,
                ack1: segment.ack1,
                ack2: segment.ack2,
                number: segment.number,
                payload: segment.payload.0,
            },
            PacketValue::DataAck(ack) => Packet::DataAck {
                dst: ack.dst,
                src: ack.src,
                ack1: ack.ack1,
                ack2: ack.ack2,
            },
        }
    }
}

/// Returns the packet that the bytes, all of them, spell; its payload is a part of them. It takes no memory. Bytes
/// that spell none have one fault, and that is reported (NSP 4.0.0, data segment message and data acknowledgement
/// message; other messages are not read here).
pub fn decode_packet(bytes: &[u8]) -> Result<Packet<'_>, SegFault>
    // What is spelled is read, and what is read is spelled.
    ensures only { (p : PacketValue) → Spells p bytes.now → packet_answer_value result ≡ Ok p }
    ensures found { IfOk result (λ p. Spells (packet_value p) bytes.now) }
    // A fault of the bytes is reported, and what is reported is a fault of the bytes.
    ensures fault_found { (f : SegFault) → HasFault f bytes.now → result ≡ Err f }
    ensures fault { IfErr result (λ f. HasFault f bytes.now) }
{
    match decode_value(bytes) {
        Ok(value) => Ok(Packet::from_value(value)),
        Err(fault) => Err(fault),
    }
}

/// Appends the packet's bytes; the free bits of a segment's number are written 0. The caller sees to it that each
/// qualifier is at most 7, and that a second acknowledgement field is only beside a first. It fails only if memory
/// is refused, which leaves `out` as it was, and never where `out` has the room already; no room is given back (NSP
/// 4.0.0, data segment message and data acknowledgement message).
pub fn encode_packet(packet: &Packet<'_>, out: &mut Vec<u8>) -> Result<(), SegFault>
    requires { IsWritable (packet_value packet.now) }
    ensures ok { OnOk result (out.new.items ≡ out.old.items ++ spelling (packet_value packet.now)) }
    ensures fits { OnOk result (FitsFields (packet_value packet.now)) }
    ensures err { OnErr result (out.new.items ≡ out.old.items) }
    ensures fault { IsOkUnless result NoMemory }
    ensures room { vec_len out.old + length (spelling (packet_value packet.now))
        ≤ vec_capacity out.old → IsOk result }
    ensures capacity { vec_capacity out.old ≤ vec_capacity out.new }
{
    encode_value(&packet.to_value(), out)
}
