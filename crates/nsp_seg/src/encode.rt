//! Packets to bytes.

ghost use Rattle.std.specs.Prelude.{◌≡◌, ◌+◌, ◌<◌, ◌≤◌, ◌++◌, ◌*◌, length, vec_len, vec_capacity, OnOk, OnErr, IsErrOf, IsOk, IfSome, ◌∷◌, [], IsOkUnless};
ghost use Rattle.byteorder.specs.Endian.{little_bytes};
ghost use Rattle.nsp_seg.specs.Packets.{spelling, FitsFields, AckFits, IsWritable, optional_ack, ack_bytes, QualFits};
ghost use Rattle.nsp_seg.specs.declared.packet.SegFault.TheVariants.{NoMemory};

use crate::packet::{ACK_FIELD, AckField, DATA_ACK, FIRST, LAST, Packet, QUAL_UNIT, SegFault};
use byteorder::{ByteOrder, LittleEndian};

/// Appends a two-byte number, for which there is room.
fn put_word(out: &mut Vec<u8>, word: u16)
    requires { vec_len out.old + 2 ≤ vec_capacity out.old }
    ensures items { out.new.items ≡ out.old.items ++ little_bytes 2 word }
    ensures len { vec_len out.new ≡ vec_len out.old + 2 }
    ensures capacity { vec_capacity out.new ≡ vec_capacity out.old }
{
    let mut bytes = [0u8; 2];
    LittleEndian::write_u16(&mut bytes, word);
    out.push_reserved(bytes[0]);
    out.push_reserved(bytes[1]);
}

/// Appends an acknowledgement field, for which there is room.
fn put_ack(out: &mut Vec<u8>, ack: AckField)
    requires room { vec_len out.old + 2 ≤ vec_capacity out.old }
    requires qual { QualFits ack }
    ensures items { out.new.items ≡ out.old.items ++ ack_bytes ack }
    ensures len { vec_len out.new ≡ vec_len out.old + 2 }
    ensures capacity { vec_capacity out.new ≡ vec_capacity out.old }
    ensures fits { AckFits ack }
{
    put_word(
        out,
        ACK_FIELD + QUAL_UNIT * u16::from(ack.qual) + ack.number.get(),
    );
}

/// Appends an acknowledgement field where there is one, for which there is room.
fn put_optional_ack(out: &mut Vec<u8>, ack: Option<AckField>)
    requires room { vec_len out.old + length (optional_ack ack) ≤ vec_capacity out.old }
    requires qual { IfSome ack QualFits }
    ensures items { out.new.items ≡ out.old.items ++ optional_ack ack }
    ensures len { vec_len out.new ≡ vec_len out.old + length (optional_ack ack) }
    ensures capacity { vec_capacity out.new ≡ vec_capacity out.old }
    ensures fits { IfSome ack AckFits }
{
    if let Some(ack) = ack {
        put_ack(out, ack);
    }
}

/// Returns how many bytes an acknowledgement field has, 0 where there is none.
fn optional_len(ack: &Option<AckField>) -> usize
    ensures value { result ≡ length (optional_ack ack.now) }
    ensures small { result ≤ 2 }
{
    match ack {
        None => 0,
        Some(_) => 2,
    }
}

/// Returns how many bytes a packet has.
fn packet_len(packet: &Packet<'_>) -> usize
    ensures { result ≡ length (spelling packet.now) }
{
    match packet {
        Packet::Segment(s) => 7 + optional_len(&s.ack1) + optional_len(&s.ack2) + s.payload.0.len(),
        Packet::DataAck(a) => 7 + optional_len(&a.ack2),
    }
}

/// Appends a packet, for which there is room.
fn put_packet(out: &mut Vec<u8>, packet: &Packet<'_>)
    requires writable { IsWritable packet.now }
    requires room { vec_len out.old + length (spelling packet.now) ≤ vec_capacity out.old }
    ensures items { out.new.items ≡ out.old.items ++ spelling packet.now }
    ensures capacity { vec_capacity out.old ≤ vec_capacity out.new }
    ensures fits { FitsFields packet.now }
{
    match packet {
        Packet::Segment(s) => {
            out.push_reserved(if s.first { FIRST } else { 0 } + if s.last { LAST } else { 0 });
            put_word(out, s.dst);
            put_word(out, s.src);
            put_optional_ack(out, s.ack1);
            put_optional_ack(out, s.ack2);
            put_word(out, s.number.get());
            out.extend_from_slice(s.payload.0).unwrap();
        }
        Packet::DataAck(a) => {
            out.push_reserved(DATA_ACK);
            put_word(out, a.dst);
            put_word(out, a.src);
            put_ack(out, a.ack1);
            put_optional_ack(out, a.ack2);
        }
    }
}

/// Appends the bytes of the packet that has this value, for crates that hold packets as values; as
/// [`crate::encode_packet`] does, which see.
pub fn encode_value(packet: &Packet<'_>, out: &mut Vec<u8>) -> Result<(), SegFault>
    requires { IsWritable packet.now }
    ensures ok { OnOk result (out.new.items ≡ out.old.items ++ spelling packet.now) }
    ensures fits { OnOk result (FitsFields packet.now) }
    ensures err { OnErr result (out.new.items ≡ out.old.items) }
    ensures fault { IsOkUnless result NoMemory }
    ensures room { vec_len out.old + length (spelling packet.now) ≤ vec_capacity out.old
        → IsOk result }
    ensures capacity { vec_capacity out.old ≤ vec_capacity out.new }
{
    out.reserve(packet_len(packet))?;
    put_packet(out, packet);
    Ok(())
}
