//! Packets to bytes.

ghost use Rattle.std.specs.Prelude.{◌≡◌, ◌+◌, ◌<◌, ◌≤◌, ◌++◌, length, vec_len, vec_capacity, OnOk, OnErr, IsOk, IsOkUnless};
ghost use Rattle.byteorder.specs.Endian.{little_bytes};
ghost use Rattle.nsp_control.specs.Packets.{control_spelling, ControlFits, IsWritableControl};
ghost use Rattle.nsp_control.specs.declared.packet.ControlFault.TheVariants.{NoMemory};

use crate::packet::{
    CONFIRM, CONNECT, CONNECT_ACK, CONNECT_AGAIN, Control, ControlFault, DISCONNECT,
    DISCONNECT_CONFIRM,
};
use byteorder::{ByteOrder, LittleEndian};

/// Appends a two-byte number, for which there is room.
fn put_word(out: &mut Vec<u8>, word: u16)
    requires { vec_len out.old + 2 ≤ vec_capacity out.old }
    ensures items { out.new.items ≡ out.old.items ++ little_bytes 2 word }
    ensures len { vec_len out.new ≡ vec_len out.old + 2 }
    ensures capacity { vec_capacity out.new ≡ vec_capacity out.old }
{
    let mut bytes = [0u8; 2];
    LittleEndian::write_u16(&mut bytes, word);
    out.push_reserved(bytes[0]);
    out.push_reserved(bytes[1]);
}

/// Returns how many bytes a packet has.
fn control_len(packet: &Control<'_>) -> usize
    ensures { result ≡ length (control_spelling packet.now) }
{
    match packet {
        Control::Connect(p) => 9 + p.body.0.len(),
        Control::Confirm(p) => 9 + p.body.0.len(),
        Control::Disconnect(p) => 7 + p.body.0.len(),
        Control::DisconnectConfirm(_) => 7,
        Control::ConnectAck(_) => 3,
    }
}

/// Appends a packet, for which there is room.
fn put_control(out: &mut Vec<u8>, packet: &Control<'_>)
    requires writable { IsWritableControl packet.now }
    requires room { vec_len out.old + length (control_spelling packet.now) ≤ vec_capacity out.old }
    ensures items { out.new.items ≡ out.old.items ++ control_spelling packet.now }
    ensures capacity { vec_capacity out.old ≤ vec_capacity out.new }
    ensures fits { ControlFits packet.now }
{
    match packet {
        Control::Connect(p) => {
            out.push_reserved(if p.again { CONNECT_AGAIN } else { CONNECT });
            out.push_reserved(0);
            out.push_reserved(0);
            put_word(out, p.src);
            out.push_reserved(p.services);
            out.push_reserved(p.info);
            put_word(out, p.seg_size);
            out.extend_from_slice(p.body.0).unwrap();
        }
        Control::Confirm(p) => {
            out.push_reserved(CONFIRM);
            put_word(out, p.dst);
            put_word(out, p.src);
            out.push_reserved(p.services);
            out.push_reserved(p.info);
            put_word(out, p.seg_size);
            out.extend_from_slice(p.body.0).unwrap();
        }
        Control::Disconnect(p) => {
            out.push_reserved(DISCONNECT);
            put_word(out, p.dst);
            put_word(out, p.src);
            put_word(out, p.reason);
            out.extend_from_slice(p.body.0).unwrap();
        }
        Control::DisconnectConfirm(p) => {
            out.push_reserved(DISCONNECT_CONFIRM);
            put_word(out, p.dst);
            put_word(out, p.src);
            put_word(out, p.reason);
        }
        Control::ConnectAck(dst) => {
            out.push_reserved(CONNECT_ACK);
            put_word(out, *dst);
        }
    }
}

/// Appends the packet's bytes (NSP 4.0.0, control messages). The caller sees to it that the addresses of a connect
/// initiate and of a connect confirm aren't 0. It fails only if memory is refused, which leaves `out` as it was, and
/// never where `out` has the room already; no room is given back.
pub fn encode_control(packet: &Control<'_>, out: &mut Vec<u8>) -> Result<(), ControlFault>
    requires { IsWritableControl packet.now }
    ensures ok { OnOk result (out.new.items ≡ out.old.items ++ control_spelling packet.now) }
    ensures fits { OnOk result (ControlFits packet.now) }
    ensures err { OnErr result (out.new.items ≡ out.old.items) }
    ensures fault { IsOkUnless result NoMemory }
    ensures room { vec_len out.old + length (control_spelling packet.now) ≤ vec_capacity out.old
        → IsOk result }
    ensures capacity { vec_capacity out.old ≤ vec_capacity out.new }
{
    out.reserve(control_len(packet))?;
    put_control(out, packet);
    Ok(())
}
