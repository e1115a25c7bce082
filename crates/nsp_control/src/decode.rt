//! Bytes to packets.

ghost use Rattle.std.specs.Prelude.{◌≡◌, Ok, Err, IfOk, IfErr};
ghost use Rattle.nsp_control.specs.Packets.{SpellsControl};
ghost use Rattle.nsp_control.specs.Faults.{HasControlFault};
ghost use Rattle.nsp_control.specs.declared.packet.ControlFault.{ControlFault as FaultValue};
ghost use Rattle.nsp_control.specs.declared.packet.Control.{Control as ControlValue};
ghost use Rattle.std.specs.Result.{result_ok};
ghost use Rattle.nsp_control.specs.Reading.{control_in, ReadsControlAs, read_control_byte, read_control_word, read_zero, read_address, read_sizes, read_connect, read_confirm, read_reason, read_disconnect, read_disconnect_confirm, read_connect_ack, read_control};

use crate::packet::{
    CONFIRM, CONNECT, CONNECT_ACK, CONNECT_AGAIN, ClosedFields, ConfirmFields, ConnectFields,
    Control, ControlFault, DISCONNECT, DISCONNECT_CONFIRM, DisconnectFields,
};
use byteorder::{ByteOrder, LittleEndian};
use nsp_seg::Payload;

/// Returns the byte that the bytes begin with, which is at the offset `at` of the packet, and what follows it.
fn take_byte(bytes: &[u8], at: usize) -> Result<(u8, &[u8]), ControlFault>
    ensures { ReadsControlAs (λ x. (x.0, x.1.now)) result (read_control_byte at bytes.now) }
{
    match bytes {
        [] => Err(ControlFault::Truncated(at)),
        [first, rest @ ..] => Ok((*first, rest)),
    }
}

/// Returns the two-byte number that the bytes begin with, which is at the offset `at` of the packet, and what follows
/// it.
fn take_word(bytes: &[u8], at: usize) -> Result<(u16, &[u8]), ControlFault>
    ensures { ReadsControlAs (λ x. (x.0, x.1.now)) result (read_control_word at bytes.now) }
{
    if bytes.len() < 2 {
        return Err(ControlFault::Truncated(at));
    }
    let (front, rest) = bytes.split_at(2);
    Ok((LittleEndian::read_u16(front), rest))
}

/// Returns what follows an address that has to be 0.
#[tactic(auto, unfolding(crate::specs::Reading::read_zero))]
fn skip_zero(bytes: &[u8], at: usize) -> Result<(u16, &[u8]), ControlFault>
    ensures { ReadsControlAs (λ x. (x.0, x.1.now)) result (read_zero at bytes.now) }
{
    let (address, rest) = take_word(bytes, at)?;
    if address != 0 {
        return Err(ControlFault::BadAddress(at));
    }
    Ok((address, rest))
}

/// Returns an address that may not be 0, and what follows it.
#[tactic(auto, unfolding(crate::specs::Reading::read_address))]
fn take_address(bytes: &[u8], at: usize) -> Result<(u16, &[u8]), ControlFault>
    ensures { ReadsControlAs (λ x. (x.0, x.1.now)) result (read_address at bytes.now) }
{
    let (address, rest) = take_word(bytes, at)?;
    if address == 0 {
        return Err(ControlFault::BadAddress(at));
    }
    Ok((address, rest))
}

/// SERVICES, INFO and SEGSIZE, and what follows them.
type Sizes<'a> = (u8, u8, u16, &'a [u8]);

/// Returns them, from offset 5 on.
#[tactic(auto, unfolding(crate::specs::Reading::read_sizes))]
fn take_sizes(bytes: &[u8]) -> Result<Sizes<'_>, ControlFault>
    ensures { ReadsControlAs (λ x. (x.0, x.1, x.2, x.3.now)) result (read_sizes bytes.now) }
{
    let (services, rest) = take_byte(bytes, 5)?;
    let (info, rest) = take_byte(rest, 6)?;
    let (seg_size, rest) = take_word(rest, 7)?;
    Ok((services, info, seg_size, rest))
}

/// Reads a connect initiate, without its first byte.
#[tactic(auto, unfolding(crate::specs::Reading::read_connect))]
fn connect(again: bool, bytes: &[u8]) -> Result<Control<'_>, ControlFault>
    ensures { result ≡ read_connect again bytes.now }
{
    let (_zero, rest) = skip_zero(bytes, 1)?;
    let (src, rest) = take_address(rest, 3)?;
    let (services, info, seg_size, body) = match take_sizes(rest) {
        Ok(sizes) => sizes,
        Err(fault) => return Err(fault),
    };
    Ok(Control::Connect(ConnectFields {
        again,
        src,
        services,
        info,
        seg_size,
        body: Payload(body),
    }))
}

/// Reads a connect confirm, without its first byte.
#[tactic(auto, unfolding(crate::specs::Reading::read_confirm))]
fn confirm(bytes: &[u8]) -> Result<Control<'_>, ControlFault>
    ensures { result ≡ read_confirm bytes.now }
{
    let (dst, rest) = take_address(bytes, 1)?;
    let (src, rest) = take_address(rest, 3)?;
    let (services, info, seg_size, body) = match take_sizes(rest) {
        Ok(sizes) => sizes,
        Err(fault) => return Err(fault),
    };
    Ok(Control::Confirm(ConfirmFields {
        dst,
        src,
        services,
        info,
        seg_size,
        body: Payload(body),
    }))
}

/// Both addresses and the reason of a disconnect, and what follows them.
type Reason<'a> = (u16, u16, u16, &'a [u8]);

/// Returns them, from offset 1 on.
#[tactic(auto, unfolding(crate::specs::Reading::read_reason))]
fn take_reason(bytes: &[u8]) -> Result<Reason<'_>, ControlFault>
    ensures { ReadsControlAs (λ x. (x.0, x.1, x.2, x.3.now)) result (read_reason bytes.now) }
{
    let (dst, rest) = take_word(bytes, 1)?;
    let (src, rest) = take_word(rest, 3)?;
    let (reason, rest) = take_word(rest, 5)?;
    Ok((dst, src, reason, rest))
}

/// Reads a disconnect initiate, without its first byte.
#[tactic(auto, unfolding(crate::specs::Reading::read_disconnect))]
fn disconnect(bytes: &[u8]) -> Result<Control<'_>, ControlFault>
    ensures { result ≡ read_disconnect bytes.now }
{
    let (dst, src, reason, body) = match take_reason(bytes) {
        Ok(fields) => fields,
        Err(fault) => return Err(fault),
    };
    Ok(Control::Disconnect(DisconnectFields {
        dst,
        src,
        reason,
        body: Payload(body),
    }))
}

/// Reads a disconnect confirm, without its first byte.
#[tactic(auto, unfolding(crate::specs::Reading::read_disconnect_confirm))]
fn disconnect_confirm(bytes: &[u8]) -> Result<Control<'_>, ControlFault>
    ensures { result ≡ read_disconnect_confirm bytes.now }
{
    let (dst, src, reason, rest) = match take_reason(bytes) {
        Ok(fields) => fields,
        Err(fault) => return Err(fault),
    };
    match rest {
        [] => Ok(Control::DisconnectConfirm(ClosedFields { dst, src, reason })),
        _ => Err(ControlFault::Trailing(7)),
    }
}

/// Reads a connect acknowledgement, without its first byte.
#[tactic(auto, unfolding(crate::specs::Reading::read_connect_ack))]
fn connect_ack(bytes: &[u8]) -> Result<Control<'_>, ControlFault>
    ensures { result ≡ read_connect_ack bytes.now }
{
    let (dst, rest) = take_word(bytes, 1)?;
    match rest {
        [] => Ok(Control::ConnectAck(dst)),
        _ => Err(ControlFault::Trailing(3)),
    }
}

/// Reads the packet that the bytes spell, or their fault.
#[tactic(auto, unfolding(crate::specs::Reading::read_control))]
fn control(bytes: &[u8]) -> Result<Control<'_>, ControlFault>
    ensures { result ≡ read_control bytes.now }
{
    match bytes {
        [] => Err(ControlFault::Truncated(0)),
        [flag, rest @ ..] => match *flag {
            CONNECT => connect(false, rest),
            CONNECT_AGAIN => connect(true, rest),
            CONFIRM => confirm(rest),
            DISCONNECT => disconnect(rest),
            DISCONNECT_CONFIRM => disconnect_confirm(rest),
            CONNECT_ACK => connect_ack(rest),
            other => Err(ControlFault::NotHere(other)),
        },
    }
}

/// Returns the packet that the bytes, all of them, spell (NSP 4.0.0, control messages); its body is a part of them. It
/// takes no memory. Bytes that spell none have one fault, the first from the left, and that one is reported: no first
/// byte, or one that is that of no such packet; a field that is missing or not whole; an address that is 0 where it may
/// not be, or isn't where it has to be; and bytes after a disconnect confirm or a connect acknowledgement. An address is
/// looked at before the fields after it.
pub fn decode_control(bytes: &[u8]) -> Result<Control<'_>, ControlFault>
    // What is spelled is read, and what is read is spelled.
    ensures only { (p : ControlValue) → SpellsControl p bytes.now → result ≡ Ok p }
    ensures found { IfOk result (λ p. SpellsControl p bytes.now) }
    ensures read { result_ok result ≡ control_in bytes.now }
    // A fault of the bytes is reported, and what is reported is a fault of the bytes.
    ensures fault_found { (f : FaultValue) → HasControlFault f bytes.now → result ≡ Err f }
    ensures fault { IfErr result (λ f. HasControlFault f bytes.now) }
{
    control(bytes)
}
