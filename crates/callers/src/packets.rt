//! `nsp_control`, `nsp_session`: a connect initiate and its connect data are read, and written again.

use crate::trouble::{Lines, Trouble};
use nsp_control::{ConnectFields, Control, decode_control, encode_control};
use nsp_seg::Payload;
use nsp_session::{EndName, Session, decode_session, encode_session};
use std::alloc::Global;

/// A connect initiate to object 17, from the name `DAPLIVE`.
const CONNECT: &[u8] = &[
    0x18, 0, 0, 1, 1, 1, 2, 0, 2, 0, 17, 1, 0, 7, b'D', b'A', b'P', b'L', b'I', b'V', b'E', 0,
];

/// A disconnect initiate.
const DISCONNECT: &[u8] = &[0x38, 2, 2, 1, 1, 0, 0, 0];

/// Prints whom connect data ask.
fn show(session: &Session<'_>, out: &mut Lines) {
    match &session.dst {
        EndName::Number(object) => out.line(format_args!("packets: to object {object}")),
        EndName::Named(end) => out.line(format_args!("packets: to {} bytes", end.name.0.len())),
        EndName::Grouped(end) => out.line(format_args!("packets: to group {}", end.group)),
    }
}

/// Reads the connect data of a connect initiate, and sends the same again from another address.
fn again(
    alloc: Global,
    packet: &ConnectFields<'_>,
    src: u16,
    out: &mut Lines,
) -> Result<(), Trouble> {
    let session = decode_session(packet.body.0)?;
    show(&session, out);
    let mut body = Vec::new(alloc);
    encode_session(&session, &mut body)?;
    let mut bytes = Vec::new(alloc);
    if src != 0 {
        let repeat = Control::Connect(ConnectFields {
            again: true,
            src,
            services: packet.services,
            info: packet.info,
            seg_size: packet.seg_size,
            body: Payload(&body),
        });
        encode_control(&repeat, &mut bytes)?;
    }
    out.line(format_args!("packets: again in {} bytes", bytes.len()));
    Ok(())
}

/// Reads a packet, and writes it again.
fn both_ways(alloc: Global, bytes: &[u8], out: &mut Lines) -> Result<(), Trouble> {
    let packet = decode_control(bytes)?;
    let mut copy = Vec::new(alloc);
    encode_control(&packet, &mut copy)?;
    out.line(format_args!("packets: {} bytes", copy.len()));
    match packet {
        Control::Connect(connect) => again(alloc, &connect, 0x0102, out),
        _ => Ok(()),
    }
}

/// Reads two packets, and writes them again.
pub fn call(alloc: Global, out: &mut Lines) -> Result<(), Trouble> {
    both_ways(alloc, CONNECT, out)?;
    both_ways(alloc, DISCONNECT, out)
}
