//! The writers of fields, messages and packets.

use crate::bytes::{MESSAGES, PACKETS};
use crate::growing::{Growing, Trouble, at};
use crate::text::Text;
use dap_fields::{FieldFault, write_ex, write_image, write_u8, write_u16};
use dap_msg::{append_blocked, decode, encode, fits};
use nsp_seg::{decode_packet, encode_packet};
use std::alloc::{AllocError, Global};

/// What precedes all that is written.
const FRONT: &[u8] = b"front";

/// The texts that were written.
#[derive(Drop)]
pub struct Writers {
    alloc: Global,
    written: Vec<Vec<u8>>,
    blocked: Vec<Vec<u8>>,
}

impl Writers {
    pub fn new(alloc: Global) -> Result<Writers, AllocError> {
        Ok(Writers {
            alloc,
            written: Vec::with_capacity(alloc, 64)?,
            blocked: Vec::new(alloc),
        })
    }
}

/// The image that is written: longer than any room that is left.
const IMAGE: [u8; 255] = [0x55; 255];

/// Writes the field at this index.
fn write_field(index: usize, out: &mut Vec<u8>) -> Result<(), FieldFault> {
    match index {
        0 => write_u8(7, out),
        1 => write_u16(1024, out),
        2 => write_ex(550, out),
        _ => write_image(&IMAGE, out),
    }
}

/// Writes the message that the bytes spell.
fn write_message(bytes: &[u8], out: &mut Vec<u8>) -> Result<(), Trouble> {
    match decode(bytes) {
        Ok((message, _len)) if fits(&message) => Ok(encode(&message, out)?),
        _ => Err(Trouble::Wrong),
    }
}

/// Writes the packet that the bytes spell.
fn write_packet(bytes: &[u8], out: &mut Vec<u8>) -> Result<(), Trouble> {
    match decode_packet(bytes) {
        Ok(packet) => Ok(encode_packet(&packet, out)?),
        Err(_) => Err(Trouble::Wrong),
    }
}

/// The fields that are written.
const FIELDS: usize = 4;

/// Writes what is at this index, where there is something.
fn write(index: usize, out: &mut Vec<u8>) -> Result<(), Trouble> {
    if index < FIELDS {
        return Ok(write_field(index, out)?);
    }
    let index = index - FIELDS;
    match MESSAGES.get(index) {
        Some(bytes) => write_message(bytes, out),
        None => write_packet(at(PACKETS, index - MESSAGES.len())?, out),
    }
}

/// Writes what is at this index after the prefix, which stays where it is refused.
fn write_after(index: usize, out: &mut Vec<u8>) -> Result<(), Trouble> {
    let written = write(index, out);
    if written.is_err() && out.as_slice() != FRONT {
        return Err(Trouble::Wrong);
    }
    written
}

impl Growing for Writers {
    fn call(&mut self, index: usize) -> Result<(), Trouble> {
        let mut out = Vec::from_slice(self.alloc, FRONT)?;
        write_after(index, &mut out)?;
        append_blocked(self.alloc, &mut self.blocked, &out, 64)?;
        self.written.push(out)?;
        Ok(())
    }

    fn look(&self, seen: &mut Text) {
        seen.note_all("written", &self.written);
        seen.note_all("blocked", &self.blocked);
    }
}
