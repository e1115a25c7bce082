//! `dap_msg`: the messages of an NSP message are read, and a message is written.

use crate::trouble::{Lines, Trouble};
use dap_msg::{Message, decode, encode, fits};
use std::alloc::Global;

/// An NSP message with Attributes and an Access, which creates the file `F`.
const CREATE: &[u8] = &[2, 2, 3, 6, 16, 2, 3, 2, 8, 2, 0, 1, b'F', 15, 0, 0, 0];

/// An NSP message with a Control and a Data message, which put a record.
const PUT: &[u8] = &[4, 2, 3, 4, 1, 0, 8, 2, 4, 0, b'A', b'B', b'C'];

/// Returns bytes as text.
fn text(bytes: &[u8]) -> &str {
    std::str::from_utf8(bytes).unwrap_or("bytes that are no text")
}

/// Prints the name of a file, and a record.
fn show(message: &Message, out: &mut Lines) {
    match message {
        Message::Access { name, .. } => out.line(format_args!("messages: file {}", text(name))),
        Message::Filedata { payload, .. } => {
            out.line(format_args!("messages: record {}", text(payload)))
        }
        _ => out.line(format_args!("messages: another one")),
    }
}

/// Reads all messages of an NSP message.
fn read(nsp_message: &[u8], out: &mut Lines) -> Result<(), Trouble> {
    let mut rest = nsp_message;
    while !rest.is_empty() {
        let (message, length) = decode(rest)?;
        show(&message, out);
        rest = &rest[length..];
    }
    Ok(())
}

/// Writes a record, where it is one that a message can have.
fn write(alloc: Global, body: &[u8], out: &mut Lines) -> Result<(), Trouble> {
    let message = Message::Filedata {
        recnum: &[],
        payload: body,
    };
    let mut bytes = Vec::new(alloc);
    if fits(&message) {
        encode(&message, &mut bytes)?;
    }
    out.line(format_args!("messages: a record in {} bytes", bytes.len()));
    Ok(())
}

/// Reads the messages of two NSP messages, and writes one.
pub fn call(alloc: Global, out: &mut Lines) -> Result<(), Trouble> {
    read(CREATE, out)?;
    read(PUT, out)?;
    write(alloc, b"a record", out)
}
