//! What readers answer, as a text.

use std::alloc::{AllocError, Global};
use std::fmt::Debug;
use std::io;
use std::io::Write;

/// The maximum number of bytes that readers answer.
const MOST: usize = 65_536;

/// A text that grows, and whether a part of it is missing since memory ran out.
#[derive(Drop)]
pub struct Text {
    bytes: Vec<u8>,
    is_short: bool,
}

impl Text {
    pub fn new(alloc: Global) -> Text {
        Text {
            bytes: Vec::new(alloc),
            is_short: false,
        }
    }

    /// Makes room for all that readers answer.
    pub fn reserve(&mut self) -> Result<(), AllocError> {
        Ok(self.bytes.reserve(MOST.saturating_sub(self.bytes.len()))?)
    }

    pub fn clear(&mut self) {
        self.bytes.clear();
        self.is_short = false;
    }

    pub fn as_slice(&self) -> &[u8] {
        &self.bytes
    }

    /// Returns whether no part is missing.
    pub fn is_whole(&self) -> bool {
        !self.is_short
    }

    /// Keeps whether a part that was written is there.
    fn keep(&mut self, written: io::Result<()>) {
        if written.is_err() {
            self.is_short = true;
        }
    }

    pub fn put(&mut self, bytes: &[u8]) {
        let written = self.bytes.write_all(bytes);
        self.keep(written);
    }

    /// Appends the Debug text of a value.
    fn value<T: Debug>(&mut self, value: &T) {
        let written = write!(self.bytes, "{value:?}");
        self.keep(written);
    }

    /// Appends a value after a space.
    pub fn show<T: Debug>(&mut self, value: &T) {
        self.put(b" ");
        self.value(value);
    }

    /// Appends a number after its word.
    pub fn note(&mut self, word: &str, number: u64) {
        self.put(b" ");
        self.put(word.as_bytes());
        self.put(b"=");
        self.value(&number);
    }

    /// Appends bytes in hex after their word.
    pub fn note_bytes(&mut self, word: &str, bytes: &[u8]) {
        self.put(b"\n  ");
        self.put(word.as_bytes());
        self.put(b" ");
        for byte in bytes {
            self.put(&[digit(byte >> 4), digit(byte & 15)]);
        }
    }

    /// Appends each of the list in hex after the word.
    pub fn note_all(&mut self, word: &str, list: &[Vec<u8>]) {
        for bytes in list {
            self.note_bytes(word, bytes);
        }
    }

    /// Writes the text.
    pub fn write<W: Write>(&self, out: &mut W) -> io::Result<()> {
        out.write_all(&self.bytes)
    }
}

/// Returns the digit of a number below 16.
fn digit(number: u8) -> u8 {
    match number {
        0..=9 => b'0' + number,
        _ => b'a'.wrapping_add(number.wrapping_sub(10)),
    }
}
