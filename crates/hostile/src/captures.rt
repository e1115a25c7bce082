//! Capture files that were cut, or of which one byte was changed; and their lines where memory is refused.

use crate::altered::{Counts, Outcome, Taking, alter};
use crate::growing::{Growing, Trouble};
use crate::text::Text;
use decnet_frames::{Between, FramesFault, HexLines, list_frames};
use std::alloc::Global;
use std::io;
use std::io::Read;

/// A pcap file: an acknowledgement from node 1.1 to 1.2 after a short header, and one back after a tag, padding and a
/// long header.
const PCAP: &[u8] = &[
    0xd4, 0xc3, 0xb2, 0xa1, 2, 0, 4, 0, 0, 0, 0, 0, 0, 0, 0, 0, 0, 0, 4, 0, 1, 0, 0, 0, // header
    7, 0, 0, 0, 5, 0, 0, 0, 29, 0, 0, 0, 29, 0, 0, 0, // record
    0, 0, 0, 0, 0, 0, 0, 0, 0, 0, 0, 0, 0x60, 3, 13, 0, // frame
    2, 2, 4, 1, 4, 0, 4, 2, 1, 1, 3, 0xff, 0x8f, // short header, packet
    8, 0, 0, 0, 5, 0, 0, 0, 50, 0, 0, 0, 50, 0, 0, 0, // record
    0, 0, 0, 0, 0, 0, 0, 0, 0, 0, 0, 0, 0x81, 0, 0, 5, 0x60, 3, 30, 0, // frame
    0x82, 0, 0x26, 0, 0, 0xaa, 0, 4, 0, 1, 4, 0, 0, 0xaa, 0, 4, 0, 2, 4, 0, 0, 0, 0, // header
    4, 1, 1, 2, 2, 0xff, 0x8f, // packet
];

/// A pcapng file: a section, an interface with a resolution and an offset, a block of statistics, an enhanced packet
/// and a simple one.
const PCAPNG: &[u8] = &[
    0x0a, 0x0d, 0x0d, 0x0a, 28, 0, 0, 0, 0x4d, 0x3c, 0x2b, 0x1a, 1, 0, 0, 0, 0xff, 0xff, 0xff,
    0xff, 0xff, 0xff, 0xff, 0xff, 28, 0, 0, 0, // section
    1, 0, 0, 0, 40, 0, 0, 0, 1, 0, 0, 0, 0, 0, 4, 0, // interface
    9, 0, 1, 0, 9, 0, 0, 0, 14, 0, 8, 0, 1, 0, 0, 0, 0, 0, 0, 0, 40, 0, 0, 0, // options
    5, 0, 0, 0, 16, 0, 0, 0, 0, 0, 0, 0, 16, 0, 0, 0, // statistics
    6, 0, 0, 0, 64, 0, 0, 0, 0, 0, 0, 0, 0, 0, 0, 0, 7, 0, 0, 0, 29, 0, 0, 0, 29, 0, 0, 0, // packet
    0, 0, 0, 0, 0, 0, 0, 0, 0, 0, 0, 0, 0x60, 3, 13, 0, // frame
    2, 2, 4, 1, 4, 0, 4, 2, 1, 1, 3, 0xff, 0x8f, 0, 0, 0, 64, 0, 0, 0, // header, packet
    3, 0, 0, 0, 48, 0, 0, 0, 29, 0, 0, 0, // simple packet
    0, 0, 0, 0, 0, 0, 0, 0, 0, 0, 0, 0, 0x60, 3, 13, 0, // frame
    2, 1, 4, 2, 4, 0, 4, 1, 1, 2, 2, 0xff, 0x8f, 0, 0, 0, 48, 0, 0, 0, // header, packet
];

/// How many bytes of a file come at a time, the first time that it is read.
const STEP: usize = 7;

/// A reader that gives this many bytes at a time.
#[derive(Drop)]
struct Pieces<'a> {
    left: &'a [u8],
    step: usize,
}

impl Read for Pieces<'_> {
    fn read(&mut self, buffer: &mut [u8]) -> io::Result<usize> {
        let count = self.left.len().min(self.step).min(buffer.len());
        buffer[..count].copy_from_slice(&self.left[..count]);
        self.left = &self.left[count..];
        Ok(count)
    }
}

/// Lists a file that comes in pieces.
fn list(
    alloc: Global,
    bytes: &[u8],
    step: usize,
    written: &mut Vec<u8>,
) -> Result<Outcome, FramesFault> {
    written.clear();
    let mut reader = Pieces { left: bytes, step };
    match list_frames(alloc, Between::All, &mut HexLines, &mut reader, written) {
        Ok(_) => Ok(Outcome::Taken),
        Err(FramesFault::File(_, _)) => Ok(Outcome::Refused),
        Err(fault) => Err(fault),
    }
}

/// What is read of a capture file, twice.
#[derive(Drop)]
struct Files {
    alloc: Global,
    pieces: Vec<u8>,
    whole: Vec<u8>,
}

impl Taking for Files {
    fn take(&mut self, bytes: &[u8]) -> Result<Outcome, Trouble> {
        let first = list(self.alloc, bytes, STEP, &mut self.pieces);
        let second = list(self.alloc, bytes, bytes.len(), &mut self.whole);
        match (first, second) {
            (Ok(Outcome::Taken), Ok(Outcome::Taken)) if self.pieces == self.whole => {
                Ok(Outcome::Taken)
            }
            (Ok(Outcome::Refused), Ok(Outcome::Refused)) if self.pieces == self.whole => {
                Ok(Outcome::Refused)
            }
            _ => Err(Trouble::Wrong),
        }
    }
}

/// Alters both files.
pub fn alter_files(alloc: Global) -> Result<Counts, Trouble> {
    let mut counts = Counts::new();
    for file in [PCAP, PCAPNG] {
        let mut files = Files {
            alloc,
            pieces: Vec::new(alloc),
            whole: Vec::new(alloc),
        };
        alter(alloc, file, &mut files, &mut counts)?;
    }
    Ok(counts)
}

/// Both files as lines.
#[derive(Drop)]
pub struct Frames {
    alloc: Global,
    written: Vec<u8>,
}

impl Frames {
    pub fn new(alloc: Global) -> Frames {
        Frames {
            alloc,
            written: Vec::new(alloc),
        }
    }
}

impl Growing for Frames {
    fn call(&mut self, index: usize) -> Result<(), Trouble> {
        let file = match index {
            0 => PCAP,
            1 => PCAPNG,
            _ => return Err(Trouble::Over),
        };
        let mut written = Vec::new(self.alloc);
        match list(self.alloc, file, file.len(), &mut written) {
            Ok(Outcome::Taken) => {
                self.written = written;
                Ok(())
            }
            // A writer of a vector fails where memory is refused to it.
            Err(FramesFault::NoMemory | FramesFault::WriteFailed) => Err(Trouble::Wants),
            _ => Err(Trouble::Wrong),
        }
    }

    fn look(&self, seen: &mut Text) {
        seen.put(&self.written);
    }
}
