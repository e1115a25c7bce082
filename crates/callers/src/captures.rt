//! A capture file of two frames is read, its packets are written as lines of a capture, and these are read.

ghost use Rattle.std.specs.Prelude.{◌<◌, length, IfOk, OnOk};
ghost use Rattle.capture_file.specs.Reading.{IsReady};

use crate::trouble::{Lines, Trouble};
use capture_file::Reading;
use decnet_frames::{
    Between, Counts, Ends, Found, HexLines, Nothing, Takes, list_frames, list_lines, origin_of,
    push_nodes, push_pair, read_frame, read_node,
};
use std::alloc::{AllocError, Global};

/// A pcap file: its header, a record with an acknowledgement from node 1.1 to 1.2, and one with a frame that isn't
/// DECnet's.
const FILE: &[u8] = &[
    0xd4, 0xc3, 0xb2, 0xa1, 2, 0, 4, 0, 0, 0, 0, 0, 0, 0, 0, 0, 0, 0, 4, 0, 1, 0, 0, 0, // header
    7, 0, 0, 0, 5, 0, 0, 0, 29, 0, 0, 0, 29, 0, 0, 0, // record: 7.000005, 29 bytes
    0, 0, 0, 0, 0, 0, 0, 0, 0, 0, 0, 0, 0x60, 3, 13, 0, // frame
    2, 2, 4, 1, 4, 0, // short header
    4, 2, 1, 1, 3, 0xff, 0x8f, // NSP packet
    8, 0, 0, 0, 0, 0, 0, 0, 14, 0, 0, 0, 14, 0, 0, 0, // record
    0, 0, 0, 0, 0, 0, 0, 0, 0, 0, 0, 0, 8, 0, // frame
];

/// Prints counts.
fn show(counts: Counts, out: &mut Lines) {
    let Counts { taken, passed } = counts;
    out.line(format_args!("captures: {taken} taken, {passed} passed over"));
}

/// Prints what a frame has.
fn look(frame: &[u8], out: &mut Lines) {
    if let Ok(carried) = read_frame(frame) {
        let (source, destination) = (carried.source, carried.destination);
        out.line(format_args!("captures: from {source} to {destination}"));
    }
}

/// Takes what is next of the file, and gives back what is after it.
fn take_next<'a>(
    reading: &mut Reading,
    rest: &'a [u8],
    out: &mut Lines,
) -> Result<&'a [u8], Trouble>
    requires { IsReady reading.old }
    ensures ready { OnOk result (IsReady reading.new) }
    ensures less { IfOk result
        (λ after. 0 < length rest.now → length after.now < length rest.now) }
{
    let step = match reading.take(rest) {
        Ok(step) => step,
        Err(_) => return Err(Trouble("a capture file")),
    };
    if let Some(given) = step.given {
        look(reading.frame(given), out);
    }
    let (_, after) = rest.split_at(step.taken);
    Ok(after)
}

/// Reads the file, unit by unit.
fn read(alloc: Global, out: &mut Lines) -> Result<(), Trouble> {
    let mut reading = Reading::new(alloc);
    let mut rest = FILE;
    while !rest.is_empty() {
        rest = take_next(&mut reading, rest, out)?;
    }
    let at = reading.offset();
    match reading.finish() {
        Ok(()) => out.line(format_args!("captures: {at} bytes")),
        Err(_) => return Err(Trouble("a capture file")),
    }
    Ok(())
}

/// Returns both ends, by their addresses.
fn between() -> Between {
    match (read_node(b"1.2"), read_node(b"1.1")) {
        (Some(first), Some(other)) => Between::Two(Ends { first, other }),
        _ => Between::All,
    }
}

/// A taker of this crate's own: it writes the nodes of each packet.
#[derive(Clone, Copy)]
struct Pairs;

impl Takes for Pairs {
    ghost use Rattle.std.specs.Prelude.{⊤};

    ghost taken = { λ _ _ _ _. ⊤ };

    fn take(&mut self, text: &mut Vec<u8>, found: &Found<'_>) -> Result<(), AllocError> {
        push_nodes(text, found.nodes)
    }
}

/// Lists the file with a taker.
fn list<T: Takes>(
    alloc: Global,
    taker: &mut T,
    written: &mut Vec<u8>,
    out: &mut Lines,
) -> Result<(), Trouble> {
    let mut reader = FILE;
    match list_frames(alloc, between(), taker, &mut reader, written) {
        Ok(counts) => {
            show(counts, out);
            Ok(())
        }
        Err(_) => Err(Trouble("a capture file")),
    }
}

/// Lists lines, and writes nothing of them.
fn check(alloc: Global, lines: &[u8], out: &mut Lines) -> Result<(), Trouble> {
    let mut reader = lines;
    let mut written = Vec::new(alloc);
    let mut told = Vec::new(alloc);
    match list_lines(
        alloc,
        Between::All,
        &mut Nothing,
        &mut reader,
        &mut written,
        &mut told,
    ) {
        Ok((bad, counts)) => {
            out.line(format_args!("captures: bad lines: {bad}"));
            show(counts, out);
            Ok(())
        }
        Err(_) => Err(Trouble("lines")),
    }
}

/// Prints what a comment says.
fn tell(alloc: Global, line: &[u8], out: &mut Lines) -> Result<(), Trouble> {
    let Some(origin) = origin_of(line) else {
        return Err(Trouble("a comment"));
    };
    let mut pair = Vec::new(alloc);
    push_pair(&mut pair, origin.nodes)?;
    let (frame, pair) = (origin.frame.len(), pair.len());
    out.line(format_args!("captures: {frame} bytes of a frame, {pair} of a pair"));
    Ok(())
}

/// Reads a capture file, frame by frame, and then as a whole, and the lines that are made of it.
pub fn call(alloc: Global, out: &mut Lines) -> Result<(), Trouble> {
    read(alloc, out)?;
    let mut pairs = Vec::new(alloc);
    list(alloc, &mut Pairs, &mut pairs, out)?;
    let mut lines = Vec::new(alloc);
    list(alloc, &mut HexLines, &mut lines, out)?;
    out.line(format_args!(
        "captures: {} bytes of pairs, {} of lines",
        pairs.len(),
        lines.len()
    ));
    check(alloc, &lines, out)?;
    tell(alloc, b"# frame 1 7.000005 1.1 -> 1.2", out)
}
