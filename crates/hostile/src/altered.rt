//! Packets and messages that were cut, or of which one byte was changed.

use crate::bytes::{MESSAGES, PACKETS, RECORDS, STORING};
use crate::ends::{ASKED_RECORDS, ASKED_STORING, Line, ask};
use crate::growing::Trouble;
use crate::text::Text;
use dap_accessed::Accessed;
use dap_accessing::{Accessing, ReadFault};
use dap_msg::decode;
use nsp_link::{Got, LinkEnd, LinkFault, LinkSetup};
use nsp_seg::decode_packet;
use std::alloc::Global;

/// The buffer of each end.
const BUFFER: u16 = 1024;

/// What takes bytes, whatever they are.
pub trait Taking {
    /// Takes the bytes, and returns what became of them.
    fn take(&mut self, bytes: &[u8]) -> Result<Outcome, Trouble>;
}

/// What became of the bytes.
#[derive(Clone, Copy)]
pub enum Outcome {
    /// They were taken.
    Taken,
    /// They were refused, and nothing has changed.
    Refused,
    /// They were refused, and the end has failed.
    Failed,
}

/// How many bytes became what.
#[derive(Clone, Copy)]
pub struct Counts {
    taken: u64,
    refused: u64,
    failed: u64,
}

impl Counts {
    pub fn new() -> Counts {
        Counts {
            taken: 0,
            refused: 0,
            failed: 0,
        }
    }

    /// Counts bytes that had this outcome.
    fn add(&mut self, outcome: Outcome) {
        let count = match outcome {
            Outcome::Taken => &mut self.taken,
            Outcome::Refused => &mut self.refused,
            Outcome::Failed => &mut self.failed,
        };
        *count = count.saturating_add(1);
    }

    /// Appends the counts, as a line.
    pub fn note(&self, name: &str, text: &mut Text) {
        text.put(name.as_bytes());
        text.put(b":");
        text.show(&self.taken);
        text.put(b" taken,");
        text.show(&self.refused);
        text.put(b" refused,");
        text.show(&self.failed);
        text.put(b" failed\n");
    }
}

/// Puts a byte at an index, if there is one.
fn put(bytes: &mut [u8], index: usize, value: u8) {
    if let Some(byte) = bytes.get_mut(index) {
        *byte = value;
    }
}

/// Gives each change of the byte at this index, and puts the right one back.
fn change<T: Taking>(
    bytes: &mut [u8],
    index: usize,
    right: u8,
    taking: &mut T,
    counts: &mut Counts,
) -> Result<(), Trouble> {
    for value in 0..=255 {
        if value != right {
            put(bytes, index, value);
            counts.add(taking.take(bytes)?);
        }
    }
    put(bytes, index, right);
    Ok(())
}

/// Gives each proper prefix of the bytes, and each change of one of them.
pub fn alter<T: Taking>(
    alloc: Global,
    bytes: &[u8],
    taking: &mut T,
    counts: &mut Counts,
) -> Result<(), Trouble> {
    for len in 0..bytes.len() {
        counts.add(taking.take(&bytes[..len])?);
    }
    let mut altered = Vec::from_slice(alloc, bytes)?;
    for (index, right) in bytes.iter().enumerate() {
        change(&mut altered, index, *right, taking, counts)?;
    }
    Ok(())
}

/// Returns that the bytes were taken, or that they were refused.
fn whether_taken(is_whole: bool) -> Outcome {
    if is_whole {
        Outcome::Taken
    } else {
        Outcome::Refused
    }
}

/// Reads a message, or a packet.
#[derive(Drop)]
struct Decoding {
    is_packet: bool,
}

impl Taking for Decoding {
    fn take(&mut self, bytes: &[u8]) -> Result<Outcome, Trouble> {
        Ok(whether_taken(if self.is_packet {
            decode_packet(bytes).is_ok()
        } else {
            decode(bytes).is_ok()
        }))
    }
}

/// Alters each of the list.
fn alter_each<T: Taking>(
    alloc: Global,
    list: &[&[u8]],
    taking: &mut T,
    counts: &mut Counts,
) -> Result<(), Trouble> {
    for bytes in list {
        alter(alloc, bytes, taking, counts)?;
    }
    Ok(())
}

/// Alters all messages, or all packets.
pub fn alter_all(alloc: Global, is_packet: bool) -> Result<Counts, Trouble> {
    let mut counts = Counts::new();
    let list = if is_packet { PACKETS } else { MESSAGES };
    alter_each(alloc, list, &mut Decoding { is_packet }, &mut counts)?;
    Ok(counts)
}

/// An end that was sent messages, and is sent one more.
#[derive(Drop)]
struct Served {
    alloc: Global,
    before: &'static [&'static [u8]],
}

/// Sends an end messages, and one more.
fn serve_more(end: &mut Accessed, before: &[&[u8]], bytes: &[u8]) -> Result<Outcome, Trouble> {
    for message in before {
        end.serve(message, 0)?;
    }
    end.serve(bytes, 0)?;
    Ok(whether_taken(decode(bytes).is_ok()))
}

impl Taking for Served {
    fn take(&mut self, bytes: &[u8]) -> Result<Outcome, Trouble> {
        let mut end = Accessed::new(self.alloc, BUFFER);
        serve_more(&mut end, self.before, bytes)
    }
}

/// Alters each message that an end is sent, after those before it.
pub fn alter_served(alloc: Global) -> Result<Counts, Trouble> {
    let mut counts = Counts::new();
    for session in [RECORDS, STORING] {
        for (index, message) in session.iter().enumerate() {
            let before = &session[..index];
            alter(alloc, message, &mut Served { alloc, before }, &mut counts)?;
        }
    }
    Ok(counts)
}

/// An end that asked and heard, and hears one more answer.
#[derive(Drop)]
struct Heard {
    alloc: Global,
    before: &'static [Line],
}

/// Lets the end ask or hear what a line says.
fn follow(alloc: Global, end: &mut Accessing, line: Line) -> Result<(), Trouble> {
    match line {
        Line::Ask(words) => {
            ask(alloc, end, words)?;
        }
        Line::Hear(answer) => {
            end.read(answer, 0)?;
        }
    }
    Ok(())
}

/// Lets the end hear one more answer.
fn hear(end: &mut Accessing, answer: &[u8]) -> Result<Outcome, Trouble> {
    match end.read(answer, 0) {
        Ok(_) => Ok(Outcome::Taken),
        Err(ReadFault::Unexpected) => Ok(Outcome::Failed),
        Err(_) => Err(Trouble::Wrong),
    }
}

/// Lets the end ask and hear what the lines say, and hear one more answer.
fn hear_more(
    alloc: Global,
    end: &mut Accessing,
    lines: &[Line],
    answer: &[u8],
) -> Result<Outcome, Trouble> {
    for line in lines {
        follow(alloc, end, *line)?;
    }
    hear(end, answer)
}

impl Taking for Heard {
    fn take(&mut self, bytes: &[u8]) -> Result<Outcome, Trouble> {
        let mut end = Accessing::new(self.alloc, BUFFER);
        hear_more(self.alloc, &mut end, self.before, bytes)
    }
}

/// Alters each answer that an end hears, after those before it.
pub fn alter_heard(alloc: Global) -> Result<Counts, Trouble> {
    let mut counts = Counts::new();
    for session in [ASKED_RECORDS, ASKED_STORING] {
        for (index, line) in session.iter().enumerate() {
            let before = &session[..index];
            if let Line::Hear(answer) = line {
                alter(alloc, answer, &mut Heard { alloc, before }, &mut counts)?;
            }
        }
    }
    Ok(counts)
}

/// The end to which the packets go.
const SETUP: LinkSetup = LinkSetup {
    local: 0x0102,
    remote: 0x0304,
    seg_size: 4,
    window: 8,
    max_message: 64,
};

/// The first segment of a message, of two bytes or of 62, and a later segment.
const BEGINS: &[u8] = &[0x20, 2, 1, 4, 3, 0, 0x80, 1, 0, 0x41, 0x42];

const BEGINS_LONG: &[u8] = &[
    0x20, 2, 1, 4, 3, 0, 0x80, 1, 0, 0, 0, 0, 0, 0, 0, 0, 0, 0, 0, 0, 0, 0, 0, 0, 0, 0, 0, 0, 0, 0,
    0, 0, 0, 0, 0, 0, 0, 0, 0, 0, 0, 0, 0, 0, 0, 0, 0, 0, 0, 0, 0, 0, 0, 0, 0, 0, 0, 0, 0, 0, 0, 0,
    0, 0, 0, 0, 0, 0, 0, 0, 0,
];

const EARLY: &[u8] = &[0, 2, 1, 4, 3, 0, 0x80, 3, 0, 0x43];

/// What came to the end before: early segments are held, and there a message is begun.
const BEFORE: &[&[&[u8]]] = &[&[EARLY], &[BEGINS, EARLY], &[BEGINS_LONG, EARLY]];

/// What may become of a packet.
const WORDS: &[&str] = &[
    "accepted",
    "repeats",
    "early",
    "acknowledgements",
    "malformed",
    "of another link",
    "out of sequence",
    "too long",
    "refused otherwise",
];

/// Returns the index of the word for what became of a packet.
fn word_of(received: Result<Got, LinkFault>) -> usize {
    match received {
        Ok(Got::Accepted) => 0,
        Ok(Got::Repeat) => 1,
        Ok(Got::Early) => 2,
        Ok(Got::AckOnly) => 3,
        Err(LinkFault::Malformed(_)) => 4,
        Err(LinkFault::WrongLink) => 5,
        Err(LinkFault::BadSequence) => 6,
        Err(LinkFault::MessageTooLong) => 7,
        Err(_) => 8,
    }
}

/// An end that has sent, that got packets, and gets one more.
#[derive(Drop)]
struct Received {
    alloc: Global,
    before: &'static [&'static [u8]],
    counts: [u64; 9],
}

/// Lets the end send, and receive the packets.
fn prepare(end: &mut LinkEnd, before: &[&[u8]]) -> Result<(), LinkFault> {
    end.send(b"eight segments, of four bytes..")?;
    for _ in 0..SETUP.window {
        end.next_packet()?;
    }
    for packet in before {
        end.receive(packet)?;
    }
    Ok(())
}

/// Returns what became of a packet that was received so; an end that failed refuses all.
fn outcome_of(
    received: Result<Got, LinkFault>,
    end: &mut LinkEnd,
    bytes: &[u8],
) -> Result<Outcome, Trouble> {
    match received {
        Ok(_) => Ok(Outcome::Taken),
        Err(LinkFault::Malformed(_) | LinkFault::WrongLink) => Ok(Outcome::Refused),
        Err(LinkFault::BadSequence | LinkFault::MessageTooLong)
            if end.receive(bytes) == Err(LinkFault::Failed) => { Ok(Outcome::Failed) }
        Err(_) => Err(Trouble::Wrong),
    }
}

/// Lets the end send, and receive packets and one more, which is counted.
fn receive_more(
    end: &mut LinkEnd,
    before: &[&[u8]],
    bytes: &[u8],
    counts: &mut [u64],
) -> Result<Outcome, Trouble> {
    prepare(end, before)?;
    let received = end.receive(bytes);
    if let Some(count) = counts.get_mut(word_of(received)) {
        *count = count.saturating_add(1);
    }
    outcome_of(received, end, bytes)
}

impl Taking for Received {
    fn take(&mut self, bytes: &[u8]) -> Result<Outcome, Trouble> {
        let mut end = LinkEnd::new(self.alloc, SETUP)?;
        receive_more(&mut end, self.before, bytes, &mut self.counts)
    }
}

/// Prints how many packets became what, as a line.
fn note_words(counts: &[u64], text: &mut Text) {
    for (word, count) in WORDS.iter().zip(counts) {
        text.note(word, *count);
    }
    text.put(b"\n");
}

/// Alters each packet that comes to an end which has sent and got packets, and prints what became of them.
pub fn alter_received(alloc: Global, text: &mut Text) -> Result<Counts, Trouble> {
    let mut counts = Counts::new();
    for before in BEFORE {
        let mut received = Received {
            alloc,
            before: *before,
            counts: [0; 9],
        };
        alter_each(alloc, PACKETS, &mut received, &mut counts)?;
        note_words(&received.counts, text);
    }
    Ok(counts)
}
