//! What a call comes to, as text.

use dap_accessed::FileTable;
use dap_accessing::{Octets, Report};
use dap_text::{got_word, push_files, push_report};
use itoa::Integer;
use nsp_link::Got;
use std::alloc::{AllocError, Global};
use std::fmt::Display;
use std::io::Write;
use texts::{push_decimal, push_image, push_number, push_str};

/// The text of what a call comes to, and whether memory ran out for some of it.
#[derive(Drop)]
pub struct Out {
    text: Vec<u8>,
    is_short: bool,
}

impl Out {
    /// Creates an empty text.
    pub fn new(alloc: Global) -> Out {
        Out {
            text: Vec::new(alloc),
            is_short: false,
        }
    }

    /// Returns the whole text, if memory sufficed.
    pub fn whole(self) -> Option<Vec<u8>> {
        if self.is_short { None } else { Some(self.text) }
    }

    /// Keeps whether something was appended.
    fn keep(&mut self, appended: Result<(), AllocError>) {
        if appended.is_err() {
            self.is_short = true;
        }
    }

    /// Appends words.
    pub fn put(&mut self, words: &str) {
        let appended = push_str(&mut self.text, words);
        self.keep(appended);
    }

    /// Appends a number after a word.
    pub fn number<I: Integer>(&mut self, word: &str, number: I) {
        let appended = push_number(&mut self.text, word, number);
        self.keep(appended);
    }

    /// Appends bytes.
    pub fn bytes(&mut self, bytes: &[u8]) {
        let appended = push_image(&mut self.text, "", bytes);
        self.keep(appended);
    }

    /// Appends that there is nothing.
    pub fn none(&mut self) {
        self.put("none");
    }

    /// Appends bytes, or that there are none.
    pub fn some_bytes(&mut self, bytes: Option<&[u8]>) {
        match bytes {
            Some(bytes) => self.bytes(bytes),
            None => self.none(),
        }
    }

    /// Appends a report.
    pub fn report(&mut self, report: &Report) {
        let appended = push_report(&mut self.text, report);
        self.keep(appended);
    }

    /// Appends records, each after its number.
    pub fn records(&mut self, records: &[(u64, Octets)]) {
        for record in records {
            self.number(" ", record.0);
            self.put(":");
            self.bytes(&record.1.0);
        }
    }

    /// Appends a refusal.
    pub fn fault<E: Display>(&mut self, fault: &E) {
        if write!(self.text, "refused: {fault}").is_err() {
            self.is_short = true;
        }
    }

    /// Appends that a call is done, or its refusal.
    pub fn done<E: Display + Drop>(&mut self, outcome: Result<(), E>) {
        match outcome {
            Ok(()) => self.put("done"),
            Err(fault) => self.fault(&fault),
        }
    }

    /// Appends a number, or a refusal.
    pub fn number_or<I: Integer, E: Display + Drop>(&mut self, came: Result<I, E>) {
        match came {
            Ok(number) => {
                let appended = push_decimal(&mut self.text, number);
                self.keep(appended);
            }
            Err(fault) => self.fault(&fault),
        }
    }

    /// Appends what became of a packet, or a refusal.
    pub fn got<E: Display + Drop>(&mut self, came: Result<Got, E>) {
        match came {
            Ok(got) => self.put(got_word(got)),
            Err(fault) => self.fault(&fault),
        }
    }

    /// Appends a packet, or a refusal.
    pub fn packet<E: Display + Drop>(&mut self, came: Result<Vec<u8>, E>) {
        match came {
            Ok(packet) => self.bytes(&packet),
            Err(fault) => self.fault(&fault),
        }
    }

    /// Appends the next packet, or that there is none, or a refusal.
    pub fn next_packet<E: Display + Drop>(&mut self, came: Result<Option<Vec<u8>>, E>) {
        match came {
            Ok(Some(packet)) => self.bytes(&packet),
            Ok(None) => self.none(),
            Err(fault) => self.fault(&fault),
        }
    }

    /// Appends packets or messages, or that there are none.
    pub fn all(&mut self, all: &[Vec<u8>]) {
        for (at, bytes) in all.iter().enumerate() {
            if at > 0 {
                self.put(" ");
            }
            self.bytes(bytes);
        }
        if all.is_empty() {
            self.none();
        }
    }

    /// Appends the offset at which the next message begins, if there is one.
    pub fn next_offset(&mut self, next: usize, len: usize) {
        if next != len {
            self.number(" next ", next);
        }
    }

    /// Appends all files, in one line.
    pub fn table(&mut self, files: &FileTable) {
        if files.count() == 0 {
            return self.none();
        }
        let appended = push_files(&mut self.text, files);
        self.keep(appended);
        for byte in self.text.iter_mut() {
            if *byte == b'\n' {
                *byte = b';';
            }
        }
    }

    /// Appends lines with a bar between two of them, without the last line feed.
    pub fn lines(&mut self, text: &[u8]) {
        for byte in text.strip_suffix(b"\n".as_slice()).unwrap_or(text) {
            if *byte == b'\n' {
                self.put(" | ");
            } else {
                let appended = self.text.push(*byte).map_err(AllocError::from);
                self.keep(appended);
            }
        }
    }

    /// Appends the lines that a program writes, if it writes any.
    pub fn written(&mut self, text: &[u8]) {
        if text.is_empty() {
            return self.put("nothing");
        }
        self.lines(text);
    }

    /// Appends how a program ended: its exit status, and what it told.
    pub fn ended(&mut self, status: u8, told: &[u8]) {
        self.number("", status);
        if !told.is_empty() {
            self.put(" | ");
        }
        self.lines(told);
    }

    /// Appends yes or no.
    pub fn yes(&mut self, is_so: bool) {
        self.put(if is_so { "yes" } else { "no" });
    }
}
