//! The client and the server, each by itself.

use crate::bytes::*;
use crate::growing::{Growing, Trouble, at};
use crate::reading::{look_at_files, look_at_report};
use crate::requests::request;
use crate::text::Text;
use dap_accessed::Accessed;
use dap_accessing::{Accessing, AskFault, By, How, Request};
use std::alloc::Global;

/// The buffer of each end.
const BUFFER: u16 = 1024;

/// An end that is sent messages.
#[derive(Drop)]
pub struct Serving {
    end: Accessed,
    messages: &'static [&'static [u8]],
    answers: Text,
}

impl Serving {
    pub fn new(alloc: Global, messages: &'static [&'static [u8]]) -> Serving {
        Serving {
            end: Accessed::new(alloc, BUFFER),
            messages,
            answers: Text::new(alloc),
        }
    }
}

impl Growing for Serving {
    fn call(&mut self, index: usize) -> Result<(), Trouble> {
        let message = at(self.messages, index)?;
        self.answers.reserve()?;
        let served = self.end.serve(message, 0)?;
        self.answers.note_all("answer", &served.answers);
        Ok(())
    }

    fn look(&self, seen: &mut Text) {
        look_at_files(self.end.files(), seen);
        seen.put(self.answers.as_slice());
    }
}

/// What is asked, and what is heard.
#[derive(Clone, Copy)]
pub enum Line {
    Ask(&'static str),
    Hear(&'static [u8]),
}

/// A client.
#[derive(Drop)]
pub struct Asking {
    alloc: Global,
    end: Accessing,
    lines: &'static [Line],
    messages: Text,
    reports: Text,
}

impl Asking {
    pub fn new(alloc: Global, lines: &'static [Line]) -> Asking {
        Asking {
            alloc,
            end: Accessing::new(alloc, BUFFER),
            lines,
            messages: Text::new(alloc),
            reports: Text::new(alloc),
        }
    }
}

/// Returns what the end came to.
fn asked(asked: Result<Vec<Vec<u8>>, AskFault>) -> Result<Vec<Vec<u8>>, Trouble> {
    match asked {
        Ok(messages) => Ok(messages),
        Err(fault) => Err(Trouble::from(fault)),
    }
}

/// Asks a request, and returns its messages.
pub fn ask(alloc: Global, end: &mut Accessing, words: &str) -> Result<Vec<Vec<u8>>, Trouble> {
    let request = request(alloc, words)?;
    asked(end.ask(&request))
}

impl Asking {
    /// Asks a request, and notes its messages.
    fn ask(&mut self, words: &str) -> Result<(), Trouble> {
        self.messages.reserve()?;
        let messages = ask(self.alloc, &mut self.end, words)?;
        self.messages.note_all("message", &messages);
        Ok(())
    }

    /// Hears an answer, and notes its report where there is one.
    fn hear(&mut self, answer: &[u8]) -> Result<(), Trouble> {
        self.reports.reserve()?;
        if let Some(report) = &self.end.read(answer, 0)?.report {
            look_at_report(report, &mut self.reports);
        }
        Ok(())
    }
}

/// Requests of each phase: what an end says of them shows its phase.
const PROBES: [Request; 5] = [
    Request::Hello,
    Request::Connect,
    Request::Get(By::Next),
    Request::Continue(How::Again),
    Request::Close,
];

impl Growing for Asking {
    fn call(&mut self, index: usize) -> Result<(), Trouble> {
        match at(self.lines, index)? {
            Line::Ask(words) => self.ask(words),
            Line::Hear(answer) => self.hear(answer),
        }
    }

    fn look(&self, seen: &mut Text) {
        for probe in &PROBES {
            seen.show(&self.end.check(probe));
        }
        seen.put(self.messages.as_slice());
        seen.put(self.reports.as_slice());
    }
}

/// Records of a relative file: put, refused, found, changed and deleted.
pub const ASKED_RECORDS: &[Line] = &[
    Line::Ask("hello"),
    Line::Hear(CONFIG),
    Line::Ask("create 46 16 2 0 3 7"),
    Line::Hear(RELATIVE),
    Line::Hear(ACKNOWLEDGE),
    Line::Ask("connect"),
    Line::Hear(ACKNOWLEDGE),
    Line::Ask("put key 3 41"),
    Line::Hear(DONE_3),
    Line::Ask("put key 3 41"),
    Line::Hear(EXISTS),
    Line::Ask("put key 4 41"),
    Line::Hear(OUT_OF_RANGE),
    Line::Ask("get"),
    Line::Hear(FOUND_3),
    Line::Ask("delete"),
    Line::Hear(DONE_3),
    Line::Ask("delete"),
    Line::Hear(NO_CURRENT),
    Line::Ask("get"),
    Line::Hear(END_OF_FILE),
];

/// A Store whose second record is too long.
pub const ASKED_STORING: &[Line] = &[
    Line::Ask("hello"),
    Line::Hear(CONFIG),
    Line::Ask("create 46 0 2 5 0 7"),
    Line::Hear(FIVE),
    Line::Hear(ACKNOWLEDGE),
    Line::Ask("connect"),
    Line::Hear(ACKNOWLEDGE),
    Line::Ask("store 41 424242424242 43"),
    Line::Hear(BAD_LENGTH),
    Line::Hear(COMPLETED),
];

/// A file that is opened again: a record is updated, and a transfer stops and goes on.
pub const ASKED_TRANSFER: &[Line] = &[
    Line::Ask("hello"),
    Line::Hear(CONFIG),
    Line::Ask("open 46 10"),
    Line::Hear(RELATIVE),
    Line::Hear(ACKNOWLEDGE),
    Line::Ask("connect"),
    Line::Hear(ACKNOWLEDGE),
    Line::Ask("update 42"),
    Line::Hear(DONE_3),
    Line::Ask("rewind"),
    Line::Hear(REWOUND),
    Line::Ask("fetch"),
    Line::Hear(FOUND_3),
    Line::Hear(FOUND_3),
    Line::Hear(FOUND_3),
    Line::Hear(FOUND_3),
    Line::Hear(FOUND_3),
    Line::Hear(TOO_LARGE),
    Line::Ask("continue skip"),
    Line::Hear(FOUND_3),
    Line::Hear(END_OF_FILE),
    Line::Ask("close"),
    Line::Hear(COMPLETED),
];
