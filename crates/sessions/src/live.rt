//! The suite `live`: the program `daplive`, its words and its lines.

use crate::call::Call;
use crate::out::Out;
use crate::playing::Suite;
use live_cli::run_words;
use std::alloc::Global;

/// What the program answers to all lines.
#[derive(Drop)]
struct Answered {
    status: u8,
    written: Vec<u8>,
    told: Vec<u8>,
}

/// The words of the program, its input so far, and how much of what it answers was compared.
#[derive(Drop)]
pub struct Live {
    words: Vec<String>,
    input: Vec<u8>,
    seen: usize,
}

impl Live {
    /// Creates a program without words.
    pub fn new(alloc: Global) -> Live {
        let (words, input) = (Vec::new(alloc), Vec::new(alloc));
        Live {
            words,
            input,
            seen: 0,
        }
    }

    /// Runs the program over all of its input so far.
    fn run(&self, alloc: Global) -> Answered {
        let mut reader = self.input.as_slice();
        let (mut written, mut told) = (Vec::new(alloc), Vec::new(alloc));
        let status = run_words(alloc, &self.words, &mut reader, &mut written, &mut told);
        Answered {
            status,
            written,
            told,
        }
    }

    /// Appends what the program answers more than before.
    fn answer(&mut self, call: &mut Call, out: &mut Out) {
        let written = self.run(call.alloc()).written;
        match written.get(self.seen..) {
            Some(more) => out.written(more),
            None => call.refuse(),
        }
        self.seen = written.len();
    }
}

impl Suite for Live {
    fn begin(&mut self) {
        self.words.clear();
        self.input.clear();
        self.seen = 0;
    }

    fn call(&mut self, call: &mut Call, out: &mut Out) {
        if call.is("daplive") {
            self.words = call.all_words();
            return out.put("begun");
        }
        if call.is("end") {
            let answered = self.run(call.alloc());
            return out.ended(answered.status, &answered.told);
        }
        let given = if call.is("line") {
            call.line()
        } else if call.is("bytes") {
            call.bytes()
        } else {
            return call.refuse();
        };
        match self.input.extend_from_slice(&given) {
            Ok(()) => self.answer(call, out),
            Err(_) => call.refuse(),
        }
    }
}
