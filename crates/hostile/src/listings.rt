//! Listings and schedules, as calls of the library and as words of the program.

use crate::growing::{Growing, Trouble, at};
use crate::text::Text;
use dap_capture::schedule;
use dap_cli::run_words;
use dap_listing::{messages, show};
use linewise::{CaptureFault, Outcome};
use std::alloc::{AllocError, Global};
use std::io::{Read, Write};

/// What is run over an input.
#[derive(Clone, Copy)]
pub enum Engine {
    Show,
    Msg,
    Run,
    /// The program, with this word after its name.
    Word(&'static str),
}

/// How a run ended.
#[derive(Clone, Copy, PartialEq, Eq)]
pub enum End {
    Good,
    Stopped,
    /// The word is a mistake.
    Mistake,
    Fault(CaptureFault),
}

/// What is run, its input, how it ends, and what it writes. What has no input here reads none.
pub type Row = (Engine, &'static [u8], End, &'static [u8]);

const CAPTURE: &[u8] = b"> 600201040305800100060200\n< 0402010403ff8f\n> 1002010403\n";

const LISTING: &[u8] =
    b"1 > segment only dst=0102 src=0304 seg=1 acks=0:5 len=3\n  ack\n2 < ack dst=0102 src=0304 acks=0:4095\n3 > not-here link-service\n";

const MESSAGES: &[u8] = b"> 040203010100060200";

const MESSAGES_LISTING: &[u8] = b"1 > message len=9\n  control func=1 rac=0\n  ack\n";

/// Both ends greet each other.
const GREETING: &[u8] =
    b"setup 512 8 1024 1024\nask hello\npost a\nemit a\ndeliver b 0\nserve\npost b\nemit b\ndeliver a 0\nread\n";

const GREETING_PLAYED: &[u8] =
    b"1 asked 1\n2 posted 1\n3 packet a 0 60020201010080010001020a00040703050600000000\n4 accepted\n5 served 1\n6 posted 1\n7 packet b 0 60010102020180010001020a00040703050600000000\n8 accepted\n9 report ready 1024\n";

/// What the program prints for help.
const HELP: &[u8] =
    b"Lists DECnet packets and messages, and plays file accesses. Each command reads standard input.\n\nUsage: dapnsp <COMMAND>\n\nCommands:\n  show  Lists captured NSP packets, and the DAP messages in them\n  msg   Lists DAP messages that come without packets\n  run   Plays requests, losses, repeats and reorderings over both ends of a file access\n\nOptions:\n  -h, --help  Print help\n\nExample: echo '> 600201040305800100060200' | ./dapnsp show\n";

/// What it prints for a word that is a mistake.
const MISTAKEN: &[u8] =
    b"error: unexpected argument '-x' found\n\nUsage: dapnsp <COMMAND>\n\nFor more information, try '--help'.\n";

/// The calls of the library.
pub const ENGINES: &[Row] = &[
    (Engine::Show, CAPTURE, End::Good, LISTING),
    (Engine::Msg, MESSAGES, End::Good, MESSAGES_LISTING),
    (Engine::Run, GREETING, End::Good, GREETING_PLAYED),
];

/// The words of the program.
pub const WORDS: &[Row] = &[
    (Engine::Word("show"), CAPTURE, End::Good, LISTING),
    (Engine::Word("msg"), MESSAGES, End::Good, MESSAGES_LISTING),
    (Engine::Word("run"), GREETING, End::Good, GREETING_PLAYED),
    (
        Engine::Word("run"),
        b"setup 0 8 1024 1024\n",
        End::Stopped,
        b"0 refused bad-setup\n",
    ),
    (
        Engine::Word("run"),
        b"# one\nserve",
        End::Fault(CaptureFault::BadLine(2)),
        b"",
    ),
    (Engine::Word("--help"), b"", End::Good, HELP),
    (Engine::Word("-x"), b"", End::Mistake, b""),
];

/// What an exit status and what was printed say of the end.
const ENDS: &[(u8, &[u8], End)] = &[
    (0, b"", End::Good),
    (1, b"", End::Stopped),
    (1, b"bad line 2\n", End::Fault(CaptureFault::BadLine(2))),
    (1, b"too large\n", End::Fault(CaptureFault::TooLarge)),
    (2, MISTAKEN, End::Mistake),
    (3, b"read failed\n", End::Fault(CaptureFault::ReadFailed)),
    (3, b"write failed\n", End::Fault(CaptureFault::WriteFailed)),
    (3, b"no memory\n", End::Fault(CaptureFault::NoMemory)),
];

/// The maximum number of bytes that the program prints.
const MAX_TOLD: usize = 1024;

/// Returns what an exit status and what was printed say of the end.
fn end_of(status: u8, told: &[u8]) -> Result<End, Trouble> {
    for (its_status, line, end) in ENDS {
        if status == *its_status && told == *line {
            return Ok(*end);
        }
    }
    Err(Trouble::Wrong)
}

/// Returns the program's name, and a word.
fn words(alloc: Global, word: &str) -> Result<[String; 2], Trouble> {
    let program = String::from_str(alloc, "dapnsp")?;
    Ok([program, String::from_str(alloc, word)?])
}

/// Runs the program with words, over room for what it prints.
fn run_words_over<R: Read, W: Write>(
    alloc: Global,
    words: &[String],
    reader: &mut R,
    writer: &mut W,
) -> Result<End, Trouble> {
    let mut told = Vec::with_capacity(alloc, MAX_TOLD)?;
    let status = run_words(alloc, words, reader, writer, &mut told);
    end_of(status, &told)
}

/// Runs the program with a word.
fn run_word<R: Read, W: Write>(
    alloc: Global,
    word: &str,
    reader: &mut R,
    writer: &mut W,
) -> Result<End, Trouble> {
    let words = words(alloc, word)?;
    run_words_over(alloc, &words, reader, writer)
}

/// Returns how a call of the library ended.
fn ended(outcome: Result<Outcome, CaptureFault>) -> Result<End, Trouble> {
    Ok(match outcome {
        Ok(Outcome::Good) => End::Good,
        Ok(Outcome::Stopped) => End::Stopped,
        Err(fault) => End::Fault(fault),
    })
}

/// Runs an engine.
pub fn run<R: Read, W: Write>(
    alloc: Global,
    engine: Engine,
    reader: &mut R,
    writer: &mut W,
) -> Result<End, Trouble> {
    match engine {
        Engine::Show => ended(show(alloc, reader, writer)),
        Engine::Msg => ended(messages(alloc, reader, writer)),
        Engine::Run => ended(schedule(alloc, reader, writer)),
        Engine::Word(word) => run_word(alloc, word, reader, writer),
    }
}

/// What was written of a table.
#[derive(Drop)]
pub struct Listing {
    alloc: Global,
    rows: &'static [Row],
    written: Vec<u8>,
}

impl Listing {
    pub fn new(alloc: Global, rows: &'static [Row]) -> Result<Listing, AllocError> {
        let written = Vec::with_capacity(alloc, 4096)?;
        Ok(Listing {
            alloc,
            rows,
            written,
        })
    }
}

impl Growing for Listing {
    fn call(&mut self, index: usize) -> Result<(), Trouble> {
        let (engine, mut reader, end, text) = at(self.rows, index)?;
        match run(self.alloc, engine, &mut reader, &mut self.written)? {
            came if came == end && self.written.ends_with(text) => Ok(()),
            End::Fault(CaptureFault::NoMemory) => Err(Trouble::Wants),
            _ => Err(Trouble::Wrong),
        }
    }

    fn look(&self, seen: &mut Text) {
        seen.put(&self.written);
    }
}
