//! Inputs in memory, and what the program comes to with them.

use cap_cli::{Opens, Unopened, run_words};
use std::alloc::Global;
use std::io;
use std::io::{BufReader, ErrorKind, Read};
use std::test::Fail;

/// A reader that gives at most `step` bytes a call, and fails at its call `fail_at`, from 0.
#[derive(Clone, Copy)]
pub(crate) struct Pieces<'a> {
    pub(crate) bytes: &'a [u8],
    pub(crate) step: usize,
    pub(crate) calls: usize,
    pub(crate) fail_at: usize,
}

impl Read for Pieces<'_> {
    fn read(&mut self, buffer: &mut [u8]) -> io::Result<usize> {
        if self.calls == self.fail_at {
            return Err(io::Error::from(ErrorKind::Other));
        }
        self.calls = self.calls.saturating_add(1);
        let count = self.bytes.len().min(self.step).min(buffer.len());
        buffer[..count].copy_from_slice(&self.bytes[..count]);
        self.bytes = &self.bytes[count..];
        Ok(count)
    }
}

/// Standard input, and one file of the name `here.pcap`.
#[derive(Drop)]
pub(crate) struct Shelf<'a> {
    pub(crate) alloc: Global,
    pub(crate) standard: Pieces<'a>,
    pub(crate) file: Pieces<'a>,
    pub(crate) opened: usize,
}

impl<'a> Opens for Shelf<'a> {
    ghost use Rattle.std.specs.Prelude.{None};

    type Reader = BufReader<Pieces<'a>>;

    ghost held = { λ _ _. None };

    ghost refuses = { λ _ _ _. Unit {0} };

    fn open(&mut self, file: Option<&str>) -> Result<BufReader<Pieces<'a>>, Unopened> {
        self.opened = self.opened.saturating_add(1);
        let pieces = match file {
            None => self.standard,
            Some("here.pcap") => self.file,
            Some("folder") => return Err(Unopened::Folder),
            Some("locked") => return Err(Unopened::NotPermitted),
            Some(_) => return Err(Unopened::NotFound),
        };
        match BufReader::new(self.alloc, pieces) {
            Ok(reader) => Ok(reader),
            Err(_) => Err(Unopened::NoMemory),
        }
    }
}

/// A reader that gives all of these bytes, at most `step` of them a call.
pub(crate) fn whole(bytes: &[u8], step: usize) -> Pieces<'_> {
    Pieces {
        bytes,
        step,
        calls: 0,
        fail_at: usize::MAX,
    }
}

/// What the program came to: its status, what it wrote and what it told, and how many inputs were opened.
#[derive(Drop)]
pub(crate) struct Came {
    pub(crate) status: u8,
    pub(crate) written: Vec<u8>,
    pub(crate) told: Vec<u8>,
    pub(crate) opened: usize,
}

/// Runs the program with these words after its name, and this standard input, which is the file `here.pcap` too.
pub(crate) fn run(alloc: Global, words: &[&str], input: Pieces<'_>) -> Result<Came, Fail> {
    let mut list = Vec::new(alloc);
    list.push(String::from_str(alloc, "dapcap")?)?;
    for word in words {
        list.push(String::from_str(alloc, word)?)?;
    }
    let mut shelf = Shelf {
        alloc,
        standard: input,
        file: input,
        opened: 0,
    };
    let mut written = Vec::new(alloc);
    let mut told = Vec::new(alloc);
    let status = run_words(alloc, &list, &mut shelf, &mut written, &mut told);
    Ok(Came {
        status,
        written,
        told,
        opened: shelf.opened,
    })
}

/// Returns what was told without the lines that help, and how many of these there are.
pub(crate) fn without_help(alloc: Global, told: &[u8]) -> Result<(Vec<u8>, usize), Fail> {
    let mut faults = Vec::new(alloc);
    let mut helps = 0usize;
    for line in told.split_inclusive(|byte| *byte == b'\n') {
        if line.starts_with(b"dapcap: ") {
            helps = helps.saturating_add(1);
        } else {
            faults.extend_from_slice(line)?;
        }
    }
    Ok((faults, helps))
}
