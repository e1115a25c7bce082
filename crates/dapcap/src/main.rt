//! The program `dapcap`: listings of captures of DECnet packets, and of the DAP messages in them.
#![tactic(auto)]

use cap_cli::{Opens, Unopened, run_words};
use linewise::{ErrorOutput, Output, exit_status};
use std::cell::Cell;
use std::fs::File;
use std::io;
use std::io::{BufReader, BufWriter, ErrorKind, Read, Stdin};
use std::process::ExitCode;

/// What an input is read from.
#[derive(Drop)]
enum Input {
    Standard(Stdin),
    Opened(File),
}

impl Read for Input {
    fn read(&mut self, buffer: &mut [u8]) -> io::Result<usize> {
        match self {
            Input::Standard(reader) => reader.read(buffer),
            Input::Opened(reader) => reader.read(buffer),
        }
    }
}

/// The files and the standard input of the system.
#[derive(Drop)]
struct Host<'a> {
    rt: &'a HostRuntime,
}

/// Opens a file, but no folder.
fn open_file(rt: &HostRuntime, name: &str) -> Result<File, Unopened> {
    let file = match File::open(rt, name) {
        Ok(file) => file,
        Err(error) => return Err(Unopened::by(error.kind())),
    };
    match file.metadata() {
        Ok(metadata) if metadata.is_dir() => Err(Unopened::Folder),
        _ => Ok(file),
    }
}

impl Opens for Host<'_> {
    ghost use Rattle.std.specs.Prelude.{None};

    type Reader = BufReader<Input>;

    ghost held = { λ _ _. None };

    ghost refuses = { λ _ _ _. Unit {0} };

    fn open(&mut self, file: Option<&str>) -> Result<BufReader<Input>, Unopened> {
        let input = match file {
            None => Input::Standard(self.rt.stdin()),
            Some(name) => Input::Opened(open_file(self.rt, name)?),
        };
        match BufReader::new(self.rt.alloc(), input) {
            Ok(reader) => Ok(reader),
            Err(_) => Err(Unopened::NoMemory),
        }
    }
}

/// Reports that memory ran out, and answers the exit status of that.
fn no_memory(rt: &HostRuntime) -> ExitCode {
    let _ = eprintln!(rt; "no memory");
    ExitCode::from(3)
}

fn main(rt: HostRuntime) -> ExitCode {
    let alloc = rt.alloc();
    let arguments = match std::env::args(&rt) {
        Ok(arguments) => arguments,
        Err(error) if error.kind() == ErrorKind::OutOfMemory => return no_memory(&rt),
        Err(_) => {
            let _ = eprintln!(rt; "dapcap: a word is no text");
            return ExitCode::from(2);
        }
    };
    let words: Vec<String> = match arguments.collect(alloc) {
        Ok(words) => words,
        Err(_) => return no_memory(&rt),
    };
    let is_closed = Cell::new(false);
    let Ok(mut writer) = BufWriter::new(alloc, Output::new(rt.stdout(), &is_closed)) else {
        return no_memory(&rt);
    };
    let mut error_writer = ErrorOutput::new(rt.stderr(), &is_closed);
    let mut host = Host { rt: &rt };
    let status = run_words(alloc, &words, &mut host, &mut writer, &mut error_writer);
    ExitCode::from(exit_status(status, is_closed.get()))
}
