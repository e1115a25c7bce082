//! The program `daplive`: one end of a DECnet file access, over lines.
#![tactic(auto)]

use linewise::{ErrorOutput, Outcome, Output, exit_status, finish, write_text};
use live_cli::run_words;
use std::cell::Cell;
use std::io::{BufReader, BufWriter, ErrorKind};
use std::process::ExitCode;

/// The name of the program, and the version of the repository.
const VERSION: &[u8] = b"daplive 1.1.0\n";

/// Whether the word after the name of the program, and no other, asks for the version.
fn asks_version(words: &[String]) -> bool {
    match words {
        [_, word] => word.as_str() == "--version" || word.as_str() == "-V",
        _ => false,
    }
}

/// Reports that memory ran out, and answers the exit status of that.
fn no_memory(rt: &HostRuntime) -> ExitCode {
    let _ = eprintln!(rt; "no memory");
    ExitCode::from(3)
}

fn main(rt: HostRuntime) -> ExitCode {
    let alloc = rt.alloc();
    let arguments = match std::env::args(&rt) {
        Ok(arguments) => arguments,
        Err(error) if error.kind() == ErrorKind::OutOfMemory => return no_memory(&rt),
        Err(_) => {
            let _ = eprintln!(rt; "the words are no text");
            return ExitCode::from(2);
        }
    };
    let words: Vec<String> = match arguments.collect(alloc) {
        Ok(words) => words,
        Err(_) => return no_memory(&rt),
    };
    let Ok(mut reader) = BufReader::new(alloc, rt.stdin()) else {
        return no_memory(&rt);
    };
    let is_closed = Cell::new(false);
    let Ok(mut writer) = BufWriter::new(alloc, Output::new(rt.stdout(), &is_closed)) else {
        return no_memory(&rt);
    };
    if asks_version(&words) {
        let told = write_text(VERSION, &mut writer).map(|()| Outcome::Good);
        let status = finish(told, &mut ErrorOutput::new(rt.stderr(), &is_closed));
        return ExitCode::from(exit_status(status, is_closed.get()));
    }
    let mut error_writer = ErrorOutput::new(rt.stderr(), &is_closed);
    let status = run_words(alloc, &words, &mut reader, &mut writer, &mut error_writer);
    ExitCode::from(exit_status(status, is_closed.get()))
}
