//! Where inputs come from, and what is told where one can't be opened.

ghost use Rattle.std.specs.Prelude.{◌≡◌, OnOk, map, option_map};
ghost use Rattle.std.specs.Io.KnownBytes.{Appends};
ghost use Rattle.linewise.specs.Output.{WritesFront};
ghost use Rattle.cap_cli.specs.Opening.{said_line, shown as shown_as, unopened_line, what_text, why_text, wrong_line};
ghost use Rattle.cap_cli.specs.Words.{wrong_by};

use crate::words::{Mistake, What};
use linewise::{CaptureFault, write_text};
use std::io::{BufRead, ErrorKind, Write};

/// Why an input can't be opened.
#[derive(Clone, Copy, Debug, PartialEq, Eq)]
pub enum Unopened {
    /// There is no file of this name.
    NotFound,
    NotPermitted,
    /// It is a folder.
    Folder,
    /// A part of its path is no folder.
    NotInFolder,
    /// Out of memory.
    NoMemory,
    /// For another reason.
    Other,
}

impl Unopened {
    /// Returns the reason that an error says.
    pub fn by(kind: ErrorKind) -> Unopened {
        match kind {
            ErrorKind::NotFound => Unopened::NotFound,
            ErrorKind::PermissionDenied => Unopened::NotPermitted,
            ErrorKind::IsADirectory => Unopened::Folder,
            ErrorKind::NotADirectory => Unopened::NotInFolder,
            ErrorKind::OutOfMemory => Unopened::NoMemory,
            _ => Unopened::Other,
        }
    }
}

/// What opens files, and standard input.
pub trait Opens {
    ghost use Rattle.std.specs.Prelude.{◌≡◌, ℕ, List, Option, IfErr, IfOk, option_map};
    ghost use Rattle.cap_cli.specs.declared.opening.Unopened.{Unopened};

    /// What an input is read from.
    type Reader: BufRead + Drop;

    // The bytes of the file of this name, or of standard input, where they are known.
    ghost held: { Self → Option (List ℕ) → Option (List ℕ) };

    // Why it may not be opened.
    ghost refuses: { Self → Option (List ℕ) → Unopened → Type 0 };

    /// Opens the file of this name, or standard input where there is none.
    fn open(&mut self, file: Option<&str>) -> Result<Self::Reader, Unopened>
        ensures held { IfOk result (λ reader. Self.Reader.remaining reader
            ≡ held self.old (option_map (λ name. name.now) file.entry)) }
        ensures refused { IfErr result
            (refuses self.old (option_map (λ name. name.now) file.entry)) };
}

/// Returns why an input can't be opened.
fn why(unopened: Unopened) -> &'static str
    ensures { result.now ≡ why_text unopened }
{
    match unopened {
        Unopened::NotFound => "not found",
        Unopened::NotPermitted => "not permitted",
        Unopened::Folder => "is a folder",
        Unopened::NotInFolder => "a part of its path is no folder",
        Unopened::NoMemory => "no memory",
        Unopened::Other => "can't be opened",
    }
}

/// Returns what is wrong with a word.
fn what(what: What) -> &'static str
    ensures { result.now ≡ what_text what }
{
    match what {
        What::NoSuchWord => "no such word",
        What::GivenTwice => "given twice",
        What::NotWithLines => "not with --lines",
        What::TwoNodes => "two nodes, as 1.1 1.2",
    }
}

/// Returns a byte of a word as it is shown.
fn shown(byte: u8) -> u8
    ensures { result ≡ shown_as byte }
{
    if byte < b' ' || byte == 0x7f {
        b'?'
    } else {
        byte
    }
}

/// Writes a word, with `?` for each byte that a terminal doesn't show.
fn write_shown<E: Write>(word: &str, error_writer: &mut E) -> Result<(), CaptureFault>
    ensures whole { OnOk result (Appends (E.contents error_writer.old)
        (E.contents error_writer.new) (map shown_as word.now)) }
    ensures front { WritesFront (E.contents error_writer.old) (E.contents error_writer.new)
        (map shown_as word.now) }
{
    for byte in word.as_bytes() {
        write_text(&[shown(*byte)], error_writer)?;
    }
    Ok(())
}

/// Writes a line with the name of the program, a word, and what is to be said of it.
fn write_line<E: Write>(word: &str, said: &str, error_writer: &mut E) -> Result<(), CaptureFault>
    ensures { WritesFront (E.contents error_writer.old) (E.contents error_writer.new)
        (said_line word.now said.now) }
{
    write_text(b"dapcap: ", error_writer)?;
    write_shown(word, error_writer)?;
    write_text(b": ", error_writer)?;
    write_text(said.as_bytes(), error_writer)?;
    write_text(b"\n", error_writer)
}

/// Tells a line with a word and what is to be said of it, and returns this status. It takes no memory, and a failure of
/// the error writer changes nothing.
fn tell_line<E: Write>(word: &str, said: &str, status: u8, error_writer: &mut E) -> u8
    ensures status { result ≡ status }
    ensures told { WritesFront (E.contents error_writer.old) (E.contents error_writer.new)
        (said_line word.now said.now) }
{
    let _ = write_line(word, said, error_writer);
    status
}

/// Tells the first mistake in the words, and returns the exit status.
pub(crate) fn tell_mistake<E: Write>(mistake: Mistake<'_>, error_writer: &mut E) -> u8
    ensures status { result ≡ 2 }
    ensures told { WritesFront (E.contents error_writer.old) (E.contents error_writer.new)
        (wrong_line (wrong_by mistake.entry)) }
{
    tell_line(mistake.word, what(mistake.what), 2, error_writer)
}

/// Tells why an input can't be opened, and returns the exit status.
pub(crate) fn tell_unopened<E: Write>(
    file: Option<&str>,
    unopened: Unopened,
    error_writer: &mut E,
) -> u8
    ensures status { result ≡ 3 }
    ensures told { WritesFront (E.contents error_writer.old) (E.contents error_writer.new)
        (unopened_line (option_map (λ name. name.now) file.entry) unopened) }
{
    match file {
        Some(name) => tell_line(name, why(unopened), 3, error_writer),
        None => tell_line("-", why(unopened), 3, error_writer),
    }
}
