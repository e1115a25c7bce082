//! The program over anything that opens inputs, and any writers.

ghost use Rattle.std.specs.Prelude.{◌≡◌, Err, List, Ok, ℕ, map, option_map, string_bytes};
ghost use Rattle.std.specs.Io.KnownBytes.{Keeps};
ghost use Rattle.linewise.specs.Output.{WritesFront};
ghost use Rattle.cap_cli.specs.Opening.{wrong_line};
ghost use Rattle.cap_cli.specs.Program.{ListsTask, WritesPage, after_name, opened as the_opened};
ghost use Rattle.cap_cli.specs.Words.{WantedListing, WrongWord, wanted_by, helped, wished_listing, versioned, wish_of};

use crate::help::{HELP, VERSION};
use crate::opening::{Opens, tell_mistake, tell_unopened};
use crate::running::list_reader;
use crate::words::{Task, Wish, read_words};
use linewise::{CaptureFault, tell_fault, write_text};
use std::alloc::Global;
use std::io::Write;

/// Returns the words after the name of the program.
fn after_name(words: &[String]) -> &[String]
    ensures { map string_bytes result.now ≡ after_name (map string_bytes words.now) }
{
    match words {
        [] => words,
        [_, rest @ ..] => rest,
    }
}

/// Returns the file that is opened: none where it is standard input.
fn opened(file: Option<&str>) -> Option<&str>
    ensures { option_map (λ name. name.now) result
        ≡ the_opened (option_map (λ name. name.now) file.entry) }
{
    match file {
        Some("-") | None => None,
        Some(name) => Some(name),
    }
}

/// Writes a page, and returns the exit status.
fn write_page<W: Write, E: Write>(page: &[u8], writer: &mut W, error_writer: &mut E) -> u8
    ensures { WritesPage page.now (W.contents writer.old) (W.contents writer.new)
        (E.contents error_writer.old) (E.contents error_writer.new) result }
{
    match write_text(page, writer) {
        Ok(()) => 0,
        Err(_) => tell_fault(CaptureFault::WriteFailed, error_writer),
    }
}

/// Opens the input of a task, lists it, and returns the exit status.
fn list_task<O: Opens, W: Write, E: Write>(
    alloc: Global,
    task: Task<'_>,
    source: &mut O,
    writer: &mut W,
    error_writer: &mut E,
) -> u8
    ensures { ListsTask (O.held source.old) (O.refuses source.old) (wanted_by task.entry)
        (W.contents writer.old) (W.contents writer.new)
        (E.contents error_writer.old) (E.contents error_writer.new) result }
{
    let file = opened(task.file);
    match source.open(file) {
        Ok(reader) => list_reader(alloc, task.options, reader, writer, error_writer),
        Err(unopened) => tell_unopened(file, unopened, error_writer),
    }
}

/// Does what the words ask for, the program's name first, and returns the exit status.
///
/// 0: the input ended, or help or the version was written. 1: a line was bad, the file is at fault, or with `--strict`
/// the input is above its limit of 16,777,216 bytes. 2: there is a mistake in the words, of which the first is told, which
/// takes no memory; nothing is opened, read or written. 3: the input can't be opened, the reader or the writer failed, or
/// memory was refused. What is wrong is told to the error writer, whose failure changes nothing.
pub fn run_words<O: Opens, W: Write, E: Write>(
    alloc: Global,
    words: &[String],
    source: &mut O,
    writer: &mut W,
    error_writer: &mut E,
) -> u8
    ensures wants_listing { (asked : WantedListing)
        → wish_of (after_name (map string_bytes words.now)) ≡ Ok (wished_listing asked)
        → ListsTask (O.held source.old) (O.refuses source.old) asked
        (W.contents writer.old) (W.contents writer.new)
        (E.contents error_writer.old) (E.contents error_writer.new) result }
    ensures mistake { (wrong : WrongWord)
        → wish_of (after_name (map string_bytes words.now)) ≡ Err wrong
        → (result ≡ 2) × (source.new ≡ source.old)
        × Keeps (W.contents writer.old) (W.contents writer.new) × WritesFront
        (E.contents error_writer.old) (E.contents error_writer.new) (wrong_line wrong) }
    ensures help { wish_of (after_name (map string_bytes words.now)) ≡ Ok helped
        → (source.new ≡ source.old) × ((page : List ℕ) × WritesPage page
        (W.contents writer.old) (W.contents writer.new)
        (E.contents error_writer.old) (E.contents error_writer.new) result) }
    ensures version { wish_of (after_name (map string_bytes words.now)) ≡ Ok versioned
        → (source.new ≡ source.old) × ((page : List ℕ) × WritesPage page
        (W.contents writer.old) (W.contents writer.new)
        (E.contents error_writer.old) (E.contents error_writer.new) result) }
{
    match read_words(after_name(words)) {
        Ok(Wish::Help) => write_page(HELP, writer, error_writer),
        Ok(Wish::Version) => write_page(VERSION, writer, error_writer),
        Ok(Wish::Listing(task)) => list_task(alloc, task, source, writer, error_writer),
        Err(mistake) => tell_mistake(mistake, error_writer),
    }
}
