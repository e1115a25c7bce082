//! One input, given to what takes its packets.

ghost use Rattle.std.specs.Prelude.{IfSome};
ghost use Rattle.cap_cli.specs.Running.{FileCame, FileFront, FileHas, ListsFile, ListsForm, ListsLines, LinesCame, LinesFront, LinesHave, StrictFile, StrictFileBy, StrictForm, StrictLines, StrictLinesBy, WritesFile, WritesLines};
ghost use Rattle.cap_cli.specs.Inner.Taken.{Took};

use crate::form::Form;
use crate::taker::Ends;
use crate::telling::{
    FileEnd, LineTeller, LinesEnd, tell_file_end, tell_input_fault, tell_lines_end,
};
use capture_file::{FaultKind, FileFault};
use decnet_frames::{Between, FramesFault, list_frames, list_lines};
use linewise::{CaptureFault, tell_fault, write_text};
use std::alloc::Global;
use std::io::{BufRead, Read, Write};

/// Gives the packets of a capture file to a taker, and writes what it makes of them.
fn take_file<T: Ends, R: Read, W: Write>(
    alloc: Global,
    between: Between,
    taker: &mut T,
    reader: &mut R,
    writer: &mut W,
) -> Result<FileEnd, CaptureFault>
    ensures { IfSome (R.remaining reader.old) (λ input. Took (FileHas between input)
        (FileCame between input) (FileFront between input) T.taken taker.old taker.new
        (W.contents writer.old) (W.contents writer.new) result) }
{
    match list_frames(alloc, between, taker, reader, writer) {
        Ok(counts) => Ok(FileEnd {
            fault: None,
            counts,
        }),
        Err(FramesFault::File(fault, counts)) => Ok(FileEnd {
            fault: Some(fault),
            counts,
        }),
        Err(FramesFault::ReadFailed) => Err(CaptureFault::ReadFailed),
        Err(FramesFault::WriteFailed) => Err(CaptureFault::WriteFailed),
        Err(FramesFault::NoMemory) => Err(CaptureFault::NoMemory),
    }
}

/// Gives the packets of lines to a taker, and writes what it makes of them.
fn take_lines<T: Ends, R: BufRead, W: Write, E: Write>(
    alloc: Global,
    between: Between,
    taker: &mut T,
    reader: &mut R,
    writer: &mut W,
    error_writer: &mut E,
) -> Result<LinesEnd, CaptureFault>
    ensures { IfSome (R.remaining reader.old) (λ input. Took (LinesHave between input)
        (LinesCame between input) (LinesFront between input) T.taken taker.old taker.new
        (W.contents writer.old) (W.contents writer.new) result) }
{
    match list_lines(alloc, between, taker, reader, writer, error_writer) {
        Ok((is_bad, counts)) => Ok(LinesEnd { is_bad, counts }),
        Err(fault) => Err(fault),
    }
}

/// Lists a capture file, with what the taker has at its end.
fn run_file<T: Ends, R: Read, W: Write>(
    alloc: Global,
    between: Between,
    taker: &mut T,
    reader: &mut R,
    writer: &mut W,
) -> Result<FileEnd, CaptureFault>
    requires { T.starts taker.old }
    ensures { IfSome (R.remaining reader.old) (λ input. WritesFile (T.texts taker.old) between input
        (W.contents writer.old) (W.contents writer.new) result) }
{
    let end = match take_file(alloc, between, taker, reader, writer) {
        Ok(end) => end,
        Err(fault) => return Err(fault),
    };
    match taker.write_end(alloc, writer) {
        Ok(()) => Ok(end),
        Err(fault) => Err(fault),
    }
}

/// Lists lines, with what the taker has at their end.
fn run_lines<T: Ends, R: BufRead, W: Write, E: Write>(
    alloc: Global,
    between: Between,
    taker: &mut T,
    reader: &mut R,
    writer: &mut W,
    error_writer: &mut E,
) -> Result<LinesEnd, CaptureFault>
    requires { T.starts taker.old }
    ensures { IfSome (R.remaining reader.old) (λ input.
        WritesLines (T.texts taker.old) between input
        (W.contents writer.old) (W.contents writer.new) result) }
{
    let end = match take_lines(alloc, between, taker, reader, writer, error_writer) {
        Ok(end) => end,
        Err(fault) => return Err(fault),
    };
    match taker.write_end(alloc, writer) {
        Ok(()) => Ok(end),
        Err(fault) => Err(fault),
    }
}

/// What no known form has.
const UNKNOWN: FileFault = FileFault {
    kind: FaultKind::UnknownMagic,
    at: 0,
};

/// Lists a capture file, each frame once it is read, and returns the exit status.
fn list_file<T: Ends, R: Read, W: Write, E: Write>(
    alloc: Global,
    between: Between,
    taker: &mut T,
    reader: &mut R,
    writer: &mut W,
    error_writer: &mut E,
) -> u8
    requires { T.starts taker.old }
    ensures { IfSome (R.remaining reader.old) (λ input. ListsFile (T.texts taker.old) between input
        (W.contents writer.old) (W.contents writer.new)
        (E.contents error_writer.old) (E.contents error_writer.new) result) }
{
    match run_file(alloc, between, taker, reader, writer) {
        Ok(end) => tell_file_end(alloc, end, error_writer),
        Err(fault) => tell_fault(fault, error_writer),
    }
}

/// Lists lines, each once it is read, and returns the exit status.
fn list_capture<T: Ends, R: BufRead, W: Write, E: Write>(
    alloc: Global,
    between: Between,
    taker: &mut T,
    reader: &mut R,
    writer: &mut W,
    error_writer: &mut E,
) -> u8
    requires { T.starts taker.old }
    ensures { IfSome (R.remaining reader.old) (λ input. ListsLines (T.texts taker.old) between input
        (W.contents writer.old) (W.contents writer.new) (E.contents error_writer.new) result) }
{
    let mut teller = LineTeller::new(&mut *error_writer, true);
    let result = run_lines(alloc, between, taker, reader, writer, &mut teller);
    match result {
        Ok(end) => tell_lines_end(alloc, end, error_writer),
        Err(fault) => tell_fault(fault, error_writer),
    }
}

/// Lists an input of this form, which begins so, and returns the exit status.
pub(crate) fn list_form<T: Ends, R: BufRead, W: Write, E: Write>(
    alloc: Global,
    form: Form,
    between: Between,
    front: &[u8],
    taker: &mut T,
    reader: &mut R,
    writer: &mut W,
    error_writer: &mut E,
) -> u8
    requires { T.starts taker.old }
    ensures { IfSome (R.remaining reader.old) (λ input.
        ListsForm (T.texts taker.old) between form input (W.contents writer.old) (W.contents writer.new)
        (E.contents error_writer.old) (E.contents error_writer.new) result) }
{
    match form {
        Form::Unknown => tell_input_fault(alloc, UNKNOWN, front, error_writer),
        Form::File => list_file(alloc, between, taker, reader, writer, error_writer),
        Form::Lines => list_capture(alloc, between, taker, reader, writer, error_writer),
    }
}

/// Writes the text of a capture file that is known whole, unless it is at fault, tells its end, and returns the
/// exit status.
fn finish_file<W: Write, E: Write>(
    alloc: Global,
    end: FileEnd,
    text: &[u8],
    writer: &mut W,
    error_writer: &mut E,
) -> u8
    ensures { StrictFileBy end.fault end text.now (W.contents writer.old) (W.contents writer.new)
        (E.contents error_writer.old) (E.contents error_writer.new) result }
{
    if let Some(fault) = end.fault {
        return tell_input_fault(alloc, fault, &[], error_writer);
    }
    match write_text(text, writer) {
        Ok(()) => tell_file_end(alloc, end, error_writer),
        Err(_) => tell_fault(CaptureFault::WriteFailed, error_writer),
    }
}

/// Lists a capture file that is known whole, and returns the exit status; nothing is written where it is at fault.
fn list_file_strictly<T: Ends, W: Write, E: Write>(
    alloc: Global,
    between: Between,
    taker: &mut T,
    input: &[u8],
    writer: &mut W,
    error_writer: &mut E,
) -> u8
    requires { T.starts taker.old }
    ensures { StrictFile (T.texts taker.old) between input.now
        (W.contents writer.old) (W.contents writer.new)
        (E.contents error_writer.old) (E.contents error_writer.new) result }
{
    let mut reader = input;
    let mut text = Vec::new(alloc);
    match run_file(alloc, between, taker, &mut reader, &mut text) {
        Ok(end) => finish_file(alloc, end, &text, writer, error_writer),
        Err(_) => tell_fault(CaptureFault::NoMemory, error_writer),
    }
}

/// Writes the text of lines that are known whole, unless one is bad, tells their end, and returns the exit status.
fn finish_lines<W: Write, E: Write>(
    alloc: Global,
    end: LinesEnd,
    text: &[u8],
    writer: &mut W,
    error_writer: &mut E,
) -> u8
    ensures { StrictLinesBy end.is_bad end text.now (W.contents writer.old)
        (W.contents writer.new) (E.contents error_writer.new) result }
{
    if end.is_bad {
        return 1;
    }
    match write_text(text, writer) {
        Ok(()) => tell_lines_end(alloc, end, error_writer),
        Err(_) => tell_fault(CaptureFault::WriteFailed, error_writer),
    }
}

/// Lists lines that are known whole, and returns the exit status; nothing is written where one is bad, of which the
/// first is told.
fn list_lines_strictly<T: Ends, W: Write, E: Write>(
    alloc: Global,
    between: Between,
    taker: &mut T,
    input: &[u8],
    writer: &mut W,
    error_writer: &mut E,
) -> u8
    requires { T.starts taker.old }
    ensures { StrictLines (T.texts taker.old) between input.now
        (W.contents writer.old) (W.contents writer.new) (E.contents error_writer.new) result }
{
    let mut reader = input;
    let mut text = Vec::new(alloc);
    let mut teller = LineTeller::new(&mut *error_writer, false);
    let result = run_lines(alloc, between, taker, &mut reader, &mut text, &mut teller);
    match result {
        Ok(end) => finish_lines(alloc, end, &text, writer, error_writer),
        Err(_) => tell_fault(CaptureFault::NoMemory, error_writer),
    }
}

/// Lists an input of this form that is known whole, and returns the exit status.
pub(crate) fn list_form_strictly<T: Ends, W: Write, E: Write>(
    alloc: Global,
    form: Form,
    between: Between,
    taker: &mut T,
    input: &[u8],
    writer: &mut W,
    error_writer: &mut E,
) -> u8
    requires { T.starts taker.old }
    ensures { StrictForm (T.texts taker.old) between form input.now
        (W.contents writer.old) (W.contents writer.new)
        (E.contents error_writer.old) (E.contents error_writer.new) result }
{
    match form {
        Form::Unknown => tell_input_fault(alloc, UNKNOWN, input, error_writer),
        Form::File => list_file_strictly(alloc, between, taker, input, writer, error_writer),
        Form::Lines => list_lines_strictly(alloc, between, taker, input, writer, error_writer),
    }
}
