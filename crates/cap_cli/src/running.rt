//! An input, listed as its options say.

ghost use Rattle.std.specs.Prelude.{◌≡◌, IfSome};
ghost use Rattle.cap_cli.specs.Tasks.{ListsInput, ListsReader, ListsAsRead, ListsStrictly, StrictInput, chosen_of};

use crate::form::{Form, form_of_front, read_front};
use crate::listing::{list_form, list_form_strictly};
use crate::words::Options;
use dap_follow::{Chosen, Lister};
use decnet_frames::HexLines;
use linewise::{CaptureFault, read_input, tell_fault};
use std::alloc::Global;
use std::io::{BufRead, Read, Write};

/// Returns what a listing has.
fn chosen(options: Options) -> Chosen
    ensures { result ≡ chosen_of options }
{
    Chosen {
        in_words: !options.bare,
        is_joined: !options.segments,
    }
}

/// Lists an input of this form, which begins so, as it is read, and returns the exit status.
fn list_input<R: BufRead, W: Write, E: Write>(
    alloc: Global,
    options: Options,
    form: Form,
    front: &[u8],
    reader: &mut R,
    writer: &mut W,
    error_writer: &mut E,
) -> u8
    ensures { IfSome (R.remaining reader.old) (λ input. ListsInput options form input
        (W.contents writer.old) (W.contents writer.new)
        (E.contents error_writer.old) (E.contents error_writer.new) result) }
{
    let between = options.between;
    if options.lines {
        let mut taker = HexLines;
        return list_form(
            alloc,
            form,
            between,
            front,
            &mut taker,
            reader,
            writer,
            error_writer,
        );
    }
    let mut taker = Lister::new(alloc, chosen(options));
    list_form(
        alloc,
        form,
        between,
        front,
        &mut taker,
        reader,
        writer,
        error_writer,
    )
}

/// Lists an input of this form that is known whole, unless some of it is bad, and returns the exit status.
fn list_input_strictly<W: Write, E: Write>(
    alloc: Global,
    options: Options,
    form: Form,
    input: &[u8],
    writer: &mut W,
    error_writer: &mut E,
) -> u8
    ensures { StrictInput options form input.now
        (W.contents writer.old) (W.contents writer.new)
        (E.contents error_writer.old) (E.contents error_writer.new) result }
{
    let between = options.between;
    if options.lines {
        let mut taker = HexLines;
        return list_form_strictly(
            alloc,
            form,
            between,
            &mut taker,
            input,
            writer,
            error_writer,
        );
    }
    let mut taker = Lister::new(alloc, chosen(options));
    list_form_strictly(
        alloc,
        form,
        between,
        &mut taker,
        input,
        writer,
        error_writer,
    )
}

/// Lists an input as it is read, and returns the exit status.
fn list_as_read<R: BufRead + Drop, W: Write, E: Write>(
    alloc: Global,
    options: Options,
    mut reader: R,
    writer: &mut W,
    error_writer: &mut E,
) -> u8
    ensures { IfSome (R.remaining reader) (λ input. ListsAsRead options input
        (W.contents writer.old) (W.contents writer.new)
        (E.contents error_writer.old) (E.contents error_writer.new) result) }
{
    let front = match read_front(&mut reader) {
        Ok(front) => front,
        Err(_) => return tell_fault(CaptureFault::ReadFailed, error_writer),
    };
    let form = form_of_front(front.as_slice());
    let mut input = front.as_slice().chain(reader);
    list_input(
        alloc,
        options,
        form,
        front.as_slice(),
        &mut input,
        writer,
        error_writer,
    )
}

/// Reads an input whole, lists it unless some of it is bad, and returns the exit status.
fn list_strictly<R: Read + Drop, W: Write, E: Write>(
    alloc: Global,
    options: Options,
    mut reader: R,
    writer: &mut W,
    error_writer: &mut E,
) -> u8
    ensures { IfSome (R.remaining reader) (λ input. ListsStrictly options input
        (W.contents writer.old) (W.contents writer.new)
        (E.contents error_writer.old) (E.contents error_writer.new) result) }
{
    match read_input(alloc, &mut reader) {
        Ok(input) => {
            let form = form_of_front(&input);
            list_input_strictly(alloc, options, form, &input, writer, error_writer)
        }
        Err(fault) => tell_fault(fault, error_writer),
    }
}

/// Lists an input, and returns the exit status.
pub(crate) fn list_reader<R: BufRead + Drop, W: Write, E: Write>(
    alloc: Global,
    options: Options,
    reader: R,
    writer: &mut W,
    error_writer: &mut E,
) -> u8
    ensures { IfSome (R.remaining reader) (λ input. ListsReader options input
        (W.contents writer.old) (W.contents writer.new)
        (E.contents error_writer.old) (E.contents error_writer.new) result) }
{
    if options.strict {
        list_strictly(alloc, options, reader, writer, error_writer)
    } else {
        list_as_read(alloc, options, reader, writer, error_writer)
    }
}
