//! How files are printed.

ghost use Rattle.std.specs.Prelude.{◌≡◌, ◌<◌, ◌++◌, IfOk, OnErr, OnOk, codes, length};
ghost use Rattle.texts.specs.Adding.{Adds, StillBegins};
ghost use Rattle.texts.specs.Text.{line_feed};
ghost use Rattle.dap_msg.specs.Canon.{Fits};
ghost use Rattle.dap_text.specs.Kept.{look_bytes, kept_message};
ghost use Rattle.dap_text.specs.Tables.{AddsLine, file_line, files_text, format_text, kept_text, lines_from, org_text, record_line};
ghost use Rattle.dap_text.specs.Inner.Tables.{shape_text, sizes_text};

use crate::kept::look_bytes;
use dap_accessed::{FileTable, given_limit};
use rec_file::{Format, Look, Org, RecordFile, Shape, first_record};
use std::alloc::AllocError;
use texts::{push_image, push_number, push_str};

/// Returns the word for an organization.
fn org_word(org: Org) -> &'static str
    ensures { result.now ≡ org_text org }
{
    match org {
        Org::Seq => "seq",
        Org::Rel => "rel",
    }
}

/// Returns the word for a record format.
fn format_word(format: Format) -> &'static str
    ensures { result.now ≡ format_text format }
{
    match format {
        Format::Fixed => "fixed",
        Format::Variable => "variable",
    }
}

/// Appends a word after a space.
#[tactic(auto, unfolding(texts::specs::Adding::StillBegins))]
fn push_next_word(text: &mut Vec<u8>, word: &str) -> Result<(), AllocError>
    ensures added { OnOk result (Adds text.old text.new (codes " " ++ word.now)) }
    ensures kept { StillBegins text.old text.new }
{
    push_str(text, " ")?;
    push_str(text, word)
}

/// Appends two sizes, each after a space.
#[tactic(auto, unfolding(texts::specs::Adding::StillBegins))]
pub(crate) fn push_sizes(text: &mut Vec<u8>, mrs: u16, mrn: u32) -> Result<(), AllocError>
    ensures added { OnOk result (Adds text.old text.new (sizes_text mrs mrn)) }
    ensures kept { StillBegins text.old text.new }
{
    push_number(text, " ", mrs)?;
    push_number(text, " ", mrn)
}

/// Appends the organization, the record format and the sizes of a file, each after a space, with MRS as it was given.
#[tactic(auto, unfolding(texts::specs::Adding::StillBegins))]
fn push_shape(text: &mut Vec<u8>, shape: Shape, look: Look) -> Result<(), AllocError>
    ensures added { OnOk result (Adds text.old text.new (shape_text shape look)) }
    ensures kept { StillBegins text.old text.new }
{
    push_next_word(text, org_word(shape.org))?;
    push_next_word(text, format_word(shape.format))?;
    push_sizes(text, given_limit(shape, look), shape.mrn)
}

/// Appends what is kept with a file, where anything is.
#[tactic(auto, unfolding(texts::specs::Adding::StillBegins))]
fn push_kept(text: &mut Vec<u8>, look: Look) -> Result<(), AllocError>
    requires { Fits (kept_message look) }
    ensures added { OnOk result (Adds text.old text.new (kept_text (look_bytes look))) }
    ensures kept { StillBegins text.old text.new }
{
    let bytes = look_bytes(*text.allocator(), look)?;
    if bytes.is_empty() {
        return Ok(());
    }
    push_image(text, " kept=", &bytes)
}

/// Appends what is kept with a file, where anything is, and the end of the line.
#[tactic(auto, unfolding(texts::specs::Adding::StillBegins))]
fn push_line_end(text: &mut Vec<u8>, look: Look) -> Result<(), AllocError>
    requires { Fits (kept_message look) }
    ensures added { OnOk result (Adds text.old text.new (kept_text (look_bytes look) ++ line_feed)) }
    ensures kept { StillBegins text.old text.new }
{
    push_kept(text, look)?;
    push_str(text, "\n")
}

/// Appends the line of a file.
#[tactic(auto, unfolding(texts::specs::Adding::StillBegins))]
fn push_file_line(
    text: &mut Vec<u8>,
    name: &[u8],
    shape: Shape,
    look: Look,
) -> Result<(), AllocError>
    requires { Fits (kept_message look) }
    ensures added { OnOk result (Adds text.old text.new (file_line name.now shape look)) }
    ensures kept { StillBegins text.old text.new }
{
    push_image(text, "file ", name)?;
    push_shape(text, shape, look)?;
    push_line_end(text, look)
}

/// Appends the line of a record.
#[tactic(auto, unfolding(texts::specs::Adding::StillBegins))]
fn push_record(text: &mut Vec<u8>, number: u32, body: &[u8]) -> Result<(), AllocError>
    ensures added { OnOk result (Adds text.old text.new (record_line (number, body.now))) }
    ensures kept { StillBegins text.old text.new }
{
    push_number(text, "  ", number)?;
    push_image(text, " ", body)?;
    push_str(text, "\n")
}

/// A position in the listing of the files: what is listed next.
#[derive(Clone, Copy, PartialEq, Eq)]
pub enum FilesCursor {
    /// Before the line of the file at this index of the table.
    File(usize),
    /// Before the line of that file's first record from this number on.
    Record(usize, u32),
}

/// Appends the line of the file at an index of the table, where there is one, and returns the next position.
#[tactic(auto, using(crate::proofs::KeptLemmas::fits_kept), unfolding(texts::specs::Adding::StillBegins))]
fn push_file_at(
    text: &mut Vec<u8>,
    files: &FileTable,
    at: usize,
) -> Result<Option<FilesCursor>, AllocError>
    ensures line { IfOk result (AddsLine files.now (FilesCursor.File at) text.old text.new) }
    ensures refused { OnErr result (0 < length (lines_from files.now (FilesCursor.File at))) }
    ensures kept { StillBegins text.old text.new }
{
    if at >= files.count() {
        return Ok(None);
    }
    let file = files.file(at);
    push_file_line(text, files.name(at), file.shape(), file.look())?;
    Ok(Some(FilesCursor::Record(at, 0)))
}

/// Appends the line of a file's first record from a number on, or of the next file, and returns the next position.
#[tactic(auto, unfolding(texts::specs::Adding::StillBegins))]
fn push_record_from(
    text: &mut Vec<u8>,
    files: &FileTable,
    at: usize,
    from: u32,
) -> Result<Option<FilesCursor>, AllocError>
    ensures line { IfOk result (AddsLine files.now (FilesCursor.Record at from) text.old text.new) }
    ensures refused { OnErr result
        (0 < length (lines_from files.now (FilesCursor.Record at from))) }
    ensures kept { StillBegins text.old text.new }
{
    if at >= files.count() {
        return Ok(None);
    }
    match first_record(files.file(at), from) {
        Some((number, body)) => {
            push_record(text, number, body)?;
            Ok(Some(FilesCursor::Record(at, number + 1)))
        }
        None => push_file_at(text, files, at + 1),
    }
}

/// Appends the line at a position in the listing of all files, and returns the position of the next one. Where all
/// lines are before it, nothing is appended.
#[tactic(auto, unfolding(texts::specs::Adding::StillBegins))]
pub fn push_files_line(
    text: &mut Vec<u8>,
    files: &FileTable,
    cursor: FilesCursor,
) -> Result<Option<FilesCursor>, AllocError>
    ensures line { IfOk result (AddsLine files.now cursor text.old text.new) }
    ensures refused { OnErr result (0 < length (lines_from files.now cursor)) }
    ensures kept { StillBegins text.old text.new }
{
    match cursor {
        FilesCursor::File(at) => push_file_at(text, files, at),
        FilesCursor::Record(at, from) => push_record_from(text, files, at, from),
    }
}

/// Appends the lines of all files, in the order in which they were made.
#[tactic(auto, unfolding(texts::specs::Adding::StillBegins))]
pub fn push_files(text: &mut Vec<u8>, files: &FileTable) -> Result<(), AllocError>
    ensures added { OnOk result (Adds text.old text.new (files_text files.now)) }
    ensures kept { StillBegins text.old text.new }
{
    let mut cursor = FilesCursor::File(0);
    while let Some(next) = push_files_line(text, files, cursor)? {
        cursor = next;
    }
    Ok(())
}
