//! What is told of an input on standard error.

ghost use Rattle.std.specs.Prelude.{◌≡◌, ◌⊎◌, ◌++◌, ℕ, List, OnOk, codes};
ghost use Rattle.linewise.specs.Gives.{TellsFault};
ghost use Rattle.linewise.specs.Output.{WritesFront};
ghost use Rattle.linewise.specs.declared.fault.CaptureFault.TheVariants.{NoMemory};
ghost use Rattle.texts.specs.Adding.{Adds, AddsSome};
ghost use Rattle.cap_cli.specs.Telling.{IsFaultText, IsFileText, TellsOr, counts_text, fault_kind_text, lines_status, lines_text, file_status};

use crate::form::GZIP;
use capture_file::{FaultKind, FileFault};
use decnet_frames::Counts;
use linewise::{CaptureFault, tell_fault, write_text};
use std::alloc::{AllocError, Global};
use std::io;
use std::io::Write;
use texts::{push_number, push_str};

/// How a capture file ended: its fault, if it has one, and how many packets and frames there were.
#[derive(Clone, Copy, Debug, PartialEq, Eq)]
pub struct FileEnd {
    pub fault: Option<FileFault>,
    pub counts: Counts,
}

/// How lines ended: whether one was bad, and how many packets there were.
#[derive(Clone, Copy, Debug, PartialEq, Eq)]
pub struct LinesEnd {
    pub is_bad: bool,
    pub counts: Counts,
}

/// What helps where a line is bad.
const BAD_LINE: &[u8] =
    b"dapcap: a line has > or <, a space and at most 4,096 bytes in hex, or a comment \
after #; see dapcap --help\n";

/// Returns the name of a fault.
fn kind_name(kind: FaultKind) -> &'static str
    ensures { result.now ≡ fault_kind_text kind }
{
    match kind {
        FaultKind::UnknownMagic => "unknown",
        FaultKind::UnknownOrder => "byte-order",
        FaultKind::OtherLink => "link-type",
        FaultKind::BadLength => "length",
        FaultKind::TooLong => "too-long",
        FaultKind::TooManyInterfaces => "interfaces",
        FaultKind::CutShort => "cut-short",
        FaultKind::NoMemory => "no-memory",
    }
}

/// Returns what helps with a fault of an input that begins so.
fn help_of(kind: FaultKind, front: &[u8]) -> &'static str {
    match kind {
        FaultKind::UnknownMagic if front.starts_with(GZIP) => {
            "dapcap: this is compressed: gzip -dc FILE | dapcap\n"
        }
        FaultKind::UnknownMagic => {
            "dapcap: neither a pcap or pcapng file nor lines of a capture; see dapcap --help\n"
        }
        FaultKind::OtherLink => {
            "dapcap: only frames of Ethernet are read: capture on one interface, not on any\n"
        }
        FaultKind::UnknownOrder => "dapcap: the section there doesn't tell its byte order\n",
        FaultKind::BadLength => "dapcap: the block there has a length that none can have\n",
        FaultKind::TooLong => "dapcap: a record or block there has above 262,144 bytes\n",
        FaultKind::TooManyInterfaces => "dapcap: the section there has above 1,024 interfaces\n",
        FaultKind::CutShort => "dapcap: the file ends inside the head, record or block there\n",
        FaultKind::NoMemory => "",
    }
}

/// Appends the line of a fault, and what helps with it.
fn push_fault(text: &mut Vec<u8>, fault: FileFault, front: &[u8]) -> Result<(), AllocError>
    ensures { OnOk result (AddsSome text.old text.new (IsFaultText fault)) }
{
    push_str(text, "bad ")?;
    push_str(text, kind_name(fault.kind))?;
    push_number(text, " at=", fault.at)?;
    push_str(text, "\n")?;
    push_str(text, help_of(fault.kind, front))
}

/// Appends the line of the counts.
fn push_counts(text: &mut Vec<u8>, counts: Counts) -> Result<(), AllocError>
    ensures { OnOk result (Adds text.old text.new (counts_text counts)) }
{
    push_number(text, "taken ", counts.taken)?;
    push_number(text, " passed ", counts.passed)?;
    push_str(text, "\n")
}

/// Appends what is told of a capture file that ended.
fn push_file_end(text: &mut Vec<u8>, end: FileEnd) -> Result<(), AllocError>
    ensures { OnOk result (AddsSome text.old text.new (IsFileText end)) }
{
    match end.fault {
        None => push_counts(text, end.counts),
        Some(fault) => {
            push_fault(text, fault, &[])?;
            push_counts(text, end.counts)
        }
    }
}

/// Appends what is told of lines that ended.
fn push_lines_end(text: &mut Vec<u8>, end: LinesEnd) -> Result<(), AllocError>
    ensures { OnOk result (Adds text.old text.new (lines_text end)) }
{
    if end.counts.taken > 0 {
        return push_str(text, "");
    }
    push_counts(text, end.counts)
}

/// Tells a text, and returns this status. A failure of the error writer changes nothing.
pub(crate) fn tell<E: Write>(text: &[u8], status: u8, error_writer: &mut E) -> u8
    ensures status { result ≡ status }
    ensures told { WritesFront (E.contents error_writer.old) (E.contents error_writer.new)
        text.now }
{
    let _ = write_text(text, error_writer);
    status
}

/// Tells how a capture file ended, and returns the exit status: 0, or 1 where it is at fault; 3 where
/// memory was refused.
pub(crate) fn tell_file_end<E: Write>(alloc: Global, end: FileEnd, error_writer: &mut E) -> u8
    ensures { TellsOr (IsFileText end) (file_status end)
        (E.contents error_writer.old) (E.contents error_writer.new) result }
{
    let mut text = Vec::new(alloc);
    match push_file_end(&mut text, end) {
        Ok(()) => tell(&text, if end.fault.is_some() { 1 } else { 0 }, error_writer),
        Err(_) => tell_fault(CaptureFault::NoMemory, error_writer),
    }
}

/// Tells the fault of an input that begins so, and returns the exit status: 1, or 3 where memory was refused.
pub(crate) fn tell_input_fault<E: Write>(
    alloc: Global,
    fault: FileFault,
    front: &[u8],
    error_writer: &mut E,
) -> u8
    ensures { TellsOr (IsFaultText fault) 1
        (E.contents error_writer.old) (E.contents error_writer.new) result }
{
    let mut text = Vec::new(alloc);
    match push_fault(&mut text, fault, front) {
        Ok(()) => tell(&text, 1, error_writer),
        Err(_) => tell_fault(CaptureFault::NoMemory, error_writer),
    }
}

/// Tells how lines ended, where no packet of them was taken, and returns the exit status: 0, or 1 where one was bad; 3
/// where memory was refused.
pub(crate) fn tell_lines_end<E: Write>(alloc: Global, end: LinesEnd, error_writer: &mut E) -> u8
    ensures { TellsOr (λ text. text ≡ lines_text end) (lines_status end)
        (E.contents error_writer.old) (E.contents error_writer.new) result }
{
    let mut text = Vec::new(alloc);
    match push_lines_end(&mut text, end) {
        Ok(()) => tell(&text, if end.is_bad { 1 } else { 0 }, error_writer),
        Err(_) => tell_fault(CaptureFault::NoMemory, error_writer),
    }
}

/// An error writer that tells of bad lines: after the first line one that helps, and then all others, or none.
#[derive(Drop)]
pub(crate) struct LineTeller<E> {
    writer: E,
    tells_all: bool,
    has_told: bool,
}

impl<E: Write> LineTeller<E> {
    /// Creates one that tells all bad lines, or only the first.
    pub(crate) fn new(writer: E, tells_all: bool) -> Self {
        LineTeller {
            writer,
            tells_all,
            has_told: false,
        }
    }
}

impl<E: Write> Write for LineTeller<E> {
    fn write(&mut self, bytes: &[u8]) -> io::Result<usize> {
        if self.has_told && !self.tells_all {
            return Ok(bytes.len());
        }
        let count = match self.writer.write(bytes) {
            Ok(count) => count,
            Err(error) => return Err(error),
        };
        if !self.has_told && bytes[..count].ends_with(b"\n") {
            self.has_told = true;
            let _ = write_text(BAD_LINE, &mut self.writer);
        }
        Ok(count)
    }

    fn flush(&mut self) -> io::Result<()> {
        self.writer.flush()
    }
}
