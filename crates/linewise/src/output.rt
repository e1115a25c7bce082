//! Writing texts and answers.

ghost use Rattle.std.specs.Prelude.{◌≡◌, ◌++◌, OnOk, IfErr, Some, codes};
ghost use Rattle.std.specs.Fmt.{decimal};
ghost use Rattle.std.specs.Io.KnownBytes.{Appends, Keeps};
ghost use Rattle.linewise.specs.Output.{WritesFront};
ghost use Rattle.linewise.specs.Talks.{ending_of, refusal_of};
ghost use Rattle.linewise.specs.Inner.Endings.{waits_text};

use crate::CaptureFault;
use crate::talking::Became;
use itoa::Buffer;
use std::io::Write;

/// Writes a text. A write that fails or takes nothing ends it.
pub(crate) fn write_part<W: Write>(text: &[u8], writer: &mut W) -> Result<(), CaptureFault>
    ensures whole { OnOk result (Appends (W.contents writer.old) (W.contents writer.new) text.now) }
    ensures fault { IfErr result (λ fault. fault ≡ CaptureFault.WriteFailed) }
    ensures front { WritesFront (W.contents writer.old) (W.contents writer.new) text.now }
{
    let mut written = 0;
    while written < text.len() {
        match writer.write(&text[written..]) {
            Ok(0) | Err(_) => return Err(CaptureFault::WriteFailed),
            Ok(count) => written += count,
        }
    }
    Ok(())
}

/// Flushes after what was written.
fn flush<W: Write>(writer: &mut W) -> Result<(), CaptureFault>
    ensures keeps { Keeps (W.contents writer.old) (W.contents writer.new) }
    ensures fault { IfErr result (λ fault. fault ≡ CaptureFault.WriteFailed) }
{
    match writer.flush() {
        Ok(()) => Ok(()),
        Err(_) => Err(CaptureFault::WriteFailed),
    }
}

/// Writes a text, and flushes.
///
/// `WriteFailed`: a write failed or took nothing, or the flush failed; a prefix of the text is written.
pub fn write_text<W: Write>(text: &[u8], writer: &mut W) -> Result<(), CaptureFault>
    ensures whole { OnOk result (Appends (W.contents writer.old) (W.contents writer.new) text.now) }
    ensures fault { IfErr result (λ fault. fault ≡ CaptureFault.WriteFailed) }
    ensures front { WritesFront (W.contents writer.old) (W.contents writer.new) text.now }
{
    write_part(text, writer)?;
    flush(writer)
}

/// Writes a text after another.
fn write_both<W: Write>(first: &[u8], second: &[u8], writer: &mut W) -> Result<(), CaptureFault>
    ensures whole { OnOk result (Appends (W.contents writer.old) (W.contents writer.new)
        (first.now ++ second.now)) }
    ensures fault { IfErr result (λ fault. fault ≡ CaptureFault.WriteFailed) }
    ensures front { WritesFront (W.contents writer.old) (W.contents writer.new)
        (first.now ++ second.now) }
{
    write_part(first, writer)?;
    write_part(second, writer)
}

/// Writes the last line of an answer.
fn write_waits<W: Write>(waits: usize, writer: &mut W) -> Result<(), CaptureFault>
    ensures whole { OnOk result (Appends (W.contents writer.old) (W.contents writer.new)
        (waits_text waits)) }
    ensures fault { IfErr result (λ fault. fault ≡ CaptureFault.WriteFailed) }
    ensures front { WritesFront (W.contents writer.old) (W.contents writer.new) (waits_text waits) }
{
    let mut digits = Buffer::new();
    write_part(b"waits ", writer)?;
    write_both(digits.format(waits).as_bytes(), b"\n", writer)
}

/// Returns the line of a refusal.
fn refusal_line(became: Became) -> &'static [u8]
    ensures { result.now ≡ refusal_of became }
{
    match became {
        Became::Done => b"",
        Became::BadLine => b"refused bad-line\n",
        Became::NoMemory => b"refused no-memory\n",
    }
}

/// Writes the line of a refusal, and the last line.
fn write_count<W: Write>(became: Became, waits: usize, writer: &mut W) -> Result<(), CaptureFault>
    ensures whole { OnOk result (Appends (W.contents writer.old) (W.contents writer.new)
        (ending_of became (Some waits))) }
    ensures fault { IfErr result (λ fault. fault ≡ CaptureFault.WriteFailed) }
    ensures front { WritesFront (W.contents writer.old) (W.contents writer.new)
        (ending_of became (Some waits)) }
{
    write_part(refusal_line(became), writer)?;
    write_waits(waits, writer)
}

/// Writes how an answer ends. It takes no memory.
fn write_ending<W: Write>(
    became: Became,
    waits: Option<usize>,
    writer: &mut W,
) -> Result<(), CaptureFault>
    ensures whole { OnOk result (Appends (W.contents writer.old) (W.contents writer.new)
        (ending_of became waits)) }
    ensures fault { IfErr result (λ fault. fault ≡ CaptureFault.WriteFailed) }
    ensures front { WritesFront (W.contents writer.old) (W.contents writer.new)
        (ending_of became waits) }
{
    match waits {
        Some(count) => write_count(became, count, writer),
        None => write_part(b"", writer),
    }
}

/// Writes an answer.
fn write_parts<W: Write>(
    text: &[u8],
    became: Became,
    waits: Option<usize>,
    writer: &mut W,
) -> Result<(), CaptureFault>
    ensures whole { OnOk result (Appends (W.contents writer.old) (W.contents writer.new)
        (text.now ++ ending_of became waits)) }
    ensures fault { IfErr result (λ fault. fault ≡ CaptureFault.WriteFailed) }
    ensures front { WritesFront (W.contents writer.old) (W.contents writer.new)
        (text.now ++ ending_of became waits) }
{
    write_part(text, writer)?;
    write_ending(became, waits, writer)
}

/// Writes an answer, and flushes.
pub(crate) fn write_answer<W: Write>(
    text: &[u8],
    became: Became,
    waits: Option<usize>,
    writer: &mut W,
) -> Result<(), CaptureFault>
    ensures whole { OnOk result (Appends (W.contents writer.old) (W.contents writer.new)
        (text.now ++ ending_of became waits)) }
    ensures fault { IfErr result (λ fault. fault ≡ CaptureFault.WriteFailed) }
    ensures front { WritesFront (W.contents writer.old) (W.contents writer.new)
        (text.now ++ ending_of became waits) }
{
    write_parts(text, became, waits, writer)?;
    flush(writer)
}
