//! Bytes as text.

ghost use Rattle.std.specs.Prelude.{◌≡◌, OnOk, take};
ghost use Rattle.std.specs.List.{flat_map, list_all};
ghost use Rattle.texts.specs.Adding.{Adds, StillBegins};
ghost use Rattle.dap_meanings.specs.Quoted.{closing, escaped_byte, max_quoted, is_printable as printable, quote, quoted_bytes as quoted_words};
ghost use Rattle.dap_meanings.specs.Words.{word_list};

use crate::words::Word;
use std::alloc::AllocError;
use texts::push_str;

/// The maximum number of bytes that are quoted.
const MAX_QUOTED: usize = 60;

/// Returns whether a byte is a space or a visible character of ASCII.
fn is_printable(byte: u8) -> bool
    ensures { result ≡ printable byte }
{
    b' ' <= byte && byte <= b'~'
}

/// Returns whether all bytes are printable.
pub fn are_printable(bytes: &[u8]) -> bool
    ensures { result ≡ list_all printable bytes.now }
{
    for byte in bytes {
        if !is_printable(*byte) {
            return false;
        }
    }
    true
}

/// Returns what bytes say as text, if all are printable.
pub(crate) fn quoted(bytes: &[u8]) -> Word<'_>
    ensures { word_list result ≡ quoted_words bytes.now }
{
    if are_printable(bytes) {
        Word::Quoted(bytes)
    } else {
        Word::Nothing
    }
}

/// Appends bytes, with a backslash before each quote and each backslash.
#[tactic(auto, unfolding(texts::specs::Adding::StillBegins))]
fn push_escaped(text: &mut Vec<u8>, bytes: &[u8]) -> Result<(), AllocError>
    ensures added { OnOk result (Adds text.old text.new (flat_map escaped_byte bytes.now)) }
    ensures kept { StillBegins text.old text.new }
{
    for byte in bytes {
        if *byte == b'"' || *byte == b'\\' {
            push_str(text, "\\")?;
        }
        text.push(*byte)?;
    }
    Ok(())
}

/// Returns the first bytes, as many as are quoted.
fn first_bytes(bytes: &[u8]) -> &[u8]
    ensures { result.now ≡ take max_quoted bytes.now }
{
    if bytes.len() <= MAX_QUOTED {
        bytes
    } else {
        &bytes[..MAX_QUOTED]
    }
}

/// Appends the quote at the end, and two dots where there are more bytes.
#[tactic(auto, unfolding(texts::specs::Adding::StillBegins))]
fn push_closing(text: &mut Vec<u8>, bytes: &[u8]) -> Result<(), AllocError>
    ensures added { OnOk result (Adds text.old text.new (closing bytes.now)) }
    ensures kept { StillBegins text.old text.new }
{
    if bytes.len() > MAX_QUOTED {
        push_str(text, "\"..")
    } else {
        push_str(text, "\"")
    }
}

/// Appends the first bytes in quotes.
#[tactic(auto, unfolding(texts::specs::Adding::StillBegins))]
pub(crate) fn push_quote(text: &mut Vec<u8>, bytes: &[u8]) -> Result<(), AllocError>
    ensures added { OnOk result (Adds text.old text.new (quote bytes.now)) }
    ensures kept { StillBegins text.old text.new }
{
    push_str(text, "\"")?;
    push_escaped(text, first_bytes(bytes))?;
    push_closing(text, bytes)
}
