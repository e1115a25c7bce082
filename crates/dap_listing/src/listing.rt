//! The listing of an input: of packets, or of NSP messages.

ghost use Rattle.std.specs.Prelude.{◌≡◌, ◌≢◌, ◌≤◌, ◌<◌, ◌*◌, ◌^◌, ◌⊎◌, [], IfErr, IfOk, IfSome, IsErrOf, Ok, OnOk, Some, length, option_map, true};
ghost use Rattle.linewise.specs.Firsts.{IsFirst};
ghost use Rattle.linewise.specs.Gives.{TakesAnInput, TakesWithinLimit};
ghost use Rattle.linewise.specs.declared.fault.CaptureFault.TheVariants.{NoMemory, ReadFailed, TooLarge, WriteFailed};
ghost use Rattle.texts.specs.Adding.{AddsSome};
ghost use Rattle.texts.specs.Words.{is_hex_text as is_spelled};
ghost use Rattle.dap_listing.specs.Lines.{digits_line, line_of};
ghost use Rattle.dap_listing.specs.Listing.{IsCapturedText, faults_from, line_limit};
ghost use Rattle.dap_listing.specs.Inner.Adding.{AddsCapture};
ghost use Rattle.dap_listing.specs.Inner.Lines.{fault_of_line};
ghost use Rattle.dap_listing.specs.Inner.Texts.{IsListing, TextGives};

use crate::captures::{MAX_PACKET, push_heading};
use crate::lines::{Direction, Head, parse_head};
use crate::message::push_messages;
use crate::packet::push_packet;
use dap_msg::MAX_MESSAGE;
use linewise::{CaptureFault, MAX_INPUT, next_line, read_input};
use std::alloc::{AllocError, Global};
use std::io::Read;
use texts::{decode_hex, is_hex_text, push_number, push_str};

/// What the lines of an input hold, as the contracts of [`crate::show`] and [`crate::messages`] say it.
#[derive(Clone, Copy, PartialEq, Eq)]
pub enum Listed {
    /// NSP packets.
    Packets,
    /// NSP messages.
    Messages,
}

impl Listed {
    /// Returns the maximum of the bytes that a line has in hex.
    pub(crate) fn limit(self) -> usize
        ensures { result ≡ line_limit self }
    {
        match self {
            Listed::Packets => MAX_PACKET,
            Listed::Messages => MAX_MESSAGE as usize,
        }
    }
}

/// Checks the digits of the line with this number: refuses what are no hex digits of bytes, and more than `limit`
/// bytes.
fn check_digits(number: usize, digits: &[u8], limit: usize) -> Result<(), CaptureFault>
    requires { limit < 2 ^ 32 }
    ensures good { OnOk result ((direction : Direction)
        → digits_line limit direction digits.now ≡ Ok (Some (direction, digits.now))) }
    ensures hex { OnOk result (is_spelled digits.now ≡ true) }
    ensures short { OnOk result (length digits.now ≤ 2 * limit) }
    ensures fault { IfErr result (λ fault. (direction : Direction)
        → fault_of_line number (digits_line limit direction digits.now) ≡ Some fault) }
{
    if !is_hex_text(digits) {
        return Err(CaptureFault::BadLine(number));
    }
    if digits.len() > 2 * limit {
        return Err(CaptureFault::TooLarge);
    }
    Ok(())
}

/// Returns what the line with this number captured: the direction, and the hex digits of at most this many bytes.
pub(crate) fn read_line(
    number: usize,
    line: &[u8],
    limit: usize,
) -> Result<Option<(Direction, &[u8])>, CaptureFault>
    requires { limit < 2 ^ 32 }
    ensures says { IfOk result (λ read.
        line_of limit line.now ≡ Ok (option_map (λ has. (has.0, has.1.now)) read)) }
    ensures hex { IfOk result
        (λ read. IfSome read (λ has. is_spelled has.1.now ≡ true)) }
    ensures short { IfOk result (λ read. IfSome read (λ has. length has.1.now ≤ 2 * limit)) }
    ensures fault { IfErr result
        (λ fault. fault_of_line number (line_of limit line.now) ≡ Some fault) }
{
    match parse_head(line) {
        Head::Skipped => Ok(None),
        Head::Digits(direction, digits) => {
            check_digits(number, digits, limit)?;
            Ok(Some((direction, digits)))
        }
        Head::Malformed => Err(CaptureFault::BadLine(number)),
    }
}

/// Appends what the lines of an NSP message say after its number and direction.
fn push_message(text: &mut Vec<u8>, bytes: &[u8]) -> Result<(), AllocError>
    ensures { OnOk result (AddsSome text.old text.new
        (IsCapturedText Listed.Messages bytes.now)) }
{
    push_number(text, "message len=", bytes.len())?;
    push_str(text, "\n")?;
    push_messages(text, bytes, false)
}

/// Appends what the lines of captured bytes say after their number and direction.
fn push_captured(listed: Listed, text: &mut Vec<u8>, bytes: &[u8]) -> Result<(), AllocError>
    ensures { OnOk result (AddsSome text.old text.new (IsCapturedText listed bytes.now)) }
{
    match listed {
        Listed::Packets => push_packet(text, bytes),
        Listed::Messages => push_message(text, bytes),
    }
}

/// Room for the words and numbers of a line.
const WORDS: usize = 256;

/// Appends the lines of the bytes that the digits spell. Room in the text is made once: for the digits and the words.
/// The other room is for the bytes.
fn push_capture(
    listed: Listed,
    text: &mut Vec<u8>,
    number: usize,
    direction: Direction,
    digits: &[u8],
    room: &mut [u8],
) -> Result<(), AllocError>
    requires digits { is_spelled digits.now ≡ true }
    requires room { length digits.now ≤ 2 * length room.old }
    requires size { length digits.now < 2 ^ 32 }
    ensures room { length room.new ≡ length room.old }
    ensures added { OnOk result
        (AddsCapture listed number direction digits.now text.old text.new) }
{
    text.reserve(digits.len() + WORDS)?;
    push_heading(text, number, direction)?;
    let bytes = &mut room[..digits.len() / 2];
    decode_hex(digits, bytes);
    push_captured(listed, text, bytes)
}

/// Checks the lines of an input. `BadLine` or `TooLarge`: the first line at fault. Takes no memory.
pub fn check_lines(listed: Listed, input: &[u8]) -> Result<(), CaptureFault>
    requires { length input.now ≤ MAX_INPUT }
    ensures good { OnOk result (faults_from (line_limit listed) 1 input.now ≡ []) }
    ensures fault { IfErr result (IsFirst (faults_from (line_limit listed) 1 input.now)) }
{
    let mut at = 1;
    let mut rest = input;
    while let Some((line, after)) = next_line(rest) {
        read_line(at, line, listed.limit())?;
        at += 1;
        rest = after;
    }
    Ok(())
}

/// Returns the listing of an input up to its first line at fault. There is one room for the bytes of each line.
fn list_lines(listed: Listed, alloc: Global, input: &[u8]) -> Result<Vec<u8>, CaptureFault>
    requires { length input.now ≤ MAX_INPUT }
    ensures whole { IfOk result (λ text. IsListing listed input.now text.items) }
    ensures clean { OnOk result (faults_from (line_limit listed) 1 input.now ≡ []) }
    ensures fault { IfErr result (λ fault. (fault ≡ NoMemory)
        ⊎ IsFirst (faults_from (line_limit listed) 1 input.now) fault) }
{
    let mut text = Vec::new(alloc);
    let mut room = vec![in alloc; 0; listed.limit()]?;
    let mut number = 1;
    let mut at = 1;
    let mut rest = input;
    while let Some((line, after)) = next_line(rest) {
        match read_line(at, line, listed.limit())? {
            None => {}
            Some((direction, digits)) => {
                push_capture(listed, &mut text, number, direction, digits, &mut room)?;
                number += 1;
            }
        }
        at += 1;
        rest = after;
    }
    Ok(text)
}

/// Returns the listing of an input. A line at fault is reported also where memory was refused before it.
fn list_checked(listed: Listed, alloc: Global, input: &[u8]) -> Result<Vec<u8>, CaptureFault>
    requires { length input.now ≤ MAX_INPUT }
    ensures gives { TextGives listed input.now result }
    ensures unwritten { IfErr result (λ fault. (fault ≢ WriteFailed) × (fault ≢ ReadFailed)) }
{
    match list_lines(listed, alloc, input) {
        Err(CaptureFault::NoMemory) => {
            check_lines(listed, input)?;
            Err(CaptureFault::NoMemory)
        }
        given => given,
    }
}

/// Returns the listing of what was captured in an input, which is read to its end. Out of memory for the text is
/// reported where no line is at fault.
pub(crate) fn list_input<R: Read>(
    listed: Listed,
    alloc: Global,
    reader: &mut R,
) -> Result<Vec<u8>, CaptureFault>
    ensures gives { IfSome (R.remaining reader.old) (λ input. TextGives listed input result) }
    ensures taken { TakesWithinLimit (R.remaining reader.old) (R.remaining reader.new) }
    ensures within { (IsErrOf result TooLarge → ⊥)
        → TakesAnInput (R.remaining reader.old) (R.remaining reader.new) }
    ensures unwritten { IfErr result (λ fault. fault ≢ WriteFailed) }
{
    let input = read_input(alloc, reader)?;
    list_checked(listed, alloc, &input)
}
