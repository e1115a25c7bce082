//! The parts of lines: a packet with its words, a stream, and what a piece of it has.

ghost use Rattle.std.specs.Prelude.{◌≡◌, ◌++◌, ℕ, List, OnOk};
ghost use Rattle.texts.specs.Adding.{Adds};
ghost use Rattle.dap_meanings.specs.Meanings.{if_there};
ghost use Rattle.link_words.specs.PacketWords.{fault_words, packet_words};
ghost use Rattle.decnet_frames.specs.Found.{found_seen};
ghost use Rattle.dap_follow.specs.Lines.{length_text, packet_line, plain_line, range_text, stream_text};

use crate::segments::ROUND;
use crate::streams::Stream;
use dap_listing::{arrow, push_heading, push_seen};
use decnet_frames::{Found, push_nodes};
use link_words::add_packet_words;
use nsp_seg::{PacketValue, SegFault};
use std::alloc::AllocError;
use texts::{push_number, push_str, push_word};

/// Returns why bytes are no packet, if they are none.
fn fault_of(seen: &Result<PacketValue<'_>, SegFault>) -> Option<SegFault>
    ensures { (bytes : List ℕ)
        → if_there (fault_words bytes) result ≡ packet_words bytes seen.now }
{
    match seen {
        Ok(_) => None,
        Err(fault) => Some(*fault),
    }
}

/// Appends the line of the packet that has the number, without words.
fn push_plain_line(
    text: &mut Vec<u8>,
    number: usize,
    found: &Found<'_>,
    seen: &Result<PacketValue<'_>, SegFault>,
) -> Result<(), AllocError>
    ensures { OnOk result (Adds text.old text.new
        (plain_line number (found_seen found.now) seen.now)) }
{
    push_heading(text, number, found.way)?;
    push_nodes(text, found.nodes)?;
    push_seen(text, seen)
}

/// Appends the line of the packet that has the number; with its words, if these are wanted: what its frame is called,
/// and those of what is no segment: what it does to a link. Fails only if memory is refused.
pub(crate) fn push_packet_line(
    text: &mut Vec<u8>,
    number: usize,
    found: &Found<'_>,
    seen: &Result<PacketValue<'_>, SegFault>,
    in_words: bool,
) -> Result<(), AllocError>
    ensures { OnOk result (Adds text.old text.new
        (packet_line in_words number (found_seen found.now) seen.now)) }
{
    push_plain_line(text, number, found, seen)?;
    if in_words {
        return add_packet_words(text, found.frame, found.packet, fault_of(seen));
    }
    Ok(())
}

/// Appends two sequence numbers.
pub(crate) fn push_range(text: &mut Vec<u8>, from: u64, to: u64) -> Result<(), AllocError>
    ensures { OnOk result (Adds text.old text.new (range_text from to)) }
{
    push_number(text, " seg=", from % ROUND)?;
    push_number(text, "..", to % ROUND)
}

/// Appends the sequence numbers of the first and the last segment, how many bytes they have, and the end of the line.
pub(crate) fn push_piece(
    text: &mut Vec<u8>,
    from: u64,
    to: u64,
    bytes: &[u8],
) -> Result<(), AllocError>
    ensures { OnOk result (Adds text.old text.new (range_text from to ++ length_text bytes.now)) }
{
    push_range(text, from, to)?;
    push_number(text, " len=", bytes.len())?;
    push_str(text, "\n")
}

/// Appends a stream: its way, its nodes where they are known, its receiver and its sender.
pub(crate) fn push_stream(text: &mut Vec<u8>, stream: &Stream) -> Result<(), AllocError>
    ensures { OnOk result (Adds text.old text.new (stream_text stream.now)) }
{
    push_str(text, " ")?;
    push_str(text, arrow(stream.way))?;
    push_str(text, " ")?;
    push_nodes(text, stream.nodes)?;
    push_word(text, "dst=", stream.dst)?;
    push_word(text, " src=", stream.src)
}
