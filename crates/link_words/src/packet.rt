//! The words of a packet's line.

ghost use Rattle.std.specs.Prelude.{◌≡◌, ◌<◌, ◌++◌, length, OnOk};
ghost use Rattle.std.specs.List.{flat_map};
ghost use Rattle.dap_meanings.specs.Meanings.{if_there, with_words, KeepsButEnd};
ghost use Rattle.dap_meanings.specs.Words.{word_list};
ghost use Rattle.link_words.specs.PacketWords.{fault_words, frame_words};

use crate::set_up::set_up_words_of;
use crate::tables;
use dap_meanings::{Word, add_words};
use nsp_seg::SegFault;
use std::alloc::AllocError;

/// Returns what bytes that are no packet of a link's data say: what they do to a link, and what they say of it where
/// they can be read.
fn fault_words_of(packet: &[u8], fault: Option<SegFault>) -> [Word<'_>; 4]
    ensures { flat_map word_list result ≡ if_there (fault_words packet.now) fault }
{
    match fault {
        Some(SegFault::NotHere(flag)) => {
            let [first, second, third] = set_up_words_of(packet);
            [tables::control_packet(flag), first, second, third]
        }
        _ => [Word::Nothing; 4],
    }
}

/// Returns what a frame is called, where that is known.
fn frame_word(frame: &[u8]) -> Word<'_>
    ensures { word_list result ≡ frame_words frame.now }
{
    if frame.is_empty() {
        return Word::Nothing;
    }
    Word::Frame(frame)
}

/// Puts the words of a packet's line before its end, which is that of the text: what its frame is called, or nothing
/// where that is empty; and where it is no segment or acknowledgement, what it does to a link, who asks for which object
/// as which user, and why a link ends, as far as the packet can be read (NSP 4.0.0, control messages; Session Control
/// 1.0.0, connect data; from memory). Passwords and accounts aren't told. `fault` is why it is no segment or
/// acknowledgement. Fails only if memory is refused: then all but that end still stands.
pub fn add_packet_words(
    text: &mut Vec<u8>,
    frame: &[u8],
    packet: &[u8],
    fault: Option<SegFault>,
) -> Result<(), AllocError>
    requires { 0 < length text.old.items }
    ensures words { OnOk result (text.new.items ≡ with_words
        (frame_words frame.now ++ if_there (fault_words packet.now) fault) text.old.items) }
    ensures kept { KeepsButEnd text.old text.new }
{
    let frame = frame_word(frame);
    let [kind, first, second, third] = fault_words_of(packet, fault);
    add_words(text, &[frame, kind, first, second, third])
}
