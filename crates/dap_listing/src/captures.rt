//! The captured packet of a line, and its heading.

ghost use Rattle.std.specs.Prelude.{◌≡◌, ◌≤◌, ◌*◌, IfErr, IfOk, IfSome, Ok, OnOk, Some, length, option_map, true};
ghost use Rattle.std.specs.Result.{result_err};
ghost use Rattle.texts.specs.Adding.{Adds, StillBegins};
ghost use Rattle.texts.specs.Words.{is_hex_text};
ghost use Rattle.dap_listing.specs.Lines.{line_of};
ghost use Rattle.dap_listing.specs.Listing.{arrow_text, heading, packet_limit};

use crate::lines::Direction;
use crate::listing::{Listed, read_line};
use linewise::CaptureFault;
use std::alloc::AllocError;
use texts::{push_decimal, push_str};

/// The maximum of a packet in a capture, in bytes.
pub const MAX_PACKET: usize = 4096;

/// Returns the captured packet of a line, which comes without its line feed: its direction and the hex digits of its
/// bytes; None where the line is skipped. Takes no memory.
///
/// Refused: `BadLine`, with this number, where the line isn't one of a capture; `TooLarge`, where its packet is too
/// long.
pub fn line_packet(number: usize, line: &[u8]) -> Result<Option<(Direction, &[u8])>, CaptureFault>
    ensures says { IfOk result (λ read.
        line_of packet_limit line.now ≡ Ok (option_map (λ has. (has.0, has.1.now)) read)) }
    ensures hex { IfOk result (λ read. IfSome read (λ has. is_hex_text has.1.now ≡ true)) }
    ensures short { IfOk result (λ read. IfSome read
        (λ has. length has.1.now ≤ 2 * packet_limit)) }
    ensures fault { IfErr result (λ fault.
        option_map (λ kind. kind number) (result_err (line_of packet_limit line.now))
        ≡ Some fault) }
{
    read_line(number, line, Listed::Packets.limit())
}

/// Returns the sign of a direction.
pub fn arrow(direction: Direction) -> &'static str
    ensures { result.now ≡ arrow_text direction }
{
    match direction {
        Direction::Right => ">",
        Direction::Left => "<",
    }
}

/// Appends the number of what was captured, and its direction. Fails only if memory is refused.
#[tactic(auto, unfolding(texts::specs::Adding::StillBegins))]
pub fn push_heading(
    text: &mut Vec<u8>,
    number: usize,
    direction: Direction,
) -> Result<(), AllocError>
    ensures added { OnOk result (Adds text.old text.new (heading number direction)) }
    ensures kept { StillBegins text.old text.new }
{
    push_decimal(text, number)?;
    push_str(text, " ")?;
    push_str(text, arrow(direction))?;
    push_str(text, " ")
}
