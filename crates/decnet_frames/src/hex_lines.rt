//! Packets as lines of hex, and takers that write them or nothing.

ghost use Rattle.std.specs.Prelude.{◌≡◌, ◌++◌, OnOk};
ghost use Rattle.texts.specs.Adding.{Adds};
ghost use Rattle.texts.specs.Text.{line_feed};
ghost use Rattle.decnet_frames.specs.HexLines.{comment_line, data_line};
ghost use Rattle.decnet_frames.specs.Origins.{comment_text};

use crate::addresses::{Nodes, push_pair};
use crate::taking::{Found, Takes};
use dap_listing::{Direction, arrow};
use std::alloc::AllocError;
use texts::{push_hex, push_str};

/// A taker that writes each packet as lines of a capture: `# frame N TIME A.N -> A.N` where its frame and its nodes are
/// known, and its sign, a space and its bytes in lower hex digits.
#[derive(Clone, Copy, Debug)]
pub struct HexLines;

/// A taker that writes nothing.
#[derive(Clone, Copy, Debug)]
pub struct Nothing;

/// Appends the line of a comment.
fn push_comment(text: &mut Vec<u8>, frame: &[u8], nodes: Nodes) -> Result<(), AllocError>
    ensures { OnOk result (Adds text.old text.new (comment_text frame.now nodes ++ line_feed)) }
{
    push_str(text, "# ")?;
    text.extend_from_slice(frame)?;
    push_str(text, " ")?;
    push_pair(text, nodes)?;
    push_str(text, "\n")
}

/// Appends the line of a comment, if the frame and the nodes are known.
fn push_origin(text: &mut Vec<u8>, frame: &[u8], nodes: Option<Nodes>) -> Result<(), AllocError>
    ensures { OnOk result (Adds text.old text.new (comment_line frame.now nodes)) }
{
    if frame.is_empty() {
        return Ok(());
    }
    match nodes {
        Some(nodes) => push_comment(text, frame, nodes),
        None => Ok(()),
    }
}

/// Appends the line of a packet.
fn push_data(text: &mut Vec<u8>, way: Direction, packet: &[u8]) -> Result<(), AllocError>
    ensures { OnOk result (Adds text.old text.new (data_line way packet.now)) }
{
    push_str(text, arrow(way))?;
    push_str(text, " ")?;
    push_hex(text, packet)?;
    push_str(text, "\n")
}

impl Takes for HexLines {
    ghost use Rattle.decnet_frames.specs.HexLines.{hex_taken};

    ghost taken = { hex_taken };

    fn take(&mut self, text: &mut Vec<u8>, found: &Found<'_>) -> Result<(), AllocError> {
        push_origin(text, found.frame, found.nodes)?;
        push_data(text, found.way, found.packet)
    }
}

impl Takes for Nothing {
    ghost use Rattle.decnet_frames.specs.HexLines.{nothing_taken};

    ghost taken = { nothing_taken };

    fn take(&mut self, _text: &mut Vec<u8>, _found: &Found<'_>) -> Result<(), AllocError> {
        Ok(())
    }
}
