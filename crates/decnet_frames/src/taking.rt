//! The packets of a capture, and what takes them.

ghost use Rattle.std.specs.Prelude.{◌≡◌, ⊤, [], List, ℕ, OnOk};

use crate::addresses::Nodes;
use dap_listing::Direction;
use std::alloc::AllocError;

/// A packet of a capture: its way; the bytes `frame N TIME`, or nothing where no frame is known; the nodes that sent
/// and receive it, where they are known; and its own bytes, of which there are at most 4,096.
#[derive(Clone, Copy)]
pub struct Found<'a> {
    pub way: Direction,
    pub frame: &'a [u8],
    pub nodes: Option<Nodes>,
    pub packet: &'a [u8],
}

/// What takes the packets of a capture, one after the other.
pub trait Takes {
    ghost use Rattle.decnet_frames.specs.Found.{FoundPacket, found_seen};

    // What it may come to by a packet, and the text that it makes of it.
    ghost taken: { Self → FoundPacket → Self → List ℕ → Type 0 };

    /// Takes a packet, and puts its text into the vector, which comes empty. Fails only if memory is refused; what is
    /// in the vector then is written nowhere, and the taker is given no packet more.
    fn take(&mut self, text: &mut Vec<u8>, found: &Found<'_>) -> Result<(), AllocError>
        requires { text.old.items ≡ [] }
        ensures { OnOk result (taken self.old (found_seen found.now) self.new text.new.items) };
}
