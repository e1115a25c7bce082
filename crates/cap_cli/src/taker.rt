//! What takes packets, and has a text after them.

ghost use Rattle.std.specs.Prelude.{ℕ, List, [], refl, IfErr, OnOk};
ghost use Rattle.std.specs.Io.KnownBytes.{Appends};
ghost use Rattle.cap_cli.specs.Inner.Taken.{RestFails};

use dap_follow::{Lister, write_rest};
use decnet_frames::{HexLines, Takes};
use linewise::{CaptureFault, write_text};
use std::alloc::Global;
use std::io::Write;

/// What takes the packets of a capture, and has a text that stands after all of them.
pub(crate) trait Ends: Takes {
    ghost use Rattle.decnet_frames.specs.Found.{FoundPacket, TakesAll};

    // No packet came yet.
    ghost starts: { Self → Type 0 };

    // The text after all packets.
    ghost rest: { Self → List ℕ };

    // What is written of packets, and after them, if it takes them from here on.
    ghost texts: { Self → List FoundPacket → (written rest : List ℕ) → Type 0 };

    /// Writes the text after all packets.
    fn write_end<W: Write>(&self, alloc: Global, writer: &mut W) -> Result<(), CaptureFault>
        ensures whole { OnOk result
            (Appends (W.contents writer.old) (W.contents writer.new) (rest self.now)) }
        ensures fault { IfErr result (λ fault.
            RestFails fault (rest self.now) (W.contents writer.old) (W.contents writer.new)) };

    ghost are_texts: { (first last : Self) (founds : List FoundPacket) (text : List ℕ)
        → starts first → TakesAll Self.taken first founds last text → texts first founds text (rest last) };
}

impl Ends for HexLines {
    ghost use Rattle.cap_cli.specs.Tasks.{AreHexLines};
    ghost use Rattle.cap_cli.specs.Inner.Hex.{are_hex_lines};

    ghost starts = { λ _. Unit {0} };

    ghost rest = { λ _. [] };

    ghost texts = { λ _. AreHexLines };

    fn write_end<W: Write>(&self, _alloc: Global, writer: &mut W) -> Result<(), CaptureFault> {
        write_text(b"", writer)
    }

    ghost are_texts = { λ first last founds text _ takes.
        (are_hex_lines first last founds text takes, refl) };
}

impl Ends for Lister {
    ghost use Rattle.dap_follow.specs.Keeping.Lister.{ListerStarts, rest_of};
    ghost use Rattle.dap_follow.specs.Listed.{PacketsAreListed};
    ghost use Rattle.dap_follow.proofs.ForCallers.{is_listed};

    ghost starts = { ListerStarts };

    ghost rest = { rest_of };

    ghost texts = { λ first. PacketsAreListed first.chosen };

    fn write_end<W: Write>(&self, alloc: Global, writer: &mut W) -> Result<(), CaptureFault> {
        write_rest(alloc, self, writer)
    }

    ghost are_texts = { λ first last founds text starts takes.
        is_listed founds first last text starts takes };
}
