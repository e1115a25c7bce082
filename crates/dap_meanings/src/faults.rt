//! The lines of bytes that are no packet.

ghost use Rattle.std.specs.Prelude.{◌≡◌, ◌∷◌, [], OnOk};
ghost use Rattle.std.specs.Fmt.{decimal};
ghost use Rattle.std.specs.List.{concat};
ghost use Rattle.texts.specs.Adding.{Adds, StillBegins};
ghost use Rattle.dap_meanings.specs.Faults.{fault_line, flag_text};
ghost use Rattle.texts.specs.Text.{line_feed};

use nsp_seg::{FlagKind, SegFault, flag_kind};
use std::alloc::AllocError;
use texts::{push_number, push_str};

/// Returns the word for a packet that no link end takes.
fn flag_word(kind: FlagKind) -> &'static str
    ensures { result.now ≡ flag_text kind }
{
    match kind {
        FlagKind::LinkService => "link-service",
        FlagKind::Interrupt => "interrupt",
        FlagKind::OtherAck => "other-ack",
        FlagKind::ConnectAck => "connect-ack",
        FlagKind::Control => "control",
        FlagKind::Segment | FlagKind::DataAck | FlagKind::Unknown => "unknown",
    }
}

/// Appends an offset after a word, and ends the line.
#[tactic(auto, unfolding(texts::specs::Adding::StillBegins))]
fn push_offset(text: &mut Vec<u8>, word: &str, at: usize) -> Result<(), AllocError>
    ensures added { OnOk result (Adds text.old text.new
        (concat (word.now ∷ decimal at ∷ line_feed ∷ []))) }
    ensures kept { StillBegins text.old text.new }
{
    push_number(text, word, at)?;
    push_str(text, "\n")
}

/// Appends the line of bytes that are no packet, as a listing has it after their number and direction.
#[tactic(auto, unfolding(texts::specs::Adding::StillBegins))]
pub fn push_packet_fault(text: &mut Vec<u8>, fault: SegFault) -> Result<(), AllocError>
    ensures added { OnOk result (Adds text.old text.new (fault_line fault)) }
    ensures kept { StillBegins text.old text.new }
{
    match fault {
        SegFault::NotHere(flag) => {
            push_str(text, "not-here ")?;
            push_str(text, flag_word(flag_kind(flag)))?;
            push_str(text, "\n")
        }
        SegFault::Truncated(at) => push_offset(text, "bad truncated at=", at),
        SegFault::Trailing(at) => push_offset(text, "bad trailing at=", at),
        SegFault::BadNumber(at) => push_offset(text, "bad number at=", at),
        SegFault::NoMemory => push_str(text, "bad memory\n"),
    }
}
