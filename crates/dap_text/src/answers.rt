//! The words for what became of a packet, and for a request that isn't asked.

ghost use Rattle.std.specs.Prelude.{◌≡◌, option_copied};
ghost use Rattle.dap_text.specs.Answers.{ask_text, got_text};

use dap_accessing::AskFault;
use nsp_link::Got;

/// Returns the word for a packet that a link end takes.
pub fn got_word(got: Got) -> &'static str
    ensures { result.now ≡ got_text got }
{
    match got {
        Got::Accepted => "accepted",
        Got::Repeat => "repeat",
        Got::Early => "early",
        Got::AckOnly => "ack-only",
    }
}

/// Returns the word for a request that is not asked; out of memory has none.
pub fn ask_word(fault: AskFault) -> Option<&'static str>
    ensures { option_copied result ≡ ask_text fault }
{
    match fault {
        AskFault::Failed => Some("ask-failed"),
        AskFault::Busy => Some("ask-busy"),
        AskFault::WrongPhase => Some("ask-phase"),
        AskFault::TooLarge => Some("ask-too-large"),
        AskFault::NoMemory => None,
    }
}
