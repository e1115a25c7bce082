//! Lines that a command can't read.

ghost use Rattle.std.specs.Prelude.{◌≡◌, IfErr, OnOk};
ghost use Rattle.std.specs.Io.KnownBytes.{Keeps};
ghost use Rattle.linewise.specs.Gives.{TellsFault, status_of};

use capture_file::file_kind;
use dap_capture::{CaptureFault, Outcome};
use dap_words::Choice;
use linewise::finish;
use std::io::Write;

/// Returns the word of a command, and what its lines are those of.
fn command_and_lines(choice: Choice) -> (&'static str, &'static str) {
    match choice {
        Choice::Show => ("show", "a capture"),
        Choice::Msg => ("msg", "a capture"),
        Choice::Run => ("run", "a schedule"),
    }
}

/// Reports what helps with a fault, in a line with the number of the user's line.
fn help<E: Write>(choice: Choice, front: &[u8], fault: CaptureFault, error_writer: &mut E) {
    match (file_kind(front), fault) {
        (Some(kind), CaptureFault::BadLine(_) | CaptureFault::TooLarge) => {
            let _ = writeln!(
                error_writer,
                "dapnsp: line 1: {kind}; dapcap lists it, and dapcap --lines turns it into lines for dapnsp show"
            );
        }
        (None, CaptureFault::BadLine(number)) => {
            let (command, lines) = command_and_lines(choice);
            let _ = writeln!(
                error_writer,
                "dapnsp: line {number}: not a line of {lines}; see dapnsp {command} --help"
            );
        }
        _ => {}
    }
}

/// Returns the exit status of an outcome, whose fault is reported in its line, and after that in one that helps, where
/// a line is at fault or the input is a file of captured frames, of which the first four bytes are given.
pub(crate) fn finish_reading<E: Write>(
    choice: Choice,
    front: &[u8],
    outcome: Result<Outcome, CaptureFault>,
    error_writer: &mut E,
) -> u8
    ensures status { result ≡ status_of outcome }
    ensures quiet { OnOk outcome
        (Keeps (E.contents error_writer.old) (E.contents error_writer.new)) }
    ensures told { IfErr outcome (λ fault. TellsFault fault
        (E.contents error_writer.old) (E.contents error_writer.new)) }
{
    let status = finish(outcome, error_writer);
    if let Err(fault @ (CaptureFault::BadLine(_) | CaptureFault::TooLarge)) = outcome {
        help(choice, front, fault, error_writer);
    }
    status
}
