//! The commands of the program.
ghost use Rattle.std.specs.Prelude.{◌≡◌, ◌≢◌, ◌⊎◌, ◌∷◌, ℕ, List, [], IfSome, map, string_bytes};
ghost use Rattle.std.specs.Io.KnownBytes.{Keeps};
ghost use Rattle.clap.specs.Words.{fault_of};
ghost use Rattle.linewise.specs.Gives.{TellsFault};
ghost use Rattle.linewise.specs.Mistakes.{AreMistakes};
ghost use Rattle.linewise.specs.declared.fault.CaptureFault.TheVariants.{NoMemory};
ghost use Rattle.dap_words.specs.Choosing.{Chooses, dapnsp, word_of};
ghost use Rattle.dap_words.specs.declared.choice.Choice.{Choice};
ghost use Rattle.dap_cli.specs.Run.{CommandGives, RunGives};

use crate::front::Fronted;
use crate::telling::finish_reading;
use clap::error::ErrorKind;
use dap_capture::{CaptureFault, Outcome, messages, schedule, show};
use dap_words::{Choice, read_words};
use linewise::{finish, refuse};
use std::alloc::Global;
use std::io::{Read, Write};

/// Runs a command.
fn run_lines<R: Read, W: Write>(
    alloc: Global,
    choice: Choice,
    reader: &mut R,
    writer: &mut W,
) -> Result<Outcome, CaptureFault>
    ensures { IfSome (R.remaining reader.old)
        (λ input. CommandGives choice input (W.contents writer.old)
        (W.contents writer.new) result) }
{
    match choice {
        Choice::Show => show(alloc, reader, writer),
        Choice::Msg => messages(alloc, reader, writer),
        Choice::Run => schedule(alloc, reader, writer),
    }
}

/// Runs a command, and returns the exit status. Where it helps, what helps with a fault is reported too.
fn run_choice<R: Read, W: Write, E: Write>(
    alloc: Global,
    choice: Choice,
    helps: bool,
    reader: &mut R,
    writer: &mut W,
    error_writer: &mut E,
) -> u8
    ensures gives { IfSome (R.remaining reader.old)
        (λ input. RunGives choice input (W.contents writer.old) (W.contents writer.new)
        (E.contents error_writer.old) (E.contents error_writer.new) result) }
    ensures quiet { result ≡ 0
        → Keeps (E.contents error_writer.old) (E.contents error_writer.new) }
{
    let mut lines = Fronted::new(reader);
    let outcome = run_lines(alloc, choice, &mut lines, writer);
    if helps {
        finish_reading(choice, lines.front(), outcome, error_writer)
    } else {
        finish(outcome, error_writer)
    }
}

/// Runs the command that the words name, the program's name first, and returns the exit status. Where it helps, what
/// helps with a fault is reported too.
fn run_named<R: Read, W: Write, E: Write>(
    alloc: Global,
    words: &[String],
    helps: bool,
    reader: &mut R,
    writer: &mut W,
    error_writer: &mut E,
) -> u8
    ensures named { (program : List ℕ) (choice : Choice)
        → map string_bytes words.now ≡ program ∷ word_of choice ∷ []
        → IfSome (R.remaining reader.old)
        (λ input. RunGives choice input (W.contents writer.old) (W.contents writer.new)
        (E.contents error_writer.old) (E.contents error_writer.new) result) }
    ensures parsed { (choice : Choice)
        → fault_of dapnsp (map string_bytes words.now) ≡ []
        → Chooses (map string_bytes words.now) choice
        → IfSome (R.remaining reader.old)
        (λ input. RunGives choice input (W.contents writer.old) (W.contents writer.new)
        (E.contents error_writer.old) (E.contents error_writer.new) result) }
    ensures mistake { AreMistakes (fault_of dapnsp (map string_bytes words.now))
        → ((result ≡ 2) ⊎ ((result ≡ 3)
        × TellsFault NoMemory (E.contents error_writer.old) (E.contents error_writer.new)))
        × Keeps (W.contents writer.old) (W.contents writer.new) }
    ensures unread { fault_of dapnsp (map string_bytes words.now) ≢ []
        → R.remaining reader.new ≡ R.remaining reader.old }
    ensures alone { (program : List ℕ) → map string_bytes words.now ≡ program ∷ []
        → (result ≡ 2) × Keeps (W.contents writer.old) (W.contents writer.new) }
    ensures help { fault_of dapnsp (map string_bytes words.now) ≡ ErrorKind.DisplayHelp ∷ []
        → (result ≡ 0) ⊎ (result ≡ 3) }
    ensures quiet { result ≡ 0
        → Keeps (E.contents error_writer.old) (E.contents error_writer.new) }
{
    match read_words(alloc, words) {
        Ok(choice) => run_choice(alloc, choice, helps, reader, writer, error_writer),
        Err(error) => {
            let status = refuse(alloc, error, writer, error_writer);
            if words.len() == 1 { 2 } else { status }
        }
    }
}

/// Runs the command that the words name, the program's name first, and returns the exit status.
///
/// 0: all was done, or help was asked for and written. 1: a bad line, an input or a line over its limit, or a schedule
/// that met an event without a step. 2: the words name no command; the writer gets nothing. 3: the reader or the writer
/// failed, or memory ran out; but the program's name alone ends with 2, whatever fails. Nothing is read where the words
/// name no command or ask for help. A fault is reported in one line to the error writer, and so is what is wrong with the
/// words; a failure of the error writer changes nothing.
pub fn run_words<R: Read, W: Write, E: Write>(
    alloc: Global,
    words: &[String],
    reader: &mut R,
    writer: &mut W,
    error_writer: &mut E,
) -> u8
    ensures named { (program : List ℕ) (choice : Choice)
        → map string_bytes words.now ≡ program ∷ word_of choice ∷ []
        → IfSome (R.remaining reader.old)
        (λ input. RunGives choice input (W.contents writer.old) (W.contents writer.new)
        (E.contents error_writer.old) (E.contents error_writer.new) result) }

    // The words of clap: what is at fault in a list of words, first things first.
    ensures parsed { (choice : Choice)
        → fault_of dapnsp (map string_bytes words.now) ≡ []
        → Chooses (map string_bytes words.now) choice
        → IfSome (R.remaining reader.old)
        (λ input. RunGives choice input (W.contents writer.old) (W.contents writer.new)
        (E.contents error_writer.old) (E.contents error_writer.new) result) }
    ensures mistake { AreMistakes (fault_of dapnsp (map string_bytes words.now))
        → ((result ≡ 2) ⊎ ((result ≡ 3)
        × TellsFault NoMemory (E.contents error_writer.old) (E.contents error_writer.new)))
        × Keeps (W.contents writer.old) (W.contents writer.new) }
    ensures unread { fault_of dapnsp (map string_bytes words.now) ≢ []
        → R.remaining reader.new ≡ R.remaining reader.old }
    ensures alone { (program : List ℕ) → map string_bytes words.now ≡ program ∷ []
        → (result ≡ 2) × Keeps (W.contents writer.old) (W.contents writer.new) }
    ensures help { fault_of dapnsp (map string_bytes words.now) ≡ ErrorKind.DisplayHelp ∷ []
        → (result ≡ 0) ⊎ (result ≡ 3) }
    ensures quiet { result ≡ 0
        → Keeps (E.contents error_writer.old) (E.contents error_writer.new) }
{
    run_named(alloc, words, false, reader, writer, error_writer)
}

/// Runs these words as `run_words` does, and reports in one more line what helps with a bad line, or with a file of
/// captured frames in place of lines.
pub fn run_program<R: Read, W: Write, E: Write>(
    alloc: Global,
    words: &[String],
    reader: &mut R,
    writer: &mut W,
    error_writer: &mut E,
) -> u8
    ensures named { (program : List ℕ) (choice : Choice)
        → map string_bytes words.now ≡ program ∷ word_of choice ∷ []
        → IfSome (R.remaining reader.old)
        (λ input. RunGives choice input (W.contents writer.old) (W.contents writer.new)
        (E.contents error_writer.old) (E.contents error_writer.new) result) }
    ensures parsed { (choice : Choice)
        → fault_of dapnsp (map string_bytes words.now) ≡ []
        → Chooses (map string_bytes words.now) choice
        → IfSome (R.remaining reader.old)
        (λ input. RunGives choice input (W.contents writer.old) (W.contents writer.new)
        (E.contents error_writer.old) (E.contents error_writer.new) result) }
    ensures mistake { AreMistakes (fault_of dapnsp (map string_bytes words.now))
        → ((result ≡ 2) ⊎ ((result ≡ 3)
        × TellsFault NoMemory (E.contents error_writer.old) (E.contents error_writer.new)))
        × Keeps (W.contents writer.old) (W.contents writer.new) }
    ensures unread { fault_of dapnsp (map string_bytes words.now) ≢ []
        → R.remaining reader.new ≡ R.remaining reader.old }
    ensures alone { (program : List ℕ) → map string_bytes words.now ≡ program ∷ []
        → (result ≡ 2) × Keeps (W.contents writer.old) (W.contents writer.new) }
    ensures help { fault_of dapnsp (map string_bytes words.now) ≡ ErrorKind.DisplayHelp ∷ []
        → (result ≡ 0) ⊎ (result ≡ 3) }
    ensures quiet { result ≡ 0
        → Keeps (E.contents error_writer.old) (E.contents error_writer.new) }
{
    run_named(alloc, words, true, reader, writer, error_writer)
}
