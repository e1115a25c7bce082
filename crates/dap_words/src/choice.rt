//! The command that words name.
ghost use Rattle.std.specs.Prelude.{◌≡◌, IfErr, IfOk, map, string_bytes};
ghost use Rattle.clap.specs.Words.{FailsBy, kind_of, fault_of};
ghost use Rattle.dap_words.specs.Inner.CommandLine.{HasOneMore, IsDapnspLine};
ghost use Rattle.dap_words.specs.Choosing.{Chooses, dapnsp};

use clap::error::ErrorKind;
use clap::{Command, Error};
use std::alloc::Global;

/// A command of the program.
#[derive(Clone, Copy, PartialEq, Eq)]
pub enum Choice {
    Show,
    Msg,
    Run,
}

const ABOUT: &str =
    "Lists DECnet packets and messages, and plays file accesses. Each command reads standard input.";

const EXAMPLE: &str = "Example: echo '> 600201040305800100060200' | ./dapnsp show";

/// What help says of a command.
#[derive(Clone, Copy)]
struct Help {
    about: &'static str,
    more: &'static str,
}

const SHOW: Help = Help {
    about: "Lists captured NSP packets, and the DAP messages in them",
    more: "\
Reads lines of > or <, for the way that a packet went, a space, and its bytes in hex, at most 4,096.
Empty lines, and lines that begin with #, are skipped.

Example: echo '> 600201040305800100060200' | ./dapnsp show

docs/LISTING.md explains each word of a listing.",
};

const MSG: Help = Help {
    about: "Lists DAP messages that come without packets",
    more: "\
Reads lines of > or <, for the way that an NSP message went, a space, and its bytes in hex, at most 65,535.
Empty lines, and lines that begin with #, are skipped.

Example: echo '< 060200' | ./dapnsp msg

docs/LISTING.md explains each word of a listing.",
};

const RUN: Help = Help {
    about: "Plays requests, losses, repeats and reorderings over both ends of a file access",
    more: "\
Reads a line with the setup, as setup 512 8 1024 1024: the bytes of a segment, the window, both buffers.
Each other line is a request (ask ..) or an event (post, emit, resend, ack, deliver, serve, read).
Empty lines, and lines that begin with #, are skipped.

Example: printf 'setup 512 8 1024 1024\\nask hello\\npost a\\nemit a\\n' | ./dapnsp run

docs/SCHEDULES.md explains each line and each answer.",
};

/// Adds a subcommand to the command line, and what help says of it.
fn with_command<'a>(
    alloc: Global,
    command: Command<'a>,
    name: &'static str,
    help: Help,
) -> Result<Command<'a>, Error>
    ensures added { IfOk result (HasOneMore command.entry name.now) }
    ensures memory { IfErr result (λ error. kind_of error ≡ ErrorKind.OutOfMemory) }
{
    let subcommand = Command::new(alloc, name)
        .about(help.about)
        .after_help(help.more);
    let command = command.subcommand(subcommand)?;
    Ok(command)
}

/// Returns the program's command line.
fn command_line<'a>(alloc: Global) -> Result<Command<'a>, Error>
    ensures line { IfOk result IsDapnspLine }
    ensures memory { IfErr result (λ error. kind_of error ≡ ErrorKind.OutOfMemory) }
{
    let command = Command::new(alloc, "dapnsp")
        .about(ABOUT)
        .after_help(EXAMPLE)
        .subcommand_required(true)
        .disable_help_subcommand(true);
    let command = with_command(alloc, command, "show", SHOW)?;
    let command = with_command(alloc, command, "msg", MSG)?;
    with_command(alloc, command, "run", RUN)
}

/// Reads the command that the words name, the program's name first.
///
/// Refused: what `clap` finds wrong with them, help, and out of memory.
pub fn read_words<'a>(alloc: Global, words: &'a [String]) -> Result<Choice, Error>
    ensures chosen { IfOk result (Chooses (map string_bytes words.entry.now)) }
    ensures kinds { FailsBy (fault_of dapnsp (map string_bytes words.entry.now)) result }
{
    let command = command_line(alloc)?;
    let matches = command.try_get_matches_from(words)?;
    match matches.subcommand_name() {
        Some("show") => Ok(Choice::Show),
        Some("msg") => Ok(Choice::Msg),
        Some("run") => Ok(Choice::Run),
        _ => unreachable!(),
    }
}
