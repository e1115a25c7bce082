//! The program over any reader and writers.

ghost use Rattle.std.specs.Prelude.{◌≡◌, ◌≢◌, ◌≤◌, ◌<◌, ◌^◌, ◌⊎◌, ◌∷◌, ℕ, List, [], IfSome, None, Some, if◌then◌else◌, map, string_bytes};
ghost use Rattle.std.specs.Io.KnownBytes.{Keeps};
ghost use Rattle.clap.specs.Words.{fault_of};
ghost use Rattle.linewise.specs.Output.{WritesFront};
ghost use Rattle.linewise.specs.Gives.{TellsFault};
ghost use Rattle.linewise.specs.Mistakes.{AreMistakes};
ghost use Rattle.linewise.specs.declared.fault.CaptureFault.TheVariants.{NoMemory};
ghost use Rattle.dap_accessed.specs.Setup.{IsServerSetup};
ghost use Rattle.dap_msg.specs.BothEnds.{min_buffer};
ghost use Rattle.dap_msg.specs.Fitting.{FieldsFit};
ghost use Rattle.dap_msg.specs.declared.message.Message.TheVariants.{Config};
ghost use Rattle.live_cli.specs.declared.words.Options.{Options as TheOptions};
ghost use Rattle.live_cli.specs.declared.words.Role.TheVariants as role;
ghost use Rattle.live_cli.specs.declared.words.Role.{Role as TheRole};
ghost use Rattle.live_cli.specs.Running.{AnswersAll, EndGives, GivesAs, ServesLines, identity_of, server_of, link_setup};
ghost use Rattle.live_cli.specs.Words.{capture_hint, daplive, end_named, usual};

use crate::words::{Misspelt, Options, Role, capture_hint, read_words};
use clap::error::ErrorKind;
use dap_accessed::{ALL_RIGHTS, Names, ServerSetup};
use dap_live::{Asking, Node};
use dap_msg::Configuration;
use linewise::{Answers, CaptureFault, refuse, talk, tell_fault, write_text};
use nsp_link::{LinkFault, LinkSetup, MAX_LIMIT};
use std::alloc::Global;
use std::fmt::Display;
use std::io::{BufRead, Write};

/// Returns how the link is set up: the limit of a message is any length that a buffer may have.
fn link_setup(options: Options) -> LinkSetup
    ensures { result ≡ link_setup options }
{
    LinkSetup {
        local: options.local,
        remote: options.remote,
        seg_size: options.segment as usize,
        window: options.window as usize,
        max_message: MAX_LIMIT,
    }
}

/// Reports why there is no end, or no more of it, and returns the exit status.
fn tell<D: Display + Drop, E: Write>(why: D, error_writer: &mut E) -> u8
    ensures { result ≡ 3 }
{
    let _ = writeln!(error_writer, "{why}");
    3
}

/// Returns the exit status of a conversation over all lines.
fn status(bad: bool) -> u8
    ensures { result ≡ (if bad then 1 else 0) }
{
    if bad { 1 } else { 0 }
}

/// Answers the lines of the input.
fn converse<A: Answers, R: BufRead, W: Write, E: Write>(
    alloc: Global,
    end: &mut A,
    reader: &mut R,
    writer: &mut W,
    error_writer: &mut E,
) -> u8
    ensures { IfSome (R.remaining reader.old)
        (λ input. AnswersAll A.answered A.waiting end.old input
        (R.remaining reader.new) (W.contents writer.old) (W.contents writer.new) result) }
{
    match talk(alloc, end, reader, writer, error_writer) {
        Ok(bad) => status(bad),
        Err(fault) => tell(fault, error_writer),
    }
}

/// Reports why an end isn't made, and returns the exit status.
fn no_end<E: Write>(_fault: LinkFault, error_writer: &mut E) -> u8
    ensures status { result ≡ 3 }
    ensures told { TellsFault NoMemory
        (E.contents error_writer.old) (E.contents error_writer.new) }
{
    tell_fault(CaptureFault::NoMemory, error_writer)
}

/// Returns what an end says of itself.
fn identity(options: Options) -> Configuration
    requires { options.syscap < 2 ^ 84 }
    ensures is { result ≡ identity_of options }
    ensures fits { FieldsFit (Config (identity_of options)) }
{
    Configuration {
        ostype: options.ostype,
        filesys: options.filesys,
        syscap: options.syscap,
        ..Configuration::plain(options.buffer)
    }
}

/// Returns how the server is set up.
fn server_setup(options: Options) -> ServerSetup
    requires room { min_buffer ≤ options.buffer }
    requires syscap { options.syscap < 2 ^ 84 }
    ensures is { result ≡ server_of options }
    ensures fits { IsServerSetup (server_of options) }
{
    ServerSetup {
        identity: identity(options),
        names: options.names,
        most: ALL_RIGHTS,
        full: true,
    }
}

/// Answers the lines of the input by a server of one link or several, and returns the exit status.
fn serve<R: BufRead, W: Write, E: Write>(
    alloc: Global,
    options: Options,
    reader: &mut R,
    writer: &mut W,
    error_writer: &mut E,
) -> u8
    requires room { min_buffer ≤ options.buffer }
    requires syscap { options.syscap < 2 ^ 84 }
    ensures { IfSome (R.remaining reader.old) (λ input. ServesLines options input
        (R.remaining reader.new) (W.contents writer.old) (W.contents writer.new) result
        ⊎ (Keeps (W.contents writer.old) (W.contents writer.new) × (result ≡ 3)
        × TellsFault NoMemory (E.contents error_writer.old) (E.contents error_writer.new))) }
{
    let most_waiting = u64::from(options.waiting);
    let links = options.links as usize;
    match Node::new(
        alloc,
        server_setup(options),
        links,
        link_setup(options),
        most_waiting,
    ) {
        Ok(mut node) => converse(alloc, &mut node, reader, writer, error_writer),
        Err(fault) => no_end(fault, error_writer),
    }
}

/// Answers the lines of the input by a client, and returns the exit status.
fn ask<R: BufRead, W: Write, E: Write>(
    alloc: Global,
    options: Options,
    reader: &mut R,
    writer: &mut W,
    error_writer: &mut E,
) -> u8
    requires room { min_buffer ≤ options.buffer }
    requires syscap { options.syscap < 2 ^ 84 }
    ensures { IfSome (R.remaining reader.old) (λ input. GivesAs role.Ask options input
        (R.remaining reader.new) (W.contents writer.old) (W.contents writer.new) result
        ⊎ (Keeps (W.contents writer.old) (W.contents writer.new) × (result ≡ 3)
        × TellsFault NoMemory (E.contents error_writer.old) (E.contents error_writer.new))) }
{
    match Asking::new(alloc, identity(options), link_setup(options)) {
        Ok(mut end) => converse(alloc, &mut end, reader, writer, error_writer),
        Err(fault) => no_end(fault, error_writer),
    }
}

/// Answers the lines of the input by an end that is set up so, a server with room for several links by one that begins
/// without a link, and returns the exit status: 0, or 1 where some line was none of the end's; 3 where the reader or
/// the writer failed, or memory was refused before the first line.
pub fn run_options<R: BufRead, W: Write, E: Write>(
    alloc: Global,
    options: Options,
    reader: &mut R,
    writer: &mut W,
    error_writer: &mut E,
) -> u8
    requires room { min_buffer ≤ options.buffer }
    requires syscap { options.syscap < 2 ^ 84 }
    ensures { IfSome (R.remaining reader.old) (λ input. EndGives options input
        (R.remaining reader.new) (W.contents writer.old) (W.contents writer.new)
        (E.contents error_writer.old) (E.contents error_writer.new) result) }
{
    match options.role {
        Role::Serve => serve(alloc, options, reader, writer, error_writer),
        Role::Ask => ask(alloc, options, reader, writer, error_writer),
    }
}

/// Reports which address or number isn't spelled as it has to be.
fn refuse_word<E: Write>(misspelt: Misspelt<'_>, error_writer: &mut E) -> u8
    ensures { result ≡ 2 }
{
    let _ = writeln!(error_writer, "daplive: {misspelt}");
    2
}

/// Tells which program lists captures, and returns the exit status. It takes no memory.
fn tell_hint<E: Write>(hint: &str, error_writer: &mut E) -> u8
    ensures status { result ≡ 2 }
    ensures told { WritesFront (E.contents error_writer.old) (E.contents error_writer.new)
        hint.now }
{
    let _ = write_text(hint.as_bytes(), error_writer);
    2
}

/// Does what the words name, the program's name first, and returns the exit status.
///
/// 0: the input ended, or help was asked for and written. 1: the input ended, and some line was none of the end's. 2: the
/// words name nothing; where they ask for captures, which `dapcap` lists, that is told, which takes no memory. 3: the reader
/// or the writer failed, or memory was refused before the first line. Nothing is read where the words name nothing or ask
/// for help. What is wrong is reported to the error writer, whose failure changes nothing.
pub fn run_words<R: BufRead, W: Write, E: Write>(
    alloc: Global,
    words: &[String],
    reader: &mut R,
    writer: &mut W,
    error_writer: &mut E,
) -> u8
    // The words of clap: what is at fault in a list of words, first things first.
    ensures named { (options : TheOptions)
        → fault_of daplive (map string_bytes words.now) ≡ []
        → end_named (map string_bytes words.now) ≡ Some options
        → IfSome (R.remaining reader.old) (λ input. EndGives options input
        (R.remaining reader.new) (W.contents writer.old) (W.contents writer.new)
        (E.contents error_writer.old) (E.contents error_writer.new) result) }
    ensures usual { (program : List ℕ) (role : TheRole)
        → map string_bytes words.now ≡ program ∷ (usual role).0 ∷ []
        → IfSome (R.remaining reader.old) (λ input. EndGives (usual role).1 input
        (R.remaining reader.new) (W.contents writer.old) (W.contents writer.new)
        (E.contents error_writer.old) (E.contents error_writer.new) result) }
    ensures digits { fault_of daplive (map string_bytes words.now) ≡ []
        → end_named (map string_bytes words.now) ≡ None
        → ((result ≡ 2) ⊎ ((result ≡ 3)
        × TellsFault NoMemory (E.contents error_writer.old) (E.contents error_writer.new)))
        × Keeps (W.contents writer.old) (W.contents writer.new) }
    ensures mistake { AreMistakes (fault_of daplive (map string_bytes words.now))
        → ((result ≡ 2) ⊎ ((result ≡ 3)
        × TellsFault NoMemory (E.contents error_writer.old) (E.contents error_writer.new)))
        × Keeps (W.contents writer.old) (W.contents writer.new) }
    ensures captures { (hint : List ℕ)
        → capture_hint (map string_bytes words.now) ≡ Some hint
        → (result ≡ 2) × Keeps (W.contents writer.old) (W.contents writer.new)
        × WritesFront (E.contents error_writer.old) (E.contents error_writer.new) hint }
    ensures unread { (fault_of daplive (map string_bytes words.now) ≢ [])
        ⊎ (end_named (map string_bytes words.now) ≡ None)
        → R.remaining reader.new ≡ R.remaining reader.old }
    ensures help { fault_of daplive (map string_bytes words.now) ≡ ErrorKind.DisplayHelp ∷ []
        → (result ≡ 0) ⊎ (result ≡ 3) }
    ensures quiet { fault_of daplive (map string_bytes words.now) ≡ ErrorKind.DisplayHelp ∷ []
        → result ≡ 0 → Keeps (E.contents error_writer.old) (E.contents error_writer.new) }
{
    if let Some(hint) = capture_hint(words) {
        return tell_hint(hint, error_writer);
    }
    match read_words(alloc, words) {
        Ok(Ok(options)) => run_options(alloc, options, reader, writer, error_writer),
        Ok(Err(misspelt)) => refuse_word(misspelt, error_writer),
        Err(error) => refuse(alloc, error, writer, error_writer),
    }
}
