//! What the words say.

ghost use Rattle.std.specs.Result.{result_ok};
ghost use Rattle.std.specs.Prelude.{◌≡◌, ◌≤◌, false, ◌<◌, ◌^◌, ◌++◌, ◌-◌, ◌∷◌, [], if◌then◌else◌, IfErr, IfOk, IfSome, IsTrue, None, OnErr, OnOk, Some, codes, length, map, option_and_then, option_map, pos, replicate, string_bytes};
ghost use Rattle.std.specs.Int.{from_be_bytes, w128};
ghost use Rattle.hex.specs.Hex.{decode_sized};
ghost use Rattle.clap.specs.Words.{FailsBy, fault_of, first_of, found_of, kind_of, rows_of, rule_of, subcommand_of};
ghost use Rattle.clap.specs.declared.builder.value_parser.ValueParser.TheVariants as parser;
ghost use Rattle.dap_msg.specs.BothEnds.{max_nsp_message, min_buffer};
ghost use Rattle.nsp_link.specs.Limits.{max_segment, max_window};
ghost use Rattle.texts.specs.Words.{short};
ghost use Rattle.dap_live.specs.Orders.{address_of};
ghost use Rattle.file_names.specs.Versions.{max_version};
ghost use Rattle.live_cli.specs.Words.{code_of, compared_of, has_versions, names_by, names_of, syscap_of, daplive, max_waiting, has_address, has_value as is_given_in, is_word as is_in_words, min_waiting, links_of, max_links, option as option_rule, options_of, capture_hint, end_in as end_of_rows, end_named, waiting_of};
ghost use Rattle.live_cli.specs.Inner.CommandLine.{HasAddresses, HasCodes, HasIdentity, HasLimits, HasLinks, HasNames, HasBufferRoom, HasSyscap, HasWaiting, IsDapliveLine, IsEndLine, IsServeLine};
ghost use Rattle.live_cli.specs.Inner.Spelling.{AreRight, IsFirstWrong, IsMisspelt, link_spellings, name_spellings, spellings};

use clap::builder::ValueParser;
use clap::error::ErrorKind;
use clap::parser::ValueSource;
use clap::{Arg, ArgMatches, Command, Error, value_parser};
use dap_accessed::Names;
use dap_live::read_address;
use dap_msg::{MAX_MESSAGE, MIN_BUFFER};
use file_names::MAX_VERSION;
use nsp_link::{MAX_SEGMENT, MAX_WINDOW};
use std::alloc::Global;
use std::fmt;
use std::fmt::Display;
use texts::{is, read_number, read_short};

const ABOUT: &str =
    "A client or a server for DECnet file access, over lines of standard input and output. A bridge carries \
the lines, and has the network and the timers.";

const LINES: &str = "\
Each line is answered before the next is read. Each answer ends with 'waits N': N packets aren't acknowledged yet, and one
more is counted where a line ran out of memory. Empty lines, and those that begin with #, have no answer.

  > HEX                       a packet that arrived: accepted, repeat, early or ack-only; reports; packets to send, each '< HEX'
  resend                      the packets that aren't acknowledged, the oldest first; then what was left to do
  ack                         an acknowledgement of all that arrived
  new [LOCAL REMOTE [BYTES [RIGHTS]]]
                              a new link, with these addresses and segments of at most BYTES; serve keeps its files. RIGHTS, which
                              only serve has: get, put, upd and del with commas between them, - for none, or the number of a FAC
  close LOCAL                 serve --links 2 and more: the link ends; there new, resend and ack name their link by LOCAL
  files                       serve: the files, as the two lines below
  file NAME seq|rel fixed|variable MRS MRN [kept=HEX]
                              serve, before a packet arrived: one file more, without records
    N BODY                    a record of it, after two spaces; names and bodies are hex digits, or - for none
  drop NAME                   serve: the file is removed, unless a link has it open
  ask ..                      ask: hello, create NAME ORG RFM MRS MRN FAC, open NAME FAC, connect, get [key N|rfa N],
                              put [key N] BODY, update BODY, delete, rewind, fetch, fetch each, store BODY ..,
                              continue again|skip|abort, close, purge

Example: echo 'ask hello' | ./daplive ask
  asked 1
  < 60020201010080010001020e0004120d0506000000e6e8f08020
  waits 1";

/// What help says of an end, and the addresses that are usual for it.
struct Usual {
    name: &'static str,
    about: &'static str,
    local: &'static str,
    remote: &'static str,
}

const SERVING: Usual = Usual {
    name: "serve",
    about: "A server: it has the files",
    local: "0202",
    remote: "0101",
};

const ASKING: Usual = Usual {
    name: "ask",
    about: "A client",
    local: "0101",
    remote: "0202",
};

/// Returns an option with a value, and the usual value.
fn option<'a>(
    alloc: Global,
    name: &'static str,
    value: &'static str,
    usual: &'static str,
    help: &'static str,
) -> Arg<'a>
    ensures rule { rule_of result ≡ option_rule name.now usual.now }
    ensures local { result.global ≡ false }
{
    Arg::new(alloc, name)
        .long(name)
        .value_name(value)
        .help(help)
        .default_value(usual)
}

/// Adds the two addresses of an end to a command line.
fn with_addresses<'a>(
    alloc: Global,
    command: Command<'a>,
    usual: &Usual,
) -> Result<Command<'a>, Error>
    ensures added { IfOk result
        (HasAddresses command.entry usual.now.local.now usual.now.remote.now) }
    ensures memory { IfErr result (λ error. kind_of error ≡ ErrorKind.OutOfMemory) }
{
    let local = option(
        alloc,
        "local",
        "HEX4",
        usual.local,
        "This end's link address",
    );
    let remote = option(
        alloc,
        "remote",
        "HEX4",
        usual.remote,
        "The other end's link address",
    );
    let command = command.arg(local)?.arg(remote)?;
    Ok(command)
}

/// Returns an option with a number.
fn number<'a>(
    alloc: Global,
    name: &'static str,
    value: &'static str,
    usual: &'static str,
    help: &'static str,
    range: ValueParser<'a>,
) -> Arg<'a>
    ensures rule { rule_of result
        ≡ record (option_rule name.now usual.now) { parser = Some range.entry } }
    ensures local { result.global ≡ false }
{
    option(alloc, name, value, usual, help).value_parser(range)
}

/// Returns the range of the maximum number of bytes of a segment: 1 to 1,400.
fn segments<'a>() -> ValueParser<'a>
    ensures { result ≡ parser.Signed (pos 1) (pos max_segment) }
{
    value_parser!(u16).range(1..=MAX_SEGMENT as i64)
}

/// Returns the range of the number of segments of a window: 1 to 2,047.
fn windows<'a>() -> ValueParser<'a>
    ensures { result ≡ parser.Signed (pos 1) (pos max_window) }
{
    value_parser!(u16).range(1..=MAX_WINDOW as i64)
}

/// Returns the range of the number of bytes of a buffer: 64 to 65,535.
fn buffers<'a>() -> ValueParser<'a>
    ensures { result ≡ parser.Signed (pos min_buffer) (pos max_nsp_message) }
{
    value_parser!(u16).range(MIN_BUFFER as i64..=MAX_MESSAGE as i64)
}

/// The minimum number of bytes that may wait while an end serves more; the maximum is 1,073,741,824.
const MIN_WAITING: i64 = 64;

const MAX_WAITING: u32 = 1 << 30;

/// How many bytes may wait where nothing is said: 1 MiB.
const USUAL_WAITING: u32 = 1 << 20;

/// Returns the range of the number of bytes that may wait.
fn waitings<'a>() -> ValueParser<'a>
    ensures { result ≡ parser.Signed (pos min_waiting) (pos max_waiting) }
{
    value_parser!(u32).range(MIN_WAITING..=MAX_WAITING as i64)
}

/// The maximum number of links that a server may have room for.
const MAX_LINKS: i64 = 1023;

/// The maximum OSTYPE and FILESYS.
const MAX_CODE: u32 = 255;

/// Returns the range of the number of versions that are kept.
fn kept_counts<'a>() -> ValueParser<'a>
    ensures { result ≡ parser.Signed (pos 1) (pos max_version) }
{
    value_parser!(u16).range(1..=MAX_VERSION as i64)
}

/// Returns the range of the number of links that there may be room for.
fn link_counts<'a>() -> ValueParser<'a>
    ensures { result ≡ parser.Signed (pos 1) (pos max_links) }
{
    value_parser!(u16).range(1..=MAX_LINKS)
}

/// Returns the range of a code of a Configuration: 0 to 255.
fn codes_of<'a>() -> ValueParser<'a>
    ensures { result ≡ parser.Signed (pos 0) (pos 255) }
{
    value_parser!(u16).range(0..=MAX_CODE as i64)
}

/// Adds `--ostype` and `--filesys`, the codes of a Configuration, to a command line.
fn with_codes<'a>(alloc: Global, command: Command<'a>) -> Result<Command<'a>, Error>
    ensures added { IfOk result (HasCodes command.entry) }
    ensures memory { IfErr result (λ error. kind_of error ≡ ErrorKind.OutOfMemory) }
{
    let ostype = number(
        alloc,
        "ostype",
        "CODE",
        "18",
        "OSTYPE of the Configuration, 0 to 255",
        codes_of(),
    );
    let filesys = number(
        alloc,
        "filesys",
        "CODE",
        "13",
        "FILESYS of the Configuration, 0 to 255",
        codes_of(),
    );
    let command = command.arg(ostype)?.arg(filesys)?;
    Ok(command)
}

/// Adds `--syscap` to a command line: what an end says that it can do.
fn with_syscap<'a>(alloc: Global, command: Command<'a>) -> Result<Command<'a>, Error>
    ensures added { IfOk result (HasSyscap command.entry) }
    ensures memory { IfErr result (λ error. kind_of error ≡ ErrorKind.OutOfMemory) }
{
    let syscap = option(
        alloc,
        "syscap",
        "HEX",
        "2001c3466",
        "SYSCAP of the Configuration, by 1 to 21 hex digits",
    );
    let command = command.arg(syscap)?;
    Ok(command)
}

/// Adds all that an end says of itself to a command line.
fn with_identity<'a>(alloc: Global, command: Command<'a>) -> Result<Command<'a>, Error>
    ensures added { IfOk result (HasIdentity command.entry) }
    ensures memory { IfErr result (λ error. kind_of error ≡ ErrorKind.OutOfMemory) }
{
    let command = with_codes(alloc, command)?;
    let command = with_syscap(alloc, command)?;
    Ok(command)
}

/// Adds `--waiting` to a command line: how many bytes may wait, which only the server has.
fn with_waiting<'a>(alloc: Global, command: Command<'a>) -> Result<Command<'a>, Error>
    ensures added { IfOk result (HasWaiting command.entry) }
    ensures memory { IfErr result (λ error. kind_of error ≡ ErrorKind.OutOfMemory) }
{
    let waiting = number(
        alloc,
        "waiting",
        "BYTES",
        "1048576",
        "Serves no more while this many bytes of answers wait, 64 to 1073741824",
        waitings(),
    );
    let command = command.arg(waiting)?;
    Ok(command)
}

/// Adds `--links` to a command line: how many links there is room for, which only the server has.
fn with_links<'a>(alloc: Global, command: Command<'a>) -> Result<Command<'a>, Error>
    ensures added { IfOk result (HasLinks command.entry) }
    ensures memory { IfErr result (λ error. kind_of error ≡ ErrorKind.OutOfMemory) }
{
    let links = number(
        alloc,
        "links",
        "COUNT",
        "1",
        "Links that there is room for, 1 to 1023: with 2 and more each line names its link, and there is none at first",
        link_counts(),
    );
    let command = command.arg(links)?;
    Ok(command)
}

/// Adds `--names` and `--keep` to a command line: how names are compared, and how many versions a file has, which only
/// the server has.
fn with_names<'a>(alloc: Global, command: Command<'a>) -> Result<Command<'a>, Error>
    ensures added { IfOk result (HasNames command.entry) }
    ensures memory { IfErr result (λ error. kind_of error ≡ ErrorKind.OutOfMemory) }
{
    let names = option(
        alloc,
        "names",
        "HOW",
        "exact",
        "How names of files are compared: exact, byte by byte; folded, without directories, versions and case; or versions, so too, where a file that is made again gets the next number",
    );
    let keep = number(
        alloc,
        "keep",
        "COUNT",
        "3",
        "With --names versions, how many of a file are kept, 1 to 32767: one more replaces the lowest",
        kept_counts(),
    );
    let command = command.arg(names)?;
    let command = command.arg(keep)?;
    Ok(command)
}

/// Adds the limits of an end to a command line.
fn with_limits<'a>(alloc: Global, command: Command<'a>) -> Result<Command<'a>, Error>
    ensures added { IfOk result (HasLimits command.entry) }
    ensures memory { IfErr result (λ error. kind_of error ≡ ErrorKind.OutOfMemory) }
{
    let segment = number(
        alloc,
        "segment",
        "BYTES",
        "512",
        "Bytes of a segment at most, 1 to 1400",
        segments(),
    );
    let window = number(
        alloc,
        "window",
        "COUNT",
        "8",
        "Segments that may be unacknowledged, 1 to 2047",
        windows(),
    );
    let buffer = number(
        alloc,
        "buffer",
        "BYTES",
        "1024",
        "BUFSIZ: bytes of a message to this end at most, 64 to 65535",
        buffers(),
    );
    let command = command.arg(segment)?.arg(window)?.arg(buffer)?;
    Ok(command)
}

/// Returns the command line of an end.
fn end_command<'a>(alloc: Global, usual: &Usual) -> Result<Command<'a>, Error>
    ensures line { IfOk result
        (IsEndLine usual.now.name.now usual.now.local.now usual.now.remote.now) }
    ensures memory { IfErr result (λ error. kind_of error ≡ ErrorKind.OutOfMemory) }
{
    let command = Command::new(alloc, usual.name)
        .about(usual.about)
        .after_help(LINES);
    let command = with_addresses(alloc, command, usual)?;
    let command = with_limits(alloc, command)?;
    with_identity(alloc, command)
}

/// Returns the command line of the server.
fn serve_command<'a>(alloc: Global) -> Result<Command<'a>, Error>
    ensures line { IfOk result IsServeLine }
    ensures memory { IfErr result (λ error. kind_of error ≡ ErrorKind.OutOfMemory) }
{
    let command = end_command(alloc, &SERVING)?;
    let command = with_waiting(alloc, command)?;
    let command = with_links(alloc, command)?;
    with_names(alloc, command)
}

/// Returns the program's command line.
fn command_line<'a>(alloc: Global) -> Result<Command<'a>, Error>
    ensures line { IfOk result IsDapliveLine }
    ensures memory { IfErr result (λ error. kind_of error ≡ ErrorKind.OutOfMemory) }
{
    let command = Command::new(alloc, "daplive")
        .about(ABOUT)
        .subcommand_required(true)
        .disable_help_subcommand(true);
    let command = command.subcommand(serve_command(alloc)?)?;
    let command = command.subcommand(end_command(alloc, &ASKING)?)?;
    Ok(command)
}

/// Which end.
#[derive(Clone, Copy, PartialEq, Eq)]
pub enum Role {
    Serve,
    Ask,
}

/// What the words say.
#[derive(Clone, Copy, PartialEq, Eq)]
pub struct Options {
    pub role: Role,
    pub local: u16,
    pub remote: u16,
    pub segment: u16,
    pub window: u16,
    /// At least 64.
    pub buffer: u16,
    /// OSTYPE of this end's Configuration.
    pub ostype: u8,
    /// Its FILESYS.
    pub filesys: u8,
    /// Its SYSCAP, below 2^84.
    pub syscap: u128,
    /// The bytes that may wait while the server goes on; of no meaning to the client.
    pub waiting: u32,
    /// How many links the server has room for; with 2 and more the addresses are of no meaning. 1 for the client.
    pub links: u16,
    /// How names are compared; of no meaning to the client.
    pub names: Names,
}

/// How names are compared, by the word of `--names`.
#[derive(Clone, Copy)]
pub(crate) enum Compared {
    ByBytes,
    ByFolds,
    ByVersions,
}

/// How an option's value has to be spelled.
#[derive(Clone, Copy, PartialEq, Eq)]
pub(crate) enum Digits {
    /// By four hex digits.
    Address,
    /// By at most ten decimal digits.
    Number,
    /// By the same, of a number of bytes that may wait.
    Bytes,
    /// By the same, of a number from 0 to 255.
    Code,
    /// By 1 to 21 hex digits.
    Abilities,
    /// By one of three words.
    Comparing,
    /// Not at all: only where names have versions is there a number of those that are kept.
    Kept,
    /// Not at all: a server of several links has no address among its options.
    Nowhere,
}

/// An option whose value isn't spelled so.
#[derive(Clone, Copy)]
pub(crate) struct Misspelt<'a> {
    pub(crate) option: &'static str,
    pub(crate) value: &'a str,
    pub(crate) digits: Digits,
}

impl Display for Digits {
    fn fmt<W: fmt::Write>(&self, f: &mut fmt::Formatter<W>) -> fmt::Result {
        f.write_str(match self {
            Digits::Address => "an address is four hex digits",
            Digits::Number | Digits::Bytes | Digits::Code =>
                "a number is decimal digits, ten at most",
            Digits::Abilities => "a SYSCAP is 1 to 21 hex digits",
            Digits::Comparing => "names are exact, folded or versions",
            Digits::Kept => "goes with --names versions alone",
            Digits::Nowhere => "with several links the addresses are those of 'new'",
        })
    }
}

impl Display for Misspelt<'_> {
    fn fmt<W: fmt::Write>(&self, f: &mut fmt::Formatter<W>) -> fmt::Result {
        write!(f, "--{} {}: {}", self.option, self.value, self.digits)
    }
}

/// Returns the value of an option.
fn text_in<'a>(matches: &ArgMatches<'a>, name: &str) -> Option<&'a str>
    ensures { option_map (λ text. text.now) result
        ≡ first_of name.now (rows_of (found_of matches.now)) }
{
    matches.get_str(name)
}

/// Reads an address: four hex digits.
#[tactic(auto, using(crate::proofs::FirstLemmas::one_right, crate::proofs::FirstLemmas::one_wrong))]
fn address_in<'a>(matches: &ArgMatches<'a>, name: &'static str) -> Result<u16, Misspelt<'a>>
    ensures value { result_ok result
        ≡ option_and_then address_of (first_of name.now (rows_of (found_of matches.now))) }
    ensures misspelt { IfErr result (IsMisspelt (rows_of (found_of matches.now))) }
    ensures right { OnOk result
        (AreRight ((name.now, Digits.Address) ∷ []) (rows_of (found_of matches.now))) }
    ensures first { IfErr result
        (IsFirstWrong ((name.now, Digits.Address) ∷ []) (rows_of (found_of matches.now))) }
{
    let value = text_in(matches, name).unwrap_or("");
    match read_address(value.as_bytes()) {
        Some(address) => Ok(address),
        None => {
            Err(Misspelt {
                option: name,
                value,
                digits: Digits::Address,
            })
        }
    }
}

/// Reads a number: decimal digits.
#[tactic(auto, using(crate::proofs::FirstLemmas::one_right, crate::proofs::FirstLemmas::one_wrong))]
fn number_in<'a>(matches: &ArgMatches<'a>, name: &'static str) -> Result<u16, Misspelt<'a>>
    ensures value { result_ok result
        ≡ option_and_then short (first_of name.now (rows_of (found_of matches.now))) }
    ensures misspelt { IfErr result (IsMisspelt (rows_of (found_of matches.now))) }
    ensures right { OnOk result
        (AreRight ((name.now, Digits.Number) ∷ []) (rows_of (found_of matches.now))) }
    ensures first { IfErr result
        (IsFirstWrong ((name.now, Digits.Number) ∷ []) (rows_of (found_of matches.now))) }
{
    let value = text_in(matches, name).unwrap_or("");
    match read_short(value.as_bytes()) {
        Some(number) => Ok(number),
        None => {
            Err(Misspelt {
                option: name,
                value,
                digits: Digits::Number,
            })
        }
    }
}

/// Reads a code of a Configuration.
#[tactic(auto, using(crate::proofs::FirstLemmas::one_right, crate::proofs::FirstLemmas::one_wrong))]
fn code_in<'a>(matches: &ArgMatches<'a>, name: &'static str) -> Result<u8, Misspelt<'a>>
    ensures value { result_ok result
        ≡ option_and_then code_of (first_of name.now (rows_of (found_of matches.now))) }
    ensures misspelt { IfErr result (IsMisspelt (rows_of (found_of matches.now))) }
    ensures right { OnOk result
        (AreRight ((name.now, Digits.Code) ∷ []) (rows_of (found_of matches.now))) }
    ensures first { IfErr result
        (IsFirstWrong ((name.now, Digits.Code) ∷ []) (rows_of (found_of matches.now))) }
{
    let value = text_in(matches, name).unwrap_or("");
    match read_code(value) {
        Some(code) => Ok(code),
        None => {
            Err(Misspelt {
                option: name,
                value,
                digits: Digits::Code,
            })
        }
    }
}

/// Reads a number of 8 bits.
fn read_code(text: &str) -> Option<u8>
    ensures { result ≡ code_of text.now }
{
    let number = read_number(text.as_bytes(), MAX_CODE)?;
    Some(number as u8)
}

/// The maximum number of digits of a SYSCAP.
const SYSCAP_DIGITS: usize = 21;

/// The number after the maximum SYSCAP, which has 84 bits.
const SYSCAP_END: u128 = 1 << 84;

/// Returns the digits, with zeros before them.
fn padded(digits: &[u8]) -> [u8; 32]
    requires { length digits.now ≤ 21 }
    ensures { result ≡ replicate (32 - length digits.now) 48 ++ digits.now }
{
    let mut all = [b'0'; 32];
    all[32 - digits.len()..].copy_from_slice(digits);
    all
}

/// Reads the number of 16 bytes: their hex digits.
fn read_bytes(digits: &[u8]) -> Option<u128>
    ensures { result ≡ option_map (from_be_bytes w128) (result_ok (decode_sized digits.now 16)) }
{
    let mut bytes = [0; 16];
    match hex::decode_to_slice(digits, &mut bytes) {
        Ok(()) => Some(u128::from_be_bytes(bytes)),
        Err(_) => None,
    }
}

/// Reads a SYSCAP: hex digits.
fn read_syscap(text: &str) -> Option<u128>
    ensures value { result ≡ syscap_of text.now }
    ensures small { IfSome result (λ syscap. syscap < 2 ^ 84) }
{
    let digits = text.as_bytes();
    if digits.is_empty() || digits.len() > SYSCAP_DIGITS {
        return None;
    }
    let syscap = read_bytes(&padded(digits))?;
    if syscap < SYSCAP_END {
        Some(syscap)
    } else {
        None
    }
}

/// Reads what an end says that it can do.
#[tactic(auto, using(crate::proofs::FirstLemmas::one_right, crate::proofs::FirstLemmas::one_wrong))]
fn syscap_in<'a>(matches: &ArgMatches<'a>) -> Result<u128, Misspelt<'a>>
    ensures value { result_ok result ≡ option_and_then syscap_of
        (first_of (codes "syscap") (rows_of (found_of matches.now))) }
    ensures small { IfOk result (λ syscap. syscap < 2 ^ 84) }
    ensures misspelt { IfErr result (IsMisspelt (rows_of (found_of matches.now))) }
    ensures right { OnOk result
        (AreRight ((codes "syscap", Digits.Abilities) ∷ []) (rows_of (found_of matches.now))) }
    ensures first { IfErr result
        (IsFirstWrong ((codes "syscap", Digits.Abilities) ∷ []) (rows_of (found_of matches.now))) }
{
    let value = text_in(matches, "syscap").unwrap_or("");
    match read_syscap(value) {
        Some(syscap) => Ok(syscap),
        None => {
            Err(Misspelt {
                option: "syscap",
                value,
                digits: Digits::Abilities,
            })
        }
    }
}

/// Reads how names are compared, by its word.
fn read_compared(text: &str) -> Option<Compared>
    ensures { result ≡ compared_of text.now }
{
    match text.as_bytes() {
        word if is(word, "exact") => Some(Compared::ByBytes),
        word if is(word, "folded") => Some(Compared::ByFolds),
        word if is(word, "versions") => Some(Compared::ByVersions),
        _ => None,
    }
}

/// Returns names that are compared so, of which this number of versions is kept.
fn names_by(compared: Compared, keep: u16) -> Names
    ensures { result ≡ names_by compared keep }
{
    match compared {
        Compared::ByBytes => Names::Exact,
        Compared::ByFolds => Names::Folded,
        Compared::ByVersions => Names::Versions(keep),
    }
}

/// Returns whether names have versions.
fn has_versions(compared: Compared) -> bool
    ensures { result ≡ has_versions compared }
{
    matches!(compared, Compared::ByVersions)
}

/// Returns the fault of a number of versions where names have none.
fn kept_in_vain<'a>(matches: &ArgMatches<'a>) -> Misspelt<'a>
    requires { IsTrue (is_given_in (codes "keep") (rows_of (found_of matches.now))) }
    ensures misspelt { IsMisspelt (rows_of (found_of matches.now)) result }
    ensures told { (result.option.now ≡ codes "keep") × (result.digits ≡ Digits.Kept) }
{
    Misspelt {
        option: "keep",
        value: text_in(matches, "keep").unwrap_or(""),
        digits: Digits::Kept,
    }
}

/// Reads how names are compared; only where they have versions do the words say how many are kept. A client has no such
/// options.
#[tactic(auto, using(crate::proofs::FirstLemmas::names_right, crate::proofs::FirstLemmas::names_wrong, crate::proofs::FirstLemmas::keep_wrong))]
fn names_in<'a>(role: Role, matches: &ArgMatches<'a>) -> Result<Names, Misspelt<'a>>
    ensures value { result_ok result ≡ names_of role (rows_of (found_of matches.now)) }
    ensures misspelt { IfErr result (IsMisspelt (rows_of (found_of matches.now))) }
    ensures right { OnOk result (role ≡ Role.Serve
        → AreRight name_spellings (rows_of (found_of matches.now))) }
    ensures first { IfErr result
        (IsFirstWrong name_spellings (rows_of (found_of matches.now))) }
    ensures served { OnErr result (role ≡ Role.Serve) }
{
    if role == Role::Ask {
        return Ok(Names::Exact);
    }
    let keep = number_in(matches, "keep")?;
    let value = text_in(matches, "names").unwrap_or("");
    let Some(compared) = read_compared(value) else {
        return Err(Misspelt {
            option: "names",
            value,
            digits: Digits::Comparing,
        });
    };
    if is_given(matches, "keep") && !has_versions(compared) {
        return Err(kept_in_vain(matches));
    }
    Ok(names_by(compared, keep))
}

/// Reads how many bytes may wait while an end serves more; a client has no such option.
#[tactic(auto, using(crate::proofs::FirstLemmas::one_right, crate::proofs::FirstLemmas::one_wrong))]
fn waiting_in<'a>(role: Role, matches: &ArgMatches<'a>) -> Result<u32, Misspelt<'a>>
    ensures value { result_ok result ≡ waiting_of role (rows_of (found_of matches.now)) }
    ensures misspelt { IfErr result (IsMisspelt (rows_of (found_of matches.now))) }
    ensures right { OnOk result (role ≡ Role.Serve
        → AreRight ((codes "waiting", Digits.Bytes) ∷ []) (rows_of (found_of matches.now))) }
    ensures first { IfErr result
        (IsFirstWrong ((codes "waiting", Digits.Bytes) ∷ []) (rows_of (found_of matches.now))) }
    ensures served { OnErr result (role ≡ Role.Serve) }
{
    if role == Role::Ask {
        return Ok(USUAL_WAITING);
    }
    let value = text_in(matches, "waiting").unwrap_or("");
    match read_number(value.as_bytes(), MAX_WAITING) {
        Some(bytes) => Ok(bytes),
        None => {
            Err(Misspelt {
                option: "waiting",
                value,
                digits: Digits::Bytes,
            })
        }
    }
}

/// Returns whether a value is in the words, and no default.
fn is_word(source: Option<ValueSource>) -> bool
    ensures { result ≡ is_in_words source }
{
    matches!(source, Some(ValueSource::CommandLine))
}

/// Returns whether the words give an option a value.
fn is_given(matches: &ArgMatches<'_>, name: &str) -> bool
    ensures { result ≡ is_given_in name.now (rows_of (found_of matches.now)) }
{
    is_word(matches.value_source(name))
}

/// Returns whether the words give an end an address.
fn is_addressed(matches: &ArgMatches<'_>) -> bool
    ensures { result ≡ has_address (rows_of (found_of matches.now)) }
{
    is_given(matches, "local") || is_given(matches, "remote")
}

/// Returns the fault of an address that the words give where no address is allowed.
fn addressed<'a>(matches: &ArgMatches<'a>, name: &'static str) -> Misspelt<'a>
    requires { IsTrue (is_given_in name.now (rows_of (found_of matches.now))) }
    ensures misspelt { IsMisspelt (rows_of (found_of matches.now)) result }
    ensures told { (result.option.now ≡ name.now) × (result.digits ≡ Digits.Nowhere) }
{
    Misspelt {
        option: name,
        value: text_in(matches, name).unwrap_or(""),
        digits: Digits::Nowhere,
    }
}

/// Returns the fault of the first address that the words give.
fn first_address<'a>(matches: &ArgMatches<'a>) -> Misspelt<'a>
    requires { IsTrue (has_address (rows_of (found_of matches.now))) }
    ensures misspelt { IsMisspelt (rows_of (found_of matches.now)) result }
    ensures digits { result.digits ≡ Digits.Nowhere }
    ensures first { result.option.now
        ≡ (if is_given_in (codes "local") (rows_of (found_of matches.now))
        then codes "local" else codes "remote") }
{
    if is_given(matches, "local") {
        addressed(matches, "local")
    } else {
        addressed(matches, "remote")
    }
}

/// Reads how many links there is room for; with several of them the words give no address. A client has one.
#[tactic(auto, using(crate::proofs::FirstLemmas::links_right, crate::proofs::FirstLemmas::links_wrong))]
fn links_in<'a>(role: Role, matches: &ArgMatches<'a>) -> Result<u16, Misspelt<'a>>
    ensures value { result_ok result ≡ links_of role (rows_of (found_of matches.now)) }
    ensures misspelt { IfErr result (IsMisspelt (rows_of (found_of matches.now))) }
    ensures right { OnOk result (role ≡ Role.Serve
        → AreRight link_spellings (rows_of (found_of matches.now))) }
    ensures first { IfErr result
        (IsFirstWrong link_spellings (rows_of (found_of matches.now))) }
    ensures served { OnErr result (role ≡ Role.Serve) }
{
    if role == Role::Ask {
        return Ok(1);
    }
    let links = number_in(matches, "links")?;
    if links > 1 && is_addressed(matches) {
        return Err(first_address(matches));
    }
    Ok(links)
}

/// Reads how an end is set up, or returns the first value that isn't spelled as it has to be; of a server, then the
/// first address where there are several links, and last how names are compared.
fn options_in<'a>(role: Role, matches: &ArgMatches<'a>) -> Result<Options, Misspelt<'a>>
    ensures options { result_ok result ≡ options_of role (rows_of (found_of matches.now)) }
    ensures room { IfOk result (λ o. min_buffer ≤ o.buffer) }
    ensures syscap { IfOk result (λ o. o.syscap < 2 ^ 84) }
    ensures misspelt { IfErr result (IsMisspelt (rows_of (found_of matches.now))) }
    ensures first { IfErr result
        (IsFirstWrong (spellings role) (rows_of (found_of matches.now))) }
{
    let local = address_in(matches, "local")?;
    let remote = address_in(matches, "remote")?;
    let segment = number_in(matches, "segment")?;
    let window = number_in(matches, "window")?;
    let buffer = number_in(matches, "buffer")?.max(MIN_BUFFER);
    let ostype = code_in(matches, "ostype")?;
    let filesys = code_in(matches, "filesys")?;
    let syscap = syscap_in(matches)?;
    let waiting = waiting_in(role, matches)?;
    let links = links_in(role, matches)?;
    let names = names_in(role, matches)?;
    Ok(Options {
        role,
        local,
        remote,
        segment,
        window,
        buffer,
        ostype,
        filesys,
        syscap,
        waiting,
        links,
        names,
    })
}

/// Reads which end a word names, and how those after it set it up.
fn end_in<'a>(name: &str, matches: &ArgMatches<'a>) -> Result<Options, Misspelt<'a>>
    ensures options { result_ok result ≡ end_of_rows (name.now, rows_of (found_of matches.now)) }
    ensures room { IfOk result HasBufferRoom }
    ensures misspelt { IfErr result (IsMisspelt (rows_of (found_of matches.now))) }
{
    if is(name.as_bytes(), "serve") {
        options_in(Role::Serve, matches)
    } else {
        options_in(Role::Ask, matches)
    }
}

/// Reads which end the words name, the program's name first, and how they set it up, or returns the first value that
/// isn't spelled as it has to be.
pub(crate) fn read_words<'a>(
    alloc: Global,
    words: &'a [String],
) -> Result<Result<Options, Misspelt<'a>>, Error>
    ensures options { IfOk result
        (λ named. result_ok named ≡ end_named (map string_bytes words.entry.now)) }
    ensures room { IfOk result (λ named. IfOk named HasBufferRoom) }
    ensures misspelt { IfOk result (λ named. IfErr named
        (λ m. IfSome (subcommand_of daplive (map string_bytes words.entry.now))
        (λ found. IsMisspelt found.1 m))) }
    ensures kinds { FailsBy (fault_of daplive (map string_bytes words.entry.now)) result }
{
    let command = command_line(alloc)?;
    let matches = command.try_get_matches_from(words)?;
    match matches.subcommand() {
        Some((name, matches)) => Ok(end_in(name, matches)),
        None => unreachable!(),
    }
}

/// Returns what is told where the word after the program's name is one of captures, which `dapcap` lists.
pub(crate) fn capture_hint(words: &[String]) -> Option<&'static str>
    ensures { option_map (λ hint. hint.now) result ≡ capture_hint (map string_bytes words.now) }
{
    let word = words.get(1)?.as_bytes();
    if is(word, "follow") {
        Some("daplive: follow: dapcap lists captures; see dapcap --help\n")
    } else if is(word, "watch") {
        Some("daplive: watch: dapcap lists captures; see dapcap --help\n")
    } else if is(word, "frames") {
        Some("daplive: frames: dapcap lists captures; see dapcap --help\n")
    } else {
        None
    }
}
