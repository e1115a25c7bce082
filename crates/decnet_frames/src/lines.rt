//! The packets of the lines of a capture, listed as they are read.

ghost use Rattle.std.specs.Prelude.{◌≡◌, ◌≢◌, ◌∷◌, ◌-◌, [], IfErr, IfOk, IfSome, OnOk, filter, true};
ghost use Rattle.std.specs.List.{list_any};
ghost use Rattle.std.specs.Str.Lines.{lines};
ghost use Rattle.linewise.specs.declared.talking.Became.{Became as TheBecame};
ghost use Rattle.texts.specs.Words.{is_hex_text};
ghost use Rattle.decnet_frames.specs.Found.{TakesAll, found_seen};
ghost use Rattle.decnet_frames.specs.Inner.Lines.{ListsLine, PassesBy, LinesStart, TakesLine};
ghost use Rattle.decnet_frames.specs.Lines.{LinesFail, LinesListed, found_by, is_refused, takes_packet};
ghost use Rattle.decnet_frames.specs.Origins.{origin_of as the_origin};

use crate::origins::origin_of;
use crate::taking::{Found, Takes};
use crate::tally::Counts;
use crate::ways::{Between, is_between};
use dap_listing::{Direction, line_packet};
use linewise::{Answer, Answers, Became, CaptureFault, talk};
use std::alloc::{AllocError, Global};
use std::io::{BufRead, Write};
use texts::decode_hex;

/// What is kept of lines as far as they were read.
#[derive(Drop)]
pub(crate) struct Kept {
    pub(crate) between: Between,
    /// How many packets there were.
    pub(crate) count: u64,
    /// How many of them were taken.
    pub(crate) taken: u64,
    /// The line directly before, where it tells of a packet; else nothing.
    pub(crate) before: Vec<u8>,
    /// Room for the bytes of a packet.
    pub(crate) room: Vec<u8>,
}

/// A taker, and what is kept of the lines. It owns no memory, since after a drop of that nothing would be known of what
/// is after its references.
#[derive(Drop)]
pub(crate) struct Listing<'a, T: Takes> {
    pub(crate) taker: &'a mut T,
    pub(crate) kept: &'a mut Kept,
}

/// Returns a packet, by what the line directly before it tells.
fn found_after<'a>(before: &'a [u8], way: Direction, packet: &'a [u8]) -> Found<'a>
    ensures { found_seen result ≡ found_by (the_origin before.now) way packet.now }
{
    match origin_of(before) {
        Some(origin) => Found {
            way,
            frame: origin.frame,
            nodes: Some(origin.nodes),
            packet,
        },
        None => Found {
            way,
            frame: b"",
            nodes: None,
            packet,
        },
    }
}

/// Returns whether a packet is taken.
fn is_wanted(between: Between, found: &Found<'_>) -> bool
    ensures { result ≡ takes_packet between (found_seen found.now) }
{
    match (between, found.nodes) {
        (Between::All, _) => true,
        (Between::Two(ends), Some(nodes)) => is_between(ends, nodes),
        (Between::Two(_), None) => false,
    }
}

/// Gives a packet to a taker, if it is one that is taken; returns whether it is.
fn give_wanted<T: Takes>(
    taker: &mut T,
    between: Between,
    found: &Found<'_>,
    text: &mut Vec<u8>,
) -> Result<bool, AllocError>
    requires { text.old.items ≡ [] }
    ensures wanted { IfOk result (λ is. is ≡ takes_packet between (found_seen found.now)) }
    ensures given { OnOk result (TakesAll T.taken taker.old
        (filter (takes_packet between) (found_seen found.now ∷ [])) taker.new text.new.items) }
{
    if !is_wanted(between, found) {
        return Ok(false);
    }
    taker.take(text, found)?;
    Ok(true)
}

impl Kept {
    /// Gives the packet of a line to a taker, if it is one that is taken. Its line tells nothing of the next packet.
    fn take_packet<T: Takes>(
        &mut self,
        taker: &mut T,
        text: &mut Vec<u8>,
        way: Direction,
        digits: &[u8],
    ) -> Result<(), AllocError>
        requires hex { is_hex_text digits.now ≡ true }
        requires empty { text.old.items ≡ [] }
        ensures { OnOk result (TakesLine T.taken (way, digits.now) taker.old self.old taker.new
            self.new text.new.items) }
    {
        self.room.resize(digits.len() / 2, 0)?;
        decode_hex(digits, &mut self.room);
        self.count = self.count.saturating_add(1);
        let found = found_after(&self.before, way, &self.room);
        if give_wanted(taker, self.between, &found, text)? {
            self.taken = self.taken.saturating_add(1);
        }
        self.before.clear();
        Ok(())
    }

    /// Returns how many packets were taken, and how many passed over.
    fn counts(&self) -> Counts
        ensures taken { result.taken ≡ self.now.taken }
        ensures passed { result.passed ≡ self.now.count - self.now.taken }
    {
        Counts {
            taken: self.taken,
            passed: self.count.saturating_sub(self.taken),
        }
    }
}

impl<T: Takes> Listing<'_, T> {
    /// Lists a packet. Where memory is refused, nothing of it is said.
    fn list_packet(&mut self, text: &mut Vec<u8>, way: Direction, digits: &[u8]) -> Became
        requires hex { is_hex_text digits.now ≡ true }
        requires empty { text.old.items ≡ [] }
        ensures done { result ≡ TheBecame.Done
            → ListsLine T.taken (way, digits.now) self.old self.new text.new.items }
        ensures refused { result ≢ TheBecame.Done
            → (result ≡ TheBecame.NoMemory) × (text.new.items ≡ []) }
        ensures same { self.new.taker.ghost_name ≡ self.old.taker.ghost_name }
    {
        match self.kept.take_packet(self.taker, text, way, digits) {
            Ok(()) => Became::Done,
            Err(_) => {
                text.clear();
                Became::NoMemory
            }
        }
    }

    /// Takes a line without a packet: it is kept where it tells of one, and the line before it is dropped.
    fn keep_line(&mut self, line: &[u8]) -> Result<(), AllocError>
        ensures passed { OnOk result (PassesBy line.now self.old self.new) }
        ensures same { self.new.taker.ghost_name ≡ self.old.taker.ghost_name }
    {
        self.kept.before.clear();
        match origin_of(line) {
            Some(_) => self.kept.before.extend_from_slice(line),
            None => Ok(()),
        }
    }

    /// Passes by a line that is skipped.
    fn pass_by(&mut self, line: &[u8]) -> Became
        ensures done { result ≡ TheBecame.Done → PassesBy line.now self.old self.new }
        ensures refused { result ≢ TheBecame.Done → result ≡ TheBecame.NoMemory }
        ensures same { self.new.taker.ghost_name ≡ self.old.taker.ghost_name }
    {
        match self.keep_line(line) {
            Ok(()) => Became::Done,
            Err(_) => Became::NoMemory,
        }
    }
}

impl<T: Takes> Answers for Listing<'_, T> {
    ghost use Rattle.decnet_frames.specs.Inner.Lines.{answered, no_pieces, waiting};

    type Cursor = ();

    ghost answered = { answered T.taken };

    ghost waiting = { waiting };

    ghost pieces = { no_pieces };

    fn answer(&mut self, line: &[u8], text: &mut Vec<u8>) -> Answer<()> {
        match line_packet(1, line) {
            Ok(None) => Answer::Whole(self.pass_by(line)),
            Ok(Some((way, digits))) => Answer::Whole(self.list_packet(text, way, digits)),
            Err(_) => {
                self.kept.before.clear();
                Answer::Whole(Became::BadLine)
            }
        }
    }

    fn miss(&mut self) {
        self.kept.before.clear();
    }

    fn more(&self, _cursor: (), _text: &mut Vec<u8>) -> Result<Option<()>, AllocError> {
        Ok(None)
    }

    fn waits(&self) -> Option<usize> {
        None
    }
}

/// Lists lines to their end. The reference to the taker stays.
fn list_all<T: Takes, R: BufRead, W: Write, E: Write>(
    alloc: Global,
    listing: &mut Listing<'_, T>,
    reader: &mut R,
    writer: &mut W,
    error_writer: &mut E,
) -> Result<(bool, Counts), CaptureFault>
    requires { LinesStart listing.old }
    ensures same { IfSome (R.remaining reader.old) (λ _.
        listing.new.taker.ghost_name ≡ listing.old.taker.ghost_name) }
    ensures listed { IfOk result (λ done. IfSome (R.remaining reader.old) (λ input.
        LinesListed T.taken listing.old.kept.now.between listing.old.taker.now input
        listing.new.taker.now (W.contents writer.old) (W.contents writer.new) done.1)) }
    ensures told { IfOk result (λ done. IfSome (R.remaining reader.old) (λ input.
        done.0 ≡ list_any is_refused (lines input))) }
    ensures fault { IfErr result (λ fault. IfSome (R.remaining reader.old) (λ input.
        LinesFail T.taken listing.old.kept.now.between listing.old.taker.now input
        listing.new.taker.now (R.remaining reader.new) (W.contents writer.old) (W.contents writer.new) fault)) }
{
    match talk(alloc, listing, reader, writer, error_writer) {
        Ok(bad) => Ok((bad, listing.kept.counts())),
        Err(fault) => Err(fault),
    }
}

/// Reads the lines of a capture to their end, gives their packets to a taker, and writes what that makes of them: the
/// text of a packet is written and flushed before more is read. Returns whether some line was bad, and how many packets
/// were taken and how many passed over.
///
/// A packet has the sign of its line, and `frame N TIME` and the nodes of the line directly before it, if `origin_of`
/// reads that line. Between two nodes all other packets are passed over, also those whose nodes aren't known. A bad
/// line is reported to the error writer by its number, from 1, and has no packet; nor does it tell of one.
///
/// Faults: as `linewise::talk`. `ReadFailed`: the text of the packets of all lines that were read whole is written.
/// `NoMemory`: that of the packets of lines before the one to which memory was refused. `WriteFailed`: a prefix of such
/// a text. What is kept is a line, a comment, a packet and its text.
pub fn list_lines<T: Takes, R: BufRead, W: Write, E: Write>(
    alloc: Global,
    between: Between,
    taker: &mut T,
    reader: &mut R,
    writer: &mut W,
    error_writer: &mut E,
) -> Result<(bool, Counts), CaptureFault>
    ensures listed { IfOk result (λ done. IfSome (R.remaining reader.old) (λ input.
        LinesListed T.taken between taker.old input taker.new (W.contents writer.old)
        (W.contents writer.new) done.1)) }
    ensures told { IfOk result (λ done. IfSome (R.remaining reader.old) (λ input.
        done.0 ≡ list_any is_refused (lines input))) }
    ensures fault { IfErr result (λ fault. IfSome (R.remaining reader.old) (λ input.
        LinesFail T.taken between taker.old input taker.new (R.remaining reader.new)
        (W.contents writer.old) (W.contents writer.new) fault)) }
{
    let mut kept = Kept {
        between,
        count: 0,
        taken: 0,
        before: Vec::new(alloc),
        room: Vec::new(alloc),
    };
    let mut listing = Listing {
        taker,
        kept: &mut kept,
    };
    list_all(alloc, &mut listing, reader, writer, error_writer)
}
