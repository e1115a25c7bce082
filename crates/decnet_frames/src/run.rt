//! The packets of a capture file, listed as they are read.

ghost use Rattle.std.specs.Prelude.{◌≡◌, ◌≤◌, ◌<◌, ◌++◌, ℕ, List, [], Option, None, IfErr, IfOk, IfSome, OnErr, OnOk, length, take};
ghost use Rattle.std.specs.Io.KnownBytes.{Appends};
ghost use Rattle.linewise.specs.Output.{WritesFront};
ghost use Rattle.capture_file.specs.Reading.{HasRead, IsReady};
ghost use Rattle.decnet_frames.specs.Listed.{IsListed, IsListedTo};
ghost use Rattle.decnet_frames.specs.Inner.Progress.{HasListed, IsAt, IsEnded, StepFails};
ghost use Rattle.decnet_frames.specs.declared.ways.Between.{Between as TheBetween};

use crate::taking::Takes;
use crate::tally::{Counts, Tally};
use crate::ways::Between;
use capture_file::{FaultKind, FileFault, Reading};
use linewise::{CHUNK, write_text};
use std::alloc::Global;
use std::io::{Read, Write};
use thiserror::Error;

/// Why a capture file isn't listed to its end.
#[derive(Clone, Copy, Debug, PartialEq, Eq, Error)]
pub enum FramesFault {
    /// The file is at fault, after this many frames.
    #[error("{0}")]
    File(FileFault, Counts),
    #[error("read failed")]
    ReadFailed,
    #[error("write failed")]
    WriteFailed,
    #[error("no memory")]
    NoMemory,
}

/// A file as far as it was read, and what was counted of it.
#[derive(Drop)]
pub(crate) struct Frames {
    pub(crate) reading: Reading,
    pub(crate) tally: Tally,
    /// The text that isn't written yet.
    pub(crate) text: Vec<u8>,
}

impl Frames {
    /// Returns a listing of which nothing was read yet.
    fn new(alloc: Global, between: Between) -> Self
        ensures read { HasRead result.reading [] [] }
        ensures between { result.tally.ways.between ≡ between }
        ensures pairs { result.tally.ways.pairs.known.keys ≡ [] }
        ensures count { result.tally.count ≡ 0 }
        ensures taken { result.tally.taken ≡ 0 }
        ensures text { result.text.items ≡ [] }
    {
        Frames {
            reading: Reading::new(alloc),
            tally: Tally::new(alloc, between),
            text: Vec::new(alloc),
        }
    }

    /// Takes bytes of a piece, no further than the end of a frame, and returns how many.
    fn take_frame<T: Takes>(&mut self, taker: &mut T, piece: &[u8]) -> Result<usize, FileFault>
        requires { IsReady self.old.reading }
        ensures within { IfOk result (λ count. count ≤ length piece.now) }
        ensures some { IfOk result (λ count. 0 < length piece.now → 0 < count) }
        ensures ready { OnOk result (IsReady self.new.reading) }
        ensures listed { IfOk result (λ count.
            (between : TheBetween) (first : T) (bytes written : List ℕ)
            → HasListed T.taken between first self.old taker.old bytes written
            → HasListed T.taken between first self.new taker.new
            (bytes ++ take count piece.now) written) }
        ensures fault { IfErr result
            (StepFails T.taken self.old taker.old self.new taker.new piece.now) }
    {
        let at = self.reading.offset();
        let step = match self.reading.take(piece) {
            Ok(step) => step,
            Err(fault) => return Err(fault),
        };
        let Some(given) = step.given else {
            return Ok(step.taken);
        };
        let frame = self.reading.frame(given);
        match self.tally.give_frame(taker, given.time, given.is_ethernet, frame, &mut self.text) {
            Ok(()) => Ok(step.taken),
            Err(_) => Err(FileFault {
                kind: FaultKind::NoMemory,
                at,
            }),
        }
    }

    /// Takes a piece.
    fn take_piece<T: Takes>(&mut self, taker: &mut T, piece: &[u8]) -> Result<(), FileFault>
        requires { IsReady self.old.reading }
        ensures ready { OnOk result (IsReady self.new.reading) }
        ensures listed { OnOk result ((between : TheBetween) (first : T) (bytes written : List ℕ)
            → HasListed T.taken between first self.old taker.old bytes written
            → HasListed T.taken between first self.new taker.new (bytes ++ piece.now) written) }
        ensures fault { IfErr result
            (StepFails T.taken self.old taker.old self.new taker.new piece.now) }
    {
        let mut rest = piece;
        while !rest.is_empty() {
            let count = match self.take_frame(taker, rest) {
                Ok(count) => count,
                Err(fault) => return Err(fault),
            };
            let (_, behind) = rest.split_at(count);
            rest = behind;
        }
        Ok(())
    }
}

/// Writes the text that isn't written yet, and flushes.
fn write_waiting<W: Write>(text: &mut Vec<u8>, writer: &mut W) -> Result<(), FramesFault>
    ensures written { OnOk result
        (Appends (W.contents writer.old) (W.contents writer.new) text.old.items) }
    ensures text { OnOk result (text.new.items ≡ []) }
    ensures front { OnErr result
        (WritesFront (W.contents writer.old) (W.contents writer.new) text.old.items) }
    ensures fault { IfErr result (λ fault. fault ≡ FramesFault.WriteFailed) }
{
    if text.is_empty() {
        return Ok(());
    }
    if write_text(text, writer).is_err() {
        return Err(FramesFault::WriteFailed);
    }
    text.clear();
    Ok(())
}

/// Writes the text before a fault, and returns the fault.
fn end_at<W: Write>(
    text: &mut Vec<u8>,
    fault: FileFault,
    counts: Counts,
    writer: &mut W,
) -> FramesFault
    ensures { IsEnded fault counts text.old.items (W.contents writer.old)
        (W.contents writer.new) result }
{
    if let Err(failed) = write_waiting(text, writer) {
        return failed;
    }
    if fault.kind == FaultKind::NoMemory {
        return FramesFault::NoMemory;
    }
    FramesFault::File(fault, counts)
}

/// Reads some bytes, and writes the text of the frames that are whole with them; at the end of the file, returns the
/// counts.
fn list_some<T: Takes, R: Read, W: Write>(
    frames: &mut Frames,
    taker: &mut T,
    chunk: &mut [u8],
    reader: &mut R,
    writer: &mut W,
) -> Result<Option<Counts>, FramesFault>
    requires room { 0 < length chunk.old }
    requires ready { IsReady frames.old.reading }
    ensures room { length chunk.new ≡ length chunk.old }
    ensures ready { IfOk result (λ end. end ≡ None → IsReady frames.new.reading) }
    ensures goes { IfOk result (λ end. end ≡ None → (between : TheBetween) (first : T)
        (input written : Option (List ℕ))
        → IsAt T.taken between first frames.old taker.old input (R.remaining reader.old) written
        (W.contents writer.old)
        → IsAt T.taken between first frames.new taker.new input (R.remaining reader.new) written
        (W.contents writer.new)) }
    ensures whole { IfOk result (λ end. IfSome end (λ counts. (between : TheBetween) (first : T)
        (input written : Option (List ℕ))
        → IsAt T.taken between first frames.old taker.old input (R.remaining reader.old) written
        (W.contents writer.old)
        → IfSome input (λ bytes. IsListed T.taken between first bytes taker.new written
        (W.contents writer.new) counts))) }
    ensures fault { IfErr result (λ fault. (between : TheBetween) (first : T)
        (input written : Option (List ℕ))
        → IsAt T.taken between first frames.old taker.old input (R.remaining reader.old) written
        (W.contents writer.old)
        → IfSome input (λ bytes. IsListedTo T.taken between first bytes taker.new
        (R.remaining reader.new) written (W.contents writer.new) fault)) }
{
    let count = match reader.read(chunk) {
        Ok(count) => count,
        Err(_) => return Err(FramesFault::ReadFailed),
    };
    if count == 0 {
        let counts = frames.tally.counts();
        return match frames.reading.finish() {
            Ok(()) => Ok(Some(counts)),
            Err(fault) => Err(FramesFault::File(fault, counts)),
        };
    }
    match frames.take_piece(taker, &chunk[..count]) {
        Ok(()) => match write_waiting(&mut frames.text, writer) {
            Ok(()) => Ok(None),
            Err(fault) => Err(fault),
        },
        Err(fault) => {
            let counts = frames.tally.counts();
            Err(end_at(&mut frames.text, fault, counts, writer))
        }
    }
}

/// Reads to the end, and writes the text of each frame once it is read.
fn list_all<T: Takes, R: Read, W: Write>(
    frames: &mut Frames,
    taker: &mut T,
    chunk: &mut [u8],
    reader: &mut R,
    writer: &mut W,
) -> Result<Counts, FramesFault>
    requires room { 0 < length chunk.old }
    requires ready { IsReady frames.old.reading }
    ensures whole { IfOk result (λ counts. (between : TheBetween) (first : T)
        (input written : Option (List ℕ))
        → IsAt T.taken between first frames.old taker.old input (R.remaining reader.old) written
        (W.contents writer.old)
        → IfSome input (λ bytes. IsListed T.taken between first bytes taker.new written
        (W.contents writer.new) counts)) }
    ensures fault { IfErr result (λ fault. (between : TheBetween) (first : T)
        (input written : Option (List ℕ))
        → IsAt T.taken between first frames.old taker.old input (R.remaining reader.old) written
        (W.contents writer.old)
        → IfSome input (λ bytes. IsListedTo T.taken between first bytes taker.new
        (R.remaining reader.new) written (W.contents writer.new) fault)) }
{
    for _ in 0..u64::MAX {
        match list_some(frames, taker, chunk, reader, writer) {
            Ok(None) => {}
            Ok(Some(counts)) => return Ok(counts),
            Err(fault) => return Err(fault),
        }
    }
    Err(FramesFault::ReadFailed)
}

/// Reads a capture file to its end, gives the NSP packets of its frames to a taker, and writes what that makes of them.
/// The text of a frame is written and flushed before more is read. Returns how many packets were taken, and how many
/// frames passed over.
///
/// Each packet has `frame N TIME`, N its frame's number over all frames, from 1, and its two nodes. Between two nodes
/// the packets of all others are passed over, and `>` is from the first of them. Between all, `>` is from the sender of
/// the first packet of its pair of nodes; the first 65,536 pairs are kept so, and of a later one `>` is from the lower
/// node.
///
/// `File`: the file is at fault, and the text of the frames before it is written. `ReadFailed`: that of just the frames
/// that were read is. `NoMemory`: that of frames before the one to which memory was refused is, and no part of a text.
/// `WriteFailed`: a prefix of such a text is. What is kept of the file is at most a frame or block of `MAX_UNIT` bytes,
/// 64 KiB of input, the text of that, `MAX_INTERFACES` interfaces, and 4 bytes and a map's entry for each pair.
pub fn list_frames<T: Takes, R: Read, W: Write>(
    alloc: Global,
    between: Between,
    taker: &mut T,
    reader: &mut R,
    writer: &mut W,
) -> Result<Counts, FramesFault>
    ensures whole { IfOk result (λ counts. IfSome (R.remaining reader.old)
        (λ input. IsListed T.taken between taker.old input taker.new (W.contents writer.old)
        (W.contents writer.new) counts)) }
    ensures fault { IfErr result (λ fault. IfSome (R.remaining reader.old) (λ input.
        IsListedTo T.taken between taker.old input taker.new (R.remaining reader.new)
        (W.contents writer.old) (W.contents writer.new) fault)) }
{
    let Ok(mut chunk) = vec![in alloc; 0u8; CHUNK] else {
        return Err(FramesFault::NoMemory);
    };
    let mut frames = Frames::new(alloc, between);
    list_all(&mut frames, taker, &mut chunk, reader, writer)
}
